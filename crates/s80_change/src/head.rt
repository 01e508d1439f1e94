// Heads of sections.
ghost use Rattle.std.specs.Prelude.{◌≡◌, ◌≤◌, ◌↔◌, List, ℕ, length, IsTrue, IfOk, IfErr};
ghost use Rattle.s80_change.specs.Head.{IsBriefHead, IsHeadFault, IsHeadOf};

use crate::head_form::recognise_head;
use s80_base::{OutOfMemory, Side, Text};
use s80_form::is_brief;
use s80_syntax::{ParseFault, parse_doit};
use std::alloc::Global;

/// What the head of a section says of its methods.
#[derive(Debug, Drop)]
pub struct SectionHead {
    pub class_name: Text,
    pub side: Side,
    pub category: Text,
}

/// Why a text is no head.
#[derive(Clone, Copy, Debug, PartialEq, Eq)]
pub enum HeadFault {
    Memory,
    /// It is no doIt.
    Syntax(ParseFault),
    /// It is a doIt of another form.
    NoSection,
}

/// The head that a text is: a doIt `N methodsFor: 'c'`, or `N class methodsFor: 'c'` on the class side, by its tree
/// (Krasner, "The Smalltalk-80 Code File Format").
pub fn head_of(alloc: Global, text: &Text) -> Result<SectionHead, HeadFault>
    requires { length text.now ≤ 65535 }
    ensures head { IfOk result (IsHeadOf text.now) }
    ensures fault { IfErr result (IsHeadFault text.now) }
{
    let tree = match parse_doit(alloc, text) {
        Ok(tree) => tree,
        Err(ParseFault::Memory) => return Err(HeadFault::Memory),
        Err(fault) => return Err(HeadFault::Syntax(fault)),
    };
    match recognise_head(alloc, &tree) {
        Ok(Some(head)) => Ok(head),
        Ok(None) => Err(HeadFault::NoSection),
        Err(OutOfMemory) => Err(HeadFault::Memory),
    }
}

/// A text is one head.
pub fn one_head()
    ensures { (text : List ℕ) (one other : SectionHead) → IsHeadOf text one → IsHeadOf text other → one ≡ other }
{}

/// Whether the name of a head's class and its category are brief.
pub(crate) fn is_brief_head(head: &SectionHead) -> bool
    ensures { IsTrue result ↔ IsBriefHead head.now }
{
    is_brief(&head.class_name) && is_brief(&head.category)
}
