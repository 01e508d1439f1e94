// Heads as the log keeps them.
ghost use Rattle.std.specs.Prelude.{◌≡◌, ◌↔◌, IsTrue, IfOk, MatchOption};
ghost use Rattle.s80_change.specs.declared.head.SectionHead.{SectionHead as Head};
ghost use Rattle.s80_change.specs.Head.{IsHeadOf, IsLawfulHead, IsNoHeadText, head_text};

use crate::head::{SectionHead, is_brief_head};
use crate::head_parts::parts;
use s80_base::{OutOfMemory, Text};
use s80_form::{add_quoted, is_name, side_text};
use std::alloc::Global;

/// The text of a head.
pub fn head_text(alloc: Global, head: &SectionHead) -> Result<Text, OutOfMemory>
    ensures { IfOk result (λ text. text ≡ head_text head.now) }
{
    let mut text = head.class_name.copy(alloc)?;
    text.append(side_text(head.side))?;
    text.append(b" methodsFor: ")?;
    add_quoted(&mut text, head.category.bytes())?;
    Ok(text)
}

/// The lawful head that has this very text, if there is one. The text may be longer than one that is read from a chunk.
pub fn read_head(alloc: Global, text: &Text) -> Result<Option<SectionHead>, OutOfMemory>
    ensures { IfOk result (λ found. MatchOption found (IsNoHeadText text.now) (λ head. IsLawfulHead head × (text.now ≡ head_text head))) }
{
    let head = parts(alloc, text.bytes())?;
    if !is_lawful(&head) {
        return Ok(None);
    }
    let spelled = head_text(alloc, &head)?;
    if spelled.bytes() == text.bytes() {
        Ok(Some(head))
    } else {
        Ok(None)
    }
}

/// The text of a lawful head is that head.
pub fn a_head_text_is_a_head()
    ensures { (head : Head) → IsLawfulHead head → IsHeadOf (head_text head) head }
{}

/// Each lawful head has a text of its own.
pub fn one_head_text()
    ensures { (one other : Head) → IsLawfulHead one → IsLawfulHead other → head_text one ≡ head_text other → one ≡ other }
{}

fn is_lawful(head: &SectionHead) -> bool
    ensures { IsTrue result ↔ IsLawfulHead head.now }
{
    is_name(head.class_name.bytes()) && is_brief_head(head)
}
