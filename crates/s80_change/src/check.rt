// Why a text is refused by itself.
ghost use Rattle.std.specs.Prelude.{◌≡◌, ℕ, List, Ok, Result, IfOk, OnErr};
ghost use Rattle.s80_tree.specs.Tree.{doit_of, method_of};
ghost use Rattle.s80_syntax.specs.Faults.{IsDoItText, IsMethodText};
ghost use Rattle.s80_form.specs.Name.{IsSelectorWord};
ghost use Rattle.s80_form.specs.declared.refusal.Refusal.{Refusal as Reason};
ghost use Rattle.s80_syntax.specs.Text.{IsFaultOf};
ghost use Rattle.s80_syntax.specs.declared.fault.ParseFault.TheVariants.{Memory};
ghost use Rattle.s80_change.specs.Check.{IsCheckOf, IsFitting, IsFittingDoIt, IsSyntaxRefusal, too_large, word_of};

use s80_base::OutOfMemory;
use s80_form::{FitWord, Refusal, Refused, SyntaxKind};
use s80_scope::{Fit, FitKind, doit_method, fits};
use s80_syntax::{DoItTree, MethodTree, ParseFault};
use std::alloc::Global;

/// The refusal of a text with this fault. Takes no memory: that there was none is the one fault without a refusal.
pub fn syntax_refusal(fault: ParseFault) -> Result<Refusal, OutOfMemory>
    ensures method { (text : List ℕ) → IsFaultOf IsMethodText text fault → IfOk result (IsSyntaxRefusal IsMethodText text) }
    ensures doit { (text : List ℕ) → IsFaultOf IsDoItText text fault → IfOk result (IsSyntaxRefusal IsDoItText text) }
    ensures err { OnErr result (fault ≡ Memory) }
{
    let (kind, place) = match fault {
        ParseFault::Memory => return Err(OutOfMemory),
        ParseFault::Unended(place) => (SyntaxKind::UnendedToken, place),
        ParseFault::BadByte(place) => (SyntaxKind::BadByte, place),
        ParseFault::BadNumber(place) => (SyntaxKind::BadNumber, place),
        ParseFault::Unexpected(place) => (SyntaxKind::Unexpected, place),
        ParseFault::NotAssignable(place) => (SyntaxKind::NotAssignable, place),
        ParseFault::Nested(place) => (SyntaxKind::Nested, place),
    };
    Ok(Refusal::Syntax(kind, place))
}

/// The method that a doIt is evaluated as, where it fits a machine. Its selector is empty.
pub fn fitting_doit(alloc: Global, tree: DoItTree) -> Result<MethodTree, Refused>
    ensures { IsFittingDoIt (doit_of tree) result }
{
    match fitting(alloc, doit_method(alloc, tree))? {
        Ok(method) => Ok(method),
        Err(refusal) => Err(Refused::Refusal(refusal)),
    }
}

/// A method, where it fits a machine; or its refusal.
pub(crate) fn fitting(
    alloc: Global,
    tree: MethodTree,
) -> Result<Result<MethodTree, Refusal>, OutOfMemory>
    ensures { IfOk result (IsFitting (method_of tree)) }
{
    match too_large(fits(alloc, &tree)?) {
        None => Ok(Ok(tree)),
        Some(refusal) => Ok(Err(refusal)),
    }
}

fn too_large(fit: Fit) -> Option<Refusal>
    ensures { result ≡ too_large fit }
{
    match fit {
        Fit::Fits => None,
        Fit::TooMuch(kind, count) => Some(Refusal::TooLarge(word_of(kind), u64::from(count))),
    }
}

fn word_of(kind: FitKind) -> FitWord
    ensures { result ≡ word_of kind }
{
    match kind {
        FitKind::Literals => FitWord::Literals,
        FitKind::Temporaries => FitWord::Temporaries,
        FitKind::Stack => FitWord::Stack,
        FitKind::Weight => FitWord::Weight,
    }
}

/// A source is one thing by itself.
pub fn one_check()
    ensures { (source : List ℕ) (one other : Result (List ℕ) Reason) → IsCheckOf source one → IsCheckOf source other → one ≡ other }
{}

/// The selector of a source is a selector.
pub fn sources_have_selectors()
    ensures { (source selector : List ℕ) → IsCheckOf source (Ok selector) → IsSelectorWord selector }
{}
