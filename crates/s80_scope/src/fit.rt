// Whether a method fits a machine.
ghost use Rattle.std.specs.Prelude.{◌≡◌, IfOk};
ghost use Rattle.s80_tree.specs.Tree.{method_of};
ghost use Rattle.s80_scope.specs.Fit.{AreTold, cut_measures, fit, measures};
ghost use Rattle.s80_scope.specs.FitLiterals.{Entry, key};

mod counts;
mod ending;
mod entries;
mod key;
mod position;
mod scope;
mod walk;

use crate::fit::counts::capped;
use crate::fit::walk::method;
pub use ending::{Ending, ending_of};
pub use position::{Leaves, Position};
use s80_base::OutOfMemory;
use s80_tree::MethodTree;
use std::alloc::Global;

/// Whether a method fits, or the first of its measures that is above its limit.
#[derive(Clone, Copy, Debug, PartialEq, Eq)]
pub enum Fit {
    Fits,
    /// The measure, and its count.
    TooMuch(FitKind, u32),
}

/// The measures of a method, in the order in which they are looked at.
#[derive(Clone, Copy, Debug, PartialEq, Eq)]
pub enum FitKind {
    /// Entries of the literal frame: at most 60.
    Literals,
    /// Parameters and temporaries, those of blocks included: at most 31.
    Temporaries,
    /// Values on one stack, a home's temporaries included: at most 32.
    Stack,
    /// Bytes of code, each instruction at the greater of its widths: at most 1,000.
    Weight,
}

/// The measures of a method, which speak of its tree alone. One above `u32::MAX` is told as that.
#[derive(Clone, Copy, Debug, PartialEq, Eq)]
pub struct Measures {
    pub literals: u32,
    pub temporaries: u32,
    pub stack: u32,
    pub weight: u32,
}

impl Measures {
    /// Whether no measure is above its limit.
    pub fn fit(self) -> Fit
        ensures { result ≡ fit self }
    {
        if self.literals > 60 {
            Fit::TooMuch(FitKind::Literals, self.literals)
        } else if self.temporaries > 31 {
            Fit::TooMuch(FitKind::Temporaries, self.temporaries)
        } else if self.stack > 32 {
            Fit::TooMuch(FitKind::Stack, self.stack)
        } else if self.weight > 1000 {
            Fit::TooMuch(FitKind::Weight, self.weight)
        } else {
            Fit::Fits
        }
    }
}

/// Whether a method fits, or a doIt as a method with an empty selector. A method that fits in one class fits in each.
pub fn fits(alloc: Global, tree: &MethodTree) -> Result<Fit, OutOfMemory>
    ensures told { AreTold (measures (method_of tree.now)) → IfOk result (λ answer. answer ≡ fit (measures (method_of tree.now))) }
    ensures cut { IfOk result (λ answer. answer ≡ fit (cut_measures (measures (method_of tree.now)))) }
{
    Ok(measured(alloc, tree)?.fit())
}

/// The measures of a method, or of a doIt as a method with an empty selector.
pub fn measured(alloc: Global, tree: &MethodTree) -> Result<Measures, OutOfMemory>
    ensures { IfOk result (λ found. found ≡ cut_measures (measures (method_of tree.now))) }
{
    let (literals, counts) = method(alloc, tree)?;
    Ok(Measures {
        literals: capped(literals),
        temporaries: counts.parameters,
        stack: counts.stack(),
        weight: counts.weight,
    })
}

/// No two entries of a literal frame have one key.
pub fn keys_tell_entries_apart()
    ensures { (one other : Entry) → key one ≡ key other → one ≡ other }
{}
