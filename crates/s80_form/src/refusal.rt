// Why an item is refused.
ghost use Rattle.std.specs.Prelude.{◌≡◌, IfOk};

use s80_base::{OutOfMemory, Side, Text};
use std::alloc::Global;

/// What is wrong with the syntax of a text.
#[derive(Clone, Copy, Debug, PartialEq, Eq)]
pub enum SyntaxKind {
    /// A string or comment that doesn't end, or a `$` that ends the text.
    UnendedToken,
    /// A byte that begins no token.
    BadByte,
    /// A number with a wrong radix or a digit that isn't below its radix.
    BadNumber,
    /// The first token with which no text goes on, or the end of the text.
    Unexpected,
    /// A target that is a reserved word or a parameter of the method.
    NotAssignable,
    /// The token that opens one level more than 64.
    Nested,
}

/// What of a source or chunk is too large.
#[derive(Clone, Copy, Debug, PartialEq, Eq)]
pub enum FitWord {
    /// The bytes of a chunk, of which 65,535 are allowed.
    Chunk,
    /// The literals of a method, of which 60 are allowed.
    Literals,
    /// The temporaries of a method with its parameters and those of its blocks, of which 31 are allowed.
    Temporaries,
    /// The depth of a method's stack, of which 32 is allowed.
    Stack,
    /// The weight of a method's code, of which 1,000 is allowed.
    Weight,
}

/// What there is too much of.
#[derive(Clone, Copy, Debug, PartialEq, Eq)]
pub enum ManyKind {
    /// Classes, of which there may be 65,536.
    Classes,
    /// Instance variables of a class with those it inherits, of which there may be 64.
    InstanceVariables,
    /// Class variables of a class, of which there may be 256.
    ClassVariables,
    /// Class-side variables of a class with those it inherits, of which there may be 64.
    ClassSideVariables,
    /// Pools of a class, of which there may be 256.
    Pools,
    /// Methods of one side of a class, of which there may be 16,384.
    Methods,
    /// Instance variables of a class of bytes or words, of which there may be none.
    BitsVariables,
}

/// Why an item is refused. A refusal changes nothing.
#[derive(Debug, Drop)]
pub enum Refusal {
    /// The input ends within an item.
    Unended,
    /// The text has this fault at this place.
    Syntax(SyntaxKind, u32),
    /// So many of these are too many.
    TooLarge(FitWord, u64),
    /// There is no class of this name.
    UnknownClass(Text),
    /// This class is one of the kernel's.
    KernelClass(Text),
    /// Some class has this one as its superclass.
    HasSubclasses(Text),
    /// The new superclass of this class is the class itself or descends from it.
    Cycle(Text),
    /// This name stands twice in its list.
    Duplicate(Text),
    /// This isn't a name that may stand here.
    BadName(Text),
    /// This side of this class has no such method.
    NoSelector(Text, Side, Text),
    /// There would be so many of these.
    TooMany(ManyKind, u64),
    /// The log has this length, and the block of the change would pass its limit.
    LogFull(u64),
    /// This head begins no section.
    NoSection(Text),
}

impl Refusal {
    ghost use Rattle.s80_form.specs.Refusal.{refusal_number};

    /// The number by which it is known.
    pub fn number(&self) -> u8
        ensures { result ≡ refusal_number self.now }
    {
        match self {
            Refusal::Unended => 1,
            Refusal::Syntax(..) => 2,
            Refusal::TooLarge(..) => 3,
            Refusal::UnknownClass(_) => 4,
            Refusal::KernelClass(_) => 5,
            Refusal::HasSubclasses(_) => 6,
            Refusal::Cycle(_) => 7,
            Refusal::Duplicate(_) => 8,
            Refusal::BadName(_) => 9,
            Refusal::NoSelector(..) => 10,
            Refusal::TooMany(..) => 11,
            Refusal::LogFull(_) => 12,
            Refusal::NoSection(_) => 13,
        }
    }

    /// The same refusal in memory of its own.
    pub fn copy(&self, alloc: Global) -> Result<Refusal, OutOfMemory>
        ensures { IfOk result (λ copy. copy ≡ self.now) }
    {
        Ok(match self {
            Refusal::Unended => Refusal::Unended,
            Refusal::Syntax(kind, place) => Refusal::Syntax(*kind, *place),
            Refusal::TooLarge(fit, count) => Refusal::TooLarge(*fit, *count),
            Refusal::UnknownClass(name) => Refusal::UnknownClass(name.copy(alloc)?),
            Refusal::KernelClass(name) => Refusal::KernelClass(name.copy(alloc)?),
            Refusal::HasSubclasses(name) => Refusal::HasSubclasses(name.copy(alloc)?),
            Refusal::Cycle(name) => Refusal::Cycle(name.copy(alloc)?),
            Refusal::Duplicate(name) => Refusal::Duplicate(name.copy(alloc)?),
            Refusal::BadName(name) => Refusal::BadName(name.copy(alloc)?),
            Refusal::NoSelector(name, side, selector) => {
                Refusal::NoSelector(name.copy(alloc)?, *side, selector.copy(alloc)?)
            }
            Refusal::TooMany(kind, count) => Refusal::TooMany(*kind, *count),
            Refusal::LogFull(length) => Refusal::LogFull(*length),
            Refusal::NoSection(head) => Refusal::NoSection(head.copy(alloc)?),
        })
    }
}

/// A refusal, or out of memory.
#[derive(Debug, Drop)]
pub enum Refused {
    Memory,
    Refusal(Refusal),
}

impl From<OutOfMemory> for Refused {
    ghost use Rattle.s80_form.specs.declared.refusal.Refused.TheVariants.{Memory};

    ghost from_gives = { λ _ refused. refused ≡ Memory };

    fn from(_: OutOfMemory) -> Self {
        Refused::Memory
    }
}
