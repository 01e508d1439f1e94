// Values, and why a call on objects is refused.

ghost use Rattle.std.specs.Prelude.{◌≡◌};

use s80_base::{OutOfMemory, Side};
use thiserror::Error;

/// A value (Blue Book, part four).
#[derive(Clone, Copy, Debug, PartialEq, Eq)]
pub enum Value {
    /// A SmallInteger, from -2^30 to 2^30 - 1.
    Small(i32),
    Character(u8),
    Nil,
    True,
    False,
    /// A symbol, by its number in order of first use.
    Symbol(u32),
    /// A number that is kept as its text, by its number in order of first use.
    Number(u32),
    /// A class, or its metaclass, by the class's number.
    ClassRef(u32, Side),
    /// An object, a home or a block, by its number in the order in which they are made.
    Object(u32),
    /// `thisContext`.
    Context,
    Transcript,
    Smalltalk,
}

/// What an object's items are.
#[derive(Clone, Copy, Debug, PartialEq, Eq)]
pub enum BodyKind {
    /// Values, behind named fields.
    Pointers,
    /// Numbers from 0 to 255.
    Bytes,
    /// Numbers from 0 to 65,535.
    Words,
}

/// Why a call is refused. A refusal changes nothing.
#[derive(Clone, Copy, Debug, PartialEq, Eq, Error)]
pub enum ObjectFault {
    #[error("out of memory")]
    Memory,
    /// So many words are held, and more than 2^20 would be.
    #[error("{0} words are held")]
    Full(u64),
    /// There is no such place.
    #[error("no such place")]
    Range,
    /// The value has no such part, or what is put doesn't fit it.
    #[error("no such part, or a value that doesn't fit it")]
    Kind,
}

impl From<OutOfMemory> for ObjectFault {
    ghost use Rattle.s80_object.specs.declared.value.ObjectFault.TheVariants.{Memory};

    ghost from_gives = { λ _ fault. fault ≡ Memory };

    fn from(_: OutOfMemory) -> Self {
        ObjectFault::Memory
    }
}
