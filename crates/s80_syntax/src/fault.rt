// Why a text has no tree.
ghost use Rattle.std.specs.Prelude.{◌≡◌};
ghost use Rattle.s80_syntax.specs.declared.fault.ParseFault.TheVariants.{Memory};
ghost use Rattle.s80_syntax.specs.Fault.{of_lex};

use s80_base::OutOfMemory;
use s80_lex::LexFault;
use std::alloc::{AllocError, AllocFailed};
use thiserror::Error;

/// Why a text has no tree, with the place of its first fault.
#[derive(Clone, Copy, Debug, PartialEq, Eq, Error)]
pub enum ParseFault {
    #[error("out of memory")]
    Memory,
    /// A string or comment that doesn't end, or a `$` that ends the text.
    #[error("unended token at {0}")]
    Unended(u32),
    /// A byte that begins no token.
    #[error("bad byte at {0}")]
    BadByte(u32),
    /// A number with a wrong radix or a digit that isn't below its radix.
    #[error("bad number at {0}")]
    BadNumber(u32),
    /// The first token with which no text goes on, or the end of the text.
    #[error("unexpected at {0}")]
    Unexpected(u32),
    /// A target that is a reserved word or a parameter of the method.
    #[error("not assignable at {0}")]
    NotAssignable(u32),
    /// The token that opens one level more than 64.
    #[error("nested at {0}")]
    Nested(u32),
}

impl From<OutOfMemory> for ParseFault {
    ghost from_gives = { λ _ e. e ≡ Memory };

    fn from(_: OutOfMemory) -> Self {
        ParseFault::Memory
    }
}

impl From<AllocError> for ParseFault {
    ghost from_gives = { λ _ e. e ≡ Memory };

    fn from(_: AllocError) -> Self {
        ParseFault::Memory
    }
}

impl<T: Drop> From<AllocFailed<T>> for ParseFault {
    ghost from_gives = { λ _ e. e ≡ Memory };

    fn from(_: AllocFailed<T>) -> Self {
        ParseFault::Memory
    }
}

impl From<LexFault> for ParseFault {
    ghost from_gives = { λ fault e. e ≡ of_lex fault };

    fn from(fault: LexFault) -> Self {
        match fault {
            LexFault::Memory => ParseFault::Memory,
            LexFault::Unended(at) => ParseFault::Unended(at),
            LexFault::BadByte(at) => ParseFault::BadByte(at),
            LexFault::BadNumber(at) => ParseFault::BadNumber(at),
        }
    }
}
