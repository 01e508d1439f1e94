// Why a text has no tokens.
use std::alloc::AllocFailed;
use thiserror::Error;

/// The first fault of a text among its tokens, with its place.
#[derive(Clone, Copy, Debug, PartialEq, Eq, Error)]
pub enum LexFault {
    #[error("out of memory")]
    Memory,
    /// A string or comment that doesn't end, or a `$` that ends the text.
    #[error("unended token at {0}")]
    Unended(u32),
    /// A byte that begins no token.
    #[error("bad byte at {0}")]
    BadByte(u32),
    /// A number with a wrong radix or a digit that isn't below its radix.
    #[error("bad number at {0}")]
    BadNumber(u32),
}

impl<T: Drop> From<AllocFailed<T>> for LexFault {
    ghost use Rattle.std.specs.Prelude.{◌≡◌};
    ghost use Rattle.s80_lex.specs.declared.fault.LexFault.TheVariants.{Memory};

    ghost from_gives = { λ _ fault. fault ≡ Memory };

    fn from(_: AllocFailed<T>) -> Self {
        LexFault::Memory
    }
}
