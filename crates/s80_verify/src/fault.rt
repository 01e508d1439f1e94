// What can be wrong with a code.
ghost use Rattle.std.specs.Prelude.{◌≡◌};

use thiserror::Error;

/// Why a code can't be run.
#[derive(Debug, Clone, Copy, PartialEq, Eq)]
pub enum VerifyKind {
    /// Flag, arguments, temporaries and the last entries of the frame don't fit each other.
    Header,
    /// There are more than 1,023 bytes.
    TooLong,
    /// A byte that begins no instruction.
    Unused,
    /// The bytes end inside an instruction.
    Short,
    /// A jump to where no instruction stands.
    JumpTarget,
    /// An instruction takes more values than the stack has.
    StackLow,
    /// More values than the context has room for.
    StackHigh,
    /// A place with two numbers of values.
    StackDiffers,
    /// An operand out of range or of the wrong kind, or a real block that isn't made as one.
    Operand,
    /// A path leaves the end of the bytes.
    Falls,
}

/// What is wrong with a code, and the place in its bytes.
#[derive(Debug, Clone, Copy, PartialEq, Eq, Error)]
#[error("the code can't be run: {kind:?} at {place}")]
pub struct VerifyFault {
    pub place: u32,
    pub kind: VerifyKind,
}

impl VerifyKind {
    pub(crate) fn at(self, place: u32) -> VerifyFault
        ensures kind { result.kind ≡ self }
        ensures place { result.place ≡ place }
    {
        VerifyFault { place, kind: self }
    }
}
