// How a session ends before its work is done.
ghost use Rattle.std.specs.Prelude.{◌≡◌, ◌≢◌, MatchBool};

use s80_base::{Failed, OutOfMemory};
use s80_keeper::{Damage, StartFault};
use thiserror::Error;

/// Why a session ends before its work is done.
#[derive(Clone, Copy, Debug, PartialEq, Eq, Error)]
pub enum SessionEnd {
    #[error("out of memory")]
    Memory,
    #[error("read fault")]
    Read(Failed),
    #[error("write fault")]
    Write(Failed),
    #[error("disk fault")]
    Disk(Failed),
    #[error("damaged: {0}")]
    Damaged(Damage),
    #[error("input too long")]
    TooLong,
}

impl SessionEnd {
    /// Whether memory was wanting.
    pub(crate) fn is_memory(&self) -> bool
        ensures { MatchBool result (self.now ≡ SessionEnd.Memory) (self.now ≢ SessionEnd.Memory) }
    {
        match self {
            SessionEnd::Memory => true,
            SessionEnd::Read(_) => false,
            SessionEnd::Write(_) => false,
            SessionEnd::Disk(_) => false,
            SessionEnd::Damaged(_) => false,
            SessionEnd::TooLong => false,
        }
    }
}

impl From<OutOfMemory> for SessionEnd {
    ghost use Rattle.s80_session.specs.declared.end.SessionEnd.TheVariants.{Memory};

    ghost from_gives = { λ _ end. end ≡ Memory };

    fn from(_: OutOfMemory) -> Self {
        SessionEnd::Memory
    }
}

impl From<StartFault> for SessionEnd {
    ghost use Rattle.s80_session.specs.Ends.{end_of_start};

    ghost from_gives = { λ fault end. end ≡ end_of_start fault };

    fn from(fault: StartFault) -> Self {
        match fault {
            StartFault::Memory => SessionEnd::Memory,
            StartFault::Disk(failed) => SessionEnd::Disk(failed),
            StartFault::Damaged(damage) => SessionEnd::Damaged(damage),
        }
    }
}
