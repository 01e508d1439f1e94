// The calls of a disk that failed.
ghost use Rattle.std.specs.Prelude.{◌≡◌, None};
ghost use Rattle.std.specs.Result.{result_ok};
ghost use Rattle.s80_base.specs.Causes.{HasCause, Names};

use crate::FileId;
use s80_base::{Call, Failed, fault};
use std::io;

/// A call that failed, and why.
#[derive(Clone, Copy)]
pub struct Failure {
    pub call: Call,
    /// None where the folder itself wasn't opened or locked.
    pub file: Option<FileId>,
    /// What the system answered. Of a write to a file that is open for reading alone: what it answered when that was opened.
    pub error: io::Error,
}

/// How many calls failed, and the first that did.
#[derive(Drop)]
pub struct Faults {
    count: u64,
    first: Option<Failure>,
    ghost none: { count ≡ 0 → first ≡ None },
    ghost kept: { first ≡ None → count ≡ 0 },
}

impl Faults {
    pub(crate) fn new() -> Faults
        ensures { result.count ≡ 0 }
    {
        Faults {
            count: 0,
            first: None,
        }
    }

    /// The first that failed.
    pub(crate) fn first(&self) -> Option<Failure>
        ensures none { self.now.count ≡ 0 → result ≡ None }
        ensures kept { result ≡ None → self.now.count ≡ 0 }
    {
        self.first
    }

    /// Counts an error as a fault of the call, and keeps the first.
    pub(crate) fn noted<T>(
        &mut self,
        call: Call,
        file: Option<FileId>,
        outcome: io::Result<T>,
    ) -> Result<T, Failed>
        ensures value { result_ok result ≡ result_ok outcome }
        ensures cause { HasCause self.old.count self.new.count result }
        ensures named { Names call result }
    {
        match outcome {
            Ok(value) => Ok(value),
            Err(error) => {
                if self.first.is_none() {
                    self.first = Some(Failure { call, file, error });
                }
                Err(fault(&mut self.count, call))
            }
        }
    }
}
