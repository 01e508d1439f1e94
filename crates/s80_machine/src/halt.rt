// Why a step doesn't go on.
ghost use Rattle.std.specs.Prelude.{◌≡◌};
ghost use Rattle.s80_machine.specs.Seen.{EndsRun};
ghost use Rattle.s80_prims.specs.declared.stop.End.TheVariants.{Answer, Stopped};

use s80_base::OutOfMemory;
use s80_object::Value;
use s80_prims::{End, Stop};
use std::alloc::{AllocError, AllocFailed, Global};
use std::marker::Model;

/// How a run has ended. It is kept outside, so that what each part of a step answers is small.
#[derive(Debug, Drop)]
pub(crate) struct Ending(Box<End>);

impl Model for Ending {
    ghost use Rattle.s80_prims.specs.declared.stop.End.{End};

    ghost Value = { End };

    ghost view = { λ e. e.0.value };
}

impl Ending {
    pub(crate) fn end(self) -> End
        ensures { result ≡ self }
    {
        Box::into_inner(self.0)
    }
}

/// Why a step doesn't go on.
#[derive(Debug, Drop)]
pub(crate) enum Halt {
    Memory,
    /// The run has ended.
    Ended(Ending),
    /// A part is wanted that isn't there; verified code never wants one.
    Stuck,
}

impl Halt {
    pub(crate) fn stop(alloc: Global, stop: Stop) -> Self
        ensures { EndsRun (Stopped stop) result }
    {
        ended(alloc, End::Stopped(stop))
    }

    pub(crate) fn answer(alloc: Global, value: Value) -> Self
        ensures { EndsRun (Answer value) result }
    {
        ended(alloc, End::Answer(value))
    }
}

fn ended(alloc: Global, end: End) -> Halt
    ensures { EndsRun end result }
{
    match Box::new(alloc, end) {
        Ok(end) => Halt::Ended(Ending(end)),
        Err(_) => Halt::Memory,
    }
}

impl From<OutOfMemory> for Halt {
    ghost use Rattle.s80_machine.specs.declared.halt.Halt.TheVariants.{Memory};

    ghost from_gives = { λ _ halt. halt ≡ Memory };

    fn from(_: OutOfMemory) -> Self {
        Halt::Memory
    }
}

impl From<AllocError> for Halt {
    ghost use Rattle.s80_machine.specs.declared.halt.Halt.TheVariants.{Memory};

    ghost from_gives = { λ _ halt. halt ≡ Memory };

    fn from(_: AllocError) -> Self {
        Halt::Memory
    }
}

impl<T: Drop> From<AllocFailed<T>> for Halt {
    ghost use Rattle.s80_machine.specs.declared.halt.Halt.TheVariants.{Memory};

    ghost from_gives = { λ _ halt. halt ≡ Memory };

    fn from(_: AllocFailed<T>) -> Self {
        Halt::Memory
    }
}
