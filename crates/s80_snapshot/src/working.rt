// Changes that are accepted, worked in a system.
ghost use Rattle.std.specs.Prelude.{OnOk};
ghost use Rattle.s80_apply.specs.List.{AreAccepted, state_from};
ghost use Rattle.s80_apply.specs.State.{kernel_state};
ghost use Rattle.s80_apply.specs.System.{IsSystemOf};
ghost use Rattle.s80_snapshot.specs.Resuming.{Accepts, HasSomePlaces, Works};

use s80_apply::System;
use s80_base::OutOfMemory;
use s80_change::{Change, Changes, Refused};
use std::alloc::Global;

/// Works changes in the kernel's system, one after the other.
pub(crate) fn work_all(
    alloc: Global,
    system: &mut System,
    changes: &Changes,
) -> Result<(), OutOfMemory>
    requires kernel { IsSystemOf system.old kernel_state }
    requires places { HasSomePlaces system.old }
    requires accepted { AreAccepted kernel_state changes.now }
    ensures state { OnOk result (IsSystemOf system.new (state_from kernel_state changes.now)) }
    ensures places { OnOk result (HasSomePlaces system.new) }
{
    for i in 0..changes.count() {
        work(alloc, system, changes.at(i))?;
    }
    Ok(())
}

/// Works a change.
pub(crate) fn work(alloc: Global, system: &mut System, change: &Change) -> Result<(), OutOfMemory>
    requires { Accepts system.old change.now }
    ensures { OnOk result (Works change.now system.old system.new) }
{
    match system.prepare(alloc, change) {
        Ok(step) => {
            system.install(step, 0);
            Ok(())
        }
        Err(Refused::Memory) => Err(OutOfMemory),
        Err(Refused::Refusal(_)) => unreachable!(),
    }
}
