// Changes, worked in a system.
ghost use Rattle.std.specs.Prelude.{OnOk};
ghost use Rattle.s80_apply.specs.List.{state_after, state_from};
ghost use Rattle.s80_apply.specs.State.{State};
ghost use Rattle.s80_apply.specs.System.{IsSystemOf};
ghost use Rattle.s80_merge.specs.Work.{IsWorked};

use s80_apply::System;
use s80_base::OutOfMemory;
use s80_change::{Change, Changes, Refused};
use std::alloc::Global;

/// Works changes, one after the other. What is refused is left out.
pub fn work_all(alloc: Global, system: &mut System, changes: &Changes) -> Result<(), OutOfMemory>
    ensures { (state : State) → IsSystemOf system.old state → OnOk result (IsSystemOf system.new (state_from state changes.now)) }
{
    for i in 0..changes.count() {
        work_or_leave(alloc, system, changes.at(i))?;
    }
    Ok(())
}

/// Works a change, unless it is refused.
fn work_or_leave(alloc: Global, system: &mut System, change: &Change) -> Result<(), OutOfMemory>
    ensures { (state : State) → IsSystemOf system.old state → OnOk result (IsSystemOf system.new (state_after change.now state)) }
{
    match work(alloc, system, change) {
        Ok(()) => Ok(()),
        Err(Refused::Refusal(_)) => Ok(()),
        Err(Refused::Memory) => Err(OutOfMemory),
    }
}

/// Works a change, or says why it is refused. Where its source stands is of no matter here.
pub fn work(alloc: Global, system: &mut System, change: &Change) -> Result<(), Refused>
    ensures { (state : State) → IsSystemOf system.old state → IsWorked state change.now system.new result }
{
    let step = system.prepare(alloc, change)?;
    system.install(step, 0);
    Ok(())
}
