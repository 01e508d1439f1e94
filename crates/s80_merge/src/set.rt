// Change sets at work: the keys that one writes and uses.
ghost use Rattle.std.specs.Prelude.{◌≡◌, [], OnOk};
ghost use Rattle.s80_apply.specs.List.{state_from, state_of};
ghost use Rattle.s80_apply.specs.State.{State};
ghost use Rattle.s80_apply.specs.System.{IsSystemOf};
ghost use Rattle.s80_merge.specs.Work.{Gains, IsNoted, IsWorkedAt, is_touched};

use crate::change_keys::{uses, writes};
use crate::key::Key;
use crate::key_set::KeySet;
use crate::planning::PlanFault;
use crate::working::{work, work_all};
use s80_apply::{System, boot};
use s80_base::OutOfMemory;
use s80_change::{Change, Changes, Refused};
use s80_class::ClassTable;
use std::alloc::Global;

/// The keys that changes write and use.
#[derive(Drop)]
pub(crate) struct Touched {
    pub(crate) writes: KeySet,
    pub(crate) uses: KeySet,
}

impl Touched {
    fn none(alloc: Global) -> Self
        ensures writes { result.writes ≡ [] }
        ensures uses { result.uses ≡ [] }
    {
        Touched {
            writes: KeySet::empty(alloc),
            uses: KeySet::empty(alloc),
        }
    }

    /// Whether some change writes or uses the key. Takes no memory.
    pub(crate) fn has(&self, key: &Key) -> bool
        ensures { result ≡ is_touched key.now self.now }
    {
        self.writes.contains(key) || self.uses.contains(key)
    }

    /// Notes the keys of a change, in the classes that it is worked in.
    fn note(
        &mut self,
        alloc: Global,
        classes: &ClassTable,
        change: &Change,
    ) -> Result<(), OutOfMemory>
        ensures { OnOk result (Gains self.old change.now classes.now.classes self.new) }
    {
        self.writes.add(writes(alloc, classes, change)?)?;
        self.uses.add(uses(alloc, classes, change)?)
    }
}

/// The keys of a set that is worked from a base, or the first of its changes that is refused. In the base, what is refused is left out.
pub(crate) fn touched_by(
    alloc: Global,
    base: &Changes,
    changes: &Changes,
) -> Result<Touched, PlanFault>
    ensures { IsNoted (state_of base.now) changes.now result }
{
    let mut system = boot(alloc)?;
    touched_in(alloc, &mut system, base, changes)
}

/// The same, in the kernel's system.
fn touched_in(
    alloc: Global,
    system: &mut System,
    base: &Changes,
    changes: &Changes,
) -> Result<Touched, PlanFault>
    ensures { (state : State) → IsSystemOf system.old state → IsNoted (state_from state base.now) changes.now result }
{
    work_all(alloc, system, base)?;
    note_all(alloc, system, changes)
}

/// Works changes, one after the other, and notes their keys.
fn note_all(alloc: Global, system: &mut System, changes: &Changes) -> Result<Touched, PlanFault>
    ensures { (state : State) → IsSystemOf system.old state → IsNoted state changes.now result }
{
    let mut touched = Touched::none(alloc);
    for i in 0..changes.count() {
        let change = changes.at(i);
        touched.note(alloc, system.classes(), change)?;
        work_at(alloc, system, change, i as u64)?;
    }
    Ok(touched)
}

/// Works the change of an index.
fn work_at(alloc: Global, system: &mut System, change: &Change, index: u64) -> Result<(), PlanFault>
    ensures { (state : State) → IsSystemOf system.old state → IsWorkedAt index state change.now system.new result }
{
    match work(alloc, system, change) {
        Ok(()) => Ok(()),
        Err(Refused::Memory) => Err(PlanFault::Memory),
        Err(Refused::Refusal(refusal)) => Err(PlanFault::Theirs(index, refusal)),
    }
}
