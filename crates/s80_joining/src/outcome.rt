// What merging comes to.
ghost use Rattle.std.specs.Prelude.{◌++◌, All, List, IfOk};
ghost use Rattle.s80_change.specs.declared.change.Change.{Change};
ghost use Rattle.s80_change.specs.Block.{IsLawful};
ghost use Rattle.s80_apply.specs.List.{IsBuilt, state_of};
ghost use Rattle.s80_model.specs.declared.item.SessionItem.{SessionItem};
ghost use Rattle.s80_joining.specs.Given.{JoinsLawful};
ghost use Rattle.s80_joining.specs.Outcome.{HasConflicts, IsOutcome, MayMerge, MayMergeBy};
ghost use Rattle.s80_joining.specs.Theirs.{HasTaken};

use crate::theirs::Theirs;
use s80_base::OutOfMemory;
use s80_change::{Changes, Refusal};
use s80_merge::{Keys, PlanFault, plan};
use std::alloc::Global;

/// What merging a second change set comes to.
#[derive(Debug, Drop)]
pub enum Outcome {
    /// An item is bad: this is the refusal of the first.
    Refused(Refusal),
    /// One set writes these, and the other writes or uses them.
    Conflicts(Keys),
    /// These changes are to be added, up to the first that is refused.
    Joins(Changes),
}

impl Theirs {
    /// What merging comes to where no item was bad, with the other set that starts from the base.
    pub(crate) fn outcome(
        self,
        alloc: Global,
        base: &Changes,
        ours: &Changes,
    ) -> Result<Outcome, OutOfMemory>
        ensures outcome { (items : List SessionItem) → IsBuilt (base.now ++ ours.now) → HasTaken self (state_of base.now) items → IfOk result (IsOutcome base.now ours.now items) }
        ensures merges { IsBuilt (base.now ++ ours.now) → IfOk result (MayMerge base.now ours.now) }
        ensures lawful { All IsLawful self.changes → IfOk result JoinsLawful }
    {
        let theirs = self.into_changes();
        match plan(alloc, base, ours, &theirs) {
            Ok(plan) => Ok(outcome_of(theirs, plan.conflicts)),
            Err(PlanFault::Memory) => Err(OutOfMemory),
            Err(PlanFault::Theirs(_, refusal)) => Ok(Outcome::Refused(refusal)),
        }
    }
}

/// What accepted changes with these conflicts come to.
fn outcome_of(theirs: Changes, conflicts: Keys) -> Outcome
    ensures outcome { (base ours : List Change) (items : List SessionItem) → HasConflicts base ours items theirs conflicts → IsOutcome base ours items result }
    ensures merges { (base ours : List Change) → MayMergeBy base ours theirs conflicts → MayMerge base ours result }
    ensures lawful { All IsLawful theirs → JoinsLawful result }
{
    if conflicts.count() == 0 {
        return Outcome::Joins(theirs);
    }
    Outcome::Conflicts(conflicts)
}
