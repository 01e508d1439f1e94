// A second change set, item by item up to the first that is bad.
ghost use Rattle.std.specs.Prelude.{◌≡◌, ◌++◌, ◌∷◌, [], All, List, IfOk, OnOk};
ghost use Rattle.s80_change.specs.declared.change.Change.{Change};
ghost use Rattle.s80_apply.specs.List.{IsBuilt, state_of};
ghost use Rattle.s80_apply.specs.State.{State};
ghost use Rattle.s80_model.specs.declared.item.SessionItem.{SessionItem as ItemOf};
ghost use Rattle.s80_joining.specs.Given.{HasCome, JoinsLawful};
ghost use Rattle.s80_joining.specs.Outcome.{IsOutcome, MayMerge};
ghost use Rattle.s80_joining.specs.Theirs.{IsGiven};

use crate::outcome::Outcome;
use crate::theirs::Theirs;
use s80_apply::classes_are_named;
use s80_base::OutOfMemory;
use s80_change::Changes;
use s80_form::{Refusal, Refused};
use s80_model::SessionItem;
use std::alloc::Global;

/// A second change set, so far as its items were taken in.
#[derive(Drop)]
pub enum Given {
    /// None was bad.
    Worked(Theirs),
    /// An item is bad: this is the refusal of the first.
    Bad(Refusal),
}

impl Given {
    /// Before the first item. In the base, what is refused is left out.
    pub fn begin(alloc: Global, base: &Changes) -> Result<Given, OutOfMemory>
        ensures { IfOk result (λ given. HasCome given (state_of base.now) []) }
    {
        Ok(Given::Worked(Theirs::begin(alloc, base)?))
    }

    /// Takes an item in, behind those before it. Behind a bad one none is worked. When out of memory, no more is to be taken in.
    pub fn take(&mut self, alloc: Global, item: SessionItem) -> Result<(), OutOfMemory>
        ensures { (state : State) (items : List ItemOf) → HasCome self.old state items → IsGiven item → OnOk result (HasCome self.new state (items ++ item ∷ [])) }
    {
        let refusal = match self {
            Given::Bad(_) => return Ok(()),
            Given::Worked(theirs) => match theirs.take(alloc, item) {
                Ok(()) => return Ok(()),
                Err(Refused::Memory) => return Err(OutOfMemory),
                Err(Refused::Refusal(refusal)) => refusal,
            },
        };
        *self = Given::Bad(refusal);
        Ok(())
    }

    /// What merging comes to, with the other set that starts from the base.
    pub fn outcome(
        self,
        alloc: Global,
        base: &Changes,
        ours: &Changes,
    ) -> Result<Outcome, OutOfMemory>
        ensures outcome { (items : List ItemOf) → IsBuilt (base.now ++ ours.now) → HasCome self (state_of base.now) items → IfOk result (IsOutcome base.now ours.now items) }
        ensures merges { IsBuilt (base.now ++ ours.now) → IfOk result (MayMerge base.now ours.now) }
        // Whatever the base is.
        ensures lawful { (list : List Change) (items : List ItemOf) → All IsGiven items → HasCome self (state_of list) items → IfOk result JoinsLawful }
    {
        classes_are_named();
        match self {
            Given::Worked(theirs) => theirs.outcome(alloc, base, ours),
            Given::Bad(refusal) => Ok(Outcome::Refused(refusal)),
        }
    }
}
