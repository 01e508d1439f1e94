// Laws of joining.
ghost use Rattle.std.specs.Prelude.{◌≡◌, ◌++◌, All, List, Ok, Err, is_some};
ghost use Rattle.s80_form.specs.declared.refusal.Refusal.{Refusal};
ghost use Rattle.s80_apply.specs.State.{State};
ghost use Rattle.s80_apply.specs.List.{AreAccepted, IsBuilt, state_from, state_of};
ghost use Rattle.s80_model.specs.declared.item.SessionItem.{SessionItem};
ghost use Rattle.s80_change.specs.declared.change.Change.{Change};
ghost use Rattle.s80_model.specs.Replies.{Work, any_trouble, list_after_all};
ghost use Rattle.s80_joining.specs.declared.outcome.Outcome.{Outcome};
ghost use Rattle.s80_joining.specs.Outcome.{IsOutcome, joined, joining_asks};
ghost use Rattle.s80_joining.specs.Parts.{base_of, ours_of};
ghost use Rattle.s80_joining.specs.Theirs.{AreWorked, IsGiven, Worked};

use s80_merge::one_plan;
use s80_model::one_ask;

/// The change set of a list may be worked behind the base of the list, and makes its state.
pub fn a_set_starts_from_its_base()
    ensures built { (changes : List Change) → IsBuilt changes → IsBuilt (base_of changes ++ ours_of changes) }
    ensures state { (changes : List Change) → IsBuilt changes → state_of (base_of changes ++ ours_of changes) ≡ state_of changes }
{}

/// Behind a bad item nothing is worked.
pub fn a_bad_item_stays_the_first()
    ensures { (state : State) (items more : List SessionItem) (refusal : Refusal) → AreWorked state items (Err refusal) → AreWorked state (items ++ more) (Err refusal) }
{}

/// The changes that are worked are accepted one after another, and make the state that is told.
pub fn theirs_are_accepted()
    ensures { (state : State) (items : List SessionItem) (worked : Worked) → AreWorked state items (Ok worked)
        → AreAccepted state worked.changes × (worked.state ≡ state_from state worked.changes) }
{}

/// Merging an input comes to one thing.
pub fn merging_has_one_outcome()
    ensures { (base ours : List Change) (items : List SessionItem) → All IsGiven items → (one other : Outcome) → IsOutcome base ours items one → IsOutcome base ours items other → one ≡ other }
{
    one_ask();
    one_plan();
}

/// What joining changes asks one by one leads to the list with those that are accepted, and is trouble where one is refused.
pub fn joining_adds_one_by_one()
    ensures list { (work : Work) (changes : List Change) → list_after_all work (joining_asks work.changes changes) ≡ work.changes ++ (joined work.changes changes).changes }
    ensures trouble { (work : Work) (changes : List Change) → any_trouble work (joining_asks work.changes changes) ≡ is_some (joined work.changes changes).refusal }
{}
