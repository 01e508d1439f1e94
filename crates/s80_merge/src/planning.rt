// Plans of merging two change sets.
ghost use Rattle.std.specs.Prelude.{◌≡◌, ◌||◌, ◌&&◌, ◌++◌, [], IfOk, OnOk};
ghost use Rattle.std.specs.List.Sorted.{IsStrictlySortedBy};
ghost use Rattle.s80_apply.specs.List.{IsBuilt, state_of};
ghost use Rattle.s80_merge.specs.declared.key.Key.{Key as KeyOf};
ghost use Rattle.s80_merge.specs.Merging.{IsPlan, MergeEitherWay};
ghost use Rattle.s80_merge.specs.Order.{has, key_cmp, same_key};
ghost use Rattle.s80_merge.specs.Work.{is_conflict, is_touched};

use crate::key::Key;
use crate::key_set::KeySet;
use crate::keys::Keys;
use crate::set::{Touched, touched_by};
use s80_base::OutOfMemory;
use s80_change::{Changes, Refusal};
use std::alloc::Global;

/// What merging two change sets meets.
#[derive(Debug, Drop)]
pub struct MergePlan {
    /// The keys that one set writes and the other writes or uses, each once, in their order.
    pub conflicts: Keys,
}

/// Why there is no plan.
#[derive(Debug, Drop)]
pub enum PlanFault {
    Memory,
    /// The change of this index, counted from 0, is refused. It is the first of theirs, worked from the base, that is.
    Theirs(u64, Refusal),
}

impl From<OutOfMemory> for PlanFault {
    ghost use Rattle.s80_merge.specs.declared.planning.PlanFault.TheVariants.{Memory};

    ghost from_gives = { λ _ fault. fault ≡ Memory };

    fn from(_: OutOfMemory) -> Self {
        PlanFault::Memory
    }
}

/// Plans to merge two change sets that start from one base. Each is worked from the base. Where no key is a conflict, either set may be worked
/// behind the other. Where something of the base or of ours is refused, nothing is said.
pub fn plan(
    alloc: Global,
    base: &Changes,
    ours: &Changes,
    theirs: &Changes,
) -> Result<MergePlan, PlanFault>
    ensures plan { IsBuilt (base.now ++ ours.now) → IsPlan (state_of base.now) ours.now theirs.now result }
    ensures merges { IsBuilt (base.now ++ ours.now) → IfOk result (λ plan. plan.conflicts ≡ [] → MergeEitherWay base.now ours.now theirs.now) }
{
    let of_ours = touched_by(alloc, base, ours)?;
    let of_theirs = touched_by(alloc, base, theirs)?;
    Ok(MergePlan {
        conflicts: conflicts(alloc, &of_ours, &of_theirs)?,
    })
}

/// The keys that one set writes and the other writes or uses.
fn conflicts(alloc: Global, ours: &Touched, theirs: &Touched) -> Result<Keys, OutOfMemory>
    ensures all { IfOk result (λ keys. (key : KeyOf) → has key keys ≡ is_conflict key ours.now theirs.now) }
    ensures ascending { IfOk result (λ keys. IsStrictlySortedBy key_cmp keys) }
{
    let mut found = KeySet::empty(alloc);
    add_clashes(alloc, ours, theirs, &mut found)?;
    add_clashes(alloc, theirs, ours, &mut found)?;
    found.listed(alloc)
}

/// Adds the keys that the one set writes and the other writes or uses.
fn add_clashes(
    alloc: Global,
    one: &Touched,
    other: &Touched,
    found: &mut KeySet,
) -> Result<(), OutOfMemory>
    ensures { OnOk result ((key : KeyOf) → has key found.new ≡ (has key found.old || (has key one.now.writes && is_touched key other.now))) }
{
    let written = one.writes.listed(alloc)?;
    for key in written.into_vec() {
        add_clash(other, key, found)?;
    }
    Ok(())
}

/// Adds a key, if the set writes or uses it.
fn add_clash(other: &Touched, key: Key, found: &mut KeySet) -> Result<(), OutOfMemory>
    ensures { OnOk result ((k : KeyOf) → has k found.new ≡ (has k found.old || (same_key k key && is_touched key other.now))) }
{
    if other.has(&key) {
        found.insert(key)?;
    }
    Ok(())
}
