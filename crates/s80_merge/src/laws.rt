// Laws on merging.
ghost use Rattle.std.specs.Prelude.{◌≡◌, ◌≢◌, ◌++◌, List, Result, Err};
ghost use Rattle.s80_change.specs.declared.change.Change.{Change};
ghost use Rattle.s80_apply.specs.List.{IsBuilt, state_of};
ghost use Rattle.s80_apply.specs.State.{State};
ghost use Rattle.s80_merge.specs.declared.key.Key.{Key};
ghost use Rattle.s80_merge.specs.declared.planning.MergePlan.{MergePlan};
ghost use Rattle.s80_merge.specs.declared.planning.PlanFault.{PlanFault};
ghost use Rattle.s80_merge.specs.declared.planning.PlanFault.TheVariants.{Memory};
ghost use Rattle.s80_merge.specs.Merging.{IsConflict, IsPlan, MergeEitherWay};

/// Two sets that start from one base and are accepted there, and have no conflict, may be worked one behind the other in either order.
pub fn sets_without_conflicts_merge()
    ensures { (base ours theirs : List Change) → IsBuilt (base ++ ours) → IsBuilt (base ++ theirs)
        → ((key : Key) → IsConflict (state_of base) ours theirs key → ⊥) → MergeEitherWay base ours theirs }
{}

/// But for want of memory two sets have one plan.
pub fn one_plan()
    ensures { (base : State) (ours theirs : List Change) (one other : Result MergePlan PlanFault) → IsPlan base ours theirs one → IsPlan base ours theirs other
        → one ≢ Err Memory → other ≢ Err Memory → one ≡ other }
{}
