// A session condenses.
ghost use Rattle.std.specs.Prelude.{◌≡◌, ◌⊎◌, ◌-◌, ◌≤◌, List, [], IsTrue, IfErr, IfOk};
ghost use Rattle.s80_apply.specs.List.{IsBuilt};
ghost use Rattle.s80_change.specs.declared.change.Change.{Change};
ghost use Rattle.s80_disk.specs.declared.disk.FileId.{FileId};
ghost use Rattle.s80_disk.specs.Moments.{LeavesOnly};
ghost use Rattle.s80_keeper.specs.Keeper.{Knows};
ghost use Rattle.s80_model.specs.Asked.{condenses, Asks};
ghost use Rattle.s80_model.specs.Replies.{Work};
ghost use Rattle.s80_model.specs.declared.item.SessionItem.{SessionItem};
ghost use Rattle.s80_session.specs.Ending.{MeetsNoDamage, OnOkOrMemory, SourceCounts};
ghost use Rattle.s80_session.specs.Files.{IsElsewhere, IsUnwritten};
ghost use Rattle.s80_session.specs.Known.{IsKnowing, StaysKnowing};
ghost use Rattle.s80_session.specs.Replies.{HasRoom};

use crate::end::SessionEnd;
use crate::outside::condense;
use crate::reply::refusal_at_fault;
use crate::session::Session;
use s80_disk::Outside;
use s80_model::Reply;
use std::alloc::Global;

impl Session {
    ghost use Rattle.s80_session.specs.Ending.{IsKeepEnd, IsWorkEnd};
    ghost use Rattle.s80_session.specs.Session.{held_of, keeper_of, room_of, HasSameRest, IsFaultless, IsResting};
    ghost use Rattle.s80_session.specs.Working.{Ground, IsAmid, WorkedAlone, WorkLeaves};

    /// Has the condensed list take the place of the list, by itself: what is pending and held is flushed before.
    pub(crate) fn condense<O: Outside>(
        &mut self,
        alloc: Global,
        outside: &mut O,
    ) -> Result<Reply, SessionEnd>
        requires faultless { IsFaultless self.old }
        ensures condensed { (work : Work) (basis : Ground) (item : SessionItem) → Asks item condenses
            → IsAmid (O.may_leave outside.old) (O.shown outside.old) self.old work basis
            → WorkedAlone result (O.may_leave outside.new) (O.shown outside.new) self.new work basis item condenses }
        ensures any_moment { (work : Work) (basis : Ground) (item : SessionItem) → Asks item condenses
            → IsAmid (O.may_leave outside.old) (O.shown outside.old) self.old work basis
            → LeavesOnly O.moment O.left_since outside.old outside.new (WorkLeaves work basis item) }
        // Whatever the disk stands for, files that the item doesn't write stay, in what is read and at any moment.
        ensures others { (item : SessionItem) (other : FileId) → Asks item condenses → IsUnwritten item (keeper_of self.old).log.number other
            → (O.shown outside.new).files other ≡ (O.shown outside.old).files other }
        ensures elsewhere { (item : SessionItem) → Asks item condenses
            → LeavesOnly O.moment O.left_since outside.old outside.new (IsElsewhere (O.may_leave outside.old) (IsUnwritten item (keeper_of self.old).log.number)) }
        ensures sound { IsTrue (O.shown outside.old).tells → (changes : List Change) → Knows (O.shown outside.old).files (keeper_of self.old) changes
            → IsBuilt changes → MeetsNoDamage result }
        ensures known { IsKnowing (O.shown outside.old) self.old → StaysKnowing result (O.shown outside.new) self.new }
        ensures rest { HasSameRest self.old self.new }
        ensures unput { IsResting self.old → (O.shown outside.new).taken ≡ (O.shown outside.old).taken }
        ensures held { (held_of self.new ≡ held_of self.old) ⊎ (held_of self.new ≡ []) }
        ensures room { 3 ≤ room_of self.old → IfOk result (λ reply. HasRoom reply (room_of self.new)) }
        ensures log { ((keeper_of self.new).log.number ≡ (keeper_of self.old).log.number)
            ⊎ ((keeper_of self.new).log.number ≡ 1 - (keeper_of self.old).log.number) }
        ensures faultless { OnOkOrMemory result (IsFaultless self.new) }
        ensures left { (O.shown outside.new).left ≡ (O.shown outside.old).left }
        ensures tells { (O.shown outside.new).tells ≡ (O.shown outside.old).tells }
        ensures ends { IfErr result IsWorkEnd }
        ensures ends_at_rest { IsResting self.old → IfErr result IsKeepEnd }
        ensures counts { SourceCounts (O.faults outside.old) (O.faults outside.new) result }
    {
        self.flush(outside)?;
        match condense(&mut self.keeper, alloc, outside, self.kept_versions) {
            Ok(()) => Ok(Reply::Accepted),
            Err(fault) => Ok(Reply::Refused(refusal_at_fault(fault)?)),
        }
    }
}
