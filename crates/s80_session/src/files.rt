// A session files out.
ghost use Rattle.std.specs.Prelude.{◌≡◌, ℕ, List, length, IsTrue, IfErr, IfOk, IfSome};
ghost use Rattle.s80_change.specs.declared.change.Change.{Change};
ghost use Rattle.s80_disk.specs.declared.disk.FileId.{FileId};
ghost use Rattle.s80_disk.specs.Moments.{LeavesOnly};
ghost use Rattle.s80_keeper.specs.Keeper.{pending_of, Knows};
ghost use Rattle.s80_model.specs.Replies.{Work};
ghost use Rattle.s80_session.specs.Ending.{CountsFor, MeetsNoDamage, OnOkOrMemory, SourceCounts};
ghost use Rattle.s80_session.specs.Files.{IsAsLeft};
ghost use Rattle.s80_session.specs.Replies.{HasRoom};
ghost use Rattle.s80_session.specs.Run.{HasKept};

use crate::end::SessionEnd;
use crate::outside::{read_clock, read_set};
use crate::reply::refusal_at_fault;
use crate::session::Session;
use crate::told::{tell_filed, tell_filed_on};
use s80_disk::Outside;
use s80_fileout::render;
use s80_model::{Filed, Query, Reply, SessionItem};
use std::alloc::Global;

impl Session {
    ghost use Rattle.s80_session.specs.Ending.{IsKeepEnd};
    ghost use Rattle.s80_session.specs.Session.{budget_of, keeper_of, last_run_of, troubled_of, was_of, IsFaultless, IsResting};
    ghost use Rattle.s80_session.specs.Working.{IsAt, QueryWorked};

    /// A file of changes, with the outside's time in its first line.
    pub(crate) fn file_out<O: Outside>(
        &mut self,
        alloc: Global,
        filed: Filed,
        outside: &mut O,
    ) -> Result<Reply, SessionEnd>
        requires resting { IsResting self.old }
        ensures replied { (work : Work) (put : List ℕ)
            → IsAt (O.may_leave outside.old) (O.shown outside.old) self.old work put
            → QueryWorked result (O.may_leave outside.new) (O.shown outside.new) self.new (was_of self.old) work put (SessionItem.Query (Query.FileOut filed)) }
        ensures any_moment { (work : Work) (put : List ℕ)
            → IsAt (O.may_leave outside.old) (O.shown outside.old) self.old work put
            → LeavesOnly O.moment O.left_since outside.old outside.new (HasKept work.changes (length put)) }
        ensures shown { O.shown outside.new ≡ O.shown outside.old }
        ensures images { (c : FileId → List ℕ) → O.may_leave outside.new c → O.may_leave outside.old c }
        ensures no_more { LeavesOnly O.moment O.left_since outside.old outside.new (IsAsLeft (O.may_leave outside.old)) }
        ensures sound { IsTrue (O.shown outside.old).tells → (changes : List Change) → Knows (O.shown outside.old).files (keeper_of self.old) changes → MeetsNoDamage result }
        ensures troubled { troubled_of self.new ≡ troubled_of self.old }
        ensures last_run { last_run_of self.new ≡ last_run_of self.old }
        ensures budget { budget_of self.new ≡ budget_of self.old }
        ensures faultless { OnOkOrMemory result (IsFaultless self.new) }
        ensures held { self.new.held ≡ self.old.held }
        ensures room { (room : ℕ) → IfOk result (λ reply. HasRoom reply room) }
        ensures pending { pending_of (keeper_of self.new) ≡ pending_of (keeper_of self.old) }
        ensures log { (keeper_of self.new).log.number ≡ (keeper_of self.old).log.number }
        ensures ends { IfErr result IsKeepEnd }
        ensures counts { CountsFor (SessionItem.Query (Query.FileOut filed)) (O.faults outside.old) (O.faults outside.new) result }
    {
        let seconds = read_clock(outside);
        match filed {
            Filed::All => Ok(tell_filed(alloc, self.keeper.system(), seconds)?),
            Filed::Class(name) => { Ok(tell_filed_on(alloc, self.keeper.system(), name, seconds)?) }
            Filed::Set => self.tell_filed_set(alloc, seconds, outside),
        }
    }

    /// A file of the change set, with the moment of this second in its first line.
    fn tell_filed_set<O: Outside>(
        &mut self,
        alloc: Global,
        seconds: u64,
        outside: &mut O,
    ) -> Result<Reply, SessionEnd>
        requires resting { IsResting self.old }
        ensures replied { (work : Work) (put : List ℕ) → IfSome (O.shown outside.old).seconds (λ told. seconds ≡ told)
            → IsAt (O.may_leave outside.old) (O.shown outside.old) self.old work put
            → QueryWorked result (O.may_leave outside.new) (O.shown outside.new) self.new (was_of self.old) work put (SessionItem.Query (Query.FileOut Filed.Set)) }
        ensures any_moment { (work : Work) (put : List ℕ)
            → IsAt (O.may_leave outside.old) (O.shown outside.old) self.old work put
            → LeavesOnly O.moment O.left_since outside.old outside.new (HasKept work.changes (length put)) }
        ensures shown { O.shown outside.new ≡ O.shown outside.old }
        ensures images { (c : FileId → List ℕ) → O.may_leave outside.new c → O.may_leave outside.old c }
        ensures no_more { LeavesOnly O.moment O.left_since outside.old outside.new (IsAsLeft (O.may_leave outside.old)) }
        ensures sound { IsTrue (O.shown outside.old).tells → (changes : List Change) → Knows (O.shown outside.old).files (keeper_of self.old) changes → MeetsNoDamage result }
        ensures troubled { troubled_of self.new ≡ troubled_of self.old }
        ensures last_run { last_run_of self.new ≡ last_run_of self.old }
        ensures budget { budget_of self.new ≡ budget_of self.old }
        ensures faultless { OnOkOrMemory result (IsFaultless self.new) }
        ensures held { self.new.held ≡ self.old.held }
        ensures room { (room : ℕ) → IfOk result (λ reply. HasRoom reply room) }
        ensures pending { pending_of (keeper_of self.new) ≡ pending_of (keeper_of self.old) }
        ensures log { (keeper_of self.new).log.number ≡ (keeper_of self.old).log.number }
        ensures ends { IfErr result IsKeepEnd }
        ensures counts { SourceCounts (O.faults outside.old) (O.faults outside.new) result }
    {
        match read_set(&mut self.keeper, alloc, outside) {
            Ok(set) => Ok(Reply::Told(render(alloc, &set, seconds)?)),
            Err(fault) => Ok(Reply::Refused(refusal_at_fault(fault)?)),
        }
    }
}
