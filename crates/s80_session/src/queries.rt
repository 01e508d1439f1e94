// A session answers queries.
ghost use Rattle.std.specs.Prelude.{◌≡◌, ◌≢◌, ◌≤◌, ℕ, List, length, IsTrue, IfErr, IfOk};
ghost use Rattle.s80_apply.specs.List.{IsBuilt};
ghost use Rattle.s80_change.specs.declared.change.Change.{Change};
ghost use Rattle.s80_disk.specs.declared.disk.FileId.{FileId};
ghost use Rattle.s80_disk.specs.declared.disk.FileId.TheVariants.{Mark};
ghost use Rattle.s80_disk.specs.Moments.{LeavesOnly};
ghost use Rattle.s80_log.specs.Log.{log_file};
ghost use Rattle.s80_keeper.specs.Keeper.{pending_of, Knows};
ghost use Rattle.s80_model.specs.Asked.{condenses, Asks};
ghost use Rattle.s80_model.specs.Replies.{Work};
ghost use Rattle.s80_session.specs.Ending.{CountsFor, MeetsNoDamage, OnOkOrMemory, SourceCounts};
ghost use Rattle.s80_session.specs.Files.{IsAsLeft, IsElsewhere, IsQuestion, IsUnwritten, LogAfter};
ghost use Rattle.s80_session.specs.Replies.{HasRoom};
ghost use Rattle.s80_session.specs.Run.{HasKept};

use crate::end::SessionEnd;
use crate::outside::{read_set, read_source, read_versions};
use crate::reply::refusal_at_fault;
use crate::session::Session;
use crate::sought::{
    tell_implementors, tell_references, tell_senders, tell_undeclared, tell_unimplemented,
    tell_unsent,
};
use crate::told::{has_method, tell_browsed, tell_classes, tell_recovered, tell_versions};
use s80_base::Text;
use s80_disk::Outside;
use s80_form::Refusal;
use s80_model::{Query, Reply, SessionItem, changes_text, side_named};
use std::alloc::Global;

impl Session {
    ghost use Rattle.s80_session.specs.Ending.{IsKeepEnd};
    ghost use Rattle.s80_session.specs.Session.{budget_of, held_of, keeper_of, last_run_of, room_of, troubled_of, was_of, IsFaultless, IsResting};
    ghost use Rattle.s80_session.specs.Working.{at_rest, IsAt, QueryWorked, WorkLeaves};

    /// Works a query: makes a snapshot, condenses, or tells what is asked for.
    pub(crate) fn work_query<O: Outside>(
        &mut self,
        alloc: Global,
        query: Query,
        outside: &mut O,
    ) -> Result<Reply, SessionEnd>
        requires resting { IsResting self.old }
        ensures replied { (work : Work) (put : List ℕ)
            → IsAt (O.may_leave outside.old) (O.shown outside.old) self.old work put
            → QueryWorked result (O.may_leave outside.new) (O.shown outside.new) self.new (was_of self.old) work put (SessionItem.Query query) }
        ensures any_moment { (work : Work) (put : List ℕ)
            → IsAt (O.may_leave outside.old) (O.shown outside.old) self.old work put
            → LeavesOnly O.moment O.left_since outside.old outside.new (WorkLeaves work (at_rest work put) (SessionItem.Query query)) }
        // Whatever the disk stands for, files that the query doesn't write stay, in what is read and at any moment.
        ensures others { (other : FileId) → IsUnwritten (SessionItem.Query query) (keeper_of self.old).log.number other → (O.shown outside.new).files other ≡ (O.shown outside.old).files other }
        ensures elsewhere { LeavesOnly O.moment O.left_since outside.old outside.new (IsElsewhere (O.may_leave outside.old) (IsUnwritten (SessionItem.Query query) (keeper_of self.old).log.number)) }
        // A question changes no file, and at any moment a crash leaves what it might have left before.
        ensures asked { IsQuestion query → (file : FileId) → (O.shown outside.new).files file ≡ (O.shown outside.old).files file }
        ensures images { IsQuestion query → (c : FileId → List ℕ) → O.may_leave outside.new c → O.may_leave outside.old c }
        ensures no_more { IsQuestion query → LeavesOnly O.moment O.left_since outside.old outside.new (IsAsLeft (O.may_leave outside.old)) }
        ensures sound { IsTrue (O.shown outside.old).tells → (changes : List Change) → Knows (O.shown outside.old).files (keeper_of self.old) changes
            → (Asks (SessionItem.Query query) condenses → IsBuilt changes) → MeetsNoDamage result }
        ensures troubled { troubled_of self.new ≡ troubled_of self.old }
        ensures last_run { last_run_of self.new ≡ last_run_of self.old }
        ensures budget { budget_of self.new ≡ budget_of self.old }
        ensures faultless { OnOkOrMemory result (IsFaultless self.new) }
        ensures left { (O.shown outside.new).left ≡ (O.shown outside.old).left }
        ensures tells { (O.shown outside.new).tells ≡ (O.shown outside.old).tells }
        ensures taken { (O.shown outside.new).taken ≡ (O.shown outside.old).taken }
        ensures held { held_of self.new ≡ held_of self.old }
        ensures room { 3 ≤ room_of self.old → IfOk result (λ reply. HasRoom reply (room_of self.new)) }
        ensures settled { IsQuestion query → pending_of (keeper_of self.new) ≡ 0 }
        ensures log { LogAfter (SessionItem.Query query) (keeper_of self.old).log.number (keeper_of self.new).log.number }
        ensures ends { IfErr result IsKeepEnd }
        ensures counts { CountsFor (SessionItem.Query query) (O.faults outside.old) (O.faults outside.new) result }
    {
        let system = self.keeper.system();
        match query {
            Query::Recover => Ok(tell_recovered(alloc, system, self.keeper.count())?),
            Query::Classes => Ok(tell_classes(alloc, system)?),
            Query::Browse(name) => Ok(tell_browsed(alloc, system, name)?),
            Query::Source(spec, selector) => self.tell_source(alloc, spec, selector, outside),
            Query::Versions(spec, selector) => {
                self.tell_versions(alloc, spec, selector, outside)
            }
            Query::Changes => self.tell_changes(alloc, outside),
            Query::FileOut(filed) => self.file_out(alloc, filed, outside),
            Query::Senders(selector) => Ok(tell_senders(alloc, system, selector)?),
            Query::Implementors(selector) => Ok(tell_implementors(alloc, system, selector)?),
            Query::References(name) => Ok(tell_references(alloc, system, name)?),
            Query::Undeclared => Ok(tell_undeclared(alloc, system)?),
            Query::Unimplemented => Ok(tell_unimplemented(alloc, system)?),
            Query::Unsent => Ok(tell_unsent(alloc, system)?),
            Query::Snapshot => self.keep_note(alloc, outside),
            Query::Condense => self.condense(alloc, outside),
        }
    }

    /// The source of a method, by the words that name its class and side, and its selector.
    fn tell_source<O: Outside>(
        &mut self,
        alloc: Global,
        spec: Text,
        selector: Text,
        outside: &mut O,
    ) -> Result<Reply, SessionEnd>
        requires resting { IsResting self.old }
        ensures replied { (work : Work) (put : List ℕ)
            → IsAt (O.may_leave outside.old) (O.shown outside.old) self.old work put
            → QueryWorked result (O.may_leave outside.new) (O.shown outside.new) self.new (was_of self.old) work put (SessionItem.Query (Query.Source spec selector)) }
        ensures any_moment { (work : Work) (put : List ℕ)
            → IsAt (O.may_leave outside.old) (O.shown outside.old) self.old work put
            → LeavesOnly O.moment O.left_since outside.old outside.new (HasKept work.changes (length put)) }
        ensures shown { O.shown outside.new ≡ O.shown outside.old }
        ensures images { (c : FileId → List ℕ) → O.may_leave outside.new c → O.may_leave outside.old c }
        ensures no_more { LeavesOnly O.moment O.left_since outside.old outside.new (IsAsLeft (O.may_leave outside.old)) }
        ensures sound { IsTrue (O.shown outside.old).tells → (changes : List Change) → Knows (O.shown outside.old).files (keeper_of self.old) changes → MeetsNoDamage result }
        ensures troubled { troubled_of self.new ≡ troubled_of self.old }
        ensures last_run { last_run_of self.new ≡ last_run_of self.old }
        ensures budget { budget_of self.new ≡ budget_of self.old }
        ensures faultless { OnOkOrMemory result (IsFaultless self.new) }
        ensures held { self.new.held ≡ self.old.held }
        ensures room { (room : ℕ) → IfOk result (λ reply. HasRoom reply room) }
        ensures pending { pending_of (keeper_of self.new) ≡ pending_of (keeper_of self.old) }
        ensures log { (keeper_of self.new).log.number ≡ (keeper_of self.old).log.number }
        ensures ends { IfErr result IsKeepEnd }
        ensures counts { SourceCounts (O.faults outside.old) (O.faults outside.new) result }
    {
        let Some((name, side)) = side_named(alloc, &spec)? else {
            return Ok(Reply::Refused(Refusal::BadName(spec)));
        };
        let Some(number) = self.keeper.system().find(&name) else {
            return Ok(Reply::Refused(Refusal::UnknownClass(name)));
        };
        match read_source(&mut self.keeper, alloc, outside, number, side, &selector) {
            Ok(Some(mut source)) => {
                source.append(b"\n")?;
                Ok(Reply::Told(source))
            }
            Ok(None) => Ok(Reply::Refused(Refusal::NoSelector(name, side, selector))),
            Err(fault) => Ok(Reply::Refused(refusal_at_fault(fault)?)),
        }
    }

    /// The versions of a method, by the words that name its class and side, and its selector.
    fn tell_versions<O: Outside>(
        &mut self,
        alloc: Global,
        spec: Text,
        selector: Text,
        outside: &mut O,
    ) -> Result<Reply, SessionEnd>
        requires resting { IsResting self.old }
        ensures replied { (work : Work) (put : List ℕ)
            → IsAt (O.may_leave outside.old) (O.shown outside.old) self.old work put
            → QueryWorked result (O.may_leave outside.new) (O.shown outside.new) self.new (was_of self.old) work put (SessionItem.Query (Query.Versions spec selector)) }
        ensures any_moment { (work : Work) (put : List ℕ)
            → IsAt (O.may_leave outside.old) (O.shown outside.old) self.old work put
            → LeavesOnly O.moment O.left_since outside.old outside.new (HasKept work.changes (length put)) }
        ensures shown { O.shown outside.new ≡ O.shown outside.old }
        ensures images { (c : FileId → List ℕ) → O.may_leave outside.new c → O.may_leave outside.old c }
        ensures no_more { LeavesOnly O.moment O.left_since outside.old outside.new (IsAsLeft (O.may_leave outside.old)) }
        ensures sound { IsTrue (O.shown outside.old).tells → (changes : List Change) → Knows (O.shown outside.old).files (keeper_of self.old) changes → MeetsNoDamage result }
        ensures troubled { troubled_of self.new ≡ troubled_of self.old }
        ensures last_run { last_run_of self.new ≡ last_run_of self.old }
        ensures budget { budget_of self.new ≡ budget_of self.old }
        ensures faultless { OnOkOrMemory result (IsFaultless self.new) }
        ensures held { self.new.held ≡ self.old.held }
        ensures room { (room : ℕ) → IfOk result (λ reply. HasRoom reply room) }
        ensures pending { pending_of (keeper_of self.new) ≡ pending_of (keeper_of self.old) }
        ensures log { (keeper_of self.new).log.number ≡ (keeper_of self.old).log.number }
        ensures ends { IfErr result IsKeepEnd }
        ensures counts { SourceCounts (O.faults outside.old) (O.faults outside.new) result }
    {
        let Some((name, side)) = side_named(alloc, &spec)? else {
            return Ok(Reply::Refused(Refusal::BadName(spec)));
        };
        let system = self.keeper.system();
        let Some(number) = system.find(&name) else {
            return Ok(Reply::Refused(Refusal::UnknownClass(name)));
        };
        let is_there = has_method(system, number, side, &selector);
        match read_versions(&mut self.keeper, alloc, outside, &name, side, &selector) {
            Ok(versions) => Ok(tell_versions(alloc, name, side, selector, is_there, &versions)?),
            Err(fault) => Ok(Reply::Refused(refusal_at_fault(fault)?)),
        }
    }

    /// The change set.
    fn tell_changes<O: Outside>(
        &mut self,
        alloc: Global,
        outside: &mut O,
    ) -> Result<Reply, SessionEnd>
        requires resting { IsResting self.old }
        ensures replied { (work : Work) (put : List ℕ)
            → IsAt (O.may_leave outside.old) (O.shown outside.old) self.old work put
            → QueryWorked result (O.may_leave outside.new) (O.shown outside.new) self.new (was_of self.old) work put (SessionItem.Query Query.Changes) }
        ensures any_moment { (work : Work) (put : List ℕ)
            → IsAt (O.may_leave outside.old) (O.shown outside.old) self.old work put
            → LeavesOnly O.moment O.left_since outside.old outside.new (HasKept work.changes (length put)) }
        ensures shown { O.shown outside.new ≡ O.shown outside.old }
        ensures images { (c : FileId → List ℕ) → O.may_leave outside.new c → O.may_leave outside.old c }
        ensures no_more { LeavesOnly O.moment O.left_since outside.old outside.new (IsAsLeft (O.may_leave outside.old)) }
        ensures sound { IsTrue (O.shown outside.old).tells → (changes : List Change) → Knows (O.shown outside.old).files (keeper_of self.old) changes → MeetsNoDamage result }
        ensures troubled { troubled_of self.new ≡ troubled_of self.old }
        ensures last_run { last_run_of self.new ≡ last_run_of self.old }
        ensures budget { budget_of self.new ≡ budget_of self.old }
        ensures faultless { OnOkOrMemory result (IsFaultless self.new) }
        ensures held { self.new.held ≡ self.old.held }
        ensures room { (room : ℕ) → IfOk result (λ reply. HasRoom reply room) }
        ensures pending { pending_of (keeper_of self.new) ≡ pending_of (keeper_of self.old) }
        ensures log { (keeper_of self.new).log.number ≡ (keeper_of self.old).log.number }
        ensures ends { IfErr result IsKeepEnd }
        ensures counts { SourceCounts (O.faults outside.old) (O.faults outside.new) result }
    {
        match read_set(&mut self.keeper, alloc, outside) {
            Ok(set) => Ok(Reply::Told(changes_text(alloc, &set)?)),
            Err(fault) => Ok(Reply::Refused(refusal_at_fault(fault)?)),
        }
    }
}
