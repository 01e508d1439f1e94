// A second change set, the items of the input, is merged with the session's own.
ghost use Rattle.std.specs.Prelude.{◌≡◌, ◌++◌, ◌∷◌, ℕ, true, All, List, [], length, Some, IfErr, IfOk, OnOk};
ghost use Rattle.s80_change.specs.Block.{IsLawful};
ghost use Rattle.s80_change.specs.declared.change.Change.{Change};
ghost use Rattle.s80_disk.specs.declared.disk.FileId.{FileId};
ghost use Rattle.s80_disk.specs.Moments.{LeavesOnly};
ghost use Rattle.s80_joining.specs.declared.outcome.Outcome.TheVariants as outcomes;
ghost use Rattle.s80_joining.specs.Answer.{merged_line, refusal_line};
ghost use Rattle.s80_joining.specs.Given.{JoinsLawful};
ghost use Rattle.s80_joining.specs.Parts.{base_of, ours_of};
ghost use Rattle.s80_model.specs.Replies.{Work};
ghost use Rattle.s80_session.specs.Ending.{Counts, OnOkOrMemory, SourceCounts};
ghost use Rattle.s80_session.specs.Known.{IsKnowing, StaysKnowing};
ghost use Rattle.s80_session.specs.Merging.{AddsChange, ComesTo, IsJoining, IsReadFrom, JoinEnds, JoinKeeps, Joins, JoinsOn, MergeKeeps, Merges, RepliesTo};
ghost use Rattle.s80_session.specs.Putting.{IsAsBefore};
ghost use Rattle.s80_session.specs.Run.{HasKept};

use crate::base::read_base;
use crate::end::SessionEnd;
use crate::outside::read_set;
use crate::reply::{end_at_fault, refusal_line};
use crate::session::Session;
use crate::theirs::take_theirs;
use s80_base::{OutOfMemory, Text};
use s80_change::{Change, Changes};
use s80_disk::Outside;
use s80_form::Refusal;
use s80_joining::{Given, Outcome, a_set_starts_from_its_base, conflict_lines, merged_line};
use std::alloc::Global;

/// What merging is answered.
#[derive(Debug, Drop)]
pub(crate) struct MergeReply {
    text: Text,
    /// Whether something was refused, or there are conflicts.
    is_trouble: bool,
}

impl Session {
    ghost use Rattle.s80_session.specs.Ending.{IsKeepEnd};
    ghost use Rattle.s80_session.specs.Session.{held_of, keeper_of, last_run_of, troubled_of, was_of, HasSameRest, IsFaultless, IsResting};
    ghost use Rattle.s80_session.specs.Working.{IsAt};

    /// Merges a second change set, the changes of the input's items, with that of the list, where both start from the changes up to and with the last
    /// that begins a set: puts the refusal of the first bad item, or a line for each conflict; or else adds theirs, and puts how many were accepted.
    pub fn merge<O: Outside>(&mut self, alloc: Global, outside: &mut O) -> Result<(), SessionEnd>
        requires resting { IsResting self.old }
        ensures merged { (work : Work) (input put : List ℕ) → (O.shown outside.old).left ≡ Some input
            → IsAt (O.may_leave outside.old) (O.shown outside.old) self.old work put
            → Merges result (O.may_leave outside.new) (O.shown outside.new) (was_of self.old) (was_of self.new) work input put }
        ensures any_moment { (work : Work) (input put : List ℕ) → (O.shown outside.old).left ≡ Some input
            → IsAt (O.may_leave outside.old) (O.shown outside.old) self.old work put
            → LeavesOnly O.moment O.left_since outside.old outside.new (MergeKeeps work input put) }
        ensures last_run { last_run_of self.new ≡ last_run_of self.old }
        ensures tells { (O.shown outside.new).tells ≡ (O.shown outside.old).tells }
        // Where the disk reads as the session knows no damage is met, whatever a crash may leave.
        ensures known { IsKnowing (O.shown outside.old) self.old → StaysKnowing result (O.shown outside.new) self.new }
        ensures counts { SourceCounts (O.faults outside.old) (O.faults outside.new) result }
        ensures resting { OnOk result (IsResting self.new) }
    {
        let outcome = self.outcome(alloc, outside)?;
        self.join(alloc, outcome, outside)
    }

    /// What merging the input comes to. No file changes, and nothing is put.
    fn outcome<O: Outside>(&mut self, alloc: Global, outside: &mut O) -> Result<Outcome, SessionEnd>
        requires resting { IsResting self.old }
        ensures comes { (work : Work) (input put : List ℕ) → (O.shown outside.old).left ≡ Some input
            → IsAt (O.may_leave outside.old) (O.shown outside.old) self.old work put
            → ComesTo result (O.may_leave outside.new) (O.shown outside.new) self.new work input put }
        ensures any_moment { (work : Work) (put : List ℕ)
            → IsAt (O.may_leave outside.old) (O.shown outside.old) self.old work put
            → LeavesOnly O.moment O.left_since outside.old outside.new (HasKept work.changes (length put)) }
        ensures lawful { IfOk result JoinsLawful }
        ensures rest { self.new ≡ record self.old { keeper = keeper_of self.new } }
        ensures resting { OnOk result (IsResting self.new) }
        ensures tells { (O.shown outside.new).tells ≡ (O.shown outside.old).tells }
        ensures known { IsKnowing (O.shown outside.old) self.old → StaysKnowing result (O.shown outside.new) self.new }
        ensures counts { SourceCounts (O.faults outside.old) (O.faults outside.new) result }
    {
        a_set_starts_from_its_base();
        let base = self.base(alloc, outside)?;
        let ours = self.set(alloc, outside)?;
        let mut given = Given::begin(alloc, &base)?;
        take_theirs(alloc, &mut given, outside)?;
        Ok(given.outcome(alloc, &base, &ours)?)
    }

    /// The base of the list.
    fn base<O: Outside>(&mut self, alloc: Global, outside: &mut O) -> Result<Changes, SessionEnd>
        requires faultless { IsFaultless self.old }
        ensures base { IsReadFrom base_of result (O.shown outside.old) self.old }
        ensures rest { self.new ≡ record self.old { keeper = keeper_of self.new } }
        ensures keeper { OnOkOrMemory result (keeper_of self.new ≡ keeper_of self.old) }
        ensures shown { O.shown outside.new ≡ O.shown outside.old }
        ensures images { (c : FileId → List ℕ) → O.may_leave outside.new c → O.may_leave outside.old c }
        ensures any_moment { LeavesOnly O.moment O.left_since outside.old outside.new
            (IsAsBefore (O.may_leave outside.old) (O.shown outside.old).told 0) }
        ensures ends { IfErr result IsKeepEnd }
        ensures counts { SourceCounts (O.faults outside.old) (O.faults outside.new) result }
    {
        match read_base(&mut self.keeper, alloc, outside) {
            Ok(base) => Ok(base),
            Err(fault) => Err(end_at_fault(fault)),
        }
    }

    /// The change set of the list.
    fn set<O: Outside>(&mut self, alloc: Global, outside: &mut O) -> Result<Changes, SessionEnd>
        requires resting { IsResting self.old }
        ensures set { IsReadFrom ours_of result (O.shown outside.old) self.old }
        ensures rest { self.new ≡ record self.old { keeper = keeper_of self.new } }
        ensures keeper { OnOkOrMemory result (keeper_of self.new ≡ keeper_of self.old) }
        ensures shown { O.shown outside.new ≡ O.shown outside.old }
        ensures images { (c : FileId → List ℕ) → O.may_leave outside.new c → O.may_leave outside.old c }
        ensures any_moment { LeavesOnly O.moment O.left_since outside.old outside.new
            (IsAsBefore (O.may_leave outside.old) (O.shown outside.old).told 0) }
        ensures ends { IfErr result IsKeepEnd }
        ensures counts { SourceCounts (O.faults outside.old) (O.faults outside.new) result }
    {
        match read_set(&mut self.keeper, alloc, outside) {
            Ok(set) => Ok(set),
            Err(fault) => Err(end_at_fault(fault)),
        }
    }

    /// Does what merging comes to, and puts what it is answered.
    fn join<O: Outside>(
        &mut self,
        alloc: Global,
        outcome: Outcome,
        outside: &mut O,
    ) -> Result<(), SessionEnd>
        requires resting { IsResting self.old }
        requires lawful { JoinsLawful outcome }
        ensures joined { (work : Work) (put : List ℕ)
            → IsAt (O.may_leave outside.old) (O.shown outside.old) self.old work put
            → JoinEnds result (O.may_leave outside.new) (O.shown outside.new) (was_of self.old) (was_of self.new) work put outcome }
        ensures any_moment { (work : Work) (put : List ℕ)
            → IsAt (O.may_leave outside.old) (O.shown outside.old) self.old work put
            → LeavesOnly O.moment O.left_since outside.old outside.new (JoinKeeps work outcome put) }
        ensures last_run { last_run_of self.new ≡ last_run_of self.old }
        ensures left { (O.shown outside.new).left ≡ (O.shown outside.old).left }
        ensures tells { (O.shown outside.new).tells ≡ (O.shown outside.old).tells }
        ensures known { IsKnowing (O.shown outside.old) self.old → StaysKnowing result (O.shown outside.new) self.new }
        ensures counts { Counts (O.faults outside.old) (O.faults outside.new) result }
        ensures resting { OnOk result (IsResting self.new) }
    {
        let Err(end) = self.join_and_tell(alloc, outcome, outside) else {
            return Ok(());
        };
        if end.is_memory() {
            return Err(self.end_for_memory(outside));
        }
        Err(end)
    }

    /// The same, but that where memory is wanting what is pending isn't committed.
    fn join_and_tell<O: Outside>(
        &mut self,
        alloc: Global,
        outcome: Outcome,
        outside: &mut O,
    ) -> Result<(), SessionEnd>
        requires resting { IsResting self.old }
        requires lawful { JoinsLawful outcome }
        ensures joined { (work : Work) (put : List ℕ)
            → IsAt (O.may_leave outside.old) (O.shown outside.old) self.old work put
            → Joins result (O.may_leave outside.new) (O.shown outside.new) self.new (was_of self.old) (was_of self.new) work put outcome }
        ensures any_moment { (work : Work) (put : List ℕ)
            → IsAt (O.may_leave outside.old) (O.shown outside.old) self.old work put
            → LeavesOnly O.moment O.left_since outside.old outside.new (JoinKeeps work outcome put) }
        ensures last_run { last_run_of self.new ≡ last_run_of self.old }
        ensures left { (O.shown outside.new).left ≡ (O.shown outside.old).left }
        ensures tells { (O.shown outside.new).tells ≡ (O.shown outside.old).tells }
        ensures known { IsKnowing (O.shown outside.old) self.old → StaysKnowing result (O.shown outside.new) self.new }
        ensures counts { Counts (O.faults outside.old) (O.faults outside.new) result }
        ensures faultless { OnOkOrMemory result (IsFaultless self.new) }
        ensures resting { OnOk result (IsResting self.new) }
    {
        let reply = self.reply_to(alloc, outcome, outside)?;
        self.held.hold(reply.text.bytes())?;
        self.troubled |= reply.is_trouble;
        self.flush(outside)
    }

    /// Does what merging comes to. Says what it is to be answered.
    fn reply_to<O: Outside>(
        &mut self,
        alloc: Global,
        outcome: Outcome,
        outside: &mut O,
    ) -> Result<MergeReply, SessionEnd>
        requires resting { IsResting self.old }
        requires lawful { JoinsLawful outcome }
        ensures replied { (work : Work) (put : List ℕ)
            → IsAt (O.may_leave outside.old) (O.shown outside.old) self.old work put
            → RepliesTo result (O.may_leave outside.new) (O.shown outside.new) self.new work put outcome }
        ensures any_moment { (work : Work) (put : List ℕ)
            → IsAt (O.may_leave outside.old) (O.shown outside.old) self.old work put
            → LeavesOnly O.moment O.left_since outside.old outside.new (JoinKeeps work outcome put) }
        ensures held { held_of self.new ≡ [] }
        ensures rest { HasSameRest self.old self.new }
        ensures left { (O.shown outside.new).left ≡ (O.shown outside.old).left }
        ensures tells { (O.shown outside.new).tells ≡ (O.shown outside.old).tells }
        ensures known { IsKnowing (O.shown outside.old) self.old → StaysKnowing result (O.shown outside.new) self.new }
        ensures counts { Counts (O.faults outside.old) (O.faults outside.new) result }
        ensures faultless { OnOkOrMemory result (IsFaultless self.new) }
    {
        match outcome {
            Outcome::Refused(refusal) => Ok(trouble(refusal_line(alloc, &refusal)?)),
            Outcome::Conflicts(keys) => Ok(trouble(conflict_lines(alloc, &keys)?)),
            Outcome::Joins(theirs) => self.add_theirs(alloc, theirs, outside),
        }
    }

    /// Adds changes, one behind the other, up to the first that is refused. What is pending is committed as often as it fills a group.
    fn add_theirs<O: Outside>(
        &mut self,
        alloc: Global,
        theirs: Changes,
        outside: &mut O,
    ) -> Result<MergeReply, SessionEnd>
        requires resting { IsResting self.old }
        requires lawful { All IsLawful theirs }
        ensures replied { (work : Work) (put : List ℕ)
            → IsAt (O.may_leave outside.old) (O.shown outside.old) self.old work put
            → RepliesTo result (O.may_leave outside.new) (O.shown outside.new) self.new work put (outcomes.Joins theirs) }
        ensures any_moment { (work : Work) (put : List ℕ)
            → IsAt (O.may_leave outside.old) (O.shown outside.old) self.old work put
            → LeavesOnly O.moment O.left_since outside.old outside.new (JoinKeeps work (outcomes.Joins theirs) put) }
        ensures held { held_of self.new ≡ [] }
        ensures rest { HasSameRest self.old self.new }
        ensures left { (O.shown outside.new).left ≡ (O.shown outside.old).left }
        ensures tells { (O.shown outside.new).tells ≡ (O.shown outside.old).tells }
        ensures known { IsKnowing (O.shown outside.old) self.old → StaysKnowing result (O.shown outside.new) self.new }
        ensures counts { Counts (O.faults outside.old) (O.faults outside.new) result }
        ensures faultless { OnOkOrMemory result (IsFaultless self.new) }
    {
        let mut count = 0;
        for change in theirs.into_vec() {
            if let Some(refusal) = self.add_change(alloc, change, outside)? {
                return Ok(trouble(joined_lines(alloc, count, &refusal)?));
            }
            count += 1;
        }
        Ok(MergeReply {
            text: merged_line(alloc, count)?,
            is_trouble: false,
        })
    }

    /// Adds a change. Says why it is refused, if it is. What is pending is committed where it fills a group.
    fn add_change<O: Outside>(
        &mut self,
        alloc: Global,
        change: Change,
        outside: &mut O,
    ) -> Result<Option<Refusal>, SessionEnd>
        requires faultless { IsFaultless self.old }
        requires unheld { held_of self.old ≡ [] }
        requires lawful { IsLawful change }
        ensures added { (work : Work) (put : List ℕ) (theirs added waiting : List Change)
            → IsJoining (O.may_leave outside.old) (O.shown outside.old) self.old work put theirs added (change ∷ waiting)
            → AddsChange result (O.may_leave outside.new) (O.shown outside.new) self.new work put theirs added change waiting }
        ensures any_moment { (work : Work) (put : List ℕ) (theirs added waiting : List Change)
            → IsJoining (O.may_leave outside.old) (O.shown outside.old) self.old work put theirs added (change ∷ waiting)
            → LeavesOnly O.moment O.left_since outside.old outside.new (JoinKeeps work (outcomes.Joins theirs) put) }
        ensures held { held_of self.new ≡ [] }
        ensures rest { HasSameRest self.old self.new }
        ensures left { (O.shown outside.new).left ≡ (O.shown outside.old).left }
        ensures tells { (O.shown outside.new).tells ≡ (O.shown outside.old).tells }
        ensures known { IsKnowing (O.shown outside.old) self.old → StaysKnowing result (O.shown outside.new) self.new }
        ensures counts { Counts (O.faults outside.old) (O.faults outside.new) result }
        ensures faultless { OnOkOrMemory result (IsFaultless self.new) }
    {
        let refusal = self.keep(alloc, change, outside)?;
        self.commit_full(outside)?;
        Ok(refusal)
    }

    /// Commits what is pending, where it fills a group. Nothing is held.
    fn commit_full<O: Outside>(&mut self, outside: &mut O) -> Result<(), SessionEnd>
        requires faultless { IsFaultless self.old }
        requires unheld { held_of self.old ≡ [] }
        ensures joined { (work : Work) (put : List ℕ) (theirs added waiting : List Change)
            → IsJoining (O.may_leave outside.old) (O.shown outside.old) self.old work put theirs added waiting
            → JoinsOn result (O.may_leave outside.new) (O.shown outside.new) self.new work put theirs added waiting }
        ensures any_moment { (work : Work) (put : List ℕ) (theirs added waiting : List Change)
            → IsJoining (O.may_leave outside.old) (O.shown outside.old) self.old work put theirs added waiting
            → LeavesOnly O.moment O.left_since outside.old outside.new (JoinKeeps work (outcomes.Joins theirs) put) }
        ensures held { held_of self.new ≡ [] }
        ensures rest { HasSameRest self.old self.new }
        ensures left { (O.shown outside.new).left ≡ (O.shown outside.old).left }
        ensures tells { (O.shown outside.new).tells ≡ (O.shown outside.old).tells }
        ensures known { IsKnowing (O.shown outside.old) self.old → StaysKnowing result (O.shown outside.new) self.new }
        ensures counts { Counts (O.faults outside.old) (O.faults outside.new) result }
        ensures faultless { OnOkOrMemory result (IsFaultless self.new) }
    {
        if self.is_full() {
            return self.flush(outside);
        }
        Ok(())
    }
}

/// The reply with this text to what is trouble.
fn trouble(text: Text) -> MergeReply
    ensures { result ≡ record { text = text; is_trouble = true } }
{
    MergeReply {
        text,
        is_trouble: true,
    }
}

/// The lines that tell how many changes were accepted, and why the one behind them is refused.
fn joined_lines(alloc: Global, count: u64, refusal: &Refusal) -> Result<Text, OutOfMemory>
    ensures { IfOk result (λ text. text ≡ merged_line count ++ refusal_line refusal.now) }
{
    let mut text = merged_line(alloc, count)?;
    text.append(refusal_line(alloc, refusal)?.bytes())?;
    Ok(text)
}
