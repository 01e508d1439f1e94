// Generated input: its items are worked as those of a run, but their replies are counted, and not written.
ghost use Rattle.std.specs.Prelude.{◌≡◌, ◌||◌, ◌≤◌, ◌+◌, ◌*◌, ℕ, List, [], Some, OnOk, slice_get};
ghost use Rattle.s80_chunk.specs.Chunks.{IsSound};
ghost use Rattle.s80_disk.specs.Moments.{LeavesOnly};
ghost use Rattle.s80_make.specs.declared.tally.Tally.{Tally as Counted};
ghost use Rattle.s80_make.specs.Items.{items_each, make_items};
ghost use Rattle.s80_make.specs.Tally.{nothing, small_in, with_reply};
ghost use Rattle.s80_model.specs.Replies.{is_trouble, Work};
ghost use Rattle.s80_session.specs.Ending.{OnOkOrMemory, SourceCounts};
ghost use Rattle.s80_session.specs.Known.{IsKnowing, StaysKnowing};
ghost use Rattle.s80_session.specs.Making.{IsMaking, MakeKeeps, Makes, MakesAll, MakesItem};

use crate::end::SessionEnd;
use crate::session::Session;
use s80_base::OutOfMemory;
use s80_chunk::Item;
use s80_disk::Outside;
use s80_doit::runs_answer_the_smalls_of_trees;
use s80_make::{ITEMS_EACH, Tally, made_item};
use s80_model::{Answer, Reply, SessionItem};
use std::alloc::Global;

impl Session {
    ghost use Rattle.s80_session.specs.Working.{IsAt};
    ghost use Rattle.s80_session.specs.Session.{held_of, last_run_of, troubled_of, was_of, HasLittle, IsFaultless, IsResting, RunSince, Was};

    /// Works the items of so many classes of generated input, condenses, and puts one line: how many replies were refusals, how many doIts were
    /// stopped, and the sum of the SmallIntegers that the others answered.
    pub fn make<O: Outside>(
        &mut self,
        alloc: Global,
        classes: u32,
        outside: &mut O,
    ) -> Result<(), SessionEnd>
        requires resting { IsResting self.old }
        requires classes { classes ≤ 1000 }
        ensures made { (work : Work) (put : List ℕ)
            → IsAt (O.may_leave outside.old) (O.shown outside.old) self.old work put
            → Makes result (O.may_leave outside.new) (O.shown outside.new) (was_of self.old) (was_of self.new) work classes put }
        ensures any_moment { (work : Work) (put : List ℕ)
            → IsAt (O.may_leave outside.old) (O.shown outside.old) self.old work put
            → LeavesOnly O.moment O.left_since outside.old outside.new (MakeKeeps work classes put) }
        // The last run is the one before, or that of a doIt, whatever the outside tells.
        ensures last_run { RunSince self.old self.new }
        ensures left { (O.shown outside.new).left ≡ (O.shown outside.old).left }
        ensures tells { (O.shown outside.new).tells ≡ (O.shown outside.old).tells }
        // Where the disk reads as the session knows no damage is met, whatever a crash may leave.
        ensures known { IsKnowing (O.shown outside.old) self.old → StaysKnowing result (O.shown outside.new) self.new }
        ensures counts { SourceCounts (O.faults outside.old) (O.faults outside.new) result }
        ensures resting { OnOk result (IsResting self.new) }
    {
        let Err(end) = self.make_and_tell(alloc, classes, outside) else {
            return Ok(());
        };
        if end.is_memory() {
            return Err(self.end_for_memory(outside));
        }
        Err(end)
    }

    /// The same, but that where memory is wanting what is pending isn't committed.
    fn make_and_tell<O: Outside>(
        &mut self,
        alloc: Global,
        classes: u32,
        outside: &mut O,
    ) -> Result<(), SessionEnd>
        requires resting { IsResting self.old }
        requires classes { classes ≤ 1000 }
        ensures made { (work : Work) (put : List ℕ)
            → IsAt (O.may_leave outside.old) (O.shown outside.old) self.old work put
            → MakesAll result (O.may_leave outside.new) (O.shown outside.new) self.new (was_of self.old) (was_of self.new) work classes put }
        ensures any_moment { (work : Work) (put : List ℕ)
            → IsAt (O.may_leave outside.old) (O.shown outside.old) self.old work put
            → LeavesOnly O.moment O.left_since outside.old outside.new (MakeKeeps work classes put) }
        ensures last_run { RunSince self.old self.new }
        ensures left { (O.shown outside.new).left ≡ (O.shown outside.old).left }
        ensures tells { (O.shown outside.new).tells ≡ (O.shown outside.old).tells }
        ensures known { IsKnowing (O.shown outside.old) self.old → StaysKnowing result (O.shown outside.new) self.new }
        ensures counts { SourceCounts (O.faults outside.old) (O.faults outside.new) result }
        ensures faultless { OnOkOrMemory result (IsFaultless self.new) }
        ensures resting { OnOk result (IsResting self.new) }
    {
        let mut tally = Tally::nothing();
        self.make_items(alloc, classes, &mut tally, outside)?;
        let reply = self.condense(alloc, outside)?;
        self.note(&reply, &mut tally)?;
        let line = tally.line(alloc, classes)?;
        self.held.hold(line.bytes())?;
        self.flush(outside)
    }

    /// Works and counts all items of so many classes. What is pending is committed as often as it fills a group.
    fn make_items<O: Outside>(
        &mut self,
        alloc: Global,
        classes: u32,
        tally: &mut Tally,
        outside: &mut O,
    ) -> Result<(), SessionEnd>
        requires resting { IsResting self.old }
        requires classes { classes ≤ 1000 }
        requires tally { tally.old ≡ nothing }
        ensures made { (work : Work) (put : List ℕ)
            → IsAt (O.may_leave outside.old) (O.shown outside.old) self.old work put
            → MakesItem result (O.may_leave outside.new) (O.shown outside.new) self.new (was_of self.old) work put classes (items_each * classes) tally.new }
        ensures any_moment { (work : Work) (put : List ℕ)
            → IsAt (O.may_leave outside.old) (O.shown outside.old) self.old work put
            → LeavesOnly O.moment O.left_since outside.old outside.new (MakeKeeps work classes put) }
        ensures held { held_of self.new ≡ [] }
        ensures last_run { RunSince self.old self.new }
        ensures left { (O.shown outside.new).left ≡ (O.shown outside.old).left }
        ensures tells { (O.shown outside.new).tells ≡ (O.shown outside.old).tells }
        ensures known { IsKnowing (O.shown outside.old) self.old → StaysKnowing result (O.shown outside.new) self.new }
        ensures counts { SourceCounts (O.faults outside.old) (O.faults outside.new) result }
        ensures faultless { OnOkOrMemory result (IsFaultless self.new) }
        ensures little { OnOk result (HasLittle self.new) }
    {
        for number in 0..ITEMS_EACH * classes {
            let item = made_item(alloc, number)?;
            self.count_item(alloc, item, tally, outside)?;
            self.flush_full(outside)?;
        }
        Ok(())
    }

    /// Works one item, and counts its reply.
    fn count_item<O: Outside>(
        &mut self,
        alloc: Global,
        item: Item,
        tally: &mut Tally,
        outside: &mut O,
    ) -> Result<(), SessionEnd>
        requires faultless { IsFaultless self.old }
        requires unheld { held_of self.old ≡ [] }
        requires sound { IsSound item }
        ensures made { (was : Was) (work : Work) (put : List ℕ) (count done : ℕ) → slice_get (make_items count) done ≡ Some (SessionItem.Chunk item)
            → IsMaking (O.may_leave outside.old) (O.shown outside.old) self.old was work put count done tally.old
            → MakesItem result (O.may_leave outside.new) (O.shown outside.new) self.new was work put count (done + 1) tally.new }
        ensures any_moment { (was : Was) (work : Work) (put : List ℕ) (count done : ℕ) → slice_get (make_items count) done ≡ Some (SessionItem.Chunk item)
            → IsMaking (O.may_leave outside.old) (O.shown outside.old) self.old was work put count done tally.old
            → LeavesOnly O.moment O.left_since outside.old outside.new (MakeKeeps work count put) }
        ensures held { held_of self.new ≡ [] }
        ensures last_run { RunSince self.old self.new }
        ensures left { (O.shown outside.new).left ≡ (O.shown outside.old).left }
        ensures tells { (O.shown outside.new).tells ≡ (O.shown outside.old).tells }
        ensures known { IsKnowing (O.shown outside.old) self.old → StaysKnowing result (O.shown outside.new) self.new }
        ensures counts { SourceCounts (O.faults outside.old) (O.faults outside.new) result }
        ensures faultless { OnOkOrMemory result (IsFaultless self.new) }
    {
        runs_answer_the_smalls_of_trees();
        let Answer { reply, section } = self.answer_to(alloc, SessionItem::Chunk(item), outside)?;
        self.enter(section);
        self.note(&reply, tally)?;
        Ok(())
    }

    /// Commits what is pending, where it fills a group.
    fn flush_full<O: Outside>(&mut self, outside: &mut O) -> Result<(), SessionEnd>
        requires faultless { IsFaultless self.old }
        requires unheld { held_of self.old ≡ [] }
        ensures made { (was : Was) (work : Work) (put : List ℕ) (count done : ℕ) (tally : Counted)
            → IsMaking (O.may_leave outside.old) (O.shown outside.old) self.old was work put count done tally
            → MakesItem result (O.may_leave outside.new) (O.shown outside.new) self.new was work put count done tally }
        ensures any_moment { (was : Was) (work : Work) (put : List ℕ) (count done : ℕ) (tally : Counted)
            → IsMaking (O.may_leave outside.old) (O.shown outside.old) self.old was work put count done tally
            → LeavesOnly O.moment O.left_since outside.old outside.new (MakeKeeps work count put) }
        ensures held { held_of self.new ≡ [] }
        ensures last_run { RunSince self.old self.new }
        ensures left { (O.shown outside.new).left ≡ (O.shown outside.old).left }
        ensures tells { (O.shown outside.new).tells ≡ (O.shown outside.old).tells }
        ensures known { IsKnowing (O.shown outside.old) self.old → StaysKnowing result (O.shown outside.new) self.new }
        ensures counts { SourceCounts (O.faults outside.old) (O.faults outside.new) result }
        ensures faultless { OnOkOrMemory result (IsFaultless self.new) }
        ensures little { OnOk result (HasLittle self.new) }
    {
        if self.is_full() {
            return self.flush(outside);
        }
        Ok(())
    }

    /// Counts a reply, and notes whether something was refused or stopped.
    fn note(&mut self, reply: &Reply, tally: &mut Tally) -> Result<(), OutOfMemory>
        ensures troubled { troubled_of self.new ≡ (troubled_of self.old || is_trouble reply.now) }
        ensures rest { self.new ≡ record self.old { troubled = troubled_of self.new } }
        ensures tally { OnOk result (tally.new ≡ with_reply reply.now (small_in (last_run_of self.old)) tally.old) }
    {
        self.troubled |= is_trouble(reply);
        tally.count(reply, self.last_run.as_ref())
    }
}

/// Whether something was refused or stopped.
fn is_trouble(reply: &Reply) -> bool
    ensures { result ≡ is_trouble reply.now }
{
    match reply {
        Reply::Silent => false,
        Reply::Accepted => false,
        Reply::Refused(_) => true,
        Reply::Evaluated { stopped, .. } => *stopped,
        Reply::Told(_) => false,
    }
}
