// The input of a run, taken in pieces and worked item by item.
ghost use Rattle.std.specs.Prelude.{◌≡◌, ◌+◌, ◌^◌, ◌≤◌, ◌<◌, ◌++◌, ◌||◌, nat_le, ℕ, List, [], false, true, length, Some, IfErr, IfNone, IfOk, IfSome, OnOk, OnSome, option_to_list};
ghost use Rattle.s80_chunk.specs.declared.item.Item.{Item};
ghost use Rattle.s80_chunk.specs.Chunks.{IsSound};
ghost use Rattle.s80_chunk.specs.Held.{HasRead, HoldsNoMore, IsSpent, fed, work_of};
ghost use Rattle.s80_session.specs.Ending.{Counts, SourceCounts};
ghost use Rattle.s80_session.specs.Known.{IsKnowing, StaysKnowing};
ghost use Rattle.s80_disk.specs.declared.disk.FileId.{FileId};
ghost use Rattle.s80_disk.specs.Moments.{LeavesOnly};
ghost use Rattle.s80_keeper.specs.Keeper.{pending_of};
ghost use Rattle.s80_session.specs.Putting.{IsAsBefore};
ghost use Rattle.s80_session.specs.Run.{input_limit, Ends, Keeps};
ghost use Rattle.s80_model.specs.Replies.{Work};
ghost use Rattle.s80_session.specs.Session.{group_limit, held_of, keeper_of, was_of, HasLittle, HasSameRest, IsFaultless, IsResting, RunSince, Was};
ghost use Rattle.s80_session.specs.Working.{AnswersLeave, AtEnd, EndsForMemory, Finishes, FlushLeaves, Ground, HasReadSome, IsAmid, IsAt, IsDone, IsWorking, PieceWorked, Takes, TakesAll, WorksAll};

use crate::end::SessionEnd;
use crate::outside::take_some;
use crate::session::Session;
use s80_base::OutOfMemory;
use s80_chunk::{ChunkReader, Item, Rest};
use s80_disk::Outside;
use s80_model::SessionItem;
use std::alloc::Global;

/// The greatest length of an input.
const INPUT_LIMIT: u64 = 1 << 30;

/// How many bytes are taken at once, and how many bytes of blocks or of replies wait for a flush.
pub(crate) const GROUP: usize = 65_536;

/// A buffer of this size.
pub(crate) fn zeros(alloc: Global, size: usize) -> Result<Vec<u8>, OutOfMemory>
    ensures { IfOk result (λ buf. length buf.items ≡ size) }
{
    Ok(vec![in alloc; 0; size]?)
}

/// Takes the next piece of the input into the front of a buffer. Says how many bytes it has: none at the end of the input.
pub(crate) fn take_piece<O: Outside>(
    buf: &mut [u8],
    taken: u64,
    outside: &mut O,
) -> Result<usize, SessionEnd>
    requires room { length buf.old ≡ 65536 }
    requires within { taken ≤ input_limit }
    ensures took { (left : List ℕ) → (O.shown outside.old).left ≡ Some left → Takes result (O.shown outside.new) taken buf.new left }
    ensures bound { IfOk result (λ count. count ≤ length buf.new) }
    ensures room { length buf.new ≡ length buf.old }
    ensures shown { O.shown outside.new ≡ record (O.shown outside.old) { left = (O.shown outside.new).left } }
    ensures counts { Counts (O.faults outside.old) (O.faults outside.new) result }
    ensures images { (c : FileId → List ℕ) → O.may_leave outside.new c → O.may_leave outside.old c }
    ensures any_moment { LeavesOnly O.moment O.left_since outside.old outside.new
        (IsAsBefore (O.may_leave outside.old) (O.shown outside.old).told 0) }
    ensures within { IfOk result (λ count. taken + count ≤ input_limit) }
{
    let wanted = (INPUT_LIMIT - taken).clamp(1, GROUP as u64) as usize;
    let count = take_some(outside, &mut buf[..wanted]).map_err(SessionEnd::Read)?;
    if taken == INPUT_LIMIT && count > 0 {
        return Err(SessionEnd::TooLong);
    }
    Ok(count)
}

impl Session {
    /// Whether so much is pending or held that it is flushed.
    pub(crate) fn is_full(&self) -> bool
        ensures { result ≡ (nat_le group_limit (pending_of (keeper_of self.now)) || nat_le group_limit (length (held_of self.now))) }
    {
        self.keeper.pending() >= GROUP as u64 || self.held.bytes().len() >= GROUP
    }

    /// The next whole item that the reader holds. Where memory is wanting, what is pending and held is flushed.
    fn next_item<O: Outside>(
        &mut self,
        alloc: Global,
        reader: &mut ChunkReader,
        outside: &mut O,
    ) -> Result<Option<Item>, SessionEnd>
        requires faultless { IsFaultless self.old }
        ensures item { IfOk result (λ item. (bytes : List ℕ) (given : List Item) → HasRead reader.old bytes given → HasRead reader.new bytes (given ++ option_to_list item)) }
        ensures sound { IfOk result (λ item. IfSome item (λ found. (bytes : List ℕ) (given : List Item) → HasRead reader.old bytes given → IsSound found)) }
        ensures none { IfOk result (λ item. IfNone item ((bytes : List ℕ) (given : List Item) → HasRead reader.old bytes given → HoldsNoMore reader.old.ended bytes given)) }
        ensures spent { IfOk result (λ item. IfNone item (IsSpent reader.new × (reader.new.room ≡ 4096))) }
        ensures progress { IfOk result (λ item. OnSome item (work_of reader.new < work_of reader.old)) }
        ensures fed { fed reader.new ≡ fed reader.old }
        ensures ended { reader.new.ended ≡ reader.old.ended }
        ensures same { IfOk result (λ item. (self.new ≡ self.old) × (outside.new ≡ outside.old)) }
        ensures ends { (work : Work) (basis : Ground)
            → IsAmid (O.may_leave outside.old) (O.shown outside.old) self.old work basis
            → IfErr result (λ end. EndsForMemory end (O.may_leave outside.new) (O.shown outside.new) self.new work basis) }
        ensures any_moment { (work : Work) (basis : Ground)
            → IsAmid (O.may_leave outside.old) (O.shown outside.old) self.old work basis
            → LeavesOnly O.moment O.left_since outside.old outside.new (FlushLeaves work basis) }
        ensures rest { HasSameRest self.old self.new }
        ensures left { (O.shown outside.new).left ≡ (O.shown outside.old).left }
        ensures tells { (O.shown outside.new).tells ≡ (O.shown outside.old).tells }
        ensures counts { Counts (O.faults outside.old) (O.faults outside.new) result }
    {
        match reader.next_item(alloc) {
            Ok(item) => Ok(item),
            Err(OutOfMemory) => Err(self.end_for_memory(outside)),
        }
    }

    /// Works all whole items that the reader holds. What is pending and held is flushed as often as it fills a group.
    fn work_items<O: Outside>(
        &mut self,
        alloc: Global,
        reader: &mut ChunkReader,
        outside: &mut O,
    ) -> Result<(), SessionEnd>
        requires faultless { IsFaultless self.old }
        requires little { HasLittle self.old }
        requires reading { HasReadSome reader.old }
        ensures worked { (was : Was) (work : Work) (before bytes : List ℕ) (given : List Item)
            → IsWorking (O.may_leave outside.old) (O.shown outside.old) self.old reader.old was work before bytes given
            → WorksAll result (O.may_leave outside.new) (O.shown outside.new) self.new reader.new was work before bytes }
        ensures any_moment { (was : Was) (work : Work) (before bytes : List ℕ) (given : List Item)
            → IsWorking (O.may_leave outside.old) (O.shown outside.old) self.old reader.old was work before bytes given
            → LeavesOnly O.moment O.left_since outside.old outside.new (AnswersLeave reader.old.ended work before bytes) }
        ensures left { (O.shown outside.new).left ≡ (O.shown outside.old).left }
        ensures tells { (O.shown outside.new).tells ≡ (O.shown outside.old).tells }
        ensures known { IsKnowing (O.shown outside.old) self.old → StaysKnowing result (O.shown outside.new) self.new }
        ensures counts { SourceCounts (O.faults outside.old) (O.faults outside.new) result }
        ensures last_run { RunSince self.old self.new }
        ensures faultless { OnOk result (IsFaultless self.new) }
        ensures little { OnOk result (HasLittle self.new) }
        ensures reading { OnOk result (HasReadSome reader.new) }
        ensures spent { OnOk result (IsSpent reader.new × (reader.new.room ≡ 4096)) }
        ensures fed { fed reader.new ≡ fed reader.old }
        ensures ended { reader.new.ended ≡ reader.old.ended }
    {
        while let Some(item) = self.next_item(alloc, reader, outside)? {
            self.work(alloc, SessionItem::Chunk(item), outside)?;
            if self.is_full() {
                self.flush(outside)?;
            }
        }
        Ok(())
    }

    /// Feeds a piece of the input, part by part, and works what is whole of it.
    fn work_piece<O: Outside>(
        &mut self,
        alloc: Global,
        reader: &mut ChunkReader,
        piece: &[u8],
        outside: &mut O,
    ) -> Result<(), SessionEnd>
        requires faultless { IsFaultless self.old }
        requires little { HasLittle self.old }
        requires reading { HasReadSome reader.old }
        requires open { reader.old.ended ≡ false }
        requires room { reader.old.room ≡ 4096 }
        requires bounded { fed reader.old + length piece.now < 2 ^ 64 }
        ensures worked { (was : Was) (work : Work) (before bytes : List ℕ) (given : List Item)
            → IsWorking (O.may_leave outside.old) (O.shown outside.old) self.old reader.old was work before bytes given
            → HoldsNoMore false bytes given → (input left : List ℕ) → input ≡ (bytes ++ piece.now) ++ left
            → PieceWorked result (O.may_leave outside.new) (O.shown outside.new) self.new reader.new was work input before (bytes ++ piece.now) }
        ensures any_moment { (was : Was) (work : Work) (before bytes : List ℕ) (given : List Item)
            → IsWorking (O.may_leave outside.old) (O.shown outside.old) self.old reader.old was work before bytes given
            → (input left : List ℕ) → input ≡ (bytes ++ piece.now) ++ left
            → LeavesOnly O.moment O.left_since outside.old outside.new (Keeps work input before) }
        ensures left { (O.shown outside.new).left ≡ (O.shown outside.old).left }
        ensures tells { (O.shown outside.new).tells ≡ (O.shown outside.old).tells }
        ensures known { IsKnowing (O.shown outside.old) self.old → StaysKnowing result (O.shown outside.new) self.new }
        ensures counts { SourceCounts (O.faults outside.old) (O.faults outside.new) result }
        ensures last_run { RunSince self.old self.new }
        ensures faultless { OnOk result (IsFaultless self.new) }
        ensures little { OnOk result (HasLittle self.new) }
        ensures reading { OnOk result (HasReadSome reader.new) }
        ensures room { OnOk result (reader.new.room ≡ 4096) }
        ensures fed { OnOk result (fed reader.new ≡ fed reader.old + length piece.now) }
        ensures open { reader.new.ended ≡ false }
    {
        let mut done = 0;
        while done < piece.len() {
            let count = reader.feed(&piece[done..]);
            self.work_items(alloc, reader, outside)?;
            done += count;
        }
        Ok(())
    }

    /// Takes and feeds the whole input, and answers what is whole of it before more is taken.
    fn take_all<O: Outside>(
        &mut self,
        alloc: Global,
        reader: &mut ChunkReader,
        buf: &mut [u8],
        outside: &mut O,
    ) -> Result<(), SessionEnd>
        requires resting { IsResting self.old }
        requires reading { HasReadSome reader.old }
        requires open { reader.old.ended ≡ false }
        requires room { reader.old.room ≡ 4096 }
        requires counted { fed reader.old ≡ 0 }
        requires buffer { length buf.old ≡ 65536 }
        ensures took { (was : Was) (work : Work) (input before : List ℕ) → (O.shown outside.old).left ≡ Some input
            → IsDone (O.may_leave outside.old) (O.shown outside.old) self.old reader.old was work before [] []
            → TakesAll result (O.may_leave outside.new) (O.shown outside.new) self.new reader.new was work input before }
        ensures any_moment { (was : Was) (work : Work) (input before : List ℕ) → (O.shown outside.old).left ≡ Some input
            → IsDone (O.may_leave outside.old) (O.shown outside.old) self.old reader.old was work before [] []
            → LeavesOnly O.moment O.left_since outside.old outside.new (Keeps work input before) }
        ensures tells { (O.shown outside.new).tells ≡ (O.shown outside.old).tells }
        ensures known { IsKnowing (O.shown outside.old) self.old → StaysKnowing result (O.shown outside.new) self.new }
        ensures counts { SourceCounts (O.faults outside.old) (O.faults outside.new) result }
        ensures last_run { RunSince self.old self.new }
        ensures resting { OnOk result (IsResting self.new) }
        ensures reading { OnOk result (HasReadSome reader.new) }
        ensures ended { OnOk result (reader.new.ended ≡ true) }
    {
        let mut taken = 0;
        'pieces: loop {
            let count = take_piece(buf, taken, outside)?;
            if count == 0 {
                break;
            }
            taken += count as u64;
            self.work_piece(alloc, reader, &buf[..count], outside)?;
            self.flush(outside)?;
        }
        reader.end_input();
        Ok(())
    }

    /// Works the items of the input to its end, and answers each before more of the input is taken than holds it.
    pub fn run_items<O: Outside>(
        &mut self,
        alloc: Global,
        outside: &mut O,
    ) -> Result<(), SessionEnd>
        requires resting { IsResting self.old }
        ensures ran { (work : Work) (input before : List ℕ) → (O.shown outside.old).left ≡ Some input
            → IsAt (O.may_leave outside.old) (O.shown outside.old) self.old work before
            → Ends result (O.may_leave outside.new) (O.shown outside.new) (was_of self.old) (was_of self.new) work input before }
        ensures any_moment { (work : Work) (input before : List ℕ) → (O.shown outside.old).left ≡ Some input
            → IsAt (O.may_leave outside.old) (O.shown outside.old) self.old work before
            → LeavesOnly O.moment O.left_since outside.old outside.new (Keeps work input before) }
        // The last run is the one before, or that of a doIt, whatever the outside tells.
        ensures last_run { RunSince self.old self.new }
        // Where the disk reads as the session knows no damage is met, whatever a crash may leave.
        ensures tells { (O.shown outside.new).tells ≡ (O.shown outside.old).tells }
        ensures known { IsKnowing (O.shown outside.old) self.old → StaysKnowing result (O.shown outside.new) self.new }
        ensures counts { SourceCounts (O.faults outside.old) (O.faults outside.new) result }
        ensures resting { OnOk result (IsResting self.new) }
    {
        let mut buf = zeros(alloc, GROUP)?;
        let mut reader = ChunkReader::make(alloc)?;
        self.take_all(alloc, &mut reader, &mut buf, outside)?;
        self.finish(alloc, &mut reader, outside)?;
        self.flush(outside)
    }

    /// Works what is left at the end of the input.
    fn finish<O: Outside>(
        &mut self,
        alloc: Global,
        reader: &mut ChunkReader,
        outside: &mut O,
    ) -> Result<(), SessionEnd>
        requires faultless { IsFaultless self.old }
        requires little { HasLittle self.old }
        requires reading { HasReadSome reader.old }
        requires ended { reader.old.ended ≡ true }
        ensures finished { (was : Was) (work : Work) (input before : List ℕ)
            → AtEnd (O.may_leave outside.old) (O.shown outside.old) self.old reader.old was work input before
            → Finishes result (O.may_leave outside.new) (O.shown outside.new) self.new was work input before }
        ensures any_moment { (was : Was) (work : Work) (input before : List ℕ)
            → AtEnd (O.may_leave outside.old) (O.shown outside.old) self.old reader.old was work input before
            → LeavesOnly O.moment O.left_since outside.old outside.new (Keeps work input before) }
        ensures left { (O.shown outside.new).left ≡ (O.shown outside.old).left }
        ensures tells { (O.shown outside.new).tells ≡ (O.shown outside.old).tells }
        ensures known { IsKnowing (O.shown outside.old) self.old → StaysKnowing result (O.shown outside.new) self.new }
        ensures counts { SourceCounts (O.faults outside.old) (O.faults outside.new) result }
        ensures last_run { RunSince self.old self.new }
        ensures faultless { OnOk result (IsFaultless self.new) }
    {
        self.work_items(alloc, reader, outside)?;
        match reader.rest() {
            Rest::Clean => Ok(()),
            Rest::Unended(_) => self.work(alloc, SessionItem::Unended, outside),
        }
    }
}
