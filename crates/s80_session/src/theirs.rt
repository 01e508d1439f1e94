// The input of a merge, taken in pieces: its items are those of a second change set.
ghost use Rattle.std.specs.Prelude.{◌≡◌, ◌+◌, ◌^◌, ◌<◌, ◌++◌, ℕ, List, [], false, true, length, Some, OnOk};
ghost use Rattle.s80_apply.specs.State.{State};
ghost use Rattle.s80_chunk.specs.declared.item.Item.{Item};
ghost use Rattle.s80_chunk.specs.Held.{HoldsNoMore, IsSpent, fed};
ghost use Rattle.s80_disk.specs.declared.disk.FileId.{FileId};
ghost use Rattle.s80_disk.specs.Moments.{LeavesOnly};
ghost use Rattle.s80_joining.specs.Given.{HasCome};
ghost use Rattle.s80_session.specs.Ending.{Counts};
ghost use Rattle.s80_session.specs.Merging.{Feeds, HasSome, HasTakenIn, IsTaking, TakesIn};
ghost use Rattle.s80_session.specs.Putting.{IsAsBefore};
ghost use Rattle.s80_session.specs.Working.{HasReadSome};

use crate::end::SessionEnd;
use crate::input::{GROUP, take_piece, zeros};
use s80_base::OutOfMemory;
use s80_chunk::{ChunkReader, Rest};
use s80_disk::Outside;
use s80_joining::Given;
use s80_model::SessionItem;
use std::alloc::Global;

/// Takes the whole input, and its items into a second change set.
pub(crate) fn take_theirs<O: Outside>(
    alloc: Global,
    given: &mut Given,
    outside: &mut O,
) -> Result<(), SessionEnd>
    ensures taken { (state : State) (input : List ℕ) → (O.shown outside.old).left ≡ Some input → HasCome given.old state []
        → TakesIn result given.new (O.shown outside.new) state input }
    ensures some { HasSome given.old → OnOk result (HasSome given.new) }
    ensures shown { O.shown outside.new ≡ record (O.shown outside.old) { left = (O.shown outside.new).left } }
    ensures images { (c : FileId → List ℕ) → O.may_leave outside.new c → O.may_leave outside.old c }
    ensures any_moment { LeavesOnly O.moment O.left_since outside.old outside.new
        (IsAsBefore (O.may_leave outside.old) (O.shown outside.old).told 0) }
    ensures counts { Counts (O.faults outside.old) (O.faults outside.new) result }
{
    let mut buf = zeros(alloc, GROUP)?;
    let mut reader = ChunkReader::make(alloc)?;
    take_pieces(alloc, given, &mut reader, &mut buf, outside)?;
    take_items(alloc, given, &mut reader)?;
    match reader.rest() {
        Rest::Clean => Ok(()),
        Rest::Unended(_) => Ok(given.take(alloc, SessionItem::Unended)?),
    }
}

/// Takes and feeds the whole input, and takes in what is whole of it.
fn take_pieces<O: Outside>(
    alloc: Global,
    given: &mut Given,
    reader: &mut ChunkReader,
    buf: &mut [u8],
    outside: &mut O,
) -> Result<(), SessionEnd>
    requires reading { HasReadSome reader.old }
    requires open { reader.old.ended ≡ false }
    requires room { reader.old.room ≡ 4096 }
    requires counted { fed reader.old ≡ 0 }
    requires buffer { length buf.old ≡ 65536 }
    ensures fed { (state : State) (input : List ℕ) → (O.shown outside.old).left ≡ Some input → IsTaking given.old reader.old state [] []
        → Feeds result given.new reader.new (O.shown outside.new) state input }
    ensures some { HasSome given.old → OnOk result (HasSome given.new) }
    ensures shown { O.shown outside.new ≡ record (O.shown outside.old) { left = (O.shown outside.new).left } }
    ensures images { (c : FileId → List ℕ) → O.may_leave outside.new c → O.may_leave outside.old c }
    ensures any_moment { LeavesOnly O.moment O.left_since outside.old outside.new
        (IsAsBefore (O.may_leave outside.old) (O.shown outside.old).told 0) }
    ensures counts { Counts (O.faults outside.old) (O.faults outside.new) result }
    ensures reading { OnOk result (HasReadSome reader.new) }
    ensures ended { OnOk result (reader.new.ended ≡ true) }
{
    let mut taken = 0;
    'pieces: loop {
        let count = take_piece(buf, taken, outside)?;
        if count == 0 {
            break;
        }
        taken += count as u64;
        take_in_piece(alloc, given, reader, &buf[..count])?;
    }
    reader.end_input();
    Ok(())
}

/// Feeds a piece of the input, part by part, and takes in what is whole of it.
fn take_in_piece(
    alloc: Global,
    given: &mut Given,
    reader: &mut ChunkReader,
    piece: &[u8],
) -> Result<(), OutOfMemory>
    requires reading { HasReadSome reader.old }
    requires open { reader.old.ended ≡ false }
    requires room { reader.old.room ≡ 4096 }
    requires bounded { fed reader.old + length piece.now < 2 ^ 64 }
    ensures taken { (state : State) (bytes : List ℕ) (items : List Item) → IsTaking given.old reader.old state bytes items → HoldsNoMore false bytes items
        → OnOk result (HasTakenIn given.new reader.new state (bytes ++ piece.now)) }
    ensures some { HasSome given.old → OnOk result (HasSome given.new) }
    ensures reading { OnOk result (HasReadSome reader.new) }
    ensures room { OnOk result (reader.new.room ≡ 4096) }
    ensures fed { OnOk result (fed reader.new ≡ fed reader.old + length piece.now) }
    ensures open { reader.new.ended ≡ false }
{
    let mut done = 0;
    while done < piece.len() {
        let count = reader.feed(&piece[done..]);
        take_items(alloc, given, reader)?;
        done += count;
    }
    Ok(())
}

/// Takes in all whole items that the reader holds.
fn take_items(alloc: Global, given: &mut Given, reader: &mut ChunkReader) -> Result<(), OutOfMemory>
    requires reading { HasReadSome reader.old }
    ensures taken { (state : State) (bytes : List ℕ) (items : List Item) → IsTaking given.old reader.old state bytes items
        → OnOk result (HasTakenIn given.new reader.new state bytes) }
    ensures some { HasSome given.old → OnOk result (HasSome given.new) }
    ensures reading { OnOk result (HasReadSome reader.new) }
    ensures spent { OnOk result (IsSpent reader.new × (reader.new.room ≡ 4096)) }
    ensures fed { fed reader.new ≡ fed reader.old }
    ensures ended { reader.new.ended ≡ reader.old.ended }
{
    while let Some(item) = reader.next_item(alloc)? {
        given.take(alloc, SessionItem::Chunk(item))?;
    }
    Ok(())
}
