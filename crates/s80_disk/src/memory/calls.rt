// The calls of a disk in memory.
ghost use Rattle.std.specs.Prelude.{◌≡◌, ◌≢◌, ◌⊎◌, ◌↔◌, ◌+◌, ◌-◌, ◌≤◌, ◌<◌, ◌++◌, ◌∷◌, ℕ, IsTrue, IsErr, IfOk, OnOk, MatchResult, true, List, length, min, take, drop, vec_capacity};
ghost use Rattle.s80_base.specs.Causes.{HasCause, Names};
ghost use Rattle.s80_base.specs.Memory.{next_call};
ghost use Rattle.s80_base.specs.declared.outside.Call.TheVariants.{Attach, Length, Read, Write, Cut, Sync};
ghost use Rattle.s80_disk.specs.declared.disk.FileId.{FileId};
ghost use Rattle.s80_disk.specs.Image.{Image, Wrote, Torn, CutShort, Follows, Only};
ghost use Rattle.s80_disk.specs.Moments.{Elapses};
ghost use Rattle.s80_disk.specs.Plan.{Plans};
ghost use Rattle.std.specs.List.{list_all};
ghost use Rattle.s80_disk.specs.History.{history, is_within};
ghost use Rattle.s80_disk.specs.History.Event.{PieceAt, CutTo, Synced};
ghost use Rattle.s80_disk.specs.Memory.{events_of, first_files, files_of, images_of, images_since, moment_of, beside_of, calls_failed, CountsCall, FailsNext, IsRecordFull, PassesRoom};
ghost use Rattle.s80_disk.specs.Laws.{counts, only, reads_left};

use super::note;
use crate::bytes::append;
use crate::recorded::Recorded;
use crate::{Disk, FaultPlan, FileId, MemDisk};
use s80_base::{Call, Failed, Text, copy_from, fault};

/// Counts a call, and says whether it fails by the plan.
fn fails(made: &mut u64, plan: FaultPlan) -> bool
    ensures counted { made.new ≡ next_call made.old }
    ensures planned { IsTrue result ↔ Plans plan made.new }
{
    *made = made.saturating_add(1);
    plan.has(*made)
}

/// Whether a write is within the room of its file and of all writes together.
fn fits(room: usize, used: usize, at: u64, size: usize) -> bool
    requires { used ≤ room }
    ensures { IsTrue result ↔ ((at + size ≤ room) × (used + size ≤ room)) }
{
    size <= room - used && at <= (room - size) as u64
}

/// Records a write, in the room that is there.
fn note_write(
    pieces: &mut Vec<u8>,
    calls: &mut Vec<Recorded>,
    room: usize,
    file: FileId,
    at: usize,
    piece: &[u8],
)
    requires within { IsTrue (list_all (is_within (length pieces.old.items) room) calls.old.items) }
    requires fits { at + length piece.now ≤ room }
    requires has_place { length calls.old.items < vec_capacity calls.old }
    requires has_room { length pieces.old.items + length piece.now ≤ vec_capacity pieces.old }
    ensures newest { history pieces.new.items calls.new.items ≡ PieceAt file at piece.now ∷ history pieces.old.items calls.old.items }
    ensures within { IsTrue (list_all (is_within (length pieces.new.items) room) calls.new.items) }
    ensures one_more { length calls.new.items ≡ length calls.old.items + 1 }
    ensures longer { length pieces.new.items ≡ length pieces.old.items + length piece.now }
    ensures places { vec_capacity calls.old ≤ vec_capacity calls.new }
    ensures room { vec_capacity pieces.old ≤ vec_capacity pieces.new }
{
    let from = pieces.len();
    let size = piece.len();
    append(pieces, piece);
    note(
        calls,
        Recorded::Write {
            file,
            at,
            from,
            size,
        },
    );
}

impl Disk for MemDisk {
    ghost tells = { λ _. true };

    ghost reads = { files_of };

    ghost may_leave = { images_of };

    ghost moment = { moment_of };

    ghost left_since = { images_since };

    ghost disk_faults = { calls_failed };

    ghost beside = { beside_of };

    ghost reads_is_left = { λ d _. reads_left (first_files d) (files_of d) (events_of d) d.holds };

    ghost counts_now = { λ d t c le left. counts (first_files d) (events_of d) t c le left };

    ghost only_now = { λ d told c left. only (first_files d) (events_of d) told c left };

    fn attach(&mut self, _folder: &Text) -> Result<(), Failed>
        ensures same { (file : FileId) → files_of self.new file ≡ files_of self.old file }
        ensures crash { (c : FileId → List ℕ) → images_of self.new c → images_of self.old c }
        ensures time { Elapses moment_of images_since images_of beside_of self.old self.new }
        ensures beside { beside_of self.new ≡ beside_of self.old }
        ensures cause { HasCause (calls_failed self.old) (calls_failed self.new) result }
        ensures named { Names Attach result }
        ensures counted { CountsCall self.old self.new }
        ensures planned { IsErr result ↔ FailsNext self.old }
        ensures recorded { events_of self.new ≡ events_of self.old }
    {
        if fails(&mut self.made, self.plan) {
            return Err(fault(&mut self.faults, Call::Attach));
        }
        Ok(())
    }

    fn length(&mut self, file: FileId) -> Result<u64, Failed>
        ensures value { IfOk result (λ count. count ≡ length (files_of self.old file)) }
        ensures same { (other : FileId) → files_of self.new other ≡ files_of self.old other }
        ensures crash { (c : FileId → List ℕ) → images_of self.new c → images_of self.old c }
        ensures time { Elapses moment_of images_since images_of beside_of self.old self.new }
        ensures beside { beside_of self.new ≡ beside_of self.old }
        ensures cause { HasCause (calls_failed self.old) (calls_failed self.new) result }
        ensures named { Names Length result }
        ensures counted { CountsCall self.old self.new }
        ensures planned { IsErr result ↔ FailsNext self.old }
        ensures recorded { events_of self.new ≡ events_of self.old }
    {
        if fails(&mut self.made, self.plan) {
            return Err(fault(&mut self.faults, Call::Length));
        }
        Ok(self.current.bytes(file).len() as u64)
    }

    fn read_at(&mut self, file: FileId, at: u64, buf: &mut [u8]) -> Result<usize, Failed>
        ensures bound { IfOk result (λ count. count ≤ length buf.new) }
        ensures count { IfOk result (λ count. count ≡ min (length buf.new) (length (files_of self.old file) - at)) }
        ensures bytes { IfOk result (λ count. take count buf.new ≡ take count (drop at (files_of self.old file))) }
        ensures same { (other : FileId) → files_of self.new other ≡ files_of self.old other }
        ensures crash { (c : FileId → List ℕ) → images_of self.new c → images_of self.old c }
        ensures time { Elapses moment_of images_since images_of beside_of self.old self.new }
        ensures beside { beside_of self.new ≡ beside_of self.old }
        ensures cause { HasCause (calls_failed self.old) (calls_failed self.new) result }
        ensures named { Names Read result }
        ensures counted { CountsCall self.old self.new }
        ensures planned { IsErr result ↔ FailsNext self.old }
        ensures recorded { events_of self.new ≡ events_of self.old }
    {
        if fails(&mut self.made, self.plan) {
            return Err(fault(&mut self.faults, Call::Read));
        }
        let bytes = self.current.bytes(file);
        let place = at.min(bytes.len() as u64) as usize;
        Ok(copy_from(bytes, place, buf.len(), buf))
    }

    fn write_at(&mut self, file: FileId, at: u64, piece: &[u8]) -> Result<(), Failed>
        ensures written { OnOk result (Wrote at piece.now (files_of self.old file) (files_of self.new file)) }
        ensures torn { Torn at (length piece.now) (files_of self.old file) (files_of self.new file) }
        ensures others { (other : FileId) → other ≢ file → files_of self.new other ≡ files_of self.old other }
        ensures crash { Follows file (Torn at (length piece.now)) (images_of self.old) (images_of self.new) }
        ensures time { Elapses moment_of images_since images_of beside_of self.old self.new }
        ensures beside { beside_of self.new ≡ beside_of self.old }
        ensures cause { HasCause (calls_failed self.old) (calls_failed self.new) result }
        ensures named { Names Write result }
        ensures counted { CountsCall self.old self.new }
        ensures planned { IsErr result ↔ (FailsNext self.old ⊎ IsRecordFull self.old ⊎ PassesRoom self.old at (length piece.now)) }
        ensures recorded { MatchResult result (λ _. events_of self.new ≡ PieceAt file at piece.now ∷ events_of self.old) (λ _. events_of self.new ≡ events_of self.old) }
    {
        if fails(&mut self.made, self.plan)
            || self.calls.len() == self.most_calls
            || !fits(self.room, self.pieces.len(), at, piece.len())
        {
            return Err(fault(&mut self.faults, Call::Write));
        }
        let at = at as usize;
        note_write(
            &mut self.pieces,
            &mut self.calls,
            self.room,
            file,
            at,
            piece,
        );
        self.current.write(self.room, file, at, piece);
        Ok(())
    }

    fn cut(&mut self, file: FileId, to: u64) -> Result<(), Failed>
        ensures cut { OnOk result (files_of self.new file ≡ take to (files_of self.old file)) }
        ensures torn { CutShort to (files_of self.old file) (files_of self.new file) }
        ensures others { (other : FileId) → other ≢ file → files_of self.new other ≡ files_of self.old other }
        ensures crash { Follows file (CutShort to) (images_of self.old) (images_of self.new) }
        ensures time { Elapses moment_of images_since images_of beside_of self.old self.new }
        ensures beside { beside_of self.new ≡ beside_of self.old }
        ensures cause { HasCause (calls_failed self.old) (calls_failed self.new) result }
        ensures named { Names Cut result }
        ensures counted { CountsCall self.old self.new }
        ensures planned { IsErr result ↔ (FailsNext self.old ⊎ IsRecordFull self.old) }
        ensures recorded { MatchResult result (λ _. events_of self.new ≡ CutTo file to ∷ events_of self.old) (λ _. events_of self.new ≡ events_of self.old) }
    {
        if fails(&mut self.made, self.plan) || self.calls.len() == self.most_calls {
            return Err(fault(&mut self.faults, Call::Cut));
        }
        note(&mut self.calls, Recorded::Cut { file, to });
        self.current.cut(self.room, file, to as usize);
        Ok(())
    }

    fn sync(&mut self, file: FileId) -> Result<(), Failed>
        ensures durable { OnOk result (Only file (files_of self.old file) (images_of self.new)) }
        ensures same { (other : FileId) → files_of self.new other ≡ files_of self.old other }
        ensures crash { (c : FileId → List ℕ) → images_of self.new c → images_of self.old c }
        ensures time { Elapses moment_of images_since images_of beside_of self.old self.new }
        ensures beside { beside_of self.new ≡ beside_of self.old }
        ensures cause { HasCause (calls_failed self.old) (calls_failed self.new) result }
        ensures named { Names Sync result }
        ensures counted { CountsCall self.old self.new }
        ensures planned { IsErr result ↔ (FailsNext self.old ⊎ IsRecordFull self.old) }
        ensures recorded { MatchResult result (λ _. events_of self.new ≡ Synced file ∷ events_of self.old) (λ _. events_of self.new ≡ events_of self.old) }
    {
        if fails(&mut self.made, self.plan) || self.calls.len() == self.most_calls {
            return Err(fault(&mut self.faults, Call::Sync));
        }
        note(&mut self.calls, Recorded::Sync { file });
        Ok(())
    }
}
