// The calls of an outside in memory.
ghost use Rattle.std.specs.Prelude.{◌≡◌, ◌≢◌, ◌⊎◌, ◌↔◌, ◌+◌, ◌-◌, ◌≤◌, ◌<◌, ◌∷◌, ℕ, IsErr, IfOk, OnOk, MatchResult, List, Some, true, length, min, take, drop};
ghost use Rattle.std.specs.Io.{WritesAtMost};
ghost use Rattle.std.specs.Io.KnownBytes.{WriteAppends};
ghost use Rattle.s80_base.specs.Causes.{HasCause, Names};
ghost use Rattle.s80_base.specs.Memory.{bytes_of, puts_made, puts_failed, next_call, SamePuts, RefusesNext};
ghost use Rattle.s80_base.specs.declared.outside.Call.TheVariants.{Attach, Length, Read, Write, Cut, Sync, Put};
ghost use Rattle.s80_disk.specs.declared.disk.FileId.{FileId};
ghost use Rattle.s80_disk.specs.Image.{Image, Wrote, Torn, CutShort, Follows, Only};
ghost use Rattle.s80_disk.specs.Moments.{Elapses};
ghost use Rattle.s80_disk.specs.History.Event.{PieceAt, CutTo, Synced, Counted};
ghost use Rattle.s80_disk.specs.Memory.{events_of, first_files, files_of, images_of, images_since, moment_of, told_by, calls_failed, CountsCall, SameCounts, FailsNext, IsRecordFull, PassesRoom, Tells};
ghost use Rattle.s80_disk.specs.Outside.{disk_of, source_of, sink_of, clock_of, puts_refused, all_beside, SameRest};
ghost use Rattle.s80_disk.specs.Laws.{reads_left, counts, only};

use crate::{Disk, FileId, MemOutside};
use s80_base::{Call, Clock, Failed, Sink, Source, Text, fault};

impl<S: Source + Drop> Disk for MemOutside<S> {
    ghost tells = { λ _. true };

    ghost reads = { λ o. files_of (disk_of o) };

    ghost may_leave = { λ o. images_of (disk_of o) };

    ghost moment = { λ o. moment_of (disk_of o) };

    ghost left_since = { λ o. images_since (disk_of o) };

    ghost disk_faults = { λ o. calls_failed (disk_of o) };

    ghost beside = { all_beside S.left S.read_faults };

    ghost reads_is_left = { λ o _. reads_left (first_files (disk_of o)) (files_of (disk_of o)) (events_of (disk_of o)) o.disk.holds };

    ghost counts_now = { λ o t c le left. counts (first_files (disk_of o)) (events_of (disk_of o)) t c le left };

    ghost only_now = { λ o told c left. only (first_files (disk_of o)) (events_of (disk_of o)) told c left };

    fn attach(&mut self, folder: &Text) -> Result<(), Failed>
        ensures same { (file : FileId) → files_of (disk_of self.new) file ≡ files_of (disk_of self.old) file }
        ensures crash { (c : FileId → List ℕ) → images_of (disk_of self.new) c → images_of (disk_of self.old) c }
        ensures time { Elapses (λ o. moment_of (disk_of o)) (λ o. images_since (disk_of o)) (λ o. images_of (disk_of o)) (all_beside S.left S.read_faults) self.old self.new }
        ensures beside { all_beside S.left S.read_faults self.new ≡ all_beside S.left S.read_faults self.old }
        ensures cause { HasCause (calls_failed (disk_of self.old)) (calls_failed (disk_of self.new)) result }
        ensures named { Names Attach result }
        ensures counted { CountsCall (disk_of self.old) (disk_of self.new) }
        ensures rest { SameRest self.old self.new }
        ensures planned { IsErr result ↔ FailsNext (disk_of self.old) }
        ensures recorded { events_of (disk_of self.new) ≡ events_of (disk_of self.old) }
    {
        self.disk.attach(folder)
    }

    fn length(&mut self, file: FileId) -> Result<u64, Failed>
        ensures value { IfOk result (λ count. count ≡ length (files_of (disk_of self.old) file)) }
        ensures same { (other : FileId) → files_of (disk_of self.new) other ≡ files_of (disk_of self.old) other }
        ensures crash { (c : FileId → List ℕ) → images_of (disk_of self.new) c → images_of (disk_of self.old) c }
        ensures time { Elapses (λ o. moment_of (disk_of o)) (λ o. images_since (disk_of o)) (λ o. images_of (disk_of o)) (all_beside S.left S.read_faults) self.old self.new }
        ensures beside { all_beside S.left S.read_faults self.new ≡ all_beside S.left S.read_faults self.old }
        ensures cause { HasCause (calls_failed (disk_of self.old)) (calls_failed (disk_of self.new)) result }
        ensures named { Names Length result }
        ensures counted { CountsCall (disk_of self.old) (disk_of self.new) }
        ensures rest { SameRest self.old self.new }
        ensures planned { IsErr result ↔ FailsNext (disk_of self.old) }
        ensures recorded { events_of (disk_of self.new) ≡ events_of (disk_of self.old) }
    {
        self.disk.length(file)
    }

    fn read_at(&mut self, file: FileId, at: u64, buf: &mut [u8]) -> Result<usize, Failed>
        ensures bound { IfOk result (λ count. count ≤ length buf.new) }
        ensures count { IfOk result (λ count. count ≡ min (length buf.new) (length (files_of (disk_of self.old) file) - at)) }
        ensures bytes { IfOk result (λ count. take count buf.new ≡ take count (drop at (files_of (disk_of self.old) file))) }
        ensures same { (other : FileId) → files_of (disk_of self.new) other ≡ files_of (disk_of self.old) other }
        ensures crash { (c : FileId → List ℕ) → images_of (disk_of self.new) c → images_of (disk_of self.old) c }
        ensures time { Elapses (λ o. moment_of (disk_of o)) (λ o. images_since (disk_of o)) (λ o. images_of (disk_of o)) (all_beside S.left S.read_faults) self.old self.new }
        ensures beside { all_beside S.left S.read_faults self.new ≡ all_beside S.left S.read_faults self.old }
        ensures cause { HasCause (calls_failed (disk_of self.old)) (calls_failed (disk_of self.new)) result }
        ensures named { Names Read result }
        ensures counted { CountsCall (disk_of self.old) (disk_of self.new) }
        ensures rest { SameRest self.old self.new }
        ensures planned { IsErr result ↔ FailsNext (disk_of self.old) }
        ensures recorded { events_of (disk_of self.new) ≡ events_of (disk_of self.old) }
    {
        self.disk.read_at(file, at, buf)
    }

    fn write_at(&mut self, file: FileId, at: u64, piece: &[u8]) -> Result<(), Failed>
        ensures written { OnOk result (Wrote at piece.now (files_of (disk_of self.old) file) (files_of (disk_of self.new) file)) }
        ensures torn { Torn at (length piece.now) (files_of (disk_of self.old) file) (files_of (disk_of self.new) file) }
        ensures others { (other : FileId) → other ≢ file → files_of (disk_of self.new) other ≡ files_of (disk_of self.old) other }
        ensures crash { Follows file (Torn at (length piece.now)) (images_of (disk_of self.old)) (images_of (disk_of self.new)) }
        ensures time { Elapses (λ o. moment_of (disk_of o)) (λ o. images_since (disk_of o)) (λ o. images_of (disk_of o)) (all_beside S.left S.read_faults) self.old self.new }
        ensures beside { all_beside S.left S.read_faults self.new ≡ all_beside S.left S.read_faults self.old }
        ensures cause { HasCause (calls_failed (disk_of self.old)) (calls_failed (disk_of self.new)) result }
        ensures named { Names Write result }
        ensures counted { CountsCall (disk_of self.old) (disk_of self.new) }
        ensures rest { SameRest self.old self.new }
        ensures planned { IsErr result ↔ (FailsNext (disk_of self.old) ⊎ IsRecordFull (disk_of self.old) ⊎ PassesRoom (disk_of self.old) at (length piece.now)) }
        ensures recorded { MatchResult result (λ _. events_of (disk_of self.new) ≡ PieceAt file at piece.now ∷ events_of (disk_of self.old)) (λ _. events_of (disk_of self.new) ≡ events_of (disk_of self.old)) }
    {
        self.disk.write_at(file, at, piece)
    }

    fn cut(&mut self, file: FileId, to: u64) -> Result<(), Failed>
        ensures cut { OnOk result (files_of (disk_of self.new) file ≡ take to (files_of (disk_of self.old) file)) }
        ensures torn { CutShort to (files_of (disk_of self.old) file) (files_of (disk_of self.new) file) }
        ensures others { (other : FileId) → other ≢ file → files_of (disk_of self.new) other ≡ files_of (disk_of self.old) other }
        ensures crash { Follows file (CutShort to) (images_of (disk_of self.old)) (images_of (disk_of self.new)) }
        ensures time { Elapses (λ o. moment_of (disk_of o)) (λ o. images_since (disk_of o)) (λ o. images_of (disk_of o)) (all_beside S.left S.read_faults) self.old self.new }
        ensures beside { all_beside S.left S.read_faults self.new ≡ all_beside S.left S.read_faults self.old }
        ensures cause { HasCause (calls_failed (disk_of self.old)) (calls_failed (disk_of self.new)) result }
        ensures named { Names Cut result }
        ensures counted { CountsCall (disk_of self.old) (disk_of self.new) }
        ensures rest { SameRest self.old self.new }
        ensures planned { IsErr result ↔ (FailsNext (disk_of self.old) ⊎ IsRecordFull (disk_of self.old)) }
        ensures recorded { MatchResult result (λ _. events_of (disk_of self.new) ≡ CutTo file to ∷ events_of (disk_of self.old)) (λ _. events_of (disk_of self.new) ≡ events_of (disk_of self.old)) }
    {
        self.disk.cut(file, to)
    }

    fn sync(&mut self, file: FileId) -> Result<(), Failed>
        ensures durable { OnOk result (Only file (files_of (disk_of self.old) file) (images_of (disk_of self.new))) }
        ensures same { (other : FileId) → files_of (disk_of self.new) other ≡ files_of (disk_of self.old) other }
        ensures crash { (c : FileId → List ℕ) → images_of (disk_of self.new) c → images_of (disk_of self.old) c }
        ensures time { Elapses (λ o. moment_of (disk_of o)) (λ o. images_since (disk_of o)) (λ o. images_of (disk_of o)) (all_beside S.left S.read_faults) self.old self.new }
        ensures beside { all_beside S.left S.read_faults self.new ≡ all_beside S.left S.read_faults self.old }
        ensures cause { HasCause (calls_failed (disk_of self.old)) (calls_failed (disk_of self.new)) result }
        ensures named { Names Sync result }
        ensures counted { CountsCall (disk_of self.old) (disk_of self.new) }
        ensures rest { SameRest self.old self.new }
        ensures planned { IsErr result ↔ (FailsNext (disk_of self.old) ⊎ IsRecordFull (disk_of self.old)) }
        ensures recorded { MatchResult result (λ _. events_of (disk_of self.new) ≡ Synced file ∷ events_of (disk_of self.old)) (λ _. events_of (disk_of self.new) ≡ events_of (disk_of self.old)) }
    {
        self.disk.sync(file)
    }
}

impl<S: Source + Drop> Source for MemOutside<S> {
    ghost left = { λ o. S.left (source_of o) };

    ghost read_faults = { λ o. S.read_faults (source_of o) };

    ghost take_keeps = { λ o p. (disk_of p ≡ disk_of o) × (sink_of p ≡ sink_of o) × (clock_of p ≡ clock_of o) × (puts_refused p ≡ puts_refused o) × S.take_keeps (source_of o) (source_of p) };

    fn take(&mut self, buf: &mut [u8]) -> Result<usize, Failed> {
        self.source.take(buf)
    }
}

impl<S: Source + Drop> Sink for MemOutside<S> {
    ghost taken = { λ o. Some (bytes_of (sink_of o)) };

    ghost told = { λ o. told_by (disk_of o) };

    ghost write_faults = { λ o. puts_failed (sink_of o) + puts_refused o };

    ghost put_keeps = { λ o p. Tells (disk_of o) (disk_of p) × (source_of p ≡ source_of o) × (clock_of p ≡ clock_of o) × SamePuts (sink_of o) (sink_of p) };

    fn put(&mut self, piece: &[u8]) -> Result<usize, Failed>
        ensures bound { WritesAtMost result piece.now }
        ensures progress { 0 < length piece.now → IfOk result (λ count. 0 < count) }
        ensures bytes { WriteAppends (Some (bytes_of (sink_of self.old))) (Some (bytes_of (sink_of self.new))) result piece.now }
        ensures told { MatchResult result (λ count. told_by (disk_of self.new) ≡ told_by (disk_of self.old) + count) (λ _. told_by (disk_of self.new) ≡ told_by (disk_of self.old)) }
        ensures longer { MatchResult result (λ count. length (bytes_of (sink_of self.new)) ≡ length (bytes_of (sink_of self.old)) + count) (λ _. length (bytes_of (sink_of self.new)) ≡ length (bytes_of (sink_of self.old))) }
        ensures cause { HasCause (puts_failed (sink_of self.old) + puts_refused self.old) (puts_failed (sink_of self.new) + puts_refused self.new) result }
        ensures named { Names Put result }
        ensures keeps { Tells (disk_of self.old) (disk_of self.new) × (source_of self.new ≡ source_of self.old) × (clock_of self.new ≡ clock_of self.old) × SamePuts (sink_of self.old) (sink_of self.new) }
        ensures whole { IfOk result (λ count. count ≡ length piece.now) }
        ensures unasked { IsRecordFull (disk_of self.old) → sink_of self.new ≡ sink_of self.old }
        ensures asked { ¬ IsRecordFull (disk_of self.old) → puts_made (sink_of self.new) ≡ next_call (puts_made (sink_of self.old)) }
        ensures planned { IsErr result ↔ (IsRecordFull (disk_of self.old) ⊎ RefusesNext (sink_of self.old) piece.now) }
        ensures recorded { MatchResult result
            (λ count. events_of (disk_of self.new) ≡ Counted count ∷ events_of (disk_of self.old))
            (λ _. disk_of self.new ≡ disk_of self.old) }
        ensures uncounted { SameCounts (disk_of self.old) (disk_of self.new) }
    {
        if self.disk.is_full() {
            return Err(fault(&mut self.refused, Call::Put));
        }
        let count = self.sink.put(piece)?;
        self.disk.note_told(count);
        Ok(count)
    }
}

impl<S: Source + Drop> Clock for MemOutside<S> {
    ghost seconds = { λ o. Some (clock_of o).seconds };

    ghost now_keeps = { λ o p. p ≡ o };

    fn now(&mut self) -> u64 {
        self.clock.seconds
    }
}
