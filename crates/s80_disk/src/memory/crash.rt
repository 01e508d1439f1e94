// What a crash leaves of a disk in memory, as a disk of its own.
ghost use Rattle.std.specs.Prelude.{◌≡◌, ◌≢◌, ◌+◌, ◌<◌, ◌≤◌, ℕ, [], take, IsTrue, IfOk, length, vec_capacity};
ghost use Rattle.std.specs.List.{IsAfterLastMatch};
ghost use Rattle.s80_disk.specs.declared.disk.FileId.{FileId};
ghost use Rattle.s80_disk.specs.declared.plan.FaultPlan.TheVariants.{Never};
ghost use Rattle.s80_disk.specs.Image.{Image};
ghost use Rattle.s80_disk.specs.Five.{image_of, HasRoom};
ghost use Rattle.s80_disk.specs.History.{event_of, history, is_within, contents, synced};
ghost use Rattle.s80_disk.specs.Crash.{done, MayHold, Spreads, Tears, syncs};
ghost use Rattle.s80_disk.specs.Memory.{events_of, events_until, first_files, files_of, synced_files, images_of, file_room, call_room, IsNew};

use crate::bytes::{overwrite, roomy_copy, scatter};
use crate::five::Five;
use crate::recorded::Recorded;
use crate::{FaultPlan, FileId, MemDisk};
use s80_base::OutOfMemory;
use std::alloc::{AllocError, Global};

/// Does with a file what a recorded call did.
fn redo(bytes: &mut Vec<u8>, room: usize, file: FileId, pieces: &[u8], call: Recorded)
    requires within { IsTrue (is_within (length pieces.now) room call) }
    requires fits { length bytes.old.items ≤ room }
    requires room { room ≤ vec_capacity bytes.old }
    ensures done { bytes.new.items ≡ done file (event_of pieces.now call) bytes.old.items }
    ensures fits { length bytes.new.items ≤ room }
    ensures room { room ≤ vec_capacity bytes.new }
{
    match call {
        Recorded::Write {
            file: written,
            at,
            from,
            size,
        } if written == file => overwrite(bytes, at, &pieces[from..from + size]),
        Recorded::Cut { file: cut, to } if cut == file => bytes.truncate(to as usize),
        _ => {}
    }
}

/// Does with a file what a crash by the choice makes of a recorded call that no sync followed.
fn tear(bytes: &mut Vec<u8>, room: usize, file: FileId, call: Recorded, choice: u64)
    requires within { (used : ℕ) × IsTrue (is_within used room call) }
    requires fits { length bytes.old.items ≤ room }
    requires room { room ≤ vec_capacity bytes.old }
    ensures torn { Tears choice file call bytes.old.items bytes.new.items }
    ensures fits { length bytes.new.items ≤ room }
    ensures room { room ≤ vec_capacity bytes.new }
{
    match call {
        Recorded::Write {
            file: written,
            at,
            from: _,
            size,
        } if written == file => scatter(bytes, at, at + size, choice),
        Recorded::Cut { file: cut, to } if cut == file => {
            let end = bytes.len();
            scatter(bytes, to as usize, end, choice);
        }
        _ => {}
    }
}

impl MemDisk {
    /// How many of the calls stand up to the last sync of the file, with it.
    fn calls_synced(&self, file: FileId) -> usize
        ensures within { result ≤ length self.now.calls.items }
        ensures last { IsAfterLastMatch (syncs file) self.now.calls.items result }
    {
        let mut synced = 0;
        for (i, call) in self.calls.iter().enumerate() {
            if call.syncs(file) {
                synced = i + 1;
            }
        }
        synced
    }

    /// A file as it stood after so many of the calls.
    fn file_after(&self, alloc: Global, file: FileId, count: usize) -> Result<Vec<u8>, AllocError>
        requires { count ≤ length self.now.calls.items }
        ensures bytes { IfOk result (λ bytes. bytes.items ≡ contents (first_files self.now) (events_until self.now count) file) }
        ensures fits { IfOk result (λ bytes. length bytes.items ≤ file_room self.now) }
        ensures room { IfOk result (λ bytes. file_room self.now ≤ vec_capacity bytes) }
    {
        let mut bytes = roomy_copy(alloc, self.first.bytes(file), self.room)?;
        for call in &self.calls[..count] {
            redo(&mut bytes, self.room, file, &self.pieces, *call);
        }
        Ok(bytes)
    }

    /// A file with the choice's bytes in each range that may hold any, at its greatest length.
    fn file_torn(&self, alloc: Global, file: FileId, choice: u64) -> Result<Vec<u8>, AllocError>
        ensures held { IfOk result (λ bytes. MayHold (first_files self.now) (events_of self.now) file bytes.items) }
        ensures spread { IfOk result (λ bytes. Spreads choice (images_of self.now) file bytes.items) }
        ensures fits { IfOk result (λ bytes. length bytes.items ≤ file_room self.now) }
        ensures room { IfOk result (λ bytes. file_room self.now ≤ vec_capacity bytes) }
    {
        let synced = self.calls_synced(file);
        let mut bytes = self.file_after(alloc, file, synced)?;
        for call in &self.calls[synced..] {
            tear(&mut bytes, self.room, file, *call, choice);
        }
        Ok(bytes)
    }

    /// A file as the crash leaves it.
    fn file_left(&self, alloc: Global, file: FileId, choice: u64) -> Result<Vec<u8>, AllocError>
        ensures held { IfOk result (λ bytes. MayHold (first_files self.now) (events_of self.now) file bytes.items) }
        ensures lost { choice ≡ 0 → IfOk result (λ bytes. bytes.items ≡ synced (first_files self.now) (events_of self.now) file) }
        ensures kept { choice ≡ 1 → IfOk result (λ bytes. bytes.items ≡ files_of self.now file) }
        ensures torn { 1 < choice → IfOk result (λ bytes. Spreads choice (images_of self.now) file bytes.items) }
        ensures fits { IfOk result (λ bytes. length bytes.items ≤ file_room self.now) }
        ensures room { IfOk result (λ bytes. file_room self.now ≤ vec_capacity bytes) }
    {
        match choice {
            0 => self.file_after(alloc, file, self.calls_synced(file)),
            1 => self.file_after(alloc, file, self.calls.len()),
            _ => self.file_torn(alloc, file, choice),
        }
    }

    /// The files as the crash leaves them.
    fn files_left(&self, alloc: Global, choice: u64) -> Result<Five, AllocError>
        ensures left { IfOk result (λ five. images_of self.now (image_of five)) }
        ensures lost { choice ≡ 0 → IfOk result (λ five. (file : FileId) → image_of five file ≡ synced_files self.now file) }
        ensures kept { choice ≡ 1 → IfOk result (λ five. (file : FileId) → image_of five file ≡ files_of self.now file) }
        ensures torn { 1 < choice → IfOk result (λ five. (file : FileId) → Spreads choice (images_of self.now) file (image_of five file)) }
        ensures fits { IfOk result (λ five. (file : FileId) → length (image_of five file) ≤ file_room self.now) }
        ensures room { IfOk result (HasRoom (file_room self.now)) }
    {
        let mark = self.file_left(alloc, FileId::Mark, choice)?;
        let log0 = self.file_left(alloc, FileId::Log0, choice)?;
        let log1 = self.file_left(alloc, FileId::Log1, choice)?;
        let image0 = self.file_left(alloc, FileId::Image0, choice)?;
        let image1 = self.file_left(alloc, FileId::Image1, choice)?;
        Ok(Five {
            mark,
            log0,
            log1,
            image0,
            image1,
        })
    }

    /// A disk that is one image that a crash now may leave. Choice 0 loses what isn't synced, 1 keeps it,
    /// and a greater one puts the byte (choice + place) mod 256 in each range that may hold any bytes, at the
    /// greatest length. On the new disk nothing is pending, and no call fails by a plan.
    pub fn crash(&self, alloc: Global, choice: u64) -> Result<MemDisk, OutOfMemory>
        ensures left { IfOk result (λ disk. images_of self.now (files_of disk)) }
        ensures lost { choice ≡ 0 → IfOk result (λ disk. (file : FileId) → files_of disk file ≡ synced_files self.now file) }
        ensures kept { choice ≡ 1 → IfOk result (λ disk. (file : FileId) → files_of disk file ≡ files_of self.now file) }
        ensures torn { 1 < choice → IfOk result (λ disk. (file : FileId) → Spreads choice (images_of self.now) file (files_of disk file)) }
        ensures fresh { IfOk result (IsNew (file_room self.now) (call_room self.now) Never) }
    {
        let current = self.files_left(alloc, choice)?;
        let first = current.copy(alloc)?;
        MemDisk::of_files(
            alloc,
            first,
            current,
            self.room,
            self.most_calls,
            FaultPlan::Never,
        )
    }
}
