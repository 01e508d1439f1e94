// A disk in memory that remembers its calls, so that it tells what a crash at each moment may leave.
ghost use Rattle.std.specs.Prelude.{◌≡◌, ◌+◌, ◌≤◌, ◌<◌, ◌++◌, ◌∷◌, [], ℕ, IsTrue, IfOk, length, vec_capacity};
ghost use Rattle.std.specs.List.{list_all};
ghost use Rattle.s80_disk.specs.declared.disk.FileId.{FileId};
ghost use Rattle.s80_disk.specs.Five.{image_of, HasRoom};
ghost use Rattle.s80_disk.specs.History.{history, is_within, contents, written};

mod calls;
mod crash;

use crate::FaultPlan;
use crate::five::Five;
use crate::recorded::Recorded;
use s80_base::OutOfMemory;
use std::alloc::Global;

/// A disk in memory. It records each write, cut and sync that it does, and in a `MemOutside` each put.
/// Its room and its record are taken at once, so no later call allocates: a write past the room fails,
/// and so does a call that the record has no place for.
#[derive(Drop)]
pub struct MemDisk {
    first: Five,
    current: Five,
    calls: Vec<Recorded>,
    pieces: Vec<u8>,
    room: usize,
    most_calls: usize,
    plan: FaultPlan,
    made: u64,
    faults: u64,
    ghost holds: { (file : FileId) → image_of current file ≡ contents (image_of first) (history pieces.items calls.items) file },
    ghost within: { IsTrue (list_all (is_within (length pieces.items) room) calls.items) },
    ghost all_written: { written (history pieces.items calls.items) ≡ length pieces.items },
    ghost first_fits: { (file : FileId) → length (image_of first file) ≤ room },
    ghost roomy: { HasRoom room current },
    ghost enough_pieces: { length pieces.items ≤ room },
    ghost room_of_pieces: { room ≤ vec_capacity pieces },
    ghost enough_calls: { length calls.items ≤ most_calls },
    ghost room_of_calls: { most_calls ≤ vec_capacity calls },
}

impl MemDisk {
    ghost use Rattle.s80_disk.specs.Memory.{files_of, IsNew};

    /// A disk of five empty files, each with this room, and as much for all writes together.
    /// It records this many calls.
    pub fn make(
        alloc: Global,
        room: usize,
        calls: usize,
        plan: FaultPlan,
    ) -> Result<Self, OutOfMemory>
        ensures empty { IfOk result (λ disk. (file : FileId) → files_of disk file ≡ []) }
        ensures fresh { IfOk result (IsNew room calls plan) }
    {
        let first = Five::make(alloc, 0)?;
        let current = Five::make(alloc, room)?;
        MemDisk::of_files(alloc, first, current, room, calls, plan)
    }

    /// A disk that holds these files, with nothing pending.
    fn of_files(
        alloc: Global,
        first: Five,
        current: Five,
        room: usize,
        calls: usize,
        plan: FaultPlan,
    ) -> Result<Self, OutOfMemory>
        requires same { (file : FileId) → image_of current file ≡ image_of first file }
        requires fits { (file : FileId) → length (image_of first file) ≤ room }
        requires room { HasRoom room current }
        ensures files { IfOk result (λ disk. (file : FileId) → files_of disk file ≡ image_of current file) }
        ensures fresh { IfOk result (IsNew room calls plan) }
    {
        let pieces = Vec::with_capacity(alloc, room)?;
        let record_of_calls = Vec::with_capacity(alloc, calls)?;
        Ok(MemDisk {
            first,
            current,
            calls: record_of_calls,
            pieces,
            room,
            most_calls: calls,
            plan,
            made: 0,
            faults: 0,
        })
    }
}

impl MemDisk {
    ghost use Rattle.std.specs.Prelude.{◌↔◌};
    ghost use Rattle.s80_disk.specs.Memory.{events_of, files_of, IsRecordFull, SameCounts};
    ghost use Rattle.s80_disk.specs.History.Event.{Counted};

    /// Whether the record is full.
    pub(crate) fn is_full(&self) -> bool
        ensures { IsTrue result ↔ IsRecordFull self.now }
    {
        self.calls.len() == self.most_calls
    }

    /// Records that so many bytes more are told.
    pub(crate) fn note_told(&mut self, count: usize)
        requires { ¬ IsRecordFull self.old }
        ensures events { events_of self.new ≡ Counted count ∷ events_of self.old }
        ensures current { files_of self.new ≡ files_of self.old }
        ensures uncounted { SameCounts self.old self.new }
    {
        note(&mut self.calls, Recorded::Told { count });
    }
}

/// Adds a call to a record that has room for it.
fn note(calls: &mut Vec<Recorded>, call: Recorded)
    requires { length calls.old.items < vec_capacity calls.old }
    ensures items { calls.new.items ≡ calls.old.items ++ call ∷ [] }
    ensures room { vec_capacity calls.old ≤ vec_capacity calls.new }
{
    match calls.push(call) {
        Ok(()) => {}
        Err(_) => unreachable!(),
    }
}
