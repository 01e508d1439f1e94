// The disk that holds the five files.
ghost use Rattle.std.specs.Prelude.{◌≡◌, ◌≢◌, ℕ, ◌-◌, ◌≤◌, min, Bool, IsTrue, List, length, take, drop, IfOk, OnOk};
ghost use Rattle.s80_base.specs.Causes.{HasCause, Names};
ghost use Rattle.s80_base.specs.declared.outside.Call.TheVariants.{Attach, Length, Read, Write, Cut, Sync};
ghost use Rattle.s80_disk.specs.declared.disk.FileId.{FileId};
ghost use Rattle.s80_disk.specs.Image.{Image, Wrote, Torn, CutShort, Follows, Only};
ghost use Rattle.s80_disk.specs.Moments.{Beside, Elapses};

use s80_base::{Failed, Text};

/// The five files.
#[derive(Clone, Copy, Debug, PartialEq, Eq)]
pub enum FileId {
    Mark,
    Log0,
    Log1,
    Image0,
    Image1,
}

/// A disk that holds the five files, by what a read gives and by what a crash at each moment may leave.
pub trait Disk {
    /// Whether the object tells what its files hold. Where it doesn't, no clause speaks of their contents.
    ghost tells: { Self → Bool };

    /// What a read of each file gives.
    ghost reads: { Self → FileId → List ℕ };

    /// What a crash at this moment may leave.
    ghost may_leave: { Self → (FileId → List ℕ) → Type 0 };

    /// The moment, as a number that never falls.
    ghost moment: { Self → ℕ };

    /// What a crash at some moment from that one on might have left, with the number of bytes told by then.
    ghost left_since: { Self → ℕ → ℕ → (FileId → List ℕ) → Type 0 };

    /// How often a call has failed. It stands still at `u64::MAX`.
    ghost disk_faults: { Self → ℕ };

    /// What the object holds beside its files.
    ghost beside: { Self → Beside };

    /// Chooses the folder, and makes absent files, empty.
    fn attach(&mut self, folder: &Text) -> Result<(), Failed>
        ensures tells { tells self.new ≡ tells self.old }
        ensures same { (file : FileId) → reads self.new file ≡ reads self.old file }
        ensures crash { (c : FileId → List ℕ) → may_leave self.new c → may_leave self.old c }
        ensures time { Elapses moment left_since may_leave beside self.old self.new }
        ensures beside { beside self.new ≡ beside self.old }
        ensures cause { HasCause (disk_faults self.old) (disk_faults self.new) result }
        ensures named { Names Attach result };

    /// How long a file is.
    fn length(&mut self, file: FileId) -> Result<u64, Failed>
        ensures value { IsTrue (tells self.old) → IfOk result (λ count. count ≡ length (reads self.old file)) }
        ensures tells { tells self.new ≡ tells self.old }
        ensures same { (other : FileId) → reads self.new other ≡ reads self.old other }
        ensures crash { (c : FileId → List ℕ) → may_leave self.new c → may_leave self.old c }
        ensures time { Elapses moment left_since may_leave beside self.old self.new }
        ensures beside { beside self.new ≡ beside self.old }
        ensures cause { HasCause (disk_faults self.old) (disk_faults self.new) result }
        ensures named { Names Length result };

    /// Reads all the bytes that are there from a place on, at most as many as the buffer holds.
    fn read_at(&mut self, file: FileId, at: u64, buf: &mut [u8]) -> Result<usize, Failed>
        ensures bound { IfOk result (λ count. count ≤ length buf.new) }
        ensures count { IsTrue (tells self.old) → IfOk result (λ count. count ≡ min (length buf.new) (length (reads self.old file) - at)) }
        ensures bytes { IsTrue (tells self.old) → IfOk result (λ count. take count buf.new ≡ take count (drop at (reads self.old file))) }
        ensures tells { tells self.new ≡ tells self.old }
        ensures same { (other : FileId) → reads self.new other ≡ reads self.old other }
        ensures crash { (c : FileId → List ℕ) → may_leave self.new c → may_leave self.old c }
        ensures time { Elapses moment left_since may_leave beside self.old self.new }
        ensures beside { beside self.new ≡ beside self.old }
        ensures cause { HasCause (disk_faults self.old) (disk_faults self.new) result }
        ensures named { Names Read result };

    /// Writes over what is there, and past the end. Until a sync of the file, a crash may leave any bytes in the range.
    fn write_at(&mut self, file: FileId, at: u64, piece: &[u8]) -> Result<(), Failed>
        ensures written { IsTrue (tells self.old) → OnOk result (Wrote at piece.now (reads self.old file) (reads self.new file)) }
        ensures torn { IsTrue (tells self.old) → Torn at (length piece.now) (reads self.old file) (reads self.new file) }
        ensures others { (other : FileId) → other ≢ file → reads self.new other ≡ reads self.old other }
        ensures tells { tells self.new ≡ tells self.old }
        ensures crash { Follows file (Torn at (length piece.now)) (may_leave self.old) (may_leave self.new) }
        ensures time { Elapses moment left_since may_leave beside self.old self.new }
        ensures beside { beside self.new ≡ beside self.old }
        ensures cause { HasCause (disk_faults self.old) (disk_faults self.new) result }
        ensures named { Names Write result };

    /// Cuts a file that is longer to a length.
    fn cut(&mut self, file: FileId, to: u64) -> Result<(), Failed>
        ensures cut { IsTrue (tells self.old) → OnOk result (reads self.new file ≡ take to (reads self.old file)) }
        ensures torn { IsTrue (tells self.old) → CutShort to (reads self.old file) (reads self.new file) }
        ensures others { (other : FileId) → other ≢ file → reads self.new other ≡ reads self.old other }
        ensures tells { tells self.new ≡ tells self.old }
        ensures crash { Follows file (CutShort to) (may_leave self.old) (may_leave self.new) }
        ensures time { Elapses moment left_since may_leave beside self.old self.new }
        ensures beside { beside self.new ≡ beside self.old }
        ensures cause { HasCause (disk_faults self.old) (disk_faults self.new) result }
        ensures named { Names Cut result };

    /// After it, a crash leaves what a read of this file gives. What it may leave of the others stays.
    fn sync(&mut self, file: FileId) -> Result<(), Failed>
        ensures durable { OnOk result (Only file (reads self.old file) (may_leave self.new)) }
        ensures tells { tells self.new ≡ tells self.old }
        ensures same { (other : FileId) → reads self.new other ≡ reads self.old other }
        ensures crash { (c : FileId → List ℕ) → may_leave self.new c → may_leave self.old c }
        ensures time { Elapses moment left_since may_leave beside self.old self.new }
        ensures beside { beside self.new ≡ beside self.old }
        ensures cause { HasCause (disk_faults self.old) (disk_faults self.new) result }
        ensures named { Names Sync result };

    /// What is read is one of the images that a crash may leave.
    ghost reads_is_left: { (disk : Self) → IsTrue (tells disk) → may_leave disk (reads disk) };

    /// This moment is one of those since an earlier one.
    ghost counts_now: { (disk : Self) (t : ℕ) (c : FileId → List ℕ) → t ≤ moment disk → may_leave disk c → left_since disk t (beside disk).told c };

    /// Since this moment there is no other.
    ghost only_now: { (disk : Self) (told : ℕ) (c : FileId → List ℕ) → left_since disk (moment disk) told c → may_leave disk c × (told ≡ (beside disk).told) };
}
