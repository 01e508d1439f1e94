// The two slots of a mark file.
ghost use Rattle.std.specs.Prelude.{◌≡◌, ◌≤◌, IsTrue, IfOk, is_some};
ghost use Rattle.s80_base.specs.Causes.{HasCause, Names};
ghost use Rattle.s80_base.specs.declared.outside.Call.TheVariants.{Read};
ghost use Rattle.s80_disk.specs.declared.disk.FileId.TheVariants.{Mark};
ghost use Rattle.s80_disk.specs.Untouched.{IsUntouched};
ghost use Rattle.s80_mark.specs.Mark.{later_open, is_later};
ghost use Rattle.s80_mark.specs.Slots.{place_of, other_of, mark_in, slots_of, mark_at};

use crate::mark::{MARK_SIZE, MarkState};
use s80_base::Failed;
use s80_disk::{Disk, FileId};

/// The byte of an open gate.
pub(crate) const OPEN: u8 = 0x21;

/// How many bytes a mark file has.
pub(crate) const MARK_LENGTH: usize = 128;

/// The two slots.
#[derive(Clone, Copy, Debug, PartialEq, Eq)]
pub(crate) enum Slot {
    First,
    Second,
}

impl Slot {
    /// Where its gate stands. The mark follows.
    pub(crate) fn place(self) -> usize
        ensures place { result ≡ place_of self }
        ensures within { result ≤ 64 }
    {
        match self {
            Slot::First => 0,
            Slot::Second => 64,
        }
    }

    fn other(self) -> Self
        ensures { result ≡ other_of self }
    {
        match self {
            Slot::First => Slot::Second,
            Slot::Second => Slot::First,
        }
    }

    /// The mark behind its gate, where that is open.
    fn open_mark(self, file: &[u8]) -> Option<MarkState>
        ensures { result ≡ mark_in file.now self }
    {
        let place = self.place();
        if file.len() < MARK_LENGTH || file[place] != OPEN {
            return None;
        }
        let behind = place + 1;
        Some(MarkState::from_bytes(&file[behind..behind + MARK_SIZE]))
    }
}

/// The marks of a mark file, where their gates are open.
#[derive(Clone, Copy, Debug, PartialEq, Eq)]
pub(crate) struct Slots {
    first: Option<MarkState>,
    second: Option<MarkState>,
}

impl Slots {
    /// Reads both slots in one call.
    pub(crate) fn read<D: Disk>(disk: &mut D) -> Result<Self, Failed>
        ensures value { IsTrue (D.tells disk.old)
            → IfOk result (λ slots. slots ≡ slots_of (D.reads disk.old Mark)) }
        ensures untouched { IsUntouched D.tells D.reads D.may_leave D.moment D.left_since D.beside D.disk_faults disk.old disk.new }
        ensures cause { HasCause (D.disk_faults disk.old) (D.disk_faults disk.new) result }
        ensures named { Names Read result }
    {
        let mut file = [0; MARK_LENGTH];
        let count = disk.read_at(FileId::Mark, 0, &mut file)?;
        Ok(Slots::of(&file[..count]))
    }

    fn of(file: &[u8]) -> Self
        ensures { result ≡ slots_of file.now }
    {
        Slots {
            first: Slot::First.open_mark(file),
            second: Slot::Second.open_mark(file),
        }
    }

    fn at(&self, slot: Slot) -> Option<MarkState>
        ensures { result ≡ mark_at self.now slot }
    {
        match slot {
            Slot::First => self.first,
            Slot::Second => self.second,
        }
    }

    pub(crate) fn is_open(&self, slot: Slot) -> bool
        ensures { result ≡ is_some (mark_at self.now slot) }
    {
        self.at(slot).is_some()
    }

    /// The slot that holds the valid mark, where there is one. Where both are closed either would do.
    fn holder(&self) -> Slot
        ensures { mark_at self.now result ≡ later_open self.now.first self.now.second }
    {
        match (self.first, self.second) {
            (Some(first), Some(second)) if is_later(first.sequence, second.sequence) =>
                Slot::Second,
            (Some(_), _) => Slot::First,
            (None, _) => Slot::Second,
        }
    }

    pub(crate) fn valid(&self) -> Option<MarkState>
        ensures { result ≡ later_open self.now.first self.now.second }
    {
        self.at(self.holder())
    }

    /// The slot that the next mark may be written to.
    pub(crate) fn spare(&self) -> Slot
        ensures { mark_at self.now (other_of result) ≡ later_open self.now.first self.now.second }
    {
        self.holder().other()
    }
}

/// Whether the second sequence is the later one, going round at 2^64.
fn is_later(first: u64, second: u64) -> bool
    ensures { result ≡ is_later first second }
{
    let ahead = second.wrapping_sub(first);
    0 < ahead && ahead < 1 << 63
}
