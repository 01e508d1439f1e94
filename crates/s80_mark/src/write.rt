// What is written of a slot.
ghost use Rattle.std.specs.Prelude.{◌≡◌, ◌≢◌, ◌⊎◌, IsTrue, OnOk, IfErr};
ghost use Rattle.s80_base.specs.Causes.{HasCause};
ghost use Rattle.s80_base.specs.declared.outside.Call.TheVariants.{Write, Sync};
ghost use Rattle.s80_disk.specs.declared.disk.FileId.{FileId};
ghost use Rattle.s80_disk.specs.declared.disk.FileId.TheVariants.{Mark};
ghost use Rattle.s80_disk.specs.Image.{Only, Follows};
ghost use Rattle.s80_disk.specs.Moments.{Beside, LeavesOnly, ComesFrom};
ghost use Rattle.s80_mark.specs.Mark.{format_two};
ghost use Rattle.s80_mark.specs.Writes.{Closes, IsClosed, Fills, IsFilled};
ghost use Rattle.s80_mark.specs.Stays.{Anything};

use crate::mark::MarkState;
use crate::slots::{OPEN, Slot};
use s80_base::Failed;
use s80_disk::{Disk, FileId, write_and_sync};

/// The byte that closes a gate.
const CLOSED: u8 = 0;

/// Makes sure that a slot's gate is closed on the disk, where `was_open` says whether it stands open.
/// A gate that is closed isn't written: a write that stops could leave it open over what an earlier
/// stop left behind it.
pub(crate) fn close_gate<D: Disk>(disk: &mut D, slot: Slot, was_open: bool) -> Result<(), Failed>
    ensures closed { IsTrue (D.tells disk.old)
        → OnOk result (IsClosed slot was_open (D.reads disk.old Mark) (D.reads disk.new Mark)) }
    ensures durable { OnOk result (Only Mark (D.reads disk.new Mark) (D.may_leave disk.new)) }
    ensures others { (other : FileId) → other ≢ Mark → D.reads disk.new other ≡ D.reads disk.old other }
    ensures tells { D.tells disk.new ≡ D.tells disk.old }
    ensures beside { D.beside disk.new ≡ D.beside disk.old }
    ensures crash { Follows Mark (Closes slot was_open) (D.may_leave disk.old) (D.may_leave disk.new) }
    ensures any_moment { LeavesOnly D.moment D.left_since disk.old disk.new
        (ComesFrom (D.may_leave disk.old) (D.beside disk.old).told Mark (Closes slot was_open)) }
    ensures cause { HasCause (D.disk_faults disk.old) (D.disk_faults disk.new) result }
    ensures named { IfErr result (λ e. (e.call ≡ Write) ⊎ (e.call ≡ Sync)) }
{
    if was_open {
        return write_and_sync(disk, FileId::Mark, slot.place() as u64, &[CLOSED]);
    }
    disk.sync(FileId::Mark)
}

/// Writes a mark behind a slot's closed gate, and opens the gate when the mark is on the disk.
pub(crate) fn write_slot<D: Disk>(disk: &mut D, slot: Slot, mark: MarkState) -> Result<(), Failed>
    requires { mark.format ≡ format_two }
    ensures filled { IsTrue (D.tells disk.old)
        → OnOk result (IsFilled slot mark (D.reads disk.old Mark) (D.reads disk.new Mark)) }
    ensures durable { OnOk result (Only Mark (D.reads disk.new Mark) (D.may_leave disk.new)) }
    ensures others { (other : FileId) → other ≢ Mark → D.reads disk.new other ≡ D.reads disk.old other }
    ensures tells { D.tells disk.new ≡ D.tells disk.old }
    ensures beside { D.beside disk.new ≡ D.beside disk.old }
    ensures crash { Follows Mark Anything (D.may_leave disk.old) (D.may_leave disk.new) }
    ensures any_moment { LeavesOnly D.moment D.left_since disk.old disk.new
        (ComesFrom (D.may_leave disk.old) (D.beside disk.old).told Mark (Fills (D.tells disk.old) slot mark)) }
    ensures cause { HasCause (D.disk_faults disk.old) (D.disk_faults disk.new) result }
    ensures named { IfErr result (λ e. (e.call ≡ Write) ⊎ (e.call ≡ Sync)) }
{
    let place = slot.place() as u64;
    write_and_sync(disk, FileId::Mark, place + 1, &mark.to_bytes())?;
    write_and_sync(disk, FileId::Mark, place, &[OPEN])
}
