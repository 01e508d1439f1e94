// The first mark of a folder.
ghost use Rattle.std.specs.Prelude.{◌≡◌, ◌≢◌, ◌⊎◌, ℕ, List, IsTrue, Some, IfOk, OnOk, IfErr};
ghost use Rattle.s80_base.specs.Causes.{HasCause};
ghost use Rattle.s80_base.specs.declared.outside.Call.TheVariants.{Write, Sync};
ghost use Rattle.s80_disk.specs.declared.disk.FileId.{FileId};
ghost use Rattle.s80_disk.specs.declared.disk.FileId.TheVariants.{Mark, Log0, Log1};
ghost use Rattle.s80_disk.specs.Image.{Only, Follows};
ghost use Rattle.s80_disk.specs.Moments.{Beside, LeavesOnly, ComesFrom};
ghost use Rattle.s80_disk.specs.Untouched.{IsUntouched};
ghost use Rattle.s80_mark.specs.Mark.{format_two, valid_mark};
ghost use Rattle.s80_mark.specs.Stays.{Anything};
ghost use Rattle.s80_mark.specs.Found.{AreLogsEmpty};
ghost use Rattle.s80_mark.specs.Init.{EmptyLogs, StaysEmpty, SyncsFirst, KeepNothing, StaysWithout};

use crate::mark::{FORMAT_TWO, MarkState, NO_IMAGE};
use crate::slots::{MARK_LENGTH, Slot};
use crate::write::write_slot;
use s80_base::Failed;
use s80_disk::{Disk, FileId, write_and_sync};

fn sync_logs<D: Disk>(disk: &mut D) -> Result<(), Failed>
    ensures log0 { OnOk result (Only Log0 (D.reads disk.new Log0) (D.may_leave disk.new)) }
    ensures log1 { OnOk result (Only Log1 (D.reads disk.new Log1) (D.may_leave disk.new)) }
    ensures untouched { IsUntouched D.tells D.reads D.may_leave D.moment D.left_since D.beside D.disk_faults disk.old disk.new }
    ensures cause { HasCause (D.disk_faults disk.old) (D.disk_faults disk.new) result }
    ensures named { IfErr result (λ e. e.call ≡ Sync) }
{
    disk.sync(FileId::Log0)?;
    disk.sync(FileId::Log1)
}

/// Writes the mark file anew, with this mark in its first slot.
fn write_first<D: Disk>(disk: &mut D, mark: MarkState) -> Result<(), Failed>
    requires { mark.format ≡ format_two }
    ensures valid { IsTrue (D.tells disk.old) → OnOk result (valid_mark (D.reads disk.new Mark) ≡ Some mark) }
    ensures durable { OnOk result (Only Mark (D.reads disk.new Mark) (D.may_leave disk.new)) }
    ensures others { (other : FileId) → other ≢ Mark → D.reads disk.new other ≡ D.reads disk.old other }
    ensures tells { D.tells disk.new ≡ D.tells disk.old }
    ensures beside { D.beside disk.new ≡ D.beside disk.old }
    ensures crash { Follows Mark Anything (D.may_leave disk.old) (D.may_leave disk.new) }
    ensures any_moment { LeavesOnly D.moment D.left_since disk.old disk.new
        (ComesFrom (D.may_leave disk.old) (D.beside disk.old).told Mark Anything) }
    ensures cause { HasCause (D.disk_faults disk.old) (D.disk_faults disk.new) result }
    ensures named { IfErr result (λ e. (e.call ≡ Write) ⊎ (e.call ≡ Sync)) }
{
    write_and_sync(disk, FileId::Mark, 0, &[0; MARK_LENGTH])?;
    write_slot(disk, Slot::First, mark)
}

/// Makes the first mark of a folder whose logs are empty, and answers it.
pub fn init_mark<D: Disk>(disk: &mut D) -> Result<MarkState, Failed>
    ensures first { IfOk result (λ mark. mark ≡ record {
      sequence = 1;
      log = 0;
      log_length = 0;
      image = 255;
      image_length = 0;
      image_position = 0;
      format = format_two;
      count = 0;
    }) }
    ensures valid { IsTrue (D.tells disk.old) → IfOk result (λ mark. valid_mark (D.reads disk.new Mark) ≡ Some mark) }
    ensures durable { OnOk result (Only Mark (D.reads disk.new Mark) (D.may_leave disk.new)) }
    ensures log0 { OnOk result (Only Log0 (D.reads disk.new Log0) (D.may_leave disk.new)) }
    ensures log1 { OnOk result (Only Log1 (D.reads disk.new Log1) (D.may_leave disk.new)) }

    // A crash at any moment leaves the other files as it might have left them before, and so leaves empty logs empty.
    ensures any_moment { LeavesOnly D.moment D.left_since disk.old disk.new
        (ComesFrom (D.may_leave disk.old) (D.beside disk.old).told Mark Anything) }
    ensures stays_empty { EmptyLogs (D.may_leave disk.old)
        → LeavesOnly D.moment D.left_since disk.old disk.new (StaysEmpty (D.beside disk.old).told) }
    // Nothing changes before both logs are on the disk as they read.
    ensures synced_first { LeavesOnly D.moment D.left_since disk.old disk.new
        (SyncsFirst (D.reads disk.old) (D.may_leave disk.old) (D.beside disk.old).told) }
    // Where the logs read empty, and a crash leaves files in which no change is kept, it does so at every moment.
    ensures stays_without { IsTrue (D.tells disk.old) → AreLogsEmpty (D.reads disk.old)
        → ((c : FileId → List ℕ) → D.may_leave disk.old c → KeepNothing c)
        → LeavesOnly D.moment D.left_since disk.old disk.new (StaysWithout (D.beside disk.old).told) }

    ensures crash { Follows Mark Anything (D.may_leave disk.old) (D.may_leave disk.new) }
    ensures others { (other : FileId) → other ≢ Mark → D.reads disk.new other ≡ D.reads disk.old other }
    ensures tells { D.tells disk.new ≡ D.tells disk.old }
    ensures beside { D.beside disk.new ≡ D.beside disk.old }
    ensures cause { HasCause (D.disk_faults disk.old) (D.disk_faults disk.new) result }
    ensures named { IfErr result (λ e. (e.call ≡ Write) ⊎ (e.call ≡ Sync)) }
{
    let mark = MarkState {
        sequence: 1,
        log: 0,
        log_length: 0,
        image: NO_IMAGE,
        image_length: 0,
        image_position: 0,
        format: FORMAT_TWO,
        count: 0,
    };
    sync_logs(disk)?;
    write_first(disk, mark)?;
    Ok(mark)
}
