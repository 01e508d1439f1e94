// The reading of the mark.
ghost use Rattle.std.specs.Prelude.{◌≡◌, ◌⊎◌, IsTrue, IfOk};
ghost use Rattle.s80_base.specs.Causes.{HasCause, Rose, Names};
ghost use Rattle.s80_base.specs.declared.outside.Call.TheVariants.{Length, Read};
ghost use Rattle.s80_disk.specs.Untouched.{IsUntouched};
ghost use Rattle.s80_mark.specs.Found.{IsAnswer, IsLawfulFound, IfDisk, UnlessDisk, AreLogsEmpty, longer_log};

use crate::mark::MarkState;
use crate::slots::Slots;
use s80_base::Failed;
use s80_disk::{Disk, FileId};
use thiserror::Error;

/// What a folder has.
#[derive(Clone, Copy, Debug, PartialEq, Eq)]
pub enum Found {
    /// Both logs are empty. The mark file wasn't looked at.
    Fresh,
    /// The valid mark.
    Mark(MarkState),
}

/// Why no mark is found.
#[derive(Clone, Copy, Debug, PartialEq, Eq, Error)]
pub enum MarkFault {
    #[error("{0}")]
    Disk(Failed),
    /// No slot is open. The longer log has this length.
    #[error("no slot of the mark is open, and a log has {0} bytes")]
    NoGate(u64),
    /// The mark names no log, no image or no format: this number is none.
    #[error("the mark has the number {0} for a log, an image or a format")]
    BadField(u64),
}

/// How long the longer log is.
fn longer_log<D: Disk>(disk: &mut D) -> Result<u64, Failed>
    ensures value { IsTrue (D.tells disk.old) → IfOk result (λ count. count ≡ longer_log (D.reads disk.old)) }
    ensures untouched { IsUntouched D.tells D.reads D.may_leave D.moment D.left_since D.beside D.disk_faults disk.old disk.new }
    ensures cause { HasCause (D.disk_faults disk.old) (D.disk_faults disk.new) result }
    ensures named { Names Length result }
{
    let log0 = disk.length(FileId::Log0)?;
    let log1 = disk.length(FileId::Log1)?;
    Ok(log0.max(log1))
}

/// Finds the valid mark of a folder.
pub fn read_mark<D: Disk>(disk: &mut D) -> Result<Found, MarkFault>
    ensures answer { IsTrue (D.tells disk.old) → IsAnswer (D.reads disk.old) result }
    ensures lawful { IfOk result IsLawfulFound }
    ensures untouched { IsUntouched D.tells D.reads D.may_leave D.moment D.left_since D.beside D.disk_faults disk.old disk.new }
    ensures cause { IfDisk result (λ _. Rose (D.disk_faults disk.old) (D.disk_faults disk.new)) }
    ensures faults_stay { UnlessDisk result (D.disk_faults disk.new ≡ D.disk_faults disk.old) }
    ensures named { IfDisk result (λ failed. (failed.call ≡ Length) ⊎ (failed.call ≡ Read)) }
    // Where both logs are empty, nothing else is read.
    ensures logs_alone { IsTrue (D.tells disk.old) → AreLogsEmpty (D.reads disk.old)
        → IfDisk result (λ failed. failed.call ≡ Length) }
{
    let longer = longer_log(disk).map_err(MarkFault::Disk)?;
    if longer == 0 {
        return Ok(Found::Fresh);
    }
    let slots = Slots::read(disk).map_err(MarkFault::Disk)?;
    let mark = slots.valid().ok_or(MarkFault::NoGate(longer))?;
    match mark.unlawful_number() {
        Some(value) => Err(MarkFault::BadField(u64::from(value))),
        None => Ok(Found::Mark(mark)),
    }
}
