// The keeping of a change.
ghost use Rattle.std.specs.Prelude.{All, ◌≡◌, ◌≢◌, ◌⊎◌, ◌↔◌, ◌<◌, ◌≤◌, ◌+◌, ◌^◌, ◌∷◌, [], ◌++◌, List, ℕ, length, Some, None, Ok, Err, IfOk, OnOk, ⊤};
ghost use Rattle.s80_base.specs.Causes.{Rose};
ghost use Rattle.s80_base.specs.declared.outside.Call.TheVariants.{Read, Write, Sync};
ghost use Rattle.s80_change.specs.declared.change.Change.{Change};
ghost use Rattle.s80_change.specs.Block.{block, blocks, log_limit, IsLawful};
ghost use Rattle.s80_disk.specs.declared.disk.FileId.{FileId};
ghost use Rattle.s80_disk.specs.declared.disk.FileId.TheVariants.{Mark};
ghost use Rattle.s80_disk.specs.Moments.{Beside, LeavesOnly};
ghost use Rattle.s80_apply.specs.List.{state_of};
ghost use Rattle.s80_apply.specs.System.{IsInstalled, IsReady};
ghost use Rattle.s80_history.specs.History.{IsHistoryOf, IsReadyFor};
ghost use Rattle.s80_apply.specs.Placed.{placed_of};
ghost use Rattle.s80_log.specs.Commit.{LeavesBeside};
ghost use Rattle.s80_log.specs.Log.{log_file};
ghost use Rattle.s80_keeper.specs.Keeper.{pending_of, IsSettled, Keeps};
ghost use Rattle.s80_keeper.specs.Renewing.{HasWritten};
ghost use Rattle.s80_keeper.specs.Standing.{LeavesEither, LeavesFor};
ghost use Rattle.s80_keeper.specs.Answers.{AfterCommit, AfterKeeping, AfterKeepingLater, CanKeep, Committed, IfKeepDisk, IsFor, Kept, KeptLater, PlacesFor, UnlessKeepDisk};

use crate::keeper::{Keeper, Prepared};
use crate::start::{Damage, StartFault};
use s80_apply::System;
use s80_base::{Failed, OutOfMemory};
use s80_disk::Disk;
use s80_history::History;
use s80_log::LogFault;
use thiserror::Error;

/// Why a change isn't kept, or a source isn't read.
#[derive(Clone, Copy, Debug, PartialEq, Eq, Error)]
pub enum KeepFault {
    #[error("out of memory")]
    Memory,
    #[error("{0}")]
    Disk(Failed),
    /// The disk failed so in an earlier call.
    #[error("the disk has failed: {0}")]
    Closed(Failed),
    /// The log has this length, and the block of the change would pass its limit.
    #[error("the log is full at {0} bytes")]
    Full(u64),
    #[error("{0}")]
    Damaged(Damage),
}

impl From<OutOfMemory> for KeepFault {
    ghost use Rattle.s80_keeper.specs.declared.keep.KeepFault.TheVariants.{Memory};

    ghost from_gives = { λ _ fault. fault ≡ Memory };

    fn from(_: OutOfMemory) -> Self {
        KeepFault::Memory
    }
}

impl From<Failed> for KeepFault {
    ghost use Rattle.s80_keeper.specs.declared.keep.KeepFault.TheVariants.{Disk};

    ghost from_gives = { λ failed fault. fault ≡ Disk failed };

    fn from(failed: Failed) -> Self {
        KeepFault::Disk(failed)
    }
}

impl From<StartFault> for KeepFault {
    ghost use Rattle.s80_keeper.specs.Renewing.{fault_of_start};

    ghost from_gives = { λ found fault. fault ≡ fault_of_start found };

    fn from(fault: StartFault) -> Self {
        match fault {
            StartFault::Memory => KeepFault::Memory,
            StartFault::Disk(failed) => KeepFault::Disk(failed),
            StartFault::Damaged(damage) => KeepFault::Damaged(damage),
        }
    }
}

impl Keeper {
    /// How many bytes of the log are appended and not yet committed.
    pub fn pending(&self) -> u64
        ensures { result ≡ pending_of self.now }
    {
        self.log.length().saturating_sub(self.mark.log_length)
    }

    /// Writes the block of a change behind the log, and takes the change in. It counts on the disk once a commit has succeeded. Answers where
    /// the block begins. Takes no memory.
    pub fn keep_later<D: Disk>(
        &mut self,
        disk: &mut D,
        prepared: Prepared,
    ) -> Result<u64, KeepFault>
        requires { CanKeep self.old prepared }
        ensures after { AfterKeepingLater result prepared self.old self.new }
        ensures place { IfOk result (λ at. at ≡ self.old.log.end) }

        // From a disk that stands for a list, a crash at any moment leaves files that stand for it; the change is pending after Ok.
        ensures any_moment { (kept all : List Change)
            → Keeps (D.tells disk.old) (D.reads disk.old) (D.may_leave disk.old) self.old kept all
            → LeavesOnly D.moment D.left_since disk.old disk.new (LeavesFor (D.beside disk.old).told kept) }
        ensures kept { (kept all : List Change)
            → Keeps (D.tells disk.old) (D.reads disk.old) (D.may_leave disk.old) self.old kept all → IsLawful prepared.change → IsFor (state_of all) self.old.system prepared
            → PlacesFor (placed_of all) self.old.system prepared
            → KeptLater result (D.tells disk.new) (D.reads disk.new) (D.may_leave disk.new) self.new kept all prepared.change }

        // Whatever a crash may leave.
        ensures written { (changes : List Change) → HasWritten (D.tells disk.old) (D.reads disk.old) self.old changes → IsLawful prepared.change
            → IsFor (state_of changes) self.old.system prepared → PlacesFor (placed_of changes) self.old.system prepared
            → OnOk result (HasWritten (D.tells disk.new) (D.reads disk.new) self.new (changes ++ prepared.change ∷ [])) }

        // After a fault of the disk each call answers it, and none is made.
        ensures closed { (failed : Failed) → (result ≡ Err (KeepFault.Closed failed)) ↔ (self.old.fault ≡ Some failed) }
        ensures uncalled { self.old.fault ≢ None → disk.new ≡ disk.old }
        ensures full { (n : ℕ) → (result ≡ Err (KeepFault.Full n))
            ↔ ((self.old.fault ≡ None) × (n ≡ self.old.log.end) × (log_limit < self.old.log.end + length (block prepared.change))) }
        ensures unfit { log_limit < self.old.log.end + length (block prepared.change) → disk.new ≡ disk.old }

        // Whatever the disk stands for, but for the log a crash at any moment leaves the files of an image that one might have left before, and
        // the other files read as before.
        ensures elsewhere { LeavesOnly D.moment D.left_since disk.old disk.new
            (LeavesBeside (D.may_leave disk.old) (D.beside disk.old).told (log_file self.old.log.number) (λ c. ⊤)) }
        ensures others { (other : FileId) → other ≢ log_file self.old.log.number → D.reads disk.new other ≡ D.reads disk.old other }
        ensures tells { D.tells disk.new ≡ D.tells disk.old }
        ensures beside { D.beside disk.new ≡ D.beside disk.old }
        ensures later { D.disk_faults disk.old ≤ D.disk_faults disk.new }
        ensures cause { IfKeepDisk result (λ failed. Rose (D.disk_faults disk.old) (D.disk_faults disk.new)) }
        ensures faults_stay { UnlessKeepDisk result (D.disk_faults disk.new ≡ D.disk_faults disk.old) }
        ensures named { IfKeepDisk result (λ failed. failed.call ≡ Write) }
    {
        // What was prepared is let go by calls: at the end of a scope each of its forms would be a case of the proof.
        if let Some(failed) = self.fault {
            drop(prepared);
            return Err(KeepFault::Closed(failed));
        }
        match self.log.append(disk, prepared.block()) {
            Ok(at) => {
                take_in(&mut self.system, &mut self.history, prepared, at);
                self.count = self.count.saturating_add(1);
                Ok(at)
            }
            Err(LogFault::Disk(failed)) => {
                drop(prepared);
                self.fault = Some(failed);
                Err(KeepFault::Disk(failed))
            }
            Err(LogFault::Full(length)) => {
                drop(prepared);
                Err(KeepFault::Full(length))
            }
        }
    }

    /// Commits all that is pending, with one mark. With nothing pending no call of the disk is made. Takes no memory.
    pub fn commit<D: Disk>(&mut self, disk: &mut D) -> Result<(), KeepFault>
        ensures after { AfterCommit result self.old self.new }

        // From a disk that stands for a list, with more behind it that is pending, a crash at any moment, inside a write too, leaves files that
        // stand for the list or for all; after Ok the disk stands for all, and nothing is pending.
        ensures any_moment { (kept all : List Change)
            → Keeps (D.tells disk.old) (D.reads disk.old) (D.may_leave disk.old) self.old kept all
            → LeavesOnly D.moment D.left_since disk.old disk.new (LeavesEither (D.beside disk.old).told kept all) }
        ensures committed { (kept all : List Change)
            → Keeps (D.tells disk.old) (D.reads disk.old) (D.may_leave disk.old) self.old kept all
            → Committed result (D.tells disk.new) (D.reads disk.new) (D.may_leave disk.new) self.new kept all }

        // Whatever a crash may leave.
        ensures written { (changes : List Change) → HasWritten (D.tells disk.old) (D.reads disk.old) self.old changes
            → OnOk result (HasWritten (D.tells disk.new) (D.reads disk.new) self.new changes) }

        ensures closed { (failed : Failed) → (result ≡ Err (KeepFault.Closed failed)) ↔ (self.old.fault ≡ Some failed) }
        ensures uncalled { self.old.fault ≢ None → disk.new ≡ disk.old }
        ensures unpending { pending_of self.old ≡ 0 → disk.new ≡ disk.old }
        ensures idle { self.old.fault ≡ None → pending_of self.old ≡ 0 → result ≡ Ok tt }

        ensures elsewhere { LeavesOnly D.moment D.left_since disk.old disk.new
            (LeavesBeside (D.may_leave disk.old) (D.beside disk.old).told (log_file self.old.log.number) (λ c. ⊤)) }
        ensures others { (other : FileId) → other ≢ Mark → D.reads disk.new other ≡ D.reads disk.old other }
        ensures tells { D.tells disk.new ≡ D.tells disk.old }
        ensures beside { D.beside disk.new ≡ D.beside disk.old }
        ensures later { D.disk_faults disk.old ≤ D.disk_faults disk.new }
        ensures cause { IfKeepDisk result (λ failed. Rose (D.disk_faults disk.old) (D.disk_faults disk.new)) }
        ensures faults_stay { UnlessKeepDisk result (D.disk_faults disk.new ≡ D.disk_faults disk.old) }
        ensures named { IfKeepDisk result (λ failed. (failed.call ≡ Read) ⊎ (failed.call ≡ Write) ⊎ (failed.call ≡ Sync)) }
    {
        if let Some(failed) = self.fault {
            return Err(KeepFault::Closed(failed));
        }
        if self.pending() == 0 {
            return Ok(());
        }
        if let Err(failed) = self.log.commit(disk, &mut self.mark, self.count) {
            self.fault = Some(failed);
            return Err(KeepFault::Disk(failed));
        }
        Ok(())
    }

    /// Keeps a change: writes its block behind the log, and commits. Answers where the block begins. Takes no memory.
    pub fn keep<D: Disk>(&mut self, disk: &mut D, prepared: Prepared) -> Result<u64, KeepFault>
        requires ready { CanKeep self.old prepared }
        requires settled { IsSettled self.old }
        ensures after { AfterKeeping result prepared self.old self.new }
        ensures place { IfOk result (λ at. at ≡ self.old.log.end) }

        // From a disk that stands for a list, a crash at any moment, inside a write too, leaves files that stand for it or for the list with
        // the change; after Ok the disk stands for that.
        ensures any_moment { (changes : List Change)
            → Keeps (D.tells disk.old) (D.reads disk.old) (D.may_leave disk.old) self.old changes changes → IsLawful prepared.change → IsFor (state_of changes) self.old.system prepared
            → PlacesFor (placed_of changes) self.old.system prepared
            → LeavesOnly D.moment D.left_since disk.old disk.new
            (LeavesEither (D.beside disk.old).told changes (changes ++ prepared.change ∷ [])) }
        ensures kept { (changes : List Change)
            → Keeps (D.tells disk.old) (D.reads disk.old) (D.may_leave disk.old) self.old changes changes → IsLawful prepared.change → IsFor (state_of changes) self.old.system prepared
            → PlacesFor (placed_of changes) self.old.system prepared
            → Kept result (D.tells disk.new) (D.reads disk.new) (D.may_leave disk.new) self.new changes prepared.change }

        // After a fault of the disk each call answers it, and none is made.
        ensures closed { (failed : Failed) → (result ≡ Err (KeepFault.Closed failed)) ↔ (self.old.fault ≡ Some failed) }
        ensures uncalled { self.old.fault ≢ None → disk.new ≡ disk.old }
        ensures full { (n : ℕ) → (result ≡ Err (KeepFault.Full n))
            ↔ ((self.old.fault ≡ None) × (n ≡ self.old.log.end) × (log_limit < self.old.log.end + length (block prepared.change))) }
        ensures unfit { log_limit < self.old.log.end + length (block prepared.change) → disk.new ≡ disk.old }

        // Whatever the disk stands for, but for the mark and the log a crash at any moment leaves the files of an image that one might have left
        // before.
        ensures elsewhere { LeavesOnly D.moment D.left_since disk.old disk.new
            (LeavesBeside (D.may_leave disk.old) (D.beside disk.old).told (log_file self.old.log.number) (λ c. ⊤)) }
        ensures others { (other : FileId) → other ≢ Mark → other ≢ log_file self.old.log.number
            → D.reads disk.new other ≡ D.reads disk.old other }
        ensures tells { D.tells disk.new ≡ D.tells disk.old }
        ensures beside { D.beside disk.new ≡ D.beside disk.old }
        ensures later { D.disk_faults disk.old ≤ D.disk_faults disk.new }
        ensures cause { IfKeepDisk result (λ failed. Rose (D.disk_faults disk.old) (D.disk_faults disk.new)) }
        ensures faults_stay { UnlessKeepDisk result (D.disk_faults disk.new ≡ D.disk_faults disk.old) }
        ensures named { IfKeepDisk result (λ failed. (failed.call ≡ Read) ⊎ (failed.call ≡ Write) ⊎ (failed.call ≡ Sync)) }
    {
        let at = self.keep_later(disk, prepared)?;
        self.commit(disk)?;
        Ok(at)
    }
}

/// Installs and notes a prepared change, whose block begins at this place. Takes no memory.
fn take_in(system: &mut System, history: &mut History, prepared: Prepared, at: u64)
    requires step { IsReady system.old prepared.step }
    requires noted { IsReadyFor history.old prepared.change }
    requires place { at + length (block prepared.change) < 2 ^ 64 }
    ensures system { IsInstalled system.old prepared.step at system.new }
    ensures history { (changes : List Change) → All IsLawful (changes ++ prepared.change ∷ []) → at ≡ length (blocks changes)
        → IsHistoryOf history.old changes → IsHistoryOf history.new (changes ++ prepared.change ∷ []) }
{
    let (change, step) = prepared.parts();
    system.install(step, at);
    history.note(&change, at);
}
