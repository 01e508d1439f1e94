// The keeper of a new list, which is made beside the one at work, in the other log.
ghost use Rattle.std.specs.Prelude.{◌≡◌, ◌⊎◌, ◌-◌, ◌+◌, ◌++◌, ◌∷◌, [], List, length, None, IsTrue, IfOk, OnOk, ⊤};
ghost use Rattle.s80_base.specs.Causes.{Rose};
ghost use Rattle.s80_base.specs.declared.outside.Call.TheVariants.{Read, Write, Cut, Sync};
ghost use Rattle.s80_change.specs.declared.change.Change.{Change};
ghost use Rattle.s80_change.specs.Block.{block as block_of, blocks, IsList};
ghost use Rattle.s80_form.specs.Refusal.{refusal_number};
ghost use Rattle.s80_disk.specs.Moments.{Beside, LeavesOnly};
ghost use Rattle.s80_apply.specs.List.{IsBuilt};
ghost use Rattle.s80_log.specs.Commit.{HoldsBeside};
ghost use Rattle.s80_log.specs.Log.{held_in, log_file};
ghost use Rattle.s80_log.specs.Standing.{StandsFor as StandsByMark};
ghost use Rattle.s80_keeper.specs.Answers.{IfKeepDisk, UnlessKeepDisk};
ghost use Rattle.s80_keeper.specs.Condensing.{HasMoved, IsOpen};
ghost use Rattle.s80_keeper.specs.Keeper.{Keeps, pending_of};
ghost use Rattle.s80_keeper.specs.Renewing.{ByAnswer, CountsAlone, HasMade, HasWritten, IsBeside, IsElsewhere, MayFollow, grown};
ghost use Rattle.s80_keeper.specs.Standing.{LeavesEither, LeavesFor, ReadsForEither};

use crate::keep::KeepFault;
use crate::keeper::Keeper;
use crate::start::{Damage, accept};
use s80_apply::boot;
use s80_base::Text;
use s80_change::{Change, Changes, block_text};
use s80_disk::Disk;
use s80_form::Refusal;
use s80_history::History;
use s80_log::LogFault;
use std::alloc::Global;

impl Keeper {
    /// A keeper of this list alone, in the other log. This keeper stays, as far as it goes the list that it keeps too, until the new one counts.
    pub(crate) fn renewed<D: Disk>(
        &self,
        alloc: Global,
        disk: &mut D,
        changes: &Changes,
    ) -> Result<Keeper, KeepFault>
        requires open { self.now.fault ≡ None }
        requires settled { pending_of self.now ≡ 0 }
        ensures moved { IfOk result (HasMoved self.now) }
        ensures renewed { (kept : List Change) → Keeps (D.tells disk.old) (D.reads disk.old) (D.may_leave disk.old) self.now kept kept
            → IsList changes.now → IsBuilt changes.now
            → LeavesOnly D.moment D.left_since disk.old disk.new (LeavesEither (D.beside disk.old).told kept changes.now)
            × ByAnswer result (λ next. Keeps (D.tells disk.new) (D.reads disk.new) (D.may_leave disk.new) next changes.now changes.now)
            (Keeps (D.tells disk.new) (D.reads disk.new) (D.may_leave disk.new) self.now kept kept)
            (ReadsForEither (D.tells disk.new) (D.reads disk.new) (D.may_leave disk.new) kept changes.now) }
        ensures written { IsList changes.now → IsBuilt changes.now
            → ByAnswer result (λ next. HasWritten (D.tells disk.new) (D.reads disk.new) next changes.now) ⊤ ⊤ }
        ensures open { IsOpen result }
        ensures elsewhere { IsElsewhere D.tells D.reads D.may_leave D.moment D.left_since D.beside D.disk_faults
            (log_file (1 - self.now.log.number)) disk.old disk.new }
        ensures cause { IfKeepDisk result (λ failed. Rose (D.disk_faults disk.old) (D.disk_faults disk.new)) }
        ensures faults_stay { UnlessKeepDisk result (D.disk_faults disk.new ≡ D.disk_faults disk.old) }
        ensures named { IfKeepDisk result (λ failed.
            (failed.call ≡ Read) ⊎ (failed.call ≡ Write) ⊎ (failed.call ≡ Cut) ⊎ (failed.call ≡ Sync)) }
    {
        let mut next = self.begin_other(alloc, disk)?;
        next.fill(alloc, disk, changes)?;
        Ok(next)
    }

    /// A keeper of no changes, in the other log, which is emptied.
    fn begin_other<D: Disk>(&self, alloc: Global, disk: &mut D) -> Result<Keeper, KeepFault>
        ensures next { IfOk result (λ next. next ≡ record {
          log = record { number = 1 - self.now.log.number; end = 0 };
          mark = self.now.mark;
          system = next.system;
          history = next.history;
          count = 0;
          fault = None;
        }) }
        ensures begun { (kept : List Change) → Keeps (D.tells disk.old) (D.reads disk.old) (D.may_leave disk.old) self.now kept kept
            → LeavesOnly D.moment D.left_since disk.old disk.new (LeavesFor (D.beside disk.old).told kept)
            × ByAnswer result (λ next. IsBeside (D.tells disk.new) (D.reads disk.new) (D.may_leave disk.new) next kept [])
            (StandsByMark (D.tells disk.new) (D.reads disk.new) (D.may_leave disk.new) self.now.mark kept)
            (StandsByMark (D.tells disk.new) (D.reads disk.new) (D.may_leave disk.new) self.now.mark kept) }
        ensures written { ByAnswer result (λ next. HasWritten (D.tells disk.new) (D.reads disk.new) next []) ⊤ ⊤ }
        ensures open { IsOpen result }
        ensures elsewhere { IsElsewhere D.tells D.reads D.may_leave D.moment D.left_since D.beside D.disk_faults
            (log_file (1 - self.now.log.number)) disk.old disk.new }
        ensures cause { IfKeepDisk result (λ failed. Rose (D.disk_faults disk.old) (D.disk_faults disk.new)) }
        ensures faults_stay { UnlessKeepDisk result (D.disk_faults disk.new ≡ D.disk_faults disk.old) }
        ensures named { IfKeepDisk result (λ failed. failed.call ≡ Cut) }
    {
        let log = self.log.begin_other(disk)?;
        Ok(Keeper::at(log, self.mark, boot(alloc)?, History::empty(alloc), 0))
    }

    /// Takes in all changes of a list, and then has the log count alone.
    fn fill<D: Disk>(
        &mut self,
        alloc: Global,
        disk: &mut D,
        changes: &Changes,
    ) -> Result<(), KeepFault>
        ensures alone { OnOk result (CountsAlone self.old self.new) }
        ensures filled { (kept : List Change) → IsBeside (D.tells disk.old) (D.reads disk.old) (D.may_leave disk.old) self.old kept []
            → IsList changes.now → IsBuilt changes.now
            → LeavesOnly D.moment D.left_since disk.old disk.new (LeavesEither (D.beside disk.old).told kept changes.now)
            × ByAnswer result (λ _. Keeps (D.tells disk.new) (D.reads disk.new) (D.may_leave disk.new) self.new changes.now changes.now)
            (StandsByMark (D.tells disk.new) (D.reads disk.new) (D.may_leave disk.new) self.old.mark kept)
            (ReadsForEither (D.tells disk.new) (D.reads disk.new) (D.may_leave disk.new) kept changes.now) }
        ensures written { HasWritten (D.tells disk.old) (D.reads disk.old) self.old [] → IsList changes.now → IsBuilt changes.now
            → ByAnswer result (λ _. HasWritten (D.tells disk.new) (D.reads disk.new) self.new changes.now) ⊤ ⊤ }
        ensures open { IsOpen result }
        ensures elsewhere { IsElsewhere D.tells D.reads D.may_leave D.moment D.left_since D.beside D.disk_faults
            (log_file self.old.log.number) disk.old disk.new }
        ensures cause { IfKeepDisk result (λ failed. Rose (D.disk_faults disk.old) (D.disk_faults disk.new)) }
        ensures faults_stay { UnlessKeepDisk result (D.disk_faults disk.new ≡ D.disk_faults disk.old) }
        ensures named { IfKeepDisk result (λ failed. (failed.call ≡ Read) ⊎ (failed.call ≡ Write) ⊎ (failed.call ≡ Sync)) }
    {
        self.add_all(alloc, disk, changes)?;
        self.count_alone(disk)
    }

    /// Commits the log alone, with all changes that were taken in.
    fn count_alone<D: Disk>(&mut self, disk: &mut D) -> Result<(), KeepFault>
        ensures alone { OnOk result (CountsAlone self.old self.new) }
        ensures counted { (kept all : List Change) → IsBeside (D.tells disk.old) (D.reads disk.old) (D.may_leave disk.old) self.old kept all
            → LeavesOnly D.moment D.left_since disk.old disk.new (LeavesEither (D.beside disk.old).told kept all)
            × ByAnswer result (λ _. Keeps (D.tells disk.new) (D.reads disk.new) (D.may_leave disk.new) self.new all all)
            ⊥
            (ReadsForEither (D.tells disk.new) (D.reads disk.new) (D.may_leave disk.new) kept all) }
        ensures written { (all : List Change) → HasWritten (D.tells disk.old) (D.reads disk.old) self.old all
            → ByAnswer result (λ _. HasWritten (D.tells disk.new) (D.reads disk.new) self.new all) ⊤ ⊤ }
        ensures open { IsOpen result }
        ensures elsewhere { IsElsewhere D.tells D.reads D.may_leave D.moment D.left_since D.beside D.disk_faults
            (log_file self.old.log.number) disk.old disk.new }
        ensures cause { IfKeepDisk result (λ failed. Rose (D.disk_faults disk.old) (D.disk_faults disk.new)) }
        ensures faults_stay { UnlessKeepDisk result (D.disk_faults disk.new ≡ D.disk_faults disk.old) }
        ensures named { IfKeepDisk result (λ failed. (failed.call ≡ Read) ⊎ (failed.call ≡ Write) ⊎ (failed.call ≡ Sync)) }
    {
        self.log.commit_alone(disk, &mut self.mark, self.count)?;
        Ok(())
    }

    /// Takes in all changes of a list, one after the other.
    fn add_all<D: Disk>(
        &mut self,
        alloc: Global,
        disk: &mut D,
        changes: &Changes,
    ) -> Result<(), KeepFault>
        ensures same { self.new ≡ grown self.old self.new }
        ensures added { (kept : List Change) → IsBeside (D.tells disk.old) (D.reads disk.old) (D.may_leave disk.old) self.old kept []
            → IsList changes.now → IsBuilt changes.now
            → LeavesOnly D.moment D.left_since disk.old disk.new (LeavesFor (D.beside disk.old).told kept)
            × ByAnswer result (λ _. IsBeside (D.tells disk.new) (D.reads disk.new) (D.may_leave disk.new) self.new kept changes.now)
            (StandsByMark (D.tells disk.new) (D.reads disk.new) (D.may_leave disk.new) self.old.mark kept)
            (StandsByMark (D.tells disk.new) (D.reads disk.new) (D.may_leave disk.new) self.old.mark kept) }
        ensures written { HasWritten (D.tells disk.old) (D.reads disk.old) self.old [] → IsList changes.now → IsBuilt changes.now
            → ByAnswer result (λ _. HasWritten (D.tells disk.new) (D.reads disk.new) self.new changes.now) ⊤ ⊤ }
        ensures open { IsOpen result }
        ensures elsewhere { IsElsewhere D.tells D.reads D.may_leave D.moment D.left_since D.beside D.disk_faults
            (log_file self.old.log.number) disk.old disk.new }
        ensures cause { IfKeepDisk result (λ failed. Rose (D.disk_faults disk.old) (D.disk_faults disk.new)) }
        ensures faults_stay { UnlessKeepDisk result (D.disk_faults disk.new ≡ D.disk_faults disk.old) }
        ensures named { IfKeepDisk result (λ failed. failed.call ≡ Write) }
    {
        for i in 0..changes.count() {
            self.add(alloc, disk, changes.at(i))?;
        }
        Ok(())
    }

    /// Writes the block of a change behind the log, and takes the change in.
    fn add<D: Disk>(
        &mut self,
        alloc: Global,
        disk: &mut D,
        change: &Change,
    ) -> Result<(), KeepFault>
        ensures same { self.new ≡ grown self.old self.new }
        ensures added { (kept done : List Change)
            → IsBeside (D.tells disk.old) (D.reads disk.old) (D.may_leave disk.old) self.old kept done → MayFollow done change.now
            → LeavesOnly D.moment D.left_since disk.old disk.new (LeavesFor (D.beside disk.old).told kept)
            × ByAnswer result (λ _. IsBeside (D.tells disk.new) (D.reads disk.new) (D.may_leave disk.new) self.new kept (done ++ change.now ∷ []))
            (StandsByMark (D.tells disk.new) (D.reads disk.new) (D.may_leave disk.new) self.old.mark kept)
            (StandsByMark (D.tells disk.new) (D.reads disk.new) (D.may_leave disk.new) self.old.mark kept) }
        ensures written { (done : List Change) → HasWritten (D.tells disk.old) (D.reads disk.old) self.old done → MayFollow done change.now
            → ByAnswer result (λ _. HasWritten (D.tells disk.new) (D.reads disk.new) self.new (done ++ change.now ∷ [])) ⊤ ⊤ }
        ensures open { IsOpen result }
        ensures elsewhere { IsElsewhere D.tells D.reads D.may_leave D.moment D.left_since D.beside D.disk_faults
            (log_file self.old.log.number) disk.old disk.new }
        ensures cause { IfKeepDisk result (λ failed. Rose (D.disk_faults disk.old) (D.disk_faults disk.new)) }
        ensures faults_stay { UnlessKeepDisk result (D.disk_faults disk.new ≡ D.disk_faults disk.old) }
        ensures named { IfKeepDisk result (λ failed. failed.call ≡ Write) }
    {
        let block = block_text(alloc, change)?;
        let at = self.append_block(disk, &block)?;
        self.accept_at(alloc, change, at)
    }

    /// Writes a block behind the log. That the log is full is told as a start would tell it.
    fn append_block<D: Disk>(&mut self, disk: &mut D, block: &Text) -> Result<u64, KeepFault>
        ensures place { IfOk result (λ at. at ≡ self.old.log.end) }
        ensures same { self.new ≡ record self.old { log = record self.old.log { end = self.new.log.end } } }
        ensures end { OnOk result (self.new.log.end ≡ self.old.log.end + length block.now) }
        ensures appended { (kept done : List Change) (change : Change)
            → IsBeside (D.tells disk.old) (D.reads disk.old) (D.may_leave disk.old) self.old kept done → MayFollow done change
            → block.now ≡ block_of change
            → LeavesOnly D.moment D.left_since disk.old disk.new (LeavesFor (D.beside disk.old).told kept)
            × ByAnswer result
            (λ _. HoldsBeside (D.tells disk.new) (D.reads disk.new) (D.may_leave disk.new) self.new.log self.old.mark kept (done ++ change ∷ []))
            ⊥
            (StandsByMark (D.tells disk.new) (D.reads disk.new) (D.may_leave disk.new) self.old.mark kept) }
        ensures written { (done : List Change) (change : Change) → HasWritten (D.tells disk.old) (D.reads disk.old) self.old done → MayFollow done change
            → block.now ≡ block_of change
            → ByAnswer result (λ _. IsTrue (D.tells disk.new) → held_in (D.reads disk.new) self.new.log ≡ blocks (done ++ change ∷ [])) ⊤ ⊤ }
        ensures open { IsOpen result }
        ensures elsewhere { IsElsewhere D.tells D.reads D.may_leave D.moment D.left_since D.beside D.disk_faults
            (log_file self.old.log.number) disk.old disk.new }
        ensures cause { IfKeepDisk result (λ failed. Rose (D.disk_faults disk.old) (D.disk_faults disk.new)) }
        ensures faults_stay { UnlessKeepDisk result (D.disk_faults disk.new ≡ D.disk_faults disk.old) }
        ensures named { IfKeepDisk result (λ failed. failed.call ≡ Write) }
    {
        match self.log.append(disk, block) {
            Ok(at) => Ok(at),
            Err(LogFault::Disk(failed)) => Err(KeepFault::Disk(failed)),
            Err(LogFault::Full(at)) => Err(full(at)),
        }
    }

    /// Takes in a change whose block was written at this place, the last of the log.
    fn accept_at(&mut self, alloc: Global, change: &Change, at: u64) -> Result<(), KeepFault>
        requires { self.old.log.end ≡ at + length (block_of change.now) }
        ensures same { self.new ≡ record (grown self.old self.new) { log = self.old.log } }
        ensures accepted { (done : List Change) → HasMade self.old done → IsList done → at ≡ length (blocks done) → MayFollow done change.now
            → ByAnswer result (λ _. HasMade self.new (done ++ change.now ∷ [])) ⊤ ⊥ }
        ensures open { IsOpen result }
        ensures offline { IfKeepDisk result (λ failed. ⊥) }
    {
        accept(
            alloc,
            &mut self.system,
            &mut self.history,
            change,
            at,
            self.log.length(),
        )?;
        self.count = self.count.saturating_add(1);
        Ok(())
    }
}

/// That no block fits behind so many bytes of log, as a start tells it.
fn full(at: u64) -> KeepFault
    ensures { result ≡ KeepFault.Damaged (Damage.Replay at (refusal_number (Refusal.LogFull at))) }
{
    KeepFault::Damaged(Damage::Replay(at, Refusal::LogFull(at).number()))
}
