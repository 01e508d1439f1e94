// The start: the list for which the files stand, or what is wrong with them.
ghost use Rattle.std.specs.Prelude.{◌≡◌, ◌≢◌, ◌⊎◌, ◌<◌, ◌≤◌, ◌+◌, ◌++◌, ◌∷◌, [], All, List, ℕ, drop, length, None, Err, IsTrue, IfOk};
ghost use Rattle.s80_base.specs.Causes.{Rose};
ghost use Rattle.s80_base.specs.declared.outside.Call.TheVariants.{Length, Read, Write, Sync};
ghost use Rattle.s80_change.specs.declared.change.Change.{Change};
ghost use Rattle.s80_change.specs.Block.{block, blocks, IsLawful};
ghost use Rattle.s80_form.specs.Refusal.{refusal_number};
ghost use Rattle.s80_disk.specs.declared.disk.FileId.{FileId};
ghost use Rattle.s80_disk.specs.declared.disk.FileId.TheVariants.{Mark};
ghost use Rattle.s80_disk.specs.Image.{Only};
ghost use Rattle.s80_disk.specs.Moments.{LeavesOnly};
ghost use Rattle.s80_disk.specs.Untouched.{IsUntouched};
ghost use Rattle.s80_mark.specs.Found.{IsLawfulFound, longer_log};
ghost use Rattle.s80_apply.specs.State.{State};
ghost use Rattle.s80_apply.specs.Placed.{PlacedState, placed_after};
ghost use Rattle.s80_apply.specs.System.{HasPlaces, IsSystemOf};
ghost use Rattle.s80_history.specs.History.{IsHistoryOf};
ghost use Rattle.s80_log.specs.Log.{log_file, held_in};
ghost use Rattle.s80_keeper.specs.Keeper.{pending_of};
ghost use Rattle.s80_keeper.specs.Standing.{FilesStandFor, ReadsFor, StandsFor, LeavesEither, LeavesFor};
ghost use Rattle.s80_keeper.specs.Start.{HasMark, IsStart, Started, StartLeaves, IfStartDisk, UnlessStartDisk};
ghost use Rattle.s80_keeper.specs.Beginning.{Beginning};
ghost use Rattle.s80_keeper.specs.Reading.{IsFound, IsLengthChecked, IsCountChecked, AreReplayed, Accepts, HasBegun};

use crate::begin::{Begun, begin};
use crate::keeper::Keeper;
use crate::laws::{damaged_files_stand_for_no_list, lists_begin_with_a_front};
use s80_apply::{System, boot};
use s80_base::{Failed, OutOfMemory};
use s80_change::Change;
use s80_disk::{Disk, FileId};
use s80_form::{Refusal, Refused};
use s80_history::History;
use s80_log::{BlockFault, LOG_LIMIT, Log};
use s80_mark::{FORMAT_TWO, Found, MarkFault, MarkState, init_mark, read_mark};
use std::alloc::Global;
use thiserror::Error;

/// What is wrong with the files of a folder.
#[derive(Clone, Copy, Debug, PartialEq, Eq, Error)]
pub enum Damage {
    /// No slot of the mark is open, and the longer log has this length.
    #[error("no slot of the mark is open, and a log has {0} bytes")]
    NoMark(u64),
    /// The mark has this number for a log, an image or a format.
    #[error("the mark has the number {0} for a log, an image or a format")]
    BadMark(u64),
    /// The mark takes so many bytes of the log, which has only so many.
    #[error("the mark takes {0} bytes of a log that has {1}")]
    LogShort(u64, u64),
    /// The mark takes so many bytes of the image, which has only so many.
    #[error("the mark takes {0} bytes of an image that has {1}")]
    ImageShort(u64, u64),
    /// The image isn't one, which shows at this place of it; at its end, where it isn't consistent with the log.
    #[error("the image is damaged at byte {0}")]
    BadImage(u64),
    /// No block within the marked part begins at this place of the log.
    #[error("no block begins at byte {0} of the log")]
    BadBlock(u64),
    /// The block at this place is refused, by the number of the refusal.
    #[error("the change at byte {0} of the log is refused by {1}")]
    Replay(u64, u8),
    /// The mark counts so many changes, and its part of the log has so many.
    #[error("the mark counts {0} changes, and the log has {1}")]
    CountDiffers(u64, u64),
}

/// Why a keeper doesn't start.
#[derive(Clone, Copy, Debug, PartialEq, Eq, Error)]
pub enum StartFault {
    #[error("out of memory")]
    Memory,
    #[error("{0}")]
    Disk(Failed),
    #[error("{0}")]
    Damaged(Damage),
}

impl From<Failed> for StartFault {
    ghost use Rattle.s80_keeper.specs.declared.start.StartFault.TheVariants.{Disk};

    ghost from_gives = { λ failed fault. fault ≡ Disk failed };

    fn from(failed: Failed) -> Self {
        StartFault::Disk(failed)
    }
}

impl From<MarkFault> for StartFault {
    ghost use Rattle.s80_keeper.specs.Start.{fault_of_mark};

    ghost from_gives = { λ found fault. fault ≡ fault_of_mark found };

    fn from(fault: MarkFault) -> Self {
        match fault {
            MarkFault::Disk(failed) => StartFault::Disk(failed),
            MarkFault::NoGate(length) => StartFault::Damaged(Damage::NoMark(length)),
            MarkFault::BadField(value) => StartFault::Damaged(Damage::BadMark(value)),
        }
    }
}

impl From<OutOfMemory> for StartFault {
    ghost use Rattle.s80_keeper.specs.declared.start.StartFault.TheVariants.{Memory};

    ghost from_gives = { λ _ fault. fault ≡ Memory };

    fn from(_: OutOfMemory) -> Self {
        StartFault::Memory
    }
}

impl From<BlockFault> for StartFault {
    ghost use Rattle.s80_keeper.specs.Start.{fault_of_block};

    ghost from_gives = { λ found fault. fault ≡ fault_of_block found };

    fn from(fault: BlockFault) -> Self {
        match fault {
            BlockFault::Memory => StartFault::Memory,
            BlockFault::Disk(failed) => StartFault::Disk(failed),
            BlockFault::Bad(place) => StartFault::Damaged(Damage::BadBlock(place)),
        }
    }
}

impl Keeper {
    /// Finds the list for which the files stand. The mark is on the disk before it is believed; a folder whose logs are empty gets its
    /// first mark.
    pub fn start<D: Disk>(alloc: Global, disk: &mut D) -> Result<Keeper, StartFault>
        ensures answer { IsTrue (D.tells disk.old) → IsStart (D.reads disk.old) result }
        ensures started { (changes : List Change) → ReadsFor (D.tells disk.old) (D.reads disk.old) (D.may_leave disk.old) changes
            → Started result (D.tells disk.new) (D.reads disk.new) (D.may_leave disk.new) changes }
        ensures faultless { IfOk result (λ keeper. keeper.fault ≡ None) }
        ensures settled { IfOk result (λ keeper. pending_of keeper ≡ 0) }
        // The log has all the bytes that count.
        ensures whole { IsTrue (D.tells disk.old) → IfOk result (λ keeper. keeper.log.end ≤ length (D.reads disk.new (log_file keeper.log.number))) }

        // A crash at any moment leaves what it might have left before; but where the logs read empty, they may be so for certain.
        ensures any_moment { IsTrue (D.tells disk.old) → LeavesOnly D.moment D.left_since disk.old disk.new
            (StartLeaves (D.reads disk.old) (D.may_leave disk.old) (D.beside disk.old).told) }
        // So where the disk stands for a list, the files do so at every moment.
        ensures stands { (changes : List Change) → StandsFor (D.tells disk.old) (D.reads disk.old) (D.may_leave disk.old) changes
            → LeavesOnly D.moment D.left_since disk.old disk.new (LeavesFor (D.beside disk.old).told changes) }
        // And where it reads for a list, as a run leaves it that was killed in a commit, and a crash leaves files that stand for it or for another.
        ensures killed { (changes was : List Change) → ReadsFor (D.tells disk.old) (D.reads disk.old) (D.may_leave disk.old) changes
            → ((c : FileId → List ℕ) → D.may_leave disk.old c → FilesStandFor c changes ⊎ FilesStandFor c was)
            → LeavesOnly D.moment D.left_since disk.old disk.new (LeavesEither (D.beside disk.old).told changes was) }

        ensures untouched { IsTrue (D.tells disk.old) → 0 < longer_log (D.reads disk.old)
            → (file : FileId) → D.reads disk.new file ≡ D.reads disk.old file }
        ensures others { (other : FileId) → other ≢ Mark → D.reads disk.new other ≡ D.reads disk.old other }
        ensures tells { D.tells disk.new ≡ D.tells disk.old }
        ensures beside { D.beside disk.new ≡ D.beside disk.old }
        ensures later { D.disk_faults disk.old ≤ D.disk_faults disk.new }
        ensures cause { IfStartDisk result (λ failed. Rose (D.disk_faults disk.old) (D.disk_faults disk.new)) }
        ensures faults_stay { UnlessStartDisk result (D.disk_faults disk.new ≡ D.disk_faults disk.old) }
        ensures named { IfStartDisk result (λ failed.
            (failed.call ≡ Length) ⊎ (failed.call ≡ Read) ⊎ (failed.call ≡ Write) ⊎ (failed.call ≡ Sync)) }
    {
        damaged_files_stand_for_no_list();
        match find_mark(disk)? {
            Found::Fresh => {
                let mark = init_mark(disk)?;
                Ok(Keeper::at(
                    Log::resume(0, 0),
                    mark,
                    boot(alloc)?,
                    History::empty(alloc),
                    0,
                ))
            }
            Found::Mark(mark) => Keeper::resume(alloc, disk, mark),
        }
    }

    /// A keeper of so many changes in this log, with this mark, the state that they make, and their change set and versions.
    pub(crate) fn at(
        log: Log,
        mark: MarkState,
        system: System,
        history: History,
        count: u64,
    ) -> Keeper
        ensures { result ≡ record { log = log; mark = mark; system = system; history = history; count = count; fault = None } }
    {
        Keeper {
            log,
            mark,
            system,
            history,
            count,
            fault: None,
        }
    }

    /// Goes on from a valid mark.
    fn resume<D: Disk>(alloc: Global, disk: &mut D, mark: MarkState) -> Result<Keeper, StartFault>
        requires { mark.log ≤ 1 }
        ensures answer { IsTrue (D.tells disk.old) → HasMark (D.reads disk.old) mark → IsStart (D.reads disk.old) result }
        ensures keeper { IfOk result (λ keeper. keeper ≡ record {
          log = record { number = mark.log; end = mark.log_length };
          mark = mark;
          system = keeper.system;
          history = keeper.history;
          count = keeper.count;
          fault = None;
        }) }
        ensures untouched { IsUntouched D.tells D.reads D.may_leave D.moment D.left_since D.beside D.disk_faults disk.old disk.new }
        ensures cause { IfStartDisk result (λ failed. Rose (D.disk_faults disk.old) (D.disk_faults disk.new)) }
        ensures faults_stay { UnlessStartDisk result (D.disk_faults disk.new ≡ D.disk_faults disk.old) }
        ensures named { IfStartDisk result (λ failed. (failed.call ≡ Length) ⊎ (failed.call ≡ Read)) }
    {
        lists_begin_with_a_front();
        let log = Log::resume(mark.log, mark.log_length);
        check_length(disk, &log)?;
        let begun = begin(alloc, disk, &log, &mark)?;
        let replayed = replay(alloc, disk, &log, begun)?;
        let reached = check_count(&mark, replayed)?;
        Ok(Keeper::at(log, mark, reached.system, reached.history, reached.count))
    }
}

/// Finds the valid mark, once it is on the disk.
fn find_mark<D: Disk>(disk: &mut D) -> Result<Found, StartFault>
    ensures answer { IsTrue (D.tells disk.old) → IsFound (D.reads disk.old) result }
    ensures lawful { IfOk result IsLawfulFound }
    ensures durable { IfOk result (λ _. Only Mark (D.reads disk.old Mark) (D.may_leave disk.new)) }
    ensures untouched { IsUntouched D.tells D.reads D.may_leave D.moment D.left_since D.beside D.disk_faults disk.old disk.new }
    ensures cause { IfStartDisk result (λ failed. Rose (D.disk_faults disk.old) (D.disk_faults disk.new)) }
    ensures faults_stay { UnlessStartDisk result (D.disk_faults disk.new ≡ D.disk_faults disk.old) }
    ensures named { IfStartDisk result (λ failed. (failed.call ≡ Length) ⊎ (failed.call ≡ Read) ⊎ (failed.call ≡ Sync)) }
{
    disk.sync(FileId::Mark)?;
    Ok(read_mark(disk)?)
}

/// A log's file is as long as what counts of it.
fn check_length<D: Disk>(disk: &mut D, log: &Log) -> Result<(), StartFault>
    ensures answer { IsTrue (D.tells disk.old) → IsLengthChecked (D.reads disk.old) log.now result }
    ensures untouched { IsUntouched D.tells D.reads D.may_leave D.moment D.left_since D.beside D.disk_faults disk.old disk.new }
    ensures cause { IfStartDisk result (λ failed. Rose (D.disk_faults disk.old) (D.disk_faults disk.new)) }
    ensures faults_stay { UnlessStartDisk result (D.disk_faults disk.new ≡ D.disk_faults disk.old) }
    ensures named { IfStartDisk result (λ failed. failed.call ≡ Length) }
{
    let found = disk.length(log.file())?;
    if found < log.length() {
        return Err(StartFault::Damaged(Damage::LogShort(log.length(), found)));
    }
    Ok(())
}

/// What was reached, where a mark that counts the changes counts as many.
fn check_count(mark: &MarkState, reached: Begun) -> Result<Begun, StartFault>
    ensures checked { IsCountChecked mark.now reached.count result }
    ensures same { IfOk result (λ found. found ≡ reached) }
{
    if mark.format == FORMAT_TWO && mark.count != reached.count {
        return Err(StartFault::Damaged(Damage::CountDiffers(mark.count, reached.count)));
    }
    Ok(reached)
}

/// What the changes behind it in the log make of what is begun with.
fn replay<D: Disk>(
    alloc: Global,
    disk: &mut D,
    log: &Log,
    begun: Begun,
) -> Result<Begun, StartFault>
    requires counted { begun.count ≤ begun.at }
    ensures answer { (from : Beginning) → HasBegun from begun → IsTrue (D.tells disk.old) → log.now.end ≤ length (D.reads disk.old (log_file log.now.number))
        → from.position ≤ log.now.end → AreReplayed from begun.history (drop from.position (held_in (D.reads disk.old) log.now)) result }
    ensures behind { log.now.end < begun.at → result ≡ Err (StartFault.Damaged (Damage.BadBlock begun.at)) }
    ensures untouched { IsUntouched D.tells D.reads D.may_leave D.moment D.left_since D.beside D.disk_faults disk.old disk.new }
    ensures cause { IfStartDisk result (λ failed. Rose (D.disk_faults disk.old) (D.disk_faults disk.new)) }
    ensures faults_stay { UnlessStartDisk result (D.disk_faults disk.new ≡ D.disk_faults disk.old) }
    ensures named { IfStartDisk result (λ failed. failed.call ≡ Read) }
{
    if log.length() < begun.at {
        return Err(StartFault::Damaged(Damage::BadBlock(begun.at)));
    }
    let mut reached = begun;
    while reached.at < log.length() {
        let (change, next) = log.read_block(alloc, disk, reached.at)?;
        accept_owned(
            alloc,
            &mut reached.system,
            &mut reached.history,
            change,
            reached.at,
            next,
        )?;
        reached.count = reached.count.saturating_add(1);
        reached.at = next;
    }
    Ok(reached)
}

/// Has the change of a block accepted, which begins and ends at these places, and lets it go.
fn accept_owned(
    alloc: Global,
    system: &mut System,
    history: &mut History,
    change: Change,
    at: u64,
    next: u64,
) -> Result<(), StartFault>
    requires next { next ≡ at + length (block change) }
    ensures answer { (state : State) → IsSystemOf system.old state → Accepts state system.new at change result }
    ensures places { (placed : PlacedState) → HasPlaces system.old placed → IfOk result (λ _. HasPlaces system.new (placed_after change at placed)) }
    ensures history { (changes : List Change) → All IsLawful (changes ++ change ∷ []) → at ≡ length (blocks changes) → IsHistoryOf history.old changes
        → IfOk result (λ _. IsHistoryOf history.new (changes ++ change ∷ [])) }
    ensures offline { IfStartDisk result (λ failed. ⊥) }
{
    accept(alloc, system, history, &change, at, next)
}

/// Has the change of a block accepted, which begins and ends at these places.
pub(crate) fn accept(
    alloc: Global,
    system: &mut System,
    history: &mut History,
    change: &Change,
    at: u64,
    next: u64,
) -> Result<(), StartFault>
    requires next { next ≡ at + length (block change.now) }
    ensures answer { (state : State) → IsSystemOf system.old state → Accepts state system.new at change.now result }
    ensures places { (placed : PlacedState) → HasPlaces system.old placed → IfOk result (λ _. HasPlaces system.new (placed_after change.now at placed)) }
    ensures history { (changes : List Change) → All IsLawful (changes ++ change.now ∷ []) → at ≡ length (blocks changes) → IsHistoryOf history.old changes
        → IfOk result (λ _. IsHistoryOf history.new (changes ++ change.now ∷ [])) }
    ensures offline { IfStartDisk result (λ failed. ⊥) }
{
    history.reserve(alloc, change)?;
    match system.prepare(alloc, change) {
        Err(Refused::Memory) => Err(StartFault::Memory),
        Err(Refused::Refusal(refusal)) => Err(refused(at, &refusal)),
        Ok(_) if next > LOG_LIMIT => Err(refused(at, &Refusal::LogFull(at))),
        Ok(step) => {
            system.install(step, at);
            history.note(change, at);
            Ok(())
        }
    }
}

/// The damage of a block whose change is refused.
fn refused(at: u64, refusal: &Refusal) -> StartFault
    ensures { result ≡ StartFault.Damaged (Damage.Replay at (refusal_number refusal.now)) }
{
    StartFault::Damaged(Damage::Replay(at, refusal.number()))
}
