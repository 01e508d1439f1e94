// The log at work: blocks are appended, and a commit makes them count.
ghost use Rattle.std.specs.Prelude.{◌≡◌, ◌≢◌, ◌⊎◌, ◌↔◌, ◌+◌, ◌-◌, ◌<◌, ◌≤◌, nat_le, ◌++◌, ◌∷◌, [], ℕ, List, IsTrue, Some, Err, length, IfOk, OnOk, IfErr, OnErr, MatchResult, ⊤};
ghost use Rattle.s80_base.specs.Causes.{HasCause, Names, Rose};
ghost use Rattle.s80_base.specs.declared.outside.Call.TheVariants.{Read, Write, Cut, Sync};
ghost use Rattle.s80_change.specs.declared.change.Change.{Change};
ghost use Rattle.s80_change.specs.Block.{block as block_of, log_limit, IsLawful};
ghost use Rattle.s80_disk.specs.declared.disk.FileId.{FileId};
ghost use Rattle.s80_disk.specs.declared.disk.FileId.TheVariants.{Mark};
ghost use Rattle.s80_disk.specs.Image.{Wrote, Torn, CutShort, Follows, Only};
ghost use Rattle.s80_disk.specs.Moments.{Beside, LeavesOnly, ComesFrom};
ghost use Rattle.s80_mark.specs.declared.mark.MarkState.{MarkState};
ghost use Rattle.s80_mark.specs.Mark.{format_two, valid_mark};
ghost use Rattle.s80_mark.specs.Commit.{CanCommit, HasEither};
ghost use Rattle.s80_log.specs.Log.{log_file};
ghost use Rattle.s80_log.specs.Standing.{FilesStandFor, StandsFor};
ghost use Rattle.s80_log.specs.Commit.{next_mark, imaged_mark, fresh_mark, Holds, HoldsBeside, Carries, Takes, LeavesBeside, ReadForEither, StandForEither};
ghost use Rattle.s80_log.specs.Faults.{IfLogDisk, UnlessLogDisk};

use s80_base::{Failed, Text};
use s80_disk::{Disk, FileId};
use s80_mark::{FORMAT_TWO, MarkState, NO_IMAGE, commit_mark};
use std::marker::Model;
use thiserror::Error;

/// The greatest length of a log, in bytes.
pub const LOG_LIMIT: u64 = 1 << 36;

/// Why a block isn't appended.
#[derive(Clone, Copy, Debug, PartialEq, Eq, Error)]
pub enum LogFault {
    #[error("{0}")]
    Disk(Failed),
    /// The log has this length, and the block would pass its limit.
    #[error("the log is full at {0} bytes")]
    Full(u64),
}

impl From<Failed> for LogFault {
    ghost use Rattle.s80_log.specs.declared.log.LogFault.TheVariants.{Disk};

    ghost from_gives = { λ failed fault. fault ≡ Disk failed };

    fn from(failed: Failed) -> Self {
        LogFault::Disk(failed)
    }
}

/// One of the two logs, and how many of its bytes count.
#[derive(Debug, Drop)]
pub struct Log {
    number: u8,
    end: u64,
}

impl Model for Log {
    ghost use Rattle.std.specs.Prelude.{◌≤◌};
    ghost use Rattle.s80_log.specs.Log.{LogEnd};

    ghost Value = { LogEnd };

    ghost view = { λ l. record { number = l.number; end = l.end } };

    ghost invariant = { λ l. l.number ≤ 1 };
}

impl Log {
    /// The log of this number, of which so many bytes count.
    pub fn resume(which: u8, length: u64) -> Log
        requires { which ≤ 1 }
        ensures { result ≡ record { number = which; end = length } }
    {
        Log {
            number: which,
            end: length,
        }
    }

    pub fn length(&self) -> u64
        ensures { result ≡ self.now.end }
    {
        self.end
    }

    /// The file that holds it.
    pub fn file(&self) -> FileId
        ensures { result ≡ log_file self.now.number }
    {
        if self.number == 0 {
            FileId::Log0
        } else {
            FileId::Log1
        }
    }

    /// Whether a block of this size fits behind its end, within the limit of a log.
    pub fn has_room(&self, size: u64) -> bool
        ensures { result ≡ nat_le (self.now.end + size) log_limit }
    {
        self.end <= LOG_LIMIT && size <= LOG_LIMIT - self.end
    }

    /// The other log, emptied. What counts isn't touched.
    pub fn begin_other<D: Disk>(&self, disk: &mut D) -> Result<Log, Failed>
        ensures log { IfOk result (λ log. log ≡ record { number = 1 - self.now.number; end = 0 }) }

        // A disk that stands for a list, by a mark that names this log, goes on to stand for it, at every moment.
        ensures begun { (mark : MarkState) (kept : List Change)
            → StandsFor (D.tells disk.old) (D.reads disk.old) (D.may_leave disk.old) mark kept → mark.log ≡ self.now.number
            → MatchResult result (λ log. HoldsBeside (D.tells disk.new) (D.reads disk.new) (D.may_leave disk.new) log mark kept [])
            (λ _. StandsFor (D.tells disk.new) (D.reads disk.new) (D.may_leave disk.new) mark kept) }
        ensures stands { (mark : MarkState) (kept : List Change)
            → StandsFor (D.tells disk.old) (D.reads disk.old) (D.may_leave disk.old) mark kept → mark.log ≡ self.now.number
            → LeavesOnly D.moment D.left_since disk.old disk.new
            (LeavesBeside (D.may_leave disk.old) (D.beside disk.old).told (log_file (1 - self.now.number))
            (λ c. FilesStandFor c mark kept)) }

        ensures emptied { IsTrue (D.tells disk.old) → OnOk result (D.reads disk.new (log_file (1 - self.now.number)) ≡ []) }
        ensures crash { Follows (log_file (1 - self.now.number)) (CutShort 0) (D.may_leave disk.old) (D.may_leave disk.new) }
        ensures any_moment { LeavesOnly D.moment D.left_since disk.old disk.new
            (ComesFrom (D.may_leave disk.old) (D.beside disk.old).told (log_file (1 - self.now.number)) (CutShort 0)) }
        ensures others { (other : FileId) → other ≢ log_file (1 - self.now.number)
            → D.reads disk.new other ≡ D.reads disk.old other }
        ensures tells { D.tells disk.new ≡ D.tells disk.old }
        ensures beside { D.beside disk.new ≡ D.beside disk.old }
        ensures cause { HasCause (D.disk_faults disk.old) (D.disk_faults disk.new) result }
        ensures named { Names Cut result }
    {
        let other = Log {
            number: 1 - self.number,
            end: 0,
        };
        disk.cut(other.file(), 0)?;
        Ok(other)
    }

    /// Writes a block at the end of the log, and answers where. It counts when a commit has succeeded.
    pub fn append<D: Disk>(&mut self, disk: &mut D, block: &Text) -> Result<u64, LogFault>
        ensures place { IfOk result (λ at. at ≡ self.old.end) }
        ensures end { MatchResult result (λ _. self.new ≡ record self.old { end = self.old.end + length block.now })
            (λ _. self.new ≡ self.old) }
        ensures full { (n : ℕ) → (result ≡ Err (LogFault.Full n))
            ↔ ((n ≡ self.old.end) × (log_limit < self.old.end + length block.now)) }
        ensures within { OnOk result (self.new.end ≤ log_limit) }
        ensures untouched { log_limit < self.old.end + length block.now → disk.new ≡ disk.old }

        // A disk that stands for a list goes on to stand for it, at every moment; the block stands behind those that were appended.
        ensures holds { (mark : MarkState) (kept all : List Change) (change : Change)
            → Holds (D.tells disk.old) (D.reads disk.old) (D.may_leave disk.old) self.old mark kept all → IsLawful change
            → block.now ≡ block_of change
            → MatchResult result (λ _. Holds (D.tells disk.new) (D.reads disk.new) (D.may_leave disk.new) self.new mark kept
            (all ++ change ∷ []))
            (λ _. Holds (D.tells disk.new) (D.reads disk.new) (D.may_leave disk.new) self.new mark kept all) }
        ensures stands { (mark : MarkState) (kept all : List Change)
            → Holds (D.tells disk.old) (D.reads disk.old) (D.may_leave disk.old) self.old mark kept all
            → LeavesOnly D.moment D.left_since disk.old disk.new
            (LeavesBeside (D.may_leave disk.old) (D.beside disk.old).told (log_file self.old.number)
            (λ c. FilesStandFor c mark kept)) }

        // While the other log counts, the block stands behind those that were appended here, and what counts isn't touched.
        ensures holds_beside { (mark : MarkState) (kept all : List Change) (change : Change)
            → HoldsBeside (D.tells disk.old) (D.reads disk.old) (D.may_leave disk.old) self.old mark kept all → IsLawful change
            → block.now ≡ block_of change
            → MatchResult result (λ _. HoldsBeside (D.tells disk.new) (D.reads disk.new) (D.may_leave disk.new) self.new mark kept
            (all ++ change ∷ []))
            (λ _. HoldsBeside (D.tells disk.new) (D.reads disk.new) (D.may_leave disk.new) self.new mark kept all) }
        ensures stands_beside { (mark : MarkState) (kept all : List Change)
            → HoldsBeside (D.tells disk.old) (D.reads disk.old) (D.may_leave disk.old) self.old mark kept all
            → LeavesOnly D.moment D.left_since disk.old disk.new
            (LeavesBeside (D.may_leave disk.old) (D.beside disk.old).told (log_file self.old.number)
            (λ c. FilesStandFor c mark kept)) }

        ensures written { IsTrue (D.tells disk.old)
            → OnOk result (Wrote self.old.end block.now (D.reads disk.old (log_file self.old.number))
            (D.reads disk.new (log_file self.old.number))) }
        ensures torn { IsTrue (D.tells disk.old)
            → Torn self.old.end (length block.now) (D.reads disk.old (log_file self.old.number))
            (D.reads disk.new (log_file self.old.number)) }
        ensures crash { Follows (log_file self.old.number) (Torn self.old.end (length block.now)) (D.may_leave disk.old)
            (D.may_leave disk.new) }
        ensures any_moment { LeavesOnly D.moment D.left_since disk.old disk.new
            (ComesFrom (D.may_leave disk.old) (D.beside disk.old).told (log_file self.old.number)
            (Torn self.old.end (length block.now))) }
        ensures others { (other : FileId) → other ≢ log_file self.old.number → D.reads disk.new other ≡ D.reads disk.old other }
        ensures tells { D.tells disk.new ≡ D.tells disk.old }
        ensures beside { D.beside disk.new ≡ D.beside disk.old }
        ensures later { D.disk_faults disk.old ≤ D.disk_faults disk.new }
        ensures cause { IfErr result
            (λ fault. IfLogDisk fault (λ failed. Rose (D.disk_faults disk.old) (D.disk_faults disk.new))) }
        ensures faults_stay { UnlessLogDisk result (D.disk_faults disk.new ≡ D.disk_faults disk.old) }
        ensures named { IfErr result (λ fault. IfLogDisk fault (λ failed. failed.call ≡ Write)) }
    {
        let at = self.end;
        let bytes = block.bytes();
        let size = bytes.len() as u64;
        if !self.has_room(size) {
            return Err(LogFault::Full(at));
        }
        disk.write_at(self.file(), at, bytes)?;
        self.end = at + size;
        Ok(at)
    }

    /// Syncs the log and commits the mark that takes it to its end, with the number of changes that there are then. What the mark says of
    /// an image stays.
    pub fn commit<D: Disk>(
        &mut self,
        disk: &mut D,
        mark: &mut MarkState,
        count: u64,
    ) -> Result<(), Failed>
        ensures mark { MatchResult result (λ _. mark.new ≡ next_mark mark.old self.old count) (λ _. mark.new ≡ mark.old) }
        ensures same { self.new ≡ self.old }

        // From a disk that stands for the list kept so far, a crash at any moment, and one now, leaves files that stand for it or for
        // the list of all that was appended; after Ok the disk stands for that.
        ensures committed { (kept all : List Change)
            → Holds (D.tells disk.old) (D.reads disk.old) (D.may_leave disk.old) self.old mark.old kept all → count ≡ length all
            → OnOk result (Holds (D.tells disk.new) (D.reads disk.new) (D.may_leave disk.new) self.new mark.new all all) }
        ensures stands { (kept all : List Change)
            → Holds (D.tells disk.old) (D.reads disk.old) (D.may_leave disk.old) self.old mark.old kept all → count ≡ length all
            → LeavesOnly D.moment D.left_since disk.old disk.new
            (LeavesBeside (D.may_leave disk.old) (D.beside disk.old).told (log_file self.old.number)
            (StandForEither mark.old kept (next_mark mark.old self.old count) all)) }
        ensures left { (kept all : List Change) (c : FileId → List ℕ)
            → Holds (D.tells disk.old) (D.reads disk.old) (D.may_leave disk.old) self.old mark.old kept all → count ≡ length all
            → D.may_leave disk.new c
            → LeavesBeside (D.may_leave disk.old) (D.beside disk.old).told (log_file self.old.number)
            (StandForEither mark.old kept (next_mark mark.old self.old count) all) (D.beside disk.new).told c }
        // Also where a call failed, the disk goes on to read for the one list or for the other.
        ensures reads { (kept all : List Change)
            → Holds (D.tells disk.old) (D.reads disk.old) (D.may_leave disk.old) self.old mark.old kept all → count ≡ length all
            → ReadForEither (D.tells disk.new) (D.reads disk.new) (D.may_leave disk.new) mark.old kept
            (next_mark mark.old self.old count) all }

        // Whatever the log holds, a crash leaves the old mark or the next, and the other files as it might have left them before.
        ensures any_moment { LeavesOnly D.moment D.left_since disk.old disk.new
            (HasEither (D.tells disk.old) (D.reads disk.old) (D.may_leave disk.old) (D.beside disk.old).told mark.old
            (next_mark mark.old self.old count)) }
        ensures crash { (c : FileId → List ℕ) → D.may_leave disk.new c
            → HasEither (D.tells disk.old) (D.reads disk.old) (D.may_leave disk.old) (D.beside disk.old).told mark.old
            (next_mark mark.old self.old count) (D.beside disk.new).told c }
        ensures valid { CanCommit (D.tells disk.old) (D.reads disk.old) (D.may_leave disk.old) mark.old
            (next_mark mark.old self.old count)
            → OnOk result (valid_mark (D.reads disk.new Mark) ≡ Some mark.new) }
        ensures durable { OnOk result (Only Mark (D.reads disk.new Mark) (D.may_leave disk.new)
            × Only (log_file self.old.number) (D.reads disk.new (log_file self.old.number)) (D.may_leave disk.new)) }
        ensures others { (other : FileId) → other ≢ Mark → D.reads disk.new other ≡ D.reads disk.old other }
        ensures tells { D.tells disk.new ≡ D.tells disk.old }
        ensures beside { D.beside disk.new ≡ D.beside disk.old }
        ensures cause { HasCause (D.disk_faults disk.old) (D.disk_faults disk.new) result }
        ensures named { IfErr result (λ e. (e.call ≡ Read) ⊎ (e.call ≡ Write) ⊎ (e.call ≡ Sync)) }
    {
        let next = self.mark_after(mark, count);
        self.commit_by(disk, mark, &next)
    }

    /// The same, with a mark that names the image of this number, which has so many bytes and is that of all of the log's changes.
    pub fn commit_with_image<D: Disk>(
        &mut self,
        disk: &mut D,
        mark: &mut MarkState,
        count: u64,
        image: u8,
        image_length: u64,
    ) -> Result<(), Failed>
        requires { image ≤ 1 }
        ensures mark { MatchResult result (λ _. mark.new ≡ imaged_mark mark.old self.old count image image_length) (λ _. mark.new ≡ mark.old) }
        ensures same { self.new ≡ self.old }

        // From a disk that stands for the list kept so far, a crash at any moment, and one now, leaves files that stand for it or for
        // the list of all that was appended; after Ok the disk stands for that.
        ensures committed { (kept all : List Change)
            → Holds (D.tells disk.old) (D.reads disk.old) (D.may_leave disk.old) self.old mark.old kept all → count ≡ length all
            → OnOk result (Holds (D.tells disk.new) (D.reads disk.new) (D.may_leave disk.new) self.new mark.new all all) }
        ensures stands { (kept all : List Change)
            → Holds (D.tells disk.old) (D.reads disk.old) (D.may_leave disk.old) self.old mark.old kept all → count ≡ length all
            → LeavesOnly D.moment D.left_since disk.old disk.new
            (LeavesBeside (D.may_leave disk.old) (D.beside disk.old).told (log_file self.old.number)
            (StandForEither mark.old kept (imaged_mark mark.old self.old count image image_length) all)) }
        ensures left { (kept all : List Change) (c : FileId → List ℕ)
            → Holds (D.tells disk.old) (D.reads disk.old) (D.may_leave disk.old) self.old mark.old kept all → count ≡ length all
            → D.may_leave disk.new c
            → LeavesBeside (D.may_leave disk.old) (D.beside disk.old).told (log_file self.old.number)
            (StandForEither mark.old kept (imaged_mark mark.old self.old count image image_length) all) (D.beside disk.new).told c }
        // Also where a call failed, the disk goes on to read for the one list or for the other.
        ensures reads { (kept all : List Change)
            → Holds (D.tells disk.old) (D.reads disk.old) (D.may_leave disk.old) self.old mark.old kept all → count ≡ length all
            → ReadForEither (D.tells disk.new) (D.reads disk.new) (D.may_leave disk.new) mark.old kept
            (imaged_mark mark.old self.old count image image_length) all }

        // Whatever the log holds, a crash leaves the old mark or the next, and the other files as it might have left them before.
        ensures any_moment { LeavesOnly D.moment D.left_since disk.old disk.new
            (HasEither (D.tells disk.old) (D.reads disk.old) (D.may_leave disk.old) (D.beside disk.old).told mark.old
            (imaged_mark mark.old self.old count image image_length)) }
        ensures crash { (c : FileId → List ℕ) → D.may_leave disk.new c
            → HasEither (D.tells disk.old) (D.reads disk.old) (D.may_leave disk.old) (D.beside disk.old).told mark.old
            (imaged_mark mark.old self.old count image image_length) (D.beside disk.new).told c }
        ensures valid { CanCommit (D.tells disk.old) (D.reads disk.old) (D.may_leave disk.old) mark.old
            (imaged_mark mark.old self.old count image image_length)
            → OnOk result (valid_mark (D.reads disk.new Mark) ≡ Some mark.new) }
        ensures durable { OnOk result (Only Mark (D.reads disk.new Mark) (D.may_leave disk.new)
            × Only (log_file self.old.number) (D.reads disk.new (log_file self.old.number)) (D.may_leave disk.new)) }
        ensures others { (other : FileId) → other ≢ Mark → D.reads disk.new other ≡ D.reads disk.old other }
        ensures tells { D.tells disk.new ≡ D.tells disk.old }
        ensures beside { D.beside disk.new ≡ D.beside disk.old }
        ensures cause { HasCause (D.disk_faults disk.old) (D.disk_faults disk.new) result }
        ensures named { IfErr result (λ e. (e.call ≡ Read) ⊎ (e.call ≡ Write) ⊎ (e.call ≡ Sync)) }
    {
        let position = self.length();
        let next = MarkState {
            image,
            image_length,
            image_position: position,
            ..self.mark_after(mark, count)
        };
        self.commit_by(disk, mark, &next)
    }

    /// Syncs the log and commits a mark by which it counts alone, to its end, with the number of changes that it has. The mark names no
    /// image.
    pub fn commit_alone<D: Disk>(
        &mut self,
        disk: &mut D,
        mark: &mut MarkState,
        count: u64,
    ) -> Result<(), Failed>
        ensures mark { MatchResult result (λ _. mark.new ≡ fresh_mark mark.old self.old count) (λ _. mark.new ≡ mark.old) }
        ensures same { self.new ≡ self.old }

        // From a disk that stands for the list kept so far, a crash at any moment, and one now, leaves files that stand for it or for
        // the list of all that was appended; after Ok the disk stands for that.
        ensures committed { (kept all : List Change)
            → HoldsBeside (D.tells disk.old) (D.reads disk.old) (D.may_leave disk.old) self.old mark.old kept all → count ≡ length all
            → OnOk result (Holds (D.tells disk.new) (D.reads disk.new) (D.may_leave disk.new) self.new mark.new all all) }
        ensures stands { (kept all : List Change)
            → HoldsBeside (D.tells disk.old) (D.reads disk.old) (D.may_leave disk.old) self.old mark.old kept all → count ≡ length all
            → LeavesOnly D.moment D.left_since disk.old disk.new
            (LeavesBeside (D.may_leave disk.old) (D.beside disk.old).told (log_file self.old.number)
            (StandForEither mark.old kept (fresh_mark mark.old self.old count) all)) }
        ensures left { (kept all : List Change) (c : FileId → List ℕ)
            → HoldsBeside (D.tells disk.old) (D.reads disk.old) (D.may_leave disk.old) self.old mark.old kept all → count ≡ length all
            → D.may_leave disk.new c
            → LeavesBeside (D.may_leave disk.old) (D.beside disk.old).told (log_file self.old.number)
            (StandForEither mark.old kept (fresh_mark mark.old self.old count) all) (D.beside disk.new).told c }
        // Also where a call failed, the disk goes on to read for the one list or for the other.
        ensures reads { (kept all : List Change)
            → HoldsBeside (D.tells disk.old) (D.reads disk.old) (D.may_leave disk.old) self.old mark.old kept all → count ≡ length all
            → ReadForEither (D.tells disk.new) (D.reads disk.new) (D.may_leave disk.new) mark.old kept
            (fresh_mark mark.old self.old count) all }

        // Whatever the log holds, a crash leaves the old mark or the next, and the other files as it might have left them before.
        ensures any_moment { LeavesOnly D.moment D.left_since disk.old disk.new
            (HasEither (D.tells disk.old) (D.reads disk.old) (D.may_leave disk.old) (D.beside disk.old).told mark.old
            (fresh_mark mark.old self.old count)) }
        ensures crash { (c : FileId → List ℕ) → D.may_leave disk.new c
            → HasEither (D.tells disk.old) (D.reads disk.old) (D.may_leave disk.old) (D.beside disk.old).told mark.old
            (fresh_mark mark.old self.old count) (D.beside disk.new).told c }
        ensures valid { CanCommit (D.tells disk.old) (D.reads disk.old) (D.may_leave disk.old) mark.old
            (fresh_mark mark.old self.old count)
            → OnOk result (valid_mark (D.reads disk.new Mark) ≡ Some mark.new) }
        ensures durable { OnOk result (Only Mark (D.reads disk.new Mark) (D.may_leave disk.new)
            × Only (log_file self.old.number) (D.reads disk.new (log_file self.old.number)) (D.may_leave disk.new)) }
        ensures others { (other : FileId) → other ≢ Mark → D.reads disk.new other ≡ D.reads disk.old other }
        ensures tells { D.tells disk.new ≡ D.tells disk.old }
        ensures beside { D.beside disk.new ≡ D.beside disk.old }
        ensures cause { HasCause (D.disk_faults disk.old) (D.disk_faults disk.new) result }
        ensures named { IfErr result (λ e. (e.call ≡ Read) ⊎ (e.call ≡ Write) ⊎ (e.call ≡ Sync)) }
    {
        let fresh = MarkState {
            image: NO_IMAGE,
            image_length: 0,
            image_position: 0,
            ..self.mark_after(mark, count)
        };
        self.commit_by(disk, mark, &fresh)
    }

    /// The mark after this one, which takes the log to its end and has this count. What it says of an image stays.
    fn mark_after(&self, mark: &MarkState, count: u64) -> MarkState
        ensures { result ≡ next_mark mark.now self.now count }
    {
        MarkState {
            sequence: mark.sequence.wrapping_add(1),
            log: self.number,
            log_length: self.end,
            format: FORMAT_TWO,
            count,
            ..*mark
        }
    }

    /// Syncs the log and commits this mark.
    fn commit_by<D: Disk>(
        &self,
        disk: &mut D,
        mark: &mut MarkState,
        next: &MarkState,
    ) -> Result<(), Failed>
        requires { next.now.format ≡ format_two }
        ensures mark { MatchResult result (λ _. mark.new ≡ next.now) (λ _. mark.new ≡ mark.old) }

        // From a disk that stands for the list kept so far, a crash at any moment, and one now, leaves files that stand for it or for
        // the list of all that was appended; after Ok the disk stands for that.
        ensures committed { (kept all : List Change)
            → Carries (D.tells disk.old) (D.reads disk.old) (D.may_leave disk.old) self.now mark.old kept all
            → Takes self.now all mark.old next.now
            → OnOk result (Holds (D.tells disk.new) (D.reads disk.new) (D.may_leave disk.new) self.now mark.new all all) }
        ensures stands { (kept all : List Change)
            → Carries (D.tells disk.old) (D.reads disk.old) (D.may_leave disk.old) self.now mark.old kept all
            → Takes self.now all mark.old next.now
            → LeavesOnly D.moment D.left_since disk.old disk.new
            (LeavesBeside (D.may_leave disk.old) (D.beside disk.old).told (log_file self.now.number)
            (StandForEither mark.old kept next.now all)) }
        ensures left { (kept all : List Change) (c : FileId → List ℕ)
            → Carries (D.tells disk.old) (D.reads disk.old) (D.may_leave disk.old) self.now mark.old kept all
            → Takes self.now all mark.old next.now
            → D.may_leave disk.new c
            → LeavesBeside (D.may_leave disk.old) (D.beside disk.old).told (log_file self.now.number)
            (StandForEither mark.old kept next.now all) (D.beside disk.new).told c }
        // Also where a call failed, the disk goes on to read for the one list or for the other.
        ensures reads { (kept all : List Change)
            → Carries (D.tells disk.old) (D.reads disk.old) (D.may_leave disk.old) self.now mark.old kept all
            → Takes self.now all mark.old next.now
            → ReadForEither (D.tells disk.new) (D.reads disk.new) (D.may_leave disk.new) mark.old kept next.now all }

        // Whatever the log holds, a crash leaves the old mark or the next, and the other files as it might have left them before.
        ensures any_moment { LeavesOnly D.moment D.left_since disk.old disk.new
            (HasEither (D.tells disk.old) (D.reads disk.old) (D.may_leave disk.old) (D.beside disk.old).told mark.old
            next.now) }
        ensures crash { (c : FileId → List ℕ) → D.may_leave disk.new c
            → HasEither (D.tells disk.old) (D.reads disk.old) (D.may_leave disk.old) (D.beside disk.old).told mark.old next.now
            (D.beside disk.new).told c }
        ensures valid { CanCommit (D.tells disk.old) (D.reads disk.old) (D.may_leave disk.old) mark.old next.now
            → OnOk result (valid_mark (D.reads disk.new Mark) ≡ Some mark.new) }
        ensures durable { OnOk result (Only Mark (D.reads disk.new Mark) (D.may_leave disk.new)
            × Only (log_file self.now.number) (D.reads disk.new (log_file self.now.number)) (D.may_leave disk.new)) }
        ensures others { (other : FileId) → other ≢ Mark → D.reads disk.new other ≡ D.reads disk.old other }
        ensures tells { D.tells disk.new ≡ D.tells disk.old }
        ensures beside { D.beside disk.new ≡ D.beside disk.old }
        ensures cause { HasCause (D.disk_faults disk.old) (D.disk_faults disk.new) result }
        ensures named { IfErr result (λ e. (e.call ≡ Read) ⊎ (e.call ≡ Write) ⊎ (e.call ≡ Sync)) }
    {
        disk.sync(self.file())?;
        commit_mark(disk, mark, next)?;
        *mark = *next;
        Ok(())
    }
}
