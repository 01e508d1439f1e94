// Snapshots.
ghost use Rattle.std.specs.Prelude.{◌≡◌, ◌≢◌, ◌⊎◌, ◌↔◌, ◌<◌, ◌≤◌, ◌+◌, ◌++◌, ◌∷◌, [], All, ℕ, List, length, None, Some, Err, IsTrue, IfErr, IfOk, MatchResult, OnOk};
ghost use Rattle.s80_base.specs.declared.outside.Failed.{Failed};
ghost use Rattle.s80_base.specs.Causes.{HasCause, Rose};
ghost use Rattle.s80_base.specs.declared.outside.Call.TheVariants.{Read, Write, Cut, Sync};
ghost use Rattle.s80_change.specs.declared.change.Change.{Change};
ghost use Rattle.s80_change.specs.Block.{block, log_limit, IsList};
ghost use Rattle.s80_disk.specs.declared.disk.FileId.{FileId};
ghost use Rattle.s80_disk.specs.declared.disk.FileId.TheVariants.{Mark};
ghost use Rattle.s80_disk.specs.Image.{Follows, Only};
ghost use Rattle.s80_disk.specs.Moments.{ComesFrom, LeavesOnly};
ghost use Rattle.s80_mark.specs.Stays.{Anything};
ghost use Rattle.s80_class.specs.Known.{IsKnown};
ghost use Rattle.s80_apply.specs.Codes.{AreCodes};
ghost use Rattle.s80_apply.specs.List.{state_of};
ghost use Rattle.s80_apply.specs.Placed.{PlacedState, placed_of};
ghost use Rattle.s80_apply.specs.State.{State};
ghost use Rattle.s80_apply.specs.System.{HasPlaces, IsSystemOf};
ghost use Rattle.s80_history.specs.History.{IsHistoryOf};
ghost use Rattle.s80_log.specs.Log.{log_file};
ghost use Rattle.s80_keeper.specs.Answers.{CanKeep, IfKeepDisk, IsFor, PlacesFor, UnlessKeepDisk};
ghost use Rattle.s80_keeper.specs.Condensing.{IsOpen};
ghost use Rattle.s80_keeper.specs.Imaged.{image_file};
ghost use Rattle.s80_keeper.specs.Keeper.{IsSettled, Keeps};
ghost use Rattle.s80_keeper.specs.Renewing.{HasMade, HasWritten};
ghost use Rattle.s80_keeper.specs.Snapshot.{AfterSnapshot, IsImageText, LeavesApart, Snapped, imaged, note, other_image};
ghost use Rattle.s80_keeper.specs.Standing.{LeavesEither, ReadsForEither};

use crate::begin::file_of_image;
use crate::keep::KeepFault;
use crate::keeper::{Keeper, Prepared};
use s80_apply::System;
use s80_base::{Failed, OutOfMemory, Text};
use s80_change::Change;
use s80_disk::{Disk, FileId};
use s80_snapshot::{a_picture_is_the_image_of_its_list, encode_system, images_of_lists_are_lawful};
use std::alloc::Global;

/// What a snapshot puts behind the list.
const NOTE: &[u8] = b"\"----SNAPSHOT----\"";

/// How many bytes the log keeps of it: a mark ends it, and a line feed stands behind that.
const NOTE_SIZE: u64 = 20;

impl Keeper {
    /// Writes the image of the list with a snapshot's note behind it into the image file that isn't in use, and keeps the note, by a mark that names the
    /// image. With want of memory, or a log that is full, nothing is written.
    pub fn snapshot<D: Disk>(&mut self, alloc: Global, disk: &mut D) -> Result<(), KeepFault>
        requires settled { IsSettled self.old }
        ensures after { AfterSnapshot result self.old self.new }

        // From a disk that stands for a list, a crash at any moment, inside a write too, leaves files that stand for it or for the list with the note; after
        // Ok the disk stands for that, with its image.
        ensures any_moment { (changes : List Change)
            → Keeps (D.tells disk.old) (D.reads disk.old) (D.may_leave disk.old) self.old changes changes
            → LeavesOnly D.moment D.left_since disk.old disk.new (LeavesEither (D.beside disk.old).told changes (changes ++ note ∷ [])) }
        ensures kept { (changes : List Change)
            → Keeps (D.tells disk.old) (D.reads disk.old) (D.may_leave disk.old) self.old changes changes
            → Snapped result (D.tells disk.new) (D.reads disk.new) (D.may_leave disk.new) self.new changes }

        // After a fault of the disk each call answers it, and none is made.
        ensures closed { (failed : Failed) → (result ≡ Err (KeepFault.Closed failed)) ↔ (self.old.fault ≡ Some failed) }
        ensures uncalled { self.old.fault ≢ None → disk.new ≡ disk.old }
        ensures full { (n : ℕ) → (result ≡ Err (KeepFault.Full n))
            ↔ ((self.old.fault ≡ None) × (n ≡ self.old.log.end) × (log_limit < self.old.log.end + length (block note))) }
        ensures unfit { log_limit < self.old.log.end + length (block note) → disk.new ≡ disk.old }
        ensures stays { log_limit < self.old.log.end + length (block note) → self.new ≡ self.old }
        ensures log { self.new.log.number ≡ self.old.log.number }

        // Whatever a crash may leave: after Ok the log reads as the list with the note.
        ensures written { (changes : List Change) → HasWritten (D.tells disk.old) (D.reads disk.old) self.old changes
            → OnOk result (HasWritten (D.tells disk.new) (D.reads disk.new) self.new (changes ++ note ∷ [])) }

        // Whatever the disk stands for, but for the mark, the log and the image that isn't in use a crash at any moment leaves the files of an image of the
        // disk that one might have left before.
        ensures elsewhere { LeavesOnly D.moment D.left_since disk.old disk.new
            (LeavesApart (D.may_leave disk.old) (D.beside disk.old).told (log_file self.old.log.number) (image_file (other_image self.old.mark.image))) }
        ensures others { (other : FileId) → other ≢ Mark → other ≢ log_file self.old.log.number → other ≢ image_file (other_image self.old.mark.image)
            → D.reads disk.new other ≡ D.reads disk.old other }
        ensures tells { D.tells disk.new ≡ D.tells disk.old }
        ensures beside { D.beside disk.new ≡ D.beside disk.old }
        ensures later { D.disk_faults disk.old ≤ D.disk_faults disk.new }
        ensures cause { IfKeepDisk result (λ failed. Rose (D.disk_faults disk.old) (D.disk_faults disk.new)) }
        ensures faults_stay { UnlessKeepDisk result (D.disk_faults disk.new ≡ D.disk_faults disk.old) }
        ensures named { IfKeepDisk result (λ failed.
            (failed.call ≡ Read) ⊎ (failed.call ≡ Write) ⊎ (failed.call ≡ Cut) ⊎ (failed.call ≡ Sync)) }
    {
        if let Some(failed) = self.fault {
            return Err(KeepFault::Closed(failed));
        }
        if !self.log.has_room(NOTE_SIZE) {
            return Err(KeepFault::Full(self.log.length()));
        }
        let image = self.picture(alloc)?;
        let prepared = self.prepare_note(alloc)?;
        self.keep_with_image(disk, prepared, &image)
    }

    /// The image of the list with the note behind it.
    fn picture(&self, alloc: Global) -> Result<Text, OutOfMemory>
        ensures { (changes : List Change) → HasMade self.now changes → IsList (changes ++ note ∷ [])
            → IfOk result (IsImageText (changes ++ note ∷ [])) }
    {
        a_picture_is_the_image_of_its_list();
        images_of_lists_are_lawful();
        systems_are_known(&self.system);
        let count = self.count.saturating_add(1);
        let image = encode_system(alloc, &self.system, &self.history, count)?;
        are_bytes(image.bytes());
        Ok(image)
    }

    /// The note, once there is all memory that keeping it takes. The list stays.
    fn prepare_note(&mut self, alloc: Global) -> Result<Prepared, OutOfMemory>
        ensures note { IfOk result (λ prepared. prepared.change ≡ note) }
        ensures step { (state : State) → IsSystemOf self.old.system state → IfOk result (IsFor state self.new.system) }
        ensures places { (placed : PlacedState) → HasPlaces self.old.system placed → IfOk result (PlacesFor placed self.new.system) }
        ensures ready { IfOk result (CanKeep self.new) }
        ensures same { self.new ≡ record self.old { system = self.new.system; history = self.new.history } }
        ensures system { (state : State) → IsSystemOf self.old.system state → IsSystemOf self.new.system state }
        ensures same_places { (placed : PlacedState) → HasPlaces self.old.system placed → HasPlaces self.new.system placed }
        ensures history { (changes : List Change) → IsHistoryOf self.old.history changes → IsHistoryOf self.new.history changes }
    {
        let text = Text::from_bytes(alloc, NOTE)?;
        // A doIt for which the log has room is refused for want of memory alone.
        match self.prepare(alloc, Change::DoIt { text }) {
            Ok(prepared) => Ok(prepared),
            Err(_) => Err(OutOfMemory),
        }
    }

    /// Keeps the note, by a mark that names this image.
    fn keep_with_image<D: Disk>(
        &mut self,
        disk: &mut D,
        prepared: Prepared,
        image: &Text,
    ) -> Result<(), KeepFault>
        requires ready { CanKeep self.old prepared }
        requires note { prepared.change ≡ note }
        requires open { self.old.fault ≡ None }
        requires room { self.old.log.end + length (block note) ≤ log_limit }
        ensures after { AfterSnapshot result self.old self.new }
        ensures any_moment { (changes : List Change)
            → Keeps (D.tells disk.old) (D.reads disk.old) (D.may_leave disk.old) self.old changes changes
            → IsFor (state_of changes) self.old.system prepared → PlacesFor (placed_of changes) self.old.system prepared
            → IsImageText (changes ++ note ∷ []) image.now
            → LeavesOnly D.moment D.left_since disk.old disk.new (LeavesEither (D.beside disk.old).told changes (changes ++ note ∷ [])) }
        ensures kept { (changes : List Change)
            → Keeps (D.tells disk.old) (D.reads disk.old) (D.may_leave disk.old) self.old changes changes
            → IsFor (state_of changes) self.old.system prepared → PlacesFor (placed_of changes) self.old.system prepared
            → IsImageText (changes ++ note ∷ []) image.now
            → Snapped result (D.tells disk.new) (D.reads disk.new) (D.may_leave disk.new) self.new changes }
        ensures open { IsOpen result }
        ensures log { self.new.log.number ≡ self.old.log.number }
        ensures written { (changes : List Change) → HasWritten (D.tells disk.old) (D.reads disk.old) self.old changes
            → IsFor (state_of changes) self.old.system prepared → PlacesFor (placed_of changes) self.old.system prepared
            → OnOk result (HasWritten (D.tells disk.new) (D.reads disk.new) self.new (changes ++ note ∷ [])) }
        ensures elsewhere { LeavesOnly D.moment D.left_since disk.old disk.new
            (LeavesApart (D.may_leave disk.old) (D.beside disk.old).told (log_file self.old.log.number) (image_file (other_image self.old.mark.image))) }
        ensures others { (other : FileId) → other ≢ Mark → other ≢ log_file self.old.log.number → other ≢ image_file (other_image self.old.mark.image)
            → D.reads disk.new other ≡ D.reads disk.old other }
        ensures tells { D.tells disk.new ≡ D.tells disk.old }
        ensures beside { D.beside disk.new ≡ D.beside disk.old }
        ensures later { D.disk_faults disk.old ≤ D.disk_faults disk.new }
        ensures cause { IfKeepDisk result (λ failed. Rose (D.disk_faults disk.old) (D.disk_faults disk.new)) }
        ensures faults_stay { UnlessKeepDisk result (D.disk_faults disk.new ≡ D.disk_faults disk.old) }
        ensures named { IfKeepDisk result (λ failed.
            (failed.call ≡ Read) ⊎ (failed.call ≡ Write) ⊎ (failed.call ≡ Cut) ⊎ (failed.call ≡ Sync)) }
    {
        self.keep_later(disk, prepared)?;
        if let Err(failed) = self.commit_with_image(disk, image) {
            self.fault = Some(failed);
            return Err(KeepFault::Disk(failed));
        }
        Ok(())
    }

    /// Writes this image into the file that isn't in use, and commits all that is pending, by a mark that names it.
    fn commit_with_image<D: Disk>(&mut self, disk: &mut D, image: &Text) -> Result<(), Failed>
        ensures after { MatchResult result (λ _. self.new ≡ imaged self.old (length image.now)) (λ _. self.new ≡ self.old) }
        ensures any_moment { (kept all : List Change)
            → Keeps (D.tells disk.old) (D.reads disk.old) (D.may_leave disk.old) self.old kept all → IsImageText all image.now
            → LeavesOnly D.moment D.left_since disk.old disk.new (LeavesEither (D.beside disk.old).told kept all) }
        ensures committed { (kept all : List Change)
            → Keeps (D.tells disk.old) (D.reads disk.old) (D.may_leave disk.old) self.old kept all → IsImageText all image.now
            → MatchResult result (λ _. Keeps (D.tells disk.new) (D.reads disk.new) (D.may_leave disk.new) self.new all all)
            (λ _. ReadsForEither (D.tells disk.new) (D.reads disk.new) (D.may_leave disk.new) kept all) }
        ensures elsewhere { LeavesOnly D.moment D.left_since disk.old disk.new
            (LeavesApart (D.may_leave disk.old) (D.beside disk.old).told (log_file self.old.log.number) (image_file (other_image self.old.mark.image))) }
        ensures others { (other : FileId) → other ≢ Mark → other ≢ image_file (other_image self.old.mark.image)
            → D.reads disk.new other ≡ D.reads disk.old other }
        ensures tells { D.tells disk.new ≡ D.tells disk.old }
        ensures beside { D.beside disk.new ≡ D.beside disk.old }
        ensures cause { HasCause (D.disk_faults disk.old) (D.disk_faults disk.new) result }
        ensures named { IfErr result (λ failed.
            (failed.call ≡ Read) ⊎ (failed.call ≡ Write) ⊎ (failed.call ≡ Cut) ⊎ (failed.call ≡ Sync)) }
    {
        let number = unused_image(self.mark.image);
        let bytes = image.bytes();
        write_image(disk, file_of_image(number), bytes)?;
        let size = bytes.len() as u64;
        self.log
            .commit_with_image(disk, &mut self.mark, self.count, number, size)?;
        Ok(())
    }
}

/// A law of each system, for the proofs: what is known of its classes and its codes. Nothing is done.
fn systems_are_known(system: &System)
    ensures known { IsKnown system.now.table }
    ensures codes { AreCodes system.now.table system.now.methods }
{
    let _ = system.classes().count();
    let _ = system.methods();
}

/// The number of the image that isn't in use.
fn unused_image(image: u8) -> u8
    ensures number { result ≡ other_image image }
    ensures within { result ≤ 1 }
{
    if image == 0 { 1 } else { 0 }
}

/// Fills a file with these bytes, which are on the disk then. No other file is touched.
fn write_image<D: Disk>(disk: &mut D, file: FileId, bytes: &[u8]) -> Result<(), Failed>
    ensures filled { IsTrue (D.tells disk.old) → OnOk result (D.reads disk.new file ≡ bytes.now) }
    ensures durable { OnOk result (Only file (D.reads disk.new file) (D.may_leave disk.new)) }
    ensures crash { Follows file Anything (D.may_leave disk.old) (D.may_leave disk.new) }
    ensures any_moment { LeavesOnly D.moment D.left_since disk.old disk.new
        (ComesFrom (D.may_leave disk.old) (D.beside disk.old).told file Anything) }
    ensures others { (other : FileId) → other ≢ file → D.reads disk.new other ≡ D.reads disk.old other }
    ensures tells { D.tells disk.new ≡ D.tells disk.old }
    ensures beside { D.beside disk.new ≡ D.beside disk.old }
    ensures cause { HasCause (D.disk_faults disk.old) (D.disk_faults disk.new) result }
    ensures named { IfErr result (λ failed. (failed.call ≡ Write) ⊎ (failed.call ≡ Cut) ⊎ (failed.call ≡ Sync)) }
{
    disk.cut(file, 0)?;
    disk.write_at(file, 0, bytes)?;
    disk.sync(file)?;
    Ok(())
}

/// What a slice of bytes holds are bytes.
fn are_bytes(bytes: &[u8])
    ensures { All (λ b. b < 256) bytes.now }
{}
