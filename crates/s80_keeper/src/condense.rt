// Condensing: a list that makes the same state and has the newest versions takes the place of the list (Goldberg, "Smalltalk-80: The Interactive Programming Environment").
ghost use Rattle.std.specs.Prelude.{◌≡◌, ◌≢◌, ◌⊎◌, ◌↔◌, ◌<◌, ◌≤◌, ◌-◌, ◌++◌, List, length, reverse, take, Some, None, Err, IsTrue, IfOk, ⊤};
ghost use Rattle.std.specs.List.{flat_map};
ghost use Rattle.s80_base.specs.Causes.{Rose};
ghost use Rattle.s80_base.specs.declared.outside.Call.TheVariants.{Read, Write, Cut, Sync};
ghost use Rattle.s80_base.specs.declared.outside.Failed.{Failed};
ghost use Rattle.s80_change.specs.declared.change.Change.{Change};
ghost use Rattle.s80_change.specs.Block.{blocks, log_limit, IsList};
ghost use Rattle.s80_disk.specs.declared.disk.FileId.{FileId};
ghost use Rattle.s80_disk.specs.declared.disk.FileId.TheVariants.{Mark};
ghost use Rattle.s80_disk.specs.Moments.{Beside, LeavesOnly};
ghost use Rattle.s80_disk.specs.Untouched.{IsUntouched};
ghost use Rattle.s80_history.specs.History.{version_places};
ghost use Rattle.s80_apply.specs.List.{IsBuilt, state_of};
ghost use Rattle.s80_apply.specs.State.{State};
ghost use Rattle.s80_apply.specs.System.{IsSystemOf};
ghost use Rattle.s80_fileout.specs.Condensed.{canon, category_put, first_category, kept, last_category, newest};
ghost use Rattle.s80_fileout.specs.Order.{all_methods, name_listed, of_listed};
ghost use Rattle.s80_log.specs.Commit.{LeavesBeside};
ghost use Rattle.s80_log.specs.Log.{log_file};
ghost use Rattle.s80_keeper.specs.Answers.{IfKeepDisk, UnlessKeepDisk};
ghost use Rattle.s80_keeper.specs.Condensing.{AfterCondensing, Condensed, FoldsBack, IfFull, IfReplaced, IsAdded, IsMeasured, IsOpen, MakesAgain};
ghost use Rattle.s80_keeper.specs.Keeper.{IsSettled, Keeps, Knows, pending_of};
ghost use Rattle.s80_keeper.specs.Renewing.{ByAnswer, HasWritten, IsElsewhere};
ghost use Rattle.s80_keeper.specs.Source.{IsThis, after_reading};
ghost use Rattle.s80_keeper.specs.Standing.{LeavesEither};

use crate::keep::KeepFault;
use crate::keeper::Keeper;
use s80_base::{OutOfMemory, Text};
use s80_change::{Change, Changes, block_text};
use s80_disk::Disk;
use s80_fileout::{
    ListedMethod, add_classes, add_classifying, all_methods, canon,
    the_list_with_versions_folds_back, the_list_with_versions_is_made_in_order,
    the_shortest_list_folds_back,
};
use s80_form::Form;
use s80_log::LOG_LIMIT;
use std::alloc::Global;

/// The category of the kernel's methods.
const KERNEL: &[u8] = b"kernel";

impl Keeper {
    /// The shortest list that makes the classes and methods that there are.
    pub fn canon_of(&self, alloc: Global) -> Result<Changes, OutOfMemory>
        ensures canon { (state : State) → IsSystemOf self.now.system state → IfOk result (λ changes. changes ≡ canon state) }
        ensures folds { (changes : List Change) → IsSystemOf self.now.system (state_of changes) → IfOk result (MakesAgain changes) }
    {
        the_shortest_list_folds_back();
        canon(alloc, &self.system)
    }

    /// Replaces the list by one that makes the same state, with the newest versions of each method, at most so many of each: writes it into
    /// the other log, which counts alone once that is on the disk. Nothing is written where the new list would be too long for a log.
    pub fn condense<D: Disk>(
        &mut self,
        alloc: Global,
        disk: &mut D,
        keep: u32,
    ) -> Result<(), KeepFault>
        requires settled { IsSettled self.old }
        requires keep { 1 ≤ keep }
        ensures after { AfterCondensing result self.old self.new }
        // The condensed list makes the same state, and has the newest versions of each method.
        ensures folds { (changes : List Change) → IsBuilt changes → FoldsBack changes (kept changes keep) keep }

        // From a disk that stands for a list, a crash at any moment, inside a write too, leaves files that stand for it or for the condensed
        // list; after Ok the disk stands for that.
        ensures any_moment { (changes : List Change)
            → Keeps (D.tells disk.old) (D.reads disk.old) (D.may_leave disk.old) self.old changes changes
            → LeavesOnly D.moment D.left_since disk.old disk.new (LeavesEither (D.beside disk.old).told changes (kept changes keep)) }
        ensures condensed { (changes : List Change)
            → Keeps (D.tells disk.old) (D.reads disk.old) (D.may_leave disk.old) self.old changes changes
            → Condensed result (D.tells disk.new) (D.reads disk.new) (D.may_leave disk.new) self.new changes (kept changes keep) }

        // Whatever a crash may leave: where the disk reads as the keeper knows, no damage is met, and after Ok it reads for the condensed list.
        ensures known { IsTrue (D.tells disk.old) → (changes : List Change) → IsBuilt changes → Knows (D.reads disk.old) self.old changes
            → IfReplaced result (HasWritten (D.tells disk.new) (D.reads disk.new) self.new (kept changes keep)) }

        // After a fault of the disk each call answers it, and none is made.
        ensures closed { (failed : Failed) → (result ≡ Err (KeepFault.Closed failed)) ↔ (self.old.fault ≡ Some failed) }
        ensures uncalled { self.old.fault ≢ None → disk.new ≡ disk.old }
        // A list that is too long for a log isn't written: the disk is read alone.
        ensures full { IfFull result (λ count. (log_limit < count)
            × IsUntouched D.tells D.reads D.may_leave D.moment D.left_since D.beside D.disk_faults disk.old disk.new) }

        // Whatever the disk stands for, but for the mark and the other log a crash at any moment leaves the files of an image that one might
        // have left before, and these files read as before.
        ensures elsewhere { LeavesOnly D.moment D.left_since disk.old disk.new
            (LeavesBeside (D.may_leave disk.old) (D.beside disk.old).told (log_file (1 - self.old.log.number)) (λ c. ⊤)) }
        ensures others { (other : FileId) → other ≢ Mark → other ≢ log_file (1 - self.old.log.number)
            → D.reads disk.new other ≡ D.reads disk.old other }
        ensures tells { D.tells disk.new ≡ D.tells disk.old }
        ensures beside { D.beside disk.new ≡ D.beside disk.old }
        ensures later { D.disk_faults disk.old ≤ D.disk_faults disk.new }
        ensures cause { IfKeepDisk result (λ failed. Rose (D.disk_faults disk.old) (D.disk_faults disk.new)) }
        ensures faults_stay { UnlessKeepDisk result (D.disk_faults disk.new ≡ D.disk_faults disk.old) }
        ensures named { IfKeepDisk result (λ failed.
            (failed.call ≡ Read) ⊎ (failed.call ≡ Write) ⊎ (failed.call ≡ Cut) ⊎ (failed.call ≡ Sync)) }
    {
        the_list_with_versions_folds_back();
        if let Some(failed) = self.fault {
            return Err(KeepFault::Closed(failed));
        }
        let changes = self.condensed(alloc, disk, keep)?;
        check_length(alloc, &changes)?;
        self.replace_by(alloc, disk, &changes)
    }

    /// The list that makes the same state, with the newest versions of each method, at most so many of each. The disk hasn't failed yet.
    fn condensed<D: Disk>(
        &mut self,
        alloc: Global,
        disk: &mut D,
        keep: u32,
    ) -> Result<Changes, KeepFault>
        requires open { self.old.fault ≡ None }
        requires keep { 1 ≤ keep }
        ensures list { IsTrue (D.tells disk.old) → (changes : List Change) → Knows (D.reads disk.old) self.old changes
            → IsThis (kept changes keep) result }
        ensures after { self.new ≡ after_reading result self.old }
        ensures open { IsOpen result }
        ensures untouched { IsUntouched D.tells D.reads D.may_leave D.moment D.left_since D.beside D.disk_faults disk.old disk.new }
        ensures cause { IfKeepDisk result (λ failed. Rose (D.disk_faults disk.old) (D.disk_faults disk.new)) }
        ensures faults_stay { UnlessKeepDisk result (D.disk_faults disk.new ≡ D.disk_faults disk.old) }
        ensures named { IfKeepDisk result (λ failed. failed.call ≡ Read) }
    {
        the_list_with_versions_is_made_in_order();
        let mut changes = Changes::empty(alloc);
        add_classes(alloc, &self.system, &mut changes)?;
        self.add_methods(alloc, disk, keep, &mut changes)?;
        changes.push(Change::Form(Form::NoChanges))?;
        Ok(changes)
    }

    /// Adds the newest versions of each method that there is, at most so many of each, and its category.
    fn add_methods<D: Disk>(
        &mut self,
        alloc: Global,
        disk: &mut D,
        keep: u32,
        changes: &mut Changes,
    ) -> Result<(), KeepFault>
        requires open { self.old.fault ≡ None }
        requires keep { 1 ≤ keep }
        ensures list { IsTrue (D.tells disk.old) → (list : List Change) → Knows (D.reads disk.old) self.old list
            → IsAdded changes.old (flat_map (of_listed keep list) (all_methods (state_of list))) changes.new result }
        ensures after { self.new ≡ after_reading result self.old }
        ensures open { IsOpen result }
        ensures untouched { IsUntouched D.tells D.reads D.may_leave D.moment D.left_since D.beside D.disk_faults disk.old disk.new }
        ensures cause { IfKeepDisk result (λ failed. Rose (D.disk_faults disk.old) (D.disk_faults disk.new)) }
        ensures faults_stay { UnlessKeepDisk result (D.disk_faults disk.new ≡ D.disk_faults disk.old) }
        ensures named { IfKeepDisk result (λ failed. failed.call ≡ Read) }
    {
        let methods = all_methods(alloc, &self.system)?;
        self.add_each(alloc, disk, methods, keep, changes)
    }

    /// The same of these methods.
    fn add_each<D: Disk>(
        &mut self,
        alloc: Global,
        disk: &mut D,
        methods: Vec<ListedMethod>,
        keep: u32,
        changes: &mut Changes,
    ) -> Result<(), KeepFault>
        requires open { self.old.fault ≡ None }
        requires keep { 1 ≤ keep }
        ensures list { IsTrue (D.tells disk.old) → (list : List Change) → Knows (D.reads disk.old) self.old list
            → IsAdded changes.old (flat_map (of_listed keep list) methods.items) changes.new result }
        ensures after { self.new ≡ after_reading result self.old }
        ensures open { IsOpen result }
        ensures untouched { IsUntouched D.tells D.reads D.may_leave D.moment D.left_since D.beside D.disk_faults disk.old disk.new }
        ensures cause { IfKeepDisk result (λ failed. Rose (D.disk_faults disk.old) (D.disk_faults disk.new)) }
        ensures faults_stay { UnlessKeepDisk result (D.disk_faults disk.new ≡ D.disk_faults disk.old) }
        ensures named { IfKeepDisk result (λ failed. failed.call ≡ Read) }
    {
        for listed in methods {
            self.add_method(alloc, disk, listed, keep, changes)?;
        }
        Ok(())
    }

    /// The same of one method. Its category is added where the newest version has another, or the kernel's method, if it was never put.
    fn add_method<D: Disk>(
        &mut self,
        alloc: Global,
        disk: &mut D,
        listed: ListedMethod,
        keep: u32,
        changes: &mut Changes,
    ) -> Result<(), KeepFault>
        requires open { self.old.fault ≡ None }
        requires keep { 1 ≤ keep }
        ensures list { IsTrue (D.tells disk.old) → (list : List Change) → Knows (D.reads disk.old) self.old list
            → IsAdded changes.old (of_listed keep list listed) changes.new result }
        ensures after { self.new ≡ after_reading result self.old }
        ensures open { IsOpen result }
        ensures untouched { IsUntouched D.tells D.reads D.may_leave D.moment D.left_since D.beside D.disk_faults disk.old disk.new }
        ensures cause { IfKeepDisk result (λ failed. Rose (D.disk_faults disk.old) (D.disk_faults disk.new)) }
        ensures faults_stay { UnlessKeepDisk result (D.disk_faults disk.new ≡ D.disk_faults disk.old) }
        ensures named { IfKeepDisk result (λ failed. failed.call ≡ Read) }
    {
        let category = self.add_versions(alloc, disk, &listed, keep, changes)?;
        add_classifying(listed, category.bytes(), changes)?;
        Ok(())
    }

    /// Adds the newest versions of a method, at most so many, the oldest first, and answers the category under which they leave it.
    fn add_versions<D: Disk>(
        &mut self,
        alloc: Global,
        disk: &mut D,
        listed: &ListedMethod,
        keep: u32,
        changes: &mut Changes,
    ) -> Result<Text, KeepFault>
        requires open { self.old.fault ≡ None }
        requires keep { 1 ≤ keep }
        ensures list { IsTrue (D.tells disk.old) → (list : List Change) → Knows (D.reads disk.old) self.old list
            → IsAdded changes.old (newest keep list (name_listed listed.now)) changes.new result }
        ensures category { IsTrue (D.tells disk.old) → (list : List Change) → Knows (D.reads disk.old) self.old list
            → IfOk result (λ category. category ≡ last_category list (name_listed listed.now)) }
        ensures after { self.new ≡ after_reading result self.old }
        ensures open { IsOpen result }
        ensures untouched { IsUntouched D.tells D.reads D.may_leave D.moment D.left_since D.beside D.disk_faults disk.old disk.new }
        ensures cause { IfKeepDisk result (λ failed. Rose (D.disk_faults disk.old) (D.disk_faults disk.new)) }
        ensures faults_stay { UnlessKeepDisk result (D.disk_faults disk.new ≡ D.disk_faults disk.old) }
        ensures named { IfKeepDisk result (λ failed. failed.call ≡ Read) }
    {
        let from = changes.count();
        let places = self.newest_places(alloc, listed, keep)?;
        self.add_changes_at(alloc, disk, &places, changes)?;
        Ok(last_put(alloc, changes, from)?)
    }

    /// The places of the newest versions of a method, at most so many, the oldest first.
    fn newest_places(
        &self,
        alloc: Global,
        listed: &ListedMethod,
        keep: u32,
    ) -> Result<Vec<u64>, OutOfMemory>
        ensures { IfOk result (λ places. places.items ≡ reverse (take keep (version_places self.now.history (name_listed listed.now)))) }
    {
        let method = &listed.method;
        let mut places = self
            .history
            .version_places(alloc, &method.class_name, method.side, &listed.selector)?;
        places.truncate(keep as usize);
        places.reverse();
        Ok(places)
    }

    /// Replaces the list by this one, in the other log.
    fn replace_by<D: Disk>(
        &mut self,
        alloc: Global,
        disk: &mut D,
        changes: &Changes,
    ) -> Result<(), KeepFault>
        requires open { self.old.fault ≡ None }
        requires settled { pending_of self.old ≡ 0 }
        ensures after { AfterCondensing result self.old self.new }
        ensures any_moment { (list : List Change) → Keeps (D.tells disk.old) (D.reads disk.old) (D.may_leave disk.old) self.old list list
            → IsList changes.now → IsBuilt changes.now
            → LeavesOnly D.moment D.left_since disk.old disk.new (LeavesEither (D.beside disk.old).told list changes.now) }
        ensures condensed { (list : List Change) → Keeps (D.tells disk.old) (D.reads disk.old) (D.may_leave disk.old) self.old list list
            → IsList changes.now → IsBuilt changes.now
            → Condensed result (D.tells disk.new) (D.reads disk.new) (D.may_leave disk.new) self.new list changes.now }
        ensures written { IsList changes.now → IsBuilt changes.now
            → ByAnswer result (λ _. HasWritten (D.tells disk.new) (D.reads disk.new) self.new changes.now) ⊤ ⊤ }
        ensures open { IsOpen result }
        ensures elsewhere { IsElsewhere D.tells D.reads D.may_leave D.moment D.left_since D.beside D.disk_faults
            (log_file (1 - self.old.log.number)) disk.old disk.new }
        ensures cause { IfKeepDisk result (λ failed. Rose (D.disk_faults disk.old) (D.disk_faults disk.new)) }
        ensures faults_stay { UnlessKeepDisk result (D.disk_faults disk.new ≡ D.disk_faults disk.old) }
        ensures named { IfKeepDisk result (λ failed.
            (failed.call ≡ Read) ⊎ (failed.call ≡ Write) ⊎ (failed.call ≡ Cut) ⊎ (failed.call ≡ Sync)) }
    {
        match self.renewed(alloc, disk, changes) {
            Ok(next) => {
                *self = next;
                Ok(())
            }
            Err(fault) => {
                self.note(&fault);
                Err(fault)
            }
        }
    }

    /// Remembers a fault of the disk.
    fn note(&mut self, fault: &KeepFault)
        ensures { self.new ≡ after_reading {T = Unit {0}} (Err fault.now) self.old }
    {
        if let KeepFault::Disk(failed) = fault {
            self.fault = Some(*failed);
        }
    }
}

/// The category under which the last of the changes from a place on puts its method; where there is none, that of the kernel's methods.
fn last_put(alloc: Global, changes: &Changes, from: usize) -> Result<Text, OutOfMemory>
    ensures { (before newest : List Change) → changes.now ≡ before ++ reverse newest → from ≡ length before
        → IfOk result (λ category. category ≡ first_category newest) }
{
    if changes.count() <= from {
        return Text::from_bytes(alloc, KERNEL);
    }
    put_category(alloc, changes.at(changes.count() - 1))
}

/// The category under which a change puts a method; that of another change is empty.
fn put_category(alloc: Global, change: &Change) -> Result<Text, OutOfMemory>
    ensures { IfOk result (λ category. category ≡ category_put change.now) }
{
    match change {
        Change::Method(method) => method.category.copy(alloc),
        Change::Form(_) => Ok(Text::empty(alloc)),
        Change::DoIt { text: _ } => Ok(Text::empty(alloc)),
    }
}

/// Whether a list is within the limit of a log.
fn check_length(alloc: Global, changes: &Changes) -> Result<(), KeepFault>
    ensures { IsMeasured changes.now result }
{
    let length = length_of(alloc, changes)?;
    if length > LOG_LIMIT {
        return Err(KeepFault::Full(length));
    }
    Ok(())
}

/// How long the blocks of a list are together. No list that memory holds is longer than a `u64` tells.
fn length_of(alloc: Global, changes: &Changes) -> Result<u64, OutOfMemory>
    ensures { IfOk result (λ count. count ≡ length (blocks changes.now)) }
{
    let mut length: u64 = 0;
    for i in 0..changes.count() {
        let block = block_text(alloc, changes.at(i))?;
        let size = block.bytes().len() as u64;
        length = length.checked_add(size).ok_or(OutOfMemory)?;
    }
    Ok(length)
}
