// Changes read again: one by its place, the change set, and the versions of a method.
ghost use Rattle.std.specs.Prelude.{◌≡◌, ◌≢◌, ◌↔◌, ◌<◌, ◌≤◌, ◌++◌, ◌∷◌, [], List, length, None, Some, Err, map as list_map, IfOk, IsTrue};
ghost use Rattle.s80_base.specs.Causes.{Rose};
ghost use Rattle.s80_base.specs.declared.outside.Call.TheVariants.{Read};
ghost use Rattle.s80_base.specs.declared.outside.Failed.{Failed};
ghost use Rattle.s80_change.specs.declared.change.Change.{Change};
ghost use Rattle.s80_change.specs.Block.{blocks};
ghost use Rattle.s80_disk.specs.Untouched.{IsUntouched};
ghost use Rattle.s80_history.specs.History.{set_places, version_places};
ghost use Rattle.s80_history.specs.Lists.{set_of, versions_of};
ghost use Rattle.s80_log.specs.Log.{held_in};
ghost use Rattle.s80_keeper.specs.Answers.{IfKeepDisk, UnlessKeepDisk};
ghost use Rattle.s80_keeper.specs.ChangesAt.{AreAddedAt, ArePlaced, AreReadAt, IsPlacedAt, IsReadAt};
ghost use Rattle.s80_keeper.specs.Keeper.{IsSettled, Knows};
ghost use Rattle.s80_keeper.specs.Source.{IsThis, after_reading};

use crate::keep::KeepFault;
use crate::keeper::Keeper;
use crate::start::Damage;
use s80_base::{Side, Text};
use s80_change::{Change, Changes};
use s80_disk::Disk;
use s80_log::BlockFault;
use std::alloc::Global;

impl Keeper {
    /// The change whose block begins at a place of the log, and the place behind the block. It is damaged where no block begins there.
    pub fn block_at<D: Disk>(
        &mut self,
        alloc: Global,
        disk: &mut D,
        at: u64,
    ) -> Result<(Change, u64), KeepFault>
        ensures block { IsTrue (D.tells disk.old) → (before behind : List Change) (change : Change)
            → Knows (D.reads disk.old) self.old (before ++ change ∷ behind) → at ≡ length (blocks before)
            → IsThis (change, length (blocks (before ++ change ∷ []))) result }
        ensures read { IsTrue (D.tells disk.old) → IsReadAt (held_in (D.reads disk.old) self.old.log) at result }
        ensures next { IfOk result (λ found. (at < found.1) × (found.1 ≤ self.old.log.end)) }
        ensures placed { IsPlacedAt at result }
        ensures after { self.new ≡ after_reading result self.old }

        // After a fault of the disk each call answers it, and none is made.
        ensures closed { (failed : Failed) → (result ≡ Err (KeepFault.Closed failed)) ↔ (self.old.fault ≡ Some failed) }
        ensures uncalled { self.old.fault ≢ None → disk.new ≡ disk.old }

        ensures untouched { IsUntouched D.tells D.reads D.may_leave D.moment D.left_since D.beside D.disk_faults disk.old disk.new }
        ensures cause { IfKeepDisk result (λ failed. Rose (D.disk_faults disk.old) (D.disk_faults disk.new)) }
        ensures faults_stay { UnlessKeepDisk result (D.disk_faults disk.new ≡ D.disk_faults disk.old) }
        ensures named { IfKeepDisk result (λ failed. failed.call ≡ Read) }
    {
        if let Some(failed) = self.fault {
            return Err(KeepFault::Closed(failed));
        }
        match self.log.read_block(alloc, disk, at) {
            Ok(found) => Ok(found),
            Err(BlockFault::Memory) => Err(KeepFault::Memory),
            Err(BlockFault::Disk(failed)) => {
                self.fault = Some(failed);
                Err(KeepFault::Disk(failed))
            }
            Err(BlockFault::Bad(place)) => Err(KeepFault::Damaged(Damage::BadBlock(place))),
        }
    }

    /// The change set, the oldest change first. No block is read but those of the set. It is damaged where no block begins at the place of one.
    pub fn set_of<D: Disk>(&mut self, alloc: Global, disk: &mut D) -> Result<Changes, KeepFault>
        requires { IsSettled self.old }
        ensures set { IsTrue (D.tells disk.old) → (changes : List Change) → Knows (D.reads disk.old) self.old changes
            → IsThis (list_map (λ p. p.1) (set_of changes)) result }
        ensures read { IsTrue (D.tells disk.old) → AreReadAt (held_in (D.reads disk.old) self.old.log) (set_places self.old.history) result }
        ensures placed { ArePlaced (set_places self.old.history) result }
        ensures after { self.new ≡ after_reading result self.old }

        // After a fault of the disk each call answers it, and none is made.
        ensures closed { (failed : Failed) → (result ≡ Err (KeepFault.Closed failed)) ↔ (self.old.fault ≡ Some failed) }
        ensures uncalled { self.old.fault ≢ None → disk.new ≡ disk.old }

        ensures untouched { IsUntouched D.tells D.reads D.may_leave D.moment D.left_since D.beside D.disk_faults disk.old disk.new }
        ensures cause { IfKeepDisk result (λ failed. Rose (D.disk_faults disk.old) (D.disk_faults disk.new)) }
        ensures faults_stay { UnlessKeepDisk result (D.disk_faults disk.new ≡ D.disk_faults disk.old) }
        ensures named { IfKeepDisk result (λ failed. failed.call ≡ Read) }
    {
        if let Some(failed) = self.fault {
            return Err(KeepFault::Closed(failed));
        }
        let places = self.history.set_places(alloc)?;
        self.changes_at(alloc, disk, &places)
    }

    /// All versions of the method of a selector on one side of the class of this name, the newest first, whatever was removed since. No block is
    /// read but theirs. It is damaged where no block begins at the place of one.
    pub fn versions_of<D: Disk>(
        &mut self,
        alloc: Global,
        disk: &mut D,
        class_name: &Text,
        side: Side,
        selector: &Text,
    ) -> Result<Changes, KeepFault>
        requires { IsSettled self.old }
        ensures versions { IsTrue (D.tells disk.old) → (changes : List Change) → Knows (D.reads disk.old) self.old changes
            → IsThis (list_map (λ p. p.1) (versions_of changes (record { class_name = class_name.now; side = side; selector = selector.now }))) result }
        ensures read { IsTrue (D.tells disk.old)
            → AreReadAt (held_in (D.reads disk.old) self.old.log) (version_places self.old.history (record { class_name = class_name.now; side = side; selector = selector.now })) result }
        ensures placed { ArePlaced (version_places self.old.history (record { class_name = class_name.now; side = side; selector = selector.now })) result }
        ensures after { self.new ≡ after_reading result self.old }

        // After a fault of the disk each call answers it, and none is made.
        ensures closed { (failed : Failed) → (result ≡ Err (KeepFault.Closed failed)) ↔ (self.old.fault ≡ Some failed) }
        ensures uncalled { self.old.fault ≢ None → disk.new ≡ disk.old }

        ensures untouched { IsUntouched D.tells D.reads D.may_leave D.moment D.left_since D.beside D.disk_faults disk.old disk.new }
        ensures cause { IfKeepDisk result (λ failed. Rose (D.disk_faults disk.old) (D.disk_faults disk.new)) }
        ensures faults_stay { UnlessKeepDisk result (D.disk_faults disk.new ≡ D.disk_faults disk.old) }
        ensures named { IfKeepDisk result (λ failed. failed.call ≡ Read) }
    {
        if let Some(failed) = self.fault {
            return Err(KeepFault::Closed(failed));
        }
        let places = self
            .history
            .version_places(alloc, class_name, side, selector)?;
        self.changes_at(alloc, disk, &places)
    }

    /// The changes whose blocks begin at these places. The disk hasn't failed yet.
    fn changes_at<D: Disk>(
        &mut self,
        alloc: Global,
        disk: &mut D,
        places: &[u64],
    ) -> Result<Changes, KeepFault>
        requires { self.old.fault ≡ None }
        ensures read { IsTrue (D.tells disk.old) → AreReadAt (held_in (D.reads disk.old) self.old.log) places.now result }
        ensures placed { ArePlaced places.now result }
        ensures after { self.new ≡ after_reading result self.old }
        ensures open { (failed : Failed) → result ≢ Err (KeepFault.Closed failed) }
        ensures untouched { IsUntouched D.tells D.reads D.may_leave D.moment D.left_since D.beside D.disk_faults disk.old disk.new }
        ensures cause { IfKeepDisk result (λ failed. Rose (D.disk_faults disk.old) (D.disk_faults disk.new)) }
        ensures faults_stay { UnlessKeepDisk result (D.disk_faults disk.new ≡ D.disk_faults disk.old) }
        ensures named { IfKeepDisk result (λ failed. failed.call ≡ Read) }
    {
        let mut changes = Changes::empty(alloc);
        self.add_changes_at(alloc, disk, places, &mut changes)?;
        Ok(changes)
    }

    /// Adds the changes whose blocks begin at these places. The disk hasn't failed yet.
    pub(crate) fn add_changes_at<D: Disk>(
        &mut self,
        alloc: Global,
        disk: &mut D,
        places: &[u64],
        changes: &mut Changes,
    ) -> Result<(), KeepFault>
        requires { self.old.fault ≡ None }
        ensures read { IsTrue (D.tells disk.old)
            → AreAddedAt (held_in (D.reads disk.old) self.old.log) places.now changes.old changes.new result }
        ensures placed { ArePlaced places.now result }
        ensures after { self.new ≡ after_reading result self.old }
        ensures open { (failed : Failed) → result ≢ Err (KeepFault.Closed failed) }
        ensures untouched { IsUntouched D.tells D.reads D.may_leave D.moment D.left_since D.beside D.disk_faults disk.old disk.new }
        ensures cause { IfKeepDisk result (λ failed. Rose (D.disk_faults disk.old) (D.disk_faults disk.new)) }
        ensures faults_stay { UnlessKeepDisk result (D.disk_faults disk.new ≡ D.disk_faults disk.old) }
        ensures named { IfKeepDisk result (λ failed. failed.call ≡ Read) }
    {
        for place in places {
            let (change, _) = self.block_at(alloc, disk, *place)?;
            changes.push(change)?;
        }
        Ok(())
    }
}
