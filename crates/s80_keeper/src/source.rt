// The sources of methods, read again.
ghost use Rattle.std.specs.Prelude.{◌≡◌, ◌≢◌, ◌↔◌, ◌<◌, List, None, Some, Err, length, option_map, IsTrue, IfOk};
ghost use Rattle.std.specs.FinMap as map;
ghost use Rattle.s80_base.specs.Causes.{Rose};
ghost use Rattle.s80_base.specs.declared.outside.Call.TheVariants.{Read};
ghost use Rattle.s80_base.specs.declared.outside.Failed.{Failed};
ghost use Rattle.s80_change.specs.declared.change.Change.{Change};
ghost use Rattle.s80_class.specs.Classes.{Name};
ghost use Rattle.s80_class.specs.Table.{IsNumberOf};
ghost use Rattle.s80_dict.specs.Table.{methods_at};
ghost use Rattle.s80_disk.specs.Untouched.{IsUntouched};
ghost use Rattle.s80_apply.specs.List.{state_of};
ghost use Rattle.s80_keeper.specs.Answers.{IfKeepDisk, UnlessKeepDisk};
ghost use Rattle.s80_keeper.specs.Keeper.{IsSettled, Knows};
ghost use Rattle.s80_keeper.specs.Source.{IsPlaced, IsReadBy, IsThis, after_reading};

use crate::keep::KeepFault;
use crate::keeper::Keeper;
use crate::source_at::read_source;
use crate::start::Damage;
use s80_apply::sources_stand;
use s80_base::{Side, Text};
use s80_disk::Disk;
use s80_log::BlockFault;
use std::alloc::Global;

impl Keeper {
    /// The source of the method of a selector on one side of the class of this number, as it was accepted; None where there is none.
    /// It is damaged where the bytes that are read are no source.
    pub fn source_of<D: Disk>(
        &mut self,
        alloc: Global,
        disk: &mut D,
        class: u32,
        side: Side,
        selector: &Text,
    ) -> Result<Option<Text>, KeepFault>
        requires class { class < length self.old.system.methods.sides }
        requires settled { IsSettled self.old }
        ensures source { IsTrue (D.tells disk.old) → (changes : List Change) → Knows (D.reads disk.old) self.old changes
            → (name : Name) → IsNumberOf self.old.system.table.names class name
            → IsThis (option_map (λ row. row.source) (map.get ((state_of changes).methods name side) selector.now)) result }
        ensures read { IsTrue (D.tells disk.old)
            → IsReadBy (D.reads disk.old) self.old (map.get (methods_at self.old.system.methods class side) selector.now) result }
        ensures none { IfOk result (λ found. (found ≡ None) ↔ (map.get (methods_at self.old.system.methods class side) selector.now ≡ None)) }
        ensures placed { IsPlaced (map.get (methods_at self.old.system.methods class side) selector.now) result }
        ensures after { self.new ≡ after_reading result self.old }

        // After a fault of the disk each call answers it, and none is made.
        ensures closed { (failed : Failed) → (result ≡ Err (KeepFault.Closed failed)) ↔ (self.old.fault ≡ Some failed) }
        ensures uncalled { self.old.fault ≢ None → disk.new ≡ disk.old }

        ensures untouched { IsUntouched D.tells D.reads D.may_leave D.moment D.left_since D.beside D.disk_faults disk.old disk.new }
        ensures cause { IfKeepDisk result (λ failed. Rose (D.disk_faults disk.old) (D.disk_faults disk.new)) }
        ensures faults_stay { UnlessKeepDisk result (D.disk_faults disk.new ≡ D.disk_faults disk.old) }
        ensures named { IfKeepDisk result (λ failed. failed.call ≡ Read) }
    {
        sources_stand();
        if let Some(failed) = self.fault {
            return Err(KeepFault::Closed(failed));
        }
        let Some(entry) = self.system.methods().dict(class, side).get(selector) else {
            return Ok(None);
        };
        match read_source(alloc, disk, &self.log, entry) {
            Ok(source) => Ok(Some(source)),
            Err(BlockFault::Memory) => Err(KeepFault::Memory),
            Err(BlockFault::Disk(failed)) => {
                self.fault = Some(failed);
                Err(KeepFault::Disk(failed))
            }
            Err(BlockFault::Bad(place)) => Err(KeepFault::Damaged(Damage::BadBlock(place))),
        }
    }
}
