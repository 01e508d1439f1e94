// Laws of files that stand for a list, for the crates above.
ghost use Rattle.std.specs.Prelude.{◌≡◌, ◌++◌, List, length};
ghost use Rattle.s80_change.specs.declared.change.Change.{Change};
ghost use Rattle.s80_change.specs.Block.{blocks};
ghost use Rattle.s80_disk.specs.Image.{Image};
ghost use Rattle.s80_keeper.specs.declared.start.Damage.{Damage};
ghost use Rattle.s80_keeper.specs.Keeper.{pending_of, Keeps, KeeperState};
ghost use Rattle.s80_keeper.specs.Standing.{FilesStandFor, StandsFor, ReadsFor};
ghost use Rattle.s80_keeper.specs.Reading.{ListsBegin};
ghost use Rattle.s80_keeper.specs.Start.{IsDamage, IsUndamaged};

use crate::keeper::Keeper;
use s80_apply::{classes_are_named, places_are_of_the_state, sources_stand};
use s80_disk::Disk;
use s80_snapshot::{images_of_lists_are_lawful, sources_of_a_list_are_those_of_its_image};

/// Files stand for one list at most.
pub fn files_stand_for_one_list()
    ensures { (files : Image) (changes other : List Change)
        → FilesStandFor files changes → FilesStandFor files other → changes ≡ other }
{}

/// Files that stand for a list begin with what a front of it makes.
pub(crate) fn lists_begin_with_a_front()
    ensures { ListsBegin }
{
    classes_are_named();
    places_are_of_the_state();
    sources_stand();
    images_of_lists_are_lawful();
    sources_of_a_list_are_those_of_its_image();
}

/// Files with a damage stand for no list.
pub fn damaged_files_stand_for_no_list()
    ensures { (files : Image) (damage : Damage) (changes : List Change)
        → IsDamage files damage → FilesStandFor files changes → ⊥ }
{
    lists_begin_with_a_front();
}

/// Files with which nothing is wrong have no damage.
pub fn undamaged_files_have_no_damage()
    ensures { (files : Image) (keeper : KeeperState) (damage : Damage)
        → IsUndamaged files keeper → IsDamage files damage → ⊥ }
{}

/// Files have one damage at most: the first.
pub fn files_have_one_damage()
    ensures { (files : Image) (one other : Damage) → IsDamage files one → IsDamage files other → one ≡ other }
{}

/// What a disk that stands for a list reads stands for it, and the marked part of its log is on the disk.
pub fn a_disk_that_stands_reads_so<D: Disk>(disk: &D)
    ensures { (changes : List Change)
        → StandsFor (D.tells disk.now) (D.reads disk.now) (D.may_leave disk.now) changes
        → ReadsFor (D.tells disk.now) (D.reads disk.now) (D.may_leave disk.now) changes }
{}

/// What is pending is as long as the blocks of the changes that aren't committed yet.
pub fn pending_blocks_are_counted<D: Disk>(disk: &D, keeper: &Keeper)
    ensures { (kept pending : List Change)
        → Keeps (D.tells disk.now) (D.reads disk.now) (D.may_leave disk.now) keeper.now kept (kept ++ pending)
        → pending_of keeper.now ≡ length (blocks pending) }
{}
