// The parts of the folder's list that a second change set is merged with.
ghost use Rattle.std.specs.Prelude.{◌≡◌, ◌≢◌, ◌≤◌, ℕ, List, length, Some, Err, IsTrue};
ghost use Rattle.s80_base.specs.Causes.{Rose};
ghost use Rattle.s80_base.specs.declared.outside.Failed.{Failed};
ghost use Rattle.s80_change.specs.declared.change.Change.{Change};
ghost use Rattle.s80_change.specs.Block.{blocks};
ghost use Rattle.s80_disk.specs.declared.disk.FileId.{FileId};
ghost use Rattle.s80_disk.specs.Moments.{LeavesOnly};
ghost use Rattle.s80_joining.specs.Parts.{base_of};
ghost use Rattle.s80_keeper.specs.Answers.{IfKeepDisk, UnlessKeepDisk};
ghost use Rattle.s80_keeper.specs.Keeper.{Knows};
ghost use Rattle.s80_keeper.specs.Source.{IsThis, after_reading};
ghost use Rattle.s80_session.specs.Putting.{IsAsBefore};

use crate::outside::read_block;
use s80_change::Changes;
use s80_disk::Outside;
use s80_joining::Base;
use s80_keeper::{KeepFault, Keeper};
use std::alloc::Global;

/// The base of the list, read by a keeper block by block. It changes no file, and a crash leaves what it might have left before.
pub(crate) fn read_base<O: Outside>(
    keeper: &mut Keeper,
    alloc: Global,
    outside: &mut O,
) -> Result<Changes, KeepFault>
    ensures base { IsTrue (O.shown outside.old).tells → (changes : List Change) → Knows (O.shown outside.old).files keeper.old changes
        → keeper.old.log.end ≡ length (blocks changes) → IsThis (base_of changes) result }
    ensures unfilled { (length : ℕ) → result ≢ Err (KeepFault.Full length) }
    ensures after { keeper.new ≡ after_reading result keeper.old }
    ensures closed { (failed : Failed) → result ≡ Err (KeepFault.Closed failed) → keeper.old.fault ≡ Some failed }
    ensures images { (c : FileId → List ℕ) → O.may_leave outside.new c → O.may_leave outside.old c }
    ensures any_moment { LeavesOnly O.moment O.left_since outside.old outside.new
        (IsAsBefore (O.may_leave outside.old) (O.shown outside.old).told 0) }
    ensures shown { O.shown outside.new ≡ O.shown outside.old }
    ensures faults { O.faults outside.new ≡ record (O.faults outside.old) { disk = (O.faults outside.new).disk } }
    ensures later { (O.faults outside.old).disk ≤ (O.faults outside.new).disk }
    ensures cause { IfKeepDisk result (λ failed. Rose (O.faults outside.old).disk (O.faults outside.new).disk) }
    ensures faults_stay { UnlessKeepDisk result ((O.faults outside.new).disk ≡ (O.faults outside.old).disk) }
{
    let mut base = Base::none(alloc);
    let mut at = 0;
    while at < keeper.log_length() {
        let (change, next) = read_block(keeper, alloc, outside, at)?;
        base.read(alloc, change)?;
        at = next;
    }
    Ok(base.into_changes())
}
