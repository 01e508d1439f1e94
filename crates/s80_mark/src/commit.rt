// The commit of a mark.
ghost use Rattle.std.specs.Prelude.{◌≡◌, ◌≢◌, ◌⊎◌, ℕ, List, Some, OnOk, IfErr};
ghost use Rattle.s80_base.specs.Causes.{HasCause};
ghost use Rattle.s80_base.specs.declared.outside.Call.TheVariants.{Read, Write, Sync};
ghost use Rattle.s80_disk.specs.declared.disk.FileId.{FileId};
ghost use Rattle.s80_disk.specs.declared.disk.FileId.TheVariants.{Mark};
ghost use Rattle.s80_disk.specs.Image.{Only};
ghost use Rattle.s80_disk.specs.Moments.{Beside, LeavesOnly};
ghost use Rattle.s80_mark.specs.Mark.{format_two, valid_mark};
ghost use Rattle.s80_mark.specs.Commit.{CanCommit, HasEither};

use crate::mark::MarkState;
use crate::slots::Slots;
use crate::write::{close_gate, write_slot};
use s80_base::Failed;
use s80_disk::Disk;

/// Writes the next mark into the slot that isn't valid, and opens its gate at the end.
/// Which slot that is the disk says: `old` stands for its valid mark in the clauses alone.
pub fn commit_mark<D: Disk>(disk: &mut D, old: &MarkState, next: &MarkState) -> Result<(), Failed>
    requires { next.now.format ≡ format_two }
    ensures committed { CanCommit (D.tells disk.old) (D.reads disk.old) (D.may_leave disk.old) old.now next.now
        → OnOk result (valid_mark (D.reads disk.new Mark) ≡ Some next.now) }
    ensures durable { OnOk result (Only Mark (D.reads disk.new Mark) (D.may_leave disk.new)) }

    // A crash at any moment, and one now, leaves the old mark or the next.
    ensures any_moment { LeavesOnly D.moment D.left_since disk.old disk.new
        (HasEither (D.tells disk.old) (D.reads disk.old) (D.may_leave disk.old) (D.beside disk.old).told old.now next.now) }
    ensures left { (c : FileId → List ℕ) → D.may_leave disk.new c
        → HasEither (D.tells disk.old) (D.reads disk.old) (D.may_leave disk.old) (D.beside disk.old).told old.now next.now
        (D.beside disk.new).told c }

    ensures others { (other : FileId) → other ≢ Mark → D.reads disk.new other ≡ D.reads disk.old other }
    ensures tells { D.tells disk.new ≡ D.tells disk.old }
    ensures beside { D.beside disk.new ≡ D.beside disk.old }
    ensures cause { HasCause (D.disk_faults disk.old) (D.disk_faults disk.new) result }
    ensures named { IfErr result (λ e. (e.call ≡ Read) ⊎ (e.call ≡ Write) ⊎ (e.call ≡ Sync)) }
    ensures unwritten { IfErr result (λ e. e.call ≡ Read
        → (file : FileId) → D.reads disk.new file ≡ D.reads disk.old file) }
{
    let slots = Slots::read(disk)?;
    let spare = slots.spare();
    close_gate(disk, spare, slots.is_open(spare))?;
    write_slot(disk, spare, *next)
}
