// The choice of the folder.
ghost use Rattle.std.specs.Prelude.{◌≡◌, ℕ, List};
ghost use Rattle.s80_base.specs.Causes.{HasCause};
ghost use Rattle.s80_disk.specs.declared.disk.FileId.{FileId};
ghost use Rattle.s80_disk.specs.Moments.{LeavesOnly};
ghost use Rattle.s80_session.specs.Putting.{IsAsBefore};

use s80_base::{Failed, Text};
use s80_disk::Outside;

/// Chooses the folder. It changes no file's meaning.
pub(crate) fn attach<O: Outside>(outside: &mut O, folder: &Text) -> Result<(), Failed>
    ensures shown { O.shown outside.new ≡ O.shown outside.old }
    ensures faults { O.faults outside.new ≡ record (O.faults outside.old) { disk = (O.faults outside.new).disk } }
    ensures images { (c : FileId → List ℕ) → O.may_leave outside.new c → O.may_leave outside.old c }
    ensures any_moment { LeavesOnly O.moment O.left_since outside.old outside.new
        (IsAsBefore (O.may_leave outside.old) (O.shown outside.old).told 0) }
    ensures cause { HasCause (O.faults outside.old).disk (O.faults outside.new).disk result }
{
    outside.attach(folder)
}
