// A system with the classes of an image.
ghost use Rattle.std.specs.Prelude.{IfOk};
ghost use Rattle.s80_image.specs.Classes.{classes_of};
ghost use Rattle.s80_snapshot.specs.Resuming.{AreOrdered, IsBegun};

use crate::class_changes::class_changes;
use crate::working::work_all;
use s80_apply::{System, boot};
use s80_base::OutOfMemory;
use s80_fileout::lawful_classes_are_made;
use s80_image::ImageClass;
use std::alloc::Global;

/// A system with these classes, and those of the kernel's methods at whose places they have some.
pub(crate) fn begun_system(alloc: Global, classes: &[ImageClass]) -> Result<System, OutOfMemory>
    requires { AreOrdered (classes_of classes.now) }
    ensures { IfOk result (IsBegun (classes_of classes.now)) }
{
    lawful_classes_are_made();
    let mut system = boot(alloc)?;
    let changes = class_changes(alloc, classes)?;
    work_all(alloc, &mut system, &changes)?;
    Ok(system)
}
