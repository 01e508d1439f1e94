// The shortest list of changes that makes a state, and what is filed out.
ghost use Rattle.std.specs.Prelude.{◌≡◌, IfOk};
ghost use Rattle.s80_apply.specs.State.{State};
ghost use Rattle.s80_apply.specs.System.{IsSystemOf};
ghost use Rattle.s80_fileout.specs.Condensed.{canon, filed, filed_on};

use crate::classes::{add_class, add_classes};
use crate::methods::{add_methods, add_methods_in};
use s80_apply::System;
use s80_base::{OutOfMemory, Text};
use s80_change::{Change, Changes};
use s80_form::Form;
use std::alloc::Global;

/// The shortest list of changes that makes the state of a system of the kernel's, and then begins the change set anew
/// (Goldberg, "Smalltalk-80: The Interactive Programming Environment", on condensing changes).
pub fn canon(alloc: Global, system: &System) -> Result<Changes, OutOfMemory>
    ensures { (state : State) → IsSystemOf system.now state → IfOk result (λ changes. changes ≡ canon state) }
{
    let mut changes = filed(alloc, system)?;
    changes.push(Change::Form(Form::NoChanges))?;
    Ok(changes)
}

/// What a file of all classes has: the same without its end, so that the change set of those who file it in goes on.
pub fn filed(alloc: Global, system: &System) -> Result<Changes, OutOfMemory>
    ensures { (state : State) → IsSystemOf system.now state → IfOk result (λ changes. changes ≡ filed state) }
{
    let mut changes = Changes::empty(alloc);
    add_classes(alloc, system, &mut changes)?;
    add_methods(alloc, system, &mut changes)?;
    Ok(changes)
}

/// What a file of one class has: of these changes those that are on the class. There are none where the system hasn't the class.
pub fn filed_on(alloc: Global, system: &System, class_name: &Text) -> Result<Changes, OutOfMemory>
    ensures { (state : State) → IsSystemOf system.now state → IfOk result (λ changes. changes ≡ filed_on class_name.now state) }
{
    let mut changes = Changes::empty(alloc);
    add_class(alloc, system, class_name, &mut changes)?;
    add_methods_in(alloc, system, class_name, &mut changes)?;
    Ok(changes)
}
