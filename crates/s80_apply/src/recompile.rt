// Methods whose classes change, compiled again.
ghost use Rattle.std.specs.Prelude.{◌≡◌, ℕ, List, Ok, length, IfOk, OnOk};
ghost use Rattle.std.specs.FinMap as map;
ghost use Rattle.s80_dict.specs.Table.{methods_at};
ghost use Rattle.s80_class.specs.Classes.{IsValid};
ghost use Rattle.s80_class.specs.Table.{IsAbove, IsClass, IsNumberOf};
ghost use Rattle.s80_change.specs.Check.{IsCheckOf};
ghost use Rattle.s80_apply.specs.Codes.{HasCode, HaveSources, IsSource};
ghost use Rattle.s80_apply.specs.Entries.{row_in};
ghost use Rattle.s80_apply.specs.Limits.{IsWithin};
ghost use Rattle.s80_apply.specs.System.{Adds, AreRecompiled, CanPut, with_entry};

use crate::code::code_of;
use crate::step::{Placed, PlacedMethod};
use s80_base::{Names, OutOfMemory, Side};
use s80_class::{ClassEntry, ClassTable};
use s80_dict::{MethodEntry, MethodTable};
use s80_verify::Verified;
use std::alloc::Global;

/// The entry that a class gets in place of its own, with the methods that are compiled again for it. The classes stay.
pub(crate) fn placed_again(
    alloc: Global,
    classes: &mut ClassTable,
    methods: &MethodTable<Verified>,
    number: u32,
    entry: ClassEntry,
) -> Result<Placed, OutOfMemory>
    requires class { IsNumberOf classes.old.names number entry.class_name }
    requires superclass { IsAbove classes.old entry.superclass entry.class_name }
    requires within { IsWithin (with_entry classes.old entry) }
    requires valid { IsValid classes.old.classes }
    requires dictionaries { length methods.now.sides ≡ length classes.old.names }
    requires sources { HaveSources methods.now }
    ensures same { classes.new ≡ classes.old }
    ensures classes { IfOk result (λ placed. with_entry classes.old placed.entry ≡ with_entry classes.old entry) }
    ensures can_put { IfOk result (CanPut (record { table = classes.old; methods = methods.now })) }
{
    let old = classes.replace(number, entry);
    let recompiled = recompiled_family(alloc, classes, methods, number);
    let entry = classes.replace(number, old);
    Ok(Placed {
        number: Some(number),
        entry,
        recompiled: recompiled?,
    })
}

/// The methods of a class and of its descendants, with their code for the classes as they are. No method of another class is looked at.
fn recompiled_family(
    alloc: Global,
    classes: &ClassTable,
    methods: &MethodTable<Verified>,
    number: u32,
) -> Result<Vec<PlacedMethod>, OutOfMemory>
    requires class { IsClass classes.now.names number }
    requires within { IsWithin classes.now.classes }
    requires dictionaries { length methods.now.sides ≡ length classes.now.names }
    requires sources { HaveSources methods.now }
    ensures { (name : List ℕ) → IsNumberOf classes.now.names number name
        → IfOk result (λ recompiled. AreRecompiled (record { table = classes.now; methods = methods.now }) classes.now.classes name recompiled.items) }
{
    let mut recompiled = Vec::new(alloc);
    let family = classes.family(alloc, number)?;
    for class in &family {
        recompile_side(
            alloc,
            classes,
            methods,
            *class,
            Side::Instance,
            &mut recompiled,
        )?;
        recompile_side(
            alloc,
            classes,
            methods,
            *class,
            Side::Class,
            &mut recompiled,
        )?;
    }
    Ok(recompiled)
}

/// Puts the methods of a side of a class, with their code for the classes as they are, behind others.
fn recompile_side(
    alloc: Global,
    classes: &ClassTable,
    methods: &MethodTable<Verified>,
    class: u32,
    side: Side,
    recompiled: &mut Vec<PlacedMethod>,
) -> Result<(), OutOfMemory>
    requires class { IsClass classes.now.names class }
    requires within { IsWithin classes.now.classes }
    requires dictionaries { length methods.now.sides ≡ length classes.now.names }
    requires sources { HaveSources methods.now }
    ensures { OnOk result (Adds (record { table = classes.now; methods = methods.now }) class side recompiled.old.items recompiled.new.items) }
{
    let selectors = methods.dict(class, side).selectors_sorted(alloc)?;
    recompile_named(alloc, classes, methods, class, side, &selectors, recompiled)
}

/// The same, one selector after the other.
fn recompile_named(
    alloc: Global,
    classes: &ClassTable,
    methods: &MethodTable<Verified>,
    class: u32,
    side: Side,
    selectors: &Names,
    recompiled: &mut Vec<PlacedMethod>,
) -> Result<(), OutOfMemory>
    requires class { IsClass classes.now.names class }
    requires within { IsWithin classes.now.classes }
    requires dictionaries { length methods.now.sides ≡ length classes.now.names }
    requires sources { HaveSources methods.now }
    requires selectors { selectors.now ≡ map.keys (methods_at methods.now class side) }
    ensures { OnOk result (Adds (record { table = classes.now; methods = methods.now }) class side recompiled.old.items recompiled.new.items) }
{
    let dict = methods.dict(class, side);
    for i in 0..selectors.count() {
        let selector = selectors.at(i);
        if let Some(entry) = dict.get(selector) {
            recompiled.push(PlacedMethod {
                number: class,
                side,
                selector: selector.copy(alloc)?,
                entry: recompiled_entry(alloc, classes, class, side, entry)?,
            })?;
        }
    }
    Ok(())
}

/// A method with its code for the classes as they are.
fn recompiled_entry(
    alloc: Global,
    classes: &ClassTable,
    class: u32,
    side: Side,
    entry: &MethodEntry<Verified>,
) -> Result<MethodEntry<Verified>, OutOfMemory>
    requires class { IsClass classes.now.names class }
    requires within { IsWithin classes.now.classes }
    requires source { IsSource entry.now }
    ensures row { IfOk result (λ again. row_in again ≡ row_in entry.now) }
    ensures code { (name selector : List ℕ) → IsNumberOf classes.now.names class name → IsCheckOf entry.now.source (Ok selector)
        → IfOk result (HasCode classes.now.classes name side selector) }
{
    Ok(MethodEntry {
        category: entry.category.copy(alloc)?,
        source: entry.source.copy(alloc)?,
        from_kernel: entry.from_kernel,
        position: entry.position,
        length: entry.length,
        code: code_of(alloc, classes, class, side, &entry.source)?,
    })
}
