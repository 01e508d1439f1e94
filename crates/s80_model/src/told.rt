// What is told of all classes.
ghost use Rattle.std.specs.Prelude.{◌≡◌, ◌+◌, ◌++◌, IfOk, option_map};
ghost use Rattle.s80_base.specs.declared.names.Side.{Side};
ghost use Rattle.std.specs.FinMap as map;
ghost use Rattle.s80_base.specs.declared.names.Side.TheVariants.{Instance, Class};
ghost use Rattle.s80_apply.specs.State.{State};
ghost use Rattle.s80_apply.specs.Entries.{AreEntriesOf, state_row};
ghost use Rattle.s80_apply.specs.System.{IsSystemOf};
ghost use Rattle.s80_model.specs.Texts.{classes_text, own_classes, is_own, own_methods, own_methods_in, recovered_text};

use crate::sought::names_text;
use s80_apply::{System, is_kernel_method};
use s80_base::{OutOfMemory, Side, Text};
use s80_class::ClassTable;
use s80_dict::MethodDict;
use s80_kernel::is_kernel_class;
use s80_verify::Verified;
use std::alloc::Global;

/// How much there is: so many changes, and the classes and methods that are not the kernel's.
pub fn recovered_text(alloc: Global, count: u64, system: &System) -> Result<Text, OutOfMemory>
    ensures { (state : State) → IsSystemOf system.now state → IfOk result (λ text. text ≡ recovered_text count state) }
{
    let classes = own_classes(alloc, system.classes())?;
    let methods = own_methods(alloc, system)?;
    let text = format!(in alloc;
        "recovered {count} changes, {classes} classes, {methods} methods\n"
    )?;
    Ok(Text::from_bytes(alloc, text.as_bytes())?)
}

/// How many methods there are that aren't the kernel's in category and source.
fn own_methods(alloc: Global, system: &System) -> Result<usize, OutOfMemory>
    ensures { (state : State) → IsSystemOf system.now state → IfOk result (λ count. count ≡ own_methods state) }
{
    let names = system.classes().names_sorted(alloc)?;
    let mut count: usize = 0;
    for i in 0..names.count() {
        let more = own_methods_of(alloc, system, names.at(i))?;
        count = count.checked_add(more).ok_or(OutOfMemory)?;
    }
    Ok(count)
}

/// How many such methods a class has on both sides.
fn own_methods_of(alloc: Global, system: &System, name: &Text) -> Result<usize, OutOfMemory>
    ensures { (state : State) → IsSystemOf system.now state → IfOk result (λ count. count ≡ own_methods_in name.now Instance (state.methods name.now Instance) + own_methods_in name.now Class (state.methods name.now Class)) }
{
    let Some(number) = system.find(name) else {
        return Ok(0);
    };
    let methods = system.methods();
    let count = own_methods_in(
        alloc,
        name,
        Side::Instance,
        methods.dict(number, Side::Instance),
    )?;
    let more = own_methods_in(alloc, name, Side::Class, methods.dict(number, Side::Class))?;
    Ok(count.checked_add(more).ok_or(OutOfMemory)?)
}

/// How many methods of one side of the class of this name aren't the kernel's.
fn own_methods_in(
    alloc: Global,
    name: &Text,
    side: Side,
    methods: &MethodDict<Verified>,
) -> Result<usize, OutOfMemory>
    ensures { (rows : _) → AreEntriesOf methods.now.methods rows → IfOk result (λ count. count ≡ own_methods_in name.now side rows) }
{
    let selectors = methods.selectors_sorted(alloc)?;
    let mut count = 0;
    for i in 0..selectors.count() {
        if is_own(name, side, methods, selectors.at(i)) {
            count += 1;
        }
    }
    Ok(count)
}

/// Whether the method of a selector isn't the kernel's.
fn is_own(name: &Text, side: Side, methods: &MethodDict<Verified>, selector: &Text) -> bool
    ensures { result ≡ is_own name.now side selector.now (option_map state_row (map.get methods.now.methods selector.now)) }
{
    match methods.get(selector) {
        Some(entry) => !is_kernel_method(name, side, selector, entry),
        None => false,
    }
}

/// How many classes there are beside the kernel's.
fn own_classes(alloc: Global, classes: &ClassTable) -> Result<usize, OutOfMemory>
    ensures { IfOk result (λ count. count ≡ own_classes classes.now.classes) }
{
    let names = classes.names_sorted(alloc)?;
    let mut count = 0;
    for i in 0..names.count() {
        if !is_kernel_class(names.at(i).bytes()) {
            count += 1;
        }
    }
    Ok(count)
}

/// The names of all classes, each in its line.
pub fn classes_text(alloc: Global, classes: &ClassTable) -> Result<Text, OutOfMemory>
    ensures { IfOk result (λ text. text ≡ classes_text classes.now.classes) }
{
    let names = classes.names_sorted(alloc)?;
    names_text(alloc, &names)
}
