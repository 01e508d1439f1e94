// What makes the classes of an image of those of the kernel.
ghost use Rattle.std.specs.Prelude.{◌≡◌, ◌++◌, IfOk, OnOk};
ghost use Rattle.std.specs.FinMap as map;
ghost use Rattle.std.specs.List.{flat_map, list_any};
ghost use Rattle.std.specs.Str.{bytes_eq};
ghost use Rattle.s80_form.specs.declared.form.Form.TheVariants as forms;
ghost use Rattle.s80_change.specs.declared.change.Change.TheVariants as changes_of;
ghost use Rattle.s80_apply.specs.State.{kernel_state};
ghost use Rattle.s80_apply.specs.System.{IsSystemOf};
ghost use Rattle.s80_fileout.specs.Condensed.{class_vars_of, comment_of, defined, definition_of, of_own_class};
ghost use Rattle.s80_fileout.specs.Lawful.{class_part};
ghost use Rattle.s80_fileout.specs.Order.{own_class, own_names};
ghost use Rattle.s80_image.specs.Classes.{class_of, classes_of};
ghost use Rattle.s80_image.specs.Methods.{methods_of};
ghost use Rattle.s80_image.specs.Together.{classes_by_name, row_of, superclass_of};
ghost use Rattle.s80_snapshot.specs.Resuming.{AreOrdered, kernel_class, outline, removal_from, removals_from};

use crate::ranks::{find_class, own_classes};
use s80_apply::{System, boot};
use s80_base::{Names, OutOfMemory, Side, Text};
use s80_change::{Change, Changes};
use s80_fileout::classes_are_made_in_order;
use s80_form::{Definition, Form};
use s80_image::{ClassHeading, ImageClass, ImageMethod};
use s80_kernel::is_kernel_class;
use std::alloc::Global;

/// What makes these classes: those of the kernel get their comments and lose the methods that they haven't, and those of one's own are defined, each behind
/// its superclass.
pub(crate) fn class_changes(alloc: Global, classes: &[ImageClass]) -> Result<Changes, OutOfMemory>
    requires { AreOrdered (classes_of classes.now) }
    ensures { IfOk result (λ changes. changes ≡ class_part (outline (classes_of classes.now))) }
{
    classes_are_made_in_order();
    let mut changes = Changes::empty(alloc);
    add_kernel_classes(alloc, classes, &mut changes)?;
    add_own_classes(alloc, classes, &mut changes)?;
    Ok(changes)
}

/// Adds what makes the classes of the kernel.
fn add_kernel_classes(
    alloc: Global,
    classes: &[ImageClass],
    changes: &mut Changes,
) -> Result<(), OutOfMemory>
    ensures { OnOk result (changes.new ≡ changes.old ++ flat_map kernel_class (classes_of classes.now)) }
{
    let kernel = boot(alloc)?;
    for class in classes {
        add_kernel_class(alloc, &kernel, class, changes)?;
    }
    Ok(())
}

/// Adds what makes a class, if it is one of the kernel's.
fn add_kernel_class(
    alloc: Global,
    kernel: &System,
    class: &ImageClass,
    changes: &mut Changes,
) -> Result<(), OutOfMemory>
    requires { IsSystemOf kernel.now kernel_state }
    ensures { OnOk result (changes.new ≡ changes.old ++ kernel_class (class_of class.now)) }
{
    let name = &class.heading.name;
    if !is_kernel_class(name.bytes()) {
        return Ok(());
    }
    add_comment(alloc, name, &class.heading.comment, changes)?;
    add_removals(
        alloc,
        kernel,
        name,
        Side::Instance,
        &class.instance_methods,
        changes,
    )?;
    add_removals(
        alloc,
        kernel,
        name,
        Side::Class,
        &class.class_methods,
        changes,
    )
}

/// Adds the removal of each method that the kernel has on this side of a class, and the image hasn't.
fn add_removals(
    alloc: Global,
    kernel: &System,
    class_name: &Text,
    side: Side,
    methods: &[ImageMethod],
    changes: &mut Changes,
) -> Result<(), OutOfMemory>
    requires { IsSystemOf kernel.now kernel_state }
    ensures { OnOk result (changes.new ≡ changes.old ++ removals_from class_name.now side (methods_of methods.now)) }
{
    let selectors = selectors_of(alloc, kernel, class_name, side)?;
    for i in 0..selectors.count() {
        add_removal(alloc, class_name, side, selectors.at(i), methods, changes)?;
    }
    Ok(())
}

/// Adds the removal of a method of this selector, unless it is among these.
fn add_removal(
    alloc: Global,
    class_name: &Text,
    side: Side,
    selector: &Text,
    methods: &[ImageMethod],
    changes: &mut Changes,
) -> Result<(), OutOfMemory>
    ensures { OnOk result (changes.new ≡ changes.old ++ removal_from class_name.now side (methods_of methods.now) selector.now) }
{
    if has_selector(methods, selector) {
        return Ok(());
    }
    changes.push(removal(alloc, class_name, side, selector)?)
}

/// Whether a method of this selector is among these.
fn has_selector(methods: &[ImageMethod], selector: &Text) -> bool
    ensures { result ≡ list_any (λ m. bytes_eq m.heading.selector selector.now) methods.now }
{
    methods.iter().any(|method| method.heading.selector.bytes() == selector.bytes())
}

fn removal(
    alloc: Global,
    class_name: &Text,
    side: Side,
    selector: &Text,
) -> Result<Change, OutOfMemory>
    ensures { IfOk result (λ change. change ≡ changes_of.Form (forms.RemoveMethod class_name.now side selector.now)) }
{
    let class_name = class_name.copy(alloc)?;
    let selector = selector.copy(alloc)?;
    Ok(Change::Form(Form::RemoveMethod {
        class_name,
        side,
        selector,
    }))
}

/// The selectors of the kernel's methods on one side of a class, in byte order.
fn selectors_of(
    alloc: Global,
    kernel: &System,
    class_name: &Text,
    side: Side,
) -> Result<Names, OutOfMemory>
    requires { IsSystemOf kernel.now kernel_state }
    ensures { IfOk result (λ names. names ≡ map.keys (kernel_state.methods class_name.now side)) }
{
    match kernel.find(class_name) {
        Some(number) => kernel.methods().dict(number, side).selectors_sorted(alloc),
        None => Ok(Names::empty(alloc)),
    }
}

/// Adds what makes the classes of one's own.
fn add_own_classes(
    alloc: Global,
    classes: &[ImageClass],
    changes: &mut Changes,
) -> Result<(), OutOfMemory>
    requires { AreOrdered (classes_of classes.now) }
    ensures { OnOk result (changes.new ≡ changes.old
        ++ flat_map (own_class (classes_by_name (classes_of classes.now))) (own_names (classes_by_name (classes_of classes.now)))) }
{
    let own = own_classes(alloc, classes)?;
    for class in &own {
        add_class_named(alloc, classes, &class.class_name, changes)?;
    }
    Ok(())
}

/// Adds what makes the class of this name, which is one's own.
fn add_class_named(
    alloc: Global,
    classes: &[ImageClass],
    class_name: &Text,
    changes: &mut Changes,
) -> Result<(), OutOfMemory>
    requires { AreOrdered (classes_of classes.now) }
    ensures { OnOk result (changes.new ≡ changes.old ++ own_class (classes_by_name (classes_of classes.now)) class_name.now) }
{
    let Some(place) = find_class(classes, class_name) else {
        return Ok(());
    };
    add_own_class(alloc, &classes[place].heading, changes)
}

/// Adds what makes a class of one's own.
fn add_own_class(
    alloc: Global,
    heading: &ClassHeading,
    changes: &mut Changes,
) -> Result<(), OutOfMemory>
    ensures { OnOk result (changes.new ≡ changes.old ++ of_own_class heading.now.name (row_of heading.now)) }
{
    add_definition(alloc, heading, changes)?;
    add_comment(alloc, &heading.name, &heading.comment, changes)?;
    add_class_vars(alloc, &heading.name, &heading.variables.class_side, changes)
}

/// Adds the definition of a class, if it has a superclass.
fn add_definition(
    alloc: Global,
    heading: &ClassHeading,
    changes: &mut Changes,
) -> Result<(), OutOfMemory>
    ensures { OnOk result (changes.new ≡ changes.old ++ defined heading.now.name (row_of heading.now) (superclass_of heading.now.superclass)) }
{
    if heading.superclass.bytes().is_empty() {
        return Ok(());
    }
    let definition = definition_of(alloc, heading)?;
    changes.push(Change::Form(Form::Define(definition)))
}

fn definition_of(alloc: Global, heading: &ClassHeading) -> Result<Definition, OutOfMemory>
    ensures { IfOk result (λ definition. definition ≡ definition_of heading.now.name (row_of heading.now) heading.now.superclass) }
{
    Ok(Definition {
        class_name: heading.name.copy(alloc)?,
        superclass: heading.superclass.copy(alloc)?,
        kind: heading.kind,
        inst_vars: heading.variables.instance.copy(alloc)?,
        class_vars: heading.variables.class.copy(alloc)?,
        pools: heading.variables.pools.copy(alloc)?,
        category: heading.category.copy(alloc)?,
    })
}

/// Adds the comment of a class, if it has one.
fn add_comment(
    alloc: Global,
    class_name: &Text,
    comment: &Text,
    changes: &mut Changes,
) -> Result<(), OutOfMemory>
    ensures { OnOk result (changes.new ≡ changes.old ++ comment_of class_name.now comment.now) }
{
    if comment.bytes().is_empty() {
        return Ok(());
    }
    let class_name = class_name.copy(alloc)?;
    let text = comment.copy(alloc)?;
    changes.push(Change::Form(Form::Comment { class_name, text }))
}

/// Adds the class-side variables of a class, if it has some.
fn add_class_vars(
    alloc: Global,
    class_name: &Text,
    names: &Names,
    changes: &mut Changes,
) -> Result<(), OutOfMemory>
    ensures { OnOk result (changes.new ≡ changes.old ++ class_vars_of class_name.now names.now) }
{
    if names.count() == 0 {
        return Ok(());
    }
    let class_name = class_name.copy(alloc)?;
    let names = names.copy(alloc)?;
    changes.push(Change::Form(Form::ClassVars { class_name, names }))
}
