// The image of a system and its history.
ghost use Rattle.std.specs.Prelude.{◌≡◌, ◌<◌, ◌^◌, ◌++◌, [], List, length, None, Some, IfOk, OnOk, option_and_then, unwrap_or};
ghost use Rattle.std.specs.FinMap as map;
ghost use Rattle.s80_class.specs.Classes.{ClassRow, Name};
ghost use Rattle.s80_class.specs.Table.{IsClass, IsNumberOf, IsSuperclass, name_of, row_of};
ghost use Rattle.s80_history.specs.Lists.{MethodName};
ghost use Rattle.s80_apply.specs.System.{IsSystemBy};
ghost use Rattle.s80_image.specs.Classes.{class as class_format, heading};
ghost use Rattle.s80_image.specs.History.{noted, versions};
ghost use Rattle.s80_image.specs.Image.{ImageView, image_bytes};
ghost use Rattle.s80_image.specs.Methods.{method};
ghost use Rattle.s80_image.specs.Spelling.{listed};
ghost use Rattle.s80_snapshot.specs.Pictured.{CodedState, IsCounted, IsPicture, class_view, coded_row, heading_view, versions_view};
ghost use Rattle.s80_snapshot.specs.Put.{HasPutClasses, HasPutVersions, class_put, entries_view, entry_view, method_put};

use s80_apply::System;
use s80_base::{OutOfMemory, Side, Text};
use s80_class::{ClassEntry, ClassTable};
use s80_dict::{MethodDict, MethodEntry};
use s80_history::History;
use s80_image::{
    ClassHeading, ClassVariables, MethodHeading, MethodVersions,
    lists_are_spelled_member_by_member, put_class_heading, put_count, put_head, put_method,
    put_noted, put_versions,
};
use s80_verify::Verified;
use std::alloc::Global;

/// The bytes of the image of a system and its history, behind so many changes.
pub fn encode_system(
    alloc: Global,
    system: &System,
    history: &History,
    count: u64,
) -> Result<Text, OutOfMemory>
    ensures { IfOk result (λ text. (image : ImageView) × IsPicture system.now history.now count image × IsCounted image × (text ≡ image_bytes image)) }
{
    lists_are_spelled_member_by_member();
    let mut out = Vec::new(alloc);
    put_head(&mut out, count)?;
    put_classes(alloc, &mut out, system)?;
    put_change_set(alloc, &mut out, history)?;
    put_all_versions(alloc, &mut out, history)?;
    Ok(Text::from_vec(out))
}

// ---- classes

/// Adds the classes, in byte order of their names.
fn put_classes(alloc: Global, out: &mut Vec<u8>, system: &System) -> Result<(), OutOfMemory>
    ensures { OnOk result (HasPutClasses system.now out.old.items out.new.items) }
{
    let classes = system.classes();
    put_count(out, classes.count())?;
    let names = classes.names_sorted(alloc)?;
    for i in 0..names.count() {
        put_class(alloc, out, system, names.at(i))?;
    }
    Ok(())
}

/// Adds the class of this name, if it is there.
fn put_class(
    alloc: Global,
    out: &mut Vec<u8>,
    system: &System,
    class_name: &Text,
) -> Result<(), OutOfMemory>
    ensures { (state : CodedState) → IsSystemBy coded_row system.now state
        → OnOk result (out.new.items ≡ out.old.items ++ class_put state class_name.now (map.get state.classes class_name.now)) }
{
    match system.find(class_name) {
        Some(number) => put_class_at(alloc, out, system, number),
        None => Ok(()),
    }
}

/// Adds the class of this number, which has dictionaries.
fn put_class_at(
    alloc: Global,
    out: &mut Vec<u8>,
    system: &System,
    number: u32,
) -> Result<(), OutOfMemory>
    requires class { IsClass system.now.table.names number }
    requires dictionaries { number < length system.now.methods.sides }
    ensures { (state : CodedState) (name : Name) (row : ClassRow) → IsSystemBy coded_row system.now state → IsNumberOf system.now.table.names number name
        → map.get state.classes name ≡ Some row → OnOk result (out.new.items ≡ out.old.items ++ (class_format None).spell (class_view state (name, row))) }
{
    lists_are_spelled_member_by_member();
    put_heading(alloc, out, system.classes(), number)?;
    put_methods(alloc, out, system.methods().dict(number, Side::Instance))?;
    put_methods(alloc, out, system.methods().dict(number, Side::Class))
}

/// Adds what an image has of a class beside its methods.
fn put_heading(
    alloc: Global,
    out: &mut Vec<u8>,
    classes: &ClassTable,
    number: u32,
) -> Result<(), OutOfMemory>
    requires { IsClass classes.now.names number }
    ensures { (name : Name) (row : ClassRow) → IsNumberOf classes.now.names number name → map.get classes.now.classes name ≡ Some row
        → OnOk result (out.new.items ≡ out.old.items ++ (heading None).spell (heading_view name row)) }
{
    let heading = heading_of(alloc, classes, classes.at(number))?;
    put_class_heading(out, &heading)
}

fn heading_of(
    alloc: Global,
    classes: &ClassTable,
    entry: &ClassEntry,
) -> Result<ClassHeading, OutOfMemory>
    requires { IsSuperclass classes.now.names entry.now.superclass }
    ensures { IfOk result (λ heading. heading ≡ heading_view entry.now.class_name (row_of classes.now.names entry.now)) }
{
    Ok(ClassHeading {
        name: entry.class_name.copy(alloc)?,
        superclass: superclass_name(alloc, classes, entry.superclass)?,
        kind: entry.kind,
        variables: variables_of(alloc, entry)?,
        category: entry.category.copy(alloc)?,
        comment: entry.comment.copy(alloc)?,
    })
}

/// The name of the superclass of this number, empty where there is none.
fn superclass_name(
    alloc: Global,
    classes: &ClassTable,
    superclass: Option<u32>,
) -> Result<Text, OutOfMemory>
    requires { IsSuperclass classes.now.names superclass }
    ensures { IfOk result (λ name. name ≡ unwrap_or (option_and_then (name_of classes.now.names) superclass) []) }
{
    match superclass {
        Some(number) => classes.at(number).class_name.copy(alloc),
        None => Ok(Text::empty(alloc)),
    }
}

fn variables_of(alloc: Global, entry: &ClassEntry) -> Result<ClassVariables, OutOfMemory>
    ensures { IfOk result (λ variables. variables
        ≡ record { instance = entry.now.inst_vars; class = entry.now.class_vars; pools = entry.now.pools; class_side = entry.now.class_side_vars }) }
{
    Ok(ClassVariables {
        instance: entry.inst_vars.copy(alloc)?,
        class: entry.class_vars.copy(alloc)?,
        pools: entry.pools.copy(alloc)?,
        class_side: entry.class_side_vars.copy(alloc)?,
    })
}

// ---- methods

/// Adds the methods of one side of a class, in byte order of their selectors.
fn put_methods(
    alloc: Global,
    out: &mut Vec<u8>,
    methods: &MethodDict<Verified>,
) -> Result<(), OutOfMemory>
    ensures { OnOk result (out.new.items ≡ out.old.items ++ listed (method None).spell (entries_view methods.now.methods)) }
{
    let selectors = methods.selectors_sorted(alloc)?;
    put_count(out, selectors.count())?;
    for i in 0..selectors.count() {
        put_method_at(alloc, out, methods, selectors.at(i))?;
    }
    Ok(())
}

/// Adds the method of this selector, if it is there.
fn put_method_at(
    alloc: Global,
    out: &mut Vec<u8>,
    methods: &MethodDict<Verified>,
    selector: &Text,
) -> Result<(), OutOfMemory>
    ensures { OnOk result (out.new.items ≡ out.old.items ++ method_put selector.now (map.get methods.now.methods selector.now)) }
{
    match methods.get(selector) {
        Some(entry) => put_entry(alloc, out, selector, entry),
        None => Ok(()),
    }
}

fn put_entry(
    alloc: Global,
    out: &mut Vec<u8>,
    selector: &Text,
    entry: &MethodEntry<Verified>,
) -> Result<(), OutOfMemory>
    ensures { OnOk result (out.new.items ≡ out.old.items ++ (method None).spell (entry_view (selector.now, entry.now))) }
{
    let heading = MethodHeading {
        selector: selector.copy(alloc)?,
        category: entry.category.copy(alloc)?,
        from_kernel: entry.from_kernel,
        position: entry.position,
        length: entry.length,
    };
    put_method(out, &heading, entry.code.code())
}

// ---- the change set and the versions

/// Adds the members of the change set, the oldest first.
fn put_change_set(alloc: Global, out: &mut Vec<u8>, history: &History) -> Result<(), OutOfMemory>
    ensures bytes { OnOk result (out.new.items ≡ out.old.items ++ listed (noted None).spell history.now.members) }
    ensures short { OnOk result (length history.now.members < 2 ^ 32) }
{
    let members = history.members(alloc)?;
    put_count(out, members.len())?;
    for member in &members {
        put_noted(out, member)?;
    }
    Ok(())
}

/// Adds the versions of all methods that have some, in the order of their classes, sides and selectors.
fn put_all_versions(alloc: Global, out: &mut Vec<u8>, history: &History) -> Result<(), OutOfMemory>
    ensures { OnOk result (HasPutVersions history.now out.old.items out.new.items) }
{
    let count = history.key_count();
    put_count(out, count)?;
    let mut i = 0;
    while let Some((class_name, side, selector)) = history.key_at(i) {
        put_versions_of(alloc, out, history, class_name, side, selector)?;
        i += 1;
    }
    Ok(())
}

/// Adds the versions of one method, the oldest first.
fn put_versions_of(
    alloc: Global,
    out: &mut Vec<u8>,
    history: &History,
    class_name: &Text,
    side: Side,
    selector: &Text,
) -> Result<(), OutOfMemory>
    ensures bytes { OnOk result (out.new.items ≡ out.old.items
        ++ (versions None).spell (versions_view history.now (record { class_name = class_name.now; side = side; selector = selector.now }))) }
    ensures short { OnOk result (length (versions_view history.now (record { class_name = class_name.now; side = side; selector = selector.now })).places < 2 ^ 32) }
{
    let mut places = history.version_places(alloc, class_name, side, selector)?;
    places.reverse();
    let versions = MethodVersions {
        class_name: class_name.copy(alloc)?,
        side,
        selector: selector.copy(alloc)?,
        places,
    };
    put_versions(out, &versions)
}
