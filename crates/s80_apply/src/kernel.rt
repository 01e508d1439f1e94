// The classes and methods before any change.
ghost use Rattle.std.specs.Prelude.{◌≡◌, ◌+◌, ◌≤◌, Ok, true, codes, length, IfOk, OnOk};
ghost use Rattle.std.specs.FinMap as map;
ghost use Rattle.s80_apply.specs.Kernel.{kind_of};
ghost use Rattle.s80_apply.specs.State.{kernel_state, side_of};
ghost use Rattle.s80_apply.specs.Placed.{placed_kernel_state};
ghost use Rattle.s80_apply.specs.System.{HasPlaces, IsSystemOf};
ghost use Rattle.s80_kernel.specs.Text.{kernel_text};
ghost use Rattle.s80_change.specs.Check.{IsCheckOf};
ghost use Rattle.s80_apply.specs.Boot.{HasClassesAlone, IsKernelEntry, IsFoundAbove, TakesMethod, row_held};
ghost use Rattle.s80_apply.specs.Codes.{AreCodes};
ghost use Rattle.s80_apply.specs.Entries.{row_in};
ghost use Rattle.s80_apply.specs.Limits.{IsWithin};

use crate::code::code_of;
use crate::kernel_sources::kernel_sources_fit;
use crate::system::System;
use s80_base::{Names, OutOfMemory, Side, Text};
use s80_class::{ClassEntry, ClassTable, Kind};
use s80_dict::{MethodEntry, MethodTable};
use s80_form::split_names;
use s80_kernel::{
    KernelClass, KernelMethod, class_rows, found_methods_are_those_named,
    kernel_methods_are_of_kernel_classes, kernel_sources_are_plain,
    kernel_sources_stand_in_the_text, kernel_text, method_rows,
};
use s80_verify::Verified;
use std::alloc::Global;

/// A system whose classes and methods are those of the kernel.
pub fn boot(alloc: Global) -> Result<System, OutOfMemory>
    ensures state { IfOk result (λ system. IsSystemOf system kernel_state) }
    ensures places { IfOk result (λ system. HasPlaces system placed_kernel_state) }
{
    let (classes, mut methods) = booted_classes(alloc)?;
    put_kernel_methods(alloc, &classes, &mut methods)?;
    Ok(System {
        classes,
        methods,
        alloc,
    })
}

/// Puts the methods of the kernel into the dictionaries of its classes.
fn put_kernel_methods(
    alloc: Global,
    classes: &ClassTable,
    methods: &mut MethodTable<Verified>,
) -> Result<(), OutOfMemory>
    requires { HasClassesAlone classes.now methods.old }
    ensures count { length methods.new.sides ≡ length methods.old.sides }
    ensures system { OnOk result (IsSystemOf (record { table = classes.now; methods = methods.new }) kernel_state) }
    ensures places { OnOk result (HasPlaces (record { table = classes.now; methods = methods.new }) placed_kernel_state) }
    ensures codes { OnOk result (AreCodes classes.now methods.new) }
{
    kernel_methods_are_of_kernel_classes();
    kernel_sources_stand_in_the_text();
    kernel_sources_are_plain();
    kernel_sources_fit();
    found_methods_are_those_named();
    for method in method_rows() {
        put_kernel_method(alloc, classes, methods, method)?;
    }
    Ok(())
}

/// The classes of the kernel, and for each its dictionaries without methods.
fn booted_classes(alloc: Global) -> Result<(ClassTable, MethodTable<Verified>), OutOfMemory>
    ensures { IfOk result (λ p. HasClassesAlone p.0 p.1) }
{
    let mut classes = ClassTable::empty(alloc);
    let mut methods = MethodTable::empty(alloc);
    for class in class_rows() {
        let entry = kernel_entry(alloc, &classes, class)?;
        classes.reserve(1)?;
        methods.reserve(1)?;
        classes.add(entry);
        methods.add(alloc);
    }
    Ok((classes, methods))
}

/// Puts a method of the kernel into the dictionary of its class and side.
fn put_kernel_method(
    alloc: Global,
    classes: &ClassTable,
    methods: &mut MethodTable<Verified>,
    method: &KernelMethod,
) -> Result<(), OutOfMemory>
    requires there { map.contains_key classes.now.classes method.now.class_name.now ≡ true }
    requires within { IsWithin classes.now.classes }
    requires stands { method.now.position + method.now.length ≤ length kernel_text }
    requires short { method.now.length ≤ 65535 }
    requires fits { IsCheckOf (row_held method.now).source (Ok method.now.selector.now) }
    requires count { length methods.old.sides ≡ length classes.now.names }
    ensures count { length methods.new.sides ≡ length methods.old.sides }
    ensures put { OnOk result (TakesMethod classes.now method.now methods.old methods.new) }
{
    let class_name = Text::from_bytes(alloc, method.class_name.as_bytes())?;
    let selector = Text::from_bytes(alloc, method.selector.as_bytes())?;
    let room = selector.copy(alloc)?;
    let source = source_of(alloc, method)?;
    let side = side_of(method.on_class_side);
    match classes.find(&class_name) {
        Some(number) => {
            let code = code_of(alloc, classes, number, side, &source)?;
            let entry = method_entry(alloc, method, source, code)?;
            methods.make_room(number, side, room)?;
            methods.insert(number, side, &selector, entry);
            Ok(())
        }
        None => Ok(()),
    }
}

/// The source of a method of the kernel.
fn source_of(alloc: Global, method: &KernelMethod) -> Result<Text, OutOfMemory>
    requires { method.now.position + method.now.length ≤ length kernel_text }
    ensures { IfOk result (λ source. source ≡ (row_held method.now).source) }
{
    let text = kernel_text();
    let end = method.position + method.length;
    Text::from_bytes(alloc, &text[method.position as usize..end as usize])
}

/// The entry of a method of the kernel, with its source and the code of that.
fn method_entry(
    alloc: Global,
    method: &KernelMethod,
    source: Text,
    code: Verified,
) -> Result<MethodEntry<Verified>, OutOfMemory>
    requires { source ≡ (row_held method.now).source }
    ensures row { IfOk result (λ entry. row_in entry ≡ row_held method.now) }
    ensures code { IfOk result (λ entry. entry.code ≡ code) }
{
    Ok(MethodEntry {
        category: Text::from_bytes(alloc, b"kernel")?,
        source,
        from_kernel: true,
        position: method.position,
        length: method.length,
        code,
    })
}

fn side_of(on_class_side: bool) -> Side
    ensures { result ≡ side_of on_class_side }
{
    if on_class_side {
        Side::Class
    } else {
        Side::Instance
    }
}

/// The entry of a class whose superclass is in the table.
fn kernel_entry(
    alloc: Global,
    classes: &ClassTable,
    class: &KernelClass,
) -> Result<ClassEntry, OutOfMemory>
    ensures { IfOk result (λ entry. IsKernelEntry classes.now class.now entry) }
{
    Ok(ClassEntry {
        class_name: Text::from_bytes(alloc, class.name.as_bytes())?,
        superclass: superclass_of(alloc, classes, class.superclass)?,
        kind: kind_of(class.kind),
        inst_vars: split_names(alloc, class.inst_vars.as_bytes())?,
        class_vars: Names::empty(alloc),
        pools: Names::empty(alloc),
        category: Text::from_bytes(alloc, b"Kernel")?,
        comment: Text::empty(alloc),
        class_side_vars: Names::empty(alloc),
    })
}

/// The number of a superclass; no name stands for none.
fn superclass_of(
    alloc: Global,
    classes: &ClassTable,
    name: &str,
) -> Result<Option<u32>, OutOfMemory>
    ensures { IfOk result (λ number. IsFoundAbove classes.now name.now number) }
{
    if name.is_empty() {
        return Ok(None);
    }
    let name = Text::from_bytes(alloc, name.as_bytes())?;
    Ok(classes.find(&name))
}

fn kind_of(number: u8) -> Kind
    ensures { result ≡ kind_of number }
{
    match number {
        0 => Kind::Plain,
        1 => Kind::Pointers,
        2 => Kind::Bytes,
        _ => Kind::Words,
    }
}
