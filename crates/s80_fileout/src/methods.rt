// The methods of a system in their order, and what makes each.
ghost use Rattle.std.specs.Prelude.{◌≡◌, ◌≤◌, ◌+◌, ◌++◌, length, map as list_map, option_map, slice_range, IfOk, OnOk};
ghost use Rattle.std.specs.FinMap as map;
ghost use Rattle.std.specs.List.{flat_map};
ghost use Rattle.std.specs.Option.{IfSome};
ghost use Rattle.std.specs.Str.{bytes_eq};
ghost use Rattle.s80_kernel.specs.Text.{kernel_text};
ghost use Rattle.s80_kernel.specs.Methods.{found_method};
ghost use Rattle.s80_form.specs.declared.form.Form.TheVariants as forms;
ghost use Rattle.s80_change.specs.declared.change.Change.TheVariants as changes_of;
ghost use Rattle.s80_apply.specs.Entries.{state_row};
ghost use Rattle.s80_apply.specs.State.{State, on_class_side};
ghost use Rattle.s80_apply.specs.System.{IsSystemOf};
ghost use Rattle.s80_fileout.specs.Condensed.{classified, for_methods, of_method};
ghost use Rattle.s80_fileout.specs.Order.{IsSound, all_methods, has_source, listed, made_by, methods_in, methods_on};

use s80_apply::System;
use s80_base::{Names, OutOfMemory, Side, Text};
use s80_change::{Change, Changes, Method, Source, one_check};
use s80_dict::MethodEntry;
use s80_form::Form;
use s80_kernel::{
    KernelMethod, find_method, found_methods_are_those_named, kernel_sources_stand_in_the_text,
    kernel_text,
};
use s80_verify::Verified;
use std::alloc::Global;

/// The category of the kernel's methods.
const KERNEL: &[u8] = b"kernel";

/// A method of a system with its selector.
#[derive(Debug, Drop)]
pub struct ListedMethod {
    pub selector: Text,
    pub method: Method,
}

/// Adds what makes the methods.
pub(crate) fn add_methods(
    alloc: Global,
    system: &System,
    changes: &mut Changes,
) -> Result<(), OutOfMemory>
    ensures { (state : State) → IsSystemOf system.now state → OnOk result (changes.new ≡ changes.old ++ for_methods of_method state) }
{
    let methods = all_methods(alloc, system)?;
    add_each(methods, changes)
}

/// Adds what makes the methods of one class.
pub(crate) fn add_methods_in(
    alloc: Global,
    system: &System,
    class_name: &Text,
    changes: &mut Changes,
) -> Result<(), OutOfMemory>
    ensures { (state : State) → IsSystemOf system.now state
        → OnOk result (changes.new ≡ changes.old ++ flat_map made_by (methods_in state class_name.now)) }
{
    let methods = methods_in(alloc, system, class_name)?;
    add_each(methods, changes)
}

/// Adds what makes each of these methods.
fn add_each(methods: Vec<ListedMethod>, changes: &mut Changes) -> Result<(), OutOfMemory>
    ensures { OnOk result (changes.new ≡ changes.old ++ flat_map made_by methods.items) }
{
    for listed in methods {
        add_method(listed, changes)?;
    }
    Ok(())
}

/// Adds what makes a method: where the kernel has its source at its place, no more than its category.
fn add_method(listed: ListedMethod, changes: &mut Changes) -> Result<(), OutOfMemory>
    ensures { OnOk result (changes.new ≡ changes.old ++ made_by listed) }
{
    if has_kernel_source(&listed.method, &listed.selector) {
        add_classifying(listed, KERNEL, changes)
    } else {
        changes.push(Change::Method(listed.method))
    }
}

/// Adds the category of a method, where what stands before leaves it under another.
pub fn add_classifying(
    listed: ListedMethod,
    before: &[u8],
    changes: &mut Changes,
) -> Result<(), OutOfMemory>
    ensures { OnOk result (changes.new ≡ changes.old
        ++ classified listed.method.class_name listed.method.side listed.selector before.now listed.method.category) }
{
    let method = listed.method;
    if method.category.bytes() == before {
        return Ok(());
    }
    changes.push(Change::Form(Form::Classify {
        class_name: method.class_name,
        side: method.side,
        selector: listed.selector,
        category: method.category,
    }))
}

/// Whether the kernel has a method of this selector on that side of the class, with this very source.
fn has_kernel_source(method: &Method, selector: &Text) -> bool
    ensures { result ≡ has_source method.now.source.text (found_method method.now.class_name (on_class_side method.now.side) selector.now) }
{
    kernel_sources_stand_in_the_text();
    found_methods_are_those_named();
    match find_method(
        method.class_name.bytes(),
        is_class_side(method.side),
        selector.bytes(),
    ) {
        Some(own) => is_source_of(method.source.text(), own),
        None => false,
    }
}

/// Whether a source is that of a method of the kernel.
fn is_source_of(source: &Text, own: &KernelMethod) -> bool
    requires { own.now.position + own.now.length ≤ length kernel_text }
    ensures { result ≡ bytes_eq source.now (slice_range kernel_text own.now.position (own.now.position + own.now.length)) }
{
    let text = kernel_text();
    source.bytes() == &text[own.position as usize..(own.position + own.length) as usize]
}

fn is_class_side(side: Side) -> bool
    ensures { result ≡ on_class_side side }
{
    match side {
        Side::Instance => false,
        Side::Class => true,
    }
}

/// The methods of all classes in byte order of their names, those of instances first; on each side by their categories,
/// and within these by their selectors.
pub fn all_methods(alloc: Global, system: &System) -> Result<Vec<ListedMethod>, OutOfMemory>
    ensures { (state : State) → IsSystemOf system.now state → IfOk result (λ methods. methods.items ≡ all_methods state) }
{
    let names = system.classes().names_sorted(alloc)?;
    let mut methods = Vec::new(alloc);
    for i in 0..names.count() {
        let mut more = methods_in(alloc, system, names.at(i))?;
        methods.append(&mut more)?;
    }
    Ok(methods)
}

/// The methods of one class, those of instances first.
fn methods_in(
    alloc: Global,
    system: &System,
    class_name: &Text,
) -> Result<Vec<ListedMethod>, OutOfMemory>
    ensures { (state : State) → IsSystemOf system.now state → IfOk result (λ methods. methods.items ≡ methods_in state class_name.now) }
{
    let mut methods = methods_by_category(alloc, system, class_name, Side::Instance)?;
    let mut more = methods_by_category(alloc, system, class_name, Side::Class)?;
    methods.append(&mut more)?;
    Ok(methods)
}

/// The methods on one side of a class by their categories, and within these by their selectors.
fn methods_by_category(
    alloc: Global,
    system: &System,
    class_name: &Text,
    side: Side,
) -> Result<Vec<ListedMethod>, OutOfMemory>
    ensures { (state : State) → IsSystemOf system.now state → IfOk result (λ methods. methods.items ≡ methods_on state class_name.now side) }
{
    let mut methods = methods_by_selector(alloc, system, class_name, side)?;
    methods.sort_by(|one, other| {
        one.method
            .category
            .bytes()
            .cmp(other.method.category.bytes())
    })?;
    Ok(methods)
}

/// The methods on one side of a class by their selectors.
fn methods_by_selector(
    alloc: Global,
    system: &System,
    class_name: &Text,
    side: Side,
) -> Result<Vec<ListedMethod>, OutOfMemory>
    ensures { (state : State) → IsSystemOf system.now state
        → IfOk result (λ methods. methods.items ≡ list_map (listed class_name.now side) (map.entries (state.methods class_name.now side))) }
{
    let selectors = selectors_of(alloc, system, class_name, side)?;
    let mut methods = Vec::new(alloc);
    for i in 0..selectors.count() {
        let selector = selectors.at(i);
        if let Some(entry) = method_of(system, class_name, side, selector) {
            methods.push(listed(alloc, class_name, side, selector, entry)?)?;
        }
    }
    Ok(methods)
}

fn listed(
    alloc: Global,
    class_name: &Text,
    side: Side,
    selector: &Text,
    entry: &MethodEntry<Verified>,
) -> Result<ListedMethod, OutOfMemory>
    requires { IsSound selector.now entry.now }
    ensures { IfOk result (λ method. method ≡ listed class_name.now side (selector.now, state_row entry.now)) }
{
    one_check();
    let method = Method {
        class_name: class_name.copy(alloc)?,
        side,
        category: entry.category.copy(alloc)?,
        source: Source::parse(alloc, entry.source.copy(alloc)?)?,
    };
    let selector = selector.copy(alloc)?;
    Ok(ListedMethod { selector, method })
}

/// The selectors of the methods on one side of a class, in byte order.
pub(crate) fn selectors_of(
    alloc: Global,
    system: &System,
    class_name: &Text,
    side: Side,
) -> Result<Names, OutOfMemory>
    ensures { (state : State) → IsSystemOf system.now state → IfOk result (λ names. names ≡ map.keys (state.methods class_name.now side)) }
{
    match system.find(class_name) {
        Some(number) => system.methods().dict(number, side).selectors_sorted(alloc),
        None => Ok(Names::empty(alloc)),
    }
}

/// The method of a selector on one side of a class.
pub(crate) fn method_of<'a>(
    system: &'a System,
    class_name: &Text,
    side: Side,
    selector: &Text,
) -> Option<&'a MethodEntry<Verified>>
    ensures row { (state : State) → IsSystemOf system.now state
        → option_map (λ entry. state_row entry.now) result ≡ map.get (state.methods class_name.now side) selector.now }
    ensures sound { IfSome result (λ entry. IsSound selector.now entry.now) }
{
    match system.find(class_name) {
        Some(number) => system.methods().dict(number, side).get(selector),
        None => None,
    }
}
