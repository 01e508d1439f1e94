// The methods of an image, put into a system with their sources.
ghost use Rattle.std.specs.Prelude.{◌≡◌, ◌≤◌, ◌↔◌, ◌++◌, ◌∷◌, ℕ, length, map as list_map, IfOk, OnOk, IsTrue, Ok, Some};
ghost use Rattle.std.specs.FinMap as finmap;
ghost use Rattle.s80_base.specs.declared.names.Side.{Side};
ghost use Rattle.s80_chunk.specs.Chunks.{IsChunkText};
ghost use Rattle.s80_dict.specs.Table.{methods_at};
ghost use Rattle.s80_apply.specs.Codes.{AreCodes};
ghost use Rattle.s80_apply.specs.Entries.{Entry};
ghost use Rattle.s80_apply.specs.System.{HasNumber};
ghost use Rattle.s80_image.specs.Classes.{class_of, classes_of};
ghost use Rattle.s80_image.specs.Methods.{code_of, methods_of};
ghost use Rattle.s80_snapshot.specs.Resuming.{FindsSource, MayPut, Puts, Resumed, listed_of, method_change, selector_of};
ghost use Rattle.s80_snapshot.specs.Sources.{imaged_methods, methods_on};

use crate::same_code::same_code;
use crate::working::work;
use s80_apply::{SourcePlace, System};
use s80_base::{OutOfMemory, Side, Text, is_separator};
use s80_change::{Change, Method, Refused, Source, one_check};
use s80_compile::one_code;
use s80_image::{ImageClass, ImageMethod};
use s80_syntax::one_tree;
use std::alloc::Global;

/// A method of an image, with its class and its side.
#[derive(Clone, Copy)]
pub(crate) struct ListedMethod<'a> {
    class_name: &'a Text,
    side: Side,
    method: &'a ImageMethod,
}

/// The methods of classes, in their order.
pub(crate) fn listed_methods<'a>(
    alloc: Global,
    classes: &'a [ImageClass],
) -> Result<Vec<ListedMethod<'a>>, OutOfMemory>
    ensures { IfOk result (λ methods. list_map listed_of methods.items ≡ imaged_methods (classes_of classes.now)) }
{
    let mut methods = Vec::new(alloc);
    for class in classes {
        list_class(class, &mut methods)?;
    }
    Ok(methods)
}

/// Adds the methods of a class, those of instances first.
fn list_class<'a>(
    class: &'a ImageClass,
    methods: &mut Vec<ListedMethod<'a>>,
) -> Result<(), OutOfMemory>
    ensures { OnOk result (list_map listed_of methods.new.items ≡ list_map listed_of methods.old.items
        ++ (methods_on (class_of class.now) Side.Instance (methods_of class.now.instance_methods.items)
        ++ methods_on (class_of class.now) Side.Class (methods_of class.now.class_methods.items))) }
{
    list_side(
        &class.heading.name,
        Side::Instance,
        &class.instance_methods,
        methods,
    )?;
    list_side(
        &class.heading.name,
        Side::Class,
        &class.class_methods,
        methods,
    )
}

fn list_side<'a>(
    class_name: &'a Text,
    side: Side,
    on_side: &'a [ImageMethod],
    methods: &mut Vec<ListedMethod<'a>>,
) -> Result<(), OutOfMemory>
    ensures { OnOk result (list_map listed_of methods.new.items ≡ list_map listed_of methods.old.items
        ++ list_map (λ m. record { class_name = class_name.now; side = side; method = m }) (methods_of on_side.now)) }
{
    for method in on_side {
        methods.push(ListedMethod {
            class_name,
            side,
            method,
        })?;
    }
    Ok(())
}

/// Puts a method with its source, if it is that.
pub(crate) fn resume_method(
    alloc: Global,
    system: &mut System,
    listed: &ListedMethod<'_>,
    text: Text,
) -> Result<bool, OutOfMemory>
    requires { MayPut (listed_of listed.now) system.old }
    ensures { IfOk result (Resumed (listed_of listed.now) text system.old system.new) }
{
    one_tree();
    one_code();
    let Some(source) = fitting_source(alloc, text, &listed.method.heading.selector)? else {
        return Ok(false);
    };
    put(alloc, system, listed, source)?;
    Ok(has_code(system, listed))
}

/// A text as a source, if it is that of a chunk, and a method of this selector that fits.
fn fitting_source(alloc: Global, text: Text, selector: &Text) -> Result<Option<Source>, OutOfMemory>
    ensures { IfOk result (FindsSource selector.now text) }
{
    one_check();
    if text.bytes().len() > 65_535 || !is_chunk_text(text.bytes()) {
        return Ok(None);
    }
    let source = Source::parse(alloc, text)?;
    if has_selector(&source, selector) {
        Ok(Some(source))
    } else {
        Ok(None)
    }
}

fn is_chunk_text(text: &[u8]) -> bool
    ensures { IsTrue result ↔ IsChunkText text.now }
{
    match text.first() {
        Some(byte) => !is_separator(*byte),
        None => false,
    }
}

fn has_selector(source: &Source, selector: &Text) -> bool
    ensures { IsTrue result ↔ (source.now.selector ≡ Ok selector.now) }
{
    match source.tree() {
        Ok(tree) => tree.selector.bytes() == selector.bytes(),
        Err(_) => false,
    }
}

/// Puts a method, whose source stands at the image's place.
fn put(
    alloc: Global,
    system: &mut System,
    listed: &ListedMethod<'_>,
    source: Source,
) -> Result<(), OutOfMemory>
    requires may_put { MayPut (listed_of listed.now) system.old }
    requires selector { source.selector ≡ Ok (selector_of (listed_of listed.now)) }
    ensures { OnOk result (Puts (listed_of listed.now) source.text system.old system.new) }
{
    let change = change_of(alloc, listed, source)?;
    work(alloc, system, &change)?;
    let heading = &listed.method.heading;
    let place = SourcePlace {
        from_kernel: heading.from_kernel,
        position: heading.position,
        length: heading.length,
    };
    system.set_source_place(listed.class_name, listed.side, &heading.selector, place);
    Ok(())
}

fn change_of(
    alloc: Global,
    listed: &ListedMethod<'_>,
    source: Source,
) -> Result<Change, OutOfMemory>
    ensures { IfOk result (λ change. change ≡ method_change (listed_of listed.now) source) }
{
    Ok(Change::Method(Method {
        class_name: listed.class_name.copy(alloc)?,
        side: listed.side,
        category: listed.method.heading.category.copy(alloc)?,
        source,
    }))
}

/// Whether a method that the system has is of the image's code.
fn has_code(system: &System, listed: &ListedMethod<'_>) -> bool
    ensures codes { AreCodes system.now.table system.now.methods }
    ensures same { (number : ℕ) (entry : Entry) → HasNumber system.now (listed_of listed.now).class_name number
        → finmap.get (methods_at system.now.methods number (listed_of listed.now).side) (selector_of (listed_of listed.now)) ≡ Some entry
        → IsTrue result ↔ (code_of entry.code ≡ (listed_of listed.now).method.code) }
{
    let methods = system.methods();
    let Some(number) = system.find(listed.class_name) else {
        return false;
    };
    let selector = &listed.method.heading.selector;
    match methods.dict(number, listed.side).get(selector) {
        Some(entry) => same_code(entry.code.code(), listed.method.code.code()),
        None => false,
    }
}
