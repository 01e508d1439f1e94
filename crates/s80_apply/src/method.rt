// The place that a method takes.
ghost use Rattle.std.specs.Prelude.{◌≡◌, ◌≤◌, ◌<◌, ◌+◌, ◌^◌, ◌&&◌, None, IfOk, MatchOption, codes, length, slice_range};
ghost use Rattle.std.specs.Str.{bytes_eq};
ghost use Rattle.s80_change.specs.declared.change.Change.TheVariants as changes;
ghost use Rattle.s80_change.specs.Block.{block};
ghost use Rattle.s80_change.specs.Source.{IsTreeOf};
ghost use Rattle.s80_chunk.specs.Chunks.{spell};
ghost use Rattle.s80_kernel.specs.Text.{kernel_text};
ghost use Rattle.s80_apply.specs.Accept.{len_with};
ghost use Rattle.s80_apply.specs.Entries.{row_in, state_row};
ghost use Rattle.s80_apply.specs.Limits.{IsWithin};
ghost use Rattle.s80_apply.specs.Method.{PlacesAt, PlacesIn, row_for};
ghost use Rattle.s80_apply.specs.Placed.{source_offset};
ghost use Rattle.s80_apply.specs.State.{is_kernel_method, on_class_side};

use crate::checks::above;
use crate::code::code_of_tree;
use crate::entry::class_named;
use crate::step::PlacedMethod;
use s80_base::{OutOfMemory, Side, Text};
use s80_change::{Method, SectionHead, head_text};
use s80_chunk::write_chunk;
use s80_class::ClassTable;
use s80_dict::{MethodDict, MethodEntry, MethodTable};
use s80_form::{ManyKind, Refusal, Refused};
use s80_kernel::{
    KernelMethod, find_method, found_methods_are_those_named, kernel_sources_stand_in_the_text,
    kernel_text,
};
use s80_syntax::MethodTree;
use s80_verify::Verified;
use std::alloc::Global;

/// The greatest number of methods on one side of a class.
const METHOD_LIMIT: usize = 16_384;

/// The category of the kernel's methods.
const KERNEL: &[u8] = b"kernel";

/// The place that a method takes, or why it is refused.
pub(crate) fn placed_method(
    alloc: Global,
    classes: &ClassTable,
    methods: &MethodTable<Verified>,
    method: &Method,
) -> Result<PlacedMethod, Refused>
    requires dictionaries { length methods.now.sides ≡ length classes.now.names }
    requires within { IsWithin classes.now.classes }
    ensures { PlacesIn (record { table = classes.now; methods = methods.now }) method.now method.now.source.selector result }
{
    match method.source.tree() {
        Ok(tree) => placed_at(alloc, classes, methods, method, tree),
        Err(refusal) => Err(Refused::Refusal(refusal.copy(alloc)?)),
    }
}

/// The place that a method of this tree takes, or why it is refused.
fn placed_at(
    alloc: Global,
    classes: &ClassTable,
    methods: &MethodTable<Verified>,
    method: &Method,
    tree: &MethodTree,
) -> Result<PlacedMethod, Refused>
    requires dictionaries { length methods.now.sides ≡ length classes.now.names }
    requires within { IsWithin classes.now.classes }
    requires short { length method.now.source.text ≤ 65535 }
    requires tree { IsTreeOf method.now.source tree.now }
    ensures { PlacesAt (record { table = classes.now; methods = methods.now }) method.now tree.now.selector result }
{
    let Some((number, _)) = class_named(classes, &method.class_name) else {
        let name = method.class_name.copy(alloc)?;
        return Err(Refused::Refusal(Refusal::UnknownClass(name)));
    };
    let count = count_with(methods.dict(number, method.side), &tree.selector)?;
    if let Some(refusal) = above(METHOD_LIMIT, ManyKind::Methods, count) {
        return Err(Refused::Refusal(refusal));
    }
    let code = code_of_tree(alloc, classes, number, method.side, tree)?;
    Ok(PlacedMethod {
        number,
        side: method.side,
        selector: tree.selector.copy(alloc)?,
        entry: entry(alloc, method, code)?,
    })
}

/// How many methods there would be with one of this selector.
fn count_with(dict: &MethodDict<Verified>, selector: &Text) -> Result<usize, OutOfMemory>
    ensures { IfOk result (λ count. count ≡ len_with selector.now dict.now.methods) }
{
    match dict.get(selector) {
        Some(_) => Ok(dict.count()),
        None => dict.count().checked_add(1).ok_or(OutOfMemory),
    }
}

/// The entry of a method with its code. The position of its source is counted from the beginning of its block.
fn entry(
    alloc: Global,
    method: &Method,
    code: Verified,
) -> Result<MethodEntry<Verified>, OutOfMemory>
    ensures row { IfOk result (λ entry. row_in entry ≡ row_for method.now) }
    ensures code { IfOk result (λ entry. entry.code ≡ code) }
    ensures near { IfOk result (λ entry. entry.position ≤ length (block (changes.Method method.now))) }
{
    let source = method.source.text();
    Ok(MethodEntry {
        category: method.category.copy(alloc)?,
        source: source.copy(alloc)?,
        from_kernel: false,
        position: source_offset(alloc, method)?,
        length: spelled_length(alloc, source)?,
        code,
    })
}

/// Where the source of a method begins in its block: behind a mark, the head as a chunk, and a line feed.
fn source_offset(alloc: Global, method: &Method) -> Result<u64, OutOfMemory>
    ensures { IfOk result (λ offset. offset ≡ source_offset method.now) }
{
    let head = SectionHead {
        class_name: method.class_name.copy(alloc)?,
        side: method.side,
        category: method.category.copy(alloc)?,
    };
    Ok(spelled_length(alloc, &head_text(alloc, &head)?)? + 3)
}

/// How many bytes a text has with each mark doubled.
fn spelled_length(alloc: Global, text: &Text) -> Result<u64, OutOfMemory>
    ensures length { IfOk result (λ count. count ≡ length (spell text.now)) }
    ensures small { IfOk result (λ count. count < 2 ^ 63) }
{
    Ok(write_chunk(alloc, text)?.bytes().len() as u64 - 1)
}

/// Whether a method is the kernel's own: the kernel has one of this selector on that side of the class, in this category and with this very source.
pub fn is_kernel_method(
    class_name: &Text,
    side: Side,
    selector: &Text,
    entry: &MethodEntry<Verified>,
) -> bool
    ensures { result ≡ is_kernel_method class_name.now side selector.now (state_row entry.now) }
{
    kernel_sources_stand_in_the_text();
    found_methods_are_those_named();
    match find_method(class_name.bytes(), is_class_side(side), selector.bytes()) {
        Some(own) => is_same(entry, own),
        None => false,
    }
}

/// Whether a method has the category of the kernel's methods, and the source of this one.
fn is_same(entry: &MethodEntry<Verified>, own: &KernelMethod) -> bool
    requires { own.now.position + own.now.length ≤ length kernel_text }
    ensures { result ≡ (bytes_eq entry.now.category (codes "kernel")
        && bytes_eq entry.now.source (slice_range kernel_text own.now.position (own.now.position + own.now.length))) }
{
    let text = kernel_text();
    let source = &text[own.position as usize..(own.position + own.length) as usize];
    entry.category.bytes() == KERNEL && entry.source.bytes() == source
}

fn is_class_side(side: Side) -> bool
    ensures { result ≡ on_class_side side }
{
    match side {
        Side::Instance => false,
        Side::Class => true,
    }
}
