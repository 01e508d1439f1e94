// The printed form of values.
ghost use Rattle.std.specs.Prelude.{◌≡◌, ◌<◌, ◌+◌, ◌^◌, [], IfOk, IsSome, OnOk, Some, length, option_and_then, slice_get, unwrap_or};
ghost use Rattle.std.specs.Option.{option_map};
ghost use Rattle.s80_class.specs.Table.{IsClass, class_name};
ghost use Rattle.s80_object.specs.Body.{bytes_of, kind_of};
ghost use Rattle.s80_object.specs.Objects.{body_at, items_at, text_of};
ghost use Rattle.s80_prims.specs.Front.{Holds, Writes};
ghost use Rattle.s80_prims.specs.Known.{AreKnown, HasKernel, IsKnown};
ghost use Rattle.s80_prims.specs.Printed.{array_text, begins_with_vowel, bytes_text, class_text, element, plain, printed, whole, with_article};

use crate::classes::is_kind_of;
use crate::front::Front;
use s80_base::{OutOfMemory, Side, Text};
use s80_class::ClassTable;
use s80_object::{BodyKind, Objects, Value};
use std::alloc::Global;

/// The printed form of a value, of which 4,096 bytes are told at most. No more is made than is told.
pub fn print_value(
    alloc: Global,
    classes: &ClassTable,
    objects: &Objects,
    v: Value,
) -> Result<Text, OutOfMemory>
    requires kernel { HasKernel classes.now }
    requires value { IsKnown classes.now objects.now v }
    requires objects { AreKnown classes.now objects.now }
    ensures { IfOk result (λ text. text ≡ printed classes.now objects.now v) }
{
    let mut front = Front::empty(alloc);
    write_whole(alloc, classes, objects, v, &mut front)?;
    front.finish()
}

// A value, and an array by its elements.
fn write_whole(
    alloc: Global,
    classes: &ClassTable,
    objects: &Objects,
    v: Value,
    front: &mut Front,
) -> Result<(), OutOfMemory>
    requires kernel { HasKernel classes.now }
    requires value { IsKnown classes.now objects.now v }
    requires objects { AreKnown classes.now objects.now }
    ensures { OnOk result (Writes front.old front.new (whole classes.now objects.now v)) }
{
    match objects.class_at(v) {
        Some((c, _)) => write_object(alloc, classes, objects, v, c, front),
        None => write_plain(alloc, classes, objects, v, front),
    }
}

// An object of a class, and an array by its elements.
#[tactic(auto, unfolding(s80_kernel::specs::Rows::is_kernel_class))]
fn write_object(
    alloc: Global,
    classes: &ClassTable,
    objects: &Objects,
    v: Value,
    c: u32,
    front: &mut Front,
) -> Result<(), OutOfMemory>
    requires kernel { HasKernel classes.now }
    requires value { IsKnown classes.now objects.now v }
    requires objects { AreKnown classes.now objects.now }
    requires class { IsClass classes.now.names c }
    requires of { Some c ≡ option_map (λ k. k.0) (option_and_then kind_of (body_at objects.now v)) }
    ensures { OnOk result (Writes front.old front.new (whole classes.now objects.now v)) }
{
    if is_kind_of(alloc, classes, c, b"Array")? {
        return write_array(alloc, classes, objects, v, front);
    }
    write_plain(alloc, classes, objects, v, front)
}

// The elements of an object, and none that wouldn't be kept.
fn write_array(
    alloc: Global,
    classes: &ClassTable,
    objects: &Objects,
    v: Value,
    front: &mut Front,
) -> Result<(), OutOfMemory>
    requires kernel { HasKernel classes.now }
    requires objects { AreKnown classes.now objects.now }
    ensures { OnOk result (Writes front.old front.new (array_text classes.now objects.now (unwrap_or (items_at objects.now v) []))) }
{
    front.write(b"(")?;
    let count = item_count(objects, v);
    for i in 0..count {
        if front.is_past() {
            return Ok(());
        }
        let element = item_at(objects, v, i);
        write_element(alloc, classes, objects, element, front)?;
    }
    front.write(b")")
}

// An element, an array among them by its class's name, and the space behind it.
fn write_element(
    alloc: Global,
    classes: &ClassTable,
    objects: &Objects,
    v: Value,
    front: &mut Front,
) -> Result<(), OutOfMemory>
    requires kernel { HasKernel classes.now }
    requires value { IsKnown classes.now objects.now v }
    requires objects { AreKnown classes.now objects.now }
    ensures { OnOk result (Writes front.old front.new (element classes.now objects.now v)) }
{
    write_plain(alloc, classes, objects, v, front)?;
    front.write(b" ")
}

// How many items an object has.
fn item_count(objects: &Objects, v: Value) -> u32
    ensures { result ≡ length (unwrap_or (items_at objects.now v) []) }
{
    objects.size_of(v).unwrap_or(0)
}

// An item of an object, from 0 on.
fn item_at(objects: &Objects, v: Value, i: u32) -> Value
    requires there { i < length (unwrap_or (items_at objects.now v) []) }
    requires room { i + 1 < 2 ^ 32 }
    ensures { slice_get (unwrap_or (items_at objects.now v) []) i ≡ Some result }
{
    objects.item(v, i + 1).unwrap()
}

// A value, and an array by its class's name.
fn write_plain(
    alloc: Global,
    classes: &ClassTable,
    objects: &Objects,
    v: Value,
    front: &mut Front,
) -> Result<(), OutOfMemory>
    requires kernel { HasKernel classes.now }
    requires value { IsKnown classes.now objects.now v }
    requires objects { AreKnown classes.now objects.now }
    ensures { OnOk result (Writes front.old front.new (plain classes.now objects.now v)) }
{
    match v {
        Value::Small(n) => front.write(format!(in alloc; "{n}")?.as_bytes()),
        Value::Character(c) => front.write(&[b'$', c]),
        Value::Nil => front.write(b"nil"),
        Value::True => front.write(b"true"),
        Value::False => front.write(b"false"),
        Value::Symbol(_) => {
            front.write(b"#")?;
            write_text(objects, v, front)
        }
        Value::Number(_) => write_text(objects, v, front),
        Value::ClassRef(c, side) => write_class(classes, c, side, front),
        Value::Object(_) => write_body(alloc, classes, objects, v, front),
        Value::Context => front.write(b"a MethodContext"),
        Value::Transcript => front.write(b"a TextCollector"),
        Value::Smalltalk => front.write(b"a SystemDictionary"),
    }
}

// The text of a symbol or of a number that is kept as its text.
fn write_text(objects: &Objects, v: Value, front: &mut Front) -> Result<(), OutOfMemory>
    ensures { OnOk result (Writes front.old front.new (unwrap_or (text_of objects.now v) [])) }
{
    front.write(objects.text_of(v).unwrap_or(&[]))
}

// A class by its name, a metaclass by that of its class.
fn write_class(
    classes: &ClassTable,
    c: u32,
    side: Side,
    front: &mut Front,
) -> Result<(), OutOfMemory>
    requires { IsClass classes.now.names c }
    ensures { OnOk result (Writes front.old front.new (class_text (class_name classes.now c) side)) }
{
    front.write(classes.at(c).class_name.bytes())?;
    match side {
        Side::Instance => Ok(()),
        Side::Class => front.write(b" class"),
    }
}

// An object, a home or a block.
fn write_body(
    alloc: Global,
    classes: &ClassTable,
    objects: &Objects,
    v: Value,
    front: &mut Front,
) -> Result<(), OutOfMemory>
    requires kernel { HasKernel classes.now }
    requires there { IsSome (body_at objects.now v) }
    requires objects { AreKnown classes.now objects.now }
    ensures { OnOk result (Writes front.old front.new (plain classes.now objects.now v)) }
{
    match objects.class_at(v) {
        Some((c, kind)) => write_made(alloc, classes, objects, v, c, kind, front),
        None => match objects.home_parts(v) {
            Some(_) => front.write(b"a MethodContext"),
            None => front.write(b"a BlockContext"),
        },
    }
}

// An object of a class whose items are of this kind.
fn write_made(
    alloc: Global,
    classes: &ClassTable,
    objects: &Objects,
    v: Value,
    c: u32,
    kind: BodyKind,
    front: &mut Front,
) -> Result<(), OutOfMemory>
    requires kernel { HasKernel classes.now }
    requires class { IsClass classes.now.names c }
    requires of { Some (c, kind) ≡ option_and_then kind_of (body_at objects.now v) }
    ensures { OnOk result (Writes front.old front.new (plain classes.now objects.now v)) }
{
    match kind {
        BodyKind::Pointers => write_with_article(classes, c, front),
        BodyKind::Bytes => write_bytes(alloc, classes, objects, v, c, front),
        BodyKind::Words => write_with_article(classes, c, front),
    }
}

// An object of bytes: a string in quotes, any other by its class's name.
#[tactic(auto, unfolding(s80_kernel::specs::Rows::is_kernel_class))]
fn write_bytes(
    alloc: Global,
    classes: &ClassTable,
    objects: &Objects,
    v: Value,
    c: u32,
    front: &mut Front,
) -> Result<(), OutOfMemory>
    requires kernel { HasKernel classes.now }
    requires class { IsClass classes.now.names c }
    ensures { OnOk result (Writes front.old front.new (bytes_text classes.now c (unwrap_or (option_and_then bytes_of (body_at objects.now v)) []))) }
{
    if is_kind_of(alloc, classes, c, b"String")? {
        return front.write_quoted(objects.bytes_at(v).unwrap_or(&[]));
    }
    write_with_article(classes, c, front)
}

// The name of a class behind `a` or `an`.
fn write_with_article(classes: &ClassTable, c: u32, front: &mut Front) -> Result<(), OutOfMemory>
    requires { IsClass classes.now.names c }
    ensures { OnOk result (Writes front.old front.new (with_article (class_name classes.now c))) }
{
    let name = classes.at(c).class_name.bytes();
    let article = if begins_with_vowel(name) { "an " } else { "a " };
    front.write(article.as_bytes())?;
    front.write(name)
}

fn begins_with_vowel(word: &[u8]) -> bool
    ensures { result ≡ begins_with_vowel word.now }
{
    match word {
        [b'A' | b'E' | b'I' | b'O' | b'U', ..] => true,
        _ => false,
    }
}
