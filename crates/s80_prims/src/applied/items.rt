// The primitives that read and put items.
ghost use Rattle.std.specs.Prelude.{◌≡◌, ◌+◌, Option, length, map, option_and_then, option_copied, pos};
ghost use Rattle.std.specs.Option.{option_map};
ghost use Rattle.s80_object.specs.declared.value.Value.TheVariants.{Character, Small};
ghost use Rattle.s80_prims.specs.Arithmetic.{ranged};
ghost use Rattle.s80_prims.specs.Primitives.{at_place, put_at, put_character_at, puts, readable, readable_bytes};
ghost use Rattle.s80_prims.specs.Rows.{Applies, place_of};

use crate::applied::Applied;
use s80_object::{Objects, Value};

/// The number of items of an object or of a symbol.
pub(crate) fn size(objects: &Objects, r: Value) -> Option<Value>
    ensures { result ≡ option_and_then (λ items. ranged (pos (length items))) (readable objects.now r) }
{
    let count = match r {
        Value::Symbol(_) => objects.text_of(r)?.len(),
        _ => objects.size_of(r).ok()? as usize,
    };
    if count < 1_073_741_824 {
        Some(Value::Small(count as i32))
    } else {
        None
    }
}

/// An item of an object or of a symbol, a byte as a number.
pub(crate) fn item(objects: &Objects, r: Value, place: Value) -> Option<Value>
    ensures { result ≡ option_and_then (λ items. at_place items place) (readable objects.now r) }
{
    match r {
        Value::Symbol(_) => byte_as_number(objects, r, place),
        _ => {
            let i = place_of(place)?;
            objects.item(r, i + 1).ok()
        }
    }
}

/// A byte of an object of bytes or of a symbol, as a character.
pub(crate) fn character_at(objects: &Objects, r: Value, place: Value) -> Option<Value>
    ensures { result ≡ option_map Character (option_and_then (λ items. at_place items place) (readable_bytes objects.now r)) }
{
    let byte = byte_at(objects, r, place)?;
    Some(Value::Character(byte))
}

/// Puts an item, where it fits.
pub(crate) fn put(objects: &mut Objects, r: Value, place: Value, to: Value) -> Applied
    ensures { Applies objects.old objects.new result (λ w. put_at w r place to) }
{
    match place {
        Value::Small(i) if i >= 0 => put_item(objects, r, i as u32, to, to),
        _ => Applied::Fails,
    }
}

/// Puts a byte that is given as a character.
pub(crate) fn put_character(objects: &mut Objects, r: Value, place: Value, to: Value) -> Applied
    ensures { Applies objects.old objects.new result (λ w. put_character_at w r place to) }
{
    if objects.bytes_at(r).is_none() {
        return Applied::Fails;
    }
    match (place, to) {
        (Value::Small(i), Value::Character(c)) if i >= 0 => {
            put_item(objects, r, i as u32, Value::Small(i32::from(c)), to)
        }
        _ => Applied::Fails,
    }
}

fn put_item(objects: &mut Objects, r: Value, i: u32, to: Value, answer: Value) -> Applied
    ensures { Applies objects.old objects.new result (λ w. puts w r i to answer) }
{
    match objects.set_item(r, i, to) {
        Ok(()) => Applied::Done(answer),
        Err(_) => Applied::Fails,
    }
}

fn byte_as_number(objects: &Objects, r: Value, place: Value) -> Option<Value>
    ensures { result ≡ option_map (λ b. Small (pos b)) (option_and_then (λ items. at_place items place) (readable_bytes objects.now r)) }
{
    let byte = byte_at(objects, r, place)?;
    Some(Value::Small(i32::from(byte)))
}

// A byte of an object of bytes or of a symbol.
fn byte_at(objects: &Objects, r: Value, place: Value) -> Option<u8>
    ensures { result ≡ option_and_then (λ items. at_place items place) (readable_bytes objects.now r) }
{
    let i = place_of(place)?;
    let byte = readable_bytes(objects, r)?.get(i as usize)?;
    Some(*byte)
}

// The bytes of an object of bytes or of a symbol.
pub(crate) fn readable_bytes(objects: &Objects, v: Value) -> Option<&[u8]>
    ensures { option_copied result ≡ readable_bytes objects.now v }
{
    match v {
        Value::Symbol(_) => objects.text_of(v),
        _ => objects.bytes_at(v),
    }
}

// The place of a list that a value names.
fn place_of(place: Value) -> Option<u32>
    ensures { result ≡ place_of place }
{
    match place {
        Value::Small(i) if i > 0 => Some(i as u32 - 1),
        _ => None,
    }
}
