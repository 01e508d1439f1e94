// Parts that others are made of.
ghost use Rattle.std.specs.Prelude.{◌≡◌, ◌&&◌, ℕ, List, option_copied};
ghost use Rattle.s80_image.specs.Format.{Gives, text_where};
ghost use Rattle.s80_image.specs.Parts.{class_text, flag, is_above, is_above_number, is_selector, name_text, place_above, places, side, side_of, source};

use crate::fault::ReadError;
use crate::fields::{byte_to, text, text_bytes, unlawful, word32, word64};
use s80_base::{Side, Text};
use s80_form::{is_class_name, is_name};
use s80_lex::parameters_of;
use std::alloc::Global;
use std::cmp::Ordering;

pub(crate) fn flag(bytes: &[u8]) -> Result<(bool, &[u8]), ReadError>
    ensures { Gives (λ x. (x.0, x.1.now)) result (flag.read bytes.now) }
{
    let (number, rest) = byte_to(1, bytes)?;
    Ok((number == 1, rest))
}

/// Whether a source stands in the kernel's text.
pub(crate) fn source(bytes: &[u8]) -> Result<(bool, &[u8]), ReadError>
    ensures { Gives (λ x. (x.0, x.1.now)) result (source.read bytes.now) }
{
    let (number, rest) = byte_to(1, bytes)?;
    Ok((number == 0, rest))
}

pub(crate) fn side_of(number: u8) -> Side
    ensures { result ≡ side_of number }
{
    match number {
        0 => Side::Instance,
        _ => Side::Class,
    }
}

pub(crate) fn side(bytes: &[u8]) -> Result<(Side, &[u8]), ReadError>
    ensures { Gives (λ x. (x.0, x.1.now)) result (side.read bytes.now) }
{
    let (number, rest) = byte_to(1, bytes)?;
    Ok((side_of(number), rest))
}

/// Whether a name comes behind the last one, if there is one.
pub(crate) fn is_above(last: Option<&Text>, name: &[u8]) -> bool
    ensures { result ≡ is_above (option_copied last.entry) name.now }
{
    match last {
        Some(last) => last.bytes().cmp(&name) == Ordering::Less,
        None => true,
    }
}

pub(crate) fn is_above_number(last: Option<u64>, number: u64) -> bool
    ensures { result ≡ is_above_number last number }
{
    match last {
        Some(last) => last < number,
        None => true,
    }
}

pub(crate) fn is_selector(word: &[u8]) -> bool
    ensures { result ≡ is_selector word.now }
{
    parameters_of(word).is_some()
}

pub(crate) fn class_text(alloc: Global, bytes: &[u8]) -> Result<(Text, &[u8]), ReadError>
    ensures { Gives (λ x. (x.0, x.1.now)) result (class_text.read bytes.now) }
{
    let (name, rest) = text(alloc, bytes)?;
    if !is_class_name(name.bytes()) {
        return Err(unlawful(bytes, name.bytes().len() as u64));
    }
    Ok((name, rest))
}

pub(crate) fn name_text(alloc: Global, bytes: &[u8]) -> Result<(Text, &[u8]), ReadError>
    ensures { Gives (λ x. (x.0, x.1.now)) result (name_text.read bytes.now) }
{
    let (name, rest) = text(alloc, bytes)?;
    if !is_name(name.bytes()) {
        return Err(unlawful(bytes, name.bytes().len() as u64));
    }
    Ok((name, rest))
}

/// A place in the log above the last one.
pub(crate) fn place_above(last: Option<u64>, bytes: &[u8]) -> Result<(u64, &[u8]), ReadError>
    ensures { Gives (λ x. (x.0, x.1.now)) result ((place_above last).read bytes.now) }
{
    let (place, rest) = word64(bytes)?;
    if !is_above_number(last, place) {
        return Err(unlawful(bytes, place));
    }
    Ok((place, rest))
}
