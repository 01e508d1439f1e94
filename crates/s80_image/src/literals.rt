// Literals and the entries of literal frames.
ghost use Rattle.std.specs.Prelude.{◌≡◌, ◌≢◌, ◌<◌, ◌≤◌, ℕ, List, length, IfOk};
ghost use Rattle.s80_base.specs.Literal.{LiteralTree, array, literal_of, literals_of, no_literals};
ghost use Rattle.s80_code.specs.Entries.{entry_of};
ghost use Rattle.s80_image.specs.Format.{Gives, Reading};
ghost use Rattle.s80_image.specs.Literals.{elements, entry, entry_behind, is_entry_tag, kept_number, literal_at, literal_behind, number_kind_of, signed};

use crate::fault::ReadError;
use crate::fields::{byte, byte_to, text, unlawful, word32};
use crate::parts::{class_text, name_text, side};
use s80_base::{Literal, Literals, NumberKind, Text};
use s80_code::Entry;
use std::alloc::Global;

/// How deep arrays may stand in one another: each level takes from the stack. Those of a method's source are nested 64 levels deep at most.
const LEVELS: u32 = 1_024;

fn signed(bytes: &[u8]) -> Result<(i32, &[u8]), ReadError>
    ensures { Gives (λ x. (x.0, x.1.now)) result (signed.read bytes.now) }
{
    let (number, rest) = word32(bytes)?;
    Ok((number.cast_signed(), rest))
}

fn number_kind_of(number: u8) -> NumberKind
    ensures { result ≡ number_kind_of number }
{
    match number {
        0 => NumberKind::LargePositive,
        1 => NumberKind::LargeNegative,
        _ => NumberKind::Float,
    }
}

fn kept_number(alloc: Global, bytes: &[u8]) -> Result<(NumberKind, Text, &[u8]), ReadError>
    ensures given { Gives (λ x. ((x.0, x.1), x.2.now)) result (kept_number.read bytes.now) }
    ensures shorter { IfOk result (λ x. length x.2.now ≤ length bytes.now) }
{
    let (number, rest) = byte_to(2, bytes)?;
    let (text, rest) = text(alloc, rest)?;
    Ok((number_kind_of(number), text, rest))
}

fn array_of(items: Literals) -> Literal
    ensures { literal_of result ≡ array (literals_of items) }
{
    Literal::Array(items)
}

/// A literal behind its tag, other than an array.
#[tactic(auto, unfolding(crate::specs::Literals::literal_behind))]
fn plain_literal(alloc: Global, tag: u8, bytes: &[u8]) -> Result<(Literal, &[u8]), ReadError>
    requires { tag ≢ 4 }
    ensures given { (element : List ℕ → Reading LiteralTree) → Gives (λ x. (literal_of x.0, x.1.now)) result (literal_behind element tag bytes.now) }
    ensures shorter { IfOk result (λ x. length x.1.now ≤ length bytes.now) }
{
    match tag {
        0 => {
            let (number, rest) = signed(bytes)?;
            Ok((Literal::Small(number), rest))
        }
        1 => {
            let (character, rest) = byte(bytes)?;
            Ok((Literal::Character(character), rest))
        }
        2 => {
            let (string, rest) = text(alloc, bytes)?;
            Ok((Literal::Str(string), rest))
        }
        3 => {
            let (symbol, rest) = text(alloc, bytes)?;
            Ok((Literal::Symbol(symbol), rest))
        }
        5 => Ok((Literal::True, bytes)),
        6 => Ok((Literal::False, bytes)),
        7 => Ok((Literal::Nil, bytes)),
        _ => {
            let (kind, text, rest) = kept_number(alloc, bytes)?;
            Ok((Literal::Number(kind, text), rest))
        }
    }
}

/// A literal, with its tag before it, and with so many levels left for arrays.
#[cycle(literal)]
fn literal(alloc: Global, levels: u32, bytes: &[u8]) -> Result<(Literal, &[u8]), ReadError>
    ensures given { (most : ℕ) → length bytes.now < most → Gives (λ x. (literal_of x.0, x.1.now)) result (literal_at most bytes.now) }
    ensures shorter { IfOk result (λ x. length x.1.now < length bytes.now) }
{
    let (tag, rest) = byte_to(8, bytes)?;
    literal_behind(alloc, levels, tag, rest)
}

/// A literal behind its tag.
#[cycle(literal)]
fn literal_behind(
    alloc: Global,
    levels: u32,
    tag: u8,
    bytes: &[u8],
) -> Result<(Literal, &[u8]), ReadError>
    ensures given { (most : ℕ) → length bytes.now ≤ most → Gives (λ x. (literal_of x.0, x.1.now)) result (literal_behind (literal_at most) tag bytes.now) }
    ensures shorter { IfOk result (λ x. length x.1.now ≤ length bytes.now) }
{
    if tag != 4 {
        return plain_literal(alloc, tag, bytes);
    }
    if levels == 0 {
        return Err(ReadError::Memory);
    }
    let (count, rest) = word32(bytes)?;
    let (items, rest) = elements(alloc, levels - 1, count, rest)?;
    Ok((array_of(items), rest))
}

/// So many elements of an array.
#[cycle(literal)]
fn elements(
    alloc: Global,
    levels: u32,
    count: u32,
    bytes: &[u8],
) -> Result<(Literals, &[u8]), ReadError>
    ensures given { (most : ℕ) → length bytes.now < most → Gives (λ x. (literals_of x.0, x.1.now)) result (elements (literal_at most) no_literals count bytes.now) }
    ensures shorter { IfOk result (λ x. length x.1.now ≤ length bytes.now) }
{
    let mut items = Literals::empty(alloc);
    let mut rest = bytes;
    for _ in 0..count {
        let (item, after) = literal(alloc, levels, rest)?;
        items.push(item)?;
        rest = after;
    }
    Ok((items, rest))
}

/// An entry of a literal frame, behind its tag.
#[tactic(auto, unfolding(crate::specs::Literals::entry_behind))]
fn entry_behind(alloc: Global, tag: u8, bytes: &[u8]) -> Result<(Entry, &[u8]), ReadError>
    ensures { Gives (λ x. (entry_of x.0, x.1.now)) result (entry_behind tag bytes.now) }
{
    match tag {
        16 => {
            let (class, rest) = class_text(alloc, bytes)?;
            let (name, rest) = name_text(alloc, rest)?;
            Ok((Entry::ClassVar(class, name), rest))
        }
        17 => {
            let (name, rest) = name_text(alloc, bytes)?;
            Ok((Entry::Outer(name), rest))
        }
        18 => {
            let (class, rest) = class_text(alloc, bytes)?;
            let (side, rest) = side(rest)?;
            Ok((Entry::Owner(class, side), rest))
        }
        19 => {
            let (number, rest) = word32(bytes)?;
            Ok((Entry::Extension(number), rest))
        }
        _ => {
            let (literal, rest) = literal_behind(alloc, LEVELS, tag, bytes)?;
            Ok((Entry::Const(literal), rest))
        }
    }
}

fn is_entry_tag(tag: u8) -> bool
    ensures { result ≡ is_entry_tag tag }
{
    tag <= 8 || (16 <= tag && tag <= 19)
}

/// An entry of a literal frame.
#[tactic(auto, unfolding(crate::specs::Literals::entry))]
pub(crate) fn entry(alloc: Global, bytes: &[u8]) -> Result<(Entry, &[u8]), ReadError>
    ensures { Gives (λ x. (entry_of x.0, x.1.now)) result (entry.read bytes.now) }
{
    let (tag, rest) = byte(bytes)?;
    if !is_entry_tag(tag) {
        return Err(unlawful(bytes, u64::from(tag)));
    }
    entry_behind(alloc, tag, rest)
}
