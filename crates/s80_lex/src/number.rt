// Numbers: whether the radix and the digits are right, and what a number means.
ghost use Rattle.std.specs.Prelude.{◌≡◌, ◌-◌, ◌^◌, ◌<◌, ◌≤◌, ◌==◌, ◌↔◌, IfOk, IsTrue, length, min};
ghost use Rattle.std.specs.List.{position_or_len};
ghost use Rattle.std.specs.Char.{digit_value};
ghost use Rattle.std.specs.Str.Parse.{digits_value};
ghost use Rattle.s80_base.specs.Literal.{literal_of, number};
ghost use Rattle.s80_lex.specs.Front.{are_below};
ghost use Rattle.s80_lex.specs.Number.{before, behind, radix_of, digits_of, whole_value, number_literal, is_whole, IsLawfulNumber, signed};

use s80_base::{Literal, NumberKind, OutOfMemory, Text};
use std::alloc::Global;

/// The first number above the small integers.
const LARGE: u64 = 1 << 30;

/// Where a mark first stands, or the length where it doesn't.
fn place_of(bytes: &[u8], mark: u8) -> usize
    ensures same { result ≡ position_or_len (λ b. b == mark) bytes.now }
    ensures within { result ≤ length bytes.now }
{
    bytes.iter().take_while(|byte| **byte != mark).count()
}

/// What stands before a mark, all where there is none.
fn before(bytes: &[u8], mark: u8) -> &[u8]
    ensures { result.now ≡ before mark bytes.now }
{
    &bytes[..place_of(bytes, mark)]
}

/// What stands behind a mark, nothing where there is none.
fn behind(bytes: &[u8], mark: u8) -> &[u8]
    ensures { result.now ≡ behind mark bytes.now }
{
    let place = place_of(bytes, mark);
    if place < bytes.len() {
        &bytes[place + 1..]
    } else {
        &[]
    }
}

/// The value of a digit or letter, 36 for any other byte.
fn digit_value(byte: u8) -> u64
    ensures { result ≡ digit_value byte }
{
    u64::from(char::from(byte).to_digit(36).unwrap_or(36))
}

/// What digits write in a radix, or the largest number where it is larger.
fn digits_value(bytes: &[u8], radix: u64) -> u64
    requires { 0 < radix }
    ensures { result ≡ min (digits_value radix bytes.now) (2 ^ 64 - 1) }
{
    let mut value: u64 = 0;
    for byte in bytes {
        value = value
            .saturating_mul(radix)
            .saturating_add(digit_value(*byte));
    }
    value
}

/// The radix of a number, or the largest number where it is larger.
fn radix_of(bytes: &[u8]) -> u64
    ensures { result ≡ min (radix_of bytes.now) (2 ^ 64 - 1) }
{
    if bytes.contains(&b'r') {
        digits_value(before(bytes, b'r'), 10)
    } else {
        10
    }
}

/// The digits of a number in its radix, with the period of a fraction.
fn digits_of(bytes: &[u8]) -> &[u8]
    ensures { result.now ≡ digits_of bytes.now }
{
    let digits = before(bytes, b'e');
    if bytes.contains(&b'r') {
        behind(digits, b'r')
    } else {
        digits
    }
}

/// Whether a number has a radix from 2 to 36, and each digit is below it.
pub(crate) fn is_lawful(bytes: &[u8]) -> bool
    ensures { IsTrue result ↔ IsLawfulNumber bytes.now }
{
    let radix = radix_of(bytes);
    (2..=36).contains(&radix) && are_below(digits_of(bytes), radix)
}

/// Whether each digit is below the radix.
fn are_below(digits: &[u8], radix: u64) -> bool
    ensures { result ≡ are_below radix digits.now }
{
    digits
        .iter()
        .all(|byte| *byte == b'.' || digit_value(*byte) < radix)
}

/// The value of a whole number, or the largest number where it is larger.
fn whole_value(bytes: &[u8]) -> u64
    requires { IsLawfulNumber bytes.now }
    ensures { result ≡ min (whole_value bytes.now) (2 ^ 64 - 1) }
{
    let radix = radix_of(bytes);
    // A radix is at least 2, so its 64th power is larger than all that fits.
    let exponent = digits_value(behind(bytes, b'e'), 10).min(64) as u32;
    digits_value(digits_of(bytes), radix).saturating_mul(radix.saturating_pow(exponent))
}

/// The bytes of a number, behind a minus where it is negative.
fn signed(alloc: Global, bytes: &[u8], negative: bool) -> Result<Text, OutOfMemory>
    ensures { IfOk result (λ text. text ≡ signed negative bytes.now) }
{
    let mut text = Text::empty(alloc);
    if negative {
        text.append(b"-")?;
    }
    text.append(bytes)?;
    Ok(text)
}

/// A number that is kept by its bytes.
fn kept(
    alloc: Global,
    kind: NumberKind,
    bytes: &[u8],
    negative: bool,
) -> Result<Literal, OutOfMemory>
    ensures { IfOk result (λ literal. literal_of literal ≡ number kind (signed negative bytes.now)) }
{
    let text = signed(alloc, bytes, negative)?;
    Ok(Literal::Number(kind, text))
}

fn is_whole(bytes: &[u8]) -> bool
    ensures { result ≡ is_whole bytes.now }
{
    !(bytes.contains(&b'.') || bytes.contains(&b'-'))
}

/// What a number means, behind a minus or not: a number token's bytes are lawful.
#[tactic(auto, unfolding(crate::specs::Number::number_literal))]
pub fn literal_of_number(
    alloc: Global,
    bytes: &[u8],
    negative: bool,
) -> Result<Literal, OutOfMemory>
    requires { IsLawfulNumber bytes.now }
    ensures { IfOk result (λ literal. literal_of literal ≡ number_literal negative bytes.now) }
{
    if !is_whole(bytes) {
        return kept(alloc, NumberKind::Float, bytes, negative);
    }
    let value = whole_value(bytes);
    if negative {
        if value <= LARGE {
            Ok(Literal::Small(-(value as i32)))
        } else {
            kept(alloc, NumberKind::LargeNegative, bytes, true)
        }
    } else if value < LARGE {
        Ok(Literal::Small(value as i32))
    } else {
        kept(alloc, NumberKind::LargePositive, bytes, false)
    }
}
