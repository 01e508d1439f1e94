// Selectors and their parameters.
ghost use Rattle.std.specs.Prelude.{◌≡◌, ℕ, Some, ◌↔◌};
ghost use Rattle.std.specs.Char.{is_ascii_alphanumeric};
ghost use Rattle.std.specs.List.{list_all};
ghost use Rattle.s80_lex.specs.Selector.{IsSelectorOf, is_name, is_binary, begins_binary, keywords_of, goes_on};

use crate::class::is_special;

/// How many parameters a selector has: a name none, a binary selector one, and keywords one each. None
/// where the bytes aren't a selector.
pub fn parameters_of(bytes: &[u8]) -> Option<usize>
    ensures { (n : ℕ) → result ≡ Some n ↔ IsSelectorOf n bytes.now }
{
    if is_name(bytes) {
        Some(0)
    } else if is_binary(bytes) {
        Some(1)
    } else {
        keywords(bytes)
    }
}

/// Whether a word is a letter, then letters and digits.
pub fn is_name(bytes: &[u8]) -> bool
    ensures { result ≡ is_name bytes.now }
{
    match bytes {
        [] => false,
        [first, rest @ ..] => first.is_ascii_alphabetic() && are_alphanumeric(rest),
    }
}

fn are_alphanumeric(bytes: &[u8]) -> bool
    ensures { result ≡ list_all is_ascii_alphanumeric bytes.now }
{
    bytes.iter().all(|byte| byte.is_ascii_alphanumeric())
}

/// One or two special characters, of which the second isn't a minus.
fn is_binary(bytes: &[u8]) -> bool
    ensures { result ≡ is_binary bytes.now }
{
    match bytes {
        [first] => begins_binary(*first),
        [first, second] => begins_binary(*first) && is_special(*second),
        _ => false,
    }
}

fn begins_binary(byte: u8) -> bool
    ensures { result ≡ begins_binary byte }
{
    is_special(byte) || byte == b'-'
}

/// How many keywords are joined there: each is a name and a colon.
fn keywords(bytes: &[u8]) -> Option<usize>
    ensures { result ≡ keywords_of bytes.now }
{
    let mut count = 0;
    let mut in_name = false;
    for byte in bytes {
        if in_name && *byte == b':' {
            count += 1;
            in_name = false;
        } else if goes_on(in_name, *byte) {
            in_name = true;
        } else {
            return None;
        }
    }
    if in_name || count == 0 {
        None
    } else {
        Some(count)
    }
}

/// Whether a byte goes on a name, or begins one.
fn goes_on(in_name: bool, byte: u8) -> bool
    ensures { result ≡ goes_on in_name byte }
{
    if in_name {
        byte.is_ascii_alphanumeric()
    } else {
        byte.is_ascii_alphabetic()
    }
}
