// Bytes of one kind at the front of a text.
ghost use Rattle.std.specs.Prelude.{◌≡◌, ◌≤◌, length};
ghost use Rattle.std.specs.List.{prefix_len};
ghost use Rattle.std.specs.Char.{is_ascii_alphanumeric};
ghost use Rattle.s80_lex.specs.Front.{first_class};
ghost use Rattle.s80_lex.specs.Spelling.{begins_with};

use crate::class::{Class, classify};

/// The class of the first byte.
pub(crate) fn first_class(bytes: &[u8]) -> Class
    ensures { result ≡ first_class bytes.now }
{
    match bytes.first() {
        Some(byte) => classify(*byte),
        None => Class::Other,
    }
}

/// Whether this byte comes next.
pub(crate) fn begins_with(bytes: &[u8], byte: u8) -> bool
    ensures { result ≡ begins_with byte bytes.now }
{
    bytes.first() == Some(&byte)
}

/// How many letters and digits stand at the front.
pub(crate) fn alphanumeric_len(bytes: &[u8]) -> usize
    ensures same { result ≡ prefix_len is_ascii_alphanumeric bytes.now }
    ensures within { result ≤ length bytes.now }
{
    bytes
        .iter()
        .take_while(|byte| byte.is_ascii_alphanumeric())
        .count()
}
