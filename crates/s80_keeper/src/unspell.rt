// Spelled texts, read again.
ghost use Rattle.std.specs.Prelude.{◌≡◌, IfOk};
ghost use Rattle.s80_keeper.specs.Unspelled.{IsUnspelled};

use s80_base::{OutOfMemory, Text};
use std::alloc::Global;

/// The text that these bytes spell, each of its marks doubled. None where they spell no text.
pub fn unspelled(alloc: Global, bytes: &[u8]) -> Result<Option<Text>, OutOfMemory>
    ensures { IfOk result (IsUnspelled bytes.now) }
{
    let mut text = Text::empty(alloc);
    let mut rest = bytes;
    'bytes: loop {
        match rest {
            [] => return Ok(Some(text)),
            [b'!', b'!', after @ ..] => {
                text.append(b"!")?;
                rest = after;
            }
            [b'!', ..] => return Ok(None),
            [byte, after @ ..] => {
                text.append(&[*byte])?;
                rest = after;
            }
        }
    }
}
