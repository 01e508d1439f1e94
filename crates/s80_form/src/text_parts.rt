// Parts of texts: words and quoted strings.
ghost use Rattle.std.specs.Prelude.{◌≡◌, ◌++◌, ℕ, List, IfOk, OnOk, OnErr, drop};
ghost use Rattle.s80_lex.specs.Spelling.{begins_with, quoted};
ghost use Rattle.s80_form.specs.TextParts.{FindsString, FindsWord};

use s80_base::{OutOfMemory, Text, is_separator};
use std::alloc::Global;

/// Adds a string as a source has it: between quotes, and with each quote in it doubled. When out of memory, the text may have a part of it.
pub fn add_quoted(text: &mut Text, string: &[u8]) -> Result<(), OutOfMemory>
    ensures ok { OnOk result (text.new ≡ text.old ++ quoted 39 string.now) }
    ensures err { OnErr result ((more : List ℕ) × (text.new ≡ text.old ++ more)) }
{
    text.append(b"'")?;
    for byte in string {
        if *byte == b'\'' {
            text.append(b"''")?;
        } else {
            text.append(&[*byte])?;
        }
    }
    text.append(b"'")
}

/// The string whose first quote stands before these bytes, and what follows its last: the first quote that isn't doubled ends it.
pub fn string(alloc: Global, bytes: &[u8]) -> Result<(Text, &[u8]), OutOfMemory>
    ensures { IfOk result (λ p. FindsString bytes.now p.0 p.1.now) }
{
    let mut text = Text::empty(alloc);
    let mut rest = bytes;
    loop {
        match rest {
            [b'\'', tail @ ..] => {
                if !begins_with_quote(tail) {
                    return Ok((text, tail));
                }
                text.append(b"'")?;
                rest = after(tail, 1);
            }
            [byte, tail @ ..] => {
                text.append(&[*byte])?;
                rest = tail;
            }
            [] => return Ok((text, rest)),
        }
    }
}

fn begins_with_quote(bytes: &[u8]) -> bool
    ensures { result ≡ begins_with 39 bytes.now }
{
    bytes.first() == Some(&b'\'')
}

/// What stands before the first separator, and what stands from there on.
pub fn word(bytes: &[u8]) -> (&[u8], &[u8])
    ensures { FindsWord bytes.now result.0.now result.1.now }
{
    let length = bytes
        .iter()
        .take_while(|byte| !is_separator(**byte))
        .count();
    bytes.split_at(length)
}

/// What follows so many bytes.
pub fn after(bytes: &[u8], count: usize) -> &[u8]
    ensures { result.now ≡ drop count bytes.now }
{
    if count > bytes.len() {
        return &[];
    }
    &bytes[count..]
}
