// The framing that bytes begin with.
ghost use Rattle.std.specs.Prelude.{◌≡◌, ◌∷◌, ⊤};
ghost use Rattle.s80_chunk.specs.Chunks.{mark, IsNoMark};
ghost use Rattle.s80_change.specs.Block.{framed};
ghost use Rattle.s80_change.specs.Fronts.{IsFirst, IsFirstChunk, IsProper, IsEnd, line};

use crate::framing::Framing;
use s80_base::{OutOfMemory, Text};
use std::alloc::Global;

/// Why no framing is read from bytes.
#[derive(Clone, Copy, Debug, PartialEq, Eq)]
pub(crate) enum NoFraming {
    Memory,
    /// The bytes begin with none, whatever follows.
    Absent,
    /// The bytes end before a framing does.
    Unended,
}

impl From<OutOfMemory> for NoFraming {
    ghost use Rattle.s80_change.specs.declared.front.NoFraming.TheVariants.{Memory};

    ghost from_gives = { λ _ fault. fault ≡ Memory };

    fn from(_: OutOfMemory) -> Self {
        NoFraming::Memory
    }
}

/// The framing that the bytes begin with, and how long it is.
pub(crate) fn first_framing(alloc: Global, bytes: &[u8]) -> Result<(Framing, usize), NoFraming>
    ensures { IsFirst framed IsProper bytes.now result }
{
    match bytes {
        [b'!', rest @ ..] => first_section(alloc, rest),
        _ => first_plain(alloc, bytes),
    }
}

/// The framing that bytes begin with, where no mark stands first.
fn first_plain(alloc: Global, bytes: &[u8]) -> Result<(Framing, usize), NoFraming>
    requires { IsNoMark bytes.now }
    ensures { IsFirst framed IsProper bytes.now result }
{
    let (text, length) = first_line(alloc, bytes, b"\n")?;
    Ok((Framing::Plain(text), length))
}

/// The framing that a mark and then these bytes begin with.
fn first_section(alloc: Global, bytes: &[u8]) -> Result<(Framing, usize), NoFraming>
    ensures { IsFirst framed IsProper (mark ∷ bytes.now) result }
{
    let (head, head_length) = first_line(alloc, bytes, b"\n")?;
    let (source, source_length) = first_line(alloc, &bytes[head_length..], b" !\n")?;
    Ok((
        Framing::Section(head, source),
        1 + head_length + source_length,
    ))
}

/// The text that the bytes begin with as a chunk, with this end behind it, and how long both are.
fn first_line(alloc: Global, bytes: &[u8], end: &[u8]) -> Result<(Text, usize), NoFraming>
    requires { IsEnd end.now }
    ensures { IsFirst (line end.now) (λ _. ⊤) bytes.now result }
{
    let (text, length) = first_chunk(alloc, bytes)?;
    let rest = &bytes[length..];
    if rest.starts_with(end) {
        Ok((text, length + end.len()))
    } else if end.starts_with(rest) {
        Err(NoFraming::Unended)
    } else {
        Err(NoFraming::Absent)
    }
}

/// The text that the bytes begin with as a chunk, and how long that is. A mark at the end of the bytes may be one of two, and ends no text.
fn first_chunk(alloc: Global, bytes: &[u8]) -> Result<(Text, usize), NoFraming>
    ensures { IsFirstChunk bytes.now result }
{
    let mut text = Text::empty(alloc);
    let mut rest = bytes;
    'bytes: loop {
        match rest {
            [] => return Err(NoFraming::Unended),
            [b'!'] => return Err(NoFraming::Unended),
            [b'!', b'!', after @ ..] => {
                text.append(b"!")?;
                rest = after;
            }
            [b'!', after @ ..] => return Ok((text, bytes.len() - after.len())),
            [byte, after @ ..] => {
                text.append(&[*byte])?;
                rest = after;
            }
        }
    }
}
