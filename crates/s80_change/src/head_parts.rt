// The parts of a head's text.
ghost use Rattle.std.specs.Prelude.{IfOk};
ghost use Rattle.s80_change.specs.HeadParts.{FindsParts, FindsSide};

use crate::head::SectionHead;
use s80_base::{OutOfMemory, Side, Text};
use s80_form::text_parts::{after, string, word};
use std::alloc::Global;

/// The parts of a head's text. Of any other text these are some parts or others.
pub(crate) fn parts(alloc: Global, text: &[u8]) -> Result<SectionHead, OutOfMemory>
    ensures { IfOk result (FindsParts text.now) }
{
    let (class_name, rest) = word(text);
    let (side, rest) = side(rest);
    // Behind the side stands ` methodsFor: '`.
    let (category, _) = string(alloc, after(rest, 14))?;
    Ok(SectionHead {
        class_name: Text::from_bytes(alloc, class_name)?,
        side,
        category,
    })
}

/// The side, which stands behind the class's name, and what follows it.
fn side(bytes: &[u8]) -> (Side, &[u8])
    ensures { FindsSide bytes.now result.0 result.1.now }
{
    match bytes {
        [b' ', b'c', ..] => (Side::Class, after(bytes, 6)),
        _ => (Side::Instance, bytes),
    }
}
