//! A reader that looks at one byte after the other, to compare with.
ghost use Rattle.std.specs.Prelude.{◌≡◌, OnOk};

use super::{Phase, Scanner};
use crate::item::Item;
use crate::rest::Rest;
use s80_base::OutOfMemory;
use std::alloc::Global;

/// The items of an input, and how it ends.
pub fn read_plainly(alloc: Global, input: &[u8]) -> Result<(Vec<Item>, Rest), OutOfMemory> {
    let mut scanner = Scanner::make(alloc)?;
    let mut items = Vec::new(alloc);
    for (i, byte) in input.iter().enumerate() {
        if scanner.is_marked() && *byte != b'!' {
            take_item(alloc, &mut scanner, &mut items)?;
        }
        scanner.look(*byte, i as u64);
    }
    if scanner.is_marked() {
        take_item(alloc, &mut scanner, &mut items)?;
    }
    let rest = match scanner.begun() {
        None => Rest::Clean,
        Some(place) => Rest::Unended(place),
    };
    Ok((items, rest))
}

fn take_item(alloc: Global, scanner: &mut Scanner, items: &mut Vec<Item>) -> Result<(), OutOfMemory>
    requires { scanner.old.phase ≡ Phase.Mark }
    ensures phase { OnOk result (scanner.new.phase ≡ Phase.Lead) }
    ensures empty { OnOk result (scanner.new.text_length ≡ 0) }
{
    if let Some(item) = scanner.finish(alloc)? {
        items.push(item)?;
    }
    Ok(())
}
