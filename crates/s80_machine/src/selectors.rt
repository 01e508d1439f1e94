// The messages that have bytes of their own.
ghost use Rattle.std.specs.Prelude.{◌≡◌, IfOk, get_or, map as list_map};
ghost use Rattle.s80_code.specs.Special.{special_selectors};
ghost use Rattle.s80_machine.specs.Shared.{integer_primitives};

use s80_base::{Names, OutOfMemory, Text};
use s80_code::{SpecialMessage, special_messages};
use std::alloc::Global;

/// The selectors of the messages that have bytes of their own, by their numbers.
pub(crate) fn special_selectors(alloc: Global) -> Result<Names, OutOfMemory>
    ensures { IfOk result (λ names. names ≡ special_selectors) }
{
    named(alloc, special_messages())
}

fn named(alloc: Global, messages: &[SpecialMessage]) -> Result<Names, OutOfMemory>
    ensures { IfOk result (λ names. names ≡ list_map (λ m. m.selector.now) messages.now) }
{
    let mut names = Names::empty(alloc);
    for message in messages {
        names.push(Text::from_bytes(alloc, message.selector.as_bytes())?)?;
    }
    Ok(names)
}

/// The primitive that answers one of the first 16 messages for two SmallIntegers; 0 for none.
pub(crate) fn integer_primitive(number: u8) -> u8
    ensures { result ≡ get_or integer_primitives number 0 }
{
    match number {
        0..=10 => number + 1,
        12 => 17,
        13 => 12,
        14 => 14,
        15 => 15,
        _ => 0,
    }
}
