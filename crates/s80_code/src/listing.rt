// Code as text.
ghost use Rattle.std.specs.Prelude.{◌≡◌, ◌<◌, ◌≤◌, ◌^◌, ◌++◌, length, flat_map, IfOk, OnOk};
ghost use Rattle.s80_code.specs.Listing.{hex_digit, spaced, line, disassembly};

use crate::code::Code;
use crate::decoding::decode;
use s80_base::{OutOfMemory, Text};
use std::alloc::Global;

/// A line for each instruction from place 0 on. It ends before the first byte that isn't one.
pub fn disassemble(alloc: Global, code: &Code) -> Result<Text, OutOfMemory>
    requires { length code.now.bytes < 2 ^ 32 }
    ensures { IfOk result (λ text. text ≡ disassembly code.now.bytes) }
{
    let mut text = Text::empty(alloc);
    let mut at = 0;
    while let Some((_, width)) = decode(code, at) {
        let next = at + width;
        append_line(
            alloc,
            &mut text,
            at,
            &code.bytes.bytes()[at as usize..next as usize],
        )?;
        at = next;
    }
    Ok(text)
}

/// Adds the line of one instruction.
fn append_line(alloc: Global, text: &mut Text, at: u32, bytes: &[u8]) -> Result<(), OutOfMemory>
    requires { 1 ≤ length bytes.now }
    ensures { OnOk result (text.new ≡ text.old ++ line at bytes.now) }
{
    let place = format!(in alloc; "{at} ")?;
    text.append(place.as_bytes())?;
    append_bytes(text, bytes)?;
    text.append(b"\n")?;
    Ok(())
}

/// Adds bytes in hexadecimal, each behind a space.
fn append_bytes(text: &mut Text, bytes: &[u8]) -> Result<(), OutOfMemory>
    ensures { OnOk result (text.new ≡ text.old ++ flat_map spaced bytes.now) }
{
    for byte in bytes {
        text.append(&[b' ', digit(byte / 16), digit(byte % 16)])?;
    }
    Ok(())
}

/// The digit of a number below 16.
fn digit(number: u8) -> u8
    requires { number < 16 }
    ensures { result ≡ hex_digit number }
{
    if number < 10 {
        b'0' + number
    } else {
        b'A' + (number - 10)
    }
}
