// The instruction that stands at a place.
ghost use Rattle.std.specs.Prelude.{◌≡◌, ◌<◌, ◌^◌, ◌+◌, ◌*◌, pos, ◌+ℤ◌, ◌-ℤ◌, ◌*ℤ◌, length, drop};
ghost use Rattle.s80_code.specs.declared.instruction.Instruction.TheVariants.{Send, SendSuper};
ghost use Rattle.s80_code.specs.ByWidth.{alone_at, with_one_at, with_two_at};
ghost use Rattle.s80_code.specs.Table.{storage, decoded};

use crate::code::Code;
use crate::instruction::{Instruction, Storage};

/// The instruction at a place, and its width in bytes. There is none where the byte is unused, and
/// where the bytes end inside the instruction.
pub fn decode(code: &Code, at: u32) -> Option<(Instruction, u32)>
    requires { length code.now.bytes < 2 ^ 32 }
    ensures { result ≡ decoded (drop at code.now.bytes) }
{
    first_instruction(code.bytes.bytes().get(at as usize..)?)
}

fn first_instruction(bytes: &[u8]) -> Option<(Instruction, u32)>
    ensures { result ≡ decoded bytes.now }
{
    let (byte, behind) = bytes.split_first()?;
    if let Some(instruction) = alone(*byte) {
        return Some((instruction, 1));
    }
    let (next, behind) = behind.split_first()?;
    if let Some(instruction) = with_one(*byte, *next) {
        return Some((instruction, 2));
    }
    let last = behind.first()?;
    Some((with_two(*byte, *next, *last)?, 3))
}

/// The instruction that a byte is by itself.
#[tactic(auto, unfolding(crate::specs::Table::row_of))]
fn alone(byte: u8) -> Option<Instruction>
    ensures { result ≡ alone_at byte }
{
    Some(match byte {
        0..=15 => Instruction::Push(Storage::Receiver(byte)),
        16..=31 => Instruction::Push(Storage::Temporary(byte - 16)),
        32..=63 => Instruction::Push(Storage::Constant(byte - 32)),
        64..=95 => Instruction::Push(Storage::Variable(byte - 64)),
        96..=103 => Instruction::PopInto(Storage::Receiver(byte - 96)),
        104..=111 => Instruction::PopInto(Storage::Temporary(byte - 104)),
        112..=119 => Instruction::PushFixed(byte - 112),
        120..=123 => Instruction::ReturnFixed(byte - 120),
        124 => Instruction::ReturnTop,
        125 => Instruction::ReturnFromBlock,
        135 => Instruction::Pop,
        136 => Instruction::Duplicate,
        137 => Instruction::PushContext,
        144..=151 => Instruction::Jump(i32::from(byte - 144) + 1),
        152..=159 => Instruction::JumpOnFalse(i32::from(byte - 152) + 1),
        176..=207 => Instruction::SendSpecial(byte - 176),
        208..=223 => send(0, byte - 208),
        224..=239 => send(1, byte - 224),
        240..=255 => send(2, byte - 240),
        _ => return None,
    })
}

/// The instruction that a byte is with the one behind it.
#[tactic(auto, unfolding(crate::specs::Table::row_of))]
fn with_one(byte: u8, next: u8) -> Option<Instruction>
    ensures { result ≡ with_one_at byte next }
{
    Some(match byte {
        128 => Instruction::Push(storage_of(next)),
        129 => Instruction::Store(storage_of(next)),
        130 => Instruction::PopInto(storage_of(next)),
        131 => send(next / 32, next % 32),
        133 => send_super(next / 32, next % 32),
        160..=167 => Instruction::Jump(long_distance(byte - 160, next)),
        168..=171 => Instruction::JumpOnTrue(tested_distance(byte - 168, next)),
        172..=175 => Instruction::JumpOnFalse(tested_distance(byte - 172, next)),
        _ => return None,
    })
}

/// The distance of a jump of two bytes, forward or back.
fn long_distance(number: u8, next: u8) -> i32
    requires { number < 8 }
    ensures { result ≡ (pos number -ℤ pos 4) *ℤ pos 256 +ℤ pos next }
{
    (i32::from(number) - 4) * 256 + i32::from(next)
}

/// The distance of a jump of two bytes with a test.
fn tested_distance(number: u8, next: u8) -> i32
    requires { number < 4 }
    ensures { result ≡ pos (number * 256 + next) }
{
    i32::from(number) * 256 + i32::from(next)
}

/// The storage that the byte behind 128, 129 or 130 names.
fn storage_of(byte: u8) -> Storage
    ensures { result ≡ storage byte }
{
    let number = byte % 64;
    match byte / 64 {
        0 => Storage::Receiver(number),
        1 => Storage::Temporary(number),
        2 => Storage::Constant(number),
        _ => Storage::Variable(number),
    }
}

/// The instruction that a byte is with the two behind it.
#[tactic(auto, unfolding(crate::specs::Table::row_of))]
fn with_two(byte: u8, arguments: u8, selector: u8) -> Option<Instruction>
    ensures { result ≡ with_two_at byte arguments selector }
{
    match byte {
        132 => Some(send(arguments, selector)),
        134 => Some(send_super(arguments, selector)),
        _ => None,
    }
}

fn send(arguments: u8, selector: u8) -> Instruction
    ensures { result ≡ Send arguments selector }
{
    Instruction::Send {
        arguments,
        selector,
    }
}

fn send_super(arguments: u8, selector: u8) -> Instruction
    ensures { result ≡ SendSuper arguments selector }
{
    Instruction::SendSuper {
        arguments,
        selector,
    }
}
