// The bytes of an instruction, in its shortest spelling. Each call adds them at the end of others.
ghost use Rattle.std.specs.Prelude.{◌≡◌, ◌<◌, ◌≤◌, ◌+◌, ◌++◌, OnOk};
ghost use Rattle.s80_code.specs.Spelling.{IsAhead, IsInReach, IsSmall, IsSpellable, distance_of, far, near, operand, packed, short_below, spelled, spelled_jump, spelled_pop, spelled_push, spelled_send};

use crate::instruction::{Instruction, Storage};
use s80_base::{OutOfMemory, Text};

/// Adds an instruction.
#[tactic(auto, unfolding(crate::specs::Spelling::spelled))]
pub fn encode(bytes: &mut Text, instruction: Instruction) -> Result<(), OutOfMemory>
    requires { IsSpellable instruction }
    ensures { OnOk result (bytes.new ≡ bytes.old ++ spelled instruction) }
{
    match instruction {
        Instruction::Push(storage) => push(bytes, storage),
        Instruction::Store(storage) => bytes.append(&[129, operand_of(storage)]),
        Instruction::PopInto(storage) => pop_into(bytes, storage),
        Instruction::PushFixed(number) => bytes.append(&[112 + number]),
        Instruction::ReturnFixed(number) => bytes.append(&[120 + number]),
        Instruction::ReturnTop => bytes.append(&[124]),
        Instruction::ReturnFromBlock => bytes.append(&[125]),
        Instruction::Send {
            arguments,
            selector,
        } => send(bytes, arguments, selector),
        Instruction::SendSuper {
            arguments,
            selector,
        } => packed_send(bytes, 133, 134, arguments, selector),
        Instruction::SendSpecial(number) => bytes.append(&[176 + number]),
        Instruction::Pop => bytes.append(&[135]),
        Instruction::Duplicate => bytes.append(&[136]),
        Instruction::PushContext => bytes.append(&[137]),
        Instruction::Jump(distance) => jump(bytes, distance),
        Instruction::JumpOnTrue(distance) => far_jump(bytes, 168, distance as u32),
        Instruction::JumpOnFalse(distance) => near_jump(bytes, 152, 172, distance as u32),
    }
}

/// Adds a jump ahead by two bytes, also where the distance has one.
pub fn encode_long_jump(bytes: &mut Text, distance: u32) -> Result<(), OutOfMemory>
    requires { distance < 1024 }
    ensures { OnOk result (bytes.new ≡ bytes.old ++ far 164 distance) }
{
    far_jump(bytes, 164, distance)
}

/// The byte behind 128 to 130, which names what is read or written.
fn operand_of(storage: Storage) -> u8
    requires { IsSmall storage }
    ensures { result ≡ operand storage }
{
    match storage {
        Storage::Receiver(number) => number,
        Storage::Temporary(number) => 64 + number,
        Storage::Constant(number) => 128 + number,
        Storage::Variable(number) => 192 + number,
    }
}

fn push(bytes: &mut Text, storage: Storage) -> Result<(), OutOfMemory>
    requires { IsSmall storage }
    ensures { OnOk result (bytes.new ≡ bytes.old ++ spelled_push storage) }
{
    match storage {
        Storage::Receiver(number) => by_number(bytes, 16, 0, number, 128, storage),
        Storage::Temporary(number) => by_number(bytes, 16, 16, number, 128, storage),
        Storage::Constant(number) => by_number(bytes, 32, 32, number, 128, storage),
        Storage::Variable(number) => by_number(bytes, 32, 64, number, 128, storage),
    }
}

fn pop_into(bytes: &mut Text, storage: Storage) -> Result<(), OutOfMemory>
    requires { IsSmall storage }
    ensures { OnOk result (bytes.new ≡ bytes.old ++ spelled_pop storage) }
{
    match storage {
        Storage::Receiver(number) => by_number(bytes, 8, 96, number, 130, storage),
        Storage::Temporary(number) => by_number(bytes, 8, 104, number, 130, storage),
        Storage::Constant(_) => bytes.append(&[130, operand_of(storage)]),
        Storage::Variable(_) => bytes.append(&[130, operand_of(storage)]),
    }
}

/// One byte, counted from the first of its row, where the number is below a limit; else two.
fn by_number(
    bytes: &mut Text,
    limit: u8,
    first: u8,
    number: u8,
    long: u8,
    storage: Storage,
) -> Result<(), OutOfMemory>
    requires row { first + limit ≤ 128 }
    requires small { IsSmall storage }
    ensures { OnOk result (bytes.new ≡ bytes.old ++ short_below limit first number long storage) }
{
    if number < limit {
        bytes.append(&[first + number])
    } else {
        bytes.append(&[long, operand_of(storage)])
    }
}

fn send(bytes: &mut Text, arguments: u8, selector: u8) -> Result<(), OutOfMemory>
    ensures { OnOk result (bytes.new ≡ bytes.old ++ spelled_send arguments selector) }
{
    if arguments < 3 && selector < 16 {
        bytes.append(&[208 + 16 * arguments + selector])
    } else {
        packed_send(bytes, 131, 132, arguments, selector)
    }
}

/// Arguments and selector in one byte where they fit, else in a byte each.
fn packed_send(
    bytes: &mut Text,
    short: u8,
    long: u8,
    arguments: u8,
    selector: u8,
) -> Result<(), OutOfMemory>
    ensures { OnOk result (bytes.new ≡ bytes.old ++ packed short long arguments selector) }
{
    if arguments < 8 && selector < 32 {
        bytes.append(&[short, 32 * arguments + selector])
    } else {
        bytes.append(&[long, arguments, selector])
    }
}

fn jump(bytes: &mut Text, distance: i32) -> Result<(), OutOfMemory>
    requires { IsInReach distance }
    ensures { OnOk result (bytes.new ≡ bytes.old ++ spelled_jump distance) }
{
    if distance < 0 {
        far_jump(bytes, 160, (1024 + distance) as u32)
    } else {
        near_jump(bytes, 144, 164, distance as u32)
    }
}

/// A distance from 1 to 8 in one byte, others in two.
fn near_jump(bytes: &mut Text, short: u8, first: u8, distance: u32) -> Result<(), OutOfMemory>
    requires short { short < 248 }
    requires first { first < 253 }
    requires distance { distance < 1024 }
    ensures { OnOk result (bytes.new ≡ bytes.old ++ near short first distance) }
{
    match distance {
        1..=8 => bytes.append(&[short + (distance as u8 - 1)]),
        _ => far_jump(bytes, first, distance),
    }
}

/// A distance in two bytes, the first counted from that of distances below 256.
fn far_jump(bytes: &mut Text, first: u8, distance: u32) -> Result<(), OutOfMemory>
    requires first { first < 253 }
    requires distance { distance < 1024 }
    ensures { OnOk result (bytes.new ≡ bytes.old ++ far first distance) }
{
    bytes.append(&[first + (distance / 256) as u8, (distance % 256) as u8])
}
