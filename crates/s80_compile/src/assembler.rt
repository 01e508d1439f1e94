// Code by one instruction after another, each in its shortest spelling. Each call adds bytes at the end.
ghost use Rattle.std.specs.Prelude.{◌<◌, pos, OnOk};
ghost use Rattle.s80_code.specs.Spelling.{IsSmall};
ghost use Rattle.s80_code.specs.declared.instruction.Instruction.TheVariants as is;
ghost use Rattle.s80_compile.specs.Rows.{jump_unless};
ghost use Rattle.s80_compile.specs.Emitted.{Adds, AddsBack, AddsFar};

use s80_base::{OutOfMemory, Text};
use s80_code::{Instruction, Storage, encode, encode_long_jump};

pub(crate) fn push(code: &mut Text, storage: Storage) -> Result<(), OutOfMemory>
    requires { IsSmall storage }
    ensures { OnOk result (Adds (is.Push storage) 2 code.old code.new) }
{
    encode(code, Instruction::Push(storage))
}

pub(crate) fn store(code: &mut Text, storage: Storage) -> Result<(), OutOfMemory>
    requires { IsSmall storage }
    ensures { OnOk result (Adds (is.Store storage) 2 code.old code.new) }
{
    encode(code, Instruction::Store(storage))
}

pub(crate) fn pop_into(code: &mut Text, storage: Storage) -> Result<(), OutOfMemory>
    requires { IsSmall storage }
    ensures { OnOk result (Adds (is.PopInto storage) 2 code.old code.new) }
{
    encode(code, Instruction::PopInto(storage))
}

/// Pushes the receiver, true, false, nil, -1, 0, 1 or 2, from 0 on.
pub(crate) fn push_fixed(code: &mut Text, number: u8) -> Result<(), OutOfMemory>
    requires { number < 8 }
    ensures { OnOk result (Adds (is.PushFixed number) 1 code.old code.new) }
{
    encode(code, Instruction::PushFixed(number))
}

/// Returns the receiver, true, false or nil from the message, from 0 on.
pub(crate) fn return_fixed(code: &mut Text, number: u8) -> Result<(), OutOfMemory>
    requires { number < 4 }
    ensures { OnOk result (Adds (is.ReturnFixed number) 1 code.old code.new) }
{
    encode(code, Instruction::ReturnFixed(number))
}

pub(crate) fn return_top(code: &mut Text) -> Result<(), OutOfMemory>
    ensures { OnOk result (Adds is.ReturnTop 1 code.old code.new) }
{
    encode(code, Instruction::ReturnTop)
}

pub(crate) fn return_from_block(code: &mut Text) -> Result<(), OutOfMemory>
    ensures { OnOk result (Adds is.ReturnFromBlock 1 code.old code.new) }
{
    encode(code, Instruction::ReturnFromBlock)
}

pub(crate) fn pop(code: &mut Text) -> Result<(), OutOfMemory>
    ensures { OnOk result (Adds is.Pop 1 code.old code.new) }
{
    encode(code, Instruction::Pop)
}

pub(crate) fn duplicate(code: &mut Text) -> Result<(), OutOfMemory>
    ensures { OnOk result (Adds is.Duplicate 1 code.old code.new) }
{
    encode(code, Instruction::Duplicate)
}

pub(crate) fn push_context(code: &mut Text) -> Result<(), OutOfMemory>
    ensures { OnOk result (Adds is.PushContext 1 code.old code.new) }
{
    encode(code, Instruction::PushContext)
}

/// Sends a message that has a byte of its own.
pub(crate) fn send_special(code: &mut Text, number: u8) -> Result<(), OutOfMemory>
    requires { number < 32 }
    ensures { OnOk result (Adds (is.SendSpecial number) 1 code.old code.new) }
{
    encode(code, Instruction::SendSpecial(number))
}

/// Sends the selector with this number in the frame.
pub(crate) fn send(code: &mut Text, arguments: u8, selector: u8) -> Result<(), OutOfMemory>
    ensures { OnOk result (Adds (is.Send arguments selector) 3 code.old code.new) }
{
    encode(
        code,
        Instruction::Send {
            arguments,
            selector,
        },
    )
}

/// The same to super.
pub(crate) fn send_to_super(code: &mut Text, arguments: u8, selector: u8) -> Result<(), OutOfMemory>
    ensures { OnOk result (Adds (is.SendSuper arguments selector) 3 code.old code.new) }
{
    encode(
        code,
        Instruction::SendSuper {
            arguments,
            selector,
        },
    )
}

/// Jumps forward, over so many bytes.
pub(crate) fn jump(code: &mut Text, distance: usize) -> Result<(), OutOfMemory>
    requires { distance < 1024 }
    ensures { OnOk result (Adds (is.Jump (pos distance)) 2 code.old code.new) }
{
    encode(code, Instruction::Jump(distance as i32))
}

/// Pops, and jumps forward on false.
fn jump_on_false(code: &mut Text, distance: usize) -> Result<(), OutOfMemory>
    requires { distance < 1024 }
    ensures { OnOk result (Adds (is.JumpOnFalse (pos distance)) 2 code.old code.new) }
{
    encode(code, Instruction::JumpOnFalse(distance as i32))
}

/// Pops, and jumps forward on true.
fn jump_on_true(code: &mut Text, distance: usize) -> Result<(), OutOfMemory>
    requires { distance < 1024 }
    ensures { OnOk result (Adds (is.JumpOnTrue (pos distance)) 2 code.old code.new) }
{
    encode(code, Instruction::JumpOnTrue(distance as i32))
}

/// Pops, and jumps forward where the value isn't `on`.
pub(crate) fn jump_unless(code: &mut Text, on: bool, distance: usize) -> Result<(), OutOfMemory>
    requires { distance < 1024 }
    ensures { OnOk result (Adds (jump_unless on (pos distance)) 2 code.old code.new) }
{
    if on {
        jump_on_false(code, distance)
    } else {
        jump_on_true(code, distance)
    }
}

/// Jumps forward by two bytes, however near.
pub(crate) fn far_jump(code: &mut Text, distance: usize) -> Result<(), OutOfMemory>
    requires { distance < 1024 }
    ensures { OnOk result (AddsFar distance code.old code.new) }
{
    encode_long_jump(code, distance as u32)
}

/// Jumps back over so many bytes and one more, the jump itself among them.
pub(crate) fn jump_back(code: &mut Text, distance: usize) -> Result<(), OutOfMemory>
    requires { distance < 1024 }
    ensures { OnOk result (AddsBack distance code.old code.new) }
{
    encode(code, Instruction::Jump(-1 - distance as i32))
}
