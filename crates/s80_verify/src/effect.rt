// What each instruction does to the stack, and where it goes on.
ghost use Rattle.std.specs.Prelude.{◌≡◌, ◌<◌};
ghost use Rattle.s80_verify.specs.Effect.{takes, leaves, goes_on, distance_of};

use s80_code::{Instruction, special_arguments};

/// How many values an instruction takes from the stack.
pub(crate) fn takes(instruction: Instruction) -> u32
    ensures { result ≡ takes instruction }
{
    match instruction {
        Instruction::Push(_)
        | Instruction::PushFixed(_)
        | Instruction::PushContext
        | Instruction::ReturnFixed(_)
        | Instruction::Jump(_) => 0,
        Instruction::Store(_)
        | Instruction::PopInto(_)
        | Instruction::ReturnTop
        | Instruction::ReturnFromBlock
        | Instruction::Pop
        | Instruction::Duplicate
        | Instruction::JumpOnTrue(_)
        | Instruction::JumpOnFalse(_) => 1,
        Instruction::Send { arguments, .. } | Instruction::SendSuper { arguments, .. } => {
            u32::from(arguments) + 1
        }
        Instruction::SendSpecial(number) => u32::from(special_arguments(number)) + 1,
    }
}

/// How many values it leaves there.
pub(crate) fn leaves(instruction: Instruction) -> u32
    ensures value { result ≡ leaves instruction }
    ensures few { result < 3 }
{
    match instruction {
        Instruction::PopInto(_)
        | Instruction::ReturnFixed(_)
        | Instruction::ReturnTop
        | Instruction::ReturnFromBlock
        | Instruction::Pop
        | Instruction::Jump(_)
        | Instruction::JumpOnTrue(_)
        | Instruction::JumpOnFalse(_) => 0,
        Instruction::Push(_)
        | Instruction::Store(_)
        | Instruction::PushFixed(_)
        | Instruction::PushContext
        | Instruction::Send { .. }
        | Instruction::SendSuper { .. }
        | Instruction::SendSpecial(_) => 1,
        Instruction::Duplicate => 2,
    }
}

/// Whether it goes on at the place behind it.
pub(crate) fn goes_on(instruction: Instruction) -> bool
    ensures { result ≡ goes_on instruction }
{
    !matches!(
        instruction,
        Instruction::ReturnFixed(_)
            | Instruction::ReturnTop
            | Instruction::ReturnFromBlock
            | Instruction::Jump(_)
    )
}

/// How far it jumps from the place behind it.
pub(crate) fn distance_of(instruction: Instruction) -> Option<i32>
    ensures { result ≡ distance_of instruction }
{
    match instruction {
        Instruction::Jump(distance)
        | Instruction::JumpOnTrue(distance)
        | Instruction::JumpOnFalse(distance) => Some(distance),
        _ => None,
    }
}
