// Instructions that bytes are.
ghost use Rattle.std.specs.Prelude.{◌<◌, ◌^◌, length, IfOk};

use crate::spelled;
use anyhow::{Context, Result, ensure};
use s80_base::Text;
use s80_code::{Code, Frame, Instruction, Storage, decode, disassemble};
use std::alloc::Global;

/// Code of these bytes alone.
fn code_of(alloc: Global, bytes: Text) -> Result<Code>
    ensures { IfOk result (λ code. length code.bytes < 2 ^ 32) }
{
    ensure!(bytes.bytes().len() <= 65_535, "too many bytes");
    Ok(Code {
        flag: 0,
        arguments: 0,
        primitive: 0,
        temporaries: 0,
        large: false,
        literals: Frame::empty(alloc),
        bytes,
    })
}

/// Appends the instruction at a place, and answers its width, or appends `-` and answers 0.
fn add_instruction(alloc: Global, out: &mut Text, bytes: Text, at: u32) -> Result<u32> {
    let code = code_of(alloc, bytes)?;
    match decode(&code, at) {
        None => {
            out.append(b"-")?;
            Ok(0)
        }
        Some((instruction, width)) => {
            out.append(told(alloc, instruction)?.as_bytes())?;
            Ok(width)
        }
    }
}

/// The instruction at a place of bytes, and its width: the place, and the bytes.
pub(crate) fn at_place(alloc: Global, rest: &str) -> Result<Text> {
    let (at, hexadecimal) = rest.split_once(' ').context("no bytes")?;
    let bytes = spelled::bytes(alloc, hexadecimal)?;
    let mut out = Text::empty(alloc);
    let width = add_instruction(alloc, &mut out, bytes, at.parse()?)?;
    out.append(format!(in alloc; " {width}")?.as_bytes())?;
    Ok(out)
}

/// The instructions that sixteen first bytes are with the bytes behind them, and their widths: the first of the sixteen, and the bytes
/// behind.
pub(crate) fn sixteen(alloc: Global, rest: &str) -> Result<Text> {
    let spelled = spelled::bytes(alloc, rest)?;
    let (first, behind) = spelled.bytes().split_first().context("no byte")?;
    let mut out = Text::empty(alloc);
    let mut widths = Text::empty(alloc);
    for number in 0..16u8 {
        let mut bytes = Text::from_bytes(alloc, &[first.wrapping_add(number)])?;
        bytes.append(behind)?;
        let width = add_instruction(alloc, &mut out, bytes, 0)?;
        out.append(if number < 15 { b" " } else { b"\n" })?;
        widths.append(format!(in alloc; "{width}")?.as_bytes())?;
    }
    out.append(widths.bytes())?;
    Ok(out)
}

/// The listing of bytes.
pub(crate) fn listing(alloc: Global, hexadecimal: &str) -> Result<Text> {
    let code = code_of(alloc, spelled::bytes(alloc, hexadecimal)?)?;
    Ok(disassemble(alloc, &code)?)
}

/// An instruction: R, T, C and V are the storages, > pops into one and = stores, P pushes a fixed object and ^ returns, s and x send,
/// j, t and f jump.
fn told(alloc: Global, instruction: Instruction) -> Result<String> {
    Ok(match instruction {
        Instruction::Push(storage) => place(alloc, "", storage)?,
        Instruction::Store(storage) => place(alloc, "=", storage)?,
        Instruction::PopInto(storage) => place(alloc, ">", storage)?,
        Instruction::PushFixed(number) => format!(in alloc; "P{number}")?,
        Instruction::ReturnFixed(number) => format!(in alloc; "^{number}")?,
        Instruction::ReturnTop => format!(in alloc; "^top")?,
        Instruction::ReturnFromBlock => format!(in alloc; "^block")?,
        Instruction::Send {
            arguments,
            selector,
        } => format!(in alloc; "s{arguments},{selector}")?,
        Instruction::SendSuper {
            arguments,
            selector,
        } => format!(in alloc; "super{arguments},{selector}")?,
        Instruction::SendSpecial(number) => format!(in alloc; "x{number}")?,
        Instruction::Pop => format!(in alloc; "pop")?,
        Instruction::Duplicate => format!(in alloc; "dup")?,
        Instruction::PushContext => format!(in alloc; "context")?,
        Instruction::Jump(distance) => format!(in alloc; "j{distance}")?,
        Instruction::JumpOnTrue(distance) => format!(in alloc; "t{distance}")?,
        Instruction::JumpOnFalse(distance) => format!(in alloc; "f{distance}")?,
    })
}

/// A storage behind a sign.
fn place(alloc: Global, sign: &str, storage: Storage) -> Result<String> {
    Ok(match storage {
        Storage::Receiver(number) => format!(in alloc; "{sign}R{number}")?,
        Storage::Temporary(number) => format!(in alloc; "{sign}T{number}")?,
        Storage::Constant(number) => format!(in alloc; "{sign}C{number}")?,
        Storage::Variable(number) => format!(in alloc; "{sign}V{number}")?,
    })
}
