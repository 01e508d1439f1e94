// The rules on operands.
ghost use Rattle.std.specs.Prelude.{◌≡◌, ℕ, ◌<◌, ◌↔◌, IsTrue, Some, option_map, length, slice_get};
ghost use Rattle.s80_code.specs.Entries.{entry_of, entries_of};
ghost use Rattle.s80_verify.specs.Found.{ArePlaces, CountsAt, IsBeginning, IsLongJump};
ghost use Rattle.s80_code.specs.Special.{block_copy};
ghost use Rattle.s80_code.specs.Table.{Stands};
ghost use Rattle.s80_verify.specs.Operands.{HasVariable, IsReadable, IsWritable, Sends, HasOwner, Suits};
ghost use Rattle.s80_verify.specs.Reach.{Begins, Counts};
ghost use Rattle.s80_lex.specs.Selector.{IsSelectorOf};
ghost use Rattle.s80_code.specs.declared.instruction.Instruction.TheVariants.{PushContext, SendSpecial};

use crate::header::before_owner;
use crate::places::Places;
use crate::stack::Stack;
use s80_base::{Literal, Text};
use s80_code::{BLOCK_COPY, Code, Entry, Instruction, Storage, decode};
use s80_lex::parameters_of;

/// The beginning of a real block, by its 200.
#[derive(Clone, Copy, Drop)]
pub(crate) struct Beginning {
    /// Where the number of arguments is pushed.
    pub push: u32,
    pub arguments: u32,
    /// Where the jump over the block stands.
    pub jump: u32,
    /// Where the block starts.
    pub start: u32,
}

fn entry(code: &Code, number: u8) -> Option<&Entry>
    ensures { option_map (λ e. entry_of e.now) result ≡ slice_get (entries_of code.now.literals) number }
{
    code.literals.items.get(usize::from(number))
}

fn has_variable(code: &Code, number: u8) -> bool
    ensures { IsTrue result ↔ HasVariable code.now number }
{
    matches!(
        entry(code, number),
        Some(Entry::ClassVar(..) | Entry::Outer(_))
    )
}

fn is_readable(code: &Code, storage: Storage) -> bool
    ensures { IsTrue result ↔ IsReadable code.now storage }
{
    match storage {
        Storage::Receiver(_) => true,
        Storage::Temporary(number) => number < code.temporaries,
        Storage::Constant(number) => matches!(entry(code, number), Some(Entry::Const(_))),
        Storage::Variable(number) => has_variable(code, number),
    }
}

fn is_writable(code: &Code, storage: Storage) -> bool
    ensures { IsTrue result ↔ IsWritable code.now storage }
{
    match storage {
        Storage::Receiver(_) => true,
        Storage::Temporary(number) => number < code.temporaries,
        Storage::Constant(_) => false,
        Storage::Variable(number) => has_variable(code, number),
    }
}

/// Whether an entry is a selector with so many parameters.
fn sends(code: &Code, arguments: u8, number: u8) -> bool
    ensures { IsTrue result ↔ Sends code.now arguments number }
{
    match entry(code, number) {
        Some(Entry::Const(Literal::Symbol(word))) => has_parameters(word, arguments),
        _ => false,
    }
}

/// Whether a word is a selector with so many parameters.
fn has_parameters(word: &Text, arguments: u8) -> bool
    ensures { IsTrue result ↔ IsSelectorOf arguments word.now }
{
    match parameters_of(word.bytes()) {
        Some(count) => count == usize::from(arguments),
        None => false,
    }
}

fn has_owner(code: &Code) -> bool
    ensures { IsTrue result ↔ HasOwner code.now }
{
    match before_owner(code.literals.items.as_slice()) {
        Some(_) => true,
        None => false,
    }
}

/// The SmallInteger from 0 to 31 that an instruction pushes.
fn pushed(code: &Code, instruction: Instruction) -> Option<u32>
    ensures { (n : ℕ) → result ≡ Some n ↔ Counts code.now instruction n }
{
    match instruction {
        Instruction::PushFixed(number @ 5..=7) => Some(u32::from(number) - 5),
        Instruction::Push(Storage::Constant(number)) => match entry(code, number)? {
            Entry::Const(Literal::Small(n @ 0..=31)) => u32::try_from(*n).ok(),
            _ => None,
        },
        _ => None,
    }
}

/// The SmallInteger from 0 to 31 that the instruction at a place pushes.
fn count_at(code: &Code, at: u32) -> Option<u32>
    requires { length code.now.bytes < 1024 }
    ensures { (n : ℕ) → result ≡ Some n ↔ CountsAt code.now at n }
{
    let Some((instruction, _)) = decode(code, at) else {
        return None;
    };
    pushed(code, instruction)
}

fn is_context(code: &Code, at: u32) -> bool
    requires { length code.now.bytes < 1024 }
    ensures { IsTrue result ↔ ((next : ℕ) × Stands code.now.bytes at PushContext next) }
{
    matches!(decode(code, at), Some((Instruction::PushContext, _)))
}

/// The place behind a 200.
fn behind_copy(code: &Code, at: u32) -> Option<u32>
    requires { length code.now.bytes < 1024 }
    ensures { (next : ℕ) → result ≡ Some next ↔ Stands code.now.bytes at (SendSpecial block_copy) next }
{
    match decode(code, at) {
        Some((Instruction::SendSpecial(BLOCK_COPY), width)) => Some(at + width),
        _ => None,
    }
}

/// The beginning of a real block whose 200 stands at a place.
pub(crate) fn block_at(code: &Code, places: &Places, at: u32) -> Option<Beginning>
    requires short { length code.now.bytes < 1024 }
    requires places { ArePlaces code.now.bytes places.now.before }
    ensures { IsBeginning code.now at result }
{
    let Some(push) = places.before(at) else {
        return None;
    };
    let Some(arguments) = count_at(code, push) else {
        return None;
    };
    let Some(context) = places.before(push) else {
        return None;
    };
    if !is_context(code, context) {
        return None;
    }
    let Some(jump) = behind_copy(code, at) else {
        return None;
    };
    let Some(start) = long_jump(code, jump) else {
        return None;
    };
    Some(Beginning {
        push,
        arguments,
        jump,
        start,
    })
}

/// Whether a 200 stands in a real block's beginning.
fn begins_block(code: &Code, places: &Places, at: u32) -> bool
    requires short { length code.now.bytes < 1024 }
    requires places { ArePlaces code.now.bytes places.now.before }
    ensures { IsTrue result ↔ ((arguments start : ℕ) × Begins code.now at arguments start) }
{
    match block_at(code, places, at) {
        Some(_) => true,
        None => false,
    }
}

/// The place behind a jump by one of the bytes 164 to 167.
fn long_jump(code: &Code, at: u32) -> Option<u32>
    requires { length code.now.bytes < 1024 }
    ensures { IsLongJump code.now.bytes at result }
{
    let 164..=167 = code.bytes.bytes().get(at as usize)? else {
        return None;
    };
    let (Instruction::Jump(_), width) = decode(code, at)? else {
        return None;
    };
    Some(at + width)
}

/// Whether an instruction at a place follows the rules on operands.
pub(crate) fn suits(
    code: &Code,
    places: &Places,
    at: u32,
    stack: Stack,
    instruction: Instruction,
) -> bool
    requires short { length code.now.bytes < 1024 }
    requires places { ArePlaces code.now.bytes places.now.before }
    ensures { IsTrue result ↔ Suits code.now at stack instruction }
{
    match instruction {
        Instruction::Push(storage) => is_readable(code, storage),
        Instruction::Store(storage) | Instruction::PopInto(storage) => is_writable(code, storage),
        Instruction::Send {
            arguments,
            selector,
        } => sends(code, arguments, selector),
        Instruction::SendSuper {
            arguments,
            selector,
        } => sends(code, arguments, selector) && has_owner(code),
        Instruction::SendSpecial(BLOCK_COPY) => begins_block(code, places, at),
        Instruction::ReturnFromBlock => stack == Stack::OfBlock,
        _ => true,
    }
}
