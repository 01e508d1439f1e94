// The pieces that code is put together from.
ghost use Rattle.std.specs.Prelude.{◌<◌, ◌+◌, ◌≤◌, length, IfOk, OnOk};
ghost use Rattle.s80_base.specs.Literal.{literal_of};
ghost use Rattle.s80_code.specs.Entries.{entries_of};
ghost use Rattle.s80_core.specs.Core as tree;
ghost use Rattle.s80_core.specs.Core.{leaf_of, variable_of};
ghost use Rattle.s80_core.specs.Measures.{InRange, constant_entries, leaf_entries, selector_entries, variable_entries};
ghost use Rattle.s80_compile.specs.Rows.{Pushes, SendsTo, Stores};
ghost use Rattle.s80_compile.specs.Emitted.{AddsChoice, AddsEnd, AddsNil, AddsTakes, ClosesLoop, Emitted, HasRoom, HasStorage, LeafInRange, OneRow, constant_width};

use crate::assembler::{
    jump, jump_back, jump_unless, pop, pop_into, push, push_context, push_fixed, send,
    send_special, send_to_super, store,
};
use crate::entry;
use crate::fixed::fixed_number;
use s80_base::{Literal, OutOfMemory, Text};
use s80_code::{Frame, Storage, special_number};
use s80_core::{Leaf, Variable};
use s80_scope::Position;
use std::alloc::Global;

/// Pops a value that isn't wanted.
pub(crate) fn end(code: &mut Text, position: Position) -> Result<(), OutOfMemory>
    ensures { OnOk result (AddsEnd position code.old code.new) }
{
    match position {
        Position::Value => Ok(()),
        Position::Effect => pop(code),
    }
}

/// Pushes nil where a value is wanted.
pub(crate) fn nil_for(code: &mut Text, position: Position) -> Result<(), OutOfMemory>
    ensures { OnOk result (AddsNil position code.old code.new) }
{
    match position {
        Position::Value => push_fixed(code, 3),
        Position::Effect => Ok(()),
    }
}

/// Where a variable is kept.
pub(crate) fn storage_of(
    alloc: Global,
    frame: &mut Frame,
    variable: &Variable,
) -> Result<Storage, OutOfMemory>
    requires room { HasRoom (entries_of frame.old) (variable_entries (variable_of variable.now)) }
    requires range { InRange 64 (variable_of variable.now) }
    ensures { IfOk result (HasStorage (variable_of variable.now) (entries_of frame.old) (entries_of frame.new)) }
{
    match variable {
        Variable::Temporary(number) => Ok(Storage::Temporary(*number)),
        Variable::Instance(place) => Ok(Storage::Receiver(*place)),
        Variable::Class(class, word) => {
            let number = entry::class_variable(alloc, frame, class, word)?;
            Ok(Storage::Variable(number))
        }
        Variable::Outer(word) => Ok(Storage::Variable(entry::outer(alloc, frame, word)?)),
    }
}

/// Pushes a constant.
pub(crate) fn constant(
    alloc: Global,
    frame: &mut Frame,
    code: &mut Text,
    literal: &Literal,
) -> Result<(), OutOfMemory>
    requires { HasRoom (entries_of frame.old) (constant_entries (literal_of literal.now)) }
    ensures { OnOk result (Emitted (OneRow (λ entries i. Pushes entries (tree.constant (literal_of literal.now)) i)) (constant_entries (literal_of literal.now)) (constant_width (literal_of literal.now)) (entries_of frame.old) (entries_of frame.new) code.old code.new) }
{
    match fixed_number(literal) {
        Some(number) => push_fixed(code, number),
        None => {
            let number = entry::constant(alloc, frame, literal)?;
            push(code, Storage::Constant(number))
        }
    }
}

/// Pushes what one instruction pushes.
pub(crate) fn push_leaf(
    alloc: Global,
    frame: &mut Frame,
    code: &mut Text,
    leaf: &Leaf,
) -> Result<(), OutOfMemory>
    requires room { HasRoom (entries_of frame.old) (leaf_entries (leaf_of leaf.now)) }
    requires range { LeafInRange 64 (leaf_of leaf.now) }
    ensures { OnOk result (Emitted (OneRow (λ entries i. Pushes entries (leaf_of leaf.now) i)) (leaf_entries (leaf_of leaf.now)) 2 (entries_of frame.old) (entries_of frame.new) code.old code.new) }
{
    match leaf {
        Leaf::Variable(variable) => {
            let storage = storage_of(alloc, frame, variable)?;
            push(code, storage)
        }
        Leaf::Constant(literal) => constant(alloc, frame, code, literal),
        Leaf::Receiver => push_fixed(code, 0),
        Leaf::Context => push_context(code),
    }
}

/// Stores the value on top into a variable, and leaves it where it is wanted.
pub(crate) fn store_into(
    alloc: Global,
    frame: &mut Frame,
    code: &mut Text,
    variable: &Variable,
    position: Position,
) -> Result<(), OutOfMemory>
    requires room { HasRoom (entries_of frame.old) (variable_entries (variable_of variable.now)) }
    requires range { InRange 64 (variable_of variable.now) }
    ensures { OnOk result (Emitted (OneRow (λ entries i. Stores entries (variable_of variable.now) position i)) (variable_entries (variable_of variable.now)) 2 (entries_of frame.old) (entries_of frame.new) code.old code.new) }
{
    let storage = storage_of(alloc, frame, variable)?;
    match position {
        Position::Value => store(code, storage),
        Position::Effect => pop_into(code, storage),
    }
}

/// Sends a message whose receiver and arguments are on top.
pub(crate) fn send_selector(
    alloc: Global,
    frame: &mut Frame,
    code: &mut Text,
    to_super: bool,
    selector: &Text,
    arguments: u8,
) -> Result<(), OutOfMemory>
    requires { HasRoom (entries_of frame.old) (selector_entries to_super selector.now) }
    ensures { OnOk result (Emitted (OneRow (λ entries i. SendsTo entries to_super selector.now arguments i)) (selector_entries to_super selector.now) 3 (entries_of frame.old) (entries_of frame.new) code.old code.new) }
{
    if to_super {
        let number = entry::selector(alloc, frame, selector)?;
        return send_to_super(code, arguments, number);
    }
    match special_number(selector.bytes()) {
        Some(number) => send_special(code, number),
        None => {
            let number = entry::selector(alloc, frame, selector)?;
            send(code, arguments, number)
        }
    }
}

/// A jump to the second arm, the first, a jump past the second, and the second.
pub(crate) fn choose(
    code: &mut Text,
    on: bool,
    mut first: Text,
    second: &Text,
) -> Result<(), OutOfMemory>
    requires first { length first ≤ 1021 }
    requires second { length second.now < 1024 }
    ensures { OnOk result (AddsChoice on first second.now code.old code.new) }
{
    jump(&mut first, second.bytes().len())?;
    jump_unless(code, on, first.bytes().len())?;
    code.append(first.bytes())?;
    code.append(second.bytes())
}

/// Pops into so many parameters from this one on, the last of them first.
pub(crate) fn take_parameters(code: &mut Text, first: u8, parameters: u8) -> Result<(), OutOfMemory>
    requires { first + parameters ≤ 31 }
    ensures { OnOk result (AddsTakes first parameters code.old code.new) }
{
    for number in 0..parameters {
        pop_into(code, Storage::Temporary(first + parameters - 1 - number))?;
    }
    Ok(())
}

/// Behind the condition of a loop a jump to its end, the body and a jump back.
pub(crate) fn close_loop(turn: &mut Text, on: bool, body: &Text) -> Result<(), OutOfMemory>
    requires { length turn.old + length body.now ≤ 1019 }
    ensures { OnOk result (ClosesLoop on body.now turn.old turn.new) }
{
    jump_unless(turn, on, body.bytes().len() + 2)?;
    turn.append(body.bytes())?;
    let distance = turn.bytes().len() + 1;
    jump_back(turn, distance)
}
