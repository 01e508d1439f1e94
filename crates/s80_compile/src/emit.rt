// Code for core trees. A part that is jumped over is made in bytes of its own and put behind the jump, whose distance is
// then known: code may stand anywhere, and a part is copied once for each part around it.
ghost use Rattle.std.specs.Prelude.{[], IfOk, OnOk};
ghost use Rattle.s80_code.specs.Entries.{entries_of};
ghost use Rattle.s80_core.specs.Core as tree;
ghost use Rattle.s80_core.specs.Core.{core_of, cores_of, leaf_of, send_of, sends_of, variable_of};
ghost use Rattle.s80_scope.specs.declared.fit.position.Position.TheVariants.{Effect, Value};
ghost use Rattle.s80_compile.specs.Emitted.{AllFit, AreEmitted, AreSent, Fits, IsEmitted, IsMessageEmitted, MessageFits, SendsFit};

use crate::assembler::{
    duplicate, far_jump, jump_unless, pop, push_context, push_fixed, return_fixed,
    return_from_block, return_top, send_special,
};
use crate::pieces::{
    choose, close_loop, constant, end, nil_for, push_leaf, send_selector, store_into,
    take_parameters,
};
use s80_base::{Literal, OutOfMemory, Text};
use s80_code::{BLOCK_COPY, Frame};
use s80_core::{Core, CoreMessage, CoreMessages, Cores, Leaf, Variable};
use s80_scope::Position;
use std::alloc::Global;

/// The code of a core tree, in bytes of its own.
#[cycle(emit)]
fn apart(
    alloc: Global,
    frame: &mut Frame,
    core: &Core,
    position: Position,
) -> Result<Text, OutOfMemory>
    requires { Fits (entries_of frame.old) (core_of core.now) position }
    ensures { IfOk result (IsEmitted (core_of core.now) position (entries_of frame.old) (entries_of frame.new) []) }
{
    let mut code = Text::empty(alloc);
    emit(alloc, frame, &mut code, core, position)?;
    Ok(code)
}

/// The code of a core tree, behind other code.
#[cycle(emit)]
pub(crate) fn emit(
    alloc: Global,
    frame: &mut Frame,
    code: &mut Text,
    core: &Core,
    position: Position,
) -> Result<(), OutOfMemory>
    requires { Fits (entries_of frame.old) (core_of core.now) position }
    ensures { OnOk result (IsEmitted (core_of core.now) position (entries_of frame.old) (entries_of frame.new) code.old code.new) }
{
    match core {
        Core::Leaf(of) => leaf(alloc, frame, code, of, position),
        Core::Assign(variable, inner) => assign(alloc, frame, code, variable, inner, position),
        Core::Value(inner) => value(alloc, frame, code, inner, position),
        Core::Send {
            receiver,
            to_super,
            message,
        } => sent(alloc, frame, code, receiver, *to_super, message, position),
        Core::Cascade {
            receiver,
            to_super,
            messages,
        } => cascade(alloc, frame, code, receiver, *to_super, messages, position),
        Core::RealBlock {
            first,
            parameters,
            body,
        } => real_block(alloc, frame, code, *first, *parameters, body, position),
        Core::TwoArms {
            on,
            condition,
            first,
            second,
        } => two_arms(alloc, frame, code, *on, condition, first, second, position),
        Core::OneArm { on, condition, arm } => match position {
            Position::Value => arm_value(alloc, frame, code, *on, condition, arm),
            Position::Effect => arm_effect(alloc, frame, code, *on, condition, arm),
        },
        Core::Shortcut { on, condition, arm } => {
            shortcut(alloc, frame, code, *on, condition, arm, position)
        }
        Core::Loop {
            on,
            condition,
            body,
        } => repeat(alloc, frame, code, *on, condition, body, position),
        Core::Nothing => nil_for(code, position),
        Core::Then(first, second) => before(alloc, frame, code, first, second, position),
        Core::Return(inner) => answer(alloc, frame, code, inner, position),
        Core::ReturnFixed(number) => return_fixed(code, *number),
        Core::Leave(inner) => leave(alloc, frame, code, inner, position),
    }
}

/// One push.
fn leaf(
    alloc: Global,
    frame: &mut Frame,
    code: &mut Text,
    of: &Leaf,
    position: Position,
) -> Result<(), OutOfMemory>
    requires { Fits (entries_of frame.old) (tree.leaf (leaf_of of.now)) position }
    ensures { OnOk result (IsEmitted (tree.leaf (leaf_of of.now)) position (entries_of frame.old) (entries_of frame.new) code.old code.new) }
{
    push_leaf(alloc, frame, code, of)?;
    end(code, position)
}

/// A value, and its store.
#[cycle(emit)]
fn assign(
    alloc: Global,
    frame: &mut Frame,
    code: &mut Text,
    variable: &Variable,
    value: &Core,
    position: Position,
) -> Result<(), OutOfMemory>
    requires { Fits (entries_of frame.old) (tree.assign (variable_of variable.now) (core_of value.now)) position }
    ensures { OnOk result (IsEmitted (tree.assign (variable_of variable.now) (core_of value.now)) position (entries_of frame.old) (entries_of frame.new) code.old code.new) }
{
    emit(alloc, frame, code, value, Position::Value)?;
    store_into(alloc, frame, code, variable, position)
}

/// An expression in parentheses.
#[cycle(emit)]
fn value(
    alloc: Global,
    frame: &mut Frame,
    code: &mut Text,
    inner: &Core,
    position: Position,
) -> Result<(), OutOfMemory>
    requires { Fits (entries_of frame.old) (tree.value (core_of inner.now)) position }
    ensures { OnOk result (IsEmitted (tree.value (core_of inner.now)) position (entries_of frame.old) (entries_of frame.new) code.old code.new) }
{
    emit(alloc, frame, code, inner, Position::Value)?;
    end(code, position)
}

/// A message.
#[cycle(emit)]
fn sent(
    alloc: Global,
    frame: &mut Frame,
    code: &mut Text,
    receiver: &Core,
    to_super: bool,
    message: &CoreMessage,
    position: Position,
) -> Result<(), OutOfMemory>
    requires { Fits (entries_of frame.old) (tree.send (core_of receiver.now) to_super (send_of message.now).0 (send_of message.now).1) position }
    ensures { OnOk result (IsEmitted (tree.send (core_of receiver.now) to_super (send_of message.now).0 (send_of message.now).1) position (entries_of frame.old) (entries_of frame.new) code.old code.new) }
{
    emit(alloc, frame, code, receiver, Position::Value)?;
    emit_message(alloc, frame, code, to_super, message)?;
    end(code, position)
}

/// Messages to one receiver.
#[cycle(emit)]
fn cascade(
    alloc: Global,
    frame: &mut Frame,
    code: &mut Text,
    receiver: &Core,
    to_super: bool,
    messages: &CoreMessages,
    position: Position,
) -> Result<(), OutOfMemory>
    requires { Fits (entries_of frame.old) (tree.cascade (core_of receiver.now) to_super (sends_of messages.now)) position }
    ensures { OnOk result (IsEmitted (tree.cascade (core_of receiver.now) to_super (sends_of messages.now)) position (entries_of frame.old) (entries_of frame.new) code.old code.new) }
{
    emit(alloc, frame, code, receiver, Position::Value)?;
    emit_messages(alloc, frame, code, to_super, messages)?;
    end(code, position)
}

/// A block that is an object.
#[cycle(emit)]
fn real_block(
    alloc: Global,
    frame: &mut Frame,
    code: &mut Text,
    first: u8,
    parameters: u8,
    body: &Core,
    position: Position,
) -> Result<(), OutOfMemory>
    requires { Fits (entries_of frame.old) (tree.real_block first parameters (core_of body.now)) position }
    ensures { OnOk result (IsEmitted (tree.real_block first parameters (core_of body.now)) position (entries_of frame.old) (entries_of frame.new) code.old code.new) }
{
    push_context(code)?;
    constant(alloc, frame, code, &Literal::Small(i32::from(parameters)))?;
    send_special(code, BLOCK_COPY)?;
    let mut inner = Text::empty(alloc);
    take_parameters(&mut inner, first, parameters)?;
    emit(alloc, frame, &mut inner, body, Position::Effect)?;
    far_jump(code, inner.bytes().len())?;
    code.append(inner.bytes())?;
    end(code, position)
}

/// Two arms.
#[cycle(emit)]
fn two_arms(
    alloc: Global,
    frame: &mut Frame,
    code: &mut Text,
    on: bool,
    condition: &Core,
    first: &Core,
    second: &Core,
    position: Position,
) -> Result<(), OutOfMemory>
    requires { Fits (entries_of frame.old) (tree.two_arms on (core_of condition.now) (core_of first.now) (core_of second.now)) position }
    ensures { OnOk result (IsEmitted (tree.two_arms on (core_of condition.now) (core_of first.now) (core_of second.now)) position (entries_of frame.old) (entries_of frame.new) code.old code.new) }
{
    emit(alloc, frame, code, condition, Position::Value)?;
    let first = apart(alloc, frame, first, position)?;
    let second = apart(alloc, frame, second, position)?;
    choose(code, on, first, &second)
}

/// One arm whose value is wanted.
#[cycle(emit)]
fn arm_value(
    alloc: Global,
    frame: &mut Frame,
    code: &mut Text,
    on: bool,
    condition: &Core,
    arm: &Core,
) -> Result<(), OutOfMemory>
    requires { Fits (entries_of frame.old) (tree.one_arm on (core_of condition.now) (core_of arm.now)) Value }
    ensures { OnOk result (IsEmitted (tree.one_arm on (core_of condition.now) (core_of arm.now)) Value (entries_of frame.old) (entries_of frame.new) code.old code.new) }
{
    emit(alloc, frame, code, condition, Position::Value)?;
    let arm = apart(alloc, frame, arm, Position::Value)?;
    let mut other = Text::empty(alloc);
    nil_for(&mut other, Position::Value)?;
    choose(code, on, arm, &other)
}

/// One arm whose value isn't wanted.
#[cycle(emit)]
fn arm_effect(
    alloc: Global,
    frame: &mut Frame,
    code: &mut Text,
    on: bool,
    condition: &Core,
    arm: &Core,
) -> Result<(), OutOfMemory>
    requires { Fits (entries_of frame.old) (tree.one_arm on (core_of condition.now) (core_of arm.now)) Effect }
    ensures { OnOk result (IsEmitted (tree.one_arm on (core_of condition.now) (core_of arm.now)) Effect (entries_of frame.old) (entries_of frame.new) code.old code.new) }
{
    emit(alloc, frame, code, condition, Position::Value)?;
    let arm = apart(alloc, frame, arm, Position::Effect)?;
    jump_unless(code, on, arm.bytes().len())?;
    code.append(arm.bytes())
}

/// `and:` and `or:`.
#[cycle(emit)]
fn shortcut(
    alloc: Global,
    frame: &mut Frame,
    code: &mut Text,
    on: bool,
    condition: &Core,
    arm: &Core,
    position: Position,
) -> Result<(), OutOfMemory>
    requires { Fits (entries_of frame.old) (tree.shortcut on (core_of condition.now) (core_of arm.now)) position }
    ensures { OnOk result (IsEmitted (tree.shortcut on (core_of condition.now) (core_of arm.now)) position (entries_of frame.old) (entries_of frame.new) code.old code.new) }
{
    emit(alloc, frame, code, condition, Position::Value)?;
    let arm = apart(alloc, frame, arm, Position::Value)?;
    let mut other = Text::empty(alloc);
    push_fixed(&mut other, if on { 2 } else { 1 })?;
    choose(code, on, arm, &other)?;
    end(code, position)
}

/// A loop.
#[cycle(emit)]
fn repeat(
    alloc: Global,
    frame: &mut Frame,
    code: &mut Text,
    on: bool,
    condition: &Core,
    body: &Core,
    position: Position,
) -> Result<(), OutOfMemory>
    requires { Fits (entries_of frame.old) (tree.repeat on (core_of condition.now) (core_of body.now)) position }
    ensures { OnOk result (IsEmitted (tree.repeat on (core_of condition.now) (core_of body.now)) position (entries_of frame.old) (entries_of frame.new) code.old code.new) }
{
    let mut turn = apart(alloc, frame, condition, Position::Value)?;
    let body = apart(alloc, frame, body, Position::Effect)?;
    close_loop(&mut turn, on, &body)?;
    code.append(turn.bytes())?;
    nil_for(code, position)
}

/// One after the other.
#[cycle(emit)]
fn before(
    alloc: Global,
    frame: &mut Frame,
    code: &mut Text,
    first: &Core,
    second: &Core,
    position: Position,
) -> Result<(), OutOfMemory>
    requires { Fits (entries_of frame.old) (tree.before (core_of first.now) (core_of second.now)) position }
    ensures { OnOk result (IsEmitted (tree.before (core_of first.now) (core_of second.now)) position (entries_of frame.old) (entries_of frame.new) code.old code.new) }
{
    emit(alloc, frame, code, first, Position::Effect)?;
    emit(alloc, frame, code, second, position)
}

/// A return of a value.
#[cycle(emit)]
fn answer(
    alloc: Global,
    frame: &mut Frame,
    code: &mut Text,
    value: &Core,
    position: Position,
) -> Result<(), OutOfMemory>
    requires { Fits (entries_of frame.old) (tree.answer (core_of value.now)) position }
    ensures { OnOk result (IsEmitted (tree.answer (core_of value.now)) position (entries_of frame.old) (entries_of frame.new) code.old code.new) }
{
    emit(alloc, frame, code, value, Position::Value)?;
    return_top(code)
}

/// The end of a real block.
#[cycle(emit)]
fn leave(
    alloc: Global,
    frame: &mut Frame,
    code: &mut Text,
    value: &Core,
    position: Position,
) -> Result<(), OutOfMemory>
    requires { Fits (entries_of frame.old) (tree.leave (core_of value.now)) position }
    ensures { OnOk result (IsEmitted (tree.leave (core_of value.now)) position (entries_of frame.old) (entries_of frame.new) code.old code.new) }
{
    emit(alloc, frame, code, value, Position::Value)?;
    return_from_block(code)
}

/// A message: its arguments, and its send.
#[cycle(emit)]
fn emit_message(
    alloc: Global,
    frame: &mut Frame,
    code: &mut Text,
    to_super: bool,
    message: &CoreMessage,
) -> Result<(), OutOfMemory>
    requires { MessageFits (entries_of frame.old) to_super (send_of message.now) }
    ensures { OnOk result (IsMessageEmitted to_super (send_of message.now) (entries_of frame.old) (entries_of frame.new) code.old code.new) }
{
    arguments(alloc, frame, code, &message.arguments)?;
    let count = message.arguments.items.len() as u8;
    send_selector(alloc, frame, code, to_super, &message.selector, count)
}

#[cycle(emit)]
fn arguments(
    alloc: Global,
    frame: &mut Frame,
    code: &mut Text,
    arguments: &Cores,
) -> Result<(), OutOfMemory>
    requires { AllFit (entries_of frame.old) (cores_of arguments.now) }
    ensures { OnOk result (AreEmitted (cores_of arguments.now) (entries_of frame.old) (entries_of frame.new) code.old code.new) }
{
    for argument in &arguments.items {
        emit(alloc, frame, code, argument, Position::Value)?;
    }
    Ok(())
}

/// Messages to the receiver on top: each but the last to a duplicate, with its value popped.
#[cycle(emit)]
fn emit_messages(
    alloc: Global,
    frame: &mut Frame,
    code: &mut Text,
    to_super: bool,
    messages: &CoreMessages,
) -> Result<(), OutOfMemory>
    requires { SendsFit (entries_of frame.old) to_super (sends_of messages.now) }
    ensures { OnOk result (AreSent to_super (sends_of messages.now) (entries_of frame.old) (entries_of frame.new) code.old code.new) }
{
    let Some((last, before)) = messages.items.split_last() else {
        return Ok(());
    };
    for message in before {
        duplicate(code)?;
        emit_message(alloc, frame, code, to_super, message)?;
        pop(code)?;
    }
    emit_message(alloc, frame, code, to_super, last)
}
