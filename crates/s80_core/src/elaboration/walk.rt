// One walk over a tree. `number` is that of the next declaration, from which on the parameters of blocks are numbered.
ghost use Rattle.std.specs.Prelude.{◌≡◌, ◌+◌, IfOk, OnOk, Bool, List, ℕ, true, false};
ghost use Rattle.s80_tree.specs.Tree.{block as block_tree, block_of, body_of, expr_of, exprs_of, message_of, messages_of, primary_of};
ghost use Rattle.s80_tree.specs.declared.expr.Expr.{out-Expr};
ghost use Rattle.s80_scope.specs.FitStack.{body_parameters, expr_parameters, exprs_parameters, messages_parameters, primary_parameters};
ghost use Rattle.s80_scope.specs.Inlined.{are_arms, expr_ending, is_arm, is_inlined, is_plain_block};
ghost use Rattle.s80_scope.specs.Names.{body_uses, expr_uses, exprs_uses, messages_uses, primary_uses};
ghost use Rattle.s80_scope.specs.Walk.{last_has_arms};
ghost use Rattle.s80_core.specs.Core.{SendTrees, core_of, cores_of, sends_of};
ghost use Rattle.s80_core.specs.Elaborate.{arm_core, arms_core, body_core, chain_core, expr_core, exprs_core, last_core, receiver_core, sends_core};
ghost use Rattle.s80_core.specs.Walk.{IsHome, IsPart, arguments_core, ended, meaning_in};

use super::ends::{empty_body, joined, last_statement, statement};
use super::names::{assigned, leaf};
use super::{Enclosing, Home};
use crate::core_tree::{Core, CoreMessage, CoreMessages, Cores, Leaf};
use s80_base::{OutOfMemory, Text};
use s80_scope::{Ending, ending_of};
use s80_tree::{Block, Body, Expr, Exprs, Messages, Primary};
use std::alloc::Global;

/// A receiver that no message follows, or the last message to it with its arguments.
#[derive(Drop)]
enum Chain {
    Receiver(Core),
    Message(Core, bool, Text, Cores),
}

#[cycle(walk)]
fn expr(home: &Home, number: &mut u8, expr: &Expr) -> Result<Core, OutOfMemory>
    requires home { IsHome home.now }
    requires part { IsPart home.now number.old (expr_uses (expr_of expr.now)) (expr_parameters (expr_of expr.now)) }
    ensures core { IfOk result (λ core. core_of core ≡ expr_core (meaning_in home.now) number.old (expr_of expr.now)) }
    ensures number { OnOk result (number.new ≡ number.old + expr_parameters (expr_of expr.now)) }
{
    let ending = ending_of(expr);
    let to_super = expr.receiver.is_super();
    let first = receiver(home, number, ending.is_loop(), &expr.receiver)?;
    let chain = messages(home, number, &expr.messages, ending, first, to_super)?;
    let more = sends(home, number, &expr.cascades)?;
    let made = finished(home.alloc, chain, ending, more)?;
    assigned(home, &expr.targets.items, made)
}

/// What an expression begins with, which may be the condition of a loop.
#[cycle(walk)]
fn receiver(
    home: &Home,
    number: &mut u8,
    looped: bool,
    primary: &Primary,
) -> Result<Core, OutOfMemory>
    requires home { IsHome home.now }
    requires part { IsPart home.now number.old (primary_uses (primary_of primary.now)) (primary_parameters (primary_of primary.now)) }
    requires plain { looped ≡ true → is_plain_block (primary_of primary.now) ≡ true }
    ensures core { IfOk result (λ core. core_of core ≡ receiver_core (meaning_in home.now) looped number.old (primary_of primary.now)) }
    ensures number { OnOk result (number.new ≡ number.old + primary_parameters (primary_of primary.now)) }
{
    match primary {
        Primary::Name(name) => Ok(Core::leaf(leaf(home, name)?)),
        Primary::Literal(literal) => {
            let copy = literal.copy(home.alloc)?;
            Ok(Core::leaf(Leaf::Constant(copy)))
        }
        Primary::Paren(inner) => {
            let made = expr(home, number, inner)?;
            Ok(Core::value(Box::new(home.alloc, made)?))
        }
        Primary::Block(block) => {
            if looped {
                return body(home, number, Enclosing::Arm, &block.body);
            }
            real_block(home, number, block)
        }
    }
}

#[cycle(walk)]
fn real_block(home: &Home, number: &mut u8, block: &Block) -> Result<Core, OutOfMemory>
    requires home { IsHome home.now }
    requires part { IsPart home.now number.old (primary_uses (block_tree (block_of block.now).0 (block_of block.now).1)) (primary_parameters (block_tree (block_of block.now).0 (block_of block.now).1)) }
    ensures core { IfOk result (λ core. core_of core ≡ receiver_core (meaning_in home.now) false number.old (block_tree (block_of block.now).0 (block_of block.now).1)) }
    ensures number { OnOk result (number.new ≡ number.old + primary_parameters (block_tree (block_of block.now).0 (block_of block.now).1)) }
{
    let first = *number;
    let parameters = block.parameters.count() as u8;
    *number = first + parameters;
    let made = body(home, number, Enclosing::Block, &block.body)?;
    let inner = Box::new(home.alloc, made)?;
    Ok(Core::real_block(first, parameters, inner))
}

/// Messages to a receiver, the first of them to super or not. The last isn't sent yet.
#[cycle(walk)]
fn messages(
    home: &Home,
    number: &mut u8,
    messages: &Messages,
    ending: Ending,
    receiver: Core,
    to_super: bool,
) -> Result<Chain, OutOfMemory>
    requires home { IsHome home.now }
    requires part { IsPart home.now number.old (messages_uses (messages_of messages.now)) (messages_parameters (messages_of messages.now)) }
    requires arms { is_inlined ending ≡ true → last_has_arms (messages_of messages.now) ≡ true }
    ensures core { IfOk result (λ chain. (more : SendTrees) → ended chain ending more ≡ chain_core (meaning_in home.now) (core_of receiver) to_super ending number.old more (messages_of messages.now)) }
    ensures number { OnOk result (number.new ≡ number.old + messages_parameters (messages_of messages.now)) }
{
    let [before @ .., last] = messages.items.as_slice() else {
        return Ok(Chain::Receiver(receiver));
    };
    let mut made = receiver;
    let mut passed = to_super;
    for message in before {
        let selector = message.selector.copy(home.alloc)?;
        let arguments = exprs(home, number, &message.arguments)?;
        let sent = CoreMessage::new(selector, arguments);
        made = Core::send(Box::new(home.alloc, made)?, passed, sent);
        passed = false;
    }
    let selector = last.selector.copy(home.alloc)?;
    let arguments = last_arguments(home, number, ending, &last.arguments)?;
    Ok(Chain::Message(made, passed, selector, arguments))
}

/// The arguments of a chain's last message, which are arms where it is control.
#[cycle(walk)]
fn last_arguments(
    home: &Home,
    number: &mut u8,
    ending: Ending,
    arguments: &Exprs,
) -> Result<Cores, OutOfMemory>
    requires home { IsHome home.now }
    requires part { IsPart home.now number.old (exprs_uses (exprs_of arguments.now)) (exprs_parameters (exprs_of arguments.now)) }
    requires arms { is_inlined ending ≡ true → are_arms (exprs_of arguments.now) ≡ true }
    ensures cores { IfOk result (λ cores. cores_of cores ≡ arguments_core (meaning_in home.now) ending number.old (exprs_of arguments.now)) }
    ensures number { OnOk result (number.new ≡ number.old + exprs_parameters (exprs_of arguments.now)) }
{
    if ending.is_inlined() {
        arms(home, number, arguments)
    } else {
        exprs(home, number, arguments)
    }
}

/// The messages behind semicolons.
#[cycle(walk)]
fn sends(home: &Home, number: &mut u8, messages: &Messages) -> Result<CoreMessages, OutOfMemory>
    requires home { IsHome home.now }
    requires part { IsPart home.now number.old (messages_uses (messages_of messages.now)) (messages_parameters (messages_of messages.now)) }
    ensures sends { IfOk result (λ sends. sends_of sends ≡ sends_core (meaning_in home.now) number.old (messages_of messages.now)) }
    ensures number { OnOk result (number.new ≡ number.old + messages_parameters (messages_of messages.now)) }
{
    let mut made = CoreMessages::empty(home.alloc);
    for message in &messages.items {
        let selector = message.selector.copy(home.alloc)?;
        let arguments = exprs(home, number, &message.arguments)?;
        made.push(CoreMessage::new(selector, arguments))?;
    }
    Ok(made)
}

#[cycle(walk)]
fn exprs(home: &Home, number: &mut u8, exprs: &Exprs) -> Result<Cores, OutOfMemory>
    requires home { IsHome home.now }
    requires part { IsPart home.now number.old (exprs_uses (exprs_of exprs.now)) (exprs_parameters (exprs_of exprs.now)) }
    ensures cores { IfOk result (λ cores. cores_of cores ≡ exprs_core (meaning_in home.now) number.old (exprs_of exprs.now)) }
    ensures number { OnOk result (number.new ≡ number.old + exprs_parameters (exprs_of exprs.now)) }
{
    let mut made = Cores::empty(home.alloc);
    for one in &exprs.items {
        let core = expr(home, number, one)?;
        made.push(core)?;
    }
    Ok(made)
}

#[cycle(walk)]
fn arms(home: &Home, number: &mut u8, exprs: &Exprs) -> Result<Cores, OutOfMemory>
    requires home { IsHome home.now }
    requires part { IsPart home.now number.old (exprs_uses (exprs_of exprs.now)) (exprs_parameters (exprs_of exprs.now)) }
    requires arms { are_arms (exprs_of exprs.now) ≡ true }
    ensures cores { IfOk result (λ cores. cores_of cores ≡ arms_core (meaning_in home.now) number.old (exprs_of exprs.now)) }
    ensures number { OnOk result (number.new ≡ number.old + exprs_parameters (exprs_of exprs.now)) }
{
    let mut made = Cores::empty(home.alloc);
    for one in &exprs.items {
        let core = arm(home, number, one)?;
        made.push(core)?;
    }
    Ok(made)
}

/// The body of an arm.
#[cycle(walk)]
fn arm(home: &Home, number: &mut u8, expr: &Expr) -> Result<Core, OutOfMemory>
    requires home { IsHome home.now }
    requires part { IsPart home.now number.old (expr_uses (expr_of expr.now)) (expr_parameters (expr_of expr.now)) }
    requires arm { is_arm (expr_of expr.now) ≡ true }
    ensures core { IfOk result (λ core. core_of core ≡ arm_core (meaning_in home.now) number.old (expr_of expr.now)) }
    ensures number { OnOk result (number.new ≡ number.old + expr_parameters (expr_of expr.now)) }
{
    match &expr.receiver {
        Primary::Block(block) => body(home, number, Enclosing::Arm, &block.body),
        Primary::Name(_) | Primary::Literal(_) | Primary::Paren(_) => unreachable!(),
    }
}

#[cycle(walk)]
pub(super) fn body(
    home: &Home,
    number: &mut u8,
    within: Enclosing,
    statements: &Body,
) -> Result<Core, OutOfMemory>
    requires home { IsHome home.now }
    requires part { IsPart home.now number.old (body_uses (body_of statements.now)) (body_parameters (body_of statements.now)) }
    ensures core { IfOk result (λ core. core_of core ≡ body_core (meaning_in home.now) within number.old (body_of statements.now)) }
    ensures number { OnOk result (number.new ≡ number.old + body_parameters (body_of statements.now)) }
{
    let [before @ .., last] = statements.items.as_slice() else {
        return empty_body(home.alloc, within);
    };
    let mut made = Vec::new(home.alloc);
    for one in before {
        let value = expr(home, number, &one.expr)?;
        made.push(statement(home.alloc, one.returns, &one.expr, value)?)?;
    }
    let value = expr(home, number, &last.expr)?;
    let end = last_statement(home.alloc, within, last.returns, &last.expr, value)?;
    joined(home.alloc, made, end)
}

/// A chain with its ending, and with the messages behind semicolons.
fn finished(
    alloc: Global,
    chain: Chain,
    ending: Ending,
    more: CoreMessages,
) -> Result<Core, OutOfMemory>
    ensures { IfOk result (λ core. core_of core ≡ ended chain ending (sends_of more)) }
{
    match chain {
        Chain::Receiver(receiver) => Ok(receiver),
        Chain::Message(receiver, to_super, selector, arguments) => {
            let first = Box::new(alloc, receiver)?;
            match ending {
                Ending::Sent => Ok(Core::send(
                    first,
                    to_super,
                    CoreMessage::new(selector, arguments),
                )),
                Ending::Cascaded => {
                    let mut messages = more;
                    messages.put_first(CoreMessage::new(selector, arguments))?;
                    Ok(Core::cascade(first, to_super, messages))
                }
                _ => control(alloc, first, ending, arguments),
            }
        }
    }
}

/// A message that is control, with its condition and its arms.
fn control(
    alloc: Global,
    condition: Box<Core>,
    ending: Ending,
    arms: Cores,
) -> Result<Core, OutOfMemory>
    requires { is_inlined ending ≡ true }
    ensures { IfOk result (λ core. (s : List ℕ) (to_super : Bool) (more : SendTrees) → core_of core ≡ last_core ending (core_of condition.value) to_super s (cores_of arms) (cores_of arms) more) }
{
    let mut arms = arms;
    let first = Box::new(alloc, arms.take_first())?;
    match ending {
        Ending::TwoArms(on) => {
            let second = Box::new(alloc, arms.take_first())?;
            Ok(Core::two_arms(on, condition, first, second))
        }
        Ending::OneArm(on) => Ok(Core::one_arm(on, condition, first)),
        Ending::Shortcut(on) => Ok(Core::shortcut(on, condition, first)),
        Ending::Loop(on) => Ok(Core::repeat(on, condition, first)),
        Ending::Sent | Ending::Cascaded => unreachable!(),
    }
}
