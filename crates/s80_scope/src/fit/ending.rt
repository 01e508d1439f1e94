// How an expression ends: by a message that is sent, or by one that is compiled to jumps.
ghost use Rattle.std.specs.Prelude.{◌≡◌, map};
ghost use Rattle.s80_tree.specs.Tree.{expr_of, exprs_of, message_of, messages_from, primary_of};
ghost use Rattle.s80_scope.specs.FitStack.{values_below};
ghost use Rattle.s80_scope.specs.Inlined.{are_arms, branch, cascade_to_super, chain_ending, expr_ending, is_arm, is_inlined, is_loop, is_plain_block, loop_or_branch, message_ending};

use s80_tree::{Expr, Exprs, Message, Primary};

/// How an expression ends. The `bool` tells on which condition the first arm is taken, or a loop goes on.
#[derive(Clone, Copy, Debug, PartialEq, Eq)]
pub enum Ending {
    /// Its last message is sent, if it has one.
    Sent,
    /// The receiver of its last message gets the messages of a cascade too.
    Cascaded,
    /// `ifTrue:ifFalse:` and `ifFalse:ifTrue:`
    TwoArms(bool),
    /// `ifTrue:` and `ifFalse:`
    OneArm(bool),
    /// `and:` and `or:`
    Shortcut(bool),
    /// `whileTrue:` and `whileFalse:`
    Loop(bool),
}

impl Ending {
    /// Whether its last message is compiled to jumps.
    pub fn is_inlined(self) -> bool
        ensures { result ≡ is_inlined self }
    {
        !matches!(self, Ending::Sent | Ending::Cascaded)
    }

    pub fn is_loop(self) -> bool
        ensures { result ≡ is_loop self }
    {
        matches!(self, Ending::Loop(_))
    }

    /// How many values stand on the stack where the arguments of the last message begin.
    pub(crate) fn values_below(self) -> u32
        ensures { result ≡ values_below self }
    {
        match self {
            Ending::Cascaded => 2,
            _ => 1,
        }
    }
}

/// How an expression ends (Blue Book). Arms are literal blocks without parameters, written without parentheses.
#[tactic(auto, using(crate::proofs::lemmas::Opens::ending_is))]
pub fn ending_of(expr: &Expr) -> Ending
    ensures { result ≡ expr_ending (expr_of expr.now) }
{
    if !expr.cascades.items.is_empty() {
        return Ending::Cascaded;
    }
    let receiver = &expr.receiver;
    chain_ending(
        receiver.is_super(),
        is_plain_block(receiver),
        &expr.messages.items,
    )
}

/// How messages end, the first of which is sent to super or to what may be a condition.
fn chain_ending(to_super: bool, condition: bool, messages: &[Message]) -> Ending
    ensures { result ≡ chain_ending to_super condition (messages_from (map message_of messages.now)) }
{
    match messages {
        [] => Ending::Sent,
        [only] => message_ending(to_super, condition, only),
        [_, .., last] => message_ending(false, false, last),
    }
}

/// How a message ends a chain.
fn message_ending(to_super: bool, condition: bool, message: &Message) -> Ending
    ensures { result ≡ message_ending to_super condition (message_of message.now).0 (message_of message.now).1 }
{
    if to_super || !are_arms(&message.arguments) {
        return Ending::Sent;
    }
    let selector = message.selector.bytes();
    if condition {
        loop_or_branch(selector)
    } else {
        branch(selector)
    }
}

fn loop_or_branch(selector: &[u8]) -> Ending
    ensures { result ≡ loop_or_branch selector.now }
{
    if selector == b"whileTrue:".as_slice() {
        Ending::Loop(true)
    } else if selector == b"whileFalse:".as_slice() {
        Ending::Loop(false)
    } else {
        branch(selector)
    }
}

fn branch(selector: &[u8]) -> Ending
    ensures { result ≡ branch selector.now }
{
    if selector == b"ifTrue:ifFalse:".as_slice() {
        Ending::TwoArms(true)
    } else if selector == b"ifFalse:ifTrue:".as_slice() {
        Ending::TwoArms(false)
    } else if selector == b"ifTrue:".as_slice() {
        Ending::OneArm(true)
    } else if selector == b"ifFalse:".as_slice() {
        Ending::OneArm(false)
    } else if selector == b"and:".as_slice() {
        Ending::Shortcut(true)
    } else if selector == b"or:".as_slice() {
        Ending::Shortcut(false)
    } else {
        Ending::Sent
    }
}

fn are_arms(arguments: &Exprs) -> bool
    ensures { result ≡ are_arms (exprs_of arguments.now) }
{
    for argument in &arguments.items {
        if !is_arm(argument) {
            return false;
        }
    }
    true
}

fn is_arm(expr: &Expr) -> bool
    ensures { result ≡ is_arm (expr_of expr.now) }
{
    expr.is_bare() && is_plain_block(&expr.receiver)
}

/// Whether the messages of a cascade are sent to super, as the only message before them is.
#[tactic(auto, using(crate::proofs::lemmas::Opens::single_is))]
pub(crate) fn cascade_to_super(expr: &Expr) -> bool
    ensures { result ≡ cascade_to_super (expr_of expr.now) }
{
    if !expr.receiver.is_super() {
        return false;
    }
    expr.messages.items.len() == 1
}

fn is_plain_block(primary: &Primary) -> bool
    ensures { result ≡ is_plain_block (primary_of primary.now) }
{
    match primary {
        Primary::Block(block) => block.parameters.items.is_empty(),
        Primary::Name(_) | Primary::Literal(_) | Primary::Paren(_) => false,
    }
}
