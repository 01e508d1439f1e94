// Where an expression or a body stands.
ghost use Rattle.std.specs.Prelude.{◌≡◌, nat_eq, if◌then◌else◌};
ghost use Rattle.s80_syntax.specs.Word.{has_name};
ghost use Rattle.s80_tree.specs.Name.{names_of};
ghost use Rattle.s80_tree.specs.Tree.{expr_of, primary_of};
ghost use Rattle.s80_scope.specs.FitWeight.{arm_leaves, arm_position, dropped, empty_weight, is_short, is_short_name, method_leaves, own_weight, position_within, short_returns, statement_position, statement_weight};
ghost use Rattle.s80_scope.specs.Walk.{cut};
ghost use Rattle.s80_scope.specs.declared.fit.position.Leaves.TheVariants.{Nothing};

use crate::fit::ending::Ending;
use s80_tree::{Expr, NamesAt, Primary};

/// Whether the value of an expression is wanted.
#[derive(Clone, Copy, Debug, PartialEq, Eq)]
pub enum Position {
    Value,
    Effect,
}

/// What a body leaves when its last statement doesn't return.
#[derive(Clone, Copy, Debug, PartialEq, Eq)]
pub enum Leaves {
    /// A method's body, and the arm of a message whose value isn't wanted.
    Nothing,
    /// A block's body.
    Value,
    /// The body of a doIt, whose last statement is the answer, with a caret or without.
    Answer,
}

/// The position of what is assigned to targets, or to none.
pub(crate) fn position_within(targets: &NamesAt, position: Position) -> Position
    ensures { result ≡ position_within (names_of targets.now) position }
{
    if targets.items.is_empty() {
        position
    } else {
        Position::Value
    }
}

/// What the pop of a value that isn't wanted weighs.
pub(crate) fn dropped(position: Position, ending: Ending) -> u32
    ensures { result ≡ dropped position ending }
{
    match (position, ending) {
        (Position::Effect, Ending::Sent | Ending::Cascaded | Ending::Shortcut(_)) => 1,
        _ => 0,
    }
}

/// What a message weighs beside its arguments or arms.
pub(crate) fn own_weight(position: Position, ending: Ending) -> u32
    ensures { result ≡ own_weight position ending }
{
    match ending {
        Ending::Sent => 3,
        Ending::Cascaded => 5,
        Ending::TwoArms(_) => 4,
        Ending::Shortcut(_) => 6,
        Ending::OneArm(_) => match position {
            Position::Value => 6,
            Position::Effect => 2,
        },
        Ending::Loop(_) => match position {
            Position::Value => 6,
            Position::Effect => 4,
        },
    }
}

/// The position of the arms of a message.
pub(crate) fn arm_position(position: Position, ending: Ending) -> Position
    ensures { result ≡ arm_position position ending }
{
    match ending {
        Ending::Shortcut(_) => Position::Value,
        Ending::Loop(_) => Position::Effect,
        _ => position,
    }
}

/// What the body of an arm leaves.
pub(crate) fn arm_leaves(position: Position) -> Leaves
    ensures { result ≡ arm_leaves position }
{
    match position {
        Position::Value => Leaves::Value,
        Position::Effect => Leaves::Nothing,
    }
}

/// What an empty body weighs.
pub(crate) fn empty_weight(leaves: Leaves) -> u32
    ensures { result ≡ empty_weight leaves }
{
    match leaves {
        Leaves::Value => 2,
        _ => 0,
    }
}

/// What a statement leaves before so many others in a body.
pub(crate) fn leaves_before(after: usize, leaves: Leaves) -> Leaves
    ensures { result ≡ (if nat_eq after 0 then leaves else Nothing) }
{
    if after == 0 { leaves } else { Leaves::Nothing }
}

/// The position of a statement's expression.
pub(crate) fn statement_position(leaves: Leaves, returns: bool) -> Position
    ensures { result ≡ statement_position leaves returns }
{
    match leaves {
        Leaves::Nothing if !returns => Position::Effect,
        _ => Position::Value,
    }
}

/// What a statement weighs whose expression has this weight.
pub(crate) fn statement_weight(leaves: Leaves, returns: bool, expr: &Expr, weight: u32) -> u32
    ensures { result ≡ cut (statement_weight leaves returns (expr_of expr.now) weight) }
{
    if leaves == Leaves::Answer || !returns {
        weight
    } else if is_short(expr) {
        1
    } else {
        weight.saturating_add(1)
    }
}

/// Whether an expression is returned by one instruction and without a push.
fn is_short(expr: &Expr) -> bool
    ensures { result ≡ is_short (expr_of expr.now) }
{
    expr.is_bare() && is_short_name(&expr.receiver)
}

fn is_short_name(primary: &Primary) -> bool
    ensures { result ≡ is_short_name (primary_of primary.now) }
{
    match primary {
        Primary::Name(name) => is_short_word(name.name.bytes()),
        Primary::Literal(_) | Primary::Block(_) | Primary::Paren(_) => false,
    }
}

fn is_short_word(word: &[u8]) -> bool
    ensures { result ≡ has_name short_returns word.now }
{
    word == b"self".as_slice()
        || word == b"true".as_slice()
        || word == b"false".as_slice()
        || word == b"nil".as_slice()
}

/// What the body of a method leaves: an empty selector is a doIt's.
pub(crate) fn method_leaves(selector: &[u8]) -> Leaves
    ensures { result ≡ method_leaves selector.now }
{
    if selector.is_empty() {
        Leaves::Answer
    } else {
        Leaves::Nothing
    }
}
