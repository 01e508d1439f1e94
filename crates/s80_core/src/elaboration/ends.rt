// Statements, and what bodies end with.
ghost use Rattle.std.specs.Prelude.{◌≡◌, IfOk, map};
ghost use Rattle.s80_tree.specs.Tree.{expr_of, primary_of};
ghost use Rattle.s80_scope.specs.FitWeight.{short_returns};
ghost use Rattle.s80_core.specs.Core.{core_of};
ghost use Rattle.s80_core.specs.Elaborate.{empty_body, fixed_primary, fixed_return, last_statement, place_in, statement};
ghost use Rattle.s80_core.specs.Walk.{joined};

use super::Enclosing;
use crate::core_tree::Core;
use s80_base::OutOfMemory;
use s80_tree::{Expr, Primary};
use std::alloc::Global;

/// A statement, which may return.
pub(super) fn statement(
    alloc: Global,
    returns: bool,
    expr: &Expr,
    value: Core,
) -> Result<Core, OutOfMemory>
    ensures { IfOk result (λ core. core_of core ≡ statement returns (expr_of expr.now) (core_of value)) }
{
    if !returns {
        return Ok(value);
    }
    if let Some(number) = fixed_return(expr) {
        return Ok(Core::fixed(number));
    }
    Ok(Core::returned(Box::new(alloc, value)?))
}

/// The last statement of a body.
pub(super) fn last_statement(
    alloc: Global,
    within: Enclosing,
    returns: bool,
    expr: &Expr,
    value: Core,
) -> Result<Core, OutOfMemory>
    ensures { IfOk result (λ core. core_of core ≡ last_statement within returns (expr_of expr.now) (core_of value)) }
{
    match (within, returns) {
        (Enclosing::Block, false) => Ok(Core::leave(Box::new(alloc, value)?)),
        (Enclosing::Method, false) => {
            let first = Box::new(alloc, value)?;
            Ok(Core::then(first, Box::new(alloc, Core::fixed(0))?))
        }
        (Enclosing::DoIt, _) => Ok(Core::returned(Box::new(alloc, value)?)),
        (Enclosing::Arm, _) | (Enclosing::Block | Enclosing::Method, true) => {
            statement(alloc, returns, expr, value)
        }
    }
}

/// A body without statements.
pub(super) fn empty_body(alloc: Global, within: Enclosing) -> Result<Core, OutOfMemory>
    ensures { IfOk result (λ core. core_of core ≡ empty_body within) }
{
    match within {
        Enclosing::Arm => Ok(Core::nothing()),
        Enclosing::Block => Ok(Core::leave(Box::new(alloc, Core::nothing())?)),
        Enclosing::Method => Ok(Core::fixed(0)),
        Enclosing::DoIt => Ok(Core::fixed(3)),
    }
}

/// What is returned by one instruction: the receiver, true, false and nil, from 0 on, by themselves.
fn fixed_return(expr: &Expr) -> Option<u8>
    ensures { result ≡ fixed_return (expr_of expr.now) }
{
    if !expr.is_bare() {
        return None;
    }
    fixed_primary(&expr.receiver)
}

fn fixed_primary(primary: &Primary) -> Option<u8>
    ensures { result ≡ fixed_primary (primary_of primary.now) }
{
    match primary {
        Primary::Name(name) => fixed_word(name.name.bytes()),
        Primary::Literal(_) | Primary::Block(_) | Primary::Paren(_) => None,
    }
}

fn fixed_word(word: &[u8]) -> Option<u8>
    ensures { result ≡ place_in short_returns word.now }
{
    if word == b"self".as_slice() {
        Some(0)
    } else if word == b"true".as_slice() {
        Some(1)
    } else if word == b"false".as_slice() {
        Some(2)
    } else if word == b"nil".as_slice() {
        Some(3)
    } else {
        None
    }
}

/// Trees for their effect alone, and then the last.
pub(super) fn joined(alloc: Global, before: Vec<Core>, last: Core) -> Result<Core, OutOfMemory>
    ensures { IfOk result (λ core. core_of core ≡ joined (map core_of before.items) (core_of last)) }
{
    let mut before = before;
    let mut made = last;
    while let Some(core) = before.pop() {
        let first = Box::new(alloc, core)?;
        made = Core::then(first, Box::new(alloc, made)?);
    }
    Ok(made)
}
