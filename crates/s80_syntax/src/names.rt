// Names that are declared or assigned.
ghost use Rattle.std.specs.Prelude.{◌≡◌, ℕ, ◌<◌, List, Bool, IfOk, length};
ghost use Rattle.s80_lex.specs.Text.{IsSlice};
ghost use Rattle.s80_syntax.specs.Names.{IsDeclaredNext, ParsesParameters, ParsesTargets};
ghost use Rattle.s80_syntax.specs.Reads.{AreSlices, bytes_of};
ghost use Rattle.s80_syntax.specs.Scope.{assigns_in};

use crate::fault::ParseFault;
use crate::scope::{Scope, is_reserved};
use crate::tokens::{bytes, next_of, place_of, spelled};
use s80_base::OutOfMemory;
use s80_lex::{Token, TokenKind};
use s80_tree::{NameAt, NamesAt};
use std::alloc::Global;

/// A token as a name.
pub(crate) fn name_at(alloc: Global, text: &[u8], token: Token) -> Result<NameAt, OutOfMemory>
    requires { IsSlice text.now token }
    ensures { IfOk result (λ name. (name.name ≡ bytes_of text.now token) × (name.at ≡ token.from)) }
{
    Ok(NameAt {
        name: spelled(alloc, text, token)?,
        at: token.from,
    })
}

/// The next name, if it may be declared.
pub(crate) fn declared<'t>(
    alloc: Global,
    text: &[u8],
    tokens: &'t [Token],
) -> Result<Option<(NameAt, &'t [Token])>, OutOfMemory>
    requires { AreSlices text.now tokens.now }
    ensures { IfOk result (IsDeclaredNext text.now tokens.now) }
{
    match next_of(TokenKind::Name, tokens) {
        Some((token, tail)) if !is_reserved(bytes(text, token)) => {
            Ok(Some((name_at(alloc, text, token)?, tail)))
        }
        _ => Ok(None),
    }
}

/// The names to which an expression is assigned.
pub(crate) fn targets<'t>(
    alloc: Global,
    text: &[u8],
    scope: &Scope,
    tokens: &'t [Token],
) -> Result<(NamesAt, &'t [Token]), ParseFault>
    requires { AreSlices text.now tokens.now }
    ensures { (depth : ℕ) → ParsesTargets text.now depth (assigns_in scope.now) tokens.now result }
{
    let mut names = NamesAt::empty(alloc);
    let mut rest = tokens;
    while let Some((token, tail)) = next_of(TokenKind::Name, rest) {
        let Some((_, after)) = next_of(TokenKind::Assign, tail) else {
            return Ok((names, rest));
        };
        if !scope.may_assign(bytes(text, token)) {
            return Err(ParseFault::NotAssignable(token.from));
        }
        names.push(name_at(alloc, text, token)?)?;
        rest = after;
    }
    Ok((names, rest))
}

/// The parameters of a block.
pub(crate) fn parameters<'t>(
    alloc: Global,
    text: &[u8],
    tokens: &'t [Token],
) -> Result<(NamesAt, &'t [Token]), ParseFault>
    requires text { length text.now < 65536 }
    requires slices { AreSlices text.now tokens.now }
    ensures { (depth : ℕ) (names : List ℕ → Bool) → ParsesParameters text.now depth names tokens.now result }
{
    let mut names = NamesAt::empty(alloc);
    let mut rest = tokens;
    while let Some((_, tail)) = next_of(TokenKind::Colon, rest) {
        let Some((name, after)) = declared(alloc, text, tail)? else {
            return Err(ParseFault::Unexpected(place_of(text, tail)));
        };
        names.push(name)?;
        rest = after;
    }
    Ok((names, rest))
}
