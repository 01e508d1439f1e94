// What stands before a body: temporaries, and in a method a primitive.
ghost use Rattle.std.specs.Prelude.{◌≡◌, ◌<◌, ◌∷◌, ◌++◌, [], Bool, IfOk, length};
ghost use Rattle.s80_syntax.specs.Grammar.{AreOptionalTemporaries, IsHead};
ghost use Rattle.s80_syntax.specs.Stack.{Stack, after_bar, after_pattern, optional_temporaries as optional_symbol, primitive_then, temporaries as temporaries_symbol};
ghost use Rattle.s80_syntax.specs.Word.{Names, names_in, primitive_value};
ghost use Rattle.s80_base.specs.Literal.{literal_of};
ghost use Rattle.s80_syntax.specs.Method.{AreTemporariesRest, GoesTo, IsNumberNext, IsPrimitiveRest, home_body};
ghost use Rattle.s80_syntax.specs.Reads.{AreSlices};
ghost use Rattle.s80_tree.specs.Name.{names_of};

use crate::fault::ParseFault;
use crate::names::declared;
use crate::tokens::{after_sign, bytes, next_of, place_of};
use s80_base::{Literal, OutOfMemory};
use s80_lex::{Token, TokenKind, literal_of_number};
use s80_tree::NamesAt;
use std::alloc::Global;

/// A primitive, or 0, and the temporaries; the primitive may stand before or behind them.
pub(crate) fn head<'t>(
    alloc: Global,
    text: &[u8],
    tokens: &'t [Token],
) -> Result<((u8, NamesAt), &'t [Token]), ParseFault>
    requires text { length text.now < 65536 }
    requires slices { AreSlices text.now tokens.now }
    ensures { (ps : Names) → GoesTo text.now (after_pattern ps ∷ []) (λ found. home_body ps (names_in (names_of found.1))) (λ found. IsHead (names_of found.1) found.0) tokens.now result }
{
    if let Some(tail) = after_sign(text, TokenKind::Binary, b"<", tokens) {
        let (number, rest) = primitive(alloc, text, tail)?;
        let (temporaries, after) = optional_temporaries(alloc, text, rest)?;
        return Ok(((number, temporaries), after));
    }
    let Some(tail) = after_sign(text, TokenKind::Binary, b"|", tokens) else {
        return Ok(((0, NamesAt::empty(alloc)), tokens));
    };
    let (temporaries, rest) = temporaries(alloc, text, tail)?;
    let Some(inner) = after_sign(text, TokenKind::Binary, b"<", rest) else {
        return Ok(((0, temporaries), rest));
    };
    let (number, after) = primitive(alloc, text, inner)?;
    Ok(((number, temporaries), after))
}

/// Temporaries between bars, if any.
pub(crate) fn optional_temporaries<'t>(
    alloc: Global,
    text: &[u8],
    tokens: &'t [Token],
) -> Result<(NamesAt, &'t [Token]), ParseFault>
    requires text { length text.now < 65536 }
    requires slices { AreSlices text.now tokens.now }
    ensures { (ps : Names) → GoesTo text.now (optional_symbol ps ∷ []) (λ found. home_body ps (names_in (names_of found))) (λ found. AreOptionalTemporaries (names_of found)) tokens.now result }
{
    match after_sign(text, TokenKind::Binary, b"|", tokens) {
        Some(tail) => temporaries(alloc, text, tail),
        None => Ok((NamesAt::empty(alloc), tokens)),
    }
}

/// Temporaries, behind the first bar.
fn temporaries<'t>(
    alloc: Global,
    text: &[u8],
    tokens: &'t [Token],
) -> Result<(NamesAt, &'t [Token]), ParseFault>
    requires text { length text.now < 65536 }
    requires slices { AreSlices text.now tokens.now }
    ensures { (ps : Names) (primitive : Bool) → GoesTo text.now (temporaries_symbol ps [] primitive ∷ []) (λ found. after_bar primitive ps (names_in (names_of found))) (λ found. AreTemporariesRest (names_of found)) tokens.now result }
{
    let mut names = NamesAt::empty(alloc);
    let mut rest = tokens;
    while let Some((name, after)) = declared(alloc, text, rest)? {
        names.push(name)?;
        rest = after;
    }
    match after_sign(text, TokenKind::Binary, b"|", rest) {
        Some(after) => Ok((names, after)),
        None => Err(ParseFault::Unexpected(place_of(text, rest))),
    }
}

/// A primitive, behind its first sign.
fn primitive<'t>(
    alloc: Global,
    text: &[u8],
    tokens: &'t [Token],
) -> Result<(u8, &'t [Token]), ParseFault>
    requires text { length text.now < 65536 }
    requires slices { AreSlices text.now tokens.now }
    ensures { (k : Stack) → GoesTo text.now (primitive_then k) (λ found. k) (λ found. IsPrimitiveRest found) tokens.now result }
{
    let Some(tail) = after_sign(text, TokenKind::Keyword, b"primitive:", tokens) else {
        return Err(ParseFault::Unexpected(place_of(text, tokens)));
    };
    let Some((number, rest)) = primitive_number(alloc, text, tail)? else {
        return Err(ParseFault::Unexpected(place_of(text, tail)));
    };
    let Some(after) = after_sign(text, TokenKind::Binary, b">", rest) else {
        return Err(ParseFault::Unexpected(place_of(text, rest)));
    };
    Ok((number, after))
}

/// The number of a primitive, if one comes next.
fn primitive_number<'t>(
    alloc: Global,
    text: &[u8],
    tokens: &'t [Token],
) -> Result<Option<(u8, &'t [Token])>, OutOfMemory>
    requires { AreSlices text.now tokens.now }
    ensures { IfOk result (IsNumberNext text.now tokens.now) }
{
    let Some((token, tail)) = next_of(TokenKind::Number, tokens) else {
        return Ok(None);
    };
    let literal = literal_of_number(alloc, bytes(text, token), false)?;
    match primitive_value(&literal) {
        0 => Ok(None),
        value => Ok(Some((value, tail))),
    }
}

/// A number from 1 to 255, or 0.
fn primitive_value(literal: &Literal) -> u8
    ensures { result ≡ primitive_value (literal_of literal.now) }
{
    match literal {
        Literal::Small(value) => u8::try_from(*value).unwrap_or(0),
        _ => 0,
    }
}
