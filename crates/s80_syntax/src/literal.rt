// Literals, and the arrays among them.
ghost use Rattle.std.specs.Prelude.{◌≡◌, ℕ, ◌<◌, ◌≤◌, ◌∷◌, [], List, Bool, IfOk, length};
ghost use Rattle.s80_base.specs.Literal.{array, literal_of, literals_of};
ghost use Rattle.s80_syntax.specs.Grammar.{AreElements, IsLiteral, IsMark};
ghost use Rattle.s80_syntax.specs.Stack.{primary, elements as elements_symbol, close_paren};
ghost use Rattle.s80_lex.specs.declared.token.TokenKind.TheVariants as kind;
ghost use Rattle.s80_syntax.specs.Literal.{AreJoinedNext, IsArrayRest, IsOther, IsNegativeNext, IsSimpleNext, KeywordNext, ParsesElement, opens_array};
ghost use Rattle.s80_syntax.specs.Reads.{AreSlices, Parses, bytes_of};

use crate::fault::ParseFault;
use crate::spelled::{name_literal, token_literal};
use crate::tokens::{bytes, is_joined, is_minus, next, next_of, place_of, spelled};
use s80_base::{Literal, Literals, OutOfMemory, Text};
use s80_lex::{Token, TokenKind, literal_of_number};
use std::alloc::Global;

/// So many brackets may be open.
pub(crate) const DEPTH: u32 = 64;

/// A number with a minus directly before it, if one comes next.
fn negative<'t>(
    alloc: Global,
    text: &[u8],
    tokens: &'t [Token],
) -> Result<Option<(Literal, &'t [Token])>, OutOfMemory>
    requires { AreSlices text.now tokens.now }
    ensures { IfOk result (IsNegativeNext text.now tokens.now) }
{
    let Some((sign, tail)) = next_of(TokenKind::Binary, tokens) else {
        return Ok(None);
    };
    if !is_minus(text, sign, tail) {
        return Ok(None);
    }
    let Some((number, after)) = next_of(TokenKind::Number, tail) else {
        return Ok(None);
    };
    let literal = literal_of_number(alloc, bytes(text, number), true)?;
    Ok(Some((literal, after)))
}

/// Keywords of which each is joined to the next, as one word.
fn joined<'t>(
    alloc: Global,
    text: &[u8],
    tokens: &'t [Token],
) -> Result<(Text, &'t [Token]), OutOfMemory>
    requires slices { AreSlices text.now tokens.now }
    requires keyword { KeywordNext tokens.now }
    ensures { IfOk result (AreJoinedNext text.now tokens.now) }
{
    let mut word = Text::empty(alloc);
    let mut rest = tokens;
    while let Some((token, tail)) = next_of(TokenKind::Keyword, rest) {
        word.append(bytes(text, token))?;
        if !is_joined(token, tail) {
            return Ok((word, tail));
        }
        rest = tail;
    }
    Ok((word, rest))
}

/// An element that is no array, if one comes next.
fn simple_element<'t>(
    alloc: Global,
    text: &[u8],
    tokens: &'t [Token],
) -> Result<Option<(Literal, &'t [Token])>, OutOfMemory>
    requires { AreSlices text.now tokens.now }
    ensures { IfOk result (IsSimpleNext text.now tokens.now) }
{
    if let Some(found) = negative(alloc, text, tokens)? {
        return Ok(Some(found));
    }
    let Some((token, tail)) = next(tokens) else {
        return Ok(None);
    };
    match token.kind {
        TokenKind::Name => Ok(Some((name_literal(alloc, text, token)?, tail))),
        TokenKind::Binary => Ok(Some((Literal::Symbol(spelled(alloc, text, token)?), tail))),
        TokenKind::Keyword => {
            let (word, after) = joined(alloc, text, tokens)?;
            Ok(Some((Literal::Symbol(word), after)))
        }
        _ => match token_literal(alloc, text, token)? {
            Some(literal) => Ok(Some((literal, tail))),
            None => Ok(None),
        },
    }
}

/// Whether a token begins an array within another one.
fn opens_array(kind: TokenKind) -> bool
    ensures { result ≡ opens_array kind }
{
    matches!(kind, TokenKind::ArrayStart | TokenKind::OpenParen)
}

fn array_of(items: Literals) -> Literal
    ensures { literal_of result ≡ array (literals_of items) }
{
    Literal::Array(items)
}

/// An element of an array, if one comes next.
#[cycle(array)]
fn element<'t>(
    alloc: Global,
    text: &[u8],
    depth: u32,
    tokens: &'t [Token],
) -> Result<Option<(Literal, &'t [Token])>, ParseFault>
    requires text { length text.now < 65536 }
    requires slices { AreSlices text.now tokens.now }
    requires depth { depth ≤ 64 }
    ensures { (names : List ℕ → Bool) → ParsesElement text.now depth names tokens.now result }
{
    let Some((token, tail)) = next(tokens) else {
        return Ok(None);
    };
    if !opens_array(token.kind) {
        return Ok(simple_element(alloc, text, tokens)?);
    }
    if depth == DEPTH {
        return Err(ParseFault::Nested(place_of(text, tokens)));
    }
    let (items, after) = array_rest(alloc, text, depth, tail)?;
    Ok(Some((array_of(items), after)))
}

/// The elements of an array.
#[cycle(array)]
fn elements<'t>(
    alloc: Global,
    text: &[u8],
    depth: u32,
    tokens: &'t [Token],
) -> Result<(Literals, &'t [Token]), ParseFault>
    requires text { length text.now < 65536 }
    requires slices { AreSlices text.now tokens.now }
    requires depth { depth ≤ 64 }
    ensures { (names : List ℕ → Bool) → Parses text.now depth names (elements_symbol ∷ []) (λ items. AreElements (literals_of items)) tokens.now result }
{
    let mut items = Literals::empty(alloc);
    let mut rest = tokens;
    while let Some((literal, after)) = element(alloc, text, depth, rest)? {
        items.push(literal)?;
        rest = after;
    }
    Ok((items, rest))
}

/// An array behind its opening token.
#[cycle(array)]
fn array_rest<'t>(
    alloc: Global,
    text: &[u8],
    depth: u32,
    tokens: &'t [Token],
) -> Result<(Literals, &'t [Token]), ParseFault>
    requires text { length text.now < 65536 }
    requires slices { AreSlices text.now tokens.now }
    requires depth { depth < 64 }
    ensures { (names : List ℕ → Bool) → Parses text.now depth names (elements_symbol ∷ close_paren ∷ []) (λ items. IsArrayRest (literals_of items)) tokens.now result }
{
    let (items, rest) = elements(alloc, text, depth + 1, tokens)?;
    let Some((_, after)) = next_of(TokenKind::CloseParen, rest) else {
        return Err(ParseFault::Unexpected(place_of(text, rest)));
    };
    Ok((items, after))
}

/// A literal where an operand is expected. A name, a parenthesis or a block doesn't come next.
pub(crate) fn literal<'t>(
    alloc: Global,
    text: &[u8],
    depth: u32,
    tokens: &'t [Token],
) -> Result<(Literal, &'t [Token]), ParseFault>
    requires text { length text.now < 65536 }
    requires slices { AreSlices text.now tokens.now }
    requires depth { depth ≤ 64 }
    requires other { IsOther tokens.now }
    ensures { (names : List ℕ → Bool) → Parses text.now depth names (primary ∷ []) (λ found. IsLiteral (literal_of found)) tokens.now result }
{
    if let Some((_, tail)) = next_of(TokenKind::ArrayStart, tokens) {
        if depth == DEPTH {
            return Err(ParseFault::Nested(place_of(text, tokens)));
        }
        let (items, after) = array_rest(alloc, text, depth, tail)?;
        return Ok((array_of(items), after));
    }
    if let Some(found) = negative(alloc, text, tokens)? {
        return Ok(found);
    }
    let Some((token, tail)) = next(tokens) else {
        return Err(ParseFault::Unexpected(place_of(text, tokens)));
    };
    match token_literal(alloc, text, token)? {
        Some(found) => Ok((found, tail)),
        None => Err(ParseFault::Unexpected(place_of(text, tokens))),
    }
}
