// What single tokens spell.
ghost use Rattle.std.specs.Prelude.{◌≡◌, ◌<◌, ◌≤◌, ◌∷◌, [], IfOk, IfSome, MatchOption, drop, length, slice_index};
ghost use Rattle.s80_base.specs.Literal.{literal_of};
ghost use Rattle.s80_syntax.specs.Literals.{between_ends, name_literal, unquoted};
ghost use Rattle.s80_lex.specs.Text.{IsSlice};
ghost use Rattle.s80_syntax.specs.Literal.{IsTokenLiteral};
ghost use Rattle.s80_syntax.specs.Reads.{bytes_of};

use crate::tokens::{bytes, spelled};
use s80_base::{Literal, OutOfMemory, Text};
use s80_lex::{Token, TokenKind, literal_of_number};
use std::alloc::Global;

/// The literal that a token is by itself, if it is one.
pub(crate) fn token_literal(
    alloc: Global,
    text: &[u8],
    token: Token,
) -> Result<Option<Literal>, OutOfMemory>
    requires { IsSlice text.now token }
    ensures { IfOk result (IsTokenLiteral text.now token) }
{
    let spelled = bytes(text, token);
    Ok(match token.kind {
        TokenKind::Number => Some(literal_of_number(alloc, spelled, false)?),
        TokenKind::Character => Some(Literal::Character(second(spelled))),
        TokenKind::Str => Some(Literal::Str(string(alloc, between_ends(spelled))?)),
        TokenKind::Symbol => Some(Literal::Symbol(Text::from_bytes(alloc, tail(spelled))?)),
        _ => None,
    })
}

/// A name in an array: one of three objects, or a symbol.
pub(crate) fn name_literal(alloc: Global, text: &[u8], token: Token) -> Result<Literal, OutOfMemory>
    requires { IsSlice text.now token }
    ensures { IfOk result (λ literal. literal_of literal ≡ name_literal (bytes_of text.now token)) }
{
    let name = bytes(text, token);
    if name == b"true".as_slice() {
        Ok(Literal::True)
    } else if name == b"false".as_slice() {
        Ok(Literal::False)
    } else if name == b"nil".as_slice() {
        Ok(Literal::Nil)
    } else {
        Ok(Literal::Symbol(spelled(alloc, text, token)?))
    }
}

fn second(bytes: &[u8]) -> u8
    ensures { result ≡ slice_index bytes.now 1 }
{
    if bytes.len() < 2 {
        return 0;
    }
    bytes[1]
}

fn tail(bytes: &[u8]) -> &[u8]
    ensures { result.now ≡ drop 1 bytes.now }
{
    match bytes {
        [] => bytes,
        [_, tail @ ..] => tail,
    }
}

fn between_ends(bytes: &[u8]) -> &[u8]
    ensures { result.now ≡ between_ends bytes.now }
{
    if bytes.len() < 2 {
        return &[];
    }
    &bytes[1..bytes.len() - 1]
}

/// The text of a string, from what stands between its quotes.
fn string(alloc: Global, inner: &[u8]) -> Result<Text, OutOfMemory>
    ensures { IfOk result (λ text. text ≡ unquoted inner.now) }
{
    let mut text = Text::empty(alloc);
    let mut rest = inner;
    while let Some((byte, after)) = first_unquoted(rest) {
        text.append(&[byte])?;
        rest = after;
    }
    Ok(text)
}

/// The first byte that stands for one of the string, and what follows it.
fn first_unquoted(bytes: &[u8]) -> Option<(u8, &[u8])>
    ensures same { MatchOption result (bytes.now ≡ []) (λ p. unquoted bytes.now ≡ p.0 ∷ unquoted p.1.now) }
    ensures shorter { IfSome result (λ p. length p.1.now < length bytes.now) }
{
    match bytes {
        [] => None,
        [first, rest @ ..] => {
            if *first == b'\'' && rest.len() > 0 && rest[0] == b'\'' {
                Some((*first, &rest[1..]))
            } else {
                Some((*first, rest))
            }
        }
    }
}
