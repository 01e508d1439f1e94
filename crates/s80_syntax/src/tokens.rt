// Looking at the next token. The tokens that are left are a slice.
ghost use Rattle.std.specs.Prelude.{◌≡◌, ◌<◌, ◌∷◌, [], MatchOption, IfOk, length};
ghost use Rattle.s80_syntax.specs.Lexeme.{is_joined, joins, lexeme};
ghost use Rattle.s80_syntax.specs.Word.{is_minus};
ghost use Rattle.s80_lex.specs.Text.{IsSlice};
ghost use Rattle.s80_lex.specs.declared.token.Token.{Token};
ghost use Rattle.s80_syntax.specs.Reads.{AreSlices, IsNotNext, IsNotSign, bytes_of, place_in};

use s80_base::{OutOfMemory, Text};
use s80_lex::{Token, TokenKind};
use std::alloc::Global;

/// The next token, and those behind it.
pub(crate) fn next(rest: &[Token]) -> Option<(Token, &[Token])>
    ensures { MatchOption result (rest.now ≡ []) (λ p. rest.now ≡ p.0 ∷ p.1.now) }
{
    match rest {
        [] => None,
        [first, tail @ ..] => Some((*first, tail)),
    }
}

/// The next token, if it is of this kind, and those behind it.
pub(crate) fn next_of(kind: TokenKind, rest: &[Token]) -> Option<(Token, &[Token])>
    ensures { MatchOption result (IsNotNext kind rest.now) (λ p. (rest.now ≡ p.0 ∷ p.1.now) × (p.0.kind ≡ kind)) }
{
    match rest {
        [first, tail @ ..] if first.kind == kind => Some((*first, tail)),
        _ => None,
    }
}

/// Where the next token begins, or the end of the text.
pub(crate) fn place_of(text: &[u8], rest: &[Token]) -> u32
    requires { length text.now < 65536 }
    ensures { result ≡ place_in text.now rest.now }
{
    match next(rest) {
        Some((token, _)) => token.from,
        None => text.len() as u32,
    }
}

/// The bytes of a token.
pub(crate) fn bytes(text: &[u8], token: Token) -> &[u8]
    requires { IsSlice text.now token }
    ensures { result.now ≡ bytes_of text.now token }
{
    &text[token.from as usize..token.to as usize]
}

/// A copy of a token's bytes.
pub(crate) fn spelled(alloc: Global, text: &[u8], token: Token) -> Result<Text, OutOfMemory>
    requires { IsSlice text.now token }
    ensures { IfOk result (λ spelled. spelled ≡ bytes_of text.now token) }
{
    Text::from_bytes(alloc, bytes(text, token))
}

/// What follows the next token, if it is of this kind and has these bytes.
pub(crate) fn after_sign<'t>(
    text: &[u8],
    kind: TokenKind,
    word: &[u8],
    rest: &'t [Token],
) -> Option<&'t [Token]>
    requires { AreSlices text.now rest.now }
    ensures { MatchOption result (IsNotSign kind word.now text.now rest.now) (λ after. (t : Token) × (rest.now ≡ t ∷ after.now) × (t.kind ≡ kind) × (bytes_of text.now t ≡ word.now)) }
{
    match next_of(kind, rest) {
        Some((token, after)) if bytes(text, token) == word => Some(after),
        _ => None,
    }
}

/// Whether the next token begins where this one ends, and can be one with it.
pub(crate) fn is_joined(token: Token, later: &[Token]) -> bool
    ensures { result ≡ is_joined token later.now }
{
    match next(later) {
        None => false,
        Some((next, _)) => token.to == next.from && joins(token.kind, next.kind),
    }
}

fn joins(kind: TokenKind, next: TokenKind) -> bool
    ensures { result ≡ joins kind next }
{
    matches!(
        (kind, next),
        (TokenKind::Binary, TokenKind::Number) | (TokenKind::Keyword, TokenKind::Keyword)
    )
}

/// Whether a token is a minus that begins a number.
#[tactic(auto, unfolding(crate::specs::Word::is_minus))]
pub(crate) fn is_minus(text: &[u8], token: Token, later: &[Token]) -> bool
    requires { IsSlice text.now token }
    ensures { result ≡ is_minus (lexeme text.now token later.now) }
{
    bytes(text, token) == b"-".as_slice() && is_joined(token, later)
}
