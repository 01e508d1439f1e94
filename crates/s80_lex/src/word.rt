// Names, keywords, binary selectors, and the symbols made of them.
ghost use Rattle.std.specs.Prelude.{◌≡◌};
ghost use Rattle.s80_lex.specs.declared.class.Class.TheVariants.{Letter, Hash};
ghost use Rattle.s80_lex.specs.Front.{first_class, ends_keyword, Finds, FindsKind, IsMost, Takes};
ghost use Rattle.s80_lex.specs.Spelling.{AreKeywords, IsBinary, IsKeyword, IsName, IsOperator, IsSelector};

use crate::class::Class;
use crate::run::{alphanumeric_len, begins_with, first_class};
use crate::token::TokenKind;

/// Whether what follows a name makes it a keyword: a colon, but none that an equals sign follows.
fn ends_keyword(bytes: &[u8]) -> bool
    ensures { result ≡ ends_keyword bytes.now }
{
    match bytes {
        [b':', after @ ..] => !begins_with(after, b'='),
        _ => false,
    }
}

/// The name or keyword at the front, which begins with a letter.
pub(crate) fn word(bytes: &[u8]) -> (TokenKind, usize)
    requires { first_class bytes.now ≡ Letter }
    ensures { Takes result.0 result.1 bytes.now }
{
    let length = alphanumeric_len(bytes);
    if ends_keyword(&bytes[length..]) {
        (TokenKind::Keyword, length + 1)
    } else {
        (TokenKind::Name, length)
    }
}

/// How many bytes the name at the front has.
fn name_len(bytes: &[u8]) -> Option<usize>
    ensures { Finds (λ word _. IsName word) result bytes.now }
{
    match first_class(bytes) {
        Class::Letter => Some(alphanumeric_len(bytes)),
        _ => None,
    }
}

/// How many bytes the keyword at the front has.
fn keyword_len(bytes: &[u8]) -> Option<usize>
    ensures { Finds IsKeyword result bytes.now }
{
    let length = name_len(bytes)?;
    if ends_keyword(&bytes[length..]) {
        Some(length + 1)
    } else {
        None
    }
}

/// How many bytes the joined keywords at the front have.
fn keywords_len(bytes: &[u8]) -> Option<usize>
    ensures { Finds AreKeywords result bytes.now }
{
    let mut length = keyword_len(bytes)?;
    while let Some(more) = keyword_len(&bytes[length..]) {
        length += more;
    }
    Some(length)
}

/// How many bytes the binary selector at the front has, which begins with a special character.
pub(crate) fn operator_len(bytes: &[u8]) -> usize
    requires { IsOperator (first_class bytes.now) }
    ensures { IsMost (λ word _. IsBinary word) result bytes.now }
{
    match first_class(&bytes[1..]) {
        Class::Special => 2,
        _ => 1,
    }
}

fn binary_len(bytes: &[u8]) -> Option<usize>
    ensures { Finds (λ word _. IsBinary word) result bytes.now }
{
    match first_class(bytes) {
        Class::Special | Class::Minus => Some(operator_len(bytes)),
        _ => None,
    }
}

/// How many bytes the selector at the front has.
fn selector_len(bytes: &[u8]) -> Option<usize>
    ensures { Finds IsSelector result bytes.now }
{
    if let Some(length) = keywords_len(bytes) {
        return Some(length);
    }
    if let Some(length) = name_len(bytes) {
        return Some(length);
    }
    binary_len(bytes)
}

/// The symbol, or the beginning of an array, at the front, which begins with a hash.
pub(crate) fn symbol(bytes: &[u8]) -> Option<(TokenKind, usize)>
    requires { first_class bytes.now ≡ Hash }
    ensures { FindsKind result bytes.now }
{
    let after = &bytes[1..];
    if begins_with(after, b'(') {
        return Some((TokenKind::ArrayStart, 2));
    }
    let length = selector_len(after)?;
    Some((TokenKind::Symbol, length + 1))
}
