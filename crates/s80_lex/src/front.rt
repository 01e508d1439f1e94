// The part of a text that stands at its front.
ghost use Rattle.std.specs.Prelude.{◌≡◌, ◌<◌, length};
ghost use Rattle.s80_lex.specs.declared.class.Class.TheVariants as classes;
ghost use Rattle.s80_lex.specs.Front.{first_class, Stands, Takes};

use crate::class::Class;
use crate::digits::number_len;
use crate::fault::LexFault;
use crate::number::is_lawful;
use crate::part::Part;
use crate::quoted::quoted_len;
use crate::run::{begins_with, first_class};
use crate::token::TokenKind;
use crate::word::{operator_len, symbol, word};

/// Why no part stands at the front of a text.
#[derive(Clone, Copy)]
pub(crate) enum Wrong {
    Unended,
    BadByte,
    BadNumber,
}

impl Wrong {
    ghost use Rattle.s80_lex.specs.Front.{fault_at};

    /// The fault at a place.
    pub(crate) fn at(self, place: u32) -> LexFault
        ensures { result ≡ fault_at self place }
    {
        match self {
            Wrong::Unended => LexFault::Unended(place),
            Wrong::BadByte => LexFault::BadByte(place),
            Wrong::BadNumber => LexFault::BadNumber(place),
        }
    }
}

/// What stands at the front of a text, and how many bytes it has.
pub(crate) fn front(bytes: &[u8]) -> Result<(Part, usize), Wrong>
    requires { 0 < length bytes.now }
    ensures { Stands result bytes.now }
{
    match first_class(bytes) {
        Class::Separator => Ok((Part::Separator, 1)),
        Class::DoubleQuote => comment(bytes),
        Class::Letter => {
            let (kind, length) = word(bytes);
            Ok((Part::Token(kind), length))
        }
        Class::Digit => number(bytes),
        Class::Special | Class::Minus => Ok((Part::Token(TokenKind::Binary), operator_len(bytes))),
        Class::Quote => string(bytes),
        Class::Dollar => character(bytes),
        Class::Hash => hash(bytes),
        Class::Underscore => Ok((Part::Token(TokenKind::Assign), 1)),
        Class::Colon => {
            let (kind, length) = colon(bytes);
            Ok((Part::Token(kind), length))
        }
        Class::Mark(kind) => Ok((Part::Token(kind), 1)),
        Class::Other => Err(Wrong::BadByte),
    }
}

fn comment(bytes: &[u8]) -> Result<(Part, usize), Wrong>
    requires { first_class bytes.now ≡ classes.DoubleQuote }
    ensures { Stands result bytes.now }
{
    match quoted_len(bytes, b'"') {
        Some(length) => Ok((Part::Comment, length)),
        None => Err(Wrong::Unended),
    }
}

fn string(bytes: &[u8]) -> Result<(Part, usize), Wrong>
    requires { first_class bytes.now ≡ classes.Quote }
    ensures { Stands result bytes.now }
{
    match quoted_len(bytes, b'\'') {
        Some(length) => Ok((Part::Token(TokenKind::Str), length)),
        None => Err(Wrong::Unended),
    }
}

fn number(bytes: &[u8]) -> Result<(Part, usize), Wrong>
    requires { first_class bytes.now ≡ classes.Digit }
    ensures { Stands result bytes.now }
{
    let length = number_len(bytes);
    if is_lawful(&bytes[..length]) {
        Ok((Part::Token(TokenKind::Number), length))
    } else {
        Err(Wrong::BadNumber)
    }
}

fn character(bytes: &[u8]) -> Result<(Part, usize), Wrong>
    requires { first_class bytes.now ≡ classes.Dollar }
    ensures { Stands result bytes.now }
{
    if bytes.len() > 1 {
        Ok((Part::Token(TokenKind::Character), 2))
    } else {
        Err(Wrong::Unended)
    }
}

fn hash(bytes: &[u8]) -> Result<(Part, usize), Wrong>
    requires { first_class bytes.now ≡ classes.Hash }
    ensures { Stands result bytes.now }
{
    match symbol(bytes) {
        Some((kind, length)) => Ok((Part::Token(kind), length)),
        None => Err(Wrong::BadByte),
    }
}

/// An assignment, or a colon by itself.
fn colon(bytes: &[u8]) -> (TokenKind, usize)
    requires { first_class bytes.now ≡ classes.Colon }
    ensures { Takes result.0 result.1 bytes.now }
{
    if begins_with(&bytes[1..], b'=') {
        (TokenKind::Assign, 2)
    } else {
        (TokenKind::Colon, 1)
    }
}
