// What a byte begins.
ghost use Rattle.std.specs.Prelude.{◌≡◌};
ghost use Rattle.s80_lex.specs.Class.{class_of, is_special};

use crate::token::TokenKind;
use s80_base::is_separator;

/// The classes of bytes: what a byte begins, and what it may go on.
#[derive(Clone, Copy)]
pub(crate) enum Class {
    Letter,
    Digit,
    /// A character of binary selectors, but for the minus, which is never their second.
    Special,
    Minus,
    Quote,
    DoubleQuote,
    Dollar,
    Hash,
    Underscore,
    Colon,
    /// A token by itself.
    Mark(TokenKind),
    Separator,
    Other,
}

/// What a binary selector is made of, but for the minus.
pub(crate) fn is_special(byte: u8) -> bool
    ensures { result ≡ is_special byte }
{
    matches!(
        byte,
        b'+' | b'/'
            | b'\\'
            | b'*'
            | b'~'
            | b'<'
            | b'>'
            | b'='
            | b'@'
            | b'%'
            | b'|'
            | b'&'
            | b'?'
            | b','
            | b'!'
    )
}

/// The class of a byte.
pub(crate) fn classify(byte: u8) -> Class
    ensures { result ≡ class_of byte }
{
    match byte {
        b'A'..=b'Z' | b'a'..=b'z' => Class::Letter,
        b'0'..=b'9' => Class::Digit,
        _ if is_separator(byte) => Class::Separator,
        _ if is_special(byte) => Class::Special,
        b'-' => Class::Minus,
        b'\'' => Class::Quote,
        b'"' => Class::DoubleQuote,
        b'$' => Class::Dollar,
        b'#' => Class::Hash,
        b'_' => Class::Underscore,
        b':' => Class::Colon,
        b'(' => Class::Mark(TokenKind::OpenParen),
        b')' => Class::Mark(TokenKind::CloseParen),
        b'[' => Class::Mark(TokenKind::OpenBracket),
        b']' => Class::Mark(TokenKind::CloseBracket),
        b'^' => Class::Mark(TokenKind::Caret),
        b';' => Class::Mark(TokenKind::Semicolon),
        b'.' => Class::Mark(TokenKind::Period),
        _ => Class::Other,
    }
}
