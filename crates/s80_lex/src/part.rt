// What a text is made of.
use crate::token::TokenKind;

/// A part of a text: a token, or what may stand between tokens.
#[derive(Clone, Copy)]
pub(crate) enum Part {
    /// A space, a tab, a line feed, a form feed or a carriage return.
    Separator,
    /// Bytes between double quotes, each double quote among them doubled.
    Comment,
    Token(TokenKind),
}
