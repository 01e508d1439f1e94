// What the grammar is read from.

/// The kinds of token.
#[derive(Clone, Copy, Debug, PartialEq, Eq)]
pub enum TokenKind {
    /// A letter, then letters and digits.
    Name,
    /// A name and the colon that directly follows it.
    Keyword,
    /// `_` or `:=`.
    Assign,
    /// One or two special characters.
    Binary,
    Number,
    /// `$` and any one byte.
    Character,
    /// Bytes between quotes, each quote among them doubled.
    Str,
    /// `#` and the selector that directly follows it.
    Symbol,
    /// `#(`.
    ArrayStart,
    OpenParen,
    CloseParen,
    OpenBracket,
    CloseBracket,
    Caret,
    Semicolon,
    Period,
    Colon,
}

/// A token, and where it stands in its text: from the place of its first byte to the place behind its last one.
#[derive(Clone, Copy, Debug, PartialEq, Eq)]
pub struct Token {
    pub kind: TokenKind,
    pub from: u32,
    pub to: u32,
}
