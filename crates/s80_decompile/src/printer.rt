// Tokens, put one behind the other into a text.
ghost use Rattle.std.specs.Prelude.{◌≡◌, ◌∷◌, ◌++◌, [], OnOk};
ghost use Rattle.s80_syntax.specs.Lexeme.{Lexemes};
ghost use Rattle.s80_decompile.specs.Printed.{Prints, printed};
ghost use Rattle.s80_decompile.specs.Spelled.{closes, opens, space_if, text_of_tokens};
ghost use Rattle.s80_decompile.specs.TreeTokens.{sign, token};

use s80_base::{OutOfMemory, Text};
use s80_lex::TokenKind;
use std::alloc::Global;

/// The text of the tokens so far, and whether a space may stand before the next one.
#[derive(Debug, Drop)]
pub(crate) struct Printer {
    text: Text,
    spaced: bool,
}

impl Printer {
    pub(crate) fn new(alloc: Global) -> Self
        ensures { (tokens : Lexemes) → printed result tokens ≡ text_of_tokens tokens }
    {
        Printer {
            text: Text::empty(alloc),
            spaced: false,
        }
    }

    pub(crate) fn into_text(self) -> Text
        ensures { result ≡ printed self [] }
    {
        self.text
    }

    pub(crate) fn token(&mut self, kind: TokenKind, bytes: &[u8]) -> Result<(), OutOfMemory>
        ensures { OnOk result (Prints self.old self.new (λ more. token kind bytes.now ∷ more)) }
    {
        add_space(&mut self.text, self.spaced && !closes(kind))?;
        self.text.append(bytes)?;
        self.spaced = !opens(kind);
        Ok(())
    }

    /// The minus of a number, which follows at once.
    pub(crate) fn sign(&mut self) -> Result<(), OutOfMemory>
        ensures { OnOk result (Prints self.old self.new (λ more. sign ∷ more)) }
    {
        add_space(&mut self.text, self.spaced)?;
        self.text.append(b"-")?;
        self.spaced = false;
        Ok(())
    }
}

fn add_space(text: &mut Text, due: bool) -> Result<(), OutOfMemory>
    ensures { OnOk result (text.new ≡ text.old ++ space_if due) }
{
    if due {
        text.append(b" ")?;
    }
    Ok(())
}

/// Whether no space stands behind such a token.
fn opens(kind: TokenKind) -> bool
    ensures { result ≡ opens kind }
{
    match kind {
        TokenKind::OpenParen => true,
        TokenKind::OpenBracket => true,
        TokenKind::ArrayStart => true,
        TokenKind::Caret => true,
        TokenKind::Colon => true,
        _ => false,
    }
}

/// Whether none stands before it.
fn closes(kind: TokenKind) -> bool
    ensures { result ≡ closes kind }
{
    match kind {
        TokenKind::CloseParen => true,
        TokenKind::CloseBracket => true,
        TokenKind::Period => true,
        TokenKind::Semicolon => true,
        _ => false,
    }
}
