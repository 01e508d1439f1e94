// Literals.
ghost use Rattle.std.specs.Prelude.{◌≡◌, ◌∷◌, [], OnOk};
ghost use Rattle.s80_base.specs.Literal.{literal_of, literals_of};
ghost use Rattle.s80_lex.specs.Spelling.{begins_with, quoted};
ghost use Rattle.s80_lex.specs.declared.token.TokenKind.TheVariants as kinds;
ghost use Rattle.s80_decompile.specs.Printed.{Prints};
ghost use Rattle.s80_decompile.specs.TreeTokens.{literal_tokens, literals_tokens, number_tokens, token};

use crate::printer::Printer;
use s80_base::{Literal, Literals, OutOfMemory, Text};
use s80_form::add_quoted;
use s80_lex::TokenKind;
use std::alloc::Global;

#[cycle(literal)]
pub(crate) fn literal(
    alloc: Global,
    printer: &mut Printer,
    literal: &Literal,
) -> Result<(), OutOfMemory>
    ensures { OnOk result (Prints printer.old printer.new (literal_tokens (literal_of literal.now))) }
{
    match literal {
        Literal::Small(value) => number(printer, format!(in alloc; "{value}")?.as_bytes()),
        Literal::Character(byte) => printer.token(TokenKind::Character, &[b'$', *byte]),
        Literal::Str(text) => string(alloc, printer, text.bytes()),
        Literal::Symbol(text) => symbol(alloc, printer, text.bytes()),
        Literal::Array(elements) => array(alloc, printer, elements),
        Literal::True => printer.token(TokenKind::Name, b"true"),
        Literal::False => printer.token(TokenKind::Name, b"false"),
        Literal::Nil => printer.token(TokenKind::Name, b"nil"),
        Literal::Number(_, text) => number(printer, text.bytes()),
    }
}

#[cycle(literal)]
fn array(alloc: Global, printer: &mut Printer, elements: &Literals) -> Result<(), OutOfMemory>
    ensures { OnOk result (Prints printer.old printer.new (λ more. token kinds.ArrayStart (35 ∷ 40 ∷ []) ∷ literals_tokens (literals_of elements.now) (token kinds.CloseParen (41 ∷ []) ∷ more))) }
{
    printer.token(TokenKind::ArrayStart, b"#(")?;
    literals(alloc, printer, elements)?;
    printer.token(TokenKind::CloseParen, b")")
}

#[cycle(literal)]
fn literals(alloc: Global, printer: &mut Printer, literals: &Literals) -> Result<(), OutOfMemory>
    ensures { OnOk result (Prints printer.old printer.new (literals_tokens (literals_of literals.now))) }
{
    for element in &literals.items {
        literal(alloc, printer, element)?;
    }
    Ok(())
}

/// A number by its bytes, after a minus where it is negative.
fn number(printer: &mut Printer, bytes: &[u8]) -> Result<(), OutOfMemory>
    ensures { OnOk result (Prints printer.old printer.new (number_tokens bytes.now)) }
{
    if !is_negative(bytes) {
        return printer.token(TokenKind::Number, bytes);
    }
    printer.sign()?;
    printer.token(TokenKind::Number, &bytes[1..])
}

fn is_negative(bytes: &[u8]) -> bool
    ensures { result ≡ begins_with 45 bytes.now }
{
    match bytes {
        [] => false,
        [first, ..] => *first == b'-',
    }
}

fn string(alloc: Global, printer: &mut Printer, string: &[u8]) -> Result<(), OutOfMemory>
    ensures { OnOk result (Prints printer.old printer.new (λ more. token kinds.Str (quoted 39 string.now) ∷ more)) }
{
    let mut word = Text::empty(alloc);
    add_quoted(&mut word, string)?;
    printer.token(TokenKind::Str, word.bytes())
}

fn symbol(alloc: Global, printer: &mut Printer, selector: &[u8]) -> Result<(), OutOfMemory>
    ensures { OnOk result (Prints printer.old printer.new (λ more. token kinds.Symbol (35 ∷ selector.now) ∷ more)) }
{
    let mut word = Text::empty(alloc);
    word.append(b"#")?;
    word.append(selector)?;
    printer.token(TokenKind::Symbol, word.bytes())
}
