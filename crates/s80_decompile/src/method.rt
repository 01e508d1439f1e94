// Methods.
ghost use Rattle.std.specs.Prelude.{◌≡◌, ◌∷◌, [], ℕ, List, IfOk, OnOk};
ghost use Rattle.s80_tree.specs.Tree.{method_of};
ghost use Rattle.s80_decompile.specs.Printed.{Prints};
ghost use Rattle.s80_decompile.specs.Spellable.{IsSpellable};
ghost use Rattle.s80_decompile.specs.TreeText.{HasTree, method_text};
ghost use Rattle.s80_decompile.specs.TreeTokens.{declared_tokens, name_tokens, pattern_tokens, primitive_tokens, temporary_tokens};

use crate::laws::{a_spellable_tree_has_a_text, a_tree_of_a_text_is_spellable};
use crate::printer::Printer;
use crate::selector::{behind, part};
use crate::walk::body;
use s80_base::{OutOfMemory, Text};
use s80_lex::TokenKind;
use s80_tree::{MethodTree, NameAt};
use std::alloc::Global;

/// The text of a method's tree. Neighbouring tokens are parted by one space, but none stands behind an opening token, a caret and
/// the colon of a block's parameter, nor before a closing token, a period and a semicolon, nor behind the minus of a number.
pub fn tree_text(alloc: Global, tree: &MethodTree) -> Result<Text, OutOfMemory>
    ensures is { IfOk result (λ text. text ≡ method_text (method_of tree.now)) }
    ensures read { IsSpellable (method_of tree.now) → IfOk result (λ text. HasTree text (method_of tree.now)) }
    ensures again { (text : List ℕ) → HasTree text (method_of tree.now) → IfOk result (λ found. HasTree found (method_of tree.now)) }
{
    a_spellable_tree_has_a_text();
    a_tree_of_a_text_is_spellable();
    spelled(alloc, tree)
}

fn spelled(alloc: Global, tree: &MethodTree) -> Result<Text, OutOfMemory>
    ensures { IfOk result (λ text. text ≡ method_text (method_of tree.now)) }
{
    let mut printer = Printer::new(alloc);
    pattern(&mut printer, &tree.parameters.items, tree.selector.bytes())?;
    primitive(alloc, &mut printer, tree.primitive)?;
    temporaries(&mut printer, &tree.temporaries.items)?;
    body(alloc, &mut printer, &tree.body)?;
    Ok(printer.into_text())
}

/// A selector with its parameters.
fn pattern(printer: &mut Printer, parameters: &[NameAt], selector: &[u8]) -> Result<(), OutOfMemory>
    ensures { OnOk result (Prints printer.old printer.new (pattern_tokens parameters.now selector.now)) }
{
    if parameters.is_empty() {
        return printer.token(TokenKind::Name, selector);
    }
    declared(printer, parameters, selector)
}

/// Parameters, each behind its keyword, or one behind a binary selector.
fn declared(
    printer: &mut Printer,
    parameters: &[NameAt],
    selector: &[u8],
) -> Result<(), OutOfMemory>
    ensures { OnOk result (Prints printer.old printer.new (declared_tokens parameters.now selector.now)) }
{
    let mut rest = selector;
    for name in parameters {
        part(printer, rest)?;
        printer.token(TokenKind::Name, name.name.bytes())?;
        rest = behind(rest);
    }
    Ok(())
}

fn primitive(alloc: Global, printer: &mut Printer, number: u8) -> Result<(), OutOfMemory>
    ensures { OnOk result (Prints printer.old printer.new (primitive_tokens number)) }
{
    if number == 0 {
        return Ok(());
    }
    printer.token(TokenKind::Binary, b"<")?;
    printer.token(TokenKind::Keyword, b"primitive:")?;
    printer.token(TokenKind::Number, format!(in alloc; "{number}")?.as_bytes())?;
    printer.token(TokenKind::Binary, b">")
}

fn temporaries(printer: &mut Printer, declared: &[NameAt]) -> Result<(), OutOfMemory>
    ensures { OnOk result (Prints printer.old printer.new (temporary_tokens declared.now)) }
{
    if declared.is_empty() {
        return Ok(());
    }
    printer.token(TokenKind::Binary, b"|")?;
    names(printer, declared)?;
    printer.token(TokenKind::Binary, b"|")
}

fn names(printer: &mut Printer, names: &[NameAt]) -> Result<(), OutOfMemory>
    ensures { OnOk result (Prints printer.old printer.new (name_tokens names.now)) }
{
    for name in names {
        printer.token(TokenKind::Name, name.name.bytes())?;
    }
    Ok(())
}
