// Expressions and statements.
ghost use Rattle.std.specs.Prelude.{◌≡◌, ◌∷◌, [], OnOk};
ghost use Rattle.s80_tree.specs.Tree.{block as block_tree, block_of, body_of, expr_of, exprs_of, message_of, messages_of, primary_of, stmt_of};
ghost use Rattle.s80_lex.specs.declared.token.TokenKind.TheVariants as kinds;
ghost use Rattle.s80_decompile.specs.Printed.{Prints};
ghost use Rattle.s80_decompile.specs.TreeTokens.{bar_tokens, body_tokens, caret_tokens, cascade_tokens, expr_tokens, message_tokens, messages_tokens, parameter_tokens, parts_tokens, period_if, primary_tokens, target_tokens, token};

use crate::literal::literal;
use crate::printer::Printer;
use crate::selector::{behind, part};
use s80_base::OutOfMemory;
use s80_lex::TokenKind;
use s80_tree::{Block, Body, Expr, Exprs, Message, Messages, NameAt, Primary, Stmt};
use std::alloc::Global;

#[cycle(walk)]
pub(crate) fn body(alloc: Global, printer: &mut Printer, body: &Body) -> Result<(), OutOfMemory>
    ensures { OnOk result (Prints printer.old printer.new (body_tokens (body_of body.now))) }
{
    let mut follows = false;
    for one in &body.items {
        period(printer, follows)?;
        statement(alloc, printer, one)?;
        follows = true;
    }
    Ok(())
}

/// A period, where a statement follows another.
fn period(printer: &mut Printer, follows: bool) -> Result<(), OutOfMemory>
    ensures { OnOk result (Prints printer.old printer.new (period_if follows)) }
{
    if follows {
        printer.token(TokenKind::Period, b".")?;
    }
    Ok(())
}

#[cycle(walk)]
fn statement(alloc: Global, printer: &mut Printer, one: &Stmt) -> Result<(), OutOfMemory>
    ensures { OnOk result (Prints printer.old printer.new (λ more. caret_tokens (stmt_of one.now).0 (expr_tokens (stmt_of one.now).1 more))) }
{
    if one.returns {
        printer.token(TokenKind::Caret, b"^")?;
        return expr(alloc, printer, &one.expr);
    }
    expr(alloc, printer, &one.expr)
}

#[cycle(walk)]
fn expr(alloc: Global, printer: &mut Printer, expr: &Expr) -> Result<(), OutOfMemory>
    ensures { OnOk result (Prints printer.old printer.new (expr_tokens (expr_of expr.now))) }
{
    targets(printer, &expr.targets.items)?;
    primary(alloc, printer, &expr.receiver)?;
    messages(alloc, printer, &expr.messages)?;
    cascade(alloc, printer, &expr.cascades)
}

/// Assigned names, each with its sign.
fn targets(printer: &mut Printer, names: &[NameAt]) -> Result<(), OutOfMemory>
    ensures { OnOk result (Prints printer.old printer.new (target_tokens names.now)) }
{
    for name in names {
        printer.token(TokenKind::Name, name.name.bytes())?;
        printer.token(TokenKind::Assign, b"_")?;
    }
    Ok(())
}

#[cycle(walk)]
fn primary(alloc: Global, printer: &mut Printer, primary: &Primary) -> Result<(), OutOfMemory>
    ensures { OnOk result (Prints printer.old printer.new (primary_tokens (primary_of primary.now))) }
{
    match primary {
        Primary::Name(name) => printer.token(TokenKind::Name, name.name.bytes()),
        Primary::Literal(value) => literal(alloc, printer, value),
        Primary::Block(inner) => block(alloc, printer, inner),
        Primary::Paren(inner) => paren(alloc, printer, inner),
    }
}

#[cycle(walk)]
fn paren(alloc: Global, printer: &mut Printer, inner: &Expr) -> Result<(), OutOfMemory>
    ensures { OnOk result (Prints printer.old printer.new (λ more. token kinds.OpenParen (40 ∷ []) ∷ expr_tokens (expr_of inner.now) (token kinds.CloseParen (41 ∷ []) ∷ more))) }
{
    printer.token(TokenKind::OpenParen, b"(")?;
    expr(alloc, printer, inner)?;
    printer.token(TokenKind::CloseParen, b")")
}

#[cycle(walk)]
fn block(alloc: Global, printer: &mut Printer, block: &Block) -> Result<(), OutOfMemory>
    ensures { OnOk result (Prints printer.old printer.new (primary_tokens (block_tree (block_of block.now).0 (block_of block.now).1))) }
{
    printer.token(TokenKind::OpenBracket, b"[")?;
    parameters(printer, &block.parameters.items)?;
    bar(printer, &block.parameters.items, &block.body)?;
    body(alloc, printer, &block.body)?;
    printer.token(TokenKind::CloseBracket, b"]")
}

/// The parameters of a block, each behind a colon.
fn parameters(printer: &mut Printer, names: &[NameAt]) -> Result<(), OutOfMemory>
    ensures { OnOk result (Prints printer.old printer.new (parameter_tokens names.now)) }
{
    for name in names {
        printer.token(TokenKind::Colon, b":")?;
        printer.token(TokenKind::Name, name.name.bytes())?;
    }
    Ok(())
}

/// The bar between parameters and a body, where a block has both.
fn bar(printer: &mut Printer, names: &[NameAt], body: &Body) -> Result<(), OutOfMemory>
    ensures { OnOk result (Prints printer.old printer.new (bar_tokens names.now (body_of body.now))) }
{
    if names.is_empty() {
        return Ok(());
    }
    if body.count() == 0 {
        return Ok(());
    }
    printer.token(TokenKind::Binary, b"|")
}

#[cycle(walk)]
fn messages(alloc: Global, printer: &mut Printer, messages: &Messages) -> Result<(), OutOfMemory>
    ensures { OnOk result (Prints printer.old printer.new (messages_tokens (messages_of messages.now))) }
{
    for one in &messages.items {
        message(alloc, printer, one)?;
    }
    Ok(())
}

/// Further messages to the receiver of the last, each behind a semicolon.
#[cycle(walk)]
fn cascade(alloc: Global, printer: &mut Printer, messages: &Messages) -> Result<(), OutOfMemory>
    ensures { OnOk result (Prints printer.old printer.new (cascade_tokens (messages_of messages.now))) }
{
    for one in &messages.items {
        printer.token(TokenKind::Semicolon, b";")?;
        message(alloc, printer, one)?;
    }
    Ok(())
}

#[cycle(walk)]
fn message(alloc: Global, printer: &mut Printer, one: &Message) -> Result<(), OutOfMemory>
    ensures { OnOk result (Prints printer.old printer.new (message_tokens (message_of one.now).1 (message_of one.now).0)) }
{
    let selector = one.selector.bytes();
    if one.arguments.count() == 0 {
        return printer.token(TokenKind::Name, selector);
    }
    arguments(alloc, printer, &one.arguments, selector)
}

/// Arguments, each behind its keyword, or one behind a binary selector.
#[cycle(walk)]
fn arguments(
    alloc: Global,
    printer: &mut Printer,
    arguments: &Exprs,
    selector: &[u8],
) -> Result<(), OutOfMemory>
    ensures { OnOk result (Prints printer.old printer.new (parts_tokens (exprs_of arguments.now) selector.now)) }
{
    let mut rest = selector;
    for argument in &arguments.items {
        part(printer, rest)?;
        expr(alloc, printer, argument)?;
        rest = behind(rest);
    }
    Ok(())
}
