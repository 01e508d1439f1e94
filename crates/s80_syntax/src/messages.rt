// What the functions that read expressions share.
ghost use Rattle.std.specs.Prelude.{◌≡◌, ◌<◌, ◌≤◌, [], IfOk, MatchBool, length};
ghost use Rattle.s80_syntax.specs.Expr.{MayOpen, MessageNext, NoMessage, TookCaret, TookUnaries, statement_next};
ghost use Rattle.s80_syntax.specs.Reads.{AreSlices};
ghost use Rattle.s80_tree.specs.Tree.{exprs, expr as expr_tree, expr_of, exprs_of, messages_of, no_exprs, no_messages, primary_of};

use crate::fault::ParseFault;
use crate::literal::DEPTH;
use crate::tokens::{is_minus, next, next_of, place_of, spelled};
use s80_base::OutOfMemory;
use s80_lex::{Token, TokenKind};
use s80_tree::{Expr, Exprs, Message, Messages, NamesAt, Primary};
use std::alloc::Global;

/// The unary messages that come next.
pub(crate) fn unary_messages<'t>(
    alloc: Global,
    text: &[u8],
    tokens: &'t [Token],
) -> Result<(Messages, &'t [Token]), OutOfMemory>
    requires { AreSlices text.now tokens.now }
    ensures { IfOk result (λ found. TookUnaries text.now (messages_of found.0) tokens.now found.1.now) }
{
    let mut messages = Messages::empty(alloc);
    let mut rest = tokens;
    while let Some((token, tail)) = next_of(TokenKind::Name, rest) {
        let selector = spelled(alloc, text, token)?;
        messages.push(Message::new(selector, Exprs::empty(alloc)))?;
        rest = tail;
    }
    Ok((messages, rest))
}

/// One argument, as a list.
pub(crate) fn single(alloc: Global, argument: Expr) -> Result<Exprs, OutOfMemory>
    ensures { IfOk result (λ arguments. exprs_of arguments ≡ exprs (expr_of argument) no_exprs) }
{
    let mut arguments = Exprs::empty(alloc);
    arguments.push(argument)?;
    Ok(arguments)
}

/// An argument: its receiver and the messages to it.
pub(crate) fn operand(alloc: Global, receiver: Primary, messages: Messages) -> Expr
    ensures { expr_of result ≡ expr_tree [] (primary_of receiver) (messages_of messages) no_messages }
{
    Expr::new(
        NamesAt::empty(alloc),
        receiver,
        messages,
        Messages::empty(alloc),
    )
}

/// Whether a message comes next.
pub(crate) fn starts_message(tokens: &[Token]) -> bool
    ensures { MatchBool result (MessageNext tokens.now) (NoMessage tokens.now) }
{
    match next(tokens) {
        Some((token, _)) => matches!(
            token.kind,
            TokenKind::Name | TokenKind::Binary | TokenKind::Keyword
        ),
        None => false,
    }
}

/// Whether a statement comes next.
pub(crate) fn starts_statement(text: &[u8], tokens: &[Token]) -> bool
    requires { AreSlices text.now tokens.now }
    ensures { result ≡ statement_next text.now tokens.now }
{
    match next(tokens) {
        Some((token, later)) => match token.kind {
            TokenKind::Caret
            | TokenKind::Name
            | TokenKind::Number
            | TokenKind::Character
            | TokenKind::Str
            | TokenKind::Symbol
            | TokenKind::ArrayStart
            | TokenKind::OpenParen
            | TokenKind::OpenBracket => true,
            TokenKind::Binary => is_minus(text, token, later),
            _ => false,
        },
        None => false,
    }
}

/// A caret, if one comes next.
pub(crate) fn caret(tokens: &[Token]) -> (bool, &[Token])
    ensures { TookCaret result.0 tokens.now result.1.now }
{
    match next_of(TokenKind::Caret, tokens) {
        Some((_, tail)) => (true, tail),
        None => (false, tokens),
    }
}

/// Refuses the next token where it opens a bracket too many.
pub(crate) fn open(text: &[u8], depth: u32, tokens: &[Token]) -> Result<(), ParseFault>
    requires text { length text.now < 65536 }
    requires depth { depth ≤ 64 }
    ensures { MayOpen text.now depth tokens.now result }
{
    if depth == DEPTH {
        return Err(ParseFault::Nested(place_of(text, tokens)));
    }
    Ok(())
}
