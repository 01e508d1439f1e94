// Expressions and statements, read by descent.
ghost use Rattle.std.specs.Prelude.{◌≡◌, ◌<◌, ◌≤◌, ◌∷◌, [], length};
ghost use Rattle.s80_syntax.specs.Grammar.{IsBody, IsCascade, IsChain, IsExpr, IsOperand, IsPrimary};
ghost use Rattle.s80_syntax.specs.Limits.{block_assigns};
ghost use Rattle.s80_syntax.specs.Stack.{primary as primary_symbol, expr_start, unary_tail, binary_tail, keyword_tail, cascade, message as message_symbol, close_paren, close_bracket, block_start, body as body_symbol};
ghost use Rattle.s80_syntax.specs.Word.{names_in};
ghost use Rattle.s80_lex.specs.Text.{IsSlice};
ghost use Rattle.s80_lex.specs.declared.token.TokenKind.TheVariants as kind;
ghost use Rattle.s80_syntax.specs.Expr.{AreBinary, IsAnyMessage, IsBinaryRest, IsBlockBody, IsBlockRest, IsKeywordMessage, IsParenRest, MessageNext};
ghost use Rattle.s80_syntax.specs.Literal.{KeywordNext};
ghost use Rattle.s80_syntax.specs.Names.{parameter_symbol};
ghost use Rattle.s80_syntax.specs.Reads.{AreSlices, IsNotNext, Parses, bytes_of};
ghost use Rattle.s80_syntax.specs.Scope.{assigns_in};
ghost use Rattle.s80_tree.specs.Tree.{body_of, expr_of, message_of, messages_of, primary_of};

use crate::fault::ParseFault;
use crate::literal::literal;
use crate::messages::{
    caret, open, operand, single, starts_message, starts_statement, unary_messages,
};
use crate::name_set::NameSet;
use crate::names::{name_at, parameters, targets};
use crate::scope::Scope;
use crate::tokens::{after_sign, bytes, next, next_of, place_of, spelled};
use s80_base::Text;
use s80_lex::{Token, TokenKind};
use s80_tree::{Block, Body, Expr, Exprs, Message, Messages, NameAt, Primary, Stmt};
use std::alloc::Global;

/// What stands alone as an operand.
#[cycle(parser)]
fn primary<'t>(
    alloc: Global,
    text: &[u8],
    depth: u32,
    scope: &Scope,
    tokens: &'t [Token],
) -> Result<(Primary, &'t [Token]), ParseFault>
    requires text { length text.now < 65536 }
    requires slices { AreSlices text.now tokens.now }
    requires depth { depth ≤ 64 }
    ensures { Parses text.now depth (assigns_in scope.now) (primary_symbol ∷ []) (λ found. IsPrimary (primary_of found)) tokens.now result }
{
    let Some((token, tail)) = next(tokens) else {
        return Err(ParseFault::Unexpected(place_of(text, tokens)));
    };
    match token.kind {
        TokenKind::Name => Ok((Primary::name(name_at(alloc, text, token)?), tail)),
        TokenKind::OpenParen => {
            open(text, depth, tokens)?;
            paren(alloc, text, depth, scope, tail)
        }
        TokenKind::OpenBracket => {
            open(text, depth, tokens)?;
            block(alloc, text, depth, scope, tail)
        }
        _ => {
            let (literal, rest) = literal(alloc, text, depth, tokens)?;
            Ok((Primary::literal(literal), rest))
        }
    }
}

/// An expression in parentheses, behind the first.
#[cycle(parser)]
fn paren<'t>(
    alloc: Global,
    text: &[u8],
    depth: u32,
    scope: &Scope,
    tokens: &'t [Token],
) -> Result<(Primary, &'t [Token]), ParseFault>
    requires text { length text.now < 65536 }
    requires slices { AreSlices text.now tokens.now }
    requires depth { depth < 64 }
    ensures { Parses text.now depth (assigns_in scope.now) (expr_start ∷ close_paren ∷ []) (λ found. IsParenRest (primary_of found)) tokens.now result }
{
    let (inner, rest) = expr(alloc, text, depth + 1, scope, tokens)?;
    let Some((_, after)) = next_of(TokenKind::CloseParen, rest) else {
        return Err(ParseFault::Unexpected(place_of(text, rest)));
    };
    Ok((Primary::paren(Box::new(alloc, inner)?), after))
}

/// A block, behind its opening bracket.
#[cycle(parser)]
fn block<'t>(
    alloc: Global,
    text: &[u8],
    depth: u32,
    scope: &Scope,
    tokens: &'t [Token],
) -> Result<(Primary, &'t [Token]), ParseFault>
    requires text { length text.now < 65536 }
    requires slices { AreSlices text.now tokens.now }
    requires depth { depth < 64 }
    ensures { Parses text.now depth (assigns_in scope.now) (block_start ∷ close_bracket ∷ []) (λ found. IsBlockRest (primary_of found)) tokens.now result }
{
    let (parameters, start) = parameters(alloc, text, tokens)?;
    let (body, rest) = block_body(alloc, text, depth + 1, scope, &parameters.items, start)?;
    let Some((_, after)) = next_of(TokenKind::CloseBracket, rest) else {
        return Err(ParseFault::Unexpected(place_of(text, rest)));
    };
    Ok((Primary::block(Block::new(parameters, body)), after))
}

/// The body of a block, and the bar between the parameters and it.
#[cycle(parser)]
fn block_body<'t>(
    alloc: Global,
    text: &[u8],
    depth: u32,
    scope: &Scope,
    parameters: &[NameAt],
    tokens: &'t [Token],
) -> Result<(Body, &'t [Token]), ParseFault>
    requires text { length text.now < 65536 }
    requires slices { AreSlices text.now tokens.now }
    requires depth { depth ≤ 64 }
    requires no_colon { IsNotNext kind.Colon tokens.now }
    ensures { Parses text.now depth (assigns_in scope.now) (parameter_symbol (names_in parameters.now) ∷ []) (λ found. IsBlockBody parameters.now (body_of found)) tokens.now result }
{
    if parameters.is_empty() {
        return inner_body(alloc, text, depth, scope, parameters, tokens);
    }
    match after_sign(text, TokenKind::Binary, b"|", tokens) {
        Some(after) => inner_body(alloc, text, depth, scope, parameters, after),
        None => Ok((Body::empty(alloc), tokens)),
    }
}

/// Statements in a block with these parameters.
#[cycle(parser)]
fn inner_body<'t>(
    alloc: Global,
    text: &[u8],
    depth: u32,
    scope: &Scope,
    parameters: &[NameAt],
    tokens: &'t [Token],
) -> Result<(Body, &'t [Token]), ParseFault>
    requires text { length text.now < 65536 }
    requires slices { AreSlices text.now tokens.now }
    requires depth { depth ≤ 64 }
    ensures { Parses text.now depth (block_assigns (names_in parameters.now) (assigns_in scope.now)) (body_symbol ∷ []) (λ found. IsBody (body_of found)) tokens.now result }
{
    let names = NameSet::of(alloc, parameters)?;
    let inner = Scope::within(&names, &*scope);
    body(alloc, text, depth, &inner, tokens)
}

/// Statements, up to what begins none.
#[cycle(parser)]
pub(crate) fn body<'t>(
    alloc: Global,
    text: &[u8],
    depth: u32,
    scope: &Scope,
    tokens: &'t [Token],
) -> Result<(Body, &'t [Token]), ParseFault>
    requires text { length text.now < 65536 }
    requires slices { AreSlices text.now tokens.now }
    requires depth { depth ≤ 64 }
    ensures { Parses text.now depth (assigns_in scope.now) (body_symbol ∷ []) (λ found. IsBody (body_of found)) tokens.now result }
{
    let mut statements = Body::empty(alloc);
    let mut rest = tokens;
    while starts_statement(text, rest) {
        let (returns, first) = caret(rest);
        let (expr, end) = expr(alloc, text, depth, scope, first)?;
        statements.push(Stmt::new(returns, expr))?;
        let Some((_, after)) = next_of(TokenKind::Period, end) else {
            return Ok((statements, end));
        };
        if returns {
            return Ok((statements, after));
        }
        rest = after;
    }
    Ok((statements, rest))
}

/// An expression.
#[cycle(parser)]
fn expr<'t>(
    alloc: Global,
    text: &[u8],
    depth: u32,
    scope: &Scope,
    tokens: &'t [Token],
) -> Result<(Expr, &'t [Token]), ParseFault>
    requires text { length text.now < 65536 }
    requires slices { AreSlices text.now tokens.now }
    requires depth { depth ≤ 64 }
    ensures { Parses text.now depth (assigns_in scope.now) (expr_start ∷ []) (λ found. IsExpr (expr_of found)) tokens.now result }
{
    let (names, first) = targets(alloc, text, scope, tokens)?;
    let (receiver, rest) = primary(alloc, text, depth, scope, first)?;
    if !starts_message(rest) {
        let none = Messages::empty(alloc);
        return Ok((
            Expr::new(names, receiver, none, Messages::empty(alloc)),
            rest,
        ));
    }
    let (messages, end) = chain(alloc, text, depth, scope, rest)?;
    let (others, after) = cascades(alloc, text, depth, scope, end)?;
    Ok((Expr::new(names, receiver, messages, others), after))
}

/// The messages of an expression, up to a cascade.
#[cycle(parser)]
fn chain<'t>(
    alloc: Global,
    text: &[u8],
    depth: u32,
    scope: &Scope,
    tokens: &'t [Token],
) -> Result<(Messages, &'t [Token]), ParseFault>
    requires text { length text.now < 65536 }
    requires slices { AreSlices text.now tokens.now }
    requires depth { depth ≤ 64 }
    ensures { Parses text.now depth (assigns_in scope.now) (unary_tail ∷ binary_tail ∷ keyword_tail ∷ []) (λ found. IsChain (messages_of found) 0 2) tokens.now result }
{
    let (mut messages, rest) = binary_messages(alloc, text, depth, scope, tokens)?;
    let Some(_) = next_of(TokenKind::Keyword, rest) else {
        return Ok((messages, rest));
    };
    let (message, after) = keyword_message(alloc, text, depth, scope, rest)?;
    messages.push(message)?;
    Ok((messages, after))
}

/// The messages behind semicolons.
#[cycle(parser)]
fn cascades<'t>(
    alloc: Global,
    text: &[u8],
    depth: u32,
    scope: &Scope,
    tokens: &'t [Token],
) -> Result<(Messages, &'t [Token]), ParseFault>
    requires text { length text.now < 65536 }
    requires slices { AreSlices text.now tokens.now }
    requires depth { depth ≤ 64 }
    ensures { Parses text.now depth (assigns_in scope.now) (cascade ∷ []) (λ found. IsCascade (messages_of found)) tokens.now result }
{
    let mut messages = Messages::empty(alloc);
    let mut rest = tokens;
    while let Some((_, tail)) = next_of(TokenKind::Semicolon, rest) {
        let (message, after) = message(alloc, text, depth, scope, tail)?;
        messages.push(message)?;
        rest = after;
    }
    Ok((messages, rest))
}

/// A message behind a semicolon.
#[cycle(parser)]
fn message<'t>(
    alloc: Global,
    text: &[u8],
    depth: u32,
    scope: &Scope,
    tokens: &'t [Token],
) -> Result<(Message, &'t [Token]), ParseFault>
    requires text { length text.now < 65536 }
    requires slices { AreSlices text.now tokens.now }
    requires depth { depth ≤ 64 }
    ensures { Parses text.now depth (assigns_in scope.now) (message_symbol ∷ []) (λ found. IsAnyMessage (message_of found)) tokens.now result }
{
    let Some((token, tail)) = next(tokens) else {
        return Err(ParseFault::Unexpected(place_of(text, tokens)));
    };
    match token.kind {
        TokenKind::Name => {
            let selector = spelled(alloc, text, token)?;
            Ok((Message::new(selector, Exprs::empty(alloc)), tail))
        }
        TokenKind::Binary => binary_message(alloc, text, depth, scope, token, tail),
        TokenKind::Keyword => keyword_message(alloc, text, depth, scope, tokens),
        _ => Err(ParseFault::Unexpected(place_of(text, tokens))),
    }
}

/// The unary and binary messages that come next.
#[cycle(parser)]
fn binary_messages<'t>(
    alloc: Global,
    text: &[u8],
    depth: u32,
    scope: &Scope,
    tokens: &'t [Token],
) -> Result<(Messages, &'t [Token]), ParseFault>
    requires text { length text.now < 65536 }
    requires slices { AreSlices text.now tokens.now }
    requires depth { depth ≤ 64 }
    ensures { Parses text.now depth (assigns_in scope.now) (unary_tail ∷ binary_tail ∷ []) (λ found. AreBinary (messages_of found)) tokens.now result }
{
    let (mut messages, mut rest) = unary_messages(alloc, text, tokens)?;
    while let Some((token, tail)) = next_of(TokenKind::Binary, rest) {
        let (message, after) = binary_message(alloc, text, depth, scope, token, tail)?;
        messages.push(message)?;
        rest = after;
    }
    Ok((messages, rest))
}

/// A binary message, behind its selector.
#[cycle(parser)]
fn binary_message<'t>(
    alloc: Global,
    text: &[u8],
    depth: u32,
    scope: &Scope,
    selector: Token,
    tokens: &'t [Token],
) -> Result<(Message, &'t [Token]), ParseFault>
    requires text { length text.now < 65536 }
    requires slices { AreSlices text.now tokens.now }
    requires depth { depth ≤ 64 }
    requires selector { IsSlice text.now selector }
    ensures { Parses text.now depth (assigns_in scope.now) (primary_symbol ∷ unary_tail ∷ []) (λ found. IsBinaryRest (bytes_of text.now selector) (message_of found)) tokens.now result }
{
    let (receiver, rest) = primary(alloc, text, depth, scope, tokens)?;
    let (messages, after) = unary_messages(alloc, text, rest)?;
    let arguments = single(alloc, operand(alloc, receiver, messages))?;
    Ok((
        Message::new(spelled(alloc, text, selector)?, arguments),
        after,
    ))
}

/// A keyword message.
#[cycle(parser)]
fn keyword_message<'t>(
    alloc: Global,
    text: &[u8],
    depth: u32,
    scope: &Scope,
    tokens: &'t [Token],
) -> Result<(Message, &'t [Token]), ParseFault>
    requires text { length text.now < 65536 }
    requires slices { AreSlices text.now tokens.now }
    requires depth { depth ≤ 64 }
    requires keyword { KeywordNext tokens.now }
    ensures { Parses text.now depth (assigns_in scope.now) (keyword_tail ∷ []) (λ found. IsKeywordMessage (message_of found)) tokens.now result }
{
    let mut selector = Text::empty(alloc);
    let mut arguments = Exprs::empty(alloc);
    let mut rest = tokens;
    while let Some((token, tail)) = next_of(TokenKind::Keyword, rest) {
        selector.append(bytes(text, token))?;
        let (argument, after) = keyword_argument(alloc, text, depth, scope, tail)?;
        arguments.push(argument)?;
        rest = after;
    }
    Ok((Message::new(selector, arguments), rest))
}

/// An argument behind a keyword: an operand with its unary and binary messages.
#[cycle(parser)]
fn keyword_argument<'t>(
    alloc: Global,
    text: &[u8],
    depth: u32,
    scope: &Scope,
    tokens: &'t [Token],
) -> Result<(Expr, &'t [Token]), ParseFault>
    requires text { length text.now < 65536 }
    requires slices { AreSlices text.now tokens.now }
    requires depth { depth ≤ 64 }
    ensures { Parses text.now depth (assigns_in scope.now) (primary_symbol ∷ unary_tail ∷ binary_tail ∷ []) (λ found. IsOperand (expr_of found) 1) tokens.now result }
{
    let (receiver, rest) = primary(alloc, text, depth, scope, tokens)?;
    let (messages, after) = binary_messages(alloc, text, depth, scope, rest)?;
    Ok((operand(alloc, receiver, messages), after))
}
