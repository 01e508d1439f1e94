// Parts of trees: what a doIt sends to a class, and what an expression is by itself.
ghost use Rattle.std.specs.Prelude.{◌≡◌, ◌↔◌, IsTrue};
ghost use Rattle.s80_base.specs.Literal.{literal_of, symbol, str};
ghost use Rattle.s80_tree.specs.Tree.{doit_of, expr_of, message_of, messages_of, no_exprs, exprs};
ghost use Rattle.s80_form.specs.TreeParts.{Finds, IsOrganizing, IsSending, IsSentToName, all_sent, alone, argument, sending_of, to_organization, to_side};

use s80_base::{Literal, Side, Text};
use s80_syntax::{DoItTree, Expr, Message, Messages, NameAt, Primary, is_reserved};

/// A message to one side of a class, which is named as it was written.
#[derive(Clone, Copy)]
pub struct Sending<'t> {
    pub receiver: &'t NameAt,
    pub side: Side,
    pub message: &'t Message,
}

/// What a doIt sends, where it is `N message` or, to the class side, `N class message`, and nothing else: it has no temporaries, one
/// statement, and returns nothing, and N is no reserved word.
pub fn only_sending(tree: &DoItTree) -> Option<Sending<'_>>
    ensures { Finds sending_of (IsSending (doit_of tree.now)) result }
{
    let (receiver, messages) = sent_to_name(tree)?;
    let (side, message) = side_and_message(messages)?;
    Some(Sending {
        receiver,
        side,
        message,
    })
}

/// What a doIt sends to an organization, where it is `N organization message` or, to that of the class side,
/// `N class organization message`, and nothing else.
pub fn only_organizing(tree: &DoItTree) -> Option<Sending<'_>>
    ensures { Finds sending_of (IsOrganizing (doit_of tree.now)) result }
{
    let (receiver, messages) = sent_to_name(tree)?;
    let (side, message) = organized_side(messages)?;
    Some(Sending {
        receiver,
        side,
        message,
    })
}

/// The messages that a doIt sends to a name that is no reserved word, where it does nothing else.
fn sent_to_name(tree: &DoItTree) -> Option<(&NameAt, &Messages)>
    ensures { Finds (λ p. (p.0.now, messages_of p.1.now)) (IsSentToName (doit_of tree.now)) result }
{
    let (receiver, messages) = only_messages(only_expression(tree)?)?;
    if is_reserved(receiver.name.bytes()) {
        return None;
    }
    Some((receiver, messages))
}

/// The expression of a doIt that has no temporaries, and no other statement, and returns nothing.
pub fn only_expression(tree: &DoItTree) -> Option<&Expr>
    ensures { Finds (λ e. expr_of e.now) (λ e. doit_of tree.now ≡ alone e) result }
{
    if tree.temporaries.count() > 0 || tree.body.count() != 1 {
        return None;
    }
    let stmt = tree.body.at(0);
    if stmt.returns {
        return None;
    }
    Some(&stmt.expr)
}

/// The name and the messages of an expression that sends it these, one after the other, and does nothing else.
fn only_messages(expr: &Expr) -> Option<(&NameAt, &Messages)>
    ensures { Finds (λ p. (p.0.now, messages_of p.1.now)) (λ p. expr_of expr.now ≡ all_sent p) result }
{
    if expr.targets.count() > 0 || expr.cascades.count() > 0 {
        return None;
    }
    match &expr.receiver {
        Primary::Name(name) => Some((name, &expr.messages)),
        _ => None,
    }
}

/// The side to which messages go, and the one message to it.
fn side_and_message(messages: &Messages) -> Option<(Side, &Message)>
    ensures { Finds (λ p. (p.0, message_of p.1.now)) (λ p. messages_of messages.now ≡ to_side p) result }
{
    if messages.count() == 1 {
        return Some((Side::Instance, messages.at(0)));
    }
    if messages.count() != 2 {
        return None;
    }
    if !is_unary(messages.at(0), b"class") {
        return None;
    }
    Some((Side::Class, messages.at(1)))
}

/// The side to whose organization messages go, and the one message to it.
fn organized_side(messages: &Messages) -> Option<(Side, &Message)>
    ensures { Finds (λ p. (p.0, message_of p.1.now)) (λ p. messages_of messages.now ≡ to_organization p) result }
{
    if messages.count() == 2 {
        if !is_unary(messages.at(0), b"organization") {
            return None;
        }
        return Some((Side::Instance, messages.at(1)));
    }
    if messages.count() != 3 {
        return None;
    }
    if !is_unary(messages.at(0), b"class") {
        return None;
    }
    if !is_unary(messages.at(1), b"organization") {
        return None;
    }
    Some((Side::Class, messages.at(2)))
}

/// Whether a message has this selector and no arguments.
fn is_unary(message: &Message, selector: &[u8]) -> bool
    ensures { IsTrue result ↔ (message_of message.now ≡ (selector.now, no_exprs)) }
{
    message.selector.bytes() == selector && message.arguments.count() == 0
}

/// The argument of a message with this selector, where it has one argument.
pub fn only_argument<'t>(message: &'t Message, selector: &[u8]) -> Option<&'t Expr>
    ensures { Finds (λ e. expr_of e.now) (λ e. message_of message.now ≡ (selector.now, exprs e no_exprs)) result }
{
    if message.selector.bytes() != selector || message.arguments.count() != 1 {
        return None;
    }
    Some(message.arguments.at(0))
}

/// The text of the symbol that an expression is, where it is nothing else.
pub fn symbol(expr: &Expr) -> Option<&Text>
    ensures { Finds (λ text. text.now) (λ text. expr_of expr.now ≡ argument (symbol text)) result }
{
    match literal(expr)? {
        Literal::Symbol(text) => Some(text),
        _ => None,
    }
}

/// The text of the string that an expression is, where it is nothing else.
pub fn string(expr: &Expr) -> Option<&Text>
    ensures { Finds (λ text. text.now) (λ text. expr_of expr.now ≡ argument (str text)) result }
{
    match literal(expr)? {
        Literal::Str(text) => Some(text),
        _ => None,
    }
}

/// The literal that an expression is, where it is nothing else.
pub fn literal(expr: &Expr) -> Option<&Literal>
    ensures { Finds (λ value. literal_of value.now) (λ value. expr_of expr.now ≡ argument value) result }
{
    if expr.targets.count() > 0 || expr.messages.count() > 0 || expr.cascades.count() > 0 {
        return None;
    }
    match &expr.receiver {
        Primary::Literal(value) => Some(value),
        _ => None,
    }
}
