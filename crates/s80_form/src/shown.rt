// What a tree shows of its form.
ghost use Rattle.std.specs.Prelude.{◌≡◌, ◌↔◌, IsTrue};
ghost use Rattle.s80_base.specs.Literal.{str, symbol};
ghost use Rattle.s80_base.specs.declared.names.Side.TheVariants.{Instance, Class};
ghost use Rattle.s80_tree.specs.Tree.{doit_of, exprs_of, expr_of, no_exprs, exprs};
ghost use Rattle.s80_form.specs.declared.keyword.Keyword.TheVariants.{Defines};
ghost use Rattle.s80_form.specs.declared.keyword.Word.TheVariants as words;
ghost use Rattle.s80_form.specs.Definition.{are_arguments};
ghost use Rattle.s80_form.specs.Form.{smalltalk};
ghost use Rattle.s80_form.specs.TreeParts.{Finds, sending_of};
ghost use Rattle.s80_form.specs.Shown.{Has, Says, SaysOrganizing, SaysSent, SaysWord, recognised_as, sole, texts_of};

use crate::definition::Kind;
use crate::keyword::{Keyword, Word, keyword_of};
use crate::tree_parts::{Sending, only_organizing, only_sending, string, symbol};
use s80_base::{Side, Text};
use s80_syntax::{DoItTree, Expr, Exprs};

/// What a tree shows of its form.
#[derive(Clone, Copy)]
pub(crate) enum Shown<'t> {
    Define {
        superclass: &'t Text,
        kind: Kind,
        arguments: Arguments<'t>,
    },
    ClassVars {
        class_name: &'t Text,
        names: &'t Text,
    },
    Comment {
        class_name: &'t Text,
        text: &'t Text,
    },
    RemoveMethod {
        class_name: &'t Text,
        side: Side,
        selector: &'t Text,
    },
    Classify {
        class_name: &'t Text,
        side: Side,
        selector: &'t Text,
        category: &'t Text,
    },
    RemoveClass {
        class_name: &'t Text,
    },
    NoChanges,
    Condense,
    Snapshot,
}

/// The arguments of the message that defines a class.
#[derive(Clone, Copy)]
pub(crate) struct Arguments<'t> {
    pub(crate) class_name: &'t Text,
    pub(crate) inst_vars: &'t Text,
    pub(crate) class_vars: &'t Text,
    pub(crate) pools: &'t Text,
    pub(crate) category: &'t Text,
}

/// The form of a tree, if it has one, whether its parts are brief or not.
pub(crate) fn form_shown(tree: &DoItTree) -> Option<Shown<'_>>
    ensures { Finds recognised_as (Has (doit_of tree.now)) result }
{
    if let Some(sending) = only_sending(tree) {
        return sent(sending);
    }
    classified(only_organizing(tree)?)
}

/// The form of a message to one side of a class.
fn sent(sending: Sending<'_>) -> Option<Shown<'_>>
    ensures { Finds recognised_as (SaysSent (sending_of sending.entry)) result }
{
    let keyword = keyword_of(sending.message.selector.bytes())?;
    by_keyword(
        keyword,
        &sending.receiver.name,
        sending.side,
        &sending.message.arguments,
    )
}

fn by_keyword<'t>(
    keyword: Keyword,
    name: &'t Text,
    side: Side,
    arguments: &'t Exprs,
) -> Option<Shown<'t>>
    ensures { Finds recognised_as (Says keyword name.now side (exprs_of arguments.now)) result }
{
    match keyword {
        Keyword::Defines(kind) => match side {
            Side::Instance => definition(kind, name, arguments),
            Side::Class => None,
        },
        Keyword::Plain(word) => match side {
            Side::Instance => to_instance(word, name, arguments),
            Side::Class => to_class(word, name, arguments),
        },
    }
}

fn definition<'t>(kind: Kind, superclass: &'t Text, arguments: &'t Exprs) -> Option<Shown<'t>>
    ensures { Finds recognised_as (Says (Defines kind) superclass.now Instance (exprs_of arguments.now)) result }
{
    Some(Shown::Define {
        superclass,
        kind,
        arguments: five_arguments(arguments)?,
    })
}

/// The texts of a symbol and of four strings that are the arguments.
fn five_arguments(exprs: &Exprs) -> Option<Arguments<'_>>
    ensures { Finds texts_of (λ texts. exprs_of exprs.now ≡ are_arguments texts) result }
{
    if exprs.count() != 5 {
        return None;
    }
    Some(Arguments {
        class_name: symbol(exprs.at(0))?,
        inst_vars: string(exprs.at(1))?,
        class_vars: string(exprs.at(2))?,
        pools: string(exprs.at(3))?,
        category: string(exprs.at(4))?,
    })
}

fn to_instance<'t>(word: Word, name: &'t Text, arguments: &'t Exprs) -> Option<Shown<'t>>
    ensures { Finds recognised_as (SaysWord word name.now Instance (exprs_of arguments.now)) result }
{
    match word {
        Word::Comment => comment(name, arguments),
        Word::RemoveSelector => removed_method(name, Side::Instance, arguments),
        Word::RemoveClassNamed => named_class(name, arguments),
        Word::RemoveFromSystem => receiving_class(name, arguments),
        Word::NoChanges => no_changes(name, arguments),
        Word::CondenseChanges => condense(name, arguments),
        Word::Snapshot => snapshot(name, arguments),
        Word::InstanceVariableNames => None,
        Word::Organization => None,
    }
}

fn to_class<'t>(word: Word, name: &'t Text, arguments: &'t Exprs) -> Option<Shown<'t>>
    ensures { Finds recognised_as (SaysWord word name.now Class (exprs_of arguments.now)) result }
{
    match word {
        Word::InstanceVariableNames => class_vars(name, arguments),
        Word::RemoveSelector => removed_method(name, Side::Class, arguments),
        _ => None,
    }
}

fn class_vars<'t>(class_name: &'t Text, arguments: &'t Exprs) -> Option<Shown<'t>>
    ensures { Finds recognised_as (SaysWord words.InstanceVariableNames class_name.now Class (exprs_of arguments.now)) result }
{
    let names = sole_string(arguments)?;
    Some(Shown::ClassVars { class_name, names })
}

fn comment<'t>(class_name: &'t Text, arguments: &'t Exprs) -> Option<Shown<'t>>
    ensures { Finds recognised_as (SaysWord words.Comment class_name.now Instance (exprs_of arguments.now)) result }
{
    let text = sole_string(arguments)?;
    Some(Shown::Comment { class_name, text })
}

fn removed_method<'t>(class_name: &'t Text, side: Side, arguments: &'t Exprs) -> Option<Shown<'t>>
    ensures { Finds recognised_as (SaysWord words.RemoveSelector class_name.now side (exprs_of arguments.now)) result }
{
    let selector = sole_symbol(arguments)?;
    Some(Shown::RemoveMethod {
        class_name,
        side,
        selector,
    })
}

fn named_class<'t>(receiver: &Text, arguments: &'t Exprs) -> Option<Shown<'t>>
    ensures { Finds recognised_as (SaysWord words.RemoveClassNamed receiver.now Instance (exprs_of arguments.now)) result }
{
    if !is_smalltalk(receiver) {
        return None;
    }
    let class_name = sole_symbol(arguments)?;
    Some(Shown::RemoveClass { class_name })
}

fn receiving_class<'t>(class_name: &'t Text, arguments: &Exprs) -> Option<Shown<'t>>
    ensures { Finds recognised_as (SaysWord words.RemoveFromSystem class_name.now Instance (exprs_of arguments.now)) result }
{
    if arguments.count() > 0 {
        return None;
    }
    Some(Shown::RemoveClass { class_name })
}

fn no_changes(receiver: &Text, arguments: &Exprs) -> Option<Shown<'static>>
    ensures { Finds recognised_as (SaysWord words.NoChanges receiver.now Instance (exprs_of arguments.now)) result }
{
    if !is_smalltalk(receiver) {
        return None;
    }
    if arguments.count() > 0 {
        return None;
    }
    Some(Shown::NoChanges)
}

fn condense(receiver: &Text, arguments: &Exprs) -> Option<Shown<'static>>
    ensures { Finds recognised_as (SaysWord words.CondenseChanges receiver.now Instance (exprs_of arguments.now)) result }
{
    if !is_smalltalk(receiver) {
        return None;
    }
    if arguments.count() > 0 {
        return None;
    }
    Some(Shown::Condense)
}

fn snapshot(receiver: &Text, arguments: &Exprs) -> Option<Shown<'static>>
    ensures { Finds recognised_as (SaysWord words.Snapshot receiver.now Instance (exprs_of arguments.now)) result }
{
    if !is_smalltalk(receiver) {
        return None;
    }
    if arguments.count() > 0 {
        return None;
    }
    Some(Shown::Snapshot)
}

/// The form of a message to the organization of one side of a class.
fn classified(sending: Sending<'_>) -> Option<Shown<'_>>
    ensures { Finds recognised_as (SaysOrganizing (sending_of sending.entry)) result }
{
    let message = sending.message;
    if message.selector.bytes() != b"classify:under:".as_slice() {
        return None;
    }
    if message.arguments.count() != 2 {
        return None;
    }
    Some(Shown::Classify {
        class_name: &sending.receiver.name,
        side: sending.side,
        selector: symbol(message.arguments.at(0))?,
        category: string(message.arguments.at(1))?,
    })
}

fn is_smalltalk(name: &Text) -> bool
    ensures { IsTrue result ↔ (name.now ≡ smalltalk) }
{
    name.bytes() == b"Smalltalk".as_slice()
}

/// The argument, where there is one.
fn sole(arguments: &Exprs) -> Option<&Expr>
    ensures { Finds (λ e. expr_of e.now) (λ e. exprs_of arguments.now ≡ exprs e no_exprs) result }
{
    if arguments.count() != 1 {
        return None;
    }
    Some(arguments.at(0))
}

fn sole_symbol(arguments: &Exprs) -> Option<&Text>
    ensures { Finds (λ text. text.now) (λ text. exprs_of arguments.now ≡ sole (symbol text)) result }
{
    symbol(sole(arguments)?)
}

fn sole_string(arguments: &Exprs) -> Option<&Text>
    ensures { Finds (λ text. text.now) (λ text. exprs_of arguments.now ≡ sole (str text)) result }
{
    string(sole(arguments)?)
}
