// The reading of a form's text.
ghost use Rattle.std.specs.Prelude.{◌≡◌, ◌↔◌, [], IsTrue, IfOk};
ghost use Rattle.s80_form.specs.Name.{AreNames, IsSelectorWord};
ghost use Rattle.s80_form.specs.Definition.{HasDefinitionNames};
ghost use Rattle.s80_form.specs.Form.{HasLawfulNames, IsLawfulForm, IsReadAs};
ghost use Rattle.s80_base.specs.declared.names.Side.TheVariants.{Instance, Class};
ghost use Rattle.s80_form.specs.declared.keyword.Word.TheVariants as words;
ghost use Rattle.s80_form.specs.Read.{FindsDefinition, FindsForm, FindsFront, FindsLine, FindsSide, FindsWord};

use crate::definition::{Definition, Kind};
use crate::form::{Form, is_brief_form};
use crate::keyword::{Keyword, Word, keyword_named};
use crate::name::is_name;
use crate::names::split_names;
use crate::spelling::form_text;
use crate::text_parts::{after, string, word};
use s80_base::{Names, OutOfMemory, Side, Text};
use s80_lex::parameters_of;
use std::alloc::Global;

/// What the text of a form begins with, and what follows it.
#[derive(Clone, Copy)]
struct Front<'t> {
    name: &'t [u8],
    side: Side,
    word: &'t [u8],
    rest: &'t [u8],
}

/// The lawful form that has this very text, if there is one. The text may be longer than one that is read from a chunk.
pub fn read_form(alloc: Global, text: &Text) -> Result<Option<Form>, OutOfMemory>
    ensures { IfOk result (IsReadAs text.now) }
{
    let Some(form) = parts(alloc, text.bytes())? else {
        return Ok(None);
    };
    if !is_lawful(&form) {
        return Ok(None);
    }
    let spelled = form_text(alloc, &form)?;
    if spelled.bytes() == text.bytes() {
        Ok(Some(form))
    } else {
        Ok(None)
    }
}

fn is_lawful(form: &Form) -> bool
    ensures { IsTrue result ↔ IsLawfulForm form.now }
{
    has_lawful_names(form) && is_brief_form(form)
}

fn has_lawful_names(form: &Form) -> bool
    ensures { IsTrue result ↔ HasLawfulNames form.now }
{
    match form {
        Form::Define(definition) => has_definition_names(definition),
        Form::ClassVars { class_name, names } => is_name(class_name.bytes()) && are_names(names),
        Form::Comment { class_name, .. } => is_name(class_name.bytes()),
        Form::RemoveMethod {
            class_name,
            selector,
            ..
        } => is_name(class_name.bytes()) && is_selector(selector),
        Form::Classify {
            class_name,
            selector,
            ..
        } => is_selector(selector) && is_name(class_name.bytes()),
        Form::RemoveClass { class_name } => is_name(class_name.bytes()),
        Form::NoChanges => true,
    }
}

fn has_definition_names(definition: &Definition) -> bool
    ensures { IsTrue result ↔ HasDefinitionNames definition.now }
{
    is_name(definition.superclass.bytes())
        && is_name(definition.class_name.bytes())
        && are_names(&definition.inst_vars)
        && are_names(&definition.class_vars)
        && are_names(&definition.pools)
}

fn are_names(names: &Names) -> bool
    ensures { IsTrue result ↔ AreNames names.now }
{
    for i in 0..names.count() {
        if !is_name(names.at(i).bytes()) {
            return false;
        }
    }
    true
}

fn is_selector(word: &Text) -> bool
    ensures { IsTrue result ↔ IsSelectorWord word.now }
{
    parameters_of(word.bytes()).is_some()
}

/// The parts of a form's text. Of any other text these are some parts or others, or none.
fn parts(alloc: Global, text: &[u8]) -> Result<Option<Form>, OutOfMemory>
    ensures { IfOk result (FindsForm text.now) }
{
    let front = beginning(text);
    match keyword_named(front.word) {
        Some(Keyword::Defines(kind)) => {
            let definition = definition(alloc, front.name, kind, front.rest)?;
            Ok(Some(Form::Define(definition)))
        }
        Some(Keyword::Plain(word)) => by_word(alloc, word, front.name, front.side, front.rest),
        None => Ok(None),
    }
}

/// The name, the side and the first word.
fn beginning(text: &[u8]) -> Front<'_>
    ensures { FindsFront text.now result }
{
    let (name, rest) = word(text);
    let (side, rest) = side(rest);
    let (word, rest) = word(after(rest, 1));
    Front {
        name,
        side,
        word,
        rest,
    }
}

/// The side, which stands behind the name of a class, and what follows it.
fn side(bytes: &[u8]) -> (Side, &[u8])
    ensures { FindsSide bytes.now result.0 result.1.now }
{
    // A comment begins with a `c` too.
    if bytes.starts_with(b" class ") {
        (Side::Class, after(bytes, 6))
    } else {
        (Side::Instance, bytes)
    }
}

/// The definition with this superclass and kind.
fn definition(
    alloc: Global,
    superclass: &[u8],
    kind: Kind,
    bytes: &[u8],
) -> Result<Definition, OutOfMemory>
    ensures { IfOk result (FindsDefinition superclass.now kind bytes.now) }
{
    let (class_name, rest) = word(after(bytes, 2));
    let (inst_vars, rest) = line(alloc, b"instanceVariableNames:", rest)?;
    let (class_vars, rest) = line(alloc, b"classVariableNames:", rest)?;
    let (pools, rest) = line(alloc, b"poolDictionaries:", rest)?;
    let (category, _) = line(alloc, b"category:", rest)?;
    Ok(Definition {
        class_name: Text::from_bytes(alloc, class_name)?,
        superclass: Text::from_bytes(alloc, superclass)?,
        kind,
        inst_vars: split_names(alloc, inst_vars.bytes())?,
        class_vars: split_names(alloc, class_vars.bytes())?,
        pools: split_names(alloc, pools.bytes())?,
        category,
    })
}

/// The string of a line with this keyword, and what follows it.
fn line<'t>(alloc: Global, word: &[u8], bytes: &'t [u8]) -> Result<(Text, &'t [u8]), OutOfMemory>
    ensures { IfOk result (λ p. FindsLine word.now bytes.now p.0 p.1.now) }
{
    // Beside the keyword a line feed, a tab, a space and a quote stand before the string.
    string(alloc, after(after(bytes, word.len()), 4))
}

/// The form with this word.
fn by_word(
    alloc: Global,
    word: Word,
    name: &[u8],
    side: Side,
    rest: &[u8],
) -> Result<Option<Form>, OutOfMemory>
    ensures { IfOk result (FindsWord word name.now side rest.now) }
{
    match word {
        Word::InstanceVariableNames => class_vars(alloc, name, rest),
        Word::Comment => comment(alloc, name, rest),
        Word::RemoveSelector => removed_method(alloc, name, side, rest),
        Word::RemoveClassNamed => removed_class(alloc, rest),
        Word::Organization => classified(alloc, name, side, rest),
        Word::NoChanges => Ok(Some(Form::NoChanges)),
        Word::RemoveFromSystem => Ok(None),
        Word::CondenseChanges => Ok(None),
        Word::Snapshot => Ok(None),
    }
}

fn class_vars(alloc: Global, name: &[u8], rest: &[u8]) -> Result<Option<Form>, OutOfMemory>
    ensures { IfOk result (FindsWord words.InstanceVariableNames name.now Class rest.now) }
{
    let (names, _) = string(alloc, after(rest, 2))?;
    Ok(Some(Form::ClassVars {
        class_name: Text::from_bytes(alloc, name)?,
        names: split_names(alloc, names.bytes())?,
    }))
}

fn comment(alloc: Global, name: &[u8], rest: &[u8]) -> Result<Option<Form>, OutOfMemory>
    ensures { IfOk result (FindsWord words.Comment name.now Instance rest.now) }
{
    let (text, _) = string(alloc, after(rest, 2))?;
    let class_name = Text::from_bytes(alloc, name)?;
    Ok(Some(Form::Comment { class_name, text }))
}

fn removed_method(
    alloc: Global,
    name: &[u8],
    side: Side,
    rest: &[u8],
) -> Result<Option<Form>, OutOfMemory>
    ensures { IfOk result (FindsWord words.RemoveSelector name.now side rest.now) }
{
    Ok(Some(Form::RemoveMethod {
        class_name: Text::from_bytes(alloc, name)?,
        side,
        selector: Text::from_bytes(alloc, after(rest, 2))?,
    }))
}

fn removed_class(alloc: Global, rest: &[u8]) -> Result<Option<Form>, OutOfMemory>
    ensures { IfOk result (FindsWord words.RemoveClassNamed [] Instance rest.now) }
{
    Ok(Some(Form::RemoveClass {
        class_name: Text::from_bytes(alloc, after(rest, 2))?,
    }))
}

fn classified(
    alloc: Global,
    name: &[u8],
    side: Side,
    rest: &[u8],
) -> Result<Option<Form>, OutOfMemory>
    ensures { IfOk result (FindsWord words.Organization name.now side rest.now) }
{
    // Before the selector stands ` classify: #`, and behind it ` under: '`.
    let (selector, rest) = word(after(rest, 12));
    let (category, _) = string(alloc, after(rest, 9))?;
    Ok(Some(Form::Classify {
        class_name: Text::from_bytes(alloc, name)?,
        side,
        selector: Text::from_bytes(alloc, selector)?,
        category,
    }))
}
