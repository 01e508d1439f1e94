// What is told of changes: the lines of a change set, and the versions of a method.
ghost use Rattle.std.specs.Prelude.{◌≡◌, ◌++◌, ◌∷◌, [], List, ℕ, Result, OnOk, IfOk};
ghost use Rattle.s80_change.specs.declared.change.Change.TheVariants as changes;
ghost use Rattle.s80_model.specs.Asked.{snapshot_note};
ghost use Rattle.s80_model.specs.Texts.{change_line, changes_text, method_line, selector_in, version_line, version_text, versions_text};

use s80_base::{OutOfMemory, Side, Text};
use s80_change::{Change, Changes, Form, Method};
use s80_form::{add_quoted, side_text};
use std::alloc::Global;

/// The doIt that the list keeps of a snapshot.
pub fn snapshot_note(alloc: Global) -> Result<Text, OutOfMemory>
    ensures { IfOk result (λ note. note ≡ snapshot_note) }
{
    Text::from_bytes(alloc, b"\"----SNAPSHOT----\"")
}

/// A line for each change of a set.
pub fn changes_text(alloc: Global, set: &Changes) -> Result<Text, OutOfMemory>
    ensures { IfOk result (λ text. text ≡ changes_text set.now) }
{
    let mut text = Text::empty(alloc);
    for i in 0..set.count() {
        add_change_line(&mut text, set.at(i))?;
        text.append(b"\n")?;
    }
    Ok(text)
}

/// Adds what a change is.
fn add_change_line(text: &mut Text, change: &Change) -> Result<(), OutOfMemory>
    ensures { OnOk result (text.new ≡ text.old ++ change_line change.now) }
{
    match change {
        Change::Form(form) => add_form_line(text, form),
        Change::Method(method) => add_method_line(
            text,
            b"method ",
            &method.class_name,
            method.side,
            selector_of(method),
        ),
        Change::DoIt { .. } => Ok(()),
    }
}

/// The same of a change by its form.
fn add_form_line(text: &mut Text, form: &Form) -> Result<(), OutOfMemory>
    ensures { OnOk result (text.new ≡ text.old ++ change_line (changes.Form form.now)) }
{
    match form {
        Form::Define(definition) => add_class_line(text, b"define ", &definition.class_name),
        Form::ClassVars { class_name, .. } => add_class_line(text, b"class-variables ", class_name),
        Form::Comment { class_name, .. } => add_class_line(text, b"comment ", class_name),
        Form::RemoveMethod {
            class_name,
            side,
            selector,
        } => add_method_line(text, b"remove ", class_name, *side, selector.bytes()),
        Form::Classify {
            class_name,
            side,
            selector,
            ..
        } => add_method_line(text, b"classify ", class_name, *side, selector.bytes()),
        Form::RemoveClass { class_name } => add_class_line(text, b"remove-class ", class_name),
        Form::NoChanges => Ok(()),
    }
}

/// Adds a word and the name of a class.
fn add_class_line(text: &mut Text, word: &[u8], class_name: &Text) -> Result<(), OutOfMemory>
    ensures { OnOk result (text.new ≡ text.old ++ (word.now ++ class_name.now)) }
{
    text.append(word)?;
    text.append(class_name.bytes())
}

/// Adds a word and a method by its class, its side and its selector.
pub(crate) fn add_method_line(
    text: &mut Text,
    word: &[u8],
    class_name: &Text,
    side: Side,
    selector: &[u8],
) -> Result<(), OutOfMemory>
    ensures { OnOk result (text.new ≡ text.old ++ method_line word.now class_name.now side selector.now) }
{
    text.append(word)?;
    text.append(class_name.bytes())?;
    text.append(side_text(side))?;
    text.append(b" ")?;
    text.append(selector)
}

/// The selector of a method whose source is one; no byte where it is none.
fn selector_of(method: &Method) -> &[u8]
    ensures { result.now ≡ selector_in method.now.source.selector }
{
    match method.source.tree() {
        Ok(tree) => tree.selector.bytes(),
        Err(_) => &[],
    }
}

/// The versions of a method, the newest first: each by its number, which is 1 for the oldest, its category and its source.
pub fn versions_text(alloc: Global, versions: &Changes) -> Result<Text, OutOfMemory>
    ensures { IfOk result (λ text. text ≡ versions_text versions.now) }
{
    let mut text = Text::empty(alloc);
    let count = versions.count();
    for i in 0..count {
        add_version(alloc, &mut text, count - i, versions.at(i))?;
    }
    Ok(text)
}

/// Adds a version by its number.
fn add_version(
    alloc: Global,
    text: &mut Text,
    number: usize,
    change: &Change,
) -> Result<(), OutOfMemory>
    ensures { OnOk result (text.new ≡ text.old ++ version_text number change.now) }
{
    let Change::Method(method) = change else {
        return Ok(());
    };
    add_version_line(alloc, text, number, &method.category)?;
    text.append(method.source.text().bytes())?;
    text.append(b"\n")
}

/// Adds the line of a version: its number, and its category.
fn add_version_line(
    alloc: Global,
    text: &mut Text,
    number: usize,
    category: &Text,
) -> Result<(), OutOfMemory>
    ensures { OnOk result (text.new ≡ text.old ++ version_line number category.now) }
{
    let word = format!(in alloc; "version {number} ")?;
    text.append(word.as_bytes())?;
    add_quoted(text, category.bytes())?;
    text.append(b"\n")
}
