// The texts of forms.
ghost use Rattle.std.specs.Prelude.{◌≡◌, IfOk};
ghost use Rattle.s80_form.specs.declared.form.Form.TheVariants.{ClassVars, Comment, RemoveMethod, Classify, RemoveClass};
ghost use Rattle.s80_form.specs.Form.{form_text, side_text};

use crate::definition::definition_text;
use crate::form::Form;
use crate::names::joined;
use crate::text_parts::add_quoted;
use s80_base::{Names, OutOfMemory, Side, Text};
use std::alloc::Global;

/// The text of a form: its one spelling, which the log keeps.
pub fn form_text(alloc: Global, form: &Form) -> Result<Text, OutOfMemory>
    ensures { IfOk result (λ text. text ≡ form_text form.now) }
{
    match form {
        Form::Define(definition) => definition_text(alloc, definition),
        Form::ClassVars { class_name, names } => class_vars_text(alloc, class_name, names),
        Form::Comment { class_name, text } => comment_text(alloc, class_name, text),
        Form::RemoveMethod {
            class_name,
            side,
            selector,
        } => method_removal_text(alloc, class_name, *side, selector),
        Form::Classify {
            class_name,
            side,
            selector,
            category,
        } => category_text(alloc, class_name, *side, selector, category),
        Form::RemoveClass { class_name } => class_removal_text(alloc, class_name),
        Form::NoChanges => Text::from_bytes(alloc, b"Smalltalk noChanges"),
    }
}

/// What stands behind the name of a class for its class side.
pub fn side_text(side: Side) -> &'static [u8]
    ensures { result.now ≡ side_text side }
{
    match side {
        Side::Instance => b"",
        Side::Class => b" class",
    }
}

fn class_vars_text(alloc: Global, class_name: &Text, names: &Names) -> Result<Text, OutOfMemory>
    ensures { IfOk result (λ text. text ≡ form_text (ClassVars class_name.now names.now)) }
{
    let names = joined(alloc, names)?;
    let mut text = class_name.copy(alloc)?;
    text.append(b" class instanceVariableNames: ")?;
    add_quoted(&mut text, names.bytes())?;
    Ok(text)
}

fn comment_text(alloc: Global, class_name: &Text, comment: &Text) -> Result<Text, OutOfMemory>
    ensures { IfOk result (λ text. text ≡ form_text (Comment class_name.now comment.now)) }
{
    let mut text = class_name.copy(alloc)?;
    text.append(b" comment: ")?;
    add_quoted(&mut text, comment.bytes())?;
    Ok(text)
}

fn method_removal_text(
    alloc: Global,
    class_name: &Text,
    side: Side,
    selector: &Text,
) -> Result<Text, OutOfMemory>
    ensures { IfOk result (λ text. text ≡ form_text (RemoveMethod class_name.now side selector.now)) }
{
    let mut text = class_name.copy(alloc)?;
    text.append(side_text(side))?;
    text.append(b" removeSelector: #")?;
    text.append(selector.bytes())?;
    Ok(text)
}

fn category_text(
    alloc: Global,
    class_name: &Text,
    side: Side,
    selector: &Text,
    category: &Text,
) -> Result<Text, OutOfMemory>
    ensures { IfOk result (λ text. text ≡ form_text (Classify class_name.now side selector.now category.now)) }
{
    let mut text = class_name.copy(alloc)?;
    text.append(side_text(side))?;
    text.append(b" organization classify: #")?;
    text.append(selector.bytes())?;
    text.append(b" under: ")?;
    add_quoted(&mut text, category.bytes())?;
    Ok(text)
}

fn class_removal_text(alloc: Global, class_name: &Text) -> Result<Text, OutOfMemory>
    ensures { IfOk result (λ text. text ≡ form_text (RemoveClass class_name.now)) }
{
    let mut text = Text::from_bytes(alloc, b"Smalltalk removeClassNamed: #")?;
    text.append(class_name.bytes())?;
    Ok(text)
}
