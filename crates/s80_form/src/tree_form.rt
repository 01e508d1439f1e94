// Trees of doIts that change classes.
ghost use Rattle.std.specs.Prelude.{◌≡◌, ◌↔◌, IsTrue, IfOk};
ghost use Rattle.s80_tree.specs.Tree.{doit_of};
ghost use Rattle.s80_form.specs.Form.{Recognises};
ghost use Rattle.s80_form.specs.Shown.{defined, recognised_as, texts_of, IsBriefRecognised};

use crate::definition::{Definition, Kind};
use crate::form::{Form, Recognised, is_brief_form};
use crate::names::split_names;
use crate::shown::{Arguments, Shown, form_shown};
use s80_base::{OutOfMemory, Text};
use s80_syntax::DoItTree;
use std::alloc::Global;

/// What a doIt is by its tree alone: a change of classes where the tree has the form of one.
pub fn recognise(alloc: Global, tree: &DoItTree) -> Result<Recognised, OutOfMemory>
    ensures { IfOk result (Recognises (doit_of tree.now)) }
{
    let Some(shown) = form_shown(tree) else {
        return Ok(Recognised::Evaluate);
    };
    let recognised = copied(alloc, shown)?;
    // A text that was read is brief, and so is each part of its tree.
    if !is_brief_recognised(&recognised) {
        return Ok(Recognised::Evaluate);
    }
    Ok(recognised)
}

/// What is shown, in memory of its own.
fn copied(alloc: Global, shown: Shown<'_>) -> Result<Recognised, OutOfMemory>
    ensures { IfOk result (λ recognised. recognised ≡ recognised_as shown.entry) }
{
    Ok(Recognised::Form(match shown {
        Shown::Define {
            superclass,
            kind,
            arguments,
        } => Form::Define(defined(alloc, superclass, kind, arguments)?),
        Shown::ClassVars { class_name, names } => Form::ClassVars {
            class_name: class_name.copy(alloc)?,
            names: split_names(alloc, names.bytes())?,
        },
        Shown::Comment { class_name, text } => Form::Comment {
            class_name: class_name.copy(alloc)?,
            text: text.copy(alloc)?,
        },
        Shown::RemoveMethod {
            class_name,
            side,
            selector,
        } => Form::RemoveMethod {
            class_name: class_name.copy(alloc)?,
            side,
            selector: selector.copy(alloc)?,
        },
        Shown::Classify {
            class_name,
            side,
            selector,
            category,
        } => Form::Classify {
            class_name: class_name.copy(alloc)?,
            side,
            selector: selector.copy(alloc)?,
            category: category.copy(alloc)?,
        },
        Shown::RemoveClass { class_name } => Form::RemoveClass {
            class_name: class_name.copy(alloc)?,
        },
        Shown::NoChanges => Form::NoChanges,
        Shown::Condense => return Ok(Recognised::Condense),
        Shown::Snapshot => return Ok(Recognised::Snapshot),
    }))
}

fn defined(
    alloc: Global,
    superclass: &Text,
    kind: Kind,
    arguments: Arguments<'_>,
) -> Result<Definition, OutOfMemory>
    ensures { IfOk result (λ d. d ≡ defined superclass.now kind (texts_of arguments.entry)) }
{
    Ok(Definition {
        class_name: arguments.class_name.copy(alloc)?,
        superclass: superclass.copy(alloc)?,
        kind,
        inst_vars: split_names(alloc, arguments.inst_vars.bytes())?,
        class_vars: split_names(alloc, arguments.class_vars.bytes())?,
        pools: split_names(alloc, arguments.pools.bytes())?,
        category: arguments.category.copy(alloc)?,
    })
}

fn is_brief_recognised(recognised: &Recognised) -> bool
    ensures { IsTrue result ↔ IsBriefRecognised recognised.now }
{
    match recognised {
        Recognised::Form(form) => is_brief_form(form),
        Recognised::Condense => true,
        Recognised::Snapshot => true,
        Recognised::Evaluate => true,
    }
}
