// Trees that are heads.
ghost use Rattle.std.specs.Prelude.{◌≡◌, IfOk};
ghost use Rattle.s80_tree.specs.Tree.{doit_of, message_of};
ghost use Rattle.s80_form.specs.TreeParts.{Finds};
ghost use Rattle.s80_change.specs.Head.{beginning};
ghost use Rattle.s80_change.specs.HeadForm.{IsRecognised, ShowsForm};

use crate::head::{SectionHead, is_brief_head};
use s80_base::{OutOfMemory, Side, Text};
use s80_form::tree_parts::{only_argument, only_sending, string};
use s80_syntax::{DoItTree, Message, NameAt};
use std::alloc::Global;

/// What a tree shows of its head.
#[derive(Clone, Copy)]
struct Form<'t> {
    receiver: &'t NameAt,
    side: Side,
    category: &'t Text,
}

/// The head that a tree is, if it is one.
pub(crate) fn recognise_head(
    alloc: Global,
    tree: &DoItTree,
) -> Result<Option<SectionHead>, OutOfMemory>
    ensures { IfOk result (IsRecognised (doit_of tree.now)) }
{
    let Some(form) = only_form(tree) else {
        return Ok(None);
    };
    let head = SectionHead {
        class_name: form.receiver.name.copy(alloc)?,
        side: form.side,
        category: form.category.copy(alloc)?,
    };
    // A text that was read is brief, and so is each part of its tree.
    if !is_brief_head(&head) {
        return Ok(None);
    }
    Ok(Some(head))
}

fn only_form(tree: &DoItTree) -> Option<Form<'_>>
    ensures { ShowsForm (doit_of tree.now) result }
{
    let sending = only_sending(tree)?;
    Some(Form {
        receiver: sending.receiver,
        side: sending.side,
        category: category(sending.message)?,
    })
}

/// The category of which a message begins a section.
fn category(message: &Message) -> Option<&Text>
    ensures { Finds (λ text. text.now) (λ text. message_of message.now ≡ beginning text) result }
{
    string(only_argument(message, b"methodsFor:")?)
}
