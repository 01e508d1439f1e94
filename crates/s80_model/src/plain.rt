// What plain texts ask.
ghost use Rattle.std.specs.Prelude.{◌≤◌, length};
ghost use Rattle.s80_model.specs.Plain.{IsPlain};

use s80_base::Text;
use s80_change::{fitting_doit, syntax_refusal};
use s80_form::{Form, Recognised, Refused, recognise};
use s80_syntax::{MethodTree, parse_doit};
use std::alloc::Global;

/// What a plain text asks that has a tree which fits a machine.
#[derive(Debug, Drop)]
pub enum Plain {
    /// To change classes so.
    Form(Form),
    /// To take a snapshot.
    Snapshot,
    /// To condense.
    Condense,
    /// To evaluate this text, whose tree this is.
    Evaluate(Text, MethodTree),
}

/// What a plain text asks, or why it is refused by itself: it has no tree, or one that doesn't fit a machine. It is parsed once.
pub fn plain_of(alloc: Global, text: Text) -> Result<Plain, Refused>
    requires { length text ≤ 65535 }
    ensures { IsPlain text result }
{
    let tree = match parse_doit(alloc, &text) {
        Ok(tree) => tree,
        Err(fault) => return Err(Refused::Refusal(syntax_refusal(fault)?)),
    };
    let recognised = recognise(alloc, &tree)?;
    let method = fitting_doit(alloc, tree)?;
    match recognised {
        Recognised::Form(form) => Ok(Plain::Form(form)),
        Recognised::Condense => Ok(Plain::Condense),
        Recognised::Snapshot => Ok(Plain::Snapshot),
        Recognised::Evaluate => Ok(Plain::Evaluate(text, method)),
    }
}
