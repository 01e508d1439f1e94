// Lists of names in a string.
ghost use Rattle.std.specs.Prelude.{◌≡◌, IfOk};
ghost use Rattle.s80_form.specs.Definition.{split_names, joined};

use s80_base::{Names, OutOfMemory, Text, is_separator};
use std::alloc::Global;

/// Names with one space between them.
pub fn joined(alloc: Global, names: &Names) -> Result<Text, OutOfMemory>
    ensures { IfOk result (λ text. text ≡ joined names.now) }
{
    let mut text = Text::empty(alloc);
    for i in 0..names.count() {
        if i > 0 {
            text.append(b" ")?;
        }
        text.append(names.at(i).bytes())?;
    }
    Ok(text)
}

/// The names in a string: it is split at separators.
pub fn split_names(alloc: Global, string: &[u8]) -> Result<Names, OutOfMemory>
    ensures { IfOk result (λ names. names ≡ split_names string.now) }
{
    let mut names = Names::empty(alloc);
    for piece in string.split(|byte| is_separator(*byte)) {
        if !piece.is_empty() {
            names.push(Text::from_bytes(alloc, piece)?)?;
        }
    }
    Ok(names)
}
