// What is told of methods and names that were sought.
ghost use Rattle.std.specs.Prelude.{◌≡◌, IfOk};
ghost use Rattle.s80_model.specs.Sought.{places_text};
ghost use Rattle.s80_model.specs.Texts.{names_text};

use crate::changes::add_method_line;
use s80_base::{Names, OutOfMemory, Text};
use s80_xref::Places;
use std::alloc::Global;

/// Methods, each in its line: the class, ` class` behind it for the class side, and the selector.
pub fn places_text(alloc: Global, places: &Places) -> Result<Text, OutOfMemory>
    ensures { IfOk result (λ text. text ≡ places_text places.now) }
{
    let mut text = Text::empty(alloc);
    for i in 0..places.count() {
        let at = places.at(i);
        add_method_line(&mut text, b"", &at.class_name, at.side, at.selector.bytes())?;
        text.append(b"\n")?;
    }
    Ok(text)
}

/// Names, each in its line.
pub fn names_text(alloc: Global, names: &Names) -> Result<Text, OutOfMemory>
    ensures { IfOk result (λ text. text ≡ names_text names.now) }
{
    let mut text = Text::empty(alloc);
    for i in 0..names.count() {
        text.append(names.at(i).bytes())?;
        text.append(b"\n")?;
    }
    Ok(text)
}
