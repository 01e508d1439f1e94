// Definitions of classes, and their texts.
ghost use Rattle.std.specs.Prelude.{◌≡◌, ◌↔◌, ◌++◌, IsTrue, IfOk, OnOk};
ghost use Rattle.s80_form.specs.Definition.{definition_text, first_line, defining_word, next_line, joined, IsBriefDefinition};

use crate::name::{are_brief, is_brief};
use crate::names::joined;
use crate::text_parts::add_quoted;
use s80_base::{Names, OutOfMemory, Text};
use std::alloc::Global;

/// What the instances of a class hold beside their named variables.
#[derive(Clone, Copy, Debug, PartialEq, Eq)]
pub enum Kind {
    /// Nothing.
    Plain,
    /// Numbered objects.
    Pointers,
    /// Bytes.
    Bytes,
    /// Numbers of 16 bits.
    Words,
}

/// The definition of a class. Names are as they were written: it may be refused for them.
#[derive(Debug, Drop)]
pub struct Definition {
    pub class_name: Text,
    pub superclass: Text,
    pub kind: Kind,
    pub inst_vars: Names,
    pub class_vars: Names,
    pub pools: Names,
    pub category: Text,
}

/// The text of a definition, line by line, as the log keeps it and a browser shows it.
pub fn definition_text(alloc: Global, definition: &Definition) -> Result<Text, OutOfMemory>
    ensures { IfOk result (λ text. text ≡ definition_text definition.now) }
{
    let inst_vars = joined(alloc, &definition.inst_vars)?;
    let class_vars = joined(alloc, &definition.class_vars)?;
    let pools = joined(alloc, &definition.pools)?;
    let mut text = first_line(alloc, definition)?;
    add_line(&mut text, b"instanceVariableNames:", inst_vars.bytes())?;
    add_line(&mut text, b"classVariableNames:", class_vars.bytes())?;
    add_line(&mut text, b"poolDictionaries:", pools.bytes())?;
    add_line(&mut text, b"category:", definition.category.bytes())?;
    Ok(text)
}

/// The receiver, the word that names the kind, and the class.
fn first_line(alloc: Global, definition: &Definition) -> Result<Text, OutOfMemory>
    ensures { IfOk result (λ text. text ≡ first_line definition.now) }
{
    let mut text = definition.superclass.copy(alloc)?;
    text.append(b" ")?;
    text.append(defining_word(definition.kind))?;
    text.append(b" #")?;
    text.append(definition.class_name.bytes())?;
    Ok(text)
}

fn defining_word(kind: Kind) -> &'static [u8]
    ensures { result.now ≡ defining_word kind }
{
    match kind {
        Kind::Plain => b"subclass:",
        Kind::Pointers => b"variableSubclass:",
        Kind::Bytes => b"variableByteSubclass:",
        Kind::Words => b"variableWordSubclass:",
    }
}

/// A line with a keyword and a string.
fn add_line(text: &mut Text, word: &[u8], string: &[u8]) -> Result<(), OutOfMemory>
    ensures { OnOk result (text.new ≡ text.old ++ next_line word.now string.now) }
{
    text.append(b"\n\t")?;
    text.append(word)?;
    text.append(b" ")?;
    add_quoted(text, string)
}

/// Whether each name of a definition and its category is brief.
pub(crate) fn is_brief_definition(definition: &Definition) -> bool
    ensures { IsTrue result ↔ IsBriefDefinition definition.now }
{
    is_brief(&definition.superclass)
        && is_brief(&definition.class_name)
        && are_brief(&definition.inst_vars)
        && are_brief(&definition.class_vars)
        && are_brief(&definition.pools)
        && is_brief(&definition.category)
}
