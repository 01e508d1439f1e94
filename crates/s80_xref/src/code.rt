// What one code sends and refers to.
ghost use Rattle.std.specs.Prelude.{◌≡◌, ◌<◌, ◌^◌, ◌==◌, ◌++◌, IfOk, OnOk, None, length, slice_get, option_and_then, if◌then◌else◌};
ghost use Rattle.std.specs.Option.{option_map};
ghost use Rattle.std.specs.List.{list_any};
ghost use Rattle.std.specs.Str.{bytes_eq};
ghost use Rattle.s80_code.specs.Entries.{entry_of, entries_of};
ghost use Rattle.s80_code.specs.Special.{block_copy, special_selectors};
ghost use Rattle.s80_xref.specs.Named.{outer_in, outers_in, sent_by, sent_in, some, symbol_in};

use s80_base::{Literal, Names, OutOfMemory, Text};
use s80_code::{BLOCK_COPY, Code, Entry, Instruction, decode, special_messages};
use std::alloc::Global;

/// The selectors that a code sends, in the order of its instructions.
pub fn sent(alloc: Global, code: &Code) -> Result<Names, OutOfMemory>
    requires { length code.now.bytes < 2 ^ 32 }
    ensures { IfOk result (λ names. names ≡ sent_in code.now) }
{
    let mut names = Names::empty(alloc);
    let mut at = 0;
    while let Some((instruction, width)) = decode(code, at) {
        add_sent(alloc, code, instruction, &mut names)?;
        at += width;
    }
    Ok(names)
}

/// Adds the selector that an instruction of a code sends, if it sends one.
fn add_sent(
    alloc: Global,
    code: &Code,
    instruction: Instruction,
    names: &mut Names,
) -> Result<(), OutOfMemory>
    ensures { OnOk result (names.new ≡ names.old ++ some (sent_by (entries_of code.now.literals) instruction)) }
{
    let Some(selector) = sent_by(code, instruction) else {
        return Ok(());
    };
    names.push(Text::from_bytes(alloc, selector)?)
}

/// Whether a code sends this selector. Takes no memory.
pub(crate) fn sends(code: &Code, selector: &Text) -> bool
    requires { length code.now.bytes < 2 ^ 32 }
    ensures { result ≡ list_any (bytes_eq selector.now) (sent_in code.now) }
{
    let mut at = 0;
    while let Some((instruction, width)) = decode(code, at) {
        if is_sent_by(code, instruction, selector) {
            return true;
        }
        at += width;
    }
    false
}

/// Whether an instruction of a code sends this selector.
fn is_sent_by(code: &Code, instruction: Instruction, selector: &Text) -> bool
    ensures { result ≡ list_any (bytes_eq selector.now) (some (sent_by (entries_of code.now.literals) instruction)) }
{
    match sent_by(code, instruction) {
        Some(word) => selector.bytes() == word,
        None => false,
    }
}

/// The selector that an instruction of a code sends.
fn sent_by<'a>(code: &'a Code, instruction: Instruction) -> Option<&'a [u8]>
    ensures { option_map (λ word. word.now) result ≡ sent_by (entries_of code.now.literals) instruction }
{
    match instruction {
        Instruction::Send { selector, .. } => symbol_at(code, selector),
        Instruction::SendSuper { selector, .. } => symbol_at(code, selector),
        Instruction::SendSpecial(number) => special_selector(number),
        _ => None,
    }
}

/// The symbol at a place of a code's frame.
fn symbol_at(code: &Code, place: u8) -> Option<&[u8]>
    ensures { option_map (λ word. word.now) result ≡ option_and_then symbol_in (slice_get (entries_of code.now.literals) place) }
{
    symbol_in(code.literals.items.get(usize::from(place))?)
}

fn symbol_in(entry: &Entry) -> Option<&[u8]>
    ensures { option_map (λ word. word.now) result ≡ symbol_in (entry_of entry.now) }
{
    match entry {
        Entry::Const(Literal::Symbol(word)) => Some(word.bytes()),
        _ => None,
    }
}

/// The selector of the special message with a number.
fn special_selector(number: u8) -> Option<&'static [u8]>
    ensures { option_map (λ word. word.now) result ≡ (if number == block_copy then None else slice_get special_selectors number) }
{
    if number == BLOCK_COPY {
        return None;
    }
    let message = special_messages().get(usize::from(number))?;
    Some(message.selector.as_bytes())
}

/// The outer names that a code reads or assigns, in the order of its frame.
pub fn outer_names(alloc: Global, code: &Code) -> Result<Names, OutOfMemory>
    ensures { IfOk result (λ names. names ≡ outers_in code.now) }
{
    let mut names = Names::empty(alloc);
    for entry in &code.literals.items {
        add_outer(alloc, entry, &mut names)?;
    }
    Ok(names)
}

/// Adds the outer name of an entry, if it has one.
fn add_outer(alloc: Global, entry: &Entry, names: &mut Names) -> Result<(), OutOfMemory>
    ensures { OnOk result (names.new ≡ names.old ++ some (outer_in (entry_of entry.now))) }
{
    match entry {
        Entry::Outer(name) => names.push(name.copy(alloc)?),
        _ => Ok(()),
    }
}

/// Whether a code reads or assigns this outer name. Takes no memory.
pub(crate) fn refers(code: &Code, name: &Text) -> bool
    ensures { result ≡ list_any (bytes_eq name.now) (outers_in code.now) }
{
    for entry in &code.literals.items {
        if is_outer(entry, name) {
            return true;
        }
    }
    false
}

/// Whether an entry is this outer name.
fn is_outer(entry: &Entry, name: &Text) -> bool
    ensures { result ≡ list_any (bytes_eq name.now) (some (outer_in (entry_of entry.now))) }
{
    match entry {
        Entry::Outer(word) => name.bytes() == word.bytes(),
        _ => false,
    }
}
