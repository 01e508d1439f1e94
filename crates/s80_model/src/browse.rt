// What is told of one class.
ghost use Rattle.std.specs.Prelude.{◌≡◌, ◌++◌, ◌∷◌, [], IfOk, OnOk, IsSome};
ghost use Rattle.std.specs.FinMap as map;
ghost use Rattle.s80_lex.specs.Spelling.{quoted};
ghost use Rattle.s80_class.specs.Table.{IsSuperclass, row_of};
ghost use Rattle.s80_apply.specs.State.{State};
ghost use Rattle.s80_apply.specs.Entries.{AreEntriesOf};
ghost use Rattle.s80_apply.specs.System.{IsSystemOf};
ghost use Rattle.s80_model.specs.Entries.{AreLines, Lines, line_at, lines_of, shown, spaced, with_line};
ghost use Rattle.s80_model.specs.Texts.{browsed, category_lines, class_text, definition_of, string_line};

use s80_apply::System;
use s80_base::{OutOfMemory, Side, Text};
use s80_class::{ClassEntry, ClassTable};
use s80_dict::MethodDict;
use s80_form::{Definition, add_quoted, definition_text, joined};
use s80_verify::Verified;
use std::alloc::Global;
use std::collections::BTreeMap;

/// The lines of the class of this name: its definition, comment and class-side variables, and its methods by category. None where no class has the name.
pub fn browse_text(alloc: Global, system: &System, name: &Text) -> Result<Option<Text>, OutOfMemory>
    ensures { (state : State) → IsSystemOf system.now state → IfOk result (λ found. found ≡ browsed state name.now) }
{
    let Some(number) = system.find(name) else {
        return Ok(None);
    };
    let classes = system.classes();
    let mut text = class_text(alloc, classes, classes.at(number))?;
    let methods = system.methods();
    add_category_lines(alloc, &mut text, b"", methods.dict(number, Side::Instance))?;
    add_category_lines(
        alloc,
        &mut text,
        b"class ",
        methods.dict(number, Side::Class),
    )?;
    Ok(Some(text))
}

/// Adds a line for each category of some methods, behind a word.
fn add_category_lines(
    alloc: Global,
    text: &mut Text,
    word: &[u8],
    methods: &MethodDict<Verified>,
) -> Result<(), OutOfMemory>
    ensures { (rows : _) → AreEntriesOf methods.now.methods rows → OnOk result (text.new ≡ text.old ++ category_lines word.now rows) }
{
    for (category, selectors) in &selectors_by_category(alloc, methods)? {
        add_category_line(text, word, category, selectors)?;
    }
    Ok(())
}

/// Adds the line of a category.
fn add_category_line(
    text: &mut Text,
    word: &[u8],
    category: &[u8],
    selectors: &Text,
) -> Result<(), OutOfMemory>
    ensures { OnOk result (text.new ≡ text.old ++ (word.now ++ (quoted 39 category.now ++ (58 ∷ selectors.now ++ 10 ∷ [])))) }
{
    text.append(word)?;
    add_quoted(text, category)?;
    text.append(b":")?;
    text.append(selectors.bytes())?;
    text.append(b"\n")
}

/// For each category the selectors of its methods in byte order, each behind a space.
fn selectors_by_category(
    alloc: Global,
    methods: &MethodDict<Verified>,
) -> Result<BTreeMap<Vec<u8>, Text>, OutOfMemory>
    ensures { (rows : _) → AreEntriesOf methods.now.methods rows → IfOk result (λ lines. shown lines.entries ≡ lines_of rows) }
{
    let selectors = methods.selectors_sorted(alloc)?;
    let mut lines: BTreeMap<Vec<u8>, Text> = BTreeMap::new(alloc);
    for i in 0..selectors.count() {
        let selector = selectors.at(i);
        if let Some(entry) = methods.get(selector) {
            let category = entry.category.bytes();
            make_line(alloc, &mut lines, category)?;
            add_selector(&mut lines, category, selector)?;
        }
    }
    Ok(lines)
}

/// Makes an empty line for a category that has none.
fn make_line(
    alloc: Global,
    lines: &mut BTreeMap<Vec<u8>, Text>,
    category: &[u8],
) -> Result<(), OutOfMemory>
    ensures { (held : Lines) → AreLines lines.old.entries held → OnOk result (AreLines lines.new.entries (with_line held category.now)) }
{
    if !lines.contains_key(category) {
        lines.insert(category.to_vec(alloc)?, Text::empty(alloc))?;
    }
    Ok(())
}

/// Adds a selector to the line of its category.
fn add_selector(
    lines: &mut BTreeMap<Vec<u8>, Text>,
    category: &[u8],
    selector: &Text,
) -> Result<(), OutOfMemory>
    ensures { (held : Lines) → AreLines lines.old.entries held → IsSome (map.get held category.now) → OnOk result (AreLines lines.new.entries (map.insert held category.now (line_at held category.now ++ spaced selector.now))) }
{
    let Some(line) = lines.get_mut(category) else {
        return Ok(());
    };
    line.append(b" ")?;
    line.append(selector.bytes())
}

/// The lines of a class without its methods.
fn class_text(alloc: Global, classes: &ClassTable, entry: &ClassEntry) -> Result<Text, OutOfMemory>
    requires { IsSuperclass classes.now.names entry.now.superclass }
    ensures { IfOk result (λ text. text ≡ class_text entry.now.class_name (row_of classes.now.names entry.now)) }
{
    let definition = definition_of(alloc, classes, entry)?;
    let mut text = definition_text(alloc, &definition)?;
    text.append(b"\n")?;
    add_string_line(&mut text, b"comment: ", entry.comment.bytes())?;
    add_string_line(
        &mut text,
        b"class instanceVariableNames: ",
        joined(alloc, &entry.class_side_vars)?.bytes(),
    )?;
    Ok(text)
}

/// A class as its definition.
fn definition_of(
    alloc: Global,
    classes: &ClassTable,
    entry: &ClassEntry,
) -> Result<Definition, OutOfMemory>
    requires { IsSuperclass classes.now.names entry.now.superclass }
    ensures { IfOk result (λ definition. definition ≡ definition_of entry.now.class_name (row_of classes.now.names entry.now)) }
{
    let superclass = match entry.superclass {
        None => Text::from_bytes(alloc, b"nil")?,
        Some(number) => classes.at(number).class_name.copy(alloc)?,
    };
    Ok(Definition {
        class_name: entry.class_name.copy(alloc)?,
        superclass,
        kind: entry.kind,
        inst_vars: entry.inst_vars.copy(alloc)?,
        class_vars: entry.class_vars.copy(alloc)?,
        pools: entry.pools.copy(alloc)?,
        category: entry.category.copy(alloc)?,
    })
}

/// Adds a line of a word and a string.
fn add_string_line(text: &mut Text, word: &[u8], string: &[u8]) -> Result<(), OutOfMemory>
    ensures { OnOk result (text.new ≡ text.old ++ string_line word.now string.now) }
{
    text.append(word)?;
    add_quoted(text, string)?;
    text.append(b"\n")
}
