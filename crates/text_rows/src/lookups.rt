// Look-ups: classes and their methods beside each other.
ghost use Rattle.std.specs.Prelude.{◌≡◌, length, IfOk};
ghost use Rattle.s80_class.specs.Table.{IsClass};

use crate::tables::{class_entry, find, method_entry, own_totals, put, step_words};
use anyhow::{Result, bail, ensure};
use s80_base::{Side, Text};
use s80_class::{ClassTable, lookup};
use s80_dict::MethodTable;
use s80_rows::bytes::read;
use std::alloc::Global;

/// What a row of this module shows, if it is one.
pub(crate) fn row(alloc: Global, word: &str, rest: &str) -> Result<Option<Text>> {
    match word {
        "lookup" => Ok(Some(worked(alloc, rest)?)),
        _ => Ok(None),
    }
}

/// Works steps on classes and methods, of which there are none before. The methods have numbers as their codes.
fn worked(alloc: Global, rest: &str) -> Result<Text> {
    let mut classes = ClassTable::empty(alloc);
    let mut methods = MethodTable::empty(alloc);
    let mut out = Text::empty(alloc);
    for step in rest.split(", ") {
        let words = step_words(alloc, step)?;
        let line = lookup_step(alloc, &mut classes, &mut methods, &words)?;
        out.append(line.as_bytes())?;
        out.append(b"\n")?;
    }
    Ok(out)
}

/// Works one step, and says what it answers.
fn lookup_step(
    alloc: Global,
    classes: &mut ClassTable,
    methods: &mut MethodTable<u64>,
    step: &[&str],
) -> Result<String>
    requires { length methods.old.sides ≡ length classes.old.names }
    ensures { length methods.new.sides ≡ length classes.new.names }
{
    match step {
        ["class", name, above] => add_class(alloc, classes, methods, name, above),
        ["put", name, side, selector, code] => {
            let place = place(alloc, classes, name, side)?;
            put_method(alloc, methods, place, selector, code)
        }
        ["find", name, side, selector] => {
            let place = place(alloc, classes, name, side)?;
            found(alloc, classes, methods, place, selector)
        }
        _ => bail!("no step"),
    }
}

/// The number of a class, and one of its sides.
fn place(alloc: Global, classes: &ClassTable, name: &str, side: &str) -> Result<(u32, Side)>
    ensures { IfOk result (λ place. IsClass classes.now.names place.0) }
{
    let Some(number) = find(alloc, classes, name.as_bytes())? else {
        bail!("no class {name}");
    };
    Ok((number, side_named(side)?))
}

fn side_named(name: &str) -> Result<Side> {
    match name {
        "instance" => Ok(Side::Instance),
        "class" => Ok(Side::Class),
        _ => bail!("no side {name}"),
    }
}

/// Adds a class under that of another name, if there is one, without methods, and says its number.
fn add_class(
    alloc: Global,
    classes: &mut ClassTable,
    methods: &mut MethodTable<u64>,
    name: &str,
    above: &str,
) -> Result<String>
    requires { length methods.old.sides ≡ length classes.old.names }
    ensures { length methods.new.sides ≡ length classes.new.names }
{
    classes.reserve(1)?;
    methods.reserve(1)?;
    let name = Text::from_bytes(alloc, name.as_bytes())?;
    if classes.find(&name).is_some() {
        bail!("the class is there");
    }
    let superclass = find(alloc, classes, above.as_bytes())?;
    let entry = class_entry(alloc, name, superclass, own_totals("plain", &["0", "0"])?)?;
    let number = classes.add(entry);
    methods.add(alloc);
    Ok(format!(in alloc; "{number}")?)
}

/// Puts a method on a side of a class, and says what was there.
fn put_method(
    alloc: Global,
    methods: &mut MethodTable<u64>,
    place: (u32, Side),
    selector: &str,
    code: &str,
) -> Result<String>
    ensures { length methods.new.sides ≡ length methods.old.sides }
{
    let (number, side) = place;
    ensure!((number as usize) < methods.count(), "no class {number}");
    let entry = method_entry(alloc, code.parse()?, "a")?;
    put(alloc, methods, number, side, &read(alloc, selector)?, entry)
}

/// What a message to a side of a class finds: the code, and the number of the class and the side where it stands.
fn found(
    alloc: Global,
    classes: &ClassTable,
    methods: &MethodTable<u64>,
    place: (u32, Side),
    selector: &str,
) -> Result<String>
    requires class { IsClass classes.now.names place.0 }
    requires sides { length methods.now.sides ≡ length classes.now.names }
{
    let (number, side) = place;
    match lookup(classes, methods, number, side, &read(alloc, selector)?) {
        Some(found) => {
            let (class, side) = (found.class, found.side);
            Ok(format!(in alloc; "{} in {class} {side:?}", found.entry.code)?)
        }
        None => Ok(format!(in alloc; "none")?),
    }
}
