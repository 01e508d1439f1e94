// Code of methods in classes, and of doIts.
ghost use Rattle.std.specs.Prelude.{◌≡◌, ◌≤◌, length, IfOk, OnOk, IfSome};
ghost use Rattle.s80_class.specs.Table.{IsClass, IsNumberOf};
ghost use Rattle.s80_doit.specs.DoIt.{IsMethodOfDoIt};

use crate::spelled;
use anyhow::{Context, Result, bail, ensure};
use s80_apply::boot;
use s80_base::{OutOfMemory, Side, Text};
use s80_change::{Source, fitting_doit};
use s80_class::{ClassEntry, ClassTable, Kind};
use s80_doit::compile;
use s80_form::split_names;
use s80_method::{compile_tree, shape_of};
use s80_rows::bytes;
use s80_syntax::{MethodTree, parse_doit};
use s80_verify::Verified;
use std::alloc::Global;

/// The name of a class, its superclass, and the names of the variables of its instances, of those it shares, and of its own.
type ClassRow = (
    &'static [u8],
    &'static [u8],
    &'static [u8],
    &'static [u8],
    &'static [u8],
);

/// The classes in which methods are compiled.
const CLASSES: [ClassRow; 5] = [
    (b"A", b"", b"a b", b"X Y", b"m"),
    (b"B", b"A", b"c", b"Z X", b"n"),
    (b"Near", b"", b"", b"Count", b""),
    (b"Here", b"Near", b"", b"", b"x y"),
    (
        b"Wide",
        b"",
        b"r0 r1 r2 r3 r4 r5 r6 r7 r8 r9 r10 r11 r12 r13 r14 r15 r16",
        b"",
        b"",
    ),
];

/// A table of these classes.
fn table(alloc: Global) -> Result<ClassTable, OutOfMemory> {
    let mut classes = ClassTable::empty(alloc);
    for row in CLASSES {
        add(alloc, &mut classes, row)?;
    }
    Ok(classes)
}

/// Adds a class that isn't there yet under that of another name, if there is one.
fn add(alloc: Global, classes: &mut ClassTable, row: ClassRow) -> Result<(), OutOfMemory> {
    classes.reserve(1)?;
    let name = Text::from_bytes(alloc, row.0)?;
    if classes.find(&name).is_none() {
        let superclass = find(alloc, classes, row.1)?;
        let entry = entry(alloc, name, superclass, row)?;
        let _number = classes.add(entry);
    }
    Ok(())
}

fn entry(
    alloc: Global,
    name: Text,
    superclass: Option<u32>,
    row: ClassRow,
) -> Result<ClassEntry, OutOfMemory>
    ensures name { IfOk result (λ entry. entry.class_name ≡ name) }
    ensures superclass { IfOk result (λ entry. entry.superclass ≡ superclass) }
{
    Ok(ClassEntry {
        class_name: name,
        superclass,
        kind: Kind::Plain,
        inst_vars: split_names(alloc, row.2)?,
        class_vars: split_names(alloc, row.3)?,
        pools: split_names(alloc, b"")?,
        category: Text::empty(alloc),
        comment: Text::empty(alloc),
        class_side_vars: split_names(alloc, row.4)?,
    })
}

fn find(alloc: Global, classes: &ClassTable, name: &[u8]) -> Result<Option<u32>, OutOfMemory>
    ensures { IfOk result (λ found. IfSome found (λ c. IsNumberOf classes.now.names c name.now)) }
{
    Ok(classes.find(&Text::from_bytes(alloc, name)?))
}

/// The class and the side of a spelling, as `A` or `A class`.
fn side_of(spelled: &str) -> (&str, Side) {
    match spelled.strip_suffix(" class") {
        Some(name) => (name, Side::Class),
        None => (spelled, Side::Instance),
    }
}

/// The variables that the methods of a side of a class see: those of instances, and each class variable behind its class.
pub(crate) fn shape(alloc: Global, spelled: &str) -> Result<Text> {
    let (name, side) = side_of(spelled);
    let classes = table(alloc)?;
    let Some(c) = find(alloc, &classes, name.as_bytes())? else {
        bail!("no class: {name}");
    };
    let shape = shape_of(alloc, &classes, c, side)?;
    let mut out = Text::empty(alloc);
    for i in 0..shape.inst_vars.count() {
        out.append(shape.inst_vars.at(i).bytes())?;
        out.append(b" ")?;
    }
    out.append(b"|")?;
    for i in 0..shape.class_vars.count() {
        let binding = shape.class_vars.at(i);
        out.append(b" ")?;
        out.append(binding.owner.bytes())?;
        out.append(b".")?;
        out.append(binding.name.bytes())?;
    }
    Ok(out)
}

/// The code of a source that fits, as a method of a side of a class.
fn code(alloc: Global, classes: &ClassTable, c: u32, side: Side, source: Text) -> Result<Verified>
    requires class { IsClass classes.now.names c }
    requires short { length source ≤ 65535 }
{
    let shape = shape_of(alloc, classes, c, side)?;
    ensure!(shape.inst_vars.count() <= 64, "too many variables");
    let source = Source::parse(alloc, source)?;
    match source.tree() {
        Ok(tree) => Ok(compile_tree(alloc, classes, c, side, tree)?),
        Err(_) => bail!("no method that fits"),
    }
}

/// The code of a method: a class and a side of it, and the source behind a bar.
fn method(alloc: Global, rest: &str) -> Result<Verified> {
    let (spelled, source) = rest.split_once('|').context("no source")?;
    let (name, side) = side_of(spelled);
    let source = bytes::read(alloc, source)?;
    ensure!(source.bytes().len() <= 65_535, "too long");
    let classes = table(alloc)?;
    let Some(c) = find(alloc, &classes, name.as_bytes())? else {
        bail!("no class: {name}");
    };
    code(alloc, &classes, c, side, source)
}

/// The bytes of a method.
pub(crate) fn method_bytes(alloc: Global, rest: &str) -> Result<Text> {
    let code = method(alloc, rest)?;
    Ok(spelled::in_hexadecimal(alloc, code.code().bytes.bytes())?)
}

/// The header and the frame of a method.
pub(crate) fn method_header(alloc: Global, rest: &str) -> Result<Text> {
    let code = method(alloc, rest)?;
    Ok(spelled::header(alloc, code.code())?)
}

/// The tree of a doIt that fits, as a method.
fn doit_tree(alloc: Global, text: &Text) -> Result<MethodTree>
    requires { length text.now ≤ 65535 }
    ensures { IfOk result (IsMethodOfDoIt text.now) }
{
    let Ok(tree) = parse_doit(alloc, text) else {
        bail!("no doIt");
    };
    match fitting_doit(alloc, tree) {
        Ok(method) => Ok(method),
        Err(_) => bail!("no doIt that fits"),
    }
}

/// The code of a doIt.
fn doit(alloc: Global, spelled: &str) -> Result<Verified> {
    let text = bytes::read(alloc, spelled)?;
    ensure!(text.bytes().len() <= 65_535, "too long");
    let method = doit_tree(alloc, &text)?;
    Ok(compile(alloc, &boot(alloc)?, &method)?)
}

/// The bytes of a doIt.
pub(crate) fn doit_bytes(alloc: Global, spelled: &str) -> Result<Text> {
    let code = doit(alloc, spelled)?;
    Ok(spelled::in_hexadecimal(alloc, code.code().bytes.bytes())?)
}

/// How many bytes and entries a doIt has, and the size of its contexts.
pub(crate) fn doit_size(alloc: Global, spelled: &str) -> Result<Text> {
    let verified = doit(alloc, spelled)?;
    let code = verified.code();
    let told = format!(in alloc;
        "{} bytes; entries: {}; {}",
        code.bytes.bytes().len(),
        code.literals.count(),
        spelled::size_word(code)
    )?;
    Ok(Text::from_bytes(alloc, told.as_bytes())?)
}
