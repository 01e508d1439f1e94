// Tables: dictionaries of methods, and the table of classes.
ghost use Rattle.std.specs.Prelude.{◌≡◌, ◌<◌, length, IfOk, IfSome};
ghost use Rattle.s80_class.specs.Table.{IsNumberOf};

use anyhow::{Result, bail, ensure};
use s80_base::{Names, OutOfMemory, Side, Text};
use s80_class::{ClassEntry, ClassTable, Kind, Totals};
use s80_dict::{MethodEntry, MethodTable};
use s80_rows::bytes::{read, spell};
use std::alloc::Global;

/// What a row of this module shows, if it is one.
pub(crate) fn row(alloc: Global, word: &str, rest: &str) -> Result<Option<Text>> {
    match word {
        "methods" => Ok(Some(methods(alloc, rest)?)),
        "table" => Ok(Some(table(alloc, rest)?)),
        _ => Ok(None),
    }
}

/// The words of a step.
pub(crate) fn step_words<'a>(alloc: Global, step: &'a str) -> Result<Vec<&'a str>> {
    let mut list = Vec::new(alloc);
    for word in step.split(' ') {
        list.push(word)?;
    }
    Ok(list)
}

/// Names, each behind a space.
fn listed(alloc: Global, names: &Names) -> Result<String> {
    let mut out = Text::empty(alloc);
    for i in 0..names.count() {
        out.append(b" ")?;
        spell(alloc, &mut out, names.at(i).bytes())?;
    }
    Ok(String::from_str(alloc, std::str::from_utf8(out.bytes())?)?)
}

// ---- dictionaries of methods

/// Works steps on the dictionaries of three classes, whose methods have numbers as their codes.
fn methods(alloc: Global, rest: &str) -> Result<Text> {
    let mut table = MethodTable::empty(alloc);
    for _ in 0..3 {
        table.reserve(1)?;
        table.add(alloc);
    }
    let mut out = Text::empty(alloc);
    for step in rest.split(", ") {
        let line = method_step(alloc, &mut table, &step_words(alloc, step)?)?;
        out.append(line.as_bytes())?;
        out.append(b"\n")?;
    }
    Ok(out)
}

/// A class and its side: the number, and a `c` behind it for the class side.
fn place(spelled: &str) -> Result<(u32, Side)> {
    match spelled.strip_suffix('c') {
        Some(number) => Ok((number.parse()?, Side::Class)),
        None => Ok((spelled.parse()?, Side::Instance)),
    }
}

/// Works one step, and says what it answers.
fn method_step(alloc: Global, table: &mut MethodTable<u64>, step: &[&str]) -> Result<String> {
    if let ["add"] = step {
        table.reserve(1)?;
        table.add(alloc);
        return Ok(format!(in alloc; "{} classes", table.count())?);
    }
    let [word, at, rest @ ..] = step else {
        bail!("no step");
    };
    let (number, side) = place(at)?;
    ensure!((number as usize) < table.count(), "no class {number}");
    match (*word, rest) {
        ("list", []) => {
            let dict = table.dict(number, side);
            let names = listed(alloc, &dict.selectors_sorted(alloc)?)?;
            Ok(format!(in alloc; "{}:{names}", dict.count())?)
        }
        ("get", [selector]) => {
            let selector = read(alloc, selector)?;
            code_line(alloc, table.dict(number, side).get(&selector))
        }
        ("take", [selector]) => {
            let selector = read(alloc, selector)?;
            let taken = table.remove(number, side, &selector);
            code_line(alloc, taken.as_ref())
        }
        ("room", [selector]) => {
            table.make_room(number, side, read(alloc, selector)?)?;
            Ok(format!(in alloc; "room")?)
        }
        ("put", [selector, code, category]) => {
            let entry = method_entry(alloc, code.parse()?, category)?;
            put(alloc, table, number, side, &read(alloc, selector)?, entry)
        }
        _ => bail!("no step {word}"),
    }
}

/// The code of a method and its category, or that there is none.
fn code_line(alloc: Global, entry: Option<&MethodEntry<u64>>) -> Result<String> {
    match entry {
        Some(entry) => {
            let category = std::str::from_utf8(entry.category.bytes())?;
            Ok(format!(in alloc; "{} in {category}", entry.code)?)
        }
        None => Ok(format!(in alloc; "none")?),
    }
}

pub(crate) fn method_entry(alloc: Global, code: u64, category: &str) -> Result<MethodEntry<u64>> {
    Ok(MethodEntry {
        category: Text::from_bytes(alloc, category.as_bytes())?,
        source: Text::from_bytes(alloc, b"yes")?,
        from_kernel: false,
        position: 7,
        length: 3,
        code,
    })
}

/// Makes room for a method, puts it, and says what was there.
pub(crate) fn put(
    alloc: Global,
    table: &mut MethodTable<u64>,
    number: u32,
    side: Side,
    selector: &Text,
    entry: MethodEntry<u64>,
) -> Result<String>
    requires { number < length table.old.sides }
    ensures { length table.new.sides ≡ length table.old.sides }
{
    table.make_room(number, side, selector.copy(alloc)?)?;
    let before = table.insert(number, side, selector, entry);
    code_line(alloc, before.as_ref())
}

// ---- the table of classes

/// The classes that there are before the steps: name, superclass, kind, and how many instance variables and class-side variables.
const CLASSES: [&str; 8] = [
    "add Object - plain 0 1",
    "add Collection Object plain 2 0",
    "add Array Collection pointers 0 0",
    "add ByteArray Collection bytes 0 3",
    "add Symbol ByteArray plain 1 0",
    "add Bag Collection plain 4 0",
    "add Zebra - words 9 0",
    "add Odd Array words 1 0",
];

/// Works steps on a table of eight classes.
fn table(alloc: Global, rest: &str) -> Result<Text> {
    let mut table = ClassTable::empty(alloc);
    for step in CLASSES {
        class_step(alloc, &mut table, &step_words(alloc, step)?)?;
    }
    let mut out = Text::empty(alloc);
    for step in rest.split(", ") {
        let line = class_step(alloc, &mut table, &step_words(alloc, step)?)?;
        out.append(line.as_bytes())?;
        out.append(b"\n")?;
    }
    Ok(out)
}

/// Works one step, and says what it answers.
fn class_step(alloc: Global, table: &mut ClassTable, step: &[&str]) -> Result<String> {
    match step {
        ["add", name, above, kind, variables @ ..] => {
            let own = own_totals(kind, variables)?;
            add(alloc, table, name.as_bytes(), above.as_bytes(), own)
        }
        ["names"] => listed(alloc, &table.names_sorted(alloc)?),
        ["below", name, other] => below(alloc, table, name.as_bytes(), other.as_bytes()),
        [word, name, rest @ ..] => {
            let Some(c) = find(alloc, table, name.as_bytes())? else {
                return Ok(format!(in alloc; "none")?);
            };
            match (*word, rest) {
                ("number", []) => Ok(format!(in alloc; "{c}")?),
                ("totals", []) => totals_line(alloc, table.totals_of(c)),
                ("family", []) => numbers_line(alloc, &table.family(alloc, c)?),
                ("greatest", [kind, variables @ ..]) => {
                    let most = table.greatest_with(alloc, c, own_totals(kind, variables)?)?;
                    let (inst, class_side) = (most.inst_vars, most.class_side_vars);
                    Ok(format!(in alloc; "{inst} {class_side} {}", most.bits_variables)?)
                }
                _ => bail!("no step {word}"),
            }
        }
        _ => bail!("no step"),
    }
}

fn kind_named(name: &str) -> Result<Kind> {
    match name {
        "plain" => Ok(Kind::Plain),
        "pointers" => Ok(Kind::Pointers),
        "bytes" => Ok(Kind::Bytes),
        "words" => Ok(Kind::Words),
        _ => bail!("no kind {name}"),
    }
}

/// A kind, and how many instance variables and class-side variables.
pub(crate) fn own_totals(kind: &str, variables: &[&str]) -> Result<Totals> {
    let [inst_vars, class_side_vars] = variables else {
        bail!("two counts are wanted");
    };
    Ok(Totals {
        inst_vars: inst_vars.parse()?,
        class_side_vars: class_side_vars.parse()?,
        kind: kind_named(kind)?,
    })
}

fn totals_line(alloc: Global, totals: Totals) -> Result<String> {
    let (inst, class_side) = (totals.inst_vars, totals.class_side_vars);
    Ok(format!(in alloc; "{inst} {class_side} {:?}", totals.kind)?)
}

/// Numbers, parted by spaces.
fn numbers_line(alloc: Global, numbers: &[u32]) -> Result<String> {
    let mut out = Text::empty(alloc);
    for number in numbers {
        if !out.bytes().is_empty() {
            out.append(b" ")?;
        }
        out.append(format!(in alloc; "{number}")?.as_bytes())?;
    }
    Ok(String::from_str(alloc, std::str::from_utf8(out.bytes())?)?)
}

pub(crate) fn find(
    alloc: Global,
    table: &ClassTable,
    name: &[u8],
) -> Result<Option<u32>, OutOfMemory>
    ensures { IfOk result (λ found. IfSome found (λ c. IsNumberOf table.now.names c name.now)) }
{
    Ok(table.find(&Text::from_bytes(alloc, name)?))
}

/// Whether a class descends from another.
fn below(alloc: Global, table: &ClassTable, name: &[u8], other: &[u8]) -> Result<String> {
    let Some(c) = find(alloc, table, name)? else {
        bail!("no class");
    };
    let Some(of) = find(alloc, table, other)? else {
        bail!("no class");
    };
    Ok(format!(in alloc; "{}", table.is_descendant(c, of))?)
}

/// So many names.
fn variables(alloc: Global, count: usize) -> Result<Names, OutOfMemory> {
    let mut names = Names::empty(alloc);
    for _ in 0..count {
        names.push(Text::from_bytes(alloc, b"x")?)?;
    }
    Ok(names)
}

pub(crate) fn class_entry(
    alloc: Global,
    name: Text,
    superclass: Option<u32>,
    own: Totals,
) -> Result<ClassEntry, OutOfMemory>
    ensures name { IfOk result (λ entry. entry.class_name ≡ name) }
    ensures superclass { IfOk result (λ entry. entry.superclass ≡ superclass) }
{
    Ok(ClassEntry {
        class_name: name,
        superclass,
        kind: own.kind,
        inst_vars: variables(alloc, own.inst_vars)?,
        class_vars: Names::empty(alloc),
        pools: Names::empty(alloc),
        category: Text::empty(alloc),
        comment: Text::empty(alloc),
        class_side_vars: variables(alloc, own.class_side_vars)?,
    })
}

/// Adds a class under that of another name, if there is one, and says its number.
fn add(
    alloc: Global,
    table: &mut ClassTable,
    name: &[u8],
    above: &[u8],
    own: Totals,
) -> Result<String> {
    table.reserve(1)?;
    let name = Text::from_bytes(alloc, name)?;
    if table.find(&name).is_some() {
        bail!("the class is there");
    }
    let superclass = find(alloc, table, above)?;
    let entry = class_entry(alloc, name, superclass, own)?;
    let number = table.add(entry);
    Ok(format!(in alloc; "{number}")?)
}
