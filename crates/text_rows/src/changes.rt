// Changes: the items of an input, forms, names, blocks, the kernel's rows, and refusals.
use anyhow::{Context, Result, bail, ensure};
use s80_base::{Side, Text};
use s80_change::{Change, FirstBlock, Method, block_text, first_block};
use s80_chunk::{Item, Rest, Role, read_pieces};
use s80_form::{Form, ManyKind, Recognised, Refusal, form_text, is_class_name, is_name, recognise};
use s80_kernel::{KernelMethod, class_rows, kernel_text, method_rows};
use s80_print::refusal_text;
use s80_rows::bytes;
use s80_syntax::{ParseFault, parse_doit};
use std::alloc::Global;

/// What a row of this module shows, if it is one.
pub(crate) fn row(alloc: Global, word: &str, rest: &str) -> Result<Option<Text>> {
    let lines = match word {
        "items" => items(alloc, rest)?,
        "recognise" => recognised(alloc, rest)?,
        "names" => names(alloc, rest)?,
        "block" => block(alloc, rest)?,
        "fronts" => fronts(alloc, rest)?,
        "kernel" => kernel(alloc)?,
        "refusals" => refusals(alloc)?,
        _ => return Ok(None),
    };
    Ok(Some(lines))
}

/// Appends bytes as rows spell them, and of more than a thousand how many they are.
fn spell(alloc: Global, out: &mut Text, bytes: &[u8]) -> Result<()> {
    if bytes.len() > 1000 {
        let count = format!(in alloc; "{} bytes", bytes.len())?;
        out.append(count.as_bytes())?;
    } else {
        bytes::spell(alloc, out, bytes)?;
    }
    Ok(())
}

/// Appends a line: words, and behind them bytes as rows spell them.
fn add_line(alloc: Global, out: &mut Text, words: &str, bytes: &[u8]) -> Result<()> {
    out.append(words.as_bytes())?;
    spell(alloc, out, bytes)?;
    out.append(b"\n")?;
    Ok(())
}

/// The items of an input, and how it ends. They are the same wherever it is cut in two within its first hundred bytes.
fn items(alloc: Global, spelled: &str) -> Result<Text> {
    let input = bytes::read(alloc, spelled)?;
    let whole = items_cut(alloc, input.bytes(), 0)?;
    for place in 1..input.bytes().len().min(100) {
        let cut = items_cut(alloc, input.bytes(), place)?;
        ensure!(
            cut.bytes() == whole.bytes(),
            "cut at {place} the items are others"
        );
    }
    Ok(whole)
}

/// The items of an input that is cut in two, and how it ends.
fn items_cut(alloc: Global, input: &[u8], place: usize) -> Result<Text> {
    let front = input.get(..place).context("no place")?;
    let behind = input.get(place..).context("no place")?;
    ensure!(
        front.len() <= 1_000_000 && behind.len() <= 1_000_000,
        "too long"
    );
    let pieces = [
        Text::from_bytes(alloc, front)?,
        Text::from_bytes(alloc, behind)?,
    ];
    let (items, rest) = read_pieces(alloc, &pieces)?;
    let mut out = Text::empty(alloc);
    for item in &items {
        add_item(alloc, &mut out, item)?;
    }
    match rest {
        Rest::Clean => out.append(b"clean\n")?,
        Rest::Unended(place) => {
            out.append(format!(in alloc; "unended at {place}\n")?.as_bytes())?;
        }
    }
    Ok(out)
}

/// Appends the line of an item.
fn add_item(alloc: Global, out: &mut Text, item: &Item) -> Result<()> {
    match item {
        Item::Plain(text) => add_line(alloc, out, "plain ", text.bytes()),
        Item::Head(text) => add_line(alloc, out, "head ", text.bytes()),
        Item::Method(text) => add_line(alloc, out, "method ", text.bytes()),
        Item::SectionEnd => add_line(alloc, out, "end of a section", b""),
        Item::TooLong { role, length } => {
            let role = match role {
                Role::Plain => "plain",
                Role::Head => "head",
                Role::Method => "method",
            };
            let line = format!(in alloc; "too long {role} {length}\n")?;
            out.append(line.as_bytes())?;
            Ok(())
        }
    }
}

/// The text of the form that a doIt has by its tree.
fn recognised(alloc: Global, spelled: &str) -> Result<Text> {
    let text = bytes::read(alloc, spelled)?;
    ensure!(text.bytes().len() <= 65_535, "too long");
    let tree = match parse_doit(alloc, &text) {
        Ok(tree) => tree,
        Err(ParseFault::Memory) => bail!("out of memory"),
        Err(_) => return Ok(Text::from_bytes(alloc, b"no doIt")?),
    };
    let mut out = Text::empty(alloc);
    match recognise(alloc, &tree)? {
        Recognised::Form(form) => spell(alloc, &mut out, form_text(alloc, &form)?.bytes())?,
        Recognised::Condense => out.append(b"a condensing")?,
        Recognised::Snapshot => out.append(b"a snapshot")?,
        Recognised::Evaluate => out.append(b"no form")?,
    }
    Ok(out)
}

/// Which of the words, parted by `|`, are names, and which of these a class can have.
fn names(alloc: Global, spelled: &str) -> Result<Text> {
    let mut out = Text::empty(alloc);
    for spelled in spelled.split('|') {
        let word = bytes::read(alloc, spelled)?;
        let kind = if is_class_name(word.bytes()) {
            "a class's name: "
        } else if is_name(word.bytes()) {
            "a name: "
        } else {
            "no name: "
        };
        add_line(alloc, &mut out, kind, word.bytes())?;
    }
    Ok(out)
}

/// The change whose block bytes begin with, and what follows it. The block is that of the change.
fn block(alloc: Global, spelled: &str) -> Result<Text> {
    let read = bytes::read(alloc, spelled)?;
    let mut out = Text::empty(alloc);
    add_first(alloc, &mut out, read.bytes())?;
    Ok(out)
}

fn add_first(alloc: Global, out: &mut Text, bytes: &[u8]) -> Result<()> {
    match first_block(alloc, bytes)? {
        FirstBlock::Absent => Ok(out.append(b"absent")?),
        FirstBlock::Unended => Ok(out.append(b"unended")?),
        FirstBlock::Found(change, length) => add_block(alloc, out, &change, bytes, length),
    }
}

/// Appends the line of a change whose block takes so many of the bytes, and what stands behind.
fn add_block(
    alloc: Global,
    out: &mut Text,
    change: &Change,
    bytes: &[u8],
    length: usize,
) -> Result<()> {
    add_change(alloc, out, change)?;
    let whole = block_text(alloc, change)?;
    let block = bytes.get(..length).context("no block")?;
    ensure!(whole.bytes() == block, "the change has another block");
    let behind = bytes.get(length..).context("no block")?;
    if !behind.is_empty() {
        add_line(alloc, out, "before ", behind)?;
    }
    Ok(())
}

/// Appends the line of a change.
fn add_change(alloc: Global, out: &mut Text, change: &Change) -> Result<()> {
    match change {
        Change::Form(Form::Define(definition)) => {
            add_line(alloc, out, "definition of ", definition.class_name.bytes())
        }
        Change::Form(form) => add_line(alloc, out, "form ", form_text(alloc, form)?.bytes()),
        Change::Method(method) => add_method(alloc, out, method),
        Change::DoIt { text } => add_line(alloc, out, "doIt ", text.bytes()),
    }
}

/// Appends the line of a method: its class, side and category, and its selector or why its source is refused.
fn add_method(alloc: Global, out: &mut Text, method: &Method) -> Result<()> {
    out.append(b"method ")?;
    spell(alloc, out, method.class_name.bytes())?;
    out.append(match method.side {
        Side::Instance => b"|".as_slice(),
        Side::Class => b" class|".as_slice(),
    })?;
    spell(alloc, out, method.category.bytes())?;
    match method.source.tree() {
        Ok(tree) => add_line(alloc, out, "|", tree.selector.bytes()),
        Err(refusal) => {
            let text = refusal_text(alloc, refusal)?;
            add_line(alloc, out, "|", text.bytes())
        }
    }
}

/// How many fronts of bytes, each shorter than they are, end before a block does.
fn fronts(alloc: Global, spelled: &str) -> Result<Text> {
    let read = bytes::read(alloc, spelled)?;
    let count = read.bytes().len();
    for length in 0..count {
        let front = read.bytes().get(..length).context("no front")?;
        ensure!(
            matches!(first_block(alloc, front)?, FirstBlock::Unended),
            "a front of {length} bytes is not unended"
        );
    }
    let line = format!(in alloc; "{count} fronts are unended")?;
    Ok(Text::from_bytes(alloc, line.as_bytes())?)
}

/// Whether the source of a method of the kernel is a whole line of its text but for the marks behind it.
fn is_a_line(method: &KernelMethod) -> bool {
    let Some(behind) = kernel_text().get(method.position as usize..) else {
        return false;
    };
    let Some(source) = behind.get(..method.length as usize) else {
        return false;
    };
    kernel_text().split(|byte| *byte == b'\n').any(|line| line.strip_suffix(b"!") == Some(source)
        || line.strip_suffix(b"! !") == Some(source))
}

/// How many methods of the kernel are those of a class, on both sides.
fn methods_of(class_name: &str) -> usize {
    method_rows()
        .iter()
        .filter(|row| row.class_name == class_name)
        .count()
}

/// How many lines of the kernel's text end so.
fn lines_that_end(ending: &[u8]) -> usize {
    kernel_text()
        .split(|byte| *byte == b'\n')
        .filter(|line| line.ends_with(ending))
        .count()
}

/// The kernel's classes and methods by their numbers.
fn kernel(alloc: Global) -> Result<Text> {
    let classes = class_rows();
    let under = classes
        .iter()
        .filter(|row| row.superclass == "Object")
        .count();
    let plain = classes.iter().filter(|row| row.kind == 0).count();
    let methods = method_rows();
    let lines = methods.iter().filter(|row| is_a_line(row)).count();
    let sides = methods.iter().filter(|row| row.on_class_side).count();
    let mut out = Text::empty(alloc);
    let head = format!(in alloc;
        "{} classes, {under} of them under Object, {plain} of them plain\n{} bytes, {} sections\n{} methods, {lines} of them lines of the text, {sides} of them on the class side\n",
        classes.len(),
        kernel_text().len(),
        lines_that_end(b" methodsFor: 'kernel'!"),
        methods.len()
    )?;
    out.append(head.as_bytes())?;
    for class in classes {
        let count = methods_of(class.name);
        if count > 0 {
            let line = format!(in alloc; "{} {count}\n", class.name)?;
            out.append(line.as_bytes())?;
        }
    }
    Ok(out)
}

/// Each limit, and a number above it.
const ABOVE: [(ManyKind, u64); 7] = [
    (ManyKind::Classes, 65_537),
    (ManyKind::InstanceVariables, 65),
    (ManyKind::ClassVariables, 257),
    (ManyKind::ClassSideVariables, 65),
    (ManyKind::Pools, 257),
    (ManyKind::Methods, 16_385),
    (ManyKind::BitsVariables, 1),
];

/// The texts of refusals that short runs don't come to.
fn refusals(alloc: Global) -> Result<Text> {
    let mut out = Text::empty(alloc);
    for (kind, count) in ABOVE {
        add_refusal(alloc, &mut out, &Refusal::TooMany(kind, count))?;
    }
    let name = Text::from_bytes(alloc, b"A")?;
    add_refusal(alloc, &mut out, &Refusal::HasSubclasses(name))?;
    add_refusal(alloc, &mut out, &Refusal::LogFull(68_719_476_732))?;
    Ok(out)
}

/// Appends the text of a refusal, which begins with its number.
fn add_refusal(alloc: Global, out: &mut Text, refusal: &Refusal) -> Result<()> {
    let text = refusal_text(alloc, refusal)?;
    let front = format!(in alloc; "refused {} ", refusal.number())?;
    ensure!(
        text.bytes().starts_with(front.as_bytes()),
        "a refusal has another number"
    );
    add_line(alloc, out, "", text.bytes())
}
