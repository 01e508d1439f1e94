// Texts: their tokens, trees, measures and core trees. A text may repeat a part of itself: `{60*ab}` is `ab` sixty times.
ghost use Rattle.std.specs.Prelude.{◌≤◌, IfOk, length};
ghost use Rattle.s80_tree.specs.Tree.{method_of};
ghost use Rattle.s80_scope.specs.Names.{AreInOrder, uses_of};

mod cores;
mod recogniser;
mod shown;

use anyhow::{Context, Result, bail, ensure};
use s80_base::{Names, Text};
use s80_core::{elaborate, temporaries_are_declarations};
use s80_decompile::tree_text;
use s80_lex::tokens;
use s80_rows::bytes;
use s80_scope::{Binding, Bindings, Shape, doit_method, fits, measured, places_of_uses_rise};
use s80_syntax::{MethodTree, parse_doit, parse_method};
use std::alloc::Global;

/// The most bytes that a text has.
const LONGEST: usize = 65_535;

/// The most bytes of a tree that are shown.
const MOST_SHOWN: usize = 200;

/// What a row of this module shows, if it is one.
pub(crate) fn row(alloc: Global, word: &str, rest: &str) -> Result<Option<Text>> {
    Ok(Some(match word {
        "tokens" => token_line(alloc, rest)?,
        "doit" => doit_line(alloc, rest, false)?,
        "method" => method_line(alloc, rest, false)?,
        "places" => places_line(alloc, rest)?,
        "spelled" => spelled_line(alloc, rest)?,
        "literals" | "weight" | "fit" => measure_line(alloc, word, &tree_of(alloc, rest)?)?,
        "core" => core_line(alloc, rest)?,
        "recogniser" => recogniser::line(alloc, rest.parse().context("no number of tokens")?)?,
        _ => return Ok(None),
    }))
}

/// Appends a part so many times.
fn add_times(text: &mut Text, part: &[u8], times: u32) -> Result<()> {
    for _ in 0..times {
        text.append(part)?;
    }
    Ok(())
}

/// The text that a row spells.
fn text_of(alloc: Global, spelled: &str) -> Result<Text>
    ensures { IfOk result (λ text. length text ≤ 65535) }
{
    let mut pieces = spelled.split('{');
    let mut text = bytes::read(alloc, pieces.next().unwrap_or(""))?;
    for piece in pieces {
        let (repeated, behind) = piece.split_once('}').context("a repeat has no end")?;
        let (times, part) = repeated.split_once('*').context("a repeat has no number")?;
        let times = times.parse().with_context(|| times)?;
        add_times(&mut text, bytes::read(alloc, part)?.bytes(), times)?;
        text.append(bytes::read(alloc, behind)?.bytes())?;
    }
    ensure!(
        text.bytes().len() <= LONGEST,
        "a text has at most {LONGEST} bytes"
    );
    Ok(text)
}

/// The tokens of a text with their places, or its first fault.
fn token_line(alloc: Global, spelled: &str) -> Result<Text> {
    let text = text_of(alloc, spelled)?;
    let mut out = Text::empty(alloc);
    match tokens(alloc, text.bytes()) {
        Ok(list) => {
            let mut before = "";
            for token in list.as_slice() {
                let shown = format!(in alloc;
                    "{before}{:?} {}-{}",
                    token.kind, token.from, token.to
                )?;
                out.append(shown.as_bytes())?;
                before = ", ";
            }
        }
        Err(fault) => out.append(format!(in alloc; "{fault}")?.as_bytes())?,
    }
    if out.bytes().is_empty() {
        out.append(b"no token")?;
    }
    Ok(out)
}

/// A tree as one line, or the number of its bytes where they are many.
fn tree_line(alloc: Global, shown: &Text) -> Result<Text> {
    let mut out = Text::empty(alloc);
    let length = shown.bytes().len();
    if length == 0 {
        out.append(b"no statement")?;
    } else if length > MOST_SHOWN {
        out.append(format!(in alloc; "a tree of {length} bytes")?.as_bytes())?;
    } else {
        bytes::spell(alloc, &mut out, shown.bytes())?;
    }
    Ok(out)
}

/// The tree of a doIt, with the places of its names or without, or its first fault.
fn doit_line(alloc: Global, spelled: &str, places: bool) -> Result<Text> {
    match parse_doit(alloc, &text_of(alloc, spelled)?) {
        Ok(tree) => tree_line(alloc, &shown::doit(alloc, places, &tree)?),
        Err(fault) => Ok(Text::from_bytes(alloc, format!(in alloc; "{fault}")?.as_bytes())?),
    }
}

/// The tree of a method, with the places of its names or without, or its first fault.
fn method_line(alloc: Global, spelled: &str, places: bool) -> Result<Text> {
    match parse_method(alloc, &text_of(alloc, spelled)?) {
        Ok(tree) => tree_line(alloc, &shown::method(alloc, places, &tree)?),
        Err(fault) => Ok(Text::from_bytes(alloc, format!(in alloc; "{fault}")?.as_bytes())?),
    }
}

/// The text of a method's tree.
fn spelled_line(alloc: Global, spelled: &str) -> Result<Text> {
    let tree = parse_method(alloc, &text_of(alloc, spelled)?)?;
    let text = tree_text(alloc, &tree)?;
    let mut out = Text::empty(alloc);
    bytes::spell(alloc, &mut out, text.bytes())?;
    Ok(out)
}

/// The tree of a doIt or a method, with the places of its names.
fn places_line(alloc: Global, rest: &str) -> Result<Text> {
    match rest.split_once(' ') {
        Some(("doit", spelled)) => doit_line(alloc, spelled, true),
        Some(("method", spelled)) => method_line(alloc, spelled, true),
        _ => bail!("no kind of text: {rest}"),
    }
}

/// The tree of a text of a kind, a doIt's as that of a method.
fn tree_of(alloc: Global, rest: &str) -> Result<MethodTree>
    ensures { IfOk result (λ tree. AreInOrder (uses_of (method_of tree))) }
{
    match rest.split_once(' ') {
        Some(("doit", spelled)) => tree_of_doit(alloc, spelled),
        Some(("method", spelled)) => tree_of_method(alloc, spelled),
        _ => bail!("no kind of text: {rest}"),
    }
}

/// The tree of a method.
fn tree_of_method(alloc: Global, spelled: &str) -> Result<MethodTree>
    ensures { IfOk result (λ tree. AreInOrder (uses_of (method_of tree))) }
{
    places_of_uses_rise();
    let tree = parse_method(alloc, &text_of(alloc, spelled)?)?;
    Ok(tree)
}

/// The tree of a doIt as that of a method.
fn tree_of_doit(alloc: Global, spelled: &str) -> Result<MethodTree>
    ensures { IfOk result (λ tree. AreInOrder (uses_of (method_of tree))) }
{
    places_of_uses_rise();
    let tree = parse_doit(alloc, &text_of(alloc, spelled)?)?;
    Ok(doit_method(alloc, tree))
}

/// What a word asks of the measures of a tree.
fn measure_line(alloc: Global, word: &str, tree: &MethodTree) -> Result<Text> {
    let line = if word == "fit" {
        format!(in alloc; "{:?}", fits(alloc, tree)?)?
    } else {
        let found = measured(alloc, tree)?;
        if word == "literals" {
            format!(in alloc; "{}", found.literals)?
        } else {
            format!(in alloc; "{}, stack {}", found.weight, found.stack)?
        }
    };
    Ok(Text::from_bytes(alloc, line.as_bytes())?)
}

/// A class variable, spelled `Owner.Name`.
fn binding(alloc: Global, owner: &str, name: &str) -> Result<Binding> {
    Ok(Binding {
        owner: Text::from_bytes(alloc, owner.as_bytes())?,
        name: Text::from_bytes(alloc, name.as_bytes())?,
    })
}

/// The variables of a class, parted by commas, or `-` where it has none.
fn shape_of(alloc: Global, spelled: &str) -> Result<Shape> {
    let mut inst_vars = Names::empty(alloc);
    let mut class_vars = Bindings::empty(alloc);
    for word in spelled.split(',') {
        match word.split_once('.') {
            Some((owner, name)) => class_vars.push(binding(alloc, owner, name)?)?,
            None if word == "-" => {}
            None => inst_vars.push(Text::from_bytes(alloc, word.as_bytes())?)?,
        }
    }
    Ok(Shape {
        inst_vars,
        class_vars,
    })
}

/// The core tree of a text in a class with these variables.
fn core_line(alloc: Global, rest: &str) -> Result<Text> {
    let (variables, rest) = rest.split_once(' ').context("no kind of text")?;
    let shape = shape_of(alloc, variables)?;
    let tree = tree_of(alloc, rest)?;
    let found = measured(alloc, &tree)?;
    ensure!(found.temporaries <= 31, "too many temporaries");
    ensure!(shape.inst_vars.count() <= 64, "too many variables");
    temporaries_are_declarations();
    let core = elaborate(alloc, &tree, &shape)?;
    Ok(cores::shown(alloc, &core)?)
}
