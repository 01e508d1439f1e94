// The images of lists of changes. The owner of a system makes it and hands it on, and does nothing else.
use anyhow::{Context, Result, bail};
use s80_apply::{System, boot};
use s80_base::{OutOfMemory, Text};
use s80_change::{Change, Changes, FirstBlock, block_text, first_block};
use s80_form::{Refusal, Refused};
use s80_history::History;
use s80_print::refusal_text;
use s80_rows::bytes;
use s80_snapshot::encode_system;
use std::alloc::Global;

/// The first bytes of the image of changes: how many, and the blocks of the changes.
pub(crate) fn head(alloc: Global, rest: &str) -> Result<Text> {
    let (count, image) = counted(alloc, rest)?;
    let shown = image
        .bytes()
        .get(..count)
        .context("so many bytes aren't there")?;
    spelled(alloc, shown)
}

/// Its last bytes.
pub(crate) fn tail(alloc: Global, rest: &str) -> Result<Text> {
    let (count, image) = counted(alloc, rest)?;
    let start = image
        .bytes()
        .len()
        .checked_sub(count)
        .context("so many bytes aren't there")?;
    let shown = image
        .bytes()
        .get(start..)
        .context("so many bytes aren't there")?;
    spelled(alloc, shown)
}

/// As many bytes as are asked for, from where these stand in it: how many, the bytes, and the blocks.
pub(crate) fn from(alloc: Global, rest: &str) -> Result<Text> {
    let (count, rest) = rest.split_once(' ').context("no count")?;
    let (sought, blocks) = rest.split_once(' ').context("no bytes")?;
    let count: usize = count.parse().with_context(|| count)?;
    let image = image_of(alloc, &log_of(alloc, blocks)?)?;
    let start = place_of(image.bytes(), bytes::read(alloc, sought)?.bytes()).context(
        "they don't stand in it",
    )?;
    let end = start.checked_add(count).context("too many")?;
    let shown = image
        .bytes()
        .get(start..end)
        .context("so many bytes aren't there")?;
    spelled(alloc, shown)
}

/// Where bytes stand first in others.
pub(crate) fn place_of(bytes: &[u8], sought: &[u8]) -> Option<usize> {
    (0..bytes.len()).find(|at| bytes
        .get(*at..)
        .is_some_and(|rest| rest.starts_with(sought)))
}

fn counted(alloc: Global, rest: &str) -> Result<(usize, Text)> {
    let (count, blocks) = rest.split_once(' ').context("no count")?;
    let count: usize = count.parse().with_context(|| count)?;
    Ok((count, image_of(alloc, &log_of(alloc, blocks)?)?))
}

/// The log of the changes whose blocks a row spells.
pub(crate) fn log_of(alloc: Global, spelled: &str) -> Result<Text> {
    bytes::read(alloc, spelled)
}

/// The image of the list whose blocks a log has.
pub(crate) fn image_of(alloc: Global, log: &Text) -> Result<Text> {
    image_of_changes(alloc, &changes_of(alloc, log)?)
}

fn image_of_changes(alloc: Global, changes: &Changes) -> Result<Text> {
    let mut system = boot(alloc)?;
    let mut history = History::empty(alloc);
    image_in(alloc, &mut system, &mut history, changes)
}

/// The same, in the kernel's system and the history of no change.
fn image_in(
    alloc: Global,
    system: &mut System,
    history: &mut History,
    changes: &Changes,
) -> Result<Text> {
    let mut at = 0;
    for i in 0..changes.count() {
        at = keep(alloc, system, history, changes.at(i), at)?;
    }
    Ok(encode_system(alloc, system, history, changes.count() as u64)?)
}

/// Installs and notes a change whose block begins at this place, and answers where it ends.
fn keep(
    alloc: Global,
    system: &mut System,
    history: &mut History,
    change: &Change,
    at: u64,
) -> Result<u64> {
    let size = block_text(alloc, change)?.bytes().len() as u64;
    let end = at.checked_add(size).context("the log is too long")?;
    history.reserve(alloc, change)?;
    match system.prepare(alloc, change) {
        Ok(step) => {
            system.install(step, at);
            history.note(change, at);
        }
        Err(Refused::Memory) => return Err(OutOfMemory.into()),
        Err(Refused::Refusal(refusal)) => refuse(alloc, change, &refusal)?,
    }
    Ok(end)
}

/// Says which change is refused, and why.
fn refuse(alloc: Global, change: &Change, refusal: &Refusal) -> Result<()> {
    let block = block_text(alloc, change)?;
    let why = refusal_text(alloc, refusal)?;
    bail!(
        "{}: {}",
        std::str::from_utf8(block.bytes())?,
        std::str::from_utf8(why.bytes())?
    );
}

/// The changes whose blocks stand one behind the other.
fn changes_of(alloc: Global, log: &Text) -> Result<Changes> {
    let mut changes = Changes::empty(alloc);
    let mut rest = log.bytes();
    for _ in 0..log.bytes().len() {
        if rest.is_empty() {
            break;
        }
        let FirstBlock::Found(change, length) = first_block(alloc, rest)? else {
            bail!("no block");
        };
        changes.push(change)?;
        rest = rest.get(length..).context("a block passes the end")?;
    }
    Ok(changes)
}

/// Bytes as rows spell them, as a line.
fn spelled(alloc: Global, shown: &[u8]) -> Result<Text> {
    let mut line = Text::empty(alloc);
    bytes::spell(alloc, &mut line, shown)?;
    line.append(b"\n")?;
    Ok(line)
}

pub(crate) fn line(alloc: Global, told: &str) -> Result<Text> {
    let mut line = Text::from_bytes(alloc, told.as_bytes())?;
    line.append(b"\n")?;
    Ok(line)
}
