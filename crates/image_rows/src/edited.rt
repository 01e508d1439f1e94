// Images whose bytes are changed.
use crate::images::{image_of, line, log_of, place_of};
use crate::resumed::{Found, examined};
use anyhow::{Context, Result};
use s80_base::Text;
use s80_rows::bytes;
use std::alloc::Global;

/// What the image of the changes is whose blocks these are.
pub(crate) fn read(alloc: Global, rest: &str) -> Result<Text> {
    let log = log_of(alloc, rest)?;
    let image = image_of(alloc, &log)?;
    told(alloc, image.bytes(), &log)
}

/// What its first bytes are: how many, and the blocks.
pub(crate) fn cut(alloc: Global, rest: &str) -> Result<Text> {
    let (count, blocks) = rest.split_once(' ').context("no count")?;
    let count: usize = count.parse().with_context(|| count)?;
    let log = log_of(alloc, blocks)?;
    let image = image_of(alloc, &log)?;
    let front = image
        .bytes()
        .get(..count)
        .context("so many bytes aren't there")?;
    told(alloc, front, &log)
}

/// What it is without its last bytes: how many, and the blocks.
pub(crate) fn less(alloc: Global, rest: &str) -> Result<Text> {
    let (count, blocks) = rest.split_once(' ').context("no count")?;
    let count: usize = count.parse().with_context(|| count)?;
    let log = log_of(alloc, blocks)?;
    let image = image_of(alloc, &log)?;
    let end = image
        .bytes()
        .len()
        .checked_sub(count)
        .context("so many bytes aren't there")?;
    let front = image
        .bytes()
        .get(..end)
        .context("so many bytes aren't there")?;
    told(alloc, front, &log)
}

/// What it is with other bytes in place of these, where they stand first: the bytes, the others, and the blocks.
pub(crate) fn put(alloc: Global, rest: &str) -> Result<Text> {
    let (sought, rest) = rest.split_once(' ').context("no bytes")?;
    let (others, blocks) = rest.split_once(' ').context("no other bytes")?;
    let sought = bytes::read(alloc, sought)?;
    let others = bytes::read(alloc, others)?;
    let log = log_of(alloc, blocks)?;
    let image = image_of(alloc, &log)?;
    let edited = with_others(alloc, image.bytes(), sought.bytes(), others.bytes())?;
    told(alloc, edited.bytes(), &log)
}

fn with_others(alloc: Global, image: &[u8], sought: &[u8], others: &[u8]) -> Result<Text> {
    let place = place_of(image, sought).context("they don't stand in it")?;
    let behind = place.checked_add(sought.len()).context("too many")?;
    let mut edited = Text::empty(alloc);
    edited.append(image.get(..place).context("no front")?)?;
    edited.append(others)?;
    edited.append(image.get(behind..).context("no rest")?)?;
    Ok(edited)
}

/// What becomes of it where one byte in so many has its lowest bit turned: how many, and the blocks. Want of memory is never the answer, and what is
/// resumed has these bytes as its image.
pub(crate) fn each(alloc: Global, rest: &str) -> Result<Text> {
    let (step, blocks) = rest.split_once(' ').context("no step")?;
    let step: usize = step.parse().with_context(|| step)?;
    let log = log_of(alloc, blocks)?;
    let image = image_of(alloc, &log)?;
    let counts = turned(alloc, image.bytes(), log.bytes(), step)?;
    line(
        alloc,
        &format!(in alloc;
            "want of memory {}, another image {}",
            counts.memory, counts.other
        )?,
    )
}

/// How often an answer came that shouldn't.
#[derive(Clone, Copy, Debug, Default)]
struct Counts {
    memory: u64,
    other: u64,
}

fn turned(alloc: Global, image: &[u8], log: &[u8], step: usize) -> Result<Counts> {
    let mut counts = Counts::default();
    let mut at = 0;
    for _ in 0..image.len() {
        let Some(byte) = image.get(at) else {
            break;
        };
        let edited = with_byte(alloc, image, at, *byte ^ 1)?;
        match examined(alloc, edited.bytes(), log)? {
            Found::Memory => counts.memory = counts.memory.saturating_add(1),
            Found::Other => counts.other = counts.other.saturating_add(1),
            _ => {}
        }
        at = at.saturating_add(step);
    }
    Ok(counts)
}

fn with_byte(alloc: Global, image: &[u8], at: usize, byte: u8) -> Result<Text> {
    let mut edited = Text::from_bytes(alloc, image.get(..at).context("no front")?)?;
    edited.append(&[byte])?;
    edited.append(image.get(at.saturating_add(1)..).context("no rest")?)?;
    Ok(edited)
}

/// What the image of no change is where `halt` of Object has, in place of its first literal, an array nested so deep.
pub(crate) fn nested(alloc: Global, rest: &str) -> Result<Text> {
    let depth: usize = rest.parse().with_context(|| rest)?;
    let log = Text::empty(alloc);
    let image = image_of(alloc, &log)?;
    let mut array = Text::empty(alloc);
    for _ in 0..depth {
        array.append(b"\x04\x00\x00\x00\x01")?;
    }
    array.append(b"\x07")?;
    let edited = with_others(
        alloc,
        image.bytes(),
        b"\x02\x00\x00\x00\x04halt",
        array.bytes(),
    )?;
    told(alloc, edited.bytes(), &log)
}

fn told(alloc: Global, bytes: &[u8], log: &Text) -> Result<Text> {
    match examined(alloc, bytes, log.bytes())? {
        Found::Memory => line(alloc, "memory"),
        Found::Short => line(alloc, "short"),
        Found::Field(place, value) => line(alloc, &format!(in alloc; "field {place} {value}")?),
        Found::Unverified => line(alloc, "unverified"),
        Found::NoSource => line(alloc, "no source"),
        Found::OtherSource => line(alloc, "another source"),
        Found::Same => line(alloc, "same"),
        Found::Other => line(alloc, "another image"),
    }
}
