// Lists of changes: as files, and as the shortest lists that make their states.
use crate::systems::{filed_of, shortest_of};
use anyhow::{Context, Result, bail, ensure};
use s80_base::Text;
use s80_change::{Changes, FirstBlock, block_text, first_block};
use s80_fileout::render;
use s80_rows::bytes;
use std::alloc::Global;

/// The text of a file of changes: the seconds at which they are filed out, and their blocks.
pub(crate) fn file(alloc: Global, rest: &str) -> Result<Text> {
    let (seconds, blocks) = rest.split_once(' ').context("no seconds")?;
    file_at(alloc, &changes_of(alloc, blocks)?, seconds)
}

/// The text of a file of one class: its name, the seconds, and the blocks of the changes behind which it is filed out.
pub(crate) fn file_on(alloc: Global, rest: &str) -> Result<Text> {
    let (class_name, rest) = rest.split_once(' ').context("no class")?;
    let (seconds, blocks) = rest.split_once(' ').context("no seconds")?;
    file_at(alloc, &filed(alloc, class_name, blocks)?, seconds)
}

/// The changes of a file of one class, a block a line: the name of the class, and the blocks of the changes behind which it is filed out.
pub(crate) fn filed_on(alloc: Global, rest: &str) -> Result<Text> {
    let (class_name, blocks) = rest.split_once(' ').context("no class")?;
    lines_of(alloc, &filed(alloc, class_name, blocks)?)
}

/// The shortest list that makes the state of these blocks, a block a line. That of the state that it makes is the same again.
pub(crate) fn shortest(alloc: Global, rest: &str) -> Result<Text> {
    let list = shortest_of(alloc, &changes_of(alloc, rest)?)?;
    lines_that_stay(alloc, &list)
}

/// The lines of a list that is the shortest of the state that it makes.
fn lines_that_stay(alloc: Global, list: &Changes) -> Result<Text> {
    let lines = lines_of(alloc, list)?;
    ensure!(
        lines_again(alloc, list)?.bytes() == lines.bytes(),
        "its own shortest list is another"
    );
    Ok(lines)
}

fn lines_again(alloc: Global, list: &Changes) -> Result<Text> {
    lines_of(alloc, &shortest_of(alloc, list)?)
}

/// The changes of a file of one class behind these blocks.
fn filed(alloc: Global, class_name: &str, blocks: &str) -> Result<Changes> {
    let changes = changes_of(alloc, blocks)?;
    filed_of(alloc, &changes, &bytes::read(alloc, class_name)?)
}

fn file_at(alloc: Global, changes: &Changes, seconds: &str) -> Result<Text> {
    let seconds: u64 = seconds.parse().with_context(|| seconds)?;
    Ok(render(alloc, changes, seconds)?)
}

/// The blocks of changes, each on a line of its own as rows spell it.
fn lines_of(alloc: Global, changes: &Changes) -> Result<Text> {
    let mut lines = Text::empty(alloc);
    for i in 0..changes.count() {
        bytes::spell(alloc, &mut lines, block_text(alloc, changes.at(i))?.bytes())?;
        lines.append(b"\n")?;
    }
    Ok(lines)
}

/// The changes whose blocks stand one behind the other.
pub(crate) fn changes_of(alloc: Global, spelled: &str) -> Result<Changes> {
    let log = bytes::read(alloc, spelled)?;
    let mut changes = Changes::empty(alloc);
    let mut rest = log.bytes();
    for _ in 0..log.bytes().len() {
        if rest.is_empty() {
            break;
        }
        let FirstBlock::Found(change, length) = first_block(alloc, rest)? else {
            bail!("no block");
        };
        changes.push(change)?;
        rest = rest.get(length..).context("a block passes the end")?;
    }
    Ok(changes)
}
