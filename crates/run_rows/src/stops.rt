// Which lists the files stand for while a run is in one of its calls on the disk, whatever a crash leaves.
use crate::disks::{Input, contents, found, log_that_counts};
use crate::sweeps::{CHOICES, stopped};
use anyhow::{Result, bail};
use s80_base::Text;
use s80_disk::MemDisk;
use s80_rows::bytes;
use std::alloc::Global;

/// The blocks of the list that is found where a crash leaves one.
fn list_left(alloc: Global, disk: &MemDisk, room: usize, choice: u64) -> Result<Vec<u8>> {
    let mut left = disk.crash(alloc, choice)?;
    let Ok((_, length)) = found(alloc, &mut left) else {
        bail!("no keeper starts");
    };
    let log = log_that_counts(&mut left)?;
    let mut blocks = contents(alloc, &left, room, log)?;
    blocks.truncate(length as usize);
    Ok(blocks)
}

/// Lists by their blocks, each once.
#[derive(Drop)]
struct Lists {
    lists: Vec<Vec<u8>>,
}

impl Lists {
    fn has(&self, list: &[u8]) -> bool {
        for one in &self.lists {
            if one.as_slice() == list {
                return true;
            }
        }
        false
    }

    fn add(&mut self, list: Vec<u8>) -> Result<()> {
        if !self.has(&list) {
            self.lists.push(list)?;
        }
        Ok(())
    }

    /// Appends them, and behind them those of others that aren't among them.
    fn tell(&self, alloc: Global, out: &mut Text, others: &Lists) -> Result<()> {
        let mut word = "";
        for list in &self.lists {
            tell_list(alloc, out, word, list)?;
            word = " or ";
        }
        for list in &others.lists {
            if !self.has(list) {
                tell_list(alloc, out, word, list)?;
            }
        }
        out.append(b"\n")?;
        Ok(())
    }
}

fn tell_list(alloc: Global, out: &mut Text, word: &str, list: &[u8]) -> Result<()> {
    out.append(word.as_bytes())?;
    if list.is_empty() {
        out.append(b"nothing")?;
    }
    bytes::spell(alloc, out, list)?;
    Ok(())
}

/// The lists that are found after crashes.
fn lists_left(alloc: Global, disk: &MemDisk, room: usize) -> Result<Lists> {
    let mut lists = Lists {
        lists: Vec::new(alloc),
    };
    for choice in CHOICES {
        lists.add(list_left(alloc, disk, room, choice)?)?;
    }
    Ok(lists)
}

/// The lists that are found where a run was stopped before a call.
fn lists_before(
    alloc: Global,
    disk: &MemDisk,
    room: usize,
    call: u64,
    input: &Input,
) -> Result<Lists> {
    let ran = stopped(alloc, disk, room, call, input)?;
    lists_left(alloc, &ran.disk, room)
}

/// Appends which lists are found of a run that is in a call: those of before it or of behind it.
fn tell_call(
    alloc: Global,
    out: &mut Text,
    call: u64,
    before: &Lists,
    behind: &Lists,
) -> Result<()> {
    out.append(format!(in alloc; "in call {call}: ")?.as_bytes())?;
    before.tell(alloc, out, behind)
}

/// Which lists are found of a run over a folder that is in one of these calls on the disk, each by itself, and that is behind the last.
pub(crate) fn stops(
    alloc: Global,
    disk: &MemDisk,
    room: usize,
    calls: (u64, u64),
    input: &Input,
) -> Result<Text> {
    let (first, last) = calls;
    let mut out = Text::empty(alloc);
    let mut before = lists_before(alloc, disk, room, first, input)?;
    for call in first..=last {
        let behind = lists_before(alloc, disk, room, call.saturating_add(1), input)?;
        tell_call(alloc, &mut out, call, &before, &behind)?;
        before = behind;
    }
    out.append(format!(in alloc; "behind call {last}: ")?.as_bytes())?;
    before.tell(alloc, &mut out, &before)?;
    Ok(out)
}
