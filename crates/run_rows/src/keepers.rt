// What a keeper has of a folder: the code of its methods, sources where they stand, and the room of its log.
ghost use Rattle.std.specs.Prelude.{◌≤◌};
ghost use Rattle.s80_keeper.specs.Keeper.{IsSettled};

use crate::disks::found;
use anyhow::{Context, Result, bail};
use s80_apply::System;
use s80_base::{Side, Text};
use s80_code::Code;
use s80_dict::MethodEntry;
use s80_disk::{Disk, FileId, MemDisk};
use s80_keeper::{KeepFault, Keeper, read_source, unspelled};
use s80_log::{Log, LogFault};
use s80_rows::bytes;
use std::alloc::Global;

/// What a row of this module shows, if it is one.
pub(crate) fn row(alloc: Global, disk: &MemDisk, word: &str, rest: &str) -> Result<Option<Text>> {
    match word {
        "code" => Ok(Some(code(alloc, disk, rest)?)),
        "unspell" => Ok(Some(unspell(alloc, rest)?)),
        "place" => Ok(Some(place(alloc, disk, rest)?)),
        "reread" => Ok(Some(reread(alloc, disk, rest)?)),
        "append" => Ok(Some(append(alloc, disk, rest)?)),
        "condensed" => Ok(Some(condensed(alloc, disk, rest)?)),
        _ => Ok(None),
    }
}

/// The class and the side that a word names.
fn sides(spec: &str) -> (&str, Side) {
    match spec.strip_suffix(" class") {
        Some(name) => (name, Side::Class),
        None => (spec, Side::Instance),
    }
}

/// The code of a method, where it is there.
fn code_at<'a>(
    system: &'a System,
    class_name: &Text,
    side: Side,
    selector: &Text,
) -> Option<&'a Code> {
    let number = system.find(class_name)?;
    match system.methods().dict(number, side).get(selector) {
        Some(entry) => Some(entry.code.code()),
        None => None,
    }
}

/// The primitive and the bytes of a method's code: the class and the selector, parted by `|`.
fn code(alloc: Global, disk: &MemDisk, rest: &str) -> Result<Text> {
    let (spec, selector) = rest.split_once('|').context("no selector")?;
    let (name, side) = sides(spec);
    let name = Text::from_bytes(alloc, name.as_bytes())?;
    let selector = Text::from_bytes(alloc, selector.as_bytes())?;
    let mut copy = disk.crash(alloc, 1)?;
    let keeper = Keeper::start(alloc, &mut copy)?;
    code_line(alloc, keeper.system(), &name, side, &selector)
}

fn code_line(
    alloc: Global,
    system: &System,
    class_name: &Text,
    side: Side,
    selector: &Text,
) -> Result<Text> {
    let Some(code) = code_at(system, class_name, side, selector) else {
        return Ok(Text::from_bytes(alloc, b"no method")?);
    };
    let line = format!(in alloc; "primitive {}: ", code.primitive)?;
    let mut out = Text::from_bytes(alloc, line.as_bytes())?;
    bytes::spell(alloc, &mut out, code.bytes.bytes())?;
    Ok(out)
}

/// The text that bytes spell, each of its marks doubled.
fn unspell(alloc: Global, rest: &str) -> Result<Text> {
    let mut out = Text::empty(alloc);
    match unspelled(alloc, bytes::read(alloc, rest)?.bytes())? {
        Some(text) => bytes::spell(alloc, &mut out, text.bytes())?,
        None => out.append(b"no text")?,
    }
    out.append(b"\n")?;
    Ok(out)
}

/// What is read where a source stands: `kernel`, `log0` or `log1`, the place, the size, and how many bytes of the log count.
fn place(alloc: Global, disk: &MemDisk, rest: &str) -> Result<Text> {
    let mut fields = rest.split(' ');
    let file = fields.next().context("no file")?;
    let position = fields.next().context("no place")?.parse()?;
    let length = fields.next().context("no size")?.parse()?;
    let end = fields.next().context("no end")?.parse()?;
    let log = Log::resume(if file == "log1" { 1 } else { 0 }, end);
    let entry = MethodEntry {
        category: Text::empty(alloc),
        source: Text::empty(alloc),
        from_kernel: file == "kernel",
        position,
        length,
        code: (),
    };
    let mut out = Text::empty(alloc);
    match read_source(alloc, &mut disk.crash(alloc, 1)?, &log, &entry) {
        Ok(source) => bytes::spell(alloc, &mut out, source.bytes())?,
        Err(fault) => out.append(format!(in alloc; "{fault}")?.as_bytes())?,
    }
    out.append(b"\n")?;
    Ok(out)
}

/// A method, and a byte of the first log that becomes another one.
#[derive(Clone, Copy)]
struct Damaged<'a> {
    at: u64,
    byte: &'a str,
    class_name: &'a str,
    side: Side,
    selector: &'a str,
}

/// What a keeper that has begun reads of a method's source, once a byte of the first log is another one: the place, the byte, the class
/// and the selector, parted by `|`.
fn reread(alloc: Global, disk: &MemDisk, rest: &str) -> Result<Text> {
    let mut fields = rest.split('|');
    let at = fields.next().context("no place")?.parse()?;
    let byte = fields.next().context("no byte")?;
    let (class_name, side) = sides(fields.next().context("no class")?);
    let selector = fields.next().context("no selector")?;
    let damaged = Damaged {
        at,
        byte,
        class_name,
        side,
        selector,
    };
    let mut copy = disk.crash(alloc, 1)?;
    let mut keeper = Keeper::start(alloc, &mut copy)?;
    read_again(alloc, &mut keeper, &mut copy, &damaged)
}

fn read_again(
    alloc: Global,
    keeper: &mut Keeper,
    disk: &mut MemDisk,
    damaged: &Damaged<'_>,
) -> Result<Text>
    requires { IsSettled keeper.old }
{
    let byte = bytes::read(alloc, damaged.byte)?;
    disk.write_at(FileId::Log0, damaged.at, byte.bytes())?;
    let class_name = Text::from_bytes(alloc, damaged.class_name.as_bytes())?;
    let Some(class) = keeper.system().find(&class_name) else {
        bail!("no such class");
    };
    let selector = Text::from_bytes(alloc, damaged.selector.as_bytes())?;
    let mut out = Text::empty(alloc);
    match keeper.source_of(alloc, disk, class, damaged.side, &selector) {
        Ok(Some(source)) => bytes::spell(alloc, &mut out, source.bytes())?,
        Ok(None) => out.append(b"no method")?,
        Err(fault) => out.append(format!(in alloc; "{fault}")?.as_bytes())?,
    }
    Ok(out)
}

/// What the first log answers to a block: how many of its bytes count, and the size of the block.
fn append(alloc: Global, disk: &MemDisk, rest: &str) -> Result<Text> {
    let (length, size) = rest.split_once(' ').context("no size")?;
    let size: usize = size.parse().context("no number")?;
    let block = Text::from_vec(vec![in alloc; b'1'; size]?);
    let mut log = Log::resume(0, length.parse().context("no number")?);
    let line = match log.append(&mut disk.crash(alloc, 1)?, &block) {
        Ok(at) => format!(in alloc; "written at {at}\n")?,
        // The log has room for it. A file in memory that ends before that place has none.
        Err(LogFault::Disk(failed)) => format!(in alloc; "{failed}\n")?,
        Err(LogFault::Full(length)) => format!(in alloc; "full at {length}\n")?,
    };
    Ok(Text::from_bytes(alloc, line.as_bytes())?)
}

/// How many changes and bytes of log a keeper has once its list is condensed with so many versions, at least one, and how the folder starts.
fn condensed(alloc: Global, disk: &MemDisk, rest: &str) -> Result<Text> {
    let keep: u32 = rest.parse().context("no number")?;
    let mut copy = disk.crash(alloc, 1)?;
    let line = match condense(alloc, &mut copy, keep.max(1))? {
        Ok((changes, bytes)) => {
            let (found, length) = found(alloc, &mut copy)?;
            format!(in alloc;
                "{changes} changes, {bytes} bytes; {found} changes, {length} bytes\n"
            )?
        }
        Err(fault) => format!(in alloc; "{fault}\n")?,
    };
    Ok(Text::from_bytes(alloc, line.as_bytes())?)
}

/// How many changes and bytes of log a keeper has that was started and condensed its list, or why it didn't.
fn condense(alloc: Global, disk: &mut MemDisk, keep: u32) -> Result<Result<(u64, u64), KeepFault>>
    requires { 1 ≤ keep }
{
    let mut keeper = Keeper::start(alloc, disk)?;
    Ok(match keeper.condense(alloc, disk, keep) {
        Ok(()) => Ok((keeper.count(), keeper.log_length())),
        Err(fault) => Err(fault),
    })
}
