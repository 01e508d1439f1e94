// Folders in memory, and runs of the program over them.
use anyhow::{Context, Result, bail};
use s80_base::{FixedClock, MemSink, MemSource, OutOfMemory, Source, Text};
use s80_disk::{Disk, FaultPlan, FileId, MemDisk, MemOutside};
use s80_keeper::{Keeper, StartFault};
use s80_mark::{Found, read_mark};
use s80_program::{Status, st80};
use s80_rows::bytes;
use std::alloc::Global;

/// How many calls a disk records.
const CALLS: usize = 4096;

/// How many bytes a run may write.
const MOST_WRITTEN: usize = 1 << 18;

/// What the clock of every run tells, in seconds since 1970.
pub(crate) const SECONDS: u64 = 1_000_000_000;

/// A folder of empty files with this room each, whose calls fail by this plan.
pub(crate) fn empty(alloc: Global, room: usize, plan: FaultPlan) -> Result<MemDisk, OutOfMemory> {
    let disk = MemDisk::make(alloc, room, CALLS, plan)?;
    Ok(disk)
}

/// The file of this name.
pub(crate) fn file_named(name: &str) -> Result<FileId> {
    match name {
        "mark" => Ok(FileId::Mark),
        "log0" => Ok(FileId::Log0),
        "log1" => Ok(FileId::Log1),
        "image0" => Ok(FileId::Image0),
        "image1" => Ok(FileId::Image1),
        _ => bail!("no file: {name}"),
    }
}

/// What a file holds, whatever calls on the disk fail.
pub(crate) fn contents(
    alloc: Global,
    disk: &MemDisk,
    room: usize,
    file: FileId,
) -> Result<Vec<u8>> {
    let mut copy = disk.crash(alloc, 1)?;
    let mut bytes = vec![in alloc; 0; room]?;
    let count = copy.read_at(file, 0, &mut bytes)?;
    bytes.truncate(count);
    Ok(bytes)
}

/// How many changes a keeper finds, and how long the log is.
pub(crate) fn found(alloc: Global, disk: &mut MemDisk) -> Result<(u64, u64), StartFault> {
    let keeper = Keeper::start(alloc, disk)?;
    Ok((keeper.count(), keeper.log_length()))
}

/// The file of the log that counts.
pub(crate) fn log_that_counts(disk: &mut MemDisk) -> Result<FileId> {
    match read_mark(disk)? {
        Found::Mark(mark) if mark.log == 1 => Ok(FileId::Log1),
        Found::Mark(_) | Found::Fresh => Ok(FileId::Log0),
    }
}

/// The plan under which so many calls more are made first.
fn later(plan: FaultPlan, calls: u64) -> FaultPlan {
    match plan {
        FaultPlan::Never => FaultPlan::Never,
        FaultPlan::One(number) => FaultPlan::One(number.saturating_add(calls)),
        FaultPlan::From(number) => FaultPlan::From(number.saturating_add(calls)),
    }
}

/// The files of a folder.
const FILES: [FileId; 5] = [
    FileId::Mark,
    FileId::Log0,
    FileId::Log1,
    FileId::Image0,
    FileId::Image1,
];

/// A folder that holds the same on the disk, whose calls fail by this plan.
pub(crate) fn planned(
    alloc: Global,
    from: &MemDisk,
    room: usize,
    plan: FaultPlan,
) -> Result<MemDisk> {
    if plan == FaultPlan::Never {
        return Ok(from.crash(alloc, 1)?);
    }
    let mut disk = empty(alloc, room, later(plan, 10))?;
    for file in FILES {
        let bytes = contents(alloc, from, room, file)?;
        disk.write_at(file, 0, &bytes)?;
        disk.sync(file)?;
    }
    Ok(disk)
}

/// The words of a program that works its input, of one that merges it, and of one that condenses.
pub(crate) const RUN: &str = "st80|F|run";

pub(crate) const MERGE: &str = "st80|F|merge";

pub(crate) const CONDENSE: &str = "st80|F|condense";

/// The words of the program, parted by `|`, its input, and how many bytes of it are given at once.
#[derive(Drop)]
pub(crate) struct Input {
    pub words: &'static str,
    pub text: Text,
    pub piece: usize,
}

impl Input {
    /// The source that gives it. No take of it fails.
    pub(crate) fn source(&self, alloc: Global) -> Result<MemSource> {
        Ok(MemSource::make(alloc, self.text.bytes(), self.piece.max(1), &[])?)
    }
}

/// What a run left: how it ended, its disk, and what it wrote.
#[derive(Drop)]
pub(crate) struct Ran {
    pub status: Status,
    pub disk: MemDisk,
    pub written: Text,
}

/// Runs the program over these parts.
pub(crate) fn run<S: Source + Drop>(
    alloc: Global,
    disk: MemDisk,
    source: S,
    failing_puts: &[u64],
    words: &[Text],
) -> Result<Ran> {
    let sink = MemSink::make(alloc, MOST_WRITTEN, failing_puts)?;
    let mut outside = MemOutside::make(disk, source, sink, FixedClock { seconds: SECONDS });
    let status = st80(alloc, words, &mut outside);
    let (disk, _source, sink) = outside.parts();
    Ok(Ran {
        status,
        disk,
        written: Text::from_bytes(alloc, sink.bytes())?,
    })
}

/// Words, parted by `|`.
pub(crate) fn words(alloc: Global, spelled: &str) -> Result<Vec<Text>> {
    let mut list = Vec::new(alloc);
    for word in spelled.split('|') {
        list.push(bytes::read(alloc, word)?)?;
    }
    Ok(list)
}

/// Runs an input over a new folder, and shows how many bytes are written, and so many of the last.
pub(crate) fn long(alloc: Global, rest: &str) -> Result<Text> {
    let (count, spelled) = rest.split_once(' ').context("no input")?;
    let count: usize = count.parse().context("no number")?;
    let input = bytes::read(alloc, spelled)?;
    let disk = empty(alloc, 1 << 16, FaultPlan::Never)?;
    let source = MemSource::make(alloc, input.bytes(), 4096, &[])?;
    let ran = run(alloc, disk, source, &[], &words(alloc, RUN)?)?;
    let written = ran.written.bytes();
    let last = written
        .get(written.len().saturating_sub(count)..)
        .context("fewer bytes")?;
    let head = format!(in alloc; "{} bytes, the last: ", written.len())?;
    let mut out = Text::from_bytes(alloc, head.as_bytes())?;
    bytes::spell(alloc, &mut out, last)?;
    Ok(out)
}
