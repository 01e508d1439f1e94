// Runs that are stopped at each of their calls on the disk, and what is found after crashes.
use crate::disks::{Input, Ran, contents, empty, planned, run, words};
use anyhow::{Context, Result, bail, ensure};
use s80_base::{MemSource, Text};
use s80_disk::{FaultPlan, FileId, MemDisk};
use s80_keeper::Keeper;
use s80_program::Status;
use s80_rows::bytes;
use std::alloc::Global;

/// What may stand where a crash leaves any bytes, those that open the gate of a slot among it.
pub(crate) const CHOICES: [u64; 6] = [0, 1, 2, 3, 33, 225];

/// How many changes `recover` finds in a folder.
fn count(alloc: Global, disk: &MemDisk, choice: u64) -> Result<u64> {
    let source = MemSource::make(alloc, b"", 1, &[])?;
    let asked = words(alloc, "st80|F|recover")?;
    let found = run(alloc, disk.crash(alloc, choice)?, source, &[], &asked)?;
    ensure!(found.status == Status::Done, "recover ends otherwise");
    let line = std::str::from_utf8(found.written.bytes())?;
    let behind = line.strip_prefix("recovered ").context("no count")?;
    let (number, _) = behind.split_once(' ').context("no count")?;
    number.parse().context("no number")
}

/// Runs the chunks of an input over a folder whose calls fail from this one on.
pub(crate) fn stopped(
    alloc: Global,
    disk: &MemDisk,
    room: usize,
    call: u64,
    input: &Input,
) -> Result<Ran> {
    run_planned(alloc, disk, room, FaultPlan::From(call), input)
}

/// Runs the chunks of an input over a folder whose calls fail by this plan.
fn run_planned(
    alloc: Global,
    disk: &MemDisk,
    room: usize,
    plan: FaultPlan,
    input: &Input,
) -> Result<Ran> {
    let disk = planned(alloc, disk, room, plan)?;
    let asked = words(alloc, input.words)?;
    run(alloc, disk, input.source(alloc)?, &[], &asked)
}

/// How many changes were answered, each by a line.
fn answered(written: &Text) -> u64 {
    let mut lines = 0u64;
    for byte in written.bytes() {
        if *byte == b'\n' {
            lines = lines.saturating_add(1);
        }
    }
    lines
}

/// How many crashes of a run lose no change that was answered, and find no more, or the next group of so many, where there were so many
/// before.
fn crashes(alloc: Global, ran: &Ran, before: u64, group: u64) -> Result<u64> {
    let least = before.saturating_add(answered(&ran.written));
    let mut tried = 0u64;
    for choice in CHOICES {
        let found = count(alloc, &ran.disk, choice)?;
        ensure!(
            found == least || found == least.saturating_add(group),
            "{least} changes were answered, and choice {choice} finds {found}"
        );
        tried = tried.saturating_add(1);
    }
    Ok(tried)
}

/// Runs an input in groups of so many changes over a folder, stopped at each call up to the last, and tries crashes behind each. Answers how
/// many, and whether the run that is stopped at the last call came to its end.
pub(crate) fn sweep(
    alloc: Global,
    disk: &MemDisk,
    room: usize,
    last: u64,
    group: u64,
    input: &Input,
) -> Result<(u64, Status)> {
    let before = count(alloc, disk, 1)?;
    let mut tried = 0u64;
    let mut status = Status::DiskFault;
    for call in 1..=last {
        let ran = stopped(alloc, disk, room, call, input)?;
        tried = tried.saturating_add(crashes(alloc, &ran, before, group)?);
        status = ran.status;
    }
    Ok((tried, status))
}

/// The same over each of the folders that a crash may leave of a run that is stopped at this call.
pub(crate) fn sweep_again(
    alloc: Global,
    disk: &MemDisk,
    room: usize,
    call: u64,
    last: u64,
    group: u64,
    input: &Input,
) -> Result<(u64, Status)> {
    let first = stopped(alloc, disk, room, call, input)?;
    let mut tried = 0u64;
    let mut status = Status::DiskFault;
    for choice in CHOICES {
        let left = first.disk.crash(alloc, choice)?;
        let (more, ended) = sweep(alloc, &left, room, last, group, input)?;
        tried = tried.saturating_add(more);
        status = ended;
    }
    Ok((tried, status))
}

/// What a run writes whose call of some number fails, and a run whose later calls fail too, and how they end: the same for each number
/// from the first to the last.
pub(crate) fn faults(
    alloc: Global,
    disk: &MemDisk,
    room: usize,
    first: u64,
    last: u64,
    input: &Input,
) -> Result<(Text, Status)> {
    let alone = run_planned(alloc, disk, room, FaultPlan::One(first), input)?;
    for call in first..=last {
        for plan in [FaultPlan::One(call), FaultPlan::From(call)] {
            let ran = run_planned(alloc, disk, room, plan, input)?;
            ensure!(
                ran.status == alone.status && ran.written.bytes() == alone.written.bytes(),
                "call {call} is answered otherwise"
            );
        }
    }
    Ok((alone.written, alone.status))
}

/// How many changes are found on the disk that a run in a new folder left, whose one call failed, as it was killed: at a start, and then
/// after each crash.
pub(crate) fn killed(alloc: Global, room: usize, call: u64, input: &Input) -> Result<Text> {
    let disk = empty(alloc, room, FaultPlan::One(call))?;
    let asked = words(alloc, input.words)?;
    let mut ran = run(alloc, disk, input.source(alloc)?, &[], &asked)?;
    ensure!(ran.status == Status::DiskFault, "no call of the disk fails");
    let Ok(keeper) = Keeper::start(alloc, &mut ran.disk) else {
        bail!("no keeper starts");
    };
    let found = keeper.count();
    let line = format!(in alloc; "a start finds {found}, and crashes leave")?;
    let mut out = Text::from_bytes(alloc, line.as_bytes())?;
    for choice in CHOICES {
        let left = count(alloc, &ran.disk, choice)?;
        out.append(format!(in alloc; " {left}")?.as_bytes())?;
    }
    Ok(out)
}

/// What each crash leaves in a file.
pub(crate) fn crashes_of(alloc: Global, disk: &MemDisk, room: usize, file: FileId) -> Result<Text> {
    let mut out = Text::empty(alloc);
    for choice in CHOICES {
        out.append(format!(in alloc; "{choice}: ")?.as_bytes())?;
        let left = disk.crash(alloc, choice)?;
        bytes::spell(alloc, &mut out, &contents(alloc, &left, room, file)?)?;
        out.append(b"\n")?;
    }
    Ok(out)
}
