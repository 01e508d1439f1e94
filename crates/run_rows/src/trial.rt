// A folder in memory on which rows work one after the other.
ghost use Rattle.s80_session.specs.Session.{IsResting};

use crate::disks::{
    CONDENSE, Input, MERGE, RUN, Ran, SECONDS, contents, empty, file_named, found, long, planned,
    run, words,
};
use crate::stops::stops;
use crate::sweeps::{crashes_of, faults, killed, sweep, sweep_again};
use crate::{keepers, system};
use anyhow::{Context, Result, bail};
use s80_base::{FixedClock, MemSink, MemSource, RepeatSource, Text};
use s80_disk::{Disk, FaultPlan, FileId, MemDisk, MemOutside};
use s80_program::Status;
use s80_rows::bytes;
use s80_session::Session;
use std::alloc::Global;

/// The room of each file of a folder, in bytes.
const ROOM: usize = 1 << 18;

/// A folder, and what the next run over it is given.
#[derive(Drop)]
pub(crate) struct Trial {
    disk: MemDisk,
    /// The room of each file, in bytes.
    room: usize,
    /// How many bytes a take gives at most, where it gives some.
    piece: usize,
    /// The words of the program where rows stop it, or let calls of it fail.
    asked: &'static str,
    /// Which calls on the disk fail.
    plan: FaultPlan,
    /// Which takes fail, by number from 1.
    takes: Vec<u64>,
    /// Which puts fail, by number from 1.
    puts: Vec<u64>,
}

/// The number that a text begins with, and what stands behind the space behind it.
fn number(text: &str) -> Result<(u64, &str)> {
    let (word, rest) = text.split_once(' ').unwrap_or((text, ""));
    let number = word.parse().with_context(|| word)?;
    Ok((number, rest))
}

/// Numbers, parted by spaces.
fn numbers(alloc: Global, text: &str) -> Result<Vec<u64>> {
    let mut list = Vec::new(alloc);
    for word in text.split_whitespace() {
        list.push(word.parse().with_context(|| word)?)?;
    }
    Ok(list)
}

fn plan_of(text: &str) -> Result<FaultPlan> {
    match text.split_once(' ') {
        Some(("one", number)) => Ok(FaultPlan::One(number.parse()?)),
        Some(("from", number)) => Ok(FaultPlan::From(number.parse()?)),
        _ => bail!("no plan: {text}"),
    }
}

/// The words of a program that takes an input so.
fn asked_by(word: &str) -> Result<&'static str> {
    match word {
        "run" => Ok(RUN),
        "merge" => Ok(MERGE),
        _ => bail!("no input is taken by it: {word}"),
    }
}

/// Appends a piece, with a number in place of each `%`.
fn add_piece(alloc: Global, out: &mut Text, piece: &[u8], number: u64) -> Result<()> {
    for byte in piece {
        match byte {
            b'%' => out.append(format!(in alloc; "{number}")?.as_bytes())?,
            _ => out.append(&[*byte])?,
        }
    }
    Ok(())
}

/// A text that repeats a piece: its front, the piece with its number from 0 in place of each `%`, and its end, parted by `|`.
fn repeated(alloc: Global, count: u64, spelled: &str) -> Result<Text> {
    let fields = words(alloc, spelled)?;
    let [front, piece, end] = fields.as_slice() else {
        bail!("a text has a front, a piece and an end");
    };
    let mut text = front.copy(alloc)?;
    for number in 0..count {
        add_piece(alloc, &mut text, piece.bytes(), number)?;
    }
    text.append(end.bytes())?;
    Ok(text)
}

/// Appends what was written, and a `\` behind a last line without its end.
fn add_lines(alloc: Global, out: &mut Text, written: &[u8]) -> Result<()> {
    for line in written.split_inclusive(|byte| *byte == b'\n') {
        match line {
            [front @ .., b'\n'] => bytes::spell(alloc, out, front)?,
            _ => {
                bytes::spell(alloc, out, line)?;
                out.append(b"\\")?;
            }
        }
        out.append(b"\n")?;
    }
    Ok(())
}

impl Trial {
    /// An empty folder without faults.
    pub(crate) fn new(alloc: Global) -> Result<Self> {
        Trial::with_room(alloc, ROOM)
    }

    fn with_room(alloc: Global, room: usize) -> Result<Self> {
        Ok(Trial {
            disk: empty(alloc, room, FaultPlan::Never)?,
            room,
            piece: 4096,
            asked: RUN,
            plan: FaultPlan::Never,
            takes: Vec::new(alloc),
            puts: Vec::new(alloc),
        })
    }

    /// Does what a row says, and answers what it shows.
    pub(crate) fn row(&mut self, alloc: Global, word: &str, rest: &str) -> Result<Text> {
        match word {
            "new" => {
                *self = Trial::new(alloc)?;
            }
            "room" => {
                *self = Trial::with_room(alloc, number(rest)?.0 as usize)?;
            }
            "plan" => {
                self.plan = plan_of(rest)?;
            }
            "piece" => {
                self.piece = number(rest)?.0 as usize;
            }
            "by" => {
                self.asked = asked_by(rest)?;
            }
            "takes" => {
                self.takes = numbers(alloc, rest)?;
            }
            "puts" => {
                self.puts = numbers(alloc, rest)?;
            }
            "write" => self.write(alloc, rest)?,
            "mark" => self.mark(alloc, rest)?,
            "cut" => self.cut(alloc, rest)?,
            "zeros" => self.zeros(alloc, rest)?,
            "call" => self.call(alloc, rest)?,
            "crash" => {
                self.disk = self.disk.crash(alloc, number(rest)?.0)?;
            }
            _ => return self.shown(alloc, word, rest),
        }
        Ok(Text::empty(alloc))
    }

    /// What a row that runs or looks shows.
    fn shown(&mut self, alloc: Global, word: &str, rest: &str) -> Result<Text> {
        match word {
            "run" => self.run(alloc, RUN, rest),
            "merge" => self.run(alloc, MERGE, rest),
            "do"
            | "classes"
            | "browse"
            | "source"
            | "versions"
            | "changes"
            | "file-out"
            | "file-out-class"
            | "file-out-set"
            | "senders"
            | "implementors"
            | "references"
            | "undeclared"
            | "unimplemented"
            | "unsent"
            | "snapshot"
            | "condense"
            | "recover" => {
                let asked = format!(in alloc;
                    "st80|F|{word}{}{rest}",
                    if rest.is_empty() { "" } else { "|" }
                )?;
                self.run(alloc, &asked, "5!")
            }
            "words" => self.run(alloc, rest, "5!"),
            "repeat" => self.repeat(alloc, rest),
            "spaces" => self.spaces(alloc, number(rest)?.0),
            "budget" => self.session(alloc, rest),
            "start" => self.start(alloc),
            "show" => self.show(alloc, file_named(rest)?),
            "length" => self.length(alloc, file_named(rest)?),
            "slot" => self.slot(alloc, number(rest)?.0),
            _ => self.tried(alloc, word, rest),
        }
    }

    /// What a row shows that leaves the folder as it is.
    fn tried(&self, alloc: Global, word: &str, rest: &str) -> Result<Text> {
        match word {
            "sweep" => self.sweep(alloc, rest),
            "resweep" => self.resweep(alloc, rest),
            "stops" => self.stops(alloc, rest),
            "condensing" => self.condensing(alloc, rest),
            "faults" => self.faults(alloc, rest),
            "killed" => {
                let (call, spelled) = number(rest)?;
                killed(alloc, self.room, call, &self.input(alloc, spelled)?)
            }
            "long" => long(alloc, rest),
            "system" => system::row(alloc, rest),
            "crashes" => crashes_of(alloc, &self.disk, self.room, file_named(rest)?),
            _ => match keepers::row(alloc, &self.disk, word, rest)? {
                Some(lines) => Ok(lines),
                None => bail!("no row: {word}"),
            },
        }
    }

    /// An input, given in pieces of the size that the rows set.
    fn input(&self, alloc: Global, spelled: &str) -> Result<Input> {
        Ok(Input {
            words: self.asked,
            text: bytes::read(alloc, spelled)?,
            piece: self.piece,
        })
    }

    /// Takes over what a run left, and shows it. What was to fail failed in this run.
    fn end(&mut self, alloc: Global, ran: Ran) -> Result<Text> {
        let mut out = Text::empty(alloc);
        add_lines(alloc, &mut out, ran.written.bytes())?;
        out.append(format!(in alloc; "{:?}\n", ran.status)?.as_bytes())?;
        self.disk = ran.disk;
        self.plan = FaultPlan::Never;
        self.takes = Vec::new(alloc);
        self.puts = Vec::new(alloc);
        Ok(out)
    }

    /// Runs the program with these words on this input.
    fn run(&mut self, alloc: Global, asked: &str, input: &str) -> Result<Text> {
        let input = bytes::read(alloc, input)?;
        self.run_words(alloc, &words(alloc, asked)?, &input)
    }

    fn run_words(&mut self, alloc: Global, asked: &[Text], input: &Text) -> Result<Text> {
        let disk = planned(alloc, &self.disk, self.room, self.plan)?;
        let source = MemSource::make(alloc, input.bytes(), self.piece.max(1), &self.takes)?;
        let ran = run(alloc, disk, source, &self.puts, asked)?;
        self.end(alloc, ran)
    }

    /// Works a text that repeats a piece: how often, what is done with it (`run`, `merge`, `do` or a file's name), and its front, the piece and
    /// its end, parted by `|`.
    fn repeat(&mut self, alloc: Global, rest: &str) -> Result<Text> {
        let (count, rest) = number(rest)?;
        let (place, spelled) = rest.split_once(' ').context("no place")?;
        let text = repeated(alloc, count, spelled)?;
        match place {
            "run" => self.run_words(alloc, &words(alloc, RUN)?, &text),
            "merge" => self.run_words(alloc, &words(alloc, MERGE)?, &text),
            "do" => {
                let mut asked = words(alloc, "st80|F|do")?;
                asked.push(text)?;
                self.run_words(alloc, &asked, &Text::empty(alloc))
            }
            _ => {
                self.put(alloc, file_named(place)?, 0, text.bytes())?;
                Ok(Text::empty(alloc))
            }
        }
    }

    /// Runs the program on so many spaces, by the words that take the input.
    fn spaces(&mut self, alloc: Global, count: u64) -> Result<Text> {
        let disk = planned(alloc, &self.disk, self.room, self.plan)?;
        let source = RepeatSource::make(b' ', count);
        let ran = run(alloc, disk, source, &self.puts, &words(alloc, self.asked)?)?;
        self.end(alloc, ran)
    }

    /// A session with this budget on the folder, which works an input.
    fn session(&mut self, alloc: Global, rest: &str) -> Result<Text> {
        let (budget, input) = number(rest)?;
        let input = bytes::read(alloc, input)?;
        let disk = planned(alloc, &self.disk, self.room, self.plan)?;
        let source = MemSource::make(alloc, input.bytes(), self.piece.max(1), &self.takes)?;
        let sink = MemSink::make(alloc, ROOM, &self.puts)?;
        let mut outside = MemOutside::make(disk, source, sink, FixedClock { seconds: SECONDS });
        let ran = begin(alloc, &mut outside, budget)?;
        let (disk, _source, sink) = outside.parts();
        let mut out = Text::empty(alloc);
        add_lines(alloc, &mut out, sink.bytes())?;
        out.append(ran.as_bytes())?;
        self.disk = disk;
        Ok(out)
    }

    /// How many changes a keeper finds in the folder, or why it doesn't start.
    fn start(&self, alloc: Global) -> Result<Text> {
        let mut disk = planned(alloc, &self.disk, self.room, self.plan)?;
        let line = match found(alloc, &mut disk) {
            Ok((changes, bytes)) => format!(in alloc; "{changes} changes, {bytes} bytes")?,
            Err(fault) => format!(in alloc; "{fault}")?,
        };
        Ok(Text::from_bytes(alloc, line.as_bytes())?)
    }

    /// The lines of a file.
    fn show(&self, alloc: Global, file: FileId) -> Result<Text> {
        let bytes = contents(alloc, &self.disk, self.room, file)?;
        let mut out = Text::empty(alloc);
        add_lines(alloc, &mut out, &bytes)?;
        Ok(out)
    }

    /// How long a file is.
    fn length(&self, alloc: Global, file: FileId) -> Result<Text> {
        let length = self.disk.crash(alloc, 1)?.length(file)?;
        Ok(Text::from_bytes(alloc, format!(in alloc; "{length}")?.as_bytes())?)
    }

    /// Writes bytes to a file, durably: its name, the place, and the bytes.
    fn write(&mut self, alloc: Global, rest: &str) -> Result<()> {
        let (name, rest) = rest.split_once(' ').context("no place")?;
        let (at, spelled) = number(rest)?;
        let bytes = bytes::read(alloc, spelled)?;
        self.put(alloc, file_named(name)?, at, bytes.bytes())
    }

    fn put(&mut self, alloc: Global, file: FileId, at: u64, bytes: &[u8]) -> Result<()> {
        let mut disk = self.disk.crash(alloc, 1)?;
        disk.write_at(file, at, bytes)?;
        disk.sync(file)?;
        self.disk = disk;
        Ok(())
    }

    /// Writes so many bytes 0 to a file, durably.
    fn zeros(&mut self, alloc: Global, rest: &str) -> Result<()> {
        let (name, rest) = rest.split_once(' ').context("no length")?;
        let zeros = vec![in alloc; 0; number(rest)?.0 as usize]?;
        self.put(alloc, file_named(name)?, 0, &zeros)
    }

    /// One call on the disk: `write`, `cut` or `sync`, the file, a place, and the bytes.
    fn call(&mut self, alloc: Global, rest: &str) -> Result<()> {
        let (call, rest) = rest.split_once(' ').context("no file")?;
        let (name, rest) = rest.split_once(' ').context("no place")?;
        let file = file_named(name)?;
        let (at, spelled) = number(rest)?;
        match call {
            "write" => {
                let bytes = bytes::read(alloc, spelled)?;
                self.disk.write_at(file, at, bytes.bytes())?;
            }
            "cut" => self.disk.cut(file, at)?,
            "sync" => self.disk.sync(file)?,
            _ => bail!("no call: {call}"),
        }
        Ok(())
    }

    /// Writes a slot of the mark file: its place, and then gate, sequence, log number, log length and image number.
    fn mark(&mut self, alloc: Global, rest: &str) -> Result<()> {
        let fields = numbers(alloc, rest)?;
        let [at, gate, sequence, log, length, image] = fields.as_slice() else {
            bail!("a slot has five fields");
        };
        let mut slot = Vec::new(alloc);
        slot.push(u8::try_from(*gate).unwrap_or(0))?;
        slot.extend_from_slice(&sequence.to_be_bytes())?;
        slot.push(u8::try_from(*log).unwrap_or(0))?;
        slot.extend_from_slice(&length.to_be_bytes())?;
        slot.push(u8::try_from(*image).unwrap_or(0))?;
        self.put(alloc, FileId::Mark, *at, &slot)
    }

    /// Shows the slot at a place of the mark file by its fields.
    fn slot(&self, alloc: Global, at: u64) -> Result<Text> {
        let mut slot = [0u8; 44];
        self.disk
            .crash(alloc, 1)?
            .read_at(FileId::Mark, at, &mut slot)?;
        let mut out = Text::empty(alloc);
        bytes::spell(alloc, &mut out, &slot)?;
        Ok(out)
    }

    /// Cuts a file to a length, durably.
    fn cut(&mut self, alloc: Global, rest: &str) -> Result<()> {
        let (name, rest) = rest.split_once(' ').context("no length")?;
        let file = file_named(name)?;
        let mut disk = self.disk.crash(alloc, 1)?;
        disk.cut(file, number(rest)?.0)?;
        disk.sync(file)?;
        self.disk = disk;
        Ok(())
    }

    /// What an input is answered in a run whose call of some number fails, and in one whose later calls fail too, for each number from
    /// the first to the last.
    fn faults(&self, alloc: Global, rest: &str) -> Result<Text> {
        let (first, rest) = number(rest)?;
        let (last, spelled) = number(rest)?;
        let input = self.input(alloc, spelled)?;
        let (written, status) = faults(alloc, &self.disk, self.room, first, last, &input)?;
        let mut out = Text::empty(alloc);
        add_lines(alloc, &mut out, written.bytes())?;
        out.append(format!(in alloc; "{status:?}")?.as_bytes())?;
        Ok(out)
    }

    /// Runs an input in groups of so many changes, stopped at each call up to the last, and tries crashes behind each.
    fn sweep(&self, alloc: Global, rest: &str) -> Result<Text> {
        let (last, rest) = number(rest)?;
        let (group, spelled) = number(rest)?;
        let input = self.input(alloc, spelled)?;
        let swept = sweep(alloc, &self.disk, self.room, last, group, &input)?;
        Ok(Text::from_bytes(alloc, line_of(alloc, swept)?.as_bytes())?)
    }

    /// Which lists the files stand for while an input is worked: in each call on the disk from the first to the last, and behind that.
    fn stops(&self, alloc: Global, rest: &str) -> Result<Text> {
        let (first, rest) = number(rest)?;
        let (last, spelled) = number(rest)?;
        let input = self.input(alloc, spelled)?;
        stops(alloc, &self.disk, self.room, (first, last), &input)
    }

    /// Which lists they stand for while the folder's list is condensed.
    fn condensing(&self, alloc: Global, rest: &str) -> Result<Text> {
        let (first, rest) = number(rest)?;
        let (last, _) = number(rest)?;
        let input = Input {
            words: CONDENSE,
            text: Text::empty(alloc),
            piece: self.piece,
        };
        stops(alloc, &self.disk, self.room, (first, last), &input)
    }

    /// The same over each folder that a crash may leave of a run that is stopped at this call.
    fn resweep(&self, alloc: Global, rest: &str) -> Result<Text> {
        let (call, rest) = number(rest)?;
        let (last, rest) = number(rest)?;
        let (group, spelled) = number(rest)?;
        let input = self.input(alloc, spelled)?;
        let swept = sweep_again(alloc, &self.disk, self.room, call, last, group, &input)?;
        Ok(Text::from_bytes(alloc, line_of(alloc, swept)?.as_bytes())?)
    }
}

/// What a sweep shows.
fn line_of(alloc: Global, swept: (u64, Status)) -> Result<String> {
    let (crashes, last) = swept;
    Ok(format!(in alloc;
        "{crashes} crashes lose no answered change; the last run ends with {last:?}"
    )?)
}

/// How many versions a session keeps that doesn't condense.
const ONE_VERSION: u32 = 1;

/// A session with this budget, which works the whole input.
fn begin(alloc: Global, outside: &mut MemOutside<MemSource>, budget: u64) -> Result<String> {
    let mut session = Session::start(alloc, outside, budget, ONE_VERSION)?;
    work(alloc, &mut session, outside)
}

fn work(alloc: Global, session: &mut Session, outside: &mut MemOutside<MemSource>) -> Result<String>
    requires { IsResting session.old }
{
    session.run_items(alloc, outside)?;
    run_of(alloc, session)
}

/// Whether a session was troubled, and what its last run took of its budget.
fn run_of(alloc: Global, session: &Session) -> Result<String> {
    let troubled = session.troubled();
    match session.last_run() {
        Some(ran) => Ok(format!(in alloc;
            "troubled: {troubled}; ticks: {} of {}",
            ran.outcome().ticks,
            ran.budget()
        )?),
        None => Ok(format!(in alloc; "troubled: {troubled}; no run")?),
    }
}
