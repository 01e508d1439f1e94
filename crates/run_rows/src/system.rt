// The disk over real files and the calls on a stream, over a system that notes what it is asked and answers as a row says.
ghost use Rattle.std.specs.Prelude.{◌≤◌, IfOk};

use crate::disks::file_named;
use anyhow::{Context, Result, bail};
use s80_base::Text;
use s80_disk::{Disk, HasLock, RealDisk, read_some, write_some};
use s80_rows::bytes;
use std::alloc::{Allocator, Global};
use std::cell::{Cell, RefCell};
use std::fs::{Files, Metadata, OpenFile, OpenOptions, TryLockError};
use std::io;
use std::io::{ErrorKind, Read, Seek, SeekFrom, Write};
use std::rt::Clock;
use std::time::Duration;

/// How a system answers a call.
#[derive(Clone, Copy)]
enum Answer {
    /// All is done.
    Whole,
    /// At most so many bytes are read or written.
    AtMost(usize),
    /// The call fails.
    Fails(ErrorKind),
}

fn answer_of(word: &str) -> Result<Answer> {
    Ok(match word {
        "ok" => Answer::Whole,
        "again" => Answer::Fails(ErrorKind::Interrupted),
        "held" => Answer::Fails(ErrorKind::WouldBlock),
        "fails" => Answer::Fails(ErrorKind::Other),
        "denied" => Answer::Fails(ErrorKind::PermissionDenied),
        "sealed" => Answer::Fails(ErrorKind::ReadOnlyFilesystem),
        "unknown" => Answer::Fails(ErrorKind::InvalidInput),
        _ => Answer::AtMost(word.parse().with_context(|| word)?),
    })
}

/// The answers that words spell, parted by spaces.
fn answers_of(alloc: Global, words: &str) -> Result<Vec<Answer>> {
    let words = bytes::read(alloc, words)?;
    let words = std::str::from_utf8(words.bytes())?;
    let mut answers = Vec::new(alloc);
    for word in words.split_whitespace() {
        answers.push(answer_of(word)?)?;
    }
    Ok(answers)
}

/// A call that a system was asked, and how often one after the other.
#[derive(Drop)]
struct Asked {
    call: Vec<u8>,
    times: u64,
}

/// What a system was asked, and what it answers to the next calls.
#[derive(Drop)]
struct Notes {
    asked: Vec<Asked>,
    answers: Vec<Answer>,
    used: usize,
}

impl Notes {
    fn new(alloc: Global, answers: Vec<Answer>) -> Notes {
        Notes {
            asked: Vec::new(alloc),
            answers,
            used: 0,
        }
    }

    /// Notes a call.
    fn add(&mut self, call: Vec<u8>) -> io::Result<()> {
        match self.asked.last_mut() {
            Some(last) if last.call == call => last.times = last.times.saturating_add(1),
            _ => self.asked.push(Asked { call, times: 1 })?,
        }
        Ok(())
    }

    /// The next answer. Where none is left, all is done.
    fn next(&mut self) -> Answer {
        let answer = match self.answers.get(self.used) {
            Some(answer) => *answer,
            None => Answer::Whole,
        };
        self.used = self.used.saturating_add(1);
        answer
    }

    /// Appends the calls.
    fn tell(&self, alloc: Global, out: &mut Text) -> Result<()> {
        if self.asked.is_empty() {
            out.append(b"nothing")?;
        }
        for (i, asked) in self.asked.iter().enumerate() {
            if i > 0 {
                out.append(b", ")?;
            }
            bytes::spell(alloc, out, &asked.call)?;
            if asked.times > 1 {
                out.append(format!(in alloc; " ({} times)", asked.times)?.as_bytes())?;
            }
        }
        Ok(())
    }
}

/// A system and its clock, which stands still but for pauses.
#[derive(Drop)]
struct System {
    alloc: Global,
    notes: RefCell<Notes>,
    milliseconds: Cell<u64>,
    pauses: Cell<u64>,
}

impl System {
    fn new(alloc: Global) -> System {
        System {
            alloc,
            notes: RefCell::new(Notes::new(alloc, Vec::new(alloc))),
            milliseconds: Cell::new(0),
            pauses: Cell::new(0),
        }
    }

    /// Forgets what was asked, and has new answers.
    fn begin(&self, answers: Vec<Answer>) -> Result<()> {
        self.pauses.set(0);
        match self.notes.try_replace(Notes::new(self.alloc, answers)) {
            Ok(_) => Ok(()),
            Err(_) => bail!("the notes are in use"),
        }
    }

    /// Notes a call that has so much to do, and answers how much of it is done.
    fn ask(&self, call: Vec<u8>, size: usize) -> io::Result<usize>
        ensures { IfOk result (λ count. count ≤ size) }
    {
        match self.noted(call)? {
            Answer::Whole => Ok(size),
            Answer::AtMost(most) => Ok(size.min(most)),
            Answer::Fails(kind) => Err(io::Error::from(kind)),
        }
    }

    fn noted(&self, call: Vec<u8>) -> io::Result<Answer> {
        let Ok(mut notes) = self.notes.try_borrow_mut() else {
            return Err(io::Error::from(ErrorKind::Other));
        };
        notes.add(call)?;
        Ok(notes.next())
    }

    /// Appends what was asked.
    fn tell(&self, out: &mut Text) -> Result<()> {
        let Ok(notes) = self.notes.try_borrow() else {
            bail!("the notes are in use");
        };
        notes.tell(self.alloc, out)?;
        let pauses = self.pauses.get();
        if pauses > 0 {
            out.append(format!(in self.alloc; "; {pauses} pauses")?.as_bytes())?;
        }
        Ok(())
    }
}

/// The runtime that reaches the system.
#[derive(Drop)]
struct Reach<'a> {
    system: &'a System,
}

impl<'a> Alloc for Reach<'a> {
    type A = Global;

    fn alloc(&self) -> Global {
        self.system.alloc
    }
}

impl<'a> Clock for Reach<'a> {
    fn monotonic(&self) -> io::Result<Duration> {
        Ok(Duration::from_millis(self.system.milliseconds.get()))
    }

    fn since_1970(&self) -> io::Result<Duration> {
        self.monotonic()
    }

    fn sleep(&self, duration: Duration) {
        let now = self.system.milliseconds.get();
        let pause = duration.subsec_millis();
        self.system
            .milliseconds
            .set(now.saturating_add(u64::from(pause)));
        let pauses = self.system.pauses.get();
        self.system.pauses.set(pauses.saturating_add(1));
    }
}

fn not_there<T>() -> io::Result<T> {
    Err(io::Error::from(ErrorKind::Unsupported))
}

impl<'a> Files for Reach<'a> {
    type File = Opened<'a>;

    type Dir = Opened<'a>;

    fn open_file(&self, how: &OpenOptions, path: &str) -> io::Result<Opened<'a>> {
        let word = if how.asks_create() { "make" } else { "open" };
        let opened = Opened::new(self.system, path)?;
        opened.ask(word, b"", 0)?;
        Ok(opened)
    }

    fn open_dir(&self, _path: &str) -> io::Result<Opened<'a>> {
        not_there()
    }

    fn metadata(&self, _path: &str) -> io::Result<Metadata> {
        not_there()
    }

    fn symlink_metadata(&self, _path: &str) -> io::Result<Metadata> {
        not_there()
    }

    fn copy(&self, _from: &str, _to: &str) -> io::Result<u64> {
        not_there()
    }

    fn rename(&self, _from: &str, _to: &str) -> io::Result<()> {
        not_there()
    }

    fn remove_file(&self, _path: &str) -> io::Result<()> {
        not_there()
    }

    fn create_dir(&self, _path: &str) -> io::Result<()> {
        not_there()
    }

    fn remove_dir(&self, _path: &str) -> io::Result<()> {
        not_there()
    }

    fn remove_dir_all<B: Allocator>(&self, _alloc: B, _path: &str) -> io::Result<()> {
        not_there()
    }
}

/// An open file or a stream of a system. Its bytes are `a` to `z`, again and again.
#[derive(Drop)]
struct Opened<'a> {
    system: &'a System,
    name: Vec<u8>,
    at: u64,
}

impl<'a> Opened<'a> {
    fn new(system: &'a System, name: &str) -> io::Result<Opened<'a>> {
        let name = name.as_bytes().to_vec(system.alloc)?;
        Ok(Opened {
            system,
            name,
            at: 0,
        })
    }

    /// Asks for a call by its word, with what stands behind the name.
    fn ask(&self, word: &str, what: &[u8], size: usize) -> io::Result<usize>
        ensures { IfOk result (λ count. count ≤ size) }
    {
        let mut call = word.as_bytes().to_vec(self.system.alloc)?;
        call.push(b' ')?;
        call.extend_from_slice(&self.name)?;
        if !what.is_empty() {
            call.push(b' ')?;
            call.extend_from_slice(what)?;
        }
        self.system.ask(call, size)
    }

    /// Asks for a call that is done or fails.
    fn ask_all(&self, word: &str) -> io::Result<()> {
        self.ask(word, b"", 0)?;
        Ok(())
    }
}

/// Fills a buffer with the letters from a place on.
fn fill(buf: &mut [u8], at: u64) {
    for (i, byte) in buf.iter_mut().enumerate() {
        *byte = b'a' + (at.wrapping_add(i as u64) % 26) as u8;
    }
}

impl<'a> Read for Opened<'a> {
    fn read(&mut self, buf: &mut [u8]) -> io::Result<usize> {
        let size = format!(in self.system.alloc; "{}", buf.len())?;
        let count = self.ask("read", size.as_bytes(), buf.len())?;
        fill(&mut buf[..count], self.at);
        self.at = self.at.saturating_add(count as u64);
        Ok(count)
    }
}

impl<'a> Write for Opened<'a> {
    fn write(&mut self, buf: &[u8]) -> io::Result<usize> {
        self.ask("write", buf, buf.len())
    }

    fn flush(&mut self) -> io::Result<()> {
        self.ask_all("flush")
    }
}

impl<'a> Seek for Opened<'a> {
    fn seek(&mut self, to: SeekFrom) -> io::Result<u64> {
        let SeekFrom::Start(at) = to else {
            return not_there();
        };
        let place = format!(in self.system.alloc; "{at}")?;
        self.ask("seek", place.as_bytes(), 0)?;
        self.at = at;
        Ok(at)
    }
}

impl<'a> OpenFile for Opened<'a> {
    fn metadata(&self) -> io::Result<Metadata> {
        let size = self.ask("measure", b"", usize::MAX)?;
        Ok(Metadata::of_file(size as u64))
    }

    fn set_len(&self, size: u64) -> io::Result<()> {
        let size = format!(in self.system.alloc; "{size}")?;
        self.ask("cut", size.as_bytes(), 0)?;
        Ok(())
    }

    fn sync_all(&self) -> io::Result<()> {
        self.ask_all("sync")
    }

    fn sync_data(&self) -> io::Result<()> {
        not_there()
    }
}

impl<'a> HasLock for Opened<'a> {
    fn try_lock(&self) -> Result<(), TryLockError> {
        match self.ask_all("lock") {
            Ok(()) => Ok(()),
            Err(error) if error.kind() == ErrorKind::WouldBlock => Err(TryLockError::WouldBlock),
            Err(error) => Err(TryLockError::Error(error)),
        }
    }
}

/// What calls on the disk over real files, and on a stream (`take`, `put`), ask the system, and what they answer: the calls, parted by `|`,
/// each with what the system answers behind a colon.
pub(crate) fn row(alloc: Global, rest: &str) -> Result<Text> {
    let system = System::new(alloc);
    let mut disk = RealDisk::make(Reach { system: &system });
    let mut stream = Opened::new(&system, "stream")?;
    let mut out = Text::empty(alloc);
    for part in rest.split('|') {
        let (call, answers) = part.split_once(':').unwrap_or((part, ""));
        system.begin(answers_of(alloc, answers)?)?;
        work(alloc, &mut disk, &mut stream, call.trim(), &mut out)?;
        out.append(b": ")?;
        system.tell(&mut out)?;
        out.append(b"\n")?;
    }
    Ok(out)
}

/// Makes one call, and appends what it answers.
fn work(
    alloc: Global,
    disk: &mut RealDisk<Reach<'_>>,
    stream: &mut Opened<'_>,
    call: &str,
    out: &mut Text,
) -> Result<()> {
    let (word, rest) = call.split_once(' ').unwrap_or((call, ""));
    match word {
        "take" => take(alloc, stream, rest.parse()?, out),
        "put" => put(alloc, stream, rest, out),
        "attach" => attach(alloc, disk, rest, out),
        "read" => read(alloc, disk, rest, out),
        "write" => write(alloc, disk, rest, out),
        "length" => length(alloc, disk, rest, out),
        "cut" => cut(disk, rest, out),
        "sync" => sync(disk, rest, out),
        _ => bail!("no call: {call}"),
    }
}

/// At most so many bytes of a stream.
fn take(alloc: Global, stream: &mut Opened<'_>, size: usize, out: &mut Text) -> Result<()> {
    let mut buf = vec![in alloc; 0; size]?;
    match read_some(stream, &mut buf) {
        Ok(0) => out.append(b"the end")?,
        Ok(count) => bytes::spell(alloc, out, &buf[..count])?,
        Err(_) => out.append(b"no take")?,
    }
    Ok(())
}

/// How many bytes of a piece a stream takes.
fn put(alloc: Global, stream: &mut Opened<'_>, piece: &str, out: &mut Text) -> Result<()> {
    match write_some(stream, piece.as_bytes()) {
        Ok(count) => out.append(format!(in alloc; "{count}")?.as_bytes())?,
        Err(_) => out.append(b"no put")?,
    }
    Ok(())
}

fn attach(
    alloc: Global,
    disk: &mut RealDisk<Reach<'_>>,
    folder: &str,
    out: &mut Text,
) -> Result<()> {
    let folder = bytes::read(alloc, folder)?;
    let done = disk.attach(&folder).is_ok();
    out.append(if done { b"attached" } else { b"no attach" })?;
    Ok(())
}

fn read(alloc: Global, disk: &mut RealDisk<Reach<'_>>, rest: &str, out: &mut Text) -> Result<()> {
    let (name, rest) = rest.split_once(' ').context("no place")?;
    let (at, size) = rest.split_once(' ').context("no size")?;
    let mut buf = vec![in alloc; 0; size.parse()?]?;
    match disk.read_at(file_named(name)?, at.parse()?, &mut buf) {
        Ok(count) => bytes::spell(alloc, out, &buf[..count])?,
        Err(_) => out.append(b"no read")?,
    }
    Ok(())
}

fn write(alloc: Global, disk: &mut RealDisk<Reach<'_>>, rest: &str, out: &mut Text) -> Result<()> {
    let (name, rest) = rest.split_once(' ').context("no place")?;
    let (at, piece) = rest.split_once(' ').context("no piece")?;
    let piece = bytes::read(alloc, piece)?;
    let done = disk
        .write_at(file_named(name)?, at.parse()?, piece.bytes())
        .is_ok();
    out.append(if done { b"written" } else { b"no write" })?;
    Ok(())
}

fn length(alloc: Global, disk: &mut RealDisk<Reach<'_>>, name: &str, out: &mut Text) -> Result<()> {
    match disk.length(file_named(name)?) {
        Ok(length) => out.append(format!(in alloc; "{length}")?.as_bytes())?,
        Err(_) => out.append(b"no length")?,
    }
    Ok(())
}

fn cut(disk: &mut RealDisk<Reach<'_>>, rest: &str, out: &mut Text) -> Result<()> {
    let (name, to) = rest.split_once(' ').context("no length")?;
    let done = disk.cut(file_named(name)?, to.parse()?).is_ok();
    out.append(if done { b"done" } else { b"no cut" })?;
    Ok(())
}

fn sync(disk: &mut RealDisk<Reach<'_>>, name: &str, out: &mut Text) -> Result<()> {
    let done = disk.sync(file_named(name)?).is_ok();
    out.append(if done { b"synced" } else { b"no sync" })?;
    Ok(())
}
