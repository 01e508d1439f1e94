// The disk over real files. It tells nothing of what they hold.
ghost use Rattle.std.specs.Prelude.{◌≡◌, ◌≤◌, ◌<◌, ℕ, false, None, [], length, take, IfOk, OnOk};
ghost use Rattle.std.specs.Io.KnownBytes.{Consumes, IsAtEnd};
ghost use Rattle.std.specs.Io.Seek.{MovesTo};
ghost use Rattle.s80_disk.specs.Real.{HasRead, HasWritten};
ghost use Rattle.s80_disk.specs.Untold.{untold};

use crate::faults::{Failure, Faults};
use crate::{Disk, FileId, read_some};
use s80_base::{Call, Failed, Text};
use std::fs::{File, Files, OpenFile, OpenOptions, TryLockError};
use std::io::{ErrorKind, Read, Seek, SeekFrom, Write};
use std::rt::Clock;
use std::time::{Duration, Instant};
use std::{io, thread};

/// How long the lock of a folder is waited for while another program holds it.
const LONGEST_WAIT_SECONDS: u64 = 5;

/// The pause between two tries, and how many fill that time.
const PAUSE_MILLISECONDS: u64 = 10;

const TRIES: u32 = 500;

/// A file of the system that has a lock.
pub trait HasLock {
    /// Takes the lock of the whole file, unless another program holds it.
    fn try_lock(&self) -> Result<(), TryLockError>;
}

impl HasLock for File {
    fn try_lock(&self) -> Result<(), TryLockError> {
        File::try_lock(self)
    }
}

/// A file that is open.
#[derive(Drop)]
struct Opened<F: Drop> {
    file: F,
    /// Why it isn't open for writing.
    refused: Option<io::Error>,
}

/// The five files of a folder, which stay open and locked from `attach` on. Those that mayn't be written are open for reading.
#[derive(Drop)]
pub struct RealDisk<R: Files + AllocGlobal + Clock + Drop>
where
    R::File: HasLock,
{
    rt: R,
    files: Vec<Opened<R::File>>,
    /// The folder, opened so often that no file of it gets the number of a standard stream that is closed.
    folders: Vec<R::File>,
    faults: Faults,
}

impl<R: Files + AllocGlobal + Clock + Drop> RealDisk<R>
where
    R::File: HasLock,
{
    ghost use Rattle.s80_disk.specs.Real.{faults_of_real, runtime_of};

    /// A disk without a folder. Until one is attached each other call fails.
    pub fn make(rt: R) -> Self
        ensures faults { faults_of_real result ≡ 0 }
        ensures runtime { runtime_of result ≡ rt }
    {
        let files = Vec::new(rt.alloc());
        let folders = Vec::new(rt.alloc());
        RealDisk {
            rt,
            files,
            folders,
            faults: Faults::new(),
        }
    }

    /// What failed first, if a call did.
    pub fn failure(&self) -> Option<Failure>
        ensures none { faults_of_real self.now ≡ 0 → result ≡ None }
        ensures kept { result ≡ None → faults_of_real self.now ≡ 0 }
    {
        self.faults.first()
    }

    /// The runtime that reaches the files.
    pub fn runtime(&self) -> &R
        ensures { result.now ≡ runtime_of self.now }
    {
        &self.rt
    }
}

/// Whether the system forbids to write.
fn forbids_writing(kind: ErrorKind) -> bool {
    matches!(
        kind,
        ErrorKind::PermissionDenied | ErrorKind::ReadOnlyFilesystem
    )
}

/// Opens a file, and makes an absent one, empty. One that mayn't be written is opened for reading.
fn open_one<R: Files + AllocGlobal>(
    rt: &R,
    folder: &str,
    name: &str,
) -> io::Result<Opened<R::File>> {
    let path = format!(in rt.alloc(); "{folder}/{name}")?;
    let mut how = OpenOptions::new();
    match how
        .read(true)
        .write(true)
        .create(true)
        .open(rt, path.as_str())
    {
        Ok(file) => Ok(Opened {
            file,
            refused: None,
        }),
        Err(error) if forbids_writing(error.kind()) => Ok(Opened {
            file: OpenOptions::new().read(true).open(rt, path.as_str())?,
            refused: Some(error),
        }),
        Err(error) => Err(error),
    }
}

/// Opens the folder for reading, once for each standard stream.
fn open_folders<R: Files + AllocGlobal>(rt: &R, folder: &str) -> io::Result<Vec<R::File>> {
    let mut folders = Vec::with_capacity(rt.alloc(), 3)?;
    for _ in 0..3 {
        folders.push(OpenOptions::new().read(true).open(rt, folder)?)?;
    }
    Ok(folders)
}

/// Opens the files in the order of `FileId`, and notes which one is at work.
fn open_files<R: Files + AllocGlobal>(
    rt: &R,
    folder: &str,
    file: &mut Option<FileId>,
) -> io::Result<Vec<Opened<R::File>>> {
    let mut files = Vec::with_capacity(rt.alloc(), 5)?;
    for (id, name) in [
        (FileId::Mark, "mark"),
        (FileId::Log0, "log0"),
        (FileId::Log1, "log1"),
        (FileId::Image0, "image0"),
        (FileId::Image1, "image1"),
    ] {
        *file = Some(id);
        files.push(open_one(rt, folder, name)?)?;
    }
    *file = None;
    Ok(files)
}

/// Takes the lock of an open file, and waits while another program holds it. The system frees it when this program ends, however it ends.
fn lock<R: Clock, F: HasLock>(rt: &R, file: &F) -> io::Result<()> {
    let begun = Instant::now(rt)?;
    for _ in 0..TRIES {
        match file.try_lock() {
            Ok(()) => return Ok(()),
            Err(TryLockError::WouldBlock) => {}
            Err(TryLockError::Error(error)) => return Err(error),
        }
        if begun.elapsed(rt)?.as_secs() >= LONGEST_WAIT_SECONDS {
            break;
        }
        thread::sleep(rt, Duration::from_millis(PAUSE_MILLISECONDS));
    }
    Err(io::Error::new(ErrorKind::WouldBlock, "another st80 works in it"))
}

/// Whether the file system knows no sync, and can't be written, so that it holds nothing that isn't on its disk: as a sync of a file that isn't
/// open for writing failed, and why it isn't.
fn needs_no_sync(error: io::Error, refusal: io::Error) -> bool {
    error.kind() == ErrorKind::InvalidInput && refusal.kind() == ErrorKind::ReadOnlyFilesystem
}

/// Syncs a file, or the folder of such files.
fn sync<F: OpenFile>(file: &F, refused: Option<io::Error>) -> io::Result<()> {
    match (file.sync_all(), refused) {
        (Err(error), Some(refusal)) if needs_no_sync(error, refusal) => Ok(()),
        (outcome, _) => outcome,
    }
}

/// Opens the folder and its files, takes the lock of the first one, and syncs the folder, so that the names of those that it made outlive
/// a power cut. Notes which file is at work.
fn open_all<R: Files + AllocGlobal + Clock>(
    rt: &R,
    folder: &[u8],
    file: &mut Option<FileId>,
) -> io::Result<(Vec<R::File>, Vec<Opened<R::File>>)>
where
    R::File: HasLock,
{
    let folder = match std::str::from_utf8(folder) {
        Ok(folder) => folder,
        Err(_) => return Err(io::Error::from(ErrorKind::InvalidInput)),
    };
    let folders = open_folders(rt, folder)?;
    let files = open_files(rt, folder, file)?;
    if let (Some(mark), Some(opened)) = (files.first(), folders.first()) {
        lock(rt, &mark.file)?;
        sync(opened, mark.refused)?;
    }
    Ok((folders, files))
}

/// Goes to a place of a file.
fn go_to<F: Seek>(file: &mut F, at: u64) -> io::Result<()>
    ensures { MovesTo (F.stream_position file.old) (F.stream_position file.new) at result }
{
    file.seek(SeekFrom::Start(at))?;
    Ok(())
}

/// Reads on until the buffer is full or the file has ended.
fn read_on<F: Read>(file: &mut F, buf: &mut [u8]) -> io::Result<usize>
    ensures bound { IfOk result (λ count. count ≤ length buf.new) }
    ensures bytes { IfOk result (λ count. Consumes (F.remaining file.old) (F.remaining file.new) (take count buf.new)) }
    ensures end { IfOk result (λ count. count < length buf.new → IsAtEnd (F.remaining file.new)) }
{
    let mut count = 0;
    while count < buf.len() {
        match read_some(file, &mut buf[count..])? {
            0 => return Ok(count),
            more => count += more,
        }
    }
    Ok(count)
}

/// Reads from a place on until the buffer is full or the file has ended.
fn read_all<F: Read + Seek>(file: &mut F, at: u64, buf: &mut [u8]) -> io::Result<usize>
    ensures bound { IfOk result (λ count. count ≤ length buf.new) }
    ensures read { IfOk result (λ count. HasRead F.stream_position F.remaining file.old file.new at count buf.new) }
{
    go_to(file, at)?;
    read_on(file, buf)
}

/// Writes a whole piece from a place on.
fn write_whole<F: Write + Seek>(file: &mut F, at: u64, piece: &[u8]) -> io::Result<()>
    ensures { OnOk result (HasWritten F.stream_position F.contents file.old file.new at piece.now) }
{
    go_to(file, at)?;
    file.write_all(piece)
}

/// Fails where the file isn't open for writing.
fn check_writable(refused: Option<io::Error>) -> io::Result<()> {
    match refused {
        None => Ok(()),
        Some(error) => Err(error),
    }
}

/// Writes a piece to a file that is open for writing.
fn write_opened<F: Write + Seek + Drop>(
    opened: &mut Opened<F>,
    at: u64,
    piece: &[u8],
) -> io::Result<()>
    ensures { OnOk result (HasWritten F.stream_position F.contents opened.old.file opened.new.file at piece.now) }
{
    check_writable(opened.refused)?;
    write_whole(&mut opened.file, at, piece)
}

/// Cuts a file that is longer, if it is open for writing.
fn cut_longer<F: OpenFile + Drop>(opened: &Opened<F>, to: u64) -> io::Result<()> {
    if to < length_of(&opened.file)? {
        check_writable(opened.refused)?;
        opened.file.set_len(to)?;
    }
    Ok(())
}

fn length_of<F: OpenFile>(file: &F) -> io::Result<u64> {
    Ok(file.metadata()?.len())
}

fn not_attached() -> io::Error {
    io::Error::new(ErrorKind::NotFound, "no folder is attached")
}

impl<R: Files + AllocGlobal + Clock + Drop> Disk for RealDisk<R>
where
    R::File: HasLock,
{
    ghost use Rattle.s80_disk.specs.Real.{faults_of_real};

    ghost tells = { λ _. false };

    ghost reads = { λ _ _. [] };

    ghost may_leave = { λ _ _. ⊥ };

    ghost moment = { λ _. 0 };

    ghost left_since = { λ _ _ _ _. ⊥ };

    ghost disk_faults = { faults_of_real };

    ghost beside = { λ _. record { left = None; taken = None; told = 0; read_faults = 0; write_faults = 0; seconds = None } };

    ghost reads_is_left = { λ _ h. untold h };

    ghost counts_now = { λ _ _ _ _ now. now };

    ghost only_now = { λ _ _ _ left. absurd left };

    fn attach(&mut self, folder: &Text) -> Result<(), Failed> {
        // What is attached already is closed first: its lock would be in the way.
        self.files.clear();
        self.folders.clear();
        let mut file = None;
        let opened = open_all(&self.rt, folder.bytes(), &mut file);
        let (folders, files) = self.faults.noted(Call::Attach, file, opened)?;
        self.folders = folders;
        self.files = files;
        Ok(())
    }

    fn length(&mut self, file: FileId) -> Result<u64, Failed> {
        let outcome = match self.files.get(file as usize) {
            Some(opened) => length_of(&opened.file),
            None => Err(not_attached()),
        };
        self.faults.noted(Call::Length, Some(file), outcome)
    }

    fn read_at(&mut self, file: FileId, at: u64, buf: &mut [u8]) -> Result<usize, Failed> {
        let outcome = match self.files.get_mut(file as usize) {
            Some(opened) => read_all(&mut opened.file, at, buf),
            None => Err(not_attached()),
        };
        self.faults.noted(Call::Read, Some(file), outcome)
    }

    fn write_at(&mut self, file: FileId, at: u64, piece: &[u8]) -> Result<(), Failed> {
        let outcome = match self.files.get_mut(file as usize) {
            Some(opened) => write_opened(opened, at, piece),
            None => Err(not_attached()),
        };
        self.faults.noted(Call::Write, Some(file), outcome)
    }

    fn cut(&mut self, file: FileId, to: u64) -> Result<(), Failed> {
        let outcome = match self.files.get(file as usize) {
            Some(opened) => cut_longer(opened, to),
            None => Err(not_attached()),
        };
        self.faults.noted(Call::Cut, Some(file), outcome)
    }

    fn sync(&mut self, file: FileId) -> Result<(), Failed> {
        let outcome = match self.files.get(file as usize) {
            Some(opened) => sync(&opened.file, opened.refused),
            None => Err(not_attached()),
        };
        self.faults.noted(Call::Sync, Some(file), outcome)
    }
}
