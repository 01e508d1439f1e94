// The outside of a program that runs: the standard streams, a folder and the machine's clock.
ghost use Rattle.std.specs.Prelude.{◌≡◌, ◌≤◌, ◌<◌, ◌+◌, ◌^◌, ℕ, List, false, None, refl, [], length, IfOk, IsTrue, OnOk};
ghost use Rattle.std.proofs.Common.{ap, sym};
ghost use Rattle.s80_disk.specs.declared.disk.FileId.{FileId};
ghost use Rattle.s80_disk.specs.Real.{faults_of_real};
ghost use Rattle.s80_disk.specs.Untold.{untold, files_untold, no_moment_untold};

use crate::places::Telling;
use crate::progress::Seen;
use crate::sight::Sight;
use s80_base::{Call, Clock, Failed, Sink, Source, Text, fault};
use s80_disk::{Disk, Failure, FileId, Outside, RealDisk, write_some};
use std::fs::{File, Files};
use std::io;
use std::rt::Clock as SystemClock;
use std::time::{SystemTime, UNIX_EPOCH};

/// Standard input and output, the five files of a folder, and the machine's clock. It tells nothing of what these hold, but how
/// many bytes it has put.
#[derive(Drop)]
pub struct RealOutside<
    R: Files<File = File> + AllocGlobal + Input + Print + Eprint + SystemClock + Drop,
> {
    disk: RealDisk<R>,
    told: u64,
    read_faults: u64,
    write_faults: u64,
    /// What standard error is told.
    sight: Sight,
}

impl<R: Files<File = File> + AllocGlobal + Input + Print + Eprint + SystemClock + Drop> RealOutside<
    R,
> {
    /// An outside on which no folder is chosen yet, what standard error is told of the input, and who sees it, if somebody does: that one is told
    /// how far a long run is.
    pub fn make(rt: R, telling: Telling, seen: Option<Seen>) -> Self {
        let sight = Sight::make(rt.alloc(), &rt, telling, seen);
        RealOutside {
            disk: RealDisk::make(rt),
            told: 0,
            read_faults: 0,
            write_faults: 0,
            sight,
        }
    }

    /// What failed first of the folder, if something did.
    pub fn failure(&self) -> Option<Failure> {
        self.disk.failure()
    }

    /// Takes away what a terminal was told of the run.
    pub fn clear_progress(&mut self) {
        self.sight.clear(self.disk.runtime());
    }
}

/// The seconds since 1970, or 0 where the clock can't be read or stands before it.
fn seconds_now<R: SystemClock>(rt: &R) -> u64 {
    match SystemTime::now(rt) {
        Ok(now) => match now.duration_since(UNIX_EPOCH) {
            Ok(since) => since.as_secs(),
            Err(_) => 0,
        },
        Err(_) => 0,
    }
}

impl<R: Files<File = File> + AllocGlobal + Input + Print + Eprint + SystemClock + Drop> Source
    for RealOutside<R> {
    ghost left = { λ _. None };

    ghost read_faults = { λ o. o.read_faults };

    ghost take_keeps = { λ o p. (p.disk ≡ o.disk) × (p.told ≡ o.told) × (p.write_faults ≡ o.write_faults) };

    fn take(&mut self, buf: &mut [u8]) -> Result<usize, Failed> {
        let rt = self.disk.runtime();
        match self.sight.read(rt, &mut rt.reader(), buf) {
            Ok(count) => Ok(count),
            Err(_) => Err(fault(&mut self.read_faults, Call::Take)),
        }
    }
}

impl<R: Files<File = File> + AllocGlobal + Input + Print + Eprint + SystemClock + Drop> Sink
    for RealOutside<R> {
    ghost taken = { λ _. None };

    ghost told = { λ o. o.told };

    ghost write_faults = { λ o. o.write_faults };

    ghost put_keeps = { λ o p. (p.disk ≡ o.disk) × (p.read_faults ≡ o.read_faults) };

    fn put(&mut self, piece: &[u8]) -> Result<usize, Failed> {
        // The count of bytes told can't pass the end of its type.
        if u64::MAX - self.told < piece.len() as u64 {
            return Err(fault(&mut self.write_faults, Call::Put));
        }
        self.sight.explain(self.disk.runtime(), piece);
        self.sight.clear_for_output(self.disk.runtime());
        match write_some(&mut io::writer(self.disk.runtime()), piece) {
            Ok(count) => {
                self.told += count as u64;
                Ok(count)
            }
            Err(_) => Err(fault(&mut self.write_faults, Call::Put)),
        }
    }
}

impl<R: Files<File = File> + AllocGlobal + Input + Print + Eprint + SystemClock + Drop> Clock
    for RealOutside<R> {
    ghost seconds = { λ _. None };

    ghost now_keeps = { λ o p. p ≡ o };

    fn now(&mut self) -> u64 {
        seconds_now(self.disk.runtime())
    }
}

impl<R: Files<File = File> + AllocGlobal + Input + Print + Eprint + SystemClock + Drop> Disk
    for RealOutside<R> {
    ghost tells = { λ _. false };

    ghost reads = { λ _ _. [] };

    ghost may_leave = { λ _ _. ⊥ };

    ghost moment = { λ _. 0 };

    ghost left_since = { λ _ _ _ _. ⊥ };

    ghost disk_faults = { λ o. faults_of_real o.disk };

    ghost beside = { λ o. record {
      left = None;
      taken = None;
      told = o.told;
      read_faults = o.read_faults;
      write_faults = o.write_faults;
      seconds = None;
    } };

    ghost reads_is_left = { λ _ h. untold h };

    ghost counts_now = { λ _ _ _ _ now. now };

    ghost only_now = { λ _ _ _ left. absurd left };

    fn attach(&mut self, folder: &Text) -> Result<(), Failed> {
        self.disk.attach(folder)
    }

    fn length(&mut self, file: FileId) -> Result<u64, Failed> {
        self.disk.length(file)
    }

    fn read_at(&mut self, file: FileId, at: u64, buf: &mut [u8]) -> Result<usize, Failed> {
        self.sight.tell_progress(self.disk.runtime());
        let outcome = self.disk.read_at(file, at, buf);
        if let Ok(count) = outcome {
            self.sight.count_read(count);
        }
        outcome
    }

    fn write_at(&mut self, file: FileId, at: u64, piece: &[u8]) -> Result<(), Failed> {
        self.sight.tell_progress(self.disk.runtime());
        self.sight.count_written(piece.len());
        self.disk.write_at(file, at, piece)
    }

    fn cut(&mut self, file: FileId, to: u64) -> Result<(), Failed> {
        self.disk.cut(file, to)
    }

    fn sync(&mut self, file: FileId) -> Result<(), Failed> {
        self.disk.sync(file)
    }
}

impl<R: Files<File = File> + AllocGlobal + Input + Print + Eprint + SystemClock + Drop> Outside
    for RealOutside<R> {
    ghost shown = { λ o. record {
      tells = Self.tells o;
      files = Self.reads o;
      left = Self.left o;
      taken = Self.taken o;
      told = Self.told o;
      seconds = Self.seconds o;
    } };

    ghost shown_is = { λ o. refl };

    ghost faults = { λ o. record { read = Self.read_faults o; write = Self.write_faults o; disk = Self.disk_faults o } };

    ghost faults_is = { λ o. refl };

    ghost beside_is = { λ o. refl };

    ghost take_keeps_files = { λ o p h. files_untold (λ x. faults_of_real x.disk) (λ x. Self.beside x) o p (ap faults_of_real h.0) };

    ghost take_keeps_moment = { λ o p h. no_moment_untold o p };

    ghost take_keeps_output = { λ o p h. record { taken = refl; told = h.1; write_faults = h.2; seconds = refl } };

    ghost put_keeps_files = { λ o p h. files_untold (λ x. faults_of_real x.disk) (λ x. Self.beside x) o p (ap faults_of_real h.0) };

    ghost put_keeps_input = { λ o p h. record { left = refl; read_faults = h.1; seconds = refl } };

    ghost now_keeps_files = { λ o p h. files_untold (λ x. faults_of_real x.disk) (λ x. Self.beside x) o p (ap (λ x. faults_of_real x.disk) h) };

    ghost now_keeps_moment = { λ o p h. no_moment_untold o p };

    ghost now_keeps_beside = { λ o p h. ap (λ x. Self.beside x) h };
}
