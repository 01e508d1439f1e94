// The outside in memory.
ghost use Rattle.std.specs.Prelude.{◌≡◌, ◌+◌, ◌≤◌, ℕ, List, Some, true, refl};
ghost use Rattle.std.proofs.Common.{ap};
ghost use Rattle.s80_base.specs.Memory.{bytes_of, puts_failed};
ghost use Rattle.s80_disk.specs.declared.disk.FileId.{FileId};
ghost use Rattle.s80_disk.specs.Memory.{events_of, first_files, files_of, images_of, images_since, moment_of, told_by, calls_failed, Tells};
ghost use Rattle.s80_disk.specs.Laws.{reads_left, counts, only};
ghost use Rattle.s80_disk.specs.Tell.{files_stay, no_moment, told_by_itself};

mod calls;

use crate::{Disk, MemDisk, Outside};
use s80_base::{Clock, FixedClock, MemSink, Sink, Source};

/// A disk, a source, a sink and a clock in memory. Each put that succeeds is recorded by the disk, but isn't
/// counted as a call of its plan. A put that the record has no place for fails.
#[derive(Drop)]
pub struct MemOutside<S: Source + Drop> {
    disk: MemDisk,
    source: S,
    sink: MemSink,
    clock: FixedClock,
    refused: u64,
}

impl<S: Source + Drop> MemOutside<S> {
    ghost use Rattle.std.specs.Prelude.{◌↔◌};
    ghost use Rattle.s80_disk.specs.Image.{Image};
    ghost use Rattle.s80_disk.specs.Outside.{disk_of, source_of, sink_of, clock_of, puts_refused};

    /// An outside of these parts. It has told what the disk has told, and each put adds to that.
    pub fn make(disk: MemDisk, source: S, sink: MemSink, clock: FixedClock) -> Self
        ensures whole { (disk_of result ≡ disk) × (source_of result ≡ source) × (sink_of result ≡ sink) × (clock_of result ≡ clock) × (puts_refused result ≡ 0) }

        // what it tells is what its parts tell
        ensures files { (file : FileId) → ⟦<MemOutside<S> as Disk>⟧.reads result file ≡ files_of disk file }
        ensures images { (c : Image) → ⟦<MemOutside<S> as Disk>⟧.may_leave result c ↔ images_of disk c }
        ensures moment { ⟦<MemOutside<S> as Disk>⟧.moment result ≡ moment_of disk }
        ensures since { (t told : ℕ) (c : Image) → ⟦<MemOutside<S> as Disk>⟧.left_since result t told c ↔ images_since disk t told c }
        ensures left { ⟦<MemOutside<S> as Source>⟧.left result ≡ S.left source }
        ensures taken { ⟦<MemOutside<S> as Sink>⟧.taken result ≡ Some (bytes_of sink) }
        ensures told { ⟦<MemOutside<S> as Sink>⟧.told result ≡ told_by disk }
        ensures disk_faults { ⟦<MemOutside<S> as Disk>⟧.disk_faults result ≡ calls_failed disk }
        ensures read_faults { ⟦<MemOutside<S> as Source>⟧.read_faults result ≡ S.read_faults source }
        ensures write_faults { ⟦<MemOutside<S> as Sink>⟧.write_faults result ≡ puts_failed sink }
        ensures seconds { ⟦<MemOutside<S> as Clock>⟧.seconds result ≡ Some clock.seconds }
    {
        MemOutside {
            disk,
            source,
            sink,
            clock,
            refused: 0,
        }
    }

    /// Gives the parts back.
    pub fn parts(self) -> (MemDisk, S, MemSink)
        ensures whole { (result.0 ≡ disk_of self) × (result.1 ≡ source_of self) × (result.2 ≡ sink_of self) }

        // they tell what it told
        ensures files { (file : FileId) → files_of result.0 file ≡ ⟦<MemOutside<S> as Disk>⟧.reads self file }
        ensures images { (c : Image) → images_of result.0 c ↔ ⟦<MemOutside<S> as Disk>⟧.may_leave self c }
        ensures moment { moment_of result.0 ≡ ⟦<MemOutside<S> as Disk>⟧.moment self }
        ensures since { (t told : ℕ) (c : Image) → images_since result.0 t told c ↔ ⟦<MemOutside<S> as Disk>⟧.left_since self t told c }
        ensures left { S.left result.1 ≡ ⟦<MemOutside<S> as Source>⟧.left self }
        ensures taken { Some (bytes_of result.2) ≡ ⟦<MemOutside<S> as Sink>⟧.taken self }
        ensures told { told_by result.0 ≡ ⟦<MemOutside<S> as Sink>⟧.told self }
        ensures disk_faults { calls_failed result.0 ≡ ⟦<MemOutside<S> as Disk>⟧.disk_faults self }
        ensures read_faults { S.read_faults result.1 ≡ ⟦<MemOutside<S> as Source>⟧.read_faults self }
        ensures write_faults { puts_failed result.2 + puts_refused self ≡ ⟦<MemOutside<S> as Sink>⟧.write_faults self }
    {
        let MemOutside {
            disk,
            source,
            sink,
            clock: _,
            refused: _,
        } = self;
        (disk, source, sink)
    }
}

impl<S: Source + Drop> Outside for MemOutside<S> {
    ghost shown = { λ o. record {
      tells = Self.tells o;
      files = Self.reads o;
      left = Self.left o;
      taken = Self.taken o;
      told = Self.told o;
      seconds = Self.seconds o;
    } };

    ghost shown_is = { λ o. refl };

    ghost faults = { λ o. record { read = Self.read_faults o; write = Self.write_faults o; disk = Self.disk_faults o } };

    ghost faults_is = { λ o. refl };

    ghost beside_is = { λ o. refl };

    ghost take_keeps_files = { λ o p h. files_stay (λ x. x.disk) (λ x. Self.beside x) o p (told_by_itself o.disk p.disk h.0) refl };

    ghost take_keeps_moment = { λ o p h. no_moment (λ x. x.disk) o p h.0 };

    ghost take_keeps_output = { λ o p h. record {
      taken = ap (λ x. Some (bytes_of x)) h.1;
      told = ap told_by h.0;
      write_faults = λ i. puts_failed (h.1 i) + h.3 i;
      seconds = ap (λ x. Some x.seconds) h.2;
    } };

    ghost put_keeps_files = { λ o p h. files_stay (λ x. x.disk) (λ x. Self.beside x) o p h.0 refl };

    ghost put_keeps_input = { λ o p h. record {
      left = ap S.left h.1;
      read_faults = ap S.read_faults h.1;
      seconds = ap (λ x. Some x.seconds) h.2;
    } };

    ghost now_keeps_files = { λ o p h. files_stay (λ x. x.disk) (λ x. Self.beside x) o p (told_by_itself o.disk p.disk (ap (λ x. x.disk) h)) refl };

    ghost now_keeps_moment = { λ o p h. no_moment (λ x. x.disk) o p (ap (λ x. x.disk) h) };

    ghost now_keeps_beside = { λ o p h. ap (λ x. Self.beside x) h };
}
