// The outside in memory.
ghost use Rattle.std.specs.Prelude.{◌≡◌, ◌<◌, ◌≤◌, ◌-◌, ◌+◌, ◌↔◌, IsErr, IfOk, OnOk, List, ℕ, [], length, min, take, drop, replicate, vec_capacity, Some, MatchResult};
ghost use Rattle.std.specs.Io.{ReadsAtMost, WritesAtMost};
ghost use Rattle.std.specs.Io.KnownBytes.{ReadConsumes, WriteAppends};
ghost use Rattle.s80_base.specs.Causes.{HasCause, Names, Rose};

use crate::{Call, Clock, Failed, OutOfMemory, Sink, Source};
use std::alloc::Global;

/// Copies the bytes from a place on, at most so many, as far as the buffer holds them.
pub fn copy_from(bytes: &[u8], place: usize, limit: usize, buf: &mut [u8]) -> usize
    requires { place ≤ length bytes.now }
    ensures count { result ≡ min (min (length buf.old) limit) (length bytes.now - place) }
    ensures copied { take result buf.new ≡ take result (drop place bytes.now) }
{
    let count = buf.len().min(limit).min(bytes.len() - place);
    buf[..count].copy_from_slice(&bytes[place..place + count]);
    count
}

/// Counts a fault, and names the call that failed.
pub fn fault(faults: &mut u64, call: Call) -> Failed
    ensures later { faults.old ≤ faults.new }
    ensures rose { Rose faults.old faults.new }
    ensures call { result.call ≡ call }
{
    *faults = faults.saturating_add(1);
    Failed { call }
}

/// A source over bytes in memory, which come in pieces. Some of its calls fail, by their numbers from 1.
#[derive(Drop)]
pub struct MemSource {
    bytes: Vec<u8>,
    place: usize,
    piece: usize,
    failing: Vec<u64>,
    calls: u64,
    faults: u64,
    ghost in_range: { place ≤ length bytes.items },
    ghost some: { 0 < piece },
}

impl MemSource {
    ghost use Rattle.s80_base.specs.Memory.{left_in_memory, failing_takes, piece_of, takes_made, takes_failed};

    /// A source of these bytes that gives at most `piece` of them a call.
    pub fn make(
        alloc: Global,
        bytes: &[u8],
        piece: usize,
        failing: &[u64],
    ) -> Result<Self, OutOfMemory>
        requires { 0 < piece }
        ensures left { IfOk result (λ source. left_in_memory source ≡ bytes.now) }
        ensures plan { IfOk result (λ source. (failing_takes source ≡ failing.now) × (piece_of source ≡ piece)) }
        ensures unused { IfOk result (λ source. (takes_made source ≡ 0) × (takes_failed source ≡ 0)) }
    {
        let bytes = bytes.to_vec(alloc)?;
        let failing = failing.to_vec(alloc)?;
        Ok(MemSource {
            bytes,
            place: 0,
            piece,
            failing,
            calls: 0,
            faults: 0,
        })
    }
}

impl Source for MemSource {
    ghost use Rattle.s80_base.specs.Memory.{left_in_memory, piece_of, takes_made, takes_failed, next_call, SameTakes, FailsNext};

    ghost left = { λ s. Some (left_in_memory s) };

    ghost read_faults = { takes_failed };

    ghost take_keeps = { SameTakes };

    fn take(&mut self, buf: &mut [u8]) -> Result<usize, Failed>
        ensures bound { ReadsAtMost result buf.new }
        ensures bytes { ReadConsumes (Some (left_in_memory self.old)) (Some (left_in_memory self.new)) result buf.new }
        ensures cause { HasCause (takes_failed self.old) (takes_failed self.new) result }
        ensures named { Names Call.Take result }
        ensures keeps { SameTakes self.old self.new }
        ensures amount { IfOk result (λ count. count ≡ min (min (length buf.new) (piece_of self.old)) (length (left_in_memory self.old))) }
        ensures progress { 0 < length buf.new → 0 < length (left_in_memory self.old) → IfOk result (λ count. 0 < count) }
        ensures counted { takes_made self.new ≡ next_call (takes_made self.old) }
        ensures planned { IsErr result ↔ FailsNext self.old }
    {
        self.calls = self.calls.saturating_add(1);
        if self.failing.contains(&self.calls) {
            return Err(fault(&mut self.faults, Call::Take));
        }
        let count = copy_from(&self.bytes, self.place, self.piece, buf);
        self.place += count;
        Ok(count)
    }
}

/// A source of one byte, again and again, so many times.
#[derive(Clone, Copy, Debug, PartialEq, Eq)]
pub struct RepeatSource {
    byte: u8,
    left: u64,
}

impl RepeatSource {
    ghost use Rattle.s80_base.specs.Memory.{byte_of, repeated};

    pub fn make(byte: u8, count: u64) -> Self
        ensures left { repeated result ≡ replicate count byte }
        ensures byte { byte_of result ≡ byte }
    {
        RepeatSource { byte, left: count }
    }
}

impl Source for RepeatSource {
    ghost use Rattle.s80_base.specs.Memory.{byte_of, repeated};

    ghost left = { λ s. Some (repeated s) };

    ghost read_faults = { λ _. 0 };

    ghost take_keeps = { λ s t. byte_of t ≡ byte_of s };

    fn take(&mut self, buf: &mut [u8]) -> Result<usize, Failed>
        ensures bound { ReadsAtMost result buf.new }
        ensures bytes { ReadConsumes (Some (repeated self.old)) (Some (repeated self.new)) result buf.new }
        ensures cause { HasCause 0 0 result }
        ensures named { Names Call.Take result }
        ensures keeps { byte_of self.new ≡ byte_of self.old }
        ensures never_fails { IfOk result (λ count. count ≡ min (length buf.new) self.old.left) }
    {
        let count = self.left.min(buf.len() as u64);
        let size = count as usize;
        buf[..size].fill(self.byte);
        self.left -= count;
        Ok(size)
    }
}

/// A sink in memory. Its room is taken at once, and a put past it fails.
#[derive(Drop)]
pub struct MemSink {
    bytes: Vec<u8>,
    room: usize,
    failing: Vec<u64>,
    calls: u64,
    faults: u64,
    ghost enough: { length bytes.items ≤ room },
    ghost taken_at_once: { room ≤ vec_capacity bytes },
}

impl MemSink {
    ghost use Rattle.s80_base.specs.Memory.{bytes_of, room_of, failing_puts, puts_made, puts_failed};

    /// An empty sink. Some of its calls fail, by their numbers from 1.
    pub fn make(alloc: Global, room: usize, failing: &[u64]) -> Result<Self, OutOfMemory>
        ensures empty { IfOk result (λ sink. bytes_of sink ≡ []) }
        ensures plan { IfOk result (λ sink. (room_of sink ≡ room) × (failing_puts sink ≡ failing.now)) }
        ensures unused { IfOk result (λ sink. (puts_made sink ≡ 0) × (puts_failed sink ≡ 0)) }
    {
        let bytes = Vec::with_capacity(alloc, room)?;
        let failing = failing.to_vec(alloc)?;
        Ok(MemSink {
            bytes,
            room,
            failing,
            calls: 0,
            faults: 0,
        })
    }

    /// The bytes taken.
    pub fn bytes(&self) -> &[u8]
        ensures { result.now ≡ bytes_of self.now }
    {
        &self.bytes
    }
}

impl Sink for MemSink {
    ghost use Rattle.s80_base.specs.Memory.{bytes_of, puts_made, puts_failed, next_call, SamePuts, RefusesNext};

    ghost taken = { λ s. Some (bytes_of s) };

    ghost told = { λ s. length (bytes_of s) };

    ghost write_faults = { puts_failed };

    ghost put_keeps = { SamePuts };

    fn put(&mut self, piece: &[u8]) -> Result<usize, Failed>
        ensures bound { WritesAtMost result piece.now }
        ensures progress { 0 < length piece.now → IfOk result (λ count. 0 < count) }
        ensures bytes { WriteAppends (Some (bytes_of self.old)) (Some (bytes_of self.new)) result piece.now }
        ensures told { MatchResult result (λ count. length (bytes_of self.new) ≡ length (bytes_of self.old) + count) (λ _. length (bytes_of self.new) ≡ length (bytes_of self.old)) }
        ensures cause { HasCause (puts_failed self.old) (puts_failed self.new) result }
        ensures named { Names Call.Put result }
        ensures keeps { SamePuts self.old self.new }
        ensures whole { IfOk result (λ count. count ≡ length piece.now) }
        ensures counted { puts_made self.new ≡ next_call (puts_made self.old) }
        ensures planned { IsErr result ↔ RefusesNext self.old piece.now }
    {
        self.calls = self.calls.saturating_add(1);
        if self.failing.contains(&self.calls) {
            return Err(fault(&mut self.faults, Call::Put));
        }
        if self.room - self.bytes.len() < piece.len() {
            return Err(fault(&mut self.faults, Call::Put));
        }
        match self.bytes.extend_from_slice(piece) {
            Ok(()) => Ok(piece.len()),
            Err(_) => unreachable!(),
        }
    }
}

/// A clock that stands still.
#[derive(Clone, Copy, Debug, PartialEq, Eq)]
pub struct FixedClock {
    pub seconds: u64,
}

impl Clock for FixedClock {
    ghost seconds = { λ c. Some c.seconds };

    ghost now_keeps = { λ _ _. Unit {0} };

    fn now(&mut self) -> u64 {
        self.seconds
    }
}
