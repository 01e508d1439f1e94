// The outside as a program sees it: what is read, what is written and what time it is.
ghost use Rattle.std.specs.Prelude.{◌≡◌, ◌+◌, ◌<◌, List, ℕ, Option, length, IfOk, IfSome, MatchResult};
ghost use Rattle.std.specs.Io.{ReadsAtMost, WritesAtMost};
ghost use Rattle.std.specs.Io.KnownBytes.{ReadConsumes, WriteAppends};
ghost use Rattle.s80_base.specs.Causes.{HasCause, Names};

use thiserror::Error;

/// The kinds of call on the outside that can fail.
#[derive(Clone, Copy, Debug, PartialEq, Eq)]
pub enum Call {
    Attach,
    Length,
    Read,
    Write,
    Cut,
    Sync,
    Take,
    Put,
}

/// A call on the outside failed. Why isn't told: the object that failed counts its faults.
#[derive(Clone, Copy, Debug, PartialEq, Eq, Error)]
#[error("a call on the outside failed: {call:?}")]
pub struct Failed {
    pub call: Call,
}

/// Where input comes from.
pub trait Source {
    /// What is left of the input, where the source tells it.
    ghost left: { Self → Option (List ℕ) };

    /// How often a call has failed. It stands still at `u64::MAX`.
    ghost read_faults: { Self → ℕ };

    /// What else of the object a `take` leaves as it is. A source alone has nothing to say.
    ghost take_keeps: { Self → Self → Type 0 };

    /// The next bytes. 0 for a buffer that isn't empty means the end.
    fn take(&mut self, buf: &mut [u8]) -> Result<usize, Failed>
        ensures bound { ReadsAtMost result buf.new }
        ensures bytes { ReadConsumes (left self.old) (left self.new) result buf.new }
        ensures cause { HasCause (read_faults self.old) (read_faults self.new) result }
        ensures named { Names Call.Take result }
        ensures keeps { take_keeps self.old self.new };
}

/// Where output goes.
pub trait Sink {
    /// The bytes taken, where the sink tells them.
    ghost taken: { Self → Option (List ℕ) };

    /// How many bytes it has taken.
    ghost told: { Self → ℕ };

    /// How often a call has failed. It stands still at `u64::MAX`.
    ghost write_faults: { Self → ℕ };

    /// What else of the object a `put` leaves as it is.
    ghost put_keeps: { Self → Self → Type 0 };

    /// Takes the front of a piece, at least one byte of one that isn't empty, or fails and takes nothing.
    fn put(&mut self, piece: &[u8]) -> Result<usize, Failed>
        ensures bound { WritesAtMost result piece.now }
        ensures progress { 0 < length piece.now → IfOk result (λ count. 0 < count) }
        ensures bytes { WriteAppends (taken self.old) (taken self.new) result piece.now }
        ensures told { MatchResult result (λ count. told self.new ≡ told self.old + count) (λ _. told self.new ≡ told self.old) }
        ensures cause { HasCause (write_faults self.old) (write_faults self.new) result }
        ensures named { Names Call.Put result }
        ensures keeps { put_keeps self.old self.new };
}

/// What time it is.
pub trait Clock {
    /// The seconds that every call answers, where the clock tells them.
    ghost seconds: { Self → Option ℕ };

    /// What else of the object a `now` leaves as it is.
    ghost now_keeps: { Self → Self → Type 0 };

    /// Seconds since 1970 in UTC.
    fn now(&mut self) -> u64
        ensures told { IfSome (seconds self.old) (λ told. result ≡ told) }
        ensures same { seconds self.new ≡ seconds self.old }
        ensures keeps { now_keeps self.old self.new };
}
