// How far a long run is, for whoever sees it.
use std::rt::Clock as SystemClock;
use std::time::{Duration, Instant};

/// For how many seconds nothing is told at first, and then between two lines.
const PAUSE: u64 = 1;

/// Who sees standard error.
#[derive(Clone, Copy, PartialEq)]
pub enum Seen {
    /// A terminal that standard output doesn't go to.
    Alone,
    /// One that standard output goes to as well.
    WithOutput,
}

/// What a run has read, taken and written so far, which a terminal is told from time to time on one line.
#[derive(Drop)]
pub(crate) struct Progress {
    /// When it was told last; before that, when the run began.
    last: Instant,
    /// A line stands there.
    is_shown: bool,
    /// Standard output is that terminal too.
    pub shares: bool,
    /// Bytes of the folder's files.
    pub read: u64,
    pub written: u64,
    /// Bytes of the input.
    pub taken: u64,
}

impl Progress {
    /// One that begins now, if there is a clock.
    pub(crate) fn make<R: SystemClock>(clock: &R, shares: bool) -> Option<Progress> {
        Some(Progress {
            last: Instant::now(clock).ok()?,
            is_shown: false,
            shares,
            read: 0,
            written: 0,
            taken: 0,
        })
    }

    /// Whether the line is to be told anew, which it is then.
    pub(crate) fn is_due<R: SystemClock>(&mut self, clock: &R) -> bool {
        let Ok(now) = Instant::now(clock) else {
            return false;
        };
        if now.saturating_duration_since(self.last) < Duration::from_secs(PAUSE) {
            return false;
        }
        self.last = now;
        self.is_shown = true;
        true
    }

    /// Whether a line stands there that something else is to take the place of.
    pub(crate) fn gives_way(&mut self) -> bool {
        let was_shown = self.is_shown;
        self.is_shown = false;
        was_shown
    }
}
