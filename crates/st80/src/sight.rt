// What somebody is told who sees standard error, beside the line of a status.
ghost use Rattle.std.specs.Io.{ReadsAtMost};
ghost use Rattle.std.specs.Io.KnownBytes.{ReadConsumes};

use crate::places::{Places, Telling};
use crate::progress::{Progress, Seen};
use s80_disk::read_some;
use std::alloc::Global;
use std::io::{self, Read};
use std::rt::Clock as SystemClock;

/// Places, prompts, and how far a run is.
#[derive(Drop)]
pub(crate) struct Sight {
    /// Where items stand, if places are to be told. Then the input is given byte by byte.
    places: Option<Places>,
    /// How far the run is, if a terminal is to be told.
    progress: Option<Progress>,
}

impl Sight {
    pub(crate) fn make<R: SystemClock>(
        alloc: Global,
        clock: &R,
        telling: Telling,
        seen: Option<Seen>,
    ) -> Sight {
        let progress = match seen {
            Some(seen) => Progress::make(clock, seen == Seen::WithOutput),
            None => None,
        };
        let places = match telling {
            Telling::Nothing => None,
            Telling::Places => Some(Places::make(alloc, true, false)),
            Telling::Prompts => Some(Places::make(alloc, false, true)),
            Telling::PlacesAndPrompts => Some(Places::make(alloc, true, true)),
        };
        Sight { places, progress }
    }

    /// So many bytes of the folder's files were read.
    pub(crate) fn count_read(&mut self, count: usize) {
        if let Some(progress) = &mut self.progress {
            progress.read = progress.read.saturating_add(count as u64);
        }
    }

    /// So many are to be written.
    pub(crate) fn count_written(&mut self, count: usize) {
        if let Some(progress) = &mut self.progress {
            progress.written = progress.written.saturating_add(count as u64);
        }
    }

    /// Tells a terminal how far the run is, where it is long.
    pub(crate) fn tell_progress<R: Eprint + SystemClock>(&mut self, rt: &R) {
        let Some(progress) = &mut self.progress else {
            return;
        };
        if !progress.is_due(rt) {
            return;
        }
        let (read, taken, written) = (progress.read, progress.taken, progress.written);
        let items = match &self.places {
            Some(places) => places.items(),
            None => 0,
        };
        let _ = eprint!(rt;
            "\r\x1b[Kst80: {items} items of {taken} bytes, {read} bytes read, {written} written"
        );
    }

    /// Takes away what a terminal was told of the run.
    pub(crate) fn clear<R: Eprint>(&mut self, rt: &R) {
        let Some(progress) = &mut self.progress else {
            return;
        };
        if progress.gives_way() {
            let _ = eprint!(rt; "\r\x1b[K");
        }
    }

    /// The same before standard output goes to that terminal.
    pub(crate) fn clear_for_output<R: Eprint>(&mut self, rt: &R) {
        let shares = match &self.progress {
            Some(progress) => progress.shares,
            None => false,
        };
        if shares {
            self.clear(rt);
        }
    }

    /// Tells the place of an item that this reply refuses or stops.
    pub(crate) fn explain<R: Eprint>(&mut self, rt: &R, reply: &[u8]) {
        let Some(places) = &mut self.places else {
            return;
        };
        let Some(told) = places.told(reply) else {
            return;
        };
        self.clear(rt);
        let (row, column) = (told.place.line, told.place.column);
        let line = str::from_utf8(told.line).unwrap_or("");
        let _ = eprintln!(rt; "st80: line {row}, column {column}: {line}");
        if let Some(hint) = told.hint {
            let _ = eprintln!(rt; "st80: {hint}");
        }
    }

    /// The next bytes of the input, or the next byte where places are told.
    pub(crate) fn read<R: Eprint + SystemClock, F: Read>(
        &mut self,
        rt: &R,
        reader: &mut F,
        buf: &mut [u8],
    ) -> io::Result<usize>
        ensures bound { ReadsAtMost result buf.new }
        ensures bytes { ReadConsumes (F.remaining reader.old) (F.remaining reader.new) result buf.new }
    {
        self.tell_before_input(rt);
        let count = match &mut self.places {
            Some(places) => places.take(reader, buf)?,
            None => read_some(reader, buf)?,
        };
        if let Some(progress) = &mut self.progress {
            progress.taken = progress.taken.saturating_add(count as u64);
        }
        Ok(count)
    }

    /// Asks for a line, or tells how far the run is. Who types sees that by the prompts.
    fn tell_before_input<R: Eprint + SystemClock>(&mut self, rt: &R) {
        let asks = match &self.places {
            Some(places) => places.asks(),
            None => false,
        };
        if asks {
            self.clear(rt);
            self.progress = None;
        }
        self.tell_progress(rt);
        if let Some(places) = &self.places {
            if let Some(prompt) = places.prompt() {
                let _ = eprint!(rt; "{prompt}");
            }
        }
    }
}
