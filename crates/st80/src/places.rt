// Places in the input: where what is refused or stopped stands, for whoever sits at a terminal or asks for it.
ghost use Rattle.std.specs.Io.{ReadsAtMost};
ghost use Rattle.std.specs.Io.KnownBytes.{ReadConsumes};

use memchr::memmem;
use s80_base::is_separator;
use s80_disk::read_some;
use std::alloc::Global;
use std::io::{self, Read};
use std::mem;

/// How many bytes of an item are remembered: more than the longest text has with each mark doubled.
const REMEMBERED: usize = 1 << 18;

/// What standard error is told beside the line of a status.
#[derive(Clone, Copy, PartialEq)]
pub enum Telling {
    Nothing,
    /// The place of each item that is refused or stopped.
    Places,
    /// Prompts to somebody who types.
    Prompts,
    /// Places and prompts.
    PlacesAndPrompts,
}

impl Telling {
    /// The same, but for places.
    pub(crate) fn without_places(self) -> Telling {
        match self {
            Telling::Nothing | Telling::Places => Telling::Nothing,
            Telling::Prompts | Telling::PlacesAndPrompts => Telling::Prompts,
        }
    }
}

/// What is told of an item that is refused or stopped.
#[derive(Clone, Copy)]
pub(crate) struct Told<'r> {
    pub place: Place,
    /// The last line of its reply.
    pub line: &'r [u8],
    pub hint: Option<&'static str>,
}

/// A line and a column of the input, from 1 on. A line ends with CR, LF or both, and columns count characters.
#[derive(Clone, Copy)]
pub(crate) struct Place {
    pub line: u64,
    pub column: u64,
    /// It stands behind a CR, so that an LF begins no line more.
    returned: bool,
}

impl Place {
    fn first() -> Place {
        Place {
            line: 1,
            column: 1,
            returned: false,
        }
    }

    /// The place behind this byte.
    fn behind(self, byte: u8) -> Place {
        let returned = byte == b'\r';
        match byte {
            b'\n' if self.returned => Place { returned, ..self },
            b'\n' | b'\r' => Place {
                line: self.line.saturating_add(1),
                column: 1,
                returned,
            },
            // The bytes of a character behind its first.
            0x80..=0xBF => Place { returned, ..self },
            _ => Place {
                column: self.column.saturating_add(1),
                returned,
                ..self
            },
        }
    }
}

/// An item of the input: where its text begins, and its bytes from there on, as far as they are remembered.
#[derive(Drop)]
struct Item {
    start: Place,
    bytes: Vec<u8>,
}

impl Item {
    /// One whose text is to begin here.
    fn at(alloc: Global, start: Place) -> Item {
        Item {
            start,
            bytes: Vec::new(alloc),
        }
    }

    /// The place behind so many bytes of its text, in which each doubled mark is one, and the byte there, if there is one.
    fn place_at(&self, count: u64) -> (Place, Option<u8>) {
        let mut place = self.start;
        let mut left = count;
        let mut marked = false;
        for byte in self.bytes.iter() {
            let is_second = marked && *byte == b'!';
            marked = *byte == b'!' && !is_second;
            if left == 0 && !is_second {
                return (place, Some(*byte));
            }
            left = left.saturating_sub(u64::from(!is_second));
            place = place.behind(*byte);
        }
        (place, None)
    }
}

/// Reads the input byte by byte, and remembers where the last item stands.
#[derive(Drop)]
pub(crate) struct Places {
    now: Place,
    item: Item,
    /// The item's text has begun.
    begun: bool,
    /// It stands behind a mark of the text that may be the first of two.
    marked: bool,
    /// The item that ended last, to which replies belong until the next one ends.
    ended: Item,
    /// Some item ended, of which no place is told yet.
    is_due: bool,
    /// How many items ended.
    count: u64,
    /// Places are told.
    tells: bool,
    /// A line is asked for by a prompt.
    prompts: bool,
}

impl Places {
    pub(crate) fn make(alloc: Global, tells: bool, prompts: bool) -> Places {
        Places {
            now: Place::first(),
            item: Item::at(alloc, Place::first()),
            begun: false,
            marked: false,
            ended: Item::at(alloc, Place::first()),
            is_due: false,
            count: 0,
            tells,
            prompts,
        }
    }

    /// Whether lines are asked for.
    pub(crate) fn asks(&self) -> bool {
        self.prompts
    }

    /// How many items ended so far.
    pub(crate) fn items(&self) -> u64 {
        self.count
    }

    /// What asks for a line, where one begins and somebody types: at the beginning of the input, of a chunk, or inside one.
    pub(crate) fn prompt(&self) -> Option<&'static str> {
        if !self.prompts || self.now.column != 1 {
            return None;
        }
        Some(match (self.now.line, self.begun) {
            (1, _) =>
                "st80: a chunk ends with !, a section of methods with ! !, and the input with Ctrl-D\nst80> ",
            (_, false) => "st80> ",
            (_, true) => "...> ",
        })
    }

    /// The next byte: no item is read before the one ahead of it is answered.
    pub(crate) fn take<F: Read>(&mut self, reader: &mut F, buf: &mut [u8]) -> io::Result<usize>
        ensures bound { ReadsAtMost result buf.new }
        ensures bytes { ReadConsumes (F.remaining reader.old) (F.remaining reader.new) result buf.new }
    {
        let count = read_byte(reader, buf)?;
        match buf[..count].first() {
            Some(byte) => self.step(*byte),
            None => self.end_item(),
        }
        Ok(count)
    }

    /// Goes on behind a byte.
    fn step(&mut self, byte: u8) {
        if self.marked && byte != b'!' {
            self.end_item();
        }
        self.marked = self.begun && byte == b'!' && !self.marked;
        if !self.begun && !is_separator(byte) {
            self.item.start = self.now;
            self.begun = byte != b'!';
        }
        if self.begun && self.item.bytes.len() < REMEMBERED {
            // Where memory is wanting the rest of the item has no places of its own.
            let _ = self.item.bytes.push(byte);
        }
        self.now = self.now.behind(byte);
    }

    /// What was read last is an item.
    fn end_item(&mut self) {
        mem::swap(&mut self.ended, &mut self.item);
        self.item.bytes.clear();
        self.item.start = self.now;
        self.begun = false;
        self.marked = false;
        self.is_due = true;
        self.count = self.count.saturating_add(1);
    }

    /// The last line of a reply with its place, if it is a refusal or a stop of an item whose place isn't told yet.
    pub(crate) fn told<'r>(&mut self, reply: &'r [u8]) -> Option<Told<'r>> {
        let line = last_line(reply);
        if !self.tells || !self.is_due || !is_trouble(line) {
            return None;
        }
        self.is_due = false;
        let (place, byte) = match fault_in(line) {
            Some(count) => self.ended.place_at(count),
            None => (self.ended.start, None),
        };
        Some(Told {
            place,
            line,
            hint: hint(line, byte),
        })
    }
}

/// Reads the next byte into the front of a buffer that has room, if one is left.
fn read_byte<F: Read>(reader: &mut F, buf: &mut [u8]) -> io::Result<usize>
    ensures bound { ReadsAtMost result buf.new }
    ensures bytes { ReadConsumes (F.remaining reader.old) (F.remaining reader.new) result buf.new }
{
    let room = buf.len().min(1);
    read_some(reader, &mut buf[..room])
}

fn last_line(reply: &[u8]) -> &[u8] {
    let lines = reply.strip_suffix(b"\n").unwrap_or(reply);
    lines.rsplit(|byte| *byte == b'\n').next().unwrap_or(lines)
}

fn is_trouble(line: &[u8]) -> bool {
    line.starts_with(b"refused ") || line.starts_with(b"stopped ")
}

/// What is often behind such a refusal or stop: one of the slips of files that were written by hand or by other systems. The byte is the one where
/// the text is at fault.
fn hint(line: &[u8], fault: Option<u8>) -> Option<&'static str> {
    if line.starts_with(b"refused 13 ")
        && (has(line, b" stamp: ") || has(line, b" commentStamp: "))
    {
        return Some("perhaps the file comes from Squeak or Pharo, whose heads have stamps");
    }
    if line.starts_with(b"refused 2 unended-token ") && matches!(fault, Some(b'\'' | b'"')) {
        return Some("perhaps a ! inside it isn't doubled");
    }
    if line.starts_with(b"stopped 2 ") && line.ends_with(b" methodsFor:") {
        return Some("perhaps the section before it has no ! ! at its end");
    }
    None
}

fn has(line: &[u8], part: &[u8]) -> bool {
    memmem::find(line, part).is_some()
}

/// The place in the text that a refusal names, as in `refused 2 unexpected at 44`.
fn fault_in(line: &[u8]) -> Option<u64> {
    if !line.starts_with(b"refused 2 ") {
        return None;
    }
    let word = line.rsplit(|byte| *byte == b' ').next()?;
    str::from_utf8(word).ok()?.parse().ok()
}
