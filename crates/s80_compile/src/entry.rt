// The entries of a frame, each once.
ghost use Rattle.std.specs.Prelude.{◌≡◌, [], ◌∷◌, IfOk, OnOk, MatchResult};
ghost use Rattle.s80_base.specs.Literal.{literal_of, symbol};
ghost use Rattle.s80_code.specs.Entries.{class_variable, constant as constant_entry, entries_of, entry_of, outer};
ghost use Rattle.s80_compile.specs.Emitted.{Finds, HasRoom};
ghost use Rattle.s80_compile.specs.Same.{IsFound, IsNamed, same_entry};

use s80_base::{Literal, OutOfMemory, Text};
use s80_code::{Entry, Frame};
use std::alloc::Global;

/// The number of an entry in the frame, to whose end it is added where it is missing.
pub(crate) fn number_of(frame: &mut Frame, entry: Entry) -> Result<u8, OutOfMemory>
    requires named { IsNamed (entry_of entry) }
    requires room { HasRoom (entries_of frame.old) (entry_of entry ∷ []) }
    ensures { IfOk result (Finds (entry_of entry) (entries_of frame.old) (entries_of frame.new)) }
{
    let count = frame.count();
    match find(frame, &entry) {
        Some(number) => Ok(number as u8),
        None => {
            frame.push(entry)?;
            Ok(count as u8)
        }
    }
}

/// The number of an entry that the frame has.
fn find(frame: &Frame, entry: &Entry) -> Option<usize>
    requires { IsNamed (entry_of entry.now) }
    ensures { IsFound (entries_of frame.now) (entry_of entry.now) result }
{
    for number in 0..frame.count() {
        if same_entry(frame.at(number), entry) {
            return Some(number);
        }
    }
    None
}

pub(crate) fn constant(
    alloc: Global,
    frame: &mut Frame,
    literal: &Literal,
) -> Result<u8, OutOfMemory>
    requires { HasRoom (entries_of frame.old) (constant_entry (literal_of literal.now) ∷ []) }
    ensures { IfOk result (Finds (constant_entry (literal_of literal.now)) (entries_of frame.old) (entries_of frame.new)) }
{
    let copy = literal.copy(alloc)?;
    number_of(frame, Entry::Const(copy))
}

pub(crate) fn selector(alloc: Global, frame: &mut Frame, selector: &Text) -> Result<u8, OutOfMemory>
    requires { HasRoom (entries_of frame.old) (constant_entry (symbol selector.now) ∷ []) }
    ensures { IfOk result (Finds (constant_entry (symbol selector.now)) (entries_of frame.old) (entries_of frame.new)) }
{
    let copy = selector.copy(alloc)?;
    number_of(frame, Entry::Const(Literal::Symbol(copy)))
}

pub(crate) fn class_variable(
    alloc: Global,
    frame: &mut Frame,
    class: &Text,
    word: &Text,
) -> Result<u8, OutOfMemory>
    requires { HasRoom (entries_of frame.old) (class_variable class.now word.now ∷ []) }
    ensures { IfOk result (Finds (class_variable class.now word.now) (entries_of frame.old) (entries_of frame.new)) }
{
    let class = class.copy(alloc)?;
    let word = word.copy(alloc)?;
    number_of(frame, Entry::ClassVar(class, word))
}

pub(crate) fn outer(alloc: Global, frame: &mut Frame, word: &Text) -> Result<u8, OutOfMemory>
    requires { HasRoom (entries_of frame.old) (outer word.now ∷ []) }
    ensures { IfOk result (Finds (outer word.now) (entries_of frame.old) (entries_of frame.new)) }
{
    let word = word.copy(alloc)?;
    number_of(frame, Entry::Outer(word))
}

fn same_entry(a: &Entry, b: &Entry) -> bool
    ensures { result ≡ same_entry (entry_of a.now) (entry_of b.now) }
{
    match a {
        Entry::Const(a) => match b {
            Entry::Const(b) => a.equals(b),
            _ => false,
        },
        Entry::ClassVar(class, word) => match b {
            Entry::ClassVar(other, name) => {
                class.bytes() == other.bytes() && word.bytes() == name.bytes()
            }
            _ => false,
        },
        Entry::Outer(word) => match b {
            Entry::Outer(name) => word.bytes() == name.bytes(),
            _ => false,
        },
        Entry::Owner(..) => false,
        Entry::Extension(_) => false,
    }
}
