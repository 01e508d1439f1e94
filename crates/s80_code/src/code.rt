// Code as data: the header, the literal frame and the bytes.
ghost use Rattle.std.specs.Prelude.{◌≡◌, ◌<◌, ◌++◌, ◌∷◌, [], length, slice_get, Some, OnOk, OnErr};
ghost use Rattle.s80_code.specs.Entries.{entry_of, entries_of};

use s80_base::{Literal, OutOfMemory, Side, Text};
use std::alloc::Global;

/// An entry of a literal frame.
#[derive(Debug, Drop)]
pub enum Entry {
    Const(Literal),
    /// A class variable, by its class and its name.
    ClassVar(Text, Text),
    /// A variable outside all classes.
    Outer(Text),
    /// The class and the side of the method, where a message goes to super.
    Owner(Text, Side),
    /// The arguments times 256, and the primitive.
    Extension(u32),
}

/// The literal frame of a code: a list of entries.
#[derive(Debug, Drop)]
pub struct Frame {
    pub items: Vec<Entry>,
}

impl Frame {
    pub fn empty(alloc: Global) -> Self
        ensures { entries_of result ≡ [] }
    {
        Frame {
            items: Vec::new(alloc),
        }
    }

    /// Adds an entry at the end. When out of memory, the frame is as before.
    pub fn push(&mut self, entry: Entry) -> Result<(), OutOfMemory>
        ensures ok { OnOk result (entries_of self.new ≡ entries_of self.old ++ entry_of entry ∷ []) }
        ensures err { OnErr result (entries_of self.new ≡ entries_of self.old) }
    {
        self.items.push(entry)?;
        Ok(())
    }

    pub fn count(&self) -> usize
        ensures { result ≡ length (entries_of self.now) }
    {
        self.items.len()
    }

    pub fn at(&self, i: usize) -> &Entry
        requires { i < length (entries_of self.now) }
        ensures { slice_get (entries_of self.now) i ≡ Some (entry_of result.now) }
    {
        &self.items[i]
    }
}

/// The code of a method or a doIt, as the Blue Book has it. Not every value of it can be run.
#[derive(Debug, Drop)]
pub struct Code {
    /// 0 to 4 is the number of arguments, of code without a primitive; 7 says that an extension has both.
    pub flag: u8,
    pub arguments: u8,
    /// 0 for none.
    pub primitive: u8,
    pub temporaries: u8,
    /// Whether a context of it has the larger room.
    pub large: bool,
    pub literals: Frame,
    pub bytes: Text,
}
