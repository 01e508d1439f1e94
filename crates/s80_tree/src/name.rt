// Names with their places.
ghost use Rattle.std.specs.Prelude.{◌≡◌, ◌<◌, ◌++◌, ◌∷◌, [], length, slice_get, Some, OnOk, OnErr};
ghost use Rattle.s80_tree.specs.Name.{names_of};

use s80_base::{OutOfMemory, Text};
use std::alloc::Global;

/// A name, and the place of its first byte in the text.
#[derive(Debug, Drop)]
pub struct NameAt {
    pub name: Text,
    pub at: u32,
}

/// A list of names with their places.
#[derive(Debug, Drop)]
pub struct NamesAt {
    pub items: Vec<NameAt>,
}

impl NamesAt {
    pub fn empty(alloc: Global) -> Self
        ensures { names_of result ≡ [] }
    {
        NamesAt {
            items: Vec::new(alloc),
        }
    }

    /// Adds a name at the end. When out of memory, the list is as before.
    pub fn push(&mut self, name: NameAt) -> Result<(), OutOfMemory>
        ensures ok { OnOk result (names_of self.new ≡ names_of self.old ++ name ∷ []) }
        ensures err { OnErr result (names_of self.new ≡ names_of self.old) }
    {
        self.items.push(name)?;
        Ok(())
    }

    pub fn count(&self) -> usize
        ensures { result ≡ length (names_of self.now) }
    {
        self.items.len()
    }

    pub fn at(&self, i: usize) -> &NameAt
        requires { i < length (names_of self.now) }
        ensures { slice_get (names_of self.now) i ≡ Some result.now }
    {
        &self.items[i]
    }
}
