// Lists of changes.
ghost use Rattle.std.specs.Prelude.{◌≡◌, ◌<◌, ◌++◌, ◌∷◌, [], length, slice_get, Some, OnOk, OnErr};

use crate::change::Change;
use s80_base::OutOfMemory;
use std::alloc::Global;
use std::marker::Model;

/// A list of changes. Contracts see the list.
#[derive(Debug, Drop)]
pub struct Changes {
    changes: Vec<Change>,
}

impl Model for Changes {
    ghost use Rattle.std.specs.Prelude.{List};
    ghost use Rattle.s80_change.specs.declared.change.Change.{Change};

    ghost Value = { List Change };

    ghost view = { λ c. c.changes.items };
}

impl Changes {
    pub fn empty(alloc: Global) -> Self
        ensures { result ≡ [] }
    {
        Changes {
            changes: Vec::new(alloc),
        }
    }

    /// Adds a change at the end. When out of memory, the list is as before.
    pub fn push(&mut self, change: Change) -> Result<(), OutOfMemory>
        ensures ok { OnOk result (self.new ≡ self.old ++ change ∷ []) }
        ensures err { OnErr result (self.new ≡ self.old) }
    {
        self.changes.push(change)?;
        Ok(())
    }

    pub fn count(&self) -> usize
        ensures { result ≡ length self.now }
    {
        self.changes.len()
    }

    pub fn at(&self, i: usize) -> &Change
        requires { i < length self.now }
        ensures { slice_get self.now i ≡ Some result.now }
    {
        &self.changes[i]
    }

    /// The changes, the oldest first. Takes no memory.
    pub fn into_vec(self) -> Vec<Change>
        ensures { result.items ≡ self }
    {
        self.changes
    }
}
