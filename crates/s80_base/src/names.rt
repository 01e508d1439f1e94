// Lists of texts, and the two sides of a class.
ghost use Rattle.std.specs.Prelude.{◌≡◌, ◌<◌, ◌++◌, ◌∷◌, [], length, slice_get, Some, IfOk, OnOk, OnErr};

use crate::text::{OutOfMemory, Text};
use std::alloc::Global;
use std::marker::Model;

/// The instance side or the class side of a class.
#[derive(Clone, Copy, Debug, PartialEq, Eq)]
pub enum Side {
    Instance,
    Class,
}

/// A list of texts, as the variables of a class. Contracts see the list.
#[derive(Debug, Drop)]
pub struct Names {
    names: Vec<Text>,
}

impl Model for Names {
    ghost use Rattle.std.specs.Prelude.{List, ℕ};

    ghost Value = { List (List ℕ) };

    ghost view = { λ n. n.names.items };
}

impl Names {
    pub fn empty(alloc: Global) -> Self
        ensures { result ≡ [] }
    {
        Names {
            names: Vec::new(alloc),
        }
    }

    /// Adds a name at the end. When out of memory, the list is as before.
    pub fn push(&mut self, name: Text) -> Result<(), OutOfMemory>
        ensures ok { OnOk result (self.new ≡ self.old ++ name ∷ []) }
        ensures err { OnErr result (self.new ≡ self.old) }
    {
        self.names.push(name)?;
        Ok(())
    }

    pub fn copy(&self, alloc: Global) -> Result<Self, OutOfMemory>
        ensures { IfOk result (λ names. names ≡ self.now) }
    {
        let mut copy = Names::empty(alloc);
        for name in &self.names {
            copy.push(name.copy(alloc)?)?;
        }
        Ok(copy)
    }

    pub fn count(&self) -> usize
        ensures { result ≡ length self.now }
    {
        self.names.len()
    }

    pub fn at(&self, i: usize) -> &Text
        requires { i < length self.now }
        ensures { slice_get self.now i ≡ Some result.now }
    {
        &self.names[i]
    }
}
