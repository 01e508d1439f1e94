// Lists of keys.
ghost use Rattle.std.specs.Prelude.{◌≡◌, ◌<◌, ◌++◌, ◌∷◌, [], length, slice_get, Some, IfOk, OnOk, OnErr};
ghost use Rattle.s80_merge.specs.Touched.{class_keys};

use crate::key::Key;
use s80_base::{OutOfMemory, Text};
use std::alloc::Global;
use std::marker::Model;

/// A list of keys. Contracts see the list.
#[derive(Debug, Drop)]
pub struct Keys {
    items: Vec<Key>,
}

impl Model for Keys {
    ghost use Rattle.std.specs.Prelude.{List};
    ghost use Rattle.s80_merge.specs.declared.key.Key.{Key};

    ghost Value = { List Key };

    ghost view = { λ k. k.items.items };
}

impl Keys {
    pub(crate) fn empty(alloc: Global) -> Self
        ensures { result ≡ [] }
    {
        Keys {
            items: Vec::new(alloc),
        }
    }

    pub(crate) fn one(alloc: Global, key: Key) -> Result<Self, OutOfMemory>
        ensures { IfOk result (λ keys. keys ≡ key ∷ []) }
    {
        let mut keys = Keys::empty(alloc);
        keys.push(key)?;
        Ok(keys)
    }

    /// Those of a class: that it is there, and how it is defined.
    pub(crate) fn of_class(alloc: Global, name: &Text) -> Result<Self, OutOfMemory>
        ensures { IfOk result (λ keys. keys ≡ class_keys name.now) }
    {
        let mut keys = Keys::empty(alloc);
        keys.push_class(alloc, name)?;
        Ok(keys)
    }

    /// Adds a key at the end.
    pub(crate) fn push(&mut self, key: Key) -> Result<(), OutOfMemory>
        ensures { OnOk result (self.new ≡ self.old ++ key ∷ []) }
    {
        self.items.push(key)?;
        Ok(())
    }

    /// Adds those of a class at the end.
    pub(crate) fn push_class(&mut self, alloc: Global, name: &Text) -> Result<(), OutOfMemory>
        ensures { OnOk result (self.new ≡ self.old ++ class_keys name.now) }
    {
        self.push(Key::ClassKey(name.copy(alloc)?))?;
        self.push(Key::DefinitionKey(name.copy(alloc)?))
    }

    pub fn count(&self) -> usize
        ensures { result ≡ length self.now }
    {
        self.items.len()
    }

    pub fn at(&self, i: usize) -> &Key
        requires { i < length self.now }
        ensures { slice_get self.now i ≡ Some result.now }
    {
        &self.items[i]
    }

    /// The keys as they are kept. Takes no memory.
    pub(crate) fn into_vec(self) -> Vec<Key>
        ensures { result.items ≡ self }
    {
        self.items
    }
}
