// Sets of keys.
ghost use Rattle.std.specs.Prelude.{◌≡◌, ◌||◌, ◌&&◌, [], IfOk, OnOk};
ghost use Rattle.std.specs.List.Sorted.{IsStrictlySortedBy};
ghost use Rattle.s80_merge.specs.declared.key.Key.{Key as KeyOf};
ghost use Rattle.s80_merge.specs.Order.{has, key_cmp, same_key};

use crate::key::Key;
use crate::keys::Keys;
use s80_base::OutOfMemory;
use std::alloc::Global;
use std::collections::BTreeSet;
use std::marker::Model;

/// Keys, each once, among which one is found at little cost. Contracts see them in their order.
#[derive(Drop)]
pub(crate) struct KeySet {
    items: BTreeSet<Key>,
}

impl Model for KeySet {
    ghost use Rattle.std.specs.Prelude.{List};
    ghost use Rattle.s80_merge.specs.declared.key.Key.{Key};

    ghost Value = { List Key };

    ghost view = { λ s. s.items.keys };
}

impl KeySet {
    pub(crate) fn empty(alloc: Global) -> Self
        ensures { result ≡ [] }
    {
        KeySet {
            items: BTreeSet::new(alloc),
        }
    }

    /// Adds a key, where it isn't there.
    pub(crate) fn insert(&mut self, key: Key) -> Result<(), OutOfMemory>
        ensures { OnOk result ((other : KeyOf) → has other self.new ≡ (has other self.old || same_key other key)) }
    {
        self.items.insert(key)?;
        Ok(())
    }

    /// Adds the keys that aren't there.
    pub(crate) fn add(&mut self, keys: Keys) -> Result<(), OutOfMemory>
        ensures { OnOk result ((other : KeyOf) → has other self.new ≡ (has other self.old || has other keys)) }
    {
        for key in keys.into_vec() {
            self.insert(key)?;
        }
        Ok(())
    }

    /// Whether a key is there. Takes no memory.
    pub(crate) fn contains(&self, key: &Key) -> bool
        ensures { result ≡ has key.now self.now }
    {
        self.items.contains(key)
    }

    /// The keys in their order.
    pub(crate) fn listed(&self, alloc: Global) -> Result<Keys, OutOfMemory>
        ensures same { IfOk result (λ keys. keys ≡ self.now) }
        ensures ascending { IfOk result (λ keys. IsStrictlySortedBy key_cmp keys) }
    {
        let mut keys = Keys::empty(alloc);
        for key in &self.items {
            keys.push(key.copy(alloc)?)?;
        }
        Ok(keys)
    }
}
