// The literals that are objects.
ghost use Rattle.std.specs.Prelude.{◌≡◌, ◌+◌, ◌*◌, ◌∷◌, ◌++◌, [], None, OnErr, OnOk, find, option_map};
ghost use Rattle.s80_object.specs.Literal.{is_made_at};

use crate::value::Value;
use indexmap::IndexMap;
use s80_base::OutOfMemory;
use std::alloc::Global;
use std::marker::Model;

/// The literals that are objects, by the method and the entry that they stand in.
#[derive(Debug, Drop)]
pub(crate) struct Pushes {
    // By 256 times the method's number, plus the entry's.
    values: IndexMap<u64, Value>,
}

impl Model for Pushes {
    ghost use Rattle.std.specs.Prelude.{List, map as list_map};
    ghost use Rattle.s80_object.specs.Objects.{Made};
    ghost use Rattle.s80_object.specs.Seen.{made_of};

    ghost Value = { List Made };

    ghost view = { λ p. list_map made_of p.values.entries };
}

impl Pushes {
    pub(crate) fn empty(alloc: Global) -> Self
        ensures { result ≡ [] }
    {
        Pushes {
            values: IndexMap::new(alloc),
        }
    }

    pub(crate) fn get(&self, method: u32, entry: u8) -> Option<Value>
        ensures { result ≡ option_map (λ m. m.value) (find (is_made_at method entry) self.now) }
    {
        self.values.get(&key(method, entry)).copied()
    }

    pub(crate) fn push(&mut self, method: u32, entry: u8, value: Value) -> Result<(), OutOfMemory>
        requires { option_map (λ m. m.value) (find (is_made_at method entry) self.old) ≡ None }
        ensures ok { OnOk result (self.new ≡ self.old ++ record { method = method; entry = entry; value = value } ∷ []) }
        ensures err { OnErr result (self.new ≡ self.old) }
    {
        self.values.insert(key(method, entry), value)?;
        Ok(())
    }
}

fn key(method: u32, entry: u8) -> u64
    ensures { result ≡ method * 256 + entry }
{
    u64::from(method) * 256 + u64::from(entry)
}
