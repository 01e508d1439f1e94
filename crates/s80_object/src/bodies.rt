// The bodies of a doIt with their words.
ghost use Rattle.std.specs.Prelude.{◌≡◌, ◌+◌, ◌≤◌, ◌<◌, ◌∷◌, ◌++◌, [], ℕ, IfErr, IfOk, IfSome, OnErr, OnOk, Err, length, option_copied, option_map, slice_get, take};
ghost use Rattle.std.specs.Option.{option_map_or};
ghost use Rattle.s80_object.specs.declared.value.ObjectFault.TheVariants.{Full, Kind};
ghost use Rattle.s80_object.specs.declared.value.Value.TheVariants.{Object};
ghost use Rattle.s80_object.specs.Body.{cost as cost_of, words_of, word_limit};
ghost use Rattle.s80_object.specs.Objects.{field_put, item_put};
ghost use Rattle.s80_object.specs.Seen.{tree_of};
ghost use Rattle.s80_object.specs.Steps.{IsPutAt};

use crate::body::Body;
use crate::value::{ObjectFault, Value};
use s80_base::OutOfMemory;
use std::alloc::Global;
use std::marker::Model;

const WORD_LIMIT: u64 = 1 << 20;

/// The bodies in the order in which they are made. At most 2^20 words are held.
#[derive(Debug, Drop)]
pub(crate) struct Bodies {
    list: Vec<Body>,
    words: u64,
}

impl Model for Bodies {
    ghost use Rattle.std.specs.Prelude.{List, map as list_map};
    ghost use Rattle.s80_object.specs.Body.{BodyTree};
    ghost use Rattle.s80_object.specs.Seen.{AreCounted, tree_of};

    ghost Value = { List BodyTree };

    ghost view = { λ b. list_map tree_of b.list.items };

    ghost invariant = { λ b. AreCounted (list_map tree_of b.list.items) b.words };
}

impl Bodies {
    pub(crate) fn empty(alloc: Global) -> Self
        ensures { result ≡ [] }
    {
        Bodies {
            list: Vec::new(alloc),
            words: 0,
        }
    }

    pub(crate) fn words(&self) -> u64
        ensures words { result ≡ words_of self.now }
        ensures limit { result ≤ word_limit }
    {
        self.words
    }

    pub(crate) fn count(&self) -> usize
        ensures { result ≡ length self.now }
    {
        self.list.len()
    }

    /// How many words there is room for.
    pub(crate) fn room(&self) -> u64
        ensures { words_of self.now + result ≡ word_limit }
    {
        WORD_LIMIT - self.words
    }

    /// Whether there is room for so many words.
    pub(crate) fn check(&self, cost: u64) -> Result<(), ObjectFault>
        ensures ok { OnOk result (words_of self.now + cost ≤ word_limit) }
        ensures err { IfErr result (λ fault. (fault ≡ Full (words_of self.now)) × (word_limit < words_of self.now + cost)) }
    {
        if cost > self.room() {
            return Err(ObjectFault::Full(self.words));
        }
        Ok(())
    }

    pub(crate) fn get(&self, n: u32) -> Option<&Body>
        ensures body { option_map tree_of (option_copied result) ≡ slice_get self.now n }
        ensures small { IfSome result (λ b. cost_of (tree_of b.now) ≤ word_limit) }
    {
        self.list.get(n as usize)
    }

    pub(crate) fn push(&mut self, body: Body) -> Result<Value, OutOfMemory>
        requires { words_of self.old + cost_of (tree_of body) ≤ word_limit }
        ensures ok { IfOk result (λ v. (v ≡ Object (length self.old)) × (self.new ≡ self.old ++ tree_of body ∷ [])) }
        ensures err { OnErr result (self.new ≡ self.old) }
    {
        let number = self.list.len() as u32;
        let cost = body.cost();
        self.list.push(body)?;
        self.words += cost;
        Ok(Value::Object(number))
    }

    pub(crate) fn set_field(&mut self, n: u32, i: u32, to: Value) -> Result<(), ObjectFault>
        ensures { IsPutAt (option_map_or (λ b. field_put b i to) (slice_get self.old n) (Err Kind)) self.old n self.new result }
    {
        let Some(body) = self.list.get_mut(n as usize) else {
            return Err(ObjectFault::Kind);
        };
        body.set_field(i, to)
    }

    pub(crate) fn set_item(&mut self, n: u32, i: u32, to: Value) -> Result<(), ObjectFault>
        ensures { IsPutAt (option_map_or (λ b. item_put b i to) (slice_get self.old n) (Err Kind)) self.old n self.new result }
    {
        let Some(body) = self.list.get_mut(n as usize) else {
            return Err(ObjectFault::Kind);
        };
        body.set_item(i, to)
    }

    /// Leaves the first bodies, which cost so many words.
    pub(crate) fn truncate(&mut self, count: usize, words: u64)
        requires { words ≡ words_of (take count self.old) }
        ensures { self.new ≡ take count self.old }
    {
        self.list.truncate(count);
        self.words = words;
    }
}
