// Texts by their numbers in order of first use.
ghost use Rattle.std.specs.Prelude.{◌≡◌, [], IfOk, OnErr, length, option_copied, slice_get, take};
ghost use Rattle.std.specs.List.{position_or_len};
ghost use Rattle.std.specs.Str.{bytes_eq};
ghost use Rattle.s80_object.specs.Literal.{added_once};

use indexmap::IndexSet;
use s80_base::OutOfMemory;
use std::alloc::Global;
use std::marker::Model;

/// Texts, each once, by their numbers in order of first use.
#[derive(Debug, Drop)]
pub(crate) struct Texts {
    texts: IndexSet<Vec<u8>>,
}

impl Model for Texts {
    ghost use Rattle.std.specs.Prelude.{List, ℕ, map as list_map};
    ghost use Rattle.s80_object.specs.Seen.{AreNamed};

    ghost Value = { List (List ℕ) };

    ghost view = { λ t. list_map (λ k. k.items) t.texts.keys };

    ghost invariant = { λ t. AreNamed t.texts.keys };
}

impl Texts {
    pub(crate) fn empty(alloc: Global) -> Self
        ensures { result ≡ [] }
    {
        Texts {
            texts: IndexSet::new(alloc),
        }
    }

    pub(crate) fn count(&self) -> usize
        ensures { result ≡ length self.now }
    {
        self.texts.len()
    }

    pub(crate) fn get(&self, n: u32) -> Option<&[u8]>
        ensures { option_copied result ≡ slice_get self.now n }
    {
        Some(self.texts.get_index(n as usize)?.as_slice())
    }

    /// The number of a text, which is added where it isn't there. When out of memory, nothing is changed.
    pub(crate) fn number(&mut self, alloc: Global, text: &[u8]) -> Result<u32, OutOfMemory>
        ensures number { IfOk result (λ n. n ≡ position_or_len (bytes_eq text.now) self.old) }
        ensures ok { IfOk result (λ n. self.new ≡ added_once (bytes_eq text.now) text.now self.old) }
        ensures err { OnErr result (self.new ≡ self.old) }
    {
        if let Some(place) = self.texts.get_index_of(text) {
            return Ok(place as u32);
        }
        let Ok(number) = u32::try_from(self.texts.len()) else {
            return Err(OutOfMemory);
        };
        let text = text.to_vec(alloc)?;
        self.texts.insert(text)?;
        Ok(number)
    }

    /// Leaves the first texts.
    pub(crate) fn truncate(&mut self, count: usize)
        ensures { self.new ≡ take count self.old }
    {
        self.texts.truncate(count);
    }
}
