// Sets of words.
ghost use Rattle.std.specs.Prelude.{◌≡◌, ◌||◌, [], List, ℕ, IfOk, OnOk};
ghost use Rattle.std.specs.Cmp.Lexicographic.{slice_cmp};
ghost use Rattle.std.specs.List.{list_any};
ghost use Rattle.std.specs.List.Sorted.{IsStrictlySortedBy};
ghost use Rattle.std.specs.Ordering.{nat_cmp};
ghost use Rattle.std.specs.Str.{bytes_eq};

use s80_base::{Names, OutOfMemory, Text};
use std::alloc::Global;
use std::collections::BTreeSet;
use std::marker::Model;

/// Words, each once, among which one is found at little cost. Contracts see them in the order of their bytes.
#[derive(Drop)]
pub(crate) struct WordSet {
    words: BTreeSet<Vec<u8>>,
}

impl Model for WordSet {
    ghost use Rattle.std.specs.Prelude.{List, ℕ, map as list_map};

    ghost Value = { List (List ℕ) };

    ghost view = { λ s. list_map (λ w. w.items) s.words.keys };
}

impl WordSet {
    pub(crate) fn empty(alloc: Global) -> Self
        ensures { result ≡ [] }
    {
        WordSet {
            words: BTreeSet::new(alloc),
        }
    }

    /// Adds a word, where it isn't there.
    fn insert(&mut self, word: Vec<u8>) -> Result<(), OutOfMemory>
        ensures { OnOk result ((other : List ℕ) → list_any (bytes_eq other) self.new ≡ (bytes_eq other word.items || list_any (bytes_eq other) self.old)) }
    {
        self.words.insert(word)?;
        Ok(())
    }

    /// Adds the words that aren't there.
    pub(crate) fn add(&mut self, alloc: Global, words: &Names) -> Result<(), OutOfMemory>
        ensures { OnOk result ((other : List ℕ) → list_any (bytes_eq other) self.new ≡ (list_any (bytes_eq other) self.old || list_any (bytes_eq other) words.now)) }
    {
        for i in 0..words.count() {
            self.insert(words.at(i).bytes().to_vec(alloc)?)?;
        }
        Ok(())
    }

    /// Whether a word is there. Takes no memory.
    pub(crate) fn contains(&self, word: &Text) -> bool
        ensures { result ≡ list_any (bytes_eq word.now) self.now }
    {
        self.words.contains(word.bytes())
    }

    /// The words in the order of their bytes.
    pub(crate) fn listed(&self, alloc: Global) -> Result<Names, OutOfMemory>
        ensures same { IfOk result (λ names. names ≡ self.now) }
        ensures ascending { IfOk result (λ names. IsStrictlySortedBy (slice_cmp nat_cmp) names) }
    {
        let mut names = Names::empty(alloc);
        for word in &self.words {
            names.push(Text::from_bytes(alloc, word)?)?;
        }
        Ok(names)
    }
}
