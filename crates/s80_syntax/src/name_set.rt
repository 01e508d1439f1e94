// Sets of names.
ghost use Rattle.std.specs.Prelude.{◌≡◌, IfOk};
ghost use Rattle.s80_syntax.specs.Word.{has_name, names_in};
ghost use Rattle.s80_syntax.specs.NameSet.{has_word};

use s80_base::OutOfMemory;
use s80_tree::NameAt;
use std::alloc::Global;
use std::collections::BTreeSet;

/// The words of declared names, among which one is found at little cost, however many they are.
#[derive(Drop)]
pub struct NameSet {
    words: BTreeSet<Vec<u8>>,
}

impl NameSet {
    /// The words of these names.
    pub fn of(alloc: Global, names: &[NameAt]) -> Result<Self, OutOfMemory>
        ensures { IfOk result (λ set. has_word set ≡ has_name (names_in names.now)) }
    {
        let mut words = BTreeSet::new(alloc);
        for name in names {
            words.insert(name.name.bytes().to_vec(alloc)?)?;
        }
        Ok(NameSet { words })
    }

    /// Whether a word is one of them.
    pub fn contains(&self, word: &[u8]) -> bool
        ensures { result ≡ has_word self.now word.now }
    {
        self.words.contains(word)
    }
}
