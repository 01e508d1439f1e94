// The entries that a literal frame has to have.
ghost use Rattle.std.specs.Prelude.{◌≡◌, ◌<◌, ◌^◌, OnOk, pos};
ghost use Rattle.std.specs.FinSet as set;
ghost use Rattle.s80_base.specs.Literal.{literal_of, small};
ghost use Rattle.s80_scope.specs.FitLiterals.{constant_entries, is_special, name_entries, selector_entries};
ghost use Rattle.s80_scope.specs.Scope.{declared_in};
ghost use Rattle.s80_scope.specs.Walk.{with_entries};

use crate::fit::key::{constant_key, count_key, selector_key, variable_key};
use crate::fit::scope::Scope;
use s80_base::{Literal, OutOfMemory};
use s80_code::special_number;
use s80_syntax::is_reserved;
use std::alloc::Global;
use std::collections::BTreeSet;
use std::marker::Model;

/// The entries so far, each once. Contracts see the set of their keys.
#[derive(Drop)]
pub(crate) struct Entries {
    keys: BTreeSet<Vec<u64>>,
}

impl Model for Entries {
    ghost use Rattle.std.specs.Coded.{coded_list, coded_ℕ};
    ghost use Rattle.std.specs.FinSet as set;
    ghost use Rattle.s80_syntax.specs.Word.{has_name};
    ghost use Rattle.s80_scope.specs.FitLiterals.{Keys};
    ghost use Rattle.s80_scope.specs.Key.{IsCounted, keys_of};

    ghost Value = { Keys };

    ghost coded = { set.code (coded_list coded_ℕ) };

    ghost view = { λ e. keys_of e.keys };

    ghost invariant = { λ e. IsCounted e.keys };
}

impl Entries {
    pub fn new(alloc: Global) -> Self
        ensures { result ≡ set.empty }
    {
        Entries {
            keys: BTreeSet::new(alloc),
        }
    }

    /// How many there are.
    pub fn count(&self) -> usize
        ensures { result ≡ set.len self.now }
    {
        self.keys.len()
    }

    pub fn add(&mut self, key: Vec<u64>) -> Result<(), OutOfMemory>
        ensures { OnOk result (self.new ≡ set.insert self.old key.items) }
    {
        self.keys.insert(key)?;
        Ok(())
    }

    /// Adds a constant that is pushed, unless an instruction of its own pushes it.
    pub fn add_constant(&mut self, alloc: Global, literal: &Literal) -> Result<(), OutOfMemory>
        ensures { OnOk result (self.new ≡ with_entries self.old (constant_entries (literal_of literal.now))) }
    {
        match literal {
            Literal::Small(-1..=2) | Literal::True | Literal::False | Literal::Nil => Ok(()),
            _ => self.add(constant_key(alloc, literal)?),
        }
    }

    /// Adds the number of a block's parameters, which is pushed as a constant.
    pub fn add_count(&mut self, alloc: Global, parameters: usize) -> Result<(), OutOfMemory>
        requires { parameters < 2 ^ 63 }
        ensures { OnOk result (self.new ≡ with_entries self.old (constant_entries (small (pos parameters)))) }
    {
        if parameters <= 2 {
            return Ok(());
        }
        self.add(count_key(alloc, parameters)?)
    }

    /// Adds a name that is used or assigned, unless it is declared or reserved.
    pub fn add_name(&mut self, alloc: Global, scope: &Scope, word: &[u8]) -> Result<(), OutOfMemory>
        ensures { OnOk result (self.new ≡ with_entries self.old (name_entries (declared_in scope.now) word.now)) }
    {
        if scope.declares(word) || is_reserved(word) {
            return Ok(());
        }
        self.add(variable_key(alloc, word)?)
    }

    /// Adds a selector that is sent, unless a byte of its own sends it.
    pub fn add_selector(
        &mut self,
        alloc: Global,
        to_super: bool,
        selector: &[u8],
    ) -> Result<(), OutOfMemory>
        ensures { OnOk result (self.new ≡ with_entries self.old (selector_entries to_super selector.now)) }
    {
        if !to_super && is_special(selector) {
            return Ok(());
        }
        self.add(selector_key(alloc, selector)?)
    }
}

/// Whether the send of a selector has a byte of its own.
#[tactic(auto, unfolding(crate::specs::FitLiterals::is_special))]
fn is_special(selector: &[u8]) -> bool
    ensures { result ≡ is_special selector.now }
{
    special_number(selector).is_some()
}
