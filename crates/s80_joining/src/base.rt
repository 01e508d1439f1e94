// The base of a list, read change by change.
ghost use Rattle.std.specs.Prelude.{◌≡◌, ◌++◌, ◌∷◌, [], List, OnOk};
ghost use Rattle.s80_change.specs.declared.change.Change.{Change};
ghost use Rattle.s80_joining.specs.Base.{IsBaseOf};
ghost use Rattle.s80_joining.specs.Parts.{base_of};

use crate::kinds::{is_doit, is_no_changes};
use s80_base::OutOfMemory;
use s80_change::{Change, Changes};
use std::alloc::Global;
use std::mem;

/// The base from which two change sets start, as a list is read change by change: the changes up to and with the last that begins a set, without
/// doIts.
#[derive(Drop)]
pub struct Base {
    base: Changes,
    since: Changes,
}

impl Base {
    /// Before the first change.
    pub fn none(alloc: Global) -> Self
        ensures { IsBaseOf result [] }
    {
        Base {
            base: Changes::empty(alloc),
            since: Changes::empty(alloc),
        }
    }

    /// Reads a change behind those before it. When out of memory, no more is to be read.
    pub fn read(&mut self, alloc: Global, change: Change) -> Result<(), OutOfMemory>
        ensures { (changes : List Change) → IsBaseOf self.old changes → OnOk result (IsBaseOf self.new (changes ++ change ∷ [])) }
    {
        if is_doit(&change) {
            return Ok(());
        }
        let begins = is_no_changes(&change);
        self.since.push(change)?;
        if begins {
            self.take_since(alloc)?;
        }
        Ok(())
    }

    /// Takes the changes that wait into the base.
    fn take_since(&mut self, alloc: Global) -> Result<(), OutOfMemory>
        ensures base { OnOk result (self.new.base ≡ self.old.base ++ self.old.since) }
        ensures none { OnOk result (self.new.since ≡ []) }
    {
        let since = mem::replace(&mut self.since, Changes::empty(alloc));
        for change in since.into_vec() {
            self.base.push(change)?;
        }
        Ok(())
    }

    /// The changes of the base.
    pub fn into_changes(self) -> Changes
        ensures { (changes : List Change) → IsBaseOf self changes → result ≡ base_of changes }
    {
        self.base
    }
}
