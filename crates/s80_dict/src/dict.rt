// Slots by selector, and the methods that they hold.
ghost use Rattle.std.specs.Prelude.{◌≡◌, [], IfOk, OnOk, OnErr, List, ℕ, map as list_map, option_copied, IsSome};
ghost use Rattle.std.specs.FinMap as map;
ghost use Rattle.s80_dict.specs.Dict.{HasRoom};
ghost use Rattle.s80_dict.specs.Slots.{selectors_of};

use indexmap::IndexMap;
use s80_base::{Names, OutOfMemory, Text};
use std::alloc::Global;
use std::marker::Model;

/// A method: its category, its source and where that stands, and its code.
#[derive(Debug, Drop)]
pub struct MethodEntry<C> {
    pub category: Text,
    pub source: Text,
    /// Whether the source stands in the kernel's text, and not in the log.
    pub from_kernel: bool,
    pub position: u64,
    pub length: u64,
    pub code: C,
}

/// The methods of a class by their selectors. Contracts see the map of the methods, and beside it the selectors that have
/// room: a method is put there with no memory. A selector of the map has room, and none loses it.
#[derive(Debug, Drop)]
pub struct MethodDict<C> {
    // A selector with room is a key whose slot may be empty.
    slots: IndexMap<Vec<u8>, Option<MethodEntry<C>>>,
    filled: usize,
}

impl<C> Model for MethodDict<C> {
    ghost use Rattle.std.specs.Prelude.{List, ℕ, map as list_map};
    ghost use Rattle.s80_dict.specs.Dict.{Methods};
    ghost use Rattle.s80_dict.specs.declared.dict.MethodEntry.{MethodEntry};
    ghost use Rattle.s80_dict.specs.Slots.{DictValue, IsSound, dict_code, methods_of, room_of};

    ghost Value = { DictValue (MethodEntry C) };

    ghost coded = { dict_code C.code };

    ghost view = { λ d. record { methods = methods_of d.slots.entries; room = room_of d.slots.entries } };

    ghost invariant = { λ d. IsSound d.slots.entries d.filled };
}

impl<C> MethodDict<C> {
    /// No methods, and no selector has room. Takes no memory.
    pub fn empty(alloc: Global) -> Self
        ensures methods { result.methods ≡ map.empty }
        ensures room { result.room ≡ [] }
    {
        MethodDict {
            slots: IndexMap::new(alloc),
            filled: 0,
        }
    }

    /// The method of a selector. Takes no memory.
    pub fn get(&self, selector: &Text) -> Option<&MethodEntry<C>>
        ensures value { option_copied result ≡ map.get self.now.methods selector.now }
        ensures room { (k : List ℕ) → IsSome (map.get self.now.methods k) → HasRoom self.now.room k }
    {
        match self.slots.get(selector.bytes()) {
            Some(slot) => slot.as_ref(),
            None => None,
        }
    }

    /// How many methods there are. It is kept, and not counted anew.
    pub fn count(&self) -> usize
        ensures { result ≡ map.len self.now.methods }
    {
        self.filled
    }

    /// The selectors of the methods, in the order of their bytes.
    pub fn selectors_sorted(&self, alloc: Global) -> Result<Names, OutOfMemory>
        ensures { IfOk result (λ names. names ≡ map.keys self.now.methods) }
    {
        let mut selectors = filled_selectors(&self.slots, alloc)?;
        selectors.sort_unstable();
        named(alloc, &selectors)
    }
}

impl<C: Drop> MethodDict<C> {
    /// Gives a selector room, and leaves the methods. When out of memory, nothing is changed.
    pub fn make_room(&mut self, selector: Text) -> Result<(), OutOfMemory>
        ensures methods { self.new.methods ≡ self.old.methods }
        ensures ok { OnOk result (HasRoom self.new.room selector) }
        ensures err { OnErr result (self.new.room ≡ self.old.room) }
        ensures kept { (k : List ℕ) → HasRoom self.old.room k → HasRoom self.new.room k }
    {
        if self.slots.contains_key(selector.bytes()) {
            return Ok(());
        }
        self.slots.insert(selector.into_vec(), None)?;
        Ok(())
    }

    /// Puts a method at a selector that has room, and answers the one that was there. Takes no memory.
    pub fn insert(&mut self, selector: &Text, entry: MethodEntry<C>) -> Option<MethodEntry<C>>
        requires { HasRoom self.old.room selector.now }
        ensures old { result ≡ map.get self.old.methods selector.now }
        ensures methods { self.new.methods ≡ map.insert self.old.methods selector.now entry }
        ensures room { self.new.room ≡ self.old.room }
    {
        prove!(self.filled <= self.slots.len());
        let slot = self.slots.get_mut(selector.bytes()).unwrap();
        let before = slot.replace(entry);
        self.filled += usize::from(before.is_none());
        before
    }

    /// Takes the method of a selector away, and answers it. The selector keeps its room. Takes no memory.
    pub fn remove(&mut self, selector: &Text) -> Option<MethodEntry<C>>
        ensures old { result ≡ map.get self.old.methods selector.now }
        ensures methods { self.new.methods ≡ map.remove self.old.methods selector.now }
        ensures room { self.new.room ≡ self.old.room }
    {
        let entry = self.slots.get_mut(selector.bytes())?.take()?;
        self.filled -= 1;
        Some(entry)
    }
}

// The selectors whose slots hold a method, in the order of the slots.
fn filled_selectors<'a, C>(
    slots: &'a IndexMap<Vec<u8>, Option<MethodEntry<C>>>,
    alloc: Global,
) -> Result<Vec<&'a [u8]>, OutOfMemory>
    ensures { IfOk result (λ selectors. list_map (λ s. s.now) selectors.items ≡ selectors_of slots.now.entries) }
{
    let mut selectors = Vec::new(alloc);
    for (selector, slot) in slots {
        if slot.is_some() {
            selectors.push(selector.as_slice())?;
        }
    }
    Ok(selectors)
}

fn named(alloc: Global, selectors: &[&[u8]]) -> Result<Names, OutOfMemory>
    ensures { IfOk result (λ names. names ≡ list_map (λ s. s.now) selectors.now) }
{
    let mut names = Names::empty(alloc);
    for selector in selectors {
        names.push(Text::from_bytes(alloc, selector)?)?;
    }
    Ok(names)
}
