// The dictionaries of all classes, by their numbers.
ghost use Rattle.std.specs.Prelude.{◌≡◌, ◌<◌, ◌≤◌, ◌+◌, ◌++◌, ◌∷◌, [], List, ℕ, length, OnOk, OnErr};
ghost use Rattle.std.specs.FinMap as map;
ghost use Rattle.s80_base.specs.declared.names.Side.{Side};
ghost use Rattle.s80_dict.specs.Dict.{HasRoom};
ghost use Rattle.s80_dict.specs.Table.{no_sides, dict_at, methods_at, room_at, put_at, taken_at, cleared_at};

use crate::dict::{MethodDict, MethodEntry};
use crate::sides::MethodSides;
use s80_base::{OutOfMemory, Side, Text};
use std::alloc::Global;
use std::marker::Model;

/// For each class, by number from 0, the methods of its instance side and of its class side. Contracts see the two
/// dictionaries of each class in order, and for how many more classes there is room.
#[derive(Debug, Drop)]
pub struct MethodTable<C> {
    sides: Vec<MethodSides<C>>,
    spare: usize,
}

impl<C> Model for MethodTable<C> {
    ghost use Rattle.std.specs.Prelude.{◌≤◌, ◌+◌, vec_len, vec_capacity};
    ghost use Rattle.s80_dict.specs.declared.dict.MethodEntry.{MethodEntry};
    ghost use Rattle.s80_dict.specs.Table.{MethodsValue, table_code};

    ghost Value = { MethodsValue (MethodEntry C) };

    ghost coded = { table_code C.code };

    ghost view = { λ t. record { sides = t.sides.items; spare = t.spare } };

    ghost invariant = { λ t. vec_len t.sides + t.spare ≤ vec_capacity t.sides };
}

impl<C> MethodTable<C> {
    /// No classes, and room for none. Takes no memory.
    pub fn empty(alloc: Global) -> Self
        ensures sides { result.sides ≡ [] }
        ensures spare { result.spare ≡ 0 }
    {
        MethodTable {
            sides: Vec::new(alloc),
            spare: 0,
        }
    }

    /// How many classes there are.
    pub fn count(&self) -> usize
        ensures { result ≡ length self.now.sides }
    {
        self.sides.len()
    }

    /// Adds a class without methods behind the others, in room that was made before. Takes no memory.
    pub fn add(&mut self, alloc: Global)
        requires { 0 < self.old.spare }
        ensures sides { self.new.sides ≡ self.old.sides ++ no_sides ∷ [] }
        ensures spare { self.new.spare + 1 ≡ self.old.spare }
        ensures methods { (n : ℕ) (s : Side) → methods_at self.new n s ≡ methods_at self.old n s }
        ensures room { (n : ℕ) (s : Side) → room_at self.new n s ≡ room_at self.old n s }
    {
        self.sides.push_reserved(MethodSides::empty(alloc));
        self.spare -= 1;
    }

    /// The methods of one side of a class. Takes no memory.
    pub fn dict(&self, number: u32, side: Side) -> &MethodDict<C>
        requires { number < length self.now.sides }
        ensures { result.now ≡ dict_at self.now number side }
    {
        self.sides[number as usize].dict(side)
    }
}

impl<C: Drop> MethodTable<C> {
    /// Makes room for this many more classes. When out of memory, nothing is changed.
    pub fn reserve(&mut self, n: usize) -> Result<(), OutOfMemory>
        ensures sides { self.new.sides ≡ self.old.sides }
        ensures ok { OnOk result (n ≤ self.new.spare) }
        ensures spare { self.old.spare ≤ self.new.spare }
        ensures err { OnErr result (self.new ≡ self.old) }
    {
        if n <= self.spare {
            return Ok(());
        }
        self.sides.reserve(n)?;
        self.spare = n;
        Ok(())
    }

    /// Gives a selector room on one side of a class, and leaves the methods. When out of memory, nothing is changed.
    pub fn make_room(&mut self, number: u32, side: Side, selector: Text) -> Result<(), OutOfMemory>
        requires { number < length self.old.sides }
        ensures count { length self.new.sides ≡ length self.old.sides }
        ensures spare { self.new.spare ≡ self.old.spare }
        ensures methods { (n : ℕ) (s : Side) → methods_at self.new n s ≡ methods_at self.old n s }
        ensures ok { OnOk result (HasRoom (room_at self.new number side) selector) }
        ensures err { OnErr result (self.new ≡ self.old) }
        ensures kept { (n : ℕ) (s : Side) (k : List ℕ) → HasRoom (room_at self.old n s) k → HasRoom (room_at self.new n s) k }
    {
        let sides = &mut self.sides[number as usize];
        sides.make_room(side, selector)
    }

    /// Puts a method at a selector that has room, and answers the one that was there. Takes no memory.
    pub fn insert(
        &mut self,
        number: u32,
        side: Side,
        selector: &Text,
        entry: MethodEntry<C>,
    ) -> Option<MethodEntry<C>>
        requires number { number < length self.old.sides }
        requires room { HasRoom (room_at self.old number side) selector.now }
        ensures old { result ≡ map.get (methods_at self.old number side) selector.now }
        ensures methods { (n : ℕ) (s : Side) → methods_at self.new n s ≡ put_at (methods_at self.old) number side selector.now entry n s }
        ensures room { (n : ℕ) (s : Side) → room_at self.new n s ≡ room_at self.old n s }
        ensures count { length self.new.sides ≡ length self.old.sides }
        ensures spare { self.new.spare ≡ self.old.spare }
    {
        let sides = &mut self.sides[number as usize];
        sides.insert(side, selector, entry)
    }

    /// Takes the method of a selector away, and answers it. The selector keeps its room. Takes no memory.
    pub fn remove(&mut self, number: u32, side: Side, selector: &Text) -> Option<MethodEntry<C>>
        requires { number < length self.old.sides }
        ensures old { result ≡ map.get (methods_at self.old number side) selector.now }
        ensures methods { (n : ℕ) (s : Side) → methods_at self.new n s ≡ taken_at (methods_at self.old) number side selector.now n s }
        ensures room { (n : ℕ) (s : Side) → room_at self.new n s ≡ room_at self.old n s }
        ensures count { length self.new.sides ≡ length self.old.sides }
        ensures spare { self.new.spare ≡ self.old.spare }
    {
        let sides = &mut self.sides[number as usize];
        sides.remove(side, selector)
    }

    /// Takes all methods of a class away, on both sides, and the room of their selectors. Takes no memory.
    pub fn clear(&mut self, alloc: Global, number: u32)
        requires { number < length self.old.sides }
        ensures dicts { (n : ℕ) (s : Side) → dict_at self.new n s ≡ cleared_at (dict_at self.old) number n s }
        ensures count { length self.new.sides ≡ length self.old.sides }
        ensures spare { self.new.spare ≡ self.old.spare }
    {
        let sides = &mut self.sides[number as usize];
        sides.clear(alloc);
    }
}
