// The two dictionaries of one class.
ghost use Rattle.std.specs.Prelude.{◌≡◌, List, ℕ, OnOk, OnErr};
ghost use Rattle.std.specs.FinMap as map;
ghost use Rattle.s80_base.specs.declared.names.Side.{Side};
ghost use Rattle.s80_dict.specs.Dict.{HasRoom};
ghost use Rattle.s80_dict.specs.Table.{no_sides, on_side, with_side, put_in, taken_in};

use crate::dict::{MethodDict, MethodEntry};
use s80_base::{OutOfMemory, Side, Text};
use std::alloc::Global;
use std::marker::Model;

#[derive(Debug, Drop)]
pub(crate) struct MethodSides<C> {
    instance: MethodDict<C>,
    class: MethodDict<C>,
}

impl<C> Model for MethodSides<C> {
    ghost use Rattle.s80_dict.specs.declared.dict.MethodEntry.{MethodEntry};
    ghost use Rattle.s80_dict.specs.Table.{SidesValue, sides_code};

    ghost Value = { SidesValue (MethodEntry C) };

    ghost coded = { sides_code C.code };

    ghost view = { λ s. record { instance = s.instance; class = s.class } };
}

impl<C> MethodSides<C> {
    /// No methods on either side. Takes no memory.
    pub(crate) fn empty(alloc: Global) -> Self
        ensures { result ≡ no_sides }
    {
        MethodSides {
            instance: MethodDict::empty(alloc),
            class: MethodDict::empty(alloc),
        }
    }

    pub(crate) fn dict(&self, side: Side) -> &MethodDict<C>
        ensures { result.now ≡ on_side self.now side }
    {
        match side {
            Side::Instance => &self.instance,
            Side::Class => &self.class,
        }
    }
}

impl<C: Drop> MethodSides<C> {
    /// Gives a selector room on one side. When out of memory, nothing is changed.
    pub(crate) fn make_room(&mut self, side: Side, selector: Text) -> Result<(), OutOfMemory>
        ensures methods { (s : Side) → (on_side self.new s).methods ≡ (on_side self.old s).methods }
        ensures ok { OnOk result (HasRoom (on_side self.new side).room selector) }
        ensures err { OnErr result (self.new ≡ self.old) }
        ensures kept { (s : Side) (k : List ℕ) → HasRoom (on_side self.old s).room k → HasRoom (on_side self.new s).room k }
    {
        match side {
            Side::Instance => self.instance.make_room(selector),
            Side::Class => self.class.make_room(selector),
        }
    }

    /// Puts a method on one side, and answers the one that was there. Takes no memory.
    pub(crate) fn insert(
        &mut self,
        side: Side,
        selector: &Text,
        entry: MethodEntry<C>,
    ) -> Option<MethodEntry<C>>
        requires { HasRoom (on_side self.old side).room selector.now }
        ensures old { result ≡ map.get (on_side self.old side).methods selector.now }
        ensures put { self.new ≡ with_side self.old side (put_in (on_side self.old side) selector.now entry) }
    {
        match side {
            Side::Instance => self.instance.insert(selector, entry),
            Side::Class => self.class.insert(selector, entry),
        }
    }

    /// Takes a method away from one side, and answers it. Takes no memory.
    pub(crate) fn remove(&mut self, side: Side, selector: &Text) -> Option<MethodEntry<C>>
        ensures old { result ≡ map.get (on_side self.old side).methods selector.now }
        ensures taken { self.new ≡ with_side self.old side (taken_in (on_side self.old side) selector.now) }
    {
        match side {
            Side::Instance => self.instance.remove(selector),
            Side::Class => self.class.remove(selector),
        }
    }

    /// Takes all methods away from both sides, and the room of their selectors. Takes no memory.
    pub(crate) fn clear(&mut self, alloc: Global)
        ensures { self.new ≡ no_sides }
    {
        self.instance = MethodDict::empty(alloc);
        self.class = MethodDict::empty(alloc);
    }
}
