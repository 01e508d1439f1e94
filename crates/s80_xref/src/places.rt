// Where methods stand that send a message, implement it or refer to a name.
ghost use Rattle.std.specs.Prelude.{◌≡◌, ◌<◌, ◌++◌, ◌∷◌, [], length, slice_get, Some, IfOk, OnOk, OnErr};
ghost use Rattle.s80_apply.specs.State.{State};
ghost use Rattle.s80_apply.specs.System.{IsSystemOf};
ghost use Rattle.s80_xref.specs.Found.{Finds};
ghost use Rattle.s80_xref.specs.Links.{IsLink, places_in};
ghost use Rattle.s80_xref.specs.Places.{AreThose, IsOfSelector, RefersTo, Sends, all_places, place, places_on};

use crate::link::{Link, is_linked, methods_on};
use s80_apply::System;
use s80_base::{OutOfMemory, Side, Text};
use s80_dict::MethodDict;
use s80_verify::Verified;
use std::alloc::Global;
use std::marker::Model;

/// A method: the name of its class, the side that it stands on, and its selector.
#[derive(Debug, Drop)]
pub struct MethodPlace {
    pub class_name: Text,
    pub side: Side,
    pub selector: Text,
}

/// Methods, by the names of their classes, those of a class's instances first, then by their selectors.
#[derive(Debug, Drop)]
pub struct Places {
    items: Vec<MethodPlace>,
}

impl Model for Places {
    ghost use Rattle.std.specs.Prelude.{List};
    ghost use Rattle.s80_xref.specs.declared.places.MethodPlace.{MethodPlace};

    ghost Value = { List MethodPlace };

    ghost view = { λ p. p.items.items };
}

impl Places {
    fn empty(alloc: Global) -> Self
        ensures { result ≡ [] }
    {
        Places {
            items: Vec::new(alloc),
        }
    }

    /// Adds a method at the end. When out of memory, the list is as before.
    fn push(&mut self, place: MethodPlace) -> Result<(), OutOfMemory>
        ensures ok { OnOk result (self.new ≡ self.old ++ place ∷ []) }
        ensures err { OnErr result (self.new ≡ self.old) }
    {
        self.items.push(place)?;
        Ok(())
    }

    pub fn count(&self) -> usize
        ensures { result ≡ length self.now }
    {
        self.items.len()
    }

    pub fn at(&self, i: usize) -> &MethodPlace
        requires { i < length self.now }
        ensures { slice_get self.now i ≡ Some result.now }
    {
        &self.items[i]
    }
}

/// The methods that send a message of this selector, to super and in cascades too; not those in which the compiler has inlined it.
pub fn senders(alloc: Global, system: &System, selector: &Text) -> Result<Places, OutOfMemory>
    ensures { (state : State) → IsSystemOf system.now state → IfOk result (AreThose (Sends state selector.now) (all_places state)) }
{
    places_of(alloc, system, Link::Sends, selector)
}

/// The methods of this selector.
pub fn implementors(alloc: Global, system: &System, selector: &Text) -> Result<Places, OutOfMemory>
    ensures { (state : State) → IsSystemOf system.now state → IfOk result (AreThose (IsOfSelector selector.now) (all_places state)) }
{
    places_of(alloc, system, Link::Implements, selector)
}

/// The methods that read or assign an outer name: a class, `Smalltalk`, `Transcript`, or a name that nothing has.
pub fn references(alloc: Global, system: &System, name: &Text) -> Result<Places, OutOfMemory>
    ensures { (state : State) → IsSystemOf system.now state → IfOk result (AreThose (RefersTo state name.now) (all_places state)) }
{
    places_of(alloc, system, Link::RefersTo, name)
}

/// The methods that are linked so to a word.
fn places_of(alloc: Global, system: &System, link: Link, word: &Text) -> Result<Places, OutOfMemory>
    ensures { (state : State) → IsSystemOf system.now state → IfOk result (AreThose (IsLink link state word.now) (all_places state)) }
{
    let names = system.classes().names_sorted(alloc)?;
    let mut places = Places::empty(alloc);
    for i in 0..names.count() {
        let class_name = names.at(i);
        add_places(
            alloc,
            system,
            link,
            word,
            class_name,
            Side::Instance,
            &mut places,
        )?;
        add_places(
            alloc,
            system,
            link,
            word,
            class_name,
            Side::Class,
            &mut places,
        )?;
    }
    Ok(places)
}

/// Adds those of one side of a class.
fn add_places(
    alloc: Global,
    system: &System,
    link: Link,
    word: &Text,
    class_name: &Text,
    side: Side,
    places: &mut Places,
) -> Result<(), OutOfMemory>
    ensures { (state : State) → IsSystemOf system.now state
        → OnOk result (Finds (IsLink link state word.now) (places_on state class_name.now side) places.old places.new) }
{
    match methods_on(system, class_name, side) {
        Some(methods) => add_found(alloc, methods, link, word, class_name, side, places),
        None => Ok(()),
    }
}

/// Adds those of a dictionary.
fn add_found(
    alloc: Global,
    methods: &MethodDict<Verified>,
    link: Link,
    word: &Text,
    class_name: &Text,
    side: Side,
    places: &mut Places,
) -> Result<(), OutOfMemory>
    ensures { OnOk result (places.new ≡ places.old ++ places_in methods.now.methods link word.now class_name.now side) }
{
    let selectors = methods.selectors_sorted(alloc)?;
    for i in 0..selectors.count() {
        let selector = selectors.at(i);
        if is_linked(methods, link, word, selector) {
            places.push(place(alloc, class_name, side, selector)?)?;
        }
    }
    Ok(())
}

fn place(
    alloc: Global,
    class_name: &Text,
    side: Side,
    selector: &Text,
) -> Result<MethodPlace, OutOfMemory>
    ensures { IfOk result (λ at. at ≡ place class_name.now side selector.now) }
{
    Ok(MethodPlace {
        class_name: class_name.copy(alloc)?,
        side,
        selector: selector.copy(alloc)?,
    })
}
