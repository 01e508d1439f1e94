// All words that the methods of a system are linked to.
ghost use Rattle.std.specs.Prelude.{◌≡◌, ◌↔◌, ◌||◌, List, ℕ, IfOk, OnOk};
ghost use Rattle.std.specs.FinMap as map;
ghost use Rattle.std.specs.List.{Contains, list_any};
ghost use Rattle.std.specs.Str.{bytes_eq};
ghost use Rattle.s80_apply.specs.State.{State};
ghost use Rattle.s80_apply.specs.System.{IsSystemOf};
ghost use Rattle.s80_xref.specs.Found.{Gathers, IsOfSome};
ghost use Rattle.s80_xref.specs.Links.{IsLink, is_linked};
ghost use Rattle.s80_xref.specs.Places.{all_places, places_on};

use crate::link::{Link, linked_by, methods_on};
use crate::word_set::WordSet;
use s80_apply::System;
use s80_base::{OutOfMemory, Side, Text};
use s80_dict::MethodDict;
use s80_verify::Verified;
use std::alloc::Global;

/// The words that methods are linked to so.
pub(crate) fn linked_words(
    alloc: Global,
    system: &System,
    link: Link,
) -> Result<WordSet, OutOfMemory>
    ensures { (state : State) → IsSystemOf system.now state
        → IfOk result (λ words. (word : List ℕ) → Contains words word ↔ IsOfSome (IsLink link state) (all_places state) word) }
{
    let names = system.classes().names_sorted(alloc)?;
    let mut words = WordSet::empty(alloc);
    for i in 0..names.count() {
        let class_name = names.at(i);
        add_side(alloc, system, link, class_name, Side::Instance, &mut words)?;
        add_side(alloc, system, link, class_name, Side::Class, &mut words)?;
    }
    Ok(words)
}

/// Adds those of one side of a class.
fn add_side(
    alloc: Global,
    system: &System,
    link: Link,
    class_name: &Text,
    side: Side,
    words: &mut WordSet,
) -> Result<(), OutOfMemory>
    ensures { (state : State) → IsSystemOf system.now state
        → OnOk result (Gathers (IsLink link state) (places_on state class_name.now side) words.old words.new) }
{
    match methods_on(system, class_name, side) {
        Some(methods) => add_linked(alloc, methods, link, words),
        None => Ok(()),
    }
}

/// Adds those of a dictionary.
fn add_linked(
    alloc: Global,
    methods: &MethodDict<Verified>,
    link: Link,
    words: &mut WordSet,
) -> Result<(), OutOfMemory>
    ensures { OnOk result ((word : List ℕ) → list_any (bytes_eq word) words.new
        ≡ (list_any (bytes_eq word) words.old || list_any (is_linked methods.now.methods link word) (map.keys methods.now.methods))) }
{
    let selectors = methods.selectors_sorted(alloc)?;
    for i in 0..selectors.count() {
        let more = linked_by(alloc, methods, link, selectors.at(i))?;
        words.add(alloc, &more)?;
    }
    Ok(())
}
