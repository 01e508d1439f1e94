// The names to which nothing answers.
ghost use Rattle.std.specs.Prelude.{◌≡◌, IfOk};
ghost use Rattle.std.specs.List.{Contains};
ghost use Rattle.s80_apply.specs.State.{State};
ghost use Rattle.s80_apply.specs.System.{IsSystemOf};
ghost use Rattle.s80_xref.specs.Places.{AreNames, IsUndeclared, IsUnimplemented, IsUnsent};
ghost use Rattle.s80_xref.specs.Undeclared.{is_declared};

use crate::link::Link;
use crate::word_set::WordSet;
use crate::words::linked_words;
use s80_apply::System;
use s80_base::{Names, OutOfMemory, Text};
use std::alloc::Global;

/// The outer names that methods refer to and that are neither classes nor `Smalltalk` nor `Transcript`, each once, in the order of their bytes.
pub fn undeclared(alloc: Global, system: &System) -> Result<Names, OutOfMemory>
    ensures { (state : State) → IsSystemOf system.now state → IfOk result (AreNames (IsUndeclared state)) }
{
    let referred = linked_words(alloc, system, Link::RefersTo)?.listed(alloc)?;
    let mut names = Names::empty(alloc);
    for i in 0..referred.count() {
        let name = referred.at(i);
        if !is_declared(system, name) {
            names.push(name.copy(alloc)?)?;
        }
    }
    Ok(names)
}

/// Whether a name is that of a class or of an object of the system. Takes no memory.
fn is_declared(system: &System, name: &Text) -> bool
    ensures { result ≡ is_declared system.now.table.classes name.now }
{
    system.find(name).is_some()
        || name.bytes() == b"Smalltalk".as_slice()
        || name.bytes() == b"Transcript".as_slice()
}

/// The selectors that are sent and that no class has a method for on either side, each once, in the order of their bytes.
pub fn unimplemented(alloc: Global, system: &System) -> Result<Names, OutOfMemory>
    ensures { (state : State) → IsSystemOf system.now state → IfOk result (AreNames (IsUnimplemented state)) }
{
    let sent = linked_words(alloc, system, Link::Sends)?;
    let implemented = linked_words(alloc, system, Link::Implements)?;
    without(alloc, &sent, &implemented)
}

/// The selectors of methods that no method sends, each once, in the order of their bytes.
pub fn unsent(alloc: Global, system: &System) -> Result<Names, OutOfMemory>
    ensures { (state : State) → IsSystemOf system.now state → IfOk result (AreNames (IsUnsent state)) }
{
    let implemented = linked_words(alloc, system, Link::Implements)?;
    let sent = linked_words(alloc, system, Link::Sends)?;
    without(alloc, &implemented, &sent)
}

/// The words of a set that another hasn't.
fn without(alloc: Global, words: &WordSet, others: &WordSet) -> Result<Names, OutOfMemory>
    ensures { IfOk result (AreNames (λ word. Contains words.now word × (Contains others.now word → ⊥))) }
{
    let all = words.listed(alloc)?;
    let mut names = Names::empty(alloc);
    for i in 0..all.count() {
        let word = all.at(i);
        if !others.contains(word) {
            names.push(word.copy(alloc)?)?;
        }
    }
    Ok(names)
}
