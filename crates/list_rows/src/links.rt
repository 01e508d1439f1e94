// Which methods send a message, implement it or refer to a name behind changes, and the names to which nothing answers: a line for each.
use crate::lists::changes_of;
use crate::systems::linked_of;
use anyhow::{Context, Result};
use s80_apply::System;
use s80_base::{Names, OutOfMemory, Side, Text};
use s80_rows::bytes;
use s80_xref::{
    MethodPlace, Places, implementors, references, senders, undeclared, unimplemented, unsent,
};
use std::alloc::Global;

/// What is asked of a system.
#[derive(Clone, Copy, Debug)]
pub(crate) enum Asked {
    Senders,
    Implementors,
    References,
    Undeclared,
    Unimplemented,
    Unsent,
}

/// What is asked of a word: the word, and the blocks of changes.
pub(crate) fn of_word(alloc: Global, asked: Asked, rest: &str) -> Result<Text> {
    let (word, blocks) = rest.split_once(' ').context("no word")?;
    let word = bytes::read(alloc, word)?;
    linked_of(alloc, &changes_of(alloc, blocks)?, asked, &word)
}

/// What is asked of all: the blocks of changes.
pub(crate) fn of_all(alloc: Global, asked: Asked, blocks: &str) -> Result<Text> {
    let none = Text::empty(alloc);
    linked_of(alloc, &changes_of(alloc, blocks)?, asked, &none)
}

/// The answer of a system, a line for each method or name.
pub(crate) fn lines(
    alloc: Global,
    system: &System,
    asked: Asked,
    word: &Text,
) -> Result<Text, OutOfMemory> {
    match asked {
        Asked::Senders => lines_of_places(alloc, &senders(alloc, system, word)?),
        Asked::Implementors => lines_of_places(alloc, &implementors(alloc, system, word)?),
        Asked::References => lines_of_places(alloc, &references(alloc, system, word)?),
        Asked::Undeclared => lines_of_names(alloc, &undeclared(alloc, system)?),
        Asked::Unimplemented => lines_of_names(alloc, &unimplemented(alloc, system)?),
        Asked::Unsent => lines_of_names(alloc, &unsent(alloc, system)?),
    }
}

fn lines_of_places(alloc: Global, places: &Places) -> Result<Text, OutOfMemory> {
    let mut lines = Text::empty(alloc);
    for i in 0..places.count() {
        add_place(&mut lines, places.at(i))?;
    }
    Ok(lines)
}

fn add_place(lines: &mut Text, place: &MethodPlace) -> Result<(), OutOfMemory> {
    lines.append(place.class_name.bytes())?;
    lines.append(match place.side {
        Side::Instance => b" ",
        Side::Class => b" class ",
    })?;
    lines.append(place.selector.bytes())?;
    lines.append(b"\n")
}

fn lines_of_names(alloc: Global, names: &Names) -> Result<Text, OutOfMemory> {
    let mut lines = Text::empty(alloc);
    for i in 0..names.count() {
        lines.append(names.at(i).bytes())?;
        lines.append(b"\n")?;
    }
    Ok(lines)
}
