// What is filed out of a system that changes make, or asked of it. The owner of a system makes it and hands it on, and does nothing else.
use crate::links::{Asked, lines};
use anyhow::{Result, bail};
use s80_apply::{System, boot};
use s80_base::{OutOfMemory, Text};
use s80_change::{Change, Changes, Refused, block_text};
use s80_fileout::{canon, filed_on};
use s80_form::Refusal;
use s80_print::refusal_text;
use std::alloc::Global;

/// The shortest list that makes the state of changes.
pub(crate) fn shortest_of(alloc: Global, changes: &Changes) -> Result<Changes> {
    let mut system = boot(alloc)?;
    shortest_in(alloc, &mut system, changes)
}

/// The same, in the kernel's system.
fn shortest_in(alloc: Global, system: &mut System, changes: &Changes) -> Result<Changes> {
    install_all(alloc, system, changes)?;
    Ok(canon(alloc, system)?)
}

/// What a file of one class has behind changes.
pub(crate) fn filed_of(alloc: Global, changes: &Changes, class_name: &Text) -> Result<Changes> {
    let mut system = boot(alloc)?;
    filed_in(alloc, &mut system, changes, class_name)
}

/// The same, in the kernel's system.
fn filed_in(
    alloc: Global,
    system: &mut System,
    changes: &Changes,
    class_name: &Text,
) -> Result<Changes> {
    install_all(alloc, system, changes)?;
    Ok(filed_on(alloc, system, class_name)?)
}

/// What is asked of a system behind changes.
pub(crate) fn linked_of(
    alloc: Global,
    changes: &Changes,
    asked: Asked,
    word: &Text,
) -> Result<Text> {
    let mut system = boot(alloc)?;
    linked_in(alloc, &mut system, changes, asked, word)
}

/// The same, in the kernel's system.
fn linked_in(
    alloc: Global,
    system: &mut System,
    changes: &Changes,
    asked: Asked,
    word: &Text,
) -> Result<Text> {
    install_all(alloc, system, changes)?;
    Ok(lines(alloc, system, asked, word)?)
}

/// Installs each change.
fn install_all(alloc: Global, system: &mut System, changes: &Changes) -> Result<()> {
    for i in 0..changes.count() {
        install(alloc, system, changes.at(i))?;
    }
    Ok(())
}

fn install(alloc: Global, system: &mut System, change: &Change) -> Result<()> {
    match system.prepare(alloc, change) {
        Ok(step) => system.install(step, 0),
        Err(Refused::Memory) => return Err(OutOfMemory.into()),
        Err(Refused::Refusal(refusal)) => refuse(alloc, change, &refusal)?,
    }
    Ok(())
}

/// Says which change is refused, and why.
fn refuse(alloc: Global, change: &Change, refusal: &Refusal) -> Result<()> {
    let block = block_text(alloc, change)?;
    let why = refusal_text(alloc, refusal)?;
    bail!(
        "{}: {}",
        std::str::from_utf8(block.bytes())?,
        std::str::from_utf8(why.bytes())?
    );
}
