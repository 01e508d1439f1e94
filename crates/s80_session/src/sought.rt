// What is told of methods that are sought, and of names to which nothing answers.
ghost use Rattle.std.specs.Prelude.{ℕ, IfOk};
ghost use Rattle.s80_apply.specs.List.{state_of};
ghost use Rattle.s80_apply.specs.System.{IsSystemOf};
ghost use Rattle.s80_model.specs.declared.item.Query.TheVariants.{Implementors, References, Senders, Undeclared, Unimplemented, Unsent};
ghost use Rattle.s80_model.specs.Replies.{Work};
ghost use Rattle.s80_session.specs.Replies.{HasRoom, TellsSought};

use s80_apply::System;
use s80_base::{OutOfMemory, Text};
use s80_form::{Refusal, is_name};
use s80_lex::parameters_of;
use s80_model::{Reply, names_text, places_text};
use s80_xref::{implementors, references, senders, undeclared, unimplemented, unsent};
use std::alloc::Global;

/// The methods that send a message of this selector.
pub(crate) fn tell_senders(
    alloc: Global,
    system: &System,
    selector: Text,
) -> Result<Reply, OutOfMemory>
    ensures answer { (work : Work) → IsSystemOf system.now (state_of work.changes) → IfOk result (TellsSought work (Senders selector)) }
    ensures room { (room : ℕ) → IfOk result (λ reply. HasRoom reply room) }
{
    if parameters_of(selector.bytes()).is_none() {
        return Ok(Reply::Refused(Refusal::BadName(selector)));
    }
    let places = senders(alloc, system, &selector)?;
    Ok(Reply::Told(places_text(alloc, &places)?))
}

/// The methods of this selector.
pub(crate) fn tell_implementors(
    alloc: Global,
    system: &System,
    selector: Text,
) -> Result<Reply, OutOfMemory>
    ensures answer { (work : Work) → IsSystemOf system.now (state_of work.changes) → IfOk result (TellsSought work (Implementors selector)) }
    ensures room { (room : ℕ) → IfOk result (λ reply. HasRoom reply room) }
{
    if parameters_of(selector.bytes()).is_none() {
        return Ok(Reply::Refused(Refusal::BadName(selector)));
    }
    let places = implementors(alloc, system, &selector)?;
    Ok(Reply::Told(places_text(alloc, &places)?))
}

/// The methods that read or assign this outer name.
pub(crate) fn tell_references(
    alloc: Global,
    system: &System,
    name: Text,
) -> Result<Reply, OutOfMemory>
    ensures answer { (work : Work) → IsSystemOf system.now (state_of work.changes) → IfOk result (TellsSought work (References name)) }
    ensures room { (room : ℕ) → IfOk result (λ reply. HasRoom reply room) }
{
    if !is_name(name.bytes()) {
        return Ok(Reply::Refused(Refusal::BadName(name)));
    }
    let places = references(alloc, system, &name)?;
    Ok(Reply::Told(places_text(alloc, &places)?))
}

/// The outer names to which methods refer, and which nothing has.
pub(crate) fn tell_undeclared(alloc: Global, system: &System) -> Result<Reply, OutOfMemory>
    ensures answer { (work : Work) → IsSystemOf system.now (state_of work.changes) → IfOk result (TellsSought work Undeclared) }
    ensures room { (room : ℕ) → IfOk result (λ reply. HasRoom reply room) }
{
    let names = undeclared(alloc, system)?;
    Ok(Reply::Told(names_text(alloc, &names)?))
}

/// The selectors that methods send, and of which there is no method.
pub(crate) fn tell_unimplemented(alloc: Global, system: &System) -> Result<Reply, OutOfMemory>
    ensures answer { (work : Work) → IsSystemOf system.now (state_of work.changes) → IfOk result (TellsSought work Unimplemented) }
    ensures room { (room : ℕ) → IfOk result (λ reply. HasRoom reply room) }
{
    let names = unimplemented(alloc, system)?;
    Ok(Reply::Told(names_text(alloc, &names)?))
}

/// The selectors of methods that no method sends.
pub(crate) fn tell_unsent(alloc: Global, system: &System) -> Result<Reply, OutOfMemory>
    ensures answer { (work : Work) → IsSystemOf system.now (state_of work.changes) → IfOk result (TellsSought work Unsent) }
    ensures room { (room : ℕ) → IfOk result (λ reply. HasRoom reply room) }
{
    let names = unsent(alloc, system)?;
    Ok(Reply::Told(names_text(alloc, &names)?))
}
