// What queries are told of classes and methods.
ghost use Rattle.std.specs.Prelude.{◌≡◌, ◌<◌, ℕ, List, length, IfOk};
ghost use Rattle.std.specs.FinMap as map;
ghost use Rattle.s80_change.specs.declared.change.Change.{Change};
ghost use Rattle.s80_class.specs.Classes.{Name};
ghost use Rattle.s80_class.specs.Table.{IsNumberOf};
ghost use Rattle.s80_apply.specs.List.{state_of};
ghost use Rattle.s80_apply.specs.State.{State};
ghost use Rattle.s80_apply.specs.System.{IsSystemOf};
ghost use Rattle.s80_model.specs.declared.item.Filed.TheVariants.{All, Class};
ghost use Rattle.s80_model.specs.declared.item.Query.TheVariants.{Recover, Classes, Browse};
ghost use Rattle.s80_model.specs.Told.{told, versions_told};
ghost use Rattle.s80_session.specs.Replies.{HasRoom, TellsFile};

use s80_apply::System;
use s80_base::{OutOfMemory, Side, Text};
use s80_change::Changes;
use s80_fileout::{each_second_has_a_moment, filed, filed_on, render};
use s80_form::{Refusal, is_name};
use s80_model::{Reply, browse_text, classes_text, recovered_text, versions_text};
use std::alloc::Global;

/// How much there is, with so many changes kept.
pub(crate) fn tell_recovered(
    alloc: Global,
    system: &System,
    count: u64,
) -> Result<Reply, OutOfMemory>
    ensures answer { (changes : List Change) → IsSystemOf system.now (state_of changes) → count ≡ length changes → IfOk result (λ reply. reply ≡ told changes Recover) }
    ensures room { (room : ℕ) → IfOk result (λ reply. HasRoom reply room) }
{
    Ok(Reply::Told(recovered_text(alloc, count, system)?))
}

/// The names of all classes.
pub(crate) fn tell_classes(alloc: Global, system: &System) -> Result<Reply, OutOfMemory>
    ensures answer { (changes : List Change) → IsSystemOf system.now (state_of changes) → IfOk result (λ reply. reply ≡ told changes Classes) }
    ensures room { (room : ℕ) → IfOk result (λ reply. HasRoom reply room) }
{
    Ok(Reply::Told(classes_text(alloc, system.classes())?))
}

/// The lines of the class of this name.
pub(crate) fn tell_browsed(alloc: Global, system: &System, name: Text) -> Result<Reply, OutOfMemory>
    ensures answer { (changes : List Change) → IsSystemOf system.now (state_of changes) → IfOk result (λ reply. reply ≡ told changes (Browse name)) }
    ensures room { (room : ℕ) → IfOk result (λ reply. HasRoom reply room) }
{
    if !is_name(name.bytes()) {
        return Ok(Reply::Refused(Refusal::BadName(name)));
    }
    Ok(match browse_text(alloc, system, &name)? {
        Some(lines) => Reply::Told(lines),
        None => Reply::Refused(Refusal::UnknownClass(name)),
    })
}

/// Whether the class of this number has a method of a selector on this side.
pub(crate) fn has_method(system: &System, number: u32, side: Side, selector: &Text) -> bool
    requires { number < length system.now.methods.sides }
    ensures { (state : State) (name : Name) → IsSystemOf system.now state → IsNumberOf system.now.table.names number name
        → result ≡ map.contains_key (state.methods name side) selector.now }
{
    system.methods().dict(number, side).get(selector).is_some()
}

/// The versions of a method of a class that is there, the newest first; where it has neither a version nor a method now, there is no selector.
pub(crate) fn tell_versions(
    alloc: Global,
    name: Text,
    side: Side,
    selector: Text,
    is_there: bool,
    versions: &Changes,
) -> Result<Reply, OutOfMemory>
    ensures answer { IfOk result (λ reply. reply ≡ versions_told name side selector is_there versions.now) }
    ensures room { (room : ℕ) → IfOk result (λ reply. HasRoom reply room) }
{
    if !is_there && versions.count() == 0 {
        return Ok(Reply::Refused(Refusal::NoSelector(name, side, selector)));
    }
    Ok(Reply::Told(versions_text(alloc, versions)?))
}

/// A file of what makes all classes, with the moment of this second in its first line.
pub(crate) fn tell_filed(alloc: Global, system: &System, seconds: u64) -> Result<Reply, OutOfMemory>
    ensures answer { (changes : List Change) → IsSystemOf system.now (state_of changes) → IfOk result (TellsFile changes seconds All) }
    ensures room { (room : ℕ) → IfOk result (λ reply. HasRoom reply room) }
{
    let changes = filed(alloc, system)?;
    Ok(Reply::Told(render(alloc, &changes, seconds)?))
}

/// The same of what makes the class of this name.
pub(crate) fn tell_filed_on(
    alloc: Global,
    system: &System,
    name: Text,
    seconds: u64,
) -> Result<Reply, OutOfMemory>
    ensures answer { (changes : List Change) → IsSystemOf system.now (state_of changes) → IfOk result (TellsFile changes seconds (Class name)) }
    ensures room { (room : ℕ) → IfOk result (λ reply. HasRoom reply room) }
{
    each_second_has_a_moment(seconds);
    if !is_name(name.bytes()) {
        return Ok(Reply::Refused(Refusal::BadName(name)));
    }
    if system.find(&name).is_none() {
        return Ok(Reply::Refused(Refusal::UnknownClass(name)));
    }
    let changes = filed_on(alloc, system, &name)?;
    Ok(Reply::Told(render(alloc, &changes, seconds)?))
}
