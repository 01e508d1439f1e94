// The primitives of strings and symbols.
ghost use Rattle.std.specs.Prelude.{◌≡◌, IfOk, List, Option, OnErr, ℕ};
ghost use Rattle.s80_class.specs.Known.{IsKnown as IsKnownTable};
ghost use Rattle.s80_object.specs.Objects.{State};
ghost use Rattle.s80_prims.specs.Known.{AreKnown, HasKernel, IsKnown};
ghost use Rattle.s80_prims.specs.Numbers.{AreNumbers};
ghost use Rattle.s80_prims.specs.Primitives.{names, prints, readable_bytes, stops, text_bytes, with_text, writes};
ghost use Rattle.s80_prims.specs.Rows.{Applies, came_to, text_if, world_of};
ghost use Rattle.s80_prims.specs.declared.stop.Stop.TheVariants.{Error};

use crate::applied::Applied;
use crate::applied::instances::made;
use crate::applied::items::readable_bytes;
use crate::kernel::Kernel;
use crate::print::print_value;
use crate::stop::Stop;
use s80_base::{OutOfMemory, Text};
use s80_class::ClassTable;
use s80_object::{BodyKind, Objects, Value};
use std::alloc::Global;

const TRANSCRIPT_LIMIT: usize = 65_536;

/// Writes the bytes of a string or a symbol to the transcript.
pub(crate) fn write(
    alloc: Global,
    kernel: &Kernel,
    classes: &ClassTable,
    r: Value,
    a: Value,
    objects: &Objects,
    transcript: &mut Text,
) -> Result<Applied, OutOfMemory>
    requires known { IsKnownTable classes.now }
    requires numbers { AreNumbers classes.now kernel.now }
    requires argument { IsKnown classes.now objects.now a }
    requires objects { AreKnown classes.now objects.now }
    ensures ok { IfOk result (λ applied. let w = world_of objects.now transcript.old in came_to applied (world_of objects.now transcript.new) ≡ with_text w (text_bytes classes.now objects.now a) (writes w r)) }
    ensures err { OnErr result (transcript.new ≡ transcript.old) }
{
    match text_of(alloc, kernel, classes, objects, a)? {
        Some(text) => add(r, &text, transcript),
        None => Ok(Applied::Fails),
    }
}

/// Stops with the bytes of a string or a symbol.
pub(crate) fn error(
    alloc: Global,
    kernel: &Kernel,
    classes: &ClassTable,
    a: Value,
    objects: &Objects,
) -> Result<Applied, OutOfMemory>
    requires known { IsKnownTable classes.now }
    requires numbers { AreNumbers classes.now kernel.now }
    requires argument { IsKnown classes.now objects.now a }
    requires objects { AreKnown classes.now objects.now }
    ensures { IfOk result (λ applied. Applies objects.now objects.now applied (λ w. with_text w (text_bytes classes.now objects.now a) (λ text. stops w (Error text)))) }
{
    match text_of(alloc, kernel, classes, objects, a)? {
        Some(text) => Ok(Applied::Stops(Stop::Error(text))),
        None => Ok(Applied::Fails),
    }
}

/// The symbol of the bytes of a string or a symbol.
pub(crate) fn intern(
    alloc: Global,
    kernel: &Kernel,
    classes: &ClassTable,
    r: Value,
    objects: &mut Objects,
) -> Result<Applied, OutOfMemory>
    requires known { IsKnownTable classes.now }
    requires numbers { AreNumbers classes.now kernel.now }
    requires receiver { IsKnown classes.now objects.old r }
    requires objects { AreKnown classes.now objects.old }
    ensures ok { IfOk result (λ applied. Applies objects.old objects.new applied (λ w. with_text w (text_bytes classes.now objects.old r) (names w))) }
    ensures err { OnErr result (objects.new ≡ objects.old) }
{
    match text_of(alloc, kernel, classes, objects, r)? {
        Some(text) => Ok(Applied::Done(objects.symbol(&text)?)),
        None => Ok(Applied::Fails),
    }
}

/// A string of the printed form.
pub(crate) fn print_string(
    alloc: Global,
    kernel: &Kernel,
    classes: &ClassTable,
    r: Value,
    objects: &mut Objects,
) -> Result<Applied, OutOfMemory>
    requires kernel { HasKernel classes.now }
    requires numbers { AreNumbers classes.now kernel.now }
    requires receiver { IsKnown classes.now objects.old r }
    requires objects { AreKnown classes.now objects.old }
    ensures ok { IfOk result (λ applied. Applies objects.old objects.new applied (λ w. prints classes.now w r)) }
    ensures err { OnErr result (objects.new ≡ objects.old) }
{
    let text = print_value(alloc, classes, objects, r)?;
    made(objects.make_bytes(kernel.string, &text))
}

// Adds to the transcript, where it has room.
fn add(r: Value, text: &Text, transcript: &mut Text) -> Result<Applied, OutOfMemory>
    ensures ok { IfOk result (λ applied. (objects : State) → came_to applied (world_of objects transcript.new) ≡ writes (world_of objects transcript.old) r text.now) }
    ensures err { OnErr result (transcript.new ≡ transcript.old) }
{
    let text = text.bytes();
    let held = transcript.bytes().len();
    if held <= TRANSCRIPT_LIMIT && text.len() <= TRANSCRIPT_LIMIT - held {
        transcript.append(text)?;
        Ok(Applied::Done(r))
    } else {
        Ok(Applied::Stops(Stop::TranscriptFull))
    }
}

// The bytes of a string or a symbol.
fn text_of(
    alloc: Global,
    kernel: &Kernel,
    classes: &ClassTable,
    objects: &Objects,
    v: Value,
) -> Result<Option<Text>, OutOfMemory>
    requires known { IsKnownTable classes.now }
    requires numbers { AreNumbers classes.now kernel.now }
    requires value { IsKnown classes.now objects.now v }
    requires objects { AreKnown classes.now objects.now }
    ensures { IfOk result (λ text. text ≡ text_bytes classes.now objects.now v) }
{
    if !is_text(kernel, classes, objects, v) {
        return Ok(None);
    }
    match readable_bytes(objects, v) {
        Some(bytes) => Ok(Some(Text::from_bytes(alloc, bytes)?)),
        None => Ok(None),
    }
}

// Whether a value is a string or a symbol.
fn is_text(kernel: &Kernel, classes: &ClassTable, objects: &Objects, v: Value) -> bool
    requires known { IsKnownTable classes.now }
    requires numbers { AreNumbers classes.now kernel.now }
    requires value { IsKnown classes.now objects.now v }
    requires objects { AreKnown classes.now objects.now }
    ensures { text_bytes classes.now objects.now v ≡ text_if result (readable_bytes objects.now v) }
{
    if let Value::Symbol(_) = v {
        return true;
    }
    match objects.class_at(v) {
        Some((class, BodyKind::Bytes)) => kernel.is_string(classes, class),
        _ => false,
    }
}
