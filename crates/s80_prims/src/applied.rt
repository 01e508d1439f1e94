// The table of primitives.
ghost use Rattle.std.specs.Prelude.{◌≡◌, All, IfOk, OnErr, [], ◌∷◌};
ghost use Rattle.s80_prims.specs.Known.{AreKnown, HasKernel, IsKnown};
ghost use Rattle.s80_prims.specs.Numbers.{AreNumbers};
ghost use Rattle.s80_prims.specs.Primitives.{World, character_of, gives, number_of_character, primitive, two_numbers};
ghost use Rattle.s80_class.specs.Known.{IsKnown as IsKnownTable};
ghost use Rattle.s80_class.specs.Table.{Table};
ghost use Rattle.s80_prims.specs.Rows.{Applies, came_to, world_of};

mod instances;
mod items;
mod strings;

pub use crate::applied::instances::same;
use crate::applied::instances::{new_indexed, new_plain};
use crate::applied::items::{character_at, item, put, put_character, size};
use crate::applied::strings::{error, intern, print_string, write};
use crate::integers::{arithmetic, truth};
use crate::kernel::Kernel;
use crate::stop::Stop;
use s80_base::{OutOfMemory, Text};
use s80_class::ClassTable;
use s80_object::{Objects, Value};
use std::alloc::Global;

/// What a primitive comes to.
#[derive(Debug, Drop)]
pub enum Applied {
    Done(Value),
    /// Its row doesn't apply: the body of the method is run. Nothing is changed.
    Fails,
    /// The run is stopped. Nothing is changed.
    Stops(Stop),
}

/// Applies the primitive of this number, where the kernel's classes have these numbers.
/// Those that activate a block or send a message are the machine's own, and fail here. When out of memory, nothing is changed.
pub fn apply(
    alloc: Global,
    n: u8,
    receiver: Value,
    arguments: &[Value],
    kernel: &Kernel,
    classes: &ClassTable,
    objects: &mut Objects,
    transcript: &mut Text,
) -> Result<Applied, OutOfMemory>
    requires kernel { HasKernel classes.now }
    requires known { IsKnownTable classes.now }
    requires numbers { AreNumbers classes.now kernel.now }
    requires receiver { IsKnown classes.now objects.old receiver }
    requires arguments { All (IsKnown classes.now objects.old) arguments.now }
    requires objects { AreKnown classes.now objects.old }
    ensures ok { IfOk result (λ applied. record { applied = applied; world = record { objects = objects.new; transcript = transcript.new } } ≡ primitive classes.now n receiver arguments.now (record { objects = objects.old; transcript = transcript.old })) }
    ensures err { OnErr result ((objects.new ≡ objects.old) × (transcript.new ≡ transcript.old)) }
{
    match arguments {
        [] => alone(alloc, n, receiver, kernel, classes, objects),
        [a] => with_one(alloc, n, receiver, *a, kernel, classes, objects, transcript),
        [a, b] => Ok(with_two(n, receiver, *a, *b, objects)),
        _ => Ok(Applied::Fails),
    }
}

fn alone(
    alloc: Global,
    n: u8,
    r: Value,
    kernel: &Kernel,
    classes: &ClassTable,
    objects: &mut Objects,
) -> Result<Applied, OutOfMemory>
    requires kernel { HasKernel classes.now }
    requires known { IsKnownTable classes.now }
    requires numbers { AreNumbers classes.now kernel.now }
    requires receiver { IsKnown classes.now objects.old r }
    requires objects { AreKnown classes.now objects.old }
    ensures ok { IfOk result (λ applied. Applies objects.old objects.new applied (primitive classes.now n r [])) }
    ensures err { OnErr result (objects.new ≡ objects.old) }
{
    match n {
        62 => Ok(gives(size(objects, r))),
        70 => new_plain(kernel, classes, r, objects),
        111 => Ok(Applied::Done(kernel.class_value(objects, r))),
        130 => Ok(gives(number_of_character(r))),
        132 => intern(alloc, kernel, classes, r, objects),
        133 => print_string(alloc, kernel, classes, r, objects),
        _ => Ok(Applied::Fails),
    }
}

fn with_one(
    alloc: Global,
    n: u8,
    r: Value,
    a: Value,
    kernel: &Kernel,
    classes: &ClassTable,
    objects: &mut Objects,
    transcript: &mut Text,
) -> Result<Applied, OutOfMemory>
    requires kernel { HasKernel classes.now }
    requires known { IsKnownTable classes.now }
    requires numbers { AreNumbers classes.now kernel.now }
    requires receiver { IsKnown classes.now objects.old r }
    requires argument { IsKnown classes.now objects.old a }
    requires objects { AreKnown classes.now objects.old }
    ensures ok { IfOk result (λ applied. came_to applied (world_of objects.new transcript.new) ≡ primitive classes.now n r (a ∷ []) (world_of objects.old transcript.old)) }
    ensures err { OnErr result ((objects.new ≡ objects.old) × (transcript.new ≡ transcript.old)) }
{
    match n {
        60 => Ok(gives(item(objects, r, a))),
        63 => Ok(gives(character_at(objects, r, a))),
        71 => new_indexed(kernel, classes, r, a, objects),
        110 => Ok(Applied::Done(truth(same(r, a)))),
        128 => write(alloc, kernel, classes, r, a, objects, transcript),
        129 => error(alloc, kernel, classes, a, objects),
        131 => Ok(gives(character_of(a))),
        _ => Ok(gives(two_numbers(n, r, a))),
    }
}

fn with_two(n: u8, r: Value, a: Value, b: Value, objects: &mut Objects) -> Applied
    ensures { (classes : Table) → Applies objects.old objects.new result (primitive classes n r (a ∷ b ∷ [])) }
{
    match n {
        61 => put(objects, r, a, b),
        64 => put_character(objects, r, a, b),
        _ => Applied::Fails,
    }
}

// A value, or it fails.
fn gives(value: Option<Value>) -> Applied
    ensures { (w : World) → came_to result w ≡ gives w value }
{
    match value {
        Some(v) => Applied::Done(v),
        None => Applied::Fails,
    }
}

fn two_numbers(n: u8, r: Value, a: Value) -> Option<Value>
    ensures { (w : World) → gives w result ≡ two_numbers n w r a }
{
    match (r, a) {
        (Value::Small(r), Value::Small(a)) => arithmetic(n, r, a),
        _ => None,
    }
}

fn number_of_character(r: Value) -> Option<Value>
    ensures { (w : World) → gives w result ≡ number_of_character w r }
{
    match r {
        Value::Character(c) => Some(Value::Small(i32::from(c))),
        _ => None,
    }
}

fn character_of(a: Value) -> Option<Value>
    ensures { (w : World) → gives w result ≡ character_of w a }
{
    match a {
        Value::Small(c) if (0..=255).contains(&c) => Some(Value::Character(c as u8)),
        _ => None,
    }
}
