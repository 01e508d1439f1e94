// The primitives that make new instances, and identity.
ghost use Rattle.std.specs.Prelude.{◌≡◌, ◌⊎◌, IfOk, IfSome, OnErr, pos, ℕ};
ghost use Rattle.s80_class.specs.Counted.{counted};
ghost use Rattle.s80_class.specs.Known.{IsKnown as IsKnownTable};
ghost use Rattle.s80_class.specs.Table.{IsClass};
ghost use Rattle.s80_object.specs.Body.{BodyTree, blank};
ghost use Rattle.s80_object.specs.Objects.{Makes, State};
ghost use Rattle.s80_object.specs.declared.value.BodyKind.TheVariants.{Pointers};
ghost use Rattle.s80_object.specs.declared.value.Value.TheVariants.{Small};
ghost use Rattle.s80_prims.specs.Classes.{kind_of_class};
ghost use Rattle.s80_prims.specs.Known.{IsKnown};
ghost use Rattle.s80_prims.specs.Numbers.{AreNumbers};
ghost use Rattle.s80_prims.specs.Primitives.{makes, new_plain, new_with, of_class, same};
ghost use Rattle.s80_prims.specs.Rows.{Applies, class_to_make};

use crate::applied::Applied;
use crate::classes::{kind_of_class, variables_of};
use crate::kernel::Kernel;
use crate::stop::Stop;
use s80_base::{OutOfMemory, Side};
use s80_class::ClassTable;
use s80_form::Kind;
use s80_object::{BodyKind, ObjectFault, Objects, Value};

/// A new instance without items.
pub(crate) fn new_plain(
    kernel: &Kernel,
    classes: &ClassTable,
    r: Value,
    objects: &mut Objects,
) -> Result<Applied, OutOfMemory>
    requires known { IsKnownTable classes.now }
    requires numbers { AreNumbers classes.now kernel.now }
    requires receiver { IsKnown classes.now objects.old r }
    ensures ok { IfOk result (λ applied. Applies objects.old objects.new applied (λ w. of_class classes.now w r (λ c. new_plain classes.now w c (kind_of_class classes.now c)))) }
    ensures err { OnErr result (objects.new ≡ objects.old) }
{
    let Some(class) = class_to_make(kernel, classes, r) else {
        return Ok(Applied::Fails);
    };
    match kind_of_class(classes, class) {
        Kind::Plain => {
            let named = variables_of(classes, class);
            make(objects, class, BodyKind::Pointers, named, 0)
        }
        _ => Ok(Applied::Fails),
    }
}

/// A new instance with so many items.
pub(crate) fn new_indexed(
    kernel: &Kernel,
    classes: &ClassTable,
    r: Value,
    a: Value,
    objects: &mut Objects,
) -> Result<Applied, OutOfMemory>
    requires known { IsKnownTable classes.now }
    requires numbers { AreNumbers classes.now kernel.now }
    requires receiver { IsKnown classes.now objects.old r }
    ensures ok { IfOk result (λ applied. Applies objects.old objects.new applied (λ w. new_with classes.now w r a)) }
    ensures err { OnErr result (objects.new ≡ objects.old) }
{
    match a {
        Value::Small(count) if count >= 0 => { new_with(kernel, classes, r, count as u32, objects) }
        _ => Ok(Applied::Fails),
    }
}

fn new_with(
    kernel: &Kernel,
    classes: &ClassTable,
    r: Value,
    count: u32,
    objects: &mut Objects,
) -> Result<Applied, OutOfMemory>
    requires known { IsKnownTable classes.now }
    requires numbers { AreNumbers classes.now kernel.now }
    requires receiver { IsKnown classes.now objects.old r }
    ensures ok { IfOk result (λ applied. Applies objects.old objects.new applied (λ w. new_with classes.now w r (Small (pos count)))) }
    ensures err { OnErr result (objects.new ≡ objects.old) }
{
    let Some(class) = class_to_make(kernel, classes, r) else {
        return Ok(Applied::Fails);
    };
    match kind_of_class(classes, class) {
        Kind::Plain => Ok(Applied::Fails),
        Kind::Pointers => {
            let named = variables_of(classes, class);
            make(objects, class, BodyKind::Pointers, named, count)
        }
        Kind::Bytes => make(objects, class, BodyKind::Bytes, 0, count),
        Kind::Words => make(objects, class, BodyKind::Words, 0, count),
    }
}

// The class of which a receiver makes an instance.
fn class_to_make(kernel: &Kernel, classes: &ClassTable, r: Value) -> Option<u32>
    requires known { IsKnownTable classes.now }
    requires numbers { AreNumbers classes.now kernel.now }
    requires receiver { (objects : State) × IsKnown classes.now objects r }
    ensures is { result ≡ class_to_make classes.now r }
    ensures class { IfSome result (IsClass classes.now.names) }
{
    match r {
        Value::ClassRef(class, Side::Instance) if kernel.can_be_new(classes, class) => Some(class),
        _ => None,
    }
}

// A new object whose class has so many variables, as they are counted.
fn make(
    objects: &mut Objects,
    class: u32,
    kind: BodyKind,
    named: usize,
    indexed: u32,
) -> Result<Applied, OutOfMemory>
    requires named { (kind ≡ Pointers) ⊎ (named ≡ 0) }
    ensures ok { IfOk result (λ applied. (n : ℕ) → named ≡ counted n → Applies objects.old objects.new applied (λ w. makes w (blank class kind n indexed))) }
    ensures err { OnErr result (objects.new ≡ objects.old) }
{
    match u32::try_from(named) {
        Ok(named) => made(objects.make(class, kind, named, indexed)),
        Err(_) => Ok(Applied::Stops(Stop::ObjectsFull(objects.words()))),
    }
}

/// What the making of an object comes to.
pub(crate) fn made(object: Result<Value, ObjectFault>) -> Result<Applied, OutOfMemory>
    ensures ok { IfOk result (λ applied. (old : State) (b : BodyTree) (new : State) → Makes old b new object → Applies old new applied (λ w. makes w b)) }
    ensures err { OnErr result ((old : State) (b : BodyTree) (new : State) → Makes old b new object → new ≡ old) }
{
    match object {
        Ok(v) => Ok(Applied::Done(v)),
        Err(ObjectFault::Memory) => Err(OutOfMemory),
        Err(ObjectFault::Full(held)) => Ok(Applied::Stops(Stop::ObjectsFull(held))),
        Err(_) => Ok(Applied::Fails),
    }
}

/// Whether two values are one.
pub fn same(a: Value, b: Value) -> bool
    ensures { result ≡ same a b }
{
    a == b
}
