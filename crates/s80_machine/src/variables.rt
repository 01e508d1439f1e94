// The variables outside activations and objects.
ghost use Rattle.std.specs.Prelude.{◌≡◌, ◌+◌, ◌*◌, None, IsSome, OnOk};
ghost use Rattle.s80_machine.specs.World.{Variable, class_variable, outer, class_side};
ghost use Rattle.s80_machine.specs.Seen.{IsNamed, IsSet, held_by_name, value_in};

use indexmap::IndexMap;
use s80_base::{OutOfMemory, Text};
use s80_object::Value;
use std::alloc::Global;

/// The variables that were assigned: those of classes by class and name, those outside all classes by name, and those of classes themselves by
/// the class's number and their place.
#[derive(Debug, Drop)]
pub(crate) struct Variables {
    of_classes: IndexMap<Vec<u8>, IndexMap<Vec<u8>, Value>>,
    outer: IndexMap<Vec<u8>, Value>,
    of_class_sides: IndexMap<u64, Value>,
}

impl Variables {
    pub(crate) fn none(alloc: Global) -> Self
        ensures { (v : Variable) → value_in result v ≡ None }
    {
        Variables {
            of_classes: IndexMap::new(alloc),
            outer: IndexMap::new(alloc),
            of_class_sides: IndexMap::new(alloc),
        }
    }

    pub(crate) fn of_class(&self, class: &Text, name: &Text) -> Option<Value>
        ensures { result ≡ value_in self.now (class_variable class.now name.now) }
    {
        self.of_classes
            .get(class.bytes())?
            .get(name.bytes())
            .copied()
    }

    pub(crate) fn outer(&self, name: &Text) -> Option<Value>
        ensures { result ≡ value_in self.now (outer name.now) }
    {
        self.outer.get(name.bytes()).copied()
    }

    pub(crate) fn of_class_side(&self, class: u32, place: u8) -> Option<Value>
        ensures { result ≡ value_in self.now (class_side class place) }
    {
        self.of_class_sides
            .get(&class_side_key(class, place))
            .copied()
    }

    pub(crate) fn set_of_class(
        &mut self,
        alloc: Global,
        class: &Text,
        name: &Text,
        value: Value,
    ) -> Result<(), OutOfMemory>
        ensures { OnOk result (IsSet self.old (class_variable class.now name.now) value self.new) }
    {
        self.add_class(alloc, class)?;
        let of_class = self.of_classes.get_mut(class.bytes()).unwrap();
        set_named(alloc, of_class, name, value)
    }

    // The class's variables, of which none was assigned, where it has none so far.
    fn add_class(&mut self, alloc: Global, class: &Text) -> Result<(), OutOfMemory>
        ensures there { OnOk result (IsSome (held_by_name self.new.of_classes.entries class.now)) }
        ensures same { OnOk result ((v : Variable) → value_in self.new v ≡ value_in self.old v) }
    {
        if self.of_classes.contains_key(class.bytes()) {
            return Ok(());
        }
        let class = class.bytes().to_vec(alloc)?;
        self.of_classes.insert(class, IndexMap::new(alloc))?;
        Ok(())
    }

    pub(crate) fn set_outer(
        &mut self,
        alloc: Global,
        name: &Text,
        value: Value,
    ) -> Result<(), OutOfMemory>
        ensures { OnOk result (IsSet self.old (outer name.now) value self.new) }
    {
        set_named(alloc, &mut self.outer, name, value)
    }

    pub(crate) fn set_of_class_side(
        &mut self,
        class: u32,
        place: u8,
        value: Value,
    ) -> Result<(), OutOfMemory>
        ensures { OnOk result (IsSet self.old (class_side class place) value self.new) }
    {
        self.of_class_sides
            .insert(class_side_key(class, place), value)?;
        Ok(())
    }
}

fn class_side_key(class: u32, place: u8) -> u64
    ensures { result ≡ class * 256 + place }
{
    u64::from(class) * 256 + u64::from(place)
}

// A variable that was assigned before is found by its name, without a copy of it.
fn set_named(
    alloc: Global,
    variables: &mut IndexMap<Vec<u8>, Value>,
    name: &Text,
    value: Value,
) -> Result<(), OutOfMemory>
    ensures { OnOk result (IsNamed variables.old.entries name.now value variables.new.entries) }
{
    if let Some(held) = variables.get_mut(name.bytes()) {
        *held = value;
        return Ok(());
    }
    variables.insert(name.bytes().to_vec(alloc)?, value)?;
    Ok(())
}
