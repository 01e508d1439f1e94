// Where fields of a class stand in an image.
ghost use Rattle.std.specs.Prelude.{◌≡◌, ◌+◌, length, IfOk};
ghost use Rattle.s80_image.specs.Classes.{classes as classes_format, classes_of};
ghost use Rattle.s80_image.specs.Superclasses.{field_behind};
ghost use Rattle.s80_image.specs.Together.{class_side_field, classes_place, instance_field, superclass_field};

use crate::encode::{kind_number, put_both_names, put_classes, put_names, put_text, put_texts};
use crate::image::{ClassHeading, ImageClass};
use s80_base::OutOfMemory;
use std::alloc::Global;

/// A field that is wrong: its place, and its value.
#[derive(Clone, Copy, Debug, PartialEq, Eq)]
pub(crate) struct Spot {
    pub place: u64,
    pub value: u64,
}

/// How many bytes stand before the list of classes.
const CLASSES: u64 = 13;

/// The field behind these bytes, of which the first are those of the list of classes.
pub(crate) fn spot_behind(bytes: &[u8], value: usize) -> Spot
    ensures place { result.place ≡ classes_place + length bytes.now }
    ensures value { result.value ≡ value }
{
    Spot {
        place: CLASSES + bytes.len() as u64,
        value: value as u64,
    }
}

/// What stands before the superclass of the class behind these.
fn up_to_superclass(
    alloc: Global,
    before: &[ImageClass],
    heading: &ClassHeading,
) -> Result<Vec<u8>, OutOfMemory>
    ensures { IfOk result (λ out. length out.items ≡ length (classes_format.spell (classes_of before.now)) + (superclass_field heading.now).0) }
{
    let mut out = Vec::new(alloc);
    put_classes(&mut out, before)?;
    put_text(&mut out, heading.name.bytes())?;
    Ok(out)
}

/// What stands before the variables of the class behind these.
fn up_to_variables(
    alloc: Global,
    before: &[ImageClass],
    heading: &ClassHeading,
) -> Result<Vec<u8>, OutOfMemory>
    ensures { IfOk result (λ out. length out.items ≡ length (classes_format.spell (classes_of before.now)) + (instance_field heading.now).0) }
{
    let mut out = Vec::new(alloc);
    put_classes(&mut out, before)?;
    put_texts(&mut out, &heading.name, &heading.superclass)?;
    out.push(kind_number(heading.kind))?;
    Ok(out)
}

/// The superclass of the class behind these.
pub(crate) fn superclass_field(
    alloc: Global,
    before: &[ImageClass],
    heading: &ClassHeading,
) -> Result<Spot, OutOfMemory>
    ensures { IfOk result (λ spot. (spot.place, spot.value) ≡ field_behind (classes_of before.now) (superclass_field heading.now)) }
{
    let out = up_to_superclass(alloc, before, heading)?;
    Ok(spot_behind(&out, heading.superclass.bytes().len()))
}

/// The list of instance variables of the class behind these.
pub(crate) fn instance_field(
    alloc: Global,
    before: &[ImageClass],
    heading: &ClassHeading,
) -> Result<Spot, OutOfMemory>
    ensures { IfOk result (λ spot. (spot.place, spot.value) ≡ field_behind (classes_of before.now) (instance_field heading.now)) }
{
    let out = up_to_variables(alloc, before, heading)?;
    Ok(spot_behind(&out, heading.variables.instance.count()))
}

/// The list of class-side variables of the class behind these.
pub(crate) fn class_side_field(
    alloc: Global,
    before: &[ImageClass],
    heading: &ClassHeading,
) -> Result<Spot, OutOfMemory>
    ensures { IfOk result (λ spot. (spot.place, spot.value) ≡ field_behind (classes_of before.now) (class_side_field heading.now)) }
{
    let variables = &heading.variables;
    let mut out = up_to_variables(alloc, before, heading)?;
    put_both_names(&mut out, &variables.instance, &variables.class)?;
    put_names(&mut out, &variables.pools)?;
    Ok(spot_behind(&out, variables.class_side.count()))
}
