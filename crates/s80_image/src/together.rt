// What is asked of all classes of an image together, and whole images.
ghost use Rattle.std.specs.Prelude.{◌≡◌, ◌&&◌, true, not, codes, length, option_map, is_some, IfOk};
ghost use Rattle.std.specs.FinMap as map;
ghost use Rattle.std.specs.List.{list_any};
ghost use Rattle.std.specs.Str.{bytes_eq};
ghost use Rattle.s80_image.specs.Answers.{Answers, AreVerified, IsRead, image_met};
ghost use Rattle.s80_image.specs.Classes.{classes as classes_format, classes_of};
ghost use Rattle.s80_image.specs.Image.{ImageView, image_bytes, view_of};
ghost use Rattle.s80_image.specs.Superclasses.{AreLinked, AreSuperclasses, as_inherited};
ghost use Rattle.s80_image.specs.Together.{IsLawfulImage, classes_by_name, decoded_image, first_class_place, first_wrong, has_many_class_side_variables, has_many_variables, lacks_kernel_class, missing, wrong_chain, wrong_superclass, wrong_together, wrong_total};

use crate::chains::{has_end, place_of, superclasses, totals};
use crate::decode::decode_fields;
use crate::fault::ImageFault;
use crate::image::{ClassHeading, Image, ImageClass};
use crate::spots::{Spot, class_side_field, instance_field, spot_behind, superclass_field};
use s80_base::OutOfMemory;
use s80_class::Totals;
use s80_form::Kind;
use s80_kernel::{KernelClass, class_rows};
use std::alloc::Global;

// ---- superclasses

/// Whether a class has no superclass though it isn't Object.
fn lacks_superclass(heading: &ClassHeading, superclass: Option<usize>) -> bool
    ensures { result ≡ (not (bytes_eq heading.now.name (codes "Object")) && not (is_some superclass)) }
{
    heading.name.bytes() != b"Object".as_slice() && superclass.is_none()
}

/// The first superclass that isn't there.
fn wrong_superclass(
    alloc: Global,
    classes: &[ImageClass],
    superclasses: &[Option<usize>],
) -> Result<Option<Spot>, OutOfMemory>
    requires lawful { classes_format.lawful (classes_of classes.now) ≡ true }
    requires superclasses { AreSuperclasses (classes_of classes.now) (length classes.now) superclasses.now }
    ensures { IfOk result (λ spot. option_map (λ s. (s.place, s.value)) spot
        ≡ first_wrong (wrong_superclass (classes_by_name (classes_of classes.now))) first_class_place (classes_of classes.now)) }
{
    for i in 0..classes.len() {
        let heading = &classes[i].heading;
        if lacks_superclass(heading, superclasses[i]) {
            return Ok(Some(superclass_field(alloc, &classes[..i], heading)?));
        }
    }
    Ok(None)
}

/// The superclass of the first class whose chain doesn't end.
fn wrong_chain(
    alloc: Global,
    classes: &[ImageClass],
    superclasses: &[Option<usize>],
) -> Result<Option<Spot>, OutOfMemory>
    requires { AreLinked (classes_of classes.now) superclasses.now }
    ensures { IfOk result (λ spot. option_map (λ s. (s.place, s.value)) spot
        ≡ first_wrong (wrong_chain (classes_by_name (classes_of classes.now))) first_class_place (classes_of classes.now)) }
{
    for i in 0..classes.len() {
        if !has_end(classes, superclasses, i) {
            return Ok(Some(superclass_field(alloc, &classes[..i], &classes[i].heading)?));
        }
    }
    Ok(None)
}

// ---- variables

fn has_many_variables(totals: Totals) -> bool
    ensures { result ≡ has_many_variables (as_inherited totals) }
{
    let bits_variables = match totals.kind {
        Kind::Plain | Kind::Pointers => 0,
        Kind::Bytes | Kind::Words => totals.inst_vars,
    };
    totals.inst_vars > 64 || bits_variables > 0
}

fn has_many_class_side_variables(totals: Totals) -> bool
    ensures { result ≡ has_many_class_side_variables (as_inherited totals) }
{
    totals.class_side_vars > 64
}

/// The first list with which a class has too many variables.
fn wrong_total(
    alloc: Global,
    classes: &[ImageClass],
    superclasses: &[Option<usize>],
) -> Result<Option<Spot>, OutOfMemory>
    requires { AreLinked (classes_of classes.now) superclasses.now }
    ensures { IfOk result (λ spot. option_map (λ s. (s.place, s.value)) spot
        ≡ first_wrong (wrong_total (classes_by_name (classes_of classes.now))) first_class_place (classes_of classes.now)) }
{
    for i in 0..classes.len() {
        let totals = totals(classes, superclasses, i);
        if has_many_variables(totals) {
            return Ok(Some(instance_field(alloc, &classes[..i], &classes[i].heading)?));
        }
        if has_many_class_side_variables(totals) {
            return Ok(Some(class_side_field(alloc, &classes[..i], &classes[i].heading)?));
        }
    }
    Ok(None)
}

// ---- classes of the kernel

fn has_class(classes: &[ImageClass], name: &[u8]) -> bool
    requires { classes_format.lawful (classes_of classes.now) ≡ true }
    ensures { result ≡ map.contains_key (classes_by_name (classes_of classes.now)) name.now }
{
    place_of(classes, name).is_some()
}

fn lacks_one_of(rows: &[KernelClass], classes: &[ImageClass]) -> bool
    requires { classes_format.lawful (classes_of classes.now) ≡ true }
    ensures { result ≡ list_any (λ row. not (map.contains_key (classes_by_name (classes_of classes.now)) row.name.now)) rows.now }
{
    for row in rows {
        if !has_class(classes, row.name.as_bytes()) {
            return true;
        }
    }
    false
}

fn lacks_kernel_class(classes: &[ImageClass]) -> bool
    requires { classes_format.lawful (classes_of classes.now) ≡ true }
    ensures { result ≡ lacks_kernel_class (classes_by_name (classes_of classes.now)) }
{
    lacks_one_of(class_rows(), classes)
}

/// The list of classes, where one of the kernel is missing.
fn missing(classes: &[ImageClass]) -> Option<Spot>
    requires { classes_format.lawful (classes_of classes.now) ≡ true }
    ensures { option_map (λ s. (s.place, s.value)) result ≡ missing (classes_by_name (classes_of classes.now)) (classes_of classes.now) }
{
    if lacks_kernel_class(classes) {
        Some(spot_behind(&[], classes.len()))
    } else {
        None
    }
}

// ---- all of them

/// The first field that is wrong, with all classes seen together.
fn wrong_together(alloc: Global, classes: &[ImageClass]) -> Result<Option<Spot>, OutOfMemory>
    requires { classes_format.lawful (classes_of classes.now) ≡ true }
    ensures { IfOk result (λ spot. option_map (λ s. (s.place, s.value)) spot ≡ wrong_together (classes_of classes.now)) }
{
    let superclasses = superclasses(alloc, classes)?;
    if let Some(spot) = wrong_superclass(alloc, classes, &superclasses)? {
        return Ok(Some(spot));
    }
    if let Some(spot) = wrong_chain(alloc, classes, &superclasses)? {
        return Ok(Some(spot));
    }
    if let Some(spot) = wrong_total(alloc, classes, &superclasses)? {
        return Ok(Some(spot));
    }
    Ok(missing(classes))
}

/// The image that bytes spell, which is lawful, and each of whose codes is verified.
pub fn decode_image(alloc: Global, bytes: &[u8]) -> Result<Image, ImageFault>
    // What is answered, in the order of the bytes: the image, the first unlawful field, or the first code that isn't verified; and behind them all, the
    // first field that is wrong where all classes are seen together.
    ensures exact { Answers view_of result (decoded_image bytes.now) (image_met bytes.now) }
    // What is read is lawful, and spelled so.
    ensures found { IfOk result (λ image. IsLawfulImage (view_of image) × (bytes.now ≡ image_bytes (view_of image))) }
    // What is spelled so is read.
    ensures only { (image : ImageView) → IsLawfulImage image → AreVerified image → bytes.now ≡ image_bytes image → IsRead image result }
{
    let image = decode_fields(alloc, bytes)?;
    match wrong_together(alloc, &image.classes)? {
        Some(spot) => Err(ImageFault::Field(spot.place, spot.value)),
        None => Ok(image),
    }
}
