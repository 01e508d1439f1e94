// The classes of an image by their names, and how many stand above each.
ghost use Rattle.std.specs.Prelude.{◌≡◌, ◌≤◌, ◌<◌, ◌++◌, true, false, length, map as list_map, slice_get, Some, IfOk, IfSome, OnOk};
ghost use Rattle.std.specs.List.Sorted.{IsPartitionPoint, IsStrictlySortedBy};
ghost use Rattle.std.specs.Option.{option_map_or};
ghost use Rattle.std.specs.Ordering.{is_lt, nat_cmp};
ghost use Rattle.std.specs.Str.{bytes_eq};
ghost use Rattle.std.specs.Cmp.Lexicographic.{slice_cmp};
ghost use Rattle.s80_fileout.specs.Order.{own_in_order, own_names};
ghost use Rattle.s80_image.specs.Classes.{class_of, classes_of};
ghost use Rattle.s80_image.specs.Together.{classes_by_name};
ghost use Rattle.s80_snapshot.specs.Resuming.{AreOrdered, climbed, names_of, place_above, place_in, ranked, superclass_place};

use s80_base::{OutOfMemory, Text};
use s80_fileout::{RankedClass, sort_by_depth};
use s80_image::ImageClass;
use s80_kernel::is_kernel_class;
use std::alloc::Global;

/// The place of the class of this name.
pub(crate) fn find_class(classes: &[ImageClass], name: &Text) -> Option<usize>
    requires { IsStrictlySortedBy (slice_cmp nat_cmp) (names_of (classes_of classes.now)) }
    ensures place { result ≡ place_in (classes_of classes.now) name.now }
    ensures within { IfSome result (λ place. place < length classes.now) }
{
    let place = lower_bound(classes, name.bytes());
    if is_at(classes, place, name.bytes()) {
        Some(place)
    } else {
        None
    }
}

/// How many classes have names below this one.
fn lower_bound(classes: &[ImageClass], name: &[u8]) -> usize
    requires { IsStrictlySortedBy (slice_cmp nat_cmp) (names_of (classes_of classes.now)) }
    ensures bound { result ≤ length classes.now }
    ensures point { IsPartitionPoint (λ c. is_lt (slice_cmp nat_cmp c.heading.name name.now) ≡ true) (λ c. is_lt (slice_cmp nat_cmp c.heading.name name.now) ≡ false) classes.now result }
{
    classes.partition_point(|class| class.heading.name.bytes().cmp(name).is_lt())
}

fn is_at(classes: &[ImageClass], place: usize, name: &[u8]) -> bool
    ensures { result ≡ option_map_or (λ c. bytes_eq c.heading.name name.now) (slice_get classes.now place) false }
{
    match classes.get(place) {
        Some(class) => class.heading.name.bytes() == name,
        None => false,
    }
}

/// The classes that are none of the kernel's, each behind its superclass: by their depths, and within these in byte order of their names.
pub(crate) fn own_classes(
    alloc: Global,
    classes: &[ImageClass],
) -> Result<Vec<RankedClass>, OutOfMemory>
    requires { AreOrdered (classes_of classes.now) }
    ensures { IfOk result (λ own. list_map (λ class. class.class_name) own.items ≡ own_names (classes_by_name (classes_of classes.now))) }
{
    let mut own = named_classes(alloc, classes)?;
    sort_by_depth(&mut own)?;
    Ok(own)
}

/// The same in byte order of their names.
fn named_classes(alloc: Global, classes: &[ImageClass]) -> Result<Vec<RankedClass>, OutOfMemory>
    requires { AreOrdered (classes_of classes.now) }
    ensures { IfOk result (λ own. own.items ≡ own_in_order (classes_by_name (classes_of classes.now))) }
{
    let above = superclasses(alloc, classes)?;
    let mut own = Vec::new(alloc);
    for (place, class) in classes.iter().enumerate() {
        add_ranked(alloc, &class.heading.name, depth(&above, place), &mut own)?;
    }
    Ok(own)
}

/// Adds a class with its depth, unless it is one of the kernel's.
fn add_ranked(
    alloc: Global,
    class_name: &Text,
    depth: usize,
    own: &mut Vec<RankedClass>,
) -> Result<(), OutOfMemory>
    ensures { OnOk result (own.new.items ≡ own.old.items ++ ranked depth class_name.now) }
{
    if is_kernel_class(class_name.bytes()) {
        return Ok(());
    }
    let class_name = class_name.copy(alloc)?;
    own.push(RankedClass { depth, class_name })?;
    Ok(())
}

/// For each class the place of its superclass.
fn superclasses(alloc: Global, classes: &[ImageClass]) -> Result<Vec<Option<usize>>, OutOfMemory>
    requires { IsStrictlySortedBy (slice_cmp nat_cmp) (names_of (classes_of classes.now)) }
    ensures { IfOk result (λ above. above.items ≡ list_map (superclass_place (classes_of classes.now)) (classes_of classes.now)) }
{
    let mut above = Vec::new(alloc);
    for class in classes {
        above.push(superclass_place(classes, class))?;
    }
    Ok(above)
}

/// The place of the superclass of a class, if it has one.
fn superclass_place(classes: &[ImageClass], class: &ImageClass) -> Option<usize>
    requires { IsStrictlySortedBy (slice_cmp nat_cmp) (names_of (classes_of classes.now)) }
    ensures { result ≡ superclass_place (classes_of classes.now) (class_of class.now) }
{
    let name = &class.heading.superclass;
    if name.bytes().is_empty() {
        return None;
    }
    find_class(classes, name)
}

/// How many classes stand above the class of this place, itself among them.
fn depth(above: &[Option<usize>], place: usize) -> usize
    ensures { result ≡ climbed (length above.now) above.now (Some place) }
{
    let mut next = Some(place);
    for depth in 0..above.len() {
        let Some(place) = next else {
            return depth;
        };
        next = place_above(above, place);
    }
    above.len()
}

fn place_above(above: &[Option<usize>], place: usize) -> Option<usize>
    ensures { result ≡ place_above above.now place }
{
    *above.get(place)?
}
