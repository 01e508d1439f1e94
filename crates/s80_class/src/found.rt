// Where a message finds its method.
ghost use Rattle.std.specs.Prelude.{◌≡◌, codes, length, Some, ⊤};
ghost use Rattle.s80_class.specs.Lookup.{IsFound, first_found, numbers_from, on_side, places_from, places_up};
ghost use Rattle.s80_class.specs.Table.{IsClass, IsSuperclass, number_of};

use crate::table::ClassTable;
use s80_base::{Side, Text};
use s80_dict::{MethodEntry, MethodTable};
use std::alloc::AllocError;

/// A method, and the class and side in which it was found.
#[derive(Debug)]
pub struct Found<'a, C> {
    pub class: u32,
    pub side: Side,
    pub entry: &'a MethodEntry<C>,
}

impl<'a, C> Clone for Found<'a, C> {
    ghost is_clone = { λ x y. y ≡ x };

    ghost is_infallible = { λ _. ⊤ };

    fn clone(&self) -> Result<Self, AllocError> {
        Ok(*self)
    }
}

impl<'a, C> Copy for Found<'a, C> {}

/// The method that a message of this selector finds on a side of a class (Blue Book, part four): that of the class or of its
/// nearest superclass that has one; on the class side, behind all of these, that of the class Class or of its nearest superclass.
pub fn lookup<'a, C>(
    classes: &ClassTable,
    methods: &'a MethodTable<C>,
    class: u32,
    side: Side,
    selector: &Text,
) -> Option<Found<'a, C>>
    requires class { IsClass classes.now.names class }
    requires sides { length methods.now.sides ≡ length classes.now.names }
    ensures { IsFound (first_found methods.now selector.now (places_up classes.now class side)) result }
{
    let behind = classes.find_bytes(b"Class");
    lookup_from(classes, methods, Some(class), side, behind, selector)
}

/// The same from a class on that may be none, as above a class without a superclass. The number of the class Class is known, and isn't looked for.
pub fn lookup_from<'a, C>(
    classes: &ClassTable,
    methods: &'a MethodTable<C>,
    from: Option<u32>,
    side: Side,
    behind: Option<u32>,
    selector: &Text,
) -> Option<Found<'a, C>>
    requires class { IsSuperclass classes.now.names from }
    requires behind { behind ≡ number_of classes.now.names (codes "Class") }
    requires sides { length methods.now.sides ≡ length classes.now.names }
    ensures { IsFound (first_found methods.now selector.now (places_from classes.now from side)) result }
{
    let found = find_up(classes, methods, from, side, selector);
    if found.is_some() {
        return found;
    }
    match side {
        Side::Instance => None,
        Side::Class => find_up(classes, methods, behind, Side::Instance, selector),
    }
}

// The first method of a selector on a side of a class or of its superclasses.
fn find_up<'a, C>(
    classes: &ClassTable,
    methods: &'a MethodTable<C>,
    from: Option<u32>,
    side: Side,
    selector: &Text,
) -> Option<Found<'a, C>>
    requires class { IsSuperclass classes.now.names from }
    requires sides { length methods.now.sides ≡ length classes.now.names }
    ensures { IsFound (first_found methods.now selector.now (on_side side (numbers_from classes.now from))) result }
{
    let mut next = from;
    for _ in 0..classes.count() {
        let class = next?;
        if let Some(entry) = methods.dict(class, side).get(selector) {
            return Some(Found { class, side, entry });
        }
        next = classes.at(class).superclass;
    }
    None
}
