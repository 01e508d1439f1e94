// Superclasses by where they stand among the classes, and the chains of them.
ghost use Rattle.std.specs.Prelude.{◌≡◌, ◌<◌, true, length, slice_get, Some, IfOk};
ghost use Rattle.std.specs.FinMap as map;
ghost use Rattle.s80_class.specs.Classes.{inherited_of};
ghost use Rattle.s80_class.specs.Counted.{over, own, totals as counted_totals};
ghost use Rattle.s80_image.specs.Classes.{ClassView, classes as classes_format, classes_of};
ghost use Rattle.s80_image.specs.Superclasses.{AreLinked, AreSuperclasses, IsPlaceOf};
ghost use Rattle.s80_image.specs.Together.{classes_by_name, ends_within};

use crate::image::{ClassHeading, ImageClass};
use s80_base::OutOfMemory;
use s80_class::Totals;
use s80_form::Kind;
use std::alloc::Global;

/// Where the class of this name stands.
pub(crate) fn place_of(classes: &[ImageClass], name: &[u8]) -> Option<usize>
    requires { classes_format.lawful (classes_of classes.now) ≡ true }
    ensures { IsPlaceOf (classes_of classes.now) name.now result }
{
    let sought = classes.binary_search_by(|class| class.heading.name.bytes().cmp(name));
    sought.ok()
}

/// Where the superclass of each class stands.
pub(crate) fn superclasses(
    alloc: Global,
    classes: &[ImageClass],
) -> Result<Vec<Option<usize>>, OutOfMemory>
    requires { classes_format.lawful (classes_of classes.now) ≡ true }
    ensures { IfOk result (λ places. AreSuperclasses (classes_of classes.now) (length classes.now) places.items) }
{
    let mut places = Vec::new(alloc);
    for class in classes {
        places.push(place_of(classes, class.heading.superclass.bytes()))?;
    }
    Ok(places)
}

/// Whether the chain of superclasses from a class on ends.
pub(crate) fn has_end(classes: &[ImageClass], superclasses: &[Option<usize>], class: usize) -> bool
    requires linked { AreLinked (classes_of classes.now) superclasses.now }
    requires class { class < length classes.now }
    ensures { (c : ClassView) → slice_get (classes_of classes.now) class ≡ Some c
        → result ≡ ends_within (map.len (classes_by_name (classes_of classes.now))) (classes_by_name (classes_of classes.now)) (Some c.heading.name) }
{
    let mut next = Some(class);
    for _ in 0..classes.len() {
        let Some(at) = next else {
            return true;
        };
        next = superclasses[at];
    }
    next.is_none()
}

/// What a class has by itself.
fn own(heading: &ClassHeading) -> Totals
    ensures { result ≡ own heading.now.kind heading.now.variables.instance heading.now.variables.class_side }
{
    Totals {
        inst_vars: heading.variables.instance.count(),
        class_side_vars: heading.variables.class_side.count(),
        kind: heading.kind,
    }
}

/// With what the class above has by itself.
fn over(totals: Totals, above: Totals) -> Totals
    ensures { result ≡ over totals above }
{
    Totals {
        inst_vars: totals.inst_vars.saturating_add(above.inst_vars),
        class_side_vars: totals.class_side_vars.saturating_add(above.class_side_vars),
        kind: match totals.kind {
            Kind::Plain => above.kind,
            kind => kind,
        },
    }
}

/// What a class has with all that it inherits.
pub(crate) fn totals(classes: &[ImageClass], superclasses: &[Option<usize>], class: usize) -> Totals
    requires linked { AreLinked (classes_of classes.now) superclasses.now }
    requires class { class < length classes.now }
    ensures { (c : ClassView) → slice_get (classes_of classes.now) class ≡ Some c
        → result ≡ counted_totals (inherited_of (classes_by_name (classes_of classes.now)) c.heading.name) }
{
    let mut totals = Totals {
        inst_vars: 0,
        class_side_vars: 0,
        kind: Kind::Plain,
    };
    let mut next = Some(class);
    for _ in 0..classes.len() {
        let Some(at) = next else {
            return totals;
        };
        totals = over(totals, own(&classes[at].heading));
        next = superclasses[at];
    }
    totals
}
