// What stretches of instructions do of the items of Arrays, and what they know for it.
ghost use Rattle.std.specs.Prelude.{◌≡◌, ◌∷◌, [], pos, IfSome, IsTrue, MatchBool};
ghost use Rattle.s80_class.specs.Table.{Table};
ghost use Rattle.s80_object.specs.declared.value.Value.TheVariants.{Small};
ghost use Rattle.s80_prims.specs.Primitives.{World as Reached, done, primitive};
ghost use Rattle.s80_machine.specs.Came.{IsReady, given_of};
ghost use Rattle.s80_machine.specs.Quick.{FindsPrimitive, IsArray, IsQuick, Puts};

use crate::setting::Setting;
use s80_base::Side;
use s80_object::{Objects, Value};

/// The number of `at:` among the messages that have bytes of their own.
pub(crate) const AT: u8 = 16;

/// The number of `at:put:`.
pub(crate) const AT_PUT: u8 = 17;

/// The primitive that reads an item.
const READS_ITEM: u8 = 60;

/// The primitive that puts an item.
const PUTS_ITEM: u8 = 61;

/// What stretches of instructions know of what a run doesn't change.
#[derive(Clone, Copy, Debug)]
pub(crate) struct Quick {
    pub budget: u64,
    pub array: u32,
    /// Whether `at:` finds the primitive that reads an item, where it is sent to an Array.
    pub reads: bool,
    /// Whether `at:put:` finds the primitive that puts one.
    pub puts: bool,
}

impl<'a> Setting<'a> {
    /// What stretches of instructions know of it.
    pub(crate) fn quick(&self) -> Quick
        requires { IsReady self.now }
        ensures { IsQuick (given_of self.now) result }
    {
        Quick {
            budget: self.budget,
            array: self.kernel.array,
            reads: self.finds_of_array(AT, READS_ITEM),
            puts: self.finds_of_array(AT_PUT, PUTS_ITEM),
        }
    }

    // Whether one of the messages that have bytes of their own finds this primitive, where it is sent to an Array.
    fn finds_of_array(&self, number: u8, primitive: u8) -> bool
        requires { IsReady self.now }
        ensures { IsTrue result → FindsPrimitive (given_of self.now) self.now.kernel.array number primitive }
    {
        let Some(selector) = self.special_selector(number) else {
            return false;
        };
        let Some(found) = self.find(self.kernel.array, Side::Instance, selector) else {
            return false;
        };
        found.entry.code.code().primitive == primitive
    }
}

/// The item of an Array at a place.
pub(crate) fn item_of(quick: &Quick, objects: &Objects, array: Value, place: Value) -> Option<Value>
    ensures { IfSome result (λ v. IsTrue quick.now.reads × IsArray quick.now.array objects.now array
        × ((t : Table) (w : Reached) → w.objects ≡ objects.now → primitive t 60 array (place ∷ []) w ≡ done w v)) }
{
    if !quick.reads {
        return None;
    }
    let i = place_named(place)?;
    if !is_array(quick, objects, array) {
        return None;
    }
    match objects.item(array, i) {
        Ok(item) => Some(item),
        Err(_) => None,
    }
}

/// Puts an item of an Array at a place and counts a tick, or changes nothing.
pub(crate) fn put_item(
    quick: &Quick,
    objects: &mut Objects,
    ticks: &mut u64,
    array: Value,
    place: Value,
    to: Value,
) -> bool
    ensures { MatchBool result (Puts quick.now array place to objects.old ticks.old objects.new ticks.new) ((objects.new ≡ objects.old) × (ticks.new ≡ ticks.old)) }
{
    if !quick.puts {
        return false;
    }
    let Some(i) = place_named(place) else {
        return false;
    };
    if !is_array(quick, objects, array) {
        return false;
    }
    if *ticks >= quick.budget {
        return false;
    }
    match objects.set_item(array, i, to) {
        Ok(()) => {
            *ticks += 1;
            true
        }
        Err(_) => false,
    }
}

// The place that a value names.
fn place_named(place: Value) -> Option<u32>
    ensures { IfSome result (λ i. place ≡ Small (pos i)) }
{
    match place {
        Value::Small(i) => u32::try_from(i).ok(),
        _ => None,
    }
}

// Whether a value is an instance of the class of Arrays.
fn is_array(quick: &Quick, objects: &Objects, v: Value) -> bool
    ensures { IsTrue result → IsArray quick.now.array objects.now v }
{
    let Some((class, _)) = objects.class_at(v) else {
        return false;
    };
    class == quick.array
}
