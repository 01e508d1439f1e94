// The names of the methods that have versions, in order.
ghost use Rattle.std.specs.Prelude.{◌≡◌, ◌<◌, ◌≤◌, false, length, map as list_map, option_map, slice_get, true, vec_capacity, vec_len, IfOk, IsSome};
ghost use Rattle.std.specs.List.Sorted.{IsPartitionPoint, IsStrictlySortedBy};
ghost use Rattle.std.specs.Option.{option_map_or};
ghost use Rattle.std.specs.Ordering.{is_eq, is_lt};
ghost use Rattle.s80_history.specs.Keys.{key_name, name_ready, names_in, with_name, with_names};
ghost use Rattle.s80_history.specs.Order.{name_cmp, rank};

use crate::noted::{Noted, NotedKind};
use s80_base::{OutOfMemory, Side, Text};
use std::alloc::Global;
use std::cmp::Ordering;

/// The name of a method that has versions.
#[derive(Debug, Drop)]
pub(crate) struct MethodKey {
    pub(crate) class_name: Text,
    pub(crate) side: Side,
    pub(crate) selector: Text,
}

impl MethodKey {
    pub(crate) fn copied(
        alloc: Global,
        class_name: &Text,
        side: Side,
        selector: &Text,
    ) -> Result<Self, OutOfMemory>
        ensures { IfOk result (λ key. key ≡ record { class_name = class_name.now; side = side; selector = selector.now }) }
    {
        let class_name = class_name.copy(alloc)?;
        let selector = selector.copy(alloc)?;
        Ok(MethodKey {
            class_name,
            side,
            selector,
        })
    }
}

/// The name of the method that a member puts, if it puts one.
pub(crate) fn key_of(alloc: Global, noted: &Option<Noted>) -> Result<Option<MethodKey>, OutOfMemory>
    ensures { IfOk result (λ key. option_map key_name key ≡ name_ready noted.now) }
{
    match noted {
        Some(noted) => key_put(alloc, noted),
        None => Ok(None),
    }
}

fn key_put(alloc: Global, noted: &Noted) -> Result<Option<MethodKey>, OutOfMemory>
    ensures { IfOk result (λ key. option_map key_name key ≡ name_ready (Some noted.now)) }
{
    match noted.kind {
        NotedKind::Method => {
            let key = MethodKey::copied(alloc, &noted.class_name, noted.side, &noted.selector)?;
            Ok(Some(key))
        }
        NotedKind::Define
        | NotedKind::ClassVars
        | NotedKind::Comment
        | NotedKind::RemoveMethod
        | NotedKind::Classify
        | NotedKind::RemoveClass => Ok(None),
    }
}

fn rank(side: Side) -> u8
    ensures { result ≡ rank side }
{
    match side {
        Side::Instance => 0,
        Side::Class => 1,
    }
}

fn compare(one: &MethodKey, other: &MethodKey) -> Ordering
    ensures { result ≡ name_cmp (key_name one.now) (key_name other.now) }
{
    one.class_name
        .bytes()
        .cmp(other.class_name.bytes())
        .then(rank(one.side).cmp(&rank(other.side)))
        .then(one.selector.bytes().cmp(other.selector.bytes()))
}

/// How many keys come before this one.
fn place(keys: &[MethodKey], key: &MethodKey) -> usize
    requires { IsStrictlySortedBy name_cmp (names_in keys.now) }
    ensures bound { result ≤ length keys.now }
    ensures point { IsPartitionPoint (λ k. is_lt (name_cmp (key_name k) (key_name key.now)) ≡ true) (λ k. is_lt (name_cmp (key_name k) (key_name key.now)) ≡ false) keys.now result }
{
    keys.partition_point(|other| compare(other, key).is_lt())
}

fn is_at(keys: &[MethodKey], at: usize, key: &MethodKey) -> bool
    ensures { result ≡ option_map_or (λ k. is_eq (name_cmp (key_name k) (key_name key.now))) (slice_get keys.now at) false }
{
    match keys.get(at) {
        Some(other) => compare(other, key).is_eq(),
        None => false,
    }
}

/// Puts a key among keys that are in order, if it isn't there. Takes no memory.
pub(crate) fn put(keys: &mut Vec<MethodKey>, key: MethodKey)
    requires room { vec_len keys.old < vec_capacity keys.old }
    requires sorted { IsStrictlySortedBy name_cmp (names_in keys.old.items) }
    ensures { names_in keys.new.items ≡ with_name (key_name key) (names_in keys.old.items) }
{
    let at = place(keys, &key);
    if is_at(keys, at, &key) {
        return;
    }
    keys.insert(at, key).unwrap();
}

/// The same, if there is one.
pub(crate) fn put_next(keys: &mut Vec<MethodKey>, key: Option<MethodKey>)
    requires room { IsSome key → vec_len keys.old < vec_capacity keys.old }
    requires sorted { IsStrictlySortedBy name_cmp (names_in keys.old.items) }
    ensures { names_in keys.new.items ≡ with_names (option_map key_name key) (names_in keys.old.items) }
{
    if let Some(key) = key {
        put(keys, key);
    }
}

/// The i-th key, as it is told.
pub(crate) fn key_at(keys: &[MethodKey], i: usize) -> Option<(&Text, Side, &Text)>
    ensures { option_map (λ k. record { class_name = k.0.now; side = k.1; selector = k.2.now }) result ≡ slice_get (names_in keys.now) i }
{
    let key = keys.get(i)?;
    Some((&key.class_name, key.side, &key.selector))
}
