// What a list left of classes and methods, by their names: their versions, and which members a later one leaves out.
ghost use Rattle.std.specs.Prelude.{◌≡◌, ◌++◌, ◌∷◌, ℕ, [], max, List, None, IfOk, OnOk, option_copied, reverse, slice_get, Some, IsSome};
ghost use Rattle.s80_history.specs.Traces.{AreAlike, AreAlikeIn, AreAlikeUnder, HasPlace, HasPlaceIn, HasRoom, IsMoreAmong, IsMoreIn, IsMoreUnder, IsNotedAmong, IsNotedIn, IsNotedOf, IsNotedOnSide, IsNotedUnder, held, joined, method_in, methods_on, versions_in};

use crate::noted::{Noted, NotedKind};
use indexmap::IndexMap;
use s80_base::{OutOfMemory, Side, Text};
use std::alloc::Global;

/// What a list left of a method.
#[derive(Debug, Drop)]
pub(crate) struct MethodTrace {
    /// The places of its versions, the oldest first.
    pub(crate) versions: Vec<u64>,
    /// The group that the method's next member joins, by its first member, which is counted through all sets. It isn't joined any more where
    /// the class was removed since, or the set began anew.
    pub(crate) group: Option<u64>,
}

/// What a list left of a class.
#[derive(Debug, Drop)]
pub(crate) struct ClassTrace {
    /// How many members there were when it was last removed.
    pub(crate) removed: u64,
    /// The group that its next comment joins.
    pub(crate) comment: Option<u64>,
    pub(crate) instance: IndexMap<Vec<u8>, MethodTrace>,
    pub(crate) class: IndexMap<Vec<u8>, MethodTrace>,
}

/// Joins the group, if it didn't begin before `from`, or begins one by the member of this number. Answers the group's first member.
fn join(group: &mut Option<u64>, from: u64, number: u64) -> u64
    ensures joins { result ≡ joined from group.old number }
    ensures group { group.new ≡ Some (joined from group.old number) }
{
    let joined = match *group {
        Some(first) if first >= from => first,
        _ => number,
    };
    *group = Some(joined);
    joined
}

impl MethodTrace {
    fn empty(alloc: Global) -> Self
        ensures versions { result.versions.items ≡ [] }
        ensures group { result.group ≡ None }
    {
        MethodTrace {
            versions: Vec::new(alloc),
            group: None,
        }
    }

    fn add_version(&mut self, at: u64)
        requires { HasRoom (Some self.old) }
        ensures versions { self.new.versions.items ≡ self.old.versions.items ++ at ∷ [] }
        ensures group { self.new.group ≡ self.old.group }
    {
        self.versions.push_reserved(at);
    }

    /// Notes a member on the method. Answers the first of its group.
    fn note(&mut self, noted: &Noted, from: u64, number: u64) -> u64
        requires { HasPlace noted.now.kind (Some self.old) }
        ensures { IsNotedOf noted.now from number self.old self.new result }
    {
        match noted.kind {
            NotedKind::Method => {
                self.versions.push_reserved(noted.at);
                join(&mut self.group, from, number)
            }
            NotedKind::Classify => join(&mut self.group, from, number),
            NotedKind::RemoveMethod => {
                self.group = None;
                number
            }
            NotedKind::Define
            | NotedKind::ClassVars
            | NotedKind::Comment
            | NotedKind::RemoveClass => number,
        }
    }
}

/// Adds a newest version to a method of one side of a class. Takes no memory.
fn add_version_among(methods: &mut IndexMap<Vec<u8>, MethodTrace>, selector: &Text, at: u64)
    requires { HasRoom (held methods.old.entries selector.now) }
    ensures { IsMoreAmong selector.now at methods.old.entries methods.new.entries }
{
    if let Some(method) = methods.get_mut(selector.bytes()) {
        method.add_version(at);
    }
}

/// Notes a member on a method of one side of a class.
fn note_among(
    methods: &mut IndexMap<Vec<u8>, MethodTrace>,
    noted: &Noted,
    from: u64,
    number: u64,
) -> u64
    requires { HasPlace noted.now.kind (held methods.old.entries noted.now.selector) }
    ensures { IsNotedAmong noted.now from number methods.old.entries methods.new.entries result }
{
    match methods.get_mut(noted.selector.bytes()) {
        Some(method) => method.note(noted, from, number),
        None => number,
    }
}

/// Gives a method of one side of a class room for one more version.
fn make_room(
    methods: &mut IndexMap<Vec<u8>, MethodTrace>,
    alloc: Global,
    selector: &Text,
) -> Result<(), OutOfMemory>
    ensures same { AreAlike methods.old.entries methods.new.entries }
    ensures room { OnOk result (HasRoom (held methods.new.entries selector.now)) }
{
    add_method(methods, alloc, selector)?;
    let method = methods.get_mut(selector.bytes()).unwrap();
    method.versions.reserve(1)?;
    Ok(())
}

/// The method without any trace, where it has none so far.
fn add_method(
    methods: &mut IndexMap<Vec<u8>, MethodTrace>,
    alloc: Global,
    selector: &Text,
) -> Result<(), OutOfMemory>
    ensures same { AreAlike methods.old.entries methods.new.entries }
    ensures there { OnOk result (IsSome (held methods.new.entries selector.now)) }
{
    if methods.contains_key(selector.bytes()) {
        return Ok(());
    }
    let selector = selector.bytes().to_vec(alloc)?;
    methods.insert(selector, MethodTrace::empty(alloc))?;
    Ok(())
}

impl ClassTrace {
    fn empty(alloc: Global) -> Self
        ensures removed { result.removed ≡ 0 }
        ensures comment { result.comment ≡ None }
        ensures instance { result.instance.entries ≡ [] }
        ensures class { result.class.entries ≡ [] }
    {
        ClassTrace {
            removed: 0,
            comment: None,
            instance: IndexMap::new(alloc),
            class: IndexMap::new(alloc),
        }
    }

    /// What is left of a method of the class.
    fn method(&self, side: Side, selector: &Text) -> Option<&MethodTrace>
        ensures { option_copied result ≡ held (methods_on self.now side) selector.now }
    {
        match side {
            Side::Instance => self.instance.get(selector.bytes()),
            Side::Class => self.class.get(selector.bytes()),
        }
    }

    /// Notes a member on the class or a method of it. Answers the first of its group.
    fn note(&mut self, noted: &Noted, begun: u64, number: u64) -> u64
        requires { HasPlace noted.now.kind (held (methods_on self.old noted.now.side) noted.now.selector) }
        ensures { IsNotedUnder noted.now (max begun self.old.removed) number self.old self.new result }
    {
        let from = begun.max(self.removed);
        match noted.kind {
            NotedKind::Comment => join(&mut self.comment, from, number),
            NotedKind::RemoveClass => {
                self.removed = number;
                number
            }
            NotedKind::Method | NotedKind::RemoveMethod | NotedKind::Classify => {
                self.note_on_side(noted, from, number)
            }
            NotedKind::Define | NotedKind::ClassVars => number,
        }
    }

    fn note_on_side(&mut self, noted: &Noted, from: u64, number: u64) -> u64
        requires { HasPlace noted.now.kind (held (methods_on self.old noted.now.side) noted.now.selector) }
        ensures { IsNotedOnSide noted.now from number self.old self.new result }
    {
        match noted.side {
            Side::Instance => note_among(&mut self.instance, noted, from, number),
            Side::Class => note_among(&mut self.class, noted, from, number),
        }
    }

    fn add_version(&mut self, side: Side, selector: &Text, at: u64)
        requires { HasRoom (held (methods_on self.old side) selector.now) }
        ensures { IsMoreUnder side selector.now at self.old self.new }
    {
        match side {
            Side::Instance => add_version_among(&mut self.instance, selector, at),
            Side::Class => add_version_among(&mut self.class, selector, at),
        }
    }

    fn make_room(&mut self, alloc: Global, side: Side, selector: &Text) -> Result<(), OutOfMemory>
        ensures same { AreAlikeUnder self.old self.new }
        ensures room { OnOk result (HasRoom (held (methods_on self.new side) selector.now)) }
    {
        match side {
            Side::Instance => make_room(&mut self.instance, alloc, selector),
            Side::Class => make_room(&mut self.class, alloc, selector),
        }
    }
}

/// Notes a member on a class or a method. Answers the first of its group.
pub(crate) fn note(
    classes: &mut IndexMap<Vec<u8>, ClassTrace>,
    noted: &Noted,
    begun: u64,
    number: u64,
) -> u64
    requires { HasPlaceIn classes.old.entries noted.now }
    ensures { IsNotedIn noted.now begun number classes.old.entries classes.new.entries result }
{
    match classes.get_mut(noted.class_name.bytes()) {
        Some(class) => class.note(noted, begun, number),
        None => number,
    }
}

/// Gives a member all the room that it takes.
pub(crate) fn make_place(
    classes: &mut IndexMap<Vec<u8>, ClassTrace>,
    alloc: Global,
    noted: &Noted,
) -> Result<(), OutOfMemory>
    ensures same { AreAlikeIn classes.old.entries classes.new.entries }
    ensures place { OnOk result (HasPlaceIn classes.new.entries noted.now) }
{
    match noted.kind {
        NotedKind::Comment => add_class(classes, alloc, &noted.class_name),
        NotedKind::Method | NotedKind::Classify => {
            make_method_room(
                classes,
                alloc,
                &noted.class_name,
                noted.side,
                &noted.selector,
            )
        }
        NotedKind::Define
        | NotedKind::ClassVars
        | NotedKind::RemoveMethod
        | NotedKind::RemoveClass => Ok(()),
    }
}

/// Gives a method room for one more version.
pub(crate) fn make_method_room(
    classes: &mut IndexMap<Vec<u8>, ClassTrace>,
    alloc: Global,
    class_name: &Text,
    side: Side,
    selector: &Text,
) -> Result<(), OutOfMemory>
    ensures same { AreAlikeIn classes.old.entries classes.new.entries }
    ensures room { OnOk result (HasRoom (method_in classes.new.entries (record { class_name = class_name.now; side = side; selector = selector.now }))) }
{
    add_class(classes, alloc, class_name)?;
    let class = classes.get_mut(class_name.bytes()).unwrap();
    class.make_room(alloc, side, selector)
}

/// Adds a newest version to a method. Takes no memory.
pub(crate) fn add_version(
    classes: &mut IndexMap<Vec<u8>, ClassTrace>,
    class_name: &Text,
    side: Side,
    selector: &Text,
    at: u64,
)
    requires { HasRoom (method_in classes.old.entries (record { class_name = class_name.now; side = side; selector = selector.now })) }
    ensures { IsMoreIn (record { class_name = class_name.now; side = side; selector = selector.now }) at classes.old.entries classes.new.entries }
{
    if let Some(class) = classes.get_mut(class_name.bytes()) {
        class.add_version(side, selector, at);
    }
}

/// The class without any trace, where it has none so far.
fn add_class(
    classes: &mut IndexMap<Vec<u8>, ClassTrace>,
    alloc: Global,
    class_name: &Text,
) -> Result<(), OutOfMemory>
    ensures same { AreAlikeIn classes.old.entries classes.new.entries }
    ensures there { OnOk result (IsSome (held classes.new.entries class_name.now)) }
{
    if classes.contains_key(class_name.bytes()) {
        return Ok(());
    }
    let class_name = class_name.bytes().to_vec(alloc)?;
    classes.insert(class_name, ClassTrace::empty(alloc))?;
    Ok(())
}

/// The places of the versions of a method, the oldest first.
pub(crate) fn versions<'a>(
    classes: &'a IndexMap<Vec<u8>, ClassTrace>,
    class_name: &Text,
    side: Side,
    selector: &Text,
) -> &'a [u64]
    ensures { result.now ≡ versions_in classes.now.entries (record { class_name = class_name.now; side = side; selector = selector.now }) }
{
    match method(classes, class_name, side, selector) {
        Some(method) => &method.versions,
        None => &[],
    }
}

fn method<'a>(
    classes: &'a IndexMap<Vec<u8>, ClassTrace>,
    class_name: &Text,
    side: Side,
    selector: &Text,
) -> Option<&'a MethodTrace>
    ensures { option_copied result ≡ method_in classes.now.entries (record { class_name = class_name.now; side = side; selector = selector.now }) }
{
    classes.get(class_name.bytes())?.method(side, selector)
}

/// The i-th of the newest, the last of all being that of 0.
pub(crate) fn newest(versions: &[u64], i: usize) -> Option<u64>
    ensures { result ≡ slice_get (reverse versions.now) i }
{
    let last = versions.len().checked_sub(1)?;
    versions.get(last.checked_sub(i)?).copied()
}

pub(crate) fn newest_first(alloc: Global, versions: &[u64]) -> Result<Vec<u64>, OutOfMemory>
    ensures { IfOk result (λ places. places.items ≡ reverse versions.now) }
{
    let mut places = versions.to_vec(alloc)?;
    places.reverse();
    Ok(places)
}
