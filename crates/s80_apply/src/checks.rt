// Why a change of a class is refused, in the order in which its checks are made.
ghost use Rattle.std.specs.Prelude.{◌≡◌, ◌<◌, ◌≤◌, ◌^◌, ◌++◌, ◌∷◌, [], List, ℕ, Bool, true, false, not, length, find, IfOk, IfNone, Option, Some, option_copied, option_map};
ghost use Rattle.std.specs.FinMap as map;
ghost use Rattle.s80_form.specs.Name.{is_name};
ghost use Rattle.s80_form.specs.declared.refusal.Refusal.TheVariants.{BadName, Duplicate};
ghost use Rattle.s80_form.specs.declared.refusal.ManyKind.TheVariants.{ClassSideVariables};
ghost use Rattle.s80_class.specs.Classes.{IsValid, Name, ClassRow, change_row, is_under, inherited_of, extent_of, with_class_side_vars};
ghost use Rattle.s80_class.specs.Table.{IsClass, IsNumberOf};
ghost use Rattle.s80_class.specs.Counted.{totals};
ghost use Rattle.s80_apply.specs.Accept.{define, bad_name, unknown_name, has_subclasses, kernel_name, cycle, duplicate, first_again, too_many, above};
ghost use Rattle.s80_apply.specs.Limits.{IsWithin};
ghost use Rattle.s80_apply.specs.Extent.{IsGreatest, totals_on, alone};

use crate::entry::class_named;
use s80_base::{Names, OutOfMemory, Text};
use s80_class::{ClassTable, Greatest, Kind, Totals};
use s80_form::{Definition, ManyKind, Refusal, is_class_name, is_name};
use std::alloc::Global;
use std::collections::BTreeSet;

/// The name of the class and those of the lists are names.
pub(crate) fn bad_name(
    alloc: Global,
    definition: &Definition,
) -> Result<Option<Refusal>, OutOfMemory>
    ensures { IfOk result (λ r. r ≡ bad_name definition.now) }
{
    if !is_class_name(definition.class_name.bytes()) {
        let name = definition.class_name.copy(alloc)?;
        return Ok(Some(Refusal::BadName(name)));
    }
    match bad_variable(definition) {
        Some(name) => Ok(Some(Refusal::BadName(name.copy(alloc)?))),
        None => Ok(None),
    }
}

/// These names are names.
pub(crate) fn bad_name_among(alloc: Global, names: &Names) -> Result<Option<Refusal>, OutOfMemory>
    ensures { IfOk result (λ r. r ≡ option_map BadName (find (λ name. not (is_name name)) names.now)) }
{
    match first_bad(names) {
        Some(name) => Ok(Some(Refusal::BadName(name.copy(alloc)?))),
        None => Ok(None),
    }
}

/// The first name in the lists that isn't one.
fn bad_variable(definition: &Definition) -> Option<&Text>
    ensures { option_copied result ≡ find (λ name. not (is_name name)) (definition.now.inst_vars ++ (definition.now.class_vars ++ definition.now.pools)) }
{
    if let Some(name) = first_bad(&definition.inst_vars) {
        return Some(name);
    }
    if let Some(name) = first_bad(&definition.class_vars) {
        return Some(name);
    }
    first_bad(&definition.pools)
}

fn first_bad(names: &Names) -> Option<&Text>
    ensures { option_copied result ≡ find (λ name. not (is_name name)) names.now }
{
    for i in 0..names.count() {
        let name = names.at(i);
        if !is_name(name.bytes()) {
            return Some(name);
        }
    }
    None
}

/// The name is that of a class.
pub(crate) fn unknown_class(
    alloc: Global,
    classes: &ClassTable,
    name: &Text,
) -> Result<Option<Refusal>, OutOfMemory>
    ensures { IfOk result (λ r. r ≡ unknown_name name.now classes.now.classes) }
{
    match class_named(classes, name) {
        Some(_) => Ok(None),
        None => Ok(Some(Refusal::UnknownClass(name.copy(alloc)?))),
    }
}

/// The name isn't that of a class of the kernel.
pub(crate) fn kernel_class(alloc: Global, name: &Text) -> Result<Option<Refusal>, OutOfMemory>
    ensures { IfOk result (λ r. r ≡ kernel_name name.now) }
{
    if !s80_kernel::is_kernel_class(name.bytes()) {
        return Ok(None);
    }
    Ok(Some(Refusal::KernelClass(name.copy(alloc)?)))
}

/// No class has the class of this number and name as its superclass.
pub(crate) fn has_subclasses(
    alloc: Global,
    classes: &ClassTable,
    number: u32,
    name: &Text,
) -> Result<Option<Refusal>, OutOfMemory>
    requires { IsNumberOf classes.now.names number name.now }
    ensures { IfOk result (λ r. r ≡ has_subclasses name.now classes.now.classes) }
{
    if !classes.has_subclass(number) {
        return Ok(None);
    }
    Ok(Some(Refusal::HasSubclasses(name.copy(alloc)?)))
}

/// The superclass isn't the class itself and doesn't descend from it.
pub(crate) fn cycle(
    alloc: Global,
    classes: &ClassTable,
    definition: &Definition,
) -> Result<Option<Refusal>, OutOfMemory>
    ensures { IfOk result (λ r. r ≡ cycle definition.now classes.now.classes) }
{
    if !is_under(classes, &definition.superclass, &definition.class_name) {
        return Ok(None);
    }
    let name = definition.class_name.copy(alloc)?;
    Ok(Some(Refusal::Cycle(name)))
}

/// Whether a class is another one or descends from it.
fn is_under(classes: &ClassTable, name: &Text, other: &Text) -> bool
    ensures { result ≡ is_under classes.now.classes name.now other.now }
{
    let Some((c, _)) = class_named(classes, name) else {
        return false;
    };
    let Some((of, _)) = class_named(classes, other) else {
        return false;
    };
    name.bytes() == other.bytes() || classes.is_descendant(c, of)
}

/// No name stands twice in its list.
pub(crate) fn duplicate(
    alloc: Global,
    definition: &Definition,
) -> Result<Option<Refusal>, OutOfMemory>
    ensures refusal { IfOk result (λ r. r ≡ duplicate definition.now) }
    ensures small { IfOk result (λ r. IfNone r (length definition.now.inst_vars < 2 ^ 63)) }
{
    if let Some(name) = first_again(alloc, &definition.inst_vars)? {
        return Ok(Some(Refusal::Duplicate(name.copy(alloc)?)));
    }
    if let Some(name) = first_again(alloc, &definition.class_vars)? {
        return Ok(Some(Refusal::Duplicate(name.copy(alloc)?)));
    }
    if let Some(name) = first_again(alloc, &definition.pools)? {
        return Ok(Some(Refusal::Duplicate(name.copy(alloc)?)));
    }
    Ok(None)
}

/// No name stands twice among these.
pub(crate) fn duplicate_among(alloc: Global, names: &Names) -> Result<Option<Refusal>, OutOfMemory>
    ensures refusal { IfOk result (λ r. r ≡ option_map Duplicate (first_again [] names.now)) }
    ensures small { IfOk result (λ r. IfNone r (length names.now < 2 ^ 63)) }
{
    match first_again(alloc, names)? {
        Some(name) => Ok(Some(Refusal::Duplicate(name.copy(alloc)?))),
        None => Ok(None),
    }
}

/// The first name that stands among those before it. Where there is none, the list is no longer than a set can be.
fn first_again(alloc: Global, names: &Names) -> Result<Option<&Text>, OutOfMemory>
    ensures again { IfOk result (λ r. option_copied r ≡ first_again [] names.now) }
    ensures small { IfOk result (λ r. IfNone r (length names.now < 2 ^ 63)) }
{
    let mut before = BTreeSet::new(alloc);
    while before.len() < names.count() {
        let name = names.at(before.len());
        if !before.insert(name.bytes().to_vec(alloc)?)? {
            return Ok(Some(name));
        }
    }
    Ok(None)
}

/// The limits: the classes, and what a class may have.
pub(crate) fn too_many(
    alloc: Global,
    classes: &ClassTable,
    definition: &Definition,
) -> Result<Option<Refusal>, OutOfMemory>
    requires within { IsWithin classes.now.classes }
    requires superclass { map.contains_key classes.now.classes definition.now.superclass ≡ true }
    requires acyclic { is_under classes.now.classes definition.now.superclass definition.now.class_name ≡ false }
    requires small { length definition.now.inst_vars < 2 ^ 63 }
    ensures { IfOk result (λ r. r ≡ too_many definition.now classes.now.classes) }
{
    let count = count_with(classes, &definition.class_name);
    let extent = extent_with(alloc, classes, definition)?;
    let refusal = above(65_536, ManyKind::Classes, count)
        .or_else(|| above(64, ManyKind::InstanceVariables, extent.inst_vars))
        .or_else(|| above(256, ManyKind::ClassVariables, definition.class_vars.count()))
        .or_else(|| above(64, ManyKind::ClassSideVariables, extent.class_side_vars))
        .or_else(|| above(256, ManyKind::Pools, definition.pools.count()))
        .or_else(|| above(0, ManyKind::BitsVariables, extent.bits_variables));
    Ok(refusal)
}

/// The limit of class-side variables, if the class of this number had these.
pub(crate) fn too_many_class_side(
    alloc: Global,
    classes: &ClassTable,
    number: u32,
    names: &Names,
) -> Result<Option<Refusal>, OutOfMemory>
    requires class { IsClass classes.now.names number }
    requires valid { IsValid classes.now.classes }
    requires within { IsWithin classes.now.classes }
    requires small { length names.now < 2 ^ 63 }
    ensures { (name : Name) (row : ClassRow) → IsNumberOf classes.now.names number name → map.get classes.now.classes name ≡ Some row → IfOk result (λ r. r
        ≡ above 64 ClassSideVariables (extent_of (change_row (with_class_side_vars names.now) name classes.now.classes) name).class_side_vars) }
{
    let top = totals_with_side(classes, number, names.count());
    let greatest = classes.greatest_with(alloc, number, top)?;
    Ok(above(64, ManyKind::ClassSideVariables, greatest.class_side_vars))
}

/// What the class of this number has with all that it inherits, if it declared so many class-side variables.
fn totals_with_side(classes: &ClassTable, number: u32, class_side_vars: usize) -> Totals
    requires class { IsClass classes.now.names number }
    requires valid { IsValid classes.now.classes }
    requires within { IsWithin classes.now.classes }
    ensures { (name : Name) (row : ClassRow) (names : List Name) → IsNumberOf classes.now.names number name → map.get classes.now.classes name ≡ Some row → length names ≡ class_side_vars
        → result ≡ totals (inherited_of (map.insert classes.now.classes name (with_class_side_vars names row)) name) }
{
    let totals = classes.totals_of(number);
    let own = classes.at(number).class_side_vars.count();
    Totals {
        class_side_vars: (totals.class_side_vars - own).saturating_add(class_side_vars),
        ..totals
    }
}

/// Why so many of a kind are refused, if they are.
pub(crate) fn above(limit: usize, kind: ManyKind, count: usize) -> Option<Refusal>
    ensures { result ≡ above limit kind count }
{
    if count <= limit {
        None
    } else {
        Some(Refusal::TooMany(kind, count as u64))
    }
}

/// How many classes there would be with one of this name.
fn count_with(classes: &ClassTable, class_name: &Text) -> usize
    requires { map.len classes.now.classes ≤ 65536 }
    ensures { (row : ClassRow) → result ≡ map.len (map.insert classes.now.classes class_name.now row) }
{
    match class_named(classes, class_name) {
        Some(_) => classes.count(),
        None => classes.count() + 1,
    }
}

/// The greatest numbers of variables among the class as it is defined and its descendants.
fn extent_with(
    alloc: Global,
    classes: &ClassTable,
    definition: &Definition,
) -> Result<Greatest, OutOfMemory>
    requires within { IsWithin classes.now.classes }
    requires superclass { map.contains_key classes.now.classes definition.now.superclass ≡ true }
    requires acyclic { is_under classes.now.classes definition.now.superclass definition.now.class_name ≡ false }
    requires small { length definition.now.inst_vars < 2 ^ 63 }
    ensures { IfOk result (λ r. IsGreatest (extent_of (define definition.now classes.now.classes) definition.now.class_name) r) }
{
    let inherited = totals_of(classes, &definition.superclass);
    match class_named(classes, &definition.class_name) {
        Some((number, old)) => {
            let side = old.class_side_vars.count();
            classes.greatest_with(alloc, number, totals_on(inherited, definition, side))
        }
        None => Ok(alone(totals_on(inherited, definition, 0))),
    }
}

/// What the class of this name has with all that it inherits.
fn totals_of(classes: &ClassTable, class_name: &Text) -> Totals
    ensures { result ≡ totals (inherited_of classes.now.classes class_name.now) }
{
    match classes.find(class_name) {
        Some(number) => classes.totals_of(number),
        None => Totals {
            inst_vars: 0,
            class_side_vars: 0,
            kind: Kind::Plain,
        },
    }
}

/// What a class has as it is defined under a superclass with these totals.
fn totals_on(inherited: Totals, definition: &Definition, class_side_vars: usize) -> Totals
    ensures { result ≡ totals_on inherited definition.now class_side_vars }
{
    Totals {
        inst_vars: inherited
            .inst_vars
            .saturating_add(definition.inst_vars.count()),
        class_side_vars: inherited.class_side_vars.saturating_add(class_side_vars),
        kind: match definition.kind {
            Kind::Plain => inherited.kind,
            kind => kind,
        },
    }
}

/// The numbers of a class that has no descendants.
fn alone(totals: Totals) -> Greatest
    ensures { result ≡ alone totals }
{
    Greatest {
        inst_vars: totals.inst_vars,
        class_side_vars: totals.class_side_vars,
        bits_variables: match totals.kind {
            Kind::Bytes | Kind::Words => totals.inst_vars,
            Kind::Plain | Kind::Pointers => 0,
        },
    }
}
