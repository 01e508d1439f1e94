// Entries of classes, and the one that a definition makes.
ghost use Rattle.std.specs.Prelude.{◌≡◌, ℕ, List, Option, [], true, Some, None, IfOk, MatchOption, option_map, unwrap_or};
ghost use Rattle.std.specs.FinMap as map;
ghost use Rattle.s80_class.specs.Classes.{IsValid, Name, with_class_side_vars};
ghost use Rattle.s80_class.specs.Table.{IsNumberOf, row_of};
ghost use Rattle.s80_apply.specs.Entry.{IsDefined, IsNamed};

use s80_base::{Names, OutOfMemory, Text};
use s80_class::{ClassEntry, ClassTable};
use s80_form::Definition;
use std::alloc::Global;

/// The number and the entry of the class of this name.
pub(crate) fn class_named<'a>(classes: &'a ClassTable, name: &Text) -> Option<(u32, &'a ClassEntry)>
    ensures found { MatchOption result (map.get classes.now.classes name.now ≡ None) (λ p. IsNamed classes.now name.now p.0 p.1.now) }
    ensures only { (c : ℕ) → IsNumberOf classes.now.names c name.now → option_map (λ p. p.0) result ≡ Some c }
    ensures valid { IsValid classes.now.classes }
{
    match classes.find(name) {
        Some(number) => Some((number, classes.at(number))),
        None => None,
    }
}

/// The entry of a class as it is defined. A class that is there keeps its comment and its class-side variables.
pub(crate) fn defined_entry(
    alloc: Global,
    classes: &ClassTable,
    definition: &Definition,
) -> Result<ClassEntry, OutOfMemory>
    requires { map.contains_key classes.now.classes definition.now.superclass ≡ true }
    ensures { IfOk result (λ entry. IsDefined classes.now definition.now entry) }
{
    let superclass = classes.find(&definition.superclass);
    let (comment, class_side_vars) = kept(alloc, classes, &definition.class_name)?;
    Ok(ClassEntry {
        class_name: definition.class_name.copy(alloc)?,
        superclass,
        kind: definition.kind,
        inst_vars: definition.inst_vars.copy(alloc)?,
        class_vars: definition.class_vars.copy(alloc)?,
        pools: definition.pools.copy(alloc)?,
        category: definition.category.copy(alloc)?,
        comment,
        class_side_vars,
    })
}

/// What a class keeps through a definition: its comment and its class-side variables.
pub(crate) fn kept(
    alloc: Global,
    classes: &ClassTable,
    class_name: &Text,
) -> Result<(Text, Names), OutOfMemory>
    ensures comment { IfOk result (λ p. p.0 ≡ unwrap_or (option_map (λ row. row.comment) (map.get classes.now.classes class_name.now)) []) }
    ensures class_side_vars { IfOk result (λ p. p.1 ≡ unwrap_or (option_map (λ row. row.class_side_vars) (map.get classes.now.classes class_name.now)) []) }
{
    match class_named(classes, class_name) {
        Some((_, old)) => Ok((old.comment.copy(alloc)?, old.class_side_vars.copy(alloc)?)),
        None => Ok((Text::empty(alloc), Names::empty(alloc))),
    }
}

/// The entry of a class with other class-side variables.
pub(crate) fn with_class_side_vars(
    alloc: Global,
    entry: &ClassEntry,
    names: &Names,
) -> Result<ClassEntry, OutOfMemory>
    ensures row { (numbers : List (Option Name)) → IfOk result (λ with. row_of numbers with ≡ with_class_side_vars names.now (row_of numbers entry.now)) }
    ensures class_name { IfOk result (λ with. with.class_name ≡ entry.now.class_name) }
    ensures superclass { IfOk result (λ with. with.superclass ≡ entry.now.superclass) }
{
    Ok(ClassEntry {
        class_name: entry.class_name.copy(alloc)?,
        superclass: entry.superclass,
        kind: entry.kind,
        inst_vars: entry.inst_vars.copy(alloc)?,
        class_vars: entry.class_vars.copy(alloc)?,
        pools: entry.pools.copy(alloc)?,
        category: entry.category.copy(alloc)?,
        comment: entry.comment.copy(alloc)?,
        class_side_vars: names.copy(alloc)?,
    })
}
