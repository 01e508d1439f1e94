// The headings of classes.
ghost use Rattle.std.specs.Prelude.{◌≡◌, ◌&&◌, ◌==◌, [], codes, nat_le, find, option_map, option_copied, IfOk};
ghost use Rattle.std.specs.List.{list_any};
ghost use Rattle.std.specs.Str.{bytes_eq};
ghost use Rattle.s80_form.specs.Name.{is_class_name};
ghost use Rattle.s80_kernel.specs.Rows.{row_of};
ghost use Rattle.s80_image.specs.Format.{Gives, members, text_where};
ghost use Rattle.s80_image.specs.Parts.{is_above, last_of};
ghost use Rattle.s80_image.specs.Classes.{as_in, as_many, category_text, classes_of, heading, inst_vars_given, kernel_row, kind, kind_of, may_stand, names, none_given, stands_at, superclass_text, variables};

use crate::fault::ReadError;
use crate::fields::{byte, text, unlawful, word32};
use crate::image::{ClassHeading, ClassVariables, ImageClass};
use crate::parts::is_above;
use s80_base::{Names, OutOfMemory, Text};
use s80_form::{Kind, is_class_name, is_name, split_names};
use s80_kernel::{KernelClass, class_rows};
use std::alloc::Global;

/// The row of a class, if it is one of the kernel's.
fn kernel_row(name: &[u8]) -> Option<&'static KernelClass>
    ensures { option_map (λ row. row_of row.now) result ≡ kernel_row name.now }
{
    row_among(class_rows(), name)
}

fn row_among<'a>(rows: &'a [KernelClass], name: &[u8]) -> Option<&'a KernelClass>
    ensures { option_map (λ row. row.now) result ≡ find (λ row. bytes_eq row.name.now name.now) rows.now }
{
    rows.iter().find(|row| row.name.as_bytes() == name)
}

// ---- names

fn has_name(names: &Names, name: &[u8]) -> bool
    ensures { result ≡ list_any (bytes_eq name.now) names.now }
{
    for i in 0..names.count() {
        if name == names.at(i).bytes() {
            return true;
        }
    }
    false
}

fn as_many(given: Option<&Names>, count: u32) -> bool
    ensures { result ≡ as_many (option_copied given.entry) count }
{
    match given {
        Some(given) => count as usize == given.count(),
        None => true,
    }
}

fn stands_at(given: Option<&Names>, place: usize, name: &[u8]) -> bool
    ensures { result ≡ stands_at (option_copied given.entry) place name.now }
{
    match given {
        Some(given) => place < given.count() && name == given.at(place).bytes(),
        None => true,
    }
}

/// Whether a name may follow those before it, and is the given one where names are given.
fn may_stand(given: Option<&Names>, before: &Names, name: &[u8]) -> bool
    ensures { result ≡ may_stand (option_copied given.entry) before.now name.now }
{
    is_name(name) && !has_name(before, name) && stands_at(given, before.count(), name)
}

fn name_behind<'b>(
    alloc: Global,
    given: Option<&Names>,
    before: &Names,
    bytes: &'b [u8],
) -> Result<(Text, &'b [u8]), ReadError>
    ensures { Gives (λ x. (x.0, x.1.now)) result ((text_where (may_stand (option_copied given.entry) before.now)).read bytes.now) }
{
    let (name, rest) = text(alloc, bytes)?;
    if !may_stand(given, before, name.bytes()) {
        return Err(unlawful(bytes, name.bytes().len() as u64));
    }
    Ok((name, rest))
}

fn names_from<'b>(
    alloc: Global,
    given: Option<&Names>,
    count: u32,
    bytes: &'b [u8],
) -> Result<(Names, &'b [u8]), ReadError>
    ensures { Gives (λ x. (x.0, x.1.now)) result (members (λ before. text_where (may_stand (option_copied given.entry) before)) [] count bytes.now) }
{
    let mut names = Names::empty(alloc);
    let mut rest = bytes;
    for _ in 0..count {
        let (name, after) = name_behind(alloc, given, &names, rest)?;
        names.push(name)?;
        rest = after;
    }
    Ok((names, rest))
}

/// A list of names, at most so many.
#[tactic(auto, unfolding(crate::specs::Classes::names))]
fn names<'b>(
    alloc: Global,
    most: u32,
    given: Option<&Names>,
    bytes: &'b [u8],
) -> Result<(Names, &'b [u8]), ReadError>
    ensures { Gives (λ x. (x.0, x.1.now)) result ((names most (option_copied given.entry)).read bytes.now) }
{
    let (count, rest) = word32(bytes)?;
    let lawful = count <= most && as_many(given, count);
    if !lawful {
        return Err(unlawful(bytes, u64::from(count)));
    }
    names_from(alloc, given, count, rest)
}

/// The instance variables that a class of the kernel has to have.
fn inst_vars_given(alloc: Global, row: Option<&KernelClass>) -> Result<Option<Names>, OutOfMemory>
    ensures { IfOk result (λ names. names ≡ inst_vars_given (option_map (λ r. row_of r.now) row.entry)) }
{
    match row {
        Some(row) => Ok(Some(split_names(alloc, row.inst_vars.as_bytes())?)),
        None => Ok(None),
    }
}

/// That it has no others.
fn none_given(alloc: Global, row: Option<&KernelClass>) -> Option<Names>
    ensures { result ≡ none_given (option_map (λ r. row_of r.now) row.entry) }
{
    match row {
        Some(_) => Some(Names::empty(alloc)),
        None => None,
    }
}

#[tactic(auto, unfolding(crate::specs::Classes::variables))]
fn variables<'b>(
    alloc: Global,
    row: Option<&KernelClass>,
    bytes: &'b [u8],
) -> Result<(ClassVariables, &'b [u8]), ReadError>
    ensures { Gives (λ x. (x.0, x.1.now)) result ((variables (option_map (λ r. row_of r.now) row.entry)).read bytes.now) }
{
    let given = inst_vars_given(alloc, row)?;
    let none = none_given(alloc, row);
    let (instance, rest) = names(alloc, 64, given.as_ref(), bytes)?;
    let (class, rest) = names(alloc, 256, none.as_ref(), rest)?;
    let (pools, rest) = names(alloc, 256, none.as_ref(), rest)?;
    let (class_side, rest) = names(alloc, 64, none.as_ref(), rest)?;
    let variables = ClassVariables {
        instance,
        class,
        pools,
        class_side,
    };
    Ok((variables, rest))
}

// ---- headings

fn kind_of(number: u8) -> Kind
    ensures { result ≡ kind_of number }
{
    match number {
        0 => Kind::Plain,
        1 => Kind::Pointers,
        2 => Kind::Bytes,
        _ => Kind::Words,
    }
}

fn is_kind(row: Option<&KernelClass>, number: u8) -> bool
    ensures { result ≡ (nat_le number 3 && as_in (option_map (λ r. row_of r.now) row.entry) (λ r. number == r.kind)) }
{
    match row {
        Some(row) => number <= 3 && number == row.kind,
        None => number <= 3,
    }
}

#[tactic(auto, unfolding(crate::specs::Classes::kind))]
fn kind<'b>(row: Option<&KernelClass>, bytes: &'b [u8]) -> Result<(Kind, &'b [u8]), ReadError>
    ensures { Gives (λ x. (x.0, x.1.now)) result ((kind (option_map (λ r. row_of r.now) row.entry)).read bytes.now) }
{
    let (number, rest) = byte(bytes)?;
    if !is_kind(row, number) {
        return Err(unlawful(bytes, u64::from(number)));
    }
    Ok((kind_of(number), rest))
}

fn is_superclass(row: Option<&KernelClass>, name: &[u8]) -> bool
    ensures { result ≡ as_in (option_map (λ r. row_of r.now) row.entry) (λ r. bytes_eq r.superclass name.now) }
{
    match row {
        Some(row) => row.superclass.as_bytes() == name,
        None => true,
    }
}

fn superclass<'b>(
    alloc: Global,
    row: Option<&KernelClass>,
    bytes: &'b [u8],
) -> Result<(Text, &'b [u8]), ReadError>
    ensures { Gives (λ x. (x.0, x.1.now)) result ((superclass_text (option_map (λ r. row_of r.now) row.entry)).read bytes.now) }
{
    let (name, rest) = text(alloc, bytes)?;
    if !is_superclass(row, name.bytes()) {
        return Err(unlawful(bytes, name.bytes().len() as u64));
    }
    Ok((name, rest))
}

fn is_category(row: Option<&KernelClass>, category: &[u8]) -> bool
    ensures { result ≡ as_in (option_map (λ r. row_of r.now) row.entry) (λ _. bytes_eq (codes "Kernel") category.now) }
{
    match row {
        Some(_) => b"Kernel".as_slice() == category,
        None => true,
    }
}

fn category<'b>(
    alloc: Global,
    row: Option<&KernelClass>,
    bytes: &'b [u8],
) -> Result<(Text, &'b [u8]), ReadError>
    ensures { Gives (λ x. (x.0, x.1.now)) result ((category_text (option_map (λ r. row_of r.now) row.entry)).read bytes.now) }
{
    let (category, rest) = text(alloc, bytes)?;
    if !is_category(row, category.bytes()) {
        return Err(unlawful(bytes, category.bytes().len() as u64));
    }
    Ok((category, rest))
}

/// The name of a class, above the last one.
fn class_name_above<'b>(
    alloc: Global,
    last: Option<&Text>,
    bytes: &'b [u8],
) -> Result<(Text, &'b [u8]), ReadError>
    ensures { Gives (λ x. (x.0, x.1.now)) result ((text_where (λ name. is_class_name name && is_above (option_copied last.entry) name)).read bytes.now) }
{
    let (name, rest) = text(alloc, bytes)?;
    let lawful = is_class_name(name.bytes()) && is_above(last, name.bytes());
    if !lawful {
        return Err(unlawful(bytes, name.bytes().len() as u64));
    }
    Ok((name, rest))
}

/// What stands of a class before its methods, behind another class in the order of names.
#[tactic(auto, unfolding(crate::specs::Classes::heading))]
pub(crate) fn heading<'b>(
    alloc: Global,
    last: Option<&Text>,
    bytes: &'b [u8],
) -> Result<(ClassHeading, &'b [u8]), ReadError>
    ensures { Gives (λ x. (x.0, x.1.now)) result ((heading (option_copied last.entry)).read bytes.now) }
{
    let (name, rest) = class_name_above(alloc, last, bytes)?;
    let row = kernel_row(name.bytes());
    let (superclass, rest) = superclass(alloc, row, rest)?;
    let (kind, rest) = kind(row, rest)?;
    let (variables, rest) = variables(alloc, row, rest)?;
    let (category, rest) = category(alloc, row, rest)?;
    let (comment, rest) = text(alloc, rest)?;
    let heading = ClassHeading {
        name,
        superclass,
        kind,
        variables,
        category,
        comment,
    };
    Ok((heading, rest))
}

/// The name of the last class.
pub(crate) fn last_name(classes: &[ImageClass]) -> Option<&Text>
    ensures { option_copied result ≡ option_map (λ c. c.heading.name) (last_of (classes_of classes.now)) }
{
    match classes.last() {
        Some(class) => Some(&class.heading.name),
        None => None,
    }
}
