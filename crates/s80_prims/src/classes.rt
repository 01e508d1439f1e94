// What the table says of classes, by their numbers and by the names of the kernel's.
ghost use Rattle.std.specs.Prelude.{◌≡◌, ◌<◌, ◌^◌, All, ℕ, true, Some, IfOk};
ghost use Rattle.std.specs.List.{list_any};
ghost use Rattle.s80_kernel.specs.Rows.{is_kernel_class};
ghost use Rattle.s80_class.specs.Classes.{IsValid};
ghost use Rattle.s80_class.specs.Counted.{counted};
ghost use Rattle.s80_class.specs.Known.{IsKnown as IsKnownTable};
ghost use Rattle.s80_class.specs.Table.{IsClass, IsNumberOf, class_name, number_of};
ghost use Rattle.s80_prims.specs.Classes.{is_kind_of, kind_of_class, variables_of};
ghost use Rattle.s80_prims.specs.Known.{HasKernel};

use s80_base::{OutOfMemory, Text};
use s80_class::{ClassTable, Kind};
use std::alloc::Global;

/// The number of a class of the kernel.
pub(crate) fn kernel_number(
    alloc: Global,
    classes: &ClassTable,
    name: &[u8],
) -> Result<u32, OutOfMemory>
    requires kernel { HasKernel classes.now }
    requires name { is_kernel_class name.now ≡ true }
    ensures number { IfOk result (λ c. number_of classes.now.names name.now ≡ Some c) }
    ensures named { IfOk result (λ c. IsNumberOf classes.now.names c name.now) }
    ensures only { IfOk result (λ c. (k : ℕ) → IsNumberOf classes.now.names k name.now → Some c ≡ Some k) }
    ensures valid { IfOk result (λ _. IsValid classes.now.classes) }
{
    let word = Text::from_bytes(alloc, name)?;
    Ok(classes.find(&word).unwrap())
}

/// Whether a class is one of the kernel's or descends from it.
pub(crate) fn is_kind_of(
    alloc: Global,
    classes: &ClassTable,
    c: u32,
    name: &[u8],
) -> Result<bool, OutOfMemory>
    requires kernel { HasKernel classes.now }
    requires class { IsClass classes.now.names c }
    requires name { is_kernel_class name.now ≡ true }
    ensures { IfOk result (λ is. is ≡ is_kind_of classes.now c name.now) }
{
    let of = kernel_number(alloc, classes, name)?;
    if c == of {
        return Ok(true);
    }
    Ok(classes.is_descendant(c, of))
}

/// Whether a class is another or descends from it, by their numbers.
pub(crate) fn is_kind_of_number(classes: &ClassTable, c: u32, of: u32) -> bool
    requires known { IsKnownTable classes.now }
    requires class { IsClass classes.now.names c }
    requires other { IsClass classes.now.names of }
    ensures { result ≡ is_kind_of classes.now c (class_name classes.now of) }
{
    if c == of {
        return true;
    }
    classes.is_descendant(c, of)
}

/// Whether a class is one of some others or descends from one, by their numbers.
pub(crate) fn is_kind_of_any(classes: &ClassTable, c: u32, others: &[u32]) -> bool
    requires known { IsKnownTable classes.now }
    requires class { IsClass classes.now.names c }
    requires others { All (IsClass classes.now.names) others.now }
    ensures { result ≡ list_any (λ of. is_kind_of classes.now c (class_name classes.now of)) others.now }
{
    for of in others {
        if is_kind_of_number(classes, c, *of) {
            return true;
        }
    }
    false
}

/// The effective kind of a class.
pub(crate) fn kind_of_class(classes: &ClassTable, c: u32) -> Kind
    requires { IsClass classes.now.names c }
    ensures { result ≡ kind_of_class classes.now c }
{
    classes.totals_of(c).kind
}

/// How many instance variables a class has with all that it inherits; exact up to 2^64 - 1.
pub(crate) fn variables_of(classes: &ClassTable, c: u32) -> usize
    requires { IsClass classes.now.names c }
    ensures counted { result ≡ counted (variables_of classes.now c) }
    ensures exact { variables_of classes.now c < 2 ^ 64 → result ≡ variables_of classes.now c }
{
    classes.totals_of(c).inst_vars
}
