// The variables that a class's methods see.
ghost use Rattle.std.specs.Prelude.{◌≡◌, ◌++◌, All, List, Option, IfOk, OnOk};
ghost use Rattle.s80_class.specs.Classes.{Name, ClassRow, lineage};
ghost use Rattle.s80_class.specs.Table.{IsClass, IsNumberOf, row_of};
ghost use Rattle.s80_method.specs.Line.{AreNumbersOf};
ghost use Rattle.s80_method.specs.Shape.{bindings_in, bindings_of, own_variables, shape_of, variables_in};

use s80_base::{Names, OutOfMemory, Side, Text};
use s80_class::{ClassEntry, ClassTable};
use s80_scope::{Binding, Bindings, Shape};
use std::alloc::Global;

/// The variables that the methods of a side of a class see. Code finds an instance variable by its place among them.
pub fn shape_of(
    alloc: Global,
    classes: &ClassTable,
    c: u32,
    side: Side,
) -> Result<Shape, OutOfMemory>
    requires { IsClass classes.now.names c }
    ensures { (name : Name) → IsNumberOf classes.now.names c name → IfOk result (λ shape. shape ≡ shape_of classes.now.classes name side) }
{
    let line = line(alloc, classes, c)?;
    Ok(Shape {
        inst_vars: variables(alloc, classes, &line, side)?,
        class_vars: bindings(alloc, classes, &line)?,
    })
}

// A class and its superclasses by number, the nearest first.
fn line(alloc: Global, classes: &ClassTable, c: u32) -> Result<Vec<u32>, OutOfMemory>
    requires { IsClass classes.now.names c }
    ensures classes { IfOk result (λ line. All (IsClass classes.now.names) line.items) }
    ensures line { (name : Name) → IsNumberOf classes.now.names c name → IfOk result (λ line. AreNumbersOf classes.now (lineage classes.now.classes name) line.items) }
{
    let mut line = Vec::new(alloc);
    let mut next = Some(c);
    for _ in 0..classes.count() {
        let Some(number) = next else {
            return Ok(line);
        };
        line.push(number)?;
        next = classes.at(number).superclass;
    }
    Ok(line)
}

// The variables of a side of these classes, from those of the last class to those of the first.
fn variables(
    alloc: Global,
    classes: &ClassTable,
    line: &[u32],
    side: Side,
) -> Result<Names, OutOfMemory>
    requires { All (IsClass classes.now.names) line.now }
    ensures { (es : List (Name × ClassRow)) → AreNumbersOf classes.now es line.now → IfOk result (λ names. names ≡ variables_in side es) }
{
    let mut names = Names::empty(alloc);
    for i in (0..line.len()).rev() {
        let own = own_variables(classes.at(line[i]), side);
        add_names(alloc, &mut names, own)?;
    }
    Ok(names)
}

// The class variables of these classes, in their order.
fn bindings(alloc: Global, classes: &ClassTable, line: &[u32]) -> Result<Bindings, OutOfMemory>
    requires { All (IsClass classes.now.names) line.now }
    ensures { (es : List (Name × ClassRow)) → AreNumbersOf classes.now es line.now → IfOk result (λ bindings. bindings ≡ bindings_in es) }
{
    let mut bindings = Bindings::empty(alloc);
    for number in line {
        let entry = classes.at(*number);
        add_bindings(alloc, &mut bindings, &entry.class_name, &entry.class_vars)?;
    }
    Ok(bindings)
}

// The class's own variables of a side.
fn own_variables(entry: &ClassEntry, side: Side) -> &Names
    ensures { (names : List (Option Name)) → result.now ≡ own_variables side (row_of names entry.now) }
{
    match side {
        Side::Instance => &entry.inst_vars,
        Side::Class => &entry.class_side_vars,
    }
}

fn add_names(alloc: Global, names: &mut Names, more: &Names) -> Result<(), OutOfMemory>
    ensures { OnOk result (names.new ≡ names.old ++ more.now) }
{
    for i in 0..more.count() {
        names.push(more.at(i).copy(alloc)?)?;
    }
    Ok(())
}

// Adds class variables that this class declares.
fn add_bindings(
    alloc: Global,
    bindings: &mut Bindings,
    class_name: &Text,
    class_vars: &Names,
) -> Result<(), OutOfMemory>
    ensures { OnOk result (bindings.new ≡ bindings.old ++ bindings_of class_name.now class_vars.now) }
{
    for i in 0..class_vars.count() {
        bindings.push(Binding {
            owner: class_name.copy(alloc)?,
            name: class_vars.at(i).copy(alloc)?,
        })?;
    }
    Ok(())
}
