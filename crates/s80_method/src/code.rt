// The code of a method in its class.
ghost use Rattle.std.specs.Prelude.{◌≡◌, ◌≤◌, ℕ, List, None, Ok, length, IfOk};
ghost use Rattle.s80_tree.specs.Tree.{method_of};
ghost use Rattle.s80_syntax.specs.Text.{IsMethodOf};
ghost use Rattle.s80_verify.specs.Fault.{IsVerified};
ghost use Rattle.s80_class.specs.Table.{IsClass, IsNumberOf};
ghost use Rattle.s80_change.specs.Check.{IsCheckOf, size_refusal};
ghost use Rattle.s80_method.specs.Code.{HasFewVariables, IsMethodCode};

use crate::shape::shape_of;
use s80_base::{OutOfMemory, Side, Text};
use s80_class::ClassTable;
use s80_compile::{compile, trees_are_well_sent};
use s80_scope::places_of_uses_rise;
use s80_syntax::{MethodTree, ParseFault, no_fault_beside_a_tree, parse_method};
use s80_verify::Verified;
use std::alloc::Global;

/// The code of a source that fits, as a method of a side of a class. A source that fits does so in every class, so that this
/// fails only when out of memory.
pub fn compile_source(
    alloc: Global,
    classes: &ClassTable,
    c: u32,
    side: Side,
    source: &Text,
) -> Result<Verified, OutOfMemory>
    requires class { IsClass classes.now.names c }
    requires few { HasFewVariables classes.now c side }
    requires short { length source.now ≤ 65535 }
    requires fits { (selector : List ℕ) × IsCheckOf source.now (Ok selector) }
    ensures code { (name selector : List ℕ) → IsNumberOf classes.now.names c name → IsCheckOf source.now (Ok selector)
        → IfOk result (λ code. IsMethodCode classes.now.classes name side selector source.now code) }
    ensures verified { IfOk result IsVerified }
{
    let tree = tree_of(alloc, source)?;
    compile_tree(alloc, classes, c, side, &tree)
}

/// The code of the tree of a source that fits, as a method of a side of a class. Nothing is parsed.
pub fn compile_tree(
    alloc: Global,
    classes: &ClassTable,
    c: u32,
    side: Side,
    tree: &MethodTree,
) -> Result<Verified, OutOfMemory>
    requires class { IsClass classes.now.names c }
    requires few { HasFewVariables classes.now c side }
    requires source { (source : List ℕ) × IsMethodOf source (method_of tree.now) }
    requires fits { size_refusal (method_of tree.now) ≡ None }
    ensures code { (name source : List ℕ) → IsNumberOf classes.now.names c name → IsMethodOf source (method_of tree.now)
        → IfOk result (λ code. IsMethodCode classes.now.classes name side tree.now.selector source code) }
    ensures verified { IfOk result IsVerified }
{
    places_of_uses_rise();
    trees_are_well_sent();
    let shape = shape_of(alloc, classes, c, side)?;
    compile(alloc, tree, &shape, &classes.at(c).class_name, side)
}

/// The tree of a source that fits.
fn tree_of(alloc: Global, source: &Text) -> Result<MethodTree, OutOfMemory>
    requires short { length source.now ≤ 65535 }
    requires fits { (selector : List ℕ) × IsCheckOf source.now (Ok selector) }
    ensures tree { IfOk result (λ tree. IsMethodOf source.now (method_of tree)) }
    ensures fits { IfOk result (λ tree. size_refusal (method_of tree) ≡ None) }
{
    no_fault_beside_a_tree();
    match parse_method(alloc, source) {
        Ok(tree) => Ok(tree),
        Err(fault) => {
            prove!(fault == ParseFault::Memory);
            Err(OutOfMemory)
        }
    }
}
