// From a parsed tree to its core tree in a class.
ghost use Rattle.std.specs.Prelude.{◌≡◌, ◌≤◌, length, IfOk};
ghost use Rattle.s80_tree.specs.Tree.{method_of};
ghost use Rattle.s80_scope.specs.Names.{AreInOrder, declarations_of, uses_of};
ghost use Rattle.s80_core.specs.Core.{core_of};
ghost use Rattle.s80_core.specs.Elaborate.{elaborated, method_end};

mod ends;
mod names;
mod walk;

use crate::core_tree::Core;
use s80_base::OutOfMemory;
use s80_scope::Shape;
use s80_tree::MethodTree;
use std::alloc::Global;

/// What a body ends with, where its last statement doesn't return.
#[derive(Clone, Copy)]
enum Enclosing {
    /// The value of that statement, which may not be wanted.
    Arm,
    /// The block's value.
    Block,
    /// The receiver is returned.
    Method,
    /// The value is returned, with a caret or without.
    DoIt,
}

/// The method and the class in which names are bound.
#[derive(Clone, Copy)]
struct Home<'t> {
    alloc: Global,
    tree: &'t MethodTree,
    shape: &'t Shape,
}

/// The core tree of a method in a class of this shape, or of a doIt as a method with an empty selector.
pub fn elaborate(alloc: Global, tree: &MethodTree, shape: &Shape) -> Result<Core, OutOfMemory>
    requires in_order { AreInOrder (uses_of (method_of tree.now)) }
    requires declarations { length (declarations_of (method_of tree.now)) ≤ 31 }
    requires inst_vars { length shape.now.inst_vars ≤ 64 }
    ensures { IfOk result (λ core. core_of core ≡ elaborated (method_of tree.now) shape.now) }
{
    let mut number = (tree.parameters.count() + tree.temporaries.count()) as u8;
    let home = Home { alloc, tree, shape };
    walk::body(
        &home,
        &mut number,
        method_end(tree.selector.bytes()),
        &tree.body,
    )
}

/// What the body of a method ends with: an empty selector is a doIt's.
fn method_end(selector: &[u8]) -> Enclosing
    ensures { result ≡ method_end selector.now }
{
    if selector.is_empty() {
        Enclosing::DoIt
    } else {
        Enclosing::Method
    }
}
