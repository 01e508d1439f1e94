// The code of a method in its class.
ghost use Rattle.std.specs.Prelude.{◌≡◌, ◌≤◌, ℕ, List, None, Ok, length, IfOk};
ghost use Rattle.s80_tree.specs.Tree.{method_of};
ghost use Rattle.s80_syntax.specs.Text.{IsMethodOf};
ghost use Rattle.s80_class.specs.Table.{IsClass, IsNumberOf};
ghost use Rattle.s80_method.specs.Code.{IsMethodCode};
ghost use Rattle.s80_change.specs.Check.{IsCheckOf, size_refusal};
ghost use Rattle.s80_apply.specs.Limits.{IsWithin};

use s80_base::{OutOfMemory, Side, Text};
use s80_class::ClassTable;
use s80_method::{compile_source, compile_tree, shapes_have_as_many_variables};
use s80_syntax::MethodTree;
use s80_verify::Verified;
use std::alloc::Global;

/// The code of a source that fits, where the classes are within the limits.
pub(crate) fn code_of(
    alloc: Global,
    classes: &ClassTable,
    class: u32,
    side: Side,
    source: &Text,
) -> Result<Verified, OutOfMemory>
    requires class { IsClass classes.now.names class }
    requires within { IsWithin classes.now.classes }
    requires short { length source.now ≤ 65535 }
    requires fits { (selector : List ℕ) × IsCheckOf source.now (Ok selector) }
    ensures { (name selector : List ℕ) → IsNumberOf classes.now.names class name → IsCheckOf source.now (Ok selector)
        → IfOk result (λ code. IsMethodCode classes.now.classes name side selector source.now code) }
{
    shapes_have_as_many_variables();
    compile_source(alloc, classes, class, side, source)
}

/// The same of its tree, which isn't parsed again.
pub(crate) fn code_of_tree(
    alloc: Global,
    classes: &ClassTable,
    class: u32,
    side: Side,
    tree: &MethodTree,
) -> Result<Verified, OutOfMemory>
    requires class { IsClass classes.now.names class }
    requires within { IsWithin classes.now.classes }
    requires source { (source : List ℕ) × IsMethodOf source (method_of tree.now) }
    requires fits { size_refusal (method_of tree.now) ≡ None }
    ensures { (name source : List ℕ) → IsNumberOf classes.now.names class name → IsMethodOf source (method_of tree.now)
        → IfOk result (λ code. IsMethodCode classes.now.classes name side tree.now.selector source code) }
{
    shapes_have_as_many_variables();
    compile_tree(alloc, classes, class, side, tree)
}
