// DoIts as methods.
ghost use Rattle.std.specs.Prelude.{◌≡◌, []};
ghost use Rattle.s80_tree.specs.Tree.{doit_of, method_of};

use s80_base::Text;
use s80_tree::{DoItTree, MethodTree, NamesAt};
use std::alloc::Global;

/// The method that a doIt is evaluated as: it has an empty selector, no parameters and no primitive. Takes no memory.
pub fn doit_method(alloc: Global, tree: DoItTree) -> MethodTree
    ensures { method_of result ≡ record { selector = []; parameters = []; temporaries = (doit_of tree).temporaries; primitive = 0; body = (doit_of tree).body } }
{
    MethodTree::new(
        Text::empty(alloc),
        NamesAt::empty(alloc),
        tree.temporaries,
        0,
        tree.body,
    )
}
