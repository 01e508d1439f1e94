// The trees of texts.
ghost use Rattle.std.specs.Prelude.{◌≤◌, IfOk, IfErr, length};
ghost use Rattle.s80_syntax.specs.Faults.{IsMethodText, IsDoItText};
ghost use Rattle.s80_syntax.specs.Text.{IsDoItOf, IsFaultOf, IsMethodOf};
ghost use Rattle.s80_tree.specs.Tree.{method_of, doit_of};

use crate::fault::ParseFault;
use crate::method::{doit, method};
use s80_base::Text;
use s80_lex::tokens;
use s80_tree::{DoItTree, MethodTree};
use std::alloc::Global;

/// The tree of a method, or the first fault of its text.
pub fn parse_method(alloc: Global, text: &Text) -> Result<MethodTree, ParseFault>
    requires { length text.now ≤ 65535 }
    ensures tree { IfOk result (λ tree. IsMethodOf text.now (method_of tree)) }
    ensures fault { IfErr result (IsFaultOf IsMethodText text.now) }
{
    let bytes = text.bytes();
    let tokens = tokens(alloc, bytes)?;
    method(alloc, bytes, tokens.as_slice())
}

/// The tree of a doIt, or the first fault of its text.
pub fn parse_doit(alloc: Global, text: &Text) -> Result<DoItTree, ParseFault>
    requires { length text.now ≤ 65535 }
    ensures tree { IfOk result (λ tree. IsDoItOf text.now (doit_of tree)) }
    ensures fault { IfErr result (IsFaultOf IsDoItText text.now) }
{
    let bytes = text.bytes();
    let tokens = tokens(alloc, bytes)?;
    doit(alloc, bytes, tokens.as_slice())
}
