// The code of a doIt.
ghost use Rattle.std.specs.Prelude.{List, ℕ, IfOk};
ghost use Rattle.s80_doit.specs.DoIt.{IsDoItCode, IsMethodOfDoIt};

use s80_base::OutOfMemory;
use s80_compile::{compile_doit, trees_are_well_sent};
use s80_scope::places_of_uses_rise;
use s80_syntax::MethodTree;
use s80_verify::Verified;
use std::alloc::Global;

/// The code of a doIt that fits, by its tree as a method: this fails only when out of memory.
pub(crate) fn doit_code(alloc: Global, method: &MethodTree) -> Result<Verified, OutOfMemory>
    requires { (text : List ℕ) × IsMethodOfDoIt text method.now }
    ensures { (text : List ℕ) → IsMethodOfDoIt text method.now → IfOk result (IsDoItCode text) }
{
    places_of_uses_rise();
    trees_are_well_sent();
    compile_doit(alloc, method)
}
