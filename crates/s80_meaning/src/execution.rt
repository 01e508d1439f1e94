// A run of a doIt that means its trees.
ghost use Rattle.std.specs.Prelude.{◌≡◌, IfOk, length};
ghost use Rattle.s80_machine.specs.Came.{AnswersKnown};
ghost use Rattle.s80_machine.specs.Run.{RunsTo};
ghost use Rattle.s80_machine.specs.Sound.{IsSetting};
ghost use Rattle.s80_meaning.specs.Agreement.{MeansItsTrees};

use crate::laws::code_means_its_trees;
use s80_base::OutOfMemory;
use s80_class::ClassTable;
use s80_dict::MethodTable;
use s80_machine::Ran;
use s80_verify::Verified;
use std::alloc::Global;

/// Runs the code of a doIt among these classes and methods, for at most so many ticks (Blue Book, part four): what it comes to is what its
/// trees come to, whatever trees the codes are compiled from.
pub fn run(
    alloc: Global,
    classes: &ClassTable,
    methods: &MethodTable<Verified>,
    code: &Verified,
    budget: u64,
) -> Result<Ran, OutOfMemory>
    requires setting { IsSetting classes.now methods.now code.now }
    requires sides { length methods.now.sides ≡ length classes.now.names }
    ensures runs { IfOk result (λ ran. RunsTo classes.now methods.now code.now budget ran.outcome) }
    ensures budget { IfOk result (λ ran. ran.budget ≡ budget) }
    ensures answer { IfOk result (λ ran. AnswersKnown classes.now ran.outcome) }
    ensures meant { IfOk result (λ ran. MeansItsTrees classes.now methods.now code.now budget ran.outcome) }
{
    code_means_its_trees();
    s80_machine::run(alloc, classes, methods, code, budget)
}
