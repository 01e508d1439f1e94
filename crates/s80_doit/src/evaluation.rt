// The runs of doIts among the classes and their methods.
ghost use Rattle.std.specs.Prelude.{◌≡◌, ℕ, Bool, List, IfOk};
ghost use Rattle.s80_code.specs.declared.code.Code.{Code};
ghost use Rattle.s80_machine.specs.Came.{AnswersKnown, RanValue};
ghost use Rattle.s80_machine.specs.Sound.{IsSetting};
ghost use Rattle.s80_print.specs.Outcome.{outcome_text};
ghost use Rattle.s80_prims.specs.Known.{HasKernel};
ghost use Rattle.s80_apply.specs.State.{State};
ghost use Rattle.s80_apply.specs.System.{IsSystemOf};
ghost use Rattle.s80_meaning.specs.Renamed.{small_of};
ghost use Rattle.s80_doit.specs.Answer.{EvaluatesTo};
ghost use Rattle.s80_doit.specs.DoIt.{AreGiven, IsDoItCode, IsMethodOfDoIt, IsRunOf, is_stopped};

use crate::answers::runs_are_evaluations;
use crate::code::doit_code;
use crate::suits::{doit_code_suits, method_code_suits};
use s80_apply::{
    System, classes_have_few_variables, classes_of_bits_have_no_variables,
    kernel_classes_have_their_variables, kernel_classes_last,
};
use s80_base::{OutOfMemory, Text};
use s80_machine::{Ran, a_run_ends};
use s80_meaning::run;
use s80_method::shapes_have_as_many_variables;
use s80_object::Value;
use s80_prims::End;
use s80_print::outcome_text;
use s80_syntax::MethodTree;
use s80_verify::Verified;
use std::alloc::Global;

/// The code of a doIt that fits, by its tree as a method: this fails only when out of memory. Among these classes and methods it comes to an
/// end under every budget, and so does its tree.
pub fn compile(alloc: Global, system: &System, method: &MethodTree) -> Result<Verified, OutOfMemory>
    requires { (text : List ℕ) × IsMethodOfDoIt text method.now }
    ensures code { (text : List ℕ) → IsMethodOfDoIt text method.now → IfOk result (IsDoItCode text) }
    ensures given { AreGiven system.now }
    ensures ends { (text : List ℕ) → IsMethodOfDoIt text method.now
        → IfOk result (λ _. (budget : ℕ) → (ran : RanValue) × IsRunOf system.now text budget ran) }
    ensures evaluates { (text : List ℕ) → IsMethodOfDoIt text method.now
        → IfOk result (λ _. (state : State) (budget : ℕ) → IsSystemOf system.now state
        → (told : List ℕ) × (stopped : Bool) × EvaluatesTo state text budget told stopped) }
{
    a_run_ends();
    runs_are_evaluations();
    doits_are_given(system);
    doit_code(alloc, method)
}

/// Runs the code of a doIt among the classes and their methods, for at most so many ticks (Blue Book, part four). What it comes to is what
/// the doIt's tree is evaluated to.
pub fn evaluate(
    alloc: Global,
    system: &System,
    code: &Verified,
    budget: u64,
) -> Result<Ran, OutOfMemory>
    requires { (text : List ℕ) × IsDoItCode text code.now }
    ensures run { IfOk result (λ ran. (text : List ℕ) → IsDoItCode text code.now → IsRunOf system.now text budget ran) }
    ensures evaluates { IfOk result (λ ran. (state : State) (text : List ℕ) → IsSystemOf system.now state → IsDoItCode text code.now
        → EvaluatesTo state text budget (outcome_text system.now.table ran.outcome) (is_stopped ran.outcome.end)) }
    ensures given { AreGiven system.now }
    ensures known { IfOk result (λ ran. AnswersKnown system.now.table ran.outcome) }
{
    runs_are_evaluations();
    doits_are_given(system);
    run(alloc, system.classes(), system.methods(), code, budget)
}

/// What a run among these classes is answered: what it wrote, on lines of its own, and its answer or why it was stopped, without a line feed
/// at the end.
pub fn answer(alloc: Global, system: &System, ran: &Ran) -> Result<Text, OutOfMemory>
    requires { AnswersKnown system.now.table ran.now.outcome }
    ensures { IfOk result (λ text. text ≡ outcome_text system.now.table ran.now.outcome) }
{
    kernel_is_there(system);
    outcome_text(alloc, system.classes(), ran.outcome())
}

/// The SmallInteger that a run answered, if it answered one.
pub fn small_answer(ran: &Ran) -> Option<i32>
    ensures { result ≡ small_of ran.now.outcome.end }
{
    match ran.outcome().end {
        End::Answer(Value::Small(n)) => Some(n),
        End::Answer(_) => None,
        End::Stopped(_) => None,
    }
}

/// Whether a run was stopped before it had an answer.
pub fn is_stopped(ran: &Ran) -> bool
    ensures { result ≡ is_stopped ran.now.outcome.end }
{
    match &ran.outcome().end {
        End::Answer(_) => false,
        End::Stopped(_) => true,
    }
}

// The classes of a system and its methods, with the code of a doIt, are what a run may be given.
fn doits_are_given(system: &System)
    ensures setting { (text : List ℕ) (code : Code) → IsDoItCode text code → IsSetting system.now.table system.now.methods code }
    ensures given { AreGiven system.now }
{
    kernel_classes_last();
    kernel_classes_have_their_variables();
    classes_have_few_variables();
    classes_of_bits_have_no_variables();
    shapes_have_as_many_variables();
    method_code_suits();
    doit_code_suits();
    let classes = system.classes();
    // What a table tells of its classes with their count: each has one number.
    let _count = classes.count();
    let _methods = system.methods();
}

// The classes of the kernel are among those of a system.
fn kernel_is_there(system: &System)
    ensures { HasKernel system.now.table }
{
    kernel_classes_last();
    let _classes = system.classes();
}
