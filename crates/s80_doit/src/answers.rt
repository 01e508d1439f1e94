// Laws of what doIts come to.
ghost use Rattle.std.specs.Prelude.{◌≡◌, ℕ, ℤ, Bool, List, Option};
ghost use Rattle.s80_change.specs.declared.change.Change.{Change};
ghost use Rattle.s80_apply.specs.List.{state_of};
ghost use Rattle.s80_apply.specs.State.{State};
ghost use Rattle.s80_apply.specs.System.{IsSystemOf, SystemState};
ghost use Rattle.s80_machine.specs.Came.{RanValue};
ghost use Rattle.s80_print.specs.Outcome.{outcome_text};
ghost use Rattle.s80_meaning.specs.Renamed.{small_of};
ghost use Rattle.s80_doit.specs.Answer.{AnswersSmall, EvaluatesTo};
ghost use Rattle.s80_doit.specs.DoIt.{AreGiven, IsRunOf, is_stopped};

use s80_apply::kernel_classes_last;
use s80_compile::trees_are_well_sent;
use s80_meaning::{answers_are_by_name, code_means_its_trees, trees_are_told_alike};
use s80_syntax::one_tree;

/// The run of a doIt's code, among the classes and methods of a state, is told as its tree, evaluated in the state.
pub fn runs_are_evaluations()
    ensures { (system : SystemState) (state : State) (text : List ℕ) (budget : ℕ) (ran : RanValue)
        → AreGiven system → IsSystemOf system state → IsRunOf system text budget ran
        → EvaluatesTo state text budget (outcome_text system.table ran.outcome) (is_stopped ran.outcome.end) }
{
    runs_answer_the_smalls_of_trees();
}

/// In the state of a list, under a budget, a text is told one thing.
pub fn a_doit_is_told_one_thing()
    ensures { (changes : List Change) (text : List ℕ) (budget : ℕ) (told other : List ℕ) (stopped also : Bool)
        → EvaluatesTo (state_of changes) text budget told stopped → EvaluatesTo (state_of changes) text budget other also
        → (other ≡ told) × (also ≡ stopped) }
{
    kernel_classes_last();
    answers_are_by_name();
    one_tree();
}

/// The run of a doIt's code, among the classes and methods of a state, answers the SmallInteger that its tree does, if one is answered.
pub fn runs_answer_the_smalls_of_trees()
    ensures { (system : SystemState) (state : State) (text : List ℕ) (budget : ℕ) (ran : RanValue)
        → AreGiven system → IsSystemOf system state → IsRunOf system text budget ran
        → AnswersSmall state text budget (outcome_text system.table ran.outcome) (is_stopped ran.outcome.end) (small_of ran.outcome.end) }
{
    code_means_its_trees();
    trees_are_told_alike();
    trees_are_well_sent();
}

/// In the state of a list, under a budget, a text answers one SmallInteger, or none.
pub fn a_doit_answers_one_small()
    ensures { (changes : List Change) (text : List ℕ) (budget : ℕ) (told other : List ℕ) (stopped also : Bool) (small another : Option ℤ)
        → AnswersSmall (state_of changes) text budget told stopped small → AnswersSmall (state_of changes) text budget other also another
        → another ≡ small }
{
    kernel_classes_last();
    answers_are_by_name();
    one_tree();
}
