// Laws of the machine's steps and runs.
ghost use Rattle.std.specs.Prelude.{◌≡◌, ◌<◌, ℕ, pos};
ghost use Rattle.s80_class.specs.Table.{Table};
ghost use Rattle.s80_code.specs.declared.code.Code.{Code};
ghost use Rattle.s80_code.specs.declared.code.Frame.{Frame};
ghost use Rattle.s80_dict.specs.Table.{MethodsValue};
ghost use Rattle.s80_dict.specs.declared.dict.MethodEntry.{MethodEntry};
ghost use Rattle.s80_object.specs.declared.value.Value.TheVariants.{Small};
ghost use Rattle.s80_prims.specs.declared.stop.End.TheVariants.{Answer, Stopped};
ghost use Rattle.s80_prims.specs.declared.stop.Outcome.{Outcome};
ghost use Rattle.s80_prims.specs.declared.stop.Stop.TheVariants.{Budget};
ghost use Rattle.s80_machine.specs.Turn.{State, Goes};
ghost use Rattle.s80_machine.specs.Step.{turn};
ghost use Rattle.s80_machine.specs.Run.{RunsTo, start};
ghost use Rattle.s80_machine.specs.Sound.{IsSetting, IsSound, IsSoundTurn};
ghost use Rattle.s80_machine.specs.Measure.{IsWithin, steps_left};
ghost use Rattle.s80_machine.specs.Worked.{ended, for_ever, plain_code, two_and_two};

use s80_prims::primitives_keep_known;

/// A run comes to one outcome.
pub fn a_run_has_one_outcome()
    ensures { (t : Table) (methods : MethodsValue (MethodEntry Code)) (code : Code) (budget : ℕ) (one other : Outcome)
        → RunsTo t methods code budget one → RunsTo t methods code budget other → one ≡ other }
{}

/// Verified code is never stuck: its run begins soundly, and each step keeps that.
pub fn verified_code_is_never_stuck()
    ensures begins { (t : Table) (methods : MethodsValue (MethodEntry Code)) (code : Code) (budget : ℕ) → IsSetting t methods code
        → IsSoundTurn t methods code (start t methods code budget) }
    ensures goes_on { (t : Table) (methods : MethodsValue (MethodEntry Code)) (code : Code) (budget : ℕ) → IsSetting t methods code
        → (s : State) → IsSound t methods code s → IsSoundTurn t methods code (turn t methods code budget s) }
{
    primitives_keep_known();
}

/// Each step leaves fewer steps, so that a run ends under every budget.
pub fn each_step_leaves_less()
    ensures begins { (t : Table) (methods : MethodsValue (MethodEntry Code)) (code : Code) (budget : ℕ) (s : State)
        → start t methods code budget ≡ Goes s → IsWithin budget s }
    ensures goes_on { (t : Table) (methods : MethodsValue (MethodEntry Code)) (code : Code) (budget : ℕ) (s next : State)
        → IsSound t methods code s → IsWithin budget s → turn t methods code budget s ≡ Goes next
        → IsWithin budget next × (steps_left budget next < steps_left budget s) }
{}

/// Under every budget a run comes to an outcome.
pub fn a_run_ends()
    ensures { (t : Table) (methods : MethodsValue (MethodEntry Code)) (code : Code) (budget : ℕ) → IsSetting t methods code
        → (outcome : Outcome) × RunsTo t methods code budget outcome }
{
    verified_code_is_never_stuck();
}

/// Runs worked by hand, whatever classes and methods there are: `2 + 2` answers 4 and takes no tick, and `[true] whileTrue: []` stops once it
/// has taken each tick of its budget.
pub fn worked_runs()
    ensures sum { (t : Table) (methods : MethodsValue (MethodEntry Code)) (literals : Frame) (budget : ℕ)
        → RunsTo t methods (plain_code two_and_two literals) budget (ended (Answer (Small (pos 4))) 0) }
    ensures loop_of_five { (t : Table) (methods : MethodsValue (MethodEntry Code)) (literals : Frame)
        → RunsTo t methods (plain_code for_ever literals) 5 (ended (Stopped (Budget 5)) 5) }
{}
