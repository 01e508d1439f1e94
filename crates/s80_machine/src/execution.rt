// A run of a doIt.
ghost use Rattle.std.specs.Prelude.{◌≡◌, ◌≢◌, IfOk, length};
ghost use Rattle.s80_machine.specs.declared.halt.Halt.TheVariants.{Ended, Stuck};
ghost use Rattle.s80_machine.specs.World.{World};
ghost use Rattle.s80_machine.specs.Run.{RunsTo, start};
ghost use Rattle.s80_machine.specs.Shared.{outcome_of};
ghost use Rattle.s80_machine.specs.Sound.{IsSetting};
ghost use Rattle.s80_machine.specs.Came.{AnswersKnown, Came, IsNew, IsReady, IsSet, ShowsWorld, given_of};

use crate::halt::Halt;
use crate::laws::{each_step_leaves_less, verified_code_is_never_stuck};
use crate::machine::Machine;
use crate::setting::Setting;
use s80_base::OutOfMemory;
use s80_class::ClassTable;
use s80_dict::MethodTable;
use s80_object::Value;
use s80_prims::{End, Outcome};
use s80_verify::Verified;
use std::alloc::Global;
use std::marker::Model;

/// A run that has ended. `run` alone makes one.
#[derive(Debug, Drop)]
pub struct Ran {
    outcome: Outcome,
    budget: u64,
}

impl Model for Ran {
    ghost use Rattle.s80_machine.specs.Came.{RanValue};

    ghost Value = { RanValue };

    ghost view = { λ r. record { outcome = r.outcome; budget = r.budget } };
}

impl Ran {
    /// What it came to.
    pub fn outcome(&self) -> &Outcome
        ensures { result.now ≡ self.now.outcome }
    {
        &self.outcome
    }

    /// How many ticks it could take at most.
    pub fn budget(&self) -> u64
        ensures { result ≡ self.now.budget }
    {
        self.budget
    }
}

/// Runs the code of a doIt among these classes and methods, for at most so many ticks (Blue Book, part four).
pub fn run(
    alloc: Global,
    classes: &ClassTable,
    methods: &MethodTable<Verified>,
    code: &Verified,
    budget: u64,
) -> Result<Ran, OutOfMemory>
    requires setting { IsSetting classes.now methods.now code.now }
    requires sides { length methods.now.sides ≡ length classes.now.names }
    ensures runs { IfOk result (λ ran. RunsTo classes.now methods.now code.now budget ran.outcome) }
    ensures budget { IfOk result (λ ran. ran.budget ≡ budget) }
    ensures answer { IfOk result (λ ran. AnswersKnown classes.now ran.outcome) }
{
    let on = Setting::new(alloc, classes, methods, code, budget)?;
    let mut machine = Machine::new(alloc);
    let end = finish(&on, &mut machine)?;
    Ok(Ran {
        outcome: Outcome {
            end,
            transcript: machine.transcript,
            ticks: machine.ticks,
            words: machine.objects.words(),
            objects: machine.objects,
        },
        budget,
    })
}

// Takes steps up to the end.
fn finish<'a>(on: &Setting<'a>, machine: &mut Machine<'a>) -> Result<End, OutOfMemory>
    requires ready { IsReady on.now }
    requires setting { IsSet (given_of on.now) }
    requires new { IsNew machine.old }
    ensures { IfOk result (λ end. (w : World) × ShowsWorld (given_of on.now) machine.new w
        × RunsTo on.now.classes.now on.now.methods.now on.now.doit.now on.now.budget (outcome_of end w) × AnswersKnown on.now.classes.now (outcome_of end w)) }
{
    verified_code_is_never_stuck();
    each_step_leaves_less();
    let quick = on.quick();
    if let Err(halt) = machine.start(on) {
        return ended(halt);
    }
    loop {
        machine.go_on(&quick);
        if let Err(halt) = machine.step(on) {
            return ended(halt);
        }
    }
}

// How a run has ended.
fn ended(halt: Halt) -> Result<End, OutOfMemory>
    requires { halt ≢ Stuck }
    ensures { IfOk result (λ end. halt ≡ Ended end) }
{
    match halt {
        Halt::Ended(ending) => Ok(ending.end()),
        Halt::Memory => Err(OutOfMemory),
        Halt::Stuck => unreachable!(),
    }
}

impl<'a> Machine<'a> {
    // Activates the doIt, with nil as its receiver.
    fn start(&mut self, on: &Setting<'a>) -> Result<(), Halt>
        requires { IsNew self.old }
        ensures { Came (given_of on.now) (start on.now.classes.now on.now.methods.now on.now.doit.now on.now.budget) self.new result }
    {
        self.check_depth()?;
        let doit = self.methods.number_of_doit(on.alloc, on.doit)?;
        self.activate_method(on, doit, Value::Nil, Vec::new(on.alloc))
    }
}
