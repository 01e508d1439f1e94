// A run's state, and what its steps are made of.
ghost use Rattle.s80_machine.specs.Came.{ChecksDepth, IsMade, IsNew, Ticks};

use crate::contexts::Contexts;
use crate::halt::Halt;
use crate::methods::Methods;
use crate::sites::Sites;
use crate::variables::Variables;
use s80_base::Text;
use s80_object::{ObjectFault, Objects, Value};
use s80_prims::Stop;
use std::alloc::Global;

/// The greatest number of activations.
const DEPTH_LIMIT: usize = 10_000;

/// What a run changes.
#[derive(Debug, Drop)]
pub(crate) struct Machine<'a> {
    pub alloc: Global,
    pub contexts: Contexts,
    pub objects: Objects,
    pub transcript: Text,
    pub ticks: u64,
    pub methods: Methods<'a>,
    pub variables: Variables,
    pub sites: Sites<'a>,
}

impl<'a> Machine<'a> {
    /// No activation, and nothing was done.
    pub(crate) fn new(alloc: Global) -> Self
        ensures { IsNew result }
    {
        Machine {
            alloc,
            contexts: Contexts::none(alloc),
            objects: Objects::empty(alloc),
            transcript: Text::empty(alloc),
            ticks: 0,
            methods: Methods::none(alloc),
            variables: Variables::none(alloc),
            sites: Sites::none(alloc),
        }
    }

    /// Counts one more tick, or the budget is passed.
    #[inline(always)]
    pub(crate) fn tick(&mut self, budget: u64) -> Result<(), Halt>
        ensures { Ticks budget self.old self.new result }
    {
        if self.ticks >= budget {
            return Err(Halt::stop(self.alloc, Stop::Budget(budget)));
        }
        self.ticks += 1;
        Ok(())
    }

    /// There may be one more activation.
    #[inline(always)]
    pub(crate) fn check_depth(&self) -> Result<(), Halt>
        ensures { ChecksDepth self.now.contexts result }
    {
        if self.contexts.count() < DEPTH_LIMIT {
            Ok(())
        } else {
            Err(Halt::stop(self.alloc, Stop::Deep))
        }
    }
}

/// An object that isn't made stops the run.
pub(crate) fn made(alloc: Global, value: Result<Value, ObjectFault>) -> Result<Value, Halt>
    ensures { IsMade value result }
{
    match value {
        Ok(value) => Ok(value),
        Err(ObjectFault::Memory) => Err(Halt::Memory),
        Err(ObjectFault::Full(words)) => Err(Halt::stop(alloc, Stop::ObjectsFull(words))),
        Err(_) => Err(Halt::Stuck),
    }
}
