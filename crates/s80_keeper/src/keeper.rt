// The keeper, and a change that is prepared for it.
ghost use Rattle.std.specs.Prelude.{◌≡◌, ◌≤◌, List, length, IfOk};
ghost use Rattle.s80_change.specs.declared.change.Change.{Change};
ghost use Rattle.s80_change.specs.Block.{block as block_of};
ghost use Rattle.s80_apply.specs.State.{State};
ghost use Rattle.s80_apply.specs.Placed.{PlacedState};
ghost use Rattle.s80_apply.specs.System.{HasPlaces, IsSystemOf, offset_of};
ghost use Rattle.s80_history.specs.History.{IsHistoryOf};
ghost use Rattle.s80_keeper.specs.Answers.{CanKeep, PlacesFor, Prepares, prepared_of};

use s80_apply::{Step, System};
use s80_base::{Failed, Text};
use s80_change::{Change, block_text};
use s80_form::{Refusal, Refused};
use s80_history::History;
use s80_log::Log;
use s80_mark::MarkState;
use std::alloc::Global;
use std::marker::Model;

/// A keeper of the list of changes for which a disk stands.
#[derive(Debug, Drop)]
pub struct Keeper {
    pub(crate) log: Log,
    pub(crate) mark: MarkState,
    pub(crate) system: System,
    pub(crate) history: History,
    pub(crate) count: u64,
    /// The first fault of the disk. After it no call is made.
    pub(crate) fault: Option<Failed>,
}

impl Model for Keeper {
    ghost use Rattle.std.specs.Coded.{codes};
    ghost use Rattle.s80_apply.specs.Coded.{system_code};
    ghost use Rattle.s80_history.specs.Coded.{history_code};
    ghost use Rattle.s80_keeper.specs.Keeper.{KeeperState};

    ghost Value = { KeeperState };

    ghost coded = { Prim.hlevel (codes, system_code, history_code) };

    ghost view = { λ k. record { log = k.log; mark = k.mark; system = k.system; history = k.history; count = k.count; fault = k.fault } };
}

/// A change with all that is needed to keep it. Keeping it takes no memory.
#[derive(Debug, Drop)]
pub struct Prepared {
    change: Change,
    block: Text,
    step: Step,
}

impl Model for Prepared {
    ghost use Rattle.std.specs.Prelude.{◌≡◌, ◌≤◌, length};
    ghost use Rattle.std.specs.Coded.{codes};
    ghost use Rattle.s80_base.specs.contracts.literal.Literal as literal;
    ghost use Rattle.s80_change.specs.Block.{block as block_of};
    ghost use Rattle.s80_apply.specs.System.{offset_of};
    ghost use Rattle.s80_keeper.specs.Answers.{PreparedChange};

    ghost Value = { PreparedChange };

    ghost coded = { Prim.hlevel (codes, literal.the_row.coded) };

    ghost view = { λ p. record { change = p.change; step = p.step } };

    ghost invariant = { λ p. (p.block ≡ block_of p.change) × (offset_of p.step ≤ length p.block) };
}

impl Prepared {
    /// How the log keeps the change.
    pub(crate) fn block(&self) -> &Text
        ensures { result.now ≡ block_of self.now.change }
    {
        &self.block
    }

    /// The change and the step; the block is let go.
    pub(crate) fn parts(self) -> (Change, Step)
        ensures change { result.0 ≡ self.change }
        ensures step { result.1 ≡ self.step }
        ensures place { offset_of result.1 ≤ length (block_of self.change) }
    {
        (self.change, self.step)
    }
}

impl Keeper {
    /// Prepares a change to be kept, or says why the list refuses it. The list stays.
    pub fn prepare(&mut self, alloc: Global, change: Change) -> Result<Prepared, Refused>
        ensures change { IfOk result (λ prepared. prepared.change ≡ change) }
        ensures answer { (state : State) → IsSystemOf self.old.system state → Prepares state self.old.log.end change self.new.system result }
        ensures places { (placed : PlacedState) → HasPlaces self.old.system placed → IfOk result (PlacesFor placed self.new.system) }
        ensures ready { IfOk result (CanKeep self.new) }
        ensures same { self.new ≡ record self.old { system = self.new.system; history = self.new.history } }
        ensures system { (state : State) → IsSystemOf self.old.system state → IsSystemOf self.new.system state }
        ensures same_places { (placed : PlacedState) → HasPlaces self.old.system placed → HasPlaces self.new.system placed }
        ensures history { (changes : List Change) → IsHistoryOf self.old.history changes → IsHistoryOf self.new.history changes }
        ensures names { self.new.system.table.names ≡ self.old.system.table.names }
    {
        let (block, step) = self.ready(alloc, &change)?;
        Ok(Prepared {
            change,
            block,
            step,
        })
    }

    /// The block and the step of a change, once there is all memory that keeping it takes; or why the list refuses it. The list stays.
    fn ready(&mut self, alloc: Global, change: &Change) -> Result<(Text, Step), Refused>
        ensures answer { (state : State) → IsSystemOf self.old.system state
            → Prepares state self.old.log.end change.now self.new.system (prepared_of change.now result) }
        ensures places { (placed : PlacedState) → HasPlaces self.old.system placed
            → IfOk result (λ p. PlacesFor placed self.new.system (record { change = change.now; step = p.1 })) }
        ensures ready { IfOk result (λ p. CanKeep self.new (record { change = change.now; step = p.1 })) }
        ensures block { IfOk result (λ p. (p.0 ≡ block_of change.now) × (offset_of p.1 ≤ length p.0)) }
        ensures same { self.new ≡ record self.old { system = self.new.system; history = self.new.history } }
        ensures system { (state : State) → IsSystemOf self.old.system state → IsSystemOf self.new.system state }
        ensures same_places { (placed : PlacedState) → HasPlaces self.old.system placed → HasPlaces self.new.system placed }
        ensures history { (changes : List Change) → IsHistoryOf self.old.history changes → IsHistoryOf self.new.history changes }
        ensures names { self.new.system.table.names ≡ self.old.system.table.names }
    {
        self.history.reserve(alloc, change)?;
        let block = block_text(alloc, change)?;
        let step = self.system.prepare(alloc, change)?;
        if !self.log.has_room(block.bytes().len() as u64) {
            return Err(Refused::Refusal(Refusal::LogFull(self.log.length())));
        }
        Ok((block, step))
    }

    /// The classes and methods that the changes make.
    pub fn system(&self) -> &System
        ensures { result.now ≡ self.now.system }
    {
        &self.system
    }

    /// The change set, and the versions of the methods, by the places of their blocks.
    pub fn history(&self) -> &History
        ensures { result.now ≡ self.now.history }
    {
        &self.history
    }

    /// How many changes are kept.
    pub fn count(&self) -> u64
        ensures { result ≡ self.now.count }
    {
        self.count
    }

    /// How long the log is.
    pub fn log_length(&self) -> u64
        ensures { result ≡ self.now.log.end }
    {
        self.log.length()
    }
}
