//! The bytecode machine (Blue Book, part four): its instructions as steps over activations and objects.
#![tactic(auto)]

mod activations;
mod context;
mod contexts;
mod execution;
mod halt;
mod laws;
mod machine;
mod methods;
mod quick;
mod selectors;
mod sends;
mod setting;
mod sites;
mod steps;
mod stores;
mod stretch;
mod variables;

pub use execution::{Ran, run};
pub use laws::{
    a_run_ends, a_run_has_one_outcome, each_step_leaves_less, verified_code_is_never_stuck,
    worked_runs,
};
pub use s80_prims::{End, Outcome, Stop};
