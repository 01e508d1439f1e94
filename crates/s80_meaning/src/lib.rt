//! What code means: its trees, evaluated tick for tick among the trees of the methods.
#![tactic(auto)]

mod execution;
mod laws;

pub use execution::run;
pub use laws::{answers_are_by_name, code_means_its_trees, trees_are_told_alike, worked_trees};
