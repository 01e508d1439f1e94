//! Which code stands for a core tree, with its laws; and the compiler: from the tree of a method, or of a doIt, to verified code.
#![tactic(auto)]

mod agreement;
mod assembler;
mod emit;
mod entry;
mod fixed;
mod method;
mod owner;
mod pieces;

pub use agreement::{
    messages_fit_their_selectors, one_code, related_code_is_verified, trees_are_well_sent,
};
pub use method::{compile, compile_doit};
