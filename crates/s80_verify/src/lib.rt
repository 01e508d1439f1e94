//! Code that can be run: what is wrong with a code, or that nothing is.
#![tactic(auto)]

mod effect;
mod fault;
mod header;
mod laws;
mod operands;
mod places;
mod point;
mod search;
mod stack;
mod verified;

pub use fault::{VerifyFault, VerifyKind};
pub use laws::{depths_verify, one_depth, steps_are_reached, what_is_reached_fits};
pub use stack::Stack;
pub use verified::{Verified, verify};
