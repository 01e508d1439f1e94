//! What is printed: the texts of refusals, and of what a doIt comes to.
#![tactic(auto)]

mod outcome;
mod refusal;

pub use outcome::outcome_text;
pub use refusal::refusal_text;
pub use s80_prims::print_value;
