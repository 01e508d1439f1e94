//! Methods in their classes: the variables that they see, and their code.
#![tactic(auto)]

mod code;
mod laws;
mod shape;

pub use code::{compile_source, compile_tree};
pub use laws::shapes_have_as_many_variables;
pub use shape::shape_of;
