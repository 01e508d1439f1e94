//! Core trees: what a method does in a class, with its names bound and its control messages told apart. They have no
//! names of temporaries, no scopes and no places.
#![tactic(auto)]

mod core_tree;
mod elaboration;
mod laws;

pub use core_tree::{Core, CoreMessage, CoreMessages, Cores, Leaf, Variable};
pub use elaboration::elaborate;
pub use laws::{a_fitting_tree_has_a_fitting_core, temporaries_are_declarations};
