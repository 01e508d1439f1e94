//! What methods send and refer to, read from their code alone: senders, implementors and references, and the names to which nothing answers.
#![tactic(auto)]

mod code;
mod laws;
mod link;
mod names;
mod places;
mod word_set;
mod words;

pub use code::{outer_names, sent};
pub use laws::code_names_what_its_tree_does;
pub use names::{undeclared, unimplemented, unsent};
pub use places::{MethodPlace, Places, implementors, references, senders};
