//! What the program does with its words, over any outside: the call `st80`, and how it ends.
#![tactic(auto)]

mod outside;
mod program;
mod status;
mod words;

pub use program::st80;
pub use status::Status;
