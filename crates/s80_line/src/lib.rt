//! The words of a command line.
#![tactic(auto)]

mod line;
mod number;
mod words;

pub use line::{Line, read_line};
pub use number::number_in;
