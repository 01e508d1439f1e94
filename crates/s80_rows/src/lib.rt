//! What the programs of rows share: reading the rows from standard input, bytes as rows spell them, and printing what a row is answered.
#![tactic(auto)]

pub mod bytes;
mod rows;

pub use rows::{input, print, word_of};
