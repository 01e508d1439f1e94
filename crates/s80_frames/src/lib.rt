//! The machine's activation frames, of 38 words each, in one block of raw memory.
#![tactic(auto)]

mod block;
mod frames;

pub use frames::{FRAME_WORDS, FrameArena};

#[cfg(test)]
mod tests;
