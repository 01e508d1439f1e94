//! Primitives: what the machine answers without running a method; and the printed form of every value.
#![tactic(auto)]

mod applied;
mod classes;
mod front;
mod integers;
mod kernel;
mod laws;
mod print;
mod stop;

pub use applied::{Applied, apply, same};
pub use integers::{arithmetic, truth};
pub use kernel::Kernel;
pub use laws::primitives_keep_known;
pub use print::print_value;
pub use stop::{End, Outcome, Stop};
