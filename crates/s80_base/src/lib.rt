//! What the other crates speak of: texts and literals, and the outside as a source, a sink and a clock.
#![tactic(auto)]

mod byte;
mod literal;
mod memory;
mod names;
mod outside;
mod text;

pub use byte::is_separator;
pub use literal::{Literal, Literals, NumberKind};
pub use memory::{FixedClock, MemSink, MemSource, RepeatSource, copy_from, fault};
pub use names::{Names, Side};
pub use outside::{Call, Clock, Failed, Sink, Source};
pub use text::{OutOfMemory, Text};
