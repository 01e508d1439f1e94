//! The objects of one doIt, with their exact count of words, and its values.
#![tactic(auto)]

mod bodies;
mod body;
mod numbers;
mod objects;
mod pushes;
mod room;
mod texts;
mod value;

pub use objects::Objects;
pub use value::{BodyKind, ObjectFault, Value};
