//! The methods of a class by their selectors, and of all classes by their numbers. A selector gets its room before, so that a method is put,
//! replaced and removed with no memory, and so does a class that is added.
#![tactic(auto)]

mod dict;
mod sides;
mod table;

pub use dict::{MethodDict, MethodEntry};
pub use table::MethodTable;
