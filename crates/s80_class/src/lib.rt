//! The table of classes: each has a name, a number and a superclass; and where a message finds its method.
#![tactic(auto)]

mod below;
mod entry;
mod found;
mod inherited;
mod laws;
mod table;
mod tree;

pub use entry::ClassEntry;
pub use found::{Found, lookup, lookup_from};
pub use inherited::{Greatest, Totals};
pub use laws::{apart_is_not_under, lineage_is_the_line, one_line};
pub use s80_form::Kind;
pub use table::ClassTable;
