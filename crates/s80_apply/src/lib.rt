//! Changes applied: whether the classes and methods accept one, what it makes of them, and what no list of changes alters.
#![tactic(auto)]

mod checks;
mod code;
mod entry;
mod kernel;
mod kernel_sources;
mod lasting;
mod laws;
mod method;
mod recompile;
mod step;
mod system;

pub use kernel::boot;
pub use kernel_sources::kernel_sources_fit;
pub use lasting::{
    classes_have_few_variables, classes_of_bits_have_no_variables,
    kernel_classes_have_their_variables, kernel_classes_last,
};
pub use laws::{
    accepted_forms_are_lawful, classes_are_named, places_are_of_the_state, sources_stand,
};
pub use method::is_kernel_method;
pub use step::{Placed, PlacedMethod, SourcePlace, Step};
pub use system::System;
