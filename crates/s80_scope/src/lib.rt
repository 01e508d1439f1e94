//! What stands in a method: what its names mean in a class, and whether it fits a machine, whatever its class.
#![tactic(auto)]

mod doit;
mod fit;
mod names;
mod shape;

pub use doit::doit_method;
pub use fit::{
    Ending, Fit, FitKind, Leaves, Measures, Position, ending_of, fits, keys_tell_entries_apart,
    measured,
};
pub use names::{
    a_use_has_its_place_alone, bind, places_of_uses_rise, the_innermost_declaration_is_meant,
};
pub use shape::{Binding, Bindings, Shape, Where};
