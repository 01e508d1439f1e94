//! Joining a second change set: the changes of an input, worked from the base of a list; what merging them with that list comes to, and what it is answered.
#![tactic(auto)]

mod base;
mod given;
mod kinds;
mod laws;
mod lines;
mod outcome;
mod theirs;

pub use base::Base;
pub use given::Given;
pub use laws::{
    a_bad_item_stays_the_first, a_set_starts_from_its_base, joining_adds_one_by_one,
    merging_has_one_outcome, theirs_are_accepted,
};
pub use lines::{conflict_lines, merged_line};
pub use outcome::Outcome;
pub use theirs::Theirs;
