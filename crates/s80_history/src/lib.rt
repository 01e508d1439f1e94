//! The change set of a list and the versions of its methods, kept step by step as places in the log.
#![tactic(auto)]

mod history;
mod keys;
mod laws;
mod members;
mod noted;
mod trace;

pub use history::History;
pub use laws::a_history_is_its_members_and_places;
pub use noted::{Noted, NotedKind};
