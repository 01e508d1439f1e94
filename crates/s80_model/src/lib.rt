//! The model keeper: what the items of an input ask, and what they are answered, whatever keeps the list of changes; with the texts that queries are told.
#![tactic(auto)]

mod browse;
mod changes;
mod item;
mod laws;
mod plain;
mod reply;
mod section;
mod side;
mod sought;
mod told;

pub use browse::browse_text;
pub use changes::{changes_text, snapshot_note, versions_text};
pub use item::{Filed, Query, SessionItem};
pub use laws::one_ask;
pub use plain::{Plain, plain_of};
pub use reply::{Answer, Reply};
pub use section::{Section, head_answer, method_of, too_long_answer};
pub use side::side_named;
pub use sought::{names_text, places_text};
pub use told::{classes_text, recovered_text};
