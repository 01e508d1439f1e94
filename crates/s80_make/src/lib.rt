//! Generated input, to try a folder at size: classes with methods and doIts, and what the replies to them come to.
#![tactic(auto)]

mod items;
mod laws;
mod tally;

pub use items::{ITEMS_EACH, made_item, text_item};
pub use laws::make_has_one_line;
pub use tally::Tally;
