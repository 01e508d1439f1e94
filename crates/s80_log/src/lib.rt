//! The changes log: blocks appended, committed by the mark, and read again.
#![tactic(auto)]

mod laws;
mod log;
mod read;

pub use laws::{bytes_past_the_mark_say_nothing, files_stand_for_one_list};
pub use log::{LOG_LIMIT, Log, LogFault};
pub use read::BlockFault;
