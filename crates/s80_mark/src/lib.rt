//! The mark file: two slots, of which one is valid, and a commit that a crash can't tear.
#![tactic(auto)]

mod commit;
mod init;
mod laws;
mod mark;
mod read;
mod slots;
mod write;

pub use commit::commit_mark;
pub use init::init_mark;
pub use laws::{mark_stands_in_front, no_mark_where_both_are_closed, one_answer, one_of_two_marks};
pub use mark::{FORMAT_TWO, MarkState, NO_IMAGE};
pub use read::{Found, MarkFault, read_mark};
