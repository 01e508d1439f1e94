//! The keeper of one list of changes on a disk: it finds the list at the start, keeps each change so that no crash loses it, and reads sources again.
#![tactic(auto)]

mod begin;
mod changes_at;
mod condense;
mod keep;
mod keeper;
mod laws;
mod renew;
mod snapshot;
mod source;
mod source_at;
mod start;
mod unspell;

pub use keep::KeepFault;
pub use keeper::{Keeper, Prepared};
pub use laws::{
    a_disk_that_stands_reads_so, damaged_files_stand_for_no_list, files_have_one_damage,
    files_stand_for_one_list, pending_blocks_are_counted, undamaged_files_have_no_damage,
};
pub use source_at::read_source;
pub use start::{Damage, StartFault};
pub use unspell::unspelled;
