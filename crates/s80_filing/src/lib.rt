//! Filing in what was filed out: what the model keeper makes of a file of changes.
#![tactic(auto)]

mod laws;

pub use laws::{a_change_set_files_in, a_file_is_filed_in, a_log_files_in, all_classes_file_in};
