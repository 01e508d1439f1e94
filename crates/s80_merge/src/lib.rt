//! Merging two change sets that start from one list: the keys that each writes and uses, and where they are in conflict.
#![tactic(auto)]

mod change_keys;
mod key;
mod key_set;
mod keys;
mod laws;
mod planning;
mod set;
mod working;

pub use key::Key;
pub use keys::Keys;
pub use laws::{one_plan, sets_without_conflicts_merge};
pub use planning::{MergePlan, PlanFault, plan};
pub use working::{work, work_all};
