//! The shortest list that makes a state, and the text of a file of changes.
#![tactic(auto)]

mod classes;
mod condensed;
mod file;
mod laws;
mod methods;
mod moment;
mod order;

pub use classes::add_classes;
pub use condensed::{canon, filed, filed_on};
pub use file::render;
pub use laws::{
    a_file_is_read_again, a_file_of_all_classes_folds_back, classes_are_made_in_order,
    lawful_classes_are_made, the_list_with_versions_folds_back,
    the_list_with_versions_is_made_in_order, the_shortest_list_folds_back, there_is_one_moment,
};
pub use methods::{ListedMethod, add_classifying, all_methods};
pub use moment::each_second_has_a_moment;
pub use order::{RankedClass, sort_by_depth};
