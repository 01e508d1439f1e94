//! A system and its history as a snapshot's image has them: encoded, and resumed.
#![tactic(auto)]

mod begun;
mod class_changes;
mod encode;
mod history;
mod laws;
mod ranks;
mod resumed_methods;
mod resuming;
mod same_code;
mod working;

pub use encode::encode_system;
pub use history::resume_history;
pub use laws::{
    a_picture_is_the_image_of_its_list, a_resumed_history_is_that_of_its_list,
    a_resumed_system_is_that_of_its_list, images_of_lists_are_lawful,
    sources_of_a_list_are_those_of_its_image,
};
pub use resuming::resume;
