//! The format of a snapshot's image, encoded and decoded.
#![tactic(auto)]

mod chains;
mod class_parts;
mod decode;
mod encode;
mod fault;
mod fields;
mod history_parts;
mod image;
mod in_order;
mod literals;
mod method_parts;
mod parts;
mod spelling;
mod spots;
mod together;

pub use encode::{
    encode_image, put_class_heading, put_count, put_head, put_method, put_noted, put_versions,
};
pub use fault::{Fault, ImageFault};
pub use image::{
    ClassHeading, ClassVariables, Image, ImageClass, ImageMethod, MethodHeading, MethodVersions,
};
pub use in_order::lawful_classes_are_in_order;
pub use spelling::lists_are_spelled_member_by_member;
pub use together::decode_image;
