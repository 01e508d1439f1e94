//! The kernel: what is there before any change. Its classes, the text of its methods, and these methods one by one.
#![tactic(auto)]

mod laws;
mod methods;
mod rows;
mod text;

pub use laws::{
    found_methods_are_those_named, kernel_methods_are_distinct,
    kernel_methods_are_of_kernel_classes, kernel_methods_are_those_of_the_sections,
    kernel_sources_are_plain, kernel_sources_stand_in_the_text,
};
pub use methods::{KernelMethod, find_method, method_rows};
pub use rows::{KernelClass, class_rows, is_kernel_class};
pub use text::kernel_text;
