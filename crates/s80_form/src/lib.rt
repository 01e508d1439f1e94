//! The forms by which doIts change classes, their texts, names, and why a change is refused.
#![tactic(auto)]

mod definition;
mod form;
mod keyword;
mod name;
mod names;
mod read;
mod refusal;
mod shown;
mod spelling;
pub mod text_parts;
mod tree_form;
pub mod tree_parts;

pub use definition::{Definition, Kind, definition_text};
pub use form::{
    Form, Recognised, a_form_has_its_text, joined_names_are_split, one_form, one_form_text,
};
pub use name::{is_brief, is_class_name, is_name};
pub use names::{joined, split_names};
pub use read::read_form;
pub use refusal::{FitWord, ManyKind, Refusal, Refused, SyntaxKind};
pub use spelling::{form_text, side_text};
pub use text_parts::add_quoted;
pub use tree_form::recognise;
