//! Methods back from what is left of them: the text of a method's tree.
#![tactic(auto)]

mod laws;
mod literal;
mod method;
mod printer;
mod selector;
mod walk;

pub use laws::{a_spellable_tree_has_a_text, a_tree_of_a_text_is_spellable};
pub use method::tree_text;
