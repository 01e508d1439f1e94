//! The tokens of a Smalltalk-80 text, what a number means, and how many parameters a selector has.
#![tactic(auto)]

mod class;
mod digits;
mod fault;
mod front;
mod laws;
mod list;
mod number;
mod part;
mod quoted;
mod run;
mod selector;
mod token;
mod word;

pub use fault::LexFault;
pub use laws::one_reading;
pub use list::{TokenList, tokens};
pub use number::literal_of_number;
pub use selector::{is_name, parameters_of};
pub use token::{Token, TokenKind};
