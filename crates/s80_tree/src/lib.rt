//! The trees of Smalltalk-80 methods and doIts, as plain data.
#![tactic(auto)]

mod expr;
mod method;
mod name;

pub use expr::{Block, Body, Expr, Exprs, Message, Messages, Primary, Stmt};
pub use method::{DoItTree, MethodTree};
pub use name::{NameAt, NamesAt};
