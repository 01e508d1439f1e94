//! The grammar of methods and doIts, with its laws; and their trees, read from their texts.
#![tactic(auto)]

mod expr;
mod fault;
mod grammar;
mod head;
mod laws;
mod literal;
mod messages;
mod method;
mod name_set;
mod names;
mod parse;
mod pattern;
mod scope;
mod spelled;
mod tokens;

pub use fault::ParseFault;
pub use grammar::{
    doit_or_fault, doit_taken, method_or_fault, method_taken, no_fault_in_doit, no_fault_in_method,
    one_doit_fault, one_doit_tree, one_method_fault, one_method_tree, run_stops_at_doit_fault,
    run_stops_at_method_fault,
};
pub use laws::{no_fault_beside_a_tree, one_fault, one_tree};
pub use name_set::NameSet;
pub use parse::{parse_doit, parse_method};
pub use s80_tree::{
    Block, Body, DoItTree, Expr, Exprs, Message, Messages, MethodTree, NameAt, NamesAt, Primary,
    Stmt,
};
pub use scope::is_reserved;
