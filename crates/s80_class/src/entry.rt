// What the table has of a class.
use s80_base::{Names, Text};
use s80_form::Kind;

/// A class: its definition, its comment and its class-side variables.
#[derive(Debug, Drop)]
pub struct ClassEntry {
    pub class_name: Text,
    /// The number of its superclass; Object has none.
    pub superclass: Option<u32>,
    pub kind: Kind,
    /// Its own instance variables, without those it inherits.
    pub inst_vars: Names,
    pub class_vars: Names,
    pub pools: Names,
    pub category: Text,
    pub comment: Text,
    /// Its own class-side variables, without those it inherits.
    pub class_side_vars: Names,
}
