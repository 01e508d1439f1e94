// Changes of the programmer's work, methods among them.
use crate::source::Source;
use s80_base::{Side, Text};
use s80_form::Form;

/// A change of the programmer's work, as the log keeps it.
#[derive(Debug, Drop)]
pub enum Change {
    /// What a doIt changes by its form.
    Form(Form),
    /// A method of a class, which takes the place of the one that has its selector.
    Method(Method),
    /// An expression to evaluate. It changes no class.
    DoIt { text: Text },
}

/// A method of a class, by its source. The class is named as it was written: it need not be there.
#[derive(Debug, Drop)]
pub struct Method {
    pub class_name: Text,
    pub side: Side,
    pub category: Text,
    pub source: Source,
}
