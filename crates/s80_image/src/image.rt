// What an image holds.
use s80_base::{Names, Side, Text};
use s80_form::Kind;
use s80_history::Noted;
use s80_verify::Verified;

/// What an image has of a method beside its code. The source stands in the kernel's text or in the log, spelled as a chunk without its mark.
#[derive(Debug, Drop)]
pub struct MethodHeading {
    pub selector: Text,
    pub category: Text,
    pub from_kernel: bool,
    pub position: u64,
    pub length: u64,
}

#[derive(Debug, Drop)]
pub struct ImageMethod {
    pub heading: MethodHeading,
    pub code: Verified,
}

/// The variables of a class, without those it inherits.
#[derive(Debug, Drop)]
pub struct ClassVariables {
    pub instance: Names,
    pub class: Names,
    pub pools: Names,
    pub class_side: Names,
}

/// What an image has of a class beside its methods.
#[derive(Debug, Drop)]
pub struct ClassHeading {
    pub name: Text,
    /// Empty for Object, which has none.
    pub superclass: Text,
    pub kind: Kind,
    pub variables: ClassVariables,
    pub category: Text,
    pub comment: Text,
}

/// A class of an image, with its methods in the order of their selectors.
#[derive(Debug, Drop)]
pub struct ImageClass {
    pub heading: ClassHeading,
    pub instance_methods: Vec<ImageMethod>,
    pub class_methods: Vec<ImageMethod>,
}

/// The places of a method's versions, the oldest first.
#[derive(Debug, Drop)]
pub struct MethodVersions {
    pub class_name: Text,
    pub side: Side,
    pub selector: Text,
    pub places: Vec<u64>,
}

/// What is kept of a list of changes: how many there are, the classes by their names, the change set and the versions of all methods.
#[derive(Debug, Drop)]
pub struct Image {
    pub count: u64,
    pub classes: Vec<ImageClass>,
    /// The oldest first.
    pub change_set: Vec<Noted>,
    /// By class, side and selector.
    pub versions: Vec<MethodVersions>,
}
