// What is needed to install a change.
use s80_base::{Side, Text};
use s80_class::ClassEntry;
use s80_dict::MethodEntry;
use s80_verify::Verified;

/// Where the source of a method stands, spelled as a chunk without its mark: in the kernel's text or in the log, from which byte on, and how many bytes.
#[derive(Clone, Copy, Debug, PartialEq, Eq)]
pub struct SourcePlace {
    pub from_kernel: bool,
    pub position: u64,
    pub length: u64,
}

/// An entry that is to be put among the classes.
#[derive(Debug, Drop)]
pub struct Placed {
    /// The class whose entry it replaces; a new class where there is none.
    pub(crate) number: Option<u32>,
    pub(crate) entry: ClassEntry,
    /// The methods of the class and of its descendants, with their code for the classes with the entry.
    pub(crate) recompiled: Vec<PlacedMethod>,
}

/// A method that is to be put into a dictionary in which its selector has room.
#[derive(Debug, Drop)]
pub struct PlacedMethod {
    pub(crate) number: u32,
    pub(crate) side: Side,
    pub(crate) selector: Text,
    /// The position of its source is counted from the beginning of its block.
    pub(crate) entry: MethodEntry<Verified>,
}

/// What is needed to install a change. Classes go by their numbers. Installing takes no memory.
#[derive(Debug, Drop)]
pub enum Step {
    /// Nothing is changed.
    Nothing,
    /// An entry is put among the classes, with the methods that are compiled again for it.
    Class(Placed),
    /// A class gets this comment.
    Comment {
        number: u32,
        text: Text,
    },
    /// A class is taken away with its methods.
    RemoveClass {
        number: u32,
    },
    /// A method is put.
    Method(PlacedMethod),
    /// A method is taken away.
    RemoveMethod {
        number: u32,
        side: Side,
        selector: Text,
    },
    /// A method gets this category.
    Classify {
        number: u32,
        side: Side,
        selector: Text,
        category: Text,
    },
}
