// The items of an input, and queries.
use s80_base::Text;
use s80_chunk::Item;

/// What a file of changes has.
#[derive(Debug, Drop)]
pub enum Filed {
    /// What makes all classes.
    All,
    /// What makes the class of this name.
    Class(Text),
    /// The change set.
    Set,
}

/// A command beside an input of items: what may be asked of a folder.
#[derive(Debug, Drop)]
pub enum Query {
    /// How much there is in the folder.
    Recover,
    /// The names of all classes.
    Classes,
    /// The class of this name: its definition, its comment, its class-side variables, and the selectors of its methods by category.
    Browse(Text),
    /// The source of a method: its class, with ` class` behind the name for the class side, and its selector.
    Source(Text, Text),
    /// All versions of a method, the newest first, named as for its source.
    Versions(Text, Text),
    /// The change set.
    Changes,
    /// A file of changes, with the moment in its first line.
    FileOut(Filed),
    /// The methods that send this selector.
    Senders(Text),
    /// The methods of this selector.
    Implementors(Text),
    /// The methods that read or assign this outer name.
    References(Text),
    /// The outer names to which methods refer, and which nothing has.
    Undeclared,
    /// The selectors that methods send, and of which there is no method.
    Unimplemented,
    /// The selectors of methods that no method sends.
    Unsent,
    /// Not a question: a snapshot is asked for, and its note is kept.
    Snapshot,
    /// Nor is this: the condensed list takes the place of the list. It makes the same classes and methods.
    Condense,
}

/// An item of the input, the rest of an input that ends within an item, or a query.
#[derive(Debug, Drop)]
pub enum SessionItem {
    Chunk(Item),
    Unended,
    Query(Query),
}
