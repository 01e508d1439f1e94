// Whose stack a place is reached on.

/// A place is reached on the stack of a method or doIt itself, or on that of a real block.
#[derive(Clone, Copy, Debug, PartialEq, Eq)]
pub enum Stack {
    OfHome,
    OfBlock,
}
