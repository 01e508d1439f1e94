// The instructions as data.

/// What an instruction reads or writes, by its number.
#[derive(Clone, Copy, Debug, PartialEq, Eq)]
pub enum Storage {
    /// A variable of the receiver.
    Receiver(u8),
    Temporary(u8),
    /// A literal of the frame as a value.
    Constant(u8),
    /// The variable that a literal of the frame names.
    Variable(u8),
}

/// One instruction. A jump's distance is counted from the place behind it.
#[derive(Clone, Copy, Debug, PartialEq, Eq)]
pub enum Instruction {
    Push(Storage),
    /// Stores the top, and leaves it.
    Store(Storage),
    PopInto(Storage),
    /// Pushes the receiver, true, false, nil, -1, 0, 1 or 2, from 0 on.
    PushFixed(u8),
    /// Returns the receiver, true, false or nil from the message, from 0 on.
    ReturnFixed(u8),
    /// Returns the top from the message.
    ReturnTop,
    /// Returns the top from the block.
    ReturnFromBlock,
    /// Sends the literal of that number.
    Send { arguments: u8, selector: u8 },
    SendSuper { arguments: u8, selector: u8 },
    /// Sends one of the 32 messages that have bytes of their own, from 0 on.
    SendSpecial(u8),
    Pop,
    Duplicate,
    /// Pushes the active context.
    PushContext,
    Jump(i32),
    /// Pops, and jumps on true.
    JumpOnTrue(i32),
    /// Pops, and jumps on false.
    JumpOnFalse(i32),
}
