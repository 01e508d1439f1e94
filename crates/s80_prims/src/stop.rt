// How a run ends.

use s80_base::{Side, Text};
use s80_object::{Objects, Value};

/// Why a run is stopped.
#[derive(Debug, Drop)]
pub enum Stop {
    /// A program said that it is in error, with this text.
    Error(Text),
    /// The class and side that don't understand this message.
    NotUnderstood(Text, Side, Text),
    /// A conditional jump met neither true nor false.
    NonBoolean,
    /// The home to which a block would return has ended.
    CannotReturn,
    /// A block is evaluated while it is active.
    BlockActive,
    /// So many words are held, and the next object would pass the limit.
    ObjectsFull(u64),
    /// More than 10,000 activations would be alive.
    Deep,
    /// The transcript would pass 65,536 bytes.
    TranscriptFull,
    /// The next tick would pass this budget.
    Budget(u64),
}

/// What a run comes to.
#[derive(Debug, Drop)]
pub enum End {
    Answer(Value),
    Stopped(Stop),
}

/// A run that has ended: its end, what it wrote, its ticks and words, and its objects.
#[derive(Debug, Drop)]
pub struct Outcome {
    pub end: End,
    pub transcript: Text,
    pub ticks: u64,
    pub words: u64,
    pub objects: Objects,
}
