// The block that bytes begin with.
ghost use Rattle.std.specs.Prelude.{IfOk};
ghost use Rattle.s80_change.specs.Blocks.{IsFirstBlock};
ghost use Rattle.s80_change.specs.Fronts.{IsFramedBlock};

use crate::block::read_change;
use crate::change::Change;
use crate::framing::Framing;
use crate::front::{NoFraming, first_framing};
use s80_base::OutOfMemory;
use std::alloc::Global;

/// What bytes begin with.
#[derive(Debug, Drop)]
pub enum FirstBlock {
    /// The block of this change, which is so long.
    Found(Change, usize),
    /// No block, whatever follows.
    Absent,
    /// Bytes that end before a block does.
    Unended,
}

/// The block that the bytes begin with.
pub fn first_block(alloc: Global, bytes: &[u8]) -> Result<FirstBlock, OutOfMemory>
    ensures { IfOk result (IsFirstBlock bytes.now) }
{
    match first_framing(alloc, bytes) {
        Ok((framing, length)) => framed_block(alloc, framing, length),
        Err(NoFraming::Memory) => Err(OutOfMemory),
        Err(NoFraming::Absent) => Ok(FirstBlock::Absent),
        Err(NoFraming::Unended) => Ok(FirstBlock::Unended),
    }
}

/// The block of so many bytes that has this framing, if a change has it.
fn framed_block(alloc: Global, framing: Framing, length: usize) -> Result<FirstBlock, OutOfMemory>
    ensures { IfOk result (IsFramedBlock framing length) }
{
    match read_change(alloc, framing)? {
        Some(change) => Ok(FirstBlock::Found(change, length)),
        None => Ok(FirstBlock::Absent),
    }
}
