// The reading of a block.
ghost use Rattle.std.specs.Prelude.{◌≡◌, ◌+◌, ◌≤◌, IsTrue, length, take, drop, IfOk, IfErr};
ghost use Rattle.s80_base.specs.Causes.{Rose};
ghost use Rattle.s80_base.specs.declared.outside.Call.TheVariants.{Read};
ghost use Rattle.s80_change.specs.Block.{block, IsLawful};
ghost use Rattle.s80_disk.specs.Untouched.{IsUntouched};
ghost use Rattle.s80_log.specs.Log.{held_in};
ghost use Rattle.s80_change.specs.Blocks.{BeginsWith, BeginsWithNone};
ghost use Rattle.s80_log.specs.Faults.{IfBlockDisk, UnlessBlockDisk, IfBad};

use crate::log::Log;
use s80_base::{Failed, OutOfMemory};
use s80_change::{Change, FirstBlock, first_block};
use s80_disk::{Disk, FileId};
use std::alloc::{AllocError, Global};
use thiserror::Error;

/// Why no block is read.
#[derive(Clone, Copy, Debug, PartialEq, Eq, Error)]
pub enum BlockFault {
    #[error("out of memory")]
    Memory,
    #[error("{0}")]
    Disk(Failed),
    /// No block within the log's length begins at this place.
    #[error("no block begins at byte {0} of the log")]
    Bad(u64),
}

impl From<OutOfMemory> for BlockFault {
    ghost use Rattle.s80_log.specs.declared.read.BlockFault.TheVariants.{Memory};

    ghost from_gives = { λ _ fault. fault ≡ Memory };

    fn from(_: OutOfMemory) -> Self {
        BlockFault::Memory
    }
}

impl From<Failed> for BlockFault {
    ghost use Rattle.s80_log.specs.declared.read.BlockFault.TheVariants.{Disk};

    ghost from_gives = { λ failed fault. fault ≡ Disk failed };

    fn from(failed: Failed) -> Self {
        BlockFault::Disk(failed)
    }
}

impl From<AllocError> for BlockFault {
    ghost use Rattle.s80_log.specs.declared.read.BlockFault.TheVariants.{Memory};

    ghost from_gives = { λ _ fault. fault ≡ Memory };

    fn from(_: AllocError) -> Self {
        BlockFault::Memory
    }
}

/// How many bytes are read at first. Most blocks are shorter.
const FIRST_PIECE: usize = 512;

impl Log {
    /// The change whose block begins at a place of the log, and the place behind it.
    /// Reads no more of a long log than twice the block, but for a piece of 512 bytes at first.
    pub fn read_block<D: Disk>(
        &self,
        alloc: Global,
        disk: &mut D,
        at: u64,
    ) -> Result<(Change, u64), BlockFault>
        ensures begins { IsTrue (D.tells disk.old)
            → IfOk result (λ found. BeginsWith (drop at (held_in (D.reads disk.old) self.now)) found.0) }
        ensures next { IfOk result
            (λ found. IsLawful found.0 × (found.1 ≡ at + length (block found.0)) × (found.1 ≤ self.now.end)) }
        ensures none { IsTrue (D.tells disk.old)
            → IfErr result (λ fault. IfBad fault (λ place. BeginsWithNone (drop at (held_in (D.reads disk.old) self.now)))) }
        ensures bad { IfErr result (λ fault. IfBad fault (λ place. place ≡ at)) }

        ensures untouched { IsUntouched D.tells D.reads D.may_leave D.moment D.left_since D.beside D.disk_faults disk.old disk.new }
        ensures cause { IfErr result
            (λ fault. IfBlockDisk fault (λ failed. Rose (D.disk_faults disk.old) (D.disk_faults disk.new))) }
        ensures faults_stay { UnlessBlockDisk result (D.disk_faults disk.new ≡ D.disk_faults disk.old) }
        ensures named { IfErr result (λ fault. IfBlockDisk fault (λ failed. failed.call ≡ Read)) }
    {
        let within = self.length().saturating_sub(at) as usize;
        let mut size = FIRST_PIECE;
        'pieces: loop {
            let bytes = read_piece(alloc, disk, self.file(), at, size.min(within))?;
            match first_block(alloc, &bytes)? {
                FirstBlock::Found(change, count) => return Ok((change, at + count as u64)),
                FirstBlock::Absent => return Err(BlockFault::Bad(at)),
                FirstBlock::Unended => {
                    if size >= within {
                        return Err(BlockFault::Bad(at));
                    }
                    size = size.saturating_mul(2);
                }
            }
        }
    }
}

/// The bytes of a file from a place on, at most so many.
fn read_piece<D: Disk>(
    alloc: Global,
    disk: &mut D,
    file: FileId,
    at: u64,
    size: usize,
) -> Result<Vec<u8>, BlockFault>
    ensures bytes { IsTrue (D.tells disk.old)
        → IfOk result (λ piece. piece.items ≡ take size (drop at (D.reads disk.old file))) }
    ensures bound { IfOk result (λ piece. length piece.items ≤ size) }
    ensures good { IfErr result (λ fault. IfBad fault (λ place. ⊥)) }
    ensures untouched { IsUntouched D.tells D.reads D.may_leave D.moment D.left_since D.beside D.disk_faults disk.old disk.new }
    ensures cause { IfErr result
        (λ fault. IfBlockDisk fault (λ failed. Rose (D.disk_faults disk.old) (D.disk_faults disk.new))) }
    ensures faults_stay { UnlessBlockDisk result (D.disk_faults disk.new ≡ D.disk_faults disk.old) }
    ensures named { IfErr result (λ fault. IfBlockDisk fault (λ failed. failed.call ≡ Read)) }
{
    let mut piece = vec![in alloc; 0; size]?;
    let count = disk.read_at(file, at, &mut piece)?;
    piece.truncate(count);
    Ok(piece)
}
