// The sources of methods, read again.
ghost use Rattle.std.specs.Prelude.{◌≡◌, ◌+◌, ◌≤◌, length, nat_le, IfOk, IfErr, IsTrue};
ghost use Rattle.s80_base.specs.Causes.{Rose};
ghost use Rattle.s80_base.specs.declared.outside.Call.TheVariants.{Read};
ghost use Rattle.s80_disk.specs.Untouched.{IsUntouched};
ghost use Rattle.s80_kernel.specs.Text.{kernel_text};
ghost use Rattle.s80_apply.specs.Placed.{PlacedRow};
ghost use Rattle.s80_apply.specs.Source.{StandsAt, text_for};
ghost use Rattle.s80_apply.specs.Entries.{row_in};
ghost use Rattle.s80_log.specs.Log.{held_in};
ghost use Rattle.s80_log.specs.Faults.{IfBad, IfBlockDisk, UnlessBlockDisk};
ghost use Rattle.s80_keeper.specs.SourceAt.{IsRead, IsSpelledAt, IsThis, length_for};

use crate::unspell::unspelled;
use s80_apply::SourcePlace;
use s80_base::Text;
use s80_dict::MethodEntry;
use s80_disk::Disk;
use s80_kernel::kernel_text;
use s80_log::{BlockFault, Log};
use std::alloc::Global;

/// The source of a method, read where its entry says: in the kernel's text, for which the disk isn't called, or in the log.
/// A place where no source is spelled within the log's length is a bad one.
pub fn read_source<D: Disk, C>(
    alloc: Global,
    disk: &mut D,
    log: &Log,
    entry: &MethodEntry<C>,
) -> Result<Text, BlockFault>
    ensures answer { IsTrue (D.tells disk.old)
        → IsRead (text_for entry.now.from_kernel (held_in (D.reads disk.old) log.now)) entry.now.position entry.now.length result }
    ensures stands { IsTrue (D.tells disk.old) → (row : PlacedRow)
        → StandsAt (held_in (D.reads disk.old) log.now) row → row_in entry.now ≡ row → IsThis row.source result }
    ensures bad { IfErr result (λ fault. IfBad fault (λ place. place ≡ entry.now.position)) }

    ensures kernel { IsTrue entry.now.from_kernel → IsRead kernel_text entry.now.position entry.now.length result }
    ensures uncalled { IsTrue entry.now.from_kernel → disk.new ≡ disk.old }

    ensures untouched { IsUntouched D.tells D.reads D.may_leave D.moment D.left_since D.beside D.disk_faults disk.old disk.new }
    ensures cause { IfErr result
        (λ fault. IfBlockDisk fault (λ failed. Rose (D.disk_faults disk.old) (D.disk_faults disk.new))) }
    ensures faults_stay { UnlessBlockDisk result (D.disk_faults disk.new ≡ D.disk_faults disk.old) }
    ensures named { IfErr result (λ fault. IfBlockDisk fault (λ failed. failed.call ≡ Read)) }
{
    let place = SourcePlace {
        from_kernel: entry.from_kernel,
        position: entry.position,
        length: entry.length,
    };
    read_source_at(alloc, disk, log, place)
}

/// The source that stands at a place.
pub(crate) fn read_source_at<D: Disk>(
    alloc: Global,
    disk: &mut D,
    log: &Log,
    place: SourcePlace,
) -> Result<Text, BlockFault>
    ensures answer { IsTrue (D.tells disk.old)
        → IsRead (text_for place.from_kernel (held_in (D.reads disk.old) log.now)) place.position place.length result }
    ensures within { IfOk result (λ source. place.position + place.length ≤ length_for place.from_kernel log.now.end) }
    ensures bad { IfErr result (λ fault. IfBad fault (λ at. at ≡ place.position)) }

    ensures kernel { IsTrue place.from_kernel → IsRead kernel_text place.position place.length result }
    ensures uncalled { IsTrue place.from_kernel → disk.new ≡ disk.old }

    ensures untouched { IsUntouched D.tells D.reads D.may_leave D.moment D.left_since D.beside D.disk_faults disk.old disk.new }
    ensures cause { IfErr result
        (λ fault. IfBlockDisk fault (λ failed. Rose (D.disk_faults disk.old) (D.disk_faults disk.new))) }
    ensures faults_stay { UnlessBlockDisk result (D.disk_faults disk.new ≡ D.disk_faults disk.old) }
    ensures named { IfErr result (λ fault. IfBlockDisk fault (λ failed. failed.call ≡ Read)) }
{
    if place.from_kernel {
        kernel_source(alloc, place.position, place.length)
    } else {
        log_source(alloc, disk, log, place.position, place.length)
    }
}

/// The source that stands in the kernel's text from a place on, in so many bytes.
fn kernel_source(alloc: Global, position: u64, size: u64) -> Result<Text, BlockFault>
    ensures answer { IsRead kernel_text position size result }
    ensures within { IfOk result (λ source. position + size ≤ length kernel_text) }
    ensures bad { IfErr result (λ fault. IfBad fault (λ place. place ≡ position)) }
    ensures offline { IfErr result (λ fault. IfBlockDisk fault (λ failed. ⊥)) }
{
    let text = kernel_text();
    if !is_within(position, size, text.len() as u64) {
        return Err(BlockFault::Bad(position));
    }
    spelled_at(
        alloc,
        &text[position as usize..(position + size) as usize],
        position,
    )
}

/// The source that stands in a log from a place on, in so many bytes.
fn log_source<D: Disk>(
    alloc: Global,
    disk: &mut D,
    log: &Log,
    position: u64,
    size: u64,
) -> Result<Text, BlockFault>
    ensures answer { IsTrue (D.tells disk.old) → IsRead (held_in (D.reads disk.old) log.now) position size result }
    ensures within { IfOk result (λ source. position + size ≤ log.now.end) }
    ensures bad { IfErr result (λ fault. IfBad fault (λ place. place ≡ position)) }
    ensures untouched { IsUntouched D.tells D.reads D.may_leave D.moment D.left_since D.beside D.disk_faults disk.old disk.new }
    ensures cause { IfErr result
        (λ fault. IfBlockDisk fault (λ failed. Rose (D.disk_faults disk.old) (D.disk_faults disk.new))) }
    ensures faults_stay { UnlessBlockDisk result (D.disk_faults disk.new ≡ D.disk_faults disk.old) }
    ensures named { IfErr result (λ fault. IfBlockDisk fault (λ failed. failed.call ≡ Read)) }
{
    if !is_within(position, size, log.length()) {
        return Err(BlockFault::Bad(position));
    }
    let mut piece = vec![in alloc; 0; size as usize]?;
    let count = disk.read_at(log.file(), position, &mut piece)?;
    if count < piece.len() {
        return Err(BlockFault::Bad(position));
    }
    spelled_at(alloc, &piece, position)
}

/// Whether so many bytes from a place on are within a length.
fn is_within(position: u64, size: u64, length: u64) -> bool
    ensures { result ≡ nat_le (position + size) length }
{
    size <= length && position <= length - size
}

/// The source that these bytes spell, which were read at a place.
fn spelled_at(alloc: Global, bytes: &[u8], position: u64) -> Result<Text, BlockFault>
    ensures { IsSpelledAt bytes.now position result }
{
    match unspelled(alloc, bytes)? {
        Some(source) => Ok(source),
        None => Err(BlockFault::Bad(position)),
    }
}
