// Calls on a stream, which a signal may interrupt.
ghost use Rattle.std.specs.Prelude.{◌≡◌, ◌<◌, length, take, IfOk};
ghost use Rattle.std.specs.Io.{ReadsAtMost, WritesAtMost};
ghost use Rattle.std.specs.Io.KnownBytes.{Appends, ReadConsumes};

use std::io;
use std::io::{ErrorKind, Read, Write};

/// Reads at least one byte where some are left and the buffer has room. An interrupted read is tried again.
pub fn read_some<F: Read>(reader: &mut F, buf: &mut [u8]) -> io::Result<usize>
    ensures bound { ReadsAtMost result buf.new }
    ensures bytes { ReadConsumes (F.remaining reader.old) (F.remaining reader.new) result buf.new }
{
    for _ in 0..u64::MAX {
        match reader.read(buf) {
            Ok(count) => return Ok(count),
            Err(e) if e.kind() == ErrorKind::Interrupted => {}
            Err(e) => return Err(e),
        }
    }
    Err(io::Error::from(ErrorKind::Other))
}

/// Writes at least one byte of a piece that isn't empty, and flushes it. An interrupted write is tried again.
pub fn write_some<F: Write>(writer: &mut F, piece: &[u8]) -> io::Result<usize>
    ensures bound { WritesAtMost result piece.now }
    ensures some { 0 < length piece.now → IfOk result (λ count. 0 < count) }
    ensures bytes { IfOk result (λ count. Appends (F.contents writer.old) (F.contents writer.new) (take count piece.now)) }
{
    if piece.is_empty() {
        return Ok(0);
    }
    for _ in 0..u64::MAX {
        match writer.write(piece) {
            Ok(0) => return Err(io::Error::from(ErrorKind::WriteZero)),
            Ok(count) => {
                writer.flush()?;
                return Ok(count);
            }
            Err(e) if e.kind() == ErrorKind::Interrupted => {}
            Err(e) => return Err(e),
        }
    }
    Err(io::Error::from(ErrorKind::Other))
}
