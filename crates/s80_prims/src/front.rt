// The front of a text that is written.
ghost use Rattle.std.specs.Prelude.{◌≡◌, [], List, ℕ, IfOk, OnOk};
ghost use Rattle.s80_lex.specs.Spelling.{doubled, quoted};
ghost use Rattle.s80_prims.specs.Front.{Holds, Writes};
ghost use Rattle.s80_prims.specs.Printed.{shortened};

use s80_base::{OutOfMemory, Text};
use std::alloc::Global;

/// So many bytes are kept.
const LIMIT: usize = 4096;

/// The first 4,096 bytes of what was written, and whether there was more.
#[derive(Debug, Drop)]
pub(crate) struct Front {
    text: Text,
    more: bool,
}

impl Front {
    /// Nothing was written.
    pub(crate) fn empty(alloc: Global) -> Self
        ensures { Holds result [] }
    {
        Front {
            text: Text::empty(alloc),
            more: false,
        }
    }

    /// Whether there was more than is kept, so that nothing more will be.
    pub(crate) fn is_past(&self) -> bool
        ensures { result ≡ self.now.more }
    {
        self.more
    }

    /// Writes bytes behind those before.
    pub(crate) fn write(&mut self, bytes: &[u8]) -> Result<(), OutOfMemory>
        ensures { OnOk result (Writes self.old self.new bytes.now) }
    {
        let room = LIMIT.saturating_sub(self.text.bytes().len());
        let kept = bytes.len().min(room);
        self.text.append(&bytes[..kept])?;
        if kept < bytes.len() {
            self.more = true;
        }
        Ok(())
    }

    /// Writes a text in quotes, with each quote in it doubled, and none of it that wouldn't be kept.
    pub(crate) fn write_quoted(&mut self, bytes: &[u8]) -> Result<(), OutOfMemory>
        ensures { OnOk result (Writes self.old self.new (quoted 39 bytes.now)) }
    {
        self.write(b"'")?;
        for byte in bytes {
            if self.is_past() {
                return Ok(());
            }
            self.write_doubled(*byte)?;
        }
        self.write(b"'")
    }

    // Writes a byte, and a quote twice.
    fn write_doubled(&mut self, byte: u8) -> Result<(), OutOfMemory>
        ensures { OnOk result (Writes self.old self.new (doubled 39 byte)) }
    {
        if byte == b'\'' {
            return self.write(b"''");
        }
        self.write(&[byte])
    }

    /// What is kept, with dots where there was more.
    pub(crate) fn finish(self) -> Result<Text, OutOfMemory>
        ensures { (written : List ℕ) → Holds self written → IfOk result (λ text. text ≡ shortened written) }
    {
        let Front { mut text, more } = self;
        if more {
            text.append(b"...")?;
        }
        Ok(text)
    }
}
