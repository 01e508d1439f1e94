// Framings of a log.
ghost use Rattle.std.specs.Prelude.{◌≡◌, IfOk};
ghost use Rattle.s80_change.specs.Block.{framed};

use s80_base::{OutOfMemory, Text};
use s80_chunk::write_chunk;
use std::alloc::Global;

/// What a block of a log is made of.
#[derive(Debug, Drop)]
pub enum Framing {
    /// A text at top level.
    Plain(Text),
    /// A section of one method: the text of its head, and the source.
    Section(Text, Text),
}

impl Framing {
    /// The bytes of a framing.
    pub fn bytes(&self, alloc: Global) -> Result<Text, OutOfMemory>
        ensures { IfOk result (λ text. text ≡ framed self.now) }
    {
        match self {
            Framing::Plain(text) => {
                let mut line = write_chunk(alloc, text)?;
                line.append(b"\n")?;
                Ok(line)
            }
            Framing::Section(head, source) => {
                let mut bytes = Text::from_bytes(alloc, b"!")?;
                bytes.append(write_chunk(alloc, head)?.bytes())?;
                bytes.append(b"\n")?;
                bytes.append(write_chunk(alloc, source)?.bytes())?;
                bytes.append(b" !\n")?;
                Ok(bytes)
            }
        }
    }
}
