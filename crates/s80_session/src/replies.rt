// Replies that wait until what they answer is kept.
ghost use Rattle.std.specs.Prelude.{◌≡◌, ◌≤◌, ◌++◌, [], length, vec_len, vec_capacity, IsOk, OnErr, OnOk};

use s80_base::OutOfMemory;
use std::alloc::Global;
use std::marker::Model;

/// The replies that a session holds, one behind the other.
#[derive(Debug, Drop)]
pub struct Replies {
    bytes: Vec<u8>,
}

impl Model for Replies {
    ghost use Rattle.std.specs.Prelude.{◌-◌, vec_len, vec_capacity};
    ghost use Rattle.s80_session.specs.Replies.{HeldReplies};

    ghost Value = { HeldReplies };

    ghost view = { λ r. record { bytes = r.bytes.items; room = vec_capacity r.bytes - vec_len r.bytes } };
}

impl Replies {
    pub(crate) fn none(alloc: Global) -> Self
        ensures { result.bytes ≡ [] }
    {
        Replies {
            bytes: Vec::new(alloc),
        }
    }

    pub(crate) fn bytes(&self) -> &[u8]
        ensures { result.now ≡ self.now.bytes }
    {
        &self.bytes
    }

    /// Makes room for this many bytes more.
    pub(crate) fn reserve(&mut self, count: usize) -> Result<(), OutOfMemory>
        ensures bytes { self.new.bytes ≡ self.old.bytes }
        ensures room { OnOk result (count ≤ self.new.room) }
        ensures more { self.old.room ≤ self.new.room }
    {
        self.bytes.reserve(count)?;
        Ok(())
    }

    /// Holds a line more. Where there is room for it, no memory is taken.
    pub(crate) fn hold(&mut self, line: &[u8]) -> Result<(), OutOfMemory>
        ensures bytes { OnOk result (self.new.bytes ≡ self.old.bytes ++ line.now) }
        ensures same { OnErr result (self.new.bytes ≡ self.old.bytes) }
        ensures succeeds { length line.now ≤ self.old.room → IsOk result }
    {
        self.bytes.extend_from_slice(line)?;
        Ok(())
    }

    /// Lets all of them go.
    pub(crate) fn clear(&mut self)
        ensures bytes { self.new.bytes ≡ [] }
        ensures room { self.old.room ≤ self.new.room }
    {
        self.bytes.clear();
    }
}
