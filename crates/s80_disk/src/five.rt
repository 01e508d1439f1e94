// The bytes of the five files in memory.
ghost use Rattle.std.specs.Prelude.{◌≡◌, ◌+◌, ◌≤◌, [], ℕ, List, length, take, vec_capacity, IfOk, OnOk};
ghost use Rattle.s80_disk.specs.declared.disk.FileId.{FileId};
ghost use Rattle.s80_disk.specs.Image.{Image};
ghost use Rattle.s80_disk.specs.Five.{image_of, HasRoom, filled, overwritten, changed};

use crate::FileId;
use crate::bytes::overwrite;
use std::alloc::{AllocError, Global};

#[derive(Drop)]
pub(crate) struct Five {
    pub(crate) mark: Vec<u8>,
    pub(crate) log0: Vec<u8>,
    pub(crate) log1: Vec<u8>,
    pub(crate) image0: Vec<u8>,
    pub(crate) image1: Vec<u8>,
}

impl Five {
    pub(crate) fn make(alloc: Global, room: usize) -> Result<Self, AllocError>
        ensures empty { IfOk result (λ five. (file : FileId) → image_of five file ≡ []) }
        ensures room { IfOk result (HasRoom room) }
    {
        let mark = Vec::with_capacity(alloc, room)?;
        let log0 = Vec::with_capacity(alloc, room)?;
        let log1 = Vec::with_capacity(alloc, room)?;
        let image0 = Vec::with_capacity(alloc, room)?;
        let image1 = Vec::with_capacity(alloc, room)?;
        Ok(Five {
            mark,
            log0,
            log1,
            image0,
            image1,
        })
    }

    pub(crate) fn copy(&self, alloc: Global) -> Result<Self, AllocError>
        ensures { IfOk result (λ five. (file : FileId) → image_of five file ≡ image_of self.now file) }
    {
        let mark = self.mark.as_slice().to_vec(alloc)?;
        let log0 = self.log0.as_slice().to_vec(alloc)?;
        let log1 = self.log1.as_slice().to_vec(alloc)?;
        let image0 = self.image0.as_slice().to_vec(alloc)?;
        let image1 = self.image1.as_slice().to_vec(alloc)?;
        Ok(Five {
            mark,
            log0,
            log1,
            image0,
            image1,
        })
    }

    pub(crate) fn bytes(&self, file: FileId) -> &[u8]
        ensures { result.now ≡ image_of self.now file }
    {
        match file {
            FileId::Mark => &self.mark,
            FileId::Log0 => &self.log0,
            FileId::Log1 => &self.log1,
            FileId::Image0 => &self.image0,
            FileId::Image1 => &self.image1,
        }
    }

    pub(crate) fn write(&mut self, room: usize, file: FileId, at: usize, piece: &[u8])
        requires has { HasRoom room self.old }
        requires fits { at + length piece.now ≤ room }
        ensures bytes { (other : FileId) → image_of self.new other ≡ changed file (overwritten at piece.now) (image_of self.old) other }
        ensures has { HasRoom room self.new }
    {
        match file {
            FileId::Mark => overwrite(&mut self.mark, at, piece),
            FileId::Log0 => overwrite(&mut self.log0, at, piece),
            FileId::Log1 => overwrite(&mut self.log1, at, piece),
            FileId::Image0 => overwrite(&mut self.image0, at, piece),
            FileId::Image1 => overwrite(&mut self.image1, at, piece),
        }
    }

    pub(crate) fn cut(&mut self, room: usize, file: FileId, to: usize)
        requires has { HasRoom room self.old }
        ensures bytes { (other : FileId) → image_of self.new other ≡ changed file (take to) (image_of self.old) other }
        ensures has { HasRoom room self.new }
    {
        match file {
            FileId::Mark => self.mark.truncate(to),
            FileId::Log0 => self.log0.truncate(to),
            FileId::Log1 => self.log1.truncate(to),
            FileId::Image0 => self.image0.truncate(to),
            FileId::Image1 => self.image1.truncate(to),
        }
    }
}
