// A call as a disk in memory remembers it.
ghost use Rattle.std.specs.Prelude.{◌≡◌};
ghost use Rattle.s80_disk.specs.declared.disk.FileId.{FileId};

use crate::FileId;

#[derive(Clone, Copy)]
pub(crate) enum Recorded {
    Write {
        file: FileId,
        at: usize,
        from: usize,
        size: usize,
    },
    Cut {
        file: FileId,
        to: u64,
    },
    Sync {
        file: FileId,
    },
    Told {
        count: usize,
    },
}

impl Recorded {
    ghost use Rattle.s80_disk.specs.Crash.{syncs};

    pub(crate) fn syncs(&self, file: FileId) -> bool
        ensures { result ≡ syncs file self.now }
    {
        match self {
            Recorded::Sync { file: synced } => *synced == file,
            _ => false,
        }
    }
}
