//! One change of a file.

ghost use Rattle.std.specs.Prelude.{◌≡◌, IfOk};
ghost use Rattle.pm_disk_mem.specs.Changes.{change_of};

use std::alloc::{AllocError, Global};

/// A change of a file.
#[derive(Drop)]
pub enum FileChange {
    /// These bytes are written from this offset on.
    Write(u64, Vec<u8>),
    /// The file is cut to this length, in bytes.
    Cut(u64),
    /// The file is removed.
    Remove,
}

impl FileChange {
    /// The same change.
    pub fn copy(&self, alloc: Global) -> Result<FileChange, AllocError>
        ensures { IfOk result (λ copy. change_of copy ≡ change_of self.now) }
    {
        match self {
            FileChange::Write(at, bytes) => {
                Ok(FileChange::Write(*at, Vec::from_slice(alloc, bytes)?))
            }
            FileChange::Cut(len) => Ok(FileChange::Cut(*len)),
            FileChange::Remove => Ok(FileChange::Remove),
        }
    }
}
