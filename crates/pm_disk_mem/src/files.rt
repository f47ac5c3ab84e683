//! All files of a disk in memory that calls change.

ghost use Rattle.std.specs.Prelude.{◌≡◌, length, OnOk, OnErr, IfOk, option_map};
ghost use Rattle.pm_disk.specs.Files.{content, with_change, all_forced, ReadsWhole};
ghost use Rattle.pm_disk_mem.specs.Changes.{change_of, CanChange};
ghost use Rattle.pm_disk_mem.specs.Families.{SameTracks};
ghost use Rattle.pm_disk_mem.specs.Held.{track_in, FileIs, SameFiles, Begins, PartsPicked, PartsLeft};

use crate::change::FileChange;
use crate::family::Family;
use crate::file::MemFile;
use crate::parts::DiskParts;
use crate::pick::Pick;
use crate::step::ChangedFile;
use pm_disk::MarkFile;
use std::alloc::{AllocError, Global};

/// The log's segments, the partitions' files and the two files of markers.
#[derive(Drop)]
pub struct Files {
    pub log: Family,
    pub pages: Family,
    pub starts: MemFile,
    pub ends: MemFile,
}

impl Files {
    /// Files that hold what these parts of a disk have, nothing of them pending.
    pub fn new(alloc: Global, parts: DiskParts) -> Result<Files, AllocError>
        ensures { IfOk result (λ files. Begins files parts) }
    {
        let DiskParts {
            log,
            pages,
            starts,
            ends,
        } = parts;
        Ok(Files {
            log: Family::new(alloc, log)?,
            pages: Family::new(alloc, pages)?,
            starts: MemFile::new(alloc, starts)?,
            ends: MemFile::new(alloc, ends)?,
        })
    }

    /// Copies of the log's segments, beside which there is no file.
    pub fn log_alone(&self, alloc: Global) -> Result<Files, AllocError>
        ensures { IfOk result (λ files. SameTracks self.now.log files.log) }
    {
        Ok(Files {
            log: self.log.copy(alloc)?,
            pages: Family::empty(alloc),
            starts: MemFile::new(alloc, None)?,
            ends: MemFile::new(alloc, None)?,
        })
    }

    /// Copies of the partitions' files, beside which there is no file.
    pub fn pages_alone(&self, alloc: Global) -> Result<Files, AllocError>
        ensures { IfOk result (λ files. SameTracks self.now.pages files.pages) }
    {
        Ok(Files {
            log: Family::empty(alloc),
            pages: self.pages.copy(alloc)?,
            starts: MemFile::new(alloc, None)?,
            ends: MemFile::new(alloc, None)?,
        })
    }

    /// Makes the change of a file. Out of memory leaves each file as it was.
    pub fn change(
        &mut self,
        alloc: Global,
        file: ChangedFile,
        change: FileChange,
    ) -> Result<(), AllocError>
        requires { CanChange (change_of change) (content (track_in self.old file).file) }
        ensures changed { OnOk result (let was = track_in self.old file in FileIs self.old self.new
            file (record was { file = with_change was.file (change_of change) })) }
        ensures unchanged { OnErr result (SameFiles self.old self.new) }
    {
        match file {
            ChangedFile::Segment(seg) => self.log.change(alloc, seg, change),
            ChangedFile::Pages(part) => self.pages.change(alloc, part as u64, change),
            ChangedFile::Marks(MarkFile::Start) => self.starts.change(alloc, change),
            ChangedFile::Marks(MarkFile::End) => self.ends.change(alloc, change),
        }
    }

    /// Makes a file lasting as it is.
    pub fn force(&mut self, file: ChangedFile)
        ensures { let was = track_in self.old file in FileIs self.old self.new
            file (record was { file = all_forced was.file }) }
    {
        match file {
            ChangedFile::Segment(seg) => self.log.force(seg),
            ChangedFile::Pages(part) => self.pages.force(part as u64),
            ChangedFile::Marks(MarkFile::Start) => self.starts.force(),
            ChangedFile::Marks(MarkFile::End) => self.ends.force(),
        }
    }

    /// The length of a file, none where it is absent.
    pub fn len(&self, file: ChangedFile) -> Option<u64>
        ensures { result ≡ option_map length (content (track_in self.now file).file) }
    {
        match file {
            ChangedFile::Segment(seg) => self.log.len(seg),
            ChangedFile::Pages(part) => self.pages.len(part as u64),
            ChangedFile::Marks(MarkFile::Start) => self.starts.len(),
            ChangedFile::Marks(MarkFile::End) => self.ends.len(),
        }
    }

    /// Reads a whole range of a file from the offset on.
    pub fn read_whole(&self, file: ChangedFile, at: u64, into: &mut [u8]) -> bool
        ensures { ReadsWhole (content (track_in self.now file).file) at result into.new }
    {
        match file {
            ChangedFile::Segment(seg) => self.log.read_whole(seg, at, into),
            ChangedFile::Pages(part) => self.pages.read_whole(part as u64, at, into),
            ChangedFile::Marks(MarkFile::Start) => self.starts.read_whole(at, into),
            ChangedFile::Marks(MarkFile::End) => self.ends.read_whole(at, into),
        }
    }

    /// What a crash leaves of the files by this pick.
    pub fn image(&self, alloc: Global, pick: Pick) -> Result<DiskParts, AllocError>
        ensures picked { IfOk result (λ parts. PartsPicked pick self.now parts) }
        ensures leaves { IfOk result (λ parts. PartsLeft self.now parts) }
    {
        Ok(DiskParts {
            log: self.log.image(alloc, pick)?,
            pages: self.pages.image(alloc, pick.beside())?,
            starts: self.starts.image(alloc, pick.beside())?,
            ends: self.ends.image(alloc, pick.beside())?,
        })
    }
}
