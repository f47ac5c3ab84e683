//! Files in memory that are numbered: the log's segments, or the partitions' files.

ghost use Rattle.std.specs.Prelude.{◌≡◌, ◌≤◌, ℕ, length, IfOk, OnOk, OnErr, IsSome, None, Some, option_map};
ghost use Rattle.std.specs.Ordering.{nat_cmp};
ghost use Rattle.std.specs.BTreeMap.{get, insert_entry};
ghost use Rattle.pm_disk.specs.Files.{content, with_change, all_forced, ReadsFrom, ReadsWhole};
ghost use Rattle.pm_disk.specs.Images.{Leaves};
ghost use Rattle.pm_disk_mem.specs.Changes.{change_of, CanChange};
ghost use Rattle.pm_disk_mem.specs.Tracks.{new_track};
ghost use Rattle.pm_disk_mem.specs.Disks.{content_at};
ghost use Rattle.pm_disk_mem.specs.Picks.{ArePicked};
ghost use Rattle.pm_disk_mem.specs.Families.{track_at, file_at, SameTracks, TrackIs};

use crate::bytes::read_whole;
use crate::change::FileChange;
use crate::contents::Contents;
use crate::file::MemFile;
use crate::pick::Pick;
use std::alloc::{AllocError, Global};
use std::collections::BTreeMap;

/// The files that were there at the start or that a call changed, by number.
#[derive(Drop)]
pub struct Family {
    pub files: BTreeMap<u64, MemFile>,
}

impl Family {
    /// Files with these contents, nothing of them pending.
    pub fn new(alloc: Global, contents: Contents) -> Result<Family, AllocError>
        ensures { IfOk result (λ family. (n : ℕ)
            → track_at family n ≡ new_track (content_at contents n)) }
    {
        let mut family = Family {
            files: BTreeMap::new(alloc),
        };
        for (number, bytes) in contents.into_files() {
            family.add(alloc, number, bytes)?;
        }
        Ok(family)
    }

    /// No file.
    pub fn empty(alloc: Global) -> Family
        ensures { (n : ℕ) → track_at result n ≡ new_track None }
    {
        let files = BTreeMap::new(alloc);
        Family { files }
    }

    /// A copy of each file, with all that was done to it.
    pub fn copy(&self, alloc: Global) -> Result<Family, AllocError>
        ensures { IfOk result (λ copy. SameTracks self.now copy) }
    {
        let mut copy = Family {
            files: BTreeMap::new(alloc),
        };
        for (number, file) in &self.files {
            copy.put(*number, file.copy(alloc)?)?;
        }
        Ok(copy)
    }

    // Adds a file with these bytes at the start.
    fn add(&mut self, alloc: Global, number: u64, bytes: Vec<u8>) -> Result<(), AllocError>
        ensures { OnOk result (self.new.files.entries
            ≡ insert_entry nat_cmp self.old.files.entries number (new_track (Some bytes.items))) }
    {
        let file = MemFile::new(alloc, Some(bytes))?;
        self.put(number, file)
    }

    // Puts a file in, in the place of one of this number.
    fn put(&mut self, number: u64, file: MemFile) -> Result<(), AllocError>
        ensures { OnOk result (self.new.files.entries
            ≡ insert_entry nat_cmp self.old.files.entries number file) }
    {
        self.files.insert(number, file)?;
        Ok(())
    }

    // Sees that the number has an entry: a file that no call has changed is made absent.
    fn enter(&mut self, alloc: Global, number: u64) -> Result<(), AllocError>
        ensures entered { OnOk result (IsSome (get nat_cmp self.new.files number)) }
        ensures unchanged { SameTracks self.old self.new }
    {
        if self.files.contains_key(&number) {
            return Ok(());
        }
        let file = MemFile::new(alloc, None)?;
        self.files.insert(number, file)?;
        Ok(())
    }

    /// Makes the change of a file. Out of memory leaves each file as it was.
    pub fn change(
        &mut self,
        alloc: Global,
        number: u64,
        change: FileChange,
    ) -> Result<(), AllocError>
        requires { CanChange (change_of change) (content (track_at self.old number).file) }
        ensures changed { OnOk result (let was = track_at self.old number in TrackIs self.old self.new
            number (record was { file = with_change was.file (change_of change) })) }
        ensures unchanged { OnErr result (SameTracks self.old self.new) }
    {
        self.enter(alloc, number)?;
        match self.files.get_mut(&number) {
            Some(file) => file.change(alloc, change),
            None => Ok(()),
        }
    }

    /// Makes a file lasting as it is.
    pub fn force(&mut self, number: u64)
        ensures { let was = track_at self.old number in TrackIs self.old self.new
            number (record was { file = all_forced was.file }) }
    {
        if let Some(file) = self.files.get_mut(&number) {
            file.force();
        }
    }

    /// The length of a file, none where it is absent.
    pub fn len(&self, number: u64) -> Option<u64>
        ensures { result ≡ option_map length (content (track_at self.now number).file) }
    {
        match self.files.get(&number) {
            Some(file) => file.len(),
            None => None,
        }
    }

    /// Reads a file from the offset on.
    pub fn read(&self, number: u64, at: u64, into: &mut [u8]) -> usize
        ensures bound { result ≤ length into.new }
        ensures reads { ReadsFrom (content (track_at self.now number).file) at result into.new }
    {
        match self.files.get(&number) {
            Some(file) => file.read(at, into),
            None => 0,
        }
    }

    /// Reads a whole range of a file from the offset on.
    pub fn read_whole(&self, number: u64, at: u64, into: &mut [u8]) -> bool
        ensures { ReadsWhole (content (track_at self.now number).file) at result into.new }
    {
        match self.files.get(&number) {
            Some(file) => file.read_whole(at, into),
            None => read_whole(&None, at, into),
        }
    }

    /// What a crash leaves of the files by this pick.
    pub fn image(&self, alloc: Global, pick: Pick) -> Result<Contents, AllocError>
        ensures picked { IfOk result (λ contents. ArePicked pick (file_at self.now) contents) }
        ensures leaves { IfOk result (λ contents. (n : ℕ)
            → Leaves (file_at self.now n) (content_at contents n)) }
    {
        let mut contents = Contents::new(alloc);
        let mut rest = pick;
        for (number, file) in &self.files {
            let left = file.left(alloc, &mut rest)?;
            contents.put_left(*number, left)?;
        }
        Ok(contents)
    }
}
