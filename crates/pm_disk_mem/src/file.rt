//! One file in memory.

ghost use Rattle.std.specs.Prelude.{◌≡◌, ◌≤◌, [], ◌∷◌, ◌++◌, length, IfOk, OnOk, OnErr, option_map};
ghost use Rattle.pm_disk.specs.Files.{content, with_change, all_forced, ReadsFrom, ReadsWhole};
ghost use Rattle.pm_disk.specs.Images.{Leaves};
ghost use Rattle.pm_disk_mem.specs.Changes.{bytes_in, change_of, CanChange, CanAll};
ghost use Rattle.pm_disk_mem.specs.Picks.{left_by, pick_after};
ghost use Rattle.pm_disk_mem.specs.Tracks.{new_track};

use crate::bytes::{apply_change, copied, copied_changes, length_of, read, read_whole};
use crate::change::FileChange;
use crate::crash::left_of;
use crate::pick::Pick;
use std::alloc::{AllocError, Global};
use std::marker::Model;

/// A file: what it was at the start, each change since, how many of these its last force made
/// lasting, and what it holds now.
#[derive(Drop)]
pub struct MemFile {
    start: Option<Vec<u8>>,
    changes: Vec<FileChange>,
    lasting: usize,
    held: Option<Vec<u8>>,
}

impl Model for MemFile {
    ghost use Rattle.std.specs.Prelude.{map};
    ghost use Rattle.pm_disk_mem.specs.Changes.{bytes_in, change_of};
    ghost use Rattle.pm_disk_mem.specs.Tracks.{Track, track_of, Holds};

    ghost Value = { Track };

    ghost view = { λ file.
        track_of (bytes_in file.start) (map change_of file.changes.items) file.lasting };

    ghost invariant = { λ file. Holds (bytes_in file.held)
        (bytes_in file.start) (map change_of file.changes.items) file.lasting };
}

impl MemFile {
    /// A file that holds these bytes, or is absent, all of it lasting.
    pub fn new(alloc: Global, start: Option<Vec<u8>>) -> Result<MemFile, AllocError>
        ensures { IfOk result (λ file. file ≡ new_track (bytes_in start)) }
    {
        let held = copied(alloc, &start)?;
        Ok(MemFile {
            start,
            changes: Vec::new(alloc),
            lasting: 0,
            held,
        })
    }

    /// A copy, with all that was done to it.
    pub fn copy(&self, alloc: Global) -> Result<MemFile, AllocError>
        ensures { IfOk result (λ copy. copy ≡ self.now) }
    {
        Ok(MemFile {
            start: copied(alloc, &self.start)?,
            changes: copied_changes(alloc, &self.changes)?,
            lasting: self.lasting,
            held: copied(alloc, &self.held)?,
        })
    }

    /// Makes the change. Out of memory leaves the file as it was.
    pub fn change(&mut self, alloc: Global, change: FileChange) -> Result<(), AllocError>
        requires { CanChange (change_of change) (content self.old.file) }
        ensures changed { OnOk result (self.new
            ≡ record self.old { file = with_change self.old.file (change_of change) }) }
        ensures unchanged { OnErr result (self.new ≡ self.old) }
    {
        self.changes.reserve(1)?;
        apply_change(alloc, &mut self.held, &change)?;
        self.changes.push_reserved(change);
        Ok(())
    }

    /// Makes the file lasting as it is.
    pub fn force(&mut self)
        ensures { self.new ≡ record self.old { file = all_forced self.old.file } }
    {
        self.lasting = self.changes.len();
    }

    /// Its length in bytes, none where it is absent.
    pub fn len(&self) -> Option<u64>
        ensures { result ≡ option_map length (content self.now.file) }
    {
        length_of(&self.held)
    }

    /// Reads from the offset on.
    pub fn read(&self, at: u64, into: &mut [u8]) -> usize
        ensures bound { result ≤ length into.new }
        ensures reads { ReadsFrom (content self.now.file) at result into.new }
    {
        read(&self.held, at, into)
    }

    /// Reads a whole range from the offset on.
    pub fn read_whole(&self, at: u64, into: &mut [u8]) -> bool
        ensures { ReadsWhole (content self.now.file) at result into.new }
    {
        read_whole(&self.held, at, into)
    }

    /// What a crash leaves of the file by this pick, and in its place the pick for the next segment.
    pub fn left(&self, alloc: Global, pick: &mut Pick) -> Result<Option<Vec<u8>>, AllocError>
        ensures left { IfOk result (λ left. bytes_in left ≡ left_by pick.old self.now.file) }
        ensures could { CanAll self.now.file.since self.now.file.forced }
        ensures next { OnOk result (pick.new ≡ pick_after pick.old self.now.file) }
    {
        let (lasting, pending) = self.changes.split_at(self.lasting);
        left_of(alloc, &self.start, lasting, pending, pick)
    }

    /// What a crash leaves of the file by this pick.
    pub fn image(&self, alloc: Global, pick: Pick) -> Result<Option<Vec<u8>>, AllocError>
        ensures picked { IfOk result (λ left. bytes_in left ≡ left_by pick self.now.file) }
        ensures leaves { IfOk result (λ left. Leaves self.now.file (bytes_in left)) }
    {
        let mut rest = pick;
        self.left(alloc, &mut rest)
    }
}
