//! The files that are open since they were changed.

ghost use Rattle.std.specs.Prelude.{◌≡◌, ◌<◌, ◌≤◌, ◌+◌, ◌++◌, ◌∷◌, [], length, drop, MatchOption};
ghost use Rattle.std.specs.Prelude.{◌⊎◌, IfSome, IsSomeAnd, OnSome, IsTrue};
ghost use Rattle.std.specs.Prelude.{IfOk, IfErr, IfNone, OnOk, OnErr, slice_get, vec_len, vec_capacity};
ghost use Rattle.pm_disk_fs.specs.Failures.{IsSystemFailure, IsSync};
ghost use Rattle.pm_disk_fs.specs.OpenFiles.{AreSorted, AreJoined, AreForced, AreSynced};

use crate::calls::FileCalls;
use crate::failure::Failure;
use crate::opened::Opened;
use pm_disk::StoreFile;
use std::alloc::{AllocError, Global};
use std::io::{Seek, Write};
use std::mem;

/// How many files may be open at a time: those of the 64 partitions, the two of the markers, and 62
/// segments. A process may have 1,024 files open on most systems.
pub const OPEN_MAX: usize = 128;

/// The files that were changed, in the order of their last changes. Each stays open at least until it is
/// forced, so that its force is told of each failed write: a system may report that only to those who had
/// the file open then.
#[derive(Drop)]
pub struct OpenFiles<F: Drop> {
    pub files: Vec<Opened<F>>,
}

impl<F: Write + Seek + FileCalls + Drop> OpenFiles<F> {
    ghost use Rattle.pm_disk_fs.specs.OpenFiles.{IsTakenOut, OthersStayOpen, IsNotOpen, AreAmong, after_oldest};

    /// No file is open.
    pub fn new(alloc: Global) -> OpenFiles<F>
        ensures { result.files.items ≡ [] }
    {
        OpenFiles {
            files: Vec::new(alloc),
        }
    }

    /// Takes the file of this name out, where it is open. There is room for it to be kept again.
    pub fn take(&mut self, name: StoreFile) -> Option<Opened<F>>
        ensures taken { MatchOption result (self.new.files.items ≡ self.old.files.items)
            (λ file. IsTakenOut self.old.files.items self.new.files.items name file) }
        ensures closed { IfNone result (IsNotOpen self.old.files.items name) }
        ensures others { OthersStayOpen self.old.files.items self.new.files.items name }
        ensures left { AreAmong self.new.files.items self.old.files.items }
        ensures room { OnSome result (vec_len self.new.files < vec_capacity self.new.files) }
    {
        let index = self.position(name)?;
        Some(self.files.remove(index))
    }

    /// Makes room for one more. Where as many are open as may be, the one that was changed longest ago is
    /// forced and closed.
    pub fn make_room(&mut self) -> Result<(), Failure>
        ensures oldest { OnOk result (self.new.files.items ≡ after_oldest self.old.files.items) }
        ensures synced { OnOk result (length self.old.files.items ≡ OPEN_MAX
            → IsSomeAnd (slice_get self.old.files.items 0)
            (λ file. IsTrue file.is_forced ⊎ F.synced file.file)) }
        ensures room { OnOk result (vec_len self.new.files < vec_capacity self.new.files) }
        ensures left { AreAmong self.new.files.items self.old.files.items }
        ensures failed { IfErr result (IsSystemFailure IsSync) }
    {
        self.close_oldest()?;
        self.files.reserve(1)?;
        Ok(())
    }

    // Where as many files are open as may be, the one that was changed longest ago is forced and closed.
    fn close_oldest(&mut self) -> Result<(), Failure>
        ensures oldest { OnOk result (self.new.files.items ≡ after_oldest self.old.files.items) }
        ensures synced { OnOk result (length self.old.files.items ≡ OPEN_MAX
            → IsSomeAnd (slice_get self.old.files.items 0)
            (λ file. IsTrue file.is_forced ⊎ F.synced file.file)) }
        ensures left { AreAmong self.new.files.items self.old.files.items }
        ensures failed { IfErr result (IsSystemFailure IsSync) }
    {
        if self.files.len() != OPEN_MAX {
            return Ok(());
        }
        self.files.remove(0).sync()
    }

    /// Takes the file in that was changed last.
    pub fn keep(&mut self, file: Opened<F>)
        requires room { vec_len self.old.files < vec_capacity self.old.files }
        ensures { self.new.files.items ≡ self.old.files.items ++ file ∷ [] }
    {
        self.files.push_reserved(file);
    }

    /// Closes each file of this name.
    pub fn close(&mut self, name: StoreFile)
        ensures closed { IsNotOpen self.new.files.items name }
        ensures others { OthersStayOpen self.old.files.items self.new.files.items name }
    {
        self.files.retain(|file| file.name != name);
    }

    /// Forgets each open file, which closes it.
    pub fn clear(&mut self)
        ensures { self.new.files.items ≡ [] }
    {
        self.files.clear();
    }

    /// Forces each open file.
    pub fn force(&mut self) -> Result<(), Failure>
        ensures forced { OnOk result (AreForced self.new.files.items) }
        ensures synced { OnOk result (AreSynced F.synced self.old.files.items) }
        ensures kept { length self.new.files.items ≡ length self.old.files.items }
        ensures failed { IfErr result (IsSystemFailure IsSync) }
    {
        force_all(&mut self.files)
    }

    /// Moves the segments, and the partitions' files, to lists of their own. Out of memory moves none.
    pub fn split(&mut self, alloc: Global) -> Result<(OpenFiles<F>, OpenFiles<F>), AllocError>
        ensures sorted { IfOk result (λ parts. AreSorted self.old.files.items
            parts.0.files.items parts.1.files.items self.new.files.items) }
        ensures unchanged { OnErr result (self.new.files.items ≡ self.old.files.items) }
    {
        let count = self.files.len();
        let mut segments = OpenFiles::new(alloc);
        let mut pages = OpenFiles::new(alloc);
        let mut others = Vec::new(alloc);
        segments.files.reserve(count)?;
        pages.files.reserve(count)?;
        others.reserve(count)?;
        let files = mem::replace(&mut self.files, others);
        sort_out(files, &mut segments, &mut pages, self);
        Ok((segments, pages))
    }

    /// Takes the files in, after those that are open. Where as many are open as may be, the one that was
    /// changed longest ago is forced and closed. After a failure a file may be closed that wasn't forced.
    pub fn keep_all(&mut self, more: OpenFiles<F>) -> Result<(), Failure>
        ensures kept { OnOk result (length self.old.files.items + length more.files.items ≤ OPEN_MAX
            → self.new.files.items ≡ self.old.files.items ++ more.files.items) }
        ensures failed { IfErr result (IsSystemFailure IsSync) }
    {
        for file in more.files {
            self.make_room()?;
            self.keep(file);
        }
        Ok(())
    }

    /// Takes the files of two parts in, after those that are open. After a failure a file may be closed that
    /// wasn't forced.
    pub fn join(&mut self, segments: OpenFiles<F>, pages: OpenFiles<F>) -> Result<(), Failure>
        ensures joined { OnOk result (AreJoined self.old.files.items segments.files.items
            pages.files.items self.new.files.items) }
        ensures failed { IfErr result (IsSystemFailure IsSync) }
    {
        self.keep_all(segments)?;
        self.keep_all(pages)
    }

    // Where the file of this name stands among the open ones: the one of them that was changed last.
    fn position(&self, name: StoreFile) -> Option<usize>
        ensures found { IfSome result (λ index. index < length self.now.files.items
            × IfSome (slice_get self.now.files.items index) (λ file. file.name ≡ name)) }
        ensures latest { IfSome result (λ index. IsNotOpen (drop (index + 1) self.now.files.items) name) }
        ensures closed { IfNone result (IsNotOpen self.now.files.items name) }
    {
        self.files.iter().rposition(|file| file.name == name)
    }
}

// Forces each of the files.
fn force_all<F: Write + Seek + FileCalls + Drop>(files: &mut [Opened<F>]) -> Result<(), Failure>
    ensures forced { OnOk result (AreForced files.new) }
    ensures synced { OnOk result (AreSynced F.synced files.old) }
    ensures failed { IfErr result (IsSystemFailure IsSync) }
{
    for file in files.iter_mut() {
        file.force()?;
    }
    Ok(())
}

// Puts each file to those of its kind, of which there are none yet.
fn sort_out<F: Write + Seek + FileCalls + Drop>(
    files: Vec<Opened<F>>,
    segments: &mut OpenFiles<F>,
    pages: &mut OpenFiles<F>,
    others: &mut OpenFiles<F>,
)
    requires segments_room { vec_len files ≤ vec_capacity segments.old.files }
    requires segments_empty { segments.old.files.items ≡ [] }
    requires pages_room { vec_len files ≤ vec_capacity pages.old.files }
    requires pages_empty { pages.old.files.items ≡ [] }
    requires others_room { vec_len files ≤ vec_capacity others.old.files }
    requires others_empty { others.old.files.items ≡ [] }
    ensures { AreSorted files.items segments.new.files.items pages.new.files.items others.new.files.items }
{
    for file in files {
        match file.name {
            StoreFile::Segment(_) => segments.files.push_reserved(file),
            StoreFile::Pages(_) => pages.files.push_reserved(file),
            StoreFile::Marks(_) => others.files.push_reserved(file),
            StoreFile::Config => others.files.push_reserved(file),
        }
    }
}
