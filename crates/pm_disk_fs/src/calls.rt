//! The calls of the system that no clause of the runtime's speaks of, each with a relation by which a clause
//! names what it was made on. What is written over any relations can show them only by these calls.

ghost use Rattle.std.specs.Prelude.{◌≡◌, ◌<◌, ◌≤◌, true, ℕ, List, ⊤, length, take, IfOk, IfErr, OnOk};
ghost use Rattle.std.specs.IoError.{error_kind};
ghost use Rattle.std.specs.declared.fs.options.OpenOptions.{OpenOptions};

use std::fs::{self, OpenFile, OpenOptions};
use std::io::{self, ErrorKind};
use std::os::unix::fs::{FileExt, MetadataExt};
use std::rt::Files;

/// The calls by a path. Of the system's own files nobody can know more than that they were made.
pub trait PathCalls: Files {
    /// The file was opened so, by this path.
    ghost opened: { OpenOptions → List ℕ → Self.File → Type 0 } = { λ _ _ _. ⊤ };

    /// A call by this path found nothing there.
    ghost missing: { List ℕ → Type 0 } = { λ _. ⊤ };

    /// What this path names had this length in bytes.
    ghost measured: { List ℕ → ℕ → Type 0 } = { λ _ _. ⊤ };

    /// The file of this path was removed.
    ghost removed: { List ℕ → Type 0 } = { λ _. ⊤ };

    /// Opens a file.
    fn open_at(&self, how: &OpenOptions, path: &str) -> io::Result<Self::File>
        ensures opens { IfOk result (λ file. opened how.now path.now file) }
        ensures misses { IfErr result (λ e. error_kind e ≡ ErrorKind.NotFound → missing path.now) };

    /// The length of a file in bytes.
    fn len_at(&self, path: &str) -> io::Result<u64>
        ensures measures { IfOk result (λ len. measured path.now len) }
        ensures misses { IfErr result (λ e. error_kind e ≡ ErrorKind.NotFound → missing path.now) };

    /// Removes a file.
    fn remove_at(&self, path: &str) -> io::Result<()>
        ensures removes { OnOk result (removed path.now) }
        ensures misses { IfErr result (λ e. error_kind e ≡ ErrorKind.NotFound → missing path.now) };
}

impl<R: Files> PathCalls for R {
    fn open_at(&self, how: &OpenOptions, path: &str) -> io::Result<R::File> {
        self.open_file(how, path)
    }

    fn len_at(&self, path: &str) -> io::Result<u64> {
        Ok(fs::metadata(self, path)?.len())
    }

    fn remove_at(&self, path: &str) -> io::Result<()> {
        fs::remove_file(self, path)
    }
}

/// The calls on an open file. Of the system's own files nobody can know more than that they were made.
pub trait FileCalls: OpenFile {
    /// The file's bytes and its length were made lasting.
    ghost synced: { Self → Type 0 } = { λ _. ⊤ };

    /// The file was cut to this length in bytes.
    ghost cut_to: { Self → ℕ → Type 0 } = { λ _ _. ⊤ };

    /// Makes the file's bytes and its length lasting.
    fn sync(&self) -> io::Result<()>
        ensures syncs { OnOk result (synced self.now) };

    /// Cuts the file to this length in bytes.
    fn cut(&self, len: u64) -> io::Result<()>
        ensures cuts { OnOk result (cut_to self.now len) };
}

impl<F: OpenFile> FileCalls for F {
    fn sync(&self) -> io::Result<()> {
        self.sync_all()
    }

    fn cut(&self, len: u64) -> io::Result<()> {
        self.set_len(len)
    }
}

/// The reads of an open file. Of the system's own files nobody can know more than that they were made.
pub trait ReadCalls: FileExt {
    /// A read of this file for a byte or more, from this offset on, gave these bytes.
    ghost gave: { Self → ℕ → List ℕ → Type 0 } = { λ _ _ _. ⊤ };

    /// Reads once from the offset on, wherever the file stands. Where no byte is there, the file ends.
    fn read_from(&self, into: &mut [u8], at: u64) -> io::Result<usize>
        requires some { 0 < length into.old }
        ensures bound { IfOk result (λ n. n ≤ length into.new) }
        ensures gives { IfOk result (λ n. gave self.now at (take n into.new)) };
}

impl<F: FileExt> ReadCalls for F {
    fn read_from(&self, into: &mut [u8], at: u64) -> io::Result<usize> {
        self.read_at(into, at)
    }
}

/// Whether two open files are one. Of the system's own files nobody can know more than that both were asked.
pub trait SameCalls: OpenFile {
    /// Both are open on the same file.
    ghost same_file: { Self → Self → Type 0 } = { λ _ _. ⊤ };

    /// Whether both are open on the same file.
    fn is_same_file(&self, other: &Self) -> io::Result<bool>
        ensures same { IfOk result (λ is_same. is_same ≡ true → same_file self.now other.now) };
}

impl<F: OpenFile> SameCalls for F {
    fn is_same_file(&self, other: &F) -> io::Result<bool> {
        let (one, other) = (self.metadata()?, other.metadata()?);
        Ok(one.dev() == other.dev() && one.ino() == other.ino())
    }
}
