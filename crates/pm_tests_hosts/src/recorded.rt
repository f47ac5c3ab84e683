//! Real files that write a trace: which were opened, changed and synced, and which names were made and removed.

ghost use Rattle.std.specs.Prelude.{◌≡◌, false, IfOk};

use crate::consoles::{FileConsole, SAID};
use pm_disk_fs::{FsHost, Lockable};
use std::alloc::{AllocError, Allocator};
use std::fmt::Display;
use std::fs::{Metadata, OpenFile, OpenOptions};
use std::io::{self, Lines, Read, Seek, SeekFrom, Write};
use std::os::unix::fs::FileExt;
use std::rt::Files;

/// The file that has the trace: a line for each event, with its path.
pub const TRACE: &str = "trace";

/// The bytes or the length of a file were changed.
pub const CHANGED: &str = "changed";

/// A file or a folder was synced.
pub const SYNCED: &str = "synced";

/// A file or a folder that was there was opened.
pub const OPENED: &str = "opened";

/// A name was made.
pub const MADE: &str = "made";

/// A name was removed.
pub const REMOVED: &str = "removed";

/// Something was printed.
pub const PRINTED: &str = "printed";

/// A host has answered that a file is forced.
pub const FORCED: &str = "forced";

/// A line of the trace.
fn line_of<R: AllocGlobal>(rt: &R, event: &str, path: &str) -> Result<String, AllocError> {
    format!(in rt.alloc(); "{event} {path}\n")
}

/// Writes a line into the trace.
pub fn note<R: Files + AllocGlobal>(rt: &R, event: &str, path: &str) -> io::Result<()> {
    let line = line_of(rt, event, path)?;
    let mut trace = OpenOptions::new()
        .append(true)
        .create(true)
        .open(rt, TRACE)?;
    trace.write_all(line.as_bytes())
}

/// A runtime whose files write the trace. All else is passed on.
#[derive(Clone, Drop)]
pub struct Recorded {
    pub rt: FileConsole<HostRuntime>,
}

/// A file that writes the trace.
#[derive(Drop)]
pub struct RecordedFile {
    rt: FileConsole<HostRuntime>,
    file: <HostRuntime as Files>::File,
    path: String,
}

impl Read for RecordedFile {
    fn read(&mut self, buf: &mut [u8]) -> io::Result<usize> {
        self.file.read(buf)
    }
}

impl Seek for RecordedFile {
    fn seek(&mut self, to: SeekFrom) -> io::Result<u64> {
        self.file.seek(to)
    }
}

impl Write for RecordedFile {
    fn write(&mut self, buf: &[u8]) -> io::Result<usize> {
        note(&self.rt, CHANGED, &self.path)?;
        self.file.write(buf)
    }

    fn flush(&mut self) -> io::Result<()> {
        self.file.flush()
    }
}

impl OpenFile for RecordedFile {
    fn metadata(&self) -> io::Result<Metadata> {
        self.file.metadata()
    }

    fn set_len(&self, size: u64) -> io::Result<()> {
        note(&self.rt, CHANGED, &self.path)?;
        self.file.set_len(size)
    }

    fn sync_all(&self) -> io::Result<()> {
        self.file.sync_all()?;
        note(&self.rt, SYNCED, &self.path)
    }

    fn sync_data(&self) -> io::Result<()> {
        self.file.sync_data()
    }
}

impl FileExt for RecordedFile {
    fn read_at(&self, buf: &mut [u8], offset: u64) -> io::Result<usize> {
        self.file.read_at(buf, offset)
    }

    fn write_at(&self, buf: &[u8], offset: u64) -> io::Result<usize> {
        note(&self.rt, CHANGED, &self.path)?;
        self.file.write_at(buf, offset)
    }
}

impl Lockable for RecordedFile {
    fn take_lock(&self) -> io::Result<bool> {
        self.file.take_lock()
    }
}

impl Alloc for Recorded {
    type A = <HostRuntime as Alloc>::A;

    fn alloc(&self) -> <HostRuntime as Alloc>::A {
        self.rt.alloc()
    }
}

impl Input for Recorded {
    type Reader = &'static [u8];

    fn read_line<A: Allocator + Clone>(&self, buf: &mut String<A>) -> io::Result<usize> {
        self.rt.read_line(buf)
    }

    fn lines<A: Allocator>(&self, alloc: A) -> Lines<&'static [u8], A> {
        self.rt.lines(alloc)
    }

    fn reader(&self) -> &'static [u8] {
        self.rt.reader()
    }
}

impl Print for Recorded {
    fn print<D: Display + Drop>(&self, value: D) -> io::Result<()> {
        self.rt.print(value)
    }

    fn println<D: Display + Drop>(&self, value: D) -> io::Result<()> {
        self.rt.println(value)
    }

    fn write_all(&self, bytes: &[u8]) -> io::Result<()> {
        note(&self.rt, PRINTED, SAID)?;
        self.rt.write_all(bytes)
    }
}

impl Files for Recorded {
    type File = RecordedFile;

    type Dir = <HostRuntime as Files>::Dir;

    /// A file that isn't there before is made.
    fn open_file(&self, how: &OpenOptions, path: &str) -> io::Result<RecordedFile> {
        let was_there = self.rt.metadata(path).is_ok();
        let file = self.rt.open_file(how, path)?;
        note(&self.rt, if was_there { OPENED } else { MADE }, path)?;
        Ok(RecordedFile {
            rt: self.rt.clone()?,
            file,
            path: String::from_str(self.rt.alloc(), path)?,
        })
    }

    fn open_dir(&self, path: &str) -> io::Result<<HostRuntime as Files>::Dir> {
        self.rt.open_dir(path)
    }

    fn metadata(&self, path: &str) -> io::Result<Metadata> {
        self.rt.metadata(path)
    }

    fn symlink_metadata(&self, path: &str) -> io::Result<Metadata> {
        self.rt.symlink_metadata(path)
    }

    fn copy(&self, from: &str, to: &str) -> io::Result<u64> {
        self.rt.copy(from, to)
    }

    fn rename(&self, from: &str, to: &str) -> io::Result<()> {
        self.rt.rename(from, to)?;
        note(&self.rt, REMOVED, from)?;
        note(&self.rt, MADE, to)
    }

    fn remove_file(&self, path: &str) -> io::Result<()> {
        self.rt.remove_file(path)?;
        note(&self.rt, REMOVED, path)
    }

    fn create_dir(&self, path: &str) -> io::Result<()> {
        self.rt.create_dir(path)?;
        note(&self.rt, MADE, path)
    }

    fn remove_dir(&self, path: &str) -> io::Result<()> {
        self.rt.remove_dir(path)?;
        note(&self.rt, REMOVED, path)
    }

    fn remove_dir_all<B: Allocator>(&self, alloc: B, path: &str) -> io::Result<()> {
        self.rt.remove_dir_all(alloc, path)
    }
}

/// A host over files that write the trace. It is in a box, whose drop is a call: that of the host itself would
/// stand in each function that has one.
pub type RecordedHost = Box<FsHost<Recorded>>;

/// A host over files that write the trace, beside a console with this input.
pub fn recorded_host(rt: &HostRuntime, input: &'static [u8]) -> Result<RecordedHost, AllocError>
    ensures { IfOk result (λ host. host.value.is_lent ≡ false) }
{
    let console = FileConsole {
        rt: rt.clone()?,
        input,
    };
    Ok(Box::new(rt.alloc(), FsHost::new(Recorded { rt: console }))?)
}
