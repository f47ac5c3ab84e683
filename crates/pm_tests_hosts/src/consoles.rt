//! Real files beside a console of their own.

use std::alloc::Allocator;
use std::fmt::Display;
use std::fs::{Metadata, OpenOptions};
use std::io::{self, BufRead, ErrorKind, Lines, Write};
use std::rt::Files;

/// The file that has what was printed.
pub const SAID: &str = "said";

/// The files of a runtime, beside a console with this input, whose output is the file `SAID`.
#[derive(Clone, Drop)]
pub struct FileConsole<R> {
    pub rt: R,
    pub input: &'static [u8],
}

fn unsupported() -> io::Error {
    io::Error::from(ErrorKind::Unsupported)
}

impl<R> Input for FileConsole<R> {
    type Reader = &'static [u8];

    fn read_line<A: Allocator + Clone>(&self, _buf: &mut String<A>) -> io::Result<usize> {
        Err(unsupported())
    }

    fn lines<A: Allocator>(&self, alloc: A) -> Lines<&'static [u8], A> {
        self.reader().lines(alloc)
    }

    fn reader(&self) -> &'static [u8] {
        self.input
    }
}

impl<R: Files> Print for FileConsole<R> {
    fn print<D: Display + Drop>(&self, _value: D) -> io::Result<()> {
        Err(unsupported())
    }

    fn println<D: Display + Drop>(&self, _value: D) -> io::Result<()> {
        Err(unsupported())
    }

    fn write_all(&self, bytes: &[u8]) -> io::Result<()> {
        let mut said = OpenOptions::new()
            .append(true)
            .create(true)
            .open(&self.rt, SAID)?;
        said.write_all(bytes)
    }
}

impl<R: Alloc> Alloc for FileConsole<R> {
    type A = R::A;

    fn alloc(&self) -> R::A {
        self.rt.alloc()
    }
}

impl<R: Files> Files for FileConsole<R> {
    type File = R::File;

    type Dir = R::Dir;

    fn open_file(&self, how: &OpenOptions, path: &str) -> io::Result<R::File> {
        self.rt.open_file(how, path)
    }

    fn open_dir(&self, path: &str) -> io::Result<R::Dir> {
        self.rt.open_dir(path)
    }

    fn metadata(&self, path: &str) -> io::Result<Metadata> {
        self.rt.metadata(path)
    }

    fn symlink_metadata(&self, path: &str) -> io::Result<Metadata> {
        self.rt.symlink_metadata(path)
    }

    fn copy(&self, from: &str, to: &str) -> io::Result<u64> {
        self.rt.copy(from, to)
    }

    fn rename(&self, from: &str, to: &str) -> io::Result<()> {
        self.rt.rename(from, to)
    }

    fn remove_file(&self, path: &str) -> io::Result<()> {
        self.rt.remove_file(path)
    }

    fn create_dir(&self, path: &str) -> io::Result<()> {
        self.rt.create_dir(path)
    }

    fn remove_dir(&self, path: &str) -> io::Result<()> {
        self.rt.remove_dir(path)
    }

    fn remove_dir_all<B: Allocator>(&self, alloc: B, path: &str) -> io::Result<()> {
        self.rt.remove_dir_all(alloc, path)
    }
}
