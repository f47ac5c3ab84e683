//! A disk in memory.

ghost use Rattle.std.specs.Prelude.{◌≡◌, IfOk, OnOk, OnErr, option_copied};
ghost use Rattle.pm_disk_mem.specs.Changes.{bytes_in};
ghost use Rattle.pm_disk_mem.specs.Disks.{no_files, file_in, with_bytes, Puts, Finds};
ghost use Rattle.pm_disk_mem.specs.Parts.{store_of};

use crate::contents::Contents;
use crate::parts::DiskParts;
use pm_disk::{MarkFile, StoreFile, file_named};
use std::alloc::{AllocError, Global};
use std::marker::Model;

/// The files of a store, all of them lasting: where a host begins, and what a crash leaves of it.
#[derive(Drop)]
pub struct MemDisk {
    alloc: Global,
    parts: DiskParts,
    config: Option<Vec<u8>>,
}

impl Model for MemDisk {
    ghost use Rattle.pm_disk_mem.specs.Changes.{bytes_in};
    ghost use Rattle.pm_disk_mem.specs.Disks.{Store};
    ghost use Rattle.pm_disk_mem.specs.Parts.{store_of};

    ghost Value = { Store };

    ghost view = { λ disk. store_of disk.parts (bytes_in disk.config) };
}

impl MemDisk {
    /// A disk without a file.
    pub fn empty(alloc: Global) -> MemDisk
        ensures { result ≡ no_files }
    {
        MemDisk {
            alloc,
            parts: DiskParts {
                log: Contents::new(alloc),
                pages: Contents::new(alloc),
                starts: None,
                ends: None,
            },
            config: None,
        }
    }

    /// Makes a file of a copy of the bytes, in the place of one that has this name. Answers false, and
    /// changes nothing, exactly where the name isn't that of a file of the store.
    ///
    /// The files are `config.json`, `cp.start`, `cp.end`, the log's segments, as
    /// `wal-0000000000000001.seg`, and those of the partitions 0 to 63, as `part-063.pages`. Out of
    /// memory changes nothing either.
    pub fn put_file(&mut self, name: &str, bytes: &[u8]) -> Result<bool, AllocError>
        ensures puts { IfOk result (λ known. Puts known self.old self.new name.now bytes.now) }
        ensures unchanged { OnErr result (self.new ≡ self.old) }
    {
        let Some(file) = file_named(name.as_bytes()) else {
            return Ok(false);
        };
        let copy = Vec::from_slice(self.alloc, bytes)?;
        self.put(file, copy)?;
        Ok(true)
    }

    /// The bytes of the file of this name, none where it is absent or isn't one of the store's.
    pub fn file(&self, name: &str) -> Option<&[u8]>
        ensures { Finds self.now name.now (option_copied result) }
    {
        match file_named(name.as_bytes()) {
            Some(file) => self.get(file),
            None => None,
        }
    }

    /// A disk of these files and of this configuration.
    pub(crate) fn from_parts(alloc: Global, parts: DiskParts, config: Option<Vec<u8>>) -> MemDisk
        ensures { result ≡ store_of parts (bytes_in config) }
    {
        MemDisk {
            alloc,
            parts,
            config,
        }
    }

    /// The files and the configuration.
    pub(crate) fn into_parts(self) -> (DiskParts, Option<Vec<u8>>)
        ensures { store_of result.0 (bytes_in result.1) ≡ self }
    {
        let MemDisk {
            alloc: _,
            parts,
            config,
        } = self;
        (parts, config)
    }

    // A file's bytes.
    fn get(&self, file: StoreFile) -> Option<&[u8]>
        ensures { option_copied result ≡ file_in self.now file }
    {
        match file {
            StoreFile::Config => slice_of(&self.config),
            StoreFile::Marks(MarkFile::Start) => slice_of(&self.parts.starts),
            StoreFile::Marks(MarkFile::End) => slice_of(&self.parts.ends),
            StoreFile::Segment(seg) => self.parts.log.get(seg),
            StoreFile::Pages(part) => self.parts.pages.get(part as u64),
        }
    }

    // Makes a file of the bytes.
    fn put(&mut self, file: StoreFile, bytes: Vec<u8>) -> Result<(), AllocError>
        ensures put { OnOk result (self.new ≡ with_bytes self.old file bytes.items) }
        ensures unchanged { OnErr result (self.new ≡ self.old) }
    {
        match file {
            StoreFile::Config => self.config = Some(bytes),
            StoreFile::Marks(MarkFile::Start) => self.parts.starts = Some(bytes),
            StoreFile::Marks(MarkFile::End) => self.parts.ends = Some(bytes),
            StoreFile::Segment(seg) => self.parts.log.put(seg, bytes)?,
            StoreFile::Pages(part) => self.parts.pages.put(part as u64, bytes)?,
        }
        Ok(())
    }
}

// The bytes, none where the file is absent.
fn slice_of(held: &Option<Vec<u8>>) -> Option<&[u8]>
    ensures { option_copied result ≡ bytes_in held.now }
{
    match held {
        Some(bytes) => Some(bytes.as_slice()),
        None => None,
    }
}
