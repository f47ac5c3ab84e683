//! What a family of files holds, by number.

ghost use Rattle.std.specs.Prelude.{◌≡◌, ℕ, List, [], OnOk, OnErr, option_copied};
ghost use Rattle.pm_disk_mem.specs.Changes.{bytes_in};
ghost use Rattle.pm_disk_mem.specs.Disks.{seen, content_at, with_content, with_left};

use std::alloc::{AllocError, Global};
use std::collections::BTreeMap;
use std::marker::Model;

/// The bytes of files that are numbered. A number without an entry has no file.
#[derive(Drop)]
pub struct Contents {
    files: BTreeMap<u64, Vec<u8>>,
}

impl Model for Contents {
    ghost use Rattle.std.specs.Prelude.{ℕ, List};
    ghost use Rattle.pm_disk_mem.specs.Disks.{seen};

    ghost Value = { List (ℕ × List ℕ) };

    ghost view = { λ contents. seen (λ v. v.items) contents.files.entries };
}

impl Contents {
    /// No file.
    pub fn new(alloc: Global) -> Contents
        ensures { result ≡ [] }
    {
        Contents {
            files: BTreeMap::new(alloc),
        }
    }

    /// Makes a file of the bytes, in the place of one that has this number.
    pub fn put(&mut self, number: u64, bytes: Vec<u8>) -> Result<(), AllocError>
        ensures put { OnOk result (self.new ≡ with_content self.old number bytes.items) }
        ensures unchanged { OnErr result (self.new ≡ self.old) }
    {
        self.files.insert(number, bytes)?;
        Ok(())
    }

    /// Makes a file of what was left of it.
    pub fn put_left(&mut self, number: u64, left: Option<Vec<u8>>) -> Result<(), AllocError>
        ensures put { OnOk result (self.new ≡ with_left self.old number (bytes_in left)) }
        ensures unchanged { OnErr result (self.new ≡ self.old) }
    {
        match left {
            Some(bytes) => self.put(number, bytes),
            None => Ok(()),
        }
    }

    /// A file's bytes, none where it is absent.
    pub fn get(&self, number: u64) -> Option<&[u8]>
        ensures { option_copied result ≡ content_at self.now number }
    {
        match self.files.get(&number) {
            Some(bytes) => Some(bytes.as_slice()),
            None => None,
        }
    }

    /// The bytes by number.
    pub fn into_files(self) -> BTreeMap<u64, Vec<u8>>
        ensures { seen (λ v. v.items) result.entries ≡ self }
    {
        let Contents { files } = self;
        files
    }
}
