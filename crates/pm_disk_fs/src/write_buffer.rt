//! The write buffer: writes to the log that are handed to the system as one.

ghost use Rattle.std.specs.Prelude.{◌≡◌, ◌+◌, ◌<◌, ◌≤◌, ◌↔◌, [], length, IsTrue, OnOk, OnErr, IfErr};
ghost use Rattle.std.specs.Bool.{OnTrue, OnFalse};

use crate::calls::FileCalls;
use crate::failure::Failure;
use crate::opened::Opened;
use std::alloc::Global;
use std::io::{Seek, Write};
use std::marker::Model;

/// The most bytes that are buffered: a batch's frames are handed to the system as one write for each MiB,
/// and one for the rest. The memory is taken by the first write, and no page of it is touched before bytes
/// come to it.
pub const BUFFER_MAX: usize = 1_048_576;

/// Bytes of one segment from an offset on, of writes that follow each other.
#[derive(Drop)]
pub struct WriteBuffer {
    seg: u64,
    at: u64,
    bytes: Vec<u8>,
}

impl Model for WriteBuffer {
    ghost use Rattle.std.specs.Vec.{vec_len, vec_capacity};
    ghost use Rattle.pm_disk_fs.specs.WriteBuffer.{Stretch, IsBuffer};

    ghost Value = { Stretch };

    ghost view = { λ a. record { seg = a.seg; at = a.at; bytes = a.bytes.items } };

    ghost invariant = { λ a. IsBuffer (vec_len a.bytes) (vec_capacity a.bytes) };
}

impl WriteBuffer {
    ghost use Rattle.pm_disk_fs.specs.WriteBuffer.{FitsAfter, IsAppended};
    ghost use Rattle.pm_disk_fs.specs.Positions.{HasBytes};
    ghost use Rattle.pm_disk_fs.specs.Failures.{IsSystemFailure, IsOnFile};

    /// Nothing is buffered, and no memory is taken.
    pub fn new(alloc: Global) -> WriteBuffer
        ensures { result.bytes ≡ [] }
    {
        WriteBuffer {
            seg: 0,
            at: 0,
            bytes: Vec::new(alloc),
        }
    }

    /// Whether nothing is buffered.
    pub fn is_empty(&self) -> bool
        ensures { IsTrue result ↔ (self.now.bytes ≡ []) }
    {
        self.bytes.is_empty()
    }

    /// The segment that the bytes belong to.
    pub fn seg(&self) -> u64
        ensures { result ≡ self.now.seg }
    {
        self.seg
    }

    /// Buffers a write, and answers whether it did. It does not where the write stands elsewhere, where
    /// there is no room left, or no memory for the buffer, or nothing to be written: the file of a write
    /// without bytes has to be made too.
    pub fn add(&mut self, seg: u64, at: u64, bytes: &[u8]) -> bool
        ensures appended { OnTrue result (IsAppended self.old self.new seg at bytes.now) }
        ensures unchanged { OnFalse result (self.new ≡ self.old) }
        ensures bounded { length self.new.bytes ≤ BUFFER_MAX }
        // What follows the bytes that are buffered, and fits, is buffered too.
        ensures fits { FitsAfter self.old seg at bytes.now → IsTrue result }
    {
        if bytes.is_empty() || BUFFER_MAX - self.bytes.len() < bytes.len() {
            return false;
        }
        if self.bytes.is_empty() {
            self.begin(seg, at, bytes)
        } else {
            self.append(seg, at, bytes)
        }
    }

    /// Writes what is buffered into the file of its segment, and then forgets it. The memory is kept.
    pub fn write_to<F: Write + Seek + FileCalls + Drop>(
        &mut self,
        file: &mut Opened<F>,
    ) -> Result<(), Failure>
        ensures written { OnOk result (self.new.bytes ≡ []) }
        ensures wrote { OnOk result (HasBytes F.contents file.new file.old.name
            self.old.at self.old.bytes) }
        ensures kept { OnErr result (self.new ≡ self.old) }
        ensures failed { IfErr result (IsSystemFailure (IsOnFile file.old.name)) }
    {
        file.write(self.at, &self.bytes)?;
        self.bytes.clear();
        Ok(())
    }

    // Begins with this write, where memory for the buffer is there or can be had.
    fn begin(&mut self, seg: u64, at: u64, bytes: &[u8]) -> bool
        requires empty { self.old.bytes ≡ [] }
        requires room { length bytes.now ≤ BUFFER_MAX }
        ensures appended { OnTrue result (IsAppended self.old self.new seg at bytes.now) }
        ensures unchanged { OnFalse result (self.new ≡ self.old) }
    {
        if self.bytes.try_reserve_exact(BUFFER_MAX).is_err() {
            return false;
        }
        if self.bytes.extend_from_slice(bytes).is_err() {
            return false;
        }
        self.seg = seg;
        self.at = at;
        true
    }

    // Appends this write, where it follows what is buffered.
    fn append(&mut self, seg: u64, at: u64, bytes: &[u8]) -> bool
        requires some { 0 < length self.old.bytes }
        requires room { length self.old.bytes + length bytes.now ≤ BUFFER_MAX }
        ensures appended { OnTrue result (IsAppended self.old self.new seg at bytes.now) }
        ensures unchanged { OnFalse result (self.new ≡ self.old) }
        ensures fits { FitsAfter self.old seg at bytes.now → IsTrue result }
    {
        if seg != self.seg || at < self.at || at - self.at != self.bytes.len() as u64 {
            return false;
        }
        self.bytes.extend_from_slice(bytes).is_ok()
    }
}
