//! A file that is open to be changed, and how far it was written.

ghost use Rattle.std.specs.Prelude.{◌≡◌, ◌⊎◌, length, replicate, false, IsTrue, IsOk, IfOk, IfErr, OnOk};
ghost use Rattle.std.specs.Prelude.{None, Some};
ghost use Rattle.pm_disk_fs.specs.Failures.{IsSystemFailure, IsOnFile, IsCallOn};

use crate::calls::{FileCalls, ReadCalls};
use crate::failure::{Failure, Object, SystemCall, named};
use crate::reading::{fill, whole_or_zeros};
use pm_disk::StoreFile;
use std::io::{Seek, SeekFrom, Write};

/// An open file of the store.
#[derive(Drop)]
pub struct Opened<F: Drop> {
    pub name: StoreFile,
    file: F,
    // Where the file stands, so that a write after the last one needs no seek; none where nobody knows.
    at: Option<u64>,
    // Whether it was forced since its last change. What happened before it was opened isn't known, so a file
    // that was opened just now has to be forced though nothing was changed since.
    is_forced: bool,
}

impl<F: Write + Seek + FileCalls + Drop> Opened<F> {
    ghost use Rattle.pm_disk_fs.specs.Positions.{HasBytes, IsKnown};

    /// A file that was opened just now.
    pub fn new(name: StoreFile, file: F) -> Opened<F>
        ensures name { result.name ≡ name }
        ensures file { result.file ≡ file }
        ensures nowhere { result.at ≡ None }
        ensures unforced { result.is_forced ≡ false }
    {
        Opened {
            name,
            file,
            at: None,
            is_forced: false,
        }
    }

    /// Writes the bytes from the offset on. After an error a prefix of them may be there.
    pub fn write(&mut self, at: u64, bytes: &[u8]) -> Result<(), Failure>
        ensures written { OnOk result (HasBytes F.contents self.new self.old.name at bytes.now) }
        ensures changed { self.new.is_forced ≡ false }
        ensures failed { IfErr result (IsSystemFailure (IsOnFile self.old.name)) }
    {
        self.is_forced = false;
        self.go_to(at)?;
        let written = self.file.write_all(bytes);
        named(SystemCall::Write, Object::File(self.name), written)?;
        self.at = at.checked_add(bytes.len() as u64);
        Ok(())
    }

    // Brings the file to the offset, by a seek where it isn't known to stand there. Where it then
    // stands after a write has to be noted anew.
    fn go_to(&mut self, at: u64) -> Result<(), Failure>
        ensures stands { OnOk result (IsKnown self.old.at (F.stream_position self.old.file)
            → F.stream_position self.new.file ≡ Some at) }
        ensures forgotten { self.new.at ≡ None }
        ensures name { self.new.name ≡ self.old.name }
        ensures forced { self.new.is_forced ≡ self.old.is_forced }
        ensures failed { IfErr result (IsSystemFailure (IsOnFile self.old.name)) }
    {
        if self.at.take() != Some(at) {
            let sought = self.file.seek(SeekFrom::Start(at));
            named(SystemCall::Seek, Object::File(self.name), sought)?;
        }
        Ok(())
    }

    /// Cuts it to this length in bytes.
    pub fn cut(&mut self, len: u64) -> Result<(), Failure>
        ensures name { self.new.name ≡ self.old.name }
        ensures changed { self.new.is_forced ≡ false }
        ensures cut { OnOk result (F.cut_to self.new.file len) }
        ensures failed { IfErr result (IsSystemFailure
            (IsCallOn SystemCall.Truncate (Object.File self.old.name))) }
    {
        self.is_forced = false;
        named(
            SystemCall::Truncate,
            Object::File(self.name),
            self.file.cut(len),
        )
    }

    /// Makes its bytes and its length lasting, and notes that.
    pub fn force(&mut self) -> Result<(), Failure>
        ensures name { self.new.name ≡ self.old.name }
        ensures forced { OnOk result (IsTrue self.new.is_forced) }
        ensures same { self.new.file ≡ self.old.file }
        ensures synced { OnOk result (IsTrue self.old.is_forced ⊎ F.synced self.new.file) }
        ensures lasts { IsTrue self.old.is_forced → IsOk result }
        ensures failed { IfErr result (IsSystemFailure
            (IsCallOn SystemCall.Sync (Object.File self.old.name))) }
    {
        self.sync()?;
        self.is_forced = true;
        Ok(())
    }

    /// Makes its bytes and its length lasting. Where it wasn't changed since it was forced, they last, and
    /// the system isn't asked.
    pub fn sync(&self) -> Result<(), Failure>
        ensures synced { OnOk result (IsTrue self.now.is_forced ⊎ F.synced self.now.file) }
        ensures lasts { IsTrue self.now.is_forced → IsOk result }
        ensures failed { IfErr result (IsSystemFailure
            (IsCallOn SystemCall.Sync (Object.File self.now.name))) }
    {
        if self.is_forced {
            return Ok(());
        }
        named(SystemCall::Sync, Object::File(self.name), self.file.sync())
    }
}

impl<F: ReadCalls + Drop> Opened<F> {
    ghost use Rattle.pm_disk_fs.specs.Reads.{IsRead, IsRange};

    /// Reads a whole range from the offset on, wherever the file stands, and answers true, or, where the
    /// file ends before it, fills the buffer with zeros and answers false.
    pub fn read_whole(&self, at: u64, into: &mut [u8]) -> Result<bool, Failure>
        ensures reads { IfOk result
            (λ whole. IsRange (IsRead F.gave self.now.file at) whole into.new) }
        ensures zeros { IfOk result
            (λ whole. whole ≡ false → into.new ≡ replicate (length into.new) 0) }
        ensures failed { IfErr result (IsSystemFailure
            (IsCallOn SystemCall.Read (Object.File self.now.name))) }
    {
        let read = fill(&self.file, at, into);
        let count = named(SystemCall::Read, Object::File(self.name), read)?;
        Ok(whole_or_zeros(count, into))
    }
}
