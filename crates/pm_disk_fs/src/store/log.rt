//! The segments of the log. Writes to one of them that follow each other are buffered, and handed to the
//! system as one before any other call on the log.

ghost use Rattle.std.specs.Prelude.{◌≡◌, ◌<◌, ◌≤◌, ◌+◌, ◌⊎◌, [], false, length, take, IsTrue, IsErr, OnOk};
ghost use Rattle.std.specs.Prelude.{OnErr, IfOk, IfErr, None, option_map};
ghost use Rattle.std.specs.String.{string_bytes};
ghost use Rattle.pm_disk_fs.specs.Calls.{WasThere, IsMeasuredAt};
ghost use Rattle.pm_disk_fs.specs.Reads.{IsReadAt};
ghost use Rattle.pm_disk_fs.specs.Failures.{IsFailureOn, IsOnFileOrSync, IsOnEither, IsOnEitherOrFolder};
ghost use Rattle.pm_disk_fs.specs.WriteBuffer.{FitsAfter, IsAlone, IsAppended};
ghost use Rattle.pm_disk_fs.specs.Positions.{IsChangedLast, IsWrittenInOrder, IsStretchWritten, IsWritten};
ghost use Rattle.pm_disk_fs.specs.Positions.{ForcesSegment};
ghost use Rattle.pm_disk_fs.specs.OpenFiles.{OthersStayOpen};
ghost use Rattle.pm_disk_fs.specs.Writes.{ChangesLog, FlushesBuffer, PoisonsOnFailure};
ghost use Rattle.pm_disk.specs.declared.names.StoreFile.TheVariants.{Segment};

use crate::calls::{FileCalls, PathCalls, ReadCalls};
use crate::failure::Failure;
use crate::folder::Folder;
use crate::store::Store;
use pm_disk::StoreFile;

impl<R: PathCalls<File: FileCalls> + AllocGlobal + Drop> Store<R> {
    /// Writes what is buffered. Where it can't, or the store is poisoned, what is buffered is kept, so that
    /// each later call on the log fails too.
    pub fn flush(&mut self, folder: &Folder<R>) -> Result<(), Failure>
        ensures writes { FlushesBuffer self.old.writes self.new.writes result }
        ensures wrote { OnOk result (0 < length self.old.writes.buffer.bytes
            → IsStretchWritten R.File.contents self.new.open.files.items self.old.writes.buffer) }
        ensures names { IsTrue self.new.names_last → IsTrue self.old.names_last
            × OnOk result (0 < length self.old.writes.buffer.bytes
            → WasThere R.opened (option_map string_bytes folder.now.dir)
            self.old.open.files.items (Segment self.old.writes.buffer.seg)) }
        ensures idle { self.old.writes.buffer.bytes ≡ [] → self.new.open ≡ self.old.open }
        ensures others { OnOk result (OthersStayOpen self.old.open.files.items
            self.new.open.files.items (Segment self.old.writes.buffer.seg)) }
        ensures kept { OnErr result (self.new.writes.buffer ≡ self.old.writes.buffer) }
        ensures poisoned { IsErr result → IsTrue self.new.writes.is_poisoned }
        ensures failed { IfErr result (IsFailureOn
            (IsOnFileOrSync (Segment self.old.writes.buffer.seg))
            (folder.now.dir ≡ None) (IsTrue self.old.writes.is_poisoned)) }
    {
        if self.writes.buffer.is_empty() {
            return Ok(());
        }
        self.writes.begin()?;
        self.put_buffered(folder)?;
        self.writes.is_poisoned = false;
        Ok(())
    }

    /// The length of a segment's file in bytes, none where it isn't there.
    pub fn seg_len(&mut self, folder: &Folder<R>, seg: u64) -> Result<Option<u64>, Failure>
        ensures measured { IfOk result (λ found. IsMeasuredAt R.missing R.measured
            (option_map string_bytes folder.now.dir) (Segment seg) found) }
        ensures writes { FlushesBuffer self.old.writes self.new.writes result }
        ensures names { IsTrue self.new.names_last → IsTrue self.old.names_last }
        ensures failed { IfErr result (IsFailureOn
            (IsOnEither (Segment seg) (Segment self.old.writes.buffer.seg))
            (folder.now.dir ≡ None) (IsTrue self.old.writes.is_poisoned)) }
    {
        self.flush(folder)?;
        folder.len(StoreFile::Segment(seg))
    }

    /// Writes the bytes into a segment from the offset on: it buffers them, after what is buffered where
    /// they follow that, and otherwise once that was written. What can't be buffered is written.
    pub fn write_log(
        &mut self,
        folder: &Folder<R>,
        seg: u64,
        at: u64,
        bytes: &[u8],
    ) -> Result<(), Failure>
        ensures poisons { PoisonsOnFailure self.old.writes self.new.writes result }
        ensures in_order { OnOk result (IsWrittenInOrder R.File.contents
            self.old.writes.buffer self.new.writes.buffer self.new.open.files.items seg at bytes.now) }
        ensures appended { OnOk result (FitsAfter self.old.writes.buffer seg at bytes.now
            → IsAppended self.old.writes.buffer self.new.writes.buffer seg at bytes.now) }
        ensures names { IsTrue self.new.names_last → IsTrue self.old.names_last }
        ensures failed { IfErr result (IsFailureOn
            (IsOnEither (Segment seg) (Segment self.old.writes.buffer.seg))
            (folder.now.dir ≡ None) (IsTrue self.old.writes.is_poisoned)) }
    {
        self.writes.begin()?;
        // Fails where no folder is bound, also where the bytes would only be buffered.
        let _bound = folder.name()?;
        self.buffer_or_write(folder, seg, at, bytes)?;
        self.writes.is_poisoned = false;
        Ok(())
    }

    /// Cuts the segment to this length in bytes, and makes it where it isn't there.
    pub fn cut_log(&mut self, folder: &Folder<R>, seg: u64, len: u64) -> Result<(), Failure>
        ensures changes { ChangesLog self.old.writes self.new.writes result }
        ensures cut { OnOk result (IsChangedLast self.new.open.files.items (Segment seg)) }
        ensures names { IsTrue self.new.names_last → IsTrue self.old.names_last }
        ensures failed { IfErr result (IsFailureOn
            (IsOnEither (Segment seg) (Segment self.old.writes.buffer.seg))
            (folder.now.dir ≡ None) (IsTrue self.old.writes.is_poisoned)) }
    {
        self.flush(folder)?;
        self.cut(folder, StoreFile::Segment(seg), len)
    }

    /// Makes the segment's bytes and its length lasting, and all names in the folder.
    pub fn force_log(&mut self, folder: &Folder<R>, seg: u64) -> Result<(), Failure>
        ensures changes { ChangesLog self.old.writes self.new.writes result }
        ensures names { OnOk result (IsTrue self.new.names_last) }
        ensures forced { OnOk result (ForcesSegment R.File.contents self.old.writes.buffer
            self.old.open.files.items self.new.open.files.items seg) }
        ensures failed { IfErr result (IsFailureOn
            (IsOnEitherOrFolder (Segment seg) (Segment self.old.writes.buffer.seg))
            (folder.now.dir ≡ None) (IsTrue self.old.writes.is_poisoned)) }
    {
        self.flush(folder)?;
        self.force(folder, StoreFile::Segment(seg))
    }

    /// Removes the segment, where it is there.
    pub fn drop_log(&mut self, folder: &Folder<R>, seg: u64) -> Result<(), Failure>
        ensures changes { ChangesLog self.old.writes self.new.writes result }
        ensures names { OnOk result (self.new.names_last ≡ false) }
        ensures failed { IfErr result (IsFailureOn
            (IsOnEither (Segment seg) (Segment self.old.writes.buffer.seg))
            (folder.now.dir ≡ None) (IsTrue self.old.writes.is_poisoned)) }
    {
        self.flush(folder)?;
        self.remove(folder, StoreFile::Segment(seg))
    }

    // Buffers a write, or writes what is buffered and begins anew with it.
    fn buffer_or_write(
        &mut self,
        folder: &Folder<R>,
        seg: u64,
        at: u64,
        bytes: &[u8],
    ) -> Result<(), Failure>
        ensures in_order { OnOk result (IsWrittenInOrder R.File.contents
            self.old.writes.buffer self.new.writes.buffer self.new.open.files.items seg at bytes.now) }
        ensures appended { OnOk result (FitsAfter self.old.writes.buffer seg at bytes.now
            → IsAppended self.old.writes.buffer self.new.writes.buffer seg at bytes.now) }
        ensures same { self.new.writes.is_poisoned ≡ self.old.writes.is_poisoned }
        ensures names { IsTrue self.new.names_last → IsTrue self.old.names_last }
        ensures failed { IfErr result (IsFailureOn
            (IsOnEither (Segment seg) (Segment self.old.writes.buffer.seg))
            (folder.now.dir ≡ None) ⊥) }
    {
        if self.writes.buffer.add(seg, at, bytes) {
            return Ok(());
        }
        self.put_buffered(folder)?;
        self.begin_buffer(folder, seg, at, bytes)
    }

    // Buffers a write where nothing is buffered, or writes it.
    fn begin_buffer(
        &mut self,
        folder: &Folder<R>,
        seg: u64,
        at: u64,
        bytes: &[u8],
    ) -> Result<(), Failure>
        requires { self.old.writes.buffer.bytes ≡ [] }
        ensures alone { OnOk result
            ((IsAlone self.new.writes.buffer seg at bytes.now
            × (self.new.open.files.items ≡ self.old.open.files.items))
            ⊎ ((self.new.writes.buffer.bytes ≡ [])
            × IsWritten R.File.contents self.new.open.files.items (Segment seg) at bytes.now)) }
        ensures same { self.new.writes.is_poisoned ≡ self.old.writes.is_poisoned }
        ensures names { IsTrue self.new.names_last → IsTrue self.old.names_last }
        ensures failed { IfErr result (IsFailureOn
            (IsOnFileOrSync (Segment seg))
            (folder.now.dir ≡ None) ⊥) }
    {
        if self.writes.buffer.add(seg, at, bytes) {
            return Ok(());
        }
        self.put(folder, StoreFile::Segment(seg), at, bytes)
    }

    // Writes what is buffered, and forgets it then.
    fn put_buffered(&mut self, folder: &Folder<R>) -> Result<(), Failure>
        ensures written { OnOk result (self.new.writes.buffer.bytes ≡ []) }
        ensures wrote { OnOk result (0 < length self.old.writes.buffer.bytes
            → IsStretchWritten R.File.contents self.new.open.files.items self.old.writes.buffer) }
        ensures names { IsTrue self.new.names_last → IsTrue self.old.names_last
            × OnOk result (0 < length self.old.writes.buffer.bytes
            → WasThere R.opened (option_map string_bytes folder.now.dir)
            self.old.open.files.items (Segment self.old.writes.buffer.seg)) }
        ensures idle { self.old.writes.buffer.bytes ≡ [] → self.new.open ≡ self.old.open }
        ensures others { OnOk result (OthersStayOpen self.old.open.files.items
            self.new.open.files.items (Segment self.old.writes.buffer.seg)) }
        ensures kept { OnErr result (self.new.writes.buffer ≡ self.old.writes.buffer) }
        ensures same { self.new.writes.is_poisoned ≡ self.old.writes.is_poisoned }
        ensures failed { IfErr result (IsFailureOn
            (IsOnFileOrSync (Segment self.old.writes.buffer.seg))
            (folder.now.dir ≡ None) ⊥) }
    {
        if self.writes.buffer.is_empty() {
            return Ok(());
        }
        let name = StoreFile::Segment(self.writes.buffer.seg());
        let mut file = self.take(folder, name)?;
        self.writes.buffer.write_to(&mut file)?;
        self.open.keep(file);
        Ok(())
    }
}

impl<R: PathCalls<File: FileCalls + ReadCalls> + AllocGlobal + Drop> Store<R> {
    /// Reads a segment from the offset on until the buffer is full or the file ends, and answers how many
    /// bytes there were.
    pub fn read_log(
        &mut self,
        folder: &Folder<R>,
        seg: u64,
        at: u64,
        into: &mut [u8],
    ) -> Result<usize, Failure>
        ensures bound { IfOk result (λ n. n ≤ length into.new) }
        ensures reads { IfOk result (λ n. IsReadAt R.opened R.missing R.File.gave
            (option_map string_bytes folder.now.dir) (Segment seg) at (length into.new)
            (take n into.new)) }
        ensures writes { FlushesBuffer self.old.writes self.new.writes result }
        ensures names { IsTrue self.new.names_last → IsTrue self.old.names_last }
        ensures failed { IfErr result (IsFailureOn
            (IsOnEither (Segment seg) (Segment self.old.writes.buffer.seg))
            (folder.now.dir ≡ None) (IsTrue self.old.writes.is_poisoned)) }
    {
        self.flush(folder)?;
        folder.read(StoreFile::Segment(seg), at, into)
    }
}
