//! The host over the process's files and standard streams.

ghost use Rattle.std.specs.Prelude.{◌≡◌, ◌≤◌, ◌↔◌, [], ◌∷◌, true, false, length, take, map, vec_len, refl};
ghost use Rattle.std.specs.Prelude.{Ok, None, Some, IsTrue, IsErr, IsNone, IsSome, IfOk, OnOk, OnErr};
ghost use Rattle.std.specs.Prelude.{◌+◌, ◌⊎◌, All, replicate, Err, IfErr};
ghost use Rattle.std.specs.Io.KnownBytes.{ReadConsumes};
ghost use Rattle.std.specs.Option.{option_copied};
ghost use Rattle.pm_types.specs.declared.limits.TheConstants.{PAGE_SIZE_MAX};
ghost use Rattle.pm_disk.specs.States.{HasCause, Binds, BindsFound};
ghost use Rattle.pm_disk.specs.Moments.{nothing_told};
ghost use Rattle.pm_disk_fs.specs.WriteBuffer.{IsBufferedOrWritten, FitsAfter, IsAppended};
ghost use Rattle.pm_disk_fs.specs.Writes.{ChangesFile, ChangesLog, FlushesBuffer, PoisonsOnFailure};
ghost use Rattle.pm_disk.specs.Lending.{reader_lent, PartsLent, Lends, TakesBack};
ghost use Rattle.pm_disk.specs.declared.names.StoreFile.TheVariants.{Config, Marks, Segment, Pages};
ghost use Rattle.pm_types.specs.Ids.{part_of_id};
ghost use Rattle.pm_disk_fs.specs.Calls.{IsBoundTo, IsMeasuredAt};
ghost use Rattle.pm_disk_fs.specs.Reads.{IsReadAt, IsRange};
ghost use Rattle.pm_disk_fs.specs.Failures.{IsOnFile, IsCallOn, IsOnFileOrSync, IsOnFileOrFolder};
ghost use Rattle.pm_disk_fs.specs.Failures.{IsOnEither, IsOnEitherOrFolder};
ghost use Rattle.pm_disk_fs.specs.Host.{state_of, IsHostFailure, IsBindFailure, IsPrintFailure};
ghost use Rattle.pm_disk_fs.specs.Host.{KeepsFirstFailure};
ghost use Rattle.pm_disk_fs.specs.OpenViews.{WrittenLast, ChangedLast, ForcedLast, NoneOpen, SegmentForced};
ghost use Rattle.pm_disk.specs.Worlds.{page_at, slot_at};
ghost use Rattle.pm_disk_fs.specs.Parts.{state_of_part, state_of_reader};

use crate::calls::{FileCalls, PathCalls, ReadCalls, SameCalls};
use crate::failure::{Failure, Object, SystemCall, named};
use crate::faults::Faults;
use crate::folder::Folder;
use crate::lock::Lockable;
use crate::part::FsPart;
use crate::paths::IfMissing;
use crate::reader::FsReader;
use crate::reading::read_some;
use crate::split::join_readers;
use crate::store::Store;
use pm_disk::{
    Device, Failed, Host, Lent, LogFile, LogReader, MarkFile, PageReader, PageWriter, SLOT_LEN,
    StoreFile,
};
use pm_types::PageId;
use std::alloc::AllocError;
use std::marker::Model;
use std::rt::Files;

/// Disk and console of the process, whose content no contract can observe. A clause sees how often a call
/// has failed and the first failure, which folder is bound, whether a change or a force of a file has
/// failed, what of the log isn't with the system yet, which files are open since they were changed, where
/// the last write to each ended and whether it was forced since, and what is left of the input where its
/// reader reports that.
#[derive(Drop)]
pub struct FsHost<R: Files + Input + Drop> {
    pub(crate) folder: Folder<R>,
    // Kept, since each new reader would ask the system whether the input can seek.
    input: R::Reader,
    store: Store<R>,
    faults: Faults,
    is_lent: bool,
    // The open folder, locked for as long as it is bound.
    lock: Option<R::File>,
}

impl<R: Files + Input + Drop> Model for FsHost<R> {
    ghost use Rattle.std.specs.Prelude.{option_map, IsSome};
    ghost use Rattle.std.specs.String.{string_bytes};
    ghost use Rattle.pm_disk_fs.specs.Host.{HostView};
    ghost use Rattle.pm_disk_fs.specs.OpenViews.{open_views};

    ghost Value = { HostView };

    ghost view = { λ host. record {
      faults = host.faults.count;
      first = host.faults.first;
      is_lent = host.is_lent;
      folder = option_map string_bytes host.folder.dir;
      made = host.folder.made;
      writes = host.store.writes;
      files = open_views host.store.open.files.items;
      input = R.Reader.remaining host.input;
    } };

    ghost invariant = { λ host. IsSome host.folder.dir → IsSome host.lock };
}

impl<R: Files + Input + Print + AllocGlobal + Clone + Send + Drop> FsHost<R> {
    /// A host whose calls haven't failed yet, and that is bound to no folder.
    pub fn new(rt: R) -> FsHost<R>
        ensures unfailed { result.faults ≡ 0 }
        ensures unbound { result.folder ≡ None }
        ensures none_made { result.made ≡ 0 }
        ensures whole { result.is_lent ≡ false }
        ensures sound { result.writes.is_poisoned ≡ false }
        ensures empty { result.writes.buffer.bytes ≡ [] }
    {
        let input = rt.reader();
        let store = Store::new(rt.alloc());
        FsHost {
            folder: Folder::new(rt),
            input,
            store,
            faults: Faults::new(),
            is_lent: false,
            lock: None,
        }
    }
}

impl<R: Files + Input + Drop> FsHost<R> {
    /// Why the first call failed of those that did, none where none has.
    pub fn first_failure(&self) -> Option<&Failure>
        ensures first { option_copied result ≡ self.now.first }
        ensures none { IsNone result ↔ (self.now.faults ≡ 0) }
    {
        self.faults.first()
    }

    // What a call made, a failure of it counted.
    fn counted<T>(&mut self, made: Result<T, Failure>) -> Result<T, Failed>
        ensures cause { HasCause (state_of self.old) (state_of self.new) result }
        ensures first { KeepsFirstFailure (λ failure. made ≡ Err failure) self.old self.new result }
        ensures writes { self.new.writes ≡ self.old.writes }
        ensures input { self.new.input ≡ self.old.input }
        ensures files { self.new.files ≡ self.old.files }
        ensures value { IfOk result (λ v. made ≡ Ok v) }
        ensures error { IsErr result → IsErr made }
    {
        self.faults.counted(made)
    }
}

impl<R: PathCalls<File: Lockable + FileCalls + SameCalls> + Input + AllocGlobal + Drop> FsHost<R> {
    // Binds the folder and locks it, after all that is left to do in the one that is bound.
    fn rebind(&mut self, dir: &str, missing: IfMissing) -> Result<(), Failure>
        ensures faults { self.new.faults ≡ self.old.faults }
        ensures first { self.new.first ≡ self.old.first }
        ensures bound { OnOk result (self.new.folder ≡ Some dir.now) }
        ensures lasts { missing ≡ IfMissing.Make → OnOk result (IsBoundTo R.opened R.File.synced
            self.new.folder dir.now) }
        ensures counted { self.old.made ≤ self.new.made }
        ensures none_made { missing ≡ IfMissing.Fail → self.new.made ≡ self.old.made }
        ensures unchanged { OnErr result (self.new.folder ≡ self.old.folder) }
        ensures writes { FlushesBuffer self.old.writes self.new.writes result }
        ensures refused { IsTrue self.old.writes.is_poisoned → IsErr result }
        ensures is_lent { self.new.is_lent ≡ self.old.is_lent }
        ensures failed { IfErr result (λ failure. IsBindFailure self.old failure
            ((file : R.File) × R.File.may_be_held file)) }
    {
        self.store.leave(&self.folder)?;
        if let Some(lock) = self.folder.bind(dir, missing, &self.lock)? {
            self.lock = Some(lock);
        }
        Ok(())
    }
}

impl<R: Files + Input + Drop> Device for FsHost<R> {
    ghost tells = { ⊥ };

    ghost history = { λ _. nothing_told };

    ghost state = { state_of };

    ghost sound = { λ _ tells. absurd tells };
}

/// What is buffered is written first. Where that fails, the call fails, and so does each later one on the
/// log.
impl<R: PathCalls<File: FileCalls + ReadCalls> + Input + AllocGlobal + Drop> LogReader
    for FsHost<R> {
    fn seg_len(&mut self, seg: u64) -> Result<Option<u64>, Failed>
        ensures measured { IfOk result (λ found. IsMeasuredAt R.missing R.measured
            self.old.folder (Segment seg) found) }
        ensures cause { HasCause (state_of self.old) (state_of self.new) result }
        ensures first { KeepsFirstFailure (IsHostFailure self.old
            (IsOnEither (Segment seg) (Segment self.old.writes.buffer.seg))) self.old self.new result }
        ensures writes { FlushesBuffer self.old.writes self.new.writes result }
    {
        let len = self.store.seg_len(&self.folder, seg);
        self.counted(len)
    }

    fn read_log(&mut self, seg: u64, at: u64, into: &mut [u8]) -> Result<usize, Failed>
        ensures reads { IfOk result (λ n. IsReadAt R.opened R.missing R.File.gave
            self.old.folder (Segment seg) at (length into.new) (take n into.new)) }
        ensures cause { HasCause (state_of self.old) (state_of self.new) result }
        ensures first { KeepsFirstFailure (IsHostFailure self.old
            (IsOnEither (Segment seg) (Segment self.old.writes.buffer.seg))) self.old self.new result }
        ensures bound { IfOk result (λ n. n ≤ length into.new) }
        ensures writes { FlushesBuffer self.old.writes self.new.writes result }
    {
        let count = self.store.read_log(&self.folder, seg, at, into);
        self.counted(count)
    }
}

/// Where a change or a force of a file has failed, the host is poisoned and each later one fails: nobody
/// knows then what the disk holds.
impl<R: PathCalls<File: FileCalls + ReadCalls> + Input + AllocGlobal + Drop> LogFile for FsHost<R> {
    /// It may buffer the bytes. What is buffered is written before another call on the log, so a write that
    /// the system refuses may be a failure of that call. The file is made then too.
    fn write_log(&mut self, seg: u64, at: u64, bytes: &[u8]) -> Result<(), Failed>
        ensures cause { HasCause (state_of self.old) (state_of self.new) result }
        ensures first { KeepsFirstFailure (IsHostFailure self.old
            (IsOnEither (Segment seg) (Segment self.old.writes.buffer.seg))) self.old self.new result }
        ensures poisons { PoisonsOnFailure self.old.writes self.new.writes result }
        ensures in_order { OnOk result (IsBufferedOrWritten self.old.writes.buffer
            self.new.writes.buffer seg at bytes.now) }
        ensures appended { OnOk result (FitsAfter self.old.writes.buffer seg at bytes.now
            → IsAppended self.old.writes.buffer self.new.writes.buffer seg at bytes.now) }
    {
        let written = self.store.write_log(&self.folder, seg, at, bytes);
        self.counted(written)
    }

    fn cut_log(&mut self, seg: u64, len: u64) -> Result<(), Failed>
        ensures cause { HasCause (state_of self.old) (state_of self.new) result }
        ensures first { KeepsFirstFailure (IsHostFailure self.old
            (IsOnEither (Segment seg) (Segment self.old.writes.buffer.seg))) self.old self.new result }
        ensures changes { ChangesLog self.old.writes self.new.writes result }
        ensures cut { OnOk result (ChangedLast self.new.files (Segment seg)) }
    {
        let cut = self.store.cut_log(&self.folder, seg, len);
        self.counted(cut)
    }

    /// It makes the names of all files lasting too.
    fn force_log(&mut self, seg: u64) -> Result<(), Failed>
        ensures cause { HasCause (state_of self.old) (state_of self.new) result }
        ensures first { KeepsFirstFailure (IsHostFailure self.old
            (IsOnEitherOrFolder (Segment seg) (Segment self.old.writes.buffer.seg))) self.old self.new result }
        ensures changes { ChangesLog self.old.writes self.new.writes result }
        ensures forced { OnOk result (SegmentForced self.old.writes.buffer self.old.files
            self.new.files seg) }
    {
        let forced = self.store.force_log(&self.folder, seg);
        self.counted(forced)
    }
}

impl<R: PathCalls<File: FileCalls + ReadCalls> + Input + AllocGlobal + Drop> PageReader
    for FsHost<R> {
    fn read_page(&mut self, page: PageId, into: &mut [u8]) -> Result<bool, Failed>
        requires { length into.old ≤ PAGE_SIZE_MAX }
        ensures reads { IfOk result (λ whole. IsRange (IsReadAt R.opened R.missing R.File.gave
            self.old.folder (Pages (part_of_id page)) (page_at page (length into.new)))
            whole into.new) }
        ensures cause { HasCause (state_of self.old) (state_of self.new) result }
        ensures first { KeepsFirstFailure (IsHostFailure self.old
            (IsOnFile (Pages (part_of_id page)))) self.old self.new result }
        ensures writes { self.new.writes ≡ self.old.writes }
        ensures zeros { IfOk result
            (λ whole. whole ≡ false → into.new ≡ replicate (length into.new) 0) }
    {
        let at = page.index() as u64 * into.len() as u64;
        let name = StoreFile::Pages(page.part());
        let is_whole = self.folder.read_whole(name, at, into);
        self.counted(is_whole)
    }
}

/// Where a change or a force of a file has failed, the host is poisoned and each later one fails.
impl<R: Files + Input + AllocGlobal + Drop> PageWriter for FsHost<R> {
    /// What a file system leaves in a gap is zeros.
    fn write_page(&mut self, page: PageId, bytes: &[u8]) -> Result<(), Failed>
        requires { length bytes.now ≤ PAGE_SIZE_MAX }
        ensures cause { HasCause (state_of self.old) (state_of self.new) result }
        ensures first { KeepsFirstFailure (IsHostFailure self.old
            (IsOnFileOrSync (Pages (part_of_id page)))) self.old self.new result }
        ensures changes { ChangesFile self.old.writes self.new.writes result }
        ensures wrote { OnOk result (WrittenLast self.new.files (Pages (part_of_id page))
            (page_at page (length bytes.now) + length bytes.now)) }
    {
        let at = page.index() as u64 * bytes.len() as u64;
        let name = StoreFile::Pages(page.part());
        let written = self.store.write(&self.folder, name, at, bytes);
        self.counted(written)
    }

    /// It makes the names of all files lasting too.
    fn force_pages(&mut self, part: u16) -> Result<(), Failed>
        ensures cause { HasCause (state_of self.old) (state_of self.new) result }
        ensures first { KeepsFirstFailure (IsHostFailure self.old
            (IsOnFileOrFolder (Pages part))) self.old self.new result }
        ensures changes { ChangesFile self.old.writes self.new.writes result }
        ensures forced { OnOk result (NoneOpen self.old.files (Pages part)
            ⊎ ForcedLast self.new.files (Pages part)) }
    {
        let forced = self.store.force(&self.folder, StoreFile::Pages(part));
        self.counted(forced)
    }
}

impl<
    R: PathCalls<File: Send + Lockable + FileCalls + ReadCalls + SameCalls>
        + Input
        + Print
        + AllocGlobal
        + Clone
        + Send
        + Drop,
> Host for FsHost<R> {
    type Reader = FsReader<R>;

    type Writer = FsPart<R>;

    type Log = FsPart<R>;

    /// Makes the folders above it too, and its name lasting. A file of that name is a failure. The folder is
    /// locked for as long as it is bound: where another run has it, or another host, the call fails, and
    /// nothing in the folder was read or changed. What is left to do in the folder that is bound comes
    /// first: what is buffered is written, and each file and name that isn't lasting is forced. Where that
    /// fails, or the host is poisoned, that folder stays bound.
    fn bind(&mut self, dir: &str) -> Result<(), Failed>
        ensures binds { Binds (state_of self.old) (state_of self.new) dir.now result }
        ensures bound { OnOk result (IsBoundTo R.opened R.File.synced self.new.folder dir.now) }
        ensures first { KeepsFirstFailure (λ failure. IsBindFailure self.old failure
            ((file : R.File) × R.File.may_be_held file)) self.old self.new result }
        ensures writes { FlushesBuffer self.old.writes self.new.writes result }
        ensures refused { IsTrue self.old.writes.is_poisoned → IsErr result }
    {
        let bound = self.rebind(dir, IfMissing::Make);
        self.counted(bound)
    }

    /// As `bind`, but where no folder of this name is there the call fails, and the folder's name isn't made
    /// lasting. It makes nothing, whatever comes of it.
    fn bind_found(&mut self, dir: &str) -> Result<(), Failed>
        ensures binds { BindsFound (state_of self.old) (state_of self.new) dir.now result }
        ensures first { KeepsFirstFailure (λ failure. IsBindFailure self.old failure
            ((file : R.File) × R.File.may_be_held file)) self.old self.new result }
        ensures writes { FlushesBuffer self.old.writes self.new.writes result }
        ensures refused { IsTrue self.old.writes.is_poisoned → IsErr result }
    {
        let bound = self.rebind(dir, IfMissing::Fail);
        self.counted(bound)
    }

    fn read_config(&mut self, into: &mut [u8]) -> Result<usize, Failed>
        ensures reads { IfOk result (λ n. IsReadAt R.opened R.missing R.File.gave
            self.old.folder Config 0 (length into.new) (take n into.new)) }
        ensures cause { HasCause (state_of self.old) (state_of self.new) result }
        ensures first { KeepsFirstFailure (IsHostFailure self.old
            (IsOnFile Config)) self.old self.new result }
        ensures bound { IfOk result (λ n. n ≤ length into.new) }
        ensures writes { self.new.writes ≡ self.old.writes }
    {
        let count = self.folder.read(StoreFile::Config, 0, into);
        self.counted(count)
    }

    fn drop_log(&mut self, seg: u64) -> Result<(), Failed>
        ensures cause { HasCause (state_of self.old) (state_of self.new) result }
        ensures first { KeepsFirstFailure (IsHostFailure self.old
            (IsOnEither (Segment seg) (Segment self.old.writes.buffer.seg))) self.old self.new result }
        ensures changes { ChangesLog self.old.writes self.new.writes result }
    {
        let removed = self.store.drop_log(&self.folder, seg);
        self.counted(removed)
    }

    fn read_mark(
        &mut self,
        file: MarkFile,
        slot: u8,
        into: &mut [u8; SLOT_LEN],
    ) -> Result<bool, Failed>
        ensures reads { IfOk result (λ whole. IsRange (IsReadAt R.opened R.missing R.File.gave
            self.old.folder (Marks file) (slot_at slot)) whole into.new) }
        ensures cause { HasCause (state_of self.old) (state_of self.new) result }
        ensures first { KeepsFirstFailure (IsHostFailure self.old
            (IsOnFile (Marks file))) self.old self.new result }
        ensures writes { self.new.writes ≡ self.old.writes }
        ensures zeros { IfOk result
            (λ whole. whole ≡ false → into.new ≡ replicate (length into.new) 0) }
    {
        let at = slot as u64 * SLOT_LEN as u64;
        let name = StoreFile::Marks(file);
        let is_whole = self.folder.read_whole(name, at, into);
        self.counted(is_whole)
    }

    /// What a file system leaves in a gap is zeros.
    fn write_mark(&mut self, file: MarkFile, slot: u8, bytes: &[u8; SLOT_LEN]) -> Result<(), Failed>
        ensures cause { HasCause (state_of self.old) (state_of self.new) result }
        ensures first { KeepsFirstFailure (IsHostFailure self.old
            (IsOnFileOrSync (Marks file))) self.old self.new result }
        ensures changes { ChangesFile self.old.writes self.new.writes result }
        ensures wrote { OnOk result (WrittenLast self.new.files (Marks file)
            (slot_at slot + SLOT_LEN)) }
    {
        let at = slot as u64 * SLOT_LEN as u64;
        let name = StoreFile::Marks(file);
        let written = self.store.write(&self.folder, name, at, bytes);
        self.counted(written)
    }

    /// It makes the names of all files lasting too.
    fn force_mark(&mut self, file: MarkFile) -> Result<(), Failed>
        ensures cause { HasCause (state_of self.old) (state_of self.new) result }
        ensures first { KeepsFirstFailure (IsHostFailure self.old
            (IsOnFileOrFolder (Marks file))) self.old self.new result }
        ensures changes { ChangesFile self.old.writes self.new.writes result }
        ensures forced { OnOk result (NoneOpen self.old.files (Marks file)
            ⊎ ForcedLast self.new.files (Marks file)) }
    {
        let forced = self.store.force(&self.folder, StoreFile::Marks(file));
        self.counted(forced)
    }

    /// One system call, and more where signals interrupt it. No byte is kept back, since the reader is asked
    /// for nothing else.
    fn read(&mut self, into: &mut [u8]) -> Result<usize, Failed>
        ensures cause { HasCause (state_of self.old) (state_of self.new) result }
        ensures first { KeepsFirstFailure (IsHostFailure self.old
            (IsCallOn SystemCall.Read Object.Input)) self.old self.new result }
        ensures bound { IfOk result (λ n. n ≤ length into.new) }
        ensures taken { ReadConsumes self.old.input self.new.input result into.new }
        ensures writes { self.new.writes ≡ self.old.writes }
    {
        let taken = read_some(&mut self.input, into);
        self.counted(named(SystemCall::Read, Object::Input, taken))
    }

    /// One system call where the system takes all bytes at once; what it left is written next.
    /// Where it takes nothing, or nobody reads any more, the call fails.
    fn print(&mut self, bytes: &[u8]) -> Result<(), Failed>
        ensures cause { HasCause (state_of self.old) (state_of self.new) result }
        ensures first { KeepsFirstFailure (IsPrintFailure self.old) self.old self.new result }
        ensures writes { self.new.writes ≡ self.old.writes }
        ensures silent { self.old.is_lent ≡ true → IsErr result }
    {
        if self.is_lent {
            return self.counted(Err(Failure::Lent));
        }
        let said = self.folder.rt.write_all(bytes);
        self.counted(named(SystemCall::Write, Object::Output, said))
    }

    /// What is buffered goes with the log part, and the files that are open since they were changed with
    /// the part that changes them. A host that is poisoned has poisoned parts.
    fn lend(
        &mut self,
        due: &[PageId],
        workers: u32,
    ) -> Result<Lent<FsReader<R>, FsPart<R>, FsPart<R>>, AllocError>
        ensures lends { Lends (state_of self.old) (state_of self.new) result }
        ensures many { IfOk result (λ lent. vec_len lent.readers ≡ workers) }
        ensures parts { IfOk result (λ lent. PartsLent due.now (state_of self.old) state_of_reader
            lent.readers.items (state_of_part lent.writer) (state_of_part lent.log)) }
        ensures buffered { IfOk result (λ lent. lent.log.writes ≡ self.old.writes) }
        ensures poisoned { IfOk result (λ lent.
            lent.writer.writes.is_poisoned ≡ self.old.writes.is_poisoned) }
        ensures first { self.new.first ≡ self.old.first }
        ensures unchanged { OnErr result (self.new.writes ≡ self.old.writes) }
    {
        let alloc = self.folder.rt.alloc();
        let pages = Vec::from_slice(alloc, due)?;
        let none = Vec::new(alloc);
        let readers = self.readers(&pages, workers)?;
        let (log_folder, page_folder) = (self.folder.copy()?, self.folder.copy()?);
        let (log, writer) = self.store.split(alloc)?;
        self.is_lent = true;
        Ok(Lent {
            readers,
            writer: FsPart::new(page_folder, writer, &pages),
            log: FsPart::new(log_folder, log, &none),
        })
    }

    /// It is poisoned where a part is, and has what is buffered back.
    fn take_back(&mut self, lent: Lent<FsReader<R>, FsPart<R>, FsPart<R>>)
        ensures returns { TakesBack (state_of self.old) (state_of self.new)
            (state_of_part lent.log ∷ state_of_part lent.writer
            ∷ map (λ reader. state_of_reader reader) lent.readers.items) }
        ensures buffered { self.new.writes.buffer ≡ lent.log.writes.buffer }
        ensures poisoned { IsTrue self.old.writes.is_poisoned → IsTrue self.new.writes.is_poisoned }
        ensures log_poisoned { IsTrue lent.log.writes.is_poisoned
            → IsTrue self.new.writes.is_poisoned }
        ensures writer_poisoned { IsTrue lent.writer.writes.is_poisoned
            → IsTrue self.new.writes.is_poisoned }
        ensures kept { IsSome self.old.first → self.new.first ≡ self.old.first }
    {
        let Lent {
            readers,
            writer,
            log,
        } = lent;
        self.faults.join(&log.faults);
        self.faults.join(&writer.faults);
        join_readers(&mut self.faults, &readers);
        self.store.join(log.store, writer.store);
        self.is_lent = false;
    }

    ghost parts_tell = { (
      (λ no. absurd no, λ no. absurd no),
      (λ no. absurd no, λ no. absurd no),
      (λ no. absurd no, λ no. absurd no),
    ) };

    ghost all_pages = { λ _. record { reads = λ _. refl; writes = λ _. refl } };
}
