//! A part of the host over files that has the log, or that writes pages.

ghost use Rattle.std.specs.Prelude.{◌≡◌, ◌≤◌, ◌+◌, ◌⊎◌, length, take, option_map, Ok, Err, IsErr, IfOk, OnOk};
ghost use Rattle.std.specs.String.{string_bytes};
ghost use Rattle.pm_types.specs.declared.limits.TheConstants.{PAGE_SIZE_MAX};
ghost use Rattle.pm_disk.specs.Moments.{nothing_told};
ghost use Rattle.pm_disk.specs.States.{HasCause};
ghost use Rattle.pm_types.specs.Ids.{part_of_id};
ghost use Rattle.pm_disk.specs.declared.names.StoreFile.TheVariants.{Segment, Pages};
ghost use Rattle.pm_disk_fs.specs.Calls.{IsMeasuredAt};
ghost use Rattle.pm_disk_fs.specs.Reads.{IsReadAt};
ghost use Rattle.pm_disk_fs.specs.Failures.{IsOnFileOrSync, IsOnFileOrFolder, IsOnEither};
ghost use Rattle.pm_disk_fs.specs.Failures.{IsOnEitherOrFolder};
ghost use Rattle.pm_disk_fs.specs.Faults.{KeepsFirst};
ghost use Rattle.pm_disk_fs.specs.Parts.{state_of_part, IsPartFailure};
ghost use Rattle.pm_disk_fs.specs.OpenViews.{WrittenLast, ChangedLast, ForcedLast, NoneOpen, SegmentForced};
ghost use Rattle.pm_disk_fs.specs.OpenViews.{open_views};
ghost use Rattle.pm_disk.specs.Worlds.{page_at};
ghost use Rattle.pm_disk_fs.specs.WriteBuffer.{IsBufferedOrWritten, FitsAfter, IsAppended};
ghost use Rattle.pm_disk_fs.specs.Writes.{ChangesFile, ChangesLog, FlushesBuffer, PoisonsOnFailure};

use crate::calls::{FileCalls, PathCalls, ReadCalls};
use crate::failure::Failure;
use crate::faults::Faults;
use crate::folder::Folder;
use crate::store::Store;
use pm_disk::{Device, Failed, LogFile, LogReader, PageWriter, StoreFile};
use pm_types::PageId;
use std::marker::Model;
use std::rt::Files;
use std::snapshot::Snapshot;

/// The log, or the partitions' files, with those of them open that were changed. A clause sees what the
/// one of the host shows.
#[derive(Drop)]
pub struct FsPart<R: Files + Drop> {
    pub(crate) folder: Folder<R>,
    pub(crate) store: Store<R>,
    pub(crate) faults: Faults,
    // The pages that it may write.
    pub(crate) due: Snapshot<Vec<PageId>>,
}

impl<R: Files + Drop> Model for FsPart<R> {
    ghost use Rattle.std.specs.Prelude.{option_map};
    ghost use Rattle.std.specs.String.{string_bytes};
    ghost use Rattle.pm_disk_fs.specs.Parts.{PartView};
    ghost use Rattle.pm_disk_fs.specs.OpenViews.{open_views};

    ghost Value = { PartView };

    ghost view = { λ part. record {
      faults = part.faults;
      folder = option_map string_bytes part.folder.dir;
      due = part.due.value.items;
      writes = part.store.writes;
      files = open_views part.store.open.files.items;
    } };
}

impl<R: Files + Drop> FsPart<R> {
    /// A part that was lent just now.
    pub fn new(folder: Folder<R>, store: Store<R>, due: &Vec<PageId>) -> FsPart<R>
        ensures folder { result.folder ≡ option_map string_bytes folder.dir }
        ensures writes { result.writes ≡ store.writes }
        ensures files { result.files ≡ open_views store.open.files.items }
        ensures unfailed { result.faults.count ≡ 0 }
        ensures due { result.due ≡ due.now.items }
    {
        FsPart {
            folder,
            store,
            faults: Faults::new(),
            due: Snapshot::of(due),
        }
    }

    // What a call made, a failure of it counted.
    fn counted<T>(&mut self, made: Result<T, Failure>) -> Result<T, Failed>
        ensures cause { HasCause (state_of_part self.old) (state_of_part self.new) result }
        ensures first { KeepsFirst (λ failure. made ≡ Err failure)
            self.old.faults self.new.faults result }
        ensures writes { self.new.writes ≡ self.old.writes }
        ensures files { self.new.files ≡ self.old.files }
        ensures value { IfOk result (λ v. made ≡ Ok v) }
        ensures error { IsErr result → IsErr made }
    {
        self.faults.counted(made)
    }
}

impl<R: Files + Drop> Device for FsPart<R> {
    ghost tells = { ⊥ };

    ghost history = { λ _. nothing_told };

    ghost state = { state_of_part };

    ghost sound = { λ _ tells. absurd tells };
}

/// What is buffered is written first, as on the host.
impl<R: PathCalls<File: FileCalls + ReadCalls> + AllocGlobal + Drop> LogReader for FsPart<R> {
    fn seg_len(&mut self, seg: u64) -> Result<Option<u64>, Failed>
        ensures measured { IfOk result (λ found. IsMeasuredAt R.missing R.measured
            self.old.folder (Segment seg) found) }
        ensures cause { HasCause (state_of_part self.old) (state_of_part self.new) result }
        ensures first { KeepsFirst (IsPartFailure self.old
            (IsOnEither (Segment seg) (Segment self.old.writes.buffer.seg)))
            self.old.faults self.new.faults result }
        ensures writes { FlushesBuffer self.old.writes self.new.writes result }
    {
        let len = self.store.seg_len(&self.folder, seg);
        self.counted(len)
    }

    fn read_log(&mut self, seg: u64, at: u64, into: &mut [u8]) -> Result<usize, Failed>
        ensures cause { HasCause (state_of_part self.old) (state_of_part self.new) result }
        ensures first { KeepsFirst (IsPartFailure self.old
            (IsOnEither (Segment seg) (Segment self.old.writes.buffer.seg)))
            self.old.faults self.new.faults result }
        ensures bound { IfOk result (λ n. n ≤ length into.new) }
        ensures reads { IfOk result (λ n. IsReadAt R.opened R.missing R.File.gave
            self.old.folder (Segment seg) at (length into.new) (take n into.new)) }
        ensures writes { FlushesBuffer self.old.writes self.new.writes result }
    {
        let count = self.store.read_log(&self.folder, seg, at, into);
        self.counted(count)
    }
}

/// Where a change or a force of a file has failed, the part is poisoned and each later one fails, and so
/// is the host from when the part is back.
impl<R: PathCalls<File: FileCalls + ReadCalls> + AllocGlobal + Drop> LogFile for FsPart<R> {
    fn write_log(&mut self, seg: u64, at: u64, bytes: &[u8]) -> Result<(), Failed>
        ensures cause { HasCause (state_of_part self.old) (state_of_part self.new) result }
        ensures first { KeepsFirst (IsPartFailure self.old
            (IsOnEither (Segment seg) (Segment self.old.writes.buffer.seg)))
            self.old.faults self.new.faults result }
        ensures poisons { PoisonsOnFailure self.old.writes self.new.writes result }
        ensures in_order { OnOk result (IsBufferedOrWritten self.old.writes.buffer
            self.new.writes.buffer seg at bytes.now) }
        ensures appended { OnOk result (FitsAfter self.old.writes.buffer seg at bytes.now
            → IsAppended self.old.writes.buffer self.new.writes.buffer seg at bytes.now) }
    {
        let written = self.store.write_log(&self.folder, seg, at, bytes);
        self.counted(written)
    }

    fn cut_log(&mut self, seg: u64, len: u64) -> Result<(), Failed>
        ensures cause { HasCause (state_of_part self.old) (state_of_part self.new) result }
        ensures first { KeepsFirst (IsPartFailure self.old
            (IsOnEither (Segment seg) (Segment self.old.writes.buffer.seg)))
            self.old.faults self.new.faults result }
        ensures changes { ChangesLog self.old.writes self.new.writes result }
        ensures cut { OnOk result (ChangedLast self.new.files (Segment seg)) }
    {
        let cut = self.store.cut_log(&self.folder, seg, len);
        self.counted(cut)
    }

    /// It makes the names of all files lasting too.
    fn force_log(&mut self, seg: u64) -> Result<(), Failed>
        ensures cause { HasCause (state_of_part self.old) (state_of_part self.new) result }
        ensures first { KeepsFirst (IsPartFailure self.old
            (IsOnEitherOrFolder (Segment seg) (Segment self.old.writes.buffer.seg)))
            self.old.faults self.new.faults result }
        ensures changes { ChangesLog self.old.writes self.new.writes result }
        ensures forced { OnOk result (SegmentForced self.old.writes.buffer self.old.files
            self.new.files seg) }
    {
        let forced = self.store.force_log(&self.folder, seg);
        self.counted(forced)
    }
}

/// Where a change or a force of a file has failed, the part is poisoned and each later one fails, and so
/// is the host from when the part is back.
impl<R: Files + AllocGlobal + Drop> PageWriter for FsPart<R> {
    /// What a file system leaves in a gap is zeros.
    fn write_page(&mut self, page: PageId, bytes: &[u8]) -> Result<(), Failed>
        requires { length bytes.now ≤ PAGE_SIZE_MAX }
        ensures cause { HasCause (state_of_part self.old) (state_of_part self.new) result }
        ensures first { KeepsFirst (IsPartFailure self.old
            (IsOnFileOrSync (Pages (part_of_id page))))
            self.old.faults self.new.faults result }
        ensures changes { ChangesFile self.old.writes self.new.writes result }
        ensures wrote { OnOk result (WrittenLast self.new.files (Pages (part_of_id page))
            (page_at page (length bytes.now) + length bytes.now)) }
    {
        let at = page.index() as u64 * bytes.len() as u64;
        let name = StoreFile::Pages(page.part());
        let written = self.store.write(&self.folder, name, at, bytes);
        self.counted(written)
    }

    /// It makes the names of all files lasting too.
    fn force_pages(&mut self, part: u16) -> Result<(), Failed>
        ensures cause { HasCause (state_of_part self.old) (state_of_part self.new) result }
        ensures first { KeepsFirst (IsPartFailure self.old
            (IsOnFileOrFolder (Pages part)))
            self.old.faults self.new.faults result }
        ensures changes { ChangesFile self.old.writes self.new.writes result }
        ensures forced { OnOk result (NoneOpen self.old.files (Pages part)
            ⊎ ForcedLast self.new.files (Pages part)) }
    {
        let forced = self.store.force(&self.folder, StoreFile::Pages(part));
        self.counted(forced)
    }
}
