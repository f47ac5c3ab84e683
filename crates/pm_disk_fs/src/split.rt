//! The readers of a host over files, and their failures.

ghost use Rattle.std.specs.Prelude.{◌≡◌, ◌≤◌, ◌<◌, map, vec_len, option_map, IfOk, IsSome, All};
ghost use Rattle.pm_types.specs.Counts.{HasRisen};
ghost use Rattle.pm_disk.specs.Lending.{faults_among, reader_lent};
ghost use Rattle.pm_disk_fs.specs.Host.{state_of};
ghost use Rattle.pm_disk_fs.specs.Parts.{state_of_reader};

use crate::calls::{FileCalls, PathCalls};
use crate::faults::Faults;
use crate::host::FsHost;
use crate::open_files::OpenFiles;
use crate::reader::FsReader;
use pm_types::PageId;
use std::alloc::AllocError;
use std::snapshot::Snapshot;

impl<R: PathCalls<File: FileCalls> + Input + AllocGlobal + Clone + Drop> FsHost<R> {
    /// A reader for each worker, with no file open yet.
    pub(crate) fn readers(
        &self,
        due: &Vec<PageId>,
        workers: u32,
    ) -> Result<Vec<FsReader<R>>, AllocError>
        ensures many { IfOk result (λ readers. vec_len readers ≡ workers) }
        ensures each { IfOk result (λ readers. All (λ reader. state_of_reader reader
            ≡ reader_lent due.now.items (state_of self.now)) readers.items) }
    {
        let mut readers = Vec::new(self.folder.rt.alloc());
        for _ in 0..workers {
            readers.push(self.reader(due)?)?;
        }
        Ok(readers)
    }

    // A reader with no file open yet.
    fn reader(&self, due: &Vec<PageId>) -> Result<FsReader<R>, AllocError>
        ensures { IfOk result (λ reader. state_of_reader reader
            ≡ reader_lent due.now.items (state_of self.now)) }
    {
        Ok(FsReader {
            folder: self.folder.copy()?,
            open: OpenFiles::new(self.folder.rt.alloc()),
            faults: Faults::new(),
            due: Snapshot::of(due),
        })
    }
}

/// Counts the failures of readers that are back.
pub fn join_readers<R: PathCalls + Drop>(faults: &mut Faults, readers: &[FsReader<R>])
    ensures later { faults.old.count ≤ faults.new.count }
    ensures same { faults_among (map (λ reader. state_of_reader reader) readers.now) ≡ 0
        → faults.new.count ≡ faults.old.count }
    ensures rose { 0 < faults_among (map (λ reader. state_of_reader reader) readers.now)
        → HasRisen faults.old.count faults.new.count }
    ensures kept { IsSome faults.old.first → faults.new.first ≡ faults.old.first }
{
    for reader in readers {
        faults.join(&reader.faults);
    }
}
