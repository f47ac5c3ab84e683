//! The parts of a host in memory, made and put back.

ghost use Rattle.std.specs.Prelude.{◌≡◌, ◌≤◌, ◌<◌, [], ◌∷◌, ◌++◌, true, false, map, vec_len};
ghost use Rattle.std.specs.Prelude.{vec_capacity, option_map, IfOk, All};
ghost use Rattle.std.specs.String.{string_bytes};
ghost use Rattle.std.specs.Arc.{arc_value};
ghost use Rattle.pm_types.specs.Counts.{HasRisen};
ghost use Rattle.pm_disk.specs.Lending.{Joins, faults_among};
ghost use Rattle.pm_disk_mem.specs.Families.{SameTracks};
ghost use Rattle.pm_disk_mem.specs.declared.event.Event.TheVariants.{Round};
ghost use Rattle.pm_disk_mem.specs.Plans.{KeepsPlan};
ghost use Rattle.pm_disk_mem.specs.Hosts.{history_of, folder_of};
ghost use Rattle.pm_disk_mem.specs.Lent.{IsPart, IsReader, history_of_part, state_of_reader};

use crate::console::Console;
use crate::event::{Event, Record};
use crate::failures::Failures;
use crate::files::Files;
use crate::host::MemHost;
use crate::part::MemPart;
use crate::reader::MemReader;
use pm_disk::Lent;
use pm_types::PageId;
use std::alloc::{AllocError, Global};
use std::snapshot::Snapshot;
use std::sync::Arc;

impl MemHost {
    /// Parts with copies of the files.
    pub(crate) fn parts(
        &self,
        due: &[PageId],
        workers: u32,
    ) -> Result<Lent<MemReader, MemPart, MemPart>, AllocError>
        ensures many { IfOk result (λ lent. vec_len lent.readers ≡ workers) }
        ensures readers { IfOk result (λ lent. All (λ reader. IsReader self.now due.now reader)
            lent.readers.items) }
        ensures writer { IfOk result (λ lent. IsPart self.now due.now lent.writer) }
        ensures pages { IfOk result (λ lent. SameTracks self.now.files.pages
            lent.writer.kept.began.value.pages) }
        ensures log { IfOk result (λ lent. IsPart self.now [] lent.log) }
        ensures segments { IfOk result (λ lent. SameTracks self.now.files.log
            lent.log.kept.began.value.log) }
    {
        let due = Vec::from_slice(self.alloc, due)?;
        let pages = self.files.pages_alone(self.alloc)?;
        let log = self.files.log_alone(self.alloc)?;
        let none = Vec::new(self.alloc);
        Ok(Lent {
            readers: self.readers(&due, workers)?,
            writer: self.part(pages, &due)?,
            log: self.part(log, &none)?,
        })
    }

    // A part with these files, which may write the pages that are due.
    fn part(&self, files: Files, due: &Vec<PageId>) -> Result<MemPart, AllocError>
        ensures part { IfOk result (λ part. IsPart self.now due.now.items part) }
        ensures began { IfOk result (λ part. part.kept.began.value ≡ files) }
    {
        Ok(MemPart {
            alloc: self.alloc,
            console: Console::new(self.alloc, &[])?,
            kept: Record {
                began: Snapshot::of(&files),
                steps: Vec::new(self.alloc),
            },
            files,
            failures: self.failures.lent(self.alloc)?,
            folder: self.folder_copy()?,
            due: Snapshot::of(due),
        })
    }

    // A reader for each worker. They share copies of the files.
    fn readers(&self, due: &Vec<PageId>, workers: u32) -> Result<Vec<MemReader>, AllocError>
        ensures many { IfOk result (λ readers. vec_len readers ≡ workers) }
        ensures each { IfOk result (λ readers. All (λ reader. IsReader self.now due.now.items reader)
            readers.items) }
    {
        let files = Arc::new(self.alloc, self.files.pages_alone(self.alloc)?)?;
        let mut readers = Vec::new(self.alloc);
        for _ in 0..workers {
            readers.push(self.reader(&files, due)?)?;
        }
        Ok(readers)
    }

    // A reader of these files.
    fn reader(&self, files: &Arc<Files, Global>, due: &Vec<PageId>) -> Result<MemReader, AllocError>
        requires { SameTracks self.now.files.pages (arc_value files.now).pages }
        ensures { IfOk result (λ reader. IsReader self.now due.now.items reader) }
    {
        Ok(MemReader {
            files: Arc::try_clone(files)?,
            failures: self.failures.lent(self.alloc)?,
            folder: self.folder_copy()?,
            due: Snapshot::of(due),
        })
    }

    // The folder's name once more.
    fn folder_copy(&self) -> Result<Option<String>, AllocError>
        ensures { IfOk result (λ copy. option_map string_bytes copy ≡ folder_of self.now) }
    {
        match &self.folder {
            Some(name) => Ok(Some(String::from_str(self.alloc, name)?)),
            None => Ok(None),
        }
    }

    /// Takes the files of the parts, and keeps what these did as a round.
    pub(crate) fn put_back(&mut self, log: MemPart, writer: MemPart)
        requires { self.old.is_lent ≡ true }
        ensures joins { Joins (history_of self.old) (history_of self.new)
            (history_of_part log) (history_of_part writer) }
        ensures failures { self.new.failures ≡ self.old.failures }
        ensures folder { self.new.folder ≡ self.old.folder }
        ensures presence { self.new.presence ≡ self.old.presence }
        ensures is_lent { self.new.is_lent ≡ false }
    {
        let MemPart {
            files: log_files,
            kept: log_kept,
            ..
        } = log;
        let MemPart {
            files: page_files,
            kept: page_kept,
            ..
        } = writer;
        take_files(&mut self.files, log_files, page_files);
        keep_round(&mut self.events, log_kept, page_kept);
        self.is_lent = false;
    }
}

// Takes the segments of the log part, and the partitions' files of the writer.
fn take_files(files: &mut Files, log: Files, writer: Files)
    ensures { files.new ≡ record files.old { log = log.log; pages = writer.pages } }
{
    let Files { log: segments, .. } = log;
    let Files { pages, .. } = writer;
    files.log = segments;
    files.pages = pages;
}

// Keeps a round in the record: all that both parts did.
fn keep_round(events: &mut Vec<Event>, log: Record, writer: Record)
    requires { vec_len events.old < vec_capacity events.old }
    ensures { events.new.items ≡ events.old.items ++ Round log writer ∷ [] }
{
    events.push_reserved(Event::Round(log, writer));
}

/// Counts on after the readers.
pub fn join_readers(failures: &mut Failures, readers: &[MemReader])
    ensures calls { failures.old.calls ≤ failures.new.calls }
    ensures later { failures.old.count ≤ failures.new.count }
    ensures same { faults_among (map (λ reader. state_of_reader reader) readers.now) ≡ 0
        → failures.new.count ≡ failures.old.count }
    ensures rose { 0 < faults_among (map (λ reader. state_of_reader reader) readers.now)
        → HasRisen failures.old.count failures.new.count }
    ensures plan { KeepsPlan failures.old failures.new }
{
    for reader in readers {
        failures.join(&reader.failures);
    }
}
