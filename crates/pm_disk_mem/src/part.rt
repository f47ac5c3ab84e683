//! A part of a host in memory that has the log, or that writes pages.

ghost use Rattle.std.specs.Prelude.{◌≡◌, ◌≤◌, length, replicate, IfOk, OnErr, option_map};
ghost use Rattle.pm_types.specs.declared.limits.TheConstants.{PAGE_SIZE_MAX};
ghost use Rattle.pm_types.specs.Ids.{part_of_id};
ghost use Rattle.pm_disk.specs.Files.{Write, Cut, bytes_of, content, gapped, missing, ReadsFrom};
ghost use Rattle.pm_disk.specs.Moments.{Does, WritesPage};
ghost use Rattle.pm_disk.specs.States.{HasCause};
ghost use Rattle.pm_disk.specs.Worlds.{segment_in, log_changed, log_forced, pages_forced};
ghost use Rattle.pm_disk_mem.specs.Held.{file_of, file_changed};
ghost use Rattle.pm_disk_mem.specs.Plans.{IsCallCounted, IsCallPlanned};
ghost use Rattle.pm_disk_mem.specs.Steps.{CanStep, HoldsWorld, files_world, replay, stepped};

use crate::bytes::write_with_gap;
use crate::change::FileChange;
use crate::console::Console;
use crate::event::Record;
use crate::failures::Failures;
use crate::files::Files;
use crate::step::{ChangedFile, Step};
use crate::work::make;
use pm_disk::{Device, Failed, LogFile, LogReader, PageWriter};
use pm_types::PageId;
use std::alloc::{AllocError, Global};
use std::snapshot::Snapshot;

/// The segments of a host in memory, or the partitions' files, with what was done to them since they
/// were lent.
#[derive(Drop)]
pub struct MemPart {
    pub(crate) alloc: Global,
    pub(crate) files: Files,
    // A part says nothing: no step of it touches this.
    pub(crate) console: Console,
    pub(crate) kept: Record,
    pub(crate) failures: Failures,
    pub(crate) folder: Option<String>,
    // The pages that it may write.
    pub(crate) due: Snapshot<Vec<PageId>>,
    ghost stands: { HoldsWorld files console
        (replay kept.steps.items (files_world kept.began.value)) },
}

impl MemPart {
    ghost use Rattle.pm_disk_mem.specs.Lent.{history_of_part, world_of_part, KeepsPart};

    // Writes the bytes at the offset, with zeros from the file's end on where it ends before that.
    fn write_at(&mut self, file: ChangedFile, at: u64, bytes: &[u8]) -> Result<(), Failed>
        ensures does { let was = content (file_of (world_of_part self.old) file) in
            Does (history_of_part self.old) (history_of_part self.new) result (file_changed file
            (gapped was at (replicate (missing at was) 0) bytes.now) (world_of_part self.old)) }
        ensures unchanged { OnErr result (world_of_part self.new ≡ world_of_part self.old) }
        ensures counted { KeepsPart self.old self.new result }
    {
        let len = self.files.len(file).unwrap_or(0);
        let written = write_with_gap(self.alloc, len, at, bytes);
        let change = self.failures.counted(written)?;
        self.run(Step::Change(file, change))
    }

    // Does the step and keeps it in the record. Out of memory fails the call.
    fn run(&mut self, step: Step) -> Result<(), Failed>
        requires { CanStep step self.old.files self.old.console }
        ensures does { Does (history_of_part self.old) (history_of_part self.new) result
            (stepped step (world_of_part self.old)) }
        ensures unchanged { OnErr result (world_of_part self.new ≡ world_of_part self.old) }
        ensures counted { KeepsPart self.old self.new result }
    {
        let made = self.record_step(step);
        self.failures.counted(made)
    }

    // Does the step and keeps it in the record, in which there is room before anything is changed.
    fn record_step(&mut self, step: Step) -> Result<(), AllocError>
        requires { CanStep step self.old.files self.old.console }
        ensures does { Does (history_of_part self.old) (history_of_part self.new) result
            (stepped step (world_of_part self.old)) }
        ensures unchanged { OnErr result (world_of_part self.new ≡ world_of_part self.old) }
        ensures failures { self.new.failures ≡ self.old.failures }
        ensures folder { self.new.folder ≡ self.old.folder }
        ensures due { self.new.due ≡ self.old.due }
    {
        self.kept.steps.reserve(1)?;
        make(self.alloc, &mut self.files, &mut self.console, &step)?;
        self.kept.steps.push_reserved(step);
        Ok(())
    }
}

impl Device for MemPart {
    ghost use Rattle.pm_disk_mem.specs.Events.{lent_world};
    ghost use Rattle.pm_disk_mem.specs.Lent.{history_of_part, state_of_part};
    ghost use Rattle.pm_disk_mem.specs.Sound.{sound};

    ghost tells = { Unit {0} };

    ghost history = { history_of_part };

    ghost state = { state_of_part };

    ghost sound = { λ part _. sound (lent_world part.kept) part.kept.steps.items };
}

impl LogReader for MemPart {
    ghost use Rattle.pm_disk_mem.specs.Lent.{history_of_part, world_of_part, state_of_part};

    fn seg_len(&mut self, seg: u64) -> Result<Option<u64>, Failed>
        ensures len { IfOk result
            (λ len. len ≡ option_map length (segment_in (world_of_part self.old) seg)) }
        ensures does { Does (history_of_part self.old) (history_of_part self.new) result
            (world_of_part self.old) }
        ensures cause { HasCause (state_of_part self.old) (state_of_part self.new) result }
        ensures as_planned { IsCallPlanned self.old.failures self.new.failures result }
    {
        self.failures.begin()?;
        Ok(self.files.log.len(seg))
    }

    fn read_log(&mut self, seg: u64, at: u64, into: &mut [u8]) -> Result<usize, Failed>
        ensures bound { IfOk result (λ n. n ≤ length into.new) }
        ensures reads { IfOk result
            (λ n. ReadsFrom (segment_in (world_of_part self.old) seg) at n into.new) }
        ensures does { Does (history_of_part self.old) (history_of_part self.new) result
            (world_of_part self.old) }
        ensures cause { HasCause (state_of_part self.old) (state_of_part self.new) result }
        ensures as_planned { IsCallPlanned self.old.failures self.new.failures result }
    {
        self.failures.begin()?;
        Ok(self.files.log.read(seg, at, into))
    }
}

impl LogFile for MemPart {
    ghost use Rattle.pm_disk_mem.specs.Lent.{history_of_part, world_of_part, state_of_part};

    /// A failed call has written nothing.
    fn write_log(&mut self, seg: u64, at: u64, bytes: &[u8]) -> Result<(), Failed>
        requires { at ≤ length (bytes_of (segment_in (world_of_part self.old) seg)) }
        ensures does { Does (history_of_part self.old) (history_of_part self.new) result
            (log_changed seg (Write at bytes.now) (world_of_part self.old)) }
        ensures unchanged { OnErr result (world_of_part self.new ≡ world_of_part self.old) }
        ensures cause { HasCause (state_of_part self.old) (state_of_part self.new) result }
        ensures counted { IsCallCounted self.old.failures self.new.failures result }
    {
        self.failures.begin()?;
        let copy = self.failures.counted(Vec::from_slice(self.alloc, bytes))?;
        self.run(Step::Change(ChangedFile::Segment(seg), FileChange::Write(at, copy)))
    }

    /// A failed call has cut nothing.
    fn cut_log(&mut self, seg: u64, len: u64) -> Result<(), Failed>
        requires { len ≤ length (bytes_of (segment_in (world_of_part self.old) seg)) }
        ensures does { Does (history_of_part self.old) (history_of_part self.new) result
            (log_changed seg (Cut len) (world_of_part self.old)) }
        ensures unchanged { OnErr result (world_of_part self.new ≡ world_of_part self.old) }
        ensures cause { HasCause (state_of_part self.old) (state_of_part self.new) result }
        ensures counted { IsCallCounted self.old.failures self.new.failures result }
    {
        self.failures.begin()?;
        self.run(Step::Change(ChangedFile::Segment(seg), FileChange::Cut(len)))
    }

    /// A failed call has made nothing lasting.
    fn force_log(&mut self, seg: u64) -> Result<(), Failed>
        ensures does { Does (history_of_part self.old) (history_of_part self.new) result
            (log_forced seg (world_of_part self.old)) }
        ensures unchanged { OnErr result (world_of_part self.new ≡ world_of_part self.old) }
        ensures cause { HasCause (state_of_part self.old) (state_of_part self.new) result }
        ensures counted { IsCallCounted self.old.failures self.new.failures result }
    {
        self.failures.begin()?;
        self.run(Step::Force(ChangedFile::Segment(seg)))
    }
}

impl PageWriter for MemPart {
    ghost use Rattle.pm_disk_mem.specs.Lent.{history_of_part, world_of_part, state_of_part};

    /// A gap has zeros. A failed call has written nothing.
    fn write_page(&mut self, page: PageId, bytes: &[u8]) -> Result<(), Failed>
        requires { length bytes.now ≤ PAGE_SIZE_MAX }
        ensures writes { WritesPage (history_of_part self.old) (history_of_part self.new) result
            page bytes.now }
        ensures unchanged { OnErr result (world_of_part self.new ≡ world_of_part self.old) }
        ensures cause { HasCause (state_of_part self.old) (state_of_part self.new) result }
        ensures counted { IsCallCounted self.old.failures self.new.failures result }
    {
        self.failures.begin()?;
        let at = page.index() as u64 * bytes.len() as u64;
        self.write_at(ChangedFile::Pages(page.part()), at, bytes)
    }

    /// A failed call has made nothing lasting.
    fn force_pages(&mut self, part: u16) -> Result<(), Failed>
        ensures does { Does (history_of_part self.old) (history_of_part self.new) result
            (pages_forced part (world_of_part self.old)) }
        ensures unchanged { OnErr result (world_of_part self.new ≡ world_of_part self.old) }
        ensures cause { HasCause (state_of_part self.old) (state_of_part self.new) result }
        ensures counted { IsCallCounted self.old.failures self.new.failures result }
    {
        self.failures.begin()?;
        self.run(Step::Force(ChangedFile::Pages(part)))
    }
}
