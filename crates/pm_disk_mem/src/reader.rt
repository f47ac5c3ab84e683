//! A part of a host in memory that reads pages.

ghost use Rattle.std.specs.Prelude.{◌≡◌, ◌≤◌, [], length, IfOk};
ghost use Rattle.pm_types.specs.declared.limits.TheConstants.{PAGE_SIZE_MAX};
ghost use Rattle.pm_types.specs.Ids.{part_of_id};
ghost use Rattle.pm_disk.specs.Files.{ReadsWhole};
ghost use Rattle.pm_disk.specs.Moments.{Does};
ghost use Rattle.pm_disk.specs.States.{HasCause};
ghost use Rattle.pm_disk.specs.Worlds.{pages_in, page_at};
ghost use Rattle.pm_disk_mem.specs.Plans.{IsCallPlanned};

use crate::failures::Failures;
use crate::files::Files;
use crate::step::ChangedFile;
use pm_disk::{Device, Failed, PageReader};
use pm_types::PageId;
use std::alloc::Global;
use std::snapshot::Snapshot;
use std::sync::Arc;

/// Reads pages of a host in memory as they were when it was lent.
#[derive(Drop)]
pub struct MemReader {
    // Copies of the partitions' files, which all readers share.
    pub(crate) files: Arc<Files, Global>,
    pub(crate) failures: Failures,
    pub(crate) folder: Option<String>,
    // The pages that it may not read.
    pub(crate) due: Snapshot<Vec<PageId>>,
}

impl Device for MemReader {
    ghost use Rattle.pm_disk_mem.specs.Lent.{world_of_reader, history_of_reader, state_of_reader};
    ghost use Rattle.pm_disk_mem.specs.Sound.{sound};

    ghost tells = { Unit {0} };

    ghost history = { history_of_reader };

    ghost state = { state_of_reader };

    ghost sound = { λ reader _. sound (world_of_reader reader) [] };
}

impl PageReader for MemReader {
    ghost use Rattle.pm_disk_mem.specs.Lent.{world_of_reader, history_of_reader, state_of_reader};

    fn read_page(&mut self, page: PageId, into: &mut [u8]) -> Result<bool, Failed>
        requires { length into.old ≤ PAGE_SIZE_MAX }
        ensures reads { IfOk result (λ whole. ReadsWhole
            (pages_in (world_of_reader self.old) (part_of_id page)) (page_at page (length into.new))
            whole into.new) }
        ensures does { Does (history_of_reader self.old) (history_of_reader self.new) result
            (world_of_reader self.old) }
        ensures cause { HasCause (state_of_reader self.old) (state_of_reader self.new) result }
        ensures as_planned { IsCallPlanned self.old.failures self.new.failures result }
    {
        self.failures.begin()?;
        let at = page.index() as u64 * into.len() as u64;
        let file = ChangedFile::Pages(page.part());
        Ok(self.files.read_whole(file, at, into))
    }
}
