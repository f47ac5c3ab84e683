//! The calls on the partitions' files, in memory.

ghost use Rattle.std.specs.Prelude.{◌≡◌, ◌≤◌, length, IfOk, OnErr};
ghost use Rattle.pm_types.specs.declared.limits.TheConstants.{PAGE_SIZE_MAX};
ghost use Rattle.pm_disk.specs.States.{HasCause};
ghost use Rattle.pm_types.specs.Ids.{part_of_id};
ghost use Rattle.pm_disk.specs.Files.{ReadsWhole};
ghost use Rattle.pm_disk.specs.Worlds.{pages_in, page_at, pages_forced};
ghost use Rattle.pm_disk.specs.Moments.{Does, WritesPage};

use crate::host::MemHost;
use crate::step::{ChangedFile, Step};
use pm_disk::{Failed, PageReader, PageWriter};
use pm_types::PageId;

impl PageReader for MemHost {
    ghost use Rattle.pm_disk_mem.specs.Hosts.{world_of, history_of, state_of, IsCounted, FailsAsPlanned};

    fn read_page(&mut self, page: PageId, into: &mut [u8]) -> Result<bool, Failed>
        requires { length into.old ≤ PAGE_SIZE_MAX }
        ensures reads { IfOk result (λ whole. ReadsWhole
            (pages_in (world_of self.old) (part_of_id page)) (page_at page (length into.new)) whole into.new) }
        ensures does { Does (history_of self.old) (history_of self.new) result (world_of self.old) }
        ensures cause { HasCause (state_of self.old) (state_of self.new) result }
        ensures as_planned { FailsAsPlanned self.old self.new result }
    {
        self.failures.begin()?;
        let at = page.index() as u64 * into.len() as u64;
        let file = ChangedFile::Pages(page.part());
        Ok(self.files.read_whole(file, at, into))
    }
}

impl PageWriter for MemHost {
    ghost use Rattle.pm_disk_mem.specs.Hosts.{world_of, history_of, state_of, IsCounted, FailsAsPlanned};

    /// A gap has zeros. A failed call has written nothing.
    fn write_page(&mut self, page: PageId, bytes: &[u8]) -> Result<(), Failed>
        requires { length bytes.now ≤ PAGE_SIZE_MAX }
        ensures writes { WritesPage (history_of self.old) (history_of self.new) result page bytes.now }
        ensures unchanged { OnErr result (world_of self.new ≡ world_of self.old) }
        ensures cause { HasCause (state_of self.old) (state_of self.new) result }
        ensures counted { IsCounted self.old self.new result }
    {
        self.failures.begin()?;
        let at = page.index() as u64 * bytes.len() as u64;
        self.write_at(ChangedFile::Pages(page.part()), at, bytes)
    }

    /// A failed call has made nothing lasting.
    fn force_pages(&mut self, part: u16) -> Result<(), Failed>
        ensures does { Does (history_of self.old) (history_of self.new) result
            (pages_forced part (world_of self.old)) }
        ensures unchanged { OnErr result (world_of self.new ≡ world_of self.old) }
        ensures cause { HasCause (state_of self.old) (state_of self.new) result }
        ensures counted { IsCounted self.old self.new result }
    {
        self.failures.begin()?;
        self.run(Step::Force(ChangedFile::Pages(part)))
    }
}
