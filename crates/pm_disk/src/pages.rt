//! The calls on the partitions' files. A page stands at its index times its length.

ghost use Rattle.std.specs.Prelude.{◌≤◌, length, IfOk};
ghost use Rattle.pm_types.specs.declared.limits.TheConstants.{PAGE_SIZE_MAX};
ghost use Rattle.pm_disk.specs.States.{HasCause, IsUsable, MayRead, MayWrite};
ghost use Rattle.pm_types.specs.Ids.{part_of_id};
ghost use Rattle.pm_disk.specs.Files.{ReadsWhole};
ghost use Rattle.pm_disk.specs.Worlds.{pages_in, page_at, pages_forced};
ghost use Rattle.pm_disk.specs.Moments.{Does, WritesPage};

use crate::device::Device;
use crate::failed::Failed;
use pm_types::PageId;

/// Reads pages. After `Failed` nothing is known of what was asked.
pub trait PageReader: Device {
    /// Fills `into`, which is as long as a page, with the page, and answers true. It answers false, and
    /// fills `into` with zeros, exactly where the partition's file ends before the page's end.
    fn read_page(&mut self, page: PageId, into: &mut [u8]) -> Result<bool, Failed>
        requires allowed { MayRead (Self.state self.old) page }
        requires short { length into.old ≤ PAGE_SIZE_MAX }
        ensures reads { Self.tells → IfOk result
            (λ whole. ReadsWhole (pages_in (Self.history self.old).world (part_of_id page))
            (page_at page (length into.new)) whole into.new) }
        ensures does { Self.tells →
            Does (Self.history self.old) (Self.history self.new) result (Self.history self.old).world }
        ensures cause { HasCause (Self.state self.old) (Self.state self.new) result };
}

/// Changes the partitions' files. A change lasts once its partition was forced after it; till then a
/// crash may leave each byte that it wrote as anything. After `Failed` the call may have been done.
pub trait PageWriter: Device {
    /// Writes a page whole, over what stands there and past the end. An absent file is made. Where the
    /// file ends before the page, any bytes are written between the two.
    fn write_page(&mut self, page: PageId, bytes: &[u8]) -> Result<(), Failed>
        requires allowed { MayWrite (Self.state self.old) page }
        requires short { length bytes.now ≤ PAGE_SIZE_MAX }
        ensures writes { Self.tells →
            WritesPage (Self.history self.old) (Self.history self.new) result page bytes.now }
        ensures cause { HasCause (Self.state self.old) (Self.state self.new) result };

    /// Makes the bytes, the length and the existence of a partition's file lasting, or, where there is
    /// no such file, its absence.
    fn force_pages(&mut self, part: u16) -> Result<(), Failed>
        requires usable { IsUsable (Self.state self.old) }
        ensures does { Self.tells → Does (Self.history self.old) (Self.history self.new) result
            (pages_forced part (Self.history self.old).world) }
        ensures cause { HasCause (Self.state self.old) (Self.state self.new) result };
}
