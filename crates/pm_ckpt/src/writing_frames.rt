//! The pages of a checkpoint that stand in frames, written to their files.

ghost use Rattle.std.specs.Prelude.{◌≡◌, ◌≤◌, length, All, OnOk};
ghost use Rattle.pm_types.specs.declared.flag.Flag.TheVariants as flag;
ghost use Rattle.pm_types.specs.declared.limits.TheConstants.{PAGE_SIZE_MAX};
ghost use Rattle.pm_disk.specs.Moments.{WritesPage};
ghost use Rattle.pm_disk.specs.States.{HasCause, IsUsable};
ghost use Rattle.pm_core.specs.BasePages.{Partitions};
ghost use Rattle.pm_ckpt.specs.Frames.{IsWholeSeat, IsFlagged, AreApart, SetsFlag, SetsFlags};
ghost use Rattle.pm_ckpt.specs.Frames.{names_of, frame_bytes, AreInFrames, HaveLength};
ghost use Rattle.pm_ckpt.specs.Writes.{WritesPages};

use crate::frame_page::FramePage;
use pm_disk::{Failed, Host, PageWriter};
use pm_locks::{FlushTake, Locks, PageSeat};
use pm_types::Flag;

/// Writes each of these pages once, in this order, from its frame, which is Due and becomes Done. After
/// `Failed` a prefix of them is written, and the next one may be; none of their frames is out.
pub(crate) fn write_frames<H: Host>(
    host: &mut H,
    locks: &Locks,
    seat: &mut PageSeat,
    pages: &[FramePage],
    size: u32,
) -> Result<(), Failed>
    requires usable { IsUsable (H.Device.state host.old) }
    requires size { size ≤ PAGE_SIZE_MAX }
    requires seat { IsWholeSeat locks.now seat.old }
    requires apart { AreApart pages.now }
    requires due { All (IsFlagged locks.now flag.Due seat.old.view) pages.now }
    requires sized { HaveLength size seat.old.view pages.now }
    ensures seat { IsWholeSeat locks.now seat.new }
    ensures done { OnOk result (SetsFlags flag.Done pages.now seat.old.view seat.new.view) }
    ensures writes { H.Device.tells → (held : Partitions) → AreInFrames held seat.old.view pages.now
        → WritesPages (H.Device.history host.old) (H.Device.history host.new) result held
        (names_of pages.now) }
    ensures cause { HasCause (H.Device.state host.old) (H.Device.state host.new) result }
{
    'each: for page in pages {
        write_one(host, locks, seat, *page, size)?;
    }
    Ok(())
}

// Writes a page from its frame, which is Due and becomes Done, whether the page was written or not.
fn write_one<H: Host>(
    host: &mut H,
    locks: &Locks,
    seat: &mut PageSeat,
    page: FramePage,
    size: u32,
) -> Result<(), Failed>
    requires usable { IsUsable (H.Device.state host.old) }
    requires size { size ≤ PAGE_SIZE_MAX }
    requires seat { IsWholeSeat locks.now seat.old }
    requires due { IsFlagged locks.now flag.Due seat.old.view page }
    requires sized { length (frame_bytes seat.old.view page.frame) ≡ size }
    ensures seat { IsWholeSeat locks.now seat.new }
    ensures done { SetsFlag flag.Done page.frame seat.old.view seat.new.view }
    ensures writes { H.Device.tells
        → WritesPage (H.Device.history host.old) (H.Device.history host.new) result page.page
        (frame_bytes seat.old.view page.frame) }
    ensures cause { HasCause (H.Device.state host.old) (H.Device.state host.new) result }
{
    match locks.flush_take(seat, page.frame, page.tag, Flag::Due) {
        FlushTake::Got(lease) => {
            let written = host.write_page(page.page, lease.bytes());
            locks.flush_put(seat, page.frame, lease, Flag::Done);
            written
        }
        FlushTake::Moved | FlushTake::Busy(_) => unreachable!(),
    }
}
