//! The end of a checkpoint: its pages are written, their files forced, and its end marker written.

ghost use Rattle.std.specs.Prelude.{◌≡◌, ◌+◌, OnOk, IfOk, length, All};
ghost use Rattle.pm_types.specs.declared.flag.Flag.TheVariants as flag;
ghost use Rattle.pm_disk.specs.States.{HasCause, IsUsable};
ghost use Rattle.pm_marks.specs.Slots.{IsMark};
ghost use Rattle.pm_core.specs.BasePages.{Partitions};
ghost use Rattle.pm_core.specs.PageSets.{AreOnce};
ghost use Rattle.pm_ckpt.specs.Checkpoints.{MayEnd};
ghost use Rattle.pm_ckpt.specs.Frames.{IsWholeSeat, IsFlagged, AreApart, CleansFrames};
ghost use Rattle.pm_ckpt.specs.Frames.{names_of, AreInFrames, HaveLength};
ghost use Rattle.pm_ckpt.specs.Writes.{held_in, IsHeld, Finishes, AreHome, StoresPages};

use crate::cleaning::make_clean;
use crate::frame_page::FramePage;
use crate::making_due::make_due;
use crate::writing::write_pages;
use crate::writing_frames::write_frames;
use pm_core::{Begun, Ended};
use pm_disk::{Failed, Host};
use pm_locks::{Locks, PageSeat};
use pm_pages::PlainPages;
use pm_types::PageId;

/// Writes the pages of the checkpoint, of which none is written yet, each once and in this order, forces
/// their files, and then writes the end marker and forces it. After `Failed` a prefix of this was done.
/// For `Ckpt::whole_plain` alone, which the program doesn't call.
pub(crate) fn finish_written<H: Host>(
    host: &mut H,
    begun: Begun,
    pages: &[PlainPages],
    order: &[PageId],
    size: u32,
) -> Result<Ended, Failed>
    requires usable { IsUsable (H.Device.state host.old) }
    requires mark { IsMark begun.mark }
    requires size { size ≡ begun.mark.shape.page_size }
    requires set { begun.set.pages ≡ order.now }
    requires left { begun.left ≡ order.now }
    requires once { AreOnce order.now }
    requires held { All (IsHeld size (held_in pages.now)) order.now }
    ensures ended { IfOk result
        (λ ended. ended ≡ record { mark = begun.mark; room = length begun.set.pages + begun.set.spare }) }
    ensures steps { H.Device.tells → Finishes (H.Device.history host.old) (H.Device.history host.new) result
        (held_in pages.now) order.now begun.mark }
    ensures home { H.Device.tells
        → MayEnd begun.mark (held_in pages.now) order.now (H.Device.history host.old).world
        → OnOk result (AreHome size (held_in pages.now) order.now (H.Device.history host.new).world) }
    ensures log { H.Device.tells → OnOk result
        ((H.Device.history host.new).world.log ≡ (H.Device.history host.old).world.log) }
    ensures cause { HasCause (H.Device.state host.old) (H.Device.state host.new) result }
{
    let mut begun = begun;
    write_pages(host, pages, order, size)?;
    begun.wrote(order);
    begun.finish(host)
}

/// The same with pages that stand in frames, all of them Dirty: they become Due, each is written from its
/// frame and becomes Done, and they become Clean once the end marker is in force. After `Failed` a prefix of
/// this was done, and no frame is out.
pub(crate) fn finish_frames<H: Host>(
    host: &mut H,
    begun: Begun,
    locks: &Locks,
    seat: &mut PageSeat,
    pages: &[FramePage],
    order: &[PageId],
    size: u32,
) -> Result<Ended, Failed>
    requires usable { IsUsable (H.Device.state host.old) }
    requires mark { IsMark begun.mark }
    requires size { size ≡ begun.mark.shape.page_size }
    requires set { begun.set.pages ≡ order.now }
    requires left { begun.left ≡ order.now }
    requires once { AreOnce order.now }
    requires names { order.now ≡ names_of pages.now }
    requires seat { IsWholeSeat locks.now seat.old }
    requires apart { AreApart pages.now }
    requires dirty { All (IsFlagged locks.now flag.Dirty seat.old.view) pages.now }
    requires sized { HaveLength size seat.old.view pages.now }
    requires held { (held : Partitions) × AreInFrames held seat.old.view pages.now }
    ensures ended { IfOk result
        (λ ended. ended ≡ record { mark = begun.mark; room = length begun.set.pages + begun.set.spare }) }
    ensures seat { IsWholeSeat locks.now seat.new }
    ensures clean { OnOk result (CleansFrames pages.now seat.old.view seat.new.view) }
    ensures steps { H.Device.tells → (held : Partitions) → AreInFrames held seat.old.view pages.now
        → Finishes (H.Device.history host.old) (H.Device.history host.new) result held order.now begun.mark }
    ensures home { H.Device.tells → (held : Partitions) → AreInFrames held seat.old.view pages.now
        → MayEnd begun.mark held order.now (H.Device.history host.old).world
        → OnOk result (AreHome size held order.now (H.Device.history host.new).world) }
    ensures stored { H.Device.tells → (held : Partitions) → AreInFrames held seat.old.view pages.now
        → OnOk result (StoresPages size held order.now (H.Device.history host.old).world
        (H.Device.history host.new).world) }
    ensures log { H.Device.tells → OnOk result
        ((H.Device.history host.new).world.log ≡ (H.Device.history host.old).world.log) }
    ensures cause { HasCause (H.Device.state host.old) (H.Device.state host.new) result }
{
    let mut begun = begun;
    make_due(locks, seat, pages);
    write_frames(host, locks, seat, pages, size)?;
    begun.wrote(order);
    let ended = begun.finish(host)?;
    make_clean(locks, seat, pages);
    Ok(ended)
}
