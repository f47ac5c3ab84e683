//! The frames of a checkpoint's pages become Due.

ghost use Rattle.std.specs.Prelude.{All};
ghost use Rattle.pm_types.specs.declared.flag.Flag.TheVariants as flag;
ghost use Rattle.pm_ckpt.specs.Frames.{IsWholeSeat, IsFlagged, AreApart, SetsFlag, SetsFlags};

use crate::frame_page::FramePage;
use pm_locks::{FlushTake, Locks, PageSeat};
use pm_types::Flag;

/// Makes each of these frames, which are Dirty, Due: what it has is the image that is to be written.
pub(crate) fn make_due(locks: &Locks, seat: &mut PageSeat, pages: &[FramePage])
    requires seat { IsWholeSeat locks.now seat.old }
    requires apart { AreApart pages.now }
    requires dirty { All (IsFlagged locks.now flag.Dirty seat.old.view) pages.now }
    ensures seat { IsWholeSeat locks.now seat.new }
    ensures due { SetsFlags flag.Due pages.now seat.old.view seat.new.view }
{
    'each: for page in pages {
        make_one(locks, seat, *page);
    }
}

// Makes a Dirty frame Due.
fn make_one(locks: &Locks, seat: &mut PageSeat, page: FramePage)
    requires seat { IsWholeSeat locks.now seat.old }
    requires dirty { IsFlagged locks.now flag.Dirty seat.old.view page }
    ensures seat { IsWholeSeat locks.now seat.new }
    ensures due { SetsFlag flag.Due page.frame seat.old.view seat.new.view }
{
    match locks.flush_take(seat, page.frame, page.tag, Flag::Dirty) {
        FlushTake::Got(lease) => locks.flush_put(seat, page.frame, lease, Flag::Due),
        FlushTake::Moved | FlushTake::Busy(_) => unreachable!(),
    }
}
