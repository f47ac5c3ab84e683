//! The frames of a checkpoint that is ended become Clean.

ghost use Rattle.std.specs.Prelude.{All};
ghost use Rattle.pm_types.specs.declared.flag.Flag.TheVariants as flag;
ghost use Rattle.pm_ckpt.specs.Frames.{IsWholeSeat, IsFlagged, AreApart, CleansFrame, CleansFrames};

use crate::frame_page::FramePage;
use pm_locks::{Locks, PageSeat, Take};
use pm_types::Flag;

/// Makes each of these frames, which are Done, Clean.
pub(crate) fn make_clean(locks: &Locks, seat: &mut PageSeat, pages: &[FramePage])
    requires seat { IsWholeSeat locks.now seat.old }
    requires apart { AreApart pages.now }
    requires done { All (IsFlagged locks.now flag.Done seat.old.view) pages.now }
    ensures seat { IsWholeSeat locks.now seat.new }
    ensures clean { CleansFrames pages.now seat.old.view seat.new.view }
{
    'each: for page in pages {
        clean_one(locks, seat, *page);
    }
}

// Makes a Done frame Clean.
fn clean_one(locks: &Locks, seat: &mut PageSeat, page: FramePage)
    requires seat { IsWholeSeat locks.now seat.old }
    requires done { IsFlagged locks.now flag.Done seat.old.view page }
    ensures seat { IsWholeSeat locks.now seat.new }
    ensures clean { CleansFrame page.frame seat.old.view seat.new.view }
{
    match locks.own_take(seat, page.frame, page.tag) {
        Take::Got(lease, _) => locks.own_put(seat, page.frame, lease, Flag::Clean),
        Take::Gone | Take::Busy(_) => unreachable!(),
    }
}
