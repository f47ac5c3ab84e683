//! The frame of a page is taken, however often that has to be tried.

ghost use Rattle.pm_locks.specs.Sight.{IsSeatOf, IsFrameOf};
ghost use Rattle.pm_stripe.specs.Sights.{KeepsSight};
ghost use Rattle.pm_stripe.specs.Takes.{HasPut, Takes};

use pm_locks::{Locks, PageSeat, Take};
use pm_region::Lease;
use pm_types::{Flag, FrameNo, Tag};
use std::sync::Wait;
use std::thread;

/// Takes the frame in which a worker's number last put a page under this tag. While it is out, waits.
///
/// `None`: the frame was given to another page. What was last put there was Empty or Clean. The number isn't used
/// in the body: the contract speaks of it.
#[inline(always)]
pub(crate) fn take_frame<Q: Wait>(
    rt: &Q,
    locks: &Locks,
    seat: &mut PageSeat,
    _number: u8,
    frame: FrameNo,
    tag: Tag,
) -> Option<(Lease, Flag)>
    requires seat { IsSeatOf locks.now seat.old }
    requires frame { IsFrameOf locks.now frame }
    requires put { HasPut seat.old.view _number frame tag }
    ensures seat { IsSeatOf locks.now seat.new }
    ensures takes { Takes seat.old.view seat.new.view _number frame tag result }
    ensures sight { KeepsSight locks.now seat.old.view seat.new.view }
{
    'tries: for _ in rt.forever() {
        match locks.own_take(seat, frame, tag) {
            Take::Got(lease, flag) => return Some((lease, flag)),
            Take::Gone => return None,
            Take::Busy(_) => thread::yield_now(),
        }
    }
    unreachable!()
}
