//! A frame is stolen for a page to come.

ghost use Rattle.std.specs.Prelude.{◌<◌, length};
ghost use Rattle.pm_types.specs.declared.limits.TheConstants.{OP_PAGES};
ghost use Rattle.pm_locks.specs.Sight.{IsFrameOf, KnowsAll};
ghost use Rattle.pm_locks.specs.Views.{known_at};
ghost use Rattle.pm_stripe.specs.Met.{MeetsFrame};
ghost use Rattle.pm_stripe.specs.Sights.{KeepsSight};
ghost use Rattle.pm_stripe.specs.Steals.{StealsFrame, ShowsWhy, IsExactly};
ghost use Rattle.pm_stripe.specs.Kept.{Holds};
ghost use Rattle.pm_stripe.specs.Stripes.{kept, SameButPages};

use crate::held::Free;
use crate::stripe::Stripe;
use pm_locks::{Locks, PageSeat, Steal};
use pm_types::FrameNo;

impl Stripe {
    // Steals a frame, if that can be done: it is among the empty ones in hand then, and keeps no page.
    pub(crate) fn steal_one(&mut self, locks: &Locks, seat: &mut PageSeat, frame: FrameNo) -> bool
        requires holds { Holds locks.now (kept self.old seat.old) }
        requires frame { IsFrameOf locks.now frame }
        requires room { length self.old.free.items < OP_PAGES }
        ensures steals { StealsFrame locks.now (kept self.old seat.old) (kept self.new seat.new) frame result }
        ensures exact { KnowsAll locks.now seat.old.view → IsExactly (known_at seat.old.view frame) result }
        ensures sight { KeepsSight locks.now seat.old.view seat.new.view }
        ensures meets { MeetsFrame (kept self.old seat.old) (kept self.new seat.new) frame result }
        ensures shows { ShowsWhy seat.old.view seat.new.view frame result }
        ensures same { SameButPages self.old self.new }
    {
        match locks.steal(seat, self.number, frame) {
            Steal::Not(_) => false,
            Steal::Got(lease, tag) => {
                // For the proof alone: the lease has as many bytes as its range.
                let _len = lease.bytes().len();
                self.free.push_reserved(Free { frame, tag, lease });
                self.places.forget(frame);
                true
            }
        }
    }
}
