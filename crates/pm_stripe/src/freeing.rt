//! Empty frames in hand are put back.

ghost use Rattle.std.specs.Prelude.{◌≡◌, ◌+◌, ◌<◌, [], length};
ghost use Rattle.pm_stripe.specs.Frees.{FreesFrames};
ghost use Rattle.pm_stripe.specs.Kept.{Holds};
ghost use Rattle.pm_stripe.specs.Stripes.{kept, SameButPages};

use crate::held::Free;
use crate::stripe::Stripe;
use pm_locks::{Locks, PageSeat};
use pm_types::Flag;

impl Stripe {
    // Puts the empty frames in hand back, as Empty.
    pub(crate) fn put_free(&mut self, locks: &Locks, seat: &mut PageSeat)
        requires holds { Holds locks.now (kept self.old seat.old) }
        ensures frees { FreesFrames locks.now (kept self.old seat.old) (kept self.new seat.new) }
        ensures none { self.new.free.items ≡ [] }
        ensures same { SameButPages self.old self.new }
    {
        'each: for _ in 0..self.free.len() {
            self.put_free_last(locks, seat);
        }
    }

    // Puts the last empty frame in hand back.
    fn put_free_last(&mut self, locks: &Locks, seat: &mut PageSeat)
        requires holds { Holds locks.now (kept self.old seat.old) }
        requires some { 0 < length self.old.free.items }
        ensures frees { FreesFrames locks.now (kept self.old seat.old) (kept self.new seat.new) }
        ensures count { length self.new.free.items + 1 ≡ length self.old.free.items }
        ensures same { SameButPages self.old self.new }
    {
        let Some(free) = self.free.pop() else {
            unreachable!();
        };
        let Free { frame, lease, .. } = free;
        locks.own_put(seat, frame, lease, Flag::Empty);
    }
}
