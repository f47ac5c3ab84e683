//! Pages in hand that were not lent are given up.

ghost use Rattle.std.specs.Prelude.{◌≡◌, ◌+◌, ◌<◌, ◌≤◌, [], length};
ghost use Rattle.pm_types.specs.declared.limits.TheConstants.{OP_PAGES};
ghost use Rattle.pm_stripe.specs.GivenUp.{AreUnlent, GivesUpHeld};
ghost use Rattle.pm_stripe.specs.Kept.{Holds, bare_count};
ghost use Rattle.pm_stripe.specs.Stripes.{kept, SameButPages};

use crate::held::{Free, Held};
use crate::stripe::Stripe;
use pm_locks::{Locks, PageSeat};

impl Stripe {
    // Gives up the pages in hand, none of which was lent. A frame into which a page was read is among the empty
    // ones then, and each other is put back as it was taken.
    pub(crate) fn give_up(&mut self, locks: &Locks, seat: &mut PageSeat)
        requires holds { Holds locks.now (kept self.old seat.old) }
        requires unlent { AreUnlent self.old.held.items }
        requires few { bare_count (kept self.old seat.old) ≤ OP_PAGES }
        ensures gives { GivesUpHeld locks.now (kept self.old seat.old) (kept self.new seat.new) }
        ensures none { self.new.held.items ≡ [] }
        ensures same { SameButPages self.old self.new }
    {
        'each: for _ in 0..self.held.len() {
            self.give_up_last(locks, seat);
        }
    }

    // Gives up the last page in hand.
    fn give_up_last(&mut self, locks: &Locks, seat: &mut PageSeat)
        requires holds { Holds locks.now (kept self.old seat.old) }
        requires some { 0 < length self.old.held.items }
        requires unlent { AreUnlent self.old.held.items }
        requires few { bare_count (kept self.old seat.old) ≤ OP_PAGES }
        ensures gives { GivesUpHeld locks.now (kept self.old seat.old) (kept self.new seat.new) }
        ensures count { length self.new.held.items + 1 ≡ length self.old.held.items }
        ensures same { SameButPages self.old self.new }
    {
        let Some(held) = self.held.pop() else {
            unreachable!();
        };
        let Held {
            frame,
            tag,
            lease,
            flag,
            is_read,
            ..
        } = held;
        if is_read {
            self.free.push_reserved(Free { frame, tag, lease });
        } else {
            locks.own_put(seat, frame, lease, flag);
        }
    }
}
