//! A page is made anew: in hand, from the frame that keeps it, or in an empty frame in hand.

ghost use Rattle.std.specs.Prelude.{◌≡◌, ◌⊎◌, ◌<◌, IsSome, length};
ghost use Rattle.pm_types.specs.declared.limits.TheConstants.{OP_PAGES};
ghost use Rattle.pm_stripe.specs.Fetches.{IsUnkept};
ghost use Rattle.pm_stripe.specs.Kept.{Holds, HasFrames, IsAway, IsPageOf, held_at};
ghost use Rattle.pm_stripe.specs.Makes.{MakesAnew};
ghost use Rattle.pm_stripe.specs.Stripes.{kept, SameButPages};

use crate::fetching::place;
use crate::held::{Free, Held, first_out};
use crate::lending::{clear, whole_patch};
use crate::stripe::Stripe;
use pm_locks::{Locks, PageSeat};
use pm_types::{Flag, PageId};
use std::snapshot::Snapshot;
use std::sync::Wait;

impl Stripe {
    // Makes a page of zeros, new or in place of what it was. It is lent to be written, and its patch is the
    // whole page.
    pub(crate) fn make<Q: Wait>(&mut self, rt: &Q, locks: &Locks, seat: &mut PageSeat, page: PageId)
        requires holds { Holds locks.now (kept self.old seat.old) }
        requires frames { HasFrames (kept self.old seat.old) }
        requires own { IsPageOf locks.now.workers self.old.shape.partitions self.old.number page }
        requires room { IsSome (held_at self.old.held.items page.0) ⊎ (length self.old.held.items < OP_PAGES) }
        ensures makes { MakesAnew locks.now (kept self.old seat.old) (kept self.new seat.new) page }
        ensures same { SameButPages self.old self.new }
    {
        if place(&self.held, page) < self.held.len() {
            self.clear(page);
            return;
        }
        if self.take_home(rt, locks, seat, page) {
            self.clear(page);
            return;
        }
        self.make_new(page, locks, seat);
    }

    // Makes a page, which no frame keeps, in an empty frame in hand. Locks and seat aren't used in the body: the
    // contract speaks of them.
    fn make_new(&mut self, page: PageId, _locks: &Locks, _seat: &PageSeat)
        requires holds { Holds _locks.now (kept self.old _seat.now) }
        requires frames { HasFrames (kept self.old _seat.now) }
        requires away { IsAway (kept self.old _seat.now) page }
        requires unkept { IsUnkept _locks.now (kept self.old _seat.now) page }
        ensures makes { MakesAnew _locks.now (kept self.old _seat.now) (kept self.new _seat.now) page }
        ensures same { SameButPages self.old self.new }
    {
        let Free {
            frame,
            tag,
            mut lease,
        } = first_out(&mut self.free);
        clear(&mut lease);
        let was = Snapshot::of(&lease);
        let patch = whole_patch(self.shape.page_size);
        self.held.push_reserved(Held {
            page,
            frame,
            tag,
            lease,
            was,
            flag: Flag::Empty,
            is_read: true,
            is_lent: true,
            patch: Some(patch),
        });
    }
}
