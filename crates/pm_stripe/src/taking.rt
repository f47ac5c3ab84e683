//! A page is taken from the frame that keeps it.

ghost use Rattle.std.specs.Prelude.{◌≡◌, Some};
ghost use Rattle.pm_stripe.specs.Kept.{Holds, IsAway, TakesPage, place_of};
ghost use Rattle.pm_stripe.specs.Stripes.{kept, SameButPages};

use crate::held::Held;
use crate::stripe::Stripe;
use crate::take::take_frame;
use pm_locks::{Locks, PageSeat};
use pm_types::{FrameNo, PageId, Tag};
use std::snapshot::Snapshot;
use std::sync::Wait;

impl Stripe {
    // Takes the page from the frame that keeps it. `false`: that was given to another page, and is forgotten.
    #[inline(always)]
    pub(crate) fn take_kept<Q: Wait>(
        &mut self,
        rt: &Q,
        locks: &Locks,
        seat: &mut PageSeat,
        page: PageId,
        frame: FrameNo,
        tag: Tag,
    ) -> bool
        requires holds { Holds locks.now (kept self.old seat.old) }
        requires away { IsAway (kept self.old seat.old) page }
        requires kept { place_of (kept self.old seat.old) page ≡ Some (frame, tag) }
        ensures takes { TakesPage locks.now (kept self.old seat.old) (kept self.new seat.new) page result }
        ensures same { SameButPages self.old self.new }
    {
        match take_frame(rt, locks, seat, self.number, frame, tag) {
            Some((lease, flag)) => {
                let was = Snapshot::of(&lease);
                self.held.push_reserved(Held {
                    page,
                    frame,
                    tag,
                    lease,
                    was,
                    flag,
                    is_read: false,
                    is_lent: false,
                    patch: None,
                });
                true
            }
            None => {
                self.places.forget(frame);
                false
            }
        }
    }
}
