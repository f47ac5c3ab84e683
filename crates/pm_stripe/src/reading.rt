//! A page is read into an empty frame in hand.

ghost use Rattle.std.specs.Prelude.{◌≡◌, IsErrOf};
ghost use Rattle.pm_types.specs.declared.fault.PageFault.TheVariants.{Failed};
ghost use Rattle.pm_disk.specs.States.{MayRead, IsLaterState, Rose};
ghost use Rattle.pm_stripe.specs.Fetches.{IsUnkept, ReadsFrame};
ghost use Rattle.pm_stripe.specs.Reads.{stored};
ghost use Rattle.pm_stripe.specs.Kept.{Holds, HasFrames, IsAway};
ghost use Rattle.pm_stripe.specs.Stripes.{kept, SameButPages};

use crate::held::{Free, Held, first_out};
use crate::read::read_into;
use crate::stripe::Stripe;
use pm_disk::PageReader;
use pm_locks::{Locks, PageSeat};
use pm_types::{Flag, PageFault, PageId};
use std::snapshot::Snapshot;

impl Stripe {
    // Reads a page, which no frame keeps, into an empty frame in hand. `false`: its file doesn't have it.
    //
    // Where it isn't had the frame is among the empty ones with other bytes. Locks and seat aren't used in the
    // body: the contract speaks of them.
    #[inline(never)]
    pub(crate) fn read_page<R: PageReader>(
        &mut self,
        reader: &mut R,
        page: PageId,
        _locks: &Locks,
        _seat: &PageSeat,
    ) -> Result<bool, PageFault>
        requires holds { Holds _locks.now (kept self.old _seat.now) }
        requires frames { HasFrames (kept self.old _seat.now) }
        requires away { IsAway (kept self.old _seat.now) page }
        requires unkept { IsUnkept _locks.now (kept self.old _seat.now) page }
        requires allowed { MayRead (R.state reader.old) page }
        ensures reads { ReadsFrame _locks.now (kept self.old _seat.now) (kept self.new _seat.now) page R.tells
            (stored (R.history reader.old).world self.old.shape.page_size page) result }
        ensures world { R.tells → (R.history reader.new).world ≡ (R.history reader.old).world }
        ensures later { IsLaterState (R.state reader.old) (R.state reader.new) }
        ensures failed { IsErrOf result Failed → Rose (R.state reader.old) (R.state reader.new) }
        ensures same { SameButPages self.old self.new }
    {
        let Free {
            frame,
            tag,
            mut lease,
        } = first_out(&mut self.free);
        match read_into(reader, &mut lease, page, &self.shape) {
            Ok(true) => {
                let was = Snapshot::of(&lease);
                self.held.push_reserved(Held {
                    page,
                    frame,
                    tag,
                    lease,
                    was,
                    flag: Flag::Empty,
                    is_read: true,
                    is_lent: false,
                    patch: None,
                });
                Ok(true)
            }
            Ok(false) => {
                self.free.push_reserved(Free { frame, tag, lease });
                Ok(false)
            }
            Err(fault) => {
                self.free.push_reserved(Free { frame, tag, lease });
                Err(fault)
            }
        }
    }
}
