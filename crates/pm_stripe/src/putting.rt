//! Pages in hand are put back.

ghost use Rattle.std.specs.Prelude.{◌≡◌, ◌<◌, length};
ghost use Rattle.pm_stripe.specs.Kept.{Holds, stays};
ghost use Rattle.pm_stripe.specs.Puts as spec;
ghost use Rattle.pm_stripe.specs.Puts.{is_empty, AreStayingCovered, PutsLast};
ghost use Rattle.pm_stripe.specs.Stripes.{kept, SameButPages};

use crate::held::Held;
use crate::stripe::Stripe;
use pm_locks::{Locks, PageSeat};
use pm_types::Flag;

impl Stripe {
    // Puts the last page in hand back: as Dirty where it was changed, as Clean where it was read, and else with
    // the flag that it had. A page that was lent and not noted is given up, but for one that stays: it is read
    // anew where it is asked for.
    pub(crate) fn put_last(&mut self, locks: &Locks, seat: &mut PageSeat)
        requires holds { Holds locks.now (kept self.old seat.old) }
        requires some { 0 < length self.old.held.items }
        requires covered { AreStayingCovered self.old.held.items }
        ensures puts { PutsLast locks.now (kept self.old seat.old) (kept self.new seat.new) }
        ensures same { SameButPages self.old self.new }
    {
        let Some(held) = self.held.pop() else {
            unreachable!();
        };
        let now = put_flag(&held);
        let Held {
            page,
            frame,
            tag,
            lease,
            is_read,
            ..
        } = held;
        locks.own_put(seat, frame, lease, now);
        if is_empty(now) {
            self.places.forget(frame);
        } else if is_read {
            self.places.put(page, frame, tag);
        }
    }
}

// The flag with which a page in hand is put back.
fn put_flag(held: &Held) -> Flag
    ensures { result ≡ spec.put_flag held.now }
{
    if held.is_changed() {
        return Flag::Dirty;
    }
    if held.is_lent && !stays(held.flag) {
        return Flag::Empty;
    }
    if held.is_read { Flag::Clean } else { held.flag }
}

// Whether a frame with this flag has no page.
fn is_empty(flag: Flag) -> bool
    ensures { result ≡ is_empty flag }
{
    matches!(flag, Flag::Empty)
}

// Whether a frame with this flag isn't given to another page.
fn stays(flag: Flag) -> bool
    ensures { result ≡ stays flag }
{
    matches!(flag, Flag::Dirty | Flag::Due | Flag::Done)
}
