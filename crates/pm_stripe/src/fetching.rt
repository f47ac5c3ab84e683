//! A page is brought into hand: from the frame that keeps it, or from its file.

ghost use Rattle.std.specs.Prelude.{◌≡◌, ◌⊎◌, ◌<◌, ◌≤◌, IsErrOf, IsSome, length};
ghost use Rattle.pm_types.specs.declared.fault.PageFault.TheVariants.{Failed};
ghost use Rattle.pm_types.specs.declared.limits.TheConstants.{OP_PAGES};
ghost use Rattle.pm_disk.specs.States.{IsLaterState, Rose};
ghost use Rattle.pm_stripe.specs.Fetches.{Fetches, TakesHome};
ghost use Rattle.pm_stripe.specs.Kept.{Holds, HasFrames, IsAway, IsPageOf, held_at, place_at};
ghost use Rattle.pm_stripe.specs.Stripes.{kept, file_of, SameButPages, MayReadOthers};

use crate::held::Held;
use crate::stripe::Stripe;
use pm_disk::PageReader;
use pm_locks::{Locks, PageSeat};
use pm_types::{PageFault, PageId};
use std::sync::Wait;

/// Where a page in hand stands, or how many there are.
#[inline(always)]
pub(crate) fn place(held: &[Held], page: PageId) -> usize
    ensures { result ≡ place_at held.now page.0 }
{
    'each: for (i, one) in held.iter().enumerate() {
        if one.page == page {
            return i;
        }
    }
    held.len()
}

impl Stripe {
    // Takes the page from the frame that keeps it, if one does. A frame that was given to another page is
    // forgotten.
    #[inline(always)]
    pub(crate) fn take_home<Q: Wait>(
        &mut self,
        rt: &Q,
        locks: &Locks,
        seat: &mut PageSeat,
        page: PageId,
    ) -> bool
        requires holds { Holds locks.now (kept self.old seat.old) }
        requires frames { HasFrames (kept self.old seat.old) }
        requires away { IsAway (kept self.old seat.old) page }
        ensures takes { TakesHome locks.now (kept self.old seat.old) (kept self.new seat.new) page result }
        ensures same { SameButPages self.old self.new }
    {
        let Some((frame, tag)) = self.places.get(page) else {
            return false;
        };
        self.take_kept(rt, locks, seat, page, frame, tag)
    }

    // Brings a page into hand. `false`: there is none.
    //
    // `Failed` comes only where a call on the disk failed, and `BadPage`, which names the page, only where it
    // fails its check. Nothing more is in hand then.
    #[inline(always)]
    pub(crate) fn fetch<Q: Wait, R: PageReader>(
        &mut self,
        rt: &Q,
        locks: &Locks,
        seat: &mut PageSeat,
        reader: &mut R,
        page: PageId,
    ) -> Result<bool, PageFault>
        requires holds { Holds locks.now (kept self.old seat.old) }
        requires frames { HasFrames (kept self.old seat.old) }
        requires own { IsPageOf locks.now.workers self.old.shape.partitions self.old.number page }
        requires room { IsSome (held_at self.old.held.items page.0) ⊎ (length self.old.held.items < OP_PAGES) }
        requires reads { MayReadOthers locks.now.workers (R.state reader.old) (kept self.old seat.old) }
        ensures fetches { Fetches locks.now (kept self.old seat.old) (kept self.new seat.new) page R.tells
            (file_of self.old (R.history reader.old) page) result }
        ensures world { R.tells → (R.history reader.new).world ≡ (R.history reader.old).world }
        ensures later { IsLaterState (R.state reader.old) (R.state reader.new) }
        ensures failed { IsErrOf result Failed → Rose (R.state reader.old) (R.state reader.new) }
        ensures same { SameButPages self.old self.new }
    {
        if place(&self.held, page) < self.held.len() {
            return Ok(true);
        }
        self.bring(rt, locks, seat, reader, page)
    }

    // Brings a page that isn't in hand into hand, as `fetch` does.
    #[inline(never)]
    pub(crate) fn bring<Q: Wait, R: PageReader>(
        &mut self,
        rt: &Q,
        locks: &Locks,
        seat: &mut PageSeat,
        reader: &mut R,
        page: PageId,
    ) -> Result<bool, PageFault>
        requires holds { Holds locks.now (kept self.old seat.old) }
        requires frames { HasFrames (kept self.old seat.old) }
        requires own { IsPageOf locks.now.workers self.old.shape.partitions self.old.number page }
        requires room { IsSome (held_at self.old.held.items page.0) ⊎ (length self.old.held.items < OP_PAGES) }
        requires not_in_hand { length self.old.held.items ≤ place_at self.old.held.items page.0 }
        requires reads { MayReadOthers locks.now.workers (R.state reader.old) (kept self.old seat.old) }
        ensures fetches { Fetches locks.now (kept self.old seat.old) (kept self.new seat.new) page R.tells
            (file_of self.old (R.history reader.old) page) result }
        ensures world { R.tells → (R.history reader.new).world ≡ (R.history reader.old).world }
        ensures later { IsLaterState (R.state reader.old) (R.state reader.new) }
        ensures failed { IsErrOf result Failed → Rose (R.state reader.old) (R.state reader.new) }
        ensures same { SameButPages self.old self.new }
    {
        if self.take_home(rt, locks, seat, page) {
            return Ok(true);
        }
        if !self.files {
            return Ok(false);
        }
        self.read_page(reader, page, locks, seat)
    }
}
