//! A round ends: all that is in hand is put back.

ghost use Rattle.std.specs.Prelude.{◌≡◌, ◌<◌, length};
ghost use Rattle.pm_types.specs.PageSizes.{IsPageSize};
ghost use Rattle.pm_locks.specs.Sight.{LockTable, Sight};
ghost use Rattle.pm_stripe.specs.Ends.{next_sweep};
ghost use Rattle.pm_stripe.specs.Kept.{Holds, AreClean};
ghost use Rattle.pm_stripe.specs.Marks.{MarksPage, MarksPages};
ghost use Rattle.pm_stripe.specs.Puts.{PutsHeld};
ghost use Rattle.pm_stripe.specs.Stripes.{kept, file_of, IsAtRest, MayReadOthers, SameButPages};

use crate::bound::Bound;
use crate::lending::whole_patch;
use crate::stripe::Stripe;
use pm_disk::PageReader;
use pm_locks::{Locks, PageSeat};
use pm_types::FrameNo;

impl<'a, Q, R: PageReader> Bound<'a, Q, R> {
    ghost use Rattle.pm_stripe.specs.Bounds.{IsBound};
    ghost use Rattle.pm_stripe.specs.Ends.{EndsRound};

    /// Puts all that is in hand back, empty frames as Empty, and gives the stripe, the seat and the reader.
    /// They may be bound again, and no frame is out. The next round's sweep begins with the first of these empty
    /// frames, so that a round of one operation doesn't empty frames of more pages than it asks for.
    ///
    /// It may be called in the middle of an operation, as after a fault: each page that was lent to be written
    /// is then Dirty, with the bytes that it has in hand, whatever was noted of it; one that was only read is
    /// Clean where it was read from its file, and else has the flag that it had. The outbox stays as it is, so
    /// such a change isn't logged.
    pub fn end(self) -> (Stripe, PageSeat, R)
        requires bound { IsBound R.tells R.history R.state self }
        ensures rest { IsAtRest self.entry.locks.now (kept result.0 result.1) }
        ensures reads { MayReadOthers self.entry.locks.now.workers (R.state result.2) (kept result.0 result.1) }
        ensures clean { R.tells → AreClean (file_of result.0 (R.history result.2)) (kept result.0 result.1) }
        ensures ends { EndsRound R.tells R.history self.entry result.0 result.1 }
        ensures reader { result.2 ≡ self.entry.reader }
    {
        let Bound {
            rt: _,
            locks,
            mut stripe,
            mut seat,
            reader,
            part: _,
            is_ready: _,
        } = self;
        stripe.put_back(locks, &mut seat);
        stripe.next = next_sweep(&stripe);
        stripe.put_free(locks, &mut seat);
        (stripe, seat, reader)
    }
}

// Where the next sweep begins: with the first empty frame in hand, if there is one.
fn next_sweep(stripe: &Stripe) -> FrameNo
    ensures { result ≡ next_sweep stripe.now }
{
    match stripe.free.first() {
        Some(free) => free.frame,
        None => stripe.next,
    }
}

impl Stripe {
    // Puts the pages in hand back, of an operation that isn't ended: each that was lent counts as changed as a
    // whole.
    pub(crate) fn put_back(&mut self, locks: &Locks, seat: &mut PageSeat)
        requires holds { Holds locks.now (kept self.old seat.old) }
        ensures puts { PutsHeld locks.now (kept self.old seat.old) (kept self.new seat.new) }
        ensures same { SameButPages self.old self.new }
    {
        self.mark_lent();
        self.put_all(locks, seat);
    }

    // Takes each page in hand that was lent for changed as a whole.
    fn mark_lent(&mut self)
        requires size { IsPageSize self.old.shape.page_size }
        ensures marks { (locks : LockTable) (seat : Sight) → Holds locks (kept self.old seat)
            → MarksPages locks (length self.old.held.items) (kept self.old seat) (kept self.new seat) }
        ensures same { SameButPages self.old self.new }
    {
        'each: for at in 0..self.held.len() {
            self.mark(at);
        }
    }

    // Takes the page in this place for changed as a whole, where it was lent.
    fn mark(&mut self, at: usize)
        requires there { at < length self.old.held.items }
        requires size { IsPageSize self.old.shape.page_size }
        ensures { MarksPage self.old self.new at }
    {
        let whole = whole_patch(self.shape.page_size);
        if self.held[at].is_lent {
            self.held[at].patch = Some(whole);
        }
    }
}
