//! An operation ends: its records go to the outbox, and its pages back into their frames.

ghost use Rattle.std.specs.Prelude.{◌≡◌, []};
ghost use Rattle.std.specs.Option.{option_copied};
ghost use Rattle.pm_stripe.specs.Kept.{Holds};
ghost use Rattle.pm_stripe.specs.Listings.{MayBeLogical, given_record, GrowsByOperation};
ghost use Rattle.pm_stripe.specs.Puts.{AreStayingCovered, AreToldCovered, PutsBack};
ghost use Rattle.pm_stripe.specs.Stripes.{kept, SameButPages};

use crate::bound::Bound;
use crate::stripe::Stripe;
use pm_disk::PageReader;
use pm_locks::{Locks, PageSeat};
use pm_records::LogRecord;

impl<'a, Q, R: PageReader> Bound<'a, Q, R> {
    ghost use Rattle.pm_stripe.specs.Dones.{HasOutboxRoom, EndsOperation};
    ghost use Rattle.pm_stripe.specs.Shown.{IsReady};

    /// Ends an operation, which is line `line` of the log writer. The outbox grows by its record, where one is
    /// given, and then by one record of each page that it changed, by rising name; of an operation that has
    /// neither it doesn't grow. A page counts as changed where a patch that isn't empty was noted of it.
    ///
    /// No page is in hand then. The frame of each changed page is Dirty, also where its bytes are as before; a
    /// page that was only read is Clean where it was read from its file, and else has the flag that it had; and
    /// one that was lent and not noted is given up, but for one that stays. Until pages are made ready anew
    /// none may be asked for.
    pub fn done(&mut self, line: u32, rec: Option<&LogRecord<'_>>)
        requires ready { IsReady R.tells R.history R.state self.old }
        requires room { HasOutboxRoom self.old.stripe }
        requires logical { MayBeLogical (given_record (option_copied rec)) }
        // each byte that was changed since the pages were made ready is of its page's patch, of a page that
        // stays in its frame, and of any where the reader's content is told
        requires covered { AreToldCovered R.tells self.old.stripe.held.items }
        ensures grows { GrowsByOperation line (given_record (option_copied rec.entry))
            self.old.stripe.held.items self.old.stripe.outbox self.new.stripe.outbox }
        ensures ends { EndsOperation R.tells R.history R.state self.old self.new }
    {
        self.stripe.outbox.log(line, rec, &self.stripe.held);
        self.stripe.put_all(self.locks, &mut self.seat);
        self.is_ready = false;
    }
}

impl Stripe {
    // Puts the pages in hand back.
    pub(crate) fn put_all(&mut self, locks: &Locks, seat: &mut PageSeat)
        requires holds { Holds locks.now (kept self.old seat.old) }
        requires covered { AreStayingCovered self.old.held.items }
        ensures puts { PutsBack locks.now (kept self.old seat.old) (kept self.new seat.new) }
        ensures none { self.new.held.items ≡ [] }
        ensures same { SameButPages self.old self.new }
    {
        'each: for _ in 0..self.held.len() {
            self.put_last(locks, seat);
        }
    }
}
