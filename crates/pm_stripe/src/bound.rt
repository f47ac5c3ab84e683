//! A stripe with a seat and a reader: one worker's pages in a round.

ghost use Rattle.std.specs.Prelude.{◌≡◌, ◌≤◌, ◌%◌, ◌<◌, false, length, drop};
ghost use Rattle.pm_stripe.specs.Stripes.{kept, file_of, IsAtRest, MayReadOthers};
ghost use Rattle.pm_stripe.specs.Kept.{AreClean};

use crate::stripe::Stripe;
use pm_disk::PageReader;
use pm_locks::{Locks, PageSeat};

/// One worker's pages in a round: a stripe, with the locks of all frames, the worker's seat at them, and what
/// reads the pages that are in no frame.
pub struct Bound<'a, Q, R> {
    pub(crate) rt: &'a Q,
    pub(crate) locks: &'a Locks,
    pub(crate) stripe: Stripe,
    pub(crate) seat: PageSeat,
    pub(crate) reader: R,
    /// The partition whose pages are meant.
    pub(crate) part: u16,
    /// The last `ready` answered Ok, and no operation ended since.
    pub(crate) is_ready: bool,
}

impl<'a, Q, R: PageReader> Bound<'a, Q, R> {
    ghost use Rattle.pm_stripe.specs.Begins.{MayBegin};
    ghost use Rattle.pm_stripe.specs.Bounds.{IsBound, SameButPart, SameButSent};
    ghost use Rattle.pm_stripe.specs.Shown.{IsReady};

    /// Binds a stripe to the worker's seat and to what reads its pages.
    pub fn new(
        rt: &'a Q,
        locks: &'a Locks,
        stripe: Stripe,
        seat: PageSeat,
        reader: R,
    ) -> Bound<'a, Q, R>
        requires rest { IsAtRest locks.now (kept stripe seat) }
        requires reads { MayReadOthers locks.now.workers (R.state reader) (kept stripe seat) }
        requires clean { R.tells → AreClean (file_of stripe (R.history reader)) (kept stripe seat) }
        ensures bound { IsBound R.tells R.history R.state result }
        ensures stripe { result.stripe ≡ stripe }
        ensures seat { result.seat ≡ seat }
        ensures reader { result.reader ≡ reader }
        ensures locks { result.locks.now ≡ locks.now }
        ensures not_ready { result.is_ready ≡ false }
    {
        Bound {
            rt,
            locks,
            stripe,
            seat,
            reader,
            part: 0,
            is_ready: false,
        }
    }

    /// Names the partition whose pages are meant from here on. Where an operation may begin it may do so still,
    /// on this partition.
    pub fn at(&mut self, part: u16)
        requires there { part < self.old.stripe.shape.partitions }
        requires own { part % self.old.locks.now.workers ≡ self.old.stripe.number }
        ensures part { self.new.part ≡ part }
        ensures same { SameButPart self.old self.new }
        ensures bound { IsBound R.tells R.history R.state self.old
            → IsBound R.tells R.history R.state self.new }
        ensures begins { MayBegin R.tells R.history R.state self.old
            → MayBegin R.tells R.history R.state self.new }
        ensures ready { MayBegin R.tells R.history R.state self.old
            → IsReady R.tells R.history R.state self.new }
    {
        self.part = part;
    }

    /// What its operations hand to the log writer and is not sent yet.
    pub fn outbox(&self) -> &[u8]
        ensures { result.now ≡ self.now.stripe.outbox }
    {
        self.stripe.outbox()
    }

    /// Takes the first so many bytes out of the outbox, which were sent. It may be called between any two
    /// calls, also in the middle of an operation.
    pub fn sent(&mut self, n: usize)
        requires { n ≤ length self.old.stripe.outbox }
        ensures sent { self.new.stripe.outbox ≡ drop n self.old.stripe.outbox }
        ensures same { SameButSent self.old self.new }
        ensures bound { IsBound R.tells R.history R.state self.old
            → IsBound R.tells R.history R.state self.new }
        ensures begins { MayBegin R.tells R.history R.state self.old
            → MayBegin R.tells R.history R.state self.new }
        ensures ready { IsReady R.tells R.history R.state self.old
            → IsReady R.tells R.history R.state self.new }
    {
        self.stripe.sent(n);
    }
}
