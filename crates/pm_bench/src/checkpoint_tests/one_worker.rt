//! One worker on the caller's thread, whose seat stands for all numbers: rounds, and checkpoints between them.

ghost use Rattle.std.specs.Prelude.{◌≡◌, ◌∷◌, [], Some, None, OnOk, IfOk, length};
ghost use Rattle.pm_marks.specs.Slots.{IsMark};
ghost use Rattle.pm_segments.specs.Ends.{EndsThere};
ghost use Rattle.pm_ckpt.specs.Dirty.{NoneStays};
ghost use Rattle.pm_ckpt.specs.Marked.{mark_for};
ghost use Rattle.pm_stripe.specs.Bounds.{IsBound};
ghost use Rattle.pm_bench.specs.OneWorker.{IsBetween};

use pm_ckpt::Ckpt;
use pm_disk::{Failed, Host};
use pm_locks::{Locks, PageSeat};
use pm_segments::Log;
use pm_stripe::{Bound, Stripe};
use std::slice;
use std::sync::Wait;

// Makes a stripe's pages ready, and ends the round.
fn round<H: Host, Q: Wait>(
    rt: &Q,
    locks: &Locks,
    stripe: Stripe,
    seat: PageSeat,
    host: H,
) -> (Stripe, PageSeat, H)
    requires between { IsBetween H.Device.tells (H.Device.history host) (H.Device.state host) locks.now seat stripe }
    ensures host { result.2 ≡ host }
    ensures shape { result.0.shape ≡ stripe.shape }
    ensures between { IsBetween H.Device.tells (H.Device.history result.2) (H.Device.state result.2) locks.now result.1
        result.0 }
{
    let mut pages = Bound::new(rt, locks, stripe, seat, host);
    let _ready = pages.ready();
    pages.end()
}

// Makes a checkpoint between two rounds. Where it is ended the files have pages, and no page stays in its frame.
fn checkpoint<H: Host>(
    ckpt: &mut Ckpt,
    host: &mut H,
    log: &mut Log,
    locks: &Locks,
    seat: &mut PageSeat,
    mut stripe: Stripe,
) -> (Stripe, Result<(), Failed>)
    requires between { IsBetween H.Device.tells (H.Device.history host.old) (H.Device.state host.old) locks.now seat.old
        stripe }
    requires shape { ckpt.old.shape ≡ stripe.shape }
    requires room { ckpt.old.room ≡ Some (length locks.now.ranges) }
    requires mark { IsMark (mark_for ckpt.old log.old None) }
    requires end { H.Device.tells → EndsThere log.old (H.Device.history host.old).world }
    ensures between { OnOk result.1 (IsBetween H.Device.tells (H.Device.history host.new) (H.Device.state host.new)
        locks.now seat.new result.0) }
    ensures none { OnOk result.1 (NoneStays seat.new (result.0 ∷ [])) }
{
    let made = ckpt.whole(host, log, locks, seat, slice::from_ref(&stripe), None);
    stripe.has_files();
    (stripe, made)
}

// A round, then a checkpoint, and the stripe is bound for the next round.
fn round_and_checkpoint<'a, H: Host + Drop, Q: Wait>(
    rt: &'a Q,
    locks: &'a Locks,
    stripe: Stripe,
    seat: PageSeat,
    host: H,
    log: &mut Log,
    ckpt: &mut Ckpt,
) -> Result<Bound<'a, Q, H>, Failed>
    requires between { IsBetween H.Device.tells (H.Device.history host) (H.Device.state host) locks.now seat stripe }
    requires shape { ckpt.old.shape ≡ stripe.shape }
    requires room { ckpt.old.room ≡ Some (length locks.now.ranges) }
    requires mark { IsMark (mark_for ckpt.old log.old None) }
    requires end { H.Device.tells → EndsThere log.old (H.Device.history host).world }
    ensures bound { IfOk result (IsBound H.Device.tells H.Device.history H.Device.state) }
    ensures between { IfOk result (λ pages. IsBetween H.Device.tells (H.Device.history pages.reader)
        (H.Device.state pages.reader) locks.now pages.seat pages.stripe) }
{
    let (stripe, mut seat, mut host) = round(rt, locks, stripe, seat, host);
    let (stripe, made) = checkpoint(ckpt, &mut host, log, locks, &mut seat, stripe);
    made?;
    Ok(Bound::new(rt, locks, stripe, seat, host))
}
