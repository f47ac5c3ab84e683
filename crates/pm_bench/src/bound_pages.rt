//! Operations of a worker on one of its partitions, each by code that works over any pages.

ghost use Rattle.std.specs.Prelude.{◌≡◌, ◌%◌, ◌<◌, ◌≤◌, true, IfOk};
ghost use Rattle.std.specs.FinMap as map;
ghost use Rattle.pm_types.specs.declared.limits.TheConstants.{OP_PAGES};
ghost use Rattle.pm_pages.specs.Paged.{AllReadable};
ghost use Rattle.pm_part.specs.Commands.{IsPartCmd};
ghost use Rattle.pm_stripe.specs.Begins.{IsOwnPart};
ghost use Rattle.pm_stripe.specs.Bounds.{IsBound};
ghost use Rattle.pm_stripe.specs.Covers.{NotesChanges};
ghost use Rattle.pm_stripe.specs.Idle.{IsIdle};
ghost use Rattle.pm_stripe.specs.Shown.{shown};
ghost use Rattle.pm_stripe.specs.Stripes.{kept, IsAtRest, MayReadOthers};

use pm_disk::PageReader;
use pm_locks::{Locks, PageSeat};
use pm_model::{Cmd, Replies};
use pm_pages::Pages;
use pm_part::Part;
use pm_stripe::{Bound, Halt, Stripe};
use std::sync::Wait;

/// Binds a stripe that keeps no page yet, for operations on one of its partitions.
pub fn bind<'a, Q: Wait, R: PageReader>(
    rt: &'a Q,
    locks: &'a Locks,
    stripe: Stripe,
    seat: PageSeat,
    reader: R,
    part: u16,
) -> Bound<'a, Q, R>
    requires rest { IsAtRest locks.now (kept stripe seat) }
    requires reads { MayReadOthers locks.now.workers (R.state reader) (kept stripe seat) }
    requires new { stripe.places.table.entries ≡ map.empty }
    requires there { part < stripe.shape.partitions }
    requires own { part % locks.now.workers ≡ stripe.number }
    ensures idle { IsIdle R.tells R.history R.state result }
    ensures part { result.part ≡ part }
    ensures locks { result.locks.now ≡ locks.now }
{
    let mut pages = Bound::new(rt, locks, stripe, seat, reader);
    pages.at(part);
    pages
}

/// Does a command, and says whether it succeeded.
pub fn run_over<P: Pages>(pages: &mut P, part: &Part, cmd: &Cmd, replies: &mut Replies) -> bool
    requires ready { P.ready pages.old }
    requires room { OP_PAGES ≤ (P.seen pages.old).spare }
    requires cmd { IsPartCmd part.now.shape part.now.part cmd.now }
    requires readable { AllReadable (P.seen pages.old) }
    requires spare { 0 < replies.old.spare }
    ensures kept { P.kept pages.old pages.new }
    ensures readable { AllReadable (P.seen pages.new) }
    ensures notes { result ≡ true → NotesChanges P.tells (P.seen pages.old) (P.seen pages.new) }
{
    match part.run(cmd, pages, replies) {
        Ok(()) => true,
        Err(_) => false,
    }
}

/// Does a command as the operation with this line, and says whether it succeeded.
pub fn operate<'a, Q: Wait, R: PageReader>(
    pages: &mut Bound<'a, Q, R>,
    part: &Part,
    cmd: &Cmd,
    replies: &mut Replies,
    line: u32,
) -> Result<bool, Halt>
    requires idle { IsIdle R.tells R.history R.state pages.old }
    requires cmd { IsPartCmd part.now.shape part.now.part cmd.now }
    requires spare { 0 < replies.old.spare }
    ensures bound { IsBound R.tells R.history R.state pages.new }
    ensures readable { AllReadable (shown R.history R.state pages.new) }
    ensures idle { IfOk result (λ done. done ≡ true → IsIdle R.tells R.history R.state pages.new) }
    ensures part { pages.new.part ≡ pages.old.part }
    ensures own { IsOwnPart pages.new pages.new.part }
    ensures locks { pages.new.locks ≡ pages.old.locks }
{
    pages.ready()?;
    if run_over(pages, part, cmd, replies) {
        pages.done(line, None);
        Ok(true)
    } else {
        Ok(false)
    }
}

/// Takes all that the outbox has.
pub fn send<'a, Q: Wait, R: PageReader>(pages: &mut Bound<'a, Q, R>)
    requires { IsIdle R.tells R.history R.state pages.old }
    ensures { IsIdle R.tells R.history R.state pages.new }
{
    let len = pages.outbox().len();
    pages.sent(len);
}
