//! Operations of a worker with their replies, and one that looks at a page.

ghost use Rattle.std.specs.Prelude.{◌≡◌, ◌≤◌, OnOk};
ghost use Rattle.pm_pages.specs.Paged.{AllReadable};
ghost use Rattle.pm_part.specs.Commands.{IsPartCmd};
ghost use Rattle.pm_stripe.specs.Begins.{IsOwnPart};
ghost use Rattle.pm_stripe.specs.Bounds.{IsBound};
ghost use Rattle.pm_stripe.specs.Covers.{NotesChanges};
ghost use Rattle.pm_stripe.specs.Idle.{IsIdle};
ghost use Rattle.pm_stripe.specs.Shown.{shown};

use crate::bound_pages::operate;
use crate::worker_pages::stop::Stop;
use pm_disk::PageReader;
use pm_model::{Cmd, Replies};
use pm_pages::Pages;
use pm_part::Part;
use pm_stripe::{Bound, Halt};
use std::alloc::Global;
use std::sync::Wait;

/// Does a command as the operation with this line, and gives its reply.
pub fn answer<'a, Q: Wait, R: PageReader>(
    alloc: Global,
    pages: &mut Bound<'a, Q, R>,
    part: &Part,
    cmd: &Cmd,
    line: u32,
) -> Result<Replies, Stop>
    requires idle { IsIdle R.tells R.history R.state pages.old }
    requires cmd { IsPartCmd part.now.shape part.now.part cmd.now }
    ensures bound { IsBound R.tells R.history R.state pages.new }
    ensures readable { AllReadable (shown R.history R.state pages.new) }
    ensures idle { OnOk result (IsIdle R.tells R.history R.state pages.new) }
    ensures part { pages.new.part ≡ pages.old.part }
    ensures own { IsOwnPart pages.new pages.new.part }
    ensures locks { pages.new.locks ≡ pages.old.locks }
{
    let mut replies = Replies::with_room(alloc, 1)?;
    if operate(pages, part, cmd, &mut replies, line)? {
        Ok(replies)
    } else {
        Err(Stop::Failed)
    }
}

// Whether a page is there with these bytes.
fn has_bytes<P: Pages>(pages: &mut P, index: u32, bytes: &[u8]) -> bool
    requires ready { P.ready pages.old }
    requires room { 1 ≤ (P.seen pages.old).spare }
    requires readable { AllReadable (P.seen pages.old) }
    ensures kept { P.kept pages.old pages.new }
    ensures readable { AllReadable (P.seen pages.new) }
    ensures notes { NotesChanges P.tells (P.seen pages.old) (P.seen pages.new) }
{
    match pages.view(index) {
        Ok(Some(page)) => page == bytes,
        _ => false,
    }
}

/// An operation that looks whether a page is there with these bytes.
pub fn look<'a, Q: Wait, R: PageReader>(
    pages: &mut Bound<'a, Q, R>,
    index: u32,
    bytes: &[u8],
) -> Result<bool, Halt>
    requires idle { IsIdle R.tells R.history R.state pages.old }
    ensures bound { IsBound R.tells R.history R.state pages.new }
    ensures idle { OnOk result (IsIdle R.tells R.history R.state pages.new) }
{
    pages.ready()?;
    let is_there = has_bytes(pages, index, bytes);
    pages.done(0, None);
    Ok(is_there)
}
