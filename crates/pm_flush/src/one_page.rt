//! One page is written, from its copy or from its frame.

ghost use Rattle.std.specs.Prelude.{◌≡◌, ◌≤◌, true, false, None, length};
ghost use Rattle.pm_types.specs.declared.limits.TheConstants.{PAGE_SIZE_MAX};
ghost use Rattle.pm_disk.specs.Moments.{WritesPage};
ghost use Rattle.pm_disk.specs.States.{HasCause, MayWrite};
ghost use Rattle.pm_locks.specs.Sight.{IsFrameOf};
ghost use Rattle.pm_flush.specs.Copies.{copy_of};
ghost use Rattle.pm_flush.specs.Frames.{bytes_due, image_of};
ghost use Rattle.pm_flush.specs.Seats.{MayFlush, StaysFlusher};
ghost use Rattle.pm_flush.specs.Jobs.{HasShortFrames, CopiesHavePageSize};
ghost use Rattle.pm_flush.specs.Steps.{is_asked, TriesPage};

use crate::copies::CopyList;
use crate::due_page::DuePage;
use pm_disk::{Failed, PageWriter};
use pm_locks::{FlushTake, Locks, PageSeat};
use pm_types::Flag;

/// Writes a page that is due, and answers whether it did: its copy where there is one, and else the image in its
/// frame. Where its frame isn't to be had it is left.
pub(crate) fn write_page<W: PageWriter>(
    locks: &Locks,
    seat: &mut PageSeat,
    due: DuePage,
    copies: &CopyList,
    writer: &mut W,
) -> Result<bool, Failed>
    requires seat { MayFlush locks.now seat.old }
    requires frame { IsFrameOf locks.now due.frame }
    requires allowed { MayWrite (W.state writer.old) due.page }
    requires short { HasShortFrames locks.now }
    requires copies { CopiesHavePageSize locks.now copies.now.pages }
    ensures seat { StaysFlusher locks.now seat.old seat.new }
    ensures tries { TriesPage (copy_of copies.now.pages due.page) (is_asked result)
        seat.old.view seat.new.view due }
    ensures writes { W.tells → is_asked result ≡ true
        → WritesPage (W.history writer.old) (W.history writer.new) result due.page
        (bytes_due copies.now.pages seat.old.view due) }
    ensures unwritten { is_asked result ≡ false → writer.new ≡ writer.old }
    ensures cause { HasCause (W.state writer.old) (W.state writer.new) result }
{
    match copies.get(due.page) {
        Some(copy) => write_bytes(due, copy, writer),
        None => write_frame(locks, seat, due, writer),
    }
}

// Writes a page with these bytes, and answers true.
fn write_bytes<W: PageWriter>(due: DuePage, bytes: &[u8], writer: &mut W) -> Result<bool, Failed>
    requires allowed { MayWrite (W.state writer.old) due.page }
    requires short { length bytes.now ≤ PAGE_SIZE_MAX }
    ensures asked { is_asked result ≡ true }
    ensures writes { W.tells
        → WritesPage (W.history writer.old) (W.history writer.new) result due.page bytes.now }
    ensures cause { HasCause (W.state writer.old) (W.state writer.new) result }
{
    writer.write_page(due.page, bytes)?;
    Ok(true)
}

// Writes the image that is due of the page's frame, and answers whether it did.
//
// Where the write fails the frame is put back all the same: what was Due can be put back as nothing but Done.
fn write_frame<W: PageWriter>(
    locks: &Locks,
    seat: &mut PageSeat,
    due: DuePage,
    writer: &mut W,
) -> Result<bool, Failed>
    requires seat { MayFlush locks.now seat.old }
    requires frame { IsFrameOf locks.now due.frame }
    requires allowed { MayWrite (W.state writer.old) due.page }
    requires short { HasShortFrames locks.now }
    ensures seat { StaysFlusher locks.now seat.old seat.new }
    ensures tries { TriesPage None (is_asked result) seat.old.view seat.new.view due }
    ensures writes { W.tells → is_asked result ≡ true
        → WritesPage (W.history writer.old) (W.history writer.new) result due.page
        (image_of seat.old.view due) }
    ensures unwritten { is_asked result ≡ false → writer.new ≡ writer.old }
    ensures cause { HasCause (W.state writer.old) (W.state writer.new) result }
{
    match locks.flush_take(seat, due.frame, due.tag, Flag::Due) {
        FlushTake::Got(lease) => {
            let written = write_bytes(due, lease.bytes(), writer);
            locks.flush_put(seat, due.frame, lease, Flag::Done);
            written
        }
        FlushTake::Moved => Ok(false),
        FlushTake::Busy(_) => Ok(false),
    }
}
