//! A job's pages are written, each from its copy or from its frame.

ghost use Rattle.std.specs.Prelude.{length};
ghost use Rattle.pm_disk.specs.States.{HasCause};
ghost use Rattle.pm_flush.specs.Done.{IsEmpty, HasRoomFor, KeepsRoom};
ghost use Rattle.pm_flush.specs.Flushes.{WritesDue};
ghost use Rattle.pm_flush.specs.Frames.{TakesImages, RefusesFrames};
ghost use Rattle.pm_flush.specs.Seats.{MayFlush, StaysFlusher};
ghost use Rattle.pm_flush.specs.Jobs.{IsJob, MayWriteAll, HasShortFrames, CopiesHavePageSize};
ghost use Rattle.pm_flush.specs.Jobs.{SplitsJob, asked_of};

use crate::copies::CopyList;
use crate::done::FlushDone;
use crate::due_page::DuePage;
use crate::one_page::write_page;
use pm_disk::{Failed, PageWriter};
use pm_locks::{Locks, PageSeat};

/// Writes a job's pages, in the job's order: a page that is copied as its copy has it, and each other one as the
/// image that is due of its frame. Frames are taken one at a time, and put back as Done. A page whose frame isn't
/// to be had, since it moved or is out, is left.
///
/// - `written` has the pages that were written, and `left` those that were left: together the whole job.
/// - After `Failed` they have the pages before the one at hand, which may have been written or not. Where that
///   isn't copied its frame is Done, and its image counts as taken.
/// - No other frame is taken, and none is out at the return. No other page is written.
///
/// The seat is the flusher's own in a round, and between two rounds that of all numbers.
pub fn flush<W: PageWriter>(
    locks: &Locks,
    seat: &mut PageSeat,
    job: &[DuePage],
    copies: &CopyList,
    writer: &mut W,
    done: &mut FlushDone,
) -> Result<(), Failed>
    requires seat { MayFlush locks.now seat.old }
    requires job { IsJob locks.now job.now }
    requires allowed { MayWriteAll (W.state writer.old) job.now }
    requires short { HasShortFrames locks.now }
    requires copies { CopiesHavePageSize locks.now copies.now.pages }
    requires empty { IsEmpty done.old }
    requires room { HasRoomFor (length job.now) done.old }

    // What became of the job's pages.
    ensures splits { SplitsJob job.now done.new.written.items done.new.left.items result }
    ensures writes { W.tells → WritesDue (W.history writer.old) (W.history writer.new) result
        copies.now.pages seat.old.view job.now
        (asked_of job.now done.new.written.items done.new.left.items result) }
    ensures refused { RefusesFrames seat.old.view seat.new.view copies.now.pages job.now done.new.left.items }

    // What the flusher has.
    ensures seat { StaysFlusher locks.now seat.old seat.new }
    ensures images { TakesImages seat.old.view seat.new.view copies.now.pages job.now
        (asked_of job.now done.new.written.items done.new.left.items result) }
    ensures room { KeepsRoom done.old done.new }

    ensures cause { HasCause (W.state writer.old) (W.state writer.new) result }
    ensures allowed { MayWriteAll (W.state writer.new) job.now }
{
    'pages: for due in job {
        let is_written = write_page(locks, seat, *due, copies, writer)?;
        done.note(due.page, is_written);
    }
    Ok(())
}
