//! What one operation may need is brought into hand.

ghost use Rattle.std.specs.Prelude.{◌≡◌, ◌+◌, ◌*◌, false, OnOk, OnErr};
ghost use Rattle.pm_types.specs.PageSizes.{IsPageSize};
ghost use Rattle.pm_types.specs.declared.limits.TheConstants.{OP_EXTRA, OP_PAGES};
ghost use Rattle.pm_locks.specs.Sight.{KnowsAll};
ghost use Rattle.pm_stripe.specs.declared.limits.TheConstants.{PAGE_EXTRA};

use crate::bound::Bound;
use crate::halt::Halt;
use crate::limits::PAGE_EXTRA;
use pm_disk::PageReader;
use pm_types::{OP_EXTRA, OP_PAGES};

impl<'a, Q, R: PageReader> Bound<'a, Q, R> {
    ghost use Rattle.pm_stripe.specs.Begins.{IsOwnPart, MayBegin, MakesReady, IsLacking, AreUntried};
    ghost use Rattle.pm_stripe.specs.Begins.{IsExactHalt};
    ghost use Rattle.pm_stripe.specs.Bounds.{IsBound};
    ghost use Rattle.pm_stripe.specs.Shown.{IsReady};

    /// Brings what one operation may need into hand: 32 empty frames, and room in the outbox for 32 pages and a
    /// record. Then 32 different pages may be asked for, of one partition of the worker's, and the operation's
    /// end hands over what it changed.
    ///
    /// Pages that are in hand, of an operation that wasn't ended, are put back first, as where a round ends:
    /// each that was lent to be written is Dirty then, with the bytes that it has in hand, and no record has
    /// what changed.
    ///
    /// Frames that are at home, Empty or Clean are taken for it. It begins with the frame after the last one
    /// that was tried in this round, or with the first one that the last round put back Empty, tries each at most
    /// once, and none once enough are in hand. No page is lost or changed, whatever is answered.
    ///
    /// - `NoLog`: the outbox has too little room. So many bytes of it are left. No frame was tried.
    /// - `NoCopy`: a checkpoint runs. No page for a copy of a page that it still has to write is in hand: there
    ///   are none yet. No frame was tried. Not used by the program yet, in which no checkpoint runs meanwhile.
    /// - `NoFrame`: of so many frames too few could be taken. Where the seat stands for every worker and the
    ///   flusher, and knows each frame's word, it comes exactly if fewer than 32 can be had.
    ///
    /// They are tested in this order. After one of them no page may be asked for.
    pub fn ready(&mut self) -> Result<(), Halt>
        requires bound { IsBound R.tells R.history R.state self.old }
        ensures begins { OnOk result (MayBegin R.tells R.history R.state self.new) }
        ensures ready { OnOk result (IsOwnPart self.old self.old.part
            → IsReady R.tells R.history R.state self.new) }
        ensures not_ready { OnErr result (self.new.is_ready ≡ false) }
        ensures makes { MakesReady R.tells R.history R.state self.old self.new }
        ensures lacking { IsLacking self.old self.new result }
        ensures untried { AreUntried self.old self.new result }
        ensures exact { KnowsAll self.old.locks.now self.old.seat.view → IsExactHalt self.old result }
    {
        self.is_ready = false;
        self.stripe.put_back(self.locks, &mut self.seat);
        let left = self.stripe.outbox.spare();
        if left < operation_room(self.stripe.shape.page_size) {
            return Err(Halt::NoLog(left));
        }
        if self.stripe.is_running {
            return Err(Halt::NoCopy(0));
        }
        self.stripe.sweep(self.locks, &mut self.seat);
        if self.stripe.free.len() < OP_PAGES as usize {
            return Err(Halt::NoFrame(self.stripe.places.frames()));
        }
        self.is_ready = true;
        Ok(())
    }
}

// How many bytes of outbox one operation may need.
fn operation_room(page_size: u32) -> usize
    requires size { IsPageSize page_size }
    ensures { result ≡ OP_PAGES * (page_size + PAGE_EXTRA) + OP_EXTRA }
{
    OP_PAGES as usize * (page_size as usize + PAGE_EXTRA) + OP_EXTRA
}
