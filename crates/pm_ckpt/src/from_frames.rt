//! A checkpoint of the pages that stand in page frames, as one call.

ghost use Rattle.std.specs.Prelude.{◌≡◌, ◌+◌, ℕ, List, Some, IfOk, OnOk, OnErr, All, length};
ghost use Rattle.pm_types.specs.declared.flag.Flag.TheVariants as flag;
ghost use Rattle.pm_types.specs.declared.shape.Shape.{Shape};
ghost use Rattle.pm_disk.specs.Moments.{AllMoments};
ghost use Rattle.pm_disk.specs.States.{HasCause, IsUsable};
ghost use Rattle.pm_marks.specs.Slots.{IsMark};
ghost use Rattle.pm_segments.specs.Ends.{EndsThere};
ghost use Rattle.pm_core.specs.BasePages.{Partitions};
ghost use Rattle.pm_core.specs.Calls.{ChangesDisk};
ghost use Rattle.pm_core.specs.PageSets.{AreOnce, no_page};
ghost use Rattle.pm_core.specs.States.{State};
ghost use Rattle.pm_ckpt.specs.Marked.{mark_for, begin_of, log_after, kept_segment, spent};
ghost use Rattle.pm_ckpt.specs.Checkpoints.{CanCheckpoint, MayCheckpoint};
ghost use Rattle.pm_ckpt.specs.Checkpoints.{MakesWhole, MakesInOrder, IsEnded, LeavesLog};
ghost use Rattle.pm_ckpt.specs.Dirty.{dirty_pages, dirty_held, AreResting};
ghost use Rattle.pm_ckpt.specs.Dirty.{IsNext, LeavesFrames, LeavesPages};
ghost use Rattle.pm_ckpt.specs.Frames.{IsWholeSeat, IsFlagged, AreApart, CleansSeat};
ghost use Rattle.pm_ckpt.specs.Frames.{names_of, AreInFrames, HaveLength};

use crate::begin::begin_marked;
use crate::ckpt::Ckpt;
use crate::dirty::gather;
use crate::ending::finish_frames;
use crate::frame_page::FramePage;
use crate::mark::next_mark;
use crate::order::fill;
use pm_core::{Idle, PageSet};
use pm_disk::{Failed, Host};
use pm_locks::{Locks, PageSeat};
use pm_segments::Log;
use pm_stripe::Stripe;
use pm_types::{Mark, PageId, Place};

impl Ckpt {
    /// Makes the next checkpoint of the pages that stand in page frames, while no thread has a frame. Its pages
    /// are those of the Dirty frames, as the stripe of each frame's owner keeps them. These are its steps, and
    /// it takes no memory:
    ///
    /// 1. its CP_BEGIN is appended, and the log forced past it;
    /// 2. its start marker is written and forced;
    /// 3. each Dirty frame becomes Due;
    /// 4. each page is written once, by rising partition and index, from its frame, which becomes Done, and then
    ///    their files are forced;
    /// 5. its end marker is written and forced;
    /// 6. each of the frames becomes Clean;
    /// 7. the segments below the CP_BEGIN and the replay place are removed, and their absence forced.
    ///
    /// A restart applies the log from `replay` on, and from just after the CP_BEGIN where that is None.
    ///
    /// After `Failed` a prefix of these steps was done, and no frame is out. The store has to be opened again
    /// then: no other checkpoint is to be made, and nothing appended to the log.
    pub fn whole<H: Host>(
        &mut self,
        host: &mut H,
        log: &mut Log,
        locks: &Locks,
        seat: &mut PageSeat,
        stripes: &[Stripe],
        replay: Option<Place>,
    ) -> Result<(), Failed>
        requires usable { IsUsable (H.Device.state host.old) }
        requires room { self.old.room ≡ Some (length locks.now.ranges) }
        requires mark { IsMark (mark_for self.old log.old replay) }
        requires seat { IsWholeSeat locks.now seat.old }
        requires stripes { AreResting locks.now self.old.shape seat.old stripes.now }
        requires end { H.Device.tells → EndsThere log.old (H.Device.history host.old).world }

        ensures next { OnOk result (IsNext (mark_for self.old log.old replay) self.old self.new log.old log.new) }
        ensures spent { OnErr result (self.new ≡ spent self.old) }
        ensures frames { LeavesFrames H.Device.tells locks.now self.old.shape (H.Device.history host.old)
            (H.Device.history host.new) result seat.old seat.new stripes.now }

        // What it leaves of the log of any store: no segment from the first one that is kept on loses what it has.
        ensures ends { H.Device.tells → OnOk result (LeavesLog (kept_segment (mark_for self.old log.old replay))
            log.old log.new (H.Device.history host.old).world (H.Device.history host.new).world) }

        // From each state of the disk machine in which this checkpoint may be made: its steps were, each of
        // which meets its guard. A store that wasn't sound when it was opened may be in no such state.
        ensures steps { H.Device.tells → (wanted : Shape) (told : List ℕ → ℕ) (s : State)
            → (can : CanCheckpoint wanted told s log.old (mark_for self.old log.old replay)
            (dirty_held locks.now stripes.now seat.old.view) (dirty_pages locks.now stripes.now seat.old.view)
            (H.Device.history host.old).world)
            → MakesWhole told (H.Device.history host.old) (H.Device.history host.new) result log.old
            (mark_for self.old log.old replay) can.rebuilt (dirty_held locks.now stripes.now seat.old.view)
            (dirty_pages locks.now stripes.now seat.old.view) s }
        ensures ended { H.Device.tells
            → MayCheckpoint log.old (mark_for self.old log.old replay)
            (dirty_held locks.now stripes.now seat.old.view) (dirty_pages locks.now stripes.now seat.old.view)
            (H.Device.history host.old).world
            → OnOk result (IsEnded self.old.shape.page_size log.old (mark_for self.old log.old replay)
            (dirty_held locks.now stripes.now seat.old.view) (dirty_pages locks.now stripes.now seat.old.view)
            (H.Device.history host.new).world) }
        ensures disk { H.Device.tells → AllMoments (H.Device.history host.old) (H.Device.history host.new)
            (ChangesDisk (H.Device.history host.old).world) }
        ensures cause { HasCause (H.Device.state host.old) (H.Device.state host.new) result }
    {
        let mark = next_mark(self.shape, self.mark, log, replay);
        gather(
            locks,
            seat,
            stripes,
            self.frames,
            &mut self.pages,
            &mut self.order,
        );
        let mut idle = self.idle.take().unwrap();
        let mut set = idle.take_set().unwrap();
        fill(&mut set, &self.order);
        self.idle = Some(checkpoint_frames(
            host,
            log,
            idle,
            mark,
            set,
            locks,
            seat,
            &self.pages,
            &self.order,
        )?);
        self.mark = Some(mark);
        Ok(())
    }
}

// Makes the checkpoint with this mark, whose pages stand in these frames and are written in this order, and
// gives back the set of its pages, emptied.
fn checkpoint_frames<H: Host>(
    host: &mut H,
    log: &mut Log,
    idle: Idle,
    mark: Mark,
    set: PageSet,
    locks: &Locks,
    seat: &mut PageSeat,
    pages: &[FramePage],
    order: &[PageId],
) -> Result<Idle, Failed>
    requires usable { IsUsable (H.Device.state host.old) }
    requires mark { IsMark mark }
    requires begin { mark.begin ≡ begin_of log.old }
    requires set { set.pages ≡ order.now }
    requires once { AreOnce order.now }
    requires names { order.now ≡ names_of pages.now }
    requires seat { IsWholeSeat locks.now seat.old }
    requires apart { AreApart pages.now }
    requires dirty { All (IsFlagged locks.now flag.Dirty seat.old.view) pages.now }
    requires sized { HaveLength mark.shape.page_size seat.old.view pages.now }
    requires held { (held : Partitions) × AreInFrames held seat.old.view pages.now }
    requires end { H.Device.tells → EndsThere log.old (H.Device.history host.old).world }
    ensures idle { IfOk result (λ idle. idle ≡ Some (no_page (length set.pages + set.spare))) }
    ensures log { OnOk result (log.new ≡ log_after log.old mark) }
    ensures ends { H.Device.tells → OnOk result (LeavesLog (kept_segment mark) log.old log.new
        (H.Device.history host.old).world (H.Device.history host.new).world) }
    ensures frames { CleansSeat locks.now pages.now result seat.old seat.new }
    ensures steps { H.Device.tells → (held : Partitions) → AreInFrames held seat.old.view pages.now
        → (wanted : Shape) (told : List ℕ → ℕ) (s : State)
        → (can : CanCheckpoint wanted told s log.old mark held order.now (H.Device.history host.old).world)
        → MakesInOrder told (H.Device.history host.old) (H.Device.history host.new) result log.old mark
        can.rebuilt held order.now s }
    ensures pages { H.Device.tells → (held : Partitions) → AreInFrames held seat.old.view pages.now
        → LeavesPages mark.shape.page_size log.old mark held order.now (H.Device.history host.old).world
        (H.Device.history host.new).world result }
    ensures disk { H.Device.tells → AllMoments (H.Device.history host.old) (H.Device.history host.new)
        (ChangesDisk (H.Device.history host.old).world) }
    ensures cause { HasCause (H.Device.state host.old) (H.Device.state host.new) result }
{
    let begun = begin_marked(host, log, idle, mark, set)?;
    let size = mark.shape.page_size;
    let ended = finish_frames(host, begun, locks, seat, pages, order, size)?;
    log.drop_before(host, mark.begin.seg.min(mark.replay.seg))?;
    Ok(ended.idle())
}
