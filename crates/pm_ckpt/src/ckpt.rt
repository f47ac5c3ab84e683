//! What is kept for checkpoints, and a checkpoint of pages in lists as one call, for tests.

ghost use Rattle.std.specs.Prelude.{◌≡◌, ◌+◌, ℕ, List, Some, IfOk, OnOk, OnErr, All, length};
ghost use Rattle.pm_types.specs.declared.shape.Shape.{Shape};
ghost use Rattle.pm_disk.specs.Moments.{AllMoments};
ghost use Rattle.pm_disk.specs.States.{HasCause, IsUsable};
ghost use Rattle.pm_marks.specs.Slots.{IsMark};
ghost use Rattle.pm_segments.specs.Ends.{EndsThere};
ghost use Rattle.pm_core.specs.Calls.{ChangesDisk};
ghost use Rattle.pm_core.specs.PageSets.{AreOnce, no_page};
ghost use Rattle.pm_core.specs.States.{State};
ghost use Rattle.pm_ckpt.specs.Marked.{mark_for, begin_of, log_after, kept_segment, HasRoomFor, with_mark, spent};
ghost use Rattle.pm_ckpt.specs.Checkpoints.{CanCheckpoint, MayCheckpoint};
ghost use Rattle.pm_ckpt.specs.Checkpoints.{MakesWhole, MakesInOrder, IsEnded, LeavesLog};
ghost use Rattle.pm_ckpt.specs.Writes.{held_in, IsHeld};

use crate::begin::begin_marked;
use crate::ending::finish_written;
use crate::frame_page::FramePage;
use crate::mark::next_mark;
use crate::order::{arrange, fill};
use pm_core::{Idle, PageSet};
use pm_disk::{Failed, Host};
use pm_pages::PlainPages;
use pm_segments::Log;
use pm_types::{Mark, PageId, Place, Shape};
use std::alloc::{AllocError, Global};
use std::marker::Model;

/// What is kept for checkpoints between them: the start marker in force, and memory for the names of a
/// checkpoint's pages, so that a checkpoint takes none.
#[derive(Drop)]
pub struct Ckpt {
    pub(crate) shape: Shape,
    pub(crate) mark: Option<Mark>,
    // None while a checkpoint runs, and once a call failed.
    pub(crate) idle: Option<Idle>,
    // How many page frames there are, and so how many pages a checkpoint has at most.
    pub(crate) frames: u32,
    // The pages of the last checkpoint that stood in frames, in the order in which they were written.
    pub(crate) pages: Vec<FramePage>,
    // The pages of the last checkpoint, in the order in which they were written.
    pub(crate) order: Vec<PageId>,
}

impl Model for Ckpt {
    ghost use Rattle.std.specs.Vec.{vec_capacity};
    ghost use Rattle.pm_ckpt.specs.Marked.{Kept, room_of, HaveRoom};

    ghost Value = { Kept };

    ghost view = { λ ckpt. record {
      shape = ckpt.shape;
      mark = ckpt.mark;
      room = room_of ckpt.idle;
    } };

    ghost invariant = { λ ckpt. HaveRoom ckpt.idle ckpt.frames (vec_capacity ckpt.pages)
        (vec_capacity ckpt.order) };
}

impl Ckpt {
    /// What is kept for checkpoints of a store with this shape, which has memory for as many pages as there
    /// are `frames`. The store's start marker in force has the mark `mark`; None where it has no start marker.
    ///
    /// It answers `AllocError` where memory for the lists of so many pages runs out.
    pub fn new(
        alloc: Global,
        shape: Shape,
        mark: Option<Mark>,
        frames: u32,
    ) -> Result<Ckpt, AllocError>
        ensures { IfOk result (λ made. made ≡ record { shape = shape; mark = mark; room = Some frames }) }
    {
        let set = PageSet::with_room(alloc, frames)?;
        let pages = Vec::with_capacity(alloc, frames as usize)?;
        let order = Vec::with_capacity(alloc, frames as usize)?;
        Ok(Ckpt {
            shape,
            mark,
            idle: Some(Idle::new(set)),
            frames,
            pages,
            order,
        })
    }

    /// Makes the next checkpoint, of pages in lists. Tests alone call it: the program calls `Ckpt::whole`, which
    /// makes these steps with pages that stand in page frames.
    ///
    /// Its pages are those that `dirty` names, with the bytes that they have in `pages`, where a partition stands
    /// at its number. These are its steps, and it takes no memory:
    ///
    /// 1. its CP_BEGIN is appended, and the log forced past it;
    /// 2. its start marker is written and forced;
    /// 3. each page is written once, by rising partition and index, and then their files are forced;
    /// 4. its end marker is written and forced;
    /// 5. the segments below the CP_BEGIN and the replay place are removed, and their absence forced.
    ///
    /// A restart applies the log from `replay` on, and from just after the CP_BEGIN where that is None.
    ///
    /// After `Failed` a prefix of these steps was done. The store has to be opened again then: no other
    /// checkpoint is to be made, and nothing appended to the log.
    pub fn whole_plain<H: Host>(
        &mut self,
        host: &mut H,
        log: &mut Log,
        pages: &[PlainPages],
        dirty: &[PageId],
        replay: Option<Place>,
    ) -> Result<(), Failed>
        requires usable { IsUsable (H.Device.state host.old) }
        requires room { HasRoomFor (length dirty.now) self.old }
        requires mark { IsMark (mark_for self.old log.old replay) }
        requires once { AreOnce dirty.now }
        requires held { All (IsHeld self.old.shape.page_size (held_in pages.now)) dirty.now }
        requires end { H.Device.tells → EndsThere log.old (H.Device.history host.old).world }

        ensures kept { OnOk result
            (self.new ≡ with_mark (mark_for self.old log.old replay) self.old) }
        ensures spent { OnErr result (self.new ≡ spent self.old) }
        ensures log { OnOk result
            (log.new ≡ log_after log.old (mark_for self.old log.old replay)) }

        // What it leaves of the log of any store: no segment from the first one that is kept on loses what it has.
        ensures ends { H.Device.tells → OnOk result (LeavesLog (kept_segment (mark_for self.old log.old replay))
            log.old log.new (H.Device.history host.old).world (H.Device.history host.new).world) }

        // From each state of the disk machine in which this checkpoint may be made: its steps were, each of
        // which meets its guard. A store that wasn't sound when it was opened may be in no such state.
        ensures steps { H.Device.tells → (wanted : Shape) (told : List ℕ → ℕ) (s : State)
            → (can : CanCheckpoint wanted told s log.old (mark_for self.old log.old replay)
            (held_in pages.now) dirty.now (H.Device.history host.old).world)
            → MakesWhole told (H.Device.history host.old) (H.Device.history host.new) result log.old
            (mark_for self.old log.old replay) can.rebuilt (held_in pages.now) dirty.now s }
        ensures ended { H.Device.tells
            → MayCheckpoint log.old (mark_for self.old log.old replay) (held_in pages.now) dirty.now
            (H.Device.history host.old).world
            → OnOk result (IsEnded self.old.shape.page_size log.old (mark_for self.old log.old replay)
            (held_in pages.now) dirty.now (H.Device.history host.new).world) }
        ensures disk { H.Device.tells → AllMoments (H.Device.history host.old) (H.Device.history host.new)
            (ChangesDisk (H.Device.history host.old).world) }
        ensures cause { HasCause (H.Device.state host.old) (H.Device.state host.new) result }
    {
        let mark = next_mark(self.shape, self.mark, log, replay);
        arrange(&mut self.order, dirty);
        let mut idle = self.idle.take().unwrap();
        let mut set = idle.take_set().unwrap();
        fill(&mut set, &self.order);
        self.idle = Some(checkpoint(host, log, idle, mark, set, pages, &self.order)?);
        self.mark = Some(mark);
        Ok(())
    }
}

// Makes the checkpoint with this mark, whose pages are written in this order, and gives back the set of its
// pages, emptied.
fn checkpoint<H: Host>(
    host: &mut H,
    log: &mut Log,
    idle: Idle,
    mark: Mark,
    set: PageSet,
    pages: &[PlainPages],
    order: &[PageId],
) -> Result<Idle, Failed>
    requires usable { IsUsable (H.Device.state host.old) }
    requires mark { IsMark mark }
    requires begin { mark.begin ≡ begin_of log.old }
    requires set { set.pages ≡ order.now }
    requires once { AreOnce order.now }
    requires held { All (IsHeld mark.shape.page_size (held_in pages.now)) order.now }
    requires end { H.Device.tells → EndsThere log.old (H.Device.history host.old).world }
    ensures idle { IfOk result (λ idle. idle ≡ Some (no_page (length set.pages + set.spare))) }
    ensures log { OnOk result (log.new ≡ log_after log.old mark) }
    ensures ends { H.Device.tells → OnOk result (LeavesLog (kept_segment mark) log.old log.new
        (H.Device.history host.old).world (H.Device.history host.new).world) }
    ensures steps { H.Device.tells → (wanted : Shape) (told : List ℕ → ℕ) (s : State)
        → (can : CanCheckpoint wanted told s log.old mark (held_in pages.now) order.now
        (H.Device.history host.old).world)
        → MakesInOrder told (H.Device.history host.old) (H.Device.history host.new) result log.old mark
        can.rebuilt (held_in pages.now) order.now s }
    ensures ended { H.Device.tells
        → MayCheckpoint log.old mark (held_in pages.now) order.now (H.Device.history host.old).world
        → OnOk result (IsEnded mark.shape.page_size log.old mark (held_in pages.now)
        order.now (H.Device.history host.new).world) }
    ensures disk { H.Device.tells → AllMoments (H.Device.history host.old) (H.Device.history host.new)
        (ChangesDisk (H.Device.history host.old).world) }
    ensures cause { HasCause (H.Device.state host.old) (H.Device.state host.new) result }
{
    let begun = begin_marked(host, log, idle, mark, set)?;
    let ended = finish_written(host, begun, pages, order, mark.shape.page_size)?;
    log.drop_before(host, mark.begin.seg.min(mark.replay.seg))?;
    Ok(ended.idle())
}
