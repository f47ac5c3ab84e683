//! What a worker keeps of its pages from one round to the next.

ghost use Rattle.std.specs.Prelude.{◌≡◌, ◌≤◌, ◌<◌, length, drop, IfOk, MatchOption, Some, true, false};
ghost use Rattle.std.specs.FinMap as map;
ghost use Rattle.pm_types.specs.Shapes.{IsShape};
ghost use Rattle.pm_stripe.specs.Stripes.{IsNewStripe, SameButFiles, SameButOutbox, SameButRunning};
ghost use Rattle.pm_stripe.specs.PlacedPages.{KeepsNone};

use crate::held::{Free, Held};
use crate::outbox::Outbox;
use crate::places::Places;
use pm_ptable::FRAMES_MAX;
use pm_types::{FrameNo, OP_PAGES, PageId, Shape, Tag};
use std::alloc::{AllocError, Global};

/// One worker's pages between two rounds: the frames that keep them, and what its operations hand to the log
/// writer. It takes no memory after it is made.
#[derive(Drop)]
pub struct Stripe {
    pub(crate) number: u8,
    pub(crate) shape: Shape,
    /// Whether the partitions' files have pages: else a page that isn't in a frame isn't there.
    pub(crate) files: bool,
    pub(crate) places: Places,
    /// The pages and the empty frames in hand, in a round.
    pub(crate) held: Vec<Held>,
    pub(crate) free: Vec<Free>,
    /// Where the next sweep for frames begins.
    pub(crate) next: FrameNo,
    /// Whether a checkpoint runs. It is false in the program, which makes a checkpoint between two rounds.
    pub(crate) is_running: bool,
    pub(crate) outbox: Outbox,
}

impl Stripe {
    /// The worker with this number, with no page yet, over so many frames. Fails where memory runs out.
    pub fn new(
        alloc: Global,
        number: u8,
        shape: &Shape,
        frames: u32,
        files: bool,
    ) -> Result<Stripe, AllocError>
        requires shape { IsShape shape.now }
        requires some { 1 ≤ frames }
        requires few { frames ≤ FRAMES_MAX }
        ensures { IfOk result (IsNewStripe number shape.now frames files) }
    {
        let places = Places::new(alloc, frames)?;
        let held = Vec::with_capacity(alloc, OP_PAGES as usize)?;
        let free = Vec::with_capacity(alloc, OP_PAGES as usize)?;
        let outbox = Outbox::new(alloc)?;
        Ok(Stripe {
            number,
            shape: *shape,
            files,
            places,
            held,
            free,
            next: 0,
            is_running: false,
            outbox,
        })
    }

    /// The page that the frame keeps, and the frame's tag.
    pub fn page_in(&self, frame: FrameNo) -> Option<(PageId, Tag)>
        requires { frame < length self.now.places.pages.items }
        ensures { MatchOption result (KeepsNone self.now.places.table.entries frame)
            (λ found. map.get self.now.places.table.entries found.0.0 ≡ Some (frame, found.1)) }
    {
        self.places.page_in(frame)
    }

    /// What its operations hand to the log writer and is not sent yet.
    pub fn outbox(&self) -> &[u8]
        ensures { result.now ≡ self.now.outbox }
    {
        self.outbox.bytes()
    }

    /// Takes the first so many bytes out of the outbox, which were sent.
    pub fn sent(&mut self, n: usize)
        requires { n ≤ length self.old.outbox }
        ensures sent { self.new.outbox ≡ drop n self.old.outbox }
        ensures same { SameButOutbox self.old self.new }
    {
        self.outbox.sent(n);
    }

    /// The partitions' files have pages, as after a store's first checkpoint: from now on a page that isn't in a
    /// frame is read from its file.
    pub fn has_files(&mut self)
        ensures files { self.new.files ≡ true }
        ensures same { SameButFiles self.old self.new }
    {
        self.files = true;
    }

    /// A checkpoint's begin was appended: from now on it runs, and no operation begins.
    ///
    /// Not used by the program yet: it makes a checkpoint as one call, between two rounds.
    pub fn begun(&mut self)
        ensures running { self.new.is_running ≡ true }
        ensures same { SameButRunning self.old self.new }
    {
        self.is_running = true;
    }

    /// The checkpoint's end is in force: from now on none runs.
    ///
    /// Not used by the program yet.
    pub fn ended(&mut self)
        ensures running { self.new.is_running ≡ false }
        ensures same { SameButRunning self.old self.new }
    {
        self.is_running = false;
    }
}
