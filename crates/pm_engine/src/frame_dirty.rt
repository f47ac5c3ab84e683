//! How many page frames of an open store have a page that stays there.

ghost use Rattle.std.specs.Prelude.{◌≡◌, ◌≤◌, ◌<◌, ℕ, Some, true, [], ◌∷◌, length};
ghost use Rattle.pm_ckpt.specs.Dirty.{dirty_below, dirty_page};
ghost use Rattle.pm_ckpt.specs.Frames.{IsWholeSeat};
ghost use Rattle.pm_engine.specs.FrameBatches.{LooksAtFrames, LooksOnce};
ghost use Rattle.pm_engine.specs.FrameDirty.{ListsDirty, dirty_bytes, dirty_names};

use crate::frame_store::FrameStore;
use pm_locks::{Locks, PageSeat, Word};
use pm_stripe::Stripe;
use pm_types::{Flag, FrameNo};

impl FrameStore {
    /// How many of the frames, of which there are so many, have a page that stays there. It looks at each frame's word
    /// once and remembers the count. Where the count is remembered it looks at none.
    pub(crate) fn dirty_frames(&mut self, frames: u32) -> u32
        requires open { self.old.is_open ≡ true }
        requires frames { frames ≡ length self.old.locks.ranges }
        ensures counts { result ≡ length (dirty_names self.old) }
        ensures looks { LooksAtFrames self.old self.new }
        ensures remembers { self.new.dirty ≡ Some result }
        ensures at_once { (count : ℕ) → self.old.dirty ≡ Some count → self.new ≡ self.old }
    {
        if let Some(count) = self.dirty {
            return count;
        }
        let count = count_dirty(&self.locks, &mut self.seat, &self.stripe, frames);
        self.dirty = Some(count);
        count
    }

    /// The names of the pages in Dirty frames are those of the pages that stay in their frames. It does nothing: its
    /// contract is the law.
    pub(crate) fn names_dirty(&self)
        ensures { self.now.is_open ≡ true → self.now.stripe.outbox ≡ []
            → ListsDirty self.now (dirty_names self.now) (dirty_bytes self.now) }
    {
        let _is_open = self.is_open;
    }
}

// How many of the frames have a page of this stripe that stays there.
fn count_dirty(locks: &Locks, seat: &mut PageSeat, stripe: &Stripe, frames: u32) -> u32
    requires seat { IsWholeSeat locks.now seat.old }
    requires frames { frames ≡ length locks.now.ranges }
    requires pages { frames ≤ length stripe.now.places.pages.items }
    ensures seat { IsWholeSeat locks.now seat.new }
    ensures looks { LooksOnce seat.old seat.new }
    ensures counts { result ≡ length (dirty_below (stripe.now ∷ []) seat.old.view frames) }
{
    let mut count = 0;
    'each: for f in 0..frames {
        let word = locks.look(seat, f);
        count += dirty_in(stripe, f, word);
    }
    count
}

// How many pages of this stripe stay in a frame with this word: one where it is Dirty, and else none.
fn dirty_in(stripe: &Stripe, f: FrameNo, word: Word) -> u32
    requires { f < length stripe.now.places.pages.items }
    ensures counts { result ≡ length (dirty_page (stripe.now ∷ []) f word) }
    ensures few { result ≤ 1 }
{
    if word.flag() != Flag::Dirty {
        return 0;
    }
    if word.owner() != 0 {
        return 0;
    }
    match stripe.page_in(f) {
        Some(_) => 1,
        None => 0,
    }
}
