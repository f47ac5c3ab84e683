//! Empty frames are gathered for an operation to come.

ghost use Rattle.std.specs.Prelude.{◌≡◌, ◌≤◌, length};
ghost use Rattle.pm_types.specs.declared.limits.TheConstants.{OP_PAGES};
ghost use Rattle.pm_stripe.specs.Kept.{Holds};
ghost use Rattle.pm_stripe.specs.Met.{start_of};
ghost use Rattle.pm_stripe.specs.Sweeps.{TriesRange, SweepsFrames};
ghost use Rattle.pm_stripe.specs.Stripes.{kept, SameButFrames};

use crate::stripe::Stripe;
use pm_locks::{Locks, PageSeat};
use pm_types::{FrameNo, OP_PAGES};

impl Stripe {
    // Steals frames until as many empty ones are in hand as one operation may need, or each frame was tried. It
    // begins with the frame after the last one that was tried before.
    pub(crate) fn sweep(&mut self, locks: &Locks, seat: &mut PageSeat)
        requires holds { Holds locks.now (kept self.old seat.old) }
        requires few { length self.old.free.items ≤ OP_PAGES }
        ensures sweeps { SweepsFrames locks.now (kept self.old seat.old) (kept self.new seat.new)
            self.old.next self.new.next }
        ensures same { SameButFrames self.old self.new }
    {
        let frames = self.places.frames();
        let from = first_frame(self.next, frames);
        self.sweep_range(locks, seat, from, frames);
        self.sweep_range(locks, seat, 0, from);
    }

    // Tries the frames from `from` up to, but not with, `upto`, until enough are in hand.
    fn sweep_range(&mut self, locks: &Locks, seat: &mut PageSeat, from: FrameNo, upto: FrameNo)
        requires holds { Holds locks.now (kept self.old seat.old) }
        requires few { length self.old.free.items ≤ OP_PAGES }
        requires order { from ≤ upto }
        requires there { upto ≤ length locks.now.ranges }
        ensures tries { TriesRange locks.now (kept self.old seat.old) (kept self.new seat.new) from upto
            self.old.next self.new.next }
        ensures same { SameButFrames self.old self.new }
    {
        'frames: for frame in from..upto {
            if self.free.len() == OP_PAGES as usize {
                return;
            }
            self.next = frame + 1;
            self.steal_one(locks, seat, frame);
        }
    }
}

// Where a sweep over so many frames begins: with this one, or with the first where this one isn't there.
fn first_frame(next: FrameNo, frames: u32) -> FrameNo
    ensures start { result ≡ start_of next frames }
    ensures within { result ≤ frames }
{
    if next < frames { next } else { 0 }
}
