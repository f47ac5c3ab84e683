//! The pages that are looked up, the same in the page table and in the map beside it.

ghost use Rattle.std.specs.Prelude.{◌<◌};

use pm_ptable::FRAMES_MAX;
use pm_types::{FrameNo, PageId};

// An odd number far from any power of 2: its multiples visit each frame once, in an order that
// shows no pattern.
const STEP: u32 = 40_503;

/// The page that lies in a frame: the frames of one worker hold pages of eight partitions.
pub fn page_in(frame: FrameNo) -> PageId {
    PageId::new((frame % 8) as u16, frame / 8)
}

/// The frame whose page is looked up at this turn.
pub fn frame_at(turn: u32) -> FrameNo
    ensures { result < FRAMES_MAX }
{
    turn.wrapping_mul(STEP) % FRAMES_MAX
}
