//! What the store asks of a replacement policy.

ghost use Rattle.std.specs.Prelude.{◌≡◌, ℕ, ◌<◌, ◌≤◌, OnOk, OnErr};

use pm_types::FrameNo;
use std::alloc::{AllocError, Global};

/// Which page frame is used anew where none is empty.
///
/// Before anything else it is started for so many frames; it may be started again at any time. No
/// promise rests on which frame is picked, only that it is one of them.
pub trait Policy: Drop {
    // How many frames it was started for, or 0 where it wasn't: then only `start` may be called.
    ghost frame_count: { Self → ℕ };

    /// Begins anew, for so many frames, and forgets what was before. Fails where memory runs out:
    /// then only `start` may be called.
    fn start(&mut self, alloc: Global, frames: u32) -> Result<(), AllocError>
        requires { 1 ≤ frames }
        ensures started { OnOk result (frame_count self.new ≡ frames) }
        ensures refused { OnErr result (frame_count self.new ≡ 0) };

    /// The page in this frame was used.
    fn touched(&mut self, frame: FrameNo)
        requires { frame < frame_count self.old }
        ensures { frame_count self.new ≡ frame_count self.old };

    /// The frame was taken for another page.
    fn taken(&mut self, frame: FrameNo)
        requires { frame < frame_count self.old }
        ensures { frame_count self.new ≡ frame_count self.old };

    /// The frame to be used anew.
    fn pick(&mut self) -> FrameNo
        requires { 0 < frame_count self.old }
        ensures picked { result < frame_count self.old }
        ensures same_frames { frame_count self.new ≡ frame_count self.old };
}

/// Policies that a caller hands in, some of each kind. Those that aren't needed are dropped. Nobody takes them
/// yet.
#[derive(Drop)]
pub struct Racks {
    /// Of the kind that draws some frames and picks the one used longest ago.
    pub random: Vec<Box<dyn Policy + Send>>,
    /// Of the kind that keeps apart the frames that were used more than once.
    pub segmented: Vec<Box<dyn Policy + Send>>,
    /// Of the kind that goes round, and passes each frame once that was used since.
    pub clock: Vec<Box<dyn Policy + Send>>,
}
