//! A caller that keeps a policy in a box, and knows of it only what the trait says.

ghost use Rattle.std.specs.Prelude.{◌≡◌, ◌<◌, ◌≤◌, IfOk};

use crate::policy::Policy;
use pm_types::FrameNo;
use std::alloc::{AllocError, Global};

/// A policy of whichever kind, which learns of each use of a frame.
#[derive(Drop)]
pub struct Replacer {
    /// It may move to another thread.
    pub policy: Box<dyn Policy + Send>,
}

impl Replacer {
    /// Starts the policy for so many frames. Where memory runs out the policy is dropped.
    pub fn start(
        alloc: Global,
        mut policy: Box<dyn Policy + Send>,
        frames: u32,
    ) -> Result<Replacer, AllocError>
        requires { 1 ≤ frames }
        ensures { IfOk result (λ r. frame_count r.policy ≡ frames) }
    {
        policy.start(alloc, frames)?;
        Ok(Replacer { policy })
    }

    /// The page in this frame was used.
    pub fn use_frame(&mut self, frame: FrameNo)
        requires { frame < frame_count self.old.policy }
        ensures { frame_count self.new.policy ≡ frame_count self.old.policy }
    {
        self.policy.touched(frame);
    }

    /// Gives a frame to another page, and answers which one.
    pub fn replace(&mut self) -> FrameNo
        requires { 0 < frame_count self.old.policy }
        ensures picked { result < frame_count self.old.policy }
        ensures same_frames { frame_count self.new.policy ≡ frame_count self.old.policy }
    {
        let frame = self.policy.pick();
        self.policy.taken(frame);
        frame
    }
}
