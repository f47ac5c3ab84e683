//! The kind SegmentedLru: frames that were used since they were taken are spared.

ghost use Rattle.std.specs.Prelude.{◌≡◌, ◌<◌, ◌≤◌, [], length, replicate, false, OnOk, OnErr};
ghost use Rattle.pm_policies.specs.Segments.{fresh, placed, IsOldest, Protects};
ghost use Rattle.pm_policies.specs.Stamps.{raised};

use crate::segments::{Segments, Standing};
use pm_policy::Policy;
use pm_types::FrameNo;
use std::alloc::{AllocError, Global};
use std::marker::Model;

/// Stamps each frame that is used with a tick, and protects those that were used since they were
/// taken, at most half of all. It picks the frame with the least stamp among the others.
#[derive(Drop)]
pub struct SegmentedLru {
    segments: Segments,
    tick: u64,
}

impl Model for SegmentedLru {
    ghost use Rattle.std.specs.Prelude.{◌/◌, ◌≤◌, length};
    ghost use Rattle.pm_policies.specs.Segments.{Halves, count_protected};

    ghost Value = { Halves };

    ghost view = { λ s. record { frames = s.segments; tick = s.tick } };

    ghost invariant = { λ s. count_protected s.segments ≤ length s.segments / 2 };
}

impl SegmentedLru {
    /// One that isn't started.
    pub fn new(alloc: Global) -> SegmentedLru
        ensures { result ≡ record { frames = []; tick = 0 } }
    {
        SegmentedLru {
            segments: Segments::new(alloc),
            tick: 0,
        }
    }
}

impl Policy for SegmentedLru {
    ghost use Rattle.std.specs.Prelude.{length};

    ghost frame_count = { λ s. length s.frames };

    fn start(&mut self, alloc: Global, frames: u32) -> Result<(), AllocError>
        requires { 1 ≤ frames }
        ensures started { OnOk result (self.new ≡ record { frames = replicate frames fresh; tick = 0 }) }
        ensures refused { OnErr result (self.new ≡ record { frames = []; tick = 0 }) }
    {
        *self = SegmentedLru::new(alloc);
        self.segments = Segments::with_frames(alloc, frames)?;
        Ok(())
    }

    fn touched(&mut self, frame: FrameNo)
        requires { frame < length self.old.frames }
        ensures protected { Protects self.old.frames self.new.frames frame (raised self.old.tick) }
        ensures tick { self.new.tick ≡ raised self.old.tick }
        ensures same_frames { length self.new.frames ≡ length self.old.frames }
    {
        let tick = self.tick.saturating_add(1);
        self.tick = tick;
        self.segments.protect(frame, tick);
    }

    fn taken(&mut self, frame: FrameNo)
        requires { frame < length self.old.frames }
        ensures { self.new ≡ record {
          frames = placed self.old.frames frame (raised self.old.tick) false;
          tick = raised self.old.tick;
        } }
    {
        let tick = self.tick.saturating_add(1);
        self.tick = tick;
        let standing = Standing {
            stamp: tick,
            is_protected: false,
        };
        self.segments.place(frame, standing);
    }

    fn pick(&mut self) -> FrameNo
        requires { 0 < length self.old.frames }
        ensures oldest { IsOldest self.old.frames false result }
        ensures within { result < length self.old.frames }
        ensures stamped { self.new ≡ record {
          frames = placed self.old.frames result (raised self.old.tick) false;
          tick = raised self.old.tick;
        } }
    {
        let frame = self.segments.oldest_probationary();
        self.taken(frame);
        frame
    }
}
