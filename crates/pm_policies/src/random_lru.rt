//! The kind RandomLru: some frames are drawn, and the one used longest ago is picked.

ghost use Rattle.std.specs.Prelude.{◌≡◌, ◌+◌, ◌%◌, ◌^◌, ◌<◌, ◌≤◌, ◌⊎◌, [], length, replicate};
ghost use Rattle.std.specs.Prelude.{slice_index, slice_set, OnOk, OnErr};
ghost use Rattle.pm_policies.specs.Draws.{first_state, state_after_draw, state_after, stamped, IsOldestDrawn};
ghost use Rattle.pm_policies.specs.Stamps.{IsNoLater};

use pm_policy::Policy;
use pm_types::FrameNo;
use std::alloc::{AllocError, Global};
use std::marker::Model;

// How many frames are drawn for one that is picked: the one used longest ago among five is among the
// older half of all in 31 of 32 picks.
const DRAWS: u32 = 5;

/// Stamps each frame that is used with a tick. It draws five frames and picks the one with the least
/// stamp.
#[derive(Drop)]
pub struct RandomLru {
    seed: u32,
    state: u32,
    tick: u64,
    stamps: Vec<u64>,
}

impl Model for RandomLru {
    ghost use Rattle.std.specs.Prelude.{◌^◌, ◌<◌, length};
    ghost use Rattle.pm_policies.specs.Draws.{Drawing};

    ghost Value = { Drawing };

    ghost view = { λ r. record { seed = r.seed; state = r.state; tick = r.tick; stamps = r.stamps.items } };

    ghost invariant = { λ r. length r.stamps.items < 2 ^ 32 };
}

impl RandomLru {
    /// One that isn't started. Two with the same seed and the same calls pick the same frames.
    pub fn new(alloc: Global, seed: u32) -> RandomLru
        ensures { result ≡ record { seed = seed; state = first_state seed; tick = 0; stamps = [] } }
    {
        RandomLru {
            seed,
            state: if seed == 0 { 1 } else { seed },
            tick: 0,
            stamps: Vec::new(alloc),
        }
    }

    // Raises the tick and stamps the frame.
    fn stamp(&mut self, frame: FrameNo)
        requires { frame < length self.old.stamps }
        ensures { self.new ≡ stamped self.old frame }
    {
        self.tick = self.tick.saturating_add(1);
        self.stamps[frame as usize] = self.tick;
    }
}

impl Policy for RandomLru {
    ghost use Rattle.std.specs.Prelude.{length};

    ghost frame_count = { λ r. length r.stamps };

    fn start(&mut self, alloc: Global, frames: u32) -> Result<(), AllocError>
        requires { 1 ≤ frames }
        ensures started { OnOk result (self.new ≡ record {
          seed = self.old.seed;
          state = first_state self.old.seed;
          tick = 0;
          stamps = replicate frames 0;
        }) }
        ensures refused { OnErr result (self.new ≡ record {
          seed = self.old.seed;
          state = first_state self.old.seed;
          tick = 0;
          stamps = [];
        }) }
    {
        *self = RandomLru::new(alloc, self.seed);
        self.stamps.resize(frames as usize, 0)?;
        Ok(())
    }

    fn touched(&mut self, frame: FrameNo)
        requires { frame < length self.old.stamps }
        ensures { self.new ≡ stamped self.old frame }
    {
        self.stamp(frame);
    }

    fn taken(&mut self, frame: FrameNo)
        requires { frame < length self.old.stamps }
        ensures { self.new ≡ stamped self.old frame }
    {
        self.stamp(frame);
    }

    fn pick(&mut self) -> FrameNo
        requires { 0 < length self.old.stamps }
        ensures oldest { IsOldestDrawn self.old.stamps self.old.state DRAWS result }
        ensures within { result < length self.old.stamps }
        ensures drawn { self.new ≡ record self.old { state = state_after DRAWS self.old.state } }
    {
        let drawn = oldest_drawn(&self.stamps, self.state);
        self.state = drawn.state;
        drawn.frame as u32
    }
}

// A frame that was drawn, and the state after that.
#[derive(Clone, Copy)]
struct Drawn {
    frame: usize,
    state: u32,
}

// Of the frames that are drawn from this state on, the one used longest ago.
fn oldest_drawn(stamps: &[u64], first: u32) -> Drawn
    requires { 0 < length stamps.now }
    ensures oldest { IsOldestDrawn stamps.now first DRAWS result.frame }
    ensures within { result.frame < length stamps.now }
    ensures state { result.state ≡ state_after DRAWS first }
{
    let mut state = after_draw(first);
    let mut frame = frame_of(stamps, state);
    'draws: for _ in 1..DRAWS {
        let drawn = after_draw(state);
        let other = frame_of(stamps, drawn);
        frame = older(stamps, frame, other);
        state = drawn;
    }
    Drawn { frame, state }
}

// The frame that is drawn in this state.
fn frame_of(stamps: &[u64], state: u32) -> usize
    requires { 0 < length stamps.now }
    ensures frame { result ≡ state % length stamps.now }
    ensures within { result < length stamps.now }
{
    state as usize % stamps.len()
}

// The state after a draw.
#[tactic(auto, unfolding(crate::specs::Draws::state_after_draw))]
fn after_draw(state: u32) -> u32
    ensures { result ≡ state_after_draw state }
{
    let a = state ^ (state << 13);
    let b = a ^ (a >> 17);
    b ^ (b << 5)
}

// The one of two frames that was used longer ago.
fn older(stamps: &[u64], a: usize, b: usize) -> usize
    requires a { a < length stamps.now }
    requires b { b < length stamps.now }
    ensures one { (result ≡ a) ⊎ (result ≡ b) }
    ensures within { result < length stamps.now }
    ensures first { IsNoLater (slice_index stamps.now result) result (slice_index stamps.now a) a }
    ensures second { IsNoLater (slice_index stamps.now result) result (slice_index stamps.now b) b }
{
    let (stamp_a, stamp_b) = (stamps[a], stamps[b]);
    if stamp_b < stamp_a || (stamp_b == stamp_a && b < a) {
        b
    } else {
        a
    }
}
