//! The kind Clock: a ring of frames with a mark each, and a hand that goes round.

ghost use Rattle.std.specs.Prelude.{◌≡◌, ◌+◌, ◌%◌, ◌^◌, ◌<◌, ◌≤◌, [], length, replicate, slice_set};
ghost use Rattle.std.specs.Prelude.{true, false, OnOk, OnErr};
ghost use Rattle.std.specs.Bool.{OnTrue, OnFalse};
ghost use Rattle.pm_policies.specs.Dials.{is_marked, Sweeps};

use pm_policy::Policy;
use pm_types::FrameNo;
use std::alloc::{AllocError, Global};
use std::marker::Model;

/// Marks each frame that is used. It picks the first frame without a mark from where it picked
/// last, going round, and takes the marks off those that it passes.
#[derive(Drop)]
pub struct Clock {
    marks: Vec<bool>,
    hand: usize,
}

impl Model for Clock {
    ghost use Rattle.pm_policies.specs.Dials.{Dial, IsDial};

    ghost Value = { Dial };

    ghost view = { λ c. record { marks = c.marks.items; hand = c.hand } };

    ghost invariant = { λ c. IsDial c.marks.items c.hand };
}

impl Clock {
    /// One that isn't started.
    pub fn new(alloc: Global) -> Clock
        ensures { result ≡ record { marks = []; hand = 0 } }
    {
        Clock {
            marks: Vec::new(alloc),
            hand: 0,
        }
    }

    // Marks the frame.
    fn mark(&mut self, frame: FrameNo)
        requires { frame < length self.old.marks }
        ensures { self.new ≡ record self.old { marks = slice_set self.old.marks frame true } }
    {
        self.marks[frame as usize] = true;
    }
}

impl Policy for Clock {
    ghost use Rattle.std.specs.Prelude.{length};

    ghost frame_count = { λ c. length c.marks };

    fn start(&mut self, alloc: Global, frames: u32) -> Result<(), AllocError>
        requires { 1 ≤ frames }
        ensures started { OnOk result (self.new ≡ record { marks = replicate frames false; hand = 0 }) }
        ensures refused { OnErr result (self.new ≡ record { marks = []; hand = 0 }) }
    {
        *self = Clock::new(alloc);
        self.marks.resize(frames as usize, false)?;
        Ok(())
    }

    fn touched(&mut self, frame: FrameNo)
        requires { frame < length self.old.marks }
        ensures { self.new ≡ record self.old { marks = slice_set self.old.marks frame true } }
    {
        self.mark(frame);
    }

    fn taken(&mut self, frame: FrameNo)
        requires { frame < length self.old.marks }
        ensures { self.new ≡ record self.old { marks = slice_set self.old.marks frame true } }
    {
        self.mark(frame);
    }

    fn pick(&mut self) -> FrameNo
        requires { 0 < length self.old.marks }
        ensures swept { Sweeps self.old.marks self.new.marks self.old.hand result }
        ensures within { result < length self.old.marks }
        ensures moved_on { self.new.hand ≡ (result + 1) % length self.old.marks }
        ensures same_frames { length self.new.marks ≡ length self.old.marks }
    {
        let stop = sweep(&mut self.marks, self.hand);
        let next = following(&self.marks, stop);
        self.hand = next;
        stop as u32
    }
}

// Takes the marks off the frames from the hand on, up to the first that has none, which it answers.
fn sweep(marks: &mut [bool], hand: usize) -> usize
    requires { hand < length marks.old }
    ensures swept { Sweeps marks.old marks.new hand result }
    ensures within { result < length marks.old }
{
    let mut at = hand;
    'passes: for _ in 0..marks.len() {
        if is_clear(marks, at) {
            return at;
        }
        marks[at] = false;
        at = following(marks, at);
    }
    at
}

// Whether the frame has no mark.
fn is_clear(marks: &[bool], frame: usize) -> bool
    requires { frame < length marks.now }
    ensures clear { OnTrue result (is_marked marks.now frame ≡ false) }
    ensures marked { OnFalse result (is_marked marks.now frame ≡ true) }
{
    !marks[frame]
}

// The next frame, going round.
fn following(marks: &[bool], frame: usize) -> usize
    requires { frame < length marks.now }
    ensures next { result ≡ (frame + 1) % length marks.now }
    ensures within { result < length marks.now }
{
    if frame + 1 < marks.len() {
        frame + 1
    } else {
        0
    }
}
