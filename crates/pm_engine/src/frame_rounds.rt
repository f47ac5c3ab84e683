//! The lines of a round over a worker's page frames.

ghost use Rattle.std.specs.Prelude.{◌≡◌, ◌+◌, ◌^◌, ◌≤◌, ℕ, Some, length, slice_get};
ghost use Rattle.pm_model.specs.declared.line.Line.{Line as ThisLine};
ghost use Rattle.pm_engine.specs.FrameCommands.{IsBetweenLines};
ghost use Rattle.pm_engine.specs.FrameLines.{IsRoundLine};
ghost use Rattle.pm_engine.specs.FrameRounds.{AnswersRound};

use crate::frame_lines::{Stop, line_in_frames};
use pm_disk::PageReader;
use pm_model::{Line, Replies};
use pm_stripe::Bound;
use pm_types::Shape;
use std::sync::Wait;

/// How the lines of a round ended.
#[derive(Clone, Copy, Debug, PartialEq, Eq)]
pub struct RoundEnd {
    /// How many of them were done.
    pub done: usize,
    /// Why the next one wasn't done, or nothing where there is none.
    pub stop: Option<Stop>,
}

/// Does the lines of a round over a worker's page frames, one after the other, from one of them on, until
/// all are done or one can't be. Each that is done has its reply, and none after it has.
///
/// The first of all lines is the operation with the number `first`, each other one that with the next
/// number.
pub fn lines_in_frames<'a, Q: Wait, R: PageReader>(
    bound: &mut Bound<'a, Q, R>,
    shape: Shape,
    lines: &[Line],
    from: usize,
    first: u32,
    replies: &mut Replies,
) -> RoundEnd
    requires between { IsBetweenLines R.tells R.history R.state bound.old }
    requires shape { shape ≡ bound.old.stripe.shape }
    requires lines { (i : ℕ) (line : ThisLine) → slice_get lines.now i ≡ Some line
        → IsRoundLine bound.old line }
    requires from { from ≤ length lines.now }
    requires numbers { first + length lines.now ≤ 2 ^ 32 }
    requires room { length lines.now ≤ from + replies.old.spare }
    ensures { AnswersRound R.tells R.history R.state first from lines.now bound.old bound.new replies.old
        replies.new result }
{
    'lines: for at in from..lines.len() {
        if let Err(stop) = line_in_frames(bound, shape, &lines[at], first + at as u32, replies) {
            return RoundEnd {
                done: at - from,
                stop: Some(stop),
            };
        }
    }
    RoundEnd {
        done: lines.len() - from,
        stop: None,
    }
}
