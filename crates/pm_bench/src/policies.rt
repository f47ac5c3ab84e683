//! Pages that are replaced by each kind of policy.

ghost use Rattle.std.specs.Prelude.{◌≤◌};

use pm_policies::{Clock, RandomLru, SegmentedLru};
use pm_policy::Policy;
use std::alloc::{AllocError, Global};

/// A kind of policy.
#[derive(Clone, Copy, Debug, PartialEq, Eq)]
pub enum Kind {
    /// `RandomLru`.
    Random,
    /// `SegmentedLru`.
    Segmented,
    /// `Clock`.
    Clock,
}

/// How many frames there are.
#[derive(Clone, Copy, Debug, PartialEq, Eq)]
pub enum Frames {
    /// 64.
    Few,
    /// 4,096.
    Many,
    /// 65,536.
    Most,
}

impl Frames {
    fn count(&self) -> u32
        ensures { 1 ≤ result }
    {
        match self {
            Frames::Few => 64,
            Frames::Many => 4_096,
            Frames::Most => 65_536,
        }
    }
}

/// The sum of the frames that so many replaced pages get.
pub fn run(alloc: Global, kind: Kind, frames: Frames, count: u32) -> Result<u64, AllocError> {
    let frames = frames.count();
    match kind {
        Kind::Random => replaced(alloc, RandomLru::new(alloc, 1), frames, count),
        Kind::Segmented => replaced(alloc, SegmentedLru::new(alloc), frames, count),
        Kind::Clock => replaced(alloc, Clock::new(alloc), frames, count),
    }
}

// Each page that is replaced is picked and taken, and some other page is used before.
fn replaced<P: Policy>(
    alloc: Global,
    mut policy: P,
    frames: u32,
    count: u32,
) -> Result<u64, AllocError>
    requires { 1 ≤ frames }
{
    policy.start(alloc, frames)?;
    let mut sum = 0u64;
    'pages: for page in 0..count {
        policy.touched(page.wrapping_mul(2_654_435_761) % frames);
        let frame = policy.pick();
        policy.taken(frame);
        sum = sum.wrapping_add(u64::from(frame));
    }
    Ok(sum)
}
