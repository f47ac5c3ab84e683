//! Frames of which some are protected, and the oldest of each side.

ghost use Rattle.std.specs.Prelude.{◌≡◌, ◌+◌, ◌/◌, ◌^◌, ◌<◌, ◌≤◌, [], length, replicate, slice_set};
ghost use Rattle.std.specs.Prelude.{true, false, if◌then◌else◌, IfOk};
ghost use Rattle.std.specs.Bool.{OnTrue, OnFalse};
ghost use Rattle.pm_policies.specs.Segments.{fresh, standing_at, count_protected, contender_of};
ghost use Rattle.pm_policies.specs.Segments.{IsOldest, Demotes, Protects, IsSegments};

use crate::tournament::{Contender, Node, enter, first, of_all, without_contenders};
use pm_types::FrameNo;
use std::alloc::{AllocError, Global};
use std::marker::Model;

/// What is known of a frame.
#[derive(Clone, Copy)]
pub struct Standing {
    /// The tick of its last use.
    pub stamp: u64,
    /// It was used since it was taken, and is spared while others are left.
    pub is_protected: bool,
}

/// Each frame's standing. Contracts see it as their list.
#[derive(Drop)]
pub(crate) struct Segments {
    frames: Vec<Standing>,
    probationary: Vec<Node>,
    protected: Vec<Node>,
    protected_count: usize,
}

impl Model for Segments {
    ghost use Rattle.std.specs.Prelude.{List};
    ghost use Rattle.pm_policies.specs.declared.segments.Standing.{Standing};

    ghost Value = { List Standing };

    ghost use Rattle.pm_policies.specs.Segments.{IsSegments};

    ghost view = { λ s. s.frames.items };

    ghost invariant = { λ s.
        IsSegments s.frames.items s.probationary.items s.protected.items s.protected_count };
}

impl Segments {
    /// No frames.
    pub(crate) fn new(alloc: Global) -> Segments
        ensures { result ≡ [] }
    {
        Segments {
            frames: Vec::new(alloc),
            probationary: Vec::new(alloc),
            protected: Vec::new(alloc),
            protected_count: 0,
        }
    }

    /// So many frames, none of them protected, with stamp 0.
    pub(crate) fn with_frames(alloc: Global, count: u32) -> Result<Segments, AllocError>
        ensures { IfOk result (λ s. s ≡ replicate count fresh) }
    {
        let frames = fresh_frames(alloc, count)?;
        let probationary = of_all(alloc, count)?;
        let protected = without_contenders(alloc, count)?;
        Ok(Segments {
            frames,
            probationary,
            protected,
            protected_count: 0,
        })
    }

    // Whether no more than half of the frames are protected.
    fn is_at_most_half(&self) -> bool
        ensures few { OnTrue result (count_protected self.now ≤ length self.now / 2) }
        ensures more { OnFalse result (length self.now / 2 < count_protected self.now) }
    {
        self.protected_count <= self.frames.len() / 2
    }

    /// Gives a frame this standing.
    pub(crate) fn place(&mut self, frame: FrameNo, standing: Standing)
        requires { frame < length self.old }
        ensures { self.new ≡ slice_set self.old frame standing }
    {
        self.protected_count = place_in(
            &mut self.frames,
            &mut self.probationary,
            &mut self.protected,
            self.protected_count,
            frame,
            standing,
        );
    }

    /// The protected frame that was used longest ago.
    pub(crate) fn oldest_protected(&self) -> FrameNo
        requires { 0 < count_protected self.now }
        ensures { IsOldest self.now true result }
    {
        match first(&self.protected) {
            Some(contender) => contender.frame,
            None => unreachable!(),
        }
    }

    /// Of the frames that aren't protected, the one that was used longest ago.
    pub(crate) fn oldest_probationary(&self) -> FrameNo
        requires { count_protected self.now < length self.now }
        ensures { IsOldest self.now false result }
    {
        match first(&self.probationary) {
            Some(contender) => contender.frame,
            None => unreachable!(),
        }
    }

    /// Stamps the frame and protects it. Where more than half of the frames would be protected, the
    /// one of these that was used longest ago no longer is.
    pub(crate) fn protect(&mut self, frame: FrameNo, stamp: u64)
        requires { frame < length self.old }
        ensures { Protects self.old self.new frame stamp }
    {
        let standing = Standing {
            stamp,
            is_protected: true,
        };
        self.place(frame, standing);
        if self.is_at_most_half() {
            return;
        }
        self.demote();
    }

    // The protected frame that was used longest ago is no longer protected.
    fn demote(&mut self)
        requires { 0 < count_protected self.old }
        ensures { Demotes self.old self.new }
    {
        let frame = self.oldest_protected();
        let stamp = self.stamp(frame);
        let standing = Standing {
            stamp,
            is_protected: false,
        };
        self.place(frame, standing);
    }

    /// The stamp of a frame.
    pub(crate) fn stamp(&self, frame: FrameNo) -> u64
        requires { frame < length self.now }
        ensures { result ≡ (standing_at self.now frame).stamp }
    {
        self.frames[frame as usize].stamp
    }
}

// So many frames, none of them protected, with stamp 0.
fn fresh_frames(alloc: Global, count: u32) -> Result<Vec<Standing>, AllocError>
    ensures { IfOk result (λ v. v.items ≡ replicate count fresh) }
{
    let mut frames = Vec::new(alloc);
    let standing = Standing {
        stamp: 0,
        is_protected: false,
    };
    frames.resize(count as usize, standing)?;
    Ok(frames)
}

// Gives a frame this standing, also in the two tournaments, and answers how many are protected then.
fn place_in(
    frames: &mut [Standing],
    probationary: &mut [Node],
    protected: &mut [Node],
    count: usize,
    frame: FrameNo,
    standing: Standing,
) -> usize
    requires segments { IsSegments frames.old probationary.old protected.old count }
    requires frame { frame < length frames.old }
    ensures segments { IsSegments frames.new probationary.new protected.new result }
    ensures placed { frames.new ≡ slice_set frames.old frame standing }
{
    let at = frame as usize;
    let leaves = frames.len();
    let was = standing_of(frames, at);
    let count = recount(count, was.is_protected, standing.is_protected);
    let other = contender(false, standing, frame);
    let spared = contender(true, standing, frame);
    frames[at] = standing;
    enter(probationary, leaves, at, other);
    enter(protected, leaves, at, spared);
    count
}

// What is known of the frame.
fn standing_of(frames: &[Standing], frame: usize) -> Standing
    requires { frame < length frames.now }
    ensures { result ≡ standing_at frames.now frame }
{
    frames[frame]
}

// The frame with its stamp, if it is on that side.
fn contender(is_protected: bool, standing: Standing, frame: FrameNo) -> Node
    ensures { result ≡ contender_of is_protected standing frame }
{
    if standing.is_protected == is_protected {
        Some(Contender {
            stamp: standing.stamp,
            frame,
        })
    } else {
        None
    }
}

// The number of protected frames, where one was protected or not, and now is or isn't.
fn recount(count: usize, was: bool, is: bool) -> usize
    requires some { was ≡ true → 0 < count }
    requires few { count < 2 ^ 63 }
    ensures { result + (if was then 1 else 0) ≡ count + (if is then 1 else 0) }
{
    let others = if was { count - 1 } else { count };
    if is { others + 1 } else { others }
}
