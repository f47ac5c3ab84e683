//! What a seat knows. Contracts speak of these; no program makes a value of them.

use crate::word::Word;
use pm_region::Lease;
use pm_types::{Flag, FrameNo, Tag};
use std::collections::LinkedList;
use std::snapshot::Snapshot;

/// The numbers that a seat stands for: workers' from `from` up to, but not with, `upto`, and the
/// flusher's.
#[derive(Clone, Copy, Debug)]
pub struct Numbers {
    pub from: u8,
    pub upto: u8,
    pub flusher: bool,
}

/// A step of the seat met this word at this frame.
pub struct Met {
    pub frame: FrameNo,
    pub word: Word,
}

/// A worker's last put or steal of a frame.
pub struct Entry {
    pub number: u8,
    pub frame: FrameNo,
    pub tag: Tag,
    pub bytes: LinkedList<u8>,
    pub flag: Flag,
}

/// A frame that is out: its word, and its lease as it was taken.
pub struct Out {
    pub word: Word,
    pub lease: Lease,
}

/// The flusher's image of a frame that is due, and whether it was taken.
pub struct Due {
    pub tag: Tag,
    pub image: LinkedList<u8>,
    pub taken: bool,
}

/// What a seat knows. Its lists have what came last in front, but for `met`.
pub struct View {
    /// How many workers the locks have.
    pub workers: u8,
    /// The leases with which the locks began.
    pub leases: LinkedList<Lease>,
    /// The numbers that it stands for.
    pub numbers: Numbers,
    /// The puts and steals of these numbers.
    pub entries: LinkedList<Entry>,
    /// What it took, and `None` for what it put back.
    pub outs: LinkedList<(FrameNo, Option<Out>)>,
    /// What is due, where it stands for the flusher.
    pub dues: LinkedList<(FrameNo, Due)>,
    /// The words that its steps left.
    pub words: LinkedList<(FrameNo, Word)>,
    /// The frame whose slot it carries, inside a call.
    pub hand: Option<FrameNo>,
    /// The words that its steps met, in order.
    pub met: LinkedList<Met>,
}

/// What the locks begin with.
#[derive(Drop)]
pub struct Start {
    pub workers: u8,
    pub leases: Snapshot<Vec<Lease>>,
}
