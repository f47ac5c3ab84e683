//! Page frames: their numbers, tags and flags.

/// The number of a page frame, from 0.
pub type FrameNo = u32;

/// How often a page frame was given to another page.
pub type Tag = u64;

/// What a page frame holds.
#[derive(Clone, Copy, Debug, PartialEq, Eq)]
pub enum Flag {
    /// No page.
    Empty,
    /// A page as its partition's file has it.
    Clean,
    /// A page that was changed since it was last brought to its file.
    Dirty,
    /// A page of the running checkpoint, not yet brought to its file.
    Due,
    /// A page of the running checkpoint that was brought to its file.
    Done,
}
