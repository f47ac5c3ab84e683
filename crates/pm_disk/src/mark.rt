//! The two files of checkpoints' markers.

/// A file of markers. It has two slots, one after the other.
#[derive(Clone, Copy, Debug, PartialEq, Eq)]
pub enum MarkFile {
    /// The start markers.
    Start,
    /// The end markers.
    End,
}

/// How many bytes a slot of a marker file has. On the disk: do not change.
pub const SLOT_LEN: usize = 64;
