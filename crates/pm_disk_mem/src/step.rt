//! What a host can do.

use crate::change::FileChange;
use pm_disk::MarkFile;

/// A file that calls change.
#[derive(Clone, Copy)]
pub enum ChangedFile {
    /// A segment of the log, by number.
    Segment(u64),
    /// A partition's pages, by number.
    Pages(u16),
    /// A file of markers.
    Marks(MarkFile),
}

/// A call that was done, as the record of a host keeps it.
#[derive(Drop)]
pub enum Step {
    /// A file was changed.
    Change(ChangedFile, FileChange),
    /// A file was forced.
    Force(ChangedFile),
    /// These bytes were said.
    Print(Vec<u8>),
    /// So many bytes of the input were taken.
    Take(usize),
}
