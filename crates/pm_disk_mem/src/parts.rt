//! The files of a disk that calls change.

use crate::contents::Contents;

/// What each file holds, by its kind.
#[derive(Drop)]
pub struct DiskParts {
    /// The log's segments.
    pub log: Contents,
    /// The partitions' files.
    pub pages: Contents,
    /// The start markers.
    pub starts: Option<Vec<u8>>,
    /// The end markers.
    pub ends: Option<Vec<u8>>,
}
