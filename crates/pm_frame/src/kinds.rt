//! The kinds of frames, which say what the payload holds. On the disk: do not change.

/// A change of the map.
pub const LOGICAL: u8 = 1;
/// A page as a whole.
pub const SNAPSHOT: u8 = 2;
/// The ranges of a page that were changed.
pub const DELTA: u8 = 3;
/// The begin of a checkpoint.
pub const CP_BEGIN: u8 = 4;
/// An opening of the store, with its shape.
pub const RESTART: u8 = 5;
/// The end of a segment: the log goes on at the next segment's begin.
pub const SEAL: u8 = 6;
