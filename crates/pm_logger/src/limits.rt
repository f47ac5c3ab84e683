//! How much the log writer does at a time.

use crate::block::BLOCK_BYTES_MAX;
use pm_types::OUTBOX;

/// The log is forced after so many operations: a larger number makes a crash undo more of them, a smaller one
/// costs forces.
pub const FORCE_AFTER: u32 = 256;
/// The turns of one call of `job`, so that it ends while workers go on.
pub const TURNS_MAX: u32 = 4_096;
/// The bytes of a worker that are kept until their operation is whole, at most: a part of one, and a block
/// more.
pub(crate) const KEPT_MAX: usize = OUTBOX + BLOCK_BYTES_MAX;
