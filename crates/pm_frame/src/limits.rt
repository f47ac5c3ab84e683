//! How long frames are, and where they may end. On the disk: do not change.

use pm_types::SEGMENT_BYTES_MAX;

/// The bytes of a frame before its payload: kind 1, segment 8, offset 4, length of the payload 4.
pub const HEAD_LEN: usize = 17;
/// The bytes of a frame after its payload.
pub(crate) const SUM_LEN: usize = 4;
/// The bytes that a frame has beside its payload.
pub const FRAME_EXTRA: usize = HEAD_LEN + SUM_LEN;
/// The longest payload, in bytes: an empty segment of the smallest size, 65,536 bytes, has room for
/// its frame and for a SEAL after it.
pub const PAYLOAD_MAX: usize = 65_494;
/// The longest frame, in bytes. Whoever builds or reads frames keeps a buffer of this length.
pub const FRAME_MAX: usize = PAYLOAD_MAX + FRAME_EXTRA;
/// The most bytes of a segment, 64 MiB: the offset at which a SEAL ends at the latest.
pub const SEGMENT_END_MAX: u32 = SEGMENT_BYTES_MAX;
/// The offset at which any other frame ends at the latest: a SEAL still fits after it.
pub const FRAME_END_MAX: u32 = 67_108_843;
