//! The shape of a store, and a checkpoint's mark.

ghost use Rattle.std.specs.Prelude.{◌↔◌, IsTrue};
ghost use Rattle.pm_types.specs.PageSizes.{IsPageSize};
ghost use Rattle.pm_types.specs.Shapes.{IsShape};

use crate::limits::{LAST_VERSION, PARTITIONS_MAX, ROWS_MAX, SEGMENT_BYTES_MAX, SEGMENT_BYTES_MIN};
use crate::place::Place;

/// What a store is made with, and what each opening has to ask for again.
#[derive(Clone, Copy, Debug, PartialEq, Eq)]
pub struct Shape {
    /// The size of each page, in bytes: 1024, 2048, 4096, 8192 or 16384.
    pub page_size: u32,
    /// The number of partitions, 1 to 64.
    pub partitions: u16,
    /// The version of the store's files, 1 to `LAST_VERSION`.
    pub version: u16,
    /// The most rows of one partition, over all caches, 1 to 400000.
    pub max_rows: u32,
    /// The most bytes of one log segment, 65536 to 67108864.
    pub segment_bytes: u32,
}

/// Whether pages may have this size, in bytes.
pub fn is_page_size(size: u32) -> bool
    ensures { IsTrue result ↔ IsPageSize size }
{
    matches!(size, 1024 | 2048 | 4096 | 8192 | 16384)
}

/// Whether a store may have this shape: each of its numbers is within its limits.
pub fn is_shape(shape: &Shape) -> bool
    ensures { IsTrue result ↔ IsShape shape.now }
{
    is_page_size(shape.page_size)
        && (1..=PARTITIONS_MAX).contains(&shape.partitions)
        && (1..=LAST_VERSION).contains(&shape.version)
        && (1..=ROWS_MAX).contains(&shape.max_rows)
        && (SEGMENT_BYTES_MIN..=SEGMENT_BYTES_MAX).contains(&shape.segment_bytes)
}

/// What a checkpoint's marker says.
#[derive(Clone, Copy, Debug, PartialEq, Eq)]
pub struct Mark {
    /// The checkpoint's number, from 1.
    pub number: u64,
    /// Where its begin record stands in the log.
    pub begin: Place,
    /// From where a restart applies the logical records.
    pub replay: Place,
    /// From where a restart without the end marker reads the physical records.
    pub from: Place,
    /// The store's shape.
    pub shape: Shape,
}
