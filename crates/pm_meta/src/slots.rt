//! The numbers of a meta page, by name.

ghost use Rattle.std.specs.Prelude.{◌≡◌};
ghost use Rattle.pm_meta.specs.MetaPages.{offset_of, IsSlot};

use crate::layout::{FIELDS_AT, HEADS_AT, PAGES_AT, REUSE_AT, ROWS_AT};

/// A number of a meta page.
#[derive(Clone, Copy, Debug, PartialEq, Eq)]
pub enum MetaSlot {
    /// The index of the root page of this cache's tree, 0 where it has no rows. Caches are below 16.
    Root(u8),
    /// The index of the first data page of this bucket, 0 where it is empty. Buckets are below 16.
    Bucket(u8),
    /// The index of the first page of the reuse chain, 0 where it is empty.
    Reuse,
    /// How many pages the partition has.
    Pages,
    /// How many rows the partition has.
    Rows,
}

/// Where the number of a slot stands, in bytes from the page's start.
pub fn offset(slot: MetaSlot) -> u16
    requires { IsSlot slot }
    ensures { result ≡ offset_of slot }
{
    match slot {
        MetaSlot::Root(cache) => FIELDS_AT + 4 * cache as u16,
        MetaSlot::Bucket(bucket) => HEADS_AT + 4 * bucket as u16,
        MetaSlot::Reuse => REUSE_AT,
        MetaSlot::Pages => PAGES_AT,
        MetaSlot::Rows => ROWS_AT,
    }
}
