//! How the shape of a store differs from the one that is asked for.

ghost use Rattle.std.specs.Prelude.{◌≡◌, ◌↔◌, None};
ghost use Rattle.pm_config.specs.Differences.{SameNumbers, first_difference_of};

use pm_types::{Field, Shape};

/// The first field, in the order of the configuration's, by which a store's shape differs from the one
/// that is asked for. `None` exactly when the four fields are equal. Versions are not compared.
///
/// Tests alone call it: the program compares shapes by a function of `pm_redo` with the same body.
pub fn first_difference(store: &Shape, wanted: &Shape) -> Option<Field>
    ensures first { result ≡ first_difference_of store.now wanted.now }
    ensures none { (result ≡ None) ↔ SameNumbers store.now wanted.now }
{
    if store.page_size != wanted.page_size {
        Some(Field::PageSize)
    } else if store.partitions != wanted.partitions {
        Some(Field::Partitions)
    } else if store.max_rows != wanted.max_rows {
        Some(Field::MaxRows)
    } else if store.segment_bytes != wanted.segment_bytes {
        Some(Field::SegmentBytes)
    } else {
        None
    }
}
