//! How the shape of a store differs from the one that is asked for.

ghost use Rattle.std.specs.Prelude.{◌≡◌};
ghost use Rattle.pm_redo.specs.Differences.{first_difference_of, difference_from};

use pm_types::{Field, Shape};

/// The first field by which the shape of a store, if it has one, differs from the one that is asked for.
/// None where the store has none. Versions are not compared.
pub(crate) fn difference_from(store: &Option<Shape>, wanted: &Shape) -> Option<Field>
    ensures { result ≡ difference_from store.now wanted.now }
{
    match store {
        Some(shape) => first_difference(shape, wanted),
        None => None,
    }
}

// The first field, in the order of the configuration's, by which two shapes differ.
fn first_difference(store: &Shape, wanted: &Shape) -> Option<Field>
    ensures { result ≡ first_difference_of store.now wanted.now }
{
    if store.page_size != wanted.page_size {
        Some(Field::PageSize)
    } else if store.partitions != wanted.partitions {
        Some(Field::Partitions)
    } else if store.max_rows != wanted.max_rows {
        Some(Field::MaxRows)
    } else if store.segment_bytes != wanted.segment_bytes {
        Some(Field::SegmentBytes)
    } else {
        None
    }
}
