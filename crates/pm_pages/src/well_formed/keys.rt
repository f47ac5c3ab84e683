//! The keys of a partition: whether each stands once, in its own partition, and is counted.

ghost use Rattle.std.specs.Prelude.{◌≡◌, ℕ, ◌<◌, ◌^◌, ◌↔◌, IsTrue, All};
ghost use Rattle.pm_types.specs.declared.limits.TheConstants.{CACHES};
ghost use Rattle.pm_types.specs.declared.shape.Shape.{Shape};
ghost use Rattle.pm_model.specs.Partitions.{ArePartitions, part_of};
ghost use Rattle.pm_pages.specs.declared.row.Row.{Row};
ghost use Rattle.pm_pages.specs.PageLists.{pages_in, AreReadable};
ghost use Rattle.pm_pages.specs.Rows.{page_count, rows_of};
ghost use Rattle.pm_pages.specs.Trees.{HasTree};
ghost use Rattle.pm_pages.specs.WellFormed.{HasKeysOnce};

use crate::row::Row;
use crate::well_formed::listed::number;
use pm_meta::MetaSlot;
use pm_model::part_of;
use pm_types::{Page, Shape};

/// Whether no key of a cache has two rows, each key is of this partition, and the meta page counts the rows.
///
/// The trees list the rows by rising key, so that no key of a cache can have two: rows aren't compared.
pub fn has_keys_once(shape: &Shape, part: u16, pages: &[Page], rows: &[Row]) -> bool
    requires readable { AreReadable (pages_in pages.now) }
    requires partitions { ArePartitions shape.now.partitions }
    requires few { page_count (pages_in pages.now) < 2 ^ 32 }
    requires rows { rows.now ≡ rows_of part (pages_in pages.now) }
    requires trees { (cache : ℕ) → cache < CACHES → HasTree (pages_in pages.now) rows.now cache }
    ensures { IsTrue result ↔ HasKeysOnce shape.now part (pages_in pages.now) }
{
    are_of_part(rows, part, shape.partitions)
        && number(pages, MetaSlot::Rows) as usize == rows.len()
}

// Whether the key of each row is of this partition.
fn are_of_part(rows: &[Row], part: u16, partitions: u16) -> bool
    requires { ArePartitions partitions }
    ensures { IsTrue result ↔ All (λ row. part_of row.key partitions ≡ part) rows.now }
{
    rows.iter()
        .all(|row| part_of(row.key.bytes(), partitions) == part)
}
