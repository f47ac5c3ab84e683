//! Laws of partitions, that callers cite.

ghost use Rattle.std.specs.Prelude.{◌≡◌, ℕ, ◌≤◌, List, length};
ghost use Rattle.pm_types.specs.PageSizes.{IsPageSize};
ghost use Rattle.pm_types.specs.declared.shape.Shape.{Shape};
ghost use Rattle.pm_pages.specs.Rows.{page_count, rows_of};
ghost use Rattle.pm_pages.specs.RowMaps.{map_of};
ghost use Rattle.pm_pages.specs.declared.row.Row.{Row};
ghost use Rattle.pm_pages.specs.Paged.{Paged};
ghost use Rattle.pm_tree.specs.SoundPuts.{HasSparePages};
ghost use Rattle.pm_part.specs.OneMap.{HasEachRow, HasNoOther, HasSameRows};
ghost use Rattle.pm_part.specs.Runs.{IsPartitionOf};

/// A well-formed partition has no more rows than it may have, and pages to spare: its trees have no
/// more pages than it has rows, nor has it more data pages, so that of the 256 pages that it may have
/// beside two for each row 255 can be taken whatever it holds. No operation takes as many.
pub fn a_partition_has_pages_to_spare()
    ensures few { (shape : Shape) (p : Paged) → IsPartitionOf shape p → IsPageSize p.page_size
        → 1 ≤ page_count p.pages → length (rows_of p.part p.pages) ≤ p.max_rows }
    ensures spare { (shape : Shape) (p : Paged) → IsPartitionOf shape p → IsPageSize p.page_size
        → 1 ≤ page_count p.pages → (more : ℕ) → more ≤ 255 → HasSparePages p more }
{}

/// The rows of a well-formed partition make one map: each row's value at its key, none at a key of
/// which there is no row, and the same map whatever the order in which the rows are listed.
pub fn a_partition_has_one_map()
    ensures each { (shape : Shape) (p : Paged) → IsPartitionOf shape p
        → HasEachRow (rows_of p.part p.pages) }
    ensures none { (shape : Shape) (p : Paged) → IsPartitionOf shape p
        → HasNoOther (rows_of p.part p.pages) }
    ensures one { (shape : Shape) (p : Paged) → IsPartitionOf shape p
        → (others : List Row) → HasSameRows (rows_of p.part p.pages) others
        → map_of others ≡ map_of (rows_of p.part p.pages) }
{}
