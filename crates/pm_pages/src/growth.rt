//! Pages that appear in a partition's file and change nothing.

ghost use Rattle.std.specs.Prelude.{◌≡◌, ℕ, ◌↔◌, None};
ghost use Rattle.pm_types.specs.declared.shape.Shape.{Shape};
ghost use Rattle.pm_pages.specs.Rows.{Partition, rows_of};
ghost use Rattle.pm_pages.specs.WellFormed.{IsWellFormed};
ghost use Rattle.pm_pages.specs.Growth.{GrowsAbove, LosesNone};

/// Whatever pages appear at the page count of a partition and above it, the partition is as well
/// formed as before, and has the same rows. That is so where a well-formed partition with a meta
/// page loses no page, and where a partition without a meta page gets none.
///
/// A law on definitions: the function does nothing.
pub fn growth_changes_nothing()
    ensures well_formed { (shape : Shape) (part : ℕ) (was now : Partition) → GrowsAbove was now
        → IsWellFormed shape part was ↔ IsWellFormed shape part now }
    ensures rows { (part : ℕ) (was now : Partition) → GrowsAbove was now → rows_of part now ≡ rows_of part was }
    ensures with_meta { (shape : Shape) (part : ℕ) (was now : Partition) → LosesNone was now
        → IsWellFormed shape part was → GrowsAbove was now }
    ensures without_meta { (was now : Partition) → was 0 ≡ None → now 0 ≡ None → GrowsAbove was now }
{}
