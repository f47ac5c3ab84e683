//! How many rows a tree of as many levels as it may have has.

ghost use Rattle.std.specs.Prelude.{◌<◌};
ghost use Rattle.pm_types.specs.declared.limits.TheConstants.{ROWS_MAX};
ghost use Rattle.pm_tree.specs.Heights.{TallHasItems};
ghost use Rattle.pm_tree.specs.declared.heights.TheConstants.{TALL_ROWS};

/// The least rows of an index with as many levels as a tree may have, at the smallest page size: a
/// root over two trees, each with six levels of pages of seven children, over leaves of six items.
pub const TALL_ROWS: u32 = 1_411_788;

/// An index with as many levels as a tree may have has more rows than a partition may have: no put
/// into a partition that keeps its limit is refused for the tree's height.
pub fn no_partition_is_tall()
    ensures items { TallHasItems TALL_ROWS }
    ensures more { ROWS_MAX < TALL_ROWS }
{}
