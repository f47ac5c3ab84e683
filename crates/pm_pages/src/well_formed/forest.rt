//! The trees of a partition, one for each cache with rows.

ghost use Rattle.std.specs.Prelude.{◌≡◌, ℕ, ◌<◌, ◌^◌, ◌↔◌, IsTrue, IfOk, Any};
ghost use Rattle.pm_types.specs.declared.limits.TheConstants.{CACHES};
ghost use Rattle.pm_pages.specs.declared.row.Row.{Row};
ghost use Rattle.pm_pages.specs.PageLists.{pages_in, AreReadable};
ghost use Rattle.pm_pages.specs.Rows.{page_count, rows_of};
ghost use Rattle.pm_pages.specs.Trees.{IsTreeOf, HasTree};

use crate::limits::LEVELS_MAX;
use crate::row::Row;
use crate::well_formed::listed::number;
use crate::well_formed::listing::{are_linked, items_in, lists_rows};
use crate::well_formed::placed::{add_leaves, levels_from};
use crate::well_formed::trees::is_tree;
use pm_meta::MetaSlot;
use pm_types::{CACHES, Page};
use std::alloc::{AllocError, Global};

/// Whether each cache with rows has a tree that lists them, and no other cache has one.
pub fn has_forest(
    alloc: Global,
    pages: &[Page],
    part: u16,
    rows: &[Row],
) -> Result<bool, AllocError>
    requires readable { AreReadable (pages_in pages.now) }
    requires few { page_count (pages_in pages.now) < 2 ^ 32 }
    requires rows { rows.now ≡ rows_of part (pages_in pages.now) }
    ensures { IfOk result (λ has. IsTrue has ↔ ((cache : ℕ) → cache < CACHES
        → HasTree (pages_in pages.now) rows.now cache)) }
{
    'caches: for cache in 0..CACHES {
        if !has_tree(alloc, pages, part, rows, cache)? {
            return Ok(false);
        }
    }
    Ok(true)
}

// Whether a cache has a tree that lists its rows, or neither.
fn has_tree(
    alloc: Global,
    pages: &[Page],
    part: u16,
    rows: &[Row],
    cache: u8,
) -> Result<bool, AllocError>
    requires readable { AreReadable (pages_in pages.now) }
    requires few { page_count (pages_in pages.now) < 2 ^ 32 }
    requires rows { rows.now ≡ rows_of part (pages_in pages.now) }
    requires cache { cache < CACHES }
    ensures { IfOk result (λ has. IsTrue has ↔ HasTree (pages_in pages.now) rows.now cache) }
{
    let root = number(pages, MetaSlot::Root(cache));
    if !has_rows(rows, cache) {
        return Ok(root == 0);
    }
    let levels = levels_from(pages, LEVELS_MAX as u8, root);
    is_tree_of(alloc, pages, part, rows, cache, levels, root)
}

// Whether a cache has rows.
fn has_rows(rows: &[Row], cache: u8) -> bool
    ensures { IsTrue result ↔ Any (λ row. row.cache ≡ cache) rows.now }
{
    rows.iter().any(|row| row.cache == cache)
}

// Whether a page is the root of a tree that lists the rows of a cache.
fn is_tree_of(
    alloc: Global,
    pages: &[Page],
    part: u16,
    rows: &[Row],
    cache: u8,
    levels: u8,
    root: u32,
) -> Result<bool, AllocError>
    requires readable { AreReadable (pages_in pages.now) }
    requires few { page_count (pages_in pages.now) < 2 ^ 32 }
    requires rows { rows.now ≡ rows_of part (pages_in pages.now) }
    ensures { IfOk result (λ is. IsTrue is
        ↔ IsTreeOf (pages_in pages.now) rows.now cache levels root) }
{
    if levels as u32 >= LEVELS_MAX || !is_tree(pages, levels, 1, root) {
        return Ok(false);
    }
    let mut leaves = Vec::new(alloc);
    add_leaves(pages, levels, root, &mut leaves)?;
    let items = items_in(alloc, pages, &leaves)?;
    Ok(lists_rows(pages, part, rows, cache, &items) && are_linked(pages, &leaves))
}
