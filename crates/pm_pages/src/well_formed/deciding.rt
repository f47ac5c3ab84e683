//! Whether a partition is well formed.

ghost use Rattle.std.specs.Prelude.{ℕ, ◌<◌, ◌↔◌, IsTrue, IfOk};
ghost use Rattle.pm_types.specs.PageSizes.{IsPageSize};
ghost use Rattle.pm_meta.specs.declared.layout.TheConstants.{BUCKETS};
ghost use Rattle.pm_model.specs.Partitions.{ArePartitions};
ghost use Rattle.pm_pages.specs.PageLists.{pages_in, AreReadable};
ghost use Rattle.pm_pages.specs.Chains.{HasChain};
ghost use Rattle.pm_pages.specs.WellFormed.{IsWellFormed};

use crate::well_formed::chains::{has_chain, has_reuse_chain, reuse_chain};
use crate::well_formed::forest::has_forest;
use crate::well_formed::keys::has_keys_once;
use crate::well_formed::passing::all_pass;
use crate::well_formed::placed::each_once;
use crate::well_formed::rows::rows_of;
use pm_meta::BUCKETS;
use pm_types::{Page, Shape};
use std::alloc::{AllocError, Global};

/// Whether these pages are a well-formed partition of this number, in a store of this shape.
///
/// Its time grows as that of sorting the rows does: each row is searched in its tree, and each item of a tree is
/// looked up on its page.
pub fn is_well_formed(
    alloc: Global,
    shape: &Shape,
    part: u16,
    pages: &[Page],
) -> Result<bool, AllocError>
    requires size { IsPageSize shape.now.page_size }
    requires partitions { ArePartitions shape.now.partitions }
    ensures { IfOk result (λ is. IsTrue is ↔ IsWellFormed shape.now part (pages_in pages.now)) }
{
    if !all_pass(shape, part, pages) {
        return Ok(false);
    }
    let rows = rows_of(alloc, part, pages)?;
    if !has_forest(alloc, pages, part, &rows)? {
        return Ok(false);
    }
    if !has_keys_once(shape, part, pages, &rows) {
        return Ok(false);
    }
    if !has_chains(alloc, pages)? {
        return Ok(false);
    }
    let reuse = reuse_chain(alloc, pages)?;
    if !has_reuse_chain(pages, &reuse) {
        return Ok(false);
    }
    each_once(alloc, pages)
}

// Whether the chain of each bucket is as it has to be.
fn has_chains(alloc: Global, pages: &[Page]) -> Result<bool, AllocError>
    requires { AreReadable (pages_in pages.now) }
    ensures { IfOk result (λ has. IsTrue has ↔ ((bucket : ℕ) → bucket < BUCKETS
        → HasChain (pages_in pages.now) bucket)) }
{
    'buckets: for bucket in 0..BUCKETS {
        if !has_chain(alloc, pages, bucket)? {
            return Ok(false);
        }
    }
    Ok(true)
}
