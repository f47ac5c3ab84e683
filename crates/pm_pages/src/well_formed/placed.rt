//! Where each page of a partition stands: in a tree, in the chain of a bucket or in the reuse chain.

ghost use Rattle.std.specs.Prelude.{◌≡◌, ℕ, ◌<◌, ◌≤◌, ◌↔◌, ◌++◌, false, nat_le, IsTrue, IfOk, OnOk, length};
ghost use Rattle.std.specs.List.{flat_map, range_with_len, slice_index_or};
ghost use Rattle.pm_types.specs.declared.limits.TheConstants.{CACHES};
ghost use Rattle.pm_meta.specs.declared.layout.TheConstants.{BUCKETS};
ghost use Rattle.pm_pages.specs.Chains.{bucket_chain, reuse_chain};
ghost use Rattle.pm_pages.specs.WellFormed.{EachOnce};
ghost use Rattle.pm_pages.specs.PageLists.{pages_in, AreReadable};
ghost use Rattle.pm_pages.specs.Trees.{leaves_below, nodes_below, nodes_of, levels_from, IsSomeTree, AreTrees};

use crate::limits::LEVELS_MAX;
use crate::well_formed::chains::{bucket_chain, reuse_chain};
use crate::well_formed::exact::is_exactly;
use crate::well_formed::listed::{is_of, number, page, page_count};
use crate::well_formed::trees::{child, children};
use pm_btpage::INNER_KIND;
use pm_meta::{BUCKETS, MetaSlot};
use pm_types::{CACHES, Page};
use std::alloc::{AllocError, Global};

/// Appends the leaves below a page that is a tree with so many levels of inner pages, from left to right.
pub fn add_leaves(
    pages: &[Page],
    levels: u8,
    at: u32,
    leaves: &mut Vec<u32>,
) -> Result<(), AllocError>
    requires readable { AreReadable (pages_in pages.now) }
    requires tree { IsSomeTree (pages_in pages.now) levels at }
    ensures { OnOk result (leaves.new.items
        ≡ leaves.old.items ++ leaves_below (pages_in pages.now) levels at) }
{
    if levels == 0 {
        leaves.push(at)?;
        return Ok(());
    }
    let root = page(pages, at);
    'children: for i in 0..children(root) {
        add_leaves(pages, levels - 1, child(root, i), leaves)?;
    }
    Ok(())
}

/// Appends the pages of a tree with so many levels of inner pages, each before those below it.
pub fn add_nodes(
    pages: &[Page],
    levels: u8,
    at: u32,
    nodes: &mut Vec<u32>,
) -> Result<(), AllocError>
    requires readable { AreReadable (pages_in pages.now) }
    requires tree { IsSomeTree (pages_in pages.now) levels at }
    ensures { OnOk result (nodes.new.items
        ≡ nodes.old.items ++ nodes_below (pages_in pages.now) levels at) }
{
    nodes.push(at)?;
    if levels == 0 {
        return Ok(());
    }
    let root = page(pages, at);
    'children: for i in 0..children(root) {
        add_nodes(pages, levels - 1, child(root, i), nodes)?;
    }
    Ok(())
}

/// How many levels of inner pages first children lead through from this page on, as far as so many.
pub fn levels_from(pages: &[Page], limit: u8, at: u32) -> u8
    requires { AreReadable (pages_in pages.now) }
    ensures levels { result ≡ levels_from (pages_in pages.now) limit at }
    ensures few { result ≤ limit }
{
    let root = page(pages, at);
    if limit == 0 || !is_of(root, INNER_KIND) {
        return 0;
    }
    1 + levels_from(pages, limit - 1, child(root, 0))
}

/// Whether each page but the first stands once, in a tree, in the chain of a bucket or in that of
/// the reuse pages.
pub fn each_once(alloc: Global, pages: &[Page]) -> Result<bool, AllocError>
    requires readable { AreReadable (pages_in pages.now) }
    requires trees { AreTrees (pages_in pages.now) }
    ensures { IfOk result (λ once. IsTrue once ↔ EachOnce (pages_in pages.now)) }
{
    let mut placed = Vec::new(alloc);
    add_trees(pages, &mut placed)?;
    add_chains(alloc, pages, &mut placed)?;
    let wanted = all_but_first(alloc, page_count(pages))?;
    is_exactly(alloc, &placed, &wanted)
}

// Appends the pages of all trees.
fn add_trees(pages: &[Page], placed: &mut Vec<u32>) -> Result<(), AllocError>
    requires readable { AreReadable (pages_in pages.now) }
    requires trees { AreTrees (pages_in pages.now) }
    ensures { OnOk result (placed.new.items
        ≡ placed.old.items ++ flat_map (nodes_of (pages_in pages.now)) (range_with_len 0 CACHES)) }
{
    'caches: for cache in 0..CACHES {
        add_tree(pages, cache, placed)?;
    }
    Ok(())
}

// Appends the pages of the tree of a cache.
fn add_tree(pages: &[Page], cache: u8, placed: &mut Vec<u32>) -> Result<(), AllocError>
    requires readable { AreReadable (pages_in pages.now) }
    requires trees { AreTrees (pages_in pages.now) }
    requires cache { cache < CACHES }
    ensures { OnOk result (placed.new.items ≡ placed.old.items ++ nodes_of (pages_in pages.now) cache) }
{
    let root = number(pages, MetaSlot::Root(cache));
    if root == 0 {
        return Ok(());
    }
    let levels = levels_from(pages, LEVELS_MAX as u8, root);
    add_nodes(pages, levels, root, placed)
}

// Appends the pages of all buckets' chains, and then those of the reuse chain.
fn add_chains(alloc: Global, pages: &[Page], placed: &mut Vec<u32>) -> Result<(), AllocError>
    requires { AreReadable (pages_in pages.now) }
    ensures { OnOk result (placed.new.items ≡ placed.old.items
        ++ (flat_map (bucket_chain (pages_in pages.now)) (range_with_len 0 BUCKETS)
        ++ reuse_chain (pages_in pages.now))) }
{
    'buckets: for bucket in 0..BUCKETS {
        let chain = bucket_chain(alloc, pages, bucket)?;
        placed.extend_from_slice(&chain)?;
    }
    let chain = reuse_chain(alloc, pages)?;
    placed.extend_from_slice(&chain)?;
    Ok(())
}

// For each of so many pages whether it isn't the first.
fn all_but_first(alloc: Global, count: u32) -> Result<Vec<bool>, AllocError>
    ensures len { IfOk result (λ flags. length flags.items ≡ count) }
    ensures each { IfOk result (λ flags. (i : ℕ) → i < count
        → slice_index_or flags.items i false ≡ nat_le 1 i) }
{
    let mut flags = Vec::new(alloc);
    'pages: for i in 0..count {
        flags.push(i >= 1)?;
    }
    Ok(flags)
}
