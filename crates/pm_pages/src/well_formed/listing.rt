//! Whether a tree lists the rows of a cache.

ghost use Rattle.std.specs.Prelude.{◌≡◌, ℕ, ◌<◌, ◌↔◌, ◌++◌, List, IsTrue, IfOk, OnOk, All, Any, length};
ghost use Rattle.std.specs.Prelude.{slice_index, ◌+◌, ◌^◌};
ghost use Rattle.std.specs.Ordering.{nat_cmp};
ghost use Rattle.std.specs.Cmp.Lexicographic.{slice_cmp};
ghost use Rattle.pm_btpage.specs.declared.layout.TheConstants.{LEAF_KIND};
ghost use Rattle.pm_btpage.specs.IndexPages.{items_of, index_of, IsBelow, IsIndexPage, IsRising};
ghost use Rattle.pm_pages.specs.declared.row.Row.{Row};
ghost use Rattle.pm_pages.specs.PageLists.{pages_in, MayRead, AreReadable};
ghost use Rattle.pm_pages.specs.Rows.{page_at, page_count, kind_of, rows_of};
ghost use Rattle.pm_pages.specs.TreeItems.{as_item, as_items, HasKey};
ghost use Rattle.pm_pages.specs.Trees.{items_in, IsItemOf, ListsRows, AreLinked};

use crate::row::Row;
use crate::well_formed::listed::{is_of, page};
use pm_btpage::{count, is_below, key_at, next, word_at};
use pm_data::{DATA_KIND, cache_in, key_in};
use pm_types::{Key, Link, Page, PageId};
use std::alloc::{AllocError, Global};

/// An item of a tree that was read.
#[derive(Debug, Drop)]
pub struct TreeItem {
    pub key: Key,
    pub word: u64,
}

/// The items of leaves, joined.
pub fn items_in(alloc: Global, pages: &[Page], leaves: &[u32]) -> Result<Vec<TreeItem>, AllocError>
    requires readable { AreReadable (pages_in pages.now) }
    requires leaves { All (λ i. kind_of (page_at (pages_in pages.now) i) ≡ LEAF_KIND) leaves.now }
    ensures { IfOk result (λ items. as_items items.items ≡ items_in (pages_in pages.now) leaves.now) }
{
    let mut items = Vec::new(alloc);
    'leaves: for leaf in leaves {
        add_items(alloc, page(pages, *leaf), &mut items)?;
    }
    Ok(items)
}

// Appends the items of a leaf.
fn add_items(alloc: Global, leaf: &[u8], items: &mut Vec<TreeItem>) -> Result<(), AllocError>
    requires { IsIndexPage leaf.now }
    ensures { OnOk result (as_items items.new.items ≡ as_items items.old.items ++ items_of leaf.now) }
{
    'items: for i in 0..count(leaf) {
        let key = Key::of(alloc, key_at(leaf, i))?;
        items.push(TreeItem {
            key,
            word: word_at(leaf, i),
        })?;
    }
    Ok(())
}

/// Whether the items rise, and are those of the rows of a cache, and no others.
///
/// Each row is searched among the items, and each item is looked up on the page that it names.
pub fn lists_rows(pages: &[Page], part: u16, rows: &[Row], cache: u8, items: &[TreeItem]) -> bool
    requires readable { AreReadable (pages_in pages.now) }
    requires few { page_count (pages_in pages.now) < 2 ^ 32 }
    requires rows { rows.now ≡ rows_of part (pages_in pages.now) }
    ensures { IsTrue result ↔ ListsRows rows.now cache (as_items items.now) }
{
    rise(items)
        && rows_are_listed(rows, cache, items)
        && items_are_of_rows(pages, part, cache, items)
}

// Whether the keys of the items rise.
fn rise(items: &[TreeItem]) -> bool
    ensures { IsTrue result ↔ IsRising (as_items items.now) }
{
    'pairs: for i in 1..items.len() {
        if !precedes(&items[i - 1], &items[i]) {
            return false;
        }
    }
    true
}

// Whether the key of one item is below that of another.
fn precedes(a: &TreeItem, b: &TreeItem) -> bool
    ensures { IsTrue result ↔ IsBelow a.now.key b.now.key }
{
    is_below(a.key.bytes(), b.key.bytes())
}

// Whether each row of a cache has its item.
fn rows_are_listed(rows: &[Row], cache: u8, items: &[TreeItem]) -> bool
    requires rising { IsRising (as_items items.now) }
    ensures { IsTrue result ↔ All (λ row. row.cache ≡ cache
        → Any (λ item. IsItemOf cache (as_item item) row) items.now) rows.now }
{
    'rows: for row in rows {
        if row.cache == cache && !has_item(items, row) {
            return false;
        }
    }
    true
}

// Whether one of the items is that of a row.
fn has_item(items: &[TreeItem], row: &Row) -> bool
    requires rising { IsRising (as_items items.now) }
    ensures { IsTrue result
        ↔ Any (λ item. IsItemOf row.now.cache (as_item item) row.now) items.now }
{
    let by_key = |item: &TreeItem|
        ensures { result ≡ slice_cmp nat_cmp item.now.key row.entry.now.key }
    { item.key.cmp(&row.key) };
    match items.binary_search_by(by_key) {
        Ok(at) => items[at].word == row.link.0,
        Err(_) => false,
    }
}

// Whether each item is that of a row of a cache.
fn items_are_of_rows(pages: &[Page], part: u16, cache: u8, items: &[TreeItem]) -> bool
    requires readable { AreReadable (pages_in pages.now) }
    requires few { page_count (pages_in pages.now) < 2 ^ 32 }
    ensures { IsTrue result ↔ All (λ item. Any (IsItemOf cache (as_item item))
        (rows_of part (pages_in pages.now))) items.now }
{
    'items: for item in items {
        if !is_of_row(pages, part, cache, item) {
            return false;
        }
    }
    true
}

// Whether an item is that of one of the rows of a cache.
fn is_of_row(pages: &[Page], part: u16, cache: u8, item: &TreeItem) -> bool
    requires readable { AreReadable (pages_in pages.now) }
    requires few { page_count (pages_in pages.now) < 2 ^ 32 }
    ensures { IsTrue result ↔ Any (IsItemOf cache (as_item item.now))
        (rows_of part (pages_in pages.now)) }
{
    let link = Link(item.word);
    let id = link.page();
    id == PageId::new(part, id.index())
        && has_key(
            page(pages, id.index()),
            link.item(),
            cache,
            item.key.bytes(),
        )
}

// Whether an item of a data page is a row of this key of a cache.
fn has_key(page: &[u8], item: u8, cache: u8, key: &[u8]) -> bool
    requires { MayRead page.now }
    ensures { IsTrue result ↔ HasKey page.now item cache key.now }
{
    if !is_of(page, DATA_KIND) {
        return false;
    }
    match pm_data::row(page, item) {
        Some(row) => cache_in(row) == cache && key_in(row) == key,
        None => false,
    }
}

/// Whether each leaf names the next one, and the last one none.
pub fn are_linked(pages: &[Page], leaves: &[u32]) -> bool
    requires readable { AreReadable (pages_in pages.now) }
    requires leaves { All (λ i. kind_of (page_at (pages_in pages.now) i) ≡ LEAF_KIND) leaves.now }
    ensures { IsTrue result ↔ AreLinked (pages_in pages.now) leaves.now }
{
    'leaves: for i in 0..leaves.len() {
        if next(page(pages, leaves[i])) != following(leaves, i) {
            return false;
        }
    }
    true
}

// The leaf after one in the list, 0 after the last.
fn following(leaves: &[u32], i: usize) -> u32
    requires { i < length leaves.now }
    ensures { result ≡ slice_index leaves.now (i + 1) }
{
    leaves.get(i + 1).copied().unwrap_or(0)
}
