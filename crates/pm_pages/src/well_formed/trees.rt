//! The trees of a partition: whether pages are trees.

ghost use Rattle.std.specs.Prelude.{◌≡◌, ℕ, ◌+◌, ◌-◌, ◌<◌, ◌≤◌, ◌⊎◌, ◌↔◌, false, List, IsTrue, All, length};
ghost use Rattle.pm_btpage.specs.declared.layout.TheConstants.{LEAF_KIND, INNER_KIND};
ghost use Rattle.pm_btpage.specs.IndexPages.{items_of, index_of, IsIndexPage};
ghost use Rattle.pm_pages.specs.PageLists.{pages_in, MayRead, AreReadable};
ghost use Rattle.pm_pages.specs.Trees.{child_of, items_below, IsNode, IsKeyWithin, IsWithin, IsTree};
ghost use Rattle.pm_pages.specs.Trees.{IsSomeTree};

use crate::well_formed::listed::{is_of, page};
use pm_btpage::{INNER_KIND, LEAF_KIND, capacity, count, first, is_below, key_at, word_at};
use pm_types::{Page, PageId};

/// Whether a page is the root of a tree with so many levels of inner pages, and has so many items at least.
pub fn is_tree(pages: &[Page], levels: u8, least: u16, at: u32) -> bool
    requires { AreReadable (pages_in pages.now) }
    ensures { IsTrue result ↔ IsTree (pages_in pages.now) levels least at }
{
    let root = page(pages, at);
    if levels == 0 {
        return is_node(root, LEAF_KIND, least);
    }
    if !is_node(root, INNER_KIND, least) {
        return false;
    }
    let half = capacity(root.len() as u32) / 2;
    'children: for i in 0..children(root) {
        let child = child(root, i);
        if !is_tree(pages, levels - 1, half, child)
            || !is_within(pages, root, i, levels - 1, child)
        {
            return false;
        }
    }
    true
}

// Whether the keys of all items below a page, which is a tree, are within the bounds of a child of
// an inner page.
fn is_within(pages: &[Page], inner: &[u8], i: u16, levels: u8, at: u32) -> bool
    requires readable { AreReadable (pages_in pages.now) }
    requires page { IsIndexPage inner.now }
    requires child { i ≤ length (items_of inner.now) }
    requires tree { IsSomeTree (pages_in pages.now) levels at }
    ensures { IsTrue result ↔ All (IsWithin (items_of inner.now) i)
        (items_below (pages_in pages.now) levels at) }
{
    let root = page(pages, at);
    if levels == 0 {
        return items_are_within(inner, i, root);
    }
    'children: for k in 0..children(root) {
        if !is_within(pages, inner, i, levels - 1, child(root, k)) {
            return false;
        }
    }
    true
}

// Whether the keys of a leaf's items are within the bounds of a child of an inner page.
fn items_are_within(inner: &[u8], i: u16, leaf: &[u8]) -> bool
    requires page { IsIndexPage inner.now }
    requires child { i ≤ length (items_of inner.now) }
    requires leaf { IsIndexPage leaf.now }
    ensures { IsTrue result ↔ All (IsWithin (items_of inner.now) i) (items_of leaf.now) }
{
    'items: for k in 0..count(leaf) {
        if !is_key_within(inner, i, key_at(leaf, k)) {
            return false;
        }
    }
    true
}

// Whether a key is within the bounds of a child of an inner page.
fn is_key_within(inner: &[u8], i: u16, key: &[u8]) -> bool
    requires page { IsIndexPage inner.now }
    requires child { i ≤ length (items_of inner.now) }
    ensures { IsTrue result ↔ IsKeyWithin (items_of inner.now) i key.now }
{
    (i == 0 || !is_below(key, key_at(inner, i - 1)))
        && (i >= count(inner) || is_below(key, key_at(inner, i)))
}

// Whether a page is of this kind of a tree's pages and has so many items at least.
fn is_node(page: &[u8], kind: u8, least: u16) -> bool
    requires page { MayRead page.now }
    requires kind { (kind ≡ LEAF_KIND) ⊎ (kind ≡ INNER_KIND) }
    ensures { IsTrue result ↔ IsNode kind least page.now }
{
    is_of(page, kind) && count(page) >= least
}

/// How many children an inner page has.
pub fn children(page: &[u8]) -> u16
    requires { IsIndexPage page.now }
    ensures { result ≡ length (items_of page.now) + 1 }
{
    count(page) + 1
}

/// The index of a child of an inner page; 0 is the first.
pub fn child(page: &[u8], i: u16) -> u32
    requires page { IsIndexPage page.now }
    requires inner { (index_of page.now).leaf ≡ false }
    requires child { i ≤ length (items_of page.now) }
    ensures { result ≡ child_of page.now i }
{
    if i == 0 {
        return first(page).index();
    }
    PageId(word_at(page, i - 1)).index()
}
