//! The check of an index page that was read.

ghost use Rattle.std.specs.Prelude.{◌≡◌, ℕ, ◌+◌, ◌*◌, ◌<◌, ◌≤◌, ◌↔◌, IsTrue, length};
ghost use Rattle.pm_types.specs.PageSizes.{IsPageSize};
ghost use Rattle.pm_btpage.specs.IndexPages.{index_of, items_of, word_in, count_of, offset_of, HasHead};
ghost use Rattle.pm_btpage.specs.IndexPages.{HasItems, IsBelow, IsItem, IsRising, IsIndexPage};
ghost use Rattle.pm_btpage.specs.Stored.{IsPageOf, IsWord, NamesPagesOf, IsStoredIndex};

use crate::head::{capacity, count, first, is_leaf};
use crate::items::{offset, stored_key, word_at};
use crate::layout::{
    COUNT_AT, INNER_KIND, ITEM_LEN, ITEMS_AT, LEAF_KIND, LINK_AT, LINK_END, WORD_IN_ITEM,
};
use pm_types::fields::{are_zero, get_u16, get_u64};
use pm_types::head::KIND_AT;
use pm_types::{KEY_MAX, Link, PAGE_SIZE_MAX, PageId};

/// Whether these bytes are a leaf or an inner page of this name, with at least one item.
pub fn check(page: &[u8], id: PageId) -> bool
    requires { IsPageSize (length page.now) }
    ensures { IsTrue result ↔ IsStoredIndex id page.now }
{
    is_index_page(page)
        && get_u64(page, 0) == id.0
        && count(page) >= 1
        && names_pages_of(page, id.part())
}

fn is_index_page(page: &[u8]) -> bool
    requires { IsPageSize (length page.now) }
    ensures { IsTrue result ↔ IsIndexPage page.now }
{
    has_head(page) && has_items(page)
}

fn has_head(page: &[u8]) -> bool
    requires { IsPageSize (length page.now) }
    ensures { IsTrue result ↔ HasHead page.now }
{
    let kind = page[KIND_AT as usize];
    (kind == LEAF_KIND || kind == INNER_KIND)
        && page[9] == 0
        && are_zero(page, 12, LINK_AT)
        && (kind == INNER_KIND || get_u64(page, LINK_AT) <= u32::MAX as u64)
        && are_zero(page, LINK_END, ITEMS_AT)
}

fn has_items(page: &[u8]) -> bool
    requires { IsPageSize (length page.now) }
    ensures { IsTrue result ↔ HasItems page.now }
{
    let number = get_u16(page, COUNT_AT);
    number <= capacity(page.len() as u32)
        && each_is_item(page, number)
        && rise(page, number)
        && are_zero(page, offset(number), page.len() as u16)
}

// Whether each of the first `number` items has a key, and zeros after it.
fn each_is_item(page: &[u8], number: u16) -> bool
    requires within { offset_of number ≤ length page.now }
    requires long { length page.now ≤ PAGE_SIZE_MAX }
    ensures { IsTrue result ↔ ((i : ℕ) → i < number → IsItem page.now i) }
{
    'items: for i in 0..number {
        if !is_item(page, i) {
            return false;
        }
    }
    true
}

fn is_item(page: &[u8], i: u16) -> bool
    requires within { offset_of i + ITEM_LEN ≤ length page.now }
    requires long { length page.now ≤ PAGE_SIZE_MAX }
    ensures { IsTrue result ↔ IsItem page.now i }
{
    let at = offset(i);
    let len = page[at as usize];
    1 <= len && len as usize <= KEY_MAX && are_zero(page, at + 1 + len as u16, at + WORD_IN_ITEM)
}

// Whether the keys of the items rise.
fn rise(page: &[u8], number: u16) -> bool
    requires count { number ≡ count_of page.now }
    requires within { offset_of number ≤ length page.now }
    requires long { length page.now ≤ PAGE_SIZE_MAX }
    requires each { (i : ℕ) → i < number → IsItem page.now i }
    ensures { IsTrue result ↔ IsRising (items_of page.now) }
{
    'pairs: for i in 1..number {
        if !is_below(stored_key(page, i - 1), stored_key(page, i)) {
            return false;
        }
    }
    true
}

/// Whether one key is below another: byte by byte, a proper prefix first.
pub fn is_below(a: &[u8], b: &[u8]) -> bool
    ensures { IsTrue result ↔ IsBelow a.now b.now }
{
    a.cmp(&b).is_lt()
}

// Whether the pages that a page names are of this partition.
fn names_pages_of(page: &[u8], part: u16) -> bool
    requires { IsIndexPage page.now }
    ensures { IsTrue result ↔ NamesPagesOf part (index_of page.now) }
{
    let leaf = is_leaf(page);
    (leaf || is_page_of(first(page), part)) && each_word_is(page, leaf, part)
}

fn each_word_is(page: &[u8], leaf: bool, part: u16) -> bool
    requires { IsIndexPage page.now }
    ensures { IsTrue result
        ↔ ((i : ℕ) → i < length (items_of page.now) → IsWord leaf part (word_in (items_of page.now) i)) }
{
    'items: for i in 0..count(page) {
        if !is_word(leaf, word_at(page, i), part) {
            return false;
        }
    }
    true
}

fn is_word(leaf: bool, word: u64, part: u16) -> bool
    ensures { IsTrue result ↔ IsWord leaf part word }
{
    if leaf {
        is_page_of(Link(word).page(), part)
    } else {
        is_page_of(PageId(word), part)
    }
}

// Whether this is the name of a page of this partition that isn't its first one.
fn is_page_of(page: PageId, part: u16) -> bool
    ensures { IsTrue result ↔ IsPageOf part page }
{
    page.index() >= 1 && page == PageId::new(part, page.index())
}
