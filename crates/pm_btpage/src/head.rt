//! The head of an index page: pages made anew, and their counts and links.

ghost use Rattle.std.specs.Prelude.{◌≡◌, ◌-◌, ◌/◌, ◌≤◌, true, false, length};
ghost use Rattle.pm_types.specs.PageSizes.{IsPageSize};
ghost use Rattle.pm_types.specs.Pages.{IsNoted};
ghost use Rattle.pm_types.specs.Spans.{span_of};
ghost use Rattle.pm_types.specs.Fields.{Writes};
ghost use Rattle.pm_btpage.specs.IndexPages.{index_of, items_of, count_of, empty_leaf, empty_inner};
ghost use Rattle.pm_btpage.specs.IndexPages.{with_link, capacity_of, IsIndexPage};

use crate::layout::{COUNT_AT, INNER_KIND, ITEM_LEN, ITEMS_AT, LEAF_KIND, LINK_AT};
use pm_types::fields::{get_u16, get_u64, put_u64, set_u16, set_u64};
use pm_types::head::{KIND_AT, put_head};
use pm_types::{PageId, Patch};

/// Makes a leaf of this name without items and without a next leaf.
///
/// The bytes are those of a new page, which is written as a whole: there is no patch.
pub fn fresh_leaf(page: &mut [u8], id: PageId)
    requires { IsPageSize (length page.old) }
    ensures page { IsIndexPage page.new }
    ensures says { index_of page.new ≡ empty_leaf id }
{
    put_head(page, id, LEAF_KIND);
}

/// Makes an inner page of this name with this first child and without items.
///
/// The bytes are those of a new page, which is written as a whole: there is no patch.
pub fn fresh_inner(page: &mut [u8], id: PageId, first: PageId)
    requires { IsPageSize (length page.old) }
    ensures page { IsIndexPage page.new }
    ensures says { index_of page.new ≡ empty_inner id first }
{
    put_head(page, id, INNER_KIND);
    put_u64(page, LINK_AT, first.0);
}

/// How many items the page has.
pub fn count(page: &[u8]) -> u16
    requires { IsIndexPage page.now }
    ensures { result ≡ length (items_of page.now) }
{
    get_u16(page, COUNT_AT)
}

/// Sets the number of items, which the patch notes. The items are the caller's to write.
pub fn set_count(page: &mut [u8], number: u16, patch: &mut Patch)
    requires head { ITEMS_AT ≤ length page.old }
    requires size { patch.old.page_size ≡ length page.old }
    ensures count { count_of page.new ≡ number }
    ensures writes { Writes (span_of COUNT_AT 2) page.old page.new patch.old patch.new }
{
    set_u16(page, COUNT_AT, number, patch);
}

/// How many items a page of this size, in bytes, has at most.
pub fn capacity(size: u32) -> u16
    requires { IsPageSize size }
    ensures { result ≡ capacity_of size }
{
    ((size - ITEMS_AT as u32) / ITEM_LEN as u32) as u16
}

/// Whether the page is a leaf; else it is an inner page.
pub fn is_leaf(page: &[u8]) -> bool
    requires { IsIndexPage page.now }
    ensures { result ≡ (index_of page.now).leaf }
{
    page[KIND_AT as usize] == LEAF_KIND
}

/// The index of the leaf after this one, 0 where there is none.
pub fn next(page: &[u8]) -> u32
    requires page { IsIndexPage page.now }
    requires leaf { (index_of page.now).leaf ≡ true }
    ensures { result ≡ (index_of page.now).link }
{
    get_u64(page, LINK_AT) as u32
}

/// Sets the index of the leaf after this one.
pub fn set_next(page: &mut [u8], next: u32, patch: &mut Patch)
    requires page { IsIndexPage page.old }
    requires leaf { (index_of page.old).leaf ≡ true }
    requires size { patch.old.page_size ≡ length page.old }
    ensures page { IsIndexPage page.new }
    ensures says { index_of page.new ≡ with_link (index_of page.old) next }
    ensures noted { IsNoted patch.old patch.new page.old page.new }
{
    set_u64(page, LINK_AT, next as u64, patch);
}

/// The name of the child with the keys below the first item's.
pub fn first(page: &[u8]) -> PageId
    requires page { IsIndexPage page.now }
    requires inner { (index_of page.now).leaf ≡ false }
    ensures { result.0 ≡ (index_of page.now).link }
{
    PageId(get_u64(page, LINK_AT))
}

/// Sets the name of the child with the keys below the first item's.
pub fn set_first(page: &mut [u8], first: PageId, patch: &mut Patch)
    requires page { IsIndexPage page.old }
    requires inner { (index_of page.old).leaf ≡ false }
    requires size { patch.old.page_size ≡ length page.old }
    ensures page { IsIndexPage page.new }
    ensures says { index_of page.new ≡ with_link (index_of page.old) first.0 }
    ensures noted { IsNoted patch.old patch.new page.old page.new }
{
    set_u64(page, LINK_AT, first.0, patch);
}
