//! Items taken out of an index page.

ghost use Rattle.std.specs.Prelude.{◌≡◌, ◌+◌, ◌-◌, ◌<◌, ◌≤◌, length, take};
ghost use Rattle.pm_types.specs.Pages.{IsNoted};
ghost use Rattle.pm_btpage.specs.IndexPages.{index_of, items_of, with_items, without_item, IsIndexPage};

use crate::head::{count, set_count};
use crate::spans::{clear_items, lower_items};
use pm_types::Patch;

/// Takes the items from one on out of the page.
pub fn cut(left: &mut [u8], at: u16, patch: &mut Patch)
    requires page { IsIndexPage left.old }
    requires item { at ≤ length (items_of left.old) }
    requires size { patch.old.page_size ≡ length left.old }
    ensures page { IsIndexPage left.new }
    ensures says { index_of left.new
        ≡ with_items (index_of left.old) (take at (items_of left.old)) }
    ensures noted { IsNoted patch.old patch.new left.old left.new }
{
    let end = count(left);
    clear_items(left, at, end, patch);
    set_count(left, at, patch);
}

/// Takes one item out of the page.
pub fn remove_at(page: &mut [u8], i: u16, patch: &mut Patch)
    requires page { IsIndexPage page.old }
    requires item { i < length (items_of page.old) }
    requires size { patch.old.page_size ≡ length page.old }
    ensures page { IsIndexPage page.new }
    ensures says { index_of page.new
        ≡ with_items (index_of page.old) (without_item (items_of page.old) i) }
    ensures noted { IsNoted patch.old patch.new page.old page.new }
{
    let last = count(page) - 1;
    lower_items(page, i, last, patch);
    clear_items(page, last, last + 1, patch);
    set_count(page, last, patch);
}
