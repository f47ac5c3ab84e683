//! Items of one index page put after those of another.

ghost use Rattle.std.specs.Prelude.{◌≡◌, ℕ, ◌+◌, ◌-◌, ◌<◌, ◌≤◌, ◌++◌, [], length, drop};
ghost use Rattle.pm_types.specs.Pages.{IsNoted};
ghost use Rattle.pm_btpage.specs.IndexPages.{index_of, items_of, with_items, capacity_of, AllBelow};
ghost use Rattle.pm_btpage.specs.IndexPages.{IsIndexPage};

use crate::head::{count, set_count};
use crate::removal::cut;
use crate::spans::copy_items;
use pm_types::Patch;

/// Writes the items of `left` from one on into `right`, a page of the same kind without items. In
/// `left` they stay.
pub fn tail(left: &[u8], right: &mut [u8], at: u16, patch: &mut Patch)
    requires left { IsIndexPage left.now }
    requires right { IsIndexPage right.old }
    requires kind { (index_of right.old).leaf ≡ (index_of left.now).leaf }
    requires sizes { length left.now ≡ length right.old }
    requires none { items_of right.old ≡ [] }
    requires item { at ≤ length (items_of left.now) }
    requires size { patch.old.page_size ≡ length right.old }
    ensures page { IsIndexPage right.new }
    ensures says { index_of right.new
        ≡ with_items (index_of right.old) (drop at (items_of left.now)) }
    ensures noted { IsNoted patch.old patch.new right.old right.new }
{
    append(right, left, at, patch);
}

/// Puts the items of `right`, whose keys are above those of `left`, after the items of `left`.
pub fn merge(left: &mut [u8], right: &[u8], patch: &mut Patch)
    requires left { IsIndexPage left.old }
    requires right { IsIndexPage right.now }
    requires kind { (index_of left.old).leaf ≡ (index_of right.now).leaf }
    requires sizes { length right.now ≡ length left.old }
    requires room { length (items_of left.old) + length (items_of right.now)
        ≤ capacity_of (length left.old) }
    requires order { AllBelow (items_of left.old) (items_of right.now) }
    requires size { patch.old.page_size ≡ length left.old }
    ensures page { IsIndexPage left.new }
    ensures says { index_of left.new
        ≡ with_items (index_of left.old) (items_of left.old ++ items_of right.now) }
    ensures noted { IsNoted patch.old patch.new left.old left.new }
{
    append(left, right, 0, patch);
}

/// What `tail` and `cut` divide, `merge` joins again: `left` says what it said, and `right` has the
/// items from `at` on.
///
/// It is a law, and a test runs it; a caller needs the three calls alone.
pub fn parts_join(
    left: &mut [u8],
    right: &mut [u8],
    at: u16,
    left_patch: &mut Patch,
    right_patch: &mut Patch,
)
    requires left { IsIndexPage left.old }
    requires right { IsIndexPage right.old }
    requires kind { (index_of right.old).leaf ≡ (index_of left.old).leaf }
    requires sizes { length left.old ≡ length right.old }
    requires none { items_of right.old ≡ [] }
    requires item { at ≤ length (items_of left.old) }
    requires left_size { left_patch.old.page_size ≡ length left.old }
    requires right_size { right_patch.old.page_size ≡ length right.old }
    ensures left { IsIndexPage left.new }
    ensures joined { index_of left.new ≡ index_of left.old }
    ensures right { IsIndexPage right.new }
    ensures divided { items_of right.new ≡ drop at (items_of left.old) }
{
    tail(left, right, at, right_patch);
    cut(left, at, left_patch);
    merge(left, right, left_patch);
}

// Puts the items of `from` from one on after those of `into`.
fn append(into: &mut [u8], from: &[u8], at: u16, patch: &mut Patch)
    requires into { IsIndexPage into.old }
    requires from { IsIndexPage from.now }
    requires sizes { length from.now ≡ length into.old }
    requires item { at ≤ length (items_of from.now) }
    requires room { length (items_of into.old) + (length (items_of from.now) - at)
        ≤ capacity_of (length into.old) }
    requires order { AllBelow (items_of into.old) (drop at (items_of from.now)) }
    requires size { patch.old.page_size ≡ length into.old }
    ensures page { IsIndexPage into.new }
    ensures says { index_of into.new ≡ with_items (index_of into.old)
        (items_of into.old ++ drop at (items_of from.now)) }
    ensures noted { IsNoted patch.old patch.new into.old into.new }
{
    let here = count(into);
    let there = count(from);
    copy_items(into, here, from, at, there, patch);
    set_count(into, here + (there - at), patch);
}
