//! The bytes of several items: moved, cleared, and copied from another page. The patch notes each.

ghost use Rattle.std.specs.Prelude.{◌≡◌, ℕ, ◌+◌, ◌-◌, ◌*◌, ◌≤◌, length, replicate};
ghost use Rattle.pm_types.specs.Spans.{span_of};
ghost use Rattle.pm_types.specs.Fields.{bytes_at, Writes};
ghost use Rattle.pm_btpage.specs.IndexPages.{offset_of};

use crate::items::offset;
use crate::layout::ITEM_LEN;
use pm_types::fields::{move_up, set_bytes, set_zeros};
use pm_types::{PAGE_SIZE_MAX, Patch};

/// Copies the items from i up to `end` to where they stand one item further on.
pub fn raise_items(page: &mut [u8], i: u16, end: u16, patch: &mut Patch)
    requires order { i ≤ end }
    requires within { offset_of end + ITEM_LEN ≤ length page.old }
    requires long { length page.old ≤ PAGE_SIZE_MAX }
    requires size { patch.old.page_size ≡ length page.old }
    ensures moved { bytes_at page.new (offset_of i + ITEM_LEN) (ITEM_LEN * (end - i))
        ≡ bytes_at page.old (offset_of i) (ITEM_LEN * (end - i)) }
    ensures writes { Writes (span_of (offset_of i + ITEM_LEN) (ITEM_LEN * (end - i)))
        page.old page.new patch.old patch.new }
{
    move_up(page, offset(i), ITEM_LEN * (end - i), ITEM_LEN, patch);
}

/// Copies the items after i, up to `last`, to where they stand one item further down.
pub fn lower_items(page: &mut [u8], i: u16, last: u16, patch: &mut Patch)
    requires order { i ≤ last }
    requires within { offset_of last + ITEM_LEN ≤ length page.old }
    requires long { length page.old ≤ PAGE_SIZE_MAX }
    requires size { patch.old.page_size ≡ length page.old }
    ensures moved { bytes_at page.new (offset_of i) (ITEM_LEN * (last - i))
        ≡ bytes_at page.old (offset_of i + ITEM_LEN) (ITEM_LEN * (last - i)) }
    ensures writes { Writes (span_of (offset_of i) (ITEM_LEN * (last - i)))
        page.old page.new patch.old patch.new }
{
    move_down(page, offset(i), ITEM_LEN * (last - i), patch);
}

// Copies `len` bytes to `at` from where they stand one item further on.
fn move_down(page: &mut [u8], at: u16, len: u16, patch: &mut Patch)
    requires within { at + ITEM_LEN + len ≤ length page.old }
    requires size { patch.old.page_size ≡ length page.old }
    ensures moved { bytes_at page.new at len ≡ bytes_at page.old (at + ITEM_LEN) len }
    ensures writes { Writes (span_of at len) page.old page.new patch.old patch.new }
{
    let from = at as usize + ITEM_LEN as usize;
    page.copy_within(from..from + len as usize, at as usize);
    patch.add(at, len);
}

/// Writes zeros over the items from one up to another.
pub fn clear_items(page: &mut [u8], from: u16, end: u16, patch: &mut Patch)
    requires order { from ≤ end }
    requires within { offset_of end ≤ length page.old }
    requires long { length page.old ≤ PAGE_SIZE_MAX }
    requires size { patch.old.page_size ≡ length page.old }
    ensures zeros { bytes_at page.new (offset_of from) (ITEM_LEN * (end - from))
        ≡ replicate (ITEM_LEN * (end - from)) 0 }
    ensures writes { Writes (span_of (offset_of from) (ITEM_LEN * (end - from)))
        page.old page.new patch.old patch.new }
{
    set_zeros(page, offset(from), ITEM_LEN * (end - from), patch);
}

/// Copies the items of another page from one up to another over those from place `here` on.
pub fn copy_items(into: &mut [u8], here: u16, from: &[u8], at: u16, end: u16, patch: &mut Patch)
    requires order { at ≤ end }
    requires there { offset_of end ≤ length from.now }
    requires within { offset_of here + ITEM_LEN * (end - at) ≤ length into.old }
    requires sizes { length from.now ≡ length into.old }
    requires long { length into.old ≤ PAGE_SIZE_MAX }
    requires size { patch.old.page_size ≡ length into.old }
    ensures copied { bytes_at into.new (offset_of here) (ITEM_LEN * (end - at))
        ≡ bytes_at from.now (offset_of at) (ITEM_LEN * (end - at)) }
    ensures writes { Writes (span_of (offset_of here) (ITEM_LEN * (end - at)))
        into.old into.new patch.old patch.new }
{
    let first = offset(at) as usize;
    let items = &from[first..first + ITEM_LEN as usize * (end - at) as usize];
    set_bytes(into, offset(here), items, patch);
}
