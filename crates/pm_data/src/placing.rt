//! Rows put into a data page.

ghost use Rattle.std.specs.Prelude.{◌≡◌, ◌+◌, ◌*◌, ◌<◌, ◌≤◌, length, max};
ghost use Rattle.pm_types.specs.Spans.{span_of};
ghost use Rattle.pm_types.specs.Pages.{IsNoted};
ghost use Rattle.pm_types.specs.Fields.{Writes};
ghost use Rattle.pm_data.specs.Rows.{IsRow};
ghost use Rattle.pm_data.specs.DataPages.{count_of, low_of, rows_of, free_item, HasRoomFor, IsDataPage};
ghost use Rattle.pm_data.specs.DataPages.{AddsRow};

use crate::items::free_item;
use crate::layout::{COUNT_AT, LOW_AT, SLOT_LEN, SLOTS_AT, SLOTS_MAX};
use crate::slots::{Slot, set_slot};
use pm_types::Patch;
use pm_types::fields::{get_u16, set_bytes, set_u16};

/// Puts a row into the page, and gives its item: the lowest without a row, or a new one.
pub fn insert(page: &mut [u8], row: &[u8], patch: &mut Patch) -> u8
    requires page { IsDataPage page.old }
    requires size { patch.old.page_size ≡ length page.old }
    requires row { IsRow row.now }
    requires fits { HasRoomFor page.old (length row.now) }
    ensures item { result ≡ free_item (rows_of page.old) }
    ensures few { result < SLOTS_MAX }
    ensures adds { AddsRow page.old page.new result row.now }
    ensures noted { IsNoted patch.old patch.new page.old page.new }
{
    let item = free_item(page);
    let start = get_u16(page, LOW_AT) - row.len() as u16;
    put_row(page, item, start, row, patch);
    item as u8
}

// Puts a row below the others, as the item that is free.
fn put_row(page: &mut [u8], item: u16, start: u16, row: &[u8], patch: &mut Patch)
    requires page { IsDataPage page.old }
    requires size { patch.old.page_size ≡ length page.old }
    requires row { IsRow row.now }
    requires free { item ≡ free_item (rows_of page.old) }
    requires few { item < SLOTS_MAX }
    requires below { start + length row.now ≡ low_of page.old }
    requires room { SLOTS_AT + SLOT_LEN * count_of page.old + SLOT_LEN ≤ start }
    requires slot { SLOTS_AT + SLOT_LEN * item + SLOT_LEN ≤ start }
    ensures adds { AddsRow page.old page.new item row.now }
    ensures noted { IsNoted patch.old patch.new page.old page.new }
{
    let len = row.len() as u16;
    set_bytes(page, start, row, patch);
    set_slot(page, item, Slot { start, len }, patch);
    set_u16(page, LOW_AT, start, patch);
    raise_count(page, item + 1, patch);
}

// Makes the number of slots at least this one.
fn raise_count(page: &mut [u8], count: u16, patch: &mut Patch)
    requires long { SLOTS_AT ≤ length page.old }
    requires size { patch.old.page_size ≡ length page.old }
    ensures count { count_of page.new ≡ max (count_of page.old) count }
    ensures writes { Writes (span_of COUNT_AT 2) page.old page.new patch.old patch.new }
{
    if get_u16(page, COUNT_AT) < count {
        set_u16(page, COUNT_AT, count, patch);
    }
}
