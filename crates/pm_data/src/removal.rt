//! Rows taken out of a data page.

ghost use Rattle.std.specs.Prelude.{◌≡◌, ℕ, ◌+◌, ◌*◌, ◌<◌, ◌≤◌, IsSome, length};
ghost use Rattle.pm_types.specs.Spans.{IsInSpan, span_of};
ghost use Rattle.pm_types.specs.Pages.{SameOutside, IsNoted};
ghost use Rattle.pm_types.specs.Fields.{Writes};
ghost use Rattle.pm_data.specs.DataPages.{count_of, slot_at, rows_of, row_at, HoldsRow, IsDataPage, DropsRow};
ghost use Rattle.pm_data.specs.Removal.{lifted, LeavesSlots, EndsAtLast};

use crate::layout::{COUNT_AT, LOW_AT, SLOT_LEN, SLOTS_AT, SLOTS_MAX};
use crate::slots::{Slot, get_slot, put_slot};
use pm_types::fields::{get_u16, move_up, set_u16};
use pm_types::{PAGE_SIZE_MAX, Patch};

/// Takes the row of an item out of the page. All other rows keep their items; those below it move up.
pub fn remove(page: &mut [u8], item: u8, patch: &mut Patch)
    requires page { IsDataPage page.old }
    requires size { patch.old.page_size ≡ length page.old }
    requires live { IsSome (row_at (rows_of page.old) item) }
    ensures drops { DropsRow page.old page.new item }
    ensures noted { IsNoted patch.old patch.new page.old page.new }
{
    take_out(page, u16::from(item), patch);
}

// Takes the row of an item out of the page.
fn take_out(page: &mut [u8], item: u16, patch: &mut Patch)
    requires page { IsDataPage page.old }
    requires short { length page.old ≤ PAGE_SIZE_MAX }
    requires size { patch.old.page_size ≡ length page.old }
    requires item { item < count_of page.old }
    requires row { HoldsRow page.old (slot_at page.old item) }
    ensures drops { DropsRow page.old page.new item }
    ensures noted { IsNoted patch.old patch.new page.old page.new }
{
    let gone = get_slot(page, item);
    let low = get_u16(page, LOW_AT);
    let count = get_u16(page, COUNT_AT);
    move_up(page, low, gone.start - low, gone.len, patch);
    lift_slots(page, count, item);
    patch.add(SLOTS_AT, SLOT_LEN * count);
    set_u16(page, LOW_AT, low + gone.len, patch);
    drop_empty_end(page, patch);
}

// Empties the slot of an item. Rows below that row have moved up, and their slots follow.
fn lift_slots(page: &mut [u8], count: u16, item: u16)
    requires count { count ≤ SLOTS_MAX }
    requires item { item < count }
    requires within { SLOTS_AT + SLOT_LEN * count ≤ length page.old }
    requires fits { (j : ℕ) → j < count → (slot_at page.old j).start + (slot_at page.old item).len < 65536 }
    ensures slots { LeavesSlots count item page.old page.new }
    ensures outside { SameOutside (IsInSpan (span_of SLOTS_AT (SLOT_LEN * count))) page.old page.new }
{
    let gone = get_slot(page, item);
    put_slot(page, item, Slot::EMPTY);
    'slots: for at in 0..count {
        lift(page, at, gone);
    }
}

// Lets a slot follow its row, if that stood below the row that is gone.
fn lift(page: &mut [u8], at: u16, gone: Slot)
    requires item { at < SLOTS_MAX }
    requires within { SLOTS_AT + SLOT_LEN * at + SLOT_LEN ≤ length page.old }
    requires fits { (slot_at page.old at).start + gone.len < 65536 }
    ensures slot { slot_at page.new at ≡ lifted gone (slot_at page.old at) }
    ensures outside { SameOutside (IsInSpan (span_of (SLOTS_AT + SLOT_LEN * at) SLOT_LEN)) page.old page.new }
{
    let below = get_slot(page, at);
    if below.is_empty() || gone.start <= below.start {
        return;
    }
    let start = below.start + gone.len;
    let len = below.len;
    put_slot(page, at, Slot { start, len });
}

// Drops the empty slots after the last that has a row.
fn drop_empty_end(page: &mut [u8], patch: &mut Patch)
    requires count { count_of page.old ≤ SLOTS_MAX }
    requires within { SLOTS_AT + SLOT_LEN * count_of page.old ≤ length page.old }
    requires size { patch.old.page_size ≡ length page.old }
    ensures end { EndsAtLast page.old (count_of page.new) }
    ensures writes { Writes (span_of COUNT_AT 2) page.old page.new patch.old patch.new }
{
    let count = get_u16(page, COUNT_AT);
    let kept = kept_slots(page, count);
    if kept < count {
        set_u16(page, COUNT_AT, kept, patch);
    }
}

// How many slots there are up to the last that has a row.
fn kept_slots(page: &[u8], count: u16) -> u16
    requires count { count ≤ SLOTS_MAX }
    requires is { count ≡ count_of page.now }
    requires within { SLOTS_AT + SLOT_LEN * count ≤ length page.now }
    ensures { EndsAtLast page.now result }
{
    let mut kept = count;
    'end: while kept > 0 && get_slot(page, kept - 1).is_empty() {
        kept -= 1;
    }
    kept
}
