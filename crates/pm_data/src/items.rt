//! What a data page says of its items, and how much room it has.

ghost use Rattle.std.specs.Prelude.{◌≡◌, ℕ, ◌+◌, ◌≤◌, ◌↔◌, Some, None, IsTrue, MatchOption, IfSome};
ghost use Rattle.std.specs.Prelude.{nat_lt, length, []};
ghost use Rattle.pm_data.specs.Rows.{IsRow};
ghost use Rattle.pm_data.specs.DataPages.{rows_of, row_at, free_item, room_of, room_beside, HasRoomFor};
ghost use Rattle.pm_data.specs.DataPages.{IsDataPage};

use crate::layout::{COUNT_AT, LOW_AT, SLOT_LEN, SLOTS_AT, SLOTS_MAX};
use crate::slots::get_slot;
use pm_types::fields::get_u16;

/// The row of an item, if there is one.
pub fn row(page: &[u8], item: u8) -> Option<&[u8]>
    requires { IsDataPage page.now }
    ensures says { MatchOption result (row_at (rows_of page.now) item ≡ None)
        (λ row. row_at (rows_of page.now) item ≡ Some row.now) }
    ensures is_row { IfSome result (λ row. IsRow row.now) }
{
    let item = u16::from(item);
    if item >= get_u16(page, COUNT_AT) {
        return None;
    }
    let slot = get_slot(page, item);
    if slot.is_empty() {
        return None;
    }
    let from = slot.start as usize;
    Some(&page[from..from + slot.len as usize])
}

/// The lowest item without a row, or the one after the last.
pub(crate) fn free_item(page: &[u8]) -> u16
    requires { IsDataPage page.now }
    ensures { result ≡ free_item (rows_of page.now) }
{
    let count = get_u16(page, COUNT_AT);
    'items: for item in 0..count {
        if get_slot(page, item).is_empty() {
            return item;
        }
    }
    count
}

// Whether there is an item for another row.
fn has_item(page: &[u8]) -> bool
    requires { IsDataPage page.now }
    ensures { result ≡ nat_lt (free_item (rows_of page.now)) SLOTS_MAX }
{
    get_u16(page, COUNT_AT) < SLOTS_MAX || free_item(page) < SLOTS_MAX
}

/// The room for another row with its slot, in bytes: what is left of the page beside its rows and their slots.
pub fn room(page: &[u8]) -> u16
    requires { IsDataPage page.now }
    ensures room { result ≡ room_of page.now }
    ensures beside { result ≡ room_beside (length page.now) (rows_of page.now) }
{
    if !has_item(page) {
        return 0;
    }
    get_u16(page, LOW_AT) - SLOTS_AT - SLOT_LEN * get_u16(page, COUNT_AT)
}

/// Whether the page has no rows.
pub fn is_empty(page: &[u8]) -> bool
    requires { IsDataPage page.now }
    ensures { IsTrue result ↔ (rows_of page.now ≡ []) }
{
    get_u16(page, COUNT_AT) == 0
}

/// Whether a row of this length fits, in bytes.
pub fn fits(page: &[u8], len: usize) -> bool
    requires { IsDataPage page.now }
    ensures { IsTrue result ↔ HasRoomFor page.now len }
{
    let room = room(page) as usize;
    room >= SLOT_LEN as usize && len <= room - SLOT_LEN as usize
}
