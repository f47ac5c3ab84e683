//! The slots of a data page.

ghost use Rattle.std.specs.Prelude.{◌≡◌, ◌+◌, ◌*◌, ◌<◌, ◌≤◌, length};
ghost use Rattle.pm_types.specs.Spans.{IsInSpan, span_of};
ghost use Rattle.pm_types.specs.Pages.{SameOutside};
ghost use Rattle.pm_data.specs.DataPages.{is_empty, slot_at};
ghost use Rattle.pm_types.specs.Fields.{Writes};

use crate::layout::{SLOT_LEN, SLOTS_AT, SLOTS_MAX};
use pm_types::Patch;
use pm_types::fields::{get_u16, put_u16};

/// Where a row stands: `len` bytes from `start` on. Both are 0 where there is no row.
#[derive(Clone, Copy, Debug, PartialEq, Eq, PartialOrd, Ord)]
pub struct Slot {
    pub start: u16,
    pub len: u16,
}

impl Slot {
    /// The slot of an item without a row.
    pub const EMPTY: Slot = Slot { start: 0, len: 0 };

    /// Whether there is no row.
    pub fn is_empty(self) -> bool
        ensures { result ≡ is_empty self }
    {
        self.start == 0 && self.len == 0
    }
}

/// The slot of an item.
pub fn get_slot(page: &[u8], item: u16) -> Slot
    requires item { item < SLOTS_MAX }
    requires within { SLOTS_AT + SLOT_LEN * item + SLOT_LEN ≤ length page.now }
    ensures { result ≡ slot_at page.now item }
{
    let at = SLOTS_AT + SLOT_LEN * item;
    Slot {
        start: get_u16(page, at),
        len: get_u16(page, at + 2),
    }
}

/// Writes the slot of an item. No patch notes it.
pub fn put_slot(page: &mut [u8], item: u16, slot: Slot)
    requires item { item < SLOTS_MAX }
    requires within { SLOTS_AT + SLOT_LEN * item + SLOT_LEN ≤ length page.old }
    ensures slot { slot_at page.new item ≡ slot }
    ensures outside { SameOutside (IsInSpan (span_of (SLOTS_AT + SLOT_LEN * item) SLOT_LEN)) page.old page.new }
{
    let at = SLOTS_AT + SLOT_LEN * item;
    put_u16(page, at, slot.start);
    put_u16(page, at + 2, slot.len);
}

/// Writes the slot of an item, which the patch notes.
pub fn set_slot(page: &mut [u8], item: u16, slot: Slot, patch: &mut Patch)
    requires item { item < SLOTS_MAX }
    requires within { SLOTS_AT + SLOT_LEN * item + SLOT_LEN ≤ length page.old }
    requires size { patch.old.page_size ≡ length page.old }
    ensures slot { slot_at page.new item ≡ slot }
    ensures writes { Writes (span_of (SLOTS_AT + SLOT_LEN * item) SLOT_LEN)
        page.old page.new patch.old patch.new }
{
    put_slot(page, item, slot);
    patch.add(SLOTS_AT + SLOT_LEN * item, SLOT_LEN);
}
