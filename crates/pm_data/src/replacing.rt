//! Rows written over others.

ghost use Rattle.std.specs.Prelude.{◌≡◌, IsSomeAnd, length};
ghost use Rattle.pm_types.specs.Pages.{IsNoted};
ghost use Rattle.pm_data.specs.Rows.{IsRow};
ghost use Rattle.pm_data.specs.DataPages.{rows_of, row_at, room_of, IsDataPage, AddsRow};

use crate::slots::get_slot;
use pm_types::Patch;
use pm_types::fields::set_bytes;

/// Writes a row over that of an item, which has as many bytes. All other rows stay as they are, and so does the
/// room.
pub fn replace(page: &mut [u8], item: u8, row: &[u8], patch: &mut Patch)
    requires page { IsDataPage page.old }
    requires size { patch.old.page_size ≡ length page.old }
    requires row { IsRow row.now }
    requires alike { IsSomeAnd (row_at (rows_of page.old) item) (λ was. length was ≡ length row.now) }
    ensures replaces { AddsRow page.old page.new item row.now }
    ensures room { room_of page.new ≡ room_of page.old }
    ensures noted { IsNoted patch.old patch.new page.old page.new }
{
    let slot = get_slot(page, u16::from(item));
    set_bytes(page, slot.start, row, patch);
}
