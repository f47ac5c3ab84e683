//! The check of a meta page that was read.

ghost use Rattle.std.specs.Prelude.{◌≡◌, ℕ, ◌+◌, ◌*◌, ◌<◌, ◌≤◌, ◌↔◌, IsTrue, length};
ghost use Rattle.pm_types.specs.PageSizes.{IsPageSize};
ghost use Rattle.pm_types.specs.Fields.{u32_at};
ghost use Rattle.pm_meta.specs.declared.slots.MetaSlot.TheVariants.{Pages};
ghost use Rattle.pm_meta.specs.MetaPages.{field_of, HasForm, HasCounts, AllBelow, IsStoredMeta};

use crate::layout::{EXTRA_PAGES, FIELDS_AT, FIELDS_END, INDEXES, META_KIND, PAGES_AT, ROWS_AT};
use pm_types::PageId;
use pm_types::fields::{are_zero, get_u32, get_u64};
use pm_types::head::KIND_AT;

/// Whether these bytes are a meta page of this name, of a store with so many rows at most.
pub fn check(page: &[u8], id: PageId, max_rows: u32) -> bool
    requires { IsPageSize (length page.now) }
    ensures { IsTrue result ↔ IsStoredMeta id max_rows page.now }
{
    has_form(page)
        && get_u64(page, 0) == id.0
        && has_counts(page, max_rows)
        && all_below(page, get_u32(page, PAGES_AT))
}

fn has_form(page: &[u8]) -> bool
    requires { IsPageSize (length page.now) }
    ensures { IsTrue result ↔ HasForm page.now }
{
    page[KIND_AT as usize] == META_KIND
        && are_zero(page, 9, FIELDS_AT)
        && are_zero(page, FIELDS_END, page.len() as u16)
}

fn has_counts(page: &[u8], max_rows: u32) -> bool
    requires { FIELDS_END ≤ length page.now }
    ensures { IsTrue result ↔ HasCounts max_rows page.now }
{
    let pages = get_u32(page, PAGES_AT) as u64;
    1 <= pages && pages <= 2 * max_rows as u64 + EXTRA_PAGES && get_u32(page, ROWS_AT) <= max_rows
}

// Whether each root and each head is below a number.
fn all_below(page: &[u8], pages: u32) -> bool
    requires { FIELDS_END ≤ length page.now }
    ensures { IsTrue result ↔ AllBelow pages page.now }
{
    'each: for i in 0..INDEXES {
        if get_u32(page, FIELDS_AT + 4 * i) >= pages {
            return false;
        }
    }
    true
}
