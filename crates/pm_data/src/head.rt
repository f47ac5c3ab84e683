//! The head of a data page.

ghost use Rattle.std.specs.Prelude.{◌≡◌, length};
ghost use Rattle.pm_types.specs.PageSizes.{IsPageSize};
ghost use Rattle.pm_types.specs.Pages.{IsNoted};
ghost use Rattle.pm_data.specs.DataPages.{data_of, room_of, empty_page, with_links, IsDataPage};

use crate::layout::{DATA_KIND, LOW_AT, NEXT_AT, PREV_AT, SLOTS_AT};
use pm_types::fields::{get_u32, put_bytes, put_u16, put_u64, set_u32};
use pm_types::head::KIND_AT;
use pm_types::{PageId, Patch};

/// Makes a data page of this name without rows and neighbours.
///
/// The bytes are those of a new page, which is written as a whole: there is no patch.
pub fn fresh(page: &mut [u8], id: PageId)
    requires { IsPageSize (length page.old) }
    ensures page { IsDataPage page.new }
    ensures says { data_of page.new ≡ empty_page id }
{
    let size = page.len() as u16;
    put_bytes(page, 0, &[0; SLOTS_AT as usize]);
    put_u64(page, 0, id.0);
    put_bytes(page, KIND_AT, &[DATA_KIND]);
    put_u16(page, LOW_AT, size);
}

/// The indexes of the pages before and after this one in its chain; 0 where there is none.
pub fn links(page: &[u8]) -> (u32, u32)
    requires { IsDataPage page.now }
    ensures prev { result.0 ≡ (data_of page.now).prev }
    ensures next { result.1 ≡ (data_of page.now).next }
{
    (get_u32(page, PREV_AT), get_u32(page, NEXT_AT))
}

/// Sets the indexes of the pages before and after this one in its chain.
pub fn set_links(page: &mut [u8], prev: u32, next: u32, patch: &mut Patch)
    requires page { IsDataPage page.old }
    requires size { patch.old.page_size ≡ length page.old }
    ensures page { IsDataPage page.new }
    ensures says { data_of page.new ≡ with_links (data_of page.old) prev next }
    ensures room { room_of page.new ≡ room_of page.old }
    ensures noted { IsNoted patch.old patch.new page.old page.new }
{
    set_u32(page, PREV_AT, prev, patch);
    set_u32(page, NEXT_AT, next, patch);
}
