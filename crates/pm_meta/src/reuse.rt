//! Reuse pages.

ghost use Rattle.std.specs.Prelude.{◌≡◌, ◌↔◌, IsTrue, length};
ghost use Rattle.pm_types.specs.PageSizes.{IsPageSize};
ghost use Rattle.pm_meta.specs.MetaPages.{next_of, IsReusePage, IsStoredReuse};

use crate::layout::{NEXT_AT, REUSE_END, REUSE_KIND};
use pm_types::PageId;
use pm_types::fields::{are_zero, get_u32, get_u64, put_u32};
use pm_types::head::{KIND_AT, put_head};

/// Makes a reuse page of this name, with the index of the next one in the chain, 0 where there is none.
///
/// The bytes are those of a new page, which is written as a whole: there is no patch.
pub fn fresh_reuse(page: &mut [u8], id: PageId, next: u32)
    requires { IsPageSize (length page.old) }
    ensures stored { IsStoredReuse id page.new }
    ensures next { next_of page.new ≡ next }
{
    put_head(page, id, REUSE_KIND);
    put_u32(page, NEXT_AT, next);
}

/// The index of the next page in the reuse chain, 0 where there is none.
pub fn reuse_next(page: &[u8]) -> u32
    requires { IsReusePage page.now }
    ensures { result ≡ next_of page.now }
{
    get_u32(page, NEXT_AT)
}

/// Whether these bytes are a reuse page of this name.
pub fn check_reuse(page: &[u8], id: PageId) -> bool
    requires { IsPageSize (length page.now) }
    ensures { IsTrue result ↔ IsStoredReuse id page.now }
{
    page[KIND_AT as usize] == REUSE_KIND
        && get_u64(page, 0) == id.0
        && are_zero(page, 9, NEXT_AT)
        && are_zero(page, REUSE_END, page.len() as u16)
}
