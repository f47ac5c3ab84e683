//! What every page begins with: its name and its kind.

ghost use Rattle.std.specs.Prelude.{length};
ghost use Rattle.pm_types.specs.PageSizes.{IsPageSize};
ghost use Rattle.pm_types.specs.Heads.{IsBlank};

use crate::fields::{put_bytes, put_u64, put_zeros};
use crate::page_id::PageId;

/// Where a page's kind stands, in bytes from the page's start. On the disk: do not change.
pub const KIND_AT: u16 = 8;

/// Writes zeros over a page, and then its name and its kind. No patch notes it.
pub fn put_head(page: &mut [u8], id: PageId, kind: u8)
    requires { IsPageSize (length page.old) }
    ensures { IsBlank id kind page.new }
{
    let size = page.len() as u16;
    put_zeros(page, 0, size);
    put_u64(page, 0, id.0);
    put_bytes(page, KIND_AT, &[kind]);
}
