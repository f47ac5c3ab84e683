//! The check of a page that was read.

ghost use Rattle.std.specs.Prelude.{◌≡◌, ◌⊎◌, ◌↔◌, IsTrue, length};
ghost use Rattle.pm_types.specs.PageSizes.{IsPageSize};
ghost use Rattle.pm_data.specs.DataPages.{IsStoredPage};
ghost use Rattle.pm_btpage.specs.Stored.{IsStoredIndex};
ghost use Rattle.pm_meta.specs.MetaPages.{IsStoredMeta, IsStoredReuse};
ghost use Rattle.pm_pages.specs.Passes.{Passes, PassesAsMeta, PassesAt};

use pm_types::{PageId, Shape};

/// Whether these bytes may stand as this page of a partition, in a store of this shape: page 0 is a
/// meta page, and every other page is of one of the kinds, under its own name.
pub fn check_at(page: &[u8], part: u16, index: u32, shape: &Shape) -> bool
    requires { IsPageSize shape.now.page_size }
    ensures { IsTrue result ↔ PassesAt shape.now.page_size shape.now.max_rows part index page.now }
{
    let id = PageId::new(part, index);
    if index == 0 {
        check_meta(page, id, shape)
    } else {
        check(page, id, shape)
    }
}

/// Whether these bytes are a page of this name, of a store of this shape: a meta page, a leaf or an
/// inner page with an item, a data page with a row, or a reuse page, each in its own form.
pub fn check(page: &[u8], id: PageId, shape: &Shape) -> bool
    requires { IsPageSize shape.now.page_size }
    ensures { IsTrue result ↔ Passes shape.now.page_size shape.now.max_rows id page.now }
{
    page.len() == shape.page_size as usize && is_page(page, id, shape.max_rows)
}

/// Whether these bytes are a meta page of this name, of a store of this shape.
pub fn check_meta(page: &[u8], id: PageId, shape: &Shape) -> bool
    requires { IsPageSize shape.now.page_size }
    ensures { IsTrue result
        ↔ PassesAsMeta shape.now.page_size shape.now.max_rows id page.now }
{
    page.len() == shape.page_size as usize && pm_meta::check(page, id, shape.max_rows)
}

// Whether these bytes are a page of one of the kinds.
fn is_page(page: &[u8], id: PageId, max_rows: u32) -> bool
    requires { IsPageSize (length page.now) }
    ensures { IsTrue result ↔ (IsStoredMeta id max_rows page.now ⊎ IsStoredIndex id page.now
        ⊎ IsStoredPage id page.now ⊎ IsStoredReuse id page.now) }
{
    pm_meta::check(page, id, max_rows)
        || pm_btpage::check(page, id)
        || pm_data::check(page, id)
        || pm_meta::check_reuse(page, id)
}
