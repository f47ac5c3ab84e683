//! Whether the pages of a partition pass their checks.

ghost use Rattle.std.specs.Prelude.{◌≡◌, ◌↔◌, IsTrue, IfSome, IsSomeAnd};
ghost use Rattle.pm_types.specs.PageSizes.{IsPageSize};
ghost use Rattle.pm_types.specs.Ids.{page_id};
ghost use Rattle.pm_pages.specs.PageLists.{pages_in, AreReadable};
ghost use Rattle.pm_pages.specs.Passes.{Passes, PassesAsMeta};
ghost use Rattle.pm_pages.specs.WellFormed.{AllPass};

use crate::checks::{check, check_meta};
use crate::well_formed::listed::page_count;
use pm_types::{Page, PageId, Shape};

/// Whether the first page, if it is there, is a meta page that passes its check, and each page
/// below the page count is there and passes its own.
pub fn all_pass(shape: &Shape, part: u16, pages: &[Page]) -> bool
    requires { IsPageSize shape.now.page_size }
    ensures pass { IsTrue result ↔ AllPass shape.now part (pages_in pages.now) }
    ensures readable { IsTrue result → AreReadable (pages_in pages.now) }
{
    if !first_passes(shape, part, pages) {
        return false;
    }
    'pages: for i in 0..page_count(pages) {
        if !passes(shape, part, pages, i) {
            return false;
        }
    }
    true
}

// Whether the first page, if it is there, is a meta page that passes its check.
fn first_passes(shape: &Shape, part: u16, pages: &[Page]) -> bool
    requires { IsPageSize shape.now.page_size }
    ensures { IsTrue result ↔ IfSome (pages_in pages.now 0)
        (PassesAsMeta shape.now.page_size shape.now.max_rows (page_id part 0)) }
{
    match pages.first() {
        Some(page) => check_meta(page.bytes.as_slice(), PageId::new(part, 0), shape),
        None => true,
    }
}

// Whether a page is there and passes its check.
fn passes(shape: &Shape, part: u16, pages: &[Page], i: u32) -> bool
    requires { IsPageSize shape.now.page_size }
    ensures { IsTrue result ↔ IsSomeAnd (pages_in pages.now i)
        (Passes shape.now.page_size shape.now.max_rows (page_id part i)) }
{
    match pages.get(i as usize) {
        Some(page) => check(page.bytes.as_slice(), PageId::new(part, i), shape),
        None => false,
    }
}
