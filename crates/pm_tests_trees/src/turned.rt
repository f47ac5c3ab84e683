//! Copies of pages, with a byte that is turned.

ghost use Rattle.std.specs.Prelude.{◌≡◌, IfOk, IfSome};
ghost use Rattle.pm_types.specs.PageSizes.{IsPageSize};
ghost use Rattle.pm_pages.specs.Paged.{AllReadable};
ghost use Rattle.pm_pages.specs.Plain.{plain_seen, ArePlain};

use pm_pages::{PlainPages, all_pass, page_count};
use pm_types::{Page, Shape};
use std::alloc::{AllocError, Global};
use std::process::Abort;

/// The page of these bytes.
pub fn copy_of(alloc: Global, bytes: &[u8]) -> Result<Page, AllocError>
    ensures { IfOk result (λ page. page.bytes.items ≡ bytes.now) }
{
    let bytes = Vec::from_slice(alloc, bytes)?;
    Ok(Page { bytes })
}

/// The pages, each copied.
pub fn copied(rt: &(impl Abort + AllocGlobal), pages: &PlainPages) -> Vec<Page> {
    let mut all = Vec::new(rt.alloc());
    for i in 0..u32::try_from(pages.len()).unwrap_or(0) {
        if let Some(page) = pages.page(i) {
            let copy = copy_of(rt.alloc(), page).expect(rt, "a page");
            all.push(copy).expect(rt, "a page");
        }
    }
    all
}

/// A copy of pages, with bits of a byte of one of them turned.
pub fn turned(
    rt: &(impl Abort + AllocGlobal),
    pages: &[Page],
    index: usize,
    at: usize,
    bits: u8,
) -> Vec<Page> {
    let mut all = Vec::new(rt.alloc());
    for (i, page) in pages.iter().enumerate() {
        let mut copy = copy_of(rt.alloc(), page.bytes.as_slice()).expect(rt, "a page");
        if i == index {
            turn(copy.bytes.as_mut_slice(), at, bits);
        }
        all.push(copy).expect(rt, "a page");
    }
    all
}

fn turn(page: &mut [u8], at: usize, bits: u8) {
    if at < page.len() {
        page[at] ^= bits;
    }
}

/// These pages, if each of them passes its check.
pub fn opened(
    alloc: Global,
    shape: &Shape,
    part: u16,
    pages: Vec<Page>,
) -> Result<Option<PlainPages>, AllocError>
    requires { IsPageSize shape.now.page_size }
    ensures plain { IfOk result (λ found. IfSome found ArePlain) }
    ensures readable { IfOk result (λ found. IfSome found (λ made. AllReadable (plain_seen made))) }
{
    if !all_pass(shape, part, &pages) {
        return Ok(None);
    }
    if page_count(&pages) as usize != pages.len() {
        return Ok(None);
    }
    let made = PlainPages::of(alloc, shape, part, pages)?;
    Ok(Some(made))
}
