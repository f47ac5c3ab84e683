//! Partitions with a meta page alone, and whether their pages are a tree.

ghost use Rattle.std.specs.Prelude.{◌≡◌, IfOk, length};
ghost use Rattle.pm_types.specs.PageSizes.{IsPageSize};
ghost use Rattle.pm_pages.specs.Paged.{AllReadable};
ghost use Rattle.pm_pages.specs.Plain.{plain_seen, ArePlain};
ghost use Rattle.pm_pages.specs.PageLists.{pages_in, AreReadable};
ghost use Rattle.pm_pages.specs.PlainRooms.{IsOfSize};
ghost use Rattle.pm_meta.specs.MetaPages.{IsMetaPage};

use crate::trees::calls::root_of;
use crate::turned::{copied, copy_of};
use pm_meta::fresh;
use pm_pages::{PlainPages, all_pass, has_reuse_chain, is_tree, reuse_chain};
use pm_types::{PAGE_SIZE_MAX, Page, PageId, Shape};
use std::alloc::{AllocError, Global};
use std::process::Abort;

/// The shape of a store whose pages have 1,024 bytes: a page of a tree has room for 13 items.
pub const SHAPE: Shape = Shape {
    page_size: 1024,
    partitions: 4,
    version: 1,
    max_rows: 10_000,
    segment_bytes: 65_536,
};

/// The same with pages of each size.
pub fn shape_of(size: u8) -> Shape
    ensures { IsPageSize result.page_size }
{
    let page_size = match size {
        0 => 1024,
        1 => 2048,
        2 => 4096,
        3 => 8192,
        _ => 16384,
    };
    Shape { page_size, ..SHAPE }
}

// A partition with a meta page alone.
fn made_partition(alloc: Global, shape: &Shape) -> Result<PlainPages, AllocError>
    requires { IsPageSize shape.now.page_size }
    ensures plain { IfOk result ArePlain }
    ensures readable { IfOk result (λ pages. AllReadable (plain_seen pages)) }
{
    let page = meta_page(alloc, shape)?;
    let mut pages = Vec::new(alloc);
    pages.push(page)?;
    PlainPages::of(alloc, shape, 2, pages)
}

fn meta_page(alloc: Global, shape: &Shape) -> Result<Page, AllocError>
    requires { IsPageSize shape.now.page_size }
    ensures size { IfOk result (IsOfSize shape.now.page_size) }
    ensures meta { IfOk result (λ page. IsMetaPage page.bytes.items) }
{
    let mut bytes = [0; PAGE_SIZE_MAX];
    made_meta(alloc, &mut bytes[..shape.page_size as usize])
}

fn made_meta(alloc: Global, bytes: &mut [u8]) -> Result<Page, AllocError>
    requires { IsPageSize (length bytes.old) }
    ensures size { IfOk result (IsOfSize (length bytes.old)) }
    ensures meta { IfOk result (λ page. IsMetaPage page.bytes.items) }
{
    fresh(bytes, PageId::new(2, 0));
    copy_of(alloc, bytes)
}

/// A partition with a meta page alone.
pub fn partition(rt: &(impl Abort + AllocGlobal), shape: &Shape) -> PlainPages
    requires { IsPageSize shape.now.page_size }
    ensures plain { ArePlain result }
    ensures readable { AllReadable (plain_seen result) }
{
    made_partition(rt.alloc(), shape).expect(rt, "a partition")
}

/// Looks that all pages pass their checks, and are a tree of cache 3, or the cache has none.
pub fn look_at_tree(rt: &(impl Abort + AllocGlobal), shape: &Shape, pages: &mut PlainPages)
    requires size { IsPageSize shape.now.page_size }
    requires plain { ArePlain pages.old }
    requires readable { AllReadable (plain_seen pages.old) }
    ensures plain { ArePlain pages.new }
    ensures readable { AllReadable (plain_seen pages.new) }
{
    let root = root_of(rt, pages);
    let all = copied(rt, pages);
    let are_a_tree = all_pass(shape, 2, &all) && (root == 0 || has_tree(&all, root));
    assert!(rt; are_a_tree, "root {root}");
}

fn has_tree(pages: &[Page], root: u32) -> bool
    requires { AreReadable (pages_in pages.now) }
{
    for levels in 0..8 {
        if is_tree(pages, levels, 1, root) {
            return true;
        }
    }
    false
}

/// Looks that cache 3 has no root, and each page but the meta page is on the reuse chain: the chain has as many
/// pages as there are, and since it ends before the walk over it does, none of them twice.
pub fn look_at_reuse(rt: &(impl Abort + AllocGlobal), shape: &Shape, pages: &mut PlainPages)
    requires size { IsPageSize shape.now.page_size }
    requires plain { ArePlain pages.old }
    requires readable { AllReadable (plain_seen pages.old) }
    ensures plain { ArePlain pages.new }
    ensures readable { AllReadable (plain_seen pages.new) }
{
    let root = root_of(rt, pages);
    let all = copied(rt, pages);
    assert!(rt;
        root == 0 && has_all_for_reuse(rt, shape, &all),
        "root {root}"
    );
}

fn has_all_for_reuse(rt: &(impl Abort + AllocGlobal), shape: &Shape, pages: &[Page]) -> bool
    requires { IsPageSize shape.now.page_size }
{
    if !all_pass(shape, 2, pages) {
        return false;
    }
    let chain = reuse_chain(rt.alloc(), pages).expect(rt, "a chain");
    has_reuse_chain(pages, &chain) && chain.len().saturating_add(1) == pages.len()
}

/// Looks at bytes of a page, each by its offset.
pub fn look_at_bytes(rt: &impl Abort, pages: &PlainPages, index: u32, wanted: &[(usize, u8)]) {
    let page = pages.page(index).expect(rt, "a page");
    assert_eq!(rt; page.len(), 1024, "page {index}");
    for (at, byte) in wanted {
        assert_eq!(rt; page.get(*at), Some(byte), "byte {at} of page {index}");
    }
}
