//! The pages of a partition in a list, read by index.

ghost use Rattle.std.specs.Prelude.{◌≡◌, ◌<◌, ◌↔◌, IfSome, IsTrue};
ghost use Rattle.pm_meta.specs.MetaPages.{IsSlot, IsMetaPage};
ghost use Rattle.pm_pages.specs.PageLists.{pages_in, MayRead, IsReadable, AreReadable};
ghost use Rattle.pm_pages.specs.Rows.{page_at, number_in, page_count, kind_of};

use pm_meta::MetaSlot;
use pm_types::Page;
use pm_types::head::KIND_AT;

/// A number of the partition's meta page, 0 without a meta page.
pub fn number(pages: &[Page], slot: MetaSlot) -> u32
    requires meta { IfSome (pages_in pages.now 0) IsMetaPage }
    requires slot { IsSlot slot }
    ensures { result ≡ number_in (pages_in pages.now) slot }
{
    match pages.first() {
        Some(meta) => pm_meta::get(meta.bytes.as_slice(), slot),
        None => 0,
    }
}

/// How many pages the partition has: as its meta page says, and none without a meta page.
pub fn page_count(pages: &[Page]) -> u32
    requires { IfSome (pages_in pages.now 0) IsMetaPage }
    ensures { result ≡ page_count (pages_in pages.now) }
{
    number(pages, MetaSlot::Pages)
}

/// The bytes of a page, none where the partition has no such page.
pub fn page(pages: &[Page], i: u32) -> &[u8]
    requires { AreReadable (pages_in pages.now) }
    ensures bytes { result.now ≡ page_at (pages_in pages.now) i }
    ensures readable { i < page_count (pages_in pages.now) → IsReadable result.now }
    ensures may_read { MayRead result.now }
{
    if i >= page_count(pages) {
        return &[];
    }
    pages[i as usize].bytes.as_slice()
}

/// Whether a page says that it is of this kind.
pub fn is_of(page: &[u8], kind: u8) -> bool
    requires { 0 < kind }
    ensures { IsTrue result ↔ (kind_of page.now ≡ kind) }
{
    page.len() > KIND_AT as usize && page[KIND_AT as usize] == kind
}
