//! The chains of a partition: whether each has exactly the pages that belong there.

ghost use Rattle.std.specs.Prelude.{◌≡◌, ℕ, ◌<◌, ◌↔◌, ◌&&◌, ◌==◌, false, IsTrue, IfOk, All, length};
ghost use Rattle.std.specs.List.{slice_index_or};
ghost use Rattle.pm_meta.specs.declared.layout.TheConstants.{BUCKETS};
ghost use Rattle.pm_pages.specs.PageLists.{pages_in, MayRead, IsReadable, AreReadable};
ghost use Rattle.pm_pages.specs.Rows.{page_at, page_count};
ghost use Rattle.pm_pages.specs.Chains.{next_of, before_of, reuse_next_of, bucket_chain, reuse_chain};
ghost use Rattle.pm_pages.specs.Chains.{is_in_bucket, NamesBefore, HasChain, HasReuseChain};

use crate::well_formed::exact::is_exactly;
use crate::well_formed::listed::{is_of, number, page, page_count};
use pm_data::DATA_KIND;
use pm_meta::{BUCKETS, MetaSlot, REUSE_KIND};
use pm_types::Page;
use std::alloc::{AllocError, Global};

/// Whether the chain of a bucket has exactly its data pages, each once, and each of them names the
/// one before it.
pub fn has_chain(alloc: Global, pages: &[Page], bucket: u8) -> Result<bool, AllocError>
    requires readable { AreReadable (pages_in pages.now) }
    requires bucket { bucket < BUCKETS }
    ensures { IfOk result (λ has. IsTrue has ↔ HasChain (pages_in pages.now) bucket) }
{
    let chain = bucket_chain(alloc, pages, bucket)?;
    let wanted = pages_in_bucket(alloc, pages, bucket)?;
    Ok(is_exactly(alloc, &chain, &wanted)? && name_before(pages, &chain))
}

/// The pages of a bucket's chain, as far as there are pages.
pub fn bucket_chain(alloc: Global, pages: &[Page], bucket: u8) -> Result<Vec<u32>, AllocError>
    requires readable { AreReadable (pages_in pages.now) }
    requires bucket { bucket < BUCKETS }
    ensures { IfOk result (λ chain. chain.items ≡ bucket_chain (pages_in pages.now) bucket) }
{
    let mut chain = Vec::new(alloc);
    let mut at = number(pages, MetaSlot::Bucket(bucket));
    let mut turns = page_count(pages);
    'turns: while turns > 0 && at != 0 {
        chain.push(at)?;
        at = next(page(pages, at));
        turns -= 1;
    }
    Ok(chain)
}

/// The pages of the reuse chain, as far as there are pages.
pub fn reuse_chain(alloc: Global, pages: &[Page]) -> Result<Vec<u32>, AllocError>
    requires { AreReadable (pages_in pages.now) }
    ensures { IfOk result (λ chain. chain.items ≡ reuse_chain (pages_in pages.now)) }
{
    let mut chain = Vec::new(alloc);
    let mut at = number(pages, MetaSlot::Reuse);
    let mut turns = page_count(pages);
    'turns: while turns > 0 && at != 0 {
        chain.push(at)?;
        at = reuse_next(page(pages, at));
        turns -= 1;
    }
    Ok(chain)
}

// The index of the page that a data page names as the next, 0 for any other page.
fn next(page: &[u8]) -> u32
    requires { MayRead page.now }
    ensures { result ≡ next_of page.now }
{
    if is_of(page, DATA_KIND) {
        pm_data::links(page).1
    } else {
        0
    }
}

// The index of the page that a data page names as the one before, 0 for any other page.
fn before(page: &[u8]) -> u32
    requires { MayRead page.now }
    ensures { result ≡ before_of page.now }
{
    if is_of(page, DATA_KIND) {
        pm_data::links(page).0
    } else {
        0
    }
}

// The index of the page that a reuse page names as the next, 0 for any other page.
fn reuse_next(page: &[u8]) -> u32
    requires { MayRead page.now }
    ensures { result ≡ reuse_next_of page.now }
{
    if is_of(page, REUSE_KIND) {
        pm_meta::reuse_next(page)
    } else {
        0
    }
}

// For each page whether it is a data page of this bucket.
fn pages_in_bucket(alloc: Global, pages: &[Page], bucket: u8) -> Result<Vec<bool>, AllocError>
    requires { AreReadable (pages_in pages.now) }
    ensures len { IfOk result (λ flags. length flags.items ≡ page_count (pages_in pages.now)) }
    ensures each { IfOk result (λ flags. (i : ℕ) → i < page_count (pages_in pages.now)
        → slice_index_or flags.items i false ≡ is_in_bucket bucket (page_at (pages_in pages.now) i)) }
{
    let mut flags = Vec::new(alloc);
    'pages: for i in 0..page_count(pages) {
        flags.push(is_in_bucket(page(pages, i), bucket))?;
    }
    Ok(flags)
}

// Whether a page is a data page of this bucket.
fn is_in_bucket(page: &[u8], bucket: u8) -> bool
    requires { IsReadable page.now }
    ensures { result ≡ is_in_bucket bucket page.now }
{
    is_of(page, DATA_KIND)
        && pm_data::room(page) as usize * BUCKETS as usize / page.len() == bucket as usize
}

// Whether each page of a chain names the one before it, the first one 0.
fn name_before(pages: &[Page], chain: &[u32]) -> bool
    requires { AreReadable (pages_in pages.now) }
    ensures { IsTrue result
        ↔ NamesBefore (λ i. before_of (page_at (pages_in pages.now) i)) 0 chain.now }
{
    let mut last = 0;
    'each: for i in chain {
        if before(page(pages, *i)) != last {
            return false;
        }
        last = *i;
    }
    true
}

/// Whether the reuse chain has reuse pages alone.
pub fn has_reuse_chain(pages: &[Page], chain: &[u32]) -> bool
    requires readable { AreReadable (pages_in pages.now) }
    requires chain { chain.now ≡ reuse_chain (pages_in pages.now) }
    ensures { IsTrue result ↔ HasReuseChain (pages_in pages.now) }
{
    'each: for i in chain {
        if !is_of(page(pages, *i), REUSE_KIND) {
            return false;
        }
    }
    true
}
