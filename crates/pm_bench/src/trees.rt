//! Puts, look-ups and removals in a tree over pages in memory.

ghost use Rattle.std.specs.Prelude.{◌≡◌, ◌≤◌, IfOk, length};
ghost use Rattle.pm_types.specs.Keys.{HasKeyLength};
ghost use Rattle.pm_pages.specs.Paged.{AllReadable};
ghost use Rattle.pm_types.specs.PageSizes.{IsPageSize};
ghost use Rattle.pm_meta.specs.MetaPages.{IsMetaPage};
ghost use Rattle.pm_pages.specs.PlainRooms.{IsOfSize};
ghost use Rattle.pm_pages.specs.Plain.{plain_seen, ArePlain};

use crate::keys::keys;
use pm_meta::{MetaSlot, fresh};
use pm_pages::{Pages, PlainPages, find_number};
use pm_tree::{tree_get, tree_put};
use pm_tree_del::tree_remove;
use pm_types::{Key, Link, Page, PageId, Shape};
use std::alloc::{AllocError, Global};

const PAGE_SIZE: usize = 4096;

const SHAPE: Shape = Shape {
    page_size: 4096,
    partitions: 1,
    version: 1,
    max_rows: 400_000,
    segment_bytes: 65_536,
};

/// The count of the keys that are put.
pub fn puts(alloc: Global, count: u32) -> Result<u64, AllocError> {
    let keys = keys(alloc, count)?;
    let mut pages = partition(alloc)?;
    put_all(alloc, &mut pages, &keys)
}

/// The sum of what all keys have, each of which is put and then looked for.
pub fn gets(alloc: Global, count: u32) -> Result<u64, AllocError> {
    let keys = keys(alloc, count)?;
    let mut pages = partition(alloc)?;
    put_all(alloc, &mut pages, &keys)?;
    get_all(alloc, &mut pages, &keys)
}

/// The sum of what all keys had, each of which is put and then removed.
pub fn removes(alloc: Global, count: u32) -> Result<u64, AllocError> {
    let keys = keys(alloc, count)?;
    let mut pages = partition(alloc)?;
    put_all(alloc, &mut pages, &keys)?;
    remove_all(alloc, &mut pages, &keys)
}

// A partition with a meta page alone.
fn partition(alloc: Global) -> Result<PlainPages, AllocError>
    ensures plain { IfOk result ArePlain }
    ensures readable { IfOk result (λ pages. AllReadable (plain_seen pages)) }
{
    let mut bytes = [0; PAGE_SIZE];
    let page = meta_page(alloc, &mut bytes)?;
    let mut pages = Vec::new(alloc);
    pages.push(page)?;
    PlainPages::of(alloc, &SHAPE, 0, pages)
}

// Writes a meta page, and copies it.
fn meta_page(alloc: Global, bytes: &mut [u8]) -> Result<Page, AllocError>
    requires { IsPageSize (length bytes.old) }
    ensures size { IfOk result (IsOfSize (length bytes.old)) }
    ensures meta { IfOk result (λ page. IsMetaPage page.bytes.items) }
{
    fresh(bytes, PageId::new(0, 0));
    copy_of(alloc, bytes)
}

fn copy_of(alloc: Global, bytes: &[u8]) -> Result<Page, AllocError>
    ensures { IfOk result (λ page. page.bytes.items ≡ bytes.now) }
{
    let bytes = Vec::from_slice(alloc, bytes)?;
    Ok(Page { bytes })
}

// Puts each key with its number, and gives the count of those that weren't there.
fn put_all(alloc: Global, pages: &mut PlainPages, keys: &Vec<Key>) -> Result<u64, AllocError>
    requires plain { ArePlain pages.old }
    requires readable { AllReadable (plain_seen pages.old) }
    ensures plain { ArePlain pages.new }
    ensures readable { AllReadable (plain_seen pages.new) }
{
    let mut link = 0u64;
    let mut count = 0u64;
    'keys: for key in keys {
        pages.ready(alloc)?;
        count = count.wrapping_add(put(pages, key.bytes(), link));
        link = link.wrapping_add(1);
    }
    Ok(count)
}

// Looks for each key, and gives the sum of what they have.
fn get_all(alloc: Global, pages: &mut PlainPages, keys: &Vec<Key>) -> Result<u64, AllocError>
    requires plain { ArePlain pages.old }
    requires readable { AllReadable (plain_seen pages.old) }
    ensures plain { ArePlain pages.new }
    ensures readable { AllReadable (plain_seen pages.new) }
{
    let mut sum = 0u64;
    'keys: for key in keys {
        pages.ready(alloc)?;
        sum = sum.wrapping_add(get(pages, key.bytes()));
    }
    Ok(sum)
}

// Removes each key, and gives the sum of what they had.
fn remove_all(alloc: Global, pages: &mut PlainPages, keys: &Vec<Key>) -> Result<u64, AllocError>
    requires plain { ArePlain pages.old }
    requires readable { AllReadable (plain_seen pages.old) }
    ensures plain { ArePlain pages.new }
    ensures readable { AllReadable (plain_seen pages.new) }
{
    let mut sum = 0u64;
    'keys: for key in keys {
        pages.ready(alloc)?;
        sum = sum.wrapping_add(remove(pages, key.bytes()));
    }
    Ok(sum)
}

// Puts a link at a key, and gives 1 where the key wasn't there.
fn put<P: Pages>(pages: &mut P, key: &[u8], link: u64) -> u64
    requires ready { P.ready pages.old }
    requires room { 18 ≤ (P.seen pages.old).spare }
    requires key { HasKeyLength key.now }
    requires readable { AllReadable (P.seen pages.old) }
    ensures kept { P.kept pages.old pages.new }
    ensures readable { AllReadable (P.seen pages.new) }
{
    match find_number(pages, MetaSlot::Pages) {
        Ok(Some(_)) => match tree_put(pages, 0, key, Link(link)) {
            Ok(None) => 1,
            Ok(Some(_)) => 0,
            Err(_) => 0,
        },
        Ok(None) => 0,
        Err(_) => 0,
    }
}

// The link of a key, or 0.
fn get<P: Pages>(pages: &mut P, key: &[u8]) -> u64
    requires ready { P.ready pages.old }
    requires room { 9 ≤ (P.seen pages.old).spare }
    requires readable { AllReadable (P.seen pages.old) }
    ensures kept { P.kept pages.old pages.new }
    ensures readable { AllReadable (P.seen pages.new) }
{
    match tree_get(pages, 0, key) {
        Ok(Some(link)) => link.0,
        Ok(None) => 0,
        Err(_) => 0,
    }
}

// Removes a key, and gives the link that it had, or 0.
fn remove<P: Pages>(pages: &mut P, key: &[u8]) -> u64
    requires ready { P.ready pages.old }
    requires room { 16 ≤ (P.seen pages.old).spare }
    requires readable { AllReadable (P.seen pages.old) }
    ensures kept { P.kept pages.old pages.new }
    ensures readable { AllReadable (P.seen pages.new) }
{
    match tree_remove(pages, 0, key) {
        Ok(Some(link)) => link.0,
        Ok(None) => 0,
        Err(_) => 0,
    }
}
