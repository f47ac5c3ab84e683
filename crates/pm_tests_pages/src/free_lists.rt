//! Rows that are placed and taken out by room.

ghost use Rattle.std.specs.Prelude.{◌≡◌, ◌≢◌, ℕ, ◌<◌, ◌≤◌, List, Some, IfOk, IfSome, OnOk, IsTrue, IsSome};
ghost use Rattle.std.specs.Prelude.{length};
ghost use Rattle.pm_types.specs.PageSizes.{IsPageSize};
ghost use Rattle.pm_data.specs.Rows.{IsRow};
ghost use Rattle.pm_pages.specs.Paged.{AllReadable};
ghost use Rattle.pm_types.specs.Ids.{page_id, page_of_link, index_of_id};
ghost use Rattle.pm_data.specs.DataPages.{rows_of, row_at, IsDataPage};
ghost use Rattle.pm_meta.specs.declared.slots.MetaSlot.TheVariants.{Pages};
ghost use Rattle.pm_pages.specs.Edits.{LooksAtPages, HasMeta, IsNumberIn};
ghost use Rattle.pm_pages.specs.PlainRooms.{IsOfSize};
ghost use Rattle.pm_meta.specs.MetaPages.{IsMetaPage};
ghost use Rattle.pm_pages.specs.Plain.{plain_seen, ArePlain};
ghost use Rattle.pm_pages.specs.SoundPages.{NoBadPage, MayTake};
ghost use Rattle.pm_pages.specs.StoredPages.{KeepsStored};
ghost use Rattle.pm_free.specs.DataEdits.{IsDataIn, IsDataAt};
ghost use Rattle.pm_free.specs.Placed.{HasChains, HasRowAt};

use pm_data::row;
use pm_free::{find_seat, place, take_out};
use pm_meta::{MetaSlot, fresh};
use pm_pages::{Pages, PlainPages, find_number};
use pm_types::{Link, PAGE_SIZE_MAX, Page, PageFault, PageId, Shape};
use std::alloc::{AllocError, Global};

// The shape of a store whose pages have 1,024 bytes.
const SHAPE: Shape = Shape {
    page_size: 1024,
    partitions: 4,
    version: 1,
    max_rows: 10_000,
    segment_bytes: 65_536,
};

// A partition with a meta page alone.
fn partition(alloc: Global) -> Result<PlainPages, AllocError>
    ensures plain { IfOk result ArePlain }
    ensures readable { IfOk result (λ pages. AllReadable (plain_seen pages)) }
{
    let page = meta_page(alloc)?;
    let mut pages = Vec::new(alloc);
    pages.push(page)?;
    PlainPages::of(alloc, &SHAPE, 2, pages)
}

fn meta_page(alloc: Global) -> Result<Page, AllocError>
    ensures size { IfOk result (IsOfSize 1024) }
    ensures meta { IfOk result (λ page. IsMetaPage page.bytes.items) }
{
    let mut bytes = [0; PAGE_SIZE_MAX];
    made_meta(alloc, &mut bytes[..1024])
}

fn made_meta(alloc: Global, bytes: &mut [u8]) -> Result<Page, AllocError>
    requires { length bytes.old ≡ 1024 }
    ensures size { IfOk result (IsOfSize 1024) }
    ensures meta { IfOk result (λ page. IsMetaPage page.bytes.items) }
{
    fresh(bytes, PageId::new(2, 0));
    copy_of(alloc, bytes)
}

fn copy_of(alloc: Global, bytes: &[u8]) -> Result<Page, AllocError>
    ensures { IfOk result (λ page. page.bytes.items ≡ bytes.now) }
{
    let bytes = Vec::from_slice(alloc, bytes)?;
    Ok(Page { bytes })
}

// A row of cache 3, of a key of one byte without a value.
fn row_of(key: u8) -> [u8; 5]
    ensures { IsRow result }
{
    [3, 1, 0, 0, key]
}

// Places a row, and gives its link; `None` where that fails.
fn place_over<P: Pages>(pages: &mut P, row: &[u8]) -> Option<Link>
    requires ready { P.ready pages.old }
    requires room { 5 ≤ (P.seen pages.old).spare }
    requires row { IsRow row.now }
    requires readable { AllReadable (P.seen pages.old) }
    ensures kept { P.kept pages.old pages.new }
    ensures readable { AllReadable (P.seen pages.new) }
{
    match find_number(pages, MetaSlot::Pages) {
        Ok(Some(_)) => place(pages, row).ok(),
        Ok(None) => None,
        Err(_) => None,
    }
}

fn put(alloc: Global, pages: &mut PlainPages, key: u8) -> Result<Option<Link>, AllocError>
    requires plain { ArePlain pages.old }
    requires readable { AllReadable (plain_seen pages.old) }
    ensures plain { ArePlain pages.new }
    ensures readable { AllReadable (plain_seen pages.new) }
{
    pages.ready(alloc)?;
    Ok(place_over(pages, &row_of(key)))
}

// Whether an item of a data page has a row.
fn is_live<P: Pages>(pages: &mut P, at: u32, item: u8) -> Result<bool, PageFault>
    requires ready { P.ready pages.old }
    requires page { IsDataAt (P.seen pages.old) at }
    requires readable { AllReadable (P.seen pages.old) }
    ensures kept { P.kept pages.old pages.new }
    ensures looks { LooksAtPages P.tells (P.seen pages.old) (P.seen pages.new) 0 }
    ensures readable { AllReadable (P.seen pages.new) }
    ensures live { IfOk result (λ live. IsTrue live → (page : List ℕ) × IsDataIn (P.seen pages.new) at page
        × IsSome (row_at (rows_of page) item)) }
{
    match pages.view(at)? {
        None => Ok(false),
        Some(page) => Ok(is_live_on(page, item)),
    }
}

fn is_live_on(page: &[u8], item: u8) -> bool
    requires { IsDataPage page.now }
    ensures { IsTrue result → IsSome (row_at (rows_of page.now) item) }
{
    match row(page, item) {
        None => false,
        Some(_) => true,
    }
}

// Takes a row out and places another one. Of sound pages in right chains, of which one can be taken, none is
// bad.
fn exchange<P: Pages>(pages: &mut P, link: Link, row: &[u8]) -> Result<Link, PageFault>
    requires ready { P.ready pages.old }
    requires meta { HasMeta (P.seen pages.old) }
    requires room { 7 ≤ (P.seen pages.old).spare }
    requires readable { AllReadable (P.seen pages.old) }
    requires there { HasRowAt (P.seen pages.old) link }
    requires row { IsRow row.now }
    ensures kept { P.kept pages.old pages.new }
    ensures readable { AllReadable (P.seen pages.new) }
    ensures sound { HasChains (P.seen pages.old).pages → MayTake P.tells (P.seen pages.old)
        → NoBadPage result }
    ensures passes { OnOk result (P.tells → KeepsStored (P.seen pages.old) (P.seen pages.new) 1) }
{
    take_out(pages, link)?;
    place(pages, row)
}

// Takes a row out of page `at`, whose name its link has, and places another one, if there is one; false where
// the row isn't there.
fn take_from<P: Pages>(
    pages: &mut P,
    at: u32,
    link: Link,
    other: Option<&[u8]>,
) -> Result<bool, PageFault>
    requires ready { P.ready pages.old }
    requires meta { HasMeta (P.seen pages.old) }
    requires room { 7 ≤ (P.seen pages.old).spare }
    requires other { IfSome other (λ row. IsRow row.now) }
    requires page { IsDataAt (P.seen pages.old) at }
    requires at { at ≡ index_of_id (page_of_link link) }
    requires name { page_of_link link ≡ page_id (P.seen pages.old).part at }
    requires readable { AllReadable (P.seen pages.old) }
    ensures kept { P.kept pages.old pages.new }
    ensures readable { AllReadable (P.seen pages.new) }
{
    if !is_live(pages, at, link.item())? {
        return Ok(false);
    }
    match other {
        None => {
            take_out(pages, link)?;
            Ok(true)
        }
        Some(row) => {
            exchange(pages, link, row)?;
            Ok(true)
        }
    }
}

// Takes a row out, in a partition of so many pages, and places another one, if there is one.
fn take_counted<P: Pages>(
    pages: &mut P,
    count: u32,
    link: Link,
    other: Option<&[u8]>,
) -> Result<bool, PageFault>
    requires ready { P.ready pages.old }
    requires meta { HasMeta (P.seen pages.old) }
    requires count { IsNumberIn (P.seen pages.old) Pages count }
    requires room { 8 ≤ (P.seen pages.old).spare }
    requires other { IfSome other (λ row. IsRow row.now) }
    requires readable { AllReadable (P.seen pages.old) }
    ensures kept { P.kept pages.old pages.new }
    ensures readable { AllReadable (P.seen pages.new) }
{
    let at = link.page().index();
    if at == 0 {
        return Ok(false);
    }
    if link.page() != PageId::new(pages.part(), at) {
        return Ok(false);
    }
    match find_seat(pages, count, at)? {
        None => Ok(false),
        Some(_) => take_from(pages, at, link, other),
    }
}

// Takes a row out, and places another one, if there is one; false where that fails.
fn take_over<P: Pages>(pages: &mut P, link: Link, other: Option<&[u8]>) -> bool
    requires ready { P.ready pages.old }
    requires room { 9 ≤ (P.seen pages.old).spare }
    requires other { IfSome other (λ row. IsRow row.now) }
    requires readable { AllReadable (P.seen pages.old) }
    ensures kept { P.kept pages.old pages.new }
    ensures readable { AllReadable (P.seen pages.new) }
{
    match find_number(pages, MetaSlot::Pages) {
        Ok(Some(count)) => take_counted(pages, count, link, other).unwrap_or(false),
        Ok(None) => false,
        Err(_) => false,
    }
}

fn take(
    alloc: Global,
    pages: &mut PlainPages,
    link: Link,
    other: Option<&[u8]>,
) -> Result<bool, AllocError>
    requires plain { ArePlain pages.old }
    requires other { IfSome other (λ row. IsRow row.now) }
    requires readable { AllReadable (plain_seen pages.old) }
    ensures plain { ArePlain pages.new }
    ensures readable { AllReadable (plain_seen pages.new) }
{
    pages.ready(alloc)?;
    Ok(take_over(pages, link, other))
}

// Places so many rows, and gives the links of those that were placed.
fn fill(alloc: Global, pages: &mut PlainPages, rows: u8) -> Result<Vec<Link>, AllocError>
    requires plain { ArePlain pages.old }
    requires readable { AllReadable (plain_seen pages.old) }
    ensures plain { ArePlain pages.new }
    ensures readable { AllReadable (plain_seen pages.new) }
{
    let mut links = Vec::new(alloc);
    'rows: for key in 0..rows {
        if let Some(link) = put(alloc, pages, key)? {
            links.push(link)?;
        }
    }
    Ok(links)
}

// Takes all these rows out, and places another one for each, if there is one; says whether each was there.
fn empty(
    alloc: Global,
    pages: &mut PlainPages,
    links: &[Link],
    other: Option<&[u8]>,
) -> Result<bool, AllocError>
    requires plain { ArePlain pages.old }
    requires other { IfSome other (λ row. IsRow row.now) }
    requires readable { AllReadable (plain_seen pages.old) }
    ensures plain { ArePlain pages.new }
    ensures readable { AllReadable (plain_seen pages.new) }
{
    let mut all = true;
    'rows: for link in links {
        let was = take(alloc, pages, *link, other)?;
        all = all && was;
    }
    Ok(all)
}

#[test]
fn rows_are_placed_on_a_page_while_it_has_room(rt: HostRuntime) {
    let mut pages = partition(rt.alloc()).expect(&rt, "pages");
    let first = put(rt.alloc(), &mut pages, 0x61).expect(&rt, "a row");
    assert_eq!(rt; first, Some(Link::new(PageId::new(2, 1), 0)));
    let second = put(rt.alloc(), &mut pages, 0x62).expect(&rt, "a row");
    assert_eq!(rt; second, Some(Link::new(PageId::new(2, 1), 1)));
    assert_eq!(rt; pages.len(), 2);
}

#[test]
fn a_partition_that_is_emptied_gives_its_pages_back(rt: HostRuntime) {
    let mut pages = partition(rt.alloc()).expect(&rt, "pages");
    let links = fill(rt.alloc(), &mut pages, 250).expect(&rt, "rows");
    assert_eq!(rt; (links.len(), pages.len()), (250, 4));
    let all = empty(rt.alloc(), &mut pages, &links, None).expect(&rt, "rows");
    assert!(rt; all);
    let again = fill(rt.alloc(), &mut pages, 250).expect(&rt, "rows");
    assert_eq!(rt; (again.len(), pages.len()), (250, 4));
}

#[test]
fn rows_that_are_exchanged_take_no_more_pages(rt: HostRuntime) {
    let mut pages = partition(rt.alloc()).expect(&rt, "pages");
    let links = fill(rt.alloc(), &mut pages, 250).expect(&rt, "rows");
    let row = row_of(0x7a);
    let all = empty(rt.alloc(), &mut pages, &links, Some(&row)).expect(&rt, "rows");
    assert!(rt; all);
    assert_eq!(rt; (links.len(), pages.len()), (250, 4));
}
