ghost use Rattle.std.specs.Prelude.{◌≡◌, ℕ, IfOk};
ghost use Rattle.pm_pages.specs.Paged.{IsTold, IsThere};
ghost use Rattle.pm_tests_logs.specs.Table.{table_seen, IsTableReady};

use crate::looks::holds;
use crate::pages::*;
use pm_model::part_of;
use pm_pages::{Pages, PlainPages, is_well_formed};
use pm_types::{Page, PageFault, PageId, Shape};
use std::alloc::Global;
use std::process::Abort;
use std::test::Fail;

// The shape of a store with four partitions, whose pages have 1,024 bytes.
const SHAPE: Shape = Shape {
    page_size: 1024,
    partitions: 4,
    version: 1,
    max_rows: 100,
    segment_bytes: 65_536,
};

#[test]
fn plain_pages_keep_what_changed_since_they_were_made_ready(rt: HostRuntime) {
    let mut pages = PlainPages::new(rt.alloc(), &SHAPE, 2).expect(&rt, "pages");
    assert!(rt; pages.len() == 0 && pages.page(0).is_none() && pages.patch(0).is_none());
    pages.ready(rt.alloc()).expect(&rt, "ready");
    assert!(rt; pages.fresh(0).is_ok() && pages.len() == 1);
    assert!(rt; pages.patch(0).is_some_and(|patch| patch.is_whole()));
    pages.ready(rt.alloc()).expect(&rt, "ready");
    assert!(rt; pages.patch(0).is_none());
    assert!(rt; set_byte(&mut pages, 0, 1023, 7).is_ok());
    assert!(rt;
        pages
            .patch(0)
            .is_some_and(|patch| patch.len() == 1 && !patch.is_whole())
    );
    assert!(rt;
        pages
            .page(0)
            .is_some_and(|page| page.len() == 1024 && page[1023] == 7)
    );
}

#[test]
fn a_first_page_that_is_not_there_is_not_bad(rt: HostRuntime) {
    let mut pages = PlainPages::new(rt.alloc(), &SHAPE, 2).expect(&rt, "pages");
    pages.ready(rt.alloc()).expect(&rt, "ready");
    assert!(rt; matches!(pages.view(0), Ok(None)));
    assert!(rt;
        matches!(pages.view(1), Err(PageFault::BadPage(page)) if page == PageId::new(2, 1))
    );
}

#[test]
fn a_page_after_a_gap_is_not_made(rt: HostRuntime) {
    let mut pages = PlainPages::new(rt.alloc(), &SHAPE, 2).expect(&rt, "pages");
    pages.ready(rt.alloc()).expect(&rt, "ready");
    assert!(rt;
        matches!(pages.fresh(1), Err(PageFault::BadPage(page)) if page == PageId::new(2, 0))
    );
}

// A table that holds page 0, which is of zeros. No page was asked for.
fn table(rt: &impl Abort, alloc: Global) -> Result<TablePages, Fail>
    ensures { IfOk result
        (λ made. IsTableReady made × ((table_seen made).spare ≡ 32) × ((table_seen made).page_size ≡ 1024)
        × ((i : ℕ) → IsTold ⊥ (table_seen made) i → IsThere (table_seen made) i)) }
{
    let mut pages = PlainPages::new(alloc, &SHAPE, 2)?;
    pages.ready(alloc)?;
    assert!(rt; pages.fresh(0).is_ok());
    pages.ready(alloc)?;
    Ok(TablePages::of(pages))
}

#[test]
fn a_fault_of_the_second_edit_is_passed_on(rt: HostRuntime) -> Result<(), Fail> {
    let mut pages = table(&rt, rt.alloc())?;
    assert!(rt; matches!(set_on_table(&mut pages, 0, 1, 5), Err(PageFault::Failed)));
    assert!(rt; pages.faults() == 1);
    Ok(())
}

// The pages of partition 2 of a store with four. Cache 0 has 84 rows and a tree of three levels: 14
// leaves, pages 1 to 14, below the inner pages 15 and 16, below 17. Cache 1 has two rows on one
// leaf, page 20. The data pages 18 and 19 have 43 rows each, so they are of one bucket.
type Pages21 = [[u8; 1024]; 21];

// Lays bytes over those of a page from an offset on.
fn lay(rt: &impl Abort, pages: &mut Pages21, page: usize, at: usize, bytes: &[u8]) {
    assert!(rt; page < pages.len() && at <= 1024 && bytes.len() <= 1024 - at);
    pages[page][at..at + bytes.len()].copy_from_slice(bytes);
}

// The first 84 keys of two bytes, from `aa` on, that are of partition 2.
fn keys() -> [[u8; 2]; 84] {
    let mut keys = [[0; 2]; 84];
    let mut number = 0;
    'keys: for i in 0..676u16 {
        let key = [b'a' + (i / 26) as u8, b'a' + (i % 26) as u8];
        if number < 84 && part_of(&key, 4) == 2 {
            keys[number] = key;
            number += 1;
        }
    }
    keys
}

// The head of a page: its name, its kind and its count.
fn lay_head(rt: &impl Abort, pages: &mut Pages21, page: usize, kind: u8, count: u8) {
    assert!(rt; page < 21);
    lay(
        rt,
        pages,
        page,
        0,
        &[page as u8, 0, 0, 0, 2, 0, 1, 0, kind, 0, count],
    );
}

// An item of an index page: its key, and the name of a page with an item's number.
fn lay_item(
    rt: &impl Abort,
    pages: &mut Pages21,
    page: usize,
    i: usize,
    key: [u8; 2],
    name: (u8, u8),
) {
    assert!(rt; i < 13);
    let at = 32 + 73 * i;
    lay(rt, pages, page, at, &[2, key[0], key[1]]);
    lay(
        rt,
        pages,
        page,
        at + 65,
        &[name.0, 0, 0, 0, 2, 0, 1, name.1],
    );
}

// A row and its slot: the number of the row, counted over both data pages.
fn lay_row(rt: &impl Abort, pages: &mut Pages21, row: usize, cache: u8, key: [u8; 2]) {
    assert!(rt; row < 86);
    let item = row % 43;
    let start = (723 + 7 * item) as u16;
    let at = start.to_le_bytes();
    let page = 18 + row / 43;
    lay(rt, pages, page, 32 + 4 * item, &[at[0], at[1], 7, 0]);
    lay(
        rt,
        pages,
        page,
        start as usize,
        &[cache, 2, 1, 0, key[0], key[1], b'v'],
    );
}

// The name of a row: its data page, and its item there.
fn name_of(row: usize) -> (u8, u8) {
    (18 + (row / 43 % 2) as u8, (row % 43) as u8)
}

fn lay_leaves(rt: &impl Abort, pages: &mut Pages21, keys: &[[u8; 2]; 84]) {
    'rows: for row in 0..84 {
        let key = keys[row];
        lay_row(rt, pages, row, 0, key);
        lay_item(rt, pages, 1 + row / 6, row % 6, key, name_of(row));
    }
    'leaves: for leaf in 1..15 {
        lay_head(rt, pages, leaf, 2, 6);
        let next = if leaf < 14 { leaf as u8 + 1 } else { 0 };
        lay(rt, pages, leaf, 16, &[next]);
    }
}

fn lay_inner(rt: &impl Abort, pages: &mut Pages21, keys: &[[u8; 2]; 84]) {
    'inner: for i in 0..2 {
        lay_head(rt, pages, 15 + i, 3, 6);
        lay(
            rt,
            pages,
            15 + i,
            16,
            &[1 + 7 * i as u8, 0, 0, 0, 2, 0, 1, 0],
        );
        'items: for k in 0..6 {
            let leaf = 7 * i + k + 1;
            lay_item(rt, pages, 15 + i, k, keys[6 * leaf], (leaf as u8 + 1, 0));
        }
    }
    lay_head(rt, pages, 17, 3, 1);
    lay(rt, pages, 17, 16, &[15, 0, 0, 0, 2, 0, 1, 0]);
    lay_item(rt, pages, 17, 0, keys[42], (16, 0));
}

fn lay_rest(rt: &impl Abort, pages: &mut Pages21, keys: &[[u8; 2]; 84]) {
    lay_head(rt, pages, 0, 1, 0);
    lay(rt, pages, 0, 32, &[17, 0, 0, 0, 20]);
    lay(rt, pages, 0, 96 + 4 * 8, &[18]);
    lay(rt, pages, 0, 164, &[21, 0, 0, 0, 86]);
    lay_head(rt, pages, 20, 2, 2);
    lay_row(rt, pages, 84, 1, keys[0]);
    lay_row(rt, pages, 85, 1, keys[1]);
    lay_item(rt, pages, 20, 0, keys[0], name_of(84));
    lay_item(rt, pages, 20, 1, keys[1], name_of(85));
    lay_head(rt, pages, 18, 4, 43);
    lay(rt, pages, 18, 20, &[19, 0, 0, 0, 0xd3, 2]);
    lay_head(rt, pages, 19, 4, 43);
    lay(rt, pages, 19, 16, &[18, 0, 0, 0, 0, 0, 0, 0, 0xd3, 2]);
}

fn page_of(rt: &impl Abort, alloc: Global, bytes: &[u8; 1024]) -> Page {
    Page {
        bytes: Vec::from_slice(alloc, bytes).expect(rt, "a page"),
    }
}

// The pages as a list.
fn listed(rt: &impl Abort, alloc: Global, pages: &Pages21) -> Vec<Page> {
    let mut list = Vec::new(alloc);
    'pages: for page in pages.iter() {
        list.push(page_of(rt, alloc, page)).expect(rt, "a page");
    }
    list
}

// The pages, with one byte of one of them otherwise.
fn partition(rt: &impl Abort, alloc: Global, at: (usize, usize, u8)) -> Vec<Page> {
    let mut pages = [[0; 1024]; 21];
    let keys = keys();
    lay_leaves(rt, &mut pages, &keys);
    lay_inner(rt, &mut pages, &keys);
    lay_rest(rt, &mut pages, &keys);
    if at.0 < 21 {
        lay(rt, &mut pages, at.0, at.1, &[at.2]);
    }
    listed(rt, alloc, &pages)
}

// A byte of a page that is another, whether the pages are well formed then, and what is wrong.
static OTHER_BYTES: [((usize, usize, u8), bool, &str); 9] = [
    ((21, 0, 0), true, "nothing"),
    ((17, 33, b'z'), false, "a key of the root above its bound"),
    ((15, 97, 3), false, "one leaf below two children"),
    (
        (7, 16, 0),
        false,
        "leaves that aren't linked across inner pages",
    ),
    ((0, 36, 0), false, "a cache with rows and no tree"),
    ((0, 32, 15), false, "a tree without its root"),
    ((18, 20, 0), false, "a bucket's second page in no chain"),
    ((19, 16, 0), false, "a page before the second of a bucket"),
    ((19, 1017, 0), false, "a row of another cache"),
];

// Looks whether the pages, with this byte otherwise, are well formed as those of this partition.
fn look_at_partition(
    rt: &impl Abort,
    alloc: Global,
    at: (usize, usize, u8),
    part: u16,
    wanted: bool,
    what: &str,
) {
    let pages = partition(rt, alloc, at);
    let is_one = is_well_formed(alloc, &SHAPE, part, &pages).expect(rt, what);
    holds(rt, "well formed", is_one == wanted, &what);
}

#[test]
fn a_partition_of_two_caches_and_three_levels_is_well_formed_up_to_one_byte(rt: HostRuntime) {
    for (at, wanted, what) in &OTHER_BYTES {
        look_at_partition(&rt, rt.alloc(), *at, 2, *wanted, what);
    }
    look_at_partition(&rt, rt.alloc(), (21, 0, 0), 3, false, "another partition");
}
