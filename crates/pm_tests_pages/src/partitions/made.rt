//! A partition whose pages are made by their calls, with one number otherwise.

use crate::partitions::stored::{SHAPE, look_at_form};
use pm_meta::MetaSlot;
use pm_pages::{check_at, check_meta, growth_changes_nothing};
use pm_types::{Link, PageId, Patch};
use std::process::Abort;

// What of a partition that is made by the calls of its pages may be otherwise.
#[derive(Clone, Copy)]
struct Numbers {
    // The number of pages and of rows, and the head of the reuse chain, as the meta page says.
    pages: u32,
    rows: u32,
    reuse: u32,
    // The page before the data page in its chain.
    before: u32,
    // The item of the row that the leaf names.
    item: u8,
}

const SOUND: Numbers = Numbers {
    pages: 4,
    rows: 1,
    reuse: 3,
    before: 0,
    item: 0,
};

// The row of `put 0 a 1`.
const ROW: [u8; 6] = [0, 1, 1, 0, b'a', b'1'];

// A meta page with these numbers.
fn meta_page(numbers: Numbers) -> [u8; 1024] {
    let mut patch = Patch::none(1024);
    let mut meta = [0; 1024];
    pm_meta::fresh(&mut meta, PageId::new(0, 0));
    pm_meta::set(&mut meta, MetaSlot::Root(0), 2, &mut patch);
    pm_meta::set(&mut meta, MetaSlot::Bucket(15), 1, &mut patch);
    pm_meta::set(&mut meta, MetaSlot::Reuse, numbers.reuse, &mut patch);
    pm_meta::set(&mut meta, MetaSlot::Pages, numbers.pages, &mut patch);
    pm_meta::set(&mut meta, MetaSlot::Rows, numbers.rows, &mut patch);
    meta
}

// A data page with one row.
fn data_page(rt: &impl Abort, before: u32) -> [u8; 1024] {
    let mut patch = Patch::none(1024);
    let mut data = [0; 1024];
    pm_data::fresh(&mut data, PageId::new(0, 1));
    assert!(rt; pm_data::fits(&data, ROW.len()));
    pm_data::insert(&mut data, &ROW, &mut patch);
    pm_data::set_links(&mut data, before, 0, &mut patch);
    data
}

// The leaf that is the root of the tree.
fn leaf_page(item: u8) -> [u8; 1024] {
    let mut patch = Patch::none(1024);
    let row = Link::new(PageId::new(0, 1), item);
    let mut leaf = [0; 1024];
    pm_btpage::fresh_leaf(&mut leaf, PageId::new(0, 2));
    pm_btpage::insert_at(&mut leaf, 0, b"a", row.0, &mut patch);
    leaf
}

// A reuse page.
fn reuse_page() -> [u8; 1024] {
    let mut reuse = [0; 1024];
    pm_meta::fresh_reuse(&mut reuse, PageId::new(0, 3), 0);
    reuse
}

// The four pages.
fn made(rt: &impl Abort, numbers: Numbers) -> [[u8; 1024]; 4] {
    let meta = meta_page(numbers);
    let data = data_page(rt, numbers.before);
    let leaf = leaf_page(numbers.item);
    [meta, data, leaf, reuse_page()]
}

// Numbers, whether the partition is well formed with them, and what is wrong.
const ROWS: [(Numbers, bool, &str); 6] = [
    (SOUND, true, "nothing"),
    (
        Numbers { pages: 5, ..SOUND },
        false,
        "a page that isn't there",
    ),
    (
        Numbers { rows: 2, ..SOUND },
        false,
        "a row too many in the count",
    ),
    (
        Numbers { item: 1, ..SOUND },
        false,
        "the name of another row",
    ),
    (
        Numbers { before: 3, ..SOUND },
        false,
        "a page before the first of a chain",
    ),
    (
        Numbers { reuse: 0, ..SOUND },
        false,
        "a page that stands nowhere",
    ),
];

#[test]
fn a_partition_made_by_calls_is_well_formed_up_to_one_point(rt: HostRuntime) {
    for (numbers, wanted, what) in ROWS {
        look_at_form(&rt, &SHAPE, &made(&rt, numbers), wanted, what);
    }
}

#[test]
fn each_page_is_checked_as_its_index_asks(rt: HostRuntime) {
    let pages = made(&rt, SOUND);
    let meta = pages[0].as_slice();
    let data = pages[1].as_slice();
    assert!(rt; check_at(meta, 0, 0, &SHAPE) && check_meta(meta, PageId::new(0, 0), &SHAPE));
    assert!(rt; check_at(data, 0, 1, &SHAPE));
    assert!(rt; !check_at(data, 0, 0, &SHAPE) && !check_at(meta, 0, 1, &SHAPE));
    assert!(rt; !check_at(data, 1, 1, &SHAPE));
    growth_changes_nothing();
}
