//! A partition of four pages that are written by hand, with its rows and with wrong bytes.

ghost use Rattle.pm_types.specs.PageSizes.{IsPageSize};
ghost use Rattle.pm_model.specs.Partitions.{ArePartitions};

use pm_pages::{
    Row, all_pass, has_chain, has_reuse_chain, is_well_formed, page_count, reuse_chain, rows_of,
};
use pm_types::{Page, PageId, Shape};
use std::alloc::{AllocError, Global};
use std::process::Abort;

// The shape of a store with one partition, whose pages have 1,024 bytes.
pub const SHAPE: Shape = Shape {
    page_size: 1024,
    partitions: 1,
    version: 1,
    max_rows: 4,
    segment_bytes: 65_536,
};

// A partition of one cache with the rows of `put 0 a 1` and `put 0 b 2`: the meta page, a data
// page, the leaf that is the root of the tree, and a reuse page.
const PAGES: [&[(u16, &[u8])]; 4] = [
    &[
        (0, b"\x00\x00\x00\x00\x00\x00\x01\x00\x01"),
        (32, b"\x02"),
        (156, b"\x01"),
        (160, b"\x03\x00\x00\x00\x04\x00\x00\x00\x02"),
    ],
    &[
        (0, b"\x01\x00\x00\x00\x00\x00\x01\x00\x04\x00\x02"),
        (24, b"\xf4\x03"),
        (32, b"\xfa\x03\x06\x00\xf4\x03\x06\x00"),
        (1012, b"\x00\x01\x01\x00b2\x00\x01\x01\x00a1"),
    ],
    &[
        (0, b"\x02\x00\x00\x00\x00\x00\x01\x00\x02\x00\x02"),
        (32, b"\x01a"),
        (97, b"\x01\x00\x00\x00\x00\x00\x01\x00\x01b"),
        (170, b"\x01\x00\x00\x00\x00\x00\x01\x01"),
    ],
    &[(0, b"\x03\x00\x00\x00\x00\x00\x01\x00\x05")],
];

// Lays bytes over those of a page from an offset on.
pub fn lay(rt: &impl Abort, page: &mut [u8], at: u16, bytes: &[u8]) {
    let from = at as usize;
    assert!(rt; from + bytes.len() <= page.len());
    page[from..from + bytes.len()].copy_from_slice(bytes);
}

// The page of these bytes.
fn page_of(alloc: Global, bytes: &[u8; 1024]) -> Result<Page, AllocError> {
    let bytes = Vec::from_slice(alloc, bytes)?;
    Ok(Page { bytes })
}

// The pages of these bytes.
fn copied(alloc: Global, pages: &[[u8; 1024]]) -> Result<Vec<Page>, AllocError> {
    let mut all = Vec::new(alloc);
    for page in pages {
        all.push(page_of(alloc, page)?)?;
    }
    Ok(all)
}

// The same.
pub fn pages_of(rt: &(impl Abort + AllocGlobal), pages: &[[u8; 1024]]) -> Vec<Page> {
    copied(rt.alloc(), pages).expect(rt, "pages")
}

// Looks whether a partition is well formed.
pub fn look_at_form(
    rt: &(impl Abort + AllocGlobal),
    shape: &Shape,
    pages: &[[u8; 1024]],
    wanted: bool,
    what: &str,
)
    requires size { IsPageSize shape.now.page_size }
    requires partitions { ArePartitions shape.now.partitions }
{
    let pages = pages_of(rt, pages);
    let is_so = is_well_formed(rt.alloc(), shape, 0, &pages).expect(rt, what);
    assert_eq!(rt; is_so, wanted, "{what}");
}

// Lays the parts of a page.
fn lay_all(rt: &impl Abort, page: &mut [u8; 1024], parts: &[(u16, &[u8])]) {
    for (at, bytes) in parts {
        lay(rt, page, *at, bytes);
    }
}

// The pages, with other bytes from an offset of one of them on.
fn partition(rt: &(impl Abort + AllocGlobal), index: usize, at: u16, bytes: &[u8]) -> Vec<Page> {
    let mut pages = [[0; 1024]; 4];
    for (i, parts) in PAGES.iter().enumerate() {
        let page = &mut pages[i % 4];
        lay_all(rt, page, parts);
        if i == index {
            lay(rt, page, at, bytes);
        }
    }
    pages_of(rt, &pages)
}

// Whether all pages pass, the chain of bucket 15 and the reuse chain are as they have to be, and the partition is
// well formed.
fn tests_of(alloc: Global, pages: &[Page]) -> Result<(bool, bool, bool, bool), AllocError> {
    let whole = is_well_formed(alloc, &SHAPE, 0, pages)?;
    if !all_pass(&SHAPE, 0, pages) {
        return Ok((false, false, false, whole));
    }
    let chain = has_chain(alloc, pages, 15)?;
    let reuse = reuse_chain(alloc, pages)?;
    let has_reuse = has_reuse_chain(pages, reuse.as_slice());
    Ok((true, chain, has_reuse, whole))
}

// Looks at a row: its key, its value, and its item on page 1.
fn look_at_row(rt: &impl Abort, row: &Row, key: &[u8], value: &[u8], item: u8) {
    assert!(rt; row.cache == 0 && row.key.bytes() == key);
    assert!(rt; row.value.bytes() == value);
    assert_eq!(rt; row.link.page(), PageId::new(0, 1));
    assert_eq!(rt; row.link.item(), item);
}

#[test]
fn a_partition_has_the_rows_of_its_data_pages(rt: HostRuntime) {
    let pages = partition(&rt, 4, 0, b"");
    assert!(rt; all_pass(&SHAPE, 0, &pages));
    let rows = rows_of(rt.alloc(), 0, &pages).expect(&rt, "rows");
    assert!(rt; rows.len() == 2);
    look_at_row(&rt, &rows[0], b"a", b"1", 0);
    look_at_row(&rt, &rows[1], b"b", b"2", 1);
}

// What the tests say of a partition: of its pages, of the chain of bucket 15, of the reuse chain, and of the whole.
type Said = (bool, bool, bool, bool);

const GOOD: Said = (true, true, true, true);

const BAD: Said = (false, false, false, false);

// Looks at what the tests say of a partition.
fn look(rt: &(impl Abort + AllocGlobal), pages: &[Page], wanted: Said, what: &str) {
    let said = tests_of(rt.alloc(), pages).expect(rt, what);
    assert_eq!(rt; said, wanted, "{what}");
}

// Bytes of a page from an offset on, what the tests say of the partition then, and what is wrong.
const WRONG: [(usize, u16, &[u8], Said, &str); 15] = [
    (4, 0, b"", GOOD, "nothing"),
    (0, 164, b"\x05", BAD, "a page that isn't there"),
    (1, 0, b"\x02", BAD, "a page of another name"),
    (3, 20, b"\x01", BAD, "a byte that has to be zero"),
    (
        0,
        168,
        b"\x03",
        (true, true, true, false),
        "a row too many in the count",
    ),
    (
        1,
        1016,
        b"a",
        (true, true, true, false),
        "a key that stands twice",
    ),
    (
        2,
        104,
        b"\x01",
        (true, true, true, false),
        "an item that names another row",
    ),
    (
        2,
        33,
        b"A",
        (true, true, true, false),
        "a key that no row has",
    ),
    (
        0,
        156,
        b"\x00",
        (true, false, true, false),
        "a data page in no chain",
    ),
    (
        0,
        152,
        b"\x01\x00\x00\x00\x00",
        (true, false, true, false),
        "a data page in another chain",
    ),
    (
        1,
        16,
        b"\x02",
        (true, false, true, false),
        "a page before the first",
    ),
    (
        1,
        20,
        b"\x01",
        (true, false, true, false),
        "a chain that turns",
    ),
    (
        0,
        156,
        b"\x02",
        (true, false, true, false),
        "a leaf in a chain",
    ),
    (
        0,
        160,
        b"\x02",
        (true, true, false, false),
        "a leaf in the reuse chain",
    ),
    (
        3,
        16,
        b"\x01",
        (true, true, false, false),
        "a data page after a reuse page",
    ),
];

#[test]
fn one_wrong_byte_of_a_partition_is_found(rt: HostRuntime) {
    for (index, at, bytes, wanted, what) in WRONG {
        look(&rt, &partition(&rt, index, at, bytes), wanted, what);
    }
}

#[test]
fn a_partition_without_a_meta_page_has_no_rows(rt: HostRuntime) {
    let none: [Page; 0] = [];
    assert!(rt; all_pass(&SHAPE, 0, &none));
    assert_eq!(rt; page_count(&none), 0);
    let rows = rows_of(rt.alloc(), 0, &none).expect(&rt, "no rows");
    assert!(rt; rows.is_empty());
    look(&rt, &none, GOOD, "no pages");
}
