//! A partition of five pages that are written by hand, whose tree has an inner page, with wrong bytes.

use crate::partitions::stored::{SHAPE, lay, look_at_form};
use pm_types::Shape;
use std::process::Abort;

// The meta page, a data page, two leaves of six items each, and an inner page above them; all rows stand on the
// one data page.
type Pages5 = [[u8; 1024]; 5];

// The kinds of the pages.
const KINDS: [u8; 5] = [1, 4, 2, 2, 3];

// A page's name and kind.
fn lay_head(page: &mut [u8; 1024], index: u8, kind: u8) {
    page[0] = index;
    page[6] = 1;
    page[8] = kind;
}

fn lay_heads(pages: &mut Pages5) {
    for (i, page) in pages.iter_mut().enumerate() {
        lay_head(page, i as u8, KINDS[i % 5]);
    }
}

fn lay_meta(rt: &impl Abort, meta: &mut [u8; 1024]) {
    lay(rt, meta, 32, b"\x04");
    lay(rt, meta, 96 + 4 * 13, b"\x01");
    lay(rt, meta, 164, b"\x05\x00\x00\x00\x0c");
}

// A row of the data page, and its slot.
fn lay_row(rt: &impl Abort, data: &mut [u8; 1024], i: u8) {
    let i = i.min(11);
    let row = 952 + 6 * i as u16;
    let at = row.to_le_bytes();
    lay(rt, data, 32 + 4 * i as u16, &[at[0], at[1], 6, 0]);
    lay(rt, data, row, &[0, 1, 1, 0, b'a' + i, b'1']);
}

fn lay_data(rt: &impl Abort, data: &mut [u8; 1024]) {
    lay(rt, data, 10, b"\x0c");
    lay(rt, data, 24, b"\xb8\x03");
    for i in 0..12u8 {
        lay_row(rt, data, i);
    }
}

// The item of a row in its leaf.
fn lay_item(rt: &impl Abort, leaf: &mut [u8; 1024], i: u8) {
    let i = i.min(11);
    let place = 32 + 73 * (i % 6) as u16;
    lay(rt, leaf, place, &[1, b'a' + i]);
    lay(rt, leaf, place + 65, &[1, 0, 0, 0, 0, 0, 1, i]);
}

// A leaf with the items of six rows from this one on.
fn lay_leaf(rt: &impl Abort, leaf: &mut [u8; 1024], first: u8) {
    lay(rt, leaf, 10, b"\x06");
    for i in 0..6u8 {
        lay_item(rt, leaf, first.saturating_add(i));
    }
}

fn lay_inner(rt: &impl Abort, inner: &mut [u8; 1024]) {
    lay(rt, inner, 10, b"\x01");
    lay(rt, inner, 16, b"\x02\x00\x00\x00\x00\x00\x01\x00");
    lay(rt, inner, 32, b"\x01g");
    lay(rt, inner, 97, b"\x03\x00\x00\x00\x00\x00\x01\x00");
}

fn whole_pages(rt: &impl Abort) -> Pages5 {
    let mut pages = [[0; 1024]; 5];
    lay_heads(&mut pages);
    lay_meta(rt, &mut pages[0]);
    lay_data(rt, &mut pages[1]);
    lay_leaf(rt, &mut pages[2], 0);
    lay(rt, &mut pages[2], 16, b"\x03");
    lay_leaf(rt, &mut pages[3], 6);
    lay_inner(rt, &mut pages[4]);
    pages
}

// The pages, with one byte of one of them otherwise.
fn grown(rt: &impl Abort, at: (usize, u16, u8)) -> Pages5 {
    let mut pages = whole_pages(rt);
    if at.0 < 5 {
        lay(rt, &mut pages[at.0], at.1, &[at.2]);
    }
    pages
}

// As many rows as there are.
const FULL: Shape = Shape {
    max_rows: 12,
    ..SHAPE
};

// A byte of a page, whether the partition is well formed with it, and what is wrong.
const ROWS: [((usize, u16, u8), bool, &str); 15] = [
    ((5, 0, 0), true, "nothing"),
    ((1, 1, 1), false, "a page of another name"),
    ((0, 168, 11), false, "a row too few in the count"),
    ((0, 32, 2), false, "a leaf as the root"),
    ((0, 36, 4), false, "a tree of a cache without rows"),
    ((4, 33, b'h'), false, "a key below the bound of its leaf"),
    ((4, 33, b'f'), false, "a key above the bound of its leaf"),
    ((4, 97, 2), false, "one leaf below both children"),
    ((3, 33, b'f'), false, "a key that isn't that of its row"),
    ((3, 104, 0), false, "the name of another row"),
    ((2, 16, 0), false, "a leaf that doesn't name the next"),
    ((3, 16, 2), false, "a leaf that names one after the last"),
    ((0, 148, 0), false, "a data page in no chain"),
    ((1, 16, 1), false, "a data page after itself"),
    ((0, 160, 1), false, "a data page in the reuse chain"),
];

#[test]
fn a_partition_is_well_formed_up_to_one_wrong_byte(rt: HostRuntime) {
    for (at, wanted, what) in ROWS {
        look_at_form(&rt, &FULL, &grown(&rt, at), wanted, what);
    }
    look_at_form(&rt, &FULL, &[], true, "no pages");
}
