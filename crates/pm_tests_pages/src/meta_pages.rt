//! Meta pages and reuse pages as the format says, byte by byte.

use crate::looks::has_ranges;
use pm_meta::{MetaSlot, check, check_reuse, fresh, fresh_reuse, get, reuse_next, set};
use pm_types::{PageId, Patch};
use std::process::Abort;

#[test]
fn each_number_stands_where_the_format_says(rt: HostRuntime) {
    let mut page = [7; 1024];
    let mut patch = Patch::none(1024);
    let id = PageId::new(3, 0);
    fresh(&mut page, id);
    assert!(rt; check(&page, id, 0) && !check(&page, PageId::new(2, 0), 0));
    assert_eq!(rt; &page[..9], [0, 0, 0, 0, 3, 0, 1, 0, 1].as_slice());
    assert_eq!(rt;
        (&page[164..169], page[1023]),
        ([1, 0, 0, 0, 0].as_slice(), 0)
    );
    set(&mut page, MetaSlot::Root(15), 0x0102_0304, &mut patch);
    set(&mut page, MetaSlot::Bucket(0), 5, &mut patch);
    set(&mut page, MetaSlot::Rows, 9, &mut patch);
    assert_eq!(rt; &page[92..97], [4, 3, 2, 1, 5].as_slice());
    assert_eq!(rt; page[168], 9);
    has_ranges(&rt, &patch, &[(92, 8), (168, 4)]);
    assert_eq!(rt; get(&page, MetaSlot::Root(15)), 0x0102_0304);
    assert_eq!(rt; get(&page, MetaSlot::Bucket(1)), 0);
}

/// Looks whether a page is one with another byte at an offset.
fn look_at_other(rt: &impl Abort, page: &[u8; 1024], id: PageId, at: usize, row: (u8, bool, &str)) {
    let (byte, is_good, what) = row;
    let mut other = *page;
    assert!(rt; at < other.len(), "{what}");
    other[at] = byte;
    assert_eq!(rt; check(&other, id, 0), is_good, "{what}");
}

#[test]
fn a_meta_page_with_one_wrong_byte_is_refused(rt: HostRuntime) {
    let mut page = [0; 1024];
    let id = PageId::new(2, 0);
    fresh(&mut page, id);
    let rows = [
        (4, 3, false, "another partition's name"),
        (8, 5, false, "another kind"),
        (10, 1, false, "a count"),
        (31, 1, false, "a byte that has to be zero"),
        (32, 1, false, "a root at the page count"),
        (160, 1, false, "a reuse chain at the page count"),
        (164, 0, false, "no pages"),
        (164, 255, true, "more pages"),
        (165, 1, false, "more pages than fit the rows"),
        (168, 1, false, "more rows than fit"),
        (172, 1, false, "a byte that has to be zero"),
        (1023, 1, false, "a byte that has to be zero"),
    ];
    for (at, byte, is_good, what) in rows {
        look_at_other(&rt, &page, id, at, (byte, is_good, what));
    }
}

#[test]
fn a_reuse_page_names_the_next(rt: HostRuntime) {
    let mut page = [7; 1024];
    let id = PageId::new(2, 6);
    fresh_reuse(&mut page, id, 0x0102_0304);
    let head = [5, 0, 0, 0, 0, 0, 0, 0, 4, 3, 2, 1];
    assert_eq!(rt; &page[..8], [6, 0, 0, 0, 2, 0, 1, 0].as_slice());
    assert_eq!(rt; &page[8..20], head.as_slice());
    assert_eq!(rt; reuse_next(&page), 0x0102_0304);
    assert!(rt; check_reuse(&page, id));
    page[20] = 1;
    assert!(rt; !check_reuse(&page, id));
}

#[test]
fn a_number_that_is_set_notes_its_four_bytes(rt: HostRuntime) {
    let mut page = [0; 1024];
    let mut patch = Patch::none(1024);
    let id = PageId::new(3, 0);
    fresh(&mut page, id);
    assert!(rt; check(&page, id, 0));
    set(&mut page, MetaSlot::Rows, 9, &mut patch);
    has_ranges(&rt, &patch, &[(168, 4)]);
}
