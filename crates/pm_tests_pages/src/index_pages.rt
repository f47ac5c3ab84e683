//! Index pages as the format says, byte by byte.

ghost use Rattle.std.specs.Prelude.{◌≡◌, length};
ghost use Rattle.pm_btpage.specs.IndexPages.{IsIndexPage};

use crate::looks::has_ranges;
use pm_btpage::{
    Found, capacity, check, count, find, first, fresh_inner, fresh_leaf, insert_at, is_leaf,
    key_at, next, parts_join, remove_at, set_first, set_next, set_word, word_at,
};
use pm_types::{KEY_MAX, PageId, Patch};
use std::process::Abort;

#[test]
fn capacities_are_those_of_the_five_page_sizes(rt: HostRuntime) {
    let sizes = [
        (1024, 13),
        (2048, 27),
        (4096, 55),
        (8192, 111),
        (16_384, 224),
    ];
    'sizes: for (size, most) in sizes {
        assert_eq!(rt; capacity(size), most);
    }
}

/// Looks whether a page is one with another byte at an offset.
fn look_at_other(rt: &impl Abort, page: &[u8; 1024], id: PageId, at: usize, row: (u8, bool, &str)) {
    let (byte, is_good, what) = row;
    let mut other = *page;
    assert!(rt; at < other.len(), "{what}");
    other[at] = byte;
    assert_eq!(rt; check(&other, id), is_good, "{what}");
}

#[test]
fn a_small_leaf_has_the_bytes_of_the_format(rt: HostRuntime) {
    let id = PageId::new(2, 5);
    let mut page = [7; 1024];
    let mut patch = Patch::none(1024);
    fresh_leaf(&mut page, id);
    insert_at(&mut page, 0, b"ab", 0x0301_0002_0000_0006, &mut patch);
    insert_at(&mut page, 0, b"aa", 0x0001_0002_0000_0007, &mut patch);
    set_next(&mut page, 9, &mut patch);
    let mut bytes = [0; 1024];
    bytes[..18].copy_from_slice(&[5, 0, 0, 0, 2, 0, 1, 0, 2, 0, 2, 0, 0, 0, 0, 0, 9, 0]);
    bytes[32..35].copy_from_slice(&[2, 97, 97]);
    bytes[97..105].copy_from_slice(&[7, 0, 0, 0, 2, 0, 1, 0]);
    bytes[105..108].copy_from_slice(&[2, 97, 98]);
    bytes[170..178].copy_from_slice(&[6, 0, 0, 0, 2, 0, 1, 3]);
    assert_eq!(rt; page.as_slice(), bytes.as_slice());
    assert!(rt; check(&page, id) && next(&page) == 9);
    let rows = [
        (0, 6, false, "another name"),
        (4, 3, false, "another partition's name"),
        (8, 4, false, "another kind"),
        (
            8,
            3,
            false,
            "an inner page whose first child is no page's name",
        ),
        (9, 1, false, "a byte that has to be zero"),
        (10, 0, false, "no items"),
        (10, 1, false, "an item after the last"),
        (10, 3, false, "an item without a key"),
        (11, 1, false, "more items than the page has room for"),
        (12, 1, false, "a byte that has to be zero"),
        (15, 1, false, "a byte that has to be zero"),
        (16, 0, true, "no next leaf"),
        (20, 1, false, "a next leaf past the last index"),
        (24, 1, false, "a byte that has to be zero"),
        (31, 1, false, "a byte that has to be zero"),
        (32, 0, false, "an empty key"),
        (32, 3, true, "a zero that is of the key"),
        (32, 65, false, "a key of 65 bytes"),
        (34, 98, false, "equal keys"),
        (34, 99, false, "falling keys"),
        (35, 1, false, "padding that isn't zero"),
        (96, 1, false, "padding that isn't zero"),
        (97, 0, false, "a link into the first page"),
        (97, 1, true, "a link into another page"),
        (101, 3, false, "a link into another partition"),
        (103, 0, false, "a link without its flag"),
        (103, 2, false, "a link with another flag"),
        (104, 253, true, "a link to another row"),
        (178, 1, false, "a byte after the items"),
        (1023, 1, false, "a byte after the items"),
    ];
    for (at, byte, is_good, what) in rows {
        look_at_other(&rt, &page, id, at, (byte, is_good, what));
    }
}

#[test]
fn a_small_inner_page_has_the_bytes_of_the_format(rt: HostRuntime) {
    let id = PageId::new(2, 6);
    let mut page = [7; 1024];
    let mut patch = Patch::none(1024);
    fresh_inner(&mut page, id, PageId::new(2, 3));
    insert_at(&mut page, 0, b"b", 7, &mut patch);
    set_word(&mut page, 0, 0x0001_0002_0000_0007, &mut patch);
    set_first(&mut page, PageId::new(2, 5), &mut patch);
    let mut bytes = [0; 1024];
    bytes[..16].copy_from_slice(&[6, 0, 0, 0, 2, 0, 1, 0, 3, 0, 1, 0, 0, 0, 0, 0]);
    bytes[16..24].copy_from_slice(&[5, 0, 0, 0, 2, 0, 1, 0]);
    bytes[32..34].copy_from_slice(&[1, 98]);
    bytes[97..105].copy_from_slice(&[7, 0, 0, 0, 2, 0, 1, 0]);
    assert_eq!(rt; page.as_slice(), bytes.as_slice());
    assert!(rt; check(&page, id) && !is_leaf(&page) && first(&page) == PageId::new(2, 5));
    let rows = [
        (8, 2, false, "a leaf whose next leaf is a page's name"),
        (16, 0, false, "a first child that is the first page"),
        (16, 9, true, "another first child"),
        (20, 3, false, "a first child of another partition"),
        (22, 0, false, "a first child without its flag"),
        (23, 1, false, "a first child with item bits"),
        (97, 0, false, "a child that is the first page"),
        (101, 1, false, "a child of another partition"),
        (104, 1, false, "a child with item bits"),
    ];
    for (at, byte, is_good, what) in rows {
        look_at_other(&rt, &page, id, at, (byte, is_good, what));
    }
}

// Puts an item where its key belongs, unless it can't be there.
fn add(page: &mut [u8], key: &[u8], patch: &mut Patch)
    requires page { IsIndexPage page.old }
    requires size { patch.old.page_size ≡ length page.old }
    ensures page { IsIndexPage page.new }
    ensures size { patch.new.page_size ≡ length page.new }
{
    if key.is_empty() || key.len() > KEY_MAX || count(page) >= capacity(page.len() as u32) {
        return;
    }
    if let Found::Before(i) = find(page, key) {
        insert_at(page, i, key, PageId::new(0, 1).0, patch);
    }
}

#[test]
fn keys_that_begin_alike_are_found_apart(rt: HostRuntime) {
    let longest = [97; 64];
    let mut after = longest;
    after[63] = 98;
    let mut page = [0; 1024];
    let mut patch = Patch::none(1024);
    fresh_leaf(&mut page, PageId::new(0, 1));
    let keys = [
        b"ab".as_slice(),
        b"a".as_slice(),
        after.as_slice(),
        [255; 64].as_slice(),
        b"abc".as_slice(),
        longest.as_slice(),
        b"aa".as_slice(),
    ];
    'keys: for key in keys {
        add(&mut page, key, &mut patch);
    }
    let rows = [
        (b"".as_slice(), Found::Before(0)),
        (b"a".as_slice(), Found::At(0)),
        (b"aa".as_slice(), Found::At(1)),
        (b"aaa".as_slice(), Found::Before(2)),
        (longest.as_slice(), Found::At(2)),
        (after.as_slice(), Found::At(3)),
        (b"ab".as_slice(), Found::At(4)),
        (b"abb".as_slice(), Found::Before(5)),
        (b"abc".as_slice(), Found::At(5)),
        (b"b".as_slice(), Found::Before(6)),
        ([255; 64].as_slice(), Found::At(6)),
    ];
    'rows: for (key, place) in rows {
        assert_eq!(rt; find(&page, key), place);
    }
    assert!(rt; check(&page, PageId::new(0, 1)) && count(&page) == 7);
    assert_eq!(rt;
        (key_at(&page, 2), word_at(&page, 2)),
        (longest.as_slice(), 0x0001_0000_0000_0001)
    );
    remove_at(&mut page, 2, &mut patch);
    assert_eq!(rt;
        (count(&page), find(&page, &longest)),
        (6, Found::Before(2))
    );
}

#[test]
fn a_page_that_was_divided_is_joined_again(rt: HostRuntime) {
    let mut page = [0; 1024];
    let mut patch = Patch::none(1024);
    fresh_leaf(&mut page, PageId::new(0, 1));
    'keys: for byte in 0..13 {
        add(&mut page, &[byte], &mut patch);
    }
    assert!(rt; count(&page) == 13 && is_leaf(&page));
    'places: for at in 0..14 {
        let mut left = page;
        let mut right = [7; 1024];
        fresh_leaf(&mut right, PageId::new(0, 2));
        let mut patches = (Patch::none(1024), Patch::none(1024));
        parts_join(&mut left, &mut right, at, &mut patches.0, &mut patches.1);
        assert_eq!(rt; left.as_slice(), page.as_slice());
        assert_eq!(rt; count(&right), 13 - at);
        assert_eq!(rt; check(&right, PageId::new(0, 2)), at < 13);
    }
}

#[test]
fn an_insertion_notes_the_items_from_its_own_on(rt: HostRuntime) {
    let mut page = [0; 4096];
    let mut before = Patch::none(4096);
    let mut patch = Patch::none(4096);
    fresh_leaf(&mut page, PageId::new(2, 5));
    insert_at(&mut page, 0, b"b", 0x0001_0002_0000_0006, &mut before);
    insert_at(&mut page, 0, b"a", 0x0001_0002_0000_0007, &mut patch);
    has_ranges(&rt, &patch, &[(10, 2), (32, 146)]);
}

#[test]
fn a_word_that_is_set_notes_its_eight_bytes(rt: HostRuntime) {
    let mut page = [0; 4096];
    let mut before = Patch::none(4096);
    let mut patch = Patch::none(4096);
    fresh_leaf(&mut page, PageId::new(2, 5));
    insert_at(&mut page, 0, b"b", 0x0001_0002_0000_0006, &mut before);
    set_word(&mut page, 0, 0x0101_0002_0000_0006, &mut patch);
    has_ranges(&rt, &patch, &[(97, 8)]);
}
