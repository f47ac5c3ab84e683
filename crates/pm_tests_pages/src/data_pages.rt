//! Data pages as the format says, byte by byte.

ghost use Rattle.std.specs.Prelude.{◌≡◌, length};
ghost use Rattle.pm_data.specs.DataPages.{IsDataPage};
ghost use Rattle.pm_data.specs.Rows.{IsRow};

use crate::looks::has_ranges;
use pm_data::{
    cache_in, check, fits, fresh, insert, key_in, links, remove, replace, room, row, set_links,
    value_in,
};
use pm_types::{PageId, Patch};
use std::process::Abort;

// The row of `put 0 a 1`.
fn first_row() -> [u8; 6]
    ensures { IsRow result }
{
    [0, 1, 1, 0, 0x61, 0x31]
}

// Another value of its key.
fn other_row() -> [u8; 6]
    ensures { IsRow result }
{
    [0, 1, 1, 0, 0x61, 0x39]
}

// A row of the last cache.
fn second_row() -> [u8; 7]
    ensures { IsRow result }
{
    [15, 2, 1, 0, 0x61, 0x62, 0x32]
}

// A row without a value.
fn short_row() -> [u8; 5]
    ensures { IsRow result }
{
    [0, 1, 0, 0, 0x63]
}

// Puts a row into a page that it fits, and gives its item.
fn put<A: Abort>(rt: &A, page: &mut [u8], bytes: &[u8], patch: &mut Patch) -> u8
    requires row { IsRow bytes.now }
    requires page { IsDataPage page.old }
    requires size { patch.old.page_size ≡ length page.old }
    ensures page { IsDataPage page.new }
    ensures size { patch.new.page_size ≡ length page.new }
{
    assert!(rt; fits(page, bytes.len()));
    insert(page, bytes, patch)
}

// Takes a row out of a page that has it.
fn take<A: Abort>(rt: &A, page: &mut [u8], item: u8, patch: &mut Patch)
    requires page { IsDataPage page.old }
    requires size { patch.old.page_size ≡ length page.old }
    ensures page { IsDataPage page.new }
    ensures size { patch.new.page_size ≡ length page.new }
{
    assert!(rt; row(page, item).is_some());
    remove(page, item, patch);
}

#[test]
fn a_page_has_the_bytes_of_the_format(rt: HostRuntime) {
    let mut page = [0xee; 4096];
    let mut patch = Patch::none(4096);
    fresh(&mut page, PageId::new(2, 5));
    assert_eq!(rt; room(&page), 4064);
    set_links(&mut page, 7, 0x0102_0304, &mut patch);
    assert_eq!(rt; links(&page), (7, 0x0102_0304));
    assert_eq!(rt; put(&rt, &mut page, &first_row(), &mut patch), 0);
    assert_eq!(rt; room(&page), 4054);
    let head = [
        5, 0, 0, 0, 2, 0, 1, 0, 4, 0, 1, 0, 0, 0, 0, 0, 7, 0, 0, 0, 4, 3, 2, 1, 0xfa, 0x0f, 0, 0,
        0, 0, 0, 0, 0xfa, 0x0f, 6, 0,
    ];
    assert!(rt; page.starts_with(&head));
    assert!(rt; page.ends_with(&first_row()));
}

#[test]
fn the_largest_page_without_rows_has_low_at_its_end(rt: HostRuntime) {
    let mut page = [0; 16_384];
    fresh(&mut page, PageId::new(0, 1));
    assert_eq!(rt; (page[24], page[25]), (0x00, 0x40));
}

#[test]
fn items_keep_their_numbers_and_the_lowest_is_taken_again(rt: HostRuntime) {
    let mut page = [0; 1024];
    let mut patch = Patch::none(1024);
    let id = PageId::new(0, 1);
    fresh(&mut page, id);
    assert!(rt; !check(&page, id));
    assert_eq!(rt; put(&rt, &mut page, &first_row(), &mut patch), 0);
    assert_eq!(rt; put(&rt, &mut page, &second_row(), &mut patch), 1);
    assert_eq!(rt; put(&rt, &mut page, &short_row(), &mut patch), 2);
    take(&rt, &mut page, 0, &mut patch);
    assert!(rt; check(&page, id));
    assert!(rt; row(&page, 0).is_none() && row(&page, 3).is_none());
    assert_eq!(rt; row(&page, 1), Some(second_row().as_slice()));
    assert_eq!(rt; row(&page, 2), Some(short_row().as_slice()));
    let moved = [0, 1, 0, 0, 0x63, 15, 2, 1, 0, 0x61, 0x62, 0x32];
    assert!(rt; page.ends_with(&moved));
    assert_eq!(rt; put(&rt, &mut page, &first_row(), &mut patch), 0);
    take(&rt, &mut page, 1, &mut patch);
    take(&rt, &mut page, 2, &mut patch);
    assert_eq!(rt; room(&page), 1024 - 32 - 4 - 6);
    assert!(rt; check(&page, id) && !check(&page, PageId::new(0, 2)));
}

#[test]
fn a_row_is_written_over_one_of_its_length(rt: HostRuntime) {
    let mut page = [0; 1024];
    let mut patch = Patch::none(1024);
    fresh(&mut page, PageId::new(0, 1));
    put(&rt, &mut page, &first_row(), &mut patch);
    put(&rt, &mut page, &second_row(), &mut patch);
    let before = room(&page);
    let other = other_row();
    assert!(rt; row(&page, 0).is_some_and(|was| was.len() == other.len()));
    replace(&mut page, 0, &other, &mut patch);
    assert!(rt; page.ends_with(&[15, 2, 1, 0, 0x61, 0x62, 0x32, 0, 1, 1, 0, 0x61, 0x39]));
    assert_eq!(rt; room(&page), before);
}

#[test]
fn a_page_has_254_rows_at_most(rt: HostRuntime) {
    let mut page = [0; 16_384];
    let mut patch = Patch::none(16_384);
    fresh(&mut page, PageId::new(0, 1));
    'rows: for item in 0..254 {
        assert_eq!(rt; put(&rt, &mut page, &short_row(), &mut patch), item);
    }
    assert!(rt; room(&page) == 0 && !fits(&page, 0));
    assert!(rt; check(&page, PageId::new(0, 1)));
    take(&rt, &mut page, 100, &mut patch);
    assert_eq!(rt; put(&rt, &mut page, &short_row(), &mut patch), 100);
}

/// Looks whether a page is one with another byte at an offset.
fn look_at_other(rt: &impl Abort, page: &[u8; 1024], id: PageId, at: usize, row: (u8, bool, &str)) {
    let (byte, is_good, what) = row;
    let mut other = *page;
    assert!(rt; at < other.len(), "{what}");
    other[at] = byte;
    assert_eq!(rt; check(&other, id), is_good, "{what}");
}

#[test]
fn a_page_with_one_wrong_byte_is_refused(rt: HostRuntime) {
    let mut page = [0; 1024];
    let mut patch = Patch::none(1024);
    let id = PageId::new(2, 5);
    fresh(&mut page, id);
    put(&rt, &mut page, &first_row(), &mut patch);
    put(&rt, &mut page, &second_row(), &mut patch);
    put(&rt, &mut page, &short_row(), &mut patch);
    take(&rt, &mut page, 1, &mut patch);
    // The rows now stand at 1018 and 1013, and the slot at 36 is empty.
    let rows = [
        (4, 3, false, "another partition's name"),
        (8, 2, false, "another kind"),
        (9, 1, false, "a byte that has to be zero"),
        (10, 0, false, "no slots"),
        (10, 2, false, "an empty slot at the end"),
        (15, 1, false, "a byte that has to be zero"),
        (16, 9, true, "another neighbour"),
        (24, 0xf4, false, "a gap before the rows"),
        (24, 0xf6, false, "a row before `low`"),
        (31, 1, false, "a byte that has to be zero"),
        (32, 0xf5, false, "two rows at one place"),
        (34, 5, false, "a row that is longer than its slot"),
        (36, 1, false, "a slot with a start and no length"),
        (500, 9, true, "a free byte"),
        (1013, 15, true, "the last cache"),
        (1013, 16, false, "a cache past the last"),
        (1014, 0, false, "a row without a key"),
        (1015, 1, false, "a value past the row's end"),
        (1023, 0x32, true, "another value"),
    ];
    for (at, byte, is_good, what) in rows {
        look_at_other(&rt, &page, id, at, (byte, is_good, what));
    }
}

#[test]
fn an_insertion_notes_the_row_and_what_names_it(rt: HostRuntime) {
    let mut page = [0; 4096];
    let mut patch = Patch::none(4096);
    fresh(&mut page, PageId::new(2, 5));
    put(&rt, &mut page, &first_row(), &mut patch);
    has_ranges(&rt, &patch, &[(10, 2), (24, 2), (32, 4), (4090, 6)]);
}

#[test]
fn a_removal_notes_the_rows_that_moved_and_their_slots(rt: HostRuntime) {
    let mut page = [0; 4096];
    let mut before = Patch::none(4096);
    let mut patch = Patch::none(4096);
    fresh(&mut page, PageId::new(2, 5));
    put(&rt, &mut page, &first_row(), &mut before);
    put(&rt, &mut page, &second_row(), &mut before);
    take(&rt, &mut page, 0, &mut patch);
    has_ranges(&rt, &patch, &[(24, 2), (32, 8), (4089, 7)]);
}

#[test]
fn a_row_has_a_cache_a_key_and_a_value(rt: HostRuntime) {
    let row = second_row();
    assert_eq!(rt; cache_in(&row), 15);
    assert_eq!(rt;
        (key_in(&row), value_in(&row)),
        (b"ab".as_slice(), b"2".as_slice())
    );
}
