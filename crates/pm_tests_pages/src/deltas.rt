//! The deltas of a page, which are written by hand here, and a page as its file has it.

ghost use Rattle.std.specs.Prelude.{◌≡◌};

use pm_pages::{apply, ranges_len, seal, unseal, write_ranges};
use pm_types::Patch;
use std::process::Abort;

// The patch of bytes 32, 33 and 1,023 of a page of 1,024 bytes.
fn three_bytes() -> Patch
    ensures { result.page_size ≡ 1024 }
{
    let mut patch = Patch::none(1024);
    patch.add(32, 2);
    patch.add(1023, 1);
    patch
}

// The page, with 7, 8 and 9 in those places.
fn changed_page() -> [u8; 1024] {
    let mut page = [0; 1024];
    page[32] = 7;
    page[33] = 8;
    page[1023] = 9;
    page
}

// The delta of it.
fn delta_of(rt: &impl Abort, patch: &Patch) -> [u8; 12]
    requires { patch.now.page_size ≡ 1024 }
{
    let mut delta = [0; 12];
    assert!(rt; !patch.is_whole() && patch.len() == 2);
    assert!(rt; ranges_len(patch) == delta.len());
    write_ranges(&changed_page(), patch, &mut delta);
    delta
}

#[test]
fn a_delta_has_each_range_with_its_place_and_length(rt: HostRuntime) {
    let delta = delta_of(&rt, &three_bytes());
    let wanted = [2, 32, 0, 2, 0, 7, 8, 255, 3, 1, 0, 9];
    assert_eq!(rt; delta, wanted);
    let mut before = [0; 1024];
    assert!(rt; apply(&delta, &mut before));
    assert_eq!(rt; before.as_slice(), changed_page().as_slice());
}

// Bytes that are no delta, and why.
const REFUSED: [(&[u8], &str); 12] = [
    (b"", "nothing"),
    (b"\x00", "no range"),
    (b"\x01", "a range without its head"),
    (b"\x01\x00\x00\x00\x00", "a range without a byte"),
    (b"\x01\x00\x00\x02\x00x", "a range that is cut off"),
    (b"\x01\x00\x00\x01\x00xy", "a byte after the last range"),
    (b"\x02\x00\x00\x01\x00x", "a range too few"),
    (
        b"\x01\x00\x00\x01\x00x\x01\x00\x01\x00y",
        "a range too many",
    ),
    (
        b"\x02\x04\x00\x02\x00xy\x05\x00\x01\x00z",
        "ranges that overlap",
    ),
    (
        b"\x02\x04\x00\x01\x00x\x03\x00\x01\x00y",
        "ranges that fall",
    ),
    (b"\x01\xff\x03\x02\x00xy", "a range past the page"),
    (b"\x01\xff\xff\x01\x00x", "a range far past the page"),
];

// Whether these bytes are applied to a page of this byte, and the page then.
fn applied(delta: &[u8], byte: u8) -> (bool, [u8; 1024]) {
    let mut page = [byte; 1024];
    let is_applied = apply(delta, &mut page);
    (is_applied, page)
}

// Looks for these bytes as refused, and for the page as it was.
fn look_at_refused(rt: &impl Abort, delta: &[u8], what: &str) {
    let (is_applied, page) = applied(delta, 3);
    assert!(rt; !is_applied, "{what}");
    assert!(rt; page == [3; 1024], "{what}");
}

#[test]
fn bytes_that_are_no_delta_change_nothing(rt: HostRuntime) {
    for (delta, what) in REFUSED {
        look_at_refused(&rt, delta, what);
    }
}

#[test]
fn a_delta_may_have_ranges_that_touch_and_end_with_the_page(rt: HostRuntime) {
    let mut page = [3; 1024];
    assert!(rt; apply(b"\x02\x00\x00\x01\x00x\x01\x00\x01\x00y", &mut page));
    assert_eq!(rt; &page[0..3], [b'x', b'y', 3].as_slice());
    assert!(rt; apply(b"\x01\xff\x03\x01\x00z", &mut page));
    assert_eq!(rt; page[1023], b'z');
}

#[test]
fn version_1_has_the_page_itself_in_its_file(rt: HostRuntime) {
    let mut page = [5; 1024];
    seal(&mut page);
    assert!(rt; page.iter().all(|byte| *byte == 5));
    assert!(rt; unseal(&mut page, 1));
    assert!(rt; page.iter().all(|byte| *byte == 5));
}
