//! What a patch notes of a page.

use pm_types::Patch;
use std::process::Abort;

/// Looks how many ranges a patch has, and whether it is the whole page.
fn look(rt: &impl Abort, patch: &Patch, len: u8, is_whole: bool) {
    assert_eq!(rt; (patch.len(), patch.is_whole()), (len, is_whole));
}

/// Looks that a patch has these ranges and no others.
fn has_ranges(rt: &impl Abort, patch: &Patch, wanted: &[(u16, u16)]) {
    assert_eq!(rt; usize::from(patch.len()), wanted.len(), "{wanted:?}");
    for i in 0..patch.len() {
        assert_eq!(rt;
            Some(&patch.range(i)),
            wanted.get(usize::from(i)),
            "range {i}"
        );
    }
}

#[test]
fn ranges_rise_and_meet_until_they_are_too_many(rt: HostRuntime) {
    let mut patch = Patch::none(1024);
    patch.add(100, 10);
    patch.add(0, 0);
    patch.add(32, 4);
    patch.add(110, 2);
    has_ranges(&rt, &patch, &[(32, 4), (100, 12)]);
    let mut other = Patch::none(1024);
    other.add(36, 64);
    other.add(1023, 1);
    patch.join(&other);
    has_ranges(&rt, &patch, &[(32, 80), (1023, 1)]);
    patch.add(200, 1);
    patch.add(202, 1);
    patch.add(204, 1);
    patch.add(206, 1);
    patch.add(208, 1);
    patch.add(210, 1);
    look(&rt, &patch, 8, false);
    patch.add(212, 1);
    look(&rt, &patch, 0, true);
}

#[test]
fn half_a_page_is_ranges_and_more_is_the_whole(rt: HostRuntime) {
    let mut patch = Patch::none(16_384);
    patch.add(8_192, 8_192);
    look(&rt, &patch, 1, false);
    patch.add(0, 1);
    look(&rt, &patch, 0, true);
}
