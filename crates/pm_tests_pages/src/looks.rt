//! What a test looks at: a function that says what was there and what was wanted.

use pm_types::Patch;
use std::process::Abort;

/// Looks that a patch has these ranges and no others.
pub fn has_ranges(rt: &impl Abort, patch: &Patch, wanted: &[(u16, u16)]) {
    assert!(rt;
        !patch.is_whole() && usize::from(patch.len()) == wanted.len(),
        "{wanted:?}"
    );
    for i in 0..patch.len() {
        assert_eq!(rt;
            Some(&patch.range(i)),
            wanted.get(usize::from(i)),
            "range {i}"
        );
    }
}
