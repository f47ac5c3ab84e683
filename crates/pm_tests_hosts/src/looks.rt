//! What a test looks at: a function for each kind of value, which says what was there and what was wanted.
//!
//! A test calls these in place of an assertion of its own, since each assertion takes as long to prove as all
//! the rest of a small test.

use std::fmt::Debug;
use std::process::Abort;

/// Looks that this holds.
pub fn holds(rt: &impl Abort, what: &str, is_so: bool, case: &impl Debug) {
    assert!(rt; is_so, "{what}: {case:?}");
}

/// Looks that a number is the one that is wanted.
pub fn same(rt: &impl Abort, what: &str, found: u64, wanted: u64, case: &impl Debug) {
    assert_eq!(rt; found, wanted, "{what}: {case:?}");
}

/// Looks that the bytes are those that are wanted.
pub fn same_bytes(rt: &impl Abort, what: &str, found: &[u8], wanted: &[u8], case: &impl Debug) {
    assert_eq!(rt; found, wanted, "{what}: {case:?}");
}
