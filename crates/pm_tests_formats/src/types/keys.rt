//! The order of keys.

use pm_types::{KEY_MAX, Key, Value};
use std::cmp::Ordering;
use std::process::Abort;

/// A key of these bytes.
fn key(rt: &(impl Abort + AllocGlobal), bytes: &[u8]) -> Key {
    assert!(rt; !bytes.is_empty() && bytes.len() <= KEY_MAX);
    Key::of(rt.alloc(), bytes).expect(rt, "a key")
}

#[test]
fn keys_are_ordered_by_unsigned_bytes_a_proper_prefix_first(rt: HostRuntime) {
    let rows: [(&[u8], &[u8], Ordering); 5] = [
        (b"a", b"a", Ordering::Equal),
        (b"a", b"aa", Ordering::Less),
        (b"b", b"aa", Ordering::Greater),
        (b"\x7f", b"\x80", Ordering::Less),
        (b"\xff", b"\x00\x00", Ordering::Greater),
    ];
    for (one, other, order) in rows {
        let (a, b) = (key(&rt, one), key(&rt, other));
        assert_eq!(rt; a.cmp(&b), order, "{one:?} and {other:?}");
        assert_eq!(rt; a == b, order == Ordering::Equal, "{one:?} and {other:?}");
    }
    let empty = Value::of(rt.alloc(), b"").expect(&rt, "a value");
    assert_eq!(rt; empty.bytes().len(), 0);
}
