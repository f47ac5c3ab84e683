//! The order of keys, and the partition that a key belongs to.

use pm_model::{CacheKey, part_of};
use pm_types::{KEY_MAX, Key};
use std::process::Abort;
use std::test::Fail;

/// A key of a cache.
fn cache_key(rt: &(impl Abort + AllocGlobal), cache: u8, bytes: &[u8]) -> Result<CacheKey, Fail> {
    assert!(rt; !bytes.is_empty() && bytes.len() <= KEY_MAX);
    let key = Key::of(rt.alloc(), bytes)?;
    Ok(CacheKey { cache, key })
}

/// Keys of caches, each above the one before it.
const RISING: [(u8, &[u8]); 9] = [
    (0, b"b"),
    (1, b"A"),
    (1, b"AB"),
    (1, b"B"),
    (1, b"a"),
    (1, b"\x80"),
    (1, b"\xff\x00"),
    (2, b"A"),
    (10, b"A"),
];

#[test]
fn keys_go_by_cache_then_by_bytes_with_a_prefix_first(rt: HostRuntime) -> Result<(), Fail> {
    let mut below = cache_key(&rt, 0, b"a")?;
    for (cache, bytes) in RISING {
        let next = cache_key(&rt, cache, bytes)?;
        assert!(rt; below < next, "{cache} {bytes:?}");
        assert!(rt; below != next, "{cache} {bytes:?}");
        below = next;
    }
    Ok(())
}

/// The partition of a key, of each of six numbers of them. No two of these have a common factor, and their
/// product is above 2^32, so that the hash is known from what it leaves by each.
fn partitions_of(key: &[u8]) -> [u32; 6] {
    [
        u32::from(part_of(key, 64)),
        u32::from(part_of(key, 63)),
        u32::from(part_of(key, 61)),
        u32::from(part_of(key, 59)),
        u32::from(part_of(key, 55)),
        u32::from(part_of(key, 53)),
    ]
}

/// What a hash leaves by each of the six numbers.
fn left_of(hash: u32) -> [u32; 6] {
    [
        hash % 64,
        hash % 63,
        hash % 61,
        hash % 59,
        hash % 55,
        hash % 53,
    ]
}

// Published values of this hash.
#[test]
fn known_bytes_have_their_published_hashes(rt: HostRuntime) {
    let rows = [
        (b"".as_slice(), 0x811c_9dc5),
        (b"a", 0xe40c_292c),
        (b"foobar", 0xbf9c_f968),
    ];
    for (bytes, hash) in rows {
        assert_eq!(rt; partitions_of(bytes), left_of(hash), "{bytes:?}");
    }
    assert_eq!(rt; part_of(b"foobar", 64), 0x28);
    assert_eq!(rt; part_of(b"foobar", 1), 0);
}
