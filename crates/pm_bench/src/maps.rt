//! Puts, look-ups and removals in std's `BTreeMap`.

use crate::keys::keys;
use pm_types::Key;
use std::alloc::{AllocError, Global};
use std::collections::BTreeMap;

type Map = BTreeMap<Key, u64>;

/// The count of the keys that are put.
pub fn puts(alloc: Global, count: u32) -> Result<u64, AllocError> {
    let keys = keys(alloc, count)?;
    Ok(filled(alloc, &keys)?.len() as u64)
}

/// The sum of what all keys have, each of which is put and then looked for.
pub fn gets(alloc: Global, count: u32) -> Result<u64, AllocError> {
    let keys = keys(alloc, count)?;
    let map = filled(alloc, &keys)?;
    let mut sum = 0u64;
    for key in &keys {
        if let Some(link) = map.get(key) {
            sum = sum.wrapping_add(*link);
        }
    }
    Ok(sum)
}

/// The sum of what all keys had, each of which is put and then removed.
pub fn removes(alloc: Global, count: u32) -> Result<u64, AllocError> {
    let keys = keys(alloc, count)?;
    let mut map = filled(alloc, &keys)?;
    let mut sum = 0u64;
    for key in &keys {
        if let Some(link) = map.remove(key) {
            sum = sum.wrapping_add(link);
        }
    }
    Ok(sum)
}

// A map with these keys, of which each has its number.
fn filled(alloc: Global, keys: &Vec<Key>) -> Result<Map, AllocError> {
    let mut map = Map::new(alloc);
    let mut link = 0u64;
    for key in keys {
        map.insert(Key::of(alloc, key.bytes())?, link)?;
        link = link.wrapping_add(1);
    }
    Ok(map)
}
