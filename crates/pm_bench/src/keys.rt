//! The keys that are put, looked for and removed, the same in a tree and in the map beside it.

use pm_types::Key;
use std::alloc::{AllocError, Global};

// An odd number far from any power of 2: its multiples are all different, and rise in no order.
const STEP: u64 = 0x9e37_79b9_7f4a_7c15;

/// So many different keys of eight bytes.
pub fn keys(alloc: Global, count: u32) -> Result<Vec<Key>, AllocError> {
    let mut keys = Vec::new(alloc);
    for i in 0..count {
        let bytes = u64::from(i).wrapping_mul(STEP).to_be_bytes();
        keys.push(Key::of(alloc, &bytes)?)?;
    }
    Ok(keys)
}

/// The count of the keys, which nothing is done with.
pub fn run(alloc: Global, count: u32) -> Result<u64, AllocError> {
    Ok(keys(alloc, count)?.len() as u64)
}
