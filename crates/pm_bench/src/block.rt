//! A vector of zeros, as many as a region of so many frames has.

use pm_ptable::FRAMES_MAX;
use pm_types::PAGE_SIZE_MAX;
use std::alloc::{AllocError, Global};

/// How many zeros there are.
pub fn run(alloc: Global, count: u32) -> Result<u64, AllocError> {
    let frames = count.clamp(1, FRAMES_MAX);
    let len = frames as usize * PAGE_SIZE_MAX;
    let mut zeros = Vec::with_capacity(alloc, len)?;
    zeros.resize(len, 0u8)?;
    Ok(zeros.len() as u64)
}
