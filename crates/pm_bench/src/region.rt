//! A region, made and closed.

use pm_ptable::FRAMES_MAX;
use pm_region::Region;
use pm_types::PAGE_SIZE_MAX;
use std::alloc::{AllocError, Global};

/// The sum of the leases' numbers and lengths in a region of so many frames, of the largest pages.
pub fn run(alloc: Global, count: u32) -> Result<u64, AllocError> {
    let frames = count.clamp(1, FRAMES_MAX);
    let (region, leases) = Region::new(alloc, frames, PAGE_SIZE_MAX as u32)?;
    let mut sum = 0u64;
    for lease in &leases {
        sum = sum.wrapping_add(u64::from(lease.number()));
        sum = sum.wrapping_add(lease.bytes().len() as u64);
    }
    region.close(leases);
    Ok(sum)
}
