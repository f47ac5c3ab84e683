//! Look-ups in the page table.

use crate::lookups::{frame_at, page_in};
use pm_ptable::{FRAMES_MAX, PageTable};
use std::alloc::{AllocError, Global};

/// The sum of the frames that so many look-ups find.
pub fn run(alloc: Global, count: u32) -> Result<u64, AllocError> {
    let table = filled(alloc)?;
    let mut sum = 0u64;
    for turn in 0..count {
        if let Some((frame, _)) = table.get(page_in(frame_at(turn))) {
            sum = sum.wrapping_add(u64::from(frame));
        }
    }
    Ok(sum)
}

// A table with an entry for each frame.
fn filled(alloc: Global) -> Result<PageTable, AllocError> {
    let mut table = PageTable::new(alloc, FRAMES_MAX)?;
    'frames: for frame in 0..FRAMES_MAX {
        table.set(page_in(frame), frame, 1);
    }
    Ok(table)
}
