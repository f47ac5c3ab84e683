//! Look-ups in std's `HashMap`, with room for all entries from the start.

use crate::lookups::{frame_at, page_in};
use pm_ptable::FRAMES_MAX;
use pm_types::{FrameNo, PageId, Tag};
use std::alloc::{AllocError, Global};
use std::collections::HashMap;

type Pages = HashMap<PageId, (FrameNo, Tag)>;

/// The sum of the frames that so many look-ups find.
pub fn run(alloc: Global, count: u32) -> Result<u64, AllocError> {
    let pages = filled(alloc)?;
    let mut sum = 0u64;
    for turn in 0..count {
        if let Some((frame, _)) = pages.get(&page_in(frame_at(turn))) {
            sum = sum.wrapping_add(u64::from(*frame));
        }
    }
    Ok(sum)
}

// A map with an entry for each frame.
fn filled(alloc: Global) -> Result<Pages, AllocError> {
    let mut pages = Pages::with_capacity(alloc, FRAMES_MAX as usize)?;
    for frame in 0..FRAMES_MAX {
        pages.insert(page_in(frame), (frame, 1))?;
    }
    Ok(pages)
}
