//! The page table: pages that collide.

ghost use Rattle.std.specs.Prelude.{◌≡◌};
ghost use Rattle.pm_ptable.specs.Slots.{home_of};

use pm_ptable::PageTable;
use pm_types::{FrameNo, PageId, Tag};
use std::alloc::{AllocError, Global};

const FRAMES: u32 = 64;

// How many homes the table has.
const HOMES: u64 = 128;

// Where a page is sought first: the table's own rule, as the clause says.
#[tactic(auto, unfolding(pm_ptable::specs::Slots::home_of))]
fn home(page: PageId) -> u64
    ensures { result ≡ home_of 128 page }
{
    let hash = page.0.wrapping_mul(0x9E37_79B9_7F4A_7C15) >> 32;
    (hash * HOMES) >> 32
}

// Pages that all have the last home, so that each collides with every other.
fn colliding(alloc: Global) -> Result<Vec<PageId>, AllocError> {
    let mut pages = Vec::new(alloc);
    for index in 0..20_000 {
        let page = PageId::new(0, index);
        if home(page) == HOMES - 1 {
            pages.push(page)?;
        }
    }
    Ok(pages)
}

// What the table has for the page at this index, where the first pages were replaced by those
// 64 indices on.
fn wanted(at: u32, replaced: u32) -> Option<(FrameNo, Tag)> {
    if at < replaced {
        None
    } else if at < FRAMES {
        Some((at, 1))
    } else if at - FRAMES < replaced {
        Some((at - FRAMES, 2))
    } else {
        None
    }
}

#[test]
fn colliding_pages_are_found_at_full_room(rt: HostRuntime) {
    let pages = colliding(rt.alloc()).expect(&rt, "pages");
    assert!(rt; pages.len() >= 128);
    let mut table = PageTable::new(rt.alloc(), FRAMES).expect(&rt, "a page table");
    'fills: for frame in 0..FRAMES {
        table.set(pages[frame as usize], frame, 1);
    }
    'replaces: for frame in 0..FRAMES {
        assert!(rt; table.remove(pages[frame as usize]));
        assert!(rt; !table.remove(pages[frame as usize]));
        table.set(pages[64 + frame as usize], frame, 2);
        for at in 0..128 {
            let found = table.get(pages[at as usize]);
            assert_eq!(rt; found, wanted(at, frame + 1), "page {at} at frame {frame}");
        }
    }
}
