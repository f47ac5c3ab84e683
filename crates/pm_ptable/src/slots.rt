//! A row of slots in which entries are found by their page's hash: open addressing with linear
//! probing.
//!
//! An entry stands at its page's home or after it, and no slot between the two is empty. The row
//! goes on after the last home, so that no search has to begin anew at the front.

ghost use Rattle.std.specs.Prelude.{◌≡◌, ◌<◌, ◌≤◌, ◌^◌, ◌+◌, ◌⊎◌, length, not, option_map, IsTrue};
ghost use Rattle.std.specs.Prelude.{Some, None, if◌then◌else◌};
ghost use Rattle.std.specs.FinMap as map;
ghost use Rattle.pm_ptable.specs.Slots.{home_of, slot_at, filled, map_of, IsProbeEnd, IsSlotFor, IsRow};
ghost use Rattle.pm_ptable.specs.Slots.{IsSettled, IsSettledBut, IsSingle};

use pm_types::{FrameNo, PageId, Tag};

/// A page with its frame, and the frame's tag.
#[derive(Clone, Copy)]
pub(crate) struct Entry {
    pub(crate) page: PageId,
    pub(crate) frame: FrameNo,
    pub(crate) tag: Tag,
}

pub(crate) type Slot = Option<Entry>;

// 2^64 divided by the golden ratio: its multiples spread pages that follow one another evenly.
const SPREAD: u64 = 0x9E37_79B9_7F4A_7C15;

/// The frame and the tag of the page's entry, if it has one.
pub(crate) fn look_up(slots: &[Slot], homes: usize, page: PageId) -> Option<(FrameNo, Tag)>
    requires { IsRow homes slots.now }
    ensures { result ≡ map.get (map_of slots.now) page.0 }
{
    let at = slot_for(slots, homes, page);
    match &slots[at] {
        Some(entry) => Some((entry.frame, entry.tag)),
        None => None,
    }
}

/// Puts the entry in place of the one that its page has, or else into an empty slot, and answers
/// whether it took one.
pub(crate) fn put(slots: &mut [Slot], homes: usize, entry: Entry) -> bool
    requires row { IsRow homes slots.old }
    requires room { IsTrue (map.contains_key (map_of slots.old) entry.page.0)
        ⊎ (homes + filled slots.old < length slots.old) }
    ensures row { IsRow homes slots.new }
    ensures entries { map_of slots.new
        ≡ map.insert (map_of slots.old) entry.page.0 (entry.frame, entry.tag) }
    ensures is_new { result ≡ not (map.contains_key (map_of slots.old) entry.page.0) }
    ensures filled { filled slots.new ≡ filled slots.old + (if result then 1 else 0) }
{
    let at = slot_for(slots, homes, entry.page);
    let takes = slots[at].is_none();
    slots[at] = Some(entry);
    takes
}

/// Takes the page's entry out, and answers whether there was one.
pub(crate) fn take_out(slots: &mut [Slot], homes: usize, page: PageId) -> bool
    requires { IsRow homes slots.old }
    ensures row { IsRow homes slots.new }
    ensures entries { map_of slots.new ≡ map.remove (map_of slots.old) page.0 }
    ensures was_there { result ≡ map.contains_key (map_of slots.old) page.0 }
    ensures filled { filled slots.old ≡ filled slots.new + (if result then 1 else 0) }
{
    let at = slot_for(slots, homes, page);
    if slots[at].is_none() {
        return false;
    }
    slots[at] = None;
    close_gap(slots, homes, at);
    true
}

// The index of the page's entry, or else of the empty slot where it may be put.
fn slot_for(slots: &[Slot], homes: usize, page: PageId) -> usize
    requires { IsRow homes slots.now }
    ensures index { IsSlotFor homes slots.now page result }
    ensures found { map.get (map_of slots.now) page.0
        ≡ option_map (λ e. (e.frame, e.tag)) (slot_at slots.now result) }
{
    seek(slots, home(page, homes), page)
}

/// Where a page's entry is sought first.
#[tactic(auto, unfolding(crate::specs::Slots::home_of))]
pub(crate) fn home(page: PageId, homes: usize) -> usize
    requires { (0 < homes) × (homes ≤ 2 ^ 32) }
    ensures home { result ≡ home_of homes page }
    ensures within { result < homes }
{
    let hash = page.0.wrapping_mul(SPREAD) >> 32;
    ((hash * homes as u64) >> 32) as usize
}

// The first slot from an index on that is empty or holds the page.
fn seek(slots: &[Slot], from: usize, page: PageId) -> usize
    requires { from ≤ length slots.now }
    ensures { IsProbeEnd slots.now from page result }
{
    'probes: for at in from..slots.len() {
        match &slots[at] {
            None => return at,
            Some(entry) => {
                if entry.page == page {
                    return at;
                }
            }
        }
    }
    slots.len()
}

// Moves the entries after an empty slot up, until no search has to pass an empty one.
fn close_gap(slots: &mut [Slot], homes: usize, gap: usize)
    requires homes { (0 < homes) × (homes ≤ 2 ^ 32) }
    requires gap { (gap < length slots.old) × (slot_at slots.old gap ≡ None) }
    requires settled { IsSettledBut homes slots.old gap }
    requires single { IsSingle slots.old }
    ensures settled { IsSettled homes slots.new }
    ensures single { IsSingle slots.new }
    ensures entries { map_of slots.new ≡ map_of slots.old }
    ensures filled { filled slots.new ≡ filled slots.old }
{
    let mut gap = gap;
    'closes: for at in gap + 1..slots.len() {
        let Some(entry) = slots[at] else {
            return;
        };
        if home(entry.page, homes) <= gap {
            slots[at] = None;
            slots[gap] = Some(entry);
            gap = at;
        }
    }
}
