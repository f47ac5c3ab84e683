//! The page table.

ghost use Rattle.std.specs.Prelude.{◌≡◌, ◌+◌, ◌-◌, ◌<◌, ◌≤◌, ◌⊎◌, IsTrue, IfOk, if◌then◌else◌};
ghost use Rattle.std.specs.FinMap as map;

use crate::slots::{Entry, Slot, look_up, put, take_out};
use pm_types::{FrameNo, PageId, Tag};
use std::alloc::{AllocError, Global};
use std::marker::Model;

/// The most frames of a page table: a frame's number and the room of the slots stay small.
pub const FRAMES_MAX: u32 = 65_536;

// With twice as many homes as entries a search meets two or three slots on average.
const HOMES_PER_FRAME: usize = 2;

/// Which frame has which page. Contracts see it as the map from the pages' numbers to frames and
/// tags, and the number of entries that still fit. It takes no memory after it is made.
#[derive(Drop)]
pub struct PageTable {
    slots: Vec<Slot>,
    homes: usize,
    spare: u32,
}

impl Model for PageTable {
    ghost use Rattle.pm_ptable.specs.PageTable.{Pages, pages_code};
    ghost use Rattle.pm_ptable.specs.Slots.{map_of, IsTable};

    ghost Value = { Pages };

    ghost coded = { pages_code };

    ghost view = { λ t. record { entries = map_of t.slots.items; spare = t.spare } };

    ghost invariant = { λ t. IsTable t.homes t.slots.items t.spare };
}

impl PageTable {
    /// An empty table with room for so many entries. Fails where memory runs out.
    pub fn new(alloc: Global, frames: u32) -> Result<PageTable, AllocError>
        requires some { 1 ≤ frames }
        requires few { frames ≤ FRAMES_MAX }
        ensures entries { IfOk result (λ t. t.entries ≡ map.empty) }
        ensures spare { IfOk result (λ t. t.spare ≡ frames) }
    {
        let homes = HOMES_PER_FRAME * frames as usize;
        let len = homes + frames as usize;
        let mut slots = Vec::with_capacity(alloc, len)?;
        slots.resize(len, None)?;
        Ok(PageTable {
            slots,
            homes,
            spare: frames,
        })
    }

    /// The frame of the page and the frame's tag, where the page has an entry.
    pub fn get(&self, page: PageId) -> Option<(FrameNo, Tag)>
        ensures { result ≡ map.get self.now.entries page.0 }
    {
        look_up(&self.slots, self.homes, page)
    }

    /// Gives the page this frame and tag. An entry that it has is replaced, and takes no room.
    pub fn set(&mut self, page: PageId, frame: FrameNo, tag: Tag)
        requires { IsTrue (map.contains_key self.old.entries page.0) ⊎ (0 < self.old.spare) }
        ensures entries { self.new.entries ≡ map.insert self.old.entries page.0 (frame, tag) }
        ensures spare { self.new.spare ≡ (if map.contains_key self.old.entries page.0
            then self.old.spare else self.old.spare - 1) }
    {
        if put(&mut self.slots, self.homes, Entry { page, frame, tag }) {
            self.spare -= 1;
        }
    }

    /// Removes the page's entry, and answers whether there was one.
    pub fn remove(&mut self, page: PageId) -> bool
        ensures was_there { result ≡ map.contains_key self.old.entries page.0 }
        ensures entries { self.new.entries ≡ map.remove self.old.entries page.0 }
        ensures spare { self.new.spare ≡ self.old.spare + (if result then 1 else 0) }
    {
        let was_there = take_out(&mut self.slots, self.homes, page);
        if was_there {
            self.spare += 1;
        }
        was_there
    }
}
