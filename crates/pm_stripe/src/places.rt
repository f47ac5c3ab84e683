//! The frames in which a worker keeps its pages.

ghost use Rattle.std.specs.Prelude.{◌≡◌, ◌+◌, ◌≤◌, ◌<◌, Some, None, set, length, slice_get, IfOk, MatchOption};
ghost use Rattle.std.specs.FinMap as map;
ghost use Rattle.pm_ptable.specs.declared.table.TheConstants.{FRAMES_MAX};
ghost use Rattle.pm_stripe.specs.PlacedPages.{AgreeOnPages, kept_count, KeepsNone, forgotten};
ghost use Rattle.pm_stripe.specs.PlacedPages.{KeepsNoPage, AreAllEmpty};

use pm_ptable::{FRAMES_MAX, PageTable};
use pm_types::{FrameNo, PageId, Tag};
use std::alloc::{AllocError, Global};

/// Which frame keeps which page, both ways. Each page is in one frame, and each frame has one page. It takes
/// no memory after it is made.
#[derive(Drop)]
pub(crate) struct Places {
    pub(crate) table: PageTable,
    /// The page of each frame, by the frame's number.
    pub(crate) pages: Vec<Option<PageId>>,
    ghost agree: { AgreeOnPages table.entries pages.items },
    ghost few: { length pages.items ≤ FRAMES_MAX },
    ghost room: { table.spare + kept_count pages.items ≡ length pages.items },
}

impl Places {
    /// No page yet, of so many frames. Fails where memory runs out.
    pub fn new(alloc: Global, frames: u32) -> Result<Places, AllocError>
        requires some { 1 ≤ frames }
        requires few { frames ≤ FRAMES_MAX }
        ensures empty { IfOk result (λ places. places.table.entries ≡ map.empty) }
        ensures frames { IfOk result (λ places. length places.pages.items ≡ frames) }
    {
        let table = PageTable::new(alloc, frames)?;
        let pages = vec![in alloc; None; frames as usize]?;
        Ok(Places { table, pages })
    }

    /// How many frames there are.
    pub fn frames(&self) -> u32
        ensures { result ≡ length self.now.pages.items }
    {
        self.pages.len() as u32
    }

    /// The frame that keeps the page, and the frame's tag.
    pub fn get(&self, page: PageId) -> Option<(FrameNo, Tag)>
        ensures { result ≡ map.get self.now.table.entries page.0 }
    {
        self.table.get(page)
    }

    /// The page that the frame keeps, and the frame's tag.
    pub fn page_in(&self, frame: FrameNo) -> Option<(PageId, Tag)>
        requires { frame < length self.now.pages.items }
        ensures { MatchOption result (KeepsNone self.now.table.entries frame)
            (λ found. map.get self.now.table.entries found.0.0 ≡ Some (frame, found.1)) }
    {
        let page = self.pages[frame as usize]?;
        let (_, tag) = self.table.get(page)?;
        Some((page, tag))
    }

    /// The frame keeps the page from now on, under this tag.
    pub fn put(&mut self, page: PageId, frame: FrameNo, tag: Tag)
        requires empty { slice_get self.old.pages.items frame ≡ Some None }
        requires unnamed { map.get self.old.table.entries page.0 ≡ None }
        ensures table { self.new.table.entries ≡ map.insert self.old.table.entries page.0 (frame, tag) }
        ensures pages { self.new.pages.items ≡ set self.old.pages.items frame (Some page) }
    {
        self.table.set(page, frame, tag);
        self.pages[frame as usize] = Some(page);
    }

    /// The frame keeps no page from now on.
    pub fn forget(&mut self, frame: FrameNo)
        requires { frame < length self.old.pages.items }
        ensures table { self.new.table.entries
            ≡ forgotten self.old.table.entries (slice_get self.old.pages.items frame) }
        ensures pages { self.new.pages.items ≡ set self.old.pages.items frame None }
    {
        if let Some(page) = self.pages[frame as usize] {
            self.table.remove(page);
            self.pages[frame as usize] = None;
        }
    }

    /// No frame keeps a page from now on.
    pub fn clear(&mut self)
        ensures count { length self.new.pages.items ≡ length self.old.pages.items }
        ensures none { KeepsNoPage self.new.table.entries }
        ensures empty { AreAllEmpty self.new.pages.items }
    {
        'frames: for frame in 0..self.frames() {
            self.forget(frame);
        }
    }
}
