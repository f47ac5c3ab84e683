//! The pages of a checkpoint, in memory that is taken before it begins.

ghost use Rattle.std.specs.Prelude.{◌≡◌, ◌<◌, ◌≤◌, ◌↔◌, IsTrue, IfOk, IsSome, length, false, true};
ghost use Rattle.std.specs.Prelude.{Some, None, [], MatchOption};
ghost use Rattle.pm_core.specs.PageSets.{no_page, with_one, has_page, has_part, without_page, left_after};

use pm_types::PageId;
use std::alloc::{AllocError, Global};
use std::marker::Model;

/// Pages, each once, with room for more.
#[derive(Drop)]
pub struct PageSet {
    pub(crate) pages: Vec<PageId>,
    // The same pages, in a list of their own.
    pub(crate) left: Vec<PageId>,
}

impl Model for PageSet {
    ghost use Rattle.std.specs.Prelude.{◌≡◌, ◌-◌, ◌≤◌, length};
    ghost use Rattle.std.specs.Vec.{vec_capacity};
    ghost use Rattle.pm_core.specs.PageSets.{AreOnce, PageList};

    ghost Value = { PageList };

    ghost view = { λ set. record {
      pages = set.pages.items;
      spare = vec_capacity set.pages - length set.pages.items;
    } };

    ghost invariant = { λ set. (set.left.items ≡ set.pages.items)
        × (vec_capacity set.left ≡ vec_capacity set.pages)
        × AreOnce set.pages.items };
}

impl PageSet {
    /// No page, with room for `n`.
    pub fn with_room(alloc: Global, n: u32) -> Result<PageSet, AllocError>
        ensures { IfOk result (λ set. set ≡ no_page n) }
    {
        let pages = Vec::with_capacity(alloc, n as usize)?;
        let left = Vec::with_capacity(alloc, n as usize)?;
        Ok(PageSet { pages, left })
    }

    /// Adds a page, without taking memory.
    #[tactic(auto, using(crate::proofs::Once::once_push))]
    pub fn add(&mut self, page: PageId)
        requires new { has_page page self.old.pages ≡ false }
        requires room { 0 < self.old.spare }
        ensures { self.new ≡ with_one page self.old }
    {
        self.pages.push_reserved(page);
        self.left.push_reserved(page);
    }
}
