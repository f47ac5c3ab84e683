//! What became of a job's pages.

ghost use Rattle.std.specs.Prelude.{◌≡◌, ◌<◌, ◌∷◌, ◌++◌, [], if◌then◌else◌, vec_len, vec_capacity, IfOk};
ghost use Rattle.pm_flush.specs.Done.{IsEmpty, HasRoomFor, KeepsRoom};

use pm_types::PageId;
use std::alloc::{AllocError, Global};

/// What became of a job's pages, each list in the job's order.
#[derive(Drop)]
pub struct FlushDone {
    /// The pages that were written.
    pub written: Vec<PageId>,
    /// The pages that were left: their frames weren't to be had.
    pub left: Vec<PageId>,
}

impl FlushDone {
    /// Empty lists, each with room for so many pages. Fails where memory runs out.
    pub fn with_room(alloc: Global, pages: u32) -> Result<FlushDone, AllocError>
        ensures empty { IfOk result IsEmpty }
        ensures room { IfOk result (HasRoomFor pages) }
    {
        let written = Vec::with_capacity(alloc, pages as usize)?;
        let left = Vec::with_capacity(alloc, pages as usize)?;
        Ok(FlushDone { written, left })
    }

    /// Notes what became of a page.
    pub(crate) fn note(&mut self, page: PageId, is_written: bool)
        requires written { vec_len self.old.written < vec_capacity self.old.written }
        requires left { vec_len self.old.left < vec_capacity self.old.left }
        ensures written { self.new.written.items
            ≡ self.old.written.items ++ (if is_written then page ∷ [] else []) }
        ensures left { self.new.left.items ≡ self.old.left.items ++ (if is_written then [] else page ∷ []) }
        ensures room { KeepsRoom self.old self.new }
    {
        if is_written {
            self.written.push_reserved(page);
        } else {
            self.left.push_reserved(page);
        }
    }
}
