//! Copies of due pages that their owners have changed since.

ghost use Rattle.std.specs.Prelude.{◌≡◌, ◌+◌, ◌<◌, ◌≤◌, [], None, Some, length, IfOk, MatchOption};
ghost use Rattle.std.specs.Option.{option_to_list};
ghost use Rattle.pm_flush.specs.Copies.{copy_of, place_of, AddsCopy, RemovesCopy};

use pm_types::PageId;
use std::alloc::{AllocError, Global};
use std::marker::Model;

/// A page, and its bytes as they were when it became due.
#[derive(Drop)]
pub(crate) struct PageCopy {
    pub(crate) page: PageId,
    pub(crate) bytes: Vec<u8>,
}

/// Copies of due pages that their owners have changed since, at most one of a page, in room that is taken once.
/// Contracts see which pages are copied, with their bytes, and the room.
///
/// A page is looked for among all copies, one after the other.
#[derive(Drop)]
pub struct CopyList {
    pages: Vec<PageCopy>,
}

impl Model for CopyList {
    ghost use Rattle.std.specs.Prelude.{map, vec_capacity};
    ghost use Rattle.pm_flush.specs.Copies.{Copies, copied, AreOnce};

    ghost Value = { Copies };

    ghost view = { λ c. record {
      pages = map copied c.pages.items;
      room = vec_capacity c.pages;
    } };

    ghost invariant = { λ c. AreOnce (map copied c.pages.items) };
}

impl CopyList {
    /// No copy, with room for so many. Fails where memory runs out.
    pub fn with_room(alloc: Global, n: u32) -> Result<CopyList, AllocError>
        ensures empty { IfOk result (λ copies. copies.pages ≡ []) }
        ensures room { IfOk result (λ copies. n ≤ copies.room) }
    {
        let pages = Vec::with_capacity(alloc, n as usize)?;
        Ok(CopyList { pages })
    }

    /// Adds the copy of a page that isn't copied yet.
    pub fn add(&mut self, page: PageId, copy: Vec<u8>)
        requires new { copy_of self.old.pages page ≡ None }
        requires room { length self.old.pages < self.old.room }
        ensures { AddsCopy self.old self.new page copy.items }
    {
        self.pages.push_reserved(PageCopy { page, bytes: copy });
    }

    /// Takes the copy of a page out. None comes exactly when the page isn't copied.
    pub fn remove(&mut self, page: PageId) -> Option<Vec<u8>>
        ensures given { MatchOption result (copy_of self.old.pages page ≡ None)
            (λ copy. copy_of self.old.pages page ≡ Some copy.items) }
        ensures removed { RemovesCopy self.old self.new page }
        ensures count { length self.new.pages + length (option_to_list result) ≡ length self.old.pages }
    {
        let at = place(&self.pages, page);
        if at == self.pages.len() {
            return None;
        }
        Some(self.pages.remove(at).bytes)
    }

    /// The copy of a page. None comes exactly when the page isn't copied.
    pub fn get(&self, page: PageId) -> Option<&[u8]>
        ensures { MatchOption result (copy_of self.now.pages page ≡ None)
            (λ copy. copy_of self.now.pages page ≡ Some copy.now) }
    {
        match self.pages.get(place(&self.pages, page)) {
            Some(copy) => Some(copy.bytes.as_slice()),
            None => None,
        }
    }
}

// Where the copy of a page stands, or how many there are.
fn place(pages: &[PageCopy], page: PageId) -> usize
    ensures { result ≡ place_of pages.now page }
{
    'each: for (i, copy) in pages.iter().enumerate() {
        if copy.page == page {
            return i;
        }
    }
    pages.len()
}
