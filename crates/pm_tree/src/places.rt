//! Where a key stands in a page of a tree, or would.

ghost use Rattle.std.specs.Prelude.{◌≡◌, ◌≢◌, ℕ, ◌<◌, ◌≤◌, Some, IfOk, OnOk, length, List};
ghost use Rattle.pm_types.specs.Keys.{HasKeyLength};
ghost use Rattle.pm_btpage.specs.declared.layout.TheConstants.{LEAF_KIND};
ghost use Rattle.pm_btpage.specs.IndexPages.{items_of, index_of, key_in, word_in, IsIndexPage};
ghost use Rattle.pm_pages.specs.Rows.{kind_of};
ghost use Rattle.pm_pages.specs.PageLists.{IsReadable};
ghost use Rattle.pm_pages.specs.Paged.{HasRoomFor, AllReadable, HasPageCause};
ghost use Rattle.pm_pages.specs.Edits.{LooksAtPages, HasDiskCause};
ghost use Rattle.pm_tree.specs.Edits.{IsNode};
ghost use Rattle.pm_tree.specs.Places.{IsPlaceOn, IsPlace};

use crate::separator::Separator;
use crate::steps::{child, child_for};
use pm_btpage::{Found, INNER_KIND, LEAF_KIND, capacity, count, find, key_at, word_at};
use pm_pages::Pages;
use pm_types::PageFault;
use pm_types::head::KIND_AT;

/// Where a key stands in a page.
#[derive(Clone, Copy, Debug, PartialEq, Eq, Drop)]
pub enum Place {
    /// This item of a leaf has the key, and this word.
    Held(u16, u64),
    /// The key belongs before this item of a leaf, or after the last, and there is room for it.
    Gap(u16),
    /// The key belongs before this item of a leaf, or after the last, and there is no room for it.
    Full(u16),
    /// The key stands below this child of an inner page, which has this index.
    Below(u16, u32),
    /// The page is of no tree.
    Other,
}

/// Where a key stands in a page.
pub fn place_on(page: &[u8], key: &[u8]) -> Place
    requires { IsReadable page.now }
    ensures { IsPlaceOn page.now key.now result }
{
    let kind = page[KIND_AT as usize];
    if kind == LEAF_KIND {
        return leaf_place(page, key);
    }
    if kind == INNER_KIND {
        let i = child_for(page, key);
        return Place::Below(i, child(page, i));
    }
    Place::Other
}

fn leaf_place(page: &[u8], key: &[u8]) -> Place
    requires page { IsIndexPage page.now }
    requires leaf { kind_of page.now ≡ LEAF_KIND }
    ensures { IsPlaceOn page.now key.now result }
{
    match find(page, key) {
        Found::At(i) => Place::Held(i, word_at(page, i)),
        Found::Before(i) => {
            if count(page) < capacity(page.len() as u32) {
                Place::Gap(i)
            } else {
                Place::Full(i)
            }
        }
    }
}

/// Where a key stands in the page with this index, in a partition of so many pages.
pub fn find_place<P: Pages>(
    pages: &mut P,
    count: u32,
    at: u32,
    key: &[u8],
) -> Result<Place, PageFault>
    requires ready { P.ready pages.old }
    requires room { HasRoomFor (P.seen pages.old) at }
    requires readable { AllReadable (P.seen pages.old) }
    ensures kept { P.kept pages.old pages.new }
    ensures looks { LooksAtPages P.tells (P.seen pages.old) (P.seen pages.new) 1 }
    ensures readable { AllReadable (P.seen pages.new) }
    ensures place { IfOk result (IsPlace (P.seen pages.new) count at key.now) }
    ensures cause { HasPageCause P.tells (P.seen pages.old) (P.seen pages.new).faults at result }
{
    if at == 0 || at >= count {
        return Ok(Place::Other);
    }
    match pages.view(at)? {
        // Not reached: page `at` isn't the first one.
        None => Ok(Place::Other),
        Some(page) => Ok(place_on(page, key)),
    }
}
