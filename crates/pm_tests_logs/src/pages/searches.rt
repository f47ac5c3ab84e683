//! A caller over any pages that is safe whatever their bytes are.

ghost use Rattle.std.specs.Prelude.{◌≡◌, ◌≢◌, ℕ, ◌+◌, ◌<◌, ◌≤◌, Some, IsTrue, IfOk, IfSome, OnErr};
ghost use Rattle.std.specs.Prelude.{OnOk, length};
ghost use Rattle.pm_types.specs.PageSizes.{IsPageSize};
ghost use Rattle.pm_types.specs.declared.limits.TheConstants.{CACHES};
ghost use Rattle.pm_pages.specs.PageLists.{IsReadable};
ghost use Rattle.pm_meta.specs.MetaPages.{IsMetaPage};
ghost use Rattle.pm_pages.specs.Paged.{AllReadable, HasRoomFor};

use pm_btpage::{Found, LEAF_KIND, find};
use pm_meta::{MetaSlot, get};
use pm_pages::Pages;
use pm_types::PageFault;
use pm_types::head::KIND_AT;

/// Looks for a key where a cache's tree is a leaf.
pub fn find_in_leaf<P: Pages>(
    pages: &mut P,
    cache: u8,
    key: &[u8],
) -> Result<Option<Found>, PageFault>
    requires ready { P.ready pages.old }
    requires room { 2 ≤ (P.seen pages.old).spare }
    requires cache { cache < CACHES }
    requires readable { AllReadable (P.seen pages.old) }
    ensures kept { P.kept pages.old pages.new }
    ensures spare { (P.seen pages.old).spare ≤ (P.seen pages.new).spare + 2 }
    ensures readable { AllReadable (P.seen pages.new) }
{
    let root = root_of(pages, cache)?;
    if root == 0 {
        return Ok(None);
    }
    find_on(pages, root, key)
}

// The root of a cache's tree, 0 where there is none.
fn root_of<P: Pages>(pages: &mut P, cache: u8) -> Result<u32, PageFault>
    requires ready { P.ready pages.old }
    requires room { HasRoomFor (P.seen pages.old) 0 }
    requires cache { cache < CACHES }
    requires readable { AllReadable (P.seen pages.old) }
    ensures kept { P.kept pages.old pages.new }
    ensures spare { (P.seen pages.old).spare ≤ (P.seen pages.new).spare + 1 }
    ensures readable { AllReadable (P.seen pages.new) }
{
    match pages.view(0)? {
        None => Ok(0),
        Some(page) => Ok(root_on(page, cache)),
    }
}

fn root_on(page: &[u8], cache: u8) -> u32
    requires page { IsMetaPage page.now }
    requires cache { cache < CACHES }
{
    get(page, MetaSlot::Root(cache))
}

// Looks for a key on a page, if it is a leaf.
fn find_on<P: Pages>(pages: &mut P, index: u32, key: &[u8]) -> Result<Option<Found>, PageFault>
    requires ready { P.ready pages.old }
    requires room { HasRoomFor (P.seen pages.old) index }
    requires other { index ≢ 0 }
    requires readable { AllReadable (P.seen pages.old) }
    ensures kept { P.kept pages.old pages.new }
    ensures spare { (P.seen pages.old).spare ≤ (P.seen pages.new).spare + 1 }
    ensures readable { AllReadable (P.seen pages.new) }
{
    match pages.view(index)? {
        None => Ok(None),
        Some(page) => Ok(find_if_leaf(page, key)),
    }
}

fn find_if_leaf(page: &[u8], key: &[u8]) -> Option<Found>
    requires { IsReadable page.now }
{
    if page[KIND_AT as usize] == LEAF_KIND {
        Some(find(page, key))
    } else {
        None
    }
}
