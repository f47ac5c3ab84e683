//! Removals from the index of a cache, and its roots.

ghost use Rattle.std.specs.Prelude.{◌≡◌, ◌≢◌, ℕ, ◌<◌, ◌≤◌, List, OnOk, IfOk, IsTrue};
ghost use Rattle.pm_types.specs.declared.limits.TheConstants.{CACHES, ROWS_MAX};
ghost use Rattle.pm_btpage.specs.IndexPages.{Item};
ghost use Rattle.pm_meta.specs.declared.slots.MetaSlot.TheVariants.{Root, Pages};
ghost use Rattle.pm_pages.specs.Trees.{root_of};
ghost use Rattle.pm_pages.specs.Paged.{AllReadable};
ghost use Rattle.pm_pages.specs.Edits.{HasMeta, IsNumberIn};
ghost use Rattle.pm_tree.specs.Indexes.{IsIndex};
ghost use Rattle.pm_pages.specs.SoundPages.{PassesAll, NoBadPage};
ghost use Rattle.pm_tree.specs.Nodes.{nodes_in, IsTreeIn};
ghost use Rattle.pm_tree_del.specs.Causes.{IsHeld, HasRemoveCause};
ghost use Rattle.pm_pages.specs.SoundPages.{IsSound};
ghost use Rattle.pm_tree_del.specs.Roots.{RemovesRootPages, ReplacesRoot, Settles, RemovesIndex, HasGiveCause};

use crate::remove::{Removal, remove_at};
use crate::tops::{Top, find_top};
use pm_meta::MetaSlot;
use pm_pages::{LEVELS_MAX, Pages, find_number, give_page, number, set_number};
use pm_types::{Link, PageFault, PageId};

/// Removes a key from a cache's index, and gives the link that it had, if it was there.
///
/// No page but the root has fewer items than half of what it has room for then: a page that would have fewer
/// shares items with one beside it, or the two are merged. Pages that are needed no more are given back to the
/// reuse chain.
///
/// `Failed` comes only where a call on the disk failed. `BadPage` names a page that is bad, or that names a
/// wrong one: on the way from the root, or below a page whose children are to be mended and don't stand in
/// their order; or the page before one that is given back, where it isn't there. In a tree whose
/// pages pass their checks none is bad, and after `Ok` they pass them still. After an error the
/// pages that were asked for may be half changed.
pub fn tree_remove<P: Pages>(
    pages: &mut P,
    cache: u8,
    key: &[u8],
) -> Result<Option<Link>, PageFault>
    requires ready { P.ready pages.old }
    requires room { 16 ≤ (P.seen pages.old).spare }
    requires cache { cache < CACHES }
    requires readable { AllReadable (P.seen pages.old) }
    ensures kept { P.kept pages.old pages.new }
    ensures readable { AllReadable (P.seen pages.new) }
    ensures changes { OnOk result (RemovesRootPages P.tells (P.seen pages.old) (P.seen pages.new) cache 16) }
    ensures removes { IfOk result (λ was. P.tells → (height : ℕ) (nodes : List ℕ) (items : List Item)
        → IsIndex (P.seen pages.old).pages (root_of (P.seen pages.old).pages cache) height nodes items
        → RemovesIndex (P.seen pages.old).pages (P.seen pages.new).pages cache nodes items key.now was) }
    ensures cause { HasRemoveCause P.tells (P.seen pages.old) (P.seen pages.new) cache result }
    ensures sound { P.tells → PassesAll (P.seen pages.old) → (height : ℕ) (nodes : List ℕ) (items : List Item)
        → IsIndex (P.seen pages.old).pages (root_of (P.seen pages.old).pages cache) height nodes items
        → NoBadPage result }
    ensures passes { OnOk result (P.tells → PassesAll (P.seen pages.old)
        → (P.seen pages.old).max_rows ≤ ROWS_MAX → (height : ℕ) (nodes : List ℕ) (items : List Item)
        → IsIndex (P.seen pages.old).pages (root_of (P.seen pages.old).pages cache) height nodes items
        → PassesAll (P.seen pages.new)) }
{
    // For the proof alone: the partition's number is below 2^16.
    let _part = pages.part();
    match find_number(pages, MetaSlot::Root(cache))? {
        None => Ok(None),
        Some(root) => {
            if root == 0 {
                return Ok(None);
            }
            remove_below(pages, cache, root, key)
        }
    }
}

// Removes a key from the tree at a root.
fn remove_below<P: Pages>(
    pages: &mut P,
    cache: u8,
    root: u32,
    key: &[u8],
) -> Result<Option<Link>, PageFault>
    requires ready { P.ready pages.old }
    requires meta { HasMeta (P.seen pages.old) }
    requires room { 15 ≤ (P.seen pages.old).spare }
    requires cache { cache < CACHES }
    requires readable { AllReadable (P.seen pages.old) }
    requires root { IsNumberIn (P.seen pages.old) (Root cache) root }
    requires some { root ≢ 0 }
    ensures kept { P.kept pages.old pages.new }
    ensures readable { AllReadable (P.seen pages.new) }
    ensures changes { OnOk result (RemovesRootPages P.tells (P.seen pages.old) (P.seen pages.new) cache 15) }
    ensures removes { IfOk result (λ was. P.tells → (height : ℕ) (nodes : List ℕ) (items : List Item)
        → IsIndex (P.seen pages.old).pages root height nodes items
        → RemovesIndex (P.seen pages.old).pages (P.seen pages.new).pages cache nodes items key.now was) }
    ensures cause { HasRemoveCause P.tells (P.seen pages.old) (P.seen pages.new) cache result }
    ensures sound { P.tells → IsSound (P.seen pages.old) → (height : ℕ) (nodes : List ℕ) (items : List Item)
        → IsIndex (P.seen pages.old).pages root height nodes items → NoBadPage result }
{
    // For the proof alone: a page has one of the sizes that pages may have.
    let _size = pages.page_size();
    let count = number(pages, MetaSlot::Pages)?;
    match remove_at(pages, cache, count, 0, root, key, LEVELS_MAX)? {
        Removal::Absent => Ok(None),
        Removal::Kept(was) => Ok(Some(Link(was))),
        Removal::Small(was) => {
            settle(pages, cache, count, root)?;
            Ok(Some(Link(was)))
        }
    }
}

// Replaces a root that has no item: by its only child, or, of a leaf, by none.
fn settle<P: Pages>(pages: &mut P, cache: u8, count: u32, root: u32) -> Result<(), PageFault>
    requires ready { P.ready pages.old }
    requires meta { HasMeta (P.seen pages.old) }
    requires cache { cache < CACHES }
    requires readable { AllReadable (P.seen pages.old) }
    requires held { IsHeld (P.seen pages.old) root }
    requires root { IsNumberIn (P.seen pages.old) (Root cache) root }
    requires count { IsNumberIn (P.seen pages.old) Pages count }
    ensures kept { P.kept pages.old pages.new }
    ensures readable { AllReadable (P.seen pages.new) }
    ensures changes { OnOk result (RemovesRootPages P.tells (P.seen pages.old) (P.seen pages.new) cache 0) }
    ensures settles { OnOk result (Settles P.tells (P.seen pages.old) (P.seen pages.new) cache root) }
    ensures cause { HasRemoveCause P.tells (P.seen pages.old) (P.seen pages.new) cache result }
    ensures sound { P.tells → IsSound (P.seen pages.old) → (height : ℕ)
        → IsTreeIn (nodes_in (P.seen pages.old).pages) height 0 root → NoBadPage result }
{
    match find_top(pages, root)? {
        Top::Full => Ok(()),
        Top::Empty => replace_root(pages, cache, root, 0),
        Top::Only(child) => {
            if child == 0 || child >= count {
                return Err(PageFault::BadPage(PageId::new(pages.part(), root)));
            }
            replace_root(pages, cache, root, child)
        }
        Top::Other => Err(PageFault::BadPage(PageId::new(pages.part(), 0))),
    }
}

// Gives a root back, in place of which there is another, or none.
fn replace_root<P: Pages>(pages: &mut P, cache: u8, root: u32, child: u32) -> Result<(), PageFault>
    requires ready { P.ready pages.old }
    requires meta { HasMeta (P.seen pages.old) }
    requires cache { cache < CACHES }
    requires readable { AllReadable (P.seen pages.old) }
    requires held { IsHeld (P.seen pages.old) root }
    ensures kept { P.kept pages.old pages.new }
    ensures readable { AllReadable (P.seen pages.new) }
    ensures replaces { OnOk result (ReplacesRoot P.tells (P.seen pages.old) (P.seen pages.new) cache
        root child) }
    ensures cause { HasGiveCause P.tells (P.seen pages.old) (P.seen pages.new) root result }
{
    give_page(pages, root)?;
    set_number(pages, MetaSlot::Root(cache), child)
}
