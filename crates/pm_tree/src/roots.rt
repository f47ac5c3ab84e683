//! Puts into the index of a cache, and its roots.

ghost use Rattle.std.specs.Prelude.{◌≡◌, ◌≢◌, ℕ, ◌+◌, ◌-◌, ◌*◌, ◌<◌, ◌≤◌, List, Option, Some, None};
ghost use Rattle.std.specs.Prelude.{IfOk, OnOk, IsTrue, length};
ghost use Rattle.std.specs.Option.{option_map};
ghost use Rattle.pm_types.specs.declared.limits.TheConstants.{CACHES};
ghost use Rattle.pm_types.specs.Keys.{HasKeyLength};
ghost use Rattle.pm_btpage.specs.IndexPages.{Item};
ghost use Rattle.pm_btpage.specs.Stored.{IsLink};
ghost use Rattle.pm_meta.specs.declared.slots.MetaSlot.TheVariants.{Root, Pages};
ghost use Rattle.pm_pages.specs.Trees.{root_of};
ghost use Rattle.pm_pages.specs.Paged.{AllReadable};
ghost use Rattle.pm_pages.specs.Edits.{HasMeta, IsNumberIn};
ghost use Rattle.pm_pages.specs.SparePages.{HasTakeCause};
ghost use Rattle.pm_types.specs.declared.page_id.Link.{Link};
ghost use Rattle.pm_tree.specs.Indexes.{IsIndex, link_in};
ghost use Rattle.pm_pages.specs.SoundPages.{PassesAll, NoBadPage, MayTake};
ghost use Rattle.pm_tree.specs.SoundPuts.{HasSparePages, MayPutBelow};
ghost use Rattle.pm_pages.specs.StoredPages.{IsStored};
ghost use Rattle.pm_tree.specs.StoredPuts.{MayPutKey};
ghost use Rattle.pm_tree.specs.Roots.{MakesRoot, MakesTop, PutsIndex, PutsRootPages, HasGrowCause};
ghost use Rattle.pm_tree.specs.Roots.{HasTreePutCause};

use crate::edits::{Edit, make_edit, write_blank};
use crate::get::link_of;
use crate::inner::child_name;
use crate::put::{Part, Put, put_at};
use pm_meta::MetaSlot;
use pm_pages::{LEVELS_MAX, Pages, new_page, number, set_number};
use pm_types::{Link, PageFault, PageId};

/// Puts a link at a key of a cache's index, and gives the one that the key had. The meta page was
/// asked for before.
///
/// `Failed` comes only where a call on the disk failed. `BadPage` names a page that is bad, or that names a
/// wrong one: on the way from the root, the meta page where it names no page that can be taken, a page without
/// a place for a child that was divided; or the root of a tree that has as many levels as it may have. Where
/// the key is there in a tree whose pages pass their checks none is bad; and where it isn't there,
/// none is bad if 17 more pages can be taken. Then, after `Ok`, all pages pass their checks still,
/// where the link names a row of a page of this partition. After an error the pages that were asked
/// for may be half changed.
pub fn tree_put<P: Pages>(
    pages: &mut P,
    cache: u8,
    key: &[u8],
    link: Link,
) -> Result<Option<Link>, PageFault>
    requires ready { P.ready pages.old }
    requires meta { HasMeta (P.seen pages.old) }
    requires room { 17 ≤ (P.seen pages.old).spare }
    requires cache { cache < CACHES }
    requires key { HasKeyLength key.now }
    requires readable { AllReadable (P.seen pages.old) }
    ensures kept { P.kept pages.old pages.new }
    ensures readable { AllReadable (P.seen pages.new) }
    ensures changes { OnOk result (PutsRootPages P.tells (P.seen pages.old) (P.seen pages.new) cache 17
        (IsLink (P.seen pages.old).part link.0)) }
    ensures puts { IfOk result (λ was. P.tells → (height : ℕ) (nodes : List ℕ) (items : List Item)
        → IsIndex (P.seen pages.old).pages (root_of (P.seen pages.old).pages cache) height nodes items
        → PutsIndex (P.seen pages.old).pages (P.seen pages.new).pages cache nodes items key.now link.0 was) }
    ensures cause { HasTreePutCause P.tells (P.seen pages.old) (P.seen pages.new) cache result }
    ensures sound { P.tells → PassesAll (P.seen pages.old) → (height : ℕ) (nodes : List ℕ) (items : List Item)
        → IsIndex (P.seen pages.old).pages (root_of (P.seen pages.old).pages cache) height nodes items
        → (held : Link) → link_in items key.now ≡ Some held → NoBadPage result }
    ensures sound_with_room { P.tells → HasSparePages (P.seen pages.old) 17
        → (height : ℕ) (nodes : List ℕ) (items : List Item)
        → IsIndex (P.seen pages.old).pages (root_of (P.seen pages.old).pages cache) height nodes items
        → length items ≤ (P.seen pages.old).max_rows → NoBadPage result }
    ensures passes { OnOk result (P.tells → IsLink (P.seen pages.old).part link.0
        → MayPutKey (P.seen pages.old) cache key.now → PassesAll (P.seen pages.new)) }
{
    // For the proof alone: the partition's number is below 2^16.
    let _part = pages.part();
    let root = number(pages, MetaSlot::Root(cache))?;
    if root == 0 {
        plant(pages, cache, key, link)
    } else {
        put_below(pages, cache, root, key, link)
    }
}

// Puts the first item into an index: its root is a new leaf.
fn plant<P: Pages>(
    pages: &mut P,
    cache: u8,
    key: &[u8],
    link: Link,
) -> Result<Option<Link>, PageFault>
    requires ready { P.ready pages.old }
    requires meta { HasMeta (P.seen pages.old) }
    requires room { 1 ≤ (P.seen pages.old).spare }
    requires cache { cache < CACHES }
    requires key { HasKeyLength key.now }
    requires readable { AllReadable (P.seen pages.old) }
    requires root { IsNumberIn (P.seen pages.old) (Root cache) 0 }
    ensures kept { P.kept pages.old pages.new }
    ensures readable { AllReadable (P.seen pages.new) }
    ensures changes { OnOk result (PutsRootPages P.tells (P.seen pages.old) (P.seen pages.new) cache 17
        (IsLink (P.seen pages.old).part link.0)) }
    ensures puts { IfOk result (λ was. P.tells → (height : ℕ) (nodes : List ℕ) (items : List Item)
        → IsIndex (P.seen pages.old).pages 0 height nodes items
        → PutsIndex (P.seen pages.old).pages (P.seen pages.new).pages cache nodes items key.now link.0 was) }
    ensures cause { HasTreePutCause P.tells (P.seen pages.old) (P.seen pages.new) cache result }
    ensures sound { MayTake P.tells (P.seen pages.old) → NoBadPage result }
{
    make_root(pages, cache, None, key, link.0)?;
    Ok(None)
}

// Puts an item into the tree at a root.
fn put_below<P: Pages>(
    pages: &mut P,
    cache: u8,
    root: u32,
    key: &[u8],
    link: Link,
) -> Result<Option<Link>, PageFault>
    requires ready { P.ready pages.old }
    requires meta { HasMeta (P.seen pages.old) }
    requires room { 17 ≤ (P.seen pages.old).spare }
    requires cache { cache < CACHES }
    requires key { HasKeyLength key.now }
    requires readable { AllReadable (P.seen pages.old) }
    requires root { IsNumberIn (P.seen pages.old) (Root cache) root }
    requires some { root ≢ 0 }
    ensures kept { P.kept pages.old pages.new }
    ensures readable { AllReadable (P.seen pages.new) }
    ensures changes { OnOk result (PutsRootPages P.tells (P.seen pages.old) (P.seen pages.new) cache 17
        (IsLink (P.seen pages.old).part link.0)) }
    ensures puts { IfOk result (λ was. P.tells → (height : ℕ) (nodes : List ℕ) (items : List Item)
        → IsIndex (P.seen pages.old).pages root height nodes items
        → PutsIndex (P.seen pages.old).pages (P.seen pages.new).pages cache nodes items key.now link.0 was) }
    ensures cause { HasTreePutCause P.tells (P.seen pages.old) (P.seen pages.new) cache result }
    ensures sound { P.tells → PassesAll (P.seen pages.old) → (height : ℕ) (nodes : List ℕ) (items : List Item)
        → IsIndex (P.seen pages.old).pages root height nodes items
        → (held : Link) → link_in items key.now ≡ Some held → NoBadPage result }
    ensures passes { OnOk result (P.tells → (height : ℕ) (nodes : List ℕ) (items : List Item)
        → IsIndex (P.seen pages.old).pages root height nodes items
        → (held : Link) → link_in items key.now ≡ Some held
        → IsLink (P.seen pages.old).part link.0 → IsStored (P.seen pages.old) → IsStored (P.seen pages.new)) }
    ensures sound_with_room { MayPutBelow P.tells (P.seen pages.old) root → NoBadPage result }
{
    let count = number(pages, MetaSlot::Pages)?;
    let put = put_at(pages, cache, count, 0, root, key, link.0, LEVELS_MAX)?;
    match put {
        Put::Kept(was) => Ok(link_of(was)),
        Put::Split(part) => grow(pages, cache, root, part),
    }
}

// Makes a root above one that was divided.
fn grow<P: Pages>(
    pages: &mut P,
    cache: u8,
    root: u32,
    part: Part,
) -> Result<Option<Link>, PageFault>
    requires ready { P.ready pages.old }
    requires meta { HasMeta (P.seen pages.old) }
    requires room { 1 ≤ (P.seen pages.old).spare }
    requires cache { cache < CACHES }
    requires readable { AllReadable (P.seen pages.old) }
    requires levels { part.levels < 8 }
    ensures kept { P.kept pages.old pages.new }
    ensures readable { AllReadable (P.seen pages.new) }
    ensures grows { IfOk result
        (λ was. (was ≡ None) × (part.levels < 7)
        × MakesTop P.tells (P.seen pages.old) (P.seen pages.new) cache root part) }
    ensures cause { HasGrowCause P.tells (P.seen pages.old) (P.seen pages.new) root part.levels result }
    ensures sound { part.levels < 7 → MayTake P.tells (P.seen pages.old) → NoBadPage result }
{
    if part.levels + 1 >= LEVELS_MAX {
        return Err(PageFault::BadPage(PageId::new(pages.part(), root)));
    }
    let first = child_name(pages.part(), root);
    let second = child_name(pages.part(), part.right);
    make_root(pages, cache, Some(first), part.from.key(), second.0)?;
    Ok(None)
}

// Makes a new page the root of a cache: a leaf, or an inner page with this first child, with one item.
fn make_root<P: Pages>(
    pages: &mut P,
    cache: u8,
    first: Option<PageId>,
    key: &[u8],
    word: u64,
) -> Result<(), PageFault>
    requires ready { P.ready pages.old }
    requires meta { HasMeta (P.seen pages.old) }
    requires room { 1 ≤ (P.seen pages.old).spare }
    requires cache { cache < CACHES }
    requires key { HasKeyLength key.now }
    requires readable { AllReadable (P.seen pages.old) }
    ensures kept { P.kept pages.old pages.new }
    ensures readable { AllReadable (P.seen pages.new) }
    ensures makes { OnOk result
        (MakesRoot P.tells (P.seen pages.old) (P.seen pages.new) cache first key.now word) }
    ensures cause { HasTakeCause P.tells (P.seen pages.old) (P.seen pages.new) result }
    ensures sound { MayTake P.tells (P.seen pages.old) → NoBadPage result }
{
    let top = new_page(pages)?;
    write_blank(pages, top, first);
    make_edit(pages, top, Edit::Insert(0, word), key)?;
    set_number(pages, MetaSlot::Root(cache), top)
}
