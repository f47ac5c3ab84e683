//! The pairs of a cache by rising key: the leaves of its tree are read from the first one on, and
//! the rows that their items name.

ghost use Rattle.std.specs.Prelude.{◌≡◌, ◌≢◌, ℕ, ◌≤◌, ◌<◌, ◌⊎◌, true, false};
ghost use Rattle.std.specs.Prelude.{IsTrue, IfOk, OnOk, length};
ghost use Rattle.pm_types.specs.declared.limits.TheConstants.{CACHES, OP_PAGES};
ghost use Rattle.pm_types.specs.PageSizes.{IsPageSize};
ghost use Rattle.pm_types.specs.Keys.{HasKeyLength};
ghost use Rattle.pm_meta.specs.declared.slots.MetaSlot.TheVariants.{Root};
ghost use Rattle.pm_pages.specs.Edits.{HasMeta, IsNumberIn};
ghost use Rattle.pm_btpage.specs.declared.layout.TheConstants.{LEAF_KIND};
ghost use Rattle.pm_btpage.specs.IndexPages.{IsIndexPage, index_of, items_of};
ghost use Rattle.pm_pages.specs.Rows.{kind_of};
ghost use Rattle.pm_pages.specs.PageLists.{IsReadable};
ghost use Rattle.pm_pages.specs.Paged.{AllReadable, NoneLent};
ghost use Rattle.pm_part.specs.Reads.{ReadsPages, HasBudget};
ghost use Rattle.pm_part.specs.PairReads.{SinceReads, AppendsPairs, IsDownOn, IsDown, HadPair};
ghost use Rattle.pm_part.specs.PairReads.{HadPairs, WasLeaf, HadLeaf, HadAllLeaves, WasFirstLeaf};
ghost use Rattle.pm_part.specs.PairReads.{HadTree, HadTreePairs};
ghost use Rattle.pm_part.specs.PairFaults.{WasBad, WasNoLeaf, IsPairFault, IsItemFault};
ghost use Rattle.pm_part.specs.PairFaults.{IsLeafFault, IsLeavesFault, IsDownFault, HasReadCause};
ghost use Rattle.pm_part.specs.PairFaults.{HasPageReadCause, IsPairsFault, HasPairsCause};

use crate::spots::{find_pair, spot_of};
use pm_btpage::{INNER_KIND, LEAF_KIND, key_at, next, word_at};
use pm_meta::MetaSlot;
use pm_pages::{LEVELS_MAX, Pages, find_number, number};
use pm_tree::child;
use pm_types::head::KIND_AT;
use pm_types::{Key, Link, OP_PAGES, PAGE_SIZE_MAX, PageFault, PageId, StoreFault, Value};
use std::alloc::Global;

/// What a page on the way to the first leaf is.
#[derive(Clone, Copy, Debug, PartialEq, Eq, Drop)]
enum Down {
    /// A leaf.
    Leaf,
    /// An inner page, whose first child has this index.
    Child(u32),
    /// A page of no tree.
    Other,
}

/// Appends the pairs of a cache, by rising key. Before each page of the tree, and where as many as may be were asked
/// for, those that were asked for are given up.
///
/// `Failed` comes only where a call on the disk failed, and `Memory` where memory ran out.
/// `BadPage` names a page that is bad, or one that names a wrong page or row. After an error some
/// of the pairs may have been appended.
pub fn append_pairs<P: Pages>(
    alloc: Global,
    cache: u8,
    pages: &mut P,
    pairs: &mut Vec<(Key, Value)>,
) -> Result<(), StoreFault>
    requires ready { P.ready pages.old }
    requires none_lent { NoneLent (P.seen pages.old) }
    requires readable { AllReadable (P.seen pages.old) }
    requires cache { cache < CACHES }
    ensures kept { P.kept pages.old pages.new }
    ensures reads { ReadsPages P.tells (P.seen pages.old) (P.seen pages.new) }
    ensures readable { AllReadable (P.seen pages.new) }
    ensures pairs { OnOk result (AppendsPairs pairs.old.items pairs.new.items
        (HadTree P.tells (P.seen pages.old) cache)) }
    ensures cause { HasPairsCause P.tells (P.seen pages.old) (P.seen pages.new) cache result }
{
    pages.let_go();
    match find_number(pages, MetaSlot::Root(cache))? {
        None => Ok(()),
        Some(root) => {
            if root == 0 {
                return Ok(());
            }
            append_tree(alloc, cache, pages, root, pairs)
        }
    }
}

// Appends the pairs of the tree at the root of a cache.
fn append_tree<P: Pages>(
    alloc: Global,
    cache: u8,
    pages: &mut P,
    root: u32,
    pairs: &mut Vec<(Key, Value)>,
) -> Result<(), StoreFault>
    requires ready { P.ready pages.old }
    requires none_lent { NoneLent (P.seen pages.old) }
    requires readable { AllReadable (P.seen pages.old) }
    requires meta { HasMeta (P.seen pages.old) }
    requires root { IsNumberIn (P.seen pages.old) (Root cache) root }
    requires some { root ≢ 0 }
    ensures kept { P.kept pages.old pages.new }
    ensures reads { ReadsPages P.tells (P.seen pages.old) (P.seen pages.new) }
    ensures readable { AllReadable (P.seen pages.new) }
    ensures pairs { SinceReads P.tells (P.seen pages.old) (λ start. OnOk result
        (AppendsPairs pairs.old.items pairs.new.items (HadTreePairs P.tells start cache))) }
    ensures cause { HasReadCause P.tells (P.seen pages.old) (P.seen pages.new)
        (λ start. IsPairsFault P.tells start cache) result }
{
    let count = number(pages, MetaSlot::Pages)?;
    let leaf = first_leaf(pages, count, root)?;
    append_leaves(alloc, cache, pages, count, leaf, pairs)
}

// The first leaf of the tree at a root.
fn first_leaf<P: Pages>(pages: &mut P, count: u32, root: u32) -> Result<u32, PageFault>
    requires ready { P.ready pages.old }
    requires none_lent { NoneLent (P.seen pages.old) }
    requires readable { AllReadable (P.seen pages.old) }
    ensures kept { P.kept pages.old pages.new }
    ensures reads { ReadsPages P.tells (P.seen pages.old) (P.seen pages.new) }
    ensures readable { AllReadable (P.seen pages.new) }
    ensures leaf { SinceReads P.tells (P.seen pages.old)
        (λ start. IfOk result (WasFirstLeaf P.tells start count root)) }
    ensures cause { HasPageReadCause P.tells (P.seen pages.old) (P.seen pages.new)
        (λ start id. WasBad P.tells start count id ⊎ IsDownFault P.tells start count root id) result }
{
    let mut from = 0;
    let mut at = root;
    'levels: for _level in 0..LEVELS_MAX {
        match look_down(pages, count, at)? {
            Down::Leaf => return Ok(at),
            Down::Child(child) => {
                from = at;
                at = child;
            }
            Down::Other => return Err(PageFault::BadPage(PageId::new(pages.part(), from))),
        }
    }
    Err(PageFault::BadPage(PageId::new(pages.part(), from)))
}

fn look_down<P: Pages>(pages: &mut P, count: u32, at: u32) -> Result<Down, PageFault>
    requires ready { P.ready pages.old }
    requires none_lent { NoneLent (P.seen pages.old) }
    requires readable { AllReadable (P.seen pages.old) }
    ensures kept { P.kept pages.old pages.new }
    ensures reads { ReadsPages P.tells (P.seen pages.old) (P.seen pages.new) }
    ensures readable { AllReadable (P.seen pages.new) }
    ensures down { SinceReads P.tells (P.seen pages.old)
        (λ start. IfOk result (IsDown P.tells start count at)) }
    ensures cause { HasPageReadCause P.tells (P.seen pages.old) (P.seen pages.new)
        (λ start. WasBad P.tells start count) result }
{
    if at == 0 || at >= count {
        return Ok(Down::Other);
    }
    pages.let_go();
    match pages.view(at)? {
        // Not reached: page `at` isn't the first one.
        None => Ok(Down::Other),
        Some(page) => Ok(down_on(page)),
    }
}

fn down_on(page: &[u8]) -> Down
    requires { IsReadable page.now }
    ensures { IsDownOn page.now result }
{
    let kind = page[KIND_AT as usize];
    if kind == LEAF_KIND {
        return Down::Leaf;
    }
    if kind == INNER_KIND {
        return Down::Child(child(page, 0));
    }
    Down::Other
}

// Appends the pairs of a leaf and of those after it.
fn append_leaves<P: Pages>(
    alloc: Global,
    cache: u8,
    pages: &mut P,
    count: u32,
    first: u32,
    pairs: &mut Vec<(Key, Value)>,
) -> Result<(), StoreFault>
    requires ready { P.ready pages.old }
    requires none_lent { NoneLent (P.seen pages.old) }
    requires readable { AllReadable (P.seen pages.old) }
    requires first { 1 ≤ first }
    ensures kept { P.kept pages.old pages.new }
    ensures reads { ReadsPages P.tells (P.seen pages.old) (P.seen pages.new) }
    ensures readable { AllReadable (P.seen pages.new) }
    ensures leaves { SinceReads P.tells (P.seen pages.old) (λ start. OnOk result
        (AppendsPairs pairs.old.items pairs.new.items
        (HadAllLeaves P.tells start count cache first))) }
    ensures cause { HasReadCause P.tells (P.seen pages.old) (P.seen pages.new) (λ start id.
        WasBad P.tells start count id ⊎ IsLeavesFault P.tells start count cache first id) result }
{
    let mut room = [0; PAGE_SIZE_MAX];
    let size = pages.page_size() as usize;
    let mut from = first;
    let mut at = first;
    'leaves: for _turn in 0..count {
        let after = append_leaf(
            alloc,
            cache,
            pages,
            count,
            from,
            at,
            &mut room[..size],
            pairs,
        )?;
        if after == 0 {
            return Ok(());
        }
        from = at;
        at = after;
    }
    Err(StoreFault::BadPage(PageId::new(pages.part(), from)))
}

// Appends the pairs of the leaf with this index, which page `from` names, and gives the index of
// the leaf after it. The page is copied.
fn append_leaf<P: Pages>(
    alloc: Global,
    cache: u8,
    pages: &mut P,
    count: u32,
    from: u32,
    at: u32,
    page: &mut [u8],
    pairs: &mut Vec<(Key, Value)>,
) -> Result<u32, StoreFault>
    requires ready { P.ready pages.old }
    requires none_lent { NoneLent (P.seen pages.old) }
    requires readable { AllReadable (P.seen pages.old) }
    requires size { length page.old ≡ (P.seen pages.old).page_size }
    ensures kept { P.kept pages.old pages.new }
    ensures reads { ReadsPages P.tells (P.seen pages.old) (P.seen pages.new) }
    ensures readable { AllReadable (P.seen pages.new) }
    ensures size { length page.new ≡ length page.old }
    ensures leaf { SinceReads P.tells (P.seen pages.old) (λ start. IfOk result (λ next.
        AppendsPairs pairs.old.items pairs.new.items (HadLeaf P.tells start count cache at next))) }
    ensures cause { HasReadCause P.tells (P.seen pages.old) (P.seen pages.new) (λ start id.
        WasBad P.tells start count id ⊎ IsLeafFault P.tells start count cache from at id) result }
{
    if !read_leaf(pages, count, at, page)? {
        return Err(StoreFault::BadPage(PageId::new(pages.part(), from)));
    }
    append_items(alloc, cache, pages, count, at, page, pairs)?;
    Ok(next(page))
}

// Copies the leaf with this index; `false` where there is no such leaf.
fn read_leaf<P: Pages>(
    pages: &mut P,
    count: u32,
    at: u32,
    into: &mut [u8],
) -> Result<bool, PageFault>
    requires ready { P.ready pages.old }
    requires none_lent { NoneLent (P.seen pages.old) }
    requires readable { AllReadable (P.seen pages.old) }
    requires size { length into.old ≡ (P.seen pages.old).page_size }
    ensures kept { P.kept pages.old pages.new }
    ensures reads { ReadsPages P.tells (P.seen pages.old) (P.seen pages.new) }
    ensures readable { AllReadable (P.seen pages.new) }
    ensures leaf { IfOk result (λ found. IsTrue found
        → IsIndexPage into.new × ((index_of into.new).leaf ≡ true)) }
    ensures size { length into.new ≡ length into.old }
    ensures read { SinceReads P.tells (P.seen pages.old) (λ start. IfOk result (λ found.
        (IsTrue found → WasLeaf P.tells start count at into.new)
        × (found ≡ false → WasNoLeaf P.tells start count at))) }
    ensures cause { HasPageReadCause P.tells (P.seen pages.old) (P.seen pages.new)
        (λ start. WasBad P.tells start count) result }
{
    if at == 0 || at >= count {
        return Ok(false);
    }
    pages.let_go();
    match pages.view(at)? {
        // Not reached: page `at` isn't the first one.
        None => Ok(false),
        Some(page) => Ok(copy_leaf(page, into)),
    }
}

fn copy_leaf(page: &[u8], into: &mut [u8]) -> bool
    requires page { IsReadable page.now }
    requires size { length into.old ≡ length page.now }
    ensures leaf { IsTrue result → IsIndexPage into.new × ((index_of into.new).leaf ≡ true) }
    ensures copied { IsTrue result → (into.new ≡ page.now) × (kind_of page.now ≡ LEAF_KIND) }
    ensures other { result ≡ false → kind_of page.now ≢ LEAF_KIND }
    ensures size { length into.new ≡ length into.old }
{
    if page[KIND_AT as usize] != LEAF_KIND {
        return false;
    }
    into.copy_from_slice(page);
    true
}

// Appends the pairs of the rows that a leaf's items name.
fn append_items<P: Pages>(
    alloc: Global,
    cache: u8,
    pages: &mut P,
    count: u32,
    leaf: u32,
    page: &[u8],
    pairs: &mut Vec<(Key, Value)>,
) -> Result<(), StoreFault>
    requires ready { P.ready pages.old }
    requires none_lent { NoneLent (P.seen pages.old) }
    requires readable { AllReadable (P.seen pages.old) }
    requires page { IsIndexPage page.now }
    ensures kept { P.kept pages.old pages.new }
    ensures reads { ReadsPages P.tells (P.seen pages.old) (P.seen pages.new) }
    ensures readable { AllReadable (P.seen pages.new) }
    ensures pairs { SinceReads P.tells (P.seen pages.old) (λ start. OnOk result
        (AppendsPairs pairs.old.items pairs.new.items
        (HadPairs P.tells start count cache (items_of page.now)))) }
    ensures cause { HasReadCause P.tells (P.seen pages.old) (P.seen pages.new) (λ start id.
        WasBad P.tells start count id
        ⊎ IsItemFault P.tells start count cache leaf page.now id) result }
{
    let mut asked = OP_PAGES;
    'items: for i in 0..pm_btpage::count(page) {
        let link = Link(word_at(page, i));
        let key = key_at(page, i);
        let pair = read_pair(alloc, cache, pages, &mut asked, count, leaf, key, link)?;
        pairs.push(pair)?;
    }
    Ok(())
}

// The key of an item of a leaf, with the value of the row that it names. So many pages at most were asked for since
// pages were given up, so that rows of one page, side by side, read it once.
fn read_pair<P: Pages>(
    alloc: Global,
    cache: u8,
    pages: &mut P,
    asked: &mut u32,
    count: u32,
    leaf: u32,
    key: &[u8],
    link: Link,
) -> Result<(Key, Value), StoreFault>
    requires ready { P.ready pages.old }
    requires none_lent { NoneLent (P.seen pages.old) }
    requires readable { AllReadable (P.seen pages.old) }
    requires key { HasKeyLength key.now }
    requires budget { HasBudget (P.seen pages.old) asked.old }
    ensures kept { P.kept pages.old pages.new }
    ensures reads { ReadsPages P.tells (P.seen pages.old) (P.seen pages.new) }
    ensures readable { AllReadable (P.seen pages.new) }
    ensures budget { HasBudget (P.seen pages.new) asked.new }
    ensures pair { SinceReads P.tells (P.seen pages.old)
        (λ start. IfOk result (HadPair P.tells start count cache link key.now)) }
    ensures cause { HasReadCause P.tells (P.seen pages.old) (P.seen pages.new) (λ start id.
        WasBad P.tells start count id
        ⊎ IsPairFault P.tells start count cache leaf link key.now id) result }
{
    match spot_of(link, pages.part(), count) {
        None => Err(StoreFault::BadPage(PageId::new(pages.part(), leaf))),
        Some(spot) => {
            make_room(pages, asked);
            *asked += 1;
            match find_pair(alloc, pages, spot, cache, key)? {
                None => Err(StoreFault::BadPage(PageId::new(pages.part(), leaf))),
                Some(pair) => Ok(pair),
            }
        }
    }
}

// Gives up the pages that were asked for, where as many were as may be.
fn make_room<P: Pages>(pages: &mut P, asked: &mut u32)
    requires ready { P.ready pages.old }
    requires none_lent { NoneLent (P.seen pages.old) }
    requires readable { AllReadable (P.seen pages.old) }
    requires budget { HasBudget (P.seen pages.old) asked.old }
    ensures kept { P.kept pages.old pages.new }
    ensures reads { ReadsPages P.tells (P.seen pages.old) (P.seen pages.new) }
    ensures readable { AllReadable (P.seen pages.new) }
    ensures budget { HasBudget (P.seen pages.new) asked.new }
    ensures room { asked.new < OP_PAGES }
{
    if *asked < OP_PAGES {
        return;
    }
    pages.let_go();
    *asked = 0;
}
