//! Puts into a leaf.

ghost use Rattle.std.specs.Prelude.{◌≡◌, ◌≢◌, ℕ, ◌+◌, ◌-◌, ◌/◌, ◌<◌, ◌≤◌, List, Some, None, IfOk, OnOk};
ghost use Rattle.std.specs.Prelude.{true, [], length};
ghost use Rattle.pm_types.specs.Keys.{HasKeyLength};
ghost use Rattle.pm_btpage.specs.IndexPages.{items_of, index_of, key_in, word_in, capacity_of, IsIndexPage};
ghost use Rattle.pm_btpage.specs.Stored.{IsLink};
ghost use Rattle.pm_pages.specs.Paged.{AllReadable, IsInHand};
ghost use Rattle.pm_pages.specs.Edits.{LooksAtPages, HasMeta, IsNumberIn, HasDiskCause};
ghost use Rattle.pm_pages.specs.SparePages.{HasTakeCause};
ghost use Rattle.pm_tree.specs.declared.edits.Edit.TheVariants.{Next, Insert};
ghost use Rattle.pm_pages.specs.SoundPages.{NoBadPage, MayTake};
ghost use Rattle.pm_tree.specs.Edits.{TakesEdit};
ghost use Rattle.pm_tree.specs.Divisions.{CanDivide, LinksLeaves, PartsLeaf, PutsPages, IsFullLeaf};
ghost use Rattle.pm_tree.specs.Puts.{PutsFor, HasLevels, half_of, IsMiddle};
ghost use Rattle.pm_tree.specs.StoredPuts.{KeepsPage};
ghost use Rattle.pm_tree.specs.declared.put.Put.TheVariants.{Split};
ghost use Rattle.pm_tree.specs.Places.{IsPlaceIn};
ghost use Rattle.pm_tree.specs.declared.places.Place.TheVariants.{Held, Gap};
ghost use Rattle.pm_meta.specs.declared.slots.MetaSlot.TheVariants.{Pages};

use crate::dividing::divide;
use crate::edits::{Edit, make_edit};
use crate::put::{Part, Put};
use crate::separator::Separator;
use pm_btpage::{capacity, key_at, next, word_at};
use pm_pages::Pages;
use pm_types::PageFault;

/// A copy of an item of a page that is at hand: its key and its word.
pub fn item_at<P: Pages>(pages: &mut P, at: u32, i: u16) -> Result<(Separator, u64), PageFault>
    requires ready { P.ready pages.old }
    requires readable { AllReadable (P.seen pages.old) }
    requires page { (page : List ℕ) × IsInHand (P.seen pages.old) at page × IsIndexPage page
        × (i < length (items_of page)) }
    ensures kept { P.kept pages.old pages.new }
    ensures looks { LooksAtPages P.tells (P.seen pages.old) (P.seen pages.new) 0 }
    ensures readable { AllReadable (P.seen pages.new) }
    ensures item { IfOk result (λ item. (page : List ℕ) → (P.seen pages.old).pages at ≡ Some page
        → (item.0 ≡ key_in (items_of page) i) × (item.1 ≡ word_in (items_of page) i)) }
    ensures cause { HasDiskCause (P.seen pages.old) (P.seen pages.new).faults result }
{
    match pages.view(at)? {
        // Not reached: page `at` is at hand.
        None => Ok((Separator::of(b"-"), 0)),
        Some(page) => Ok(item_on(page, i)),
    }
}

fn item_on(page: &[u8], i: u16) -> (Separator, u64)
    requires page { IsIndexPage page.now }
    requires item { i < length (items_of page.now) }
    ensures { (result.0 ≡ key_in (items_of page.now) i) × (result.1 ≡ word_in (items_of page.now) i) }
{
    (Separator::of(key_at(page, i)), word_at(page, i))
}

// The index of the leaf after one that is at hand.
fn next_of<P: Pages>(pages: &mut P, at: u32) -> Result<u32, PageFault>
    requires ready { P.ready pages.old }
    requires readable { AllReadable (P.seen pages.old) }
    requires page { (page : List ℕ) × IsInHand (P.seen pages.old) at page × IsIndexPage page
        × ((index_of page).leaf ≡ true) }
    ensures kept { P.kept pages.old pages.new }
    ensures looks { LooksAtPages P.tells (P.seen pages.old) (P.seen pages.new) 0 }
    ensures readable { AllReadable (P.seen pages.new) }
    ensures next { IfOk result (λ next. (page : List ℕ) → (P.seen pages.old).pages at ≡ Some page
        → next ≡ (index_of page).link) }
    ensures cause { HasDiskCause (P.seen pages.old) (P.seen pages.new).faults result }
{
    match pages.view(at)? {
        // Not reached: page `at` is at hand.
        None => Ok(0),
        Some(page) => Ok(next(page)),
    }
}

// Divides a leaf at an item, and gives the index of the new one, which stands after it.
fn part_leaf<P: Pages>(pages: &mut P, at: u32, cut: u16) -> Result<u32, PageFault>
    requires ready { P.ready pages.old }
    requires meta { HasMeta (P.seen pages.old) }
    requires room { 1 ≤ (P.seen pages.old).spare }
    requires readable { AllReadable (P.seen pages.old) }
    requires page { (page : List ℕ) × CanDivide (P.seen pages.old) at page None cut cut }
    ensures kept { P.kept pages.old pages.new }
    ensures readable { AllReadable (P.seen pages.new) }
    ensures parts { IfOk result (λ right. (page : List ℕ) → (P.seen pages.old).pages at ≡ Some page
        → PartsLeaf P.tells (P.seen pages.old) (P.seen pages.new) at page cut right) }
    ensures cause { HasTakeCause P.tells (P.seen pages.old) (P.seen pages.new) result }
    ensures sound { MayTake P.tells (P.seen pages.old) → NoBadPage result }
{
    let next = next_of(pages, at)?;
    let right = divide(pages, at, None, cut, cut)?;
    link_leaves(pages, at, right, next)?;
    Ok(right)
}

// Makes a leaf stand between another and the one after it.
fn link_leaves<P: Pages>(pages: &mut P, at: u32, right: u32, next: u32) -> Result<(), PageFault>
    requires ready { P.ready pages.old }
    requires readable { AllReadable (P.seen pages.old) }
    requires left { TakesEdit (P.seen pages.old) at [] (Next right) }
    requires right { TakesEdit (P.seen pages.old) right [] (Next next) }
    requires other { right ≢ at }
    ensures kept { P.kept pages.old pages.new }
    ensures readable { AllReadable (P.seen pages.new) }
    ensures links { OnOk result (LinksLeaves P.tells (P.seen pages.old) (P.seen pages.new) at right next) }
    ensures cause { HasDiskCause (P.seen pages.old) (P.seen pages.new).faults result }
{
    make_edit(pages, right, Edit::Next(next), b"")?;
    make_edit(pages, at, Edit::Next(right), b"")
}

/// Puts a word at a key that an item of a leaf has.
pub fn set_item<P: Pages>(
    pages: &mut P,
    at: u32,
    i: u16,
    was: u64,
    key: &[u8],
    word: u64,
) -> Result<Put, PageFault>
    requires ready { P.ready pages.old }
    requires meta { HasMeta (P.seen pages.old) }
    requires readable { AllReadable (P.seen pages.old) }
    requires item { IsPlaceIn (P.seen pages.old) at key.now (Held i was) }
    requires below { (n : ℕ) → IsNumberIn (P.seen pages.old) Pages n → at < n }
    ensures kept { P.kept pages.old pages.new }
    ensures readable { AllReadable (P.seen pages.new) }
    ensures changes { OnOk result (PutsPages P.tells (P.seen pages.old) (P.seen pages.new) 0
        (IsLink (P.seen pages.old).part word)) }
    ensures puts { IfOk result (λ put. P.tells → (limit : ℕ)
        → PutsFor (P.seen pages.old).pages (P.seen pages.new).pages
        (half_of (P.seen pages.old).page_size) limit at key.now word put) }
    ensures keeps { IfOk result (λ put. P.tells → KeepsPage (P.seen pages.old) (P.seen pages.new)
        (IsLink (P.seen pages.old).part word) put) }
    ensures levels { IfOk result (HasLevels 1) }
    ensures cause { HasDiskCause (P.seen pages.old) (P.seen pages.new).faults result }
{
    make_edit(pages, at, Edit::Word(i, word), key)?;
    Ok(Put::Kept(Some(was)))
}

/// Puts an item into a leaf that has room for it.
pub fn add_item<P: Pages>(
    pages: &mut P,
    at: u32,
    i: u16,
    key: &[u8],
    word: u64,
) -> Result<Put, PageFault>
    requires ready { P.ready pages.old }
    requires meta { HasMeta (P.seen pages.old) }
    requires readable { AllReadable (P.seen pages.old) }
    requires key { HasKeyLength key.now }
    requires item { IsPlaceIn (P.seen pages.old) at key.now (Gap i) }
    requires below { (n : ℕ) → IsNumberIn (P.seen pages.old) Pages n → at < n }
    ensures kept { P.kept pages.old pages.new }
    ensures readable { AllReadable (P.seen pages.new) }
    ensures changes { OnOk result (PutsPages P.tells (P.seen pages.old) (P.seen pages.new) 0
        (IsLink (P.seen pages.old).part word)) }
    ensures puts { IfOk result (λ put. P.tells → (limit : ℕ)
        → PutsFor (P.seen pages.old).pages (P.seen pages.new).pages
        (half_of (P.seen pages.old).page_size) limit at key.now word put) }
    ensures levels { IfOk result (HasLevels 1) }
    ensures cause { HasDiskCause (P.seen pages.old) (P.seen pages.new).faults result }
{
    make_edit(pages, at, Edit::Insert(i, word), key)?;
    Ok(Put::Kept(None))
}

/// Puts an item into a leaf that has no room for it: the leaf is divided.
pub fn split_leaf<P: Pages>(
    pages: &mut P,
    at: u32,
    i: u16,
    key: &[u8],
    word: u64,
) -> Result<Put, PageFault>
    requires ready { P.ready pages.old }
    requires meta { HasMeta (P.seen pages.old) }
    requires room { 1 ≤ (P.seen pages.old).spare }
    requires readable { AllReadable (P.seen pages.old) }
    requires key { HasKeyLength key.now }
    requires leaf { IsFullLeaf (P.seen pages.old) at key.now i }
    ensures kept { P.kept pages.old pages.new }
    ensures readable { AllReadable (P.seen pages.new) }
    ensures changes { OnOk result (PutsPages P.tells (P.seen pages.old) (P.seen pages.new) 1
        (IsLink (P.seen pages.old).part word)) }
    ensures puts { IfOk result (λ put. P.tells → (limit : ℕ)
        → PutsFor (P.seen pages.old).pages (P.seen pages.new).pages
        (half_of (P.seen pages.old).page_size) limit at key.now word put) }
    ensures levels { IfOk result (HasLevels 1) }
    ensures cause { HasTakeCause P.tells (P.seen pages.old) (P.seen pages.new) result }
    ensures sound { MayTake P.tells (P.seen pages.old) → NoBadPage result }
{
    let cut = capacity(pages.page_size()).div_ceil(2);
    if i <= cut {
        split_left(pages, at, i, cut, key, word)
    } else {
        split_right(pages, at, i, cut, key, word)
    }
}

// Puts an item before the cut.
fn split_left<P: Pages>(
    pages: &mut P,
    at: u32,
    i: u16,
    cut: u16,
    key: &[u8],
    word: u64,
) -> Result<Put, PageFault>
    requires ready { P.ready pages.old }
    requires meta { HasMeta (P.seen pages.old) }
    requires room { 1 ≤ (P.seen pages.old).spare }
    requires readable { AllReadable (P.seen pages.old) }
    requires key { HasKeyLength key.now }
    requires leaf { IsFullLeaf (P.seen pages.old) at key.now i }
    requires cut { IsMiddle (P.seen pages.old).page_size cut }
    requires side { i ≤ cut }
    ensures kept { P.kept pages.old pages.new }
    ensures readable { AllReadable (P.seen pages.new) }
    ensures changes { OnOk result (PutsPages P.tells (P.seen pages.old) (P.seen pages.new) 1
        (IsLink (P.seen pages.old).part word)) }
    ensures puts { IfOk result (λ put. P.tells → (limit : ℕ)
        → PutsFor (P.seen pages.old).pages (P.seen pages.new).pages
        (half_of (P.seen pages.old).page_size) limit at key.now word put) }
    ensures levels { IfOk result (HasLevels 1) }
    ensures cause { HasTakeCause P.tells (P.seen pages.old) (P.seen pages.new) result }
    ensures sound { MayTake P.tells (P.seen pages.old) → NoBadPage result }
{
    let item = item_at(pages, at, cut)?;
    let right = part_leaf(pages, at, cut)?;
    make_edit(pages, at, Edit::Insert(i, word), key)?;
    Ok(split_off(item, right))
}

// Puts an item after the cut.
fn split_right<P: Pages>(
    pages: &mut P,
    at: u32,
    i: u16,
    cut: u16,
    key: &[u8],
    word: u64,
) -> Result<Put, PageFault>
    requires ready { P.ready pages.old }
    requires meta { HasMeta (P.seen pages.old) }
    requires room { 1 ≤ (P.seen pages.old).spare }
    requires readable { AllReadable (P.seen pages.old) }
    requires key { HasKeyLength key.now }
    requires leaf { IsFullLeaf (P.seen pages.old) at key.now i }
    requires cut { IsMiddle (P.seen pages.old).page_size cut }
    requires side { cut < i }
    ensures kept { P.kept pages.old pages.new }
    ensures readable { AllReadable (P.seen pages.new) }
    ensures changes { OnOk result (PutsPages P.tells (P.seen pages.old) (P.seen pages.new) 1
        (IsLink (P.seen pages.old).part word)) }
    ensures puts { IfOk result (λ put. P.tells → (limit : ℕ)
        → PutsFor (P.seen pages.old).pages (P.seen pages.new).pages
        (half_of (P.seen pages.old).page_size) limit at key.now word put) }
    ensures levels { IfOk result (HasLevels 1) }
    ensures cause { HasTakeCause P.tells (P.seen pages.old) (P.seen pages.new) result }
    ensures sound { MayTake P.tells (P.seen pages.old) → NoBadPage result }
{
    let item = item_at(pages, at, cut)?;
    let right = part_leaf(pages, at, cut)?;
    make_edit(pages, right, Edit::Insert(i - cut, word), key)?;
    Ok(split_off(item, right))
}

// What a leaf's division is, at an item.
fn split_off(item: (Separator, u64), right: u32) -> Put
    ensures { result ≡ Split (record { from = item.0; right = right; levels = 0 }) }
{
    Put::Split(Part {
        from: item.0,
        right,
        levels: 0,
    })
}
