//! Puts.

ghost use Rattle.std.specs.Prelude.{◌≡◌, ◌≢◌, ℕ, ◌+◌, ◌-◌, ◌*◌, ◌<◌, ◌≤◌, List, Some, None, IfOk, OnOk};
ghost use Rattle.std.specs.Prelude.{IsTrue, length};
ghost use Rattle.pm_types.specs.Keys.{HasKeyLength};
ghost use Rattle.pm_meta.specs.declared.slots.MetaSlot.TheVariants.{Pages};
ghost use Rattle.pm_btpage.specs.IndexPages.{items_of, capacity_of};
ghost use Rattle.pm_btpage.specs.Stored.{IsLink};
ghost use Rattle.pm_pages.specs.Paged.{AllReadable};
ghost use Rattle.pm_pages.specs.SparePages.{HasTakeCause};
ghost use Rattle.pm_pages.specs.Edits.{HasMeta, IsNumberIn};
ghost use Rattle.pm_tree.specs.Steps.{IsPath};
ghost use Rattle.pm_tree.specs.Divisions.{PutsPages};
ghost use Rattle.pm_tree.specs.Puts.{PutsFor, IsKept, HasLevels, half_of};
ghost use Rattle.pm_tree.specs.Indexes.{AnswersFrom};
ghost use Rattle.pm_tree.specs.StoredPuts.{KeepsPage};
ghost use Rattle.pm_pages.specs.SoundPages.{NoBadPage, MayTake};
ghost use Rattle.pm_tree.specs.SoundPuts.{MayPut, MayTakeChild};
ghost use Rattle.pm_tree.specs.declared.put.Part.{Part};
ghost use Rattle.pm_tree.specs.declared.put.Put.TheVariants.{Split};
ghost use Rattle.pm_tree.specs.Grown.{IsParentAt, TakesChild};
ghost use Rattle.pm_tree.specs.PutCauses.{HasPutCause, Lifts};

use crate::fits::{Fit, find_fit};
use crate::inner::{add_child, fork};
use crate::leaves::{add_item, set_item, split_leaf};
use crate::places::{Place, find_place};
use crate::separator::Separator;
use pm_pages::Pages;
use pm_types::{PageFault, PageId};

/// What a put made of the tree at a page.
#[derive(Debug, Drop)]
pub enum Put {
    /// The page has the tree still. If the key was there, this was its word.
    Kept(Option<u64>),
    /// The page was divided.
    Split(Part),
}

/// A new page to the right of one that was divided.
#[derive(Debug, Drop)]
pub struct Part {
    /// The keys of the new page's tree aren't below this one, and those of the old one's are.
    pub from: Separator,
    /// The new page's index.
    pub right: u32,
    /// How many levels of inner pages either tree has.
    pub levels: u32,
}

/// Puts a word at a key into the tree of at most so many levels at page `at`, which page `from` names.
pub fn put_at<P: Pages>(
    pages: &mut P,
    cache: u8,
    count: u32,
    from: u32,
    at: u32,
    key: &[u8],
    word: u64,
    levels: u32,
) -> Result<Put, PageFault>
    requires ready { P.ready pages.old }
    requires meta { HasMeta (P.seen pages.old) }
    requires room { 2 * levels ≤ (P.seen pages.old).spare }
    requires readable { AllReadable (P.seen pages.old) }
    requires key { HasKeyLength key.now }
    requires count { IsNumberIn (P.seen pages.old) Pages count }
    requires levels { levels ≤ 8 }
    requires path { IsPath (P.seen pages.old) cache (8 - levels) from at }
    ensures kept { P.kept pages.old pages.new }
    ensures readable { AllReadable (P.seen pages.new) }
    ensures changes { OnOk result (PutsPages P.tells (P.seen pages.old) (P.seen pages.new) (2 * levels)
        (IsLink (P.seen pages.old).part word)) }
    ensures puts { IfOk result (λ put. P.tells
        → PutsFor (P.seen pages.old).pages (P.seen pages.new).pages
        (half_of (P.seen pages.old).page_size) levels at key.now word put) }
    ensures levels { IfOk result (HasLevels levels) }
    ensures cause { HasPutCause P.tells (P.seen pages.old) (P.seen pages.new) cache result }
    ensures keeps { P.tells → (held : ℕ)
        → AnswersFrom (P.seen pages.old).pages key.now levels at (Some held)
        → IfOk result (KeepsPage (P.seen pages.old) (P.seen pages.new) (IsLink (P.seen pages.old).part word)) }
    ensures sound { MayPut P.tells (P.seen pages.old) levels at key.now → NoBadPage result }
{
    if levels == 0 {
        return Err(PageFault::BadPage(PageId::new(pages.part(), from)));
    }
    match find_place(pages, count, at, key)? {
        Place::Held(i, was) => set_item(pages, at, i, was, key, word),
        Place::Gap(i) => add_item(pages, at, i, key, word),
        Place::Full(i) => split_leaf(pages, at, i, key, word),
        Place::Below(i, child) => {
            let put = put_at(pages, cache, count, at, child, key, word, levels - 1)?;
            lift(pages, at, i, put)
        }
        Place::Other => Err(PageFault::BadPage(PageId::new(pages.part(), from))),
    }
}

// Makes the page above one know what a put made of the tree there.
fn lift<P: Pages>(pages: &mut P, at: u32, i: u16, put: Put) -> Result<Put, PageFault>
    requires ready { P.ready pages.old }
    requires meta { HasMeta (P.seen pages.old) }
    requires room { 1 ≤ (P.seen pages.old).spare }
    requires readable { AllReadable (P.seen pages.old) }
    requires known { IsTrue ((P.seen pages.old).known at) }
    requires asked { IsTrue ((P.seen pages.old).asked at) }
    requires some { 1 ≤ at }
    requires below { (n : ℕ) → IsNumberIn (P.seen pages.old) Pages n → at < n }
    requires levels { HasLevels 8 put }
    ensures kept { P.kept pages.old pages.new }
    ensures readable { AllReadable (P.seen pages.new) }
    ensures changes { OnOk result (PutsPages P.tells (P.seen pages.old) (P.seen pages.new) 1 (Unit {0})) }
    ensures lifts { IfOk result (Lifts P.tells (P.seen pages.old) (P.seen pages.new) at i put) }
    ensures levels { IfOk result (λ lifted. (limit : ℕ) → HasLevels limit put → HasLevels (limit + 1) lifted) }
    ensures cause { (cache : ℕ) → HasPutCause P.tells (P.seen pages.old) (P.seen pages.new) cache result }
    ensures keeps { IsKept put → IfOk result (KeepsPage (P.seen pages.old) (P.seen pages.new) (Unit {0})) }
    ensures sound { ((part : Part) → put ≡ Split part → MayTakeChild P.tells (P.seen pages.old) at i part)
        → NoBadPage result }
{
    match put {
        Put::Kept(was) => Ok(Put::Kept(was)),
        Put::Split(part) => take_child(pages, at, i, part),
    }
}

// Puts a new child into an inner page.
fn take_child<P: Pages>(pages: &mut P, at: u32, i: u16, part: Part) -> Result<Put, PageFault>
    requires ready { P.ready pages.old }
    requires meta { HasMeta (P.seen pages.old) }
    requires room { 1 ≤ (P.seen pages.old).spare }
    requires readable { AllReadable (P.seen pages.old) }
    requires known { IsTrue ((P.seen pages.old).known at) }
    requires asked { IsTrue ((P.seen pages.old).asked at) }
    requires some { 1 ≤ at }
    requires below { (n : ℕ) → IsNumberIn (P.seen pages.old) Pages n → at < n }
    requires levels { part.levels < 8 }
    requires right { 1 ≤ part.right }
    ensures kept { P.kept pages.old pages.new }
    ensures readable { AllReadable (P.seen pages.new) }
    ensures changes { OnOk result (PutsPages P.tells (P.seen pages.old) (P.seen pages.new) 1 (Unit {0})) }
    ensures takes { IfOk result (TakesChild P.tells (P.seen pages.old) (P.seen pages.new) at i part) }
    ensures levels { IfOk result (λ put. (limit : ℕ) → part.levels < limit → HasLevels (limit + 1) put) }
    ensures cause { (cache : ℕ) → HasPutCause P.tells (P.seen pages.old) (P.seen pages.new) cache result }
    ensures sound { MayTakeChild P.tells (P.seen pages.old) at i part → NoBadPage result }
{
    match find_fit(pages, at, i, part.from.key())? {
        Fit::Room => take_with_room(pages, at, i, &part),
        Fit::Full => take_without_room(pages, at, i, part),
        Fit::Wrong => Err(PageFault::BadPage(PageId::new(pages.part(), at))),
    }
}

fn take_with_room<P: Pages>(pages: &mut P, at: u32, i: u16, part: &Part) -> Result<Put, PageFault>
    requires ready { P.ready pages.old }
    requires meta { HasMeta (P.seen pages.old) }
    requires readable { AllReadable (P.seen pages.old) }
    requires parent { IsParentAt (P.seen pages.old) at part.now.from i }
    requires right { 1 ≤ part.now.right }
    requires space { (page : List ℕ) → (P.seen pages.old).pages at ≡ Some page
        → length (items_of page) < capacity_of (length page) }
    ensures kept { P.kept pages.old pages.new }
    ensures readable { AllReadable (P.seen pages.new) }
    ensures changes { OnOk result (PutsPages P.tells (P.seen pages.old) (P.seen pages.new) 1 (Unit {0})) }
    ensures takes { IfOk result (TakesChild P.tells (P.seen pages.old) (P.seen pages.new) at i part.now) }
    ensures levels { IfOk result (λ put. (limit : ℕ) → HasLevels limit put) }
    ensures cause { HasTakeCause P.tells (P.seen pages.old) (P.seen pages.new) result }
    ensures sound { MayTake P.tells (P.seen pages.old) → NoBadPage result }
{
    add_child(pages, at, i, part)?;
    Ok(Put::Kept(None))
}

fn take_without_room<P: Pages>(pages: &mut P, at: u32, i: u16, part: Part) -> Result<Put, PageFault>
    requires ready { P.ready pages.old }
    requires meta { HasMeta (P.seen pages.old) }
    requires room { 1 ≤ (P.seen pages.old).spare }
    requires readable { AllReadable (P.seen pages.old) }
    requires parent { IsParentAt (P.seen pages.old) at part.from i }
    requires full { (page : List ℕ) → (P.seen pages.old).pages at ≡ Some page
        → capacity_of (length page) ≤ length (items_of page) }
    requires levels { part.levels < 8 }
    requires right { 1 ≤ part.right }
    ensures kept { P.kept pages.old pages.new }
    ensures readable { AllReadable (P.seen pages.new) }
    ensures changes { OnOk result (PutsPages P.tells (P.seen pages.old) (P.seen pages.new) 1 (Unit {0})) }
    ensures takes { IfOk result (TakesChild P.tells (P.seen pages.old) (P.seen pages.new) at i part) }
    ensures levels { IfOk result (λ put. (limit : ℕ) → part.levels < limit → HasLevels (limit + 1) put) }
    ensures cause { HasTakeCause P.tells (P.seen pages.old) (P.seen pages.new) result }
    ensures sound { MayTake P.tells (P.seen pages.old) → NoBadPage result }
{
    let forked = fork(pages, at, i, part)?;
    Ok(Put::Split(forked))
}
