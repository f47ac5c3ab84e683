//! Removals.

ghost use Rattle.std.specs.Prelude.{◌≡◌, ℕ, ◌+◌, ◌-◌, ◌*◌, ◌<◌, ◌≤◌, List, OnOk, IfOk, IsTrue};
ghost use Rattle.pm_meta.specs.declared.slots.MetaSlot.TheVariants.{Pages};
ghost use Rattle.pm_pages.specs.Paged.{AllReadable};
ghost use Rattle.pm_pages.specs.Edits.{HasMeta, IsNumberIn, HasDiskCause};
ghost use Rattle.pm_tree.specs.Steps.{IsPath};
ghost use Rattle.pm_tree.specs.Puts.{half_of};
ghost use Rattle.pm_tree.specs.Places.{IsPlaceIn};
ghost use Rattle.pm_tree.specs.declared.places.Place.TheVariants.{Held};
ghost use Rattle.pm_pages.specs.SoundPages.{NoBadPage};
ghost use Rattle.pm_tree_del.specs.declared.remove.Removal.TheVariants.{Small};
ghost use Rattle.pm_pages.specs.SoundPages.{IsSound};
ghost use Rattle.pm_tree.specs.Sound.{HasTree};
ghost use Rattle.pm_tree_del.specs.Sound.{CanBeMended};
ghost use Rattle.pm_tree_del.specs.Items.{HasItemAt};
ghost use Rattle.pm_tree_del.specs.Removes.{RemovesFor};
ghost use Rattle.pm_tree_del.specs.Causes.{RemovesPages, IsHeld, HasRemoveCause, Lifts, as_removal};

use crate::items::take_out;
use crate::mending::mend_child;
use pm_pages::Pages;
use pm_tree::{Place, find_place};
use pm_types::{PageFault, PageId};

/// What a removal made of the tree at a page.
#[derive(Clone, Copy, Debug, PartialEq, Eq, Drop)]
pub enum Removal {
    /// The key wasn't there, and nothing was changed.
    Absent,
    /// The key had this word. The page has as many items as before, or half of what it has room for at least.
    Kept(u64),
    /// The key had this word. The page has one item less than before.
    Small(u64),
}

/// Removes a key from the tree of at most so many levels at page `at`, which page `from` names.
pub fn remove_at<P: Pages>(
    pages: &mut P,
    cache: u8,
    count: u32,
    from: u32,
    at: u32,
    key: &[u8],
    levels: u32,
) -> Result<Removal, PageFault>
    requires ready { P.ready pages.old }
    requires meta { HasMeta (P.seen pages.old) }
    requires room { 2 * levels ≤ (P.seen pages.old).spare + 1 }
    requires readable { AllReadable (P.seen pages.old) }
    requires count { IsNumberIn (P.seen pages.old) Pages count }
    requires levels { levels ≤ 8 }
    requires path { IsPath (P.seen pages.old) cache (8 - levels) from at }
    ensures kept { P.kept pages.old pages.new }
    ensures readable { AllReadable (P.seen pages.new) }
    ensures changes { OnOk result (RemovesPages P.tells (P.seen pages.old) (P.seen pages.new)
        (2 * levels - 1)) }
    ensures levels { OnOk result (1 ≤ levels) }
    ensures held { OnOk result (IsHeld (P.seen pages.new) at) }
    ensures removes { IfOk result (λ removal. P.tells
        → RemovesFor (P.seen pages.old).pages (P.seen pages.new).pages
        (half_of (P.seen pages.old).page_size) levels at key.now removal) }
    ensures cause { HasRemoveCause P.tells (P.seen pages.old) (P.seen pages.new) cache result }
    ensures sound { P.tells → IsSound (P.seen pages.old)
        → HasTree (P.seen pages.old) levels at → NoBadPage result }
{
    if levels == 0 {
        return Err(PageFault::BadPage(PageId::new(pages.part(), from)));
    }
    match find_place(pages, count, at, key)? {
        Place::Held(i, was) => remove_item(pages, at, i, was),
        Place::Gap(_) => Ok(Removal::Absent),
        Place::Full(_) => Ok(Removal::Absent),
        Place::Below(i, child) => {
            let removal = remove_at(pages, cache, count, at, child, key, levels - 1)?;
            lift(pages, count, at, i, child, removal)
        }
        Place::Other => Err(PageFault::BadPage(PageId::new(pages.part(), from))),
    }
}

// Removes an item from a leaf.
fn remove_item<P: Pages>(pages: &mut P, at: u32, i: u16, was: u64) -> Result<Removal, PageFault>
    requires ready { P.ready pages.old }
    requires meta { HasMeta (P.seen pages.old) }
    requires readable { AllReadable (P.seen pages.old) }
    requires item { HasItemAt (P.seen pages.old) at i }
    requires below { (n : ℕ) → IsNumberIn (P.seen pages.old) Pages n → at < n }
    ensures kept { P.kept pages.old pages.new }
    ensures readable { AllReadable (P.seen pages.new) }
    ensures changes { OnOk result (RemovesPages P.tells (P.seen pages.old) (P.seen pages.new) 0) }
    ensures removes { IfOk result (λ removal. P.tells → (key : List ℕ)
        → IsPlaceIn (P.seen pages.old) at key (Held i was) → (limit : ℕ)
        → RemovesFor (P.seen pages.old).pages (P.seen pages.new).pages
        (half_of (P.seen pages.old).page_size) limit at key removal) }
    ensures cause { HasDiskCause (P.seen pages.old) (P.seen pages.new).faults result }
{
    let few = take_out(pages, at, i)?;
    Ok(removal_of(was, few))
}

fn removal_of(was: u64, few: bool) -> Removal
    ensures { result ≡ as_removal was few }
{
    if few {
        Removal::Small(was)
    } else {
        Removal::Kept(was)
    }
}

// Makes the page above one know what a removal made of the tree there.
fn lift<P: Pages>(
    pages: &mut P,
    count: u32,
    at: u32,
    i: u16,
    child: u32,
    removal: Removal,
) -> Result<Removal, PageFault>
    requires ready { P.ready pages.old }
    requires meta { HasMeta (P.seen pages.old) }
    requires room { 1 ≤ (P.seen pages.old).spare }
    requires readable { AllReadable (P.seen pages.old) }
    requires some { 1 ≤ at }
    requires known { IsTrue ((P.seen pages.old).known at) }
    requires asked { IsTrue ((P.seen pages.old).asked at) }
    requires child { IsTrue ((P.seen pages.old).asked child) }
    requires count { IsNumberIn (P.seen pages.old) Pages count }
    ensures kept { P.kept pages.old pages.new }
    ensures readable { AllReadable (P.seen pages.new) }
    ensures changes { OnOk result (RemovesPages P.tells (P.seen pages.old) (P.seen pages.new) 1) }
    ensures lifts { IfOk result (Lifts P.tells (P.seen pages.old) (P.seen pages.new) count at i child removal) }
    ensures cause { (cache : ℕ) → HasRemoveCause P.tells (P.seen pages.old) (P.seen pages.new) cache result }
    ensures sound { P.tells → IsSound (P.seen pages.old)
        → ((was : ℕ) → removal ≡ Small was → CanBeMended (P.seen pages.old) count at i child)
        → NoBadPage result }
{
    match removal {
        Removal::Absent => Ok(Removal::Absent),
        Removal::Kept(was) => Ok(Removal::Kept(was)),
        Removal::Small(was) => {
            let few = mend_child(pages, count, at, i, child)?;
            Ok(removal_of(was, few))
        }
    }
}
