//! Look-ups.

ghost use Rattle.std.specs.Prelude.{◌≡◌, ◌≢◌, ℕ, ◌+◌, ◌-◌, ◌<◌, ◌≤◌, List, Option, Some, None, ◌⊎◌};
ghost use Rattle.std.specs.Prelude.{IfOk, OnOk, IsTrue};
ghost use Rattle.std.specs.Option.{option_map};
ghost use Rattle.pm_pages.specs.declared.limits.TheConstants.{LEVELS_MAX};
ghost use Rattle.pm_types.specs.declared.limits.TheConstants.{CACHES};
ghost use Rattle.pm_btpage.specs.IndexPages.{Item};
ghost use Rattle.pm_meta.specs.declared.slots.MetaSlot.TheVariants.{Root, Pages};
ghost use Rattle.pm_pages.specs.Trees.{root_of};
ghost use Rattle.pm_pages.specs.Paged.{HasRoomFor, AllReadable, HasPageCause};
ghost use Rattle.pm_pages.specs.Edits.{LooksAtPages, HasMeta, IsNumberIn};
ghost use Rattle.pm_tree.specs.Steps.{IsLook, HasLookCause};
ghost use Rattle.pm_pages.specs.SoundPages.{PassesAll, NoBadPage};
ghost use Rattle.pm_tree.specs.Indexes.{AnswersFrom, IsIndex, as_link, link_in};

use crate::steps::{Step, step_on};
use pm_meta::MetaSlot;
use pm_pages::{LEVELS_MAX, Pages, find_number, number};
use pm_types::{Link, PageFault, PageId};

/// The link of a key in a cache's index, if it is there.
///
/// `Failed` comes only where a call on the disk failed. `BadPage` names a page that is bad, or the
/// page on the way from the root that names a wrong one: none, one that isn't of the partition or
/// of no tree, or one more level than a tree may have. Of a tree whose pages pass their checks none
/// is bad. No page is changed.
///
/// Tests and `pm_bench` alone call it: the program looks keys up by `find_entry` of `pm_part`, which goes
/// the same way and gives the leaf too.
pub fn tree_get<P: Pages>(pages: &mut P, cache: u8, key: &[u8]) -> Result<Option<Link>, PageFault>
    requires ready { P.ready pages.old }
    requires room { 9 ≤ (P.seen pages.old).spare }
    requires cache { cache < CACHES }
    requires readable { AllReadable (P.seen pages.old) }
    ensures kept { P.kept pages.old pages.new }
    ensures looks { LooksAtPages P.tells (P.seen pages.old) (P.seen pages.new) 9 }
    ensures readable { AllReadable (P.seen pages.new) }
    ensures gets { P.tells → (height : ℕ) (nodes : List ℕ) (items : List Item)
        → IsIndex (P.seen pages.old).pages (root_of (P.seen pages.old).pages cache) height nodes items
        → IfOk result (λ link. link ≡ link_in items key.now) }
    ensures cause { HasLookCause P.tells (P.seen pages.old) (P.seen pages.new) cache result }
    ensures sound { P.tells → PassesAll (P.seen pages.old) → (height : ℕ) (nodes : List ℕ) (items : List Item)
        → IsIndex (P.seen pages.old).pages (root_of (P.seen pages.old).pages cache) height nodes items
        → NoBadPage result }
{
    match find_number(pages, MetaSlot::Root(cache))? {
        None => Ok(None),
        Some(root) => {
            if root == 0 {
                return Ok(None);
            }
            descend(pages, cache, root, key)
        }
    }
}

// Looks for a key from a root on.
fn descend<P: Pages>(
    pages: &mut P,
    cache: u8,
    root: u32,
    key: &[u8],
) -> Result<Option<Link>, PageFault>
    requires ready { P.ready pages.old }
    requires meta { HasMeta (P.seen pages.old) }
    requires room { 8 ≤ (P.seen pages.old).spare }
    requires readable { AllReadable (P.seen pages.old) }
    requires root { IsNumberIn (P.seen pages.old) (Root cache) root }
    ensures kept { P.kept pages.old pages.new }
    ensures looks { LooksAtPages P.tells (P.seen pages.old) (P.seen pages.new) 8 }
    ensures readable { AllReadable (P.seen pages.new) }
    ensures gets { P.tells → (word : Option ℕ)
        → AnswersFrom (P.seen pages.old).pages key.now LEVELS_MAX root word
        → IfOk result (λ link. link ≡ option_map as_link word) }
    ensures cause { HasLookCause P.tells (P.seen pages.old) (P.seen pages.new) cache result }
    ensures sound { P.tells → PassesAll (P.seen pages.old) → (word : Option ℕ)
        → AnswersFrom (P.seen pages.old).pages key.now LEVELS_MAX root word → NoBadPage result }
{
    let count = number(pages, MetaSlot::Pages)?;
    let mut from = 0;
    let mut at = root;
    'levels: for _level in 0..LEVELS_MAX {
        match look(pages, count, at, key)? {
            Step::Word(word) => return Ok(link_of(word)),
            Step::Child(child) => {
                from = at;
                at = child;
            }
            Step::Other => return Err(PageFault::BadPage(PageId::new(pages.part(), from))),
        }
    }
    Err(PageFault::BadPage(PageId::new(pages.part(), from)))
}

/// The link that a word of a leaf is; none where there is no word.
pub fn link_of(word: Option<u64>) -> Option<Link>
    ensures { result ≡ option_map as_link word }
{
    word.map(Link)
}

// What a page on the way from the root says of a key, the page that names it given.
fn look<P: Pages>(pages: &mut P, count: u32, at: u32, key: &[u8]) -> Result<Step, PageFault>
    requires ready { P.ready pages.old }
    requires room { HasRoomFor (P.seen pages.old) at }
    requires readable { AllReadable (P.seen pages.old) }
    ensures kept { P.kept pages.old pages.new }
    ensures looks { LooksAtPages P.tells (P.seen pages.old) (P.seen pages.new) 1 }
    ensures readable { AllReadable (P.seen pages.new) }
    ensures step { IfOk result (IsLook (P.seen pages.new) count at key.now) }
    ensures cause { HasPageCause P.tells (P.seen pages.old) (P.seen pages.new).faults at result }
{
    if at == 0 || at >= count {
        return Ok(Step::Other);
    }
    match pages.view(at)? {
        // Not reached: page `at` isn't the first one.
        None => Ok(Step::Other),
        Some(page) => Ok(step_on(page, key)),
    }
}
