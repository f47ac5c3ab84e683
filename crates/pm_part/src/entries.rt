//! What the index of a cache says of a key.

ghost use Rattle.std.specs.Prelude.{◌≡◌, ℕ, ◌+◌, ◌<◌, ◌≤◌, List, Option, IfOk, IfSome};
ghost use Rattle.pm_types.specs.declared.limits.TheConstants.{CACHES};
ghost use Rattle.pm_btpage.specs.IndexPages.{Item};
ghost use Rattle.pm_meta.specs.declared.slots.MetaSlot.TheVariants.{Root};
ghost use Rattle.pm_pages.specs.declared.limits.TheConstants.{LEVELS_MAX};
ghost use Rattle.pm_pages.specs.Trees.{root_of};
ghost use Rattle.pm_pages.specs.Paged.{AllReadable};
ghost use Rattle.pm_pages.specs.Edits.{LooksAtPages, HasMeta, IsNumberIn};
ghost use Rattle.pm_tree.specs.Maps.{get_in};
ghost use Rattle.pm_tree.specs.Indexes.{AnswersFrom, IsIndex, as_link};
ghost use Rattle.pm_pages.specs.SoundPages.{PassesAll, NoBadPage};
ghost use Rattle.pm_part.specs.Entries.{IsEntryIn, word_of};
ghost use Rattle.pm_part.specs.Ways.{HasWayCause};

use pm_meta::MetaSlot;
use pm_pages::{LEVELS_MAX, Pages, find_number, number};
use pm_tree::{Place, find_place};
use pm_types::{Link, PageFault, PageId};

/// The item of a key in a leaf.
#[derive(Clone, Copy, Debug, PartialEq, Eq, Drop)]
pub struct Entry {
    /// The index of the leaf.
    pub leaf: u32,
    /// The number of the item.
    pub item: u16,
    /// The item's word, which is the name of the key's row.
    pub word: u64,
}

/// The item of a key in the index of a cache; `None` where the key isn't there. No page is changed.
///
/// `Failed` comes only where a call on the disk failed. `BadPage` names a page on the key's way from the
/// root that is bad, or one that leads the key to a wrong page.
pub fn find_entry<P: Pages>(
    pages: &mut P,
    cache: u8,
    key: &[u8],
) -> Result<Option<Entry>, PageFault>
    requires ready { P.ready pages.old }
    requires room { 9 ≤ (P.seen pages.old).spare }
    requires cache { cache < CACHES }
    requires readable { AllReadable (P.seen pages.old) }
    ensures kept { P.kept pages.old pages.new }
    ensures looks { LooksAtPages P.tells (P.seen pages.old) (P.seen pages.new) 9 }
    ensures readable { AllReadable (P.seen pages.new) }
    ensures entry { IfOk result (λ entry. IfSome entry (IsEntryIn (P.seen pages.new) cache key.now)) }
    ensures gets { P.tells → (height : ℕ) (nodes : List ℕ) (items : List Item)
        → IsIndex (P.seen pages.old).pages (root_of (P.seen pages.old).pages cache) height nodes items
        → IfOk result (λ entry. word_of entry ≡ get_in items key.now) }
    ensures cause { HasWayCause P.tells (P.seen pages.old) (P.seen pages.new) cache key.now result }
    ensures sound { P.tells → PassesAll (P.seen pages.old) → (height : ℕ) (nodes : List ℕ) (items : List Item)
        → IsIndex (P.seen pages.old).pages (root_of (P.seen pages.old).pages cache) height nodes items
        → NoBadPage result }
{
    match find_number(pages, MetaSlot::Root(cache))? {
        None => Ok(None),
        Some(root) => {
            if root == 0 {
                return Ok(None);
            }
            descend(pages, cache, root, key)
        }
    }
}

// Looks for the item of a key from a root on.
fn descend<P: Pages>(
    pages: &mut P,
    cache: u8,
    root: u32,
    key: &[u8],
) -> Result<Option<Entry>, PageFault>
    requires ready { P.ready pages.old }
    requires meta { HasMeta (P.seen pages.old) }
    requires room { 8 ≤ (P.seen pages.old).spare }
    requires readable { AllReadable (P.seen pages.old) }
    requires root { IsNumberIn (P.seen pages.old) (Root cache) root }
    ensures kept { P.kept pages.old pages.new }
    ensures looks { LooksAtPages P.tells (P.seen pages.old) (P.seen pages.new) 8 }
    ensures readable { AllReadable (P.seen pages.new) }
    ensures entry { IfOk result (λ entry. IfSome entry (IsEntryIn (P.seen pages.new) cache key.now)) }
    ensures gets { P.tells → (word : Option ℕ)
        → AnswersFrom (P.seen pages.old).pages key.now LEVELS_MAX root word
        → IfOk result (λ entry. word_of entry ≡ word) }
    ensures cause { HasWayCause P.tells (P.seen pages.old) (P.seen pages.new) cache key.now result }
    ensures sound { P.tells → PassesAll (P.seen pages.old) → (word : Option ℕ)
        → AnswersFrom (P.seen pages.old).pages key.now LEVELS_MAX root word → NoBadPage result }
{
    let count = number(pages, MetaSlot::Pages)?;
    let mut from = 0;
    let mut at = root;
    'levels: for _level in 0..LEVELS_MAX {
        match find_place(pages, count, at, key)? {
            Place::Held(item, word) => {
                return Ok(Some(Entry {
                    leaf: at,
                    item,
                    word,
                }));
            }
            Place::Gap(_) => return Ok(None),
            Place::Full(_) => return Ok(None),
            Place::Below(_, child) => {
                from = at;
                at = child;
            }
            Place::Other => return Err(PageFault::BadPage(PageId::new(pages.part(), from))),
        }
    }
    Err(PageFault::BadPage(PageId::new(pages.part(), from)))
}

impl Entry {
    /// The name of the key's row.
    pub fn link(&self) -> Link
        ensures { result ≡ as_link self.now.word }
    {
        Link(self.word)
    }
}
