//! Links that are set at keys of an index.

ghost use Rattle.std.specs.Prelude.{◌≡◌, ◌≢◌, ℕ, ◌-◌, ◌<◌, ◌≤◌, List, [], Some, OnOk, length};
ghost use Rattle.pm_types.specs.declared.limits.TheConstants.{CACHES};
ghost use Rattle.pm_types.specs.Keys.{HasKeyLength};
ghost use Rattle.pm_btpage.specs.IndexPages.{Item};
ghost use Rattle.pm_btpage.specs.Stored.{IsLink};
ghost use Rattle.pm_meta.specs.declared.slots.MetaSlot.TheVariants.{Pages};
ghost use Rattle.pm_pages.specs.Trees.{root_of};
ghost use Rattle.pm_pages.specs.Paged.{AllReadable, IsLent};
ghost use Rattle.pm_pages.specs.Edits.{EditsPages, RewritesPage, HasMeta, IsNumberIn, HasDiskCause};
ghost use Rattle.pm_tree.specs.declared.edits.Edit.TheVariants.{Word};
ghost use Rattle.pm_tree.specs.declared.put.Put.TheVariants.{Kept};
ghost use Rattle.pm_tree.specs.Edits.{TakesEdit, EditsNode, EditsNodeAt};
ghost use Rattle.pm_tree.specs.Puts.{PutsFor, half_of};
ghost use Rattle.pm_tree.specs.Divisions.{PutsPages};
ghost use Rattle.pm_tree.specs.Indexes.{IsIndex, link_in};
ghost use Rattle.pm_tree.specs.Roots.{PutsIndex};
ghost use Rattle.pm_tree.specs.SoundPuts.{FindsKey};
ghost use Rattle.pm_types.specs.declared.page_id.Link.{Link};
ghost use Rattle.pm_pages.specs.SoundPages.{PassesAll, NoBadPage};
ghost use Rattle.pm_part.specs.Ways.{IsWay};
ghost use Rattle.pm_part.specs.Faults.{HasPartCause, IsFaultOfRelink};

use pm_btpage::set_word;
use pm_meta::MetaSlot;
use pm_pages::{LEVELS_MAX, Pages, number};
use pm_tree::{Place, find_place};
use pm_types::{Link, PageFault, PageId, Patch};

/// Sets the link of a key that a cache's index has. Only its leaf is changed.
///
/// `BadPage` names a page on the key's way that is bad, or one that leads the key to a wrong page, or the
/// key's leaf where it has no item of the key; it never comes where all pages pass their checks and the
/// index has the key.
pub fn relink<P: Pages>(pages: &mut P, cache: u8, key: &[u8], link: Link) -> Result<(), PageFault>
    requires ready { P.ready pages.old }
    requires meta { HasMeta (P.seen pages.old) }
    requires room { 8 ≤ (P.seen pages.old).spare }
    requires cache { cache < CACHES }
    requires readable { AllReadable (P.seen pages.old) }
    ensures kept { P.kept pages.old pages.new }
    ensures readable { AllReadable (P.seen pages.new) }
    ensures changes { OnOk result (PutsPages P.tells (P.seen pages.old) (P.seen pages.new) 8
        (IsLink (P.seen pages.old).part link.0)) }
    ensures links { OnOk result (P.tells → (height : ℕ) (nodes : List ℕ) (items : List Item)
        → IsIndex (P.seen pages.old).pages (root_of (P.seen pages.old).pages cache) height nodes items
        → PutsIndex (P.seen pages.old).pages (P.seen pages.new).pages cache nodes items key.now link.0
        (link_in items key.now)) }
    ensures cause { HasPartCause P.tells (P.seen pages.old) (P.seen pages.new)
        (IsFaultOfRelink P.tells (P.seen pages.new) cache key.now) result }
    ensures sound { P.tells → PassesAll (P.seen pages.old) → (height : ℕ) (nodes : List ℕ) (items : List Item)
        → IsIndex (P.seen pages.old).pages (root_of (P.seen pages.old).pages cache) height nodes items
        → (held : Link) → link_in items key.now ≡ Some held → NoBadPage result }
{
    let count = number(pages, MetaSlot::Pages)?;
    let root = number(pages, MetaSlot::Root(cache))?;
    relink_at(pages, cache, count, 0, root, key, link.0, LEVELS_MAX)
}

// Sets the word of a key in the tree of at most so many levels at page `at`, to which page `from` leads
// the key.
fn relink_at<P: Pages>(
    pages: &mut P,
    cache: u8,
    count: u32,
    from: u32,
    at: u32,
    key: &[u8],
    word: u64,
    levels: u32,
) -> Result<(), PageFault>
    requires ready { P.ready pages.old }
    requires meta { HasMeta (P.seen pages.old) }
    requires room { levels ≤ (P.seen pages.old).spare }
    requires readable { AllReadable (P.seen pages.old) }
    requires count { IsNumberIn (P.seen pages.old) Pages count }
    requires levels { levels ≤ 8 }
    requires way { IsWay (P.seen pages.old) cache key.now (8 - levels) from at }
    ensures kept { P.kept pages.old pages.new }
    ensures readable { AllReadable (P.seen pages.new) }
    ensures changes { OnOk result (PutsPages P.tells (P.seen pages.old) (P.seen pages.new) levels
        (IsLink (P.seen pages.old).part word)) }
    ensures links { OnOk result (P.tells → (was : ℕ)
        × PutsFor (P.seen pages.old).pages (P.seen pages.new).pages (half_of (P.seen pages.old).page_size)
        levels at key.now word (Kept (Some was))) }
    ensures some { OnOk result (1 ≤ at) }
    ensures cause { HasPartCause P.tells (P.seen pages.old) (P.seen pages.new)
        (IsFaultOfRelink P.tells (P.seen pages.new) cache key.now) result }
    ensures sound { FindsKey P.tells (P.seen pages.old) levels at key.now → NoBadPage result }
{
    if levels == 0 {
        return Err(PageFault::BadPage(PageId::new(pages.part(), from)));
    }
    match find_place(pages, count, at, key)? {
        Place::Held(i, _was) => set_item(pages, at, i, word),
        Place::Below(_i, child) => {
            relink_at(pages, cache, count, at, child, key, word, levels - 1)
        }
        Place::Gap(_i) => Err(PageFault::BadPage(PageId::new(pages.part(), at))),
        Place::Full(_i) => Err(PageFault::BadPage(PageId::new(pages.part(), at))),
        Place::Other => Err(PageFault::BadPage(PageId::new(pages.part(), from))),
    }
}

// Sets the word of an item of a leaf that is at hand.
fn set_item<P: Pages>(pages: &mut P, at: u32, i: u16, word: u64) -> Result<(), PageFault>
    requires ready { P.ready pages.old }
    requires takes { TakesEdit (P.seen pages.old) at [] (Word i word) }
    requires readable { AllReadable (P.seen pages.old) }
    ensures kept { P.kept pages.old pages.new }
    ensures edits { EditsPages P.tells (P.seen pages.old) (P.seen pages.new) (λ j. j ≡ at) 0 }
    ensures readable { AllReadable (P.seen pages.new) }
    ensures edited { OnOk result (EditsNodeAt (P.seen pages.old) (P.seen pages.new) at [] (Word i word)) }
    ensures cause { HasDiskCause (P.seen pages.old) (P.seen pages.new).faults result }
{
    pages.change(at)?;
    set_lent(pages, at, i, word);
    Ok(())
}

fn set_lent<P: Pages>(pages: &mut P, at: u32, i: u16, word: u64)
    requires ready { P.ready pages.old }
    requires lent { IsLent (P.seen pages.old) at }
    requires takes { TakesEdit (P.seen pages.old) at [] (Word i word) }
    requires readable { AllReadable (P.seen pages.old) }
    ensures kept { P.kept pages.old pages.new }
    ensures edits { EditsPages P.tells (P.seen pages.old) (P.seen pages.new) (λ j. j ≡ at) 0 }
    ensures readable { AllReadable (P.seen pages.new) }
    ensures edited { EditsNodeAt (P.seen pages.old) (P.seen pages.new) at [] (Word i word) }
{
    let mut patch = Patch::none(pages.page_size());
    put_word(pages, at, i, word, &mut patch);
    pages.note(at, &patch);
}

fn put_word<P: Pages>(pages: &mut P, at: u32, i: u16, word: u64, patch: &mut Patch)
    requires ready { P.ready pages.old }
    requires lent { IsLent (P.seen pages.old) at }
    requires takes { TakesEdit (P.seen pages.old) at [] (Word i word) }
    requires size { patch.old.page_size ≡ (P.seen pages.old).page_size }
    ensures kept { P.kept pages.old pages.new }
    ensures writes { RewritesPage (P.seen pages.old) (P.seen pages.new) at patch.old patch.new
        (λ was now. EditsNode was [] (Word i word) now) }
{
    let page = pages.page_mut(at);
    set_word(page, i, word, patch);
}
