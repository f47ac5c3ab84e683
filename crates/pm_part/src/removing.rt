//! Removals.

ghost use Rattle.std.specs.Prelude.{◌≡◌, ℕ, ◌<◌, ◌≤◌, true, false, IfOk, OnOk, IsTrue};
ghost use Rattle.pm_types.specs.declared.shape.Shape.{Shape};
ghost use Rattle.pm_types.specs.declared.limits.TheConstants.{CACHES};
ghost use Rattle.pm_pages.specs.Paged.{AllReadable};
ghost use Rattle.pm_pages.specs.Edits.{EditsPages, LooksAtPages, HasMeta};
ghost use Rattle.pm_part.specs.Entries.{IsEntryIn};
ghost use Rattle.pm_part.specs.Spots.{HasRowIn};
ghost use Rattle.pm_part.specs.Changes.{ChangesPages};
ghost use Rattle.pm_part.specs.Faults.{HasPartCause, IsFaultOfRemove};
ghost use Rattle.pm_part.specs.Removals.{DropsKey, RemovesKey};
ghost use Rattle.pm_part.specs.Runs.{IsPartitionOf};
ghost use Rattle.pm_part.specs.RowNames.{NamesRow};
ghost use Rattle.pm_pages.specs.SoundPages.{NoBadPage};
ghost use Rattle.pm_tree.specs.Indexes.{as_link};

use crate::entries::{Entry, find_entry};
use crate::spots::{Spot, find_row};
use pm_free::take_out;
use pm_meta::MetaSlot;
use pm_pages::{Pages, number, set_number};
use pm_tree_del::tree_remove;
use pm_types::PageFault;

/// Takes a key of a cache out, and says whether it was there.
///
/// `Failed` comes only where a call on the disk failed. `BadPage` names a page that is bad, or one
/// that names a wrong page or row; it never comes of a well-formed partition. After an error some
/// pages may be half changed.
pub fn remove<P: Pages>(pages: &mut P, cache: u8, key: &[u8]) -> Result<bool, PageFault>
    requires ready { P.ready pages.old }
    requires room { 29 ≤ (P.seen pages.old).spare }
    requires cache { cache < CACHES }
    requires readable { AllReadable (P.seen pages.old) }
    ensures kept { P.kept pages.old pages.new }
    ensures readable { AllReadable (P.seen pages.new) }
    ensures changes { OnOk result (EditsPages P.tells (P.seen pages.old) (P.seen pages.new)
        (λ j. IsTrue ((P.seen pages.new).asked j)) 29) }
    ensures refused { IfOk result (λ was. was ≡ false
        → LooksAtPages P.tells (P.seen pages.old) (P.seen pages.new) 29) }
    ensures cause { HasPartCause P.tells (P.seen pages.old) (P.seen pages.new)
        (IsFaultOfRemove P.tells (P.seen pages.new) cache key.now) result }
    ensures removes { IfOk result (λ was. P.tells → (shape : Shape) → IsPartitionOf shape (P.seen pages.old)
        → IsPartitionOf shape (P.seen pages.new)
        × RemovesKey (P.seen pages.old).part (P.seen pages.old).pages (P.seen pages.new).pages
        cache key.now was) }
    ensures sound { P.tells → (shape : Shape) → IsPartitionOf shape (P.seen pages.old) → NoBadPage result }
{
    match find_entry(pages, cache, key)? {
        None => Ok(false),
        Some(entry) => remove_held(pages, entry, cache, key),
    }
}

// Takes out a key that is there, of which this is the entry.
fn remove_held<P: Pages>(
    pages: &mut P,
    entry: Entry,
    cache: u8,
    key: &[u8],
) -> Result<bool, PageFault>
    requires ready { P.ready pages.old }
    requires room { 20 ≤ (P.seen pages.old).spare }
    requires cache { cache < CACHES }
    requires entry { IsEntryIn (P.seen pages.old) cache key.now entry }
    requires readable { AllReadable (P.seen pages.old) }
    ensures kept { P.kept pages.old pages.new }
    ensures readable { AllReadable (P.seen pages.new) }
    ensures changes { OnOk result (ChangesPages P.tells (P.seen pages.old) (P.seen pages.new) 20) }
    ensures done { IfOk result (λ was. was ≡ true) }
    ensures cause { HasPartCause P.tells (P.seen pages.old) (P.seen pages.new)
        (IsFaultOfRemove P.tells (P.seen pages.new) cache key.now) result }
    ensures removes { IfOk result (λ was. P.tells → (shape : Shape) → IsPartitionOf shape (P.seen pages.old)
        → IsPartitionOf shape (P.seen pages.new)
        × RemovesKey (P.seen pages.old).part (P.seen pages.old).pages (P.seen pages.new).pages
        cache key.now was) }
    ensures sound { P.tells → (shape : Shape) → IsPartitionOf shape (P.seen pages.old)
        → NamesRow (P.seen pages.old).part (P.seen pages.old).pages (as_link entry.word) cache key.now
        → NoBadPage result }
{
    let spot = find_row(pages, entry, cache, key)?;
    drop_row(pages, cache, key, spot)?;
    Ok(true)
}

// Takes out a row and its key.
fn drop_row<P: Pages>(pages: &mut P, cache: u8, key: &[u8], spot: Spot) -> Result<(), PageFault>
    requires ready { P.ready pages.old }
    requires meta { HasMeta (P.seen pages.old) }
    requires room { 19 ≤ (P.seen pages.old).spare }
    requires cache { cache < CACHES }
    requires has { HasRowIn (P.seen pages.old) spot cache key.now }
    requires readable { AllReadable (P.seen pages.old) }
    ensures kept { P.kept pages.old pages.new }
    ensures readable { AllReadable (P.seen pages.new) }
    ensures changes { OnOk result (ChangesPages P.tells (P.seen pages.old) (P.seen pages.new) 19) }
    ensures cause { HasPartCause P.tells (P.seen pages.old) (P.seen pages.new)
        (IsFaultOfRemove P.tells (P.seen pages.new) cache key.now) result }
    ensures drops { OnOk result (P.tells → (shape : Shape) → IsPartitionOf shape (P.seen pages.old)
        → IsPartitionOf shape (P.seen pages.new)
        × DropsKey (P.seen pages.old).part (P.seen pages.old).pages (P.seen pages.new).pages
        cache key.now) }
    ensures sound { P.tells → (shape : Shape) → IsPartitionOf shape (P.seen pages.old) → NoBadPage result }
{
    let rows = number(pages, MetaSlot::Rows)?;
    let link = spot.link(pages.part());
    take_out(pages, link)?;
    tree_remove(pages, cache, key)?;
    set_number(pages, MetaSlot::Rows, rows.saturating_sub(1))
}
