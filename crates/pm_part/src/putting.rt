//! Puts.

ghost use Rattle.std.specs.Prelude.{◌≡◌, ◌≢◌, ℕ, ◌+◌, ◌-◌, ◌^◌, ◌<◌};
ghost use Rattle.std.specs.Prelude.{◌≤◌, List, None, true, false, IfOk, OnOk, IsTrue, IfSome, IsSomeAnd, length};
ghost use Rattle.pm_types.specs.declared.limits.TheConstants.{CACHES};
ghost use Rattle.pm_types.specs.Keys.{HasKeyLength, HasValueLength};
ghost use Rattle.pm_data.specs.Rows.{IsRow};
ghost use Rattle.pm_pages.specs.PageLists.{ReadsAt};
ghost use Rattle.pm_pages.specs.Paged.{HasRoomFor, AllReadable, IsLent, IsWhole, WritesPage};
ghost use Rattle.pm_pages.specs.Edits.{EditsPages, LooksAtPages, HasMeta, HasDiskCause, IsNumberIn};
ghost use Rattle.pm_part.specs.Entries.{IsEntryIn, HasEntry};
ghost use Rattle.pm_part.specs.Spots.{HasRowIn};
ghost use Rattle.pm_part.specs.Changes.{ChangesPages};
ghost use Rattle.pm_part.specs.NewMeta.{IsNewMeta, HasNewMeta};
ghost use Rattle.pm_part.specs.RowBytes.{IsRowOf};
ghost use Rattle.pm_part.specs.Runs.{IsPartitionOf};
ghost use Rattle.pm_part.specs.SoundPuts.{MayTakeRow};
ghost use Rattle.pm_part.specs.RowNames.{NamesRow};
ghost use Rattle.pm_pages.specs.SoundPages.{NoBadPage};
ghost use Rattle.pm_tree.specs.Indexes.{as_link};
ghost use Rattle.pm_part.specs.Puts.{ReplacesKey, AddsKey, IsPartFor, PutsKey, LacksItem, MayAddRow};
ghost use Rattle.pm_types.specs.declared.shape.Shape.{Shape};
ghost use Rattle.pm_btpage.specs.IndexPages.{Item};
ghost use Rattle.pm_meta.specs.declared.slots.MetaSlot.TheVariants.{Rows};
ghost use Rattle.pm_pages.specs.Trees.{root_of};
ghost use Rattle.pm_pages.specs.SpareChains.{HasSpare};
ghost use Rattle.pm_tree.specs.Indexes.{IsIndex};
ghost use Rattle.pm_part.specs.Faults.{HasPartCause, IsFaultOfPut};

use crate::entries::{Entry, find_entry};
use crate::overwriting::overwrite;
use crate::relinking::relink;
use crate::rows::{ROW_MAX, write_row};
use crate::spots::{Spot, find_row};
use pm_free::place;
use pm_meta::{MetaSlot, fresh};
use pm_pages::{Pages, find_number, set_number};
use pm_tree::tree_put;
use pm_types::{PageFault, PageId};

/// Sets the value of a key of a cache. `false` comes where the key is new and the partition has as
/// many rows as it may have; nothing is changed then. A well-formed partition stays one.
///
/// Errors come as in `remove`: `BadPage` never comes of a well-formed partition.
pub fn put<P: Pages>(
    pages: &mut P,
    max_rows: u32,
    cache: u8,
    key: &[u8],
    value: &[u8],
) -> Result<bool, PageFault>
    requires ready { P.ready pages.old }
    requires room { 32 ≤ (P.seen pages.old).spare }
    requires cache { cache < CACHES }
    requires key { HasKeyLength key.now }
    requires value { HasValueLength value.now }
    requires most { max_rows < 2 ^ 32 - 1 }
    requires readable { AllReadable (P.seen pages.old) }
    ensures kept { P.kept pages.old pages.new }
    ensures readable { AllReadable (P.seen pages.new) }
    ensures changes { OnOk result (EditsPages P.tells (P.seen pages.old) (P.seen pages.new)
        (λ j. IsTrue ((P.seen pages.new).asked j)) 32) }
    ensures refused { IfOk result (λ done. done ≡ false
        → LooksAtPages P.tells (P.seen pages.old) (P.seen pages.new) 32) }
    ensures cause { HasPartCause P.tells (P.seen pages.old) (P.seen pages.new)
        (IsFaultOfPut P.tells (P.seen pages.new) cache key.now) result }
    ensures puts { IfOk result (λ done. P.tells → (shape : Shape)
        → IsPartFor shape (P.seen pages.old) max_rows key.now
        → IsPartitionOf shape (P.seen pages.new)
        × PutsKey shape (P.seen pages.old).part (P.seen pages.old).pages (P.seen pages.new).pages
        cache key.now value.now done) }
    ensures sound { P.tells → (shape : Shape) → IsPartitionOf shape (P.seen pages.old) → NoBadPage result }
{
    let mut room = [0; ROW_MAX];
    let len = write_row(&mut room, cache, key, value);
    put_row(pages, max_rows, cache, key, &room[..len])
}

fn put_row<P: Pages>(
    pages: &mut P,
    max_rows: u32,
    cache: u8,
    key: &[u8],
    row: &[u8],
) -> Result<bool, PageFault>
    requires ready { P.ready pages.old }
    requires room { 32 ≤ (P.seen pages.old).spare }
    requires cache { cache < CACHES }
    requires key { HasKeyLength key.now }
    requires row { IsRow row.now }
    requires most { max_rows < 2 ^ 32 - 1 }
    requires readable { AllReadable (P.seen pages.old) }
    ensures kept { P.kept pages.old pages.new }
    ensures readable { AllReadable (P.seen pages.new) }
    ensures changes { OnOk result (EditsPages P.tells (P.seen pages.old) (P.seen pages.new)
        (λ j. IsTrue ((P.seen pages.new).asked j)) 32) }
    ensures refused { IfOk result (λ done. done ≡ false
        → LooksAtPages P.tells (P.seen pages.old) (P.seen pages.new) 32) }
    ensures cause { HasPartCause P.tells (P.seen pages.old) (P.seen pages.new)
        (IsFaultOfPut P.tells (P.seen pages.new) cache key.now) result }
    ensures puts { IfOk result (λ done. P.tells → (shape : Shape)
        → IsPartFor shape (P.seen pages.old) max_rows key.now
        → (value : List ℕ) → IsRowOf cache key.now value row.now
        → IsPartitionOf shape (P.seen pages.new)
        × PutsKey shape (P.seen pages.old).part (P.seen pages.old).pages (P.seen pages.new).pages
        cache key.now value done) }
    ensures sound { P.tells → (shape : Shape) → IsPartitionOf shape (P.seen pages.old) → NoBadPage result }
{
    match find_entry(pages, cache, key)? {
        None => put_new(pages, max_rows, cache, key, row),
        Some(entry) => put_held(pages, entry, cache, key, row),
    }
}

// Puts a row of a key that is there, of which this is the entry.
fn put_held<P: Pages>(
    pages: &mut P,
    entry: Entry,
    cache: u8,
    key: &[u8],
    row: &[u8],
) -> Result<bool, PageFault>
    requires ready { P.ready pages.old }
    requires room { 16 ≤ (P.seen pages.old).spare }
    requires cache { cache < CACHES }
    requires row { IsRow row.now }
    requires entry { IsEntryIn (P.seen pages.old) cache key.now entry }
    requires readable { AllReadable (P.seen pages.old) }
    ensures kept { P.kept pages.old pages.new }
    ensures readable { AllReadable (P.seen pages.new) }
    ensures changes { OnOk result (ChangesPages P.tells (P.seen pages.old) (P.seen pages.new) 16) }
    ensures done { IfOk result (λ done. done ≡ true) }
    ensures cause { HasPartCause P.tells (P.seen pages.old) (P.seen pages.new)
        (IsFaultOfPut P.tells (P.seen pages.new) cache key.now) result }
    ensures puts { IfOk result (λ done. P.tells → (shape : Shape) → IsPartitionOf shape (P.seen pages.old)
        → (value : List ℕ) → IsRowOf cache key.now value row.now
        → IsPartitionOf shape (P.seen pages.new)
        × PutsKey shape (P.seen pages.old).part (P.seen pages.old).pages (P.seen pages.new).pages
        cache key.now value done) }
    ensures sound { P.tells → (shape : Shape) → IsPartitionOf shape (P.seen pages.old)
        → NamesRow (P.seen pages.old).part (P.seen pages.old).pages (as_link entry.word) cache key.now
        → NoBadPage result }
{
    let spot = find_row(pages, entry, cache, key)?;
    replace_row(pages, cache, key, spot, row)?;
    Ok(true)
}

// Puts a row in the place of that which its key has. The leaf is changed only where the row's name
// is another.
fn replace_row<P: Pages>(
    pages: &mut P,
    cache: u8,
    key: &[u8],
    spot: Spot,
    row: &[u8],
) -> Result<(), PageFault>
    requires ready { P.ready pages.old }
    requires meta { HasMeta (P.seen pages.old) }
    requires room { 15 ≤ (P.seen pages.old).spare }
    requires cache { cache < CACHES }
    requires row { IsRow row.now }
    requires has { HasRowIn (P.seen pages.old) spot cache key.now }
    requires held { HasEntry (P.seen pages.old) cache key.now }
    requires readable { AllReadable (P.seen pages.old) }
    ensures kept { P.kept pages.old pages.new }
    ensures readable { AllReadable (P.seen pages.new) }
    ensures changes { OnOk result (ChangesPages P.tells (P.seen pages.old) (P.seen pages.new) 15) }
    ensures cause { HasPartCause P.tells (P.seen pages.old) (P.seen pages.new)
        (IsFaultOfPut P.tells (P.seen pages.new) cache key.now) result }
    ensures replaces { OnOk result (P.tells → (shape : Shape) → IsPartitionOf shape (P.seen pages.old)
        → (value : List ℕ) → IsRowOf cache key.now value row.now
        → IsPartitionOf shape (P.seen pages.new)
        × ReplacesKey (P.seen pages.old).part (P.seen pages.old).pages (P.seen pages.new).pages
        cache key.now value) }
    ensures sound { P.tells → (shape : Shape) → IsPartitionOf shape (P.seen pages.old) → NoBadPage result }
{
    let old = spot.link(pages.part());
    let link = overwrite(pages, spot, row)?;
    if link == old {
        return Ok(());
    }
    relink(pages, cache, key, link)
}

// Puts a row of a new key. The first row of a partition makes its meta page.
fn put_new<P: Pages>(
    pages: &mut P,
    max_rows: u32,
    cache: u8,
    key: &[u8],
    row: &[u8],
) -> Result<bool, PageFault>
    requires ready { P.ready pages.old }
    requires room { 23 ≤ (P.seen pages.old).spare }
    requires cache { cache < CACHES }
    requires key { HasKeyLength key.now }
    requires row { IsRow row.now }
    requires most { max_rows < 2 ^ 32 - 1 }
    requires readable { AllReadable (P.seen pages.old) }
    ensures kept { P.kept pages.old pages.new }
    ensures readable { AllReadable (P.seen pages.new) }
    ensures changes { OnOk result (EditsPages P.tells (P.seen pages.old) (P.seen pages.new)
        (λ j. IsTrue ((P.seen pages.new).asked j)) 23) }
    ensures refused { IfOk result (λ done. done ≡ false
        → LooksAtPages P.tells (P.seen pages.old) (P.seen pages.new) 23) }
    ensures cause { HasPartCause P.tells (P.seen pages.old) (P.seen pages.new)
        (IsFaultOfPut P.tells (P.seen pages.new) cache key.now) result }
    ensures puts { IfOk result (λ done. P.tells → (shape : Shape)
        → IsPartFor shape (P.seen pages.old) max_rows key.now
        → LacksItem (P.seen pages.old).pages cache key.now
        → (value : List ℕ) → IsRowOf cache key.now value row.now
        → IsPartitionOf shape (P.seen pages.new)
        × PutsKey shape (P.seen pages.old).part (P.seen pages.old).pages (P.seen pages.new).pages
        cache key.now value done) }
    ensures sound { P.tells → (shape : Shape) → IsPartitionOf shape (P.seen pages.old) → NoBadPage result }
{
    match find_number(pages, MetaSlot::Rows)? {
        None => put_first(pages, cache, key, row),
        Some(rows) => put_next(pages, max_rows, rows, cache, key, row),
    }
}

// Puts the first row of a partition, which has no meta page.
fn put_first<P: Pages>(pages: &mut P, cache: u8, key: &[u8], row: &[u8]) -> Result<bool, PageFault>
    requires ready { P.ready pages.old }
    requires room { 22 ≤ (P.seen pages.old).spare }
    requires cache { cache < CACHES }
    requires key { HasKeyLength key.now }
    requires row { IsRow row.now }
    requires readable { AllReadable (P.seen pages.old) }
    ensures kept { P.kept pages.old pages.new }
    ensures readable { AllReadable (P.seen pages.new) }
    ensures changes { OnOk result (ChangesPages P.tells (P.seen pages.old) (P.seen pages.new) 22) }
    ensures cause { HasPartCause P.tells (P.seen pages.old) (P.seen pages.new)
        (IsFaultOfPut P.tells (P.seen pages.new) cache key.now) result }
    ensures adds { IfOk result (λ done. (done ≡ true) × (P.tells → (P.seen pages.old).pages 0 ≡ None
        → AddsKey (P.seen pages.old).part (P.seen pages.old).pages (P.seen pages.new).pages row.now 1)) }
    ensures stays { OnOk result (P.tells → (shape : Shape) → (max_rows : ℕ)
        → IsPartFor shape (P.seen pages.old) max_rows key.now
        → (value : List ℕ) → IsRowOf cache key.now value row.now
        → IsPartitionOf shape (P.seen pages.new)) }
    ensures sound { P.tells → (shape : Shape) → IsPartitionOf shape (P.seen pages.old)
        → (P.seen pages.old).pages 0 ≡ None → NoBadPage result }
{
    make_meta(pages)?;
    add_row(pages, 0, cache, key, row)?;
    Ok(true)
}

// Puts a row of a new key into a partition that has so many rows, unless it has as many as it may
// have.
fn put_next<P: Pages>(
    pages: &mut P,
    max_rows: u32,
    rows: u32,
    cache: u8,
    key: &[u8],
    row: &[u8],
) -> Result<bool, PageFault>
    requires ready { P.ready pages.old }
    requires meta { HasMeta (P.seen pages.old) }
    requires room { 21 ≤ (P.seen pages.old).spare }
    requires cache { cache < CACHES }
    requires key { HasKeyLength key.now }
    requires row { IsRow row.now }
    requires most { max_rows < 2 ^ 32 - 1 }
    requires rows { IsNumberIn (P.seen pages.old) Rows rows }
    requires readable { AllReadable (P.seen pages.old) }
    ensures kept { P.kept pages.old pages.new }
    ensures readable { AllReadable (P.seen pages.new) }
    ensures changes { OnOk result (ChangesPages P.tells (P.seen pages.old) (P.seen pages.new) 21) }
    ensures refused { IfOk result (λ done. done ≡ false
        → LooksAtPages P.tells (P.seen pages.old) (P.seen pages.new) 21) }
    ensures cause { HasPartCause P.tells (P.seen pages.old) (P.seen pages.new)
        (IsFaultOfPut P.tells (P.seen pages.new) cache key.now) result }
    ensures puts { IfOk result (λ done. P.tells → (shape : Shape)
        → IsPartFor shape (P.seen pages.old) max_rows key.now
        → LacksItem (P.seen pages.old).pages cache key.now
        → (value : List ℕ) → IsRowOf cache key.now value row.now
        → IsPartitionOf shape (P.seen pages.new)
        × PutsKey shape (P.seen pages.old).part (P.seen pages.old).pages (P.seen pages.new).pages
        cache key.now value done) }
    ensures sound { P.tells → (shape : Shape) → IsPartitionOf shape (P.seen pages.old) → NoBadPage result }
{
    if rows >= max_rows {
        return Ok(false);
    }
    add_row(pages, rows, cache, key, row)?;
    Ok(true)
}

// Adds a row to a partition that has so many.
fn add_row<P: Pages>(
    pages: &mut P,
    rows: u32,
    cache: u8,
    key: &[u8],
    row: &[u8],
) -> Result<(), PageFault>
    requires ready { P.ready pages.old }
    requires meta { HasMeta (P.seen pages.old) }
    requires room { 21 ≤ (P.seen pages.old).spare }
    requires cache { cache < CACHES }
    requires key { HasKeyLength key.now }
    requires row { IsRow row.now }
    requires few { rows < 2 ^ 32 - 1 }
    requires readable { AllReadable (P.seen pages.old) }
    ensures kept { P.kept pages.old pages.new }
    ensures readable { AllReadable (P.seen pages.new) }
    ensures changes { OnOk result (ChangesPages P.tells (P.seen pages.old) (P.seen pages.new) 21) }
    ensures cause { HasPartCause P.tells (P.seen pages.old) (P.seen pages.new)
        (IsFaultOfPut P.tells (P.seen pages.new) cache key.now) result }
    ensures adds { OnOk result (P.tells → HasSpare (P.seen pages.old).pages
        → (height : ℕ) (nodes : List ℕ) (items : List Item)
        → IsIndex (P.seen pages.old).pages (root_of (P.seen pages.old).pages cache) height nodes items
        → AddsKey (P.seen pages.old).part (P.seen pages.old).pages (P.seen pages.new).pages
        row.now (rows + 1)) }
    ensures stays { OnOk result (P.tells → (shape : Shape)
        → MayAddRow shape (P.seen pages.old) rows cache key.now
        → (value : List ℕ) → IsRowOf cache key.now value row.now
        → IsPartitionOf shape (P.seen pages.new)) }
    ensures sound { P.tells → MayTakeRow (P.seen pages.old) cache → NoBadPage result }
{
    let link = place(pages, row)?;
    tree_put(pages, cache, key, link)?;
    set_number(pages, MetaSlot::Rows, rows + 1)
}

// Makes the meta page of a partition that has none.
fn make_meta<P: Pages>(pages: &mut P) -> Result<(), PageFault>
    requires ready { P.ready pages.old }
    requires room { HasRoomFor (P.seen pages.old) 0 }
    requires readable { AllReadable (P.seen pages.old) }
    ensures kept { P.kept pages.old pages.new }
    ensures readable { AllReadable (P.seen pages.new) }
    ensures meta { OnOk result (HasMeta (P.seen pages.new)) }
    ensures new { OnOk result (HasNewMeta (P.seen pages.new)) }
    ensures edits { OnOk result (EditsPages P.tells (P.seen pages.old) (P.seen pages.new) (λ j. j ≡ 0) 1) }
    ensures cause { HasDiskCause (P.seen pages.old) (P.seen pages.new).faults result }
{
    pages.fresh(0)?;
    write_meta(pages);
    Ok(())
}

fn write_meta<P: Pages>(pages: &mut P)
    requires ready { P.ready pages.old }
    requires lent { IsLent (P.seen pages.old) 0 }
    requires whole { IsSomeAnd ((P.seen pages.old).patch 0) (IsWhole (P.seen pages.old).page_size) }
    requires others { (j : ℕ) → j ≢ 0 → IsTrue ((P.seen pages.old).known j)
        → IfSome ((P.seen pages.old).pages j) (ReadsAt j) }
    ensures kept { P.kept pages.old pages.new }
    ensures readable { AllReadable (P.seen pages.new) }
    ensures meta { HasMeta (P.seen pages.new) }
    ensures new { HasNewMeta (P.seen pages.new) }
    ensures edits { EditsPages P.tells (P.seen pages.old) (P.seen pages.new) (λ j. j ≡ 0) 0 }
{
    let id = PageId::new(pages.part(), 0);
    put_meta(pages, id);
}

fn put_meta<P: Pages>(pages: &mut P, id: PageId)
    requires ready { P.ready pages.old }
    requires lent { IsLent (P.seen pages.old) 0 }
    ensures kept { P.kept pages.old pages.new }
    ensures writes { (page : List ℕ) × WritesPage (P.seen pages.old) (P.seen pages.new) 0 page
        × IsNewMeta id page × (length page ≡ (P.seen pages.old).page_size) }
{
    // For the proof alone: a page has one of the sizes that pages may have.
    let _size = pages.page_size();
    let page = pages.page_mut(0);
    fresh(page, id);
}
