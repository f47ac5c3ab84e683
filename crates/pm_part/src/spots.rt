//! The rows that links name.

ghost use Rattle.std.specs.Prelude.{◌≡◌, ℕ, ◌+◌, ◌<◌, ◌≤◌, ◌↔◌, ◌⊎◌};
ghost use Rattle.std.specs.Prelude.{List, Some, None, IfOk, OnOk, OnErr, IfSome};
ghost use Rattle.std.specs.Prelude.{IfNone, IsTrue, false, length, [], ◌∷◌};
ghost use Rattle.std.specs.Bool.{OnTrue, OnFalse};
ghost use Rattle.pm_types.specs.Ids.{page_id, link, page_of_link, item_of_link, index_of_id};
ghost use Rattle.pm_data.specs.Rows.{IsRow, row_cache, row_key, row_value};
ghost use Rattle.pm_meta.specs.declared.slots.MetaSlot.TheVariants.{Pages};
ghost use Rattle.pm_pages.specs.PageLists.{IsReadable};
ghost use Rattle.pm_pages.specs.Paged.{HasRoomFor, AllReadable, NoneLent, HasPageCause};
ghost use Rattle.pm_types.specs.Keys.{HasKeyLength};
ghost use Rattle.pm_part.specs.Reads.{ReadsPages};
ghost use Rattle.pm_pages.specs.Edits.{LooksAtPages, HasMeta, HasDiskCause, IsNumberIn};
ghost use Rattle.pm_tree.specs.Indexes.{as_link};
ghost use Rattle.pm_model.specs.ReplyLists.{with_replies};
ghost use Rattle.pm_model.specs.declared.reply.Reply.TheVariants.{Found};
ghost use Rattle.pm_part.specs.Entries.{IsEntryIn};
ghost use Rattle.pm_part.specs.Spots.{IsRowOn, HasNoRowOn, LeadsTo, LeadsNowhere, HasRowIn, HasNoRowIn};
ghost use Rattle.pm_part.specs.Spots.{PushesValue};
ghost use Rattle.pm_part.specs.declared.spots.Spot.{Spot};
ghost use Rattle.pm_part.specs.Faults.{HasPartCause, IsFaultOfGet};
ghost use Rattle.pm_part.specs.RowNames.{NamesRow};
ghost use Rattle.pm_part.specs.Runs.{IsPartitionOf};
ghost use Rattle.pm_pages.specs.SoundPages.{NoBadPage};
ghost use Rattle.pm_types.specs.declared.shape.Shape.{Shape};
ghost use Rattle.pm_part.specs.PairReads.{SinceReads, ReadPair};
ghost use Rattle.pm_part.specs.PairFaults.{HadNoRow, WasBadAt, HasReadCause};

use crate::entries::Entry;
use pm_data::{DATA_KIND, cache_in, key_in, row, value_in};
use pm_meta::MetaSlot;
use pm_model::Replies;
use pm_pages::{Pages, number};
use pm_types::head::KIND_AT;
use pm_types::{Key, Link, PageFault, PageId, StoreFault, Value};
use std::alloc::{AllocError, Global};

/// Where a row stands.
#[derive(Clone, Copy, Debug, PartialEq, Eq, Drop)]
pub struct Spot {
    /// The index of its page.
    pub at: u32,
    /// The number of its item.
    pub item: u8,
}

impl Spot {
    /// The name of the row in a partition with this number.
    pub fn link(&self, part: u16) -> Link
        ensures { result ≡ link (page_id part self.now.at) self.now.item }
    {
        Link::new(PageId::new(part, self.at), self.item)
    }
}

/// Where a link leads in a partition of so many pages, if it leads to one of them.
pub fn spot_of(link: Link, part: u16, count: u32) -> Option<Spot>
    ensures spot { IfSome result (LeadsTo link part count) }
    ensures none { IfNone result (LeadsNowhere link part count) }
{
    let at = link.page().index();
    if at == 0 || at >= count || link.page() != PageId::new(part, at) {
        return None;
    }
    let item = link.item();
    Some(Spot { at, item })
}

// Where a link leads in the partition, if it leads to one of its pages.
fn find_spot<P: Pages>(pages: &mut P, link: Link) -> Result<Option<Spot>, PageFault>
    requires ready { P.ready pages.old }
    requires meta { HasMeta (P.seen pages.old) }
    requires readable { AllReadable (P.seen pages.old) }
    ensures kept { P.kept pages.old pages.new }
    ensures looks { LooksAtPages P.tells (P.seen pages.old) (P.seen pages.new) 0 }
    ensures readable { AllReadable (P.seen pages.new) }
    ensures spot { IfOk result (λ spot. (count : ℕ) × IsNumberIn (P.seen pages.new) Pages count
        × IfSome spot (LeadsTo link (P.seen pages.new).part count)
        × IfNone spot (LeadsNowhere link (P.seen pages.new).part count)) }
    ensures cause { HasDiskCause (P.seen pages.old) (P.seen pages.new).faults result }
{
    let count = number(pages, MetaSlot::Pages)?;
    Ok(spot_of(link, pages.part(), count))
}

// Whether a row is that of a key of a cache.
fn is_of(row: &[u8], cache: u8, key: &[u8]) -> bool
    requires { IsRow row.now }
    ensures is { IsTrue result → (row_cache row.now ≡ cache) × (row_key row.now ≡ key.now) }
    ensures other { result ≡ false → row_cache row.now ≡ cache → row_key row.now ≡ key.now → ⊥ }
{
    cache_in(row) == cache && key_in(row) == key
}

// The row of a key of a cache that is this item of a page, if it is.
fn row_on<'a>(page: &'a [u8], item: u8, cache: u8, key: &[u8]) -> Option<&'a [u8]>
    requires { IsReadable page.now }
    ensures row { IfSome result (λ row. IsRowOn page.now item cache key.now row.now) }
    ensures none { IfNone result (HasNoRowOn page.now item cache key.now) }
{
    if page[KIND_AT as usize] != DATA_KIND {
        return None;
    }
    match row(page, item) {
        None => None,
        Some(row) => {
            if is_of(row, cache, key) {
                Some(row)
            } else {
                None
            }
        }
    }
}

// Whether the row of a key of a cache stands at a spot.
fn has_row<P: Pages>(pages: &mut P, spot: Spot, cache: u8, key: &[u8]) -> Result<bool, PageFault>
    requires ready { P.ready pages.old }
    requires meta { HasMeta (P.seen pages.old) }
    requires room { HasRoomFor (P.seen pages.old) spot.at }
    requires some { 1 ≤ spot.at }
    requires below { (n : ℕ) → IsNumberIn (P.seen pages.old) Pages n → spot.at < n }
    requires readable { AllReadable (P.seen pages.old) }
    ensures kept { P.kept pages.old pages.new }
    ensures looks { LooksAtPages P.tells (P.seen pages.old) (P.seen pages.new) 1 }
    ensures readable { AllReadable (P.seen pages.new) }
    ensures has { IfOk result (λ has. IsTrue has → HasRowIn (P.seen pages.new) spot cache key.now) }
    ensures not { IfOk result (λ has. has ≡ false
        → HasNoRowIn (P.seen pages.new) spot.at spot.item cache key.now) }
    ensures cause { HasPageCause P.tells (P.seen pages.old) (P.seen pages.new).faults spot.at result }
{
    match pages.view(spot.at)? {
        // Not reached: page `spot.at` isn't the first one.
        None => Ok(false),
        Some(page) => Ok(row_on(page, spot.item, cache, key).is_some()),
    }
}

/// Where the row of a key stands, of which this is the entry.
///
/// `Failed` comes only where a call on the disk failed. `BadPage` names the leaf where its link
/// names no row of the key, or the page that it names where that is bad; it never comes where the
/// link names a row of the key in a well-formed partition.
pub fn find_row<P: Pages>(
    pages: &mut P,
    entry: Entry,
    cache: u8,
    key: &[u8],
) -> Result<Spot, PageFault>
    requires ready { P.ready pages.old }
    requires room { 1 ≤ (P.seen pages.old).spare }
    requires entry { IsEntryIn (P.seen pages.old) cache key.now entry }
    requires readable { AllReadable (P.seen pages.old) }
    ensures kept { P.kept pages.old pages.new }
    ensures looks { LooksAtPages P.tells (P.seen pages.old) (P.seen pages.new) 1 }
    ensures readable { AllReadable (P.seen pages.new) }
    ensures row { IfOk result (λ spot. HasRowIn (P.seen pages.new) spot cache key.now) }
    ensures link { IfOk result (λ spot.
        as_link entry.word ≡ link (page_id (P.seen pages.old).part spot.at) spot.item) }
    ensures cause { HasPartCause P.tells (P.seen pages.old) (P.seen pages.new)
        (IsFaultOfGet P.tells (P.seen pages.new) cache key.now) result }
    ensures sound { P.tells → (shape : Shape) → IsPartitionOf shape (P.seen pages.old)
        → NamesRow (P.seen pages.old).part (P.seen pages.old).pages (as_link entry.word) cache key.now
        → NoBadPage result }
{
    match find_spot(pages, entry.link())? {
        None => Err(PageFault::BadPage(PageId::new(pages.part(), entry.leaf))),
        Some(spot) => {
            if !has_row(pages, spot, cache, key)? {
                return Err(PageFault::BadPage(PageId::new(pages.part(), entry.leaf)));
            }
            Ok(spot)
        }
    }
}

// Appends the value of a key of a cache as a reply, if its row is this item of a page, and says
// whether it is.
fn push_on(page: &[u8], item: u8, cache: u8, key: &[u8], replies: &mut Replies) -> bool
    requires page { IsReadable page.now }
    requires spare { 0 < replies.old.spare }
    ensures pushed { IsTrue result → (row : List ℕ) × IsRowOn page.now item cache key.now row
        × (replies.new ≡ with_replies (Found (row_value row) ∷ []) replies.old) }
    ensures none { result ≡ false → HasNoRowOn page.now item cache key.now × (replies.new ≡ replies.old) }
{
    match row_on(page, item, cache, key) {
        None => false,
        Some(row) => {
            replies.push_found(value_in(row));
            true
        }
    }
}

fn push_at<P: Pages>(
    pages: &mut P,
    spot: Spot,
    cache: u8,
    key: &[u8],
    replies: &mut Replies,
) -> Result<bool, PageFault>
    requires ready { P.ready pages.old }
    requires meta { HasMeta (P.seen pages.old) }
    requires room { HasRoomFor (P.seen pages.old) spot.at }
    requires some { 1 ≤ spot.at }
    requires below { (n : ℕ) → IsNumberIn (P.seen pages.old) Pages n → spot.at < n }
    requires readable { AllReadable (P.seen pages.old) }
    requires spare { 0 < replies.old.spare }
    ensures kept { P.kept pages.old pages.new }
    ensures looks { LooksAtPages P.tells (P.seen pages.old) (P.seen pages.new) 1 }
    ensures readable { AllReadable (P.seen pages.new) }
    ensures pushed { IfOk result (λ has. IsTrue has
        → PushesValue (P.seen pages.new) spot cache key.now replies.old replies.new) }
    ensures not { IfOk result (λ has. has ≡ false
        → HasNoRowIn (P.seen pages.new) spot.at spot.item cache key.now × (replies.new ≡ replies.old)) }
    ensures unchanged { OnErr result (replies.new ≡ replies.old) }
    ensures cause { HasPageCause P.tells (P.seen pages.old) (P.seen pages.new).faults spot.at result }
{
    match pages.view(spot.at)? {
        // Not reached: page `spot.at` isn't the first one.
        None => Ok(false),
        Some(page) => Ok(push_on(page, spot.item, cache, key, replies)),
    }
}

/// Appends the value of a key as a reply, of which this is the entry. Errors come as in `find_row`.
pub fn reply_value<P: Pages>(
    pages: &mut P,
    entry: Entry,
    cache: u8,
    key: &[u8],
    replies: &mut Replies,
) -> Result<(), PageFault>
    requires ready { P.ready pages.old }
    requires room { 1 ≤ (P.seen pages.old).spare }
    requires entry { IsEntryIn (P.seen pages.old) cache key.now entry }
    requires readable { AllReadable (P.seen pages.old) }
    requires spare { 0 < replies.old.spare }
    ensures kept { P.kept pages.old pages.new }
    ensures looks { LooksAtPages P.tells (P.seen pages.old) (P.seen pages.new) 1 }
    ensures readable { AllReadable (P.seen pages.new) }
    ensures pushed { OnOk result ((spot : Spot)
        × (as_link entry.word ≡ link (page_id (P.seen pages.old).part spot.at) spot.item)
        × PushesValue (P.seen pages.new) spot cache key.now replies.old replies.new) }
    ensures unchanged { OnErr result (replies.new ≡ replies.old) }
    ensures cause { HasPartCause P.tells (P.seen pages.old) (P.seen pages.new)
        (IsFaultOfGet P.tells (P.seen pages.new) cache key.now) result }
    ensures sound { P.tells → (shape : Shape) → IsPartitionOf shape (P.seen pages.old)
        → NamesRow (P.seen pages.old).part (P.seen pages.old).pages (as_link entry.word) cache key.now
        → NoBadPage result }
{
    match find_spot(pages, entry.link())? {
        None => Err(PageFault::BadPage(PageId::new(pages.part(), entry.leaf))),
        Some(spot) => {
            if !push_at(pages, spot, cache, key, replies)? {
                return Err(PageFault::BadPage(PageId::new(pages.part(), entry.leaf)));
            }
            Ok(())
        }
    }
}

/// The key and the value of the row at a spot, if that is the row of this key of a cache.
pub fn find_pair<P: Pages>(
    alloc: Global,
    pages: &mut P,
    spot: Spot,
    cache: u8,
    key: &[u8],
) -> Result<Option<(Key, Value)>, StoreFault>
    requires ready { P.ready pages.old }
    requires none_lent { NoneLent (P.seen pages.old) }
    requires room { HasRoomFor (P.seen pages.old) spot.at }
    requires some { 1 ≤ spot.at }
    requires readable { AllReadable (P.seen pages.old) }
    requires key { HasKeyLength key.now }
    ensures kept { P.kept pages.old pages.new }
    ensures reads { ReadsPages P.tells (P.seen pages.old) (P.seen pages.new) }
    ensures room { (P.seen pages.old).spare ≤ (P.seen pages.new).spare + 1 }
    ensures readable { AllReadable (P.seen pages.new) }
    ensures pair { SinceReads P.tells (P.seen pages.old) (λ start. IfOk result (λ pair.
        IfSome pair (ReadPair P.tells start spot cache key.now))) }
    ensures none { SinceReads P.tells (P.seen pages.old) (λ start. IfOk result (λ pair.
        IfNone pair (HadNoRow P.tells start spot.at spot.item cache key.now))) }
    ensures cause { HasReadCause P.tells (P.seen pages.old) (P.seen pages.new)
        (λ start. WasBadAt P.tells start spot.at) result }
{
    match pages.view(spot.at)? {
        // Not reached: page `spot.at` isn't the first one.
        None => Ok(None),
        Some(page) => Ok(pair_on(alloc, page, spot.item, cache, key)?),
    }
}

// The key and the value of this item of a page, if that is the row of this key of a cache.
fn pair_on(
    alloc: Global,
    page: &[u8],
    item: u8,
    cache: u8,
    key: &[u8],
) -> Result<Option<(Key, Value)>, AllocError>
    requires page { IsReadable page.now }
    requires key { HasKeyLength key.now }
    ensures pair { IfOk result (λ pair. IfSome pair (λ pair. (row : List ℕ)
        × IsRowOn page.now item cache key.now row × (pair.0 ≡ key.now) × (pair.1 ≡ row_value row))) }
    ensures none { IfOk result (λ pair. IfNone pair (HasNoRowOn page.now item cache key.now)) }
{
    match row_on(page, item, cache, key) {
        None => Ok(None),
        Some(row) => {
            let key = Key::of(alloc, key)?;
            let value = Value::of(alloc, value_in(row))?;
            Ok(Some((key, value)))
        }
    }
}
