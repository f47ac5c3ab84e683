//! Rows that take the place of others.

ghost use Rattle.std.specs.Prelude.{◌≡◌, ℕ, ◌+◌, ◌<◌, ◌≤◌, List, IfOk, OnOk, IsSome, length};
ghost use Rattle.pm_types.specs.Pages.{IsNoted};
ghost use Rattle.pm_data.specs.Rows.{IsRow};
ghost use Rattle.pm_data.specs.DataPages.{rows_of, row_at, room_of, IsDataPage, AddsRow};
ghost use Rattle.pm_pages.specs.Paged.{AllReadable, IsLent};
ghost use Rattle.pm_pages.specs.Edits.{LooksAtPages, EditsPages, RewritesPage, HasMeta, HasDiskCause};
ghost use Rattle.pm_pages.specs.StoredPages.{IsStored, KeepsStored};
ghost use Rattle.pm_pages.specs.SoundPages.{IsSound, NoBadPage, MayTake};
ghost use Rattle.pm_free.specs.Placed.{HasItemAt, HasChains, ChangesRows};
ghost use Rattle.pm_free.specs.Causes.{HasChainCause};
ghost use Rattle.pm_part.specs.declared.overwriting.Way.TheVariants.{InPlace, SamePage};
ghost use Rattle.pm_types.specs.Ids.{page_id, link};
ghost use Rattle.pm_part.specs.Changes.{IsWayOn, IsWayIn, HasLengthOn, HasLengthIn, WritesOver};
ghost use Rattle.pm_part.specs.Puts.{OverwritesRow};

use crate::spots::Spot;
use pm_data::{replace, room, row};
use pm_free::{Edit, make_edit, place, seat_at, settle, take_out};
use pm_pages::Pages;
use pm_types::{Link, PageFault, Patch};

/// How a row takes the place of another.
#[derive(Clone, Copy, Debug, PartialEq, Eq, Drop)]
pub enum Way {
    /// It has as many bytes, and is written over it.
    InPlace,
    /// It fits its page once the old one is out.
    SamePage,
    /// It has to be placed anew.
    Moved,
}

// How a row of this length takes the place of an item of a page.
fn way_on(page: &[u8], item: u8, len: usize) -> Way
    requires page { IsDataPage page.now }
    requires short { len ≤ 1024 }
    ensures way { IsWayOn page.now item len result }
    ensures in_place { HasLengthOn page.now item len → result ≡ InPlace }
{
    match row(page, item) {
        None => Way::Moved,
        Some(row) => {
            if row.len() == len {
                return Way::InPlace;
            }
            if len + SLOT_BYTES <= room(page) as usize + row.len() {
                return Way::SamePage;
            }
            Way::Moved
        }
    }
}

// What a row takes of a page beside its bytes.
const SLOT_BYTES: usize = 4;

fn find_way<P: Pages>(pages: &mut P, spot: Spot, len: usize) -> Result<Way, PageFault>
    requires ready { P.ready pages.old }
    requires item { HasItemAt (P.seen pages.old) spot.at spot.item }
    requires short { len ≤ 1024 }
    requires readable { AllReadable (P.seen pages.old) }
    ensures kept { P.kept pages.old pages.new }
    ensures looks { LooksAtPages P.tells (P.seen pages.old) (P.seen pages.new) 0 }
    ensures readable { AllReadable (P.seen pages.new) }
    ensures way { IfOk result (IsWayIn (P.seen pages.new) spot.at spot.item len) }
    ensures in_place { IfOk result (λ way. HasLengthIn (P.seen pages.new) spot.at spot.item len
        → way ≡ InPlace) }
    ensures cause { HasDiskCause (P.seen pages.old) (P.seen pages.new).faults result }
{
    match pages.view(spot.at)? {
        // Not reached: page `spot.at` is at hand.
        None => Ok(Way::Moved),
        Some(page) => Ok(way_on(page, spot.item, len)),
    }
}

/// Puts a row in the place of another one, and gives its link.
///
/// Where it has as many bytes it is written over the old one, which changes that page alone. Where
/// it fits the page once the old one is out it stays there, and the page changes its chain only
/// where its bucket changed. Else the old row is taken out, and the new one placed. Of the pages that
/// can be taken at most one is, and where one could be, pages that passed their checks pass them.
///
/// `BadPage` comes as from `take_out` and `place` of `pm_free`; it never comes of sound pages in chains
/// that are right, where a page can be taken.
pub fn overwrite<P: Pages>(pages: &mut P, spot: Spot, row: &[u8]) -> Result<Link, PageFault>
    requires ready { P.ready pages.old }
    requires meta { HasMeta (P.seen pages.old) }
    requires room { 7 ≤ (P.seen pages.old).spare }
    requires readable { AllReadable (P.seen pages.old) }
    requires item { HasItemAt (P.seen pages.old) spot.at spot.item }
    requires row { IsRow row.now }
    ensures kept { P.kept pages.old pages.new }
    ensures readable { AllReadable (P.seen pages.new) }
    ensures rows { IfOk result (λ link. ChangesRows P.tells (P.seen pages.old) (P.seen pages.new) 7 1
        (λ old new. OverwritesRow (P.seen pages.old).part old new spot row.now link)) }
    ensures in_place { IfOk result (λ at_link.
        HasLengthIn (P.seen pages.old) spot.at spot.item (length row.now)
        → (at_link ≡ link (page_id (P.seen pages.old).part spot.at) spot.item)
        × EditsPages P.tells (P.seen pages.old) (P.seen pages.new) (λ j. j ≡ spot.at) 0) }
    ensures cause { HasChainCause P.tells (P.seen pages.old) (P.seen pages.new) result }
    ensures passes { OnOk result (P.tells → KeepsStored (P.seen pages.old) (P.seen pages.new) 1) }
    ensures sound { MayTake P.tells (P.seen pages.old) → HasChains (P.seen pages.old).pages
        → NoBadPage result }
{
    let link = spot.link(pages.part());
    match find_way(pages, spot, row.len())? {
        Way::InPlace => {
            write_over(pages, spot, row)?;
            Ok(link)
        }
        Way::SamePage => swap(pages, spot, row),
        Way::Moved => {
            take_out(pages, link)?;
            place(pages, row)
        }
    }
}

// Puts a row on the page of another one, which is taken out, and gives its link.
fn swap<P: Pages>(pages: &mut P, spot: Spot, row: &[u8]) -> Result<Link, PageFault>
    requires ready { P.ready pages.old }
    requires meta { HasMeta (P.seen pages.old) }
    requires room { 3 ≤ (P.seen pages.old).spare }
    requires readable { AllReadable (P.seen pages.old) }
    requires item { HasItemAt (P.seen pages.old) spot.at spot.item }
    requires row { IsRow row.now }
    requires fits { IsWayIn (P.seen pages.old) spot.at spot.item (length row.now) SamePage }
    ensures kept { P.kept pages.old pages.new }
    ensures readable { AllReadable (P.seen pages.new) }
    ensures rows { IfOk result (λ link. ChangesRows P.tells (P.seen pages.old) (P.seen pages.new) 3 0
        (λ old new. OverwritesRow (P.seen pages.old).part old new spot row.now link)) }
    ensures cause { HasChainCause P.tells (P.seen pages.old) (P.seen pages.new) result }
    ensures passes { OnOk result (P.tells → IsStored (P.seen pages.old) → IsStored (P.seen pages.new)) }
    ensures sound { P.tells → IsSound (P.seen pages.old) → HasChains (P.seen pages.old).pages
        → NoBadPage result }
{
    let seat = seat_at(pages, spot.at)?;
    make_edit(pages, spot.at, Edit::Remove(spot.item), b"")?;
    let item = make_edit(pages, spot.at, Edit::Insert, row)?;
    settle(pages, spot.at, seat.bucket)?;
    let spot = Spot { at: spot.at, item };
    Ok(spot.link(pages.part()))
}

// Writes a row over one that has as many bytes.
fn write_over<P: Pages>(pages: &mut P, spot: Spot, row: &[u8]) -> Result<(), PageFault>
    requires ready { P.ready pages.old }
    requires meta { HasMeta (P.seen pages.old) }
    requires readable { AllReadable (P.seen pages.old) }
    requires item { HasItemAt (P.seen pages.old) spot.at spot.item }
    requires row { IsRow row.now }
    requires alike { IsWayIn (P.seen pages.old) spot.at spot.item (length row.now) InPlace }
    ensures kept { P.kept pages.old pages.new }
    ensures edits { EditsPages P.tells (P.seen pages.old) (P.seen pages.new) (λ j. j ≡ spot.at) 0 }
    ensures readable { AllReadable (P.seen pages.new) }
    ensures over { OnOk result (WritesOver (P.seen pages.old) (P.seen pages.new) spot.at spot.item row.now) }
    ensures cause { HasDiskCause (P.seen pages.old) (P.seen pages.new).faults result }
{
    pages.change(spot.at)?;
    write_lent(pages, spot, row);
    Ok(())
}

fn write_lent<P: Pages>(pages: &mut P, spot: Spot, row: &[u8])
    requires ready { P.ready pages.old }
    requires lent { IsLent (P.seen pages.old) spot.at }
    requires readable { AllReadable (P.seen pages.old) }
    requires item { HasItemAt (P.seen pages.old) spot.at spot.item }
    requires row { IsRow row.now }
    requires alike { IsWayIn (P.seen pages.old) spot.at spot.item (length row.now) InPlace }
    ensures kept { P.kept pages.old pages.new }
    ensures edits { EditsPages P.tells (P.seen pages.old) (P.seen pages.new) (λ j. j ≡ spot.at) 0 }
    ensures readable { AllReadable (P.seen pages.new) }
    ensures over { WritesOver (P.seen pages.old) (P.seen pages.new) spot.at spot.item row.now }
{
    let mut patch = Patch::none(pages.page_size());
    put_over(pages, spot, row, &mut patch);
    pages.note(spot.at, &patch);
}

fn put_over<P: Pages>(pages: &mut P, spot: Spot, row: &[u8], patch: &mut Patch)
    requires ready { P.ready pages.old }
    requires lent { IsLent (P.seen pages.old) spot.at }
    requires item { HasItemAt (P.seen pages.old) spot.at spot.item }
    requires row { IsRow row.now }
    requires alike { IsWayIn (P.seen pages.old) spot.at spot.item (length row.now) InPlace }
    requires size { patch.old.page_size ≡ (P.seen pages.old).page_size }
    ensures kept { P.kept pages.old pages.new }
    ensures writes { RewritesPage (P.seen pages.old) (P.seen pages.new) spot.at patch.old patch.new
        (λ was now. AddsRow was now spot.item row.now × (room_of now ≡ room_of was)
        × (length now ≡ length was)) }
{
    let page = pages.page_mut(spot.at);
    replace(page, spot.item, row, patch);
}
