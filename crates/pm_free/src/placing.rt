//! Rows that are placed.

ghost use Rattle.std.specs.Prelude.{◌≡◌, ◌≢◌, ℕ, ◌+◌, ◌<◌, ◌≤◌, List, IfOk, OnOk, IsTrue, length};
ghost use Rattle.pm_types.specs.declared.page_id.Link.{Link};
ghost use Rattle.pm_types.specs.Ids.{page_id};
ghost use Rattle.pm_data.specs.Rows.{IsRow};
ghost use Rattle.pm_pages.specs.Paged.{AllReadable, IsLent, CoversByte};
ghost use Rattle.pm_pages.specs.Edits.{EditsPages, HasMeta, HasDiskCause};
ghost use Rattle.pm_free.specs.Buckets.{IsHeadFor, HasNoHeadFor};
ghost use Rattle.pm_pages.specs.Rows.{page_count};
ghost use Rattle.pm_free.specs.Placed.{PlacesRow, ChangesRows, IsFilledIn, HasChains, MayPlace};
ghost use Rattle.pm_pages.specs.SoundPages.{IsSound, NoBadPage, MayTake};
ghost use Rattle.pm_pages.specs.StoredPages.{IsStored, KeepsStored};
ghost use Rattle.pm_free.specs.Causes.{HasChainCause};

use crate::buckets::{Head, check_head, find_head};
use crate::chains::{link, settle};
use crate::edits::{Edit, make_edit, write_empty};
use crate::seats::seat_at;
use pm_pages::{Pages, new_page};
use pm_types::{Link, PageFault, PageId};

/// Places a row on the first page of the lowest bucket that has pages, of those whose pages surely have
/// room, or else on a new page, and gives its link. The meta page was asked for before.
///
/// `Failed` comes only where a call on the disk failed. `BadPage` names a page that names a wrong
/// neighbour or first page of a chain, a page so named that is bad, or, where a new page is needed,
/// what `new_page` names; it never comes of sound pages in chains that are right, where a page can be
/// taken if one is needed. After an error the pages that were asked for may be half changed. After
/// `Ok` sound pages are sound, at most one page fewer can be taken, and where a page could be taken
/// within the limit of the page count, pages that passed their checks pass them.
pub fn place<P: Pages>(pages: &mut P, row: &[u8]) -> Result<Link, PageFault>
    requires ready { P.ready pages.old }
    requires meta { HasMeta (P.seen pages.old) }
    requires room { 4 ≤ (P.seen pages.old).spare }
    requires readable { AllReadable (P.seen pages.old) }
    requires row { IsRow row.now }
    ensures kept { P.kept pages.old pages.new }
    ensures readable { AllReadable (P.seen pages.new) }
    ensures places { IfOk result (λ link. ChangesRows P.tells (P.seen pages.old) (P.seen pages.new) 4 1
        (λ old new. PlacesRow (P.seen pages.old).page_size (P.seen pages.old).part old new row.now link)) }
    ensures cause { HasChainCause P.tells (P.seen pages.old) (P.seen pages.new) result }
    ensures sound { MayPlace P.tells (P.seen pages.old) (length row.now) → NoBadPage result }
    ensures passes { OnOk result (P.tells → KeepsStored (P.seen pages.old) (P.seen pages.new) 1) }
{
    match find_head(pages, row.len())? {
        Some(head) => place_on(pages, head, row),
        None => place_new(pages, row),
    }
}

// Places a row on the first page of a bucket.
fn place_on<P: Pages>(pages: &mut P, head: Head, row: &[u8]) -> Result<Link, PageFault>
    requires ready { P.ready pages.old }
    requires meta { HasMeta (P.seen pages.old) }
    requires room { 4 ≤ (P.seen pages.old).spare }
    requires readable { AllReadable (P.seen pages.old) }
    requires row { IsRow row.now }
    requires head { IsHeadFor (P.seen pages.old) (length row.now) head }
    ensures kept { P.kept pages.old pages.new }
    ensures readable { AllReadable (P.seen pages.new) }
    ensures places { IfOk result (λ link. ChangesRows P.tells (P.seen pages.old) (P.seen pages.new) 4 1
        (λ old new. PlacesRow (P.seen pages.old).page_size (P.seen pages.old).part old new row.now link)) }
    ensures cause { HasChainCause P.tells (P.seen pages.old) (P.seen pages.new) result }
    ensures sound { P.tells → IsSound (P.seen pages.old) → 1 ≤ page_count (P.seen pages.old).pages
        → HasChains (P.seen pages.old).pages → NoBadPage result }
    ensures passes { OnOk result (P.tells → IsStored (P.seen pages.old)
        → IsStored (P.seen pages.new)) }
{
    check_head(pages, head)?;
    let item = make_edit(pages, head.at, Edit::Insert, row)?;
    settle(pages, head.at, head.bucket)?;
    Ok(Link::new(PageId::new(pages.part(), head.at), item))
}

// Places a row on a new page.
fn place_new<P: Pages>(pages: &mut P, row: &[u8]) -> Result<Link, PageFault>
    requires ready { P.ready pages.old }
    requires meta { HasMeta (P.seen pages.old) }
    requires room { 2 ≤ (P.seen pages.old).spare }
    requires readable { AllReadable (P.seen pages.old) }
    requires row { IsRow row.now }
    requires none { HasNoHeadFor (P.seen pages.old) (length row.now) }
    ensures kept { P.kept pages.old pages.new }
    ensures readable { AllReadable (P.seen pages.new) }
    ensures places { IfOk result (λ link. ChangesRows P.tells (P.seen pages.old) (P.seen pages.new) 4 1
        (λ old new. PlacesRow (P.seen pages.old).page_size (P.seen pages.old).part old new row.now link)) }
    ensures cause { HasChainCause P.tells (P.seen pages.old) (P.seen pages.new) result }
    ensures sound { P.tells → IsSound (P.seen pages.old) → HasChains (P.seen pages.old).pages
        → MayTake P.tells (P.seen pages.old) → NoBadPage result }
    ensures passes { OnOk result (P.tells → KeepsStored (P.seen pages.old) (P.seen pages.new) 1) }
{
    let at = new_page(pages)?;
    let item = fill_page(pages, at, row)?;
    let seat = seat_at(pages, at)?;
    link(pages, at, seat.bucket)?;
    Ok(Link::new(PageId::new(pages.part(), at), item))
}

// Writes a page that was made as a data page with one row, and gives the row's item.
fn fill_page<P: Pages>(pages: &mut P, at: u32, row: &[u8]) -> Result<u8, PageFault>
    requires ready { P.ready pages.old }
    requires some { 1 ≤ at }
    requires lent { IsLent (P.seen pages.old) at }
    requires covered { (k : ℕ) → k < (P.seen pages.old).page_size
        → CoversByte ((P.seen pages.old).patch at) k }
    requires readable { AllReadable (P.seen pages.old) }
    requires row { IsRow row.now }
    ensures kept { P.kept pages.old pages.new }
    ensures edits { EditsPages P.tells (P.seen pages.old) (P.seen pages.new) (λ j. j ≡ at) 0 }
    ensures readable { AllReadable (P.seen pages.new) }
    ensures page { IfOk result (IsFilledIn (P.seen pages.new) at row.now) }
    ensures cause { HasDiskCause (P.seen pages.old) (P.seen pages.new).faults result }
{
    write_empty(pages, at);
    make_edit(pages, at, Edit::Insert, row)
}
