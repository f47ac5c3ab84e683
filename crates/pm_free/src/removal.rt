//! Rows that are taken out.

ghost use Rattle.std.specs.Prelude.{◌≡◌, ◌≢◌, ℕ, ◌+◌, ◌<◌, ◌≤◌, ◌↔◌, List, [], IfOk, OnOk, IsTrue};
ghost use Rattle.pm_types.specs.Ids.{page_id, link};
ghost use Rattle.pm_data.specs.DataPages.{rows_of, IsDataPage};
ghost use Rattle.pm_meta.specs.declared.layout.TheConstants.{BUCKETS};
ghost use Rattle.pm_pages.specs.Paged.{AllReadable};
ghost use Rattle.pm_pages.specs.Edits.{LooksAtPages, HasMeta, HasDiskCause};
ghost use Rattle.pm_free.specs.DataEdits.{IsDataIn, IsDataAt};
ghost use Rattle.pm_free.specs.Placed.{TakesRow, HasRowAt, HasItemAt, DropsPage, ChangesRows};
ghost use Rattle.pm_free.specs.Placed.{HasChains};
ghost use Rattle.pm_free.specs.Sound.{HasSoundChains};
ghost use Rattle.pm_pages.specs.SoundPages.{IsSound, NoBadPage};
ghost use Rattle.pm_pages.specs.StoredPages.{IsStored, IsStoredPage};
ghost use Rattle.pm_free.specs.Causes.{HasChainCause};

use crate::chains::{settle, unlink};
use crate::edits::{Edit, make_edit};
use crate::seats::seat_at;
use pm_pages::{Pages, give_page};
use pm_types::{Link, PageFault};

/// Takes a row out, whose page is at hand. The page then stands in the chain for its room, or, where that
/// was its last row, is given back.
///
/// `Failed` comes only where a call on the disk failed. `BadPage` names a page that names a wrong
/// neighbour or first page of a chain, a page so named that is bad, or the page before the row's page
/// where that isn't there; it never comes of sound pages in chains that are right. After an error the
/// pages that were asked for may be half changed. After `Ok` sound pages are sound, as many pages can
/// be taken as before, and pages that passed their checks pass them.
pub fn take_out<P: Pages>(pages: &mut P, link: Link) -> Result<(), PageFault>
    requires ready { P.ready pages.old }
    requires meta { HasMeta (P.seen pages.old) }
    requires room { 3 ≤ (P.seen pages.old).spare }
    requires readable { AllReadable (P.seen pages.old) }
    requires row { HasRowAt (P.seen pages.old) link }
    ensures kept { P.kept pages.old pages.new }
    ensures readable { AllReadable (P.seen pages.new) }
    ensures takes { OnOk result (ChangesRows P.tells (P.seen pages.old) (P.seen pages.new) 3 0
        (λ old new. TakesRow (P.seen pages.old).part old new link)) }
    ensures cause { HasChainCause P.tells (P.seen pages.old) (P.seen pages.new) result }
    ensures sound { P.tells → IsSound (P.seen pages.old) → HasChains (P.seen pages.old).pages
        → NoBadPage result }
    ensures passes { OnOk result (P.tells → IsStored (P.seen pages.old)
        → IsStored (P.seen pages.new)) }
{
    take_item(pages, link.page().index(), link.item())
}

// Takes the row of an item out of a page.
fn take_item<P: Pages>(pages: &mut P, at: u32, item: u8) -> Result<(), PageFault>
    requires ready { P.ready pages.old }
    requires meta { HasMeta (P.seen pages.old) }
    requires room { 3 ≤ (P.seen pages.old).spare }
    requires readable { AllReadable (P.seen pages.old) }
    requires row { HasItemAt (P.seen pages.old) at item }
    ensures kept { P.kept pages.old pages.new }
    ensures readable { AllReadable (P.seen pages.new) }
    ensures takes { OnOk result (ChangesRows P.tells (P.seen pages.old) (P.seen pages.new) 3 0
        (λ old new. TakesRow (P.seen pages.old).part old new
        (link (page_id (P.seen pages.old).part at) item))) }
    ensures cause { HasChainCause P.tells (P.seen pages.old) (P.seen pages.new) result }
    ensures sound { P.tells → IsSound (P.seen pages.old) → HasChains (P.seen pages.old).pages
        → NoBadPage result }
    ensures passes { OnOk result (P.tells → IsStored (P.seen pages.old)
        → IsStored (P.seen pages.new)) }
{
    let seat = seat_at(pages, at)?;
    make_edit(pages, at, Edit::Remove(item), b"")?;
    if is_empty(pages, at)? {
        drop_page(pages, at, seat.bucket)
    } else {
        settle(pages, at, seat.bucket)
    }
}

// Takes a page without rows out of the chain of its bucket, and gives it back.
fn drop_page<P: Pages>(pages: &mut P, at: u32, bucket: u8) -> Result<(), PageFault>
    requires ready { P.ready pages.old }
    requires meta { HasMeta (P.seen pages.old) }
    requires room { 2 ≤ (P.seen pages.old).spare }
    requires readable { AllReadable (P.seen pages.old) }
    requires page { IsDataAt (P.seen pages.old) at }
    requires bucket { bucket < BUCKETS }
    ensures kept { P.kept pages.old pages.new }
    ensures readable { AllReadable (P.seen pages.new) }
    ensures drops { OnOk result (ChangesRows P.tells (P.seen pages.old) (P.seen pages.new) 2 0
        (λ old new. DropsPage old new at bucket)) }
    ensures cause { HasChainCause P.tells (P.seen pages.old) (P.seen pages.new) result }
    ensures sound { (home : ℕ → ℕ) → HasSoundChains P.tells (P.seen pages.old) home
        → home at ≡ bucket → NoBadPage result }
    ensures passes { OnOk result (P.tells → IsStoredPage (P.seen pages.new) at) }
{
    unlink(pages, at, bucket)?;
    give_page(pages, at)
}

// Whether a data page that is at hand has no rows.
fn is_empty<P: Pages>(pages: &mut P, at: u32) -> Result<bool, PageFault>
    requires ready { P.ready pages.old }
    requires page { IsDataAt (P.seen pages.old) at }
    requires readable { AllReadable (P.seen pages.old) }
    ensures kept { P.kept pages.old pages.new }
    ensures looks { LooksAtPages P.tells (P.seen pages.old) (P.seen pages.new) 0 }
    ensures readable { AllReadable (P.seen pages.new) }
    ensures empty { IfOk result (λ empty. (page : List ℕ) → IsDataIn (P.seen pages.old) at page
        → IsTrue empty ↔ (rows_of page ≡ [])) }
    ensures cause { HasDiskCause (P.seen pages.old) (P.seen pages.new).faults result }
{
    match pages.view(at)? {
        // Not reached: page `at` is a data page that is at hand.
        None => Ok(false),
        Some(page) => Ok(pm_data::is_empty(page)),
    }
}
