//! Pages that are taken for a new use, and pages that are given back.

ghost use Rattle.std.specs.Prelude.{◌≡◌, ◌≢◌, ℕ, ◌+◌, ◌-◌, ◌^◌, ◌<◌, ◌≤◌, ◌⊎◌, Some, None, IfOk};
ghost use Rattle.std.specs.Prelude.{IfSome, IfNone, OnOk, OnErr, IsErrOf, IsTrue, List, length};
ghost use Rattle.std.specs.Prelude.{replicate};
ghost use Rattle.pm_types.specs.Ids.{page_id};
ghost use Rattle.pm_types.specs.declared.page_id.PageId.{PageId};
ghost use Rattle.pm_types.specs.declared.fault.PageFault.TheVariants.{BadPage};
ghost use Rattle.pm_meta.specs.MetaPages.{field_of, next_of, IsReusePage, IsStoredReuse};
ghost use Rattle.pm_meta.specs.declared.slots.MetaSlot.TheVariants.{Reuse, Pages};
ghost use Rattle.pm_meta.specs.declared.layout.TheConstants.{REUSE_KIND};
ghost use Rattle.pm_pages.specs.Rows.{kind_of};
ghost use Rattle.pm_pages.specs.PageLists.{IsReadable};
ghost use Rattle.pm_pages.specs.Paged.{IsTold, HasRoomFor, AllReadable, IsLent, IsInHand, MakesPage};
ghost use Rattle.pm_pages.specs.Paged.{WritesPage, HasPageCause, HasGapCause};
ghost use Rattle.pm_pages.specs.Edits.{LooksAtPages, HasMeta, IsNumberIn};
ghost use Rattle.pm_pages.specs.SparePages.{TakesPage, GivesPage, IsReuseIn, IsOfOtherUse, HasTakeCause};

use crate::numbers::{number, set_number};
use crate::pages::Pages;
use pm_meta::{MetaSlot, REUSE_KIND, fresh_reuse, reuse_next};
use pm_types::head::KIND_AT;
use pm_types::{PageFault, PageId};

/// Takes a page for a new use, and gives its index: the first one of the reuse chain, or, where
/// that is empty, the one after the partition's last. It is all zeros and lent, and the caller
/// writes it. The meta page was asked for before.
///
/// `Failed` comes only where a call on the disk failed. `BadPage` names the meta page where that
/// names no page which can be taken, the chain's first page where it is bad, or the last page where
/// it isn't there.
pub fn new_page<P: Pages>(pages: &mut P) -> Result<u32, PageFault>
    requires ready { P.ready pages.old }
    requires meta { HasMeta (P.seen pages.old) }
    requires room { 1 ≤ (P.seen pages.old).spare }
    requires readable { AllReadable (P.seen pages.old) }
    ensures kept { P.kept pages.old pages.new }
    ensures readable { AllReadable (P.seen pages.new) }
    ensures takes { IfOk result (TakesPage P.tells (P.seen pages.old) (P.seen pages.new) 1) }
    ensures unchanged { (id : PageId) → IsErrOf result (BadPage id)
        → LooksAtPages P.tells (P.seen pages.old) (P.seen pages.new) 1 }
    ensures cause { HasTakeCause P.tells (P.seen pages.old) (P.seen pages.new) result }
{
    let head = number(pages, MetaSlot::Reuse)?;
    let count = number(pages, MetaSlot::Pages)?;
    if head == 0 {
        next_page(pages, count)
    } else {
        reused_page(pages, head, count)
    }
}

// Takes the page after the last.
fn next_page<P: Pages>(pages: &mut P, count: u32) -> Result<u32, PageFault>
    requires ready { P.ready pages.old }
    requires meta { HasMeta (P.seen pages.old) }
    requires room { 1 ≤ (P.seen pages.old).spare }
    requires readable { AllReadable (P.seen pages.old) }
    requires head { IsNumberIn (P.seen pages.old) Reuse 0 }
    requires count { IsNumberIn (P.seen pages.old) Pages count }
    ensures kept { P.kept pages.old pages.new }
    ensures readable { AllReadable (P.seen pages.new) }
    ensures takes { IfOk result (TakesPage P.tells (P.seen pages.old) (P.seen pages.new) 1) }
    ensures unchanged { (id : PageId) → IsErrOf result (BadPage id)
        → LooksAtPages P.tells (P.seen pages.old) (P.seen pages.new) 1 }
    ensures cause { HasTakeCause P.tells (P.seen pages.old) (P.seen pages.new) result }
{
    if count == 0 || count == u32::MAX {
        return Err(PageFault::BadPage(PageId::new(pages.part(), 0)));
    }
    make_zeros(pages, count)?;
    set_number(pages, MetaSlot::Pages, count + 1)?;
    Ok(count)
}

// Takes the first page of the reuse chain.
fn reused_page<P: Pages>(pages: &mut P, head: u32, count: u32) -> Result<u32, PageFault>
    requires ready { P.ready pages.old }
    requires meta { HasMeta (P.seen pages.old) }
    requires room { 1 ≤ (P.seen pages.old).spare }
    requires readable { AllReadable (P.seen pages.old) }
    requires some { 1 ≤ head }
    requires head { IsNumberIn (P.seen pages.old) Reuse head }
    requires count { IsNumberIn (P.seen pages.old) Pages count }
    ensures kept { P.kept pages.old pages.new }
    ensures readable { AllReadable (P.seen pages.new) }
    ensures takes { IfOk result (TakesPage P.tells (P.seen pages.old) (P.seen pages.new) 1) }
    ensures unchanged { (id : PageId) → IsErrOf result (BadPage id)
        → LooksAtPages P.tells (P.seen pages.old) (P.seen pages.new) 1 }
    ensures cause { HasTakeCause P.tells (P.seen pages.old) (P.seen pages.new) result }
{
    if head >= count {
        return Err(PageFault::BadPage(PageId::new(pages.part(), 0)));
    }
    match next_after(pages, head)? {
        None => Err(PageFault::BadPage(PageId::new(pages.part(), 0))),
        Some(next) => take_head(pages, head, count, next),
    }
}

// Makes a page of zeros of the first one of the reuse chain, after which `next` follows.
fn take_head<P: Pages>(pages: &mut P, head: u32, count: u32, next: u32) -> Result<u32, PageFault>
    requires ready { P.ready pages.old }
    requires meta { HasMeta (P.seen pages.old) }
    requires readable { AllReadable (P.seen pages.old) }
    requires some { 1 ≤ head }
    requires head { IsNumberIn (P.seen pages.old) Reuse head }
    requires count { IsNumberIn (P.seen pages.old) Pages count }
    requires below { head < count }
    requires next { IsReuseIn (P.seen pages.old) head next }
    ensures kept { P.kept pages.old pages.new }
    ensures readable { AllReadable (P.seen pages.new) }
    ensures takes { IfOk result (TakesPage P.tells (P.seen pages.old) (P.seen pages.new) 0) }
    ensures unchanged { (id : PageId) → IsErrOf result (BadPage id)
        → LooksAtPages P.tells (P.seen pages.old) (P.seen pages.new) 0 }
    ensures cause { HasGapCause P.tells (P.seen pages.old) (P.seen pages.new).faults head result }
{
    make_zeros(pages, head)?;
    set_number(pages, MetaSlot::Reuse, next)?;
    Ok(head)
}

// The page after this one in the reuse chain; `None` where this page isn't a reuse page.
fn next_after<P: Pages>(pages: &mut P, index: u32) -> Result<Option<u32>, PageFault>
    requires ready { P.ready pages.old }
    requires room { HasRoomFor (P.seen pages.old) index }
    requires some { 1 ≤ index }
    requires readable { AllReadable (P.seen pages.old) }
    ensures kept { P.kept pages.old pages.new }
    ensures looks { LooksAtPages P.tells (P.seen pages.old) (P.seen pages.new) 1 }
    ensures readable { AllReadable (P.seen pages.new) }
    ensures next { IfOk result (λ next. IfSome next (IsReuseIn (P.seen pages.new) index)) }
    ensures other { IfOk result (λ next. IfNone next (IsOfOtherUse (P.seen pages.new) index)) }
    ensures cause { HasPageCause P.tells (P.seen pages.old) (P.seen pages.new).faults index result }
{
    match pages.view(index)? {
        // Not reached: page `index` isn't the first one.
        None => Ok(None),
        Some(page) => Ok(next_on(page)),
    }
}

fn next_on(page: &[u8]) -> Option<u32>
    requires { IsReadable page.now }
    ensures next { IfSome result (λ next. (kind_of page.now ≡ REUSE_KIND) × (next ≡ next_of page.now)) }
    ensures other { IfNone result (kind_of page.now ≢ REUSE_KIND) }
{
    if page[KIND_AT as usize] == REUSE_KIND {
        Some(reuse_next(page))
    } else {
        None
    }
}

// Makes a page of zeros, new or in place of what it was.
fn make_zeros<P: Pages>(pages: &mut P, index: u32) -> Result<(), PageFault>
    requires ready { P.ready pages.old }
    requires room { HasRoomFor (P.seen pages.old) index }
    requires some { 1 ≤ index }
    requires readable { AllReadable (P.seen pages.old) }
    ensures kept { P.kept pages.old pages.new }
    ensures readable { AllReadable (P.seen pages.new) }
    ensures makes { OnOk result (MakesPage P.tells (P.seen pages.old) (P.seen pages.new) index) }
    ensures unchanged { OnErr result (LooksAtPages P.tells (P.seen pages.old) (P.seen pages.new) 0) }
    ensures cause { HasGapCause P.tells (P.seen pages.old) (P.seen pages.new).faults index result }
{
    // For the proof alone: a page has one of the sizes that pages may have.
    let _size = pages.page_size();
    pages.fresh(index)
}

/// Gives a page back: it becomes the first one of the reuse chain. The meta page was asked for before.
///
/// `Failed` comes only where a call on the disk failed, and `BadPage` only where the page before
/// this one, which it names, isn't there.
pub fn give_page<P: Pages>(pages: &mut P, index: u32) -> Result<(), PageFault>
    requires ready { P.ready pages.old }
    requires meta { HasMeta (P.seen pages.old) }
    requires room { HasRoomFor (P.seen pages.old) index }
    requires some { 1 ≤ index }
    requires readable { AllReadable (P.seen pages.old) }
    ensures kept { P.kept pages.old pages.new }
    ensures readable { AllReadable (P.seen pages.new) }
    ensures gives { OnOk result (GivesPage P.tells (P.seen pages.old) (P.seen pages.new) index) }
    ensures again { OnOk result (IsTrue ((P.seen pages.old).asked index)
        → (P.seen pages.old).spare ≤ (P.seen pages.new).spare) }
    ensures cause { HasGapCause P.tells (P.seen pages.old) (P.seen pages.new).faults index result }
{
    let head = number(pages, MetaSlot::Reuse)?;
    make_zeros(pages, index)?;
    write_reuse(pages, index, head);
    set_number(pages, MetaSlot::Reuse, index)
}

// Writes a page that was made as a reuse page.
fn write_reuse<P: Pages>(pages: &mut P, index: u32, next: u32)
    requires ready { P.ready pages.old }
    requires lent { IsLent (P.seen pages.old) index }
    requires some { 1 ≤ index }
    requires readable { AllReadable (P.seen pages.old) }
    ensures kept { P.kept pages.old pages.new }
    ensures readable { AllReadable (P.seen pages.new) }
    ensures writes { (page : List ℕ) × WritesPage (P.seen pages.old) (P.seen pages.new) index page
        × (length page ≡ (P.seen pages.old).page_size)
        × IsStoredReuse (page_id (P.seen pages.old).part index) page × (next_of page ≡ next) }
{
    // For the proof alone: a page has one of the sizes that pages may have.
    let _size = pages.page_size();
    let id = PageId::new(pages.part(), index);
    let page = pages.page_mut(index);
    fresh_reuse(page, id, next);
}
