//! A page of a tree divided into two.

ghost use Rattle.std.specs.Prelude.{◌≡◌, ◌≢◌, ℕ, ◌<◌, ◌≤◌, List, Option, Some, OnOk, IfOk, length};
ghost use Rattle.pm_btpage.specs.IndexPages.{IsIndexPage};
ghost use Rattle.pm_pages.specs.Paged.{AllReadable, IsInHand};
ghost use Rattle.pm_pages.specs.Edits.{LooksAtPages, HasMeta, HasDiskCause};
ghost use Rattle.pm_pages.specs.SparePages.{HasTakeCause};
ghost use Rattle.pm_pages.specs.SoundPages.{NoBadPage, MayTake};
ghost use Rattle.pm_tree.specs.Divisions.{CanDivide, Divides};

use crate::edits::{Edit, make_edit, write_blank};
use pm_pages::{Pages, new_page};
use pm_types::{PAGE_SIZE_MAX, PageFault, PageId};

/// Divides a page: its items from `start` on go into a new page of the same kind, whose index is
/// given, and those up to `end` stay. A new inner page has this first child, and a new leaf no next
/// one.
///
/// An error has a cause as in `pm_pages::new_page`.
pub fn divide<P: Pages>(
    pages: &mut P,
    at: u32,
    first: Option<PageId>,
    start: u16,
    end: u16,
) -> Result<u32, PageFault>
    requires ready { P.ready pages.old }
    requires meta { HasMeta (P.seen pages.old) }
    requires room { 1 ≤ (P.seen pages.old).spare }
    requires readable { AllReadable (P.seen pages.old) }
    requires page { (page : List ℕ) × CanDivide (P.seen pages.old) at page first start end }
    ensures kept { P.kept pages.old pages.new }
    ensures readable { AllReadable (P.seen pages.new) }
    ensures divides { IfOk result (λ right. (page : List ℕ) → (P.seen pages.old).pages at ≡ Some page
        → Divides P.tells (P.seen pages.old) (P.seen pages.new) at page first start end right) }
    ensures cause { HasTakeCause P.tells (P.seen pages.old) (P.seen pages.new) result }
    ensures sound { MayTake P.tells (P.seen pages.old) → NoBadPage result }
{
    let mut copy = [0; PAGE_SIZE_MAX];
    let size = pages.page_size() as usize;
    divide_over(pages, at, &mut copy[..size], first, start, end)
}

// Divides a page, of which a copy is made where one has room.
fn divide_over<P: Pages>(
    pages: &mut P,
    at: u32,
    copy: &mut [u8],
    first: Option<PageId>,
    start: u16,
    end: u16,
) -> Result<u32, PageFault>
    requires ready { P.ready pages.old }
    requires meta { HasMeta (P.seen pages.old) }
    requires room { 1 ≤ (P.seen pages.old).spare }
    requires readable { AllReadable (P.seen pages.old) }
    requires page { (page : List ℕ) × CanDivide (P.seen pages.old) at page first start end }
    requires size { length copy.old ≡ (P.seen pages.old).page_size }
    ensures kept { P.kept pages.old pages.new }
    ensures readable { AllReadable (P.seen pages.new) }
    ensures divides { IfOk result (λ right. (page : List ℕ) → (P.seen pages.old).pages at ≡ Some page
        → Divides P.tells (P.seen pages.old) (P.seen pages.new) at page first start end right) }
    ensures cause { HasTakeCause P.tells (P.seen pages.old) (P.seen pages.new) result }
    ensures sound { MayTake P.tells (P.seen pages.old) → NoBadPage result }
{
    copy_page(pages, at, copy)?;
    divide_copied(pages, at, copy, first, start, end)
}

// Copies the bytes of a page that is at hand.
fn copy_page<P: Pages>(pages: &mut P, at: u32, into: &mut [u8]) -> Result<(), PageFault>
    requires ready { P.ready pages.old }
    requires readable { AllReadable (P.seen pages.old) }
    requires page { (page : List ℕ) × IsInHand (P.seen pages.old) at page × (length page ≡ length into.old) }
    ensures kept { P.kept pages.old pages.new }
    ensures looks { LooksAtPages P.tells (P.seen pages.old) (P.seen pages.new) 0 }
    ensures readable { AllReadable (P.seen pages.new) }
    ensures copied { OnOk result ((P.seen pages.old).pages at ≡ Some into.new) }
    ensures cause { HasDiskCause (P.seen pages.old) (P.seen pages.new).faults result }
{
    match pages.view(at)? {
        // Not reached: page `at` is at hand.
        None => Ok(()),
        Some(page) => {
            into.copy_from_slice(page);
            Ok(())
        }
    }
}

// Divides a page of which a copy is given.
fn divide_copied<P: Pages>(
    pages: &mut P,
    at: u32,
    copy: &[u8],
    first: Option<PageId>,
    start: u16,
    end: u16,
) -> Result<u32, PageFault>
    requires ready { P.ready pages.old }
    requires meta { HasMeta (P.seen pages.old) }
    requires room { 1 ≤ (P.seen pages.old).spare }
    requires readable { AllReadable (P.seen pages.old) }
    requires page { CanDivide (P.seen pages.old) at copy.now first start end }
    ensures kept { P.kept pages.old pages.new }
    ensures readable { AllReadable (P.seen pages.new) }
    ensures divides { IfOk result
        (Divides P.tells (P.seen pages.old) (P.seen pages.new) at copy.now first start end) }
    ensures cause { HasTakeCause P.tells (P.seen pages.old) (P.seen pages.new) result }
    ensures sound { MayTake P.tells (P.seen pages.old) → NoBadPage result }
{
    let right = new_page(pages)?;
    write_blank(pages, right, first);
    make_edit(pages, right, Edit::Tail(start), copy)?;
    make_edit(pages, at, Edit::Cut(end), copy)?;
    Ok(right)
}
