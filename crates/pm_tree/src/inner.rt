//! New children of inner pages.

ghost use Rattle.std.specs.Prelude.{◌≡◌, ◌≢◌, ℕ, ◌+◌, ◌-◌, ◌<◌, ◌≤◌, List, Some, None, IfOk, OnOk, length};
ghost use Rattle.pm_types.specs.Ids.{page_id};
ghost use Rattle.pm_btpage.specs.IndexPages.{items_of, capacity_of};
ghost use Rattle.pm_pages.specs.Trees.{index_in};
ghost use Rattle.pm_pages.specs.Paged.{AllReadable};
ghost use Rattle.pm_pages.specs.Edits.{HasMeta, HasDiskCause};
ghost use Rattle.pm_pages.specs.SparePages.{HasTakeCause};
ghost use Rattle.pm_pages.specs.SoundPages.{NoBadPage, MayTake};
ghost use Rattle.pm_tree.specs.Puts.{half_of};
ghost use Rattle.pm_tree.specs.Grown.{IsParentAt, Grows, Forks, TakesChild};
ghost use Rattle.pm_tree.specs.declared.put.Put.TheVariants.{Kept, Split};

use crate::dividing::divide;
use crate::edits::{Edit, make_edit};
use crate::leaves::item_at;
use crate::put::{Part, Put};
use crate::separator::Separator;
use pm_btpage::capacity;
use pm_pages::Pages;
use pm_types::{PageFault, PageId};

/// Puts a new child into an inner page that has room for it.
pub fn add_child<P: Pages>(pages: &mut P, at: u32, i: u16, part: &Part) -> Result<(), PageFault>
    requires ready { P.ready pages.old }
    requires meta { HasMeta (P.seen pages.old) }
    requires readable { AllReadable (P.seen pages.old) }
    requires parent { IsParentAt (P.seen pages.old) at part.now.from i }
    requires space { (page : List ℕ) → (P.seen pages.old).pages at ≡ Some page
        → length (items_of page) < capacity_of (length page) }
    ensures kept { P.kept pages.old pages.new }
    ensures readable { AllReadable (P.seen pages.new) }
    ensures grows { OnOk result (Grows P.tells (P.seen pages.old) (P.seen pages.new) at i part.now) }
    ensures cause { HasDiskCause (P.seen pages.old) (P.seen pages.new).faults result }
{
    let word = child_name(pages.part(), part.right).0;
    make_edit(pages, at, Edit::Insert(i, word), part.from.key())
}

/// Puts a new child into an inner page that has no room for it: the page is divided.
pub fn fork<P: Pages>(pages: &mut P, at: u32, i: u16, part: Part) -> Result<Part, PageFault>
    requires ready { P.ready pages.old }
    requires meta { HasMeta (P.seen pages.old) }
    requires room { 1 ≤ (P.seen pages.old).spare }
    requires readable { AllReadable (P.seen pages.old) }
    requires parent { IsParentAt (P.seen pages.old) at part.from i }
    requires full { (page : List ℕ) → (P.seen pages.old).pages at ≡ Some page
        → capacity_of (length page) ≤ length (items_of page) }
    requires levels { part.levels < 8 }
    ensures kept { P.kept pages.old pages.new }
    ensures readable { AllReadable (P.seen pages.new) }
    ensures forks { IfOk result (Forks P.tells (P.seen pages.old) (P.seen pages.new) at i part) }
    ensures cause { HasTakeCause P.tells (P.seen pages.old) (P.seen pages.new) result }
    ensures sound { MayTake P.tells (P.seen pages.old) → NoBadPage result }
{
    let half = capacity(pages.page_size()) / 2;
    if i < half {
        fork_left(pages, at, i, half, part)
    } else if i > half {
        fork_right(pages, at, i, half, part)
    } else {
        fork_middle(pages, at, i, part)
    }
}

// The new child's item goes up.
fn fork_middle<P: Pages>(pages: &mut P, at: u32, i: u16, part: Part) -> Result<Part, PageFault>
    requires ready { P.ready pages.old }
    requires meta { HasMeta (P.seen pages.old) }
    requires room { 1 ≤ (P.seen pages.old).spare }
    requires readable { AllReadable (P.seen pages.old) }
    requires parent { IsParentAt (P.seen pages.old) at part.from i }
    requires full { (page : List ℕ) → (P.seen pages.old).pages at ≡ Some page
        → capacity_of (length page) ≤ length (items_of page) }
    requires half { i ≡ half_of (P.seen pages.old).page_size }
    requires levels { part.levels < 8 }
    ensures kept { P.kept pages.old pages.new }
    ensures readable { AllReadable (P.seen pages.new) }
    ensures forks { IfOk result (Forks P.tells (P.seen pages.old) (P.seen pages.new) at i part) }
    ensures cause { HasTakeCause P.tells (P.seen pages.old) (P.seen pages.new) result }
    ensures sound { MayTake P.tells (P.seen pages.old) → NoBadPage result }
{
    let child = child_name(pages.part(), part.right);
    let right = divide(pages, at, Some(child), i, i)?;
    Ok(forked(part.from, right, part.levels))
}

// The item before the middle goes up, and the new child stays.
fn fork_left<P: Pages>(
    pages: &mut P,
    at: u32,
    i: u16,
    half: u16,
    part: Part,
) -> Result<Part, PageFault>
    requires ready { P.ready pages.old }
    requires meta { HasMeta (P.seen pages.old) }
    requires room { 1 ≤ (P.seen pages.old).spare }
    requires readable { AllReadable (P.seen pages.old) }
    requires parent { IsParentAt (P.seen pages.old) at part.from i }
    requires full { (page : List ℕ) → (P.seen pages.old).pages at ≡ Some page
        → capacity_of (length page) ≤ length (items_of page) }
    requires half { half ≡ half_of (P.seen pages.old).page_size }
    requires side { i < half }
    requires levels { part.levels < 8 }
    ensures kept { P.kept pages.old pages.new }
    ensures readable { AllReadable (P.seen pages.new) }
    ensures forks { IfOk result (Forks P.tells (P.seen pages.old) (P.seen pages.new) at i part) }
    ensures cause { HasTakeCause P.tells (P.seen pages.old) (P.seen pages.new) result }
    ensures sound { MayTake P.tells (P.seen pages.old) → NoBadPage result }
{
    let item = item_at(pages, at, half - 1)?;
    let right = divide(pages, at, Some(PageId(item.1)), half, half - 1)?;
    let word = child_name(pages.part(), part.right).0;
    make_edit(pages, at, Edit::Insert(i, word), part.from.key())?;
    Ok(forked(item.0, right, part.levels))
}

// The item at the middle goes up, and the new child goes into the new page.
fn fork_right<P: Pages>(
    pages: &mut P,
    at: u32,
    i: u16,
    half: u16,
    part: Part,
) -> Result<Part, PageFault>
    requires ready { P.ready pages.old }
    requires meta { HasMeta (P.seen pages.old) }
    requires room { 1 ≤ (P.seen pages.old).spare }
    requires readable { AllReadable (P.seen pages.old) }
    requires parent { IsParentAt (P.seen pages.old) at part.from i }
    requires full { (page : List ℕ) → (P.seen pages.old).pages at ≡ Some page
        → capacity_of (length page) ≤ length (items_of page) }
    requires half { half ≡ half_of (P.seen pages.old).page_size }
    requires side { half < i }
    requires levels { part.levels < 8 }
    ensures kept { P.kept pages.old pages.new }
    ensures readable { AllReadable (P.seen pages.new) }
    ensures forks { IfOk result (Forks P.tells (P.seen pages.old) (P.seen pages.new) at i part) }
    ensures cause { HasTakeCause P.tells (P.seen pages.old) (P.seen pages.new) result }
    ensures sound { MayTake P.tells (P.seen pages.old) → NoBadPage result }
{
    let item = item_at(pages, at, half)?;
    let right = divide(pages, at, Some(PageId(item.1)), half + 1, half)?;
    let word = child_name(pages.part(), part.right).0;
    make_edit(
        pages,
        right,
        Edit::Insert(i - half - 1, word),
        part.from.key(),
    )?;
    Ok(forked(item.0, right, part.levels))
}

// A new page, one level above a part.
fn forked(from: Separator, right: u32, levels: u32) -> Part
    requires { levels < 8 }
    ensures { result ≡ record { from = from; right = right; levels = levels + 1 } }
{
    Part {
        from,
        right,
        levels: levels + 1,
    }
}

// The name of a child.
pub fn child_name(part_number: u16, index: u32) -> PageId
    ensures name { result ≡ page_id part_number index }
    ensures index { index_in result.0 ≡ index }
{
    PageId::new(part_number, index)
}
