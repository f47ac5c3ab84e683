//! Mending of pages below an inner page.

ghost use Rattle.std.specs.Prelude.{◌≡◌, ◌≢◌, ℕ, ◌+◌, ◌<◌, ◌≤◌, List, OnOk, IfOk, IsTrue, length};
ghost use Rattle.pm_btpage.specs.IndexPages.{IsIndexPage};
ghost use Rattle.pm_meta.specs.declared.slots.MetaSlot.TheVariants.{Pages};
ghost use Rattle.pm_pages.specs.Paged.{AllReadable, IsInHand, HasGapCause};
ghost use Rattle.pm_pages.specs.Edits.{HasMeta, IsNumberIn, HasDiskCause};
ghost use Rattle.pm_pages.specs.SoundPages.{NoBadPage};
ghost use Rattle.pm_tree_del.specs.Neighbours.{AreNeighbours};
ghost use Rattle.pm_pages.specs.SoundPages.{IsSound};
ghost use Rattle.pm_tree_del.specs.Sound.{StandSo, CanBeMended};
ghost use Rattle.pm_tree_del.specs.Pairs.{IsPairOf, MayMend, CanMend};
ghost use Rattle.pm_tree_del.specs.declared.mending.TheConstants.{SMALL_PAGE};
ghost use Rattle.pm_tree_del.specs.Copies.{TakesBytes};
ghost use Rattle.pm_tree_del.specs.Mending.{IsFamily, MergesPages, SharesPages, MendsCopies, MendsPair};
ghost use Rattle.pm_tree_del.specs.Mending.{MendsChild, HasMendCause};

use crate::copies::{copy_page, write_page};
use crate::items::has_few;
use crate::mends::{Mend, Patches, mend_pages};
use crate::pairs::{Pair, find_pair};
use pm_pages::{Pages, give_page};
use pm_types::{PAGE_SIZE_MAX, PageFault, PageId, Patch};

// Most stores have pages of so many bytes at most.
const SMALL_PAGE: usize = 4096;

/// Mends child i of an inner page that is at hand, which has this index and one item too few, with the one
/// beside it. Whether the inner page has lost a child and has too few items itself then.
pub fn mend_child<P: Pages>(
    pages: &mut P,
    count: u32,
    at: u32,
    i: u16,
    child: u32,
) -> Result<bool, PageFault>
    requires ready { P.ready pages.old }
    requires meta { HasMeta (P.seen pages.old) }
    requires readable { AllReadable (P.seen pages.old) }
    requires room { 1 ≤ (P.seen pages.old).spare }
    requires some { 1 ≤ at }
    requires known { IsTrue ((P.seen pages.old).known at) }
    requires asked { IsTrue ((P.seen pages.old).asked at) }
    requires child { IsTrue ((P.seen pages.old).asked child) }
    requires count { IsNumberIn (P.seen pages.old) Pages count }
    ensures kept { P.kept pages.old pages.new }
    ensures readable { AllReadable (P.seen pages.new) }
    ensures mends { IfOk result (MendsChild P.tells (P.seen pages.old) (P.seen pages.new) count at i child) }
    ensures cause { HasMendCause P.tells (P.seen pages.old) (P.seen pages.new) result }
    ensures sound { P.tells → IsSound (P.seen pages.old)
        → CanBeMended (P.seen pages.old) count at i child → NoBadPage result }
{
    match find_pair(pages, at, i)? {
        Some(pair) => mend_pair(pages, count, at, child, &pair),
        None => Err(PageFault::BadPage(PageId::new(pages.part(), at))),
    }
}

// Mends a pair, if it may be mended.
fn mend_pair<P: Pages>(
    pages: &mut P,
    count: u32,
    at: u32,
    child: u32,
    pair: &Pair,
) -> Result<bool, PageFault>
    requires ready { P.ready pages.old }
    requires meta { HasMeta (P.seen pages.old) }
    requires readable { AllReadable (P.seen pages.old) }
    requires room { 1 ≤ (P.seen pages.old).spare }
    requires some { 1 ≤ at }
    requires page { (page : List ℕ) × IsInHand (P.seen pages.old) at page × (i : ℕ) × IsPairOf page i pair.now }
    requires child { IsTrue ((P.seen pages.old).asked child) }
    requires count { IsNumberIn (P.seen pages.old) Pages count }
    ensures kept { P.kept pages.old pages.new }
    ensures readable { AllReadable (P.seen pages.new) }
    ensures may { OnOk result (MayMend pair.now count at child) }
    ensures mends { IfOk result (MendsPair P.tells (P.seen pages.old) (P.seen pages.new) at pair.now) }
    ensures cause { HasMendCause P.tells (P.seen pages.old) (P.seen pages.new) result }
    ensures sound { P.tells → IsSound (P.seen pages.old)
        → MayMend pair.now count at child → StandSo (P.seen pages.old) at pair.now → NoBadPage result }
{
    if !pair.may_mend(count, at, child) {
        return Err(PageFault::BadPage(PageId::new(pages.part(), at)));
    }
    if pages.page_size() as usize <= SMALL_PAGE {
        mend_small(pages, at, pair)
    } else {
        mend_large(pages, at, pair)
    }
}

// Mends a pair of pages of 4,096 bytes at most, whose copies take less room that has to be cleared before.
fn mend_small<P: Pages>(pages: &mut P, at: u32, pair: &Pair) -> Result<bool, PageFault>
    requires ready { P.ready pages.old }
    requires meta { HasMeta (P.seen pages.old) }
    requires readable { AllReadable (P.seen pages.old) }
    requires room { 1 ≤ (P.seen pages.old).spare }
    requires pair { CanMend (P.seen pages.old) at pair.now }
    requires small { (P.seen pages.old).page_size ≤ SMALL_PAGE }
    ensures kept { P.kept pages.old pages.new }
    ensures readable { AllReadable (P.seen pages.new) }
    ensures mends { IfOk result (MendsPair P.tells (P.seen pages.old) (P.seen pages.new) at pair.now) }
    ensures cause { HasMendCause P.tells (P.seen pages.old) (P.seen pages.new) result }
    ensures sound { P.tells → IsSound (P.seen pages.old)
        → StandSo (P.seen pages.old) at pair.now → NoBadPage result }
{
    let mut parent = [0; SMALL_PAGE];
    let mut left = [0; SMALL_PAGE];
    let mut right = [0; SMALL_PAGE];
    let size = pages.page_size() as usize;
    mend_over(
        pages,
        at,
        pair,
        &mut parent[..size],
        &mut left[..size],
        &mut right[..size],
    )
}

// Mends a pair of pages of any size.
fn mend_large<P: Pages>(pages: &mut P, at: u32, pair: &Pair) -> Result<bool, PageFault>
    requires ready { P.ready pages.old }
    requires meta { HasMeta (P.seen pages.old) }
    requires readable { AllReadable (P.seen pages.old) }
    requires room { 1 ≤ (P.seen pages.old).spare }
    requires pair { CanMend (P.seen pages.old) at pair.now }
    ensures kept { P.kept pages.old pages.new }
    ensures readable { AllReadable (P.seen pages.new) }
    ensures mends { IfOk result (MendsPair P.tells (P.seen pages.old) (P.seen pages.new) at pair.now) }
    ensures cause { HasMendCause P.tells (P.seen pages.old) (P.seen pages.new) result }
    ensures sound { P.tells → IsSound (P.seen pages.old)
        → StandSo (P.seen pages.old) at pair.now → NoBadPage result }
{
    let mut parent = [0; PAGE_SIZE_MAX];
    let mut left = [0; PAGE_SIZE_MAX];
    let mut right = [0; PAGE_SIZE_MAX];
    let size = pages.page_size() as usize;
    mend_over(
        pages,
        at,
        pair,
        &mut parent[..size],
        &mut left[..size],
        &mut right[..size],
    )
}

// Mends a pair, of which copies are made where there is room, and of the page above.
fn mend_over<P: Pages>(
    pages: &mut P,
    at: u32,
    pair: &Pair,
    parent: &mut [u8],
    left: &mut [u8],
    right: &mut [u8],
) -> Result<bool, PageFault>
    requires ready { P.ready pages.old }
    requires meta { HasMeta (P.seen pages.old) }
    requires readable { AllReadable (P.seen pages.old) }
    requires room { 1 ≤ (P.seen pages.old).spare }
    requires pair { CanMend (P.seen pages.old) at pair.now }
    requires parent_size { length parent.old ≡ (P.seen pages.old).page_size }
    requires left_size { length left.old ≡ (P.seen pages.old).page_size }
    requires right_size { length right.old ≡ (P.seen pages.old).page_size }
    ensures kept { P.kept pages.old pages.new }
    ensures readable { AllReadable (P.seen pages.new) }
    ensures mends { IfOk result (MendsPair P.tells (P.seen pages.old) (P.seen pages.new) at pair.now) }
    ensures cause { HasMendCause P.tells (P.seen pages.old) (P.seen pages.new) result }
    ensures sound { P.tells → IsSound (P.seen pages.old)
        → StandSo (P.seen pages.old) at pair.now → NoBadPage result }
{
    copy_page(pages, at, parent)?;
    copy_page(pages, pair.left, left)?;
    copy_page(pages, pair.right, right)?;
    mend_copied(pages, at, pair, parent, left, right)
}

// Mends a pair, of which copies are given, and of the page above.
fn mend_copied<P: Pages>(
    pages: &mut P,
    at: u32,
    pair: &Pair,
    parent: &mut [u8],
    left: &mut [u8],
    right: &mut [u8],
) -> Result<bool, PageFault>
    requires ready { P.ready pages.old }
    requires meta { HasMeta (P.seen pages.old) }
    requires readable { AllReadable (P.seen pages.old) }
    requires pair { CanMend (P.seen pages.old) at pair.now }
    requires family { IsFamily (P.seen pages.old) at pair.now parent.old left.old right.old }
    ensures kept { P.kept pages.old pages.new }
    ensures readable { AllReadable (P.seen pages.new) }
    ensures mends { IfOk result (MendsCopies P.tells (P.seen pages.old) (P.seen pages.new) at
        pair.now parent.old left.old right.old 0) }
    ensures cause { HasMendCause P.tells (P.seen pages.old) (P.seen pages.new) result }
    ensures sound { P.tells → IsSound (P.seen pages.old)
        → AreNeighbours parent.old left.old right.old pair.now.place → NoBadPage result }
{
    let size = pages.page_size();
    let mut patches = Patches {
        parent: Patch::none(size),
        left: Patch::none(size),
        right: Patch::none(size),
    };
    match mend_pages(parent, left, right, pair.place, &mut patches) {
        Mend::Merged => {
            write_merged(pages, at, pair, parent, left, &patches)?;
            Ok(has_few(parent))
        }
        Mend::Shared => {
            write_shared(pages, at, pair, parent, left, right, &patches)?;
            Ok(false)
        }
        Mend::Wrong => Err(PageFault::BadPage(PageId::new(pages.part(), at))),
    }
}

// Writes a pair that was merged, and gives the right page back.
fn write_merged<P: Pages>(
    pages: &mut P,
    at: u32,
    pair: &Pair,
    parent: &[u8],
    left: &[u8],
    patches: &Patches,
) -> Result<(), PageFault>
    requires ready { P.ready pages.old }
    requires meta { HasMeta (P.seen pages.old) }
    requires readable { AllReadable (P.seen pages.old) }
    requires pair { CanMend (P.seen pages.old) at pair.now }
    requires right { IsTrue ((P.seen pages.old).asked pair.now.right) }
    requires parent { TakesBytes (P.seen pages.old) at parent.now patches.now.parent }
    requires left { TakesBytes (P.seen pages.old) pair.now.left left.now patches.now.left }
    ensures kept { P.kept pages.old pages.new }
    ensures readable { AllReadable (P.seen pages.new) }
    ensures merges { OnOk result (MergesPages P.tells (P.seen pages.old) (P.seen pages.new) at
        pair.now parent.now left.now 0) }
    ensures cause { HasGapCause P.tells (P.seen pages.old) (P.seen pages.new).faults pair.now.right result }
{
    write_page(pages, pair.left, left, &patches.left)?;
    write_page(pages, at, parent, &patches.parent)?;
    give_page(pages, pair.right)
}

// Writes a pair that shares its items anew.
fn write_shared<P: Pages>(
    pages: &mut P,
    at: u32,
    pair: &Pair,
    parent: &[u8],
    left: &[u8],
    right: &[u8],
    patches: &Patches,
) -> Result<(), PageFault>
    requires ready { P.ready pages.old }
    requires meta { HasMeta (P.seen pages.old) }
    requires readable { AllReadable (P.seen pages.old) }
    requires pair { CanMend (P.seen pages.old) at pair.now }
    requires parent { TakesBytes (P.seen pages.old) at parent.now patches.now.parent }
    requires left { TakesBytes (P.seen pages.old) pair.now.left left.now patches.now.left }
    requires right { TakesBytes (P.seen pages.old) pair.now.right right.now patches.now.right }
    ensures kept { P.kept pages.old pages.new }
    ensures readable { AllReadable (P.seen pages.new) }
    ensures shares { OnOk result (SharesPages P.tells (P.seen pages.old) (P.seen pages.new) at
        pair.now parent.now left.now right.now 0) }
    ensures cause { HasDiskCause (P.seen pages.old) (P.seen pages.new).faults result }
{
    write_page(pages, pair.left, left, &patches.left)?;
    write_page(pages, pair.right, right, &patches.right)?;
    write_page(pages, at, parent, &patches.parent)
}
