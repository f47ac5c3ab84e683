//! Pages that are taken out of the chain of their bucket, and pages that are put at a chain's head.

ghost use Rattle.std.specs.Prelude.{◌≡◌, ◌≢◌, ℕ, ◌+◌, ◌<◌, ◌≤◌, List, [], OnOk, IfOk, IsTrue};
ghost use Rattle.pm_meta.specs.declared.layout.TheConstants.{BUCKETS};
ghost use Rattle.pm_pages.specs.Rows.{Partition};
ghost use Rattle.pm_pages.specs.Paged.{AllReadable};
ghost use Rattle.pm_pages.specs.Edits.{LooksAtPages, HasMeta, HasDiskCause};
ghost use Rattle.pm_free.specs.declared.edits.Edit.TheVariants.{Before, After, Links};
ghost use Rattle.pm_free.specs.DataEdits.{IsDataAt, CanEdit};
ghost use Rattle.pm_free.specs.Seats.{IsSeatIn};
ghost use Rattle.pm_free.specs.Chained.{MovesPage, SettlesPage};
ghost use Rattle.pm_free.specs.Changes.{ChangesData, EditsPartition, SetsHead, SetsBefore, SetsAfter};
ghost use Rattle.pm_free.specs.Changes.{IsDataOrNone};
ghost use Rattle.pm_free.specs.Causes.{Names, HasChainCause};
ghost use Rattle.pm_pages.specs.SoundPages.{IsSound, NoBadPage};
ghost use Rattle.pm_free.specs.Sound.{IsDataOrZero, HasSoundChains};

use crate::edits::{Edit, make_edit};
use crate::seats::{Seat, find_seat, seat_at};
use pm_meta::MetaSlot;
use pm_pages::{Pages, number, set_number};
use pm_types::{PageFault, PageId};

/// Takes a data page that is at hand out of the chain of a bucket, in which it stands.
///
/// `Failed` comes only where a call on the disk failed. `BadPage` names the page where a neighbour
/// that it names is no data page of the partition, or the neighbour where that is bad; no page is
/// changed then. It never comes of sound pages in chains that are right.
pub fn unlink<P: Pages>(pages: &mut P, at: u32, bucket: u8) -> Result<(), PageFault>
    requires ready { P.ready pages.old }
    requires meta { HasMeta (P.seen pages.old) }
    requires room { 2 ≤ (P.seen pages.old).spare }
    requires readable { AllReadable (P.seen pages.old) }
    requires page { IsDataAt (P.seen pages.old) at }
    requires bucket { bucket < BUCKETS }
    ensures kept { P.kept pages.old pages.new }
    ensures readable { AllReadable (P.seen pages.new) }
    ensures unlinks { OnOk result (ChangesData P.tells (P.seen pages.old) (P.seen pages.new) 2
        (λ old new. MovesPage old new at bucket BUCKETS)) }
    ensures cause { HasChainCause P.tells (P.seen pages.old) (P.seen pages.new) result }
    ensures sound { (home : ℕ → ℕ) → HasSoundChains P.tells (P.seen pages.old) home
        → home at ≡ bucket → NoBadPage result }
{
    let seat = seat_at(pages, at)?;
    check_named(pages, at, seat.prev)?;
    check_named(pages, at, seat.next)?;
    pass_by(pages, bucket, seat.prev, seat.next)
}

// Makes the two neighbours of a page neighbours of one another.
fn pass_by<P: Pages>(pages: &mut P, bucket: u8, prev: u32, next: u32) -> Result<(), PageFault>
    requires ready { P.ready pages.old }
    requires meta { HasMeta (P.seen pages.old) }
    requires readable { AllReadable (P.seen pages.old) }
    requires bucket { bucket < BUCKETS }
    requires prev { IsDataOrNone (P.seen pages.old) prev }
    requires next { IsDataOrNone (P.seen pages.old) next }
    ensures kept { P.kept pages.old pages.new }
    ensures readable { AllReadable (P.seen pages.new) }
    ensures passes { OnOk result (ChangesData P.tells (P.seen pages.old) (P.seen pages.new) 0
        (λ old new. (between : Partition) × SetsAfter bucket prev next old between
        × SetsBefore next prev between new)) }
    ensures cause { HasDiskCause (P.seen pages.old) (P.seen pages.new).faults result }
{
    set_after(pages, bucket, prev, next)?;
    set_before(pages, next, prev)
}

/// Puts a data page that is at hand, and stands in no chain, at the head of the chain of a bucket.
///
/// `Failed` comes only where a call on the disk failed. `BadPage` names the meta page where the head
/// that it names is no data page of the partition, or the head where that is bad; no page is changed
/// then. It never comes of sound pages in chains that are right.
pub fn link<P: Pages>(pages: &mut P, at: u32, bucket: u8) -> Result<(), PageFault>
    requires ready { P.ready pages.old }
    requires meta { HasMeta (P.seen pages.old) }
    requires room { 1 ≤ (P.seen pages.old).spare }
    requires readable { AllReadable (P.seen pages.old) }
    requires page { IsDataAt (P.seen pages.old) at }
    requires bucket { bucket < BUCKETS }
    ensures kept { P.kept pages.old pages.new }
    ensures readable { AllReadable (P.seen pages.new) }
    ensures links { OnOk result (ChangesData P.tells (P.seen pages.old) (P.seen pages.new) 1
        (λ old new. MovesPage old new at BUCKETS bucket)) }
    ensures cause { HasChainCause P.tells (P.seen pages.old) (P.seen pages.new) result }
    ensures sound { (home : ℕ → ℕ) → HasSoundChains P.tells (P.seen pages.old) home
        → NoBadPage result }
{
    let head = number(pages, MetaSlot::Bucket(bucket))?;
    check_named(pages, 0, head)?;
    put_first(pages, bucket, at, head)
}

// Makes a page the first of a chain, before this one.
fn put_first<P: Pages>(pages: &mut P, bucket: u8, at: u32, head: u32) -> Result<(), PageFault>
    requires ready { P.ready pages.old }
    requires meta { HasMeta (P.seen pages.old) }
    requires readable { AllReadable (P.seen pages.old) }
    requires page { IsDataAt (P.seen pages.old) at }
    requires bucket { bucket < BUCKETS }
    requires head { IsDataOrNone (P.seen pages.old) head }
    ensures kept { P.kept pages.old pages.new }
    ensures readable { AllReadable (P.seen pages.new) }
    ensures puts { OnOk result (ChangesData P.tells (P.seen pages.old) (P.seen pages.new) 0
        (λ old new. (a : Partition) × (b : Partition) × SetsBefore head at old a
        × EditsPartition at [] (Links 0 head) a b × SetsHead bucket at b new)) }
    ensures cause { HasDiskCause (P.seen pages.old) (P.seen pages.new).faults result }
{
    set_before(pages, head, at)?;
    set_page(pages, at, Edit::Links(0, head))?;
    set_head(pages, bucket, at)
}

// Makes sure that a page which page `from` names is a data page of the partition, if there is one.
fn check_named<P: Pages>(pages: &mut P, from: u32, at: u32) -> Result<(), PageFault>
    requires ready { P.ready pages.old }
    requires meta { HasMeta (P.seen pages.old) }
    requires room { 1 ≤ (P.seen pages.old).spare }
    requires readable { AllReadable (P.seen pages.old) }
    requires names { Names (P.seen pages.old) from at }
    ensures kept { P.kept pages.old pages.new }
    ensures looks { LooksAtPages P.tells (P.seen pages.old) (P.seen pages.new) 1 }
    ensures readable { AllReadable (P.seen pages.new) }
    ensures page { OnOk result (IsDataOrNone (P.seen pages.new) at) }
    ensures cause { HasChainCause P.tells (P.seen pages.old) (P.seen pages.new) result }
    ensures sound { P.tells → IsSound (P.seen pages.old) → IsDataOrZero (P.seen pages.old).pages at
        → NoBadPage result }
{
    if at == 0 {
        return Ok(());
    }
    let count = number(pages, MetaSlot::Pages)?;
    match find_seat(pages, count, at)? {
        None => Err(PageFault::BadPage(PageId::new(pages.part(), from))),
        Some(_) => Ok(()),
    }
}

// Makes a page, or the bucket where there is none, name a page as the one after it, or its first.
fn set_after<P: Pages>(pages: &mut P, bucket: u8, at: u32, next: u32) -> Result<(), PageFault>
    requires ready { P.ready pages.old }
    requires meta { HasMeta (P.seen pages.old) }
    requires readable { AllReadable (P.seen pages.old) }
    requires bucket { bucket < BUCKETS }
    requires page { IsDataOrNone (P.seen pages.old) at }
    ensures kept { P.kept pages.old pages.new }
    ensures readable { AllReadable (P.seen pages.new) }
    ensures sets { OnOk result (ChangesData P.tells (P.seen pages.old) (P.seen pages.new) 0
        (SetsAfter bucket at next)) }
    ensures cause { HasDiskCause (P.seen pages.old) (P.seen pages.new).faults result }
{
    if at == 0 {
        return set_head(pages, bucket, next);
    }
    set_page(pages, at, Edit::After(next))
}

// Makes a page, if there is one, name a page as the one before it.
fn set_before<P: Pages>(pages: &mut P, at: u32, prev: u32) -> Result<(), PageFault>
    requires ready { P.ready pages.old }
    requires meta { HasMeta (P.seen pages.old) }
    requires readable { AllReadable (P.seen pages.old) }
    requires page { IsDataOrNone (P.seen pages.old) at }
    ensures kept { P.kept pages.old pages.new }
    ensures readable { AllReadable (P.seen pages.new) }
    ensures sets { OnOk result (ChangesData P.tells (P.seen pages.old) (P.seen pages.new) 0
        (SetsBefore at prev)) }
    ensures cause { HasDiskCause (P.seen pages.old) (P.seen pages.new).faults result }
{
    if at == 0 {
        return Ok(());
    }
    set_page(pages, at, Edit::Before(prev))
}

// Changes the neighbours that a data page names.
fn set_page<P: Pages>(pages: &mut P, at: u32, edit: Edit) -> Result<(), PageFault>
    requires ready { P.ready pages.old }
    requires meta { HasMeta (P.seen pages.old) }
    requires readable { AllReadable (P.seen pages.old) }
    requires page { IsDataAt (P.seen pages.old) at }
    requires fits { (page : List ℕ) → CanEdit page [] edit }
    ensures kept { P.kept pages.old pages.new }
    ensures readable { AllReadable (P.seen pages.new) }
    ensures sets { OnOk result (ChangesData P.tells (P.seen pages.old) (P.seen pages.new) 0
        (EditsPartition at [] edit)) }
    ensures cause { HasDiskCause (P.seen pages.old) (P.seen pages.new).faults result }
{
    make_edit(pages, at, edit, b"")?;
    Ok(())
}

// Makes a page the first of a bucket's chain, as the meta page says.
fn set_head<P: Pages>(pages: &mut P, bucket: u8, index: u32) -> Result<(), PageFault>
    requires ready { P.ready pages.old }
    requires meta { HasMeta (P.seen pages.old) }
    requires readable { AllReadable (P.seen pages.old) }
    requires bucket { bucket < BUCKETS }
    ensures kept { P.kept pages.old pages.new }
    ensures readable { AllReadable (P.seen pages.new) }
    ensures sets { OnOk result (ChangesData P.tells (P.seen pages.old) (P.seen pages.new) 0
        (SetsHead bucket index)) }
    ensures cause { HasDiskCause (P.seen pages.old) (P.seen pages.new).faults result }
{
    set_number(pages, MetaSlot::Bucket(bucket), index)
}

/// Makes a data page that is at hand, and stands in the chain of a bucket, stand in the one for its room.
///
/// Errors come as in `unlink` and `link`. After one the page may stand in no chain.
pub fn settle<P: Pages>(pages: &mut P, at: u32, bucket: u8) -> Result<(), PageFault>
    requires ready { P.ready pages.old }
    requires meta { HasMeta (P.seen pages.old) }
    requires room { 3 ≤ (P.seen pages.old).spare }
    requires readable { AllReadable (P.seen pages.old) }
    requires page { IsDataAt (P.seen pages.old) at }
    requires bucket { bucket < BUCKETS }
    ensures kept { P.kept pages.old pages.new }
    ensures readable { AllReadable (P.seen pages.new) }
    ensures settles { OnOk result (ChangesData P.tells (P.seen pages.old) (P.seen pages.new) 3
        (λ old new. SettlesPage old new at bucket)) }
    ensures cause { HasChainCause P.tells (P.seen pages.old) (P.seen pages.new) result }
    ensures sound { (home : ℕ → ℕ) → HasSoundChains P.tells (P.seen pages.old) home
        → home at ≡ bucket → NoBadPage result }
{
    let seat = seat_at(pages, at)?;
    if seat.bucket == bucket {
        return Ok(());
    }
    unlink(pages, at, bucket)?;
    link(pages, at, seat.bucket)
}
