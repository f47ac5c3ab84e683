//! The check of a store's base pages and of its log.

ghost use Rattle.std.specs.Prelude.{◌≡◌, ◌≤◌, ◌<◌, ◌+◌, ◌^◌, IfOk, IfSome, OnOk, IsErrOf};
ghost use Rattle.pm_types.specs.declared.page_id.PageId.{PageId};
ghost use Rattle.pm_types.specs.declared.place.Place.{Place};
ghost use Rattle.pm_types.specs.Shapes.{IsShape};
ghost use Rattle.pm_disk.specs.Moments.{Does, AllMoments};
ghost use Rattle.pm_disk.specs.States.{IsUsable};
ghost use Rattle.pm_frame.specs.declared.limits.TheConstants.{SEGMENT_END_MAX as last_end};
ghost use Rattle.pm_meta.specs.MetaPages.{IsMetaPage};
ghost use Rattle.pm_meta.specs.declared.slots.MetaSlot.TheVariants.{Rows};
ghost use Rattle.pm_pages.specs.PageLists.{pages_in};
ghost use Rattle.pm_pages.specs.Rows.{number_in, page_count};
ghost use Rattle.pm_records.specs.LogFiles.{contents};
ghost use Rattle.pm_records.specs.Records.{record_of};
ghost use Rattle.pm_core.specs.BasePages.{Partitions};
ghost use Rattle.pm_redo.specs.Loading.{BaseIs, HaveShape, IsBadBase, HasPageFault};
ghost use Rattle.pm_redo.specs.Pictures.{shape_in};
ghost use Rattle.pm_redo.specs.Rebuilding.{IsSame};
ghost use Rattle.pm_segments.specs.Scans.{IsAhead};
ghost use Rattle.pm_tools.specs.Causes.{HasFault, HasPlainFault, HasStoreFault};
ghost use Rattle.pm_tools.specs.Listings.{GoesFurther, list_place};
ghost use Rattle.pm_tools.specs.Verifying.{IsVerified, IsBadRecord, IsBadBasePage, IsBadFrame, IsBadIn};
ghost use Rattle.pm_tools.specs.Verifying.{ArePagesSound, CountsChanges, CountsPartition, HasCounted};
ghost use Rattle.pm_tools.specs.Verifying.{CountsNext, CountsRecord};

use crate::listing::{Next, list_place};
use pm_disk::Host;
use pm_frame::SEGMENT_END_MAX;
use pm_meta::MetaSlot;
use pm_pages::is_well_formed;
use pm_records::{LogRecord, decode};
use pm_redo::{Pictures, base_pages, load_pages};
use pm_segments::{Scan, segment_of};
use pm_types::{Page, PageId, Place, Shape, StoreFault};
use std::alloc::{AllocError, Global};

/// What a store has.
#[derive(Clone, Copy, Debug, PartialEq, Eq)]
pub struct Counts {
    /// The pages of its partitions.
    pub pages: u64,
    /// Their rows.
    pub rows: u64,
    /// The changes of the map that the log has from the replay place of its checkpoint on.
    pub records: u64,
}

// The pages of partitions, and their rows.
#[derive(Clone, Copy, Debug, PartialEq, Eq)]
struct PageCounts {
    pages: u64,
    rows: u64,
}

/// Checks that the base pages of each partition are well formed, and that each frame of the log from the replay
/// place of its checkpoint on, or from the log's begin where it has none, holds a record. It counts them, and
/// changes nothing.
///
/// A partition's pages are held in memory together, and given up before the next one's are read.
///
/// `BadRecord` names the first frame that holds no record, or the place at which the log doesn't rebuild the base
/// pages. `BadPage` names a page that fails its check, or that counts and isn't there, or the first page of a
/// partition that isn't well formed otherwise.
pub fn verify<H: Host>(alloc: Global, host: &mut H) -> Result<Counts, StoreFault>
    requires usable { IsUsable (H.Device.state host.old) }
    ensures verified { H.Device.tells → IfOk result (IsVerified (H.Device.history host.old).world) }
    ensures bad_record { H.Device.tells → (at : Place) → IsErrOf result (StoreFault.BadRecord at)
        → IsBadRecord (H.Device.history host.old).world at }
    ensures bad_page { H.Device.tells → (id : PageId) → IsErrOf result (StoreFault.BadPage id)
        → IsBadBasePage (H.Device.history host.old).world id }
    ensures same { H.Device.tells → AllMoments (H.Device.history host.old) (H.Device.history host.new)
        (IsSame (H.Device.history host.old).world) }
    ensures cause { HasFault (H.Device.state host.old) (H.Device.state host.new) result }
{
    let pictures = base_pages(alloc, host)?;
    let counts = verify_pages(alloc, host, &pictures)?;
    let records = count_changes(alloc, host)?;
    Ok(Counts {
        pages: counts.pages,
        rows: counts.rows,
        records,
    })
}

// Checks the base pages of each partition, and counts them.
fn verify_pages<H: Host>(
    alloc: Global,
    host: &mut H,
    pictures: &Pictures,
) -> Result<PageCounts, StoreFault>
    requires usable { IsUsable (H.Device.state host.old) }
    requires limits { IfSome (shape_in pictures.now) IsShape }
    ensures sound { H.Device.tells → (base : Partitions)
        → BaseIs pictures.now (H.Device.history host.old).world base
        → IfOk result (ArePagesSound (shape_in pictures.now) base) }
    ensures bad { H.Device.tells → (base : Partitions)
        → BaseIs pictures.now (H.Device.history host.old).world base → (id : PageId)
        → IsErrOf result (StoreFault.BadPage id) → IsBadIn (shape_in pictures.now) base id }
    ensures same { H.Device.tells → AllMoments (H.Device.history host.old) (H.Device.history host.new)
        (IsSame (H.Device.history host.old).world) }
    ensures cause { HasPageFault (H.Device.state host.old) (H.Device.state host.new) result }
{
    match pictures.shape() {
        Some(shape) => verify_partitions(alloc, host, pictures, &shape),
        None => Ok(PageCounts { pages: 0, rows: 0 }),
    }
}

// The same for pages of this shape.
fn verify_partitions<H: Host>(
    alloc: Global,
    host: &mut H,
    pictures: &Pictures,
    shape: &Shape,
) -> Result<PageCounts, StoreFault>
    requires usable { IsUsable (H.Device.state host.old) }
    requires shape { IsShape shape.now }
    requires shaped { HaveShape shape.now pictures.now }
    ensures sound { H.Device.tells → (base : Partitions)
        → BaseIs pictures.now (H.Device.history host.old).world base
        → IfOk result (HasCounted shape.now base shape.now.partitions) }
    ensures bad { H.Device.tells → (base : Partitions)
        → BaseIs pictures.now (H.Device.history host.old).world base → (id : PageId)
        → IsErrOf result (StoreFault.BadPage id) → IsBadBase shape.now base id }
    ensures same { H.Device.tells → AllMoments (H.Device.history host.old) (H.Device.history host.new)
        (IsSame (H.Device.history host.old).world) }
    ensures cause { HasPageFault (H.Device.state host.old) (H.Device.state host.new) result }
{
    let mut counts = PageCounts { pages: 0, rows: 0 };
    'each: for part in 0..shape.partitions {
        let one = verify_partition(alloc, host, pictures, shape, part)?;
        counts.pages += one.pages;
        counts.rows += one.rows;
    }
    Ok(counts)
}

// Checks the base pages of a partition, and counts them.
fn verify_partition<H: Host>(
    alloc: Global,
    host: &mut H,
    pictures: &Pictures,
    shape: &Shape,
    part: u16,
) -> Result<PageCounts, StoreFault>
    requires usable { IsUsable (H.Device.state host.old) }
    requires shape { IsShape shape.now }
    requires shaped { HaveShape shape.now pictures.now }
    requires inside { part < shape.now.partitions }
    ensures few { IfOk result (λ counts. (counts.pages < 2 ^ 32) × (counts.rows < 2 ^ 32)) }
    ensures sound { H.Device.tells → (base : Partitions)
        → BaseIs pictures.now (H.Device.history host.old).world base
        → IfOk result (CountsPartition shape.now part (base part)) }
    ensures bad { H.Device.tells → (base : Partitions)
        → BaseIs pictures.now (H.Device.history host.old).world base → (id : PageId)
        → IsErrOf result (StoreFault.BadPage id) → IsBadBase shape.now base id }
    ensures same { H.Device.tells → AllMoments (H.Device.history host.old) (H.Device.history host.new)
        (IsSame (H.Device.history host.old).world) }
    ensures cause { HasPageFault (H.Device.state host.old) (H.Device.state host.new) result }
{
    let pages = load_pages(alloc, host, pictures, shape, part)?;
    let is_sound = is_well_formed(alloc, shape, part, &pages)?;
    if !is_sound {
        return Err(StoreFault::BadPage(PageId::new(part, 0)));
    }
    Ok(counted(&pages))
}

// What a partition's pages count for, by its first one.
fn counted(pages: &[Page]) -> PageCounts
    requires meta { IfSome (pages_in pages.now 0) IsMetaPage }
    ensures few { (result.pages < 2 ^ 32) × (result.rows < 2 ^ 32) }
    ensures pages { result.pages ≡ page_count (pages_in pages.now) }
    ensures rows { result.rows ≡ number_in (pages_in pages.now) Rows }
{
    match pages.first() {
        Some(meta) => PageCounts {
            pages: u64::from(pm_meta::get(&meta.bytes, MetaSlot::Pages)),
            rows: u64::from(pm_meta::get(&meta.bytes, MetaSlot::Rows)),
        },
        None => PageCounts { pages: 0, rows: 0 },
    }
}

// Reads the log from the place on from which it is listed, and counts the changes of the map.
fn count_changes<H: Host>(alloc: Global, host: &mut H) -> Result<u64, StoreFault>
    requires usable { IsUsable (H.Device.state host.old) }
    ensures counts { H.Device.tells → IfOk result (CountsChanges
        (contents (H.Device.history host.old).world.log) (list_place (H.Device.history host.old).world)) }
    ensures bad { H.Device.tells → (at : Place) → IsErrOf result (StoreFault.BadRecord at)
        → IsBadFrame (contents (H.Device.history host.old).world.log)
        (list_place (H.Device.history host.old).world) at }
    ensures same { H.Device.tells → AllMoments (H.Device.history host.old) (H.Device.history host.new)
        (IsSame (H.Device.history host.old).world) }
    ensures cause { HasStoreFault (H.Device.state host.old) (H.Device.state host.new) result }
{
    let from = list_place(host)?;
    if from.off > SEGMENT_END_MAX {
        return Ok(0);
    }
    count_from(alloc, host, from)
}

// The same from this place on.
fn count_from<H: Host>(alloc: Global, host: &mut H, from: Place) -> Result<u64, StoreFault>
    requires usable { IsUsable (H.Device.state host.old) }
    requires within { from.off ≤ last_end }
    ensures counts { H.Device.tells → IfOk result
        (CountsChanges (contents (H.Device.history host.old).world.log) from) }
    ensures bad { H.Device.tells → (at : Place) → IsErrOf result (StoreFault.BadRecord at)
        → IsBadFrame (contents (H.Device.history host.old).world.log) from at }
    ensures same { H.Device.tells → AllMoments (H.Device.history host.old) (H.Device.history host.new)
        (IsSame (H.Device.history host.old).world) }
    ensures cause { HasStoreFault (H.Device.state host.old) (H.Device.state host.new) result }
{
    let mut scan = Scan::new(alloc, from)?;
    let mut count = 0;
    'frames: loop {
        let next = read_next(host, &mut scan, &mut count)?;
        let at = scan.place();
        // For the proof alone: the segment's number is below 2^64, so that the loop ends.
        let _segment = segment_of(at);
        match next {
            Next::Record => {}
            Next::Bad => return Err(StoreFault::BadRecord(at)),
            Next::End => return Ok(count),
        }
    }
}

// Reads what stands next in the log, and counts it where it is a change of the map.
fn read_next<H: Host>(host: &mut H, scan: &mut Scan, count: &mut u64) -> Result<Next, StoreFault>
    requires usable { IsUsable (H.Device.state host.old) }
    requires ahead { H.Device.tells → IsAhead scan.old (H.Device.history host.old).world }
    ensures counts { H.Device.tells → IfOk result (λ next. CountsNext next count.old count.new
        scan.old scan.new (H.Device.history host.old).world) }
    ensures ahead { H.Device.tells → OnOk result (IsAhead scan.new (H.Device.history host.new).world) }
    ensures further { IfOk result (λ next. GoesFurther next scan.old scan.new) }
    ensures bound { OnOk result (scan.new.next.off ≤ last_end) }
    ensures does { H.Device.tells → Does (H.Device.history host.old) (H.Device.history host.new) result
        (H.Device.history host.old).world }
    ensures cause { HasPlainFault (H.Device.state host.old) (H.Device.state host.new) result }
{
    match scan.next(host)? {
        Some(frame) => Ok(count_record(frame.kind, frame.payload, count)?),
        None => Ok(Next::End),
    }
}

// Counts what the payload of a frame of this kind holds, where it is a change of the map. No log has so many that
// there is no number for them.
fn count_record(kind: u8, payload: &[u8], count: &mut u64) -> Result<Next, AllocError>
    ensures { IfOk result (λ next. CountsRecord next count.old count.new (record_of kind payload.now)) }
{
    match decode(kind, payload) {
        Ok(LogRecord::Logical { .. }) => {
            *count = one_more(*count)?;
            Ok(Next::Record)
        }
        Ok(LogRecord::Snapshot { .. }) => Ok(Next::Record),
        Ok(LogRecord::Delta { .. }) => Ok(Next::Record),
        Ok(LogRecord::CpBegin { .. }) => Ok(Next::Record),
        Ok(LogRecord::Restart { .. }) => Ok(Next::Record),
        Ok(LogRecord::Seal) => Ok(Next::Record),
        Err(_) => Ok(Next::Bad),
    }
}

// A count of one more.
fn one_more(count: u64) -> Result<u64, AllocError>
    ensures { IfOk result (λ more. more ≡ count + 1) }
{
    match count.checked_add(1) {
        Some(more) => Ok(more),
        // Not reached, though no clause says so: no log has 2^64 records.
        None => Err(AllocError),
    }
}
