//! Pages, rebuilt from the records of the log.

ghost use Rattle.std.specs.Prelude.{◌≡◌, ◌≤◌, ◌↔◌, [], length, IfOk, IfSome, OnErr, IsTrue};
ghost use Rattle.std.specs.Option.{option_copied};
ghost use Rattle.std.specs.Bool.{OnTrue, OnFalse};
ghost use Rattle.pm_types.specs.DeltaRanges.{IsDelta, applied};
ghost use Rattle.pm_types.specs.Ids.{part_of_id, index_of_id};
ghost use Rattle.pm_types.specs.PageSizes.{IsPageSize};
ghost use Rattle.pm_records.specs.PageRecords.{IsPageDelta};
ghost use Rattle.pm_records.specs.Records.{IsRecord, Snapshot, Delta};
ghost use Rattle.pm_records.specs.Views.{record_view};
ghost use Rattle.pm_disk.specs.Moments.{Does};
ghost use Rattle.pm_disk.specs.States.{HasCause, IsUsable};
ghost use Rattle.pm_types.specs.declared.limits.TheConstants.{PAGE_SIZE_MAX};
ghost use Rattle.pm_core.specs.BasePages.{laid_over, pages_of};
ghost use Rattle.pm_core.specs.Calls.{AreRebuilt};
ghost use Rattle.pm_redo.specs.Pictures.{ReadsPage, files_in};
ghost use Rattle.pm_redo.specs.PageMaps.{TakesRecord, kept_pages};

use pm_disk::{Failed, Host};
use pm_pages::apply;
use pm_records::LogRecord;
use pm_types::{PageId, Shape};
use std::alloc::{AllocError, Global};
use std::collections::BTreeMap;
use std::marker::Model;

/// A page's partition and its index there: by these the pages of a store are ordered.
#[derive(Clone, Copy, Debug, PartialEq, Eq, PartialOrd, Ord)]
pub struct PageNumber {
    pub part: u16,
    pub index: u32,
}

/// The pages of a store that records of the log rebuild: each is its last snapshot with the later
/// deltas applied. Each is held once.
#[derive(Drop)]
pub struct RebuiltPages {
    shape: Shape,
    pages: BTreeMap<PageNumber, Vec<u8>>,
}

impl Model for RebuiltPages {
    ghost use Rattle.pm_redo.specs.PageMaps.{PageMap, AreSized, seen};

    ghost Value = { PageMap };

    ghost view = { λ rebuilt. record {
      shape = rebuilt.shape;
      entries = seen (λ bytes. bytes.items) rebuilt.pages.entries;
    } };

    ghost invariant = { λ rebuilt. AreSized rebuilt.shape.page_size
        (seen (λ bytes. bytes.items) rebuilt.pages.entries) };
}

impl RebuiltPages {
    /// No page yet, of a store of this shape. It takes no memory.
    pub fn new(alloc: Global, shape: Shape) -> RebuiltPages
        requires { IsPageSize shape.page_size }
        ensures { result ≡ record { shape = shape; entries = [] } }
    {
        RebuiltPages {
            shape,
            pages: BTreeMap::new(alloc),
        }
    }

    /// The store's shape.
    pub fn shape(&self) -> Shape
        ensures { result ≡ self.now.shape }
    {
        self.shape
    }

    /// Takes the next record of the log, and answers true. A snapshot sets its page, a delta is applied to
    /// its page, a RESTART voids all pages, and pages of partitions outside the shape take no part.
    ///
    /// It answers false, and the pages are as they were, exactly where the record can't be: a snapshot
    /// hasn't the size of a page, or a delta comes before a snapshot of its page or ends past the page.
    /// Out of memory leaves the pages as they were, too.
    pub fn take(&mut self, alloc: Global, found: &LogRecord<'_>) -> Result<bool, AllocError>
        requires grammar { IsRecord (record_view found.now) }
        ensures takes { IfOk result (λ can. TakesRecord can self.old self.new (record_view found.now)) }
        ensures unchanged { OnErr result (self.new ≡ self.old) }
    {
        match found {
            LogRecord::Logical { .. } => Ok(true),
            LogRecord::Snapshot { page, bytes } => self.snapshot(alloc, *page, bytes),
            LogRecord::Delta { page, ranges } => Ok(self.delta(*page, ranges)),
            LogRecord::CpBegin { .. } => Ok(true),
            LogRecord::Restart { .. } => {
                self.pages.clear();
                Ok(true)
            }
            LogRecord::Seal => Ok(true),
        }
    }

    /// A page that was rebuilt, none exactly where it wasn't.
    pub fn page(&self, page: PageId) -> Option<&[u8]>
        ensures page { option_copied result ≡ kept_pages self.now (part_of_id page) (index_of_id page) }
        ensures sized { IfSome result (λ bytes. length bytes.now ≡ self.now.shape.page_size) }
        ensures short { IfSome result (λ bytes. length bytes.now ≤ PAGE_SIZE_MAX) }
    {
        match self.pages.get(&number_of(page)) {
            Some(bytes) => Some(bytes.as_slice()),
            None => None,
        }
    }

    /// The pages that were rebuilt, by partition and index.
    pub fn pages(&self, alloc: Global) -> Result<Vec<PageId>, AllocError>
        ensures { IfOk result (λ pages. AreRebuilt pages.items (kept_pages self.now)) }
    {
        let mut pages = Vec::new(alloc);
        'each: for (number, _) in &self.pages {
            pages.push(page_of(*number))?;
        }
        Ok(pages)
    }

    /// Fills `into`, which is as long as a page, with a page, and answers true: a page that was rebuilt,
    /// or else the one in the partition's file. It answers false exactly where there is neither.
    pub fn read<H: Host>(&self, host: &mut H, page: PageId, into: &mut [u8]) -> Result<bool, Failed>
        requires usable { IsUsable (H.Device.state host.old) }
        requires sized { length into.old ≡ self.now.shape.page_size }
        ensures reads { H.Device.tells → IfOk result (ReadsPage
            (laid_over (kept_pages self.now)
            (pages_of self.now.shape.page_size (files_in (H.Device.history host.old).world))
            (part_of_id page) (index_of_id page)) into.new) }
        ensures does { H.Device.tells → Does (H.Device.history host.old) (H.Device.history host.new) result
            (H.Device.history host.old).world }
        ensures cause { HasCause (H.Device.state host.old) (H.Device.state host.new) result }
    {
        // For the proof alone: each page that was rebuilt has the size of a page (`AreSized`).
        let _ = &self.shape;
        match self.page(page) {
            Some(bytes) => {
                into.copy_from_slice(bytes);
                Ok(true)
            }
            None => host.read_page(page, into),
        }
    }

    // Sets a page to its snapshot, and answers whether that can be.
    fn snapshot(&mut self, alloc: Global, page: PageId, bytes: &[u8]) -> Result<bool, AllocError>
        ensures takes { IfOk result (λ can. TakesRecord can self.old self.new (Snapshot page bytes.now)) }
        ensures unchanged { OnErr result (self.new ≡ self.old) }
    {
        if page.part() >= self.shape.partitions {
            return Ok(true);
        }
        if bytes.len() != self.shape.page_size as usize {
            return Ok(false);
        }
        let copy = Vec::from_slice(alloc, bytes)?;
        self.pages.insert(number_of(page), copy)?;
        Ok(true)
    }

    // Applies a delta to its page, and answers whether that can be.
    fn delta(&mut self, page: PageId, ranges: &[u8]) -> bool
        requires grammar { IsPageDelta page ranges.now }
        ensures { TakesRecord result self.old self.new (Delta page ranges.now) }
    {
        if page.part() >= self.shape.partitions {
            return true;
        }
        match self.pages.get_mut(&number_of(page)) {
            Some(bytes) => patch(bytes, ranges),
            None => false,
        }
    }
}

// Applies a delta to a page, and answers whether it can be applied.
fn patch(bytes: &mut Vec<u8>, ranges: &[u8]) -> bool
    requires { IsPageSize (length bytes.old.items) }
    ensures delta { IsTrue result ↔ IsDelta (length bytes.old.items) ranges.now }
    ensures applied { OnTrue result (bytes.new.items ≡ applied ranges.now bytes.old.items) }
    ensures unchanged { OnFalse result (bytes.new.items ≡ bytes.old.items) }
    ensures sized { length bytes.new.items ≡ length bytes.old.items }
{
    apply(ranges, bytes)
}

// The page with this partition and index.
fn page_of(number: PageNumber) -> PageId
    ensures part { part_of_id result ≡ number.part }
    ensures index { index_of_id result ≡ number.index }
{
    PageId::new(number.part, number.index)
}

// A page's partition and index.
fn number_of(page: PageId) -> PageNumber
    ensures { result ≡ record { part = part_of_id page; index = index_of_id page } }
{
    PageNumber {
        part: page.part(),
        index: page.index(),
    }
}
