//! What the operations of a worker are to hand to the log writer, made of the patches of a plain partition 0.

use pm_pages::PlainPages;
use pm_types::{OP_PAGES, PageId, Patch};
use std::alloc::{AllocError, Global};

// The kinds of records.
const SNAPSHOT: u8 = 2;

const DELTA: u8 = 3;

/// The bytes of operations, and which pages the log has had whole.
#[derive(Drop)]
pub struct Logged {
    pub bytes: Vec<u8>,
    whole: Vec<bool>,
}

impl Logged {
    /// No operation yet.
    pub fn new(alloc: Global) -> Logged {
        Logged {
            bytes: Vec::new(alloc),
            whole: Vec::new(alloc),
        }
    }

    /// Appends the operation with this line, which changed what the patches say: its records' length, and a
    /// record of each changed page, by rising index. One that changed no page has no bytes.
    pub fn add(&mut self, alloc: Global, line: u32, plain: &PlainPages) -> Result<(), AllocError> {
        let mut records = Vec::new(alloc);
        let mut from = 0u32;
        for _ in 0..OP_PAGES {
            let Some(index) = plain.next_changed(from) else {
                break;
            };
            self.add_page(alloc, &mut records, plain, index)?;
            from = index.saturating_add(1);
        }
        if records.is_empty() {
            return Ok(());
        }
        let len = u32::try_from(records.len()).unwrap_or(0);
        self.bytes.extend_from_slice(&line.to_le_bytes())?;
        self.bytes.extend_from_slice(&len.to_le_bytes())?;
        self.bytes.extend_from_slice(&records)
    }

    /// How many pages the log has had.
    pub fn count(&self) -> u32 {
        u32::try_from(self.whole.iter().filter(|whole| **whole).count()).unwrap_or(u32::MAX)
    }

    /// Whether the log has had this page.
    pub fn has(&self, index: u32) -> bool {
        self.whole.get(index as usize).copied().unwrap_or(false)
    }

    // Appends the record of a page, if it was changed: the page whole where the log hasn't had it yet.
    fn add_page(
        &mut self,
        alloc: Global,
        into: &mut Vec<u8>,
        plain: &PlainPages,
        index: u32,
    ) -> Result<(), AllocError> {
        let (Some(patch), Some(page)) = (plain.patch(index), plain.page(index)) else {
            return Ok(());
        };
        if !patch.is_whole() && patch.len() == 0 {
            return Ok(());
        }
        let id = PageId::new(0, index);
        if self.is_first(index)? || patch.is_whole() {
            add_record(into, SNAPSHOT, id, page)
        } else {
            add_delta(alloc, into, id, page, &patch)
        }
    }

    // Whether the log hasn't had the page whole. From now on it has.
    fn is_first(&mut self, index: u32) -> Result<bool, AllocError> {
        let at = index as usize;
        if self.whole.len() <= at {
            self.whole.resize(at.saturating_add(1), false)?;
        }
        let Some(whole) = self.whole.get_mut(at) else {
            return Ok(false);
        };
        let is_first = !*whole;
        *whole = true;
        Ok(is_first)
    }
}

// Appends a record of a page: its kind, its payload's length, and the payload, the page's name and these bytes.
fn add_record(into: &mut Vec<u8>, kind: u8, id: PageId, bytes: &[u8]) -> Result<(), AllocError> {
    let len = u32::try_from(bytes.len().saturating_add(8)).unwrap_or(0);
    into.push(kind)?;
    into.extend_from_slice(&len.to_le_bytes())?;
    into.extend_from_slice(&id.0.to_le_bytes())?;
    into.extend_from_slice(bytes)
}

// Appends the record of a page of which some ranges were changed.
fn add_delta(
    alloc: Global,
    into: &mut Vec<u8>,
    id: PageId,
    page: &[u8],
    patch: &Patch,
) -> Result<(), AllocError> {
    let mut ranges = Vec::new(alloc);
    ranges.push(patch.len())?;
    for i in 0..patch.len() {
        let (at, len) = patch.range(i);
        add_range(&mut ranges, page, at, len)?;
    }
    add_record(into, DELTA, id, &ranges)
}

// Appends a range: where it begins, its length, and its bytes.
fn add_range(into: &mut Vec<u8>, page: &[u8], at: u16, len: u16) -> Result<(), AllocError> {
    into.extend_from_slice(&at.to_le_bytes())?;
    into.extend_from_slice(&len.to_le_bytes())?;
    let from = at as usize;
    if let Some(bytes) = page.get(from..from.saturating_add(len as usize)) {
        into.extend_from_slice(bytes)?;
    }
    Ok(())
}
