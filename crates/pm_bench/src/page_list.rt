//! A reader of pages in memory.

use pm_disk::{Device, Failed, PageReader};
use pm_pages::PlainPages;
use pm_types::{Page, PageId};
use std::alloc::{AllocError, Global};

/// Reads a partition's pages from a list, and counts its reads.
#[derive(Drop)]
pub struct PageList {
    pages: Vec<Page>,
    reads: u64,
}

impl PageList {
    /// Reads these pages.
    pub fn new(pages: Vec<Page>) -> PageList {
        PageList { pages, reads: 0 }
    }

    /// How many reads there were.
    pub fn reads(&self) -> u64 {
        self.reads
    }
}

impl Device for PageList {
    ghost use Rattle.std.specs.Prelude.{[], Some, false, true};
    ghost use Rattle.pm_disk.specs.Moments.{nothing_told};

    ghost tells = { ⊥ };

    ghost history = { λ _. nothing_told };

    ghost state = { λ _. record {
      faults = 0;
      access = record { folder = Some []; is_lent = false; reads = λ _. true; writes = λ _. true; made = 0 };
    } };

    ghost sound = { λ _ tells. absurd tells };
}

impl PageReader for PageList {
    fn read_page(&mut self, page: PageId, into: &mut [u8]) -> Result<bool, Failed> {
        self.reads = self.reads.saturating_add(1);
        Ok(copy_page(&self.pages, page.index(), into))
    }
}

// Copies a page, or fills with zeros where there is none, and says which.
fn copy_page(pages: &[Page], index: u32, into: &mut [u8]) -> bool {
    if let Some(page) = pages.get(index as usize) {
        if page.bytes.len() == into.len() {
            into.copy_from_slice(&page.bytes);
            return true;
        }
    }
    into.fill(0);
    false
}

/// The pages of a partition, each copied.
pub fn copied(alloc: Global, pages: &PlainPages) -> Result<Vec<Page>, AllocError> {
    let mut all = Vec::new(alloc);
    for index in 0..u32::try_from(pages.len()).unwrap_or(0) {
        if let Some(bytes) = pages.page(index) {
            let bytes = Vec::from_slice(alloc, bytes)?;
            all.push(Page { bytes })?;
        }
    }
    Ok(all)
}
