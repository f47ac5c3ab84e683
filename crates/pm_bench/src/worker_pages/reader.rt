//! A reader of pages in memory that can fail.

ghost use Rattle.std.specs.Prelude.{◌≡◌};

use pm_disk::{Device, Failed, PageReader};
use pm_types::{Page, PageId};

/// Reads a partition's pages from a list, and counts its reads. One of them fails: the one with this number,
/// counted from 0.
#[derive(Drop)]
pub struct ListReader {
    pages: Vec<Page>,
    reads: u32,
    failing: u32,
    faults: u64,
}

impl ListReader {
    /// Reads these pages.
    pub fn new(pages: Vec<Page>, failing: u32) -> ListReader {
        ListReader {
            pages,
            reads: 0,
            failing,
            faults: 0,
        }
    }

    /// How many reads there were.
    pub fn reads(&self) -> u32 {
        self.reads
    }

    // Whether this read fails.
    fn is_failing(&mut self) -> bool
        ensures { self.new.faults ≡ self.old.faults }
    {
        let number = self.reads;
        self.reads = number.saturating_add(1);
        number == self.failing
    }
}

impl Device for ListReader {
    ghost use Rattle.std.specs.Prelude.{[], Some, false, true};
    ghost use Rattle.pm_disk.specs.Moments.{nothing_told};

    ghost tells = { ⊥ };

    ghost history = { λ _. nothing_told };

    ghost state = { λ reader. record {
      faults = reader.faults;
      access = record { folder = Some []; is_lent = false; reads = λ _. true; writes = λ _. true; made = 0 };
    } };

    ghost sound = { λ _ tells. absurd tells };
}

impl PageReader for ListReader {
    fn read_page(&mut self, page: PageId, into: &mut [u8]) -> Result<bool, Failed> {
        if self.is_failing() {
            self.faults = self.faults.saturating_add(1);
            return Err(Failed);
        }
        Ok(copy_page(&self.pages, page.index(), into))
    }
}

// Copies a page, or fills with zeros where there is none, and says which.
fn copy_page(pages: &[Page], index: u32, into: &mut [u8]) -> bool {
    if let Some(page) = pages.get(index as usize) {
        if page.bytes.len() == into.len() {
            into.copy_from_slice(&page.bytes);
            return true;
        }
    }
    into.fill(0);
    false
}
