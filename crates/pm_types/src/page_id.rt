//! Names of pages and of rows in them, each packed into 64 bits.

ghost use Rattle.std.specs.Prelude.{◌≡◌, ℕ};
ghost use Rattle.pm_types.specs.Ids.{page_id, link, part_of_id, index_of_id, page_of_link, item_of_link};

use std::fmt;

// What one partition, the flag and one item add to a packed name.
const PARTITION: u64 = 0x1_0000_0000;

const FLAG: u64 = 0x1_0000_0000_0000;

const ITEM: u64 = 0x100_0000_0000_0000;

/// A page's name: bits 0 to 31 its index in its partition, 32 to 47 the partition, 48 to 55 the flag,
/// which is always 1, and 56 to 63 zero. On the disk: do not change.
#[derive(Clone, Copy, Debug, PartialEq, Eq, PartialOrd, Ord, Hash)]
pub struct PageId(pub u64);

/// A row's name: its page's, with the number of its item in bits 56 to 63. On the disk: do not change.
#[derive(Clone, Copy, Debug, PartialEq, Eq, PartialOrd, Ord, Hash)]
pub struct Link(pub u64);

impl PageId {
    /// The name of a partition's page with this index.
    pub fn new(part: u16, index: u32) -> PageId
        ensures { result ≡ page_id part index }
    {
        PageId(FLAG + (part as u64) * PARTITION + index as u64)
    }

    /// The number of the page's partition.
    pub fn part(&self) -> u16
        ensures { result ≡ part_of_id self.now }
    {
        (self.0 / PARTITION % 0x1_0000) as u16
    }

    /// The page's index in its partition.
    pub fn index(&self) -> u32
        ensures { result ≡ index_of_id self.now }
    {
        (self.0 % PARTITION) as u32
    }
}

impl Link {
    /// The name of the row that is item `item` of the page.
    pub fn new(page: PageId, item: u8) -> Link
        ensures { result ≡ link page item }
    {
        Link((item as u64) * ITEM + page.0 % ITEM)
    }

    /// The row's page.
    pub fn page(&self) -> PageId
        ensures { result ≡ page_of_link self.now }
    {
        PageId(self.0 % ITEM)
    }

    /// The number of the row's item in its page.
    pub fn item(&self) -> u8
        ensures { result ≡ item_of_link self.now }
    {
        (self.0 / ITEM) as u8
    }
}

/// A page's name gives back its partition and index, and a row's name its page and item.
pub fn packing_agrees(part: u16, index: u32, item: u8)
    ensures part { part_of_id (page_id part index) ≡ part }
    ensures index { index_of_id (page_id part index) ≡ index }
    ensures page { page_of_link (link (page_id part index) item) ≡ page_id part index }
    ensures item { item_of_link (link (page_id part index) item) ≡ item }
{}

impl fmt::Display for PageId {
    fn fmt<W: fmt::Write>(&self, f: &mut fmt::Formatter<W>) -> fmt::Result {
        let id = self.0;
        write!(f, "{id:016x}")
    }
}
