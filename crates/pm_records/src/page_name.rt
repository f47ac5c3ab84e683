//! Names of pages, as records say them.

ghost use Rattle.std.specs.Prelude.{◌↔◌, IsTrue};
ghost use Rattle.pm_records.specs.PageNames.{IsPageName};

use pm_types::{PARTITIONS_MAX, PageId};

// What the flag adds to a page's name.
const FLAG: u64 = 0x1_0000_0000_0000;

/// Whether a page of a store may have this name: the flag is set, no item is named, and there may
/// be such a partition.
pub(crate) fn is_page_name(page: PageId) -> bool
    ensures { IsTrue result ↔ IsPageName page }
{
    page.0 / FLAG == 1 && page.part() < PARTITIONS_MAX
}
