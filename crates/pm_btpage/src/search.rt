//! The search for a key on an index page.

ghost use Rattle.std.specs.Prelude.{◌≡◌};
ghost use Rattle.pm_btpage.specs.IndexPages.{items_of, IsIndexPage};
ghost use Rattle.pm_btpage.specs.Finds.{FindsIn};

use crate::head::count;
use crate::items::key_at;
use std::cmp::Ordering;

/// Where a key stands among the items of a page, or before which it would.
#[derive(Clone, Copy, Debug, PartialEq, Eq)]
pub enum Found {
    /// The item with this number has the key.
    At(u16),
    /// No item has the key. It belongs before the item with this number, or after the last.
    Before(u16),
}

/// Where the key stands.
pub fn find(page: &[u8], key: &[u8]) -> Found
    requires { IsIndexPage page.now }
    ensures { FindsIn (items_of page.now) key.now result }
{
    let mut low = 0;
    let mut high = count(page);
    'halves: while low < high {
        let middle = low + (high - low) / 2;
        match key_at(page, middle).cmp(&key) {
            Ordering::Less => low = middle + 1,
            Ordering::Greater => high = middle,
            Ordering::Equal => return Found::At(middle),
        }
    }
    Found::Before(low)
}
