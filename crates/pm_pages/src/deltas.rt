//! Deltas of pages: made of a patch, and applied.

ghost use Rattle.std.specs.Prelude.{◌≡◌, ℕ, ◌+◌, ◌<◌, ◌≤◌, ◌↔◌, ◌++◌, false, List, IsTrue, length, take};
ghost use Rattle.std.specs.Bool.{OnTrue, OnFalse};
ghost use Rattle.pm_types.specs.declared.limits.TheConstants.{PAGE_SIZE_MAX};
ghost use Rattle.pm_types.specs.PageSizes.{IsPageSize};
ghost use Rattle.pm_types.specs.Spans.{span_of};
ghost use Rattle.pm_types.specs.DeltaRanges.{IsDelta, applied};
ghost use Rattle.pm_pages.specs.Deltas.{range_bytes, delta_of, delta_len, GivesPage};

use crate::ranges::overwrite;
use pm_types::Patch;
use pm_types::ranges::{RANGE_HEAD_LEN, is_delta};

/// Applies a delta's ranges to a page: each range's bytes take the place of the page's own.
///
/// `false` comes exactly where these bytes aren't in the grammar of deltas, or a range ends past
/// the page. The page is then as it was.
pub fn apply(ranges: &[u8], page: &mut [u8]) -> bool
    requires { IsPageSize (length page.old) }
    ensures delta { IsTrue result ↔ IsDelta (length page.old) ranges.now }
    ensures applied { OnTrue result (page.new ≡ applied ranges.now page.old) }
    ensures unchanged { OnFalse result (page.new ≡ page.old) }
{
    if !is_delta(ranges, page.len()) {
        return false;
    }
    overwrite(ranges[0], &ranges[1..], page);
    true
}

/// How many bytes a delta with the ranges of this patch has.
pub fn ranges_len(patch: &Patch) -> usize
    requires { patch.now.whole ≡ false }
    ensures { result ≡ delta_len patch.now.spans }
{
    let mut len = 1;
    'each: for i in 0..patch.len() {
        len += RANGE_HEAD_LEN + patch.range(i).1 as usize;
    }
    len
}

/// Writes the delta of a page that has this patch.
///
/// Whatever the page was before, if it differed only where the patch covers it, applying the delta
/// to what it was gives the page. The delta is one that a record may carry, whatever the page's
/// size.
pub fn write_ranges(page: &[u8], patch: &Patch, into: &mut [u8])
    requires part { patch.now.whole ≡ false }
    requires some { 1 ≤ length patch.now.spans }
    requires size { patch.now.page_size ≡ length page.now }
    requires room { length into.old ≡ delta_len patch.now.spans }
    ensures written { into.new ≡ delta_of page.now patch.now.spans }
    ensures delta { IsDelta (length page.now) into.new }
    ensures grammar { IsDelta PAGE_SIZE_MAX into.new }
    ensures gives { GivesPage into.new patch.now page.now }
{
    into[0] = patch.len();
    let mut end = 1;
    'each: for i in 0..patch.len() {
        let (start, len) = patch.range(i);
        end = put_range(into, end, page, start, len);
    }
}

// Writes a range of a page from an offset on, and gives where it ends.
fn put_range(into: &mut [u8], at: usize, page: &[u8], start: u16, len: u16) -> usize
    requires range { start + len ≤ length page.now }
    requires room { at + RANGE_HEAD_LEN + len ≤ length into.old }
    ensures end { result ≡ at + RANGE_HEAD_LEN + len }
    ensures written { take result into.new
        ≡ take at into.old ++ range_bytes page.now (span_of start len) }
    ensures size { length into.new ≡ length into.old }
{
    let from = start as usize;
    let at = put_next(into, at, &start.to_le_bytes());
    let at = put_next(into, at, &len.to_le_bytes());
    put_next(into, at, &page[from..from + len as usize])
}

// Writes bytes from an offset on, and gives where they end.
fn put_next(into: &mut [u8], at: usize, bytes: &[u8]) -> usize
    requires { at + length bytes.now ≤ length into.old }
    ensures end { result ≡ at + length bytes.now }
    ensures written { take result into.new ≡ take at into.old ++ bytes.now }
    ensures size { length into.new ≡ length into.old }
{
    let end = at + bytes.len();
    into[at..end].copy_from_slice(bytes);
    end
}
