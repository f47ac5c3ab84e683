//! The ranges of a page that a delta carries.

ghost use Rattle.std.specs.Prelude.{◌≡◌, ◌+◌, ◌≤◌, ◌↔◌, IsTrue, length};
ghost use Rattle.pm_types.specs.DeltaRanges.{len_of, end_of, after_front, BeginsWithRange, AreRanges, IsDelta};

use crate::fields::get_u16;
use crate::limits::PATCH_SPANS_MAX;

/// What a range has before its bytes, in bytes: its start and its length. On the disk: do not change.
pub const RANGE_HEAD_LEN: usize = 4;

/// Whether these bytes are a delta, none of whose ranges ends past `end`, in bytes from the page's start.
pub fn is_delta(delta: &[u8], end: usize) -> bool
    ensures { IsTrue result ↔ IsDelta end delta.now }
{
    if delta.is_empty() {
        return false;
    }
    let number = delta[0];
    1 <= number && number as usize <= PATCH_SPANS_MAX && are_ranges(number, &delta[1..], end)
}

// Whether these bytes are so many ranges and nothing else, none of which ends past `end`.
fn are_ranges(number: u8, ranges: &[u8], end: usize) -> bool
    ensures { IsTrue result ↔ AreRanges number 0 end ranges.now }
{
    let mut left = number;
    let mut low = 0;
    let mut rest = ranges;
    'each: while left > 0 {
        if !begins_with_range(rest, low, end) {
            return false;
        }
        left -= 1;
        low = end_of(rest);
        rest = after_front(rest);
    }
    rest.is_empty()
}

// Whether a range is at the front, from `low` on and up to `end`.
fn begins_with_range(ranges: &[u8], low: usize, end: usize) -> bool
    ensures { IsTrue result ↔ BeginsWithRange low end ranges.now }
{
    if ranges.len() < RANGE_HEAD_LEN {
        return false;
    }
    let start = get_u16(ranges, 0) as usize;
    let len = get_u16(ranges, 2) as usize;
    low <= start && 1 <= len && start + len <= end && RANGE_HEAD_LEN + len <= ranges.len()
}

// Where the range at the front ends.
fn end_of(ranges: &[u8]) -> usize
    requires { RANGE_HEAD_LEN ≤ length ranges.now }
    ensures { result ≡ end_of ranges.now }
{
    get_u16(ranges, 0) as usize + get_u16(ranges, 2) as usize
}

/// What follows the range at the front.
pub fn after_front(ranges: &[u8]) -> &[u8]
    requires head { RANGE_HEAD_LEN ≤ length ranges.now }
    requires whole { RANGE_HEAD_LEN + len_of ranges.now ≤ length ranges.now }
    ensures { result.now ≡ after_front ranges.now }
{
    &ranges[RANGE_HEAD_LEN + get_u16(ranges, 2) as usize..]
}
