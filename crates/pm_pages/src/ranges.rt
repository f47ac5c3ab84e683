//! A page with the ranges of a delta.

ghost use Rattle.std.specs.Prelude.{◌≡◌, length};
ghost use Rattle.pm_types.specs.DeltaRanges.{BeginsWithRange, AreRanges, with_front, with_ranges};

use pm_types::fields::get_u16;
use pm_types::ranges::{RANGE_HEAD_LEN, after_front};

/// Writes the bytes of so many ranges over a page's own.
pub fn overwrite(number: u8, ranges: &[u8], page: &mut [u8])
    requires { AreRanges number 0 (length page.old) ranges.now }
    ensures { page.new ≡ with_ranges number ranges.now page.old }
{
    let mut left = number;
    let mut rest = ranges;
    'front: while left > 0 {
        left -= 1;
        overwrite_front(rest, page);
        rest = after_front(rest);
    }
}

// Writes the bytes of the range at the front over a page's own.
fn overwrite_front(ranges: &[u8], page: &mut [u8])
    requires { BeginsWithRange 0 (length page.old) ranges.now }
    ensures { page.new ≡ with_front ranges.now page.old }
{
    let start = get_u16(ranges, 0) as usize;
    let len = get_u16(ranges, 2) as usize;
    page[start..start + len].copy_from_slice(&ranges[RANGE_HEAD_LEN..RANGE_HEAD_LEN + len]);
}
