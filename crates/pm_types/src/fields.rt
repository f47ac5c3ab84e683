//! Numbers and bytes in a page: reads, and writes that the page's patch notes.

ghost use Rattle.std.specs.Prelude.{◌≡◌, ℕ, ◌+◌, ◌^◌, ◌<◌, ◌≤◌, ◌↔◌, IsTrue, length, replicate};
ghost use Rattle.pm_types.specs.Spans.{IsInSpan, span_of};
ghost use Rattle.pm_types.specs.Pages.{SameOutside};
ghost use Rattle.pm_types.specs.Fields.{bytes_at, u16_at, u32_at, u64_at, AreZero, Writes};

use crate::patch::Patch;

/// The number in the two bytes from an offset on.
pub fn get_u16(page: &[u8], at: u16) -> u16
    requires { at + 2 ≤ length page.now }
    ensures { result ≡ u16_at page.now at }
{
    let mut bytes = [0; 2];
    bytes.copy_from_slice(&page[at as usize..at as usize + 2]);
    u16::from_le_bytes(bytes)
}

/// The number in the four bytes from an offset on.
pub fn get_u32(page: &[u8], at: u16) -> u32
    requires { at + 4 ≤ length page.now }
    ensures { result ≡ u32_at page.now at }
{
    let mut bytes = [0; 4];
    bytes.copy_from_slice(&page[at as usize..at as usize + 4]);
    u32::from_le_bytes(bytes)
}

/// The number in the eight bytes from an offset on.
pub fn get_u64(page: &[u8], at: u16) -> u64
    requires { at + 8 ≤ length page.now }
    ensures { result ≡ u64_at page.now at }
{
    let mut bytes = [0; 8];
    bytes.copy_from_slice(&page[at as usize..at as usize + 8]);
    u64::from_le_bytes(bytes)
}

/// Writes bytes over those from an offset on. No patch notes it.
pub fn put_bytes(page: &mut [u8], at: u16, bytes: &[u8])
    requires { at + length bytes.now ≤ length page.old }
    ensures bytes { bytes_at page.new at (length bytes.now) ≡ bytes.now }
    ensures outside { SameOutside (IsInSpan (span_of at (length bytes.now))) page.old page.new }
{
    let from = at as usize;
    page[from..from + bytes.len()].copy_from_slice(bytes);
}

/// Writes a number over the two bytes from an offset on. No patch notes it.
pub fn put_u16(page: &mut [u8], at: u16, value: u16)
    requires { at + 2 ≤ length page.old }
    ensures value { u16_at page.new at ≡ value }
    ensures outside { SameOutside (IsInSpan (span_of at 2)) page.old page.new }
{
    put_bytes(page, at, &value.to_le_bytes());
}

/// Writes a number over the eight bytes from an offset on. No patch notes it.
pub fn put_u64(page: &mut [u8], at: u16, value: u64)
    requires { at + 8 ≤ length page.old }
    ensures value { u64_at page.new at ≡ value }
    ensures outside { SameOutside (IsInSpan (span_of at 8)) page.old page.new }
{
    put_bytes(page, at, &value.to_le_bytes());
}

/// Writes bytes over those from an offset on, which the patch notes.
pub fn set_bytes(page: &mut [u8], at: u16, bytes: &[u8], patch: &mut Patch)
    requires within { at + length bytes.now ≤ length page.old }
    requires short { length bytes.now < 2 ^ 16 }
    requires size { patch.old.page_size ≡ length page.old }
    ensures bytes { bytes_at page.new at (length bytes.now) ≡ bytes.now }
    ensures writes { Writes (span_of at (length bytes.now)) page.old page.new patch.old patch.new }
{
    put_bytes(page, at, bytes);
    patch.add(at, bytes.len() as u16);
}

/// Writes a number over the two bytes from an offset on, which the patch notes.
pub fn set_u16(page: &mut [u8], at: u16, value: u16, patch: &mut Patch)
    requires within { at + 2 ≤ length page.old }
    requires size { patch.old.page_size ≡ length page.old }
    ensures value { u16_at page.new at ≡ value }
    ensures writes { Writes (span_of at 2) page.old page.new patch.old patch.new }
{
    put_u16(page, at, value);
    patch.add(at, 2);
}

/// Writes a number over the four bytes from an offset on, which the patch notes.
pub fn set_u32(page: &mut [u8], at: u16, value: u32, patch: &mut Patch)
    requires within { at + 4 ≤ length page.old }
    requires size { patch.old.page_size ≡ length page.old }
    ensures value { u32_at page.new at ≡ value }
    ensures writes { Writes (span_of at 4) page.old page.new patch.old patch.new }
{
    set_bytes(page, at, &value.to_le_bytes(), patch);
}

/// Copies `len` bytes to where they stand `up` bytes further on, which the patch notes.
pub fn move_up(page: &mut [u8], at: u16, len: u16, up: u16, patch: &mut Patch)
    requires within { at + up + len ≤ length page.old }
    requires fits { at + up < 2 ^ 16 }
    requires size { patch.old.page_size ≡ length page.old }
    ensures moved { bytes_at page.new (at + up) len ≡ bytes_at page.old at len }
    ensures writes { Writes (span_of (at + up) len) page.old page.new patch.old patch.new }
{
    let from = at as usize;
    page.copy_within(from..from + len as usize, from + up as usize);
    patch.add(at + up, len);
}

/// Writes a number over the four bytes from an offset on. No patch notes it.
pub fn put_u32(page: &mut [u8], at: u16, value: u32)
    requires { at + 4 ≤ length page.old }
    ensures value { u32_at page.new at ≡ value }
    ensures outside { SameOutside (IsInSpan (span_of at 4)) page.old page.new }
{
    put_bytes(page, at, &value.to_le_bytes());
}

/// Writes a number over the eight bytes from an offset on, which the patch notes.
pub fn set_u64(page: &mut [u8], at: u16, value: u64, patch: &mut Patch)
    requires within { at + 8 ≤ length page.old }
    requires size { patch.old.page_size ≡ length page.old }
    ensures value { u64_at page.new at ≡ value }
    ensures writes { Writes (span_of at 8) page.old page.new patch.old patch.new }
{
    put_u64(page, at, value);
    patch.add(at, 8);
}

/// Writes zeros over so many bytes from an offset on. No patch notes it.
pub fn put_zeros(page: &mut [u8], at: u16, len: u16)
    requires { at + len ≤ length page.old }
    ensures bytes { bytes_at page.new at len ≡ replicate len 0 }
    ensures outside { SameOutside (IsInSpan (span_of at len)) page.old page.new }
{
    let from = at as usize;
    page[from..from + len as usize].fill(0);
}

/// Writes zeros over so many bytes from an offset on, which the patch notes.
pub fn set_zeros(page: &mut [u8], at: u16, len: u16, patch: &mut Patch)
    requires within { at + len ≤ length page.old }
    requires size { patch.old.page_size ≡ length page.old }
    ensures bytes { bytes_at page.new at len ≡ replicate len 0 }
    ensures writes { Writes (span_of at len) page.old page.new patch.old patch.new }
{
    put_zeros(page, at, len);
    patch.add(at, len);
}

/// Whether the bytes from one offset up to another are zero.
pub fn are_zero(page: &[u8], from: u16, end: u16) -> bool
    requires { end ≤ length page.now }
    ensures { IsTrue result ↔ AreZero page.now from end }
{
    // No early end, so that the compiler looks at many bytes at once.
    let mut zero = true;
    'each: for at in from..end {
        zero &= page[at as usize] == 0;
    }
    zero
}
