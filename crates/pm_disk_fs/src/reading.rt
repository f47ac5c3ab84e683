//! Reads: of a file from an offset on, and of the input.

ghost use Rattle.std.specs.Prelude.{◌≡◌, ◌<◌, ◌≤◌, ◌+◌, ◌^◌, ◌⊎◌, true, false, length, take, replicate, IfOk};
ghost use Rattle.std.specs.Io.KnownBytes.{ReadConsumes};
ghost use Rattle.pm_disk_fs.specs.Reads.{IsRead};

use crate::calls::ReadCalls;
use std::io::{self, ErrorKind, Read};

/// How often a read that a signal interrupts is tried before it fails. The bound is there so that each call
/// ends: signals seldom interrupt a read more than once.
const TRIES: u32 = 1000;

/// Reads a file from the offset on until the buffer is full or the file ends, and answers how many bytes
/// there were. No file has bytes from the offset 2^64 on.
pub fn fill<F: ReadCalls>(file: &F, at: u64, into: &mut [u8]) -> io::Result<usize>
    ensures bound { IfOk result (λ n. n ≤ length into.new) }
    ensures reads { IfOk result (λ n. IsRead F.gave file.now at (length into.new) (take n into.new)) }
{
    let mut count = 0;
    while count < into.len() {
        let more = read_next(file, at, count, &mut into[count..])?;
        if more == 0 {
            break;
        }
        count += more;
    }
    Ok(count)
}

// Reads what follows so many bytes after the offset, nothing where no offset is so large.
fn read_next<F: ReadCalls>(file: &F, at: u64, count: usize, into: &mut [u8]) -> io::Result<usize>
    requires some { 0 < length into.old }
    ensures bound { IfOk result (λ n. n ≤ length into.new) }
    ensures gives { IfOk result (λ n. F.gave file.now (at + count) (take n into.new)
        ⊎ ((n ≡ 0) × (2 ^ 64 ≤ at + count))) }
{
    match at.checked_add(count as u64) {
        Some(next) => read_once(file, next, into),
        None => Ok(0),
    }
}

// Reads once from the offset on, and again where a signal interrupts that. A file whose reads are
// interrupted each time fails.
fn read_once<F: ReadCalls>(file: &F, at: u64, into: &mut [u8]) -> io::Result<usize>
    requires some { 0 < length into.old }
    ensures bound { IfOk result (λ n. n ≤ length into.new) }
    ensures gives { IfOk result (λ n. F.gave file.now at (take n into.new)) }
{
    for _ in 0..TRIES {
        match file.read_from(into, at) {
            Err(e) if e.kind() == ErrorKind::Interrupted => {}
            answer => return answer,
        }
    }
    Err(io::Error::from(ErrorKind::Interrupted))
}

/// Whether so many bytes are all that the buffer has room for. Where they aren't, it is filled with zeros.
pub fn whole_or_zeros(count: usize, into: &mut [u8]) -> bool
    requires bound { count ≤ length into.old }
    ensures whole { result ≡ true → into.new ≡ take count into.old }
    ensures zeros { result ≡ false → into.new ≡ replicate (length into.new) 0 }
    ensures fewer { result ≡ false → length (take count into.old) < length into.new }
{
    let is_whole = count == into.len();
    if !is_whole {
        into.fill(0);
    }
    is_whole
}

/// Reads once, and again where a signal interrupts that. A reader that is interrupted each time fails.
pub fn read_some<F: Read>(from: &mut F, into: &mut [u8]) -> io::Result<usize>
    ensures bound { IfOk result (λ n. n ≤ length into.new) }
    ensures bytes { ReadConsumes (F.remaining from.old) (F.remaining from.new) result into.new }
{
    for _ in 0..TRIES {
        match from.read(into) {
            Err(e) if e.kind() == ErrorKind::Interrupted => {}
            answer => return answer,
        }
    }
    Err(io::Error::from(ErrorKind::Interrupted))
}
