//! What a file holds, as bytes or as none where it is absent.

ghost use Rattle.std.specs.Prelude.{◌≡◌, ◌≤◌, ◌+◌, ◌-◌, ◌++◌, length, map, take, drop, replicate, min};
ghost use Rattle.std.specs.Prelude.{vec_len, IfOk, OnOk, OnErr, option_map};
ghost use Rattle.pm_disk.specs.Files.{bytes_of, changed, Write, Cut, ReadsFrom, ReadsWhole};
ghost use Rattle.pm_disk_mem.specs.Changes.{bytes_in, change_of};

use crate::change::FileChange;
use std::alloc::{AllocError, Global};

/// What is there to read.
pub fn readable(held: &Option<Vec<u8>>) -> &[u8]
    ensures { result.now ≡ bytes_of (bytes_in held.now) }
{
    match held {
        Some(bytes) => bytes.as_slice(),
        None => &[],
    }
}

/// The bytes from this offset on, none where they end before.
pub fn from_offset(bytes: &[u8], at: u64) -> &[u8]
    ensures { result.now ≡ drop at bytes.now }
{
    let start = at.min(bytes.len() as u64) as usize;
    &bytes[start..]
}

/// The length in bytes, none where the file is absent.
pub fn length_of(held: &Option<Vec<u8>>) -> Option<u64>
    ensures { result ≡ option_map length (bytes_in held.now) }
{
    match held {
        Some(bytes) => Some(bytes.len() as u64),
        None => None,
    }
}

/// Copies the first bytes, as many as fit, and answers how many.
pub fn copy_front(from: &[u8], into: &mut [u8]) -> usize
    ensures bound { result ≤ length into.new }
    ensures many { result ≡ min (length into.new) (length from.now) }
    ensures front { take result into.new ≡ take result from.now }
{
    let count = into.len().min(from.len());
    into[..count].copy_from_slice(&from[..count]);
    count
}

/// Reads from the offset on, as many bytes as fit, and answers how many.
pub fn read(held: &Option<Vec<u8>>, at: u64, into: &mut [u8]) -> usize
    ensures bound { result ≤ length into.new }
    ensures reads { ReadsFrom (bytes_in held.now) at result into.new }
{
    copy_front(from_offset(readable(held), at), into)
}

/// Reads a whole range from the offset on, and answers true, or, where the file ends before it, fills
/// the buffer with zeros and answers false.
pub fn read_whole(held: &Option<Vec<u8>>, at: u64, into: &mut [u8]) -> bool
    ensures { ReadsWhole (bytes_in held.now) at result into.new }
{
    let from = from_offset(readable(held), at);
    let is_whole = at <= readable(held).len() as u64 && into.len() <= from.len();
    if is_whole {
        into.copy_from_slice(&from[..into.len()]);
    } else {
        into.fill(0);
    }
    is_whole
}

/// The write of these bytes at an offset, with zeros from the file's end on where it ends before that.
pub fn write_with_gap(
    alloc: Global,
    len: u64,
    at: u64,
    bytes: &[u8],
) -> Result<FileChange, AllocError>
    ensures { IfOk result (λ change. change_of change
        ≡ Write (min at len) (replicate (at - len) 0 ++ bytes.now)) }
{
    let mut written = vec![in alloc; 0; at.saturating_sub(len) as usize]?;
    written.extend_from_slice(bytes)?;
    Ok(FileChange::Write(at.min(len), written))
}

/// A copy.
pub fn copied(alloc: Global, held: &Option<Vec<u8>>) -> Result<Option<Vec<u8>>, AllocError>
    ensures { IfOk result (λ copy. bytes_in copy ≡ bytes_in held.now) }
{
    match held {
        Some(bytes) => Ok(Some(Vec::from_slice(alloc, bytes)?)),
        None => Ok(None),
    }
}

/// A copy of the changes.
pub fn copied_changes(alloc: Global, changes: &[FileChange]) -> Result<Vec<FileChange>, AllocError>
    ensures { IfOk result (λ copy. map change_of copy.items ≡ map change_of changes.now) }
{
    let mut copy = Vec::new(alloc);
    for change in changes {
        copy.push(change.copy(alloc)?)?;
    }
    Ok(copy)
}

// The bytes go over what stands from the offset on, and past the end.
fn overwrite(held: &mut Vec<u8>, at: usize, bytes: &[u8]) -> Result<(), AllocError>
    ensures written { OnOk result (held.new.items
        ≡ take at held.old.items ++ bytes.now ++ drop (at + length bytes.now) held.old.items) }
    ensures unchanged { OnErr result (held.new.items ≡ held.old.items) }
{
    let start = at.min(held.len());
    let over = bytes.len().min(held.len() - start);
    held.extend_from_slice(&bytes[over..])?;
    held[start..start + over].copy_from_slice(&bytes[..over]);
    Ok(())
}

/// Writes, and makes the file where it is absent. Out of memory leaves it as it was.
pub fn write(
    alloc: Global,
    held: &mut Option<Vec<u8>>,
    at: u64,
    bytes: &[u8],
) -> Result<(), AllocError>
    ensures written { OnOk result
        (bytes_in held.new ≡ changed (Write at bytes.now) (bytes_in held.old)) }
    ensures unchanged { OnErr result (bytes_in held.new ≡ bytes_in held.old) }
{
    match held {
        Some(there) => overwrite(there, at as usize, bytes),
        None => {
            *held = Some(Vec::from_slice(alloc, bytes)?);
            Ok(())
        }
    }
}

// Cuts, and makes the file where it is absent.
fn cut(alloc: Global, held: &mut Option<Vec<u8>>, len: usize)
    ensures { bytes_in held.new ≡ changed (Cut len) (bytes_in held.old) }
{
    match held {
        Some(there) => there.truncate(len),
        None => *held = Some(Vec::new(alloc)),
    }
}

/// Makes the change of what a file holds. Out of memory leaves it as it was.
pub fn apply_change(
    alloc: Global,
    held: &mut Option<Vec<u8>>,
    change: &FileChange,
) -> Result<(), AllocError>
    ensures changed { OnOk result
        (bytes_in held.new ≡ changed (change_of change.now) (bytes_in held.old)) }
    ensures unchanged { OnErr result (bytes_in held.new ≡ bytes_in held.old) }
{
    match change {
        FileChange::Write(at, bytes) => write(alloc, held, *at, bytes),
        FileChange::Cut(len) => {
            cut(alloc, held, *len as usize);
            Ok(())
        }
        FileChange::Remove => {
            *held = None;
            Ok(())
        }
    }
}
