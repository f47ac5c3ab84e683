//! What a crash makes of one file's changes.

ghost use Rattle.std.specs.Prelude.{◌≡◌, ◌-◌, map, IfOk, OnOk};
ghost use Rattle.pm_disk.specs.Files.{Cut, after};
ghost use Rattle.pm_disk_mem.specs.Changes.{bytes_in, change_of};
ghost use Rattle.pm_disk_mem.specs.Picks.{filled_by, filled, written_by, written, laid_by, laid};
ghost use Rattle.pm_disk_mem.specs.Picks.{left_by, pick_after, file_of};

use crate::bytes::{apply_change, copied, write};
use crate::change::FileChange;
use crate::pick::Pick;
use std::alloc::{AllocError, Global};

/// What a crash leaves by this pick of a file with such a start, of whose changes the first ones are
/// lasting, and in the place of the pick the one for the next file.
pub fn left_of(
    alloc: Global,
    start: &Option<Vec<u8>>,
    lasting: &[FileChange],
    pending: &[FileChange],
    pick: &mut Pick,
) -> Result<Option<Vec<u8>>, AllocError>
    ensures left { IfOk result (λ left. bytes_in left
        ≡ left_by pick.old (file_of (bytes_in start.now) lasting.now pending.now)) }
    ensures next { OnOk result
        (pick.new ≡ pick_after pick.old (file_of (bytes_in start.now) lasting.now pending.now)) }
{
    let mut left = copied(alloc, start)?;
    redo(alloc, &mut left, lasting)?;
    match *pick {
        Pick::Kept => redo(alloc, &mut left, pending)?,
        Pick::Lost => {}
        Pick::Fill(byte) => fill(alloc, &mut left, pending, byte)?,
        Pick::Cut(count) => *pick = Pick::Cut(lay(alloc, &mut left, pending, count)?),
    }
    Ok(left)
}

// Makes the changes.
fn redo(alloc: Global, held: &mut Option<Vec<u8>>, changes: &[FileChange]) -> Result<(), AllocError>
    ensures { OnOk result
        (bytes_in held.new ≡ after (map change_of changes.now) (bytes_in held.old)) }
{
    for change in changes {
        apply_change(alloc, held, change)?;
    }
    Ok(())
}

// Makes each byte that the changes wrote or cut off this one, and the file no shorter.
fn fill(
    alloc: Global,
    held: &mut Option<Vec<u8>>,
    changes: &[FileChange],
    byte: u8,
) -> Result<(), AllocError>
    ensures { OnOk result
        (bytes_in held.new ≡ filled byte (map change_of changes.now) (bytes_in held.old)) }
{
    for change in changes {
        fill_change(alloc, held, change, byte)?;
    }
    Ok(())
}

// Writes a prefix of this length of the bytes that the changes write, and answers how many are left to
// write.
fn lay(
    alloc: Global,
    held: &mut Option<Vec<u8>>,
    changes: &[FileChange],
    count: u64,
) -> Result<u64, AllocError>
    ensures laid { OnOk result
        (bytes_in held.new ≡ laid count (map change_of changes.now) (bytes_in held.old)) }
    ensures rest { IfOk result (λ rest. rest ≡ count - written (map change_of changes.now)) }
{
    let mut rest = count;
    for change in changes {
        rest = lay_change(alloc, held, change, rest)?;
    }
    Ok(rest)
}

fn fill_change(
    alloc: Global,
    held: &mut Option<Vec<u8>>,
    change: &FileChange,
    byte: u8,
) -> Result<(), AllocError>
    ensures { OnOk result
        (bytes_in held.new ≡ filled_by byte (change_of change.now) (bytes_in held.old)) }
{
    match change {
        FileChange::Write(at, bytes) => {
            let filling = vec![in alloc; byte; bytes.len()]?;
            write(alloc, held, *at, &filling)
        }
        FileChange::Cut(len) => {
            fill_from(alloc, held, *len, byte);
            Ok(())
        }
        FileChange::Remove => Ok(()),
    }
}

// Makes each byte from the offset on this one, and the file where it is absent.
fn fill_from(alloc: Global, held: &mut Option<Vec<u8>>, len: u64, byte: u8)
    ensures { bytes_in held.new ≡ filled_by byte (Cut len) (bytes_in held.old) }
{
    match held {
        Some(there) => {
            let start = len.min(there.len() as u64) as usize;
            there[start..].fill(byte);
        }
        None => *held = Some(Vec::new(alloc)),
    }
}

fn lay_change(
    alloc: Global,
    held: &mut Option<Vec<u8>>,
    change: &FileChange,
    count: u64,
) -> Result<u64, AllocError>
    ensures laid { OnOk result
        (bytes_in held.new ≡ laid_by count (change_of change.now) (bytes_in held.old)) }
    ensures rest { IfOk result (λ rest. rest ≡ count - written_by (change_of change.now)) }
{
    let FileChange::Write(at, bytes) = change else {
        return Ok(count);
    };
    let part = count.min(bytes.len() as u64);
    if part > 0 {
        write(alloc, held, *at, &bytes[..part as usize])?;
    }
    Ok(count - part)
}
