//! Commands on rows of one partition of two.

ghost use Rattle.std.specs.Prelude.{◌≡◌, IfOk};
ghost use Rattle.pm_model.specs.Partitions.{part_of};
ghost use Rattle.pm_part.specs.Commands.{IsPartCmd};

use pm_model::{Cmd, Replies, Reply, part_of};
use pm_types::{Key, Shape, Value};
use std::alloc::{AllocError, Global};

/// The shape of a store of two partitions.
pub const SHAPE: Shape = Shape {
    page_size: 1024,
    partitions: 2,
    version: 1,
    max_rows: 20_000,
    segment_bytes: 65_536,
};

// The cache of the rows.
const CACHE: u8 = 3;

// An odd number far from any power of 2.
const STEP: u32 = 0x9e37_79b1;

/// What is done with a row.
#[derive(Clone, Copy)]
pub enum Step {
    /// It is put, with a value of so many bytes.
    Put(usize),
    Get,
    Remove,
}

// The key of a partition's row with this number. Rows that differ have keys that do.
fn key_of(alloc: Global, part: u16, row: u32) -> Result<Key, AllocError>
    ensures { IfOk result (λ key. part_of key SHAPE.partitions ≡ part) }
{
    let mut bytes = [0; 5];
    bytes[..4].copy_from_slice(&row.wrapping_mul(STEP).to_be_bytes());
    'salts: for salt in 0..64u8 {
        bytes[4] = salt;
        if part_of(&bytes, SHAPE.partitions) == part {
            return Key::of(alloc, &bytes);
        }
    }
    Err(AllocError)
}

// A value of so many bytes, 900 at most.
fn value_of(alloc: Global, row: u32, len: usize) -> Result<Value, AllocError> {
    let bytes = [row.to_le_bytes()[0]; 900];
    Value::of(alloc, &bytes[..len.min(900)])
}

/// A command on a partition's row.
pub fn command(alloc: Global, part: u16, row: u32, step: Step) -> Result<Cmd, AllocError>
    ensures { IfOk result (IsPartCmd SHAPE part) }
{
    let cache = CACHE;
    let key = key_of(alloc, part, row)?;
    match step {
        Step::Put(len) => Ok(Cmd::Put {
            cache,
            key,
            value: value_of(alloc, row, len)?,
        }),
        Step::Get => Ok(Cmd::Get { cache, key }),
        Step::Remove => Ok(Cmd::Remove { cache, key }),
    }
}

/// Whether two replies to a command on a row are the same.
pub fn is_same(a: &Reply, b: &Reply) -> bool {
    match (a, b) {
        (Reply::Done, Reply::Done) => true,
        (Reply::Full, Reply::Full) => true,
        (Reply::Absent, Reply::Absent) => true,
        (Reply::Was(a), Reply::Was(b)) => a == b,
        (Reply::Found(a), Reply::Found(b)) => a.bytes() == b.bytes(),
        _ => false,
    }
}

/// Whether both have one reply, the same.
pub fn are_same(a: &Replies, b: &Replies) -> bool {
    a.len() == 1 && b.len() == 1 && is_same(a.get(0), b.get(0))
}
