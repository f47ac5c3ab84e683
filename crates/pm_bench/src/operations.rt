//! Mixed operations on a partition over pages in memory, and on the map in memory that it takes
//! the place of.

ghost use Rattle.std.specs.Prelude.{◌≡◌, ◌<◌, ◌≤◌, IfOk};
ghost use Rattle.pm_types.specs.declared.limits.TheConstants.{OP_PAGES};
ghost use Rattle.pm_pages.specs.Paged.{AllReadable};
ghost use Rattle.pm_pages.specs.Plain.{plain_seen, ArePlain};
ghost use Rattle.pm_part.specs.Commands.{IsPartCmd};

use pm_model::{Cmd, Line, PlainMap, Replies, Reply};
use pm_pages::{Pages, PlainPages};
use pm_part::Part;
use pm_types::{Key, Shape, Value};
use std::alloc::{AllocError, Global};

/// The shape of a store of one partition.
pub const SHAPE: Shape = Shape {
    page_size: 4096,
    partitions: 1,
    version: 1,
    max_rows: 400_000,
    segment_bytes: 65_536,
};

// An odd number far from any power of 2.
const STEP: u64 = 0x9e37_79b9_7f4a_7c15;

// A value has fewer bytes.
const VALUE_LENS: u64 = 101;

static BYTES: [u8; 128] = [b'v'; 128];

/// So many operations, made alone.
pub fn commands(alloc: Global, count: u32) -> Result<u64, AllocError> {
    let mut sum = 0u64;
    for i in 0..count {
        sum = sum.wrapping_add(match command(alloc, i, count)? {
            Cmd::Put { .. } => 1,
            _ => 0,
        });
    }
    Ok(sum)
}

/// The same, done over pages in memory.
pub fn in_pages(alloc: Global, count: u32) -> Result<u64, AllocError> {
    let mut pages = PlainPages::new(alloc, &SHAPE, 0)?;
    let part = Part::new(SHAPE, 0);
    let mut sum = 0u64;
    'operations: for i in 0..count {
        let cmd = command(alloc, i, count)?;
        pages.ready(alloc)?;
        let mut replies = Replies::with_room(alloc, 1)?;
        sum = sum.wrapping_add(run(&part, &cmd, &mut pages, &mut replies));
    }
    Ok(sum)
}

/// The same, done in a map.
pub fn in_map(alloc: Global, count: u32) -> Result<u64, AllocError> {
    let mut map = PlainMap::new(alloc);
    let mut sum = 0u64;
    for i in 0..count {
        let line = Line::Good(command(alloc, i, count)?);
        sum = sum.wrapping_add(told_by(&map.answer(alloc, SHAPE, line)?.reply));
    }
    Ok(sum)
}

/// An operation on one of a fourth as many keys as there are operations: of sixteen eight are puts, six
/// gets, and two are removals.
pub fn command(alloc: Global, i: u32, count: u32) -> Result<Cmd, AllocError>
    ensures { IfOk result (IsPartCmd SHAPE 0) }
{
    let random = spread(i);
    let key = key_of(alloc, number_of(random, count))?;
    let cache = 0;
    match random >> 60 {
        0..8 => Ok(Cmd::Put {
            cache,
            key,
            value: value(alloc, random)?,
        }),
        8..14 => Ok(Cmd::Get { cache, key }),
        _ => Ok(Cmd::Remove { cache, key }),
    }
}

// A number that is spread over all.
fn spread(i: u32) -> u64 {
    let random = u64::from(i).wrapping_mul(STEP);
    (random ^ (random >> 29)).wrapping_mul(STEP)
}

// The number of one of a fourth as many keys.
fn number_of(random: u64, count: u32) -> u64 {
    (random >> 20) % (u64::from(count) / 4 + 1)
}

fn key_of(alloc: Global, number: u64) -> Result<Key, AllocError> {
    Key::of(alloc, &number.wrapping_mul(STEP).to_be_bytes())
}

/// A put of the key with this number.
pub fn put_of(alloc: Global, number: u32) -> Result<Cmd, AllocError>
    ensures { IfOk result (IsPartCmd SHAPE 0) }
{
    Ok(Cmd::Put {
        cache: 0,
        key: key_of(alloc, u64::from(number))?,
        value: value(alloc, spread(number))?,
    })
}

/// A get of one of a fourth as many keys as there are operations.
pub fn get_of(alloc: Global, i: u32, count: u32) -> Result<Cmd, AllocError>
    ensures { IfOk result (IsPartCmd SHAPE 0) }
{
    Ok(Cmd::Get {
        cache: 0,
        key: key_of(alloc, number_of(spread(i), count))?,
    })
}

fn value(alloc: Global, random: u64) -> Result<Value, AllocError> {
    let len = ((random >> 40) % VALUE_LENS) as usize;
    Value::of(alloc, &BYTES[..len])
}

// Does an operation, and gives what its reply tells.
fn run<P: Pages>(part: &Part, cmd: &Cmd, pages: &mut P, replies: &mut Replies) -> u64
    requires ready { P.ready pages.old }
    requires room { OP_PAGES ≤ (P.seen pages.old).spare }
    requires cmd { IsPartCmd part.now.shape part.now.part cmd.now }
    requires readable { AllReadable (P.seen pages.old) }
    requires spare { 0 < replies.old.spare }
    ensures kept { P.kept pages.old pages.new }
    ensures readable { AllReadable (P.seen pages.new) }
{
    match part.run(cmd, pages, replies) {
        Ok(()) => {
            if replies.len() == 0 {
                return 0;
            }
            told_by(replies.get(0))
        }
        Err(_) => 0,
    }
}

/// A number for a reply: that of the bytes of a value that was found, and more.
pub fn told_by(reply: &Reply) -> u64 {
    match reply {
        Reply::Done => 1,
        Reply::Found(value) => 1000 + value.bytes().len() as u64,
        Reply::Was(true) => 100_000,
        _ => 0,
    }
}
