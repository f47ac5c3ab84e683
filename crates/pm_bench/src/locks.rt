//! Page locks: each worker takes a frame and puts it back, so many times.

ghost use Rattle.std.specs.Prelude.{◌≡◌, ◌≤◌, ◌<◌, All, IfOk, length};
ghost use Rattle.pm_locks.specs.Sight.{IsSeatOf, IsFrameOf};

use pm_locks::{Locks, PageSeat, Seats, Take};
use pm_region::Region;
use pm_types::{Flag, FrameNo, PAGE_SIZE_MIN};
use std::alloc::{AllocError, Global};
use std::thread;
use std::thread::Threads;

// Each worker has many frames, so that one of its frames lies far from each other worker's.
const FRAMES: u32 = 256;

const THREADS_MOST: usize = 8;

/// How many workers there are, each in a thread of its own, and how many words the frame of one lies
/// after that of the worker before.
#[derive(Clone, Copy, Debug)]
pub struct Layout {
    pub workers: u32,
    pub stride: u32,
}

/// One worker.
pub const ALONE: Layout = Layout {
    workers: 1,
    stride: 1,
};

/// Four workers, whose words lie in cache lines of their own.
pub const APART: Layout = Layout {
    workers: 4,
    stride: 65,
};

/// Four workers, whose words lie in one cache line.
pub const NEAR: Layout = Layout {
    workers: 4,
    stride: 1,
};

/// The sum of the bytes that the workers count in, each so many takes and puts.
pub fn run<R: Threads + Sync>(
    rt: &R,
    alloc: Global,
    layout: Layout,
    count: u32,
) -> Result<u64, AllocError>
    requires { (1 ≤ layout.workers) × (layout.workers ≤ 8) }
{
    let (locks, mut seats) = begin(alloc, layout.workers)?;
    take_all(
        rt,
        &locks,
        seats.workers.as_mut_slice(),
        layout.stride,
        count,
    );
    Ok(counted(&locks, seats.workers.as_mut_slice(), layout.stride))
}

// Locks for so many workers, and a seat for each.
fn begin(alloc: Global, workers: u32) -> Result<(Locks, Seats), AllocError>
    requires { (1 ≤ workers) × (workers ≤ 8) }
    ensures seats { IfOk result (λ r. All (IsSeatOf r.0) r.1.workers.items) }
    ensures frames { IfOk result (λ r. length r.0.ranges ≡ 256) }
{
    let (_region, leases) = Region::new(alloc, FRAMES, PAGE_SIZE_MIN as u32)?;
    let Ok((locks, seat)) = Locks::start(alloc, leases, workers) else {
        return Err(AllocError);
    };
    let mut seats = Seats::with_room(alloc, workers)?;
    locks.spread(seat, &mut seats);
    Ok((locks, seats))
}

// The frame of the worker with this number: one that it owns, since the stride is 1 more than a
// multiple of the number of workers.
fn frame_of(number: usize, stride: u32) -> FrameNo
    ensures { result < 256 }
{
    ((number % FRAMES as usize) as u32).wrapping_mul(stride) % FRAMES
}

// Each worker takes its frame so often, in a thread of its own.
fn take_all<R: Threads + Sync>(
    rt: &R,
    locks: &Locks,
    seats: &mut [PageSeat],
    stride: u32,
    count: u32,
)
    requires seats { All (IsSeatOf locks.now) seats.old }
    requires frames { length locks.now.ranges ≡ 256 }
    ensures { All (IsSeatOf locks.now) seats.new }
{
    thread::for_each_mut(
        rt,
        seats,
        THREADS_MOST,
        &|number, seat| { take_often(locks, seat, frame_of(number, stride), count) },
    );
}

fn take_often(locks: &Locks, seat: &mut PageSeat, f: FrameNo, count: u32)
    requires seat { IsSeatOf locks.now seat.old }
    requires frame { IsFrameOf locks.now f }
    ensures { IsSeatOf locks.now seat.new }
{
    'takes: for _ in 0..count {
        take(locks, seat, f);
    }
}

// Takes the frame, counts in its first byte, puts it back, and gives the byte; 0 where the frame
// isn't to be had.
fn take(locks: &Locks, seat: &mut PageSeat, f: FrameNo) -> u8
    requires seat { IsSeatOf locks.now seat.old }
    requires frame { IsFrameOf locks.now f }
    ensures { IsSeatOf locks.now seat.new }
{
    match locks.own_take(seat, f, 0) {
        Take::Got(mut lease, _) => {
            let next = count_in(lease.bytes_mut());
            locks.own_put(seat, f, lease, Flag::Dirty);
            next
        }
        Take::Gone | Take::Busy(_) => 0,
    }
}

fn count_in(bytes: &mut [u8]) -> u8 {
    match bytes.first_mut() {
        Some(byte) => {
            *byte = byte.wrapping_add(1);
            *byte
        }
        None => 0,
    }
}

// The sum of the bytes that the workers counted in, once more each.
fn counted(locks: &Locks, seats: &mut [PageSeat], stride: u32) -> u64
    requires seats { All (IsSeatOf locks.now) seats.old }
    requires frames { length locks.now.ranges ≡ 256 }
{
    let mut sum = 0u64;
    'seats: for number in 0..seats.len() {
        let byte = take(locks, &mut seats[number], frame_of(number, stride));
        sum = sum.wrapping_add(u64::from(byte));
    }
    sum
}
