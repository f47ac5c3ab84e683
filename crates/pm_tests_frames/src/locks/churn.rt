//! Four threads on the same frames: three workers that change, clean and steal them, and the flusher.

ghost use Rattle.std.specs.Prelude.{◌≡◌, ◌<◌, ◌≤◌, IfOk, length};
ghost use Rattle.pm_locks.specs.Sight.{IsFrameOf};
ghost use Rattle.pm_locks.specs.Rounds.{IsWorkers, IsFlushers};

use crate::locks::takes::{Answer, flush, replace, rewrite};
use pm_locks::{Locks, PageSeat, Seats};
use pm_region::Region;
use pm_types::{Flag, FrameNo, Tag};
use std::alloc::{AllocError, Global};
use std::thread::{Threads, join_mut};

// How often each of the threads takes or steals a frame: together a million times.
const TURNS: u32 = 250_000;

// How many frames they share.
const FRAMES: u32 = 5;

// What a worker left at a frame.
#[derive(Clone, Copy)]
struct Left {
    tag: Tag,
    byte: Option<u8>,
    dirty: bool,
}

// One turn of a worker at a frame. Answers whether the frame had what the worker left there, and
// whether a frame that it left Dirty was there.
fn turn(
    locks: &Locks,
    seat: &mut PageSeat,
    number: u8,
    f: FrameNo,
    left: &mut Left,
    byte: u8,
    dirty: bool,
) -> bool
    requires seat { IsWorkers locks.now number seat.old }
    requires number { number < 8 }
    requires frame { IsFrameOf locks.now f }
    ensures { IsWorkers locks.now number seat.new }
{
    match rewrite(locks, seat, number, f, left.tag, byte, dirty) {
        Answer::Got(was) => {
            let right = was == left.byte;
            left.byte = Some(byte);
            left.dirty = left.dirty || dirty;
            right
        }
        Answer::Cleaned(was) => {
            left.dirty = false;
            was == left.byte
        }
        Answer::Gone => {
            let right = !left.dirty;
            let tag = replace(locks, seat, number, f, byte, dirty);
            if tag > 0 {
                *left = Left {
                    tag,
                    byte: Some(byte),
                    dirty,
                };
            }
            right
        }
        Answer::Busy(_) => true,
        Answer::Moved => false,
    }
}

// All turns of a worker. Answers how many were wrong.
fn churn(locks: &Locks, seat: &mut PageSeat, number: u8) -> u32
    requires seat { IsWorkers locks.now number seat.old }
    requires number { number < 8 }
    requires frames { 5 ≤ length locks.now.ranges }
    ensures { IsWorkers locks.now number seat.new }
{
    let nothing = Left {
        tag: 0,
        byte: None,
        dirty: false,
    };
    let mut left = [nothing; 5];
    let mut wrong = 0u32;
    'turns: for at in 0..TURNS {
        let f = at % FRAMES;
        let byte = (at % 250) as u8;
        let dirty = at % 7 < 3;
        if !turn(locks, seat, number, f, &mut left[f as usize], byte, dirty) {
            wrong = wrong.saturating_add(1);
        }
    }
    wrong
}

// One turn of the flusher at a frame. Answers whether a frame that it made Done had the bytes with
// which it had made it Due.
fn flush_turn(locks: &Locks, seat: &mut PageSeat, f: FrameNo, image: &mut Option<u8>) -> bool
    requires seat { IsFlushers locks.now seat.old }
    requires frame { IsFrameOf locks.now f }
    ensures { IsFlushers locks.now seat.new }
{
    let word = locks.look(seat, f);
    match word.flag() {
        Flag::Dirty => {
            if let Answer::Got(was) = flush(locks, seat, f, word.tag(), Flag::Dirty, Flag::Due) {
                *image = was;
            }
            true
        }
        Flag::Due => match flush(locks, seat, f, word.tag(), Flag::Due, Flag::Done) {
            Answer::Got(was) => was.is_some() && was == *image,
            _ => true,
        },
        _ => true,
    }
}

// All turns of the flusher. Answers how many were wrong.
fn flush_often(locks: &Locks, seat: &mut PageSeat) -> u32
    requires seat { IsFlushers locks.now seat.old }
    requires frames { 5 ≤ length locks.now.ranges }
    ensures { IsFlushers locks.now seat.new }
{
    let mut images = [None; 5];
    let mut wrong = 0u32;
    'turns: for at in 0..TURNS {
        let f = at % FRAMES;
        if !flush_turn(locks, seat, f, &mut images[f as usize]) {
            wrong = wrong.saturating_add(1);
        }
    }
    wrong
}

// Two workers beside each other.
fn two_workers<R: Threads + Sync>(
    rt: &R,
    locks: &Locks,
    first: &mut PageSeat,
    second: &mut PageSeat,
) -> u32
    requires frames { 5 ≤ length locks.now.ranges }
    requires first { IsWorkers locks.now 0 first.old }
    requires second { IsWorkers locks.now 1 second.old }
{
    let mut wrong = (1, 1);
    join_mut(
        rt,
        &mut || wrong.0 = churn(locks, first, 0),
        &mut || wrong.1 = churn(locks, second, 1),
    );
    wrong.0.saturating_add(wrong.1)
}

// A worker beside the flusher.
fn worker_and_flusher<R: Threads + Sync>(
    rt: &R,
    locks: &Locks,
    third: &mut PageSeat,
    flusher: &mut PageSeat,
) -> u32
    requires frames { 5 ≤ length locks.now.ranges }
    requires third { IsWorkers locks.now 2 third.old }
    requires flusher { IsFlushers locks.now flusher.old }
{
    let mut wrong = (1, 1);
    join_mut(
        rt,
        &mut || wrong.0 = churn(locks, third, 2),
        &mut || wrong.1 = flush_often(locks, flusher),
    );
    wrong.0.saturating_add(wrong.1)
}

// All four beside each other. Answers how many turns were wrong.
fn four<R: Threads + Sync>(
    rt: &R,
    locks: &Locks,
    first: &mut PageSeat,
    second: &mut PageSeat,
    third: &mut PageSeat,
    flusher: &mut PageSeat,
) -> u32
    requires frames { 5 ≤ length locks.now.ranges }
    requires first { IsWorkers locks.now 0 first.old }
    requires second { IsWorkers locks.now 1 second.old }
    requires third { IsWorkers locks.now 2 third.old }
    requires flusher { IsFlushers locks.now flusher.old }
{
    let mut wrong = (1, 1);
    join_mut(
        rt,
        &mut ||
            requires { (5 ≤ length locks.now.ranges) × IsWorkers locks.now 0 first.now
                × IsWorkers locks.now 1 second.now }
        { wrong.0 = two_workers(rt, locks, first, second) },
        &mut ||
            requires { (5 ≤ length locks.now.ranges) × IsWorkers locks.now 2 third.now
                × IsFlushers locks.now flusher.now }
        { wrong.1 = worker_and_flusher(rt, locks, third, flusher) },
    );
    wrong.0.saturating_add(wrong.1)
}

// Locks for three workers, the workers' seats and the flusher's.
fn begin(alloc: Global) -> Result<(Locks, PageSeat, PageSeat, PageSeat, PageSeat), AllocError>
    ensures frames { IfOk result (λ r. length r.0.ranges ≡ 5) }
    ensures first { IfOk result (λ r. IsWorkers r.0 0 r.1) }
    ensures second { IfOk result (λ r. IsWorkers r.0 1 r.2) }
    ensures third { IfOk result (λ r. IsWorkers r.0 2 r.3) }
    ensures flusher { IfOk result (λ r. IsFlushers r.0 r.4) }
{
    let (_region, leases) = Region::new(alloc, FRAMES, 7)?;
    let Ok((locks, seat)) = Locks::start(alloc, leases, 3) else {
        return Err(AllocError);
    };
    let mut seats = Seats::with_room(alloc, 3)?;
    locks.spread(seat, &mut seats);
    let Some(third) = seats.workers.pop() else {
        return Err(AllocError);
    };
    let Some(second) = seats.workers.pop() else {
        return Err(AllocError);
    };
    let Some(first) = seats.workers.pop() else {
        return Err(AllocError);
    };
    let Some(flusher) = seats.flusher.take() else {
        return Err(AllocError);
    };
    Ok((locks, first, second, third, flusher))
}

#[test]
fn four_threads_find_what_they_last_left(rt: HostRuntime) {
    let (locks, mut first, mut second, mut third, mut flusher) = begin(rt.alloc()).expect(
        &rt, "locks",
    );
    let wrong = four(
        &rt,
        &locks,
        &mut first,
        &mut second,
        &mut third,
        &mut flusher,
    );
    assert_eq!(rt; wrong, 0);
}
