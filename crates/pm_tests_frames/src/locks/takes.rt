//! Page frames that are taken and put back, a call after the other.

ghost use Rattle.std.specs.Prelude.{◌≡◌, ◌<◌, ◌≤◌, ◌⊎◌, IfOk, length};
ghost use Rattle.pm_types.specs.declared.flag.Flag.TheVariants as flag;
ghost use Rattle.pm_locks.specs.Sight.{IsFrameOf};
ghost use Rattle.pm_locks.specs.Words as spec;
ghost use Rattle.pm_locks.specs.Words.{IsNext, IsSpare};
ghost use Rattle.pm_locks.specs.Rounds.{IsWorkers, IsFlushers};

use pm_locks::{FlushTake, Locks, PageSeat, Seats, Steal, TAG_LAST, Take, Word};
use pm_region::Region;
use pm_types::{Flag, FrameNo, Tag};
use std::alloc::{AllocError, Global};
use std::test::Fail;

// The code of a flag in a lock word.
fn code_of(flag: Flag) -> u64
    ensures { result ≡ spec.code_of flag }
{
    match flag {
        Flag::Empty => 0,
        Flag::Clean => 1,
        Flag::Dirty => 2,
        Flag::Due => 3,
        Flag::Done => 4,
    }
}

// The word of these four: no other one has them, since of a word they say all bits.
fn word_of(tag: Tag, owner: u8, holder: u8, flag: Flag) -> Word
    requires { tag ≤ TAG_LAST }
    ensures { result ≡ record { tag = tag; owner = owner; holder = holder; flag = flag } }
{
    Word(((tag * 256 + owner as u64) * 256 + holder as u64) * 256 + code_of(flag))
}

#[test]
fn every_flag_and_holder_is_packed_and_unpacked(rt: HostRuntime) {
    let flags = [Flag::Empty, Flag::Clean, Flag::Dirty, Flag::Due, Flag::Done];
    for code in 0..5u8 {
        for holder in [0u8, 1, 7, 8, 255] {
            for (tag, owner) in [(0u64, 0u8), (1, 7), (TAG_LAST, 3)] {
                let flag = flags[code as usize];
                let word = word_of(tag, owner, holder, flag);
                let bits = (tag << 24)
                    | ((owner as u64) << 16)
                    | ((holder as u64) << 8)
                    | code as u64;
                assert_eq!(rt; word.0, bits);
                assert_eq!(rt; word.tag(), tag);
                assert_eq!(rt; word.owner(), owner);
                assert_eq!(rt; word.holder(), holder);
                assert!(rt; word.flag() == flag);
            }
        }
    }
}

// What a call answered: the first of the frame's 7 bytes, where they count up from it.
#[derive(Clone, Copy, PartialEq, Eq)]
pub(crate) enum Answer {
    Got(Option<u8>),
    Cleaned(Option<u8>),
    Gone,
    Moved,
    Busy(u64),
}

// The flag of a frame whose bytes were changed.
fn flag_after(was: Flag, dirty: bool) -> Flag
    ensures either { (result ≡ flag.Clean) ⊎ (result ≡ flag.Dirty) }
    ensures clean { result ≡ flag.Clean → IsSpare was }
{
    match was {
        Flag::Empty | Flag::Clean => { if dirty { Flag::Dirty } else { Flag::Clean } }
        _ => Flag::Dirty,
    }
}

// Fills a lease with bytes that count up.
fn count_up(bytes: &mut [u8], from: u8) {
    let mut next = from;
    for byte in bytes.iter_mut() {
        *byte = next;
        next = next.wrapping_add(1);
    }
}

// The first byte, where there are 7 and they count up from it.
fn counted_from(bytes: &[u8]) -> Option<u8> {
    let first = *bytes.first()?;
    let mut next = first;
    for byte in bytes {
        if *byte != next {
            return None;
        }
        next = next.wrapping_add(1);
    }
    if bytes.len() == 7 { Some(first) } else { None }
}

// Takes a worker's frame. One that is Done becomes Clean, and another one's bytes count up from this
// one then.
pub(crate) fn rewrite(
    locks: &Locks,
    seat: &mut PageSeat,
    number: u8,
    f: FrameNo,
    tag: Tag,
    byte: u8,
    dirty: bool,
) -> Answer
    requires seat { IsWorkers locks.now number seat.old }
    requires frame { IsFrameOf locks.now f }
    ensures { IsWorkers locks.now number seat.new }
{
    match locks.own_take(seat, f, tag) {
        Take::Got(mut lease, flag) => {
            let was = counted_from(lease.bytes());
            match flag {
                Flag::Done => {
                    locks.own_put(seat, f, lease, Flag::Clean);
                    Answer::Cleaned(was)
                }
                _ => {
                    count_up(lease.bytes_mut(), byte);
                    locks.own_put(seat, f, lease, flag_after(flag, dirty));
                    Answer::Got(was)
                }
            }
        }
        Take::Gone => Answer::Gone,
        Take::Busy(word) => Answer::Busy(word.0),
    }
}

// Steals a frame for a worker, whose bytes count up from this one then. Answers its new tag, or 0
// where it isn't to be had.
pub(crate) fn replace(
    locks: &Locks,
    seat: &mut PageSeat,
    number: u8,
    f: FrameNo,
    byte: u8,
    dirty: bool,
) -> Tag
    requires seat { IsWorkers locks.now number seat.old }
    requires number { number < 8 }
    requires frame { IsFrameOf locks.now f }
    ensures { IsWorkers locks.now number seat.new }
{
    match locks.steal(seat, number, f) {
        Steal::Got(mut lease, tag) => {
            count_up(lease.bytes_mut(), byte);
            locks.own_put(seat, f, lease, flag_after(Flag::Empty, dirty));
            tag
        }
        Steal::Not(_) => 0,
    }
}

// Takes a frame for the flusher and puts it back.
pub(crate) fn flush(
    locks: &Locks,
    seat: &mut PageSeat,
    f: FrameNo,
    tag: Tag,
    want: Flag,
    next: Flag,
) -> Answer
    requires seat { IsFlushers locks.now seat.old }
    requires frame { IsFrameOf locks.now f }
    requires flags { IsNext want next }
    ensures { IsFlushers locks.now seat.new }
{
    match locks.flush_take(seat, f, tag, want) {
        FlushTake::Got(lease) => {
            let was = counted_from(lease.bytes());
            locks.flush_put(seat, f, lease, next);
            Answer::Got(was)
        }
        FlushTake::Moved => Answer::Moved,
        FlushTake::Busy(word) => Answer::Busy(word.0),
    }
}

// What a worker is answered while the flusher has its frame out.
fn rewrite_beside(
    locks: &Locks,
    flusher: &mut PageSeat,
    seat: &mut PageSeat,
    number: u8,
    f: FrameNo,
    tag: Tag,
) -> Answer
    requires flusher { IsFlushers locks.now flusher.old }
    requires seat { IsWorkers locks.now number seat.old }
    requires frame { IsFrameOf locks.now f }
    ensures flusher { IsFlushers locks.now flusher.new }
    ensures seat { IsWorkers locks.now number seat.new }
{
    match locks.flush_take(flusher, f, tag, Flag::Dirty) {
        FlushTake::Got(lease) => {
            let answer = rewrite(locks, seat, number, f, tag, 0, true);
            locks.flush_put(flusher, f, lease, Flag::Due);
            answer
        }
        FlushTake::Moved => Answer::Moved,
        FlushTake::Busy(_) => Answer::Moved,
    }
}

// Locks for two workers and so many frames of 7 bytes, the workers' seats and the flusher's.
fn begin(alloc: Global, frames: u32) -> Result<(Locks, PageSeat, PageSeat, PageSeat), AllocError>
    requires { (1 ≤ frames) × (frames ≤ 8) }
    ensures frames { IfOk result (λ r. length r.0.ranges ≡ frames) }
    ensures first { IfOk result (λ r. IsWorkers r.0 0 r.1) }
    ensures second { IfOk result (λ r. IsWorkers r.0 1 r.2) }
    ensures flusher { IfOk result (λ r. IsFlushers r.0 r.3) }
{
    let (_region, leases) = Region::new(alloc, frames, 7)?;
    let Ok((locks, seat)) = Locks::start(alloc, leases, 2) else {
        return Err(AllocError);
    };
    let mut seats = Seats::with_room(alloc, 2)?;
    locks.spread(seat, &mut seats);
    let Some(second) = seats.workers.pop() else {
        return Err(AllocError);
    };
    let Some(first) = seats.workers.pop() else {
        return Err(AllocError);
    };
    let Some(flusher) = seats.flusher.take() else {
        return Err(AllocError);
    };
    Ok((locks, first, second, flusher))
}

#[test]
fn two_workers_and_two_frames(rt: HostRuntime) -> Result<(), Fail> {
    let (locks, mut first, mut second, mut flusher) = begin(rt.alloc(), 2)?;
    let answer = rewrite(&locks, &mut first, 0, 0, 0, 70, true);
    assert!(rt; answer == Answer::Got(None));
    let Steal::Not(word) = locks.steal(&mut second, 1, 0) else {
        panic!(rt; "a Dirty frame was stolen");
    };
    assert_eq!(rt; word.0, 0x0000_ff02);
    assert_eq!(rt; replace(&locks, &mut second, 1, 1, 9, false), 1);
    let busy = rewrite_beside(&locks, &mut flusher, &mut first, 0, 0, 0);
    assert!(rt; busy == Answer::Busy(0x0000_0802));
    let got = rewrite(&locks, &mut first, 0, 0, 0, 80, true);
    assert!(rt; got == Answer::Got(Some(70)));
    let gone = rewrite(&locks, &mut first, 0, 0, 1, 90, true);
    assert!(rt; gone == Answer::Gone);
    Ok(())
}

#[test]
fn the_flusher_brings_a_frame_from_dirty_to_done(rt: HostRuntime) -> Result<(), Fail> {
    let (locks, mut first, _second, mut flusher) = begin(rt.alloc(), 1)?;
    let _ = rewrite(&locks, &mut first, 0, 0, 0, 7, true);
    let early = flush(&locks, &mut flusher, 0, 0, Flag::Due, Flag::Done);
    assert!(rt; early == Answer::Moved);
    let due = flush(&locks, &mut flusher, 0, 0, Flag::Dirty, Flag::Due);
    assert!(rt; due == Answer::Got(Some(7)));
    let done = flush(&locks, &mut flusher, 0, 0, Flag::Due, Flag::Done);
    assert!(rt; done == Answer::Got(Some(7)));
    assert_eq!(rt; locks.look(&mut first, 0).0, 0x0000_ff04);
    Ok(())
}

#[test]
fn the_leases_of_closed_locks_close_their_region(rt: HostRuntime) -> Result<(), Fail> {
    let (region, leases) = Region::new(rt.alloc(), 3, 7)?;
    let Ok((locks, seat)) = Locks::start(rt.alloc(), leases, 8) else {
        panic!(rt; "no memory");
    };
    let mut seats = Seats::with_room(rt.alloc(), 8)?;
    locks.spread(seat, &mut seats);
    assert_eq!(rt; seats.workers.len(), 8);
    let seat = locks.gather(&mut seats);
    assert!(rt; seats.workers.is_empty() && seats.flusher.is_none());
    let leases = locks.close(seat);
    assert_eq!(rt; leases.len(), 3);
    region.close(leases);
    Ok(())
}
