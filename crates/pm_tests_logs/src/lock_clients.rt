//! Callers of the page locks, proved against the contracts of the locks alone: a worker that changes
//! a frame which it left Dirty, a flusher beside it, and a caller for all numbers that makes each
//! Done frame Clean.

ghost use Rattle.std.specs.Prelude.{◌≡◌, ◌≢◌, ℕ, ◌<◌, ◌≤◌, true, false, List, length, if◌then◌else◌};
ghost use Rattle.std.specs.Prelude.{slice_set, vec_capacity, slice_get, Some};
ghost use Rattle.pm_types.specs.declared.flag.Flag.TheVariants as flag;
ghost use Rattle.pm_locks.specs.Words.{put_as};
ghost use Rattle.pm_locks.specs.Rule.{HasImage, HasTakenImage};
ghost use Rattle.pm_locks.specs.Views.{IsStill, HasLeft, left_at, known_at, due_at};
ghost use Rattle.pm_locks.specs.Steps.{is_done};
ghost use Rattle.pm_locks.specs.Sight.{Sight, IsSeatOf, IsFrameOf, KnowsAll, HasPageSize};
ghost use Rattle.pm_locks.specs.Rounds.{HaveAll, IsWorkers, IsFlushers};
ghost use Rattle.pm_locks.specs.Refusals.{HasShown, ShowsNotLent, ShowsNotStolen};

use pm_locks::{FlushTake, Locks, PageSeat, Seats, Steal, Take};
use pm_types::{Flag, FrameNo, Tag};
use std::sync::Wait;

/// Changes a byte of a frame that this worker left Dirty, and answers whether the frame was to be
/// had. Whatever the flusher does meanwhile, the frame is never gone, and it has the bytes that the
/// worker left.
pub fn try_change(
    locks: &Locks,
    seat: &mut PageSeat,
    number: u8,
    f: FrameNo,
    tag: Tag,
    at: usize,
    byte: u8,
) -> bool
    requires worker { IsWorkers locks.now number seat.old }
    requires frame { IsFrameOf locks.now f }
    requires left { HasLeft seat.old.view number f tag flag.Dirty }
    requires within { at < length (left_at seat.old.view number f).bytes }
    ensures worker { IsWorkers locks.now number seat.new }
    ensures left { HasLeft seat.new.view number f tag flag.Dirty }
    ensures bytes { (left_at seat.new.view number f).bytes
        ≡ (if result then slice_set (left_at seat.old.view number f).bytes at byte
        else (left_at seat.old.view number f).bytes) }
{
    match locks.own_take(seat, f, tag) {
        Take::Got(mut lease, _) => {
            lease.bytes_mut()[at] = byte;
            locks.own_put(seat, f, lease, Flag::Dirty);
            true
        }
        Take::Busy(_) => false,
        Take::Gone => unreachable!(),
    }
}

/// Changes a byte of a frame that this worker left Dirty, and waits while the flusher has it.
pub fn change<R: Wait>(
    rt: &R,
    locks: &Locks,
    seat: &mut PageSeat,
    number: u8,
    f: FrameNo,
    tag: Tag,
    at: usize,
    byte: u8,
)
    requires worker { IsWorkers locks.now number seat.old }
    requires frame { IsFrameOf locks.now f }
    requires left { HasLeft seat.old.view number f tag flag.Dirty }
    requires within { at < length (left_at seat.old.view number f).bytes }
    ensures worker { IsWorkers locks.now number seat.new }
    ensures left { HasLeft seat.new.view number f tag flag.Dirty }
    ensures bytes { (left_at seat.new.view number f).bytes
        ≡ slice_set (left_at seat.old.view number f).bytes at byte }
{
    'tries: for _ in rt.forever() {
        if try_change(locks, seat, number, f, tag, at, byte) {
            return;
        }
    }
}

/// Ends a round and begins the next one: what a worker left Dirty is as it left it.
pub fn next_round(locks: &Locks, seats: &mut Seats, number: u8, f: FrameNo, tag: Tag)
    requires seats { HaveAll locks.now seats.old }
    requires room { locks.now.workers ≤ vec_capacity seats.old.workers }
    requires left { (seat : Sight) → slice_get seats.old.workers.items number ≡ Some seat
        → HasLeft seat.view number f tag flag.Dirty }
    ensures seats { HaveAll locks.now seats.new }
    ensures room { vec_capacity seats.new.workers ≡ vec_capacity seats.old.workers }
    ensures left { (was seat : Sight) → slice_get seats.old.workers.items number ≡ Some was
        → slice_get seats.new.workers.items number ≡ Some seat
        → HasLeft seat.view number f tag flag.Dirty
        × (left_at seat.view number f ≡ left_at was.view number f) }
{
    let seat = locks.gather(seats);
    locks.spread(seat, seats);
}

/// Makes a Dirty frame Due, and answers whether it did. Else the seat met why.
pub fn make_due(locks: &Locks, seat: &mut PageSeat, f: FrameNo, tag: Tag) -> bool
    requires flusher { IsFlushers locks.now seat.old }
    requires frame { IsFrameOf locks.now f }
    ensures flusher { IsFlushers locks.now seat.new }
    ensures due { result ≡ true → (image : List ℕ) × HasImage (due_at seat.new.view.dues f) tag image }
    ensures cause { result ≡ false
        → HasShown seat.old.view seat.new.view f (λ added. ShowsNotLent added f tag flag.Dirty) }
{
    match locks.flush_take(seat, f, tag, Flag::Dirty) {
        FlushTake::Got(lease) => {
            locks.flush_put(seat, f, lease, Flag::Due);
            true
        }
        FlushTake::Moved => false,
        FlushTake::Busy(_) => false,
    }
}

/// Writes the image of a Due frame into the page and makes the frame Done, and answers whether it
/// did. Else the seat met why. What is written is the image that was due, whatever the frame's owner
/// does meanwhile.
pub fn write_due(locks: &Locks, seat: &mut PageSeat, f: FrameNo, tag: Tag, page: &mut [u8]) -> bool
    requires flusher { IsFlushers locks.now seat.old }
    requires frame { IsFrameOf locks.now f }
    requires size { HasPageSize locks.now (length page.old) }
    ensures flusher { IsFlushers locks.now seat.new }
    ensures written { result ≡ true → HasImage (due_at seat.old.view.dues f) tag page.new
        × HasTakenImage (due_at seat.new.view.dues f) tag page.new }
    ensures cause { result ≡ false
        → HasShown seat.old.view seat.new.view f (λ added. ShowsNotLent added f tag flag.Due) }
{
    match locks.flush_take(seat, f, tag, Flag::Due) {
        FlushTake::Got(lease) => {
            page.copy_from_slice(lease.bytes());
            locks.flush_put(seat, f, lease, Flag::Done);
            true
        }
        FlushTake::Moved => false,
        FlushTake::Busy(_) => false,
    }
}

/// Makes the frame Clean where it is Done. The seat stands for all numbers, so it is always had.
pub fn clean(locks: &Locks, seat: &mut PageSeat, f: FrameNo)
    requires seat { IsSeatOf locks.now seat.old }
    requires frame { IsFrameOf locks.now f }
    requires knows { KnowsAll locks.now seat.old.view }
    requires still { IsStill seat.old.view }
    ensures seat { IsSeatOf locks.now seat.new }
    ensures knows { KnowsAll locks.now seat.new.view }
    ensures still { IsStill seat.new.view }
    ensures cleaned { known_at seat.new.view f ≡ (if is_done (known_at seat.old.view f).flag
        then put_as flag.Clean (known_at seat.old.view f) else known_at seat.old.view f) }
    ensures others { (g : ℕ) → g ≢ f → known_at seat.new.view g ≡ known_at seat.old.view g }
{
    let word = locks.look(seat, f);
    if word.flag() != Flag::Done {
        return;
    }
    match locks.own_take(seat, f, word.tag()) {
        Take::Got(lease, _) => locks.own_put(seat, f, lease, Flag::Clean),
        Take::Gone | Take::Busy(_) => unreachable!(),
    }
}

/// Makes each Done frame Clean, and leaves the others.
pub fn clean_all(locks: &Locks, seat: &mut PageSeat, frames: u32)
    requires seat { IsSeatOf locks.now seat.old }
    requires frames { frames ≡ length locks.now.ranges }
    requires knows { KnowsAll locks.now seat.old.view }
    requires still { IsStill seat.old.view }
    ensures seat { IsSeatOf locks.now seat.new }
    ensures knows { KnowsAll locks.now seat.new.view }
    ensures still { IsStill seat.new.view }
    ensures cleaned { (f : ℕ) → IsFrameOf locks.now f
        → known_at seat.new.view f ≡ (if is_done (known_at seat.old.view f).flag
        then put_as flag.Clean (known_at seat.old.view f) else known_at seat.old.view f) }
{
    'frames: for f in 0..frames {
        clean(locks, seat, f);
    }
}

/// Steals a frame for a worker and puts a page there, and answers whether it did. Else the seat met
/// why. A stolen frame has a page's bytes.
pub fn read_page(locks: &Locks, seat: &mut PageSeat, number: u8, f: FrameNo, page: &[u8]) -> bool
    requires worker { IsWorkers locks.now number seat.old }
    requires number { number < 8 }
    requires frame { IsFrameOf locks.now f }
    requires size { HasPageSize locks.now (length page.now) }
    ensures worker { IsWorkers locks.now number seat.new }
    ensures page { result ≡ true → (left_at seat.new.view number f).bytes ≡ page.now }
    ensures cause { result ≡ false
        → HasShown seat.old.view seat.new.view f (λ added. ShowsNotStolen added f) }
{
    match locks.steal(seat, number, f) {
        Steal::Got(mut lease, _) => {
            lease.bytes_mut().copy_from_slice(page);
            locks.own_put(seat, f, lease, Flag::Clean);
            true
        }
        Steal::Not(_) => false,
    }
}
