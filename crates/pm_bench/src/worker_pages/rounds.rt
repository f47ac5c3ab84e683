//! Rounds of a worker over 64 frames, by code that works over any pages.

ghost use Rattle.std.specs.Prelude.{◌≡◌, length};
ghost use Rattle.pm_stripe.specs.Begins.{IsOwnPart};
ghost use Rattle.pm_stripe.specs.Bounds.{IsBound};

use crate::worker_pages::few_frames::{NoPages, begin};
use crate::worker_pages::page_steps::{leave_in_hand, look, make, make_pages};
use pm_disk::PageReader;
use pm_stripe::{Bound, Halt, Stripe};
use std::alloc::{AllocError, Global};
use std::sync::Wait;
use std::test::Fail;

// The sum of the indexes of the pages that 64 frames keep.
fn sum_of_pages(stripe: &Stripe) -> u32
    requires frames { length stripe.now.places.pages.items ≡ 64 }
{
    let mut sum = 0u32;
    'frames: for frame in 0..64 {
        if let Some((page, _)) = stripe.page_in(frame) {
            sum = sum.saturating_add(page.index());
        }
    }
    sum
}

// The same once the round ends.
fn sum_after<'a, Q: Wait, R: PageReader + Drop>(pages: Bound<'a, Q, R>) -> u32
    requires bound { IsBound R.tells R.history R.state pages }
    requires frames { length pages.locks.now.ranges ≡ 64 }
{
    let (stripe, seat, reader) = pages.end();
    let sum = sum_of_pages(&stripe);
    let _ = (seat, reader);
    sum
}

// How the making of pages ends, and the sum of those that frames keep then.
fn changed<Q: Wait>(rt: &Q, alloc: Global) -> Result<(Result<u32, Halt>, u32), AllocError> {
    let (locks, seat, stripe) = begin(alloc)?;
    let mut pages = Bound::new(rt, &locks, stripe, seat, NoPages);
    pages.at(0);
    let made = make_pages(&mut pages, 100);
    Ok((made, sum_after(pages)))
}

#[test]
fn as_many_pages_are_changed_as_leave_frames_for_one_operation(
    rt: HostRuntime,
) -> Result<(), Fail> {
    let (made, sum) = changed(&rt, rt.alloc())?;
    assert_eq!(rt; made, Err(Halt::NoFrame(64)));
    // 33 pages of 64 frames are Dirty, and 31 frames are left
    assert_eq!(rt; sum, 561);
    Ok(())
}

// What two operations that don't end and one that does find of pages, each of one that the operation before left
// in hand; and by how many bytes the outbox grew.
fn left_in_hand<'a, Q: Wait, R: PageReader>(
    pages: &mut Bound<'a, Q, R>,
) -> Result<([Option<u8>; 3], usize), Halt>
    requires bound { IsBound R.tells R.history R.state pages.old }
    requires part { IsOwnPart pages.old pages.old.part }
    ensures bound { IsBound R.tells R.history R.state pages.new }
    ensures locks { pages.new.locks ≡ pages.old.locks }
{
    make(pages, 7, 7)?;
    let len = pages.outbox().len();
    let first = leave_in_hand(pages, 7, 8, 8)?;
    let second = leave_in_hand(pages, 8, 9, 9)?;
    let third = look(pages, 9)?;
    Ok((
        [first, second, third],
        pages.outbox().len().saturating_sub(len),
    ))
}

// The same of a new worker, and the sum of the pages that frames keep then.
fn put_back<Q: Wait>(
    rt: &Q,
    alloc: Global,
) -> Result<(Result<([Option<u8>; 3], usize), Halt>, u32), AllocError> {
    let (locks, seat, stripe) = begin(alloc)?;
    let mut pages = Bound::new(rt, &locks, stripe, seat, NoPages);
    pages.at(0);
    let found = left_in_hand(&mut pages);
    Ok((found, sum_after(pages)))
}

#[test]
fn pages_in_hand_are_put_back_where_pages_are_made_ready_anew(rt: HostRuntime) -> Result<(), Fail> {
    let (found, sum) = put_back(&rt, rt.alloc())?;
    // no record of them
    assert_eq!(rt; found, Ok(([Some(7), Some(8), Some(9)], 0)));
    assert_eq!(rt; sum, 24);
    Ok(())
}

// Makes 20 pages, and takes out what the outbox has of them: up to which page, how many bytes that is, and how
// many are left.
fn make_and_send<'a, Q: Wait, R: PageReader>(
    pages: &mut Bound<'a, Q, R>,
) -> Result<(u32, usize, usize), Halt>
    requires bound { IsBound R.tells R.history R.state pages.old }
    requires part { IsOwnPart pages.old pages.old.part }
    ensures bound { IsBound R.tells R.history R.state pages.new }
    ensures locks { pages.new.locks ≡ pages.old.locks }
{
    let end = make_pages(pages, 21)?;
    let len = pages.outbox().len();
    pages.sent(len);
    Ok((end, len, pages.outbox().len()))
}

// The first bytes of two of the pages and of one that isn't there.
fn look_at_three<'a, Q: Wait, R: PageReader>(
    pages: &mut Bound<'a, Q, R>,
) -> Result<[Option<u8>; 3], Halt>
    requires bound { IsBound R.tells R.history R.state pages.old }
    requires part { IsOwnPart pages.old pages.old.part }
    ensures { IsBound R.tells R.history R.state pages.new }
{
    Ok([look(pages, 7)?, look(pages, 20)?, look(pages, 21)?])
}

// What a new worker makes in a round, and what it finds in the next one.
fn in_two_rounds<Q: Wait>(
    rt: &Q,
    alloc: Global,
) -> Result<
    (
        Result<(u32, usize, usize), Halt>,
        Result<[Option<u8>; 3], Halt>,
    ),
    AllocError,
> {
    let (locks, seat, stripe) = begin(alloc)?;
    let mut pages = Bound::new(rt, &locks, stripe, seat, NoPages);
    pages.at(0);
    let made = make_and_send(&mut pages);
    let (stripe, seat, reader) = pages.end();
    let mut pages = Bound::new(rt, &locks, stripe, seat, reader);
    pages.at(0);
    let found = look_at_three(&mut pages);
    let _ = pages.end();
    Ok((made, found))
}

#[test]
fn a_page_is_found_in_its_frame_in_the_next_round(rt: HostRuntime) -> Result<(), Fail> {
    let (made, found) = in_two_rounds(&rt, rt.alloc())?;
    // of each operation its line and length, the kind and length of a record, a page's name, and the page
    assert_eq!(rt; made, Ok((21, 20 * (8 + 5 + 8 + 1024), 0)));
    assert_eq!(rt; found, Ok([Some(7), Some(20), None]));
    Ok(())
}
