//! Rounds of one operation each: pages stay in their frames from one to the next.

ghost use Rattle.std.specs.Prelude.{◌≡◌};
ghost use Rattle.pm_stripe.specs.Begins.{IsOwnPart};
ghost use Rattle.pm_stripe.specs.Bounds.{IsBound};

use crate::page_list::copied;
use crate::worker_pages::beginning::begin;
use crate::worker_pages::page_steps::look;
use crate::worker_pages::plain::filled;
use crate::worker_pages::reader::ListReader;
use crate::worker_pages::stop::Stop;
use pm_disk::PageReader;
use pm_locks::Locks;
use pm_stripe::Bound;
use std::alloc::Global;
use std::sync::Wait;
use std::test::Fail;

// Ends a round, and begins another one on the first partition.
fn next_round<'a, Q: Wait, R: PageReader>(
    rt: &'a Q,
    locks: &'a Locks,
    pages: Bound<'a, Q, R>,
) -> Bound<'a, Q, R>
    requires bound { IsBound R.tells R.history R.state pages }
    requires own { IsOwnPart pages 0 }
    requires locks { pages.locks.now ≡ locks.now }
    ensures bound { IsBound R.tells R.history R.state result }
    ensures own { IsOwnPart result 0 }
    ensures part { result.part ≡ 0 }
    ensures locks { result.locks.now ≡ locks.now }
{
    let (stripe, seat, reader) = pages.end();
    let mut pages = Bound::new(rt, locks, stripe, seat, reader);
    pages.at(0);
    pages
}

// Looks at one of ten pages in each round, one after the other.
fn look_in_rounds<'a, Q: Wait, R: PageReader>(
    rt: &'a Q,
    locks: &'a Locks,
    pages: Bound<'a, Q, R>,
    rounds: u32,
) -> Bound<'a, Q, R>
    requires bound { IsBound R.tells R.history R.state pages }
    requires own { IsOwnPart pages 0 }
    requires part { pages.part ≡ 0 }
    requires locks { pages.locks.now ≡ locks.now }
    ensures { IsBound R.tells R.history R.state result }
{
    let mut pages = pages;
    'rounds: for round in 0..rounds {
        let _ = look(&mut pages, round % 10);
        pages = next_round(rt, locks, pages);
    }
    pages
}

// How many reads so many rounds have.
fn reads_of<Q: Wait>(rt: &Q, alloc: Global, rounds: u32) -> Result<u32, Stop> {
    let plain = filled(alloc, 0, 30, 400)?;
    let list = copied(alloc, &plain)?;
    let (locks, seat, stripe) = begin(alloc)?;
    let mut pages = Bound::new(rt, &locks, stripe, seat, ListReader::new(list, u32::MAX));
    pages.at(0);
    let pages = look_in_rounds(rt, &locks, pages, rounds);
    let (_, _, reader) = pages.end();
    Ok(reader.reads())
}

// Of 64 frames each round takes 32 in hand. Were they others each time, a page would be given up two rounds later.
#[test]
fn rounds_of_one_operation_read_each_page_once(rt: HostRuntime) -> Result<(), Fail> {
    assert_eq!(rt; reads_of(&rt, rt.alloc(), 10), Ok(10));
    assert_eq!(rt; reads_of(&rt, rt.alloc(), 200), Ok(10));
    Ok(())
}
