//! Two workers on two threads, whose frames are so few that they steal from each other.

ghost use Rattle.std.specs.Prelude.{◌≡◌, ◌<◌, OnOk, Some};
ghost use Rattle.pm_locks.specs.Sight.{LockTable};
ghost use Rattle.pm_stripe.specs.Bounds.{IsBound};
ghost use Rattle.pm_stripe.specs.Idle.{IsIdle};

use crate::bound_pages::{bind, send};
use crate::page_list::copied;
use crate::worker_pages::beginning::{SHARED, begin_two};
use crate::worker_pages::commands::{SHAPE, Step, command, is_same};
use crate::worker_pages::operations::answer;
use crate::worker_pages::plain::filled;
use crate::worker_pages::reader::ListReader;
use crate::worker_pages::stop::Stop;
use pm_disk::PageReader;
use pm_locks::{Locks, PageSeat};
use pm_model::{Line, PlainMap};
use pm_part::Part;
use pm_stripe::{Bound, Stripe};
use std::alloc::{AllocError, Global};
use std::sync::Wait;
use std::test::Fail;
use std::thread::{Threads, join_mut};

// How many operations each of the workers does.
const OPERATIONS: u32 = 100_000;

// How many rows each partition has, of 400 bytes each.
const ROWS: u32 = 1_000;

// How many of them are changed: their pages stay in their frames.
const CHANGED: u32 = 8;

// The row of the operation with this number, and what is done with it: of ten operations eight get any row, one
// puts one of few rows, and one puts or removes one.
fn step_of(number: u32) -> (u32, Step) {
    let random = number.wrapping_mul(0x9e37_79b1);
    let random = (random ^ (random >> 15)).wrapping_mul(0x85eb_ca6b);
    let random = random ^ (random >> 13);
    match random % 10 {
        0..8 => (random / 10 % ROWS, Step::Get),
        8 => (random / 10 % CHANGED, Step::Put(400)),
        _ => {
            if random & 64 == 0 {
                (random / 10 % CHANGED, Step::Remove)
            } else {
                (random / 10 % CHANGED, Step::Put(30))
            }
        }
    }
}

// Does the operation with this number, also on the map, and says whether both have the same reply. What it hands
// to the log writer is sent.
fn is_right<'a, Q: Wait, R: PageReader>(
    alloc: Global,
    pages: &mut Bound<'a, Q, R>,
    part: &Part,
    map: &mut PlainMap,
    number: u32,
) -> Result<bool, Stop>
    requires idle { IsIdle R.tells R.history R.state pages.old }
    requires shape { part.now.shape ≡ SHAPE }
    ensures bound { IsBound R.tells R.history R.state pages.new }
    ensures idle { OnOk result (IsIdle R.tells R.history R.state pages.new) }
{
    let (row, step) = step_of(number);
    let cmd = command(alloc, part.number(), row, step)?;
    let replies = answer(alloc, pages, part, &cmd, number)?;
    send(pages);
    let told = map.answer(alloc, SHAPE, Line::Good(cmd))?;
    Ok(replies.len() == 1 && is_same(replies.get(0), &told.reply))
}

// All operations of a worker. How many were answered otherwise than by the map, and more where one wasn't done.
fn operate_often<'a, Q: Wait, R: PageReader>(
    alloc: Global,
    pages: &mut Bound<'a, Q, R>,
    part: &Part,
    map: &mut PlainMap,
) -> u32
    requires idle { IsIdle R.tells R.history R.state pages.old }
    requires shape { part.now.shape ≡ SHAPE }
    ensures { IsBound R.tells R.history R.state pages.new }
{
    let mut wrong = 0u32;
    'operations: for number in 0..OPERATIONS {
        match is_right(alloc, pages, part, map, number) {
            Ok(true) => (),
            Ok(false) => wrong = wrong.saturating_add(1),
            Err(_) => return u32::MAX,
        }
    }
    wrong
}

// A worker with its seat.
#[derive(Drop)]
struct Worker {
    seat: Option<PageSeat>,
    number: u8,
    alloc: Global,
    // How many operations were answered otherwise than by a map, and how many pages were read.
    wrong: u32,
    reads: u32,
}

// What one thread does of two.
trait Work {
    ghost may_work: { Self → LockTable → Type 0 };

    fn work<Q: Wait>(&mut self, rt: &Q, locks: &Locks)
        requires { may_work self.old locks.now };
}

impl Work for Worker {
    ghost use Rattle.std.specs.Prelude.{◌≡◌, ◌<◌, IfSome, true};
    ghost use Rattle.pm_stripe.specs.declared.stripe.Stripe.{Stripe as ThisStripe};
    ghost use Rattle.pm_stripe.specs.Stripes.{kept, IsAtRest, IsNewStripe};
    ghost use Rattle.pm_bench.specs.declared.worker_pages.beginning.TheConstants.{SHARED};
    ghost use Rattle.pm_bench.specs.declared.worker_pages.commands.TheConstants.{SHAPE};

    ghost may_work = { λ worker locks. (locks.workers ≡ 2) × (worker.number < 2)
        × IfSome worker.seat (λ seat. (s : ThisStripe) → IsNewStripe worker.number SHAPE SHARED true s
        → IsAtRest locks (kept s seat)) };

    // A round with all operations.
    fn work<Q: Wait>(&mut self, rt: &Q, locks: &Locks) {
        let Some(seat) = self.seat.take() else {
            return;
        };
        let part = u16::from(self.number);
        let Ok(reader) = reader_of(self.alloc, part) else {
            return;
        };
        let Ok(mut map) = map_of(self.alloc, part) else {
            return;
        };
        let Ok(stripe) = Stripe::new(self.alloc, self.number, &SHAPE, SHARED, true) else {
            return;
        };
        let mut pages = bind(rt, locks, stripe, seat, reader, part);
        self.wrong = operate_often(self.alloc, &mut pages, &Part::new(SHAPE, part), &mut map);
        let (_, _, reader) = pages.end();
        self.reads = reader.reads();
    }
}

// Both beside each other.
fn work_beside<Q: Threads + Wait + Sync, W: Work + Send>(
    rt: &Q,
    locks: &Locks,
    one: &mut W,
    two: &mut W,
)
    requires one { W.may_work one.old locks.now }
    requires two { W.may_work two.old locks.now }
{
    join_mut(rt, &mut || one.work(rt, locks), &mut || two.work(rt, locks));
}

// The worker with this number and its seat.
fn worker_of(alloc: Global, seat: PageSeat, number: u8) -> Worker
    ensures seat { result.seat ≡ Some seat }
    ensures number { result.number ≡ number }
{
    Worker {
        seat: Some(seat),
        number,
        alloc,
        wrong: u32::MAX,
        reads: 0,
    }
}

// The rows of a partition in a map.
fn map_of(alloc: Global, part: u16) -> Result<PlainMap, AllocError> {
    let mut map = PlainMap::new(alloc);
    'rows: for row in 0..ROWS {
        let cmd = command(alloc, part, row, Step::Put(400))?;
        map.answer(alloc, SHAPE, Line::Good(cmd))?;
    }
    Ok(map)
}

// A reader of a partition with the rows.
fn reader_of(alloc: Global, part: u16) -> Result<ListReader, Stop>
    requires { part < 2 }
{
    let plain = filled(alloc, part, ROWS, 400)?;
    Ok(ListReader::new(copied(alloc, &plain)?, u32::MAX))
}

#[test]
fn two_workers_that_steal_frames_from_each_other_find_their_own_rows(
    rt: HostRuntime,
) -> Result<(), Fail> {
    let alloc = rt.alloc();
    let (locks, first, second) = begin_two(alloc)?;
    let mut one = worker_of(alloc, first, 0);
    let mut two = worker_of(alloc, second, 1);
    work_beside(&rt, &locks, &mut one, &mut two);
    assert_eq!(rt; (one.wrong, two.wrong), (0, 0));
    // by far more than the pages that there are
    assert!(rt; one.reads > 50_000 && two.reads > 50_000);
    Ok(())
}
