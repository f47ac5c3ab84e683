//! A reader that fails at each place of an operation.

ghost use Rattle.std.specs.Prelude.{◌≡◌};
ghost use Rattle.pm_pages.specs.Paged.{AllReadable};
ghost use Rattle.pm_pages.specs.Plain.{plain_seen, ArePlain};
ghost use Rattle.pm_part.specs.Commands.{IsPartCmd};
ghost use Rattle.pm_stripe.specs.Begins.{IsOwnPart};
ghost use Rattle.pm_stripe.specs.Bounds.{IsBound};
ghost use Rattle.pm_stripe.specs.Idle.{IsIdle};
ghost use Rattle.pm_stripe.specs.Shown.{shown};

use crate::bound_pages::bind;
use crate::page_list::copied;
use crate::worker_pages::beginning::begin;
use crate::worker_pages::commands::{SHAPE, Step, are_same, command};
use crate::worker_pages::operations::answer;
use crate::worker_pages::plain::{answer_plain, filled};
use crate::worker_pages::reader::ListReader;
use crate::worker_pages::stop::Stop;
use pm_disk::PageReader;
use pm_locks::Locks;
use pm_model::{Cmd, Replies};
use pm_pages::PlainPages;
use pm_part::Part;
use pm_stripe::Bound;
use pm_types::Page;
use std::alloc::{AllocError, Global};
use std::sync::Wait;
use std::test::Fail;

// Ends the round after an operation that may have failed, and begins another one.
fn begin_again<'a, Q: Wait, R: PageReader>(
    rt: &'a Q,
    locks: &'a Locks,
    pages: Bound<'a, Q, R>,
) -> Bound<'a, Q, R>
    requires bound { IsBound R.tells R.history R.state pages }
    requires readable { AllReadable (shown R.history R.state pages) }
    requires own { IsOwnPart pages pages.part }
    requires first { pages.part ≡ 0 }
    requires locks { pages.locks.now ≡ locks.now }
    ensures { IsIdle R.tells R.history R.state result }
{
    let (stripe, seat, reader) = pages.end();
    let mut pages = Bound::new(rt, locks, stripe, seat, reader);
    pages.at(0);
    pages
}

// What became of a command over a reader that fails once.
#[derive(Clone, Copy)]
enum Tried {
    // No read failed. Whether it had the wanted reply.
    Answered(bool),
    // It failed. Whether it had the wanted reply when it was done again.
    Failed(bool),
    // It couldn't begin, or it failed and handed over something nevertheless.
    Wrong,
}

// Does a command over a reader that fails once, and then once more.
fn retry<'a, Q: Wait, R: PageReader + Drop>(
    rt: &'a Q,
    locks: &'a Locks,
    alloc: Global,
    pages: Bound<'a, Q, R>,
    cmd: &Cmd,
    wanted: &Replies,
) -> Tried
    requires idle { IsIdle R.tells R.history R.state pages }
    requires first { pages.part ≡ 0 }
    requires locks { pages.locks.now ≡ locks.now }
    requires cmd { IsPartCmd SHAPE 0 cmd.now }
{
    let part = Part::new(SHAPE, 0);
    let mut pages = pages;
    let first = answer(alloc, &mut pages, &part, cmd, 1);
    let hands_none = pages.outbox().is_empty();
    let mut pages = begin_again(rt, locks, pages);
    let second = answer(alloc, &mut pages, &part, cmd, 2);
    pages.end();
    match first {
        Ok(replies) => Tried::Answered(are_same(&replies, wanted)),
        Err(Stop::Failed) if hands_none => Tried::Failed(is_wanted(second, wanted)),
        Err(_) => Tried::Wrong,
    }
}

// Whether it is this reply.
fn is_wanted(replies: Result<Replies, Stop>, wanted: &Replies) -> bool {
    match replies {
        Ok(replies) => are_same(&replies, wanted),
        Err(_) => false,
    }
}

// The same, of a new stripe over these pages, whose read with this number fails.
fn try_pages<Q: Wait>(
    rt: &Q,
    alloc: Global,
    list: Vec<Page>,
    failing: u32,
    cmd: &Cmd,
    wanted: &Replies,
) -> Result<Tried, AllocError>
    requires { IsPartCmd SHAPE 0 cmd.now }
{
    let (locks, seat, stripe) = begin(alloc)?;
    let pages = bind(rt, &locks, stripe, seat, ListReader::new(list, failing), 0);
    Ok(retry(rt, &locks, alloc, pages, cmd, wanted))
}

// The pages, each copied.
fn copies(alloc: Global, pages: &[Page]) -> Result<Vec<Page>, AllocError> {
    let mut all = Vec::new(alloc);
    for page in pages {
        let bytes = Vec::from_slice(alloc, &page.bytes)?;
        all.push(Page { bytes })?;
    }
    Ok(all)
}

// Does a command with a failure at each of its reads, and then on the plain pages. How many reads it has; none
// where it was answered otherwise than on the plain pages, didn't fail, or failed and handed over something. A
// look-up is answered so too when it is done again; a change may be half done where it failed.
fn fail_everywhere<Q: Wait>(
    rt: &Q,
    alloc: Global,
    plain: &mut PlainPages,
    row: u32,
    step: Step,
) -> Result<Option<u32>, Stop>
    requires plain { ArePlain plain.old }
    requires readable { AllReadable (plain_seen plain.old) }
    ensures plain { ArePlain plain.new }
    ensures readable { AllReadable (plain_seen plain.new) }
{
    let is_get = matches!(step, Step::Get);
    let cmd = command(alloc, 0, row, step)?;
    let list = copied(alloc, plain)?;
    let part = Part::new(SHAPE, 0);
    let wanted = answer_plain(alloc, plain, &part, &cmd)?;
    'places: for failing in 0..40 {
        match try_pages(rt, alloc, copies(alloc, &list)?, failing, &cmd, &wanted)? {
            Tried::Answered(true) => return Ok(Some(failing)),
            Tried::Failed(is_same) => {
                if is_get && !is_same {
                    return Ok(None);
                }
            }
            _ => return Ok(None),
        }
    }
    Ok(None)
}

// Fails each read of some commands. Whether each has at least three: of the meta page, of a page of the tree, and
// of the row's page or another page of the tree.
fn fail_each<Q: Wait>(rt: &Q, alloc: Global) -> Result<bool, Stop> {
    let mut plain = filled(alloc, 0, 300, 400)?;
    let rows = [
        (7, Step::Get),
        (900, Step::Get),
        (7, Step::Put(400)),
        (8, Step::Put(900)),
        (901, Step::Put(400)),
        (9, Step::Remove),
    ];
    'rows: for (row, step) in rows {
        match fail_everywhere(rt, alloc, &mut plain, row, step)? {
            Some(3..) => (),
            _ => return Ok(false),
        }
    }
    Ok(true)
}

#[test]
fn an_operation_fails_at_each_read_and_a_look_up_is_done_again(
    rt: HostRuntime,
) -> Result<(), Fail> {
    assert_eq!(rt; fail_each(&rt, rt.alloc()), Ok(true));
    Ok(())
}
