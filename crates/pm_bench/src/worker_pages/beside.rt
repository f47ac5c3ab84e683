//! A partition of 4,000 pages over 64 frames, read from a list and from the files of a host in memory, beside the
//! same one in a list of pages.

ghost use Rattle.std.specs.Prelude.{◌≡◌, IfOk, OnOk};
ghost use Rattle.pm_disk.specs.States.{IsUsable, MayUseAllPages};
ghost use Rattle.pm_pages.specs.Paged.{AllReadable};
ghost use Rattle.pm_pages.specs.Plain.{plain_seen, ArePlain};
ghost use Rattle.pm_part.specs.Commands.{IsPartCmd};
ghost use Rattle.pm_stripe.specs.Bounds.{IsBound};
ghost use Rattle.pm_stripe.specs.Idle.{IsIdle};

use crate::bound_pages::bind;
use crate::page_list::copied;
use crate::worker_pages::beginning::begin;
use crate::worker_pages::commands::{SHAPE, Step, are_same, command};
use crate::worker_pages::host_files::host_with;
use crate::worker_pages::operations::{answer, look};
use crate::worker_pages::plain::{answer_plain, filled};
use crate::worker_pages::reader::ListReader;
use crate::worker_pages::records::Logged;
use crate::worker_pages::stop::Stop;
use pm_disk::PageReader;
use pm_model::Cmd;
use pm_pages::PlainPages;
use pm_part::Part;
use pm_stripe::{Bound, Halt};
use std::alloc::{AllocError, Global};
use std::sync::Wait;
use std::test::Fail;

// How many rows the partition has at first, each on a page of its own.
const ROWS: u32 = 3_700;

// Does a command on both sides. It differs where the replies do.
fn agree<'a, Q: Wait, R: PageReader>(
    alloc: Global,
    pages: &mut Bound<'a, Q, R>,
    plain: &mut PlainPages,
    part: &Part,
    cmd: &Cmd,
    line: u32,
) -> Result<(), Stop>
    requires idle { IsIdle R.tells R.history R.state pages.old }
    requires plain { ArePlain plain.old }
    requires readable { AllReadable (plain_seen plain.old) }
    requires cmd { IsPartCmd part.now.shape part.now.part cmd.now }
    ensures bound { IsBound R.tells R.history R.state pages.new }
    ensures idle { OnOk result (IsIdle R.tells R.history R.state pages.new) }
    ensures plain { ArePlain plain.new }
    ensures readable { AllReadable (plain_seen plain.new) }
{
    let mine = answer(alloc, pages, part, cmd, line)?;
    let theirs = answer_plain(alloc, plain, part, cmd)?;
    if are_same(&mine, &theirs) {
        Ok(())
    } else {
        Err(Stop::Differs)
    }
}

// Gets each row, and one that isn't there, on both sides.
fn gets_agree<'a, Q: Wait, R: PageReader>(
    alloc: Global,
    pages: &mut Bound<'a, Q, R>,
    plain: &mut PlainPages,
) -> Result<(), Stop>
    requires idle { IsIdle R.tells R.history R.state pages.old }
    requires plain { ArePlain plain.old }
    requires readable { AllReadable (plain_seen plain.old) }
    ensures bound { IsBound R.tells R.history R.state pages.new }
    ensures idle { OnOk result (IsIdle R.tells R.history R.state pages.new) }
    ensures plain { ArePlain plain.new }
    ensures readable { AllReadable (plain_seen plain.new) }
{
    let part = Part::new(SHAPE, 0);
    'rows: for row in 0..ROWS + 1 {
        let cmd = command(alloc, 0, row, Step::Get)?;
        agree(alloc, pages, plain, &part, &cmd, row)?;
    }
    Ok(())
}

/// Looks at each page. It differs where one has other bytes than the plain one.
pub fn pages_agree<'a, Q: Wait, R: PageReader>(
    pages: &mut Bound<'a, Q, R>,
    plain: &PlainPages,
) -> Result<(), Stop>
    requires idle { IsIdle R.tells R.history R.state pages.old }
    ensures bound { IsBound R.tells R.history R.state pages.new }
    ensures idle { OnOk result (IsIdle R.tells R.history R.state pages.new) }
{
    'pages: for index in 0..u32::try_from(plain.len()).unwrap_or(0) {
        if let Some(bytes) = plain.page(index) {
            if !look(pages, index, bytes)? {
                return Err(Stop::Differs);
            }
        }
    }
    Ok(())
}

// The change with this number: rows are put anew, with as long a value or another one, and removed.
fn change_of(alloc: Global, number: u32) -> Result<Cmd, AllocError>
    ensures { IfOk result (IsPartCmd SHAPE 0) }
{
    match number % 4 {
        0 => command(alloc, 0, 17, Step::Put(900)),
        1 => command(alloc, 0, 17, Step::Put(30)),
        2 => command(alloc, 0, ROWS.saturating_add(number), Step::Put(40)),
        _ => command(alloc, 0, number, Step::Remove),
    }
}

// Changes rows on both sides until a change can't begin, and counts those that were done. After each the pages
// are alike, and the outbox has the operations that the plain pages' patches make.
fn changes_agree<'a, Q: Wait, R: PageReader>(
    alloc: Global,
    pages: &mut Bound<'a, Q, R>,
    plain: &mut PlainPages,
    done: &mut u32,
) -> Result<(), Stop>
    requires idle { IsIdle R.tells R.history R.state pages.old }
    requires plain { ArePlain plain.old }
    requires readable { AllReadable (plain_seen plain.old) }
    ensures bound { IsBound R.tells R.history R.state pages.new }
{
    let part = Part::new(SHAPE, 0);
    let mut logged = Logged::new(alloc);
    'changes: for number in 0..1_000 {
        let cmd = change_of(alloc, number)?;
        agree(alloc, pages, plain, &part, &cmd, number)?;
        logged.add(alloc, number, plain)?;
        if pages.outbox() != logged.bytes.as_slice() {
            return Err(Stop::Differs);
        }
        *done = number.saturating_add(1);
        pages_agree(pages, plain)?;
    }
    Ok(())
}

// Gets all rows, and then changes some until a change can't begin.
fn sides_agree<'a, Q: Wait, R: PageReader>(
    alloc: Global,
    pages: &mut Bound<'a, Q, R>,
    plain: &mut PlainPages,
    done: &mut u32,
) -> Result<(), Stop>
    requires idle { IsIdle R.tells R.history R.state pages.old }
    requires plain { ArePlain plain.old }
    requires readable { AllReadable (plain_seen plain.old) }
    ensures bound { IsBound R.tells R.history R.state pages.new }
{
    gets_agree(alloc, pages, plain)?;
    pages_agree(pages, plain)?;
    changes_agree(alloc, pages, plain, done)
}

// What came of the changes: how they ended, how many were done, and the reader.
#[derive(Drop)]
struct Outcome<R> {
    ended: Result<(), Stop>,
    done: u32,
    reader: R,
}

// Binds a stripe over 64 frames to what reads the partition's pages, and lets both sides do the same.
fn over_few_frames<Q: Wait, R: PageReader + Drop>(
    rt: &Q,
    alloc: Global,
    reader: R,
    plain: &mut PlainPages,
) -> Result<Outcome<R>, AllocError>
    requires usable { IsUsable (R.state reader) }
    requires pages { MayUseAllPages (R.state reader) }
    requires plain { ArePlain plain.old }
    requires readable { AllReadable (plain_seen plain.old) }
{
    let (locks, seat, stripe) = begin(alloc)?;
    let mut done = 0;
    let mut pages = bind(rt, &locks, stripe, seat, reader, 0);
    let ended = sides_agree(alloc, &mut pages, plain, &mut done);
    let (_, _, reader) = pages.end();
    Ok(Outcome {
        ended,
        done,
        reader,
    })
}

#[test]
fn a_partition_over_few_frames_is_as_one_in_memory(rt: HostRuntime) -> Result<(), Fail> {
    let alloc = rt.alloc();
    let Ok(mut plain) = filled(alloc, 0, ROWS, 900) else {
        return Ok(assert!(rt; false));
    };
    assert!(rt; plain.len() > 4_000);
    let reader = ListReader::new(copied(alloc, &plain)?, u32::MAX);
    let outcome = over_few_frames(&rt, alloc, reader, &mut plain)?;
    assert_eq!(rt; outcome.ended, Err(Stop::Halted(Halt::NoFrame(64))));
    assert!(rt; outcome.done > 10);
    assert!(rt; outcome.reader.reads() > 50_000);
    Ok(())
}

#[test]
fn a_partition_in_the_files_of_a_host_is_as_one_in_memory(rt: HostRuntime) -> Result<(), Fail> {
    let alloc = rt.alloc();
    let Ok(mut plain) = filled(alloc, 0, ROWS, 900) else {
        return Ok(assert!(rt; false));
    };
    let Ok(reader) = host_with(alloc, &plain) else {
        return Ok(assert!(rt; false));
    };
    let stored = reader.calls();
    assert!(rt; stored > 4_000);
    let outcome = over_few_frames(&rt, alloc, reader, &mut plain)?;
    assert_eq!(rt; outcome.ended, Err(Stop::Halted(Halt::NoFrame(64))));
    assert!(rt; outcome.done > 10);
    // its calls since then are reads
    assert!(rt; outcome.reader.calls().saturating_sub(stored) > 50_000);
    Ok(())
}
