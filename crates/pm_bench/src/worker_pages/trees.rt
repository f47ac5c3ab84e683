//! A tree of 4,000 pages over 64 frames, read from the files of a host in memory, beside the same one in a list
//! of pages.

ghost use Rattle.std.specs.Prelude.{◌≡◌, IfOk, OnOk};
ghost use Rattle.pm_disk.specs.States.{IsUsable, MayUseAllPages};
ghost use Rattle.pm_pages.specs.Paged.{AllReadable};
ghost use Rattle.pm_pages.specs.Plain.{plain_seen, ArePlain};
ghost use Rattle.pm_stripe.specs.Bounds.{IsBound};
ghost use Rattle.pm_stripe.specs.Idle.{IsIdle};

use crate::bound_pages::bind;
use crate::worker_pages::beginning::begin;
use crate::worker_pages::host_files::{host_with, store_logged};
use crate::worker_pages::records::Logged;
use crate::worker_pages::stop::Stop;
use crate::worker_pages::tree_changes::with_tree;
use crate::worker_pages::trees_agree::{CHANGES, changes_agree, finds_agree, walks_agree};
use pm_disk::{Host, PageReader};
use pm_pages::PlainPages;
use pm_stripe::Bound;
use std::alloc::{AllocError, Global};
use std::sync::Wait;
use std::test::Fail;

// What came of a round: how it ended, which pages the log had, and the reader.
#[derive(Drop)]
struct Round<R> {
    ended: Result<(), Stop>,
    logged: Logged,
    reader: R,
}

// Looks for keys and walks down to some, if that is asked for, and then does changes.
fn sides_agree<'a, Q: Wait, R: PageReader>(
    alloc: Global,
    pages: &mut Bound<'a, Q, R>,
    plain: &mut PlainPages,
    logged: &mut Logged,
    next: &mut u32,
) -> Result<(), Stop>
    requires idle { IsIdle R.tells R.history R.state pages.old }
    requires plain { ArePlain plain.old }
    requires readable { AllReadable (plain_seen plain.old) }
    ensures bound { IsBound R.tells R.history R.state pages.new }
    ensures plain { ArePlain plain.new }
    ensures readable { AllReadable (plain_seen plain.new) }
{
    if *next == 0 {
        finds_agree(alloc, pages, plain)?;
        walks_agree(alloc, pages, plain)?;
    }
    changes_agree(alloc, pages, plain, logged, next)
}

// A round of a worker whose stripe has 64 frames and no page yet: both sides do the same, from this change on.
fn make_round<Q: Wait, R: PageReader + Drop>(
    rt: &Q,
    alloc: Global,
    reader: R,
    plain: &mut PlainPages,
    next: &mut u32,
) -> Result<Round<R>, AllocError>
    requires usable { IsUsable (R.state reader) }
    requires pages { MayUseAllPages (R.state reader) }
    requires plain { ArePlain plain.old }
    requires readable { AllReadable (plain_seen plain.old) }
    ensures usable { IfOk result (λ done. IsUsable (R.state done.reader)) }
    ensures plain { ArePlain plain.new }
    ensures readable { AllReadable (plain_seen plain.new) }
{
    let (locks, seat, stripe) = begin(alloc)?;
    let mut logged = Logged::new(alloc);
    let mut pages = bind(rt, &locks, stripe, seat, reader, 0);
    let ended = sides_agree(alloc, &mut pages, plain, &mut logged, next);
    let (_, _, reader) = pages.end();
    Ok(Round {
        ended,
        logged,
        reader,
    })
}

// Rounds until all changes are done. At the end of each the pages that the log had are written to the host's
// files, as by a checkpoint, and the next round has no page in its frames. How many rounds there were.
fn rounds<Q: Wait, H: Host + Drop>(
    rt: &Q,
    alloc: Global,
    host: H,
    plain: &mut PlainPages,
) -> Result<u32, Stop>
    requires usable { IsUsable (H.Device.state host) }
    requires plain { ArePlain plain.old }
    requires readable { AllReadable (plain_seen plain.old) }
{
    let mut next = 0;
    let mut host = host;
    'rounds: for number in 0..CHANGES {
        if next == CHANGES {
            return Ok(number);
        }
        host = round_and_store(rt, alloc, host, plain, &mut next)?;
    }
    Err(Stop::Differs)
}

// A round, at whose end the pages that the log had are written.
fn round_and_store<Q: Wait, H: Host + Drop>(
    rt: &Q,
    alloc: Global,
    host: H,
    plain: &mut PlainPages,
    next: &mut u32,
) -> Result<H, Stop>
    requires usable { IsUsable (H.Device.state host) }
    requires plain { ArePlain plain.old }
    requires readable { AllReadable (plain_seen plain.old) }
    ensures usable { IfOk result (λ host. IsUsable (H.Device.state host)) }
    ensures plain { ArePlain plain.new }
    ensures readable { AllReadable (plain_seen plain.new) }
{
    let done = make_round(rt, alloc, host, plain, next)?;
    done.ended?;
    let mut host = done.reader;
    store_logged(&mut host, plain, &done.logged)?;
    Ok(host)
}

#[test]
fn a_tree_in_the_files_of_a_host_is_as_one_in_memory(rt: HostRuntime) -> Result<(), Fail> {
    let alloc = rt.alloc();
    let Ok(mut plain) = with_tree(alloc) else {
        return Ok(assert!(rt; false));
    };
    let Ok(host) = host_with(alloc, &plain) else {
        return Ok(assert!(rt; false));
    };
    let rounds = rounds(&rt, alloc, host, &mut plain);
    assert!(rt; matches!(rounds, Ok(10..)), "{rounds:?}");
    assert!(rt; plain.len() > 4_000, "{}", plain.len());
    Ok(())
}
