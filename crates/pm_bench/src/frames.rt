//! Operations on a partition over a worker's page frames.

ghost use Rattle.std.specs.Prelude.{◌≡◌, ◌≤◌, IfOk, OnOk};
ghost use Rattle.std.specs.FinMap as map;
ghost use Rattle.pm_pages.specs.Paged.{AllReadable};
ghost use Rattle.pm_pages.specs.Plain.{plain_seen, ArePlain};
ghost use Rattle.pm_part.specs.Commands.{IsPartCmd};
ghost use Rattle.pm_stripe.specs.Bounds.{IsBound};
ghost use Rattle.pm_stripe.specs.Idle.{IsIdle};
ghost use Rattle.pm_stripe.specs.Stripes.{kept, IsAtRest};

use crate::bound_pages::{bind, operate, run_over, send};
use crate::operations::{SHAPE, command, get_of, put_of, told_by};
use crate::page_list::{PageList, copied};
use pm_disk::PageReader;
use pm_locks::{Locks, PageSeat};
use pm_model::{Cmd, Replies};
use pm_pages::PlainPages;
use pm_part::Part;
use pm_region::Region;
use pm_stripe::{Bound, Stripe};
use pm_types::Page;
use std::alloc::{AllocError, Global};
use std::sync::Wait;

/// How many frames hold all pages of so many operations, and what one operation needs besides.
fn frames_for(count: u32) -> u32
    ensures some { 128 ≤ result }
    ensures few { result ≤ 65536 }
{
    (count / 75).saturating_add(128).min(65_536)
}

/// The operations, made alone, beside frames for them.
pub fn commands(alloc: Global, count: u32) -> Result<u64, AllocError> {
    let _begun = begin(alloc, frames_for(count))?;
    crate::operations::commands(alloc, count)
}

/// The operations, over frames that hold all pages.
pub fn mixed<Q: Wait>(rt: &Q, alloc: Global, count: u32) -> Result<u64, AllocError> {
    let (locks, seat, stripe) = begin(alloc, frames_for(count))?;
    let mut pages = bind(rt, &locks, stripe, seat, PageList::new(Vec::new(alloc)), 0);
    let sum = mix(alloc, &mut pages, count);
    pages.end();
    sum
}

/// So many look-ups of the keys of a partition that is read from a list of its pages, over frames for all pages
/// or for a tenth of them: how many pages are read.
pub fn gets<Q: Wait>(rt: &Q, alloc: Global, count: u32, few: bool) -> Result<u64, AllocError> {
    let list = filled(alloc, count)?;
    let pages = u32::try_from(list.len()).unwrap_or(0);
    let (locks, seat, stripe) = begin(alloc, frames_of(pages, few))?;
    let mut pages = bind(rt, &locks, stripe, seat, PageList::new(list), 0);
    let done = look_up(alloc, &mut pages, count);
    let (_, _, reader) = pages.end();
    done?;
    Ok(reader.reads())
}

// How many frames hold so many pages or a tenth of them, and what one operation needs besides.
fn frames_of(pages: u32, few: bool) -> u32
    ensures some { 128 ≤ result }
    ensures most { result ≤ 65536 }
{
    let held = if few { pages / 10 } else { pages };
    held.saturating_add(128).min(65_536)
}

// Locks for so many frames, the seat of all their numbers, and a stripe that keeps no page yet.
fn begin(alloc: Global, frames: u32) -> Result<(Locks, PageSeat, Stripe), AllocError>
    requires some { 128 ≤ frames }
    requires few { frames ≤ 65536 }
    ensures rest { IfOk result (λ r. IsAtRest r.0 (kept r.2 r.1)) }
    ensures one { IfOk result (λ r. r.0.workers ≡ 1) }
    ensures own { IfOk result (λ r. (r.2.number ≡ 0) × (r.2.shape ≡ SHAPE)) }
    ensures new { IfOk result (λ r. r.2.places.table.entries ≡ map.empty) }
{
    let (_region, leases) = Region::new(alloc, frames, 4096)?;
    let Ok((locks, seat)) = Locks::start(alloc, leases, 1) else {
        return Err(AllocError);
    };
    let stripe = Stripe::new(alloc, 0, &SHAPE, frames, true)?;
    Ok((locks, seat, stripe))
}

// Does a command, and gives what its reply tells.
fn answer<'a, Q: Wait, R: PageReader>(
    alloc: Global,
    pages: &mut Bound<'a, Q, R>,
    part: &Part,
    cmd: &Cmd,
) -> Result<u64, AllocError>
    requires idle { IsIdle R.tells R.history R.state pages.old }
    requires cmd { IsPartCmd part.now.shape part.now.part cmd.now }
    ensures bound { IsBound R.tells R.history R.state pages.new }
    ensures idle { OnOk result (IsIdle R.tells R.history R.state pages.new) }
{
    let mut replies = Replies::with_room(alloc, 1)?;
    match operate(pages, part, cmd, &mut replies, 0) {
        Ok(true) => (),
        _ => return Err(AllocError),
    }
    send(pages);
    if replies.len() == 0 {
        return Ok(0);
    }
    Ok(told_by(replies.get(0)))
}

// The operations.
fn mix<'a, Q: Wait, R: PageReader>(
    alloc: Global,
    pages: &mut Bound<'a, Q, R>,
    count: u32,
) -> Result<u64, AllocError>
    requires { IsIdle R.tells R.history R.state pages.old }
    ensures { IsBound R.tells R.history R.state pages.new }
{
    let part = Part::new(SHAPE, 0);
    let mut sum = 0u64;
    'operations: for i in 0..count {
        let cmd = command(alloc, i, count)?;
        sum = sum.wrapping_add(answer(alloc, pages, &part, &cmd)?);
    }
    Ok(sum)
}

// Look-ups of the keys.
fn look_up<'a, Q: Wait, R: PageReader>(
    alloc: Global,
    pages: &mut Bound<'a, Q, R>,
    count: u32,
) -> Result<u64, AllocError>
    requires { IsIdle R.tells R.history R.state pages.old }
    ensures { IsBound R.tells R.history R.state pages.new }
{
    let part = Part::new(SHAPE, 0);
    let mut sum = 0u64;
    'gets: for i in 0..count {
        let cmd = get_of(alloc, i, count)?;
        sum = sum.wrapping_add(answer(alloc, pages, &part, &cmd)?);
    }
    Ok(sum)
}

// The pages of a partition with a fourth as many keys.
fn filled(alloc: Global, count: u32) -> Result<Vec<Page>, AllocError> {
    let mut pages = PlainPages::new(alloc, &SHAPE, 0)?;
    let part = Part::new(SHAPE, 0);
    'keys: for number in 0..count / 4 + 1 {
        let cmd = put_of(alloc, number)?;
        pages.ready(alloc)?;
        let mut replies = Replies::with_room(alloc, 1)?;
        run_over(&mut pages, &part, &cmd, &mut replies);
    }
    copied(alloc, &pages)
}
