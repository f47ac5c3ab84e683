//! Steps on a tree over a worker's page frames, and the same ones in a list of pages.

ghost use Rattle.std.specs.Prelude.{◌≡◌, OnOk};
ghost use Rattle.pm_pages.specs.Paged.{AllReadable};
ghost use Rattle.pm_pages.specs.Plain.{plain_seen, ArePlain};
ghost use Rattle.pm_stripe.specs.Bounds.{IsBound};
ghost use Rattle.pm_stripe.specs.Idle.{IsIdle};

use crate::bound_pages::send;
use crate::worker_pages::beside::pages_agree;
use crate::worker_pages::records::Logged;
use crate::worker_pages::stop::Stop;
use crate::worker_pages::tree_changes::{KEYS, STRIDE, change_of, link_of};
use crate::worker_pages::tree_steps::{Told, TreeStep, step_bound, step_plain};
use pm_disk::PageReader;
use pm_pages::PlainPages;
use pm_stripe::Bound;
use pm_tree::Place;
use std::alloc::Global;
use std::sync::Wait;

// More Dirty pages than this, and a round ends: with those of one operation more they leave 32 of 64 frames.
const DIRTY: u32 = 20;

/// How many changes there are.
pub const CHANGES: u32 = 1_200;

// How many keys are looked for.
const FINDS: u32 = 10_000;

// The walks go to each key after so many.
const WALK: u32 = 20;

// Does a step on both sides, and gives what both found. It differs where they found different things.
fn agree<'a, Q: Wait, R: PageReader>(
    alloc: Global,
    pages: &mut Bound<'a, Q, R>,
    plain: &mut PlainPages,
    number: u32,
    step: TreeStep,
    line: u32,
) -> Result<Told, Stop>
    requires idle { IsIdle R.tells R.history R.state pages.old }
    requires plain { ArePlain plain.old }
    requires readable { AllReadable (plain_seen plain.old) }
    ensures bound { IsBound R.tells R.history R.state pages.new }
    ensures idle { OnOk result (IsIdle R.tells R.history R.state pages.new) }
    ensures plain { ArePlain plain.new }
    ensures readable { AllReadable (plain_seen plain.new) }
{
    let key = number.to_be_bytes();
    let mine = step_bound(pages, &key, step, line)?;
    let theirs = step_plain(alloc, plain, &key, step)?;
    if mine == theirs {
        Ok(mine)
    } else {
        Err(Stop::Differs)
    }
}

// Looks for a key on both sides. It differs where it isn't as when the tree was made.
fn find_agrees<'a, Q: Wait, R: PageReader>(
    alloc: Global,
    pages: &mut Bound<'a, Q, R>,
    plain: &mut PlainPages,
    number: u32,
) -> Result<(), Stop>
    requires idle { IsIdle R.tells R.history R.state pages.old }
    requires plain { ArePlain plain.old }
    requires readable { AllReadable (plain_seen plain.old) }
    ensures bound { IsBound R.tells R.history R.state pages.new }
    ensures idle { OnOk result (IsIdle R.tells R.history R.state pages.new) }
    ensures plain { ArePlain plain.new }
    ensures readable { AllReadable (plain_seen plain.new) }
{
    let is_there = number % 2 == 0 && number / 2 < KEYS;
    let wanted = if is_there {
        Some(link_of(number))
    } else {
        None
    };
    if agree(alloc, pages, plain, number, TreeStep::Find, number)? == Told::Had(wanted) {
        Ok(())
    } else {
        Err(Stop::Differs)
    }
}

/// Looks for keys that are there and for others between them, in a mixed order.
pub fn finds_agree<'a, Q: Wait, R: PageReader>(
    alloc: Global,
    pages: &mut Bound<'a, Q, R>,
    plain: &mut PlainPages,
) -> Result<(), Stop>
    requires idle { IsIdle R.tells R.history R.state pages.old }
    requires plain { ArePlain plain.old }
    requires readable { AllReadable (plain_seen plain.old) }
    ensures bound { IsBound R.tells R.history R.state pages.new }
    ensures idle { OnOk result (IsIdle R.tells R.history R.state pages.new) }
    ensures plain { ArePlain plain.new }
    ensures readable { AllReadable (plain_seen plain.new) }
{
    'keys: for i in 0..FINDS {
        find_agrees(alloc, pages, plain, i.wrapping_mul(STRIDE) % (KEYS * 2))?;
    }
    Ok(())
}

// Walks from this page of the tree down to a key's leaf on both sides, a page at a time. It differs where the
// key isn't in a leaf at most eight levels below.
fn walk_agrees<'a, Q: Wait, R: PageReader>(
    alloc: Global,
    pages: &mut Bound<'a, Q, R>,
    plain: &mut PlainPages,
    number: u32,
    root: u32,
) -> Result<(), Stop>
    requires idle { IsIdle R.tells R.history R.state pages.old }
    requires plain { ArePlain plain.old }
    requires readable { AllReadable (plain_seen plain.old) }
    ensures bound { IsBound R.tells R.history R.state pages.new }
    ensures idle { OnOk result (IsIdle R.tells R.history R.state pages.new) }
    ensures plain { ArePlain plain.new }
    ensures readable { AllReadable (plain_seen plain.new) }
{
    let mut at = root;
    'levels: for _ in 0..8 {
        let told = agree(alloc, pages, plain, number, TreeStep::Place(at), number)?;
        let Some(child) = below(told, number)? else {
            return Ok(());
        };
        at = child;
    }
    Err(Stop::Differs)
}

// The child where the walk to a key goes on, if it does. It differs where the key isn't there with its link.
fn below(told: Told, number: u32) -> Result<Option<u32>, Stop> {
    match told {
        Told::Place(Place::Below(_, child)) => Ok(Some(child)),
        Told::Place(Place::Held(_, word)) if word == link_of(number).0 => Ok(None),
        _ => Err(Stop::Differs),
    }
}

/// Walks from the root down to each twentieth key.
pub fn walks_agree<'a, Q: Wait, R: PageReader>(
    alloc: Global,
    pages: &mut Bound<'a, Q, R>,
    plain: &mut PlainPages,
) -> Result<(), Stop>
    requires idle { IsIdle R.tells R.history R.state pages.old }
    requires plain { ArePlain plain.old }
    requires readable { AllReadable (plain_seen plain.old) }
    ensures bound { IsBound R.tells R.history R.state pages.new }
    ensures idle { OnOk result (IsIdle R.tells R.history R.state pages.new) }
    ensures plain { ArePlain plain.new }
    ensures readable { AllReadable (plain_seen plain.new) }
{
    let Told::Root(root) = agree(alloc, pages, plain, 0, TreeStep::Root, 0)? else {
        return Err(Stop::Differs);
    };
    'keys: for i in 0..KEYS / WALK {
        walk_agrees(alloc, pages, plain, i.wrapping_mul(2 * WALK), root)?;
    }
    Ok(())
}

// Does the change with this number on both sides. It differs also where it doesn't hand over the operation that
// the plain pages' patches make. What it hands over is sent.
fn change_agrees<'a, Q: Wait, R: PageReader>(
    alloc: Global,
    pages: &mut Bound<'a, Q, R>,
    plain: &mut PlainPages,
    logged: &mut Logged,
    number: u32,
) -> Result<(), Stop>
    requires idle { IsIdle R.tells R.history R.state pages.old }
    requires plain { ArePlain plain.old }
    requires readable { AllReadable (plain_seen plain.old) }
    ensures bound { IsBound R.tells R.history R.state pages.new }
    ensures idle { OnOk result (IsIdle R.tells R.history R.state pages.new) }
    ensures plain { ArePlain plain.new }
    ensures readable { AllReadable (plain_seen plain.new) }
{
    let (key, step) = change_of(number);
    agree(alloc, pages, plain, key, step, number)?;
    logged.add(alloc, number, plain)?;
    if pages.outbox() != logged.bytes.as_slice() {
        return Err(Stop::Differs);
    }
    logged.bytes.clear();
    send(pages);
    Ok(())
}

/// Does changes from this one on, as long as few pages are Dirty. Then the pages of both sides are alike.
pub fn changes_agree<'a, Q: Wait, R: PageReader>(
    alloc: Global,
    pages: &mut Bound<'a, Q, R>,
    plain: &mut PlainPages,
    logged: &mut Logged,
    next: &mut u32,
) -> Result<(), Stop>
    requires idle { IsIdle R.tells R.history R.state pages.old }
    requires plain { ArePlain plain.old }
    requires readable { AllReadable (plain_seen plain.old) }
    ensures bound { IsBound R.tells R.history R.state pages.new }
    ensures plain { ArePlain plain.new }
    ensures readable { AllReadable (plain_seen plain.new) }
{
    'changes: for number in *next..CHANGES {
        if logged.count() > DIRTY {
            break;
        }
        change_agrees(alloc, pages, plain, logged, number)?;
        *next = number.saturating_add(1);
    }
    pages_agree(pages, plain)
}
