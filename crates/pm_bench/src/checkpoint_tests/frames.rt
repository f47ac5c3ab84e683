//! A checkpoint over page frames, none of which is Dirty.

ghost use Rattle.std.specs.Prelude.{◌≡◌, [], ◌∷◌, Some, None, false, length, IfOk, OnOk};
ghost use Rattle.pm_types.specs.Shapes.{IsShape};
ghost use Rattle.pm_disk.specs.States.{IsUsable};
ghost use Rattle.pm_ckpt.specs.Dirty.{AreResting};
ghost use Rattle.pm_ckpt.specs.Frames.{IsWholeSeat};

use crate::checkpoint_tests::kept_segments::{fill_log, no_files, segments_there};
use crate::checkpoint_tests::one_page::{Written, all_written};
use crate::worker_pages::commands::SHAPE;
use pm_ckpt::Ckpt;
use pm_disk::{Failed, Host};
use pm_locks::{Locks, PageSeat};
use pm_region::Region;
use pm_stripe::Stripe;
use pm_types::Flag;
use std::alloc::{AllocError, Global};
use std::process::Abort;
use std::test::Fail;

// Locks for four frames and one worker, the seat of all numbers, and the worker's stripe.
fn begin(alloc: Global) -> Result<(Locks, PageSeat, Stripe), AllocError>
    ensures frames { IfOk result (λ r. length r.0.ranges ≡ 4) }
    ensures seat { IfOk result (λ r. IsWholeSeat r.0 r.1) }
    ensures stripe { IfOk result (λ r. AreResting r.0 SHAPE r.1 (r.2 ∷ [])) }
{
    let (_region, leases) = Region::new(alloc, 4, 1024)?;
    let Ok((locks, seat)) = Locks::start(alloc, leases, 1) else {
        return Err(AllocError);
    };
    let stripe = Stripe::new(alloc, 0, &SHAPE, 4, true)?;
    Ok((locks, seat, stripe))
}

// Fills the log, and makes a checkpoint.
fn run<H: Host>(
    host: &mut H,
    written: &Written,
    ckpt: &mut Ckpt,
    locks: &Locks,
    seat: &mut PageSeat,
    stripes: &[Stripe],
) -> Result<(), Failed>
    requires whole { (H.Device.state host.old).access.is_lent ≡ false }
    requires shape { IsShape ckpt.old.shape }
    requires first { ckpt.old.mark ≡ None }
    requires room { ckpt.old.room ≡ Some (length locks.now.ranges) }
    requires seat { IsWholeSeat locks.now seat.old }
    requires stripes { AreResting locks.now ckpt.old.shape seat.old stripes.now }
    ensures usable { OnOk result (IsUsable (H.Device.state host.new)) }
    ensures seat { IsWholeSeat locks.now seat.new }
{
    host.bind("store")?;
    let mut log = fill_log(host, written)?;
    let begin = log.next_place(20);
    if begin.seg == 0 || begin.off > 1_000_000 {
        return Err(Failed);
    }
    ckpt.whole(host, &mut log, locks, seat, stripes, None)
}

// The begin of the checkpoint is in segment 4.
#[test]
fn a_checkpoint_over_frames_keeps_the_segments_from_its_begin_on(
    rt: HostRuntime,
) -> Result<(), Fail> {
    let (locks, mut seat, stripe) = begin(rt.alloc())?;
    let stripes = [stripe];
    let mut host = no_files(rt.alloc())?;
    let written = all_written(&rt)?;
    let mut ckpt = Ckpt::new(rt.alloc(), SHAPE, None, 4)?;
    run(&mut host, &written, &mut ckpt, &locks, &mut seat, &stripes)?;
    let there = segments_there(&mut host)?;
    assert_eq!(rt; there, [false, false, false, true, false]);
    assert!(rt; locks.look(&mut seat, 3).flag() == Flag::Empty);
    Ok(())
}
