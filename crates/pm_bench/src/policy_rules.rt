//! Each kind of page replacement beside its plain one over many random calls, and in a box.

ghost use Rattle.std.specs.Prelude.{◌≡◌, ◌≤◌};

use crate::plain_policies::{Plain, plain_clock, plain_random, plain_segmented};
use pm_policies::{Clock, RandomLru, SegmentedLru};
use pm_policy::{Policy, Replacer};
use std::alloc::{AllocError, Global};
use std::test::Fail;

const CALLS: u32 = 1_000_000;

// One random call of both, and whether they answer alike.
fn step<P: Policy, M: Plain>(policy: &mut P, plain: &mut M, random: u64, frames: u32) -> bool
    requires some { 1 ≤ frames }
    requires started { P.frame_count policy.old ≡ frames }
    ensures { P.frame_count policy.new ≡ frames }
{
    let frame = ((random >> 33) % u64::from(frames)) as u32;
    let choice = (random >> 30) % 4;
    if choice == 0 {
        policy.touched(frame);
        plain.touched(frame as usize);
        return true;
    }
    if choice == 1 {
        policy.taken(frame);
        plain.taken(frame as usize);
        return true;
    }
    policy.pick() as usize == plain.pick()
}

// Whether both answer alike over so many random calls.
fn agrees<P: Policy, M: Plain>(policy: &mut P, plain: &mut M, frames: u32) -> bool
    requires some { 1 ≤ frames }
    requires started { P.frame_count policy.old ≡ frames }
{
    let mut random = 1u64;
    'calls: for _ in 0..CALLS {
        random = random
            .wrapping_mul(6_364_136_223_846_793_005)
            .wrapping_add(1_442_695_040_888_963_407);
        if !step(policy, plain, random, frames) {
            return false;
        }
    }
    true
}

// The same, of a policy that is started before.
fn agrees_from_start<P: Policy, M: Plain>(
    alloc: Global,
    mut policy: P,
    mut plain: M,
    frames: u32,
) -> Result<bool, AllocError>
    requires { 1 ≤ frames }
{
    policy.start(alloc, frames)?;
    Ok(agrees(&mut policy, &mut plain, frames))
}

#[test]
fn clock_does_what_its_rule_says(rt: HostRuntime) -> Result<(), Fail> {
    let plain = plain_clock(rt.alloc(), 13)?;
    let agrees = agrees_from_start(rt.alloc(), Clock::new(rt.alloc()), plain, 13)?;
    assert!(rt; agrees);
    Ok(())
}

#[test]
fn segmented_does_what_its_rule_says(rt: HostRuntime) -> Result<(), Fail> {
    let plain = plain_segmented(rt.alloc(), 13)?;
    let agrees = agrees_from_start(rt.alloc(), SegmentedLru::new(rt.alloc()), plain, 13)?;
    assert!(rt; agrees);
    Ok(())
}

#[test]
fn one_segmented_frame_is_never_protected(rt: HostRuntime) -> Result<(), Fail> {
    let plain = plain_segmented(rt.alloc(), 1)?;
    let agrees = agrees_from_start(rt.alloc(), SegmentedLru::new(rt.alloc()), plain, 1)?;
    assert!(rt; agrees);
    Ok(())
}

#[test]
fn random_does_what_its_rule_says(rt: HostRuntime) -> Result<(), Fail> {
    let plain = plain_random(rt.alloc(), 13, 77)?;
    let agrees = agrees_from_start(rt.alloc(), RandomLru::new(rt.alloc(), 77), plain, 13)?;
    assert!(rt; agrees);
    Ok(())
}

#[test]
fn seed_0_draws_as_seed_1(rt: HostRuntime) -> Result<(), Fail> {
    let plain = plain_random(rt.alloc(), 64, 1)?;
    let agrees = agrees_from_start(rt.alloc(), RandomLru::new(rt.alloc(), 0), plain, 64)?;
    assert!(rt; agrees);
    Ok(())
}

// The frames that a boxed policy gives to three pages, where frames 0 and 1 of three were taken.
fn three_picks(
    alloc: Global,
    policy: Box<dyn Policy + Send>,
) -> Result<(u32, u32, u32), AllocError> {
    let mut replacer = Replacer::start(alloc, policy, 3)?;
    replacer.use_frame(0);
    replacer.use_frame(1);
    Ok((replacer.replace(), replacer.replace(), replacer.replace()))
}

#[test]
fn each_kind_works_in_a_box(rt: HostRuntime) -> Result<(), Fail> {
    let clock = three_picks(rt.alloc(), Box::new(rt.alloc(), Clock::new(rt.alloc()))?)?;
    assert_eq!(rt; clock, (2, 0, 1));
    let segmented = three_picks(
        rt.alloc(),
        Box::new(rt.alloc(), SegmentedLru::new(rt.alloc()))?,
    )?;
    assert_eq!(rt; segmented, (2, 0, 2));
    let random = three_picks(
        rt.alloc(),
        Box::new(rt.alloc(), RandomLru::new(rt.alloc(), 1))?,
    )?;
    assert!(rt; random.0 < 3 && random.1 < 3 && random.2 < 3);
    Ok(())
}

// What a clock of three frames picks three times, after frames 0 and 1 were taken.
fn three_picks_of_clock(alloc: Global) -> Result<(u32, u32, u32), AllocError> {
    let mut clock = Clock::new(alloc);
    clock.start(alloc, 3)?;
    clock.taken(0);
    clock.taken(1);
    Ok((clock.pick(), clock.pick(), clock.pick()))
}

#[test]
fn taken_frames_are_passed_once(rt: HostRuntime) -> Result<(), Fail> {
    assert_eq!(rt; three_picks_of_clock(rt.alloc())?, (2, 0, 1));
    Ok(())
}
