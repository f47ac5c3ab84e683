//! How workers begin.

ghost use Rattle.std.specs.Prelude.{◌≡◌, IfOk, true};
ghost use Rattle.std.specs.FinMap as map;
ghost use Rattle.pm_stripe.specs.declared.stripe.Stripe.{Stripe as ThisStripe};
ghost use Rattle.pm_stripe.specs.Stripes.{kept, IsAtRest, IsNewStripe};

use crate::worker_pages::commands::SHAPE;
use pm_locks::{Locks, PageSeat, Seats};
use pm_region::Region;
use pm_stripe::Stripe;
use std::alloc::{AllocError, Global};

/// Locks for 64 frames, the seat of all their numbers, and a stripe that keeps no page yet.
pub fn begin(alloc: Global) -> Result<(Locks, PageSeat, Stripe), AllocError>
    ensures rest { IfOk result (λ r. IsAtRest r.0 (kept r.2 r.1)) }
    ensures one { IfOk result (λ r. r.0.workers ≡ 1) }
    ensures own { IfOk result (λ r. (r.2.number ≡ 0) × (r.2.shape ≡ SHAPE)) }
    ensures new { IfOk result (λ r. r.2.places.table.entries ≡ map.empty) }
{
    let (_region, leases) = Region::new(alloc, 64, 1024)?;
    let Ok((locks, seat)) = Locks::start(alloc, leases, 1) else {
        return Err(AllocError);
    };
    let stripe = Stripe::new(alloc, 0, &SHAPE, 64, true)?;
    Ok((locks, seat, stripe))
}

/// How many frames two workers share.
pub const SHARED: u32 = 192;

/// Locks for frames that two workers share, and the seat of each, under which a stripe that is new is at rest.
pub fn begin_two(alloc: Global) -> Result<(Locks, PageSeat, PageSeat), AllocError>
    ensures two { IfOk result (λ r. r.0.workers ≡ 2) }
    ensures first { IfOk result (λ r. (s : ThisStripe) → IsNewStripe 0 SHAPE SHARED true s
        → IsAtRest r.0 (kept s r.1)) }
    ensures second { IfOk result (λ r. (s : ThisStripe) → IsNewStripe 1 SHAPE SHARED true s
        → IsAtRest r.0 (kept s r.2)) }
{
    let (_region, leases) = Region::new(alloc, SHARED, 1024)?;
    let Ok((locks, seat)) = Locks::start(alloc, leases, 2) else {
        return Err(AllocError);
    };
    let mut seats = Seats::with_room(alloc, 2)?;
    locks.spread(seat, &mut seats);
    let Some(second) = seats.workers.pop() else {
        return Err(AllocError);
    };
    let Some(first) = seats.workers.pop() else {
        return Err(AllocError);
    };
    Ok((locks, first, second))
}
