//! A worker over 64 frames of a store of three partitions.

ghost use Rattle.std.specs.Prelude.{◌≡◌, length, IfOk, true};
ghost use Rattle.std.specs.FinMap as map;
ghost use Rattle.pm_stripe.specs.Stripes.{kept, IsAtRest};

use pm_disk::{Device, Failed, PageReader};
use pm_locks::{Locks, PageSeat};
use pm_region::Region;
use pm_stripe::Stripe;
use pm_types::{PageId, Shape};
use std::alloc::{AllocError, Global};

const SHAPE: Shape = Shape {
    page_size: 1024,
    partitions: 3,
    version: 1,
    max_rows: 100,
    segment_bytes: 65_536,
};

/// Reads the pages of a store that has none.
#[derive(Drop)]
pub struct NoPages;

impl Device for NoPages {
    ghost use Rattle.std.specs.Prelude.{[], Some, false, true};
    ghost use Rattle.pm_disk.specs.Moments.{nothing_told};

    ghost tells = { ⊥ };

    ghost history = { λ _. nothing_told };

    ghost state = { λ _. record {
      faults = 0;
      access = record { folder = Some []; is_lent = false; reads = λ _. true; writes = λ _. true; made = 0 };
    } };

    ghost sound = { λ _ tells. absurd tells };
}

impl PageReader for NoPages {
    fn read_page(&mut self, _page: PageId, into: &mut [u8]) -> Result<bool, Failed> {
        into.fill(0);
        Ok(false)
    }
}

/// Locks for 64 frames, the seat of all their numbers, and a stripe that keeps no page yet.
pub fn begin(alloc: Global) -> Result<(Locks, PageSeat, Stripe), AllocError>
    ensures rest { IfOk result (λ r. IsAtRest r.0 (kept r.2 r.1)) }
    ensures one { IfOk result (λ r. r.0.workers ≡ 1) }
    ensures own { IfOk result (λ r. (r.2.number ≡ 0) × (r.2.shape.partitions ≡ 3)) }
    ensures frames { IfOk result (λ r. length r.0.ranges ≡ 64) }
    ensures new { IfOk result (λ r. r.2.places.table.entries ≡ map.empty) }
{
    let (_region, leases) = Region::new(alloc, 64, 1024)?;
    let Ok((locks, seat)) = Locks::start(alloc, leases, 1) else {
        return Err(AllocError);
    };
    let stripe = Stripe::new(alloc, 0, &SHAPE, 64, true)?;
    Ok((locks, seat, stripe))
}
