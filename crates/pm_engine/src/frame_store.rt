//! The pages of an open store in page frames.

ghost use Rattle.std.specs.Prelude.{◌≡◌, ◌≤◌, IfOk};
ghost use Rattle.pm_types.specs.declared.page_id.PageId.{PageId};
ghost use Rattle.pm_types.specs.Shapes.{IsShape};
ghost use Rattle.pm_disk.specs.Worlds.{World};
ghost use Rattle.pm_engine.specs.FrameStores.{pages_in_frames, pages_in_files, IsDirtyPage, HasCleanPages};
ghost use Rattle.pm_engine.specs.FrameStores.{IsNewStore, shut};

use pm_locks::{Locks, PageSeat};
use pm_ptable::FRAMES_MAX;
use pm_region::Region;
use pm_stripe::Stripe;
use pm_types::Shape;
use std::alloc::{AllocError, Global};
use std::marker::Model;

/// The pages of an open store, while no thread has a page frame: the frames under their locks, and what the one
/// worker keeps in them. A page that is in no frame is as its partition's file has it.
///
/// Dropping it doesn't give the frames' memory back: `close` does.
#[derive(Drop)]
pub struct FrameStore {
    pub(crate) shape: Shape,
    pub(crate) region: Region,
    pub(crate) locks: Locks,
    // It stands for all numbers.
    pub(crate) seat: PageSeat,
    pub(crate) stripe: Stripe,
    // How many frames have a page that stays there, where that was counted and nothing was handed over since. So a batch
    // that changes no page doesn't look at each frame again.
    pub(crate) dirty: Option<u32>,
    // A round that ends at a fault may leave pages half changed, and a checkpoint that fails frames that are to be
    // written: nothing more is done with them then.
    pub(crate) is_open: bool,
}

impl Model for FrameStore {
    ghost use Rattle.std.specs.Coded.{codes};
    ghost use Rattle.pm_ptable.specs.PageTable.{pages_code};
    ghost use Rattle.pm_engine.specs.FrameStores.{FrameStoreView, IsFrameStore};

    ghost Value = { FrameStoreView };

    ghost coded = { Prim.hlevel (codes, pages_code) };

    ghost view = { λ store. record {
      shape = store.shape;
      region = store.region;
      locks = store.locks;
      seat = store.seat;
      stripe = store.stripe;
      dirty = store.dirty;
      is_open = store.is_open;
    } };

    ghost invariant = { λ store. IsFrameStore (record {
      shape = store.shape;
      region = store.region;
      locks = store.locks;
      seat = store.seat;
      stripe = store.stripe;
      dirty = store.dirty;
      is_open = store.is_open;
    }) };
}

impl FrameStore {
    /// So many frames without a page, each as long as a page of the shape. `has_files` where the partitions' files
    /// have pages: else a page that is in no frame isn't there. It fails where memory runs out.
    pub fn new(
        alloc: Global,
        shape: &Shape,
        frames: u32,
        has_files: bool,
    ) -> Result<FrameStore, AllocError>
        requires shape { IsShape shape.now }
        requires some { 1 ≤ frames }
        requires few { frames ≤ FRAMES_MAX }
        ensures begins { IfOk result (IsNewStore shape.now frames has_files) }
        ensures pages { IfOk result (λ store. (world : World)
            → pages_in_frames store world ≡ pages_in_files shape.now store.stripe world) }
        ensures clean { IfOk result (λ store. (id : PageId) → IsDirtyPage store id → ⊥) }
        ensures as_files { IfOk result (λ store. (world : World) → HasCleanPages store world) }
    {
        let stripe = Stripe::new(alloc, 0, shape, frames, has_files)?;
        let (region, leases) = Region::new(alloc, frames, shape.page_size)?;
        match Locks::start(alloc, leases, 1) {
            Ok((locks, seat)) => Ok(FrameStore {
                shape: *shape,
                region,
                locks,
                seat,
                stripe,
                dirty: None,
                is_open: true,
            }),
            Err(leases) => {
                region.close(leases);
                Err(AllocError)
            }
        }
    }

    /// The store isn't open after it: nothing is to be done with it but to close it.
    pub(crate) fn shut(&mut self)
        ensures { self.new ≡ shut self.old }
    {
        self.is_open = false;
    }

    /// Gives the memory of the frames back.
    pub fn close(self) {
        let FrameStore {
            shape: _,
            region,
            locks,
            seat,
            stripe: _,
            dirty: _,
            is_open: _,
        } = self;
        region.close(locks.close(seat));
    }
}
