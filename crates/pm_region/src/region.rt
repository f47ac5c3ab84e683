//! A region: the block that is cut into leases.

ghost use Rattle.std.specs.Prelude.{◌≡◌, ◌*◌, ◌≤◌, ◌<◌, ◌^◌, All, IfOk, length, replicate, vec_capacity, []};
ghost use Rattle.pm_region.specs.Memory.{extent_at};
ghost use Rattle.pm_region.specs.Region.{Extent, AreLeasesOf, AreFresh};
ghost use denote.RawPtr.{InBlock};

use crate::lease::Lease;
use crate::memory::{Rest, Shell, Span, close};
use std::alloc::{AllocError, Global};
use std::marker::Model;

/// The most bytes of a region, 1 GiB: 65,536 frames of the largest page.
pub const REGION_BYTES_MAX: u32 = 1_073_741_824;

/// A block of memory that is cut into leases. Contracts see it as the block, the origin where it
/// begins there, and how many leases it has, of so many bytes each. Dropping it gives no memory
/// back: `close` does.
pub struct Region {
    shell: Shell,
    frames: u32,
    size: u32,
}

impl Model for Region {
    ghost use Rattle.std.specs.Prelude.{◌≡◌, ◌*◌, ◌<◌};
    ghost use Rattle.pm_region.specs.Region.{Extent};
    ghost use Rattle.pm_region.specs.Memory.{extent_at};
    ghost use denote.RawPtr.{InBlock};

    ghost Value = { Extent };

    ghost view = { λ r. extent_at r.shell.origin r.frames r.size };

    ghost invariant = { λ r. (r.shell.len ≡ r.frames * r.size) × (0 < r.frames)
        × InBlock r.shell.origin };
}

impl Region {
    ghost use Rattle.pm_region.specs.Lease.{ShareNoByte};
    ghost use Rattle.pm_region.specs.Region.{AreLeasesOf};

    /// A block of memory, cut into `frames` leases of `size` zeros each. Fails where memory runs
    /// out, and then keeps none. Of the block this touches only leases that are larger than the
    /// largest page.
    pub fn new(alloc: Global, frames: u32, size: u32) -> Result<(Region, Vec<Lease>), AllocError>
        requires frames { 1 ≤ frames }
        requires size { 1 ≤ size }
        requires total { frames * size ≤ REGION_BYTES_MAX }
        ensures shape { IfOk result (λ r. (r.0.frames ≡ frames) × (r.0.size ≡ size)) }
        ensures leases { IfOk result (λ r. AreLeasesOf r.0 r.1.items) }
        ensures zero { IfOk result (λ r. All (λ l. l.bytes ≡ replicate size 0) r.1.items) }
        ensures apart { IfOk result (λ r. ShareNoByte r.1.items) }
    {
        let total = frames as usize * size as usize;
        let leases = Vec::with_capacity(alloc, frames as usize)?;
        let block = Vec::with_capacity(alloc, total)?;
        let (rest, shell) = Rest::of(block);
        let leases = leases_of(rest, frames, size as usize, leases);
        Ok((
            Region {
                shell,
                frames,
                size,
            },
            leases,
        ))
    }

    /// Gives the block's memory back, and needs all of its leases for that.
    pub fn close(self, leases: Vec<Lease>)
        requires { AreLeasesOf self leases.items }
    {
        let room = self.joined(leases);
        let Region {
            shell,
            frames: _,
            size: _,
        } = self;
        drop(close(room, shell));
    }

    // The room of all leases.
    fn joined(&self, mut leases: Vec<Lease>) -> Span
        requires { AreLeasesOf self.now leases.items }
        ensures { (extent_at result.origin self.now.frames self.now.size ≡ self.now)
            × InBlock result.origin
            × (result.len ≡ self.now.frames * self.now.size) }
    {
        prove!(self.frames > 0);
        let Some(last) = leases.pop() else {
            unreachable!();
        };
        let mut room = last.into_span();
        'joins: while let Some(lease) = leases.pop() {
            room = lease.into_span().join(room);
        }
        room
    }
}

// Where a lease may be out still, its memory has to stay.
impl Drop for Region {
    fn drop(self) {
        let Region {
            shell,
            frames: _,
            size: _,
        } = self;
        shell.forget();
    }
}

// The leases of a block in order, each of them zeros.
fn leases_of(rest: Rest, frames: u32, size: usize, mut leases: Vec<Lease>) -> Vec<Lease>
    requires leases { (leases.items ≡ []) × (frames ≤ vec_capacity leases) }
    requires size { (0 < size) × (size < 2 ^ 32) }
    requires room { rest.len ≡ frames * size }
    ensures { AreFresh (extent_at rest.origin frames size) result.items }
{
    let mut rest = rest;
    'cuts: for number in 0..frames {
        let (room, others) = rest.take(size);
        leases.push_reserved(Lease::new(number, room));
        rest = others;
    }
    leases
}
