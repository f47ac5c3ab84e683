//! A lease: one frame's own piece of page memory.

ghost use Rattle.std.specs.Prelude.{◌≡◌, length, vec_len, vec_capacity};
ghost use Rattle.std.specs.Borrow.{sem};
ghost use Rattle.std.specs.Vec.{vec_ptr};

use crate::memory::{Span, under};
use crate::zeros::{bytes_of, clear_once, with_zeros};
use pm_types::FrameNo;
use std::marker::Model;
use std_alloc::vec::Lodged;

/// A piece of a region, which nothing else can reach. Contracts see it as its number, its bytes and
/// their range in the region's block. Dropping it gives no memory back.
///
/// Its memory is cleared when `bytes_mut` is first called, and not touched before. A lease that is
/// larger than the largest page is cleared when it is made.
#[derive(Drop)]
pub struct Lease {
    number: FrameNo,
    // Has all bytes of the lease, or none as long as it wasn't cleared.
    memory: Vec<u8, Lodged>,
}

impl Model for Lease {
    ghost use Rattle.std.specs.Prelude.{◌<◌, vec_len, vec_capacity};
    ghost use Rattle.std.specs.Vec.{vec_ptr};
    ghost use Rattle.pm_region.specs.Lease.{Leased};
    ghost use Rattle.pm_region.specs.Memory.{range_at, shown, IsAllOrNone};
    ghost use denote.RawPtr.{InBlock};

    ghost Value = { Leased };

    ghost view = { λ l. record {
      number = l.number;
      bytes = shown (vec_capacity l.memory) l.memory.items;
      range = range_at (vec_ptr l.memory) (vec_capacity l.memory);
    } };

    ghost invariant = { λ l. InBlock (vec_ptr l.memory) × (0 < vec_capacity l.memory)
        × IsAllOrNone (vec_capacity l.memory) (vec_len l.memory) };
}

impl Lease {
    ghost use Rattle.std.specs.Prelude.{◌<◌};
    ghost use Rattle.pm_region.specs.LeaseLends.{LendsBytes};
    ghost use Rattle.pm_region.specs.Memory.{zeros_at, range_at};
    ghost use denote.RawPtr.{InBlock};

    /// A lease of zeros over room where nothing is written.
    pub(crate) fn new(number: FrameNo, room: Vec<u8, Lodged>) -> Lease
        requires empty { vec_len room ≡ 0 }
        requires some { InBlock (vec_ptr room) × (0 < vec_capacity room) }
        ensures { result ≡ zeros_at number (vec_ptr room) (vec_capacity room) }
    {
        let memory = with_zeros(room);
        Lease { number, memory }
    }

    /// The lease's room alone.
    pub(crate) fn into_span(self) -> Span
        ensures { (self.range ≡ range_at result.origin result.len) × InBlock result.origin }
    {
        let Lease { number: _, memory } = self;
        under(memory)
    }

    /// The lease's number: its index among the leases of its region, from 0.
    pub fn number(&self) -> FrameNo
        ensures { result ≡ self.now.number }
    {
        self.number
    }

    /// The lease's bytes. As long as it wasn't cleared, these are a constant's.
    pub fn bytes(&self) -> &[u8]
        ensures bytes { result.now ≡ self.now.bytes }
        ensures len { length result.now ≡ self.now.range.len }
    {
        bytes_of(&self.memory)
    }

    /// The lease's bytes, to be written. What is written there the lease then has. The first call
    /// clears its memory.
    pub fn bytes_mut(&mut self) -> &mut [u8]
        ensures* lends { sem 𝓛 (LendsBytes self.entry result) }
        ensures bytes { result.now ≡ self.old.bytes }
        ensures len { length result.now ≡ self.old.range.len }
    {
        clear_once(&mut self.memory);
        self.memory.as_mut_slice()
    }
}
