//! Seats: by one of them a thread takes and puts frames.

ghost use Rattle.std.specs.Prelude.{◌≤◌, IfOk, vec_capacity};

use crate::view::{Numbers, View};
use crate::word::{FLUSHER, Word};
use atomic_table::Seat;
use pm_region::Lease;
use pm_types::Tag;
use std::alloc::{AllocError, Global};
use std::marker::Model;

/// Stands for one or more of the workers' numbers and the flusher's. No two seats share a number.
/// Contracts see its view: what its numbers last put and have out, and what its steps met.
#[derive(Drop)]
pub struct PageSeat {
    pub(crate) seat: Seat<Option<Lease>, View>,
    pub(crate) numbers: Numbers,
}

impl Model for PageSeat {
    ghost use Rattle.pm_locks.specs.Sight.{Sight};

    ghost Value = { Sight };

    ghost use Rattle.std.specs.Prelude.{◌≡◌, [], None};
    ghost use Rattle.pm_locks.specs.Views.{IsOwnAlone};

    ghost view = { λ p. record { table = p.seat.table_id; view = p.seat.me.0 } };

    ghost invariant = { λ p. (p.seat.me.1 ≡ []) × (p.seat.me.0.hand ≡ None)
        × (p.seat.me.0.numbers ≡ p.numbers) × IsOwnAlone p.seat.me.0 };
}

impl PageSeat {
    ghost use Rattle.std.specs.Prelude.{◌↔◌, IsTrue};
    ghost use Rattle.pm_locks.specs.Views.{Has, IsMine};

    /// Whether the seat stands for the number.
    pub(crate) fn stands_for(&self, number: u8) -> bool
        ensures { IsTrue result ↔ Has self.now.view number }
    {
        (self.numbers.from <= number && number < self.numbers.upto)
            || (number == FLUSHER && self.numbers.flusher)
    }

    /// Whether the word has this tag, and a number of this seat for its owner.
    pub(crate) fn owns(&self, word: &Word, tag: Tag) -> bool
        ensures { IsTrue result ↔ IsMine self.now.view word.now tag }
    {
        word.tag() == tag && self.stands_for(word.owner())
    }
}

/// The seats of a round: the worker's at index `n` stands for number `n` alone, and the flusher's for
/// its own.
#[derive(Drop)]
pub struct Seats {
    pub workers: Vec<PageSeat>,
    pub flusher: Option<PageSeat>,
}

impl Seats {
    ghost use Rattle.pm_locks.specs.Rounds.{IsEmpty};

    /// No seat, with room for so many workers. Fails where memory runs out, and then keeps none.
    pub fn with_room(alloc: Global, workers: u32) -> Result<Seats, AllocError>
        ensures empty { IfOk result IsEmpty }
        ensures room { IfOk result (λ s. workers ≤ vec_capacity s.workers) }
    {
        let workers = Vec::with_capacity(alloc, workers as usize)?;
        Ok(Seats {
            workers,
            flusher: None,
        })
    }
}
