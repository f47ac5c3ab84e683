//! The locks: how they begin and end.
//!
//! A frame is at home, or out at its owner or the flusher. A call takes it from home and another
//! puts it back:
//!
//! ```text
//!                   own_take, steal                  flush_take
//!                  <----------------                ------------>
//!   at its owner                       at home                     at the flusher
//!                  ---------------->                <------------
//!                       own_put                       flush_put
//! ```
//!
//! Its flag changes as it is put, or stolen:
//!
//! ```text
//!   Empty, Clean --own_put--> Dirty --flush_put--> Due --flush_put--> Done --own_put--> Clean, Empty
//!        ^ |                    ^                   |                   |
//!        '-' steal: Empty       '------ own_put with other bytes -------'
//! ```

ghost use Rattle.std.specs.Prelude.{◌≡◌, ◌<◌, ◌≤◌, ℕ, [], List, IfOk, IfErr, Some, map, length};
ghost use Rattle.std.specs.Prelude.{slice_get, vec_len, vec_capacity};
ghost use Rattle.std.specs.Slots.{slots_items, slots_len, IsFull};
ghost use Rattle.pm_region.specs.Lease.{Leased};
ghost use Rattle.pm_locks.specs.Opening.{AreFirst};
ghost use mathlib.Core.Option.{some};
ghost use lib.ListN.{get_elem?};

use crate::plays::Law;
use crate::seats::PageSeat;
use crate::view::{Numbers, Start, View};
use crate::word::{AT_HOME, Word};
use atomic_table::{Closed, Refused, Table};
use pm_region::Lease;
use pm_types::Flag;
use std::alloc::{AllocError, Global};
use std::marker::Model;
use std::snapshot::Snapshot;

/// A lock word and a lease for each page frame. Contracts see the workers' number and where each
/// frame lies.
#[derive(Drop)]
pub struct Locks {
    pub(crate) table: Table<Option<Lease>, View, Start, Law, Global>,
    pub(crate) workers: u8,
    pub(crate) frames: usize,
    // The vector that held the leases, emptied.
    leases: Vec<Lease>,
}

impl Model for Locks {
    ghost use Rattle.pm_locks.specs.Sight.{LockTable};

    ghost Value = { LockTable };

    ghost use Rattle.std.specs.Prelude.{◌≡◌, ◌<◌, ◌≤◌, [], map, length, vec_capacity};

    ghost view = { λ l. record {
      table = l.table.shared.table_id;
      workers = l.table.shared.key.workers;
      ranges = map (λ y. y.range) l.table.shared.key.leases.value.items;
    } };

    ghost invariant = { λ l. (l.table.shared.table_id.words ≡ l.frames)
        × (l.table.shared.table_id.slots ≡ l.frames)
        × (length l.table.shared.key.leases.value.items ≡ l.frames)
        × (l.table.shared.key.workers ≡ l.workers)
        × (0 < l.frames) × (0 < l.workers) × (l.workers ≤ 8)
        × (l.leases.items ≡ []) × (l.frames ≤ vec_capacity l.leases) };
}

impl Locks {
    ghost use Rattle.pm_locks.specs.Opening.{first_view, AreNumbered};
    ghost use Rattle.pm_locks.specs.Sight.{IsSeatOf, KnowsAll};
    ghost use Rattle.pm_locks.specs.Views.{IsWhole, IsStill};

    /// Locks for the frames of these leases, and a seat that stands for all numbers: each worker's,
    /// from 0, and the flusher's, which is 8. Every frame is at home and Empty with tag 0, and the
    /// workers own them in turn.
    ///
    /// Where memory runs out the leases come back.
    pub fn start(
        alloc: Global,
        leases: Vec<Lease>,
        workers: u32,
    ) -> Result<(Locks, PageSeat), Vec<Lease>>
        requires frames { 1 ≤ vec_len leases }
        requires workers { (1 ≤ workers) × (workers ≤ 8) }
        requires numbers { AreNumbered leases.items }
        ensures locks { IfOk result (λ r. (r.0.workers ≡ workers)
            × (r.0.ranges ≡ map (λ y. y.range) leases.items)) }
        ensures seat { IfOk result (λ r. IsSeatOf r.0 r.1
            × (r.1.view ≡ first_view workers leases.items)) }
        ensures knows { IfOk result (λ r. KnowsAll r.0 r.1.view) }
        ensures refused { IfErr result (λ l. l.items ≡ leases.items) }
    {
        let frames = leases.len();
        let workers = workers as u8;
        let start = Start {
            workers,
            leases: Snapshot::of(&leases),
        };
        let Ok(words) = first_words(alloc, frames, workers) else {
            return Err(leases);
        };
        let Ok(slots) = Vec::with_capacity(alloc, frames) else {
            return Err(leases);
        };
        let (leases, slots) = into_slots(leases, slots);
        match Table::new(alloc, &words, slots, &start) {
            Ok((table, seat)) => {
                let numbers = Numbers {
                    from: 0,
                    upto: workers,
                    flusher: true,
                };
                let locks = Locks {
                    table,
                    workers,
                    frames,
                    leases,
                };
                Ok((locks, PageSeat { seat, numbers }))
            }
            Err(Refused { slots }) => Err(out_of_slots(slots, leases)),
        }
    }

    /// Ends the locks: all leases come back, in order, in the vector that `start` was given.
    pub fn close(self, seat: PageSeat) -> Vec<Lease>
        requires seat { IsSeatOf self seat }
        requires whole { IsWhole seat.view }
        requires still { IsStill seat.view }
        ensures numbers { AreNumbered result.items }
        ensures ranges { map (λ y. y.range) result.items ≡ self.ranges }
    {
        let Locks {
            table,
            workers: _,
            frames,
            leases,
        } = self;
        let PageSeat { seat, numbers: _ } = seat;
        take_leases(table.close_with(seat), frames, leases)
    }
}

// The first words of so many frames.
fn first_words(alloc: Global, frames: usize, workers: u8) -> Result<Vec<u64>, AllocError>
    requires { 0 < workers }
    ensures { IfOk result (λ w. AreFirst workers frames w.items) }
{
    let mut words = Vec::with_capacity(alloc, frames)?;
    'words: for f in 0..frames {
        let owner = (f % workers as usize) as u8;
        words.push_reserved(Word::pack(0, owner, AT_HOME, Flag::Empty).0);
    }
    Ok(words)
}

// Moves the leases into slots, in order.
fn into_slots(leases: Vec<Lease>, slots: Vec<Option<Lease>>) -> (Vec<Lease>, Vec<Option<Lease>>)
    requires empty { slots.items ≡ [] }
    requires room { vec_len leases ≤ vec_capacity slots }
    ensures emptied { (result.0.items ≡ []) × (vec_capacity result.0 ≡ vec_capacity leases) }
    ensures slots { result.1.items ≡ map Some leases.items }
{
    let mut leases = leases;
    let mut slots = slots;
    'moves: while let Some(lease) = leases.pop() {
        slots.push_reserved(Some(lease));
    }
    slots.reverse();
    (leases, slots)
}

// Moves the leases out of their slots, in order.
fn out_of_slots(slots: Vec<Option<Lease>>, leases: Vec<Lease>) -> Vec<Lease>
    requires full { (kept : List Leased) × (slots.items ≡ map Some kept) }
    requires empty { leases.items ≡ [] }
    requires room { vec_len slots ≤ vec_capacity leases }
    ensures { map Some result.items ≡ slots.items }
{
    let mut slots = slots;
    let mut leases = leases;
    slots.reverse();
    'moves: while let Some(slot) = slots.pop() {
        match slot {
            Some(lease) => leases.push_reserved(lease),
            None => unreachable!(),
        }
    }
    leases
}

// The leases of a table that is closed, in order.
fn take_leases(
    closed: Closed<Option<Lease>, Global>,
    frames: usize,
    leases: Vec<Lease>,
) -> Vec<Lease>
    requires full { IsFull closed.slots }
    requires count { slots_len closed.slots ≡ frames }
    requires here { (f : ℕ) → f < frames → (y : Leased)
        × (get_elem? (slots_items closed.slots) f ≡ some (Some y)) }
    requires empty { leases.items ≡ [] }
    requires room { frames ≤ vec_capacity leases }
    ensures count { length result.items ≡ frames }
    ensures each { (f : ℕ) (y : Leased) → slice_get result.items f ≡ Some y
        → get_elem? (slots_items closed.slots) f ≡ some (Some y) }
{
    let mut closed = closed;
    let mut leases = leases;
    'takes: for f in 0..frames {
        match closed.take(f) {
            Some(lease) => leases.push_reserved(lease),
            None => unreachable!(),
        }
    }
    closed.free();
    leases
}
