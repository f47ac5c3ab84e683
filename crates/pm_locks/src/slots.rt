//! The slot of a frame that a seat has out. Between two calls it is at home, and empty.

ghost use Rattle.std.specs.Prelude.{◌≡◌, ◌≢◌, ◌⊎◌, ◌∷◌, Some, None, IfOk, IfErr};
ghost use Rattle.pm_locks.specs.Rule.{known_range};
ghost use Rattle.atomic_table.specs.Table.{rest};
ghost use Rattle.pm_region.specs.Lease.{Leased};
ghost use Rattle.pm_locks.specs.Sight.{IsSeatOf, IsFrameOf, KnowsAll};
ghost use Rattle.pm_locks.specs.Steps.{taken_out, IsBacked, IsMet};
ghost use Rattle.pm_locks.specs.Kinds.{carrying};
ghost use Rattle.pm_locks.specs.Views.{Has, out_at};
ghost use Rattle.pm_locks.specs.Words.{AT_HOME, FLUSHER, held_by};
ghost use Rattle.pm_locks.specs.declared.view.Out.{Out};

use crate::locks::Locks;
use crate::plays::{Grab, Hold, Leave};
use crate::seats::PageSeat;
use crate::view::View;
use crate::word::Word;
use atomic_table::Seat;
use pm_region::Lease;

impl Locks {
    // Takes the frame out for a number of the seat, where its word is still `seen`. Else it answers
    // the word that it met.
    #[inline(always)]
    pub(crate) fn take_out(
        &self,
        seat: &mut PageSeat,
        f: usize,
        seen: Word,
        number: u8,
    ) -> Result<Lease, Word>
        requires seat { IsSeatOf self.now seat.old }
        requires frame { IsFrameOf self.now f }
        requires home { seen.holder ≡ AT_HOME }
        requires number { Has seat.old.view number }
        requires who { (number ≡ seen.owner) ⊎ (number ≡ FLUSHER) }
        ensures seat { IsSeatOf self.now seat.new }
        ensures taken { IfOk result (λ y. seat.new.view
            ≡ taken_out seat.old.view f seen (held_by number seen) y) }
        ensures lease { IfOk result (λ y. (y.number ≡ f)
            × IsBacked seat.old.view f seen y.bytes) }
        ensures range { IfOk result (λ y. y.range ≡ known_range seat.old.view f) }
        ensures knows { KnowsAll self.now seat.old.view → KnowsAll self.now seat.new.view }
        ensures met { IfErr result (λ w. IsMet seat.old.view seat.new.view f w) }
        ensures other { IfErr result (λ w. w ≢ seen) }
    {
        let shared = &self.table.shared;
        let held = seen.held_by(number);
        let found = shared.compare_exchange::<Hold>(&mut seat.seat, f, seen.0, held.0);
        if found != seen.0 {
            return Err(Word(found));
        }
        Ok(self.empty_slot(&mut seat.seat, f))
    }

    // Takes the lease out of the slot that the seat carries, and gives the slot back.
    #[inline(always)]
    pub(crate) fn empty_slot(&self, seat: &mut Seat<Option<Lease>, View>, f: usize) -> Lease
        requires table { seat.old.table_id ≡ self.now.table }
        requires frame { IsFrameOf self.now f }
        requires hand { seat.old.me.0.hand ≡ Some f }
        requires out { (o : Out) × (out_at seat.old.me.0.outs f ≡ Some o) }
        requires slot { (y : Leased) × (seat.old.me.1 ≡ (f, Some y) ∷ rest seat.old.me.1) }
        ensures table { seat.new.table_id ≡ seat.old.table_id }
        ensures lease { seat.old.me.1 ≡ (f, Some result) ∷ rest seat.old.me.1 }
        ensures left { seat.new.me ≡ (record seat.old.me.0 { hand = None }, rest seat.old.me.1) }
    {
        let shared = &self.table.shared;
        let slot = shared.exchange(seat, f, None);
        shared.load::<Leave>(seat, f);
        match slot {
            Some(lease) => lease,
            None => unreachable!(),
        }
    }

    // Carries the slot again, with the lease in it, and answers the frame's word.
    #[inline(always)]
    pub(crate) fn fill_slot(
        &self,
        seat: &mut Seat<Option<Lease>, View>,
        f: usize,
        lease: Lease,
    ) -> Word
        requires table { seat.old.table_id ≡ self.now.table }
        requires frame { IsFrameOf self.now f }
        requires hand { seat.old.me.0.hand ≡ None }
        requires out { (o : Out) × (out_at seat.old.me.0.outs f ≡ Some o) }
        ensures table { seat.new.table_id ≡ seat.old.table_id }
        ensures slot { seat.new.me ≡ (carrying seat.old.me.0 f, (f, Some lease) ∷ seat.old.me.1) }
        ensures word { (o : Out) → out_at seat.old.me.0.outs f ≡ Some o → result ≡ o.word }
    {
        let shared = &self.table.shared;
        let seen = shared.load::<Grab>(seat, f);
        let slot = shared.exchange(seat, f, Some(lease));
        match slot {
            None => Word(seen),
            Some(_) => unreachable!(),
        }
    }
}
