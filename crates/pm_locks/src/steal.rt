//! A frame is given to another page.

ghost use Rattle.std.specs.Prelude.{◌≡◌, ◌≢◌, ◌<◌, IfOk, IfErr};
ghost use Rattle.pm_locks.specs.Rule.{known_range};
ghost use Rattle.pm_locks.specs.Sight.{IsSeatOf, IsFrameOf, KnowsAll};
ghost use Rattle.pm_locks.specs.Steps.{stolen_out, IsMet};
ghost use Rattle.pm_locks.specs.Views.{Has, known_at};
ghost use Rattle.pm_locks.specs.Words.{FLUSHER, CanBeStolen, stolen_as};
ghost use Rattle.pm_locks.specs.Answers.{StealAnswer, IsExactSteal};

use crate::locks::Locks;
use crate::plays::Theft;
use crate::seats::PageSeat;
use crate::word::Word;
use pm_region::Lease;
use pm_types::{Flag, FrameNo, Tag};

/// What `steal` answers.
#[derive(Drop)]
pub enum Steal {
    /// The frame's lease, and its new tag.
    Got(Lease, Tag),
    /// The frame can't be stolen, or its word changed meanwhile to this one.
    Not(Word),
}

impl Locks {
    /// Takes a frame that is at home, Empty or Clean for a worker of this seat's: the frame is
    /// out, owned by `number`, Empty, and its tag is raised by one.
    ///
    /// `Not`: the frame is out, Dirty, Due, Done or at the last tag, or its word changed meanwhile.
    /// Then nothing changes.
    pub fn steal(&self, seat: &mut PageSeat, number: u8, f: FrameNo) -> Steal
        requires seat { IsSeatOf self.now seat.old }
        requires frame { IsFrameOf self.now f }
        requires number { (number < FLUSHER) × Has seat.old.view number }
        ensures seat { IsSeatOf self.now seat.new }
        ensures answer { StealAnswer seat.old.view seat.new.view number f result }
        ensures exact { KnowsAll self.now seat.old.view
            → IsExactSteal (known_at seat.old.view f) result }
        ensures knows { KnowsAll self.now seat.old.view → KnowsAll self.now seat.new.view }
    {
        let seen = self.look(seat, f);
        if !seen.can_be_stolen() {
            return Steal::Not(seen);
        }
        match self.steal_from(seat, number, f as usize, seen) {
            Ok(lease) => Steal::Got(lease, seen.tag() + 1),
            Err(found) => Steal::Not(found),
        }
    }

    // Steals the frame where its word is still `seen`, and else answers the word that it met.
    fn steal_from(
        &self,
        seat: &mut PageSeat,
        number: u8,
        f: usize,
        seen: Word,
    ) -> Result<Lease, Word>
        requires seat { IsSeatOf self.now seat.old }
        requires frame { IsFrameOf self.now f }
        requires number { (number < FLUSHER) × Has seat.old.view number }
        requires free { CanBeStolen seen }
        ensures seat { IsSeatOf self.now seat.new }
        ensures taken { IfOk result (λ y. seat.new.view
            ≡ stolen_out seat.old.view f seen (stolen_as number seen) y) }
        ensures lease { IfOk result (λ y. y.number ≡ f) }
        ensures range { IfOk result (λ y. y.range ≡ known_range seat.old.view f) }
        ensures knows { KnowsAll self.now seat.old.view → KnowsAll self.now seat.new.view }
        ensures met { IfErr result (λ w. IsMet seat.old.view seat.new.view f w) }
        ensures other { IfErr result (λ w. w ≢ seen) }
    {
        let shared = &self.table.shared;
        let stolen = Word::pack(seen.tag() + 1, number, number, Flag::Empty);
        let found = shared.compare_exchange::<Theft>(&mut seat.seat, f, seen.0, stolen.0);
        if found != seen.0 {
            return Err(Word(found));
        }
        Ok(self.empty_slot(&mut seat.seat, f))
    }
}
