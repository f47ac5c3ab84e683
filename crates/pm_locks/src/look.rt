//! A look at a frame's word.

ghost use Rattle.pm_locks.specs.Sight.{IsSeatOf, IsFrameOf, KnowsAll};
ghost use Rattle.pm_locks.specs.Steps.{IsMet};

use crate::locks::Locks;
use crate::plays::Load;
use crate::seats::PageSeat;
use crate::word::Word;
use pm_types::FrameNo;

impl Locks {
    /// The frame's word, at one load.
    pub fn look(&self, seat: &mut PageSeat, f: FrameNo) -> Word
        requires seat { IsSeatOf self.now seat.old }
        requires frame { IsFrameOf self.now f }
        ensures seat { IsSeatOf self.now seat.new }
        ensures met { IsMet seat.old.view seat.new.view f result }
        ensures knows { KnowsAll self.now seat.old.view → KnowsAll self.now seat.new.view }
    {
        self.look_at(seat, f as usize)
    }

    pub(crate) fn look_at(&self, seat: &mut PageSeat, f: usize) -> Word
        requires seat { IsSeatOf self.now seat.old }
        requires frame { IsFrameOf self.now f }
        ensures seat { IsSeatOf self.now seat.new }
        ensures met { IsMet seat.old.view seat.new.view f result }
        ensures knows { KnowsAll self.now seat.old.view → KnowsAll self.now seat.new.view }
    {
        Word(self.table.shared.load::<Load>(&mut seat.seat, f))
    }
}
