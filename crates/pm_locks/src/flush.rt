//! The flusher takes a frame whose page is to be written, and puts it back.

ghost use Rattle.std.specs.Prelude.{◌≡◌};
ghost use Rattle.pm_locks.specs.Sight.{IsSeatOf, IsFrameOf, KnowsAll};
ghost use Rattle.pm_locks.specs.Steps.{flushed_back};
ghost use Rattle.pm_locks.specs.Views.{Has, known_at};
ghost use Rattle.pm_locks.specs.Words.{IsFlushed, IsNext, put_as};
ghost use Rattle.pm_locks.specs.Words as word;
ghost use Rattle.pm_locks.specs.Answers.{FlushTakeAnswer, IsExactFlushTake, IsLentOut, out_of};

use crate::locks::Locks;
use crate::plays::Flushed;
use crate::seats::PageSeat;
use crate::word::{AT_HOME, FLUSHER, Word};
use pm_region::Lease;
use pm_types::{Flag, FrameNo, Tag};

/// What `flush_take` answers.
#[derive(Drop)]
pub enum FlushTake {
    /// The frame's lease.
    Got(Lease),
    /// The frame has another tag or another flag: there is nothing to write.
    Moved,
    /// The frame is out, or was a moment ago, with this word: try again later.
    Busy(Word),
}

impl Locks {
    /// Takes the frame where it is at home with this tag and this flag. Where Due is wanted, the
    /// lease holds the image that is due.
    ///
    /// `Moved`: at the last step the tag or the flag was another. `Busy`: the frame is out, or its
    /// word changed meanwhile. But for `Got` nothing changes.
    pub fn flush_take(&self, seat: &mut PageSeat, f: FrameNo, tag: Tag, want: Flag) -> FlushTake
        requires seat { IsSeatOf self.now seat.old }
        requires frame { IsFrameOf self.now f }
        requires flusher { Has seat.old.view word.FLUSHER }
        requires want { IsFlushed want }
        ensures seat { IsSeatOf self.now seat.new }
        ensures answer { FlushTakeAnswer seat.old.view seat.new.view f tag want result }
        ensures exact { KnowsAll self.now seat.old.view
            → IsExactFlushTake tag want (known_at seat.old.view f) result }
        ensures knows { KnowsAll self.now seat.old.view → KnowsAll self.now seat.new.view }
    {
        let seen = self.look(seat, f);
        if !seen.is_wanted(tag, want) {
            return FlushTake::Moved;
        }
        if seen.holder() != AT_HOME {
            return FlushTake::Busy(seen);
        }
        match self.take_out(seat, f as usize, seen, FLUSHER) {
            Ok(lease) => FlushTake::Got(lease),
            Err(found) => {
                if found.is_wanted(tag, want) {
                    FlushTake::Busy(found)
                } else {
                    FlushTake::Moved
                }
            }
        }
    }

    /// Puts a frame back that this seat took by `flush_take`, its bytes unchanged: what was Dirty
    /// as Due, its bytes then being the image that is due, and what was Due as Done, its image
    /// then being taken.
    pub fn flush_put(&self, seat: &mut PageSeat, f: FrameNo, lease: Lease, flag: Flag)
        requires seat { IsSeatOf self.now seat.old }
        requires frame { IsFrameOf self.now f }
        requires out { IsLentOut seat.old.view f }
        requires lease { lease ≡ (out_of seat.old.view f).lease }
        requires flag { IsNext (out_of seat.old.view f).word.flag flag }
        ensures seat { IsSeatOf self.now seat.new }
        ensures put { seat.new.view ≡ flushed_back seat.old.view f
            (put_as flag (out_of seat.old.view f).word) lease.bytes }
        ensures knows { KnowsAll self.now seat.old.view → KnowsAll self.now seat.new.view }
    {
        let seen = self.fill_slot(&mut seat.seat, f as usize, lease);
        let home = Word::pack(seen.tag(), seen.owner(), AT_HOME, flag);
        self.table
            .shared
            .store::<Flushed>(&mut seat.seat, f as usize, home.0);
    }
}
