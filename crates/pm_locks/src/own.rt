//! A worker takes a frame that it owns, and puts it back.

ghost use Rattle.std.specs.Prelude.{◌≡◌};
ghost use Rattle.pm_locks.specs.Sight.{IsSeatOf, IsFrameOf, KnowsAll};
ghost use Rattle.pm_locks.specs.Steps.{put_back};
ghost use Rattle.pm_locks.specs.Views.{known_at};
ghost use Rattle.pm_locks.specs.Words.{put_as};
ghost use Rattle.pm_locks.specs.Answers.{OwnTakeAnswer, HoldsLastPut, IsExactTake, IsOwnOut};
ghost use Rattle.pm_locks.specs.Answers.{IsSameLease, MayPut, out_of};

use crate::locks::Locks;
use crate::plays::Put;
use crate::seats::PageSeat;
use crate::word::{AT_HOME, Word};
use pm_region::Lease;
use pm_types::{Flag, FrameNo, Tag};

/// What `own_take` answers.
#[derive(Drop)]
pub enum Take {
    /// The frame's lease, and its flag.
    Got(Lease, Flag),
    /// The frame has another tag or another owner: look for the page anew.
    Gone,
    /// The frame is out, or was a moment ago, with this word: try again later.
    Busy(Word),
}

impl Locks {
    /// Takes the frame where it is at home with this tag, and a number of this seat owns it.
    ///
    /// `Got`: the lease with the bytes that this seat last put there, and the word's flag. `Gone`:
    /// at the last step the tag was another, or the owner no number of this seat. `Busy`: the frame
    /// is out, or its word changed meanwhile. But for `Got` nothing changes.
    #[inline(always)]
    pub fn own_take(&self, seat: &mut PageSeat, f: FrameNo, tag: Tag) -> Take
        requires seat { IsSeatOf self.now seat.old }
        requires frame { IsFrameOf self.now f }
        ensures seat { IsSeatOf self.now seat.new }
        ensures answer { OwnTakeAnswer seat.old.view seat.new.view f tag result }
        ensures last { HoldsLastPut seat.old.view f tag result }
        ensures exact { KnowsAll self.now seat.old.view
            → IsExactTake seat.old.view tag (known_at seat.old.view f) result }
        ensures knows { KnowsAll self.now seat.old.view → KnowsAll self.now seat.new.view }
    {
        let seen = self.look(seat, f);
        if !seat.owns(&seen, tag) {
            return Take::Gone;
        }
        if seen.holder() != AT_HOME {
            return Take::Busy(seen);
        }
        match self.take_out(seat, f as usize, seen, seen.owner()) {
            Ok(lease) => Take::Got(lease, seen.flag()),
            Err(found) => {
                if seat.owns(&found, tag) {
                    Take::Busy(found)
                } else {
                    Take::Gone
                }
            }
        }
    }

    /// Puts a frame back that this seat took by `own_take` or `steal`, with its lease and a flag.
    ///
    /// Dirty stays Dirty. A frame that was Due or Done and whose bytes changed becomes Dirty. Due
    /// may be put where it was so, and Done where it was so, each with the same bytes; what was Due
    /// becomes nothing but Due or Dirty. Whether Clean is true of the bytes is for the caller to know.
    #[inline(always)]
    pub fn own_put(&self, seat: &mut PageSeat, f: FrameNo, lease: Lease, flag: Flag)
        requires seat { IsSeatOf self.now seat.old }
        requires frame { IsFrameOf self.now f }
        requires out { IsOwnOut seat.old.view f }
        requires lease { IsSameLease (out_of seat.old.view f).lease lease }
        requires flag { MayPut (out_of seat.old.view f) flag lease.bytes }
        ensures seat { IsSeatOf self.now seat.new }
        ensures put { seat.new.view ≡ put_back seat.old.view f
            (put_as flag (out_of seat.old.view f).word) lease.bytes }
        ensures knows { KnowsAll self.now seat.old.view → KnowsAll self.now seat.new.view }
    {
        let seen = self.fill_slot(&mut seat.seat, f as usize, lease);
        let home = Word::pack(seen.tag(), seen.owner(), AT_HOME, flag);
        self.table
            .shared
            .store::<Put>(&mut seat.seat, f as usize, home.0);
    }
}
