//! A seat is shared out among the threads of a round, and put together again.

ghost use Rattle.std.specs.Prelude.{◌≡◌, ℕ, ◌<◌, ◌≤◌, [], Some, length, slice_get, vec_capacity};
ghost use Rattle.pm_locks.specs.Sight.{Sight, IsSeatOf, KnowsAll};
ghost use Rattle.pm_locks.specs.Views.{IsWhole, IsStill, entry_at, due_at, flusher_alone};
ghost use Rattle.pm_locks.specs.Shares.{what_stays, what_goes, joined, AreAdjacent, HasBoth, IsShare};
ghost use Rattle.pm_locks.specs.Rounds.{HaveAll, ArePartsOf, AreWorkers, HasGathered, HasReread};
ghost use Rattle.pm_locks.specs.Rounds.{IsEmpty, IsFlushers, IsWorkers};

use crate::locks::Locks;
use crate::plays::{Handing, Taking};
use crate::seats::{PageSeat, Seats};
use crate::view::Numbers;

impl Locks {
    /// Splits the seat for a round: one seat for each worker, in order, and the flusher's, each with
    /// what the seat had of its number.
    pub fn spread(&self, seat: PageSeat, into: &mut Seats)
        requires seat { IsSeatOf self.now seat }
        requires whole { IsWhole seat.view }
        requires still { IsStill seat.view }
        requires empty { IsEmpty into.old }
        requires room { self.now.workers ≤ vec_capacity into.old.workers }
        ensures seats { HaveAll self.now into.new }
        ensures parts { ArePartsOf seat.view into.new }
        ensures room { vec_capacity into.new.workers ≡ vec_capacity into.old.workers }
    {
        let mut seat = seat;
        self.split_workers(&mut seat, &mut into.workers);
        into.flusher = Some(seat);
    }

    // Gives each worker a seat of its own, and leaves the flusher's number.
    fn split_workers(&self, seat: &mut PageSeat, workers: &mut Vec<PageSeat>)
        requires seat { IsSeatOf self.now seat.old }
        requires whole { IsWhole seat.old.view }
        requires still { IsStill seat.old.view }
        requires empty { workers.old.items ≡ [] }
        requires room { self.now.workers ≤ vec_capacity workers.old }
        ensures flusher { IsFlushers self.now seat.new }
        ensures share { IsShare seat.old.view (flusher_alone self.now.workers) seat.new.view }
        ensures met { seat.new.view.met ≡ seat.old.view.met }
        ensures workers { AreWorkers self.now seat.old.view self.now.workers workers.new.items }
        ensures room { vec_capacity workers.new ≡ vec_capacity workers.old }
    {
        'splits: for _ in 0..self.workers {
            let worker = self.split_off(seat);
            workers.push_reserved(worker);
        }
    }

    /// Puts the seats of a round together, into one that stands for all numbers, and loads each
    /// frame's word once. No seat is left, and the room is.
    pub fn gather(&self, seats: &mut Seats) -> PageSeat
        requires { HaveAll self.now seats.old }
        ensures seat { IsSeatOf self.now result }
        ensures whole { IsWhole result.view }
        ensures still { IsStill result.view }
        ensures knows { KnowsAll self.now result.view }
        ensures gathered { HasGathered seats.old result.view }
        // The words stand in `met` after what the flusher's seat met.
        ensures words { (flusher : Sight) → seats.old.flusher ≡ Some flusher
            → HasReread (length self.now.ranges) flusher.view.met result.view }
        ensures empty { IsEmpty seats.new }
        ensures room { vec_capacity seats.new.workers ≡ vec_capacity seats.old.workers }
    {
        let Some(mut seat) = seats.flusher.take() else {
            unreachable!();
        };
        self.join_workers(&mut seat, &mut seats.workers);
        self.look_at_all(&mut seat);
        seat
    }

    // Takes the seats of all workers into the flusher's.
    fn join_workers(&self, seat: &mut PageSeat, workers: &mut Vec<PageSeat>)
        requires flusher { IsFlushers self.now seat.old }
        requires count { length workers.old.items ≡ self.now.workers }
        requires workers { (n : ℕ) (s : Sight) → slice_get workers.old.items n ≡ Some s
            → IsWorkers self.now n s }
        ensures seat { IsSeatOf self.now seat.new }
        ensures whole { IsWhole seat.new.view }
        ensures still { IsStill seat.new.view }
        ensures entries { (n : ℕ) (s : Sight) → slice_get workers.old.items n ≡ Some s
            → (f : ℕ) → entry_at seat.new.view.entries n f ≡ entry_at s.view.entries n f }
        ensures dues { (f : ℕ) → due_at seat.new.view.dues f ≡ due_at seat.old.view.dues f }
        ensures met { seat.new.view.met ≡ seat.old.view.met }
        ensures empty { workers.new.items ≡ [] }
        ensures room { vec_capacity workers.new ≡ vec_capacity workers.old }
    {
        prove!(self.workers <= 8);
        'joins: while let Some(worker) = workers.pop() {
            self.join_in(seat, worker);
        }
    }

    // Loads each frame's word, which is at home, since a seat that has all numbers has nothing out.
    fn look_at_all(&self, seat: &mut PageSeat)
        requires seat { IsSeatOf self.now seat.old }
        requires whole { IsWhole seat.old.view }
        requires still { IsStill seat.old.view }
        ensures seat { IsSeatOf self.now seat.new }
        ensures words { HasReread (length self.now.ranges) seat.old.view.met seat.new.view }
        ensures same { seat.new.view ≡ record seat.old.view {
          words = seat.new.view.words;
          met = seat.new.view.met;
        } }
    {
        'looks: for f in 0..self.frames {
            self.look_at(seat, f);
        }
    }

    // Gives the seat's least number to a new seat.
    fn split_off(&self, seat: &mut PageSeat) -> PageSeat
        requires seat { IsSeatOf self.now seat.old }
        requires some { seat.old.view.numbers.from < seat.old.view.numbers.upto }
        requires still { IsStill seat.old.view }
        ensures seat { IsSeatOf self.now seat.new }
        ensures stays { seat.new.view ≡ what_stays seat.old.view }
        ensures new_seat { IsSeatOf self.now result }
        ensures goes { result.view ≡ what_goes seat.old.view }
    {
        let numbers = seat.numbers;
        let new = self.table.shared.split_seat::<Handing>(&mut seat.seat);
        seat.numbers = Numbers {
            from: numbers.from + 1,
            upto: numbers.upto,
            flusher: numbers.flusher,
        };
        PageSeat {
            seat: new,
            numbers: Numbers {
                from: numbers.from,
                upto: numbers.from + 1,
                flusher: false,
            },
        }
    }

    // Takes the numbers of another seat, which come before its own.
    fn join_in(&self, seat: &mut PageSeat, other: PageSeat)
        requires seat { IsSeatOf self.now seat.old }
        requires other { IsSeatOf self.now other }
        requires follow { AreAdjacent other.view.numbers seat.old.view.numbers }
        requires still { IsStill seat.old.view }
        requires other_still { IsStill other.view }
        ensures seat { IsSeatOf self.now seat.new }
        ensures both { seat.new.view ≡ joined seat.old.view other.view }
        ensures entries { HasBoth seat.old.view other.view seat.new.view }
    {
        let PageSeat {
            seat: spent,
            numbers,
        } = other;
        self.table.shared.join_seat::<Taking>(&mut seat.seat, spent);
        seat.numbers = Numbers {
            from: numbers.from,
            upto: seat.numbers.upto,
            flusher: seat.numbers.flusher,
        };
    }
}
