//! A worker forgets which frames keep its pages.

ghost use Rattle.std.specs.Prelude.{◌≡◌, false, None};
ghost use Rattle.pm_stripe.specs.Forgets.{AreSpare, ForgetsPages};
ghost use Rattle.pm_stripe.specs.Stripes.{kept, SameButPages};

use crate::stripe::Stripe;
use pm_locks::PageSeat;
use pm_types::PageId;

impl Stripe {
    /// Forgets which frames keep its pages, so that each is read anew from its file where it is asked for.
    ///
    /// Nothing that isn't in the files may be lost by it: what the worker last put into each of these frames is
    /// Empty or Clean, and no checkpoint runs.
    ///
    /// Not used by the program yet. The seat isn't used in the body: the contract speaks of it.
    pub fn forget(&mut self, _seat: &PageSeat)
        requires rests { self.old.is_running ≡ false }
        requires spare { AreSpare (kept self.old _seat.now) }
        ensures forgets { ForgetsPages (kept self.old _seat.now) (kept self.new _seat.now) }
        ensures same { SameButPages self.old self.new }
        ensures held { self.new.held ≡ self.old.held }
        ensures free { self.new.free ≡ self.old.free }
    {
        self.places.clear();
    }

    /// Answers `None`. It stands for what a checkpoint that runs beside operations will ask for: the copy of a
    /// page that it still has to write, made before an operation changed the page. No operation begins while a
    /// checkpoint runs, so no copy is made.
    ///
    /// Not used by the program yet.
    pub fn take_copy(&mut self) -> Option<(PageId, Vec<u8>)>
        ensures none { result ≡ None }
        ensures same { self.new ≡ self.old }
    {
        None
    }
}
