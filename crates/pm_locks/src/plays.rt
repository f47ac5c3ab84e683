//! The rule of the locks, and what each kind of step tells.

use crate::view::{Start, View};
use atomic_table::{Join, Play, Split, TableRule};
use pm_region::Lease;

/// What holds between any two steps.
pub struct Law;

impl TableRule<Option<Lease>, View, Start> for Law {
    ghost use Rattle.std.specs.Prelude.{map};
    ghost use Rattle.pm_locks.specs.Rule.{IsLawful};
    ghost use Rattle.pm_locks.specs.Opening.{first_view};

    ghost holds = { λ k s. IsLawful k.workers (map (λ y. y.range) k.leases.value.items) s };

    ghost first = { λ k. first_view k.workers k.leases.value.items };
}

/// A load.
pub struct Load;

impl Play<Option<Lease>, View> for Load {
    ghost use Rattle.pm_locks.specs.Kinds.{IsLook};

    ghost then = { λ step m found m'. IsLook step m found m' };
}

/// A frame is taken by its owner or the flusher.
pub struct Hold;

impl Play<Option<Lease>, View> for Hold {
    ghost use Rattle.pm_locks.specs.Kinds.{IsTake};

    ghost then = { IsTake };
}

/// The slot of a frame that is out is given back, emptied.
pub struct Leave;

impl Play<Option<Lease>, View> for Leave {
    ghost use Rattle.pm_locks.specs.Kinds.{IsSlotLeft};

    ghost then = { IsSlotLeft };
}

/// The emptied slot of a frame that is out is carried again.
pub struct Grab;

impl Play<Option<Lease>, View> for Grab {
    ghost use Rattle.pm_locks.specs.Kinds.{IsSlotCarried};

    ghost then = { IsSlotCarried };
}

/// A worker puts a frame back.
pub struct Put;

impl Play<Option<Lease>, View> for Put {
    ghost use Rattle.pm_locks.specs.Kinds.{IsPut};

    ghost then = { IsPut };
}

/// A frame is given to another page.
pub struct Theft;

impl Play<Option<Lease>, View> for Theft {
    ghost use Rattle.pm_locks.specs.Kinds.{IsSteal};

    ghost then = { IsSteal };
}

/// The flusher puts a frame back.
pub struct Flushed;

impl Play<Option<Lease>, View> for Flushed {
    ghost use Rattle.pm_locks.specs.Kinds.{IsFlushPut};

    ghost then = { IsFlushPut };
}

/// A seat hands its least number to a new one.
pub struct Handing;

impl Split<View> for Handing {
    ghost use Rattle.pm_locks.specs.Shares.{what_stays, what_goes};

    ghost left = { what_stays };

    ghost right = { what_goes };
}

/// A seat takes the numbers of another, which is spent.
pub struct Taking;

impl Join<View> for Taking {
    ghost use Rattle.pm_locks.specs.Shares.{joined, nobody};

    ghost both = { joined };

    ghost spent = { nobody };
}
