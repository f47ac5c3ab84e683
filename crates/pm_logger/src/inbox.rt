//! The log writer's end of a worker's ring, with what was taken out of it.

ghost use Rattle.std.specs.Prelude.{◌≡◌, ◌<◌, ◌≤◌, ◌↔◌, true, IsTrue, length, IfOk, vec_capacity};
ghost use Rattle.pm_logger.specs.declared.limits.TheConstants.{KEPT_MAX as kept_max};
ghost use Rattle.pm_records.specs.Operations.{IsBad};

use crate::block::Block;
use crate::limits::KEPT_MAX;
use crate::log_end::LogEnd;
use pm_types::RING_SLOTS;
use rtrb::{Consumer, RingBuffer};
use std::alloc::{AllocError, Global};

/// The log writer's end of a worker's ring. What was taken out of it and isn't appended is kept here.
#[derive(Drop)]
pub(crate) struct Inbox {
    pub(crate) consumer: Consumer<Block>,
    pub(crate) kept: Vec<u8>,
    // Whether what is kept is no operation, so that no more is taken.
    pub(crate) is_stopped: bool,
    ghost room: { kept_max ≤ vec_capacity kept },
    ghost bad: { is_stopped ≡ true → IsBad kept.items },
}

impl Inbox {
    ghost use Rattle.pm_logger.specs.Rings.{IsFresh};
    ghost use Rattle.pm_logger.specs.LogEnds.{pushed, SameEnd};
    ghost use Rattle.pm_logger.specs.Inboxes.{IsEndOf, Looks, seen, waiting};

    /// A new ring, as its two ends.
    pub(crate) fn open(alloc: Global) -> Result<(Inbox, LogEnd), AllocError>
        ensures { IfOk result (λ both. IsFresh both.1 both.0) }
    {
        let kept = Vec::with_capacity(alloc, KEPT_MAX)?;
        let (producer, consumer) = RingBuffer::new(alloc, RING_SLOTS)?;
        let inbox = Inbox {
            consumer,
            kept,
            is_stopped: false,
        };
        Ok((inbox, LogEnd { producer }))
    }

    /// Looks what the worker has pushed.
    pub(crate) fn look(&mut self)
        ensures { Looks self.old self.new }
    {
        self.consumer.slots();
    }

    /// Looks what the worker has pushed, with the worker's end at hand: nothing that was pushed escapes it.
    pub(crate) fn look_beside(&mut self, end: &mut LogEnd)
        requires pair { IsEndOf end.old self.old }
        ensures looks { Looks self.old self.new }
        ensures all { seen self.new ≡ pushed end.new }
        ensures end { SameEnd end.old end.new × (pushed end.new ≡ pushed end.old) }
        ensures pair { IsEndOf end.new self.new }
    {
        self.consumer.slots_beside(&mut end.producer);
    }

    /// Whether a block is known to be in the ring.
    pub(crate) fn is_waited_for(&self) -> bool
        ensures { IsTrue result ↔ (0 < length (waiting self.now)) }
    {
        self.consumer.cached_slots() > 0
    }
}
