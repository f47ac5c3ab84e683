//! New rings, with both their ends.

ghost use Rattle.std.specs.Prelude.{◌≡◌, length, IfOk};
ghost use Rattle.pm_logger.specs.Rings.{IsFresh, EachPair};

use crate::inbox::Inbox;
use crate::log_end::LogEnd;
use std::alloc::{AllocError, Global};

/// A ring for each of so many workers, as its two ends.
pub(crate) fn open_rings(
    alloc: Global,
    workers: u32,
) -> Result<(Vec<Inbox>, Vec<LogEnd>), AllocError>
    ensures many { IfOk result (λ both. length both.0.items ≡ workers) }
    ensures fresh { IfOk result (λ both. EachPair IsFresh both.1.items both.0.items) }
{
    let mut rings = Vec::new(alloc);
    let mut ends = Vec::new(alloc);
    'each: for _ in 0..workers {
        let (inbox, end) = Inbox::open(alloc)?;
        rings.push(inbox)?;
        ends.push(end)?;
    }
    Ok((rings, ends))
}
