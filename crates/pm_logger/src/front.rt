//! The operations at the front of a worker's bytes, appended one after the other.

ghost use Rattle.std.specs.Prelude.{◌≡◌, ◌<◌, ◌≤◌, length, drop, is_ok, IfOk, MatchResult};
ghost use Rattle.pm_types.specs.declared.limits.TheConstants.{BATCH_LINES_MAX as most_lines};
ghost use Rattle.pm_disk.specs.States.{HasCause, IsUsable};
ghost use Rattle.pm_segments.specs.Ends.{EndsThere};
ghost use Rattle.pm_logger.specs.Fronts.{IsWholeFront, IsStop, AppendsFront};
ghost use Rattle.pm_logger.specs.Writers.{writer};

use crate::append::append_operation;
use crate::operation::{Front, front_of};
use crate::tally::Tally;
use pm_disk::{Failed, LogFile};
use pm_segments::Log;

/// Why no more is appended of a worker's bytes.
#[derive(Clone, Copy, PartialEq, Eq, Debug)]
pub(crate) enum Stop {
    /// What is left is a part of an operation, or nothing.
    Begun,
    /// What is left is no operation.
    Bad,
    /// No more lines can be noted.
    Full,
}

/// Appends the operations at the front of these bytes, and counts how many bytes they have.
pub(crate) fn append_front<L: LogFile>(
    log: &mut Log,
    dev: &mut L,
    tally: &mut Tally,
    bytes: &[u8],
    at: &mut usize,
) -> Result<Stop, Failed>
    requires usable { IsUsable (L.state dev.old) }
    requires front { at.old ≡ 0 }
    requires end { L.tells → EndsThere log.old (L.history dev.old).world }
    ensures appended { AppendsFront L.tells (writer (L.history dev.old) log.old tally.old)
        (writer (L.history dev.new) log.new tally.new) (is_ok result) bytes.now (drop at.new bytes.now) }
    ensures stop { IfOk result (IsStop (drop at.new bytes.now) (length tally.new.lines)) }
    ensures within { at.new ≤ length bytes.now }
    ensures cause { HasCause (L.state dev.old) (L.state dev.new) result }
{
    'each: loop {
        let len = match next_len(tally, &bytes[*at..]) {
            Ok(len) => len,
            Err(stop) => return Ok(stop),
        };
        append_operation(log, dev, tally, &bytes[*at..*at + len])?;
        *at += len;
    }
}

// How long the operation at the front of these bytes is, which can be appended with these lines noted, or why
// none can.
fn next_len(tally: &Tally, bytes: &[u8]) -> Result<usize, Stop>
    ensures { MatchResult result (λ len. IsWholeFront bytes.now len × (length tally.now.lines < most_lines))
        (IsStop bytes.now (length tally.now.lines)) }
{
    if tally.is_full() {
        return Err(Stop::Full);
    }
    match front_of(bytes) {
        Front::Whole(len) => Ok(len),
        Front::Begun => Err(Stop::Begun),
        Front::Bad => Err(Stop::Bad),
    }
}
