//! A worker's bytes, taken as far as they are known.

ghost use Rattle.std.specs.Prelude.{◌≡◌, ◌⊎◌, ◌≤◌, length, take, is_ok, OnOk};
ghost use Rattle.pm_disk.specs.States.{HasCause, IsUsable};
ghost use Rattle.pm_segments.specs.Ends.{EndsThere};
ghost use Rattle.pm_logger.specs.Inboxes.{kept, AppendsTaken, AppendsGiven, KeepsSeen, IsHalted, IsDrained};
ghost use Rattle.pm_records.specs.Operations.{BeginsWithNone};
ghost use Rattle.pm_logger.specs.Writers.{writer};

use crate::block::next_cut;
use crate::inbox::Inbox;
use crate::tally::Tally;
use pm_disk::{Failed, LogFile};
use pm_segments::Log;

/// Takes the blocks that are known to be in a worker's ring, and appends each operation that is whole.
pub(crate) fn take_known<L: LogFile>(
    inbox: &mut Inbox,
    log: &mut Log,
    dev: &mut L,
    tally: &mut Tally,
) -> Result<(), Failed>
    requires usable { IsUsable (L.state dev.old) }
    requires end { L.tells → EndsThere log.old (L.history dev.old).world }
    ensures appended { AppendsTaken L.tells (writer (L.history dev.old) log.old tally.old)
        (writer (L.history dev.new) log.new tally.new) (is_ok result) inbox.old inbox.new }
    ensures seen { KeepsSeen inbox.old inbox.new }
    ensures drained { OnOk result (IsDrained inbox.new (length tally.new.lines)) }
    ensures cause { HasCause (L.state dev.old) (L.state dev.new) result }
{
    'each: while inbox.is_waited_for() {
        let took = inbox.take_block(log, dev, tally)?;
        if !took {
            return Ok(());
        }
    }
    inbox.append_kept(log, dev, tally)?;
    Ok(())
}

/// Takes bytes that were given beside a worker's ring, counts how many it took, and appends each operation
/// that is whole.
pub(crate) fn take_given<L: LogFile>(
    inbox: &mut Inbox,
    log: &mut Log,
    dev: &mut L,
    tally: &mut Tally,
    bytes: &[u8],
    at: &mut usize,
) -> Result<(), Failed>
    requires usable { IsUsable (L.state dev.old) }
    requires front { at.old ≡ 0 }
    requires end { L.tells → EndsThere log.old (L.history dev.old).world }
    ensures appended { AppendsGiven L.tells (writer (L.history dev.old) log.old tally.old)
        (writer (L.history dev.new) log.new tally.new) (is_ok result)
        inbox.old inbox.new (take at.new bytes.now) }
    ensures taken { OnOk result (IsHalted inbox.new (length tally.new.lines)
        ⊎ ((at.new ≡ length bytes.now) × BeginsWithNone (kept inbox.new))) }
    ensures within { at.new ≤ length bytes.now }
    ensures cause { HasCause (L.state dev.old) (L.state dev.new) result }
{
    'each: while *at < bytes.len() {
        let end = next_cut(*at, bytes.len());
        let took = inbox.take_piece(log, dev, tally, &bytes[*at..end])?;
        if !took {
            return Ok(());
        }
        *at = end;
    }
    inbox.append_kept(log, dev, tally)?;
    Ok(())
}
