//! A turn of the log writer over all rings.

ghost use Rattle.std.specs.Prelude.{is_ok};
ghost use Rattle.pm_disk.specs.States.{HasCause, IsUsable};
ghost use Rattle.pm_segments.specs.Ends.{EndsThere};
ghost use Rattle.pm_logger.specs.Inboxes.{AppendsTaken};
ghost use Rattle.pm_logger.specs.Merges.{AppendsMerge};
ghost use Rattle.pm_logger.specs.Writers.{writer};

use crate::drain::take_known;
use crate::inbox::Inbox;
use crate::limits::TURNS_MAX;
use crate::tally::Tally;
use pm_disk::{Failed, LogFile};
use pm_segments::Log;

/// Looks into each ring once, takes what is there, and appends each operation that is whole.
pub(crate) fn turn<L: LogFile>(
    rings: &mut Vec<Inbox>,
    log: &mut Log,
    dev: &mut L,
    tally: &mut Tally,
) -> Result<(), Failed>
    requires usable { IsUsable (L.state dev.old) }
    requires end { L.tells → EndsThere log.old (L.history dev.old).world }
    ensures appended { AppendsMerge L.tells (writer (L.history dev.old) log.old tally.old)
        (writer (L.history dev.new) log.new tally.new) (is_ok result) rings.old.items rings.new.items }
    ensures cause { HasCause (L.state dev.old) (L.state dev.new) result }
{
    'each: for worker in 0..rings.len() {
        take_ready(&mut rings[worker], log, dev, tally)?;
    }
    Ok(())
}

/// Makes all turns of a call, one after the other, and none once no more lines can be noted, since it
/// would read no ring.
pub(crate) fn turns<L: LogFile>(
    rings: &mut Vec<Inbox>,
    log: &mut Log,
    dev: &mut L,
    tally: &mut Tally,
) -> Result<(), Failed>
    requires usable { IsUsable (L.state dev.old) }
    requires end { L.tells → EndsThere log.old (L.history dev.old).world }
    ensures appended { AppendsMerge L.tells (writer (L.history dev.old) log.old tally.old)
        (writer (L.history dev.new) log.new tally.new) (is_ok result) rings.old.items rings.new.items }
    ensures cause { HasCause (L.state dev.old) (L.state dev.new) result }
{
    'each: for _ in 0..TURNS_MAX {
        turn(rings, log, dev, tally)?;
        if tally.is_full() {
            return Ok(());
        }
    }
    Ok(())
}

// Looks into a ring, takes what is there, and appends each operation that is whole.
fn take_ready<L: LogFile>(
    inbox: &mut Inbox,
    log: &mut Log,
    dev: &mut L,
    tally: &mut Tally,
) -> Result<(), Failed>
    requires usable { IsUsable (L.state dev.old) }
    requires end { L.tells → EndsThere log.old (L.history dev.old).world }
    ensures appended { AppendsTaken L.tells (writer (L.history dev.old) log.old tally.old)
        (writer (L.history dev.new) log.new tally.new) (is_ok result) inbox.old inbox.new }
    ensures cause { HasCause (L.state dev.old) (L.state dev.new) result }
{
    inbox.look();
    take_known(inbox, log, dev, tally)
}
