//! What is left in the rings once the workers have ended, and what they kept themselves.

ghost use Rattle.std.specs.Prelude.{◌≡◌, ◌<◌, length, is_ok, OnOk};
ghost use Rattle.pm_disk.specs.States.{HasCause, IsUsable};
ghost use Rattle.pm_segments.specs.Ends.{EndsThere};
ghost use Rattle.pm_logger.specs.Inboxes.{IsEndOf, AppendsTaken};
ghost use Rattle.pm_logger.specs.LogEnds.{pushed, SameEnd};
ghost use Rattle.pm_logger.specs.Merges.{AppendsMerge};
ghost use Rattle.pm_logger.specs.Rings.{AreLinked, KeepsEnds, IsEmptied, AreEmptied, GivesTo};
ghost use Rattle.pm_logger.specs.Writers.{writer};

use crate::drain::{take_given, take_known};
use crate::inbox::Inbox;
use crate::log_end::LogEnd;
use crate::tally::Tally;
use pm_disk::{Failed, LogFile};
use pm_segments::Log;

/// Takes all that was pushed to each ring, and appends each operation that is whole.
pub(crate) fn take_all<L: LogFile>(
    rings: &mut Vec<Inbox>,
    ends: &mut [LogEnd],
    log: &mut Log,
    dev: &mut L,
    tally: &mut Tally,
) -> Result<(), Failed>
    requires usable { IsUsable (L.state dev.old) }
    requires linked { AreLinked ends.old rings.old.items }
    requires end { L.tells → EndsThere log.old (L.history dev.old).world }
    ensures appended { AppendsMerge L.tells (writer (L.history dev.old) log.old tally.old)
        (writer (L.history dev.new) log.new tally.new) (is_ok result) rings.old.items rings.new.items }
    ensures linked { AreLinked ends.new rings.new.items }
    ensures ends { KeepsEnds ends.old ends.new }
    ensures emptied { OnOk result
        (AreEmptied (length tally.new.lines) (length ends.new) ends.new rings.new.items) }
    ensures cause { HasCause (L.state dev.old) (L.state dev.new) result }
{
    'each: for worker in 0..rings.len() {
        take_rest(&mut rings[worker], &mut ends[worker], log, dev, tally)?;
    }
    Ok(())
}

// Takes all that was pushed to a ring, and appends each operation that is whole.
fn take_rest<L: LogFile>(
    inbox: &mut Inbox,
    end: &mut LogEnd,
    log: &mut Log,
    dev: &mut L,
    tally: &mut Tally,
) -> Result<(), Failed>
    requires usable { IsUsable (L.state dev.old) }
    requires pair { IsEndOf end.old inbox.old }
    requires end { L.tells → EndsThere log.old (L.history dev.old).world }
    ensures appended { AppendsTaken L.tells (writer (L.history dev.old) log.old tally.old)
        (writer (L.history dev.new) log.new tally.new) (is_ok result) inbox.old inbox.new }
    ensures same { SameEnd end.old end.new × (pushed end.new ≡ pushed end.old) }
    ensures pair { IsEndOf end.new inbox.new }
    ensures emptied { OnOk result (IsEmptied (length tally.new.lines) end.new inbox.new) }
    ensures cause { HasCause (L.state dev.old) (L.state dev.new) result }
{
    inbox.look_beside(end);
    take_known(inbox, log, dev, tally)
}

/// Takes bytes that a worker kept itself, after all that it pushed, and appends each operation that is whole.
pub(crate) fn give_to<L: LogFile>(
    rings: &mut Vec<Inbox>,
    worker: usize,
    bytes: &[u8],
    log: &mut Log,
    dev: &mut L,
    tally: &mut Tally,
) -> Result<(), Failed>
    requires usable { IsUsable (L.state dev.old) }
    requires worker { worker < length rings.old.items }
    requires end { L.tells → EndsThere log.old (L.history dev.old).world }
    ensures appended { GivesTo L.tells (writer (L.history dev.old) log.old tally.old)
        (writer (L.history dev.new) log.new tally.new) (is_ok result)
        rings.old.items rings.new.items worker bytes.now }
    ensures cause { HasCause (L.state dev.old) (L.state dev.new) result }
{
    let mut at = 0;
    take_given(&mut rings[worker], log, dev, tally, bytes, &mut at)
}
