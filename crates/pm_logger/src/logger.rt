//! The log writer.

ghost use Rattle.std.specs.Prelude.{◌≡◌, ◌≤◌, ◌<◌, length};
ghost use Rattle.pm_types.specs.declared.limits.TheConstants.{BATCH_LINES_MAX as most_lines};

use crate::inbox::Inbox;
use crate::log_end::LogEnd;
use crate::rest::{give_to, take_all};
use crate::rings::open_rings;
use crate::tally::Tally;
use crate::turn::turns;
use pm_disk::{Failed, LogFile};
use pm_segments::Log;
use std::alloc::{AllocError, Global};

/// The log writer: it takes the operations that workers push to their rings, and appends them to the log. It
/// may be on a thread of its own. No call but `new` takes memory.
///
/// After `Failed` no call but `lines` is to be made on it: the log takes nothing any more.
#[derive(Drop)]
pub struct Logger {
    rings: Vec<Inbox>,
    tally: Tally,
}

impl Logger {
    ghost use Rattle.std.specs.Prelude.{List, [], is_ok, IfOk, OnOk};
    ghost use Rattle.pm_disk.specs.States.{HasCause, IsUsable};
    ghost use Rattle.pm_segments.specs.Ends.{EndsThere};
    ghost use Rattle.pm_logger.specs.Loggers.{inboxes, noted_lines, since_forced, writer_of};
    ghost use Rattle.pm_logger.specs.Merges.{AppendsMerge};
    ghost use Rattle.pm_logger.specs.Rings.{IsFresh, EachPair, AreLinked, KeepsEnds, AreEmptied};
    ghost use Rattle.pm_logger.specs.Rings.{KeepBeginnings, KeepsNothing, GivesTo};

    /// A log writer for so many workers, and each worker's end of its ring.
    pub fn new(alloc: Global, workers: u32) -> Result<(Logger, Vec<LogEnd>), AllocError>
        ensures many { IfOk result (λ both. length (inboxes both.0) ≡ workers) }
        ensures fresh { IfOk result (λ both. EachPair IsFresh both.1.items (inboxes both.0)) }
        ensures none_noted { IfOk result (λ both. noted_lines both.0 ≡ []) }
        ensures none_since { IfOk result (λ both. since_forced both.0 ≡ 0) }
    {
        let tally = Tally::new(alloc)?;
        let (rings, ends) = open_rings(alloc, workers)?;
        Ok((Logger { rings, tally }, ends))
    }

    /// How many workers there are.
    pub fn workers(&self) -> usize
        ensures { result ≡ length (inboxes self.now) }
    {
        self.rings.len()
    }

    /// Takes what the workers push meanwhile, and appends each operation that is whole. It makes at most 4,096
    /// turns over all rings, forces the log after each 256 operations, and waits for nobody. Of a ring whose
    /// bytes are no operation it takes no more, and of none while 1,024 lines are noted: it ends once they are.
    ///
    /// After `Failed` the operations before one were appended, and this one in part or whole.
    pub fn job<L: LogFile>(&mut self, log: &mut Log, dev: &mut L) -> Result<(), Failed>
        requires usable { IsUsable (L.state dev.old) }
        requires end { L.tells → EndsThere log.old (L.history dev.old).world }
        ensures appended { AppendsMerge L.tells (writer_of (L.history dev.old) log.old self.old)
            (writer_of (L.history dev.new) log.new self.new) (is_ok result)
            (inboxes self.old) (inboxes self.new) }
        ensures linked { (ends : List LogEnd) → AreLinked ends (inboxes self.old)
            → AreLinked ends (inboxes self.new) }
        ensures cause { HasCause (L.state dev.old) (L.state dev.new) result }
    {
        turns(&mut self.rings, log, dev, &mut self.tally)
    }

    /// Takes all that was pushed, once the workers push no more, and appends each operation that is whole.
    /// What is left of a worker then is the begin of an operation, and is kept.
    ///
    /// `ends` are the ends of this log writer's rings, each at its worker's place. After `Failed` as in
    /// `job`.
    pub fn rest<L: LogFile>(
        &mut self,
        ends: &mut [LogEnd],
        log: &mut Log,
        dev: &mut L,
    ) -> Result<(), Failed>
        requires usable { IsUsable (L.state dev.old) }
        requires linked { AreLinked ends.old (inboxes self.old) }
        requires end { L.tells → EndsThere log.old (L.history dev.old).world }
        ensures appended { AppendsMerge L.tells (writer_of (L.history dev.old) log.old self.old)
            (writer_of (L.history dev.new) log.new self.new) (is_ok result)
            (inboxes self.old) (inboxes self.new) }

        // All that was pushed was taken, and no whole operation is left, where its line can be noted.
        ensures emptied { OnOk result (AreEmptied (length (noted_lines self.new)) (length ends.new)
            ends.new (inboxes self.new)) }
        ensures whole { OnOk result (length (noted_lines self.new) < most_lines
            → KeepBeginnings ends.new (inboxes self.old) (inboxes self.new)) }
        ensures linked { AreLinked ends.new (inboxes self.new) }
        ensures ends { KeepsEnds ends.old ends.new }
        ensures cause { HasCause (L.state dev.old) (L.state dev.new) result }
    {
        take_all(&mut self.rings, ends, log, dev, &mut self.tally)
    }

    /// Appends the operations that the worker's kept bytes and these hold together. `rest` was called after
    /// the worker's last push: what it kept itself follows all that it pushed.
    ///
    /// After `Failed` the operations before one were appended, and this one in part or whole.
    pub fn give<L: LogFile>(
        &mut self,
        worker: u32,
        bytes: &[u8],
        log: &mut Log,
        dev: &mut L,
    ) -> Result<(), Failed>
        requires usable { IsUsable (L.state dev.old) }
        requires worker { worker < length (inboxes self.old) }
        requires end { L.tells → EndsThere log.old (L.history dev.old).world }
        ensures appended { GivesTo L.tells (writer_of (L.history dev.old) log.old self.old)
            (writer_of (L.history dev.new) log.new self.new) (is_ok result)
            (inboxes self.old) (inboxes self.new) worker bytes.now }
        ensures whole { OnOk result (length (noted_lines self.new) < most_lines
            → KeepsNothing (inboxes self.old) (inboxes self.new) worker bytes.now) }
        ensures linked { (ends : List LogEnd) → AreLinked ends (inboxes self.old)
            → AreLinked ends (inboxes self.new) }
        ensures cause { HasCause (L.state dev.old) (L.state dev.new) result }
    {
        give_to(
            &mut self.rings,
            worker as usize,
            bytes,
            log,
            dev,
            &mut self.tally,
        )
    }

    /// The numbers of the lines whose logical record's write was tried since the last `clear`, in the log's
    /// order; at most 1,024.
    pub fn lines(&self) -> &[u32]
        ensures lines { result.now ≡ noted_lines self.now }
        ensures most { length result.now ≤ most_lines }
    {
        self.tally.lines()
    }

    /// Forgets the lines noted.
    pub fn clear(&mut self)
        ensures none { noted_lines self.new ≡ [] }
        ensures rings { inboxes self.new ≡ inboxes self.old }
        ensures since { since_forced self.new ≡ since_forced self.old }
    {
        self.tally.clear();
    }
}
