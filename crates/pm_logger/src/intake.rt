//! How blocks are taken out of a ring, and the operations at their front appended.

ghost use Rattle.std.specs.Prelude.{◌≡◌, ◌<◌, ◌≤◌, ◌+◌, ◌++◌, true, false, IsTrue, length, drop};
ghost use Rattle.std.specs.Prelude.{Ok, is_ok, IfOk, vec_capacity};
ghost use Rattle.pm_types.specs.declared.limits.TheConstants.{OUTBOX as longest};
ghost use Rattle.pm_disk.specs.States.{HasCause, IsUsable};
ghost use Rattle.pm_segments.specs.Ends.{EndsThere};
ghost use Rattle.pm_logger.specs.Fronts.{IsStop, AppendsFront};
ghost use Rattle.pm_logger.specs.Writers.{writer};
ghost use Rattle.pm_logger.specs.declared.block.TheConstants.{BLOCK_BYTES_MAX as most_in_block};
ghost use Rattle.pm_logger.specs.declared.front.Stop.TheVariants as stop;

use crate::front::{Stop, append_front};
use crate::inbox::Inbox;
use crate::tally::Tally;
use pm_disk::{Failed, LogFile};
use pm_segments::Log;

impl Inbox {
    ghost use Rattle.pm_logger.specs.Inboxes.{kept, waiting, TakesBlock, KeepsSeen, AnswersTaken};
    ghost use Rattle.pm_logger.specs.Inboxes.{AppendsTaken, AppendsGiven, piece_taken, IsHalted};

    /// Appends the whole operations that are kept.
    pub(crate) fn append_kept<L: LogFile>(
        &mut self,
        log: &mut Log,
        dev: &mut L,
        tally: &mut Tally,
    ) -> Result<Stop, Failed>
        requires usable { IsUsable (L.state dev.old) }
        requires end { L.tells → EndsThere log.old (L.history dev.old).world }
        ensures appended { AppendsFront L.tells (writer (L.history dev.old) log.old tally.old)
            (writer (L.history dev.new) log.new tally.new) (is_ok result) (kept self.old) (kept self.new) }
        ensures stop { IfOk result (IsStop (kept self.new) (length tally.new.lines)) }
        ensures ring { self.new.consumer ≡ self.old.consumer }
        ensures cause { HasCause (L.state dev.old) (L.state dev.new) result }
    {
        if self.is_stopped {
            return Ok(Stop::Bad);
        }
        let mut at = 0;
        let appended = append_front(log, dev, tally, &self.kept, &mut at);
        drop_front(&mut self.kept, at);
        self.is_stopped = is_bad(&appended);
        appended
    }

    /// Takes a block that is known to be in the ring, once all whole operations that are kept were appended,
    /// and answers whether it did.
    pub(crate) fn take_block<L: LogFile>(
        &mut self,
        log: &mut Log,
        dev: &mut L,
        tally: &mut Tally,
    ) -> Result<bool, Failed>
        requires usable { IsUsable (L.state dev.old) }
        requires waiting { 0 < length (waiting self.old) }
        requires end { L.tells → EndsThere log.old (L.history dev.old).world }
        ensures appended { AppendsTaken L.tells (writer (L.history dev.old) log.old tally.old)
            (writer (L.history dev.new) log.new tally.new) (is_ok result) self.old self.new }
        ensures seen { KeepsSeen self.old self.new }
        ensures took { IfOk result (λ took. AnswersTaken took self.old self.new (length tally.new.lines)) }
        ensures cause { HasCause (L.state dev.old) (L.state dev.new) result }
    {
        match self.append_kept(log, dev, tally)? {
            Stop::Begun => {
                self.take_next();
                Ok(true)
            }
            Stop::Bad => Ok(false),
            Stop::Full => Ok(false),
        }
    }

    // Takes the next block out of the ring.
    fn take_next(&mut self)
        requires waiting { 0 < length (waiting self.old) }
        requires begun { length (kept self.old) < longest }
        ensures { TakesBlock self.old self.new }
    {
        // It is read where it lies: a block that is moved out first is copied whole, however short it is.
        keep(&mut self.kept, self.consumer.peek_known().bytes());
        self.consumer.pop_known();
    }

    /// Keeps bytes that were given beside the ring, once all whole operations that are kept were appended,
    /// and answers whether it did.
    pub(crate) fn take_piece<L: LogFile>(
        &mut self,
        log: &mut Log,
        dev: &mut L,
        tally: &mut Tally,
        piece: &[u8],
    ) -> Result<bool, Failed>
        requires usable { IsUsable (L.state dev.old) }
        requires short { length piece.now ≤ most_in_block }
        requires end { L.tells → EndsThere log.old (L.history dev.old).world }
        ensures appended { AppendsGiven L.tells (writer (L.history dev.old) log.old tally.old)
            (writer (L.history dev.new) log.new tally.new) (is_ok result) self.old self.new
            (piece_taken result piece.now) }
        ensures halted { IfOk result (λ took. took ≡ false → IsHalted self.new (length tally.new.lines)) }
        ensures cause { HasCause (L.state dev.old) (L.state dev.new) result }
    {
        match self.append_kept(log, dev, tally)? {
            Stop::Begun => {
                keep(&mut self.kept, piece);
                Ok(true)
            }
            Stop::Bad => Ok(false),
            Stop::Full => Ok(false),
        }
    }
}

// Whether what is left is no operation.
fn is_bad(appended: &Result<Stop, Failed>) -> bool
    ensures { IsTrue result → appended.now ≡ Ok stop.Bad }
{
    matches!(appended, Ok(Stop::Bad))
}

// Drops so many bytes at the front.
fn drop_front(kept: &mut Vec<u8>, at: usize)
    requires within { at ≤ length kept.old.items }
    ensures left { kept.new.items ≡ drop at kept.old.items }
    ensures room { vec_capacity kept.new ≡ vec_capacity kept.old }
{
    // A long operation comes in many blocks, of which only the last one lets anything go.
    if at == 0 {
        return;
    }
    let left = kept.len() - at;
    kept.copy_within(at.., 0);
    kept.truncate(left);
}

// Puts bytes after those that are kept, for which there is room.
fn keep(kept: &mut Vec<u8>, bytes: &[u8])
    requires room { length kept.old.items + length bytes.now ≤ vec_capacity kept.old }
    ensures kept { kept.new.items ≡ kept.old.items ++ bytes.now }
    ensures room { vec_capacity kept.old ≤ vec_capacity kept.new }
{
    match kept.extend_from_slice(bytes) {
        Ok(()) => {}
        Err(_) => unreachable!(),
    }
}
