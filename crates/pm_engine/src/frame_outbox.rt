//! What the rounds of a store handed over, appended to its log.

ghost use Rattle.std.specs.Prelude.{◌≡◌, ◌++◌, ℕ, List, length, OnOk, OnErr, vec_capacity};
ghost use Rattle.pm_frame.specs.Frames.{Frame};
ghost use Rattle.pm_disk.specs.States.{HasCause, IsUsable};
ghost use Rattle.pm_segments.specs.Ends.{EndsThere};
ghost use Rattle.pm_engine.specs.AppendRuns.{AppendsAll};
ghost use Rattle.pm_engine.specs.FrameHosts.{SendsOutbox};
ghost use Rattle.pm_engine.specs.OutboxLogs.{SpellOperationRecords, SpellNumbers, HasNumberRoom};

use crate::frame_store::FrameStore;
use crate::outbox_log::{append_operations, note_operations};
use pm_disk::{Failed, LogFile};
use pm_segments::Log;

impl FrameStore {
    /// Appends the records of what the rounds of the store handed over to its log, one after the other, and takes
    /// them out of the outbox. The numbers of all its operations are put into `order` before. It takes no memory, and
    /// changes no page.
    ///
    /// After `Failed` a prefix of the records was appended, the last of them in part or not at all, and `order` has
    /// the numbers of all operations. Nothing is to be appended any more.
    pub(crate) fn append_outbox<L: LogFile>(
        &mut self,
        dev: &mut L,
        log: &mut Log,
        order: &mut Vec<u32>,
    ) -> Result<(), Failed>
        requires usable { IsUsable (L.state dev.old) }
        requires room { HasNumberRoom self.old.stripe.outbox (length order.old.items) (vec_capacity order.old) }
        requires end { L.tells → EndsThere log.old (L.history dev.old).world }
        ensures appends { (frames : List Frame) → SpellOperationRecords self.old.stripe.outbox frames
            → AppendsAll L.tells (L.history dev.old) (L.history dev.new) result log.old log.new frames }
        ensures order { (numbers : List ℕ) → SpellNumbers self.old.stripe.outbox numbers
            → order.new.items ≡ order.old.items ++ numbers }
        ensures sent { OnOk result (SendsOutbox self.old self.new) }
        ensures unsent { OnErr result (self.new ≡ self.old) }
        ensures cause { HasCause (L.state dev.old) (L.state dev.new) result }
    {
        let handed = self.stripe.outbox();
        note_operations(handed, order);
        match append_operations(dev, log, handed) {
            Err(failed) => Err(failed),
            Ok(()) => {
                self.empty_outbox();
                Ok(())
            }
        }
    }

    // Takes all out of the outbox.
    fn empty_outbox(&mut self)
        ensures { SendsOutbox self.old self.new }
    {
        let len = self.stripe.outbox().len();
        self.stripe.sent(len);
    }
}
