//! A command that the log has a record of already, applied again over the page frames of a store that is opened.

ghost use Rattle.std.specs.Prelude.{◌≡◌, ◌<◌, true, IfOk, IsErrOf, OnErr};
ghost use Rattle.pm_types.specs.declared.fault.PageFault.TheVariants.{Failed as PageFailed};
ghost use Rattle.pm_types.specs.declared.page_id.PageId.{PageId};
ghost use Rattle.pm_types.specs.Counts.{HasRisen};
ghost use Rattle.pm_disk.specs.States.{IsLaterState, IsUsable, Rose};
ghost use Rattle.pm_model.specs.declared.line.Line.TheVariants.{Good};
ghost use Rattle.pm_model.specs.Batches.{HasCache};
ghost use Rattle.pm_engine.specs.declared.frame_lines.Stop.TheVariants.{Faulted};
ghost use Rattle.pm_engine.specs.FrameCommands.{IsBetweenLines};
ghost use Rattle.pm_engine.specs.FrameHosts.{ChangesNoWorld};
ghost use Rattle.pm_engine.specs.FrameLines.{IsRoundLine};
ghost use Rattle.pm_engine.specs.FrameReplays.{AppliesInFrames, AppliesToStore, AppliesOver, may_apply_more};
ghost use Rattle.pm_engine.specs.FrameStores.{HasCleanPages};
ghost use Rattle.pm_engine.specs.Records.{IsKeyOf};

use crate::frame_commands::run_in_frames;
use crate::frame_lines::Stop;
use crate::frame_store::FrameStore;
use pm_disk::{Host, Lent, PageReader};
use pm_model::{Cmd, Replies, part_of};
use pm_part::Part;
use pm_stripe::Bound;
use pm_types::Shape;
use std::alloc::AllocError;
use std::sync::Wait;

/// The number of an operation of no line.
const NO_LINE: u32 = 0;

/// Applies a command of this key again over a worker's page frames, as an operation that hands over what it changed
/// and no record of its own: it appends the command's reply, and says whether it was accepted. The store has this
/// shape.
///
/// A command that isn't accepted changes no page. Pages are made ready before, so that it may halt before it begins. A
/// fault ends it in its middle.
pub(crate) fn apply_in_frames<'a, Q: Wait, R: PageReader>(
    bound: &mut Bound<'a, Q, R>,
    shape: Shape,
    key: &[u8],
    cmd: &Cmd,
    replies: &mut Replies,
) -> Result<bool, Stop>
    requires between { IsBetweenLines R.tells R.history R.state bound.old }
    requires shape { shape ≡ bound.old.stripe.shape }
    requires line { IsRoundLine bound.old (Good cmd.now) }
    requires key { IsKeyOf key.now cmd.now }
    requires spare { 0 < replies.old.spare }
    ensures { AppliesInFrames R.tells R.history R.state cmd.now bound.old bound.new replies.old replies.new
        result }
{
    match bound.ready() {
        Err(halt) => Err(Stop::Halted(halt)),
        Ok(()) => {
            let part = Part::new(shape, part_of(key, shape.partitions));
            match run_in_frames(bound, &part, cmd, None, NO_LINE, replies) {
                Ok(accepted) => Ok(accepted),
                Err(fault) => Err(Stop::Faulted(fault)),
            }
        }
    }
}

impl FrameStore {
    /// Applies a command of this key again over the pages of the store: see `apply_in_frames`. The host lends a reader
    /// for it, and has it back afterwards.
    ///
    /// Out of memory, which is said by `Err`, leaves all as it was. After a fault the store isn't open any more:
    /// nothing is to be done with it but to close it.
    pub(crate) fn apply<Q: Wait, H: Host>(
        self,
        rt: &Q,
        host: &mut H,
        key: &[u8],
        cmd: &Cmd,
        replies: &mut Replies,
    ) -> (FrameStore, Result<Result<bool, Stop>, AllocError>)
        requires open { self.is_open ≡ true }
        requires usable { IsUsable (H.state host.old) }
        requires clean { H.tells → HasCleanPages self (H.history host.old).world }
        requires cache { HasCache (Good cmd.now) }
        requires key { IsKeyOf key.now cmd.now }
        requires spare { 0 < replies.old.spare }
        ensures applies { IfOk result.1 (AppliesOver Q H.Reader.tells H.Reader.history H.Reader.state cmd.now self
            result.0 (H.history host.old).world replies.old replies.new (H.state host.old) (H.state host.new)) }
        ensures failed { IfOk result.1 (λ answer. IsErrOf answer (Faulted PageFailed)
            → Rose (H.state host.old) (H.state host.new)) }
        ensures unchanged { OnErr result.1 ((result.0 ≡ self) × (replies.new ≡ replies.old)) }
        ensures world { H.tells → ChangesNoWorld (H.history host.old) (H.history host.new) }
        ensures later { IsLaterState (H.state host.old) (H.state host.new) }
    {
        match host.lend(&[], 1) {
            Err(error) => (self, Err(error)),
            Ok(mut lent) => {
                let reader = lent.readers.pop().unwrap();
                let (store, reader, answer) = self.apply_with(rt, reader, key, cmd, replies);
                lent.readers.push_reserved(reader);
                host.take_back(lent);
                (store, Ok(answer))
            }
        }
    }

    // Applies a command again with this reader, and gives it back.
    fn apply_with<Q: Wait, R: PageReader>(
        self,
        rt: &Q,
        reader: R,
        key: &[u8],
        cmd: &Cmd,
        replies: &mut Replies,
    ) -> (FrameStore, R, Result<bool, Stop>)
        requires open { self.is_open ≡ true }
        requires usable { IsUsable (R.state reader) }
        requires each { (id : PageId) → (R.state reader).access.reads id ≡ true }
        requires clean { R.tells → HasCleanPages self (R.history reader).world }
        requires cache { HasCache (Good cmd.now) }
        requires key { IsKeyOf key.now cmd.now }
        requires spare { 0 < replies.old.spare }
        ensures applies { AppliesToStore Q R.tells R.history R.state cmd.now self result.0
            (R.history reader).world replies.old replies.new result.1 result.2 }
        ensures failed { IsErrOf result.2 (Faulted PageFailed)
            → HasRisen (R.state reader).faults (R.state result.1).faults }
    {
        let FrameStore {
            shape,
            region,
            locks,
            seat,
            stripe,
            dirty: _,
            is_open: _,
        } = self;
        let mut bound = Bound::new(rt, &locks, stripe, seat, reader);
        let answer = apply_in_frames(&mut bound, shape, key, cmd, replies);
        let (stripe, seat, reader) = bound.end();
        let is_open = may_apply_more(&answer);
        let store = FrameStore {
            shape,
            region,
            locks,
            seat,
            stripe,
            dirty: None,
            is_open,
        };
        (store, reader, answer)
    }
}

// Whether more may be done with a store after a command that was answered so.
fn may_apply_more(answer: &Result<bool, Stop>) -> bool
    ensures { result ≡ may_apply_more answer.now }
{
    match answer {
        Ok(_) => true,
        Err(Stop::Halted(_)) => true,
        Err(Stop::Faulted(_)) => false,
    }
}
