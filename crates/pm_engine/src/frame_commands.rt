//! A command of one partition over a worker's page frames: an operation of a round.

ghost use Rattle.std.specs.Prelude.{◌≡◌, ◌<◌, ◌∷◌, ◌++◌, ℕ, List, [], Some, None, length, OnOk, IfOk};
ghost use Rattle.std.specs.Option.{option_copied};
ghost use Rattle.std.specs.Prelude.{if◌then◌else◌};
ghost use Rattle.pm_model.specs.declared.line.Line.TheVariants.{Good};
ghost use Rattle.pm_model.specs.declared.reply.Reply.{Reply};
ghost use Rattle.pm_pages.specs.SoundPages.{NoBadPage};
ghost use Rattle.pm_part.specs.Commands.{IsPartCmd, RepliesOnce, accepts};
ghost use Rattle.pm_part.specs.Faults.{HasPartCause, IsFaultOf};
ghost use Rattle.pm_part.specs.Runs.{IsGet};
ghost use Rattle.pm_stripe.specs.Begins.{MayBegin};
ghost use Rattle.pm_stripe.specs.Dones.{HasOutboxRoom, EndsOperation};
ghost use Rattle.pm_stripe.specs.Listings.{MayBeLogical, GrowsByOperation, given_record};
ghost use Rattle.pm_stripe.specs.Puts.{AreToldCovered};
ghost use Rattle.pm_stripe.specs.Shown.{IsReady};
ghost use Rattle.pm_engine.specs.FrameCommands.{frame_pages, part_seen, AreReadable, IsPartOf};
ghost use Rattle.pm_engine.specs.FrameCommands.{HasWellFormed, LeavesWorker, DoesCommand, RunsLineOn};

use crate::accepting::was_accepted;
use pm_disk::PageReader;
use pm_model::{Cmd, Replies};
use pm_part::Part;
use pm_records::LogRecord;
use pm_stripe::Bound;
use pm_types::PageFault;
use std::sync::Wait;

/// Does a put, get or removal of a partition of the worker's, once `Bound::ready` answered Ok, as the
/// operation of this line. It appends the reply, and says whether the command was accepted.
///
/// An accepted command hands over this record, where there is one, and what it changed, to be appended to the
/// log. One that isn't accepted hands over nothing, and changes no page. A get changes no page, whatever it answers.
///
/// `Failed` comes only where a call on the disk failed, and `BadPage` only of a partition that isn't well
/// formed. After a fault no reply was appended and nothing was handed over, and pages in hand may be half
/// changed: the round is to be ended.
pub fn run_in_frames<'a, Q: Wait, R: PageReader>(
    bound: &mut Bound<'a, Q, R>,
    part: &Part,
    cmd: &Cmd,
    rec: Option<&LogRecord<'_>>,
    line: u32,
    replies: &mut Replies,
) -> Result<bool, PageFault>
    requires begins { MayBegin R.tells R.history R.state bound.old }
    requires readable { AreReadable R.history bound.old }
    requires part { IsPartOf bound.old part.now }
    requires cmd { IsPartCmd part.now.shape part.now.part cmd.now }
    requires logical { MayBeLogical (given_record (option_copied rec)) }
    requires spare { 0 < replies.old.spare }
    ensures leaves { LeavesWorker R.tells R.history R.state bound.old bound.new result }
    ensures replied { RepliesOnce replies.old replies.new result }
    ensures does { IfOk result (DoesCommand R.tells R.history line (given_record (option_copied rec.entry)) part.now.part cmd.now
        bound.old bound.new replies.old replies.new) }
    ensures looks { R.tells → IsGet cmd.now → (index : ℕ)
        → (part_seen R.history R.state bound.new part.now.part).pages index
        ≡ (part_seen R.history R.state bound.old part.now.part).pages index }
    ensures cause { HasPartCause R.tells (part_seen R.history R.state bound.old part.now.part)
        (part_seen R.history R.state bound.new part.now.part)
        (IsFaultOf R.tells (part_seen R.history R.state bound.new part.now.part) cmd.now) result }

    // Where the reader tells, and the partition is well formed, the command is evaluated as the model says.
    ensures runs { R.tells → HasWellFormed part.now.shape (frame_pages R.history bound.old) part.now.part
        → OnOk result (RunsLineOn part.now.shape part.now.part (Good cmd.now) (frame_pages R.history bound.old)
        (frame_pages R.history bound.new) replies.old replies.new) }
    ensures sound { R.tells → HasWellFormed part.now.shape (frame_pages R.history bound.old) part.now.part
        → NoBadPage result }
{
    bound.at(part.number());
    match part.run(cmd, bound, replies) {
        Err(fault) => Err(fault),
        Ok(()) => {
            let accepted = was_accepted(cmd, replies);
            end_operation(bound, rec, line, accepted);
            Ok(accepted)
        }
    }
}

// Ends the operation of a command: it hands over this record, if there is one, where the command was accepted, and
// what it changed.
fn end_operation<'a, Q: Wait, R: PageReader>(
    bound: &mut Bound<'a, Q, R>,
    rec: Option<&LogRecord<'_>>,
    line: u32,
    accepted: bool,
)
    requires ready { IsReady R.tells R.history R.state bound.old }
    requires room { HasOutboxRoom bound.old.stripe }
    requires logical { MayBeLogical (given_record (option_copied rec)) }
    requires covered { AreToldCovered R.tells bound.old.stripe.held.items }
    ensures grows { GrowsByOperation line (if accepted then given_record (option_copied rec.entry) else None)
        bound.old.stripe.held.items bound.old.stripe.outbox bound.new.stripe.outbox }
    ensures ends { EndsOperation R.tells R.history R.state bound.old bound.new }
{
    if accepted {
        bound.done(line, rec);
    } else {
        bound.done(line, None);
    }
}
