//! A line over a worker's page frames.

ghost use Rattle.std.specs.Prelude.{◌≡◌, ◌<◌, ◌∷◌, [], Some, false};
ghost use Rattle.pm_records.specs.Records.{Record, Logical};
ghost use Rattle.pm_records.specs.Views.{record_view};
ghost use Rattle.pm_model.specs.declared.line.Line.TheVariants.{Good};
ghost use Rattle.pm_model.specs.ReplyLists.{with_replies};
ghost use Rattle.pm_stripe.specs.Listings.{MayBeLogical};
ghost use Rattle.pm_engine.specs.FrameCommands.{IsBetweenLines};
ghost use Rattle.pm_engine.specs.FrameLines.{IsRoundLine, AnswersInFrames};
ghost use Rattle.pm_engine.specs.Records.{IsKeyOf};
ghost use Rattle.pm_engine.specs.Records.{record_of_line};

use crate::frame_commands::run_in_frames;
use pm_disk::PageReader;
use pm_model::{Cmd, Line, Replies, Reply, part_of};
use pm_part::Part;
use pm_records::{LogRecord, PUT, REMOVE};
use pm_stripe::{Bound, Halt};
use pm_types::{PageFault, Shape};
use std::sync::Wait;

/// Why a line of a round wasn't done.
#[derive(Clone, Copy, Debug, PartialEq, Eq)]
pub enum Stop {
    /// What the line's operation may need is lacking. No page changed, and the round may go on with this
    /// line once it is there.
    Halted(Halt),
    /// A page can't be used. Some pages may be half changed: end the round, and open the store again.
    Faulted(PageFault),
}

/// Does a line of a round over a worker's page frames, as the operation with this number: it appends the
/// line's reply, and says whether the line was accepted. The store has this shape.
///
/// A get, put or removal is an operation on the pages of its key's partition. An accepted one hands over
/// its record and what it changed; any other changes no page. Any other line is answered without its pages;
/// a `checkpoint` is answered as one that was made.
///
/// Pages are made ready for each operation, so that a line may halt before it begins. A fault ends it in
/// its middle: `Failed` comes only where a call on the disk failed, and `BadPage` names a page that the line met,
/// which fails its check, isn't there, or names a wrong page or row.
pub fn line_in_frames<'a, Q: Wait, R: PageReader>(
    bound: &mut Bound<'a, Q, R>,
    shape: Shape,
    line: &Line,
    number: u32,
    replies: &mut Replies,
) -> Result<bool, Stop>
    requires between { IsBetweenLines R.tells R.history R.state bound.old }
    requires shape { shape ≡ bound.old.stripe.shape }
    requires line { IsRoundLine bound.old line.now }
    requires spare { 0 < replies.old.spare }
    ensures { AnswersInFrames R.tells R.history R.state number line.now bound.old bound.new replies.old
        replies.new result }
{
    match line {
        Line::Good(cmd) => command_in_frames(bound, shape, cmd, number, replies),
        Line::Bad => Ok(answer_at_once(replies, Reply::BadLine)),
        Line::Long => Ok(answer_at_once(replies, Reply::LongLine)),
    }
}

// Does a command.
fn command_in_frames<'a, Q: Wait, R: PageReader>(
    bound: &mut Bound<'a, Q, R>,
    shape: Shape,
    cmd: &Cmd,
    number: u32,
    replies: &mut Replies,
) -> Result<bool, Stop>
    requires between { IsBetweenLines R.tells R.history R.state bound.old }
    requires shape { shape ≡ bound.old.stripe.shape }
    requires line { IsRoundLine bound.old (Good cmd.now) }
    requires spare { 0 < replies.old.spare }
    ensures { AnswersInFrames R.tells R.history R.state number (Good cmd.now) bound.old bound.new replies.old
        replies.new result }
{
    match cmd {
        Cmd::Put { cache, key, value } => {
            let rec = record_of(PUT, *cache, key.bytes(), value.bytes());
            key_in_frames(bound, shape, key.bytes(), cmd, &rec, number, replies)
        }
        // A get is never accepted, so that this record isn't handed over.
        Cmd::Get { cache, key } => {
            let rec = record_of(REMOVE, *cache, key.bytes(), b"");
            key_in_frames(bound, shape, key.bytes(), cmd, &rec, number, replies)
        }
        Cmd::Remove { cache, key } => {
            let rec = record_of(REMOVE, *cache, key.bytes(), b"");
            key_in_frames(bound, shape, key.bytes(), cmd, &rec, number, replies)
        }
        Cmd::Scan { .. } => unreachable!(),
        Cmd::Checkpoint => Ok(answer_at_once(replies, Reply::Done)),
    }
}

// Does a command of this key, whose record is this one, if it has one.
fn key_in_frames<'a, Q: Wait, R: PageReader>(
    bound: &mut Bound<'a, Q, R>,
    shape: Shape,
    key: &[u8],
    cmd: &Cmd,
    rec: &LogRecord<'_>,
    number: u32,
    replies: &mut Replies,
) -> Result<bool, Stop>
    requires between { IsBetweenLines R.tells R.history R.state bound.old }
    requires shape { shape ≡ bound.old.stripe.shape }
    requires line { IsRoundLine bound.old (Good cmd.now) }
    requires key { IsKeyOf key.now cmd.now }
    requires logical { MayBeLogical (Some (record_view rec.now)) }
    requires rec { (found : Record) → record_of_line (Good cmd.now) ≡ Some found → record_view rec.now ≡ found }
    requires spare { 0 < replies.old.spare }
    ensures { AnswersInFrames R.tells R.history R.state number (Good cmd.now) bound.old bound.new replies.old
        replies.new result }
{
    match bound.ready() {
        Err(halt) => Err(Stop::Halted(halt)),
        Ok(()) => {
            let part = Part::new(shape, part_of(key, shape.partitions));
            match run_in_frames(bound, &part, cmd, Some(rec), number, replies) {
                Ok(accepted) => Ok(accepted),
                Err(fault) => Err(Stop::Faulted(fault)),
            }
        }
    }
}

// Appends the reply of a line that isn't accepted.
fn answer_at_once(replies: &mut Replies, reply: Reply) -> bool
    requires { 0 < replies.old.spare }
    ensures replied { replies.new ≡ with_replies (reply ∷ []) replies.old }
    ensures refused { result ≡ false }
{
    replies.push(reply);
    false
}

// A logical record.
fn record_of<'a>(op: u8, cache: u8, key: &'a [u8], value: &'a [u8]) -> LogRecord<'a>
    ensures { record_view result ≡ Logical op cache key.now value.now }
{
    LogRecord::Logical {
        op,
        cache,
        key,
        value,
    }
}
