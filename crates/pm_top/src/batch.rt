//! A batch of lines, taken off a script.

ghost use Rattle.std.specs.Prelude.{◌≡◌, ◌≤◌, ◌<◌, [], ◌∷◌, false, length, IsTrue, IfOk, OnOk};
ghost use Rattle.pm_types.specs.declared.limits.TheConstants.{BATCH_LINES_MAX as most_lines};
ghost use Rattle.pm_disk.specs.Moments.{AllMoments};
ghost use Rattle.pm_disk.specs.States.{IsUsable};
ghost use Rattle.pm_script.specs.Reading.{rest_of, KnowsEnd, OnlyTakes};
ghost use Rattle.pm_engine.specs.Batches.{HasPlainFault};
ghost use Rattle.pm_top.specs.Scripts.{batch_lines, takes_more, IsBatch, BatchIsTaken, CountsLines};

use crate::script::{NextLine, next_line};
use pm_disk::Host;
use pm_engine::is_alone;
use pm_model::Line;
use pm_script::Lines;
use pm_types::{BATCH_LINES_MAX, StoreFault};
use std::alloc::{AllocError, Global};

/// How a script goes on after a batch.
#[derive(Clone, Copy, Debug, PartialEq, Eq)]
pub enum Continuation {
    /// With more lines, or with its end.
    More,
    /// It ends.
    End,
    /// With a line that isn't ended within the limits.
    Over,
}

/// The next lines of a script.
#[derive(Drop)]
pub struct Batch {
    /// At most `BATCH_LINES_MAX` lines, which are done together.
    pub lines: Vec<Line>,
    /// The line after these, where it is a batch by itself: one that scans a cache, or asks for a checkpoint.
    pub alone: Vec<Line>,
    /// What comes then.
    pub continuation: Continuation,
}

impl Batch {
    // These lines, with none that is a batch by itself.
    fn ended(alloc: Global, lines: Vec<Line>, continuation: Continuation) -> Batch
        ensures lines { result.lines.items ≡ lines.items }
        ensures alone { result.alone.items ≡ [] }
        ensures continuation { result.continuation ≡ continuation }
    {
        Batch {
            lines,
            alone: Vec::new(alloc),
            continuation,
        }
    }
}

/// Takes the next lines off the script: up to one that is a batch by itself, or all that are left,
/// and as many as a batch may have. It ends before that where the next line isn't in hand and the
/// last read gave fewer bytes than it was asked for: who sends lines one by one gets each reply at
/// once.
pub fn next_batch<H: Host>(
    alloc: Global,
    host: &mut H,
    input: &mut Lines,
) -> Result<Batch, StoreFault>
    requires usable { IsUsable (H.state host.old) }
    requires input_end { H.tells → KnowsEnd input.old (H.history host.old).world }
    ensures batch { IfOk result IsBatch }
    ensures cut { IfOk result (λ batch. batch.continuation ≡ Continuation.More →
        batch.alone.items ≡ [] → takes_more (length batch.lines.items) input.new ≡ false) }
    ensures counts { IfOk result
        (λ batch. CountsLines batch.continuation input.old input.new (length (batch_lines batch))) }
    ensures taken { H.tells → IfOk result (BatchIsTaken input.old input.new
        (rest_of input.old (H.history host.old).world) (rest_of input.new
        (H.history host.new).world)) }
    ensures input_end { H.tells → OnOk result (KnowsEnd input.new (H.history host.new).world) }
    ensures takes { H.tells → AllMoments (H.history host.old) (H.history host.new) (OnlyTakes
        (H.history host.old).world) }
    ensures cause { HasPlainFault (H.state host.old) (H.state host.new) result }
{
    let mut lines = Vec::new(alloc);
    'lines: loop {
        match next_line(alloc, host, input)? {
            NextLine::Line(line) => {
                if is_alone(&line) {
                    let alone = one_line(alloc, line)?;
                    return Ok(Batch {
                        lines,
                        alone,
                        continuation: Continuation::More,
                    });
                }
                lines.push(line)?;
                if !takes_more(lines.len(), input) {
                    return Ok(Batch::ended(alloc, lines, Continuation::More));
                }
            }
            NextLine::End => return Ok(Batch::ended(alloc, lines, Continuation::End)),
            NextLine::Over => return Ok(Batch::ended(alloc, lines, Continuation::Over)),
        }
    }
}

// Whether a batch of so many lines takes one more: it isn't full, and the next line doesn't have to
// be waited for. A read that gave all that was asked for is followed by more, as of a file.
fn takes_more(count: usize, input: &Lines) -> bool
    ensures exact { result ≡ takes_more count input.now }
    ensures room { IsTrue result → count < most_lines }
{
    count < BATCH_LINES_MAX && (!input.was_short() || input.has_next())
}

// A list of one line.
fn one_line(alloc: Global, line: Line) -> Result<Vec<Line>, AllocError>
    ensures { IfOk result (λ lines. lines.items ≡ line ∷ []) }
{
    let mut lines = Vec::new(alloc);
    lines.push(line)?;
    Ok(lines)
}
