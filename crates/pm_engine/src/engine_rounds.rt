//! How the engine over page frames tries lines once: a round of some, or a scan.

ghost use Rattle.std.specs.Prelude.{◌≡◌, ◌≤◌, ◌<◌, ◌+◌, ◌^◌, ◌∷◌, [], ℕ, Some, true, false, length, slice_get};
ghost use Rattle.std.specs.Prelude.{MatchOption};
ghost use Rattle.std.specs.List.{All};
ghost use Rattle.pm_types.specs.declared.limits.TheConstants.{CACHES};
ghost use Rattle.pm_disk.specs.States.{IsUsable};
ghost use Rattle.pm_model.specs.declared.line.Cmd.TheVariants.{Scan};
ghost use Rattle.pm_model.specs.declared.line.Line.{Line as ThisLine};
ghost use Rattle.pm_model.specs.declared.line.Line.TheVariants.{Good};
ghost use Rattle.pm_model.specs.Batches.{HasCache};
ghost use Rattle.pm_segments.specs.Ends.{EndsThere};
ghost use Rattle.pm_engine.specs.FrameBatches.{TriesLines, HasFrameFault, CountsRound, CountsScan, LacksUnlessDone};
ghost use Rattle.pm_engine.specs.FrameBatches.{AreRoundLines, is_alone};
ghost use Rattle.pm_engine.specs.FrameLines.{is_scan};
ghost use Rattle.pm_engine.specs.FrameStores.{HasCleanPages};

use crate::engine::Engine;
use crate::frame_lines::Stop;
use crate::frame_rounds::RoundEnd;
use crate::frame_scans::ScanStop;
use pm_disk::Host;
use pm_model::{Cmd, Line, Replies};
use pm_stripe::Halt;
use pm_types::{Lack, StoreFault};
use std::alloc::Global;
use std::sync::Wait;

impl Engine {
    /// Tries the first of these lines once: a scan alone, and else a round of lines up to the next scan or `checkpoint`
    /// line, or to one for which the outbox has too little room or frames are lacking. It says how many lines were done.
    /// Where none was, no page changed. The first line asks for no checkpoint.
    ///
    /// Out of memory leaves a prefix of the lines done and answered, and the engine open. Any other fault closes it.
    pub(crate) fn try_lines<Q: Wait, H: Host>(
        self,
        rt: &Q,
        alloc: Global,
        host: &mut H,
        lines: &[Line],
        first: u32,
        replies: &mut Replies,
    ) -> (Engine, Result<usize, StoreFault>)
        requires usable { IsUsable (H.Device.state host.old) }
        requires is_open { self.store.is_open ≡ true }
        requires caches { All HasCache lines.now }
        requires some { 0 < length lines.now }
        requires named { first + length lines.now ≤ 2 ^ 32 }
        requires room { length lines.now ≤ replies.old.spare }
        requires end { H.Device.tells → EndsThere self.log (H.Device.history host.old).world }
        requires clean { H.Device.tells → HasCleanPages self.store (H.Device.history host.old).world }
        ensures tries { TriesLines H.Device.tells (H.Device.history host.old) (H.Device.history host.new) first
            lines.now self result.0 replies.old replies.new result.1 }
        ensures cause { HasFrameFault (H.Device.state host.old) (H.Device.state host.new) result.1 }
    {
        match scanned_cache(&lines[0]) {
            Some(cache) => self.try_scan(rt, alloc, host, cache, first, replies),
            None => {
                let some = &lines[..round_length(lines)];
                self.try_round(rt, host, some, first, replies)
            }
        }
    }

    // Does the lines of one round.
    fn try_round<Q: Wait, H: Host>(
        self,
        rt: &Q,
        host: &mut H,
        lines: &[Line],
        first: u32,
        replies: &mut Replies,
    ) -> (Engine, Result<usize, StoreFault>)
        requires usable { IsUsable (H.Device.state host.old) }
        requires is_open { self.store.is_open ≡ true }
        requires caches { All HasCache lines.now }
        requires lines { AreRoundLines lines.now }
        requires named { first + length lines.now ≤ 2 ^ 32 }
        requires room { length lines.now ≤ replies.old.spare }
        requires end { H.Device.tells → EndsThere self.log (H.Device.history host.old).world }
        requires clean { H.Device.tells → HasCleanPages self.store (H.Device.history host.old).world }
        ensures tries { TriesLines H.Device.tells (H.Device.history host.old) (H.Device.history host.new) first
            lines.now self result.0 replies.old replies.new result.1 }
        ensures cause { HasFrameFault (H.Device.state host.old) (H.Device.state host.new) result.1 }
    {
        let (engine, ran) = self.run_lines(rt, host, lines, 0, first, replies);
        match ran {
            Ok(end) => (engine, done_in(end)),
            Err(fault) => (engine, Err(fault)),
        }
    }

    // Answers a scan of a cache, as the line with the number `first`.
    fn try_scan<Q: Wait, H: Host>(
        self,
        rt: &Q,
        alloc: Global,
        host: &mut H,
        cache: u8,
        first: u32,
        replies: &mut Replies,
    ) -> (Engine, Result<usize, StoreFault>)
        requires usable { IsUsable (H.Device.state host.old) }
        requires is_open { self.store.is_open ≡ true }
        requires cache { cache < CACHES }
        requires room { 0 < replies.old.spare }
        requires end { H.Device.tells → EndsThere self.log (H.Device.history host.old).world }
        requires clean { H.Device.tells → HasCleanPages self.store (H.Device.history host.old).world }
        ensures tries { TriesLines H.Device.tells (H.Device.history host.old) (H.Device.history host.new) first
            (Good (Scan cache) ∷ []) self result.0 replies.old replies.new result.1 }
        ensures cause { HasFrameFault (H.Device.state host.old) (H.Device.state host.new) result.1 }
    {
        let Engine {
            pages,
            log,
            ckpt,
            began,
            order,
        } = self;
        let (pages, answer) = pages.scan(rt, alloc, host, cache, replies);
        let engine = Engine {
            pages,
            log,
            ckpt,
            began,
            order,
        };
        (engine, done_by(answer))
    }
}

// How many lines a round did, none where frames are lacking for the first one.
fn done_in(end: RoundEnd) -> Result<usize, StoreFault>
    ensures { CountsRound end result }
{
    match end.stop {
        None => Ok(end.done),
        Some(Stop::Halted(Halt::NoFrame(_))) => Ok(end.done),
        Some(Stop::Halted(Halt::NoLog(_))) => done_or_lacking(end.done),
        Some(Stop::Halted(Halt::NoCopy(_))) => done_or_lacking(end.done),
        Some(Stop::Faulted(fault)) => Err(StoreFault::from(fault)),
    }
}

// The same where what lacks for the next line are no frames: it can't be had where no line was done.
fn done_or_lacking(done: usize) -> Result<usize, StoreFault>
    ensures { LacksUnlessDone done result }
{
    if done == 0 {
        return Err(StoreFault::Memory(Lack::Frames));
    }
    Ok(done)
}

// How many lines a scan did that was answered so: one, or none where frames are lacking for it.
fn done_by(answer: Result<(), ScanStop>) -> Result<usize, StoreFault>
    ensures { CountsScan answer result }
{
    match answer {
        Ok(()) => Ok(1),
        Err(ScanStop::Halted(Halt::NoFrame(_))) => Ok(0),
        Err(ScanStop::Halted(Halt::NoLog(_))) => Err(StoreFault::Memory(Lack::Frames)),
        Err(ScanStop::Halted(Halt::NoCopy(_))) => Err(StoreFault::Memory(Lack::Frames)),
        Err(ScanStop::Memory) => Err(StoreFault::Memory(Lack::Bytes)),
        Err(ScanStop::Faulted(fault)) => Err(StoreFault::from(fault)),
    }
}

// The cache that a line scans, if it is a scan.
fn scanned_cache(line: &Line) -> Option<u8>
    ensures { MatchOption result (is_scan line.now ≡ false) (λ cache. line.now ≡ Good (Scan cache)) }
{
    match line {
        Line::Good(Cmd::Put { .. }) => None,
        Line::Good(Cmd::Get { .. }) => None,
        Line::Good(Cmd::Remove { .. }) => None,
        Line::Good(Cmd::Scan { cache }) => Some(*cache),
        Line::Good(Cmd::Checkpoint) => None,
        Line::Bad => None,
        Line::Long => None,
    }
}

// How many of these lines, from the first on, may be done in one round: those before the next scan or `checkpoint`
// line.
fn round_length(lines: &[Line]) -> usize
    ensures inside { result ≤ length lines.now }
    ensures lines { (i : ℕ) (line : ThisLine) → i < result → slice_get lines.now i ≡ Some line
        → is_alone line ≡ false }
{
    'each: for at in 0..lines.len() {
        if is_alone(&lines[at]) {
            return at;
        }
    }
    lines.len()
}

/// Whether a line isn't done in a round with others: a scan, or a `checkpoint` line.
pub fn is_alone(line: &Line) -> bool
    ensures { result ≡ is_alone line.now }
{
    match line {
        Line::Good(Cmd::Put { .. }) => false,
        Line::Good(Cmd::Get { .. }) => false,
        Line::Good(Cmd::Remove { .. }) => false,
        Line::Good(Cmd::Scan { .. }) => true,
        Line::Good(Cmd::Checkpoint) => true,
        Line::Bad => false,
        Line::Long => false,
    }
}
