//! How the engine over page frames runs the next lines of a batch, and makes a checkpoint where frames are lacking.

ghost use Rattle.std.specs.Prelude.{◌≡◌, ◌≤◌, ◌<◌, ◌+◌, ◌^◌, Some, true, length, slice_get};
ghost use Rattle.std.specs.List.{All};
ghost use Rattle.pm_disk.specs.States.{IsUsable};
ghost use Rattle.pm_model.specs.declared.line.Cmd.TheVariants.{Checkpoint};
ghost use Rattle.pm_model.specs.declared.line.Line.TheVariants.{Good};
ghost use Rattle.pm_model.specs.Batches.{HasCache};
ghost use Rattle.pm_segments.specs.Ends.{EndsThere};
ghost use Rattle.pm_engine.specs.FrameBatches.{RunsPart, HasFrameFault, LacksIfNone};
ghost use Rattle.pm_engine.specs.FrameStores.{HasCleanPages};
ghost use Rattle.pm_engine.specs.Batches.{is_checkpoint};

use crate::engine::Engine;
use pm_disk::Host;
use pm_model::{Cmd, Line, Replies, Reply};
use pm_types::{Lack, StoreFault};
use std::alloc::Global;
use std::sync::Wait;

impl Engine {
    /// Runs the first of these lines, at least one of them, and says how many: one that asks for a checkpoint alone,
    /// and else as `try_lines` does. Where frames are lacking for the first one, a checkpoint is made.
    ///
    /// Out of memory leaves a prefix of the lines done and answered, and the engine open. It comes too where frames
    /// are lacking though a checkpoint was made. Any other fault closes the engine.
    pub(crate) fn run_next<Q: Wait, H: Host>(
        self,
        rt: &Q,
        alloc: Global,
        host: &mut H,
        lines: &[Line],
        first: u32,
        replies: &mut Replies,
    ) -> (Engine, Result<usize, StoreFault>)
        requires usable { IsUsable (H.Device.state host.old) }
        requires is_open { self.store.is_open ≡ true }
        requires caches { All HasCache lines.now }
        requires some { 0 < length lines.now }
        requires named { first + length lines.now ≤ 2 ^ 32 }
        requires room { length lines.now ≤ replies.old.spare }
        requires end { H.Device.tells → EndsThere self.log (H.Device.history host.old).world }
        requires clean { H.Device.tells → HasCleanPages self.store (H.Device.history host.old).world }
        ensures runs { RunsPart H.Device.tells (H.Device.history host.old) (H.Device.history host.new) first
            lines.now self result.0 replies.old replies.new result.1 }
        ensures cause { HasFrameFault (H.Device.state host.old) (H.Device.state host.new) result.1 }
    {
        if asks_for_checkpoint(&lines[0]) {
            return self.answer_checkpoint(host, lines, first, replies);
        }
        self.run_some(rt, alloc, host, lines, first, replies)
    }

    // Makes the checkpoint that the first line asks for, and answers it.
    fn answer_checkpoint<H: Host>(
        self,
        host: &mut H,
        lines: &[Line],
        first: u32,
        replies: &mut Replies,
    ) -> (Engine, Result<usize, StoreFault>)
        requires usable { IsUsable (H.Device.state host.old) }
        requires is_open { self.store.is_open ≡ true }
        requires asks { slice_get lines.now 0 ≡ Some (Good Checkpoint) }
        requires room { 0 < replies.old.spare }
        requires end { H.Device.tells → EndsThere self.log (H.Device.history host.old).world }
        requires clean { H.Device.tells → HasCleanPages self.store (H.Device.history host.old).world }
        ensures runs { RunsPart H.Device.tells (H.Device.history host.old) (H.Device.history host.new) first
            lines.now self result.0 replies.old replies.new result.1 }
        ensures cause { HasFrameFault (H.Device.state host.old) (H.Device.state host.new) result.1 }
    {
        let mut engine = self;
        match engine.checkpoint_between(host) {
            Err(fault) => (engine, Err(fault)),
            Ok(()) => {
                replies.push(Reply::Done);
                (engine, Ok(1))
            }
        }
    }

    // Runs the first of these lines, which asks for no checkpoint.
    fn run_some<Q: Wait, H: Host>(
        self,
        rt: &Q,
        alloc: Global,
        host: &mut H,
        lines: &[Line],
        first: u32,
        replies: &mut Replies,
    ) -> (Engine, Result<usize, StoreFault>)
        requires usable { IsUsable (H.Device.state host.old) }
        requires is_open { self.store.is_open ≡ true }
        requires caches { All HasCache lines.now }
        requires some { 0 < length lines.now }
        requires named { first + length lines.now ≤ 2 ^ 32 }
        requires room { length lines.now ≤ replies.old.spare }
        requires end { H.Device.tells → EndsThere self.log (H.Device.history host.old).world }
        requires clean { H.Device.tells → HasCleanPages self.store (H.Device.history host.old).world }
        ensures runs { RunsPart H.Device.tells (H.Device.history host.old) (H.Device.history host.new) first
            lines.now self result.0 replies.old replies.new result.1 }
        ensures cause { HasFrameFault (H.Device.state host.old) (H.Device.state host.new) result.1 }
    {
        let (engine, tried) = self.try_lines(rt, alloc, host, lines, first, replies);
        match tried {
            Err(fault) => (engine, Err(fault)),
            Ok(done) => {
                if done > 0 {
                    return (engine, Ok(done));
                }
                engine.run_after_checkpoint(rt, alloc, host, lines, first, replies)
            }
        }
    }

    // Makes a checkpoint, since frames are lacking, and runs the first of these lines.
    fn run_after_checkpoint<Q: Wait, H: Host>(
        self,
        rt: &Q,
        alloc: Global,
        host: &mut H,
        lines: &[Line],
        first: u32,
        replies: &mut Replies,
    ) -> (Engine, Result<usize, StoreFault>)
        requires usable { IsUsable (H.Device.state host.old) }
        requires is_open { self.store.is_open ≡ true }
        requires caches { All HasCache lines.now }
        requires some { 0 < length lines.now }
        requires named { first + length lines.now ≤ 2 ^ 32 }
        requires room { length lines.now ≤ replies.old.spare }
        requires end { H.Device.tells → EndsThere self.log (H.Device.history host.old).world }
        requires clean { H.Device.tells → HasCleanPages self.store (H.Device.history host.old).world }
        ensures runs { RunsPart H.Device.tells (H.Device.history host.old) (H.Device.history host.new) first
            lines.now self result.0 replies.old replies.new result.1 }
        ensures cause { HasFrameFault (H.Device.state host.old) (H.Device.state host.new) result.1 }
    {
        let mut engine = self;
        match engine.checkpoint_between(host) {
            Err(fault) => (engine, Err(fault)),
            Ok(()) => {
                let (engine, tried) = engine.try_lines(rt, alloc, host, lines, first, replies);
                (engine, some_done(tried))
            }
        }
    }
}

// How many lines were done. Frames lack where none was.
fn some_done(tried: Result<usize, StoreFault>) -> Result<usize, StoreFault>
    ensures { LacksIfNone tried result }
{
    match tried {
        Err(fault) => Err(fault),
        Ok(done) => {
            if done == 0 {
                return Err(StoreFault::Memory(Lack::Frames));
            }
            Ok(done)
        }
    }
}

// Whether a line asks for a checkpoint.
fn asks_for_checkpoint(line: &Line) -> bool
    ensures { result ≡ is_checkpoint line.now }
{
    match line {
        Line::Good(Cmd::Put { .. }) => false,
        Line::Good(Cmd::Get { .. }) => false,
        Line::Good(Cmd::Remove { .. }) => false,
        Line::Good(Cmd::Scan { .. }) => false,
        Line::Good(Cmd::Checkpoint) => true,
        Line::Bad => false,
        Line::Long => false,
    }
}
