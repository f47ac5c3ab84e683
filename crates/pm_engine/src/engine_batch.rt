//! How the engine over page frames runs a batch of lines, and when it makes checkpoints meanwhile.

ghost use Rattle.std.specs.Prelude.{◌≡◌, ◌≤◌, ◌+◌, ◌*◌, ◌^◌, true, false, length, OnOk};
ghost use Rattle.std.specs.List.{All};
ghost use Rattle.pm_types.specs.declared.limits.TheConstants.{OP_PAGES};
ghost use Rattle.pm_disk.specs.States.{IsUsable};
ghost use Rattle.pm_model.specs.Batches.{HasCache};
ghost use Rattle.pm_segments.specs.Ends.{EndsThere};
ghost use Rattle.pm_engine.specs.FrameBatches.{RunsFrameBatch, LeavesAllLastingIn, LeavesAllAtRest, TakesNumbersIn};
ghost use Rattle.pm_engine.specs.FrameBatches.{RunsAllParts, MakesAskedIn, HasFrameFault, is_due_in};
ghost use Rattle.pm_engine.specs.FrameStores.{HasCleanPages};
ghost use Rattle.pm_engine.specs.Batches.{StaysOpen};

use crate::engine::Engine;
use pm_config::Config;
use pm_disk::Host;
use pm_model::{Line, Replies};
use pm_types::StoreFault;
use std::alloc::Global;
use std::sync::Wait;

impl Engine {
    /// Runs a batch of lines, of which the first has the number `first`, appends their replies, and forces the log. The
    /// lines are done in rounds, each up to the next scan or `checkpoint` line, or to one for which the outbox has too
    /// little room or frames are lacking. A `checkpoint` line makes a checkpoint before it is answered. So does a line for which frames are lacking, and the end of the batch where one is due
    /// then. The configuration has as many frames as the engine.
    ///
    /// Out of memory leaves a prefix of the lines done and answered, and the engine open; it comes too where frames are
    /// lacking though a checkpoint was made. `Failed` and `BadPage` close it: after a crash the disk holds a prefix of
    /// the lines that were tried, and the order has the numbers of all accepted ones among these, also where their
    /// records couldn't be appended whole. `Failed` comes only where a call on the host failed. `BadPage` names a page
    /// that a line met, which fails its check, isn't there, or names a wrong page or row; it never comes over a sound
    /// store.
    ///
    /// What is done by the lines, and what the disk holds after it, and after a crash meanwhile, is said of a store that
    /// is sound, as long as there are numbers for the segments and checkpoints that the batch may take.
    pub fn batch<Q: Wait, H: Host>(
        self,
        rt: &Q,
        alloc: Global,
        host: &mut H,
        config: &Config,
        lines: &[Line],
        first: u32,
        replies: &mut Replies,
    ) -> (Engine, Result<(), StoreFault>)
        requires usable { IsUsable (H.Device.state host.old) }
        requires is_open { self.store.is_open ≡ true }
        requires frames { config.now.frames ≡ length self.store.locks.ranges }
        requires caches { All HasCache lines.now }
        requires named { first + length lines.now ≤ 2 ^ 32 }
        requires room { length lines.now ≤ replies.old.spare }
        requires end { H.Device.tells → EndsThere self.log (H.Device.history host.old).world }
        requires clean { H.Device.tells → HasCleanPages self.store (H.Device.history host.old).world }
        ensures runs { RunsFrameBatch H.Device.tells (H.Device.history host.old) (H.Device.history host.new) first
            lines.now ((OP_PAGES + 2) * length lines.now + 1) (length lines.now + 1) self result.0
            replies.old replies.new result.1 }
        ensures lasts { LeavesAllLastingIn H.Device.tells (H.Device.history host.old) (H.Device.history host.new)
            lines.now ((OP_PAGES + 2) * length lines.now + 1) (length lines.now + 1) self result.0 result.1 }
        ensures rests { LeavesAllAtRest H.Device.tells (H.Device.history host.old) (H.Device.history host.new)
            ((OP_PAGES + 2) * length lines.now + 1) (length lines.now + 1) self result.0 result.1 }
        ensures asked { OnOk result.1 (MakesAskedIn self result.0 lines.now (length lines.now + 1)) }
        ensures not_due { OnOk result.1 (is_due_in result.0 config.now ≡ false) }

        // How many segments and checkpoints it takes at most: by it there are numbers for the next batch.
        ensures numbers { StaysOpen result.1 → TakesNumbersIn self result.0 ((OP_PAGES + 2) * length lines.now + 1)
            (length lines.now + 1) }
        ensures cause { HasFrameFault (H.Device.state host.old) (H.Device.state host.new) result.1 }
    {
        let (mut engine, ran) = self.run_parts(rt, alloc, host, lines, first, replies);
        match ran {
            Err(fault) => (engine, Err(fault)),
            Ok(()) => {
                let ended = engine.end_batch(host, config, config.checkpoint_bytes);
                (engine, ended)
            }
        }
    }

    // Runs lines one part after the other, and appends their replies.
    fn run_parts<Q: Wait, H: Host>(
        self,
        rt: &Q,
        alloc: Global,
        host: &mut H,
        lines: &[Line],
        first: u32,
        replies: &mut Replies,
    ) -> (Engine, Result<(), StoreFault>)
        requires usable { IsUsable (H.Device.state host.old) }
        requires is_open { self.store.is_open ≡ true }
        requires caches { All HasCache lines.now }
        requires named { first + length lines.now ≤ 2 ^ 32 }
        requires room { length lines.now ≤ replies.old.spare }
        requires end { H.Device.tells → EndsThere self.log (H.Device.history host.old).world }
        requires clean { H.Device.tells → HasCleanPages self.store (H.Device.history host.old).world }
        ensures runs { RunsAllParts H.Device.tells (H.Device.history host.old) (H.Device.history host.new) first
            lines.now self result.0 replies.old replies.new result.1 }
        ensures cause { HasFrameFault (H.Device.state host.old) (H.Device.state host.new) result.1 }
    {
        let mut engine = self;
        let mut done = 0;
        'parts: while done < lines.len() {
            let number = first + done as u32;
            let (next, ran) = engine.run_next(rt, alloc, host, &lines[done..], number, replies);
            engine = next;
            match ran {
                Err(fault) => return (engine, Err(fault)),
                Ok(more) => done += more,
            }
        }
        (engine, Ok(()))
    }
}
