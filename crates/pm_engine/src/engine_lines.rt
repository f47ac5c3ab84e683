//! How the engine over page frames does the lines of a round.

ghost use Rattle.std.specs.Prelude.{◌≡◌, ◌+◌, ◌≤◌, ◌^◌, ℕ, Some, true, length, slice_get, IfOk, IsErrOf};
ghost use Rattle.pm_types.specs.declared.fault.PageFault.TheVariants.{Failed as PageFailed};
ghost use Rattle.pm_disk.specs.States.{IsUsable, IsLaterState, Rose};
ghost use Rattle.pm_segments.specs.Ends.{EndsThere};
ghost use Rattle.pm_model.specs.declared.line.Line.{Line as ThisLine};
ghost use Rattle.pm_engine.specs.declared.frame_lines.Stop.TheVariants.{Faulted};
ghost use Rattle.pm_engine.specs.Batches.{HasPlainFault};
ghost use Rattle.pm_engine.specs.Engines.{DoesRoundLines, LosesRoundLines, LeavesEngine};
ghost use Rattle.pm_engine.specs.FrameHosts.{IsStoreLine};
ghost use Rattle.pm_engine.specs.FrameStores.{HasCleanPages};

use crate::engine::Engine;
use crate::frame_rounds::RoundEnd;
use pm_disk::Host;
use pm_model::{Line, Replies};
use pm_types::{Lack, StoreFault};
use std::sync::Wait;

impl Engine {
    /// Does the lines of a round, from one of them on, until all are done or one can't be, as
    /// `FrameStore::run_round` does, and appends what they handed over to the log. The first of all lines is the
    /// operation with the number `first`. It takes its memory before any line is done.
    ///
    /// A fault of the round is said by `RoundEnd::stop`: the lines before it are in the log, and the engine is open no
    /// more. `Failed` comes where a record couldn't be appended: the engine is open no more, and nothing is said of
    /// the replies. In both cases the order has the numbers of all accepted lines that the round did. `Memory` leaves
    /// the engine, the replies and the disk as they were.
    pub(crate) fn run_lines<Q: Wait, H: Host>(
        self,
        rt: &Q,
        host: &mut H,
        lines: &[Line],
        from: usize,
        first: u32,
        replies: &mut Replies,
    ) -> (Engine, Result<RoundEnd, StoreFault>)
        requires open { self.store.is_open ≡ true }
        requires usable { IsUsable (H.Device.state host.old) }
        requires end { H.Device.tells → EndsThere self.log (H.Device.history host.old).world }
        requires clean { H.Device.tells → HasCleanPages self.store (H.Device.history host.old).world }
        requires lines { (i : ℕ) (line : ThisLine) → slice_get lines.now i ≡ Some line → IsStoreLine line }
        requires from { from ≤ length lines.now }
        requires numbers { first + length lines.now ≤ 2 ^ 32 }
        requires room { length lines.now ≤ from + replies.old.spare }
        ensures does { IfOk result.1 (DoesRoundLines H.Device.tells (H.Device.history host.old)
            (H.Device.history host.new) first from lines.now self result.0 replies.old replies.new) }
        ensures loses { IsErrOf result.1 StoreFault.Failed → LosesRoundLines H.Device.tells
            (H.Device.history host.old) (H.Device.history host.new) first from lines.now self result.0 }
        ensures unchanged { (lack : Lack) → IsErrOf result.1 (StoreFault.Memory lack) → LeavesEngine H.Device.tells
            (H.Device.history host.old) (H.Device.history host.new) self result.0 replies.old replies.new }

        // Each fault has its cause.
        ensures failed { IfOk result.1 (λ end. end.stop ≡ Some (Faulted PageFailed)
            → Rose (H.Device.state host.old) (H.Device.state host.new)) }
        ensures cause { HasPlainFault (H.Device.state host.old) (H.Device.state host.new) result.1 }
        ensures later { IsLaterState (H.Device.state host.old) (H.Device.state host.new) }
    {
        let Engine {
            pages,
            mut log,
            ckpt,
            began,
            mut order,
        } = self;
        if order.reserve(lines.len()).is_err() {
            let engine = Engine {
                pages,
                log,
                ckpt,
                began,
                order,
            };
            return (engine, Err(StoreFault::Memory(Lack::Bytes)));
        }
        let (mut pages, ran) = pages.run_round(rt, host, lines, from, first, replies);
        match ran {
            Err(_) => {
                let unchanged = Engine {
                    pages,
                    log,
                    ckpt,
                    began,
                    order,
                };
                (unchanged, Err(StoreFault::Memory(Lack::Bytes)))
            }
            Ok(end) => match pages.append_outbox(host, &mut *log, &mut order) {
                Err(_) => {
                    pages.shut();
                    let closed = Engine {
                        pages,
                        log,
                        ckpt,
                        began,
                        order,
                    };
                    (closed, Err(StoreFault::Failed))
                }
                Ok(()) => {
                    let done = Engine {
                        pages,
                        log,
                        ckpt,
                        began,
                        order,
                    };
                    (done, Ok(end))
                }
            },
        }
    }
}
