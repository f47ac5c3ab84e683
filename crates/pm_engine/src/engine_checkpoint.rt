//! How the engine over page frames makes a checkpoint.

ghost use Rattle.std.specs.Prelude.{◌≡◌, ◌+◌, ◌<◌, ◌^◌, ℕ, List, true, OnOk, IfErr};
ghost use Rattle.pm_types.specs.declared.shape.Shape.{Shape};
ghost use Rattle.pm_disk.specs.Moments.{AllMoments};
ghost use Rattle.pm_disk.specs.States.{IsUsable};
ghost use Rattle.pm_segments.specs.Ends.{EndsThere};
ghost use Rattle.pm_model.specs.declared.line.Line.{Line};
ghost use Rattle.pm_model.specs.Eval.{Pairs};
ghost use Rattle.pm_core.specs.Calls.{ChangesDisk};
ghost use Rattle.pm_ckpt.specs.Marked.{begin_of};
ghost use Rattle.pm_engine.specs.Batches.{HasPlainFault};
ghost use Rattle.pm_engine.specs.CheckedEngines.{IsCheckpointedOrClosed, HasPagesInFiles};
ghost use Rattle.pm_engine.specs.Engines.{HasDoneLines, HasLastingLinesIn};
ghost use Rattle.pm_engine.specs.FrameStores.{HasCleanPages};
ghost use Rattle.pm_engine.specs.RunningStores.{number_of};
ghost use Rattle.pm_engine.specs.RunningLines.{CrashHoldsLines};
ghost use Rattle.pm_engine.specs.RunningStores.{HasSegmentsFor};

use crate::engine::Engine;
use crate::log_count::LogCount;
use pm_disk::Host;
use pm_records::CP_BEGIN_LEN;
use pm_segments::Log;
use pm_types::{Place, StoreFault};

impl Engine {
    /// Makes the next checkpoint, of the pages that stay in their frames: `Ckpt::whole` says which steps it makes. No
    /// page stays in its frame then, and its start marker is in force. It takes no memory.
    ///
    /// `Failed` comes only where a call on the disk failed. The engine is closed then, and a prefix of the steps was
    /// made: the store on the disk holds what it held.
    ///
    /// Checkpoints are numbered from 1, and after 2^64 - 1 from 1 again: it promises nothing of the store then.
    pub fn checkpoint<H: Host>(&mut self, host: &mut H) -> Result<(), StoreFault>
        requires usable { IsUsable (H.Device.state host.old) }
        requires is_open { self.old.store.is_open ≡ true }
        requires end { H.Device.tells → EndsThere self.old.log (H.Device.history host.old).world }
        requires clean { H.Device.tells → HasCleanPages self.old.store (H.Device.history host.old).world }
        ensures engine { IsCheckpointedOrClosed self.old self.new result }
        ensures pages { OnOk result (HasPagesInFiles H.Device.tells self.old self.new
            (H.Device.history host.old).world (H.Device.history host.new).world) }

        // Whatever lines the store has done, it has done them still, and all of them last; a crash meanwhile
        // leaves a prefix of them. There have to be numbers for a segment and a checkpoint more.
        ensures lines { H.Device.tells → (wanted : Shape) (told : List ℕ → ℕ) (low : ℕ) (start : Pairs)
            (lines : List Line)
            → HasDoneLines wanted told low start lines self.old (H.Device.history host.old).world
            → HasSegmentsFor self.old.log 1 → number_of self.old.ckpt.mark + 1 < 2 ^ 64
            → OnOk result (HasLastingLinesIn wanted told low start lines self.new
            (H.Device.history host.new).world) }
        ensures crash { H.Device.tells → (wanted : Shape) (told : List ℕ → ℕ) (low : ℕ) (start : Pairs)
            (lines : List Line)
            → HasDoneLines wanted told low start lines self.old (H.Device.history host.old).world
            → HasSegmentsFor self.old.log 1 → number_of self.old.ckpt.mark + 1 < 2 ^ 64
            → AllMoments (H.Device.history host.old) (H.Device.history host.new)
            (CrashHoldsLines (self.old.log.end.seg + 2) (number_of self.old.ckpt.mark + 1)
            wanted self.old.store.shape start lines) }
        ensures failed { IfErr result (λ fault. fault ≡ StoreFault.Failed) }
        ensures disk { H.Device.tells → AllMoments (H.Device.history host.old) (H.Device.history host.new)
            (ChangesDisk (H.Device.history host.old).world) }
        ensures cause { HasPlainFault (H.Device.state host.old) (H.Device.state host.new) result }
    {
        // The next CP_BEGIN stands in a segment that a place may name.
        let _begin = begin_place(&*self.log);
        self.pages
            .checkpoint(host, &mut *self.log, &mut self.ckpt, None)?;
        let total = self.log.appended();
        self.began = LogCount { found: 0, total };
        Ok(())
    }
}

/// Where the next CP_BEGIN goes.
pub(crate) fn begin_place(log: &Log) -> Place
    ensures { (result ≡ begin_of log.now) × (result.seg < 2 ^ 64) }
{
    log.next_place(CP_BEGIN_LEN)
}
