//! How the engine over page frames forces its log.

ghost use Rattle.std.specs.Prelude.{◌≡◌, ◌+◌, ℕ, List, true, OnOk};
ghost use Rattle.pm_types.specs.declared.shape.Shape.{Shape};
ghost use Rattle.pm_disk.specs.Moments.{AllMoments};
ghost use Rattle.pm_disk.specs.States.{HasCause, IsUsable};
ghost use Rattle.pm_segments.specs.Ends.{EndsThere};
ghost use Rattle.pm_model.specs.declared.line.Line.{Line};
ghost use Rattle.pm_model.specs.Eval.{Pairs};
ghost use Rattle.pm_core.specs.Calls.{ChangesDisk};
ghost use Rattle.pm_engine.specs.Engines.{HasDoneLines, HasLastingLinesIn, AllLastIn};
ghost use Rattle.pm_engine.specs.FrameForces.{IsSameOrClosed, ReadsAsBefore};
ghost use Rattle.pm_engine.specs.RunningStores.{number_of};
ghost use Rattle.pm_engine.specs.RunningLines.{CrashHoldsLines};

use crate::engine::Engine;
use pm_disk::{Failed, Host};

impl Engine {
    /// Forces the log up to its end, so that all its lines last. It takes no memory.
    ///
    /// `Failed` comes only where a call on the disk failed. The engine is open no more then, and what was appended since
    /// the last force may last or not.
    pub(crate) fn force<H: Host>(&mut self, host: &mut H) -> Result<(), Failed>
        requires usable { IsUsable (H.Device.state host.old) }
        requires open { self.old.store.is_open ≡ true }
        requires end { H.Device.tells → EndsThere self.old.log (H.Device.history host.old).world }
        ensures engine { IsSameOrClosed self.old self.new result }
        ensures reads { H.Device.tells → OnOk result (ReadsAsBefore self.old self.new
            (H.Device.history host.old).world (H.Device.history host.new).world) }

        // Whatever lines the store has done, it has done them still, and a crash holds all of them from then on.
        ensures lasts { H.Device.tells → (wanted : Shape) (told : List ℕ → ℕ) (low : ℕ) (start : Pairs)
            (lines : List Line)
            → HasDoneLines wanted told low start lines self.old (H.Device.history host.old).world
            → OnOk result (HasLastingLinesIn wanted told low start lines self.new (H.Device.history host.new).world) }
        ensures rests { H.Device.tells → (wanted : Shape) (told : List ℕ → ℕ) (low : ℕ) (start : Pairs)
            (lines : List Line)
            → HasDoneLines wanted told low start lines self.old (H.Device.history host.old).world
            → OnOk result (AllLastIn wanted told self.new (H.Device.history host.new).world) }
        ensures crash { H.Device.tells → (wanted : Shape) (told : List ℕ → ℕ) (low : ℕ) (start : Pairs)
            (lines : List Line)
            → HasDoneLines wanted told low start lines self.old (H.Device.history host.old).world
            → AllMoments (H.Device.history host.old) (H.Device.history host.new)
            (CrashHoldsLines (self.old.log.end.seg + 1) (number_of self.old.ckpt.mark)
            wanted self.old.store.shape start lines) }
        ensures disk { H.Device.tells → AllMoments (H.Device.history host.old) (H.Device.history host.new)
            (ChangesDisk (H.Device.history host.old).world) }
        ensures cause { HasCause (H.Device.state host.old) (H.Device.state host.new) result }
    {
        match self.log.force(host) {
            Err(failed) => {
                self.pages.shut();
                Err(failed)
            }
            Ok(()) => Ok(()),
        }
    }
}
