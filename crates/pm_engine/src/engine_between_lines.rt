//! A checkpoint that the engine over page frames makes between two lines.

ghost use Rattle.std.specs.Prelude.{◌≡◌, true};
ghost use Rattle.pm_disk.specs.States.{IsUsable};
ghost use Rattle.pm_segments.specs.Ends.{EndsThere};
ghost use Rattle.pm_engine.specs.Batches.{HasPlainFault};
ghost use Rattle.pm_engine.specs.FrameBatches.{ChecksBetween};
ghost use Rattle.pm_engine.specs.FrameStores.{HasCleanPages};

use crate::engine::Engine;
use pm_disk::Host;
use pm_types::StoreFault;

impl Engine {
    /// Makes a checkpoint between two lines: see `checkpoint`.
    pub(crate) fn checkpoint_between<H: Host>(&mut self, host: &mut H) -> Result<(), StoreFault>
        requires usable { IsUsable (H.Device.state host.old) }
        requires is_open { self.old.store.is_open ≡ true }
        requires end { H.Device.tells → EndsThere self.old.log (H.Device.history host.old).world }
        requires clean { H.Device.tells → HasCleanPages self.old.store (H.Device.history host.old).world }
        ensures checks { ChecksBetween H.Device.tells (H.Device.history host.old) (H.Device.history host.new)
            self.old self.new result }
        ensures cause { HasPlainFault (H.Device.state host.old) (H.Device.state host.new) result }
    {
        match self.checkpoint(host) {
            Err(fault) => Err(fault),
            Ok(()) => {
                self.pages.names_dirty();
                Ok(())
            }
        }
    }
}
