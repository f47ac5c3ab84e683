//! How a program opens a store.

ghost use Rattle.std.specs.Prelude.{◌≡◌, ℕ, List, false, IfOk, OnOk};
ghost use Rattle.pm_types.specs.declared.shape.Shape.{Shape};
ghost use Rattle.pm_config.specs.Limits.{IsConfig};
ghost use Rattle.pm_disk.specs.States.{IsUsable};
ghost use Rattle.pm_model.specs.Eval.{Pairs};
ghost use Rattle.pm_core.specs.Starts.{CanBegin};
ghost use Rattle.pm_engine.specs.FrameOpenings.{OpensRunningIn};
ghost use Rattle.pm_engine.specs.Openings.{HasFewNumbers, opened_last, opened_number};
ghost use Rattle.pm_client.specs.OpenEngines.{IsOpenOver};

use pm_config::Config;
use pm_disk::Host;
use pm_engine::Engine;
use pm_types::{OpenFault, StoreFault};
use std::alloc::Global;
use std::sync::Wait;

/// Opens the store of a folder, which is made where it isn't there. What an error means `Engine::open_store` says.
pub fn open<Q: Wait, H: Host>(
    rt: &Q,
    alloc: Global,
    host: &mut H,
    folder: &str,
    config: &Config,
) -> Result<Engine, OpenFault>
    requires whole { (H.Device.state host.old).access.is_lent ≡ false }
    requires config { IsConfig config.now }
    ensures usable { OnOk result (IsUsable (H.Device.state host.new)) }
    ensures open { IfOk result (IsOpenOver H.Device.tells config.now (H.Device.history host.new).world) }

    // Of a sound store with this map: it has the map, and runs.
    ensures opened { H.Device.tells → (told : List ℕ → ℕ) (shape : Shape) (pairs : Pairs)
        → (can : CanBegin config.now.shape told (H.Device.history host.old).world shape pairs)
        → HasFewNumbers can → IfOk result (λ engine. OpensRunningIn (opened_last can) (opened_number can)
        config.now.shape told shape pairs engine (H.Device.history host.new).world) }
{
    if host.bind(folder).is_err() {
        return Err(OpenFault::Store(StoreFault::Failed));
    }
    Engine::open_store(rt, alloc, host, config)
}
