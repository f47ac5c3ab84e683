//! A program's work with a store, from its opening to its end.

ghost use Rattle.std.specs.Prelude.{◌≡◌, ◌<◌, ◌+◌, ◌^◌, ◌∷◌, [], ℕ, List, false, OnOk};
ghost use Rattle.pm_types.specs.declared.limits.TheConstants.{CACHES};
ghost use Rattle.pm_types.specs.declared.shape.Shape.{Shape};
ghost use Rattle.pm_config.specs.Limits.{IsConfig};
ghost use Rattle.pm_model.specs.Eval.{Pairs};
ghost use Rattle.pm_core.specs.Starts.{CanBegin};
ghost use Rattle.pm_engine.specs.Openings.{HasFewNumbers, opened_last, opened_number};
ghost use Rattle.pm_client.specs.Rows.{AllLast, put_line};

use crate::opening::open;
use crate::putting::put;
use pm_config::Config;
use pm_disk::Host;
use pm_types::{Key, OpenFault, Value};
use std::alloc::Global;
use std::sync::Wait;

/// Opens the store of a folder, puts a row, makes a checkpoint, and closes the store. Answers whether the row is put.
pub fn put_once<Q: Wait, H: Host>(
    rt: &Q,
    alloc: Global,
    host: &mut H,
    folder: &str,
    config: &Config,
    cache: u8,
    key: Key,
    value: Value,
) -> Result<bool, OpenFault>
    requires whole { (H.Device.state host.old).access.is_lent ≡ false }
    requires config { IsConfig config.now }
    requires cache { cache < CACHES }

    // Of a sound store with this map: it has done the put after it, and all lasts.
    ensures lasts { H.Device.tells → (told : List ℕ → ℕ) (shape : Shape) (pairs : Pairs)
        → (can : CanBegin config.now.shape told (H.Device.history host.old).world shape pairs) → HasFewNumbers can
        → opened_last can + 38 < 2 ^ 64 → opened_number can + 4 < 2 ^ 64
        → OnOk result (AllLast config.now.shape told pairs (put_line cache key value ∷ [])
        (H.Device.history host.new).world) }
{
    let engine = open(rt, alloc, host, folder, config)?;
    let (mut engine, answer) = put(rt, alloc, host, config, engine, cache, key, value);
    match answer {
        Ok(is_put) => {
            let made = engine.checkpoint(host);
            let _order = engine.close();
            made?;
            Ok(is_put)
        }
        Err(fault) => {
            let _order = engine.close();
            Err(OpenFault::Store(fault))
        }
    }
}
