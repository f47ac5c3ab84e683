//! A store over page frames and any host: it is opened, and runs puts.

ghost use Rattle.std.specs.Prelude.{◌≡◌, ◌≤◌, false, length, IfOk, OnOk};
ghost use Rattle.std.specs.List.{All};
ghost use Rattle.pm_disk.specs.States.{IsUsable};
ghost use Rattle.pm_model.specs.Batches.{HasCache};
ghost use Rattle.pm_bench.specs.OpenEngines.{IsOpenOver};

use crate::worker_pages::commands::{SHAPE, Step, command};
use pm_config::{CHECKPOINT_BYTES_MAX, Config, Kind};
use pm_disk::Host;
use pm_engine::Engine;
use pm_model::{Line, Replies};
use pm_types::{OpenFault, StoreFault};
use std::alloc::{AllocError, Global};
use std::sync::Wait;

/// Two partitions, and so many page frames and bytes of log that no checkpoint is made that isn't asked for.
pub const CONFIG: Config = Config {
    shape: SHAPE,
    workers: 1,
    frames: 1_024,
    buffer_pages: 32,
    checkpoint_bytes: CHECKPOINT_BYTES_MAX,
    dirty_percent: 100,
    policy: Kind::Random,
};

/// Opens the store of a folder that isn't bound yet.
pub fn open<Q: Wait, H: Host>(rt: &Q, alloc: Global, host: &mut H) -> Result<Engine, OpenFault>
    requires whole { (H.Device.state host.old).access.is_lent ≡ false }
    ensures usable { OnOk result (IsUsable (H.Device.state host.new)) }
    ensures open { IfOk result (IsOpenOver H.Device.tells CONFIG (H.Device.history host.new).world) }
{
    if host.bind("store").is_err() {
        return Err(OpenFault::Store(StoreFault::Failed));
    }
    Engine::open_store(rt, alloc, host, &CONFIG)
}

/// The line that puts a partition's row, with a value of so many bytes.
pub fn put_line(alloc: Global, part: u16, row: u32, len: usize) -> Result<Line, AllocError>
    ensures { IfOk result HasCache }
{
    Ok(Line::Good(command(alloc, part, row, Step::Put(len))?))
}

/// Runs lines as one batch.
pub fn run<Q: Wait, H: Host>(
    rt: &Q,
    alloc: Global,
    host: &mut H,
    engine: Engine,
    lines: &[Line],
) -> Result<Engine, StoreFault>
    requires usable { IsUsable (H.Device.state host.old) }
    requires open { IsOpenOver H.Device.tells CONFIG (H.Device.history host.old).world engine }
    requires caches { All HasCache lines.now }
    requires few { length lines.now ≤ 1024 }
    ensures usable { IsUsable (H.Device.state host.new) }
    ensures open { IfOk result (IsOpenOver H.Device.tells CONFIG (H.Device.history host.new).world) }
{
    let mut replies = Replies::with_room(alloc, lines.len())?;
    let (engine, ran) = engine.batch(rt, alloc, host, &CONFIG, lines, 1, &mut replies);
    match ran {
        Ok(()) => Ok(engine),
        Err(fault) => Err(fault),
    }
}
