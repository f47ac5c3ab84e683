//! How a program puts a row.

ghost use Rattle.std.specs.Prelude.{◌≡◌, ◌<◌, ◌∷◌, ◌++◌, ◌↔◌, ℕ, [], List, Some, true, IfOk, OnOk, slice_get};
ghost use Rattle.pm_types.specs.declared.limits.TheConstants.{CACHES};
ghost use Rattle.pm_types.specs.declared.shape.Shape.{Shape};
ghost use Rattle.pm_disk.specs.States.{IsUsable};
ghost use Rattle.pm_model.specs.declared.line.Line.{Line as Asked};
ghost use Rattle.pm_model.specs.declared.reply.Reply.{Reply as Answered};
ghost use Rattle.pm_model.specs.declared.reply.Reply.TheVariants.{Done};
ghost use Rattle.pm_model.specs.Eval.{Pairs};
ghost use Rattle.pm_engine.specs.Batches.{StaysOpen};
ghost use Rattle.pm_engine.specs.Engines.{HasDoneLines, HasLastingLinesIn};
ghost use Rattle.pm_engine.specs.FrameBatches.{HasNumbersIn, MayGoOn, TakesNumbersIn};
ghost use Rattle.pm_client.specs.OpenEngines.{IsOpenOver};
ghost use Rattle.pm_client.specs.Rows.{HasRow, put_line, without_answer};

use pm_config::Config;
use pm_disk::Host;
use pm_engine::Engine;
use pm_model::{Cmd, Line, Replies, Reply};
use pm_types::{Key, Lack, StoreFault, Value};
use std::alloc::Global;
use std::sync::Wait;

/// Puts a row, and answers whether it is put: it isn't where its partition is full. The disk has it then.
///
/// After `Memory` the engine is open still, and after any other fault it isn't: close it, and open the store again.
pub fn put<Q: Wait, H: Host>(
    rt: &Q,
    alloc: Global,
    host: &mut H,
    config: &Config,
    engine: Engine,
    cache: u8,
    key: Key,
    value: Value,
) -> (Engine, Result<bool, StoreFault>)
    requires usable { IsUsable (H.Device.state host.old) }
    requires open { IsOpenOver H.Device.tells config.now (H.Device.history host.old).world engine }
    requires cache { cache < CACHES }
    ensures usable { IsUsable (H.Device.state host.new) }
    ensures open { StaysOpen (without_answer result.1)
        → IsOpenOver H.Device.tells config.now (H.Device.history host.new).world result.0 }

    ensures numbers { StaysOpen (without_answer result.1) → TakesNumbersIn engine result.0 35 2 }

    // Once it is put the map has the row, and whatever the store had done before, it has done the put too, and all of
    // that lasts. There have to be numbers for 35 segments and 2 checkpoints more.
    ensures has_row { H.Device.tells → MayGoOn engine (H.Device.history host.old).world 35 2
        → IfOk result.1 (λ is_put. is_put ≡ true
        → HasRow cache key value result.0 (H.Device.history host.new).world) }
    ensures lasts { H.Device.tells → (wanted : Shape) (told : List ℕ → ℕ) (from : ℕ) (start : Pairs)
        (done : List Asked) → HasDoneLines wanted told from start done engine (H.Device.history host.old).world
        → HasNumbersIn engine 35 2 → OnOk result.1 (HasLastingLinesIn wanted told from start
        (done ++ put_line cache key value ∷ []) result.0 (H.Device.history host.new).world) }
{
    let Ok(mut replies) = Replies::with_room(alloc, 1) else {
        return (engine, Err(StoreFault::Memory(Lack::Bytes)));
    };
    let lines = [Line::Good(Cmd::Put { cache, key, value })];
    let (engine, ran) = engine.batch(rt, alloc, host, config, &lines, 1, &mut replies);
    match ran {
        Ok(()) => (engine, Ok(is_done(&replies))),
        Err(fault) => (engine, Err(fault)),
    }
}

// Whether the first reply says that the line is done.
fn is_done(replies: &Replies) -> bool
    ensures { (reply : Answered) → slice_get replies.now.replies 0 ≡ Some reply → (result ≡ true) ↔ (reply ≡ Done) }
{
    replies.len() > 0 && matches!(replies.get(0), Reply::Done)
}
