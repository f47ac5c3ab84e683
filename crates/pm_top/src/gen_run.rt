//! A run over lines that are drawn from a number, a batch at a time.

ghost use Rattle.std.specs.Prelude.{◌≡◌, ◌≤◌, ◌<◌, ◌+◌, ◌^◌, [], false, IfOk, OnOk, IsErrOf};
ghost use Rattle.pm_types.specs.declared.limits.TheConstants.{LINES_MAX as most_lines};
ghost use Rattle.pm_types.specs.declared.page_id.PageId.{PageId as Page};
ghost use Rattle.pm_disk.specs.States.{IsUsable};
ghost use Rattle.pm_model.specs.Eval.{replies_to};
ghost use Rattle.pm_engine.specs.FrameBatches.{HasFrameFault, is_due_idle};
ghost use Rattle.pm_engine.specs.Engines.{map_in};
ghost use Rattle.pm_engine.specs.FrameOpenings.{IsReadyOver};
ghost use Rattle.pm_engine.specs.FrameStores.{pages_in_frames};
ghost use Rattle.pm_tools.specs.DrawnLines.{drawn_lines};
ghost use Rattle.pm_top.specs.Promises.{IsMetByLine};
ghost use Rattle.pm_top.specs.DrawnSteps.{DrawsNext, EndsDrawn, IfCanRun, TriesDrawn};
ghost use Rattle.pm_top.specs.FrameRests.{IsServing};
ghost use Rattle.pm_top.specs.ReplyCounts.{counts_of};

use crate::counting::ReplyCounts;
use crate::drawing::{batch_len, draw_lines};
use crate::reply_room::make_room;
use pm_config::Config;
use pm_disk::Host;
use pm_engine::Engine;
use pm_model::{Line, Replies};
use pm_tools::Gen;
use pm_types::{BATCH_LINES_MAX, Lack, StoreFault};
use std::alloc::{AllocError, Global};
use std::sync::Wait;

/// Runs so many lines, which are drawn from a number, batch after batch. Then the log is forced, and a checkpoint is made
/// where more log stands after the last one than a run is to leave to the next opening. Gives the engine back, and how
/// many replies of each kind there were.
///
/// `BadPage` comes only over a store that isn't sound, at a line that met the page, which fails its check, isn't there, or
/// names a wrong page or row. What was run is said of a store over which a run may begin.
pub fn run_drawn<Q: Wait, H: Host>(
    engine: Engine,
    rt: &Q,
    alloc: Global,
    host: &mut H,
    config: &Config,
    seed: u32,
    count: u32,
) -> (Engine, Result<ReplyCounts, StoreFault>)
    requires usable { IsUsable (H.state host.old) }
    requires few { count ≤ most_lines }
    requires order { engine.order ≡ [] }
    requires serving { IsServing config.now engine }
    requires ready { H.tells → IsReadyOver engine (H.history host.old).world }

    // Which lines were run, and what a crash leaves meanwhile and from then on.
    ensures tries { TriesDrawn H.tells (H.history host.old) (H.history host.new) (drawn_lines seed 1 count)
        engine result.0 }
    ensures ends { OnOk result.1 (EndsDrawn H.tells (H.history host.old) (H.history host.new)
        (drawn_lines seed 1 count) engine result.0) }
    ensures settled { OnOk result.1 (is_due_idle result.0 config.now ≡ false) }

    ensures counts { IfCanRun H.tells engine (H.history host.old).world (IfOk result.1 (λ counts. counts ≡ counts_of
        (replies_to engine.store.shape (drawn_lines seed 1 count) (map_in engine (H.history host.old).world)))) }
    ensures sound { (page : Page) → IsErrOf result.1 (StoreFault.BadPage page)
        → IfCanRun H.tells engine (H.history host.old).world ⊥ }
    ensures meets { H.tells → (page : Page) → IsErrOf result.1 (StoreFault.BadPage page)
        → IsMetByLine engine.store.shape (pages_in_frames engine.store (H.history host.old).world)
        (drawn_lines seed 1 count) page }
    ensures cause { HasFrameFault (H.state host.old) (H.state host.new) result.1 }
{
    // Its memory serves all batches, so that a batch that has begun takes none for its replies.
    let Ok(mut replies) = Replies::with_room(alloc, BATCH_LINES_MAX) else {
        return (engine, Err(StoreFault::Memory(Lack::Bytes)));
    };
    let mut engine = engine;
    let mut drawing = Gen::new(seed);
    let mut counts = ReplyCounts::none();
    let mut many = 0;
    'batches: while many < count {
        let Ok(lines) = next_lines(alloc, &mut drawing, many + 1, count - many, &mut replies) else {
            return (engine, Err(StoreFault::Memory(Lack::Bytes)));
        };
        let (next, ran) = engine.batch(rt, alloc, host, config, &lines, many + 1, &mut replies);
        engine = next;
        match ran {
            Err(fault) => return (engine, Err(fault)),
            Ok(()) => {
                let done = lines.len();
                counts.add_first(&replies, done);
                many += done as u32;
            }
        }
    }
    match engine.end_run(host, config) {
        Err(_) => (engine, Err(StoreFault::Failed)),
        Ok(()) => (engine, Ok(counts)),
    }
}

// Draws the lines of the next batch, of which the first has this number and so many are left. Takes the replies to the
// batch before out.
fn next_lines(
    alloc: Global,
    drawing: &mut Gen,
    first: u32,
    left: u32,
    replies: &mut Replies,
) -> Result<Vec<Line>, AllocError>
    requires some { 0 < left }
    requires named { first + left < 2 ^ 32 }
    ensures { IfOk result (λ lines. DrawsNext drawing.old drawing.new first left replies.new lines.items) }
{
    let lines = draw_lines(alloc, drawing, first, batch_len(left))?;
    make_room(alloc, replies, lines.len())?;
    Ok(lines)
}
