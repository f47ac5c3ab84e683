//! The command that runs lines which it draws from a number.

ghost use Rattle.std.specs.Prelude.{◌≡◌, ◌≢◌, ◌≤◌, ℕ, []};
ghost use Rattle.pm_types.specs.declared.limits.TheConstants.{LINES_MAX as most_lines};
ghost use Rattle.pm_types.specs.declared.shape.Shape.{Shape};
ghost use Rattle.pm_config.specs.Limits.{IsConfig};
ghost use Rattle.pm_disk.specs.Moments.{AllMoments};
ghost use Rattle.pm_disk.specs.States.{IsUsable};
ghost use Rattle.pm_disk.specs.Worlds.{World};
ghost use Rattle.pm_engine.specs.Engines.{map_in};
ghost use Rattle.pm_engine.specs.FrameOpenings.{IsReadyOver};
ghost use Rattle.pm_tools.specs.DrawnLines.{drawn_lines};
ghost use Rattle.pm_top.specs.Configurations.{AsksFor};
ghost use Rattle.pm_top.specs.DrawnRuns.{CrashHoldsDrawn, DrawnIsLeft, DrawnOutcomeIs, GenHolds, GenIsSafe};
ghost use Rattle.pm_top.specs.FrameRests.{IsServing};
ghost use Rattle.pm_engine.specs.FrameStores.{pages_in_frames};
ghost use Rattle.pm_top.specs.Promises.{IsFoundByLine, SameConfig};
ghost use Rattle.pm_top.specs.RunCauses.{HasRunCause, HasScriptCause};
ghost use Rattle.pm_top.specs.Runs.{CanRun, SameConsole};

use crate::bad_pages::print_found_page;
use crate::configuration::{ConfigError, read_config};
use crate::counting::print_summary;
use crate::fault_lines::{print_config_fault, print_record_fault};
use crate::gen_run::run_drawn;
use crate::outcome::{Outcome, lack_of};
use crate::status::Status;
use pm_config::Config;
use pm_disk::Host;
use pm_engine::Engine;
use pm_types::{OpenFault, StoreFault};
use std::alloc::Global;
use std::sync::Wait;

/// Reads the configuration, and runs drawn lines with what it asks for, or names the field that is refused.
pub fn gen_configured<Q: Wait, H: Host>(
    rt: &Q,
    alloc: Global,
    host: &mut H,
    seed: u32,
    count: u32,
) -> Outcome
    requires usable { IsUsable (H.state host.old) }
    requires few { count ≤ most_lines }
    ensures holds { H.tells → GenHolds (drawn_lines seed 1 count) (H.history host.old) (H.history host.new)
        result.status result.lines result.order.items }
    ensures crash { H.tells → GenIsSafe (drawn_lines seed 1 count) (H.history host.old) (H.history host.new)
        result.order.items }
    ensures config { H.tells → AllMoments (H.history host.old) (H.history host.new) (SameConfig
        (H.history host.old).world) }
    ensures cause { HasRunCause result.status (H.state host.old) (H.state host.new) }
{
    match read_config(alloc, host) {
        Ok(config) => generate(rt, alloc, host, &config, seed, count),
        Err(ConfigError::Failed) => Outcome::without(alloc, Status::Failed),
        Err(ConfigError::Memory) => Outcome::without(alloc, Status::Memory),
        Err(ConfigError::Refused(field)) => {
            Outcome::without(alloc, print_config_fault(alloc, host, field))
        }
    }
}

// Opens the store and runs drawn lines over it, or names the field that differs or the record that is bad. Where it
// meets a bad page, it names what a check of the store finds bad.
fn generate<Q: Wait, H: Host>(
    rt: &Q,
    alloc: Global,
    host: &mut H,
    config: &Config,
    seed: u32,
    count: u32,
) -> Outcome
    requires usable { IsUsable (H.state host.old) }
    requires few { count ≤ most_lines }
    requires within_limits { IsConfig config.now }
    requires asked { H.tells → AsksFor (H.history host.old).world config.now.shape }
    ensures holds { H.tells → GenHolds (drawn_lines seed 1 count) (H.history host.old) (H.history host.new)
        result.status result.lines result.order.items }
    ensures crash { H.tells → GenIsSafe (drawn_lines seed 1 count) (H.history host.old) (H.history host.new)
        result.order.items }
    ensures config { H.tells → AllMoments (H.history host.old) (H.history host.new) (SameConfig
        (H.history host.old).world) }
    ensures cause { HasRunCause result.status (H.state host.old) (H.state host.new) }
{
    match Engine::open_store(rt, alloc, host, config) {
        Ok(engine) => answer_drawn(rt, alloc, host, config, engine, seed, count),
        Err(OpenFault::Shape(field)) => {
            Outcome::without(alloc, print_config_fault(alloc, host, field))
        }
        Err(OpenFault::Store(StoreFault::Failed)) => Outcome::without(alloc, Status::Failed),
        Err(OpenFault::Store(StoreFault::Memory(lack))) => Outcome::lacking(alloc, lack),
        Err(OpenFault::Store(StoreFault::BadRecord(at))) => {
            Outcome::without(alloc, print_record_fault(alloc, host, at))
        }
        Err(OpenFault::Store(StoreFault::BadPage(page))) => {
            Outcome::without(alloc, print_found_page(alloc, host, page))
        }
    }
}

// Runs drawn lines over an open store, and says how many there were and how many replies of each kind. Where a line
// needs a page that is bad, it names what a check of the store finds bad. The frames' memory is given back before that
// check.
fn answer_drawn<Q: Wait, H: Host>(
    rt: &Q,
    alloc: Global,
    host: &mut H,
    config: &Config,
    engine: Engine,
    seed: u32,
    count: u32,
) -> Outcome
    requires usable { IsUsable (H.state host.old) }
    requires few { count ≤ most_lines }
    requires order { engine.order ≡ [] }
    requires serving { IsServing config.now engine }
    requires ready { H.tells → IsReadyOver engine (H.history host.old).world }
    ensures config { H.tells → AllMoments (H.history host.old) (H.history host.new) (SameConfig
        (H.history host.old).world) }
    ensures outcome { H.tells → (wanted : Shape) (last number : ℕ) (start : World)
        → SameConsole start (H.history host.old).world →
        CanRun wanted last number engine (H.history host.old).world →
        DrawnOutcomeIs (drawn_lines seed 1 count) result.status start (H.history host.new).world
        engine.store.shape (map_in engine (H.history host.old).world) result.lines result.order.items }
    ensures moments { H.tells → (wanted : Shape) (last number : ℕ) (start : World)
        → SameConsole start (H.history host.old).world →
        CanRun wanted last number engine (H.history host.old).world →
        AllMoments (H.history host.old) (H.history host.new) (CrashHoldsDrawn wanted last number
        (drawn_lines seed 1 count) start engine.store.shape (map_in engine (H.history host.old).world)
        result.order.items) }
    ensures leaves { H.tells → result.status ≡ Status.Done → (wanted : Shape) (last number : ℕ)
        → CanRun wanted last number engine (H.history host.old).world →
        DrawnIsLeft wanted last number (drawn_lines seed 1 count) (H.history host.new).world
        engine.store.shape (map_in engine (H.history host.old).world) }
    ensures damaged { H.tells → result.status ≡ Status.Damaged → IsFoundByLine engine.store.shape
        (pages_in_frames engine.store (H.history host.old).world) (drawn_lines seed 1 count)
        (H.history host.new).world }
    ensures short { result.status ≢ Status.Long }
    ensures cause { HasScriptCause result.status (H.state host.old) (H.state host.new) }
{
    let (engine, ran) = run_drawn(engine, rt, alloc, host, config, seed, count);
    let order = engine.close();
    let lack = lack_of(&ran);
    let status = match ran {
        Ok(counts) => print_summary(alloc, host, count, counts),
        Err(StoreFault::Failed) => Status::Failed,
        Err(StoreFault::Memory(_)) => Status::Memory,
        Err(StoreFault::BadPage(page)) => print_found_page(alloc, host, page),
        Err(StoreFault::BadRecord(_)) => unreachable!(),
    };
    Outcome {
        status,
        lack,
        lines: lines_said(status, count),
        order,
    }
}

// How many lines count as answered: all of them once the summary was said.
fn lines_said(status: Status, count: u32) -> u64
    ensures done { status ≡ Status.Done → result ≡ count }
    ensures none { status ≢ Status.Done → result ≡ 0 }
{
    if status == Status::Done {
        u64::from(count)
    } else {
        0
    }
}
