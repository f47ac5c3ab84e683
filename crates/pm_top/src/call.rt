//! The top call.

ghost use Rattle.std.specs.Prelude.{◌≡◌, ℕ, [], map, false, Some, string_bytes};
ghost use Rattle.pm_types.specs.declared.shape.Shape.{Shape};
ghost use Rattle.pm_config.specs.Limits.{IsConfig};
ghost use Rattle.pm_disk.specs.Moments.{AllMoments, Does};
ghost use Rattle.pm_disk.specs.States.{Binds, IsUsable};
ghost use Rattle.pm_disk.specs.Worlds.{World};
ghost use Rattle.pm_engine.specs.Engines.{map_in};
ghost use Rattle.pm_engine.specs.FrameOpenings.{IsReadyOver};
ghost use Rattle.pm_top.specs.Causes.{BindsFolder, HasStatusCause, makes_folder};
ghost use Rattle.pm_top.specs.Commands.{CommandCompletes, CommandHolds, CommandIsSafe};
ghost use Rattle.pm_top.specs.RunCauses.{HasRunCause, HasScriptCause};
ghost use Rattle.pm_top.specs.Configurations.{AsksFor};
ghost use Rattle.pm_top.specs.LogListings.{WalHolds};
ghost use Rattle.pm_top.specs.FrameRests.{IsServing};
ghost use Rattle.pm_engine.specs.FrameStores.{pages_in_frames};
ghost use Rattle.pm_top.specs.Served.{script_of};
ghost use Rattle.pm_top.specs.Promises.{HoldsAtEachMoment, IsFoundByLine, RunHolds, SameConfig};
ghost use Rattle.pm_top.specs.Runs.{CanRun, SameConsole, ScriptIsAnswered};
ghost use Rattle.pm_top.specs.Statuses.{status_of, code_of};
ghost use Rattle.pm_top.specs.StoreChecks.{VerifyHolds};
ghost use Rattle.pm_top.specs.Words.{command_in, DrawsFew};

use crate::bad_pages::print_found_page;
use crate::configuration::{ConfigError, read_config};
use crate::counts_line::print_counts;
use crate::fault_lines::{
    print_config_fault, print_limit_fault, print_page_fault, print_record_fault, print_usage_fault,
};
use crate::generate::gen_configured;
use crate::outcome::{Outcome, lack_of};
use crate::report::Report;
use crate::run::{Run, Stop};
use crate::status::Status;
use crate::words::{CommandName, command_of};
use pm_config::Config;
use pm_disk::{Failed, Host};
use pm_engine::Engine;
use pm_tools::{verify, wal};
use pm_types::{OpenFault, StoreFault};
use std::alloc::Global;
use std::sync::Wait;

/// Does what the words of a command line ask for.
///
/// The words are those after the program's name: `run`, `wal`, `verify` or `gen`, and a folder, which isn't
/// empty and doesn't begin with `-`. After `gen` and its folder two numbers stand. The folder is bound. Where it
/// isn't there, `run` and `gen` make it, and `wal` and `verify` end with status 3. A folder with nothing in it is
/// an empty store. Where memory runs out while the words are read, nothing is done.
///
/// `run` reads the folder's configuration: one that is refused, or that asks for another shape than
/// the store has, is named by its field, and nothing is changed. Then the store is opened: it is restored
/// to what its checkpoint and its log hold, and the script on the host's input is answered over it, batch
/// by batch. The records of a batch are in the log, and forced, before any of its replies is printed. A
/// checkpoint is made where a line asks for it, where one is due, and where page frames are lacking.
///
/// A page is read when the opening or a line needs it. A bad record, or a bad page that the opening reads, ends the
/// run before any line is answered. A bad page that a line needs ends it after the replies to the batches before its
/// own: nothing is promised then of what these replies say, since the store isn't sound. Before a page is named all
/// base pages and the log are checked, as `verify` does it, and the first that is bad is named; where none is, the
/// page that was needed. A page that isn't read isn't checked while the run goes on.
///
/// `gen` does the same with lines that it draws: the second number says how many, and the first from which
/// number. It reads no input, and its one line says how many lines were run and how many replies of each kind
/// they had. Before that line is printed the records of all of them are in the log, and forced.
///
/// `wal` prints a line for each record of the log, from the replay place of the checkpoint in force
/// on, or from the log's begin, and then the place at which the log ends. The first record that is
/// bad ends it: the record is named.
///
/// `verify` checks that the base pages of each partition are well formed, and that each frame of the log
/// from that place on holds a record, and prints how many pages, rows and changes of the map there are. A page
/// or a record that is bad is named.
///
/// `wal` and `verify` change nothing: at no moment does a file or a folder change. They read no configuration.
/// After the statuses 3 and 4 nothing more is printed.
pub fn top<Q: AllocGlobal + Wait, H: Host>(rt: &Q, words: &[String], host: &mut H) -> Report
    requires whole { (H.state host.old).access.is_lent ≡ false }
    ensures known { result.status ≡ code_of (status_of result.status) }

    // What the command promises, by its status.
    ensures holds { H.tells → CommandHolds (command_in (map string_bytes words.now))
        (H.history host.old) (H.history host.new) (status_of result.status) result.lines result.order.items }

    // What a crash at any moment leaves.
    ensures crash { H.tells → CommandIsSafe (command_in (map string_bytes words.now))
        (H.history host.old) (H.history host.new) result.order.items }

    // At no moment is the configuration changed.
    ensures config { H.tells → AllMoments (H.history host.old) (H.history host.new) (SameConfig
        (H.history host.old).world) }

    // Which folder is bound, and that `wal` and `verify` made none.
    ensures folder { BindsFolder (map string_bytes words.now) (status_of result.status)
        (H.state host.old) (H.state host.new) }

    // When each status comes.
    ensures cause { HasStatusCause (map string_bytes words.now) (status_of result.status)
        (H.state host.old) (H.state host.new) }
    ensures complete { H.tells → CommandCompletes (command_in (map string_bytes words.now))
        (status_of result.status) (H.history host.old).world (H.state host.old) (H.state host.new) }
{
    let outcome = command(rt, rt.alloc(), words, host);
    Report {
        status: outcome.status.code(),
        lack: outcome.lack,
        lines: outcome.lines,
        order: outcome.order,
    }
}

// Does what the words ask for, or says that they aren't a command. Where there is no memory to read them
// the host isn't touched.
fn command<Q: Wait, H: Host>(rt: &Q, alloc: Global, words: &[String], host: &mut H) -> Outcome
    requires whole { (H.state host.old).access.is_lent ≡ false }
    ensures holds { H.tells → CommandHolds (command_in (map string_bytes words.now))
        (H.history host.old) (H.history host.new) result.status result.lines result.order.items }
    ensures crash { H.tells → CommandIsSafe (command_in (map string_bytes words.now))
        (H.history host.old) (H.history host.new) result.order.items }
    ensures config { H.tells → AllMoments (H.history host.old) (H.history host.new) (SameConfig
        (H.history host.old).world) }
    ensures folder { BindsFolder (map string_bytes words.now) result.status
        (H.state host.old) (H.state host.new) }
    ensures cause { HasStatusCause (map string_bytes words.now) result.status
        (H.state host.old) (H.state host.new) }
{
    let Ok(found) = command_of(alloc, words) else {
        return Outcome::without(alloc, Status::Memory);
    };
    let Some(asked) = found else {
        return Outcome::without(alloc, print_usage_fault(host));
    };
    match bind_folder(host, asked.name, asked.folder) {
        Ok(()) => do_command(rt, alloc, host, asked.name),
        Err(_) => Outcome::without(alloc, Status::Failed),
    }
}

// Binds the folder that a command is about. Where it isn't there it is made for `run` and `gen` alone: a store that
// never was isn't to be found whole.
fn bind_folder<H: Host>(host: &mut H, name: CommandName, folder: &str) -> Result<(), Failed>
    requires whole { (H.state host.old).access.is_lent ≡ false }
    ensures binds { Binds (H.state host.old) (H.state host.new) folder.now result }
    ensures none_made { makes_folder (Some name) ≡ false
        → (H.state host.new).access.made ≡ (H.state host.old).access.made }
    ensures does { H.tells →
        Does (H.history host.old) (H.history host.new) result (H.history host.old).world }
{
    match name {
        CommandName::Run => host.bind(folder),
        CommandName::Wal => host.bind_found(folder),
        CommandName::Verify => host.bind_found(folder),
        CommandName::Gen { .. } => host.bind(folder),
    }
}

// Does what a command asks for, over the folder that is bound.
fn do_command<Q: Wait, H: Host>(rt: &Q, alloc: Global, host: &mut H, name: CommandName) -> Outcome
    requires usable { IsUsable (H.state host.old) }
    requires few { DrawsFew name }
    ensures holds { H.tells → CommandHolds (Some name) (H.history host.old) (H.history host.new)
        result.status result.lines result.order.items }
    ensures crash { H.tells → CommandIsSafe (Some name) (H.history host.old) (H.history host.new)
        result.order.items }
    ensures config { H.tells → AllMoments (H.history host.old) (H.history host.new) (SameConfig
        (H.history host.old).world) }
    ensures cause { HasRunCause result.status (H.state host.old) (H.state host.new) }
{
    match name {
        CommandName::Run => run_configured(rt, alloc, host),
        CommandName::Wal => list_log(alloc, host),
        CommandName::Verify => check_store(alloc, host),
        CommandName::Gen { seed, count } => gen_configured(rt, alloc, host, seed, count),
    }
}

// Checks the store, and says what it has or names what is bad.
fn check_store<H: Host>(alloc: Global, host: &mut H) -> Outcome
    requires usable { IsUsable (H.state host.old) }
    ensures holds { H.tells →
        VerifyHolds (H.history host.old) (H.history host.new) result.status result.lines result.order.items }
    ensures cause { HasRunCause result.status (H.state host.old) (H.state host.new) }
{
    match verify(alloc, host) {
        Ok(counts) => {
            let status = print_counts(alloc, host, counts);
            Outcome::without(alloc, status)
        }
        Err(StoreFault::Failed) => Outcome::without(alloc, Status::Failed),
        Err(StoreFault::Memory(_)) => Outcome::without(alloc, Status::Memory),
        Err(StoreFault::BadRecord(place)) => {
            let status = print_record_fault(alloc, host, place);
            Outcome::without(alloc, status)
        }
        Err(StoreFault::BadPage(page)) => {
            let status = print_page_fault(alloc, host, page);
            Outcome::without(alloc, status)
        }
    }
}

// Lists the log, and names the first record that is bad.
fn list_log<H: Host>(alloc: Global, host: &mut H) -> Outcome
    requires usable { IsUsable (H.state host.old) }
    ensures wal { H.tells →
        WalHolds (H.history host.old) (H.history host.new) result.status result.lines result.order.items }
    ensures cause { HasRunCause result.status (H.state host.old) (H.state host.new) }
{
    match wal(alloc, host) {
        Ok(()) => Outcome::without(alloc, Status::Done),
        Err(StoreFault::Failed) => Outcome::without(alloc, Status::Failed),
        Err(StoreFault::Memory(_)) => Outcome::without(alloc, Status::Memory),
        Err(StoreFault::BadRecord(at)) => {
            let status = print_record_fault(alloc, host, at);
            Outcome::without(alloc, status)
        }
        Err(StoreFault::BadPage(_)) => unreachable!(),
    }
}

// Reads the configuration, and runs with what it asks for, or names the field that is refused.
fn run_configured<Q: Wait, H: Host>(rt: &Q, alloc: Global, host: &mut H) -> Outcome
    requires usable { IsUsable (H.state host.old) }
    ensures run { H.tells →
        RunHolds (H.history host.old) (H.history host.new) result.status result.lines result.order.items }
    ensures crash { H.tells →
        HoldsAtEachMoment (H.history host.old) (H.history host.new) result.order.items }
    ensures config { H.tells → AllMoments (H.history host.old) (H.history host.new) (SameConfig
        (H.history host.old).world) }
    ensures cause { HasRunCause result.status (H.state host.old) (H.state host.new) }
{
    match read_config(alloc, host) {
        Ok(config) => run(rt, alloc, host, &config),
        Err(ConfigError::Failed) => Outcome::without(alloc, Status::Failed),
        Err(ConfigError::Memory) => Outcome::without(alloc, Status::Memory),
        Err(ConfigError::Refused(field)) => {
            Outcome::without(alloc, print_config_fault(alloc, host, field))
        }
    }
}

// Opens the store and answers the script of the input, or names the field that differs or the record that is bad. Where
// it meets a bad page, it names what a check of the store finds bad.
fn run<Q: Wait, H: Host>(rt: &Q, alloc: Global, host: &mut H, config: &Config) -> Outcome
    requires usable { IsUsable (H.state host.old) }
    requires within_limits { IsConfig config.now }
    requires asked { H.tells → AsksFor (H.history host.old).world config.now.shape }
    ensures run { H.tells →
        RunHolds (H.history host.old) (H.history host.new) result.status result.lines result.order.items }
    ensures crash { H.tells →
        HoldsAtEachMoment (H.history host.old) (H.history host.new) result.order.items }
    ensures config { H.tells → AllMoments (H.history host.old) (H.history host.new) (SameConfig
        (H.history host.old).world) }
    ensures cause { HasRunCause result.status (H.state host.old) (H.state host.new) }
{
    match Engine::open_store(rt, alloc, host, config) {
        Ok(engine) => answer_script(rt, alloc, host, config, engine),
        Err(OpenFault::Shape(field)) => {
            Outcome::without(alloc, print_config_fault(alloc, host, field))
        }
        Err(OpenFault::Store(StoreFault::Failed)) => Outcome::without(alloc, Status::Failed),
        Err(OpenFault::Store(StoreFault::Memory(lack))) => Outcome::lacking(alloc, lack),
        Err(OpenFault::Store(StoreFault::BadRecord(at))) => {
            Outcome::without(alloc, print_record_fault(alloc, host, at))
        }
        Err(OpenFault::Store(StoreFault::BadPage(page))) => {
            Outcome::without(alloc, print_found_page(alloc, host, page))
        }
    }
}

// Answers the script of the input over an open store, and says where it passes a limit. Where a line needs a page that
// is bad, it names what a check of the store finds bad. The frames' memory is given back before that check.
fn answer_script<Q: Wait, H: Host>(
    rt: &Q,
    alloc: Global,
    host: &mut H,
    config: &Config,
    engine: Engine,
) -> Outcome
    requires usable { IsUsable (H.state host.old) }
    requires order { engine.order ≡ [] }
    requires serving { IsServing config.now engine }
    requires ready { H.tells → IsReadyOver engine (H.history host.old).world }
    ensures config { H.tells → AllMoments (H.history host.old) (H.history host.new) (SameConfig
        (H.history host.old).world) }
    ensures answered { H.tells → (wanted : Shape) (last number : ℕ) (start : World)
        → SameConsole start (H.history host.old).world →
        CanRun wanted last number engine (H.history host.old).world →
        ScriptIsAnswered wanted last number start engine.store.shape (map_in engine (H.history host.old).world)
        (H.history host.old) (H.history host.new) result.status result.lines result.order.items }
    ensures damaged { H.tells → result.status ≡ Status.Damaged → IsFoundByLine engine.store.shape
        (pages_in_frames engine.store (H.history host.old).world) (script_of (H.history host.old).world.input)
        (H.history host.new).world }
    ensures cause { HasScriptCause result.status (H.state host.old) (H.state host.new) }
{
    let run = Run::new(alloc, engine);
    let (run, served) = run.serve(rt, alloc, host, config);
    let lines = run.lines;
    let order = run.engine.close();
    let lack = lack_of(&served);
    let status = match served {
        Ok(Stop::Done) => Status::Done,
        Ok(Stop::Limit) => print_limit_fault(host),
        Err(StoreFault::Failed) => Status::Failed,
        Err(StoreFault::Memory(_lack)) => Status::Memory,
        Err(StoreFault::BadPage(page)) => print_found_page(alloc, host, page),
        Err(StoreFault::BadRecord(_)) => unreachable!(),
    };
    Outcome {
        status,
        lack,
        lines,
        order,
    }
}
