//! How a store over page frames is opened.

ghost use Rattle.std.specs.Prelude.{ℕ, ◌≡◌, ◌≤◌, ◌+◌, List, [], ◌∷◌, None, true, false, length, IfOk, IfErr, IfSome};
ghost use Rattle.pm_types.specs.declared.fault.OpenFault.TheVariants as opening;
ghost use Rattle.pm_types.specs.declared.place.Place.{Place as ThisPlace};
ghost use Rattle.pm_types.specs.declared.shape.Shape.{Shape as ThisShape};
ghost use Rattle.pm_types.specs.Shapes.{IsShape};
ghost use Rattle.pm_config.specs.Limits.{IsConfig};
ghost use Rattle.pm_disk.specs.Moments.{AllMoments};
ghost use Rattle.pm_disk.specs.States.{IsUsable};
ghost use Rattle.pm_model.specs.Eval.{Pairs};
ghost use Rattle.pm_ptable.specs.declared.table.TheConstants.{FRAMES_MAX as most_frames};
ghost use Rattle.pm_records.specs.FirstRecords.{restart_frame};
ghost use Rattle.pm_records.specs.LogFiles.{contents};
ghost use Rattle.pm_records.specs.LogSteps.{DoesSteps};
ghost use Rattle.pm_segments.specs.Ends.{EndsThere};
ghost use Rattle.pm_marks.specs.InForce.{replay_of};
ghost use Rattle.pm_marks.specs.Slots.{IsMark};
ghost use Rattle.pm_core.specs.Calls.{ChangesDisk};
ghost use Rattle.pm_core.specs.Held.{in_force};
ghost use Rattle.pm_core.specs.LogAlone.{image_of};
ghost use Rattle.pm_core.specs.Starts.{CanBegin};
ghost use Rattle.pm_core.specs.States.{State};
ghost use Rattle.pm_redo.specs.Differences.{difference_from};
ghost use Rattle.pm_redo.specs.LogEnds.{LogEndsAt};
ghost use Rattle.pm_redo.specs.Restoring.{found_shape, IsCutLog, IsFit};
ghost use Rattle.pm_engine.specs.AppendRuns.{append_all_steps};
ghost use Rattle.pm_engine.specs.Batches.{HasPlainFault};
ghost use Rattle.pm_engine.specs.FrameOpenings.{IsFreshIn, IsReadyOver, OpensRunningIn};
ghost use Rattle.pm_engine.specs.FrameOpenings.{AreEmptyFrames, IsStartedEngine};
ghost use Rattle.pm_engine.specs.FrameOpenings.{CountsLog, LeavesBase, OpensRestored};
ghost use Rattle.pm_engine.specs.FrameBatches.{is_due_idle};
ghost use Rattle.pm_engine.specs.LogCounts.{CountsAtLeast, log_bytes};
ghost use Rattle.pm_engine.specs.Replays.{CrashHoldsMap, LogLeadsTo};
ghost use Rattle.pm_engine.specs.Openings.{HasFewNumbers, opened_last, opened_number};
ghost use Rattle.pm_engine.specs.Openings.{IsPlainOpen, ComparesOpening, CountsFaults, CountsOpenFaults};
ghost use Rattle.pm_engine.specs.Openings.{IsRestoredHolding};

use crate::engine::Engine;
use crate::frame_replay_log::replay_in_frames;
use crate::frame_store::FrameStore;
use crate::log_count::log_bytes;
use crate::replay_log::has_numbers;
use crate::restarts::append_restart;
use pm_ckpt::Ckpt;
use pm_config::Config;
use pm_disk::Host;
use pm_redo::{Base, restore};
use pm_segments::Log;
use pm_types::{Lack, Mark, OpenFault, Place, Shape, StoreFault};
use std::alloc::{AllocError, Global};
use std::sync::Wait;

impl Engine {
    /// Opens the store, with as many page frames as the configuration says. It is restored: its shape is compared with
    /// the one that the configuration asks for, its log is cut where it ends, and a checkpoint that was running is
    /// ended. A RESTART is appended, and the records of the log from the replay place up to it are applied again, whose
    /// pages are logged. Where frames are lacking for the pages of a record, a checkpoint is made before it, so that a
    /// restart applies the log from that record on. Only the pages that these records need are read, so that it takes
    /// time in proportion to the log.
    ///
    /// At its end it makes a checkpoint where one is due, or where more log was found and appended than an opening is to
    /// leave to the next one: what one restart applies isn't applied by each later one again.
    ///
    /// `Shape` comes exactly where the store has a shape and it differs, unless a call failed or memory ran
    /// out, and leaves everything as it was. `BadRecord` and `BadPage` come only where the store isn't sound.
    /// `BadRecord` names the record without which the store can't be restored, or one that can't be applied again: none
    /// stands at its place, or it is in no grammar, or is a put that meets a full partition. `BadPage` names a page that
    /// a record met, which fails its check, isn't there, or names a wrong page or row; it comes only where the base
    /// pages aren't well formed. That is said of a store whose files have no page where it has no start marker: others
    /// come to light with a checkpoint. A page that isn't read isn't checked. What a crash leaves of a sound store,
    /// meanwhile or after any fault, holds what it held, and may be opened again.
    ///
    /// `Failed` comes only where a call on the disk failed. `Memory` comes where memory runs out, where the log runs out
    /// of numbers for its segments, and where frames lack for a record even after a checkpoint.
    ///
    /// What it makes of a sound store is said where there are numbers for the segments that it may begin: one
    /// for the RESTART, `OP_PAGES + 1` for each record from the replay place on, and one for the checkpoint at the end;
    /// and for a checkpoint for each of these records, and that one.
    pub fn open_store<Q: Wait, H: Host>(
        rt: &Q,
        alloc: Global,
        host: &mut H,
        config: &Config,
    ) -> Result<Engine, OpenFault>
        requires usable { IsUsable (H.Device.state host.old) }
        requires wanted { IsConfig config.now }

        // What it makes of any store.
        ensures fresh { IfOk result (λ engine. IsFreshIn config.now engine
            × (H.Device.tells → IsReadyOver engine (H.Device.history host.new).world)) }

        // No checkpoint is due. All log that a restart would apply is counted: none where a checkpoint was made last,
        // else at least what was found, from the replay place to where the log ended.
        ensures not_due { IfOk result (λ engine. is_due_idle engine config.now ≡ false) }
        ensures counted { H.Device.tells → (end : ThisPlace) → LogEndsAt (contents (H.Device.history host.old).world.log)
            (replay_of (in_force (image_of (H.Device.history host.old).world))) end
            → IfOk result (CountsLog (contents (H.Device.history host.old).world.log)
            (replay_of (in_force (image_of (H.Device.history host.old).world))) end) }

        // Which field differs, which record or page is bad, and which base pages are as they were.
        ensures compared { H.Device.tells → ComparesOpening (difference_from (found_shape
            (in_force (image_of (H.Device.history host.old).world))
            (contents (H.Device.history host.old).world.log)) config.now.shape)
            (H.Device.history host.old) (H.Device.history host.new) result }
        ensures base { H.Device.tells → LeavesBase H.Device.tells config.now.shape
            (in_force (image_of (H.Device.history host.old).world))
            (H.Device.history host.old).world (H.Device.history host.new).world result }

        // What it makes of a sound store with nothing pending, and what a crash leaves meanwhile.
        ensures opened { H.Device.tells → (told : List ℕ → ℕ) (shape : ThisShape) (pairs : Pairs)
            → (can : CanBegin config.now.shape told (H.Device.history host.old).world shape pairs)
            → HasFewNumbers can → IfOk result (λ engine. OpensRunningIn (opened_last can) (opened_number can)
            config.now.shape told shape pairs engine (H.Device.history host.new).world) }
        ensures refused { H.Device.tells → (told : List ℕ → ℕ) (shape : ThisShape) (pairs : Pairs)
            → (can : CanBegin config.now.shape told (H.Device.history host.old).world shape pairs)
            → HasFewNumbers can → difference_from (found_shape
            (in_force (image_of (H.Device.history host.old).world))
            (contents (H.Device.history host.old).world.log)) config.now.shape ≡ None
            → IfErr result IsPlainOpen }
        ensures within { H.Device.tells → (told : List ℕ → ℕ) (shape : ThisShape) (pairs : Pairs)
            → (can : CanBegin config.now.shape told (H.Device.history host.old).world shape pairs)
            → HasFewNumbers can → AllMoments (H.Device.history host.old) (H.Device.history host.new)
            (CrashHoldsMap (opened_last can + 1) (opened_number can) config.now.shape shape pairs) }
        ensures disk { H.Device.tells → AllMoments (H.Device.history host.old) (H.Device.history host.new)
            (ChangesDisk (H.Device.history host.old).world) }
        ensures cause { CountsOpenFaults (H.Device.state host.old) (H.Device.state host.new) result }
    {
        let base = restore(alloc, host, &config.shape)?;
        match open_restored(rt, alloc, host, config, base) {
            Ok(engine) => Ok(engine),
            Err(fault) => Err(OpenFault::Store(fault)),
        }
    }
}

// Opens a store that was restored. No page is bad where its base pages are well formed and its files have no others
// that may be read. There is a number more for a segment and a checkpoint.
fn open_restored<Q: Wait, H: Host>(
    rt: &Q,
    alloc: Global,
    host: &mut H,
    config: &Config,
    base: Base,
) -> Result<Engine, StoreFault>
    requires usable { IsUsable (H.Device.state host.old) }
    requires wanted { IsConfig config.now }
    requires fit { IsFit config.now.shape base }
    requires leads { H.Device.tells
        → LogLeadsTo base.replay base.log_end base.log (H.Device.history host.old).world }
    requires there { H.Device.tells → EndsThere base.log (H.Device.history host.old).world }
    ensures fresh { IfOk result (λ engine. IsFreshIn config.now engine
        × (H.Device.tells → IsReadyOver engine (H.Device.history host.new).world)) }
    ensures not_due { IfOk result (λ engine. is_due_idle engine config.now ≡ false) }
    ensures counted { H.Device.tells → IfOk result (CountsLog (contents (H.Device.history host.old).world.log)
        base.replay base.log_end) }
    ensures any { H.Device.tells → OpensRestored H.Device.tells config.now.shape base.mark base.replay base.log_end
        base.log (H.Device.history host.old).world (H.Device.history host.new).world result }
    ensures opened { H.Device.tells → (last highest : ℕ) (wanted : ThisShape) (told : List ℕ → ℕ) (pairs : Pairs)
        (s : State) → IsRestoredHolding last highest wanted told config.now.shape pairs base.log base.mark s
        (H.Device.history host.old).world
        → IfOk result (λ engine. OpensRunningIn (last + 1) (highest + 1) wanted told config.now.shape pairs engine
        (H.Device.history host.new).world) }
    ensures plain { H.Device.tells → (last highest : ℕ) (wanted : ThisShape) (told : List ℕ → ℕ) (pairs : Pairs)
        (s : State) → IsRestoredHolding last highest wanted told config.now.shape pairs base.log base.mark s
        (H.Device.history host.old).world
        → IfErr result (λ fault. IsPlainOpen (opening.Store fault)) }
    ensures within { H.Device.tells → (last highest : ℕ) (wanted : ThisShape) (told : List ℕ → ℕ) (pairs : Pairs)
        (s : State) → IsRestoredHolding last highest wanted told config.now.shape pairs base.log base.mark s
        (H.Device.history host.old).world
        → AllMoments (H.Device.history host.old) (H.Device.history host.new)
        (CrashHoldsMap (last + 1 + 1) (highest + 1) wanted config.now.shape pairs) }
    ensures disk { H.Device.tells → AllMoments (H.Device.history host.old) (H.Device.history host.new)
        (ChangesDisk (H.Device.history host.old).world) }
    ensures cause { CountsFaults (H.Device.state host.old) (H.Device.state host.new) result }
{
    match open_replayed(rt, alloc, host, config, base) {
        Err(fault) => Err(fault),
        Ok(engine) => {
            let mut settled = engine;
            match settled.settle(host, config) {
                Ok(()) => Ok(settled),
                Err(fault) => {
                    let _order = settled.close();
                    Err(fault)
                }
            }
        }
    }
}

// Opens a store that was restored, up to where its records are applied again. No page is bad where its base pages are well formed and its files have no others
// that may be read.
fn open_replayed<Q: Wait, H: Host>(
    rt: &Q,
    alloc: Global,
    host: &mut H,
    config: &Config,
    base: Base,
) -> Result<Engine, StoreFault>
    requires usable { IsUsable (H.Device.state host.old) }
    requires wanted { IsConfig config.now }
    requires fit { IsFit config.now.shape base }
    requires leads { H.Device.tells
        → LogLeadsTo base.replay base.log_end base.log (H.Device.history host.old).world }
    requires there { H.Device.tells → EndsThere base.log (H.Device.history host.old).world }
    ensures fresh { IfOk result (λ engine. IsFreshIn config.now engine
        × (H.Device.tells → IsReadyOver engine (H.Device.history host.new).world)) }
    ensures found { H.Device.tells → IfOk result (λ engine. CountsAtLeast engine.began.found
        (log_bytes (contents (H.Device.history host.old).world.log) base.replay base.log_end)) }
    ensures any { H.Device.tells → OpensRestored H.Device.tells config.now.shape base.mark base.replay base.log_end
        base.log (H.Device.history host.old).world (H.Device.history host.new).world result }
    ensures opened { H.Device.tells → (last highest : ℕ) (wanted : ThisShape) (told : List ℕ → ℕ) (pairs : Pairs)
        (s : State) → IsRestoredHolding last highest wanted told config.now.shape pairs base.log base.mark s
        (H.Device.history host.old).world
        → IfOk result (λ engine. OpensRunningIn last highest wanted told config.now.shape pairs engine
        (H.Device.history host.new).world) }
    ensures plain { H.Device.tells → (last highest : ℕ) (wanted : ThisShape) (told : List ℕ → ℕ) (pairs : Pairs)
        (s : State) → IsRestoredHolding last highest wanted told config.now.shape pairs base.log base.mark s
        (H.Device.history host.old).world
        → IfErr result (λ fault. IsPlainOpen (opening.Store fault)) }
    ensures within { H.Device.tells → (last highest : ℕ) (wanted : ThisShape) (told : List ℕ → ℕ) (pairs : Pairs)
        (s : State) → IsRestoredHolding last highest wanted told config.now.shape pairs base.log base.mark s
        (H.Device.history host.old).world
        → AllMoments (H.Device.history host.old) (H.Device.history host.new)
        (CrashHoldsMap (last + 1) highest wanted config.now.shape pairs) }
    ensures disk { H.Device.tells → AllMoments (H.Device.history host.old) (H.Device.history host.new)
        (ChangesDisk (H.Device.history host.old).world) }
    ensures cause { CountsFaults (H.Device.state host.old) (H.Device.state host.new) result }
{
    let from = base.replay;
    let end = base.log_end;
    let (started, found) = start_counted(alloc, host, config, base.mark, base.log, from, end)?;
    let (engine, answer) = replay_in_frames(rt, alloc, host, started, from, end);
    match answer {
        Ok(()) => Ok(engine.counting_from(found)),
        Err(fault) => {
            let _order = engine.close();
            Err(fault)
        }
    }
}

// The same engine as `start_engine` makes, and how many bytes of log stand from the first place up to the second one.
fn start_counted<H: Host>(
    alloc: Global,
    host: &mut H,
    config: &Config,
    mark: Option<Mark>,
    log: Log,
    from: Place,
    end: Place,
) -> Result<(Engine, u64), StoreFault>
    requires usable { IsUsable (H.Device.state host.old) }
    requires wanted { IsConfig config.now }
    requires marked { IfSome mark (λ mark. IsMark mark × (mark.shape ≡ config.now.shape)) }
    requires cut { IsCutLog log }
    requires there { H.Device.tells → EndsThere log (H.Device.history host.old).world }
    ensures started { IfOk result (λ made. IsStartedEngine config.now mark log made.0) }
    ensures found { H.Device.tells → IfOk result (λ made. CountsAtLeast made.1
        (log_bytes (contents (H.Device.history host.old).world.log) from end)) }
    ensures ends { H.Device.tells
        → IfOk result (λ made. EndsThere made.0.log (H.Device.history host.new).world) }
    ensures steps { H.Device.tells → DoesSteps (H.Device.history host.old) (H.Device.history host.new) result
        (append_all_steps log (restart_frame config.now.shape ∷ [])) log.end }
    ensures cause { HasPlainFault (H.Device.state host.old) (H.Device.state host.new) result }
{
    match log_bytes(host, from, end) {
        Err(_) => Err(StoreFault::Failed),
        Ok(found) => match start_engine(alloc, host, config, mark, log) {
            Err(fault) => Err(fault),
            Ok(engine) => Ok((engine, found)),
        },
    }
}

// Makes the engine of a store that was restored, over page frames without a page, and appends the RESTART to its log.
// All memory is taken before. `Memory` also comes where there may be no number for a segment more.
fn start_engine<H: Host>(
    alloc: Global,
    host: &mut H,
    config: &Config,
    mark: Option<Mark>,
    log: Log,
) -> Result<Engine, StoreFault>
    requires usable { IsUsable (H.Device.state host.old) }
    requires wanted { IsConfig config.now }
    requires marked { IfSome mark (λ mark. IsMark mark × (mark.shape ≡ config.now.shape)) }
    requires cut { IsCutLog log }
    requires there { H.Device.tells → EndsThere log (H.Device.history host.old).world }
    ensures started { IfOk result (IsStartedEngine config.now mark log) }
    ensures ends { H.Device.tells
        → IfOk result (λ engine. EndsThere engine.log (H.Device.history host.new).world) }
    ensures steps { H.Device.tells → DoesSteps (H.Device.history host.old) (H.Device.history host.new) result
        (append_all_steps log (restart_frame config.now.shape ∷ [])) log.end }
    ensures cause { HasPlainFault (H.Device.state host.old) (H.Device.state host.new) result }
{
    if !has_numbers(log.end()) {
        return Err(StoreFault::Memory(Lack::Numbers));
    }
    let mut log = on_heap(alloc, log)?;
    let (pages, ckpt) = empty_frames(alloc, &config.shape, config.frames, mark)?;
    match append_restart(host, &mut *log, &config.shape) {
        Ok(()) => Ok(Engine::new(pages, log, ckpt, Vec::new(alloc))),
        Err(_) => {
            pages.close();
            Err(StoreFault::Failed)
        }
    }
}

// The same log on the heap.
fn on_heap(alloc: Global, log: Log) -> Result<Box<Log>, AllocError>
    ensures { IfOk result (λ boxed. boxed.value ≡ log) }
{
    Ok(Box::new(alloc, log)?)
}

// So many page frames without a page, and what is kept for checkpoints of all of them. The partitions' files have pages
// where there is a start marker.
fn empty_frames(
    alloc: Global,
    shape: &Shape,
    frames: u32,
    mark: Option<Mark>,
) -> Result<(FrameStore, Ckpt), AllocError>
    requires shape { IsShape shape.now }
    requires some { 1 ≤ frames }
    requires few { frames ≤ most_frames }
    requires marked { IfSome mark (λ mark. IsMark mark × (mark.shape ≡ shape.now)) }
    ensures { IfOk result (λ made. AreEmptyFrames shape.now mark frames made.0 made.1) }
{
    let pages = FrameStore::new(alloc, shape, frames, mark.is_some())?;
    match Ckpt::new(alloc, *shape, mark, frames) {
        Ok(ckpt) => Ok((pages, ckpt)),
        Err(fault) => {
            pages.close();
            Err(fault)
        }
    }
}
