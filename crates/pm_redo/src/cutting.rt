//! The log of a store that is restored, cut where it ends, and the end of its checkpoint.

ghost use Rattle.std.specs.Prelude.{◌≡◌, ◌⊎◌, ◌≤◌, ℕ, List, None, length, IfOk, OnOk, IsErrOf, IfSome};
ghost use Rattle.pm_types.specs.declared.limits.TheConstants.{SEGMENT_BYTES_MIN, SEGMENT_BYTES_MAX};
ghost use Rattle.pm_types.specs.declared.place.Place.{Place};
ghost use Rattle.pm_types.specs.declared.shape.Shape.{Shape};
ghost use Rattle.pm_disk.specs.Moments.{AllMoments, Does};
ghost use Rattle.pm_disk.specs.States.{HasCause, IsUsable};
ghost use Rattle.pm_frame.specs.declared.limits.TheConstants.{SEGMENT_END_MAX as last_end};
ghost use Rattle.pm_records.specs.LogFiles.{contents};
ghost use Rattle.pm_records.specs.LogSteps.{DoesSteps, cut_steps};
ghost use Rattle.pm_segments.specs.Drops.{is_there};
ghost use Rattle.pm_segments.specs.Ends.{fresh_log};
ghost use Rattle.pm_marks.specs.InForce.{Started, marks_of, replay_of};
ghost use Rattle.pm_marks.specs.Slots.{IsMark};
ghost use Rattle.pm_core.specs.Calls.{ChangesDisk};
ghost use Rattle.pm_core.specs.Held.{in_force};
ghost use Rattle.pm_core.specs.LogAlone.{image_of};
ghost use Rattle.pm_core.specs.States.{State};
ghost use Rattle.pm_redo.specs.Ending.{BeginsSteps};
ghost use Rattle.pm_redo.specs.Faults.{HasStoreFault};
ghost use Rattle.pm_redo.specs.LogEnds.{LogEndsAt};
ghost use Rattle.pm_redo.specs.Rebuilding.{CanNotRebuild, IsSame};
ghost use Rattle.pm_redo.specs.Restoring.{first_of, first_kept, segment_bytes_of, IsBadLog};
ghost use Rattle.pm_redo.specs.Restoring.{IsCutLog, IsPastEnd, CutsLog, IsLeft, Restores, IsLowestKept};
ghost use Rattle.pm_redo.specs.Restoring.{HasSegments, RestoresFiles};

use crate::ending::end_checkpoint;
use crate::found::FIRST;
use crate::log_end::{log_end, reaches};
use crate::log_pages::rebuild;
use pm_disk::{Failed, Host};
use pm_marks::Marks;
use pm_segments::Log;
use pm_types::{Mark, Place, StoreFault};
use std::alloc::Global;

/// Cuts the log where it ends, and ends a checkpoint that has no end marker.
pub(crate) fn restore_log<H: Host>(
    alloc: Global,
    host: &mut H,
    marks: &Marks,
    segment_bytes: u32,
) -> Result<Log, StoreFault>
    requires usable { IsUsable (H.Device.state host.old) }
    requires marks { H.Device.tells
        → marks.now ≡ marks_of (in_force (image_of (H.Device.history host.old).world)) }
    requires fits { IfSome marks.now.start IsMark }
    requires size_from { SEGMENT_BYTES_MIN ≤ segment_bytes }
    requires size_to { segment_bytes ≤ SEGMENT_BYTES_MAX }
    ensures log { H.Device.tells → IfOk result (CutsLog (contents (H.Device.history host.old).world.log)
        (replay_of (in_force (image_of (H.Device.history host.old).world)))
        (segment_bytes_of (in_force (image_of (H.Device.history host.old).world)) segment_bytes)) }
    ensures cut { IfOk result IsCutLog }
    ensures there { H.Device.tells → IfOk result (HasSegments
        (first_of (in_force (image_of (H.Device.history host.old).world)))
        (H.Device.history host.new).world) }
    ensures bad { H.Device.tells → (at : Place) → IsErrOf result (StoreFault.BadRecord at)
        → IsBadLog (in_force (image_of (H.Device.history host.old).world))
        (contents (H.Device.history host.old).world.log) at
        × ((H.Device.history host.new).world ≡ (H.Device.history host.old).world) }
    ensures begun { H.Device.tells → (wanted : Shape) (told : List ℕ → ℕ) (s : State)
        → IsLeft wanted told (in_force (image_of (H.Device.history host.old).world)) s
        (H.Device.history host.old).world
        → BeginsSteps told s (H.Device.history host.old) (H.Device.history host.new) }
    ensures restored { H.Device.tells → (wanted : Shape) (told : List ℕ → ℕ) (s : State)
        → IsLeft wanted told (in_force (image_of (H.Device.history host.old).world)) s
        (H.Device.history host.old).world → OnOk result (Restores told
        (in_force (image_of (H.Device.history host.old).world)) s
        (H.Device.history host.old) (H.Device.history host.new)) }
    ensures files { H.Device.tells → RestoresFiles (in_force (image_of (H.Device.history host.old).world))
        (H.Device.history host.old) (H.Device.history host.new) result }
    ensures cause { HasStoreFault (H.Device.state host.old) (H.Device.state host.new) result }
{
    match marks.start {
        Some(mark) => {
            if marks.ended {
                let first = first_kept(&mark);
                cut_log(alloc, host, mark.replay, first, mark.shape.segment_bytes)
            } else {
                restore_started(alloc, host, &mark)
            }
        }
        None => cut_log(alloc, host, FIRST, 1, segment_bytes),
    }
}

// Cuts the log where it ends when it is read from the replay place.
fn cut_log<H: Host>(
    alloc: Global,
    host: &mut H,
    replay: Place,
    first: u64,
    segment_bytes: u32,
) -> Result<Log, StoreFault>
    requires usable { IsUsable (H.Device.state host.old) }
    requires within { replay.off ≤ last_end }
    requires kept { first ≤ replay.seg }
    requires from_one { 1 ≤ replay.seg }
    requires size_from { SEGMENT_BYTES_MIN ≤ segment_bytes }
    requires size_to { segment_bytes ≤ SEGMENT_BYTES_MAX }
    ensures log { H.Device.tells → IfOk result (CutsLog
        (contents (H.Device.history host.old).world.log) replay segment_bytes) }
    ensures cut { IfOk result IsCutLog }
    ensures there { H.Device.tells → IfOk result (HasSegments first (H.Device.history host.new).world) }
    ensures bad { H.Device.tells → (at : Place) → IsErrOf result (StoreFault.BadRecord at)
        → IsPastEnd (contents (H.Device.history host.old).world.log) replay at }
    ensures untouched { H.Device.tells → (at : Place) → IsErrOf result (StoreFault.BadRecord at)
        → (H.Device.history host.new).world ≡ (H.Device.history host.old).world }
    ensures steps { H.Device.tells → (end : Place)
        → LogEndsAt (contents (H.Device.history host.old).world.log) replay end
        → DoesSteps (H.Device.history host.old) (H.Device.history host.new) result cut_steps end }
    ensures disk { H.Device.tells → AllMoments (H.Device.history host.old) (H.Device.history host.new)
        (ChangesDisk (H.Device.history host.old).world) }
    ensures cause { HasStoreFault (H.Device.state host.old) (H.Device.state host.new) result }
{
    if !reaches(host, replay)? {
        return Err(StoreFault::BadRecord(replay));
    }
    let end = log_end(alloc, host, replay)?;
    Ok(cut_at(host, first, end, segment_bytes)?)
}

// Cuts the log at its end. Of its segments those from `first` on are needed, and the ones right below that are
// there count as kept, so that the next checkpoint removes them.
fn cut_at<H: Host>(host: &mut H, first: u64, end: Place, segment_bytes: u32) -> Result<Log, Failed>
    requires usable { IsUsable (H.Device.state host.old) }
    requires end { end.off ≤ last_end }
    requires kept { first ≤ end.seg }
    requires size_from { SEGMENT_BYTES_MIN ≤ segment_bytes }
    requires size_to { segment_bytes ≤ SEGMENT_BYTES_MAX }
    requires long { H.Device.tells
        → end.off ≤ length (contents (H.Device.history host.old).world.log end.seg) }
    ensures log { IfOk result (λ log. log ≡ fresh_log log.first end segment_bytes) }
    ensures there { H.Device.tells → IfOk result (HasSegments first (H.Device.history host.new).world) }
    ensures steps { H.Device.tells
        → DoesSteps (H.Device.history host.old) (H.Device.history host.new) result cut_steps end }
    ensures cause { HasCause (H.Device.state host.old) (H.Device.state host.new) result }
{
    let lowest = lowest_kept(host, first)?;
    Log::cut_tail(host, lowest, end, segment_bytes)
}

// The lowest segment that is there, without a gap up to `first`. Crashes after the start markers of two
// checkpoints in a row leave segments that the marker in force doesn't name; else one call is made.
fn lowest_kept<H: Host>(host: &mut H, first: u64) -> Result<u64, Failed>
    requires usable { IsUsable (H.Device.state host.old) }
    ensures below { IfOk result (λ lowest. lowest ≤ first) }
    ensures from_one { IfOk result (λ lowest. 1 ≤ first → 1 ≤ lowest) }
    ensures lowest { H.Device.tells → IfOk result (IsLowestKept (H.Device.history host.old).world first) }
    ensures same { H.Device.tells → AllMoments (H.Device.history host.old) (H.Device.history host.new)
        (IsSame (H.Device.history host.old).world) }
    ensures cause { HasCause (H.Device.state host.old) (H.Device.state host.new) result }
{
    let mut lowest = first;
    'segments: while lowest > 1 {
        if !is_there(host, lowest - 1)? {
            return Ok(lowest);
        }
        lowest -= 1;
    }
    Ok(lowest)
}

// Whether a segment's file is there.
fn is_there<H: Host>(host: &mut H, seg: u64) -> Result<bool, Failed>
    requires usable { IsUsable (H.Device.state host.old) }
    ensures found { H.Device.tells
        → IfOk result (λ found. found ≡ is_there seg (H.Device.history host.old).world) }
    ensures does { H.Device.tells → Does (H.Device.history host.old) (H.Device.history host.new) result
        (H.Device.history host.old).world }
    ensures cause { HasCause (H.Device.state host.old) (H.Device.state host.new) result }
{
    let len = host.seg_len(seg)?;
    Ok(len.is_some())
}

// Restores a store with a checkpoint that has no end marker.
fn restore_started<H: Host>(alloc: Global, host: &mut H, mark: &Mark) -> Result<Log, StoreFault>
    requires usable { IsUsable (H.Device.state host.old) }
    requires mark { IsMark mark.now }
    ensures log { H.Device.tells → IfOk result (CutsLog
        (contents (H.Device.history host.old).world.log) mark.now.replay mark.now.shape.segment_bytes) }
    ensures cut { IfOk result IsCutLog }
    ensures there { H.Device.tells → IfOk result
        (HasSegments (first_kept mark.now) (H.Device.history host.new).world) }
    ensures bad { H.Device.tells → (at : Place) → IsErrOf result (StoreFault.BadRecord at)
        → (CanNotRebuild mark.now (contents (H.Device.history host.old).world.log) at
        ⊎ IsPastEnd (contents (H.Device.history host.old).world.log) mark.now.replay at)
        × ((H.Device.history host.new).world ≡ (H.Device.history host.old).world) }
    ensures begun { H.Device.tells → (wanted : Shape) (told : List ℕ → ℕ) (s : State)
        → IsLeft wanted told (Started mark.now) s (H.Device.history host.old).world
        → BeginsSteps told s (H.Device.history host.old) (H.Device.history host.new) }
    ensures restored { H.Device.tells → (wanted : Shape) (told : List ℕ → ℕ) (s : State)
        → IsLeft wanted told (Started mark.now) s (H.Device.history host.old).world → OnOk result (Restores
        told (Started mark.now) s (H.Device.history host.old) (H.Device.history host.new)) }
    ensures files { H.Device.tells → RestoresFiles (Started mark.now)
        (H.Device.history host.old) (H.Device.history host.new) result }
    ensures cause { HasStoreFault (H.Device.state host.old) (H.Device.state host.new) result }
{
    let rebuilt = rebuild(alloc, host, mark)?;
    let pages = rebuilt.pages(alloc)?;
    let log = cut_log(
        alloc,
        host,
        mark.replay,
        first_kept(mark),
        mark.shape.segment_bytes,
    )?;
    end_checkpoint(host, mark, &rebuilt, &pages)?;
    Ok(log)
}

// The lowest segment that a start marker names.
fn first_kept(mark: &Mark) -> u64
    ensures { result ≡ first_kept mark.now }
{
    mark.from.seg.min(mark.begin.seg.min(mark.replay.seg))
}
