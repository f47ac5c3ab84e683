//! The pages that the log rebuilds for a checkpoint that has no end marker.

ghost use Rattle.std.specs.Prelude.{◌≡◌, ◌≤◌, [], IfOk, OnOk, IsErrOf, IsTrue, ◌↔◌};
ghost use Rattle.pm_types.specs.declared.place.Place.{Place};
ghost use Rattle.pm_disk.specs.Moments.{Does, AllMoments};
ghost use Rattle.pm_disk.specs.States.{IsUsable};
ghost use Rattle.pm_frame.specs.declared.limits.TheConstants.{SEGMENT_END_MAX as last_end};
ghost use Rattle.pm_records.specs.LogFiles.{contents};
ghost use Rattle.pm_records.specs.Records.{record_of};
ghost use Rattle.pm_records.specs.Views.{record_view};
ghost use Rattle.pm_segments.specs.Scans.{IsAhead};
ghost use Rattle.pm_marks.specs.Slots.{IsMark};
ghost use Rattle.pm_core.specs.BasePages.{IsBegin, Rebuilds};
ghost use Rattle.pm_redo.specs.Faults.{HasPlainFault, HasStoreFault};
ghost use Rattle.pm_redo.specs.PageMaps.{kept_pages};
ghost use Rattle.pm_redo.specs.Rebuilding.{BeginStands, CanNotRebuild, RebuildsOr, taken_of, first_bad};
ghost use Rattle.pm_redo.specs.Rebuilding.{bad_at_begin, refused_after, TakesNext, IsFurther};
ghost use Rattle.pm_redo.specs.Rebuilding.{IsBeginRead, TakesRead, IsSame};

use crate::rebuilt_pages::RebuiltPages;
use pm_disk::Host;
use pm_records::{LogRecord, decode};
use pm_segments::{Scan, segment_of};
use pm_types::{Mark, Place, StoreFault};
use std::alloc::{AllocError, Global};

/// What a frame's record is to the pages.
#[derive(Clone, Copy, Debug, PartialEq, Eq)]
pub(crate) enum Taken {
    /// It changes one page at most.
    Plain,
    /// The begin of this checkpoint.
    Begin(u64),
    /// It voids all pages.
    Restart,
    /// It can't be.
    Refused,
}

/// How a rebuild goes on.
#[derive(Clone, Copy, Debug, PartialEq, Eq)]
pub(crate) enum RebuildStep {
    /// A frame's record was taken, or refused.
    Frame(Taken),
    /// The frame is in no grammar.
    Bad,
    /// The log ends.
    End,
}

/// The pages that the log rebuilds for this checkpoint, which has no end marker: the records from its
/// from place up to its begin place, and of these only those after the last RESTART. It reads the log
/// in one pass, and changes nothing.
///
/// `BadRecord` comes exactly where the log rebuilds no pages, unless a call failed or memory ran out.
/// It names the place of the first record that can't be, or else the begin place, where that isn't
/// reached or the checkpoint's CP_BEGIN doesn't stand there.
pub fn rebuild<H: Host>(
    alloc: Global,
    host: &mut H,
    mark: &Mark,
) -> Result<RebuiltPages, StoreFault>
    requires usable { IsUsable (H.Device.state host.old) }
    requires mark { IsMark mark.now }
    ensures shape { IfOk result (λ rebuilt. rebuilt.shape ≡ mark.now.shape) }
    ensures rebuilds { H.Device.tells → IfOk result (λ rebuilt.
        Rebuilds mark.now (contents (H.Device.history host.old).world.log) (kept_pages rebuilt)) }
    ensures bad { H.Device.tells → (at : Place) → IsErrOf result (StoreFault.BadRecord at)
        → CanNotRebuild mark.now (contents (H.Device.history host.old).world.log) at }
    ensures same { H.Device.tells → AllMoments (H.Device.history host.old) (H.Device.history host.new)
        (IsSame (H.Device.history host.old).world) }
    ensures cause { HasStoreFault (H.Device.state host.old) (H.Device.state host.new) result }
{
    let mut rebuilt = RebuiltPages::new(alloc, mark.shape);
    match read_range(alloc, host, mark, &mut rebuilt)? {
        None => Ok(rebuilt),
        Some(at) => Err(StoreFault::BadRecord(at)),
    }
}

// Takes the records from the from place up to the begin place, and gives the place that is bad, if one is.
fn read_range<H: Host>(
    alloc: Global,
    host: &mut H,
    mark: &Mark,
    rebuilt: &mut RebuiltPages,
) -> Result<Option<Place>, StoreFault>
    requires usable { IsUsable (H.Device.state host.old) }
    requires mark { IsMark mark.now }
    requires shape { rebuilt.old.shape ≡ mark.now.shape }
    requires none { rebuilt.old.entries ≡ [] }
    ensures shape { IfOk result (λ bad. rebuilt.new.shape ≡ mark.now.shape) }
    ensures reads { H.Device.tells → IfOk result (λ bad.
        RebuildsOr bad mark.now (contents (H.Device.history host.old).world.log) rebuilt.new) }
    ensures same { H.Device.tells → AllMoments (H.Device.history host.old) (H.Device.history host.new)
        (IsSame (H.Device.history host.old).world) }
    ensures cause { HasPlainFault (H.Device.state host.old) (H.Device.state host.new) result }
{
    let mut scan = Scan::new(alloc, mark.from)?;
    let mut refused = None;
    'frames: loop {
        let step = take_next(alloc, host, &mut scan, rebuilt)?;
        let at = scan.place();
        // For the proof alone: the segment's number is below 2^64, so that the loop ends.
        let _segment = segment_of(at);
        if at == mark.begin {
            let holds = holds_begin(alloc, host, mark, step)?;
            return Ok(bad_at_begin(holds, refused, at));
        }
        match step {
            RebuildStep::Frame(taken) => refused = refused_after(taken, refused, at),
            RebuildStep::Bad => return Ok(Some(first_bad(refused, at))),
            RebuildStep::End => return Ok(Some(first_bad(refused, mark.begin))),
        }
    }
}

// Takes the record of the next frame, if there is one.
fn take_next<H: Host>(
    alloc: Global,
    host: &mut H,
    scan: &mut Scan,
    rebuilt: &mut RebuiltPages,
) -> Result<RebuildStep, StoreFault>
    requires usable { IsUsable (H.Device.state host.old) }
    requires ahead { H.Device.tells → IsAhead scan.old (H.Device.history host.old).world }
    ensures takes { H.Device.tells → IfOk result (λ step.
        TakesNext step scan.old scan.new rebuilt.old rebuilt.new (H.Device.history host.old).world) }
    ensures shape { OnOk result (rebuilt.new.shape ≡ rebuilt.old.shape) }
    ensures ahead { H.Device.tells → OnOk result (IsAhead scan.new (H.Device.history host.new).world) }
    ensures further { IfOk result (λ step. IsFurther step scan.old scan.new) }
    ensures bound { OnOk result (scan.new.next.off ≤ last_end) }
    ensures does { H.Device.tells → Does (H.Device.history host.old) (H.Device.history host.new) result
        (H.Device.history host.old).world }
    ensures cause { HasPlainFault (H.Device.state host.old) (H.Device.state host.new) result }
{
    match scan.next(host)? {
        Some(frame) => Ok(take(alloc, rebuilt, frame.kind, frame.payload)?),
        None => Ok(RebuildStep::End),
    }
}

// Takes the record of a frame.
fn take(
    alloc: Global,
    rebuilt: &mut RebuiltPages,
    kind: u8,
    payload: &[u8],
) -> Result<RebuildStep, AllocError>
    ensures { IfOk result (λ step. TakesRead step rebuilt.old rebuilt.new (record_of kind payload.now)) }
{
    let Ok(found) = decode(kind, payload) else {
        return Ok(RebuildStep::Bad);
    };
    if rebuilt.take(alloc, &found)? {
        Ok(RebuildStep::Frame(taken_of(&found)))
    } else {
        Ok(RebuildStep::Frame(Taken::Refused))
    }
}

// What a record is that was taken.
fn taken_of(found: &LogRecord<'_>) -> Taken
    ensures { result ≡ taken_of (record_view found.now) }
{
    match found {
        LogRecord::Logical { .. } => Taken::Plain,
        LogRecord::Snapshot { .. } => Taken::Plain,
        LogRecord::Delta { .. } => Taken::Plain,
        LogRecord::CpBegin { number, .. } => Taken::Begin(*number),
        LogRecord::Restart { .. } => Taken::Restart,
        LogRecord::Seal => Taken::Plain,
    }
}

// Whether the checkpoint's CP_BEGIN is what was read at its begin place. Where the log ends there, no
// frame was read: after a SEAL in the last segment that there may be, one may stand there all the same.
fn holds_begin<H: Host>(
    alloc: Global,
    host: &mut H,
    mark: &Mark,
    step: RebuildStep,
) -> Result<bool, StoreFault>
    requires usable { IsUsable (H.Device.state host.old) }
    requires mark { IsMark mark.now }
    ensures holds { H.Device.tells → IfOk result (λ holds.
        IsBeginRead step mark.now (H.Device.history host.old).world holds) }
    ensures does { H.Device.tells → Does (H.Device.history host.old) (H.Device.history host.new) result
        (H.Device.history host.old).world }
    ensures cause { HasPlainFault (H.Device.state host.old) (H.Device.state host.new) result }
{
    match step {
        RebuildStep::Frame(Taken::Plain) => Ok(false),
        RebuildStep::Frame(Taken::Begin(number)) => Ok(number == mark.number),
        RebuildStep::Frame(Taken::Restart) => Ok(false),
        RebuildStep::Frame(Taken::Refused) => Ok(false),
        RebuildStep::Bad => Ok(false),
        RebuildStep::End => begin_stands(alloc, host, mark),
    }
}

// Whether the checkpoint's CP_BEGIN stands at its begin place.
fn begin_stands<H: Host>(alloc: Global, host: &mut H, mark: &Mark) -> Result<bool, StoreFault>
    requires usable { IsUsable (H.Device.state host.old) }
    requires mark { IsMark mark.now }
    ensures stands { H.Device.tells → IfOk result (λ stands. IsTrue stands
        ↔ BeginStands mark.now (contents (H.Device.history host.old).world.log)) }
    ensures does { H.Device.tells → Does (H.Device.history host.old) (H.Device.history host.new) result
        (H.Device.history host.old).world }
    ensures cause { HasPlainFault (H.Device.state host.old) (H.Device.state host.new) result }
{
    let mut scan = Scan::new(alloc, mark.begin)?;
    match scan.next(host)? {
        Some(frame) => Ok(is_begin(frame.kind, frame.payload, mark.number)),
        None => Ok(false),
    }
}

// Whether a frame holds the begin of this checkpoint.
fn is_begin(kind: u8, payload: &[u8], number: u64) -> bool
    ensures { IsTrue result ↔ IsBegin number (record { kind = kind; payload = payload.now }) }
{
    match decode(kind, payload) {
        Ok(found) => taken_of(&found) == Taken::Begin(number),
        Err(_) => false,
    }
}

// The place that is bad once the begin place is reached, if one is.
fn bad_at_begin(holds: bool, refused: Option<Place>, begin: Place) -> Option<Place>
    ensures { result ≡ bad_at_begin holds refused begin }
{
    if holds {
        refused
    } else {
        Some(first_bad(refused, begin))
    }
}

// The first place whose record can't be, after one more frame.
fn refused_after(taken: Taken, refused: Option<Place>, at: Place) -> Option<Place>
    ensures { result ≡ refused_after taken refused at }
{
    match taken {
        Taken::Plain => refused,
        Taken::Begin(_) => refused,
        Taken::Restart => None,
        Taken::Refused => Some(first_bad(refused, at)),
    }
}

// The first place whose record can't be: this one, where none was before it.
fn first_bad(refused: Option<Place>, at: Place) -> Place
    ensures { result ≡ first_bad refused at }
{
    match refused {
        Some(first) => first,
        None => at,
    }
}
