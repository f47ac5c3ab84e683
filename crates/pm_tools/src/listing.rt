//! A store's log as lines, one for each record.

ghost use Rattle.std.specs.Prelude.{◌≡◌, ◌≤◌, ◌<◌, ◌++◌, IfOk, OnOk, IsErrOf};
ghost use Rattle.pm_types.specs.declared.place.Place.{Place};
ghost use Rattle.pm_disk.specs.Moments.{Does, AllMoments};
ghost use Rattle.pm_disk.specs.States.{HasCause, IsUsable};
ghost use Rattle.pm_frame.specs.declared.limits.TheConstants.{SEGMENT_END_MAX as last_end};
ghost use Rattle.pm_segments.specs.Scans.{IsAhead};
ghost use Rattle.pm_tools.specs.Causes.{HasPlainFault, HasStoreFault};
ghost use Rattle.pm_tools.specs.Lines.{end_line, line_of};
ghost use Rattle.pm_tools.specs.Listings.{list_place, IsListed, IsListedUpTo, SaysOfLog, SaysPrefix};
ghost use Rattle.pm_tools.specs.Listings.{ReadsNext, GoesFurther, AddsLine, IsSaid};

use crate::lines::{append_end, append_line, read_record};
use pm_disk::{Failed, Host};
use pm_frame::SEGMENT_END_MAX;
use pm_marks::read_marks;
use pm_segments::{Scan, segment_of};
use pm_types::{Place, StoreFault};
use std::alloc::Global;

// Lines are printed in pieces of so many bytes and a line more.
const PIECE: usize = 65_536;

/// What stands next in a log.
#[derive(Clone, Copy, Debug, PartialEq, Eq)]
pub(crate) enum Next {
    /// A record.
    Record,
    /// A frame that holds no record.
    Bad,
    /// Nothing: the log ends.
    End,
}

/// Prints a line for each record of the store's log, from the replay place of its checkpoint on, or
/// from the log's begin where it has none, and then the line that names the log's end. It prints
/// while it reads, and changes nothing.
///
/// `BadRecord` comes exactly where a frame of the log from there on holds no record, unless a call failed
/// or memory ran out: it names the first one, and the lines of those before it were printed. After
/// `Failed` and out of memory a prefix of the bytes of all lines was printed.
pub fn wal<H: Host>(alloc: Global, host: &mut H) -> Result<(), StoreFault>
    requires usable { IsUsable (H.Device.state host.old) }
    ensures listed { H.Device.tells → OnOk result (IsListed (list_place (H.Device.history host.old).world)
        (H.Device.history host.old).world (H.Device.history host.new).world) }
    ensures bad { H.Device.tells → (at : Place) → IsErrOf result (StoreFault.BadRecord at) →
        IsListedUpTo (list_place (H.Device.history host.old).world) at
        (H.Device.history host.old).world (H.Device.history host.new).world }
    ensures moments { H.Device.tells → AllMoments (H.Device.history host.old) (H.Device.history host.new)
        (SaysOfLog (list_place (H.Device.history host.old).world) (H.Device.history host.old).world) }
    ensures cause { HasStoreFault (H.Device.state host.old) (H.Device.state host.new) result }
{
    let from = list_place(host)?;
    if from.off > SEGMENT_END_MAX {
        return say_end(alloc, host, from);
    }
    list_from(alloc, host, from)
}

/// The place from which the log is listed.
pub(crate) fn list_place<H: Host>(host: &mut H) -> Result<Place, Failed>
    requires usable { IsUsable (H.Device.state host.old) }
    ensures place { H.Device.tells → IfOk result (λ from.
        from ≡ list_place (H.Device.history host.old).world) }
    ensures does { H.Device.tells → Does (H.Device.history host.old) (H.Device.history host.new) result
        (H.Device.history host.old).world }
    ensures cause { HasCause (H.Device.state host.old) (H.Device.state host.new) result }
{
    match read_marks(host)?.start {
        Some(mark) => Ok(mark.replay),
        None => Ok(Place { seg: 1, off: 0 }),
    }
}

// Lists the log from this place on, at which no frame stands.
fn say_end<H: Host>(alloc: Global, host: &mut H, from: Place) -> Result<(), StoreFault>
    requires usable { IsUsable (H.Device.state host.old) }
    requires past { last_end < from.off }
    ensures listed { H.Device.tells → OnOk result (IsListed from
        (H.Device.history host.old).world (H.Device.history host.new).world) }
    ensures moments { H.Device.tells → AllMoments (H.Device.history host.old) (H.Device.history host.new)
        (SaysOfLog from (H.Device.history host.old).world) }
    ensures cause { HasPlainFault (H.Device.state host.old) (H.Device.state host.new) result }
{
    let mut lines = Vec::new(alloc);
    finish(host, from, &mut lines)
}

// Lists the log from this place on.
fn list_from<H: Host>(alloc: Global, host: &mut H, from: Place) -> Result<(), StoreFault>
    requires usable { IsUsable (H.Device.state host.old) }
    requires within { from.off ≤ last_end }
    ensures listed { H.Device.tells → OnOk result (IsListed from
        (H.Device.history host.old).world (H.Device.history host.new).world) }
    ensures bad { H.Device.tells → (at : Place) → IsErrOf result (StoreFault.BadRecord at) →
        IsListedUpTo from at (H.Device.history host.old).world (H.Device.history host.new).world }
    ensures moments { H.Device.tells → AllMoments (H.Device.history host.old) (H.Device.history host.new)
        (SaysOfLog from (H.Device.history host.old).world) }
    ensures cause { HasStoreFault (H.Device.state host.old) (H.Device.state host.new) result }
{
    let mut scan = Scan::new(alloc, from)?;
    let mut text = Vec::new(alloc);
    let mut lines = Vec::new(alloc);
    'frames: loop {
        let next = read_next(host, &mut scan, &mut text)?;
        let at = scan.place();
        // For the proof alone: the segment's number is below 2^64, so that the loop ends.
        let _segment = segment_of(at);
        match next {
            Next::Record => add_line(host, at, &text, &mut lines)?,
            Next::Bad => return refuse(host, at, &lines),
            Next::End => return finish(host, at, &mut lines),
        }
    }
}

// Reads the next record, and writes what its line says in place of the text.
fn read_next<H: Host>(host: &mut H, scan: &mut Scan, text: &mut Vec<u8>) -> Result<Next, StoreFault>
    requires usable { IsUsable (H.Device.state host.old) }
    requires ahead { H.Device.tells → IsAhead scan.old (H.Device.history host.old).world }
    ensures reads { H.Device.tells → IfOk result (λ next.
        ReadsNext next text.new.items scan.old scan.new (H.Device.history host.old).world) }
    ensures ahead { H.Device.tells → OnOk result (IsAhead scan.new (H.Device.history host.new).world) }
    ensures further { IfOk result (λ next. GoesFurther next scan.old scan.new) }
    ensures bound { OnOk result (scan.new.next.off ≤ last_end) }
    ensures does { H.Device.tells → Does (H.Device.history host.old) (H.Device.history host.new) result
        (H.Device.history host.old).world }
    ensures cause { HasPlainFault (H.Device.state host.old) (H.Device.state host.new) result }
{
    match scan.next(host)? {
        Some(frame) => Ok(read_record(frame.kind, frame.payload, text)?),
        None => Ok(Next::End),
    }
}

// Adds the line of a record to those that are to be printed, and prints them where they are a piece.
fn add_line<H: Host>(
    host: &mut H,
    at: Place,
    text: &[u8],
    lines: &mut Vec<u8>,
) -> Result<(), StoreFault>
    requires usable { IsUsable (H.Device.state host.old) }
    ensures adds { H.Device.tells → OnOk result (AddsLine lines.old.items (line_of at text.now) lines.new.items
        (H.Device.history host.old).world (H.Device.history host.new).world) }
    ensures moments { H.Device.tells → AllMoments (H.Device.history host.old) (H.Device.history host.new)
        (SaysPrefix (lines.old.items ++ line_of at text.now) (H.Device.history host.old).world) }
    ensures cause { HasPlainFault (H.Device.state host.old) (H.Device.state host.new) result }
{
    append_line(at, text, lines)?;
    if lines.len() < PIECE {
        return Ok(());
    }
    host.print(lines)?;
    lines.clear();
    Ok(())
}

// Prints the lines before a frame that holds no record, and names its place.
fn refuse<H: Host>(host: &mut H, at: Place, lines: &[u8]) -> Result<(), StoreFault>
    requires usable { IsUsable (H.Device.state host.old) }
    ensures never { OnOk result ⊥ }
    ensures bad { H.Device.tells → (named : Place) → IsErrOf result (StoreFault.BadRecord named) →
        (named ≡ at) × IsSaid lines.now (H.Device.history host.old).world (H.Device.history host.new).world }
    ensures moments { H.Device.tells → AllMoments (H.Device.history host.old) (H.Device.history host.new)
        (SaysPrefix lines.now (H.Device.history host.old).world) }
    ensures cause { HasStoreFault (H.Device.state host.old) (H.Device.state host.new) result }
{
    host.print(lines)?;
    Err(StoreFault::BadRecord(at))
}

// Prints the lines that are left, and the one that names the log's end.
fn finish<H: Host>(host: &mut H, at: Place, lines: &mut Vec<u8>) -> Result<(), StoreFault>
    requires usable { IsUsable (H.Device.state host.old) }
    ensures said { H.Device.tells → OnOk result (IsSaid (lines.old.items ++ end_line at)
        (H.Device.history host.old).world (H.Device.history host.new).world) }
    ensures moments { H.Device.tells → AllMoments (H.Device.history host.old) (H.Device.history host.new)
        (SaysPrefix (lines.old.items ++ end_line at) (H.Device.history host.old).world) }
    ensures cause { HasPlainFault (H.Device.state host.old) (H.Device.state host.new) result }
{
    append_end(at, lines)?;
    host.print(lines)?;
    Ok(())
}
