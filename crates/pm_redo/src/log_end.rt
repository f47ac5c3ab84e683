//! Where the log ends.

ghost use Rattle.std.specs.Prelude.{◌≡◌, ◌≤◌, ◌↔◌, length, IfOk, OnOk, IsTrue};
ghost use Rattle.pm_disk.specs.Moments.{Does, AllMoments};
ghost use Rattle.pm_disk.specs.States.{HasCause, IsUsable};
ghost use Rattle.pm_frame.specs.declared.limits.TheConstants.{SEGMENT_END_MAX as last_end};
ghost use Rattle.pm_records.specs.LogFiles.{contents};
ghost use Rattle.pm_segments.specs.Scans.{IsAhead};
ghost use Rattle.pm_redo.specs.Faults.{HasPlainFault};
ghost use Rattle.pm_redo.specs.LogEnds.{LogEndsAt, PassesNext, PassesFurther};
ghost use Rattle.pm_redo.specs.Rebuilding.{IsSame};

use pm_disk::{Failed, Host};
use pm_segments::{Scan, segment_of};
use pm_types::{Place, StoreFault};
use std::alloc::Global;

/// Where the log ends, read from this place on.
pub fn log_end<H: Host>(alloc: Global, host: &mut H, from: Place) -> Result<Place, StoreFault>
    requires usable { IsUsable (H.Device.state host.old) }
    requires within { from.off ≤ last_end }
    ensures ends { H.Device.tells → IfOk result (λ end.
        LogEndsAt (contents (H.Device.history host.old).world.log) from end) }
    ensures bound { IfOk result (λ end. end.off ≤ last_end) }
    ensures later { IfOk result (λ end. from.seg ≤ end.seg) }
    ensures same { H.Device.tells → AllMoments (H.Device.history host.old) (H.Device.history host.new)
        (IsSame (H.Device.history host.old).world) }
    ensures cause { HasPlainFault (H.Device.state host.old) (H.Device.state host.new) result }
{
    let mut scan = Scan::new(alloc, from)?;
    'frames: loop {
        let passed = pass_next(host, &mut scan)?;
        let at = scan.place();
        // For the proof alone: the segment's number is below 2^64, so that the loop ends.
        let _segment = segment_of(at);
        if !passed {
            return Ok(at);
        }
    }
}

// Goes past the next frame, and answers whether there is one.
fn pass_next<H: Host>(host: &mut H, scan: &mut Scan) -> Result<bool, Failed>
    requires usable { IsUsable (H.Device.state host.old) }
    requires ahead { H.Device.tells → IsAhead scan.old (H.Device.history host.old).world }
    ensures passes { H.Device.tells → IfOk result (λ passed.
        PassesNext passed scan.old scan.new (H.Device.history host.old).world) }
    ensures ahead { H.Device.tells → OnOk result (IsAhead scan.new (H.Device.history host.new).world) }
    ensures further { IfOk result (λ passed. PassesFurther passed scan.old scan.new) }
    ensures bound { OnOk result (scan.new.next.off ≤ last_end) }
    ensures does { H.Device.tells → Does (H.Device.history host.old) (H.Device.history host.new) result
        (H.Device.history host.old).world }
    ensures cause { HasCause (H.Device.state host.old) (H.Device.state host.new) result }
{
    match scan.next(host)? {
        Some(_) => Ok(true),
        None => Ok(false),
    }
}

/// Whether the file of the place's segment reaches the place.
pub fn reaches<H: Host>(host: &mut H, at: Place) -> Result<bool, Failed>
    requires usable { IsUsable (H.Device.state host.old) }
    ensures reaches { H.Device.tells → IfOk result (λ reaches. IsTrue reaches
        ↔ (at.off ≤ length (contents (H.Device.history host.old).world.log at.seg))) }
    ensures does { H.Device.tells → Does (H.Device.history host.old) (H.Device.history host.new) result
        (H.Device.history host.old).world }
    ensures cause { HasCause (H.Device.state host.old) (H.Device.state host.new) result }
{
    match host.seg_len(at.seg)? {
        Some(len) => Ok(at.off as u64 <= len),
        None => Ok(at.off == 0),
    }
}
