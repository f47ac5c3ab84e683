//! How far the log may go while its records are applied again, and where a scan of it goes on.

ghost use Rattle.std.specs.Prelude.{ℕ, ◌≡◌, ◌≤◌, ◌<◌, ◌+◌, ◌^◌, ◌++◌, List, true, false};
ghost use Rattle.pm_types.specs.declared.limits.TheConstants.{OP_PAGES};
ghost use Rattle.pm_types.specs.declared.place.Place.{Place};
ghost use Rattle.pm_frame.specs.declared.limits.TheConstants.{FRAME_END_MAX};
ghost use Rattle.pm_disk.specs.Worlds.{World};
ghost use Rattle.pm_records.specs.LogFiles.{contents};
ghost use Rattle.pm_marks.specs.Slots.{IsMarkPlace};
ghost use Rattle.pm_segments.specs.Scans.{IsAhead, StaysAt};

use pm_frame::FRAME_END_MAX;
use pm_segments::{Scan, segment_of};
use pm_types::Place;

// While the log ends in a segment below this one, an operation's records have numbers for their segments, and so has
// a checkpoint before it.
const LAST_LOOK: u64 = u64::MAX - 64;

/// Whether a log that ends there has numbers for the segments of a checkpoint and of an operation's records.
pub(crate) fn has_numbers(end: Place) -> bool
    ensures { result ≡ true → end.seg + (OP_PAGES + 1) + 1 < 2 ^ 64 }
{
    end.seg < LAST_LOOK
}

/// Whether a frame may stand at a place of the log, so that a marker may name it.
pub(crate) fn may_stand(at: Place) -> bool
    requires { 1 ≤ at.seg }
    ensures yes { result ≡ true → IsMarkPlace at }
    ensures no { result ≡ false → FRAME_END_MAX < at.off }
{
    let _segment = segment_of(at);
    at.off <= FRAME_END_MAX
}

/// Makes a scan go on over the log, which ended there and may have grown since by an operation's records. What
/// was read ahead stays where the scan is no further than that segment.
pub(crate) fn keep_ahead(scan: &mut Scan, before: Place)
    ensures stays { StaysAt scan.old scan.new }
    ensures ahead { (old new : World) → IsAhead scan.old old
        → (before.seg + OP_PAGES + 1 < 2 ^ 64 → (seg : ℕ) → scan.old.next.seg ≤ seg → seg ≤ before.seg
        → (more : List ℕ) × (contents new.log seg ≡ contents old.log seg ++ more))
        → IsAhead scan.new new }
{
    if stays_ahead(before, scan.next_place()) {
        scan.look_again();
        return;
    }
    scan.forget();
}

// Whether a scan that goes on there is no further than the segment in which the log ended, while there are
// numbers for the segments of an operation.
fn stays_ahead(before: Place, next: Place) -> bool
    ensures { result ≡ true → (before.seg + OP_PAGES + 1 < 2 ^ 64) × (next.seg ≤ before.seg) }
{
    before.seg < LAST_LOOK && next.seg <= before.seg
}
