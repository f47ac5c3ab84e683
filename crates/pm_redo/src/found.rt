//! What the markers of a store and its log's first record say.

ghost use Rattle.std.specs.Prelude.{◌≡◌, None, Some, IfOk, IsErrOf, IfSome};
ghost use Rattle.std.specs.Option.{option_and_then};
ghost use Rattle.pm_types.specs.declared.place.Place.{Place};
ghost use Rattle.pm_types.specs.declared.shape.Shape.{Shape};
ghost use Rattle.pm_disk.specs.Moments.{Does, AllMoments};
ghost use Rattle.pm_disk.specs.States.{IsUsable};
ghost use Rattle.pm_records.specs.LogFiles.{contents};
ghost use Rattle.pm_records.specs.Logs.{record_in};
ghost use Rattle.pm_records.specs.Records.{record_of};
ghost use Rattle.pm_marks.specs.InForce.{marks_of};
ghost use Rattle.pm_marks.specs.Slots.{IsMark};
ghost use Rattle.pm_core.specs.Held.{in_force};
ghost use Rattle.pm_core.specs.LogAlone.{image_of};
ghost use Rattle.pm_redo.specs.Faults.{HasStoreFault};
ghost use Rattle.pm_redo.specs.Rebuilding.{IsSame};
ghost use Rattle.pm_redo.specs.Restoring.{found_shape, shape_of, first_frame, IsBadFirst};
ghost use Rattle.pm_redo.specs.Restoring.{IsBadFirstFor};

use crate::markers::read_start;
use pm_disk::Host;
use pm_marks::Marks;
use pm_records::{LogRecord, decode};
use pm_segments::Scan;
use pm_types::{Place, Shape, StoreFault};
use std::alloc::Global;

/// Where a log begins.
pub(crate) const FIRST: Place = Place { seg: 1, off: 0 };

/// What the markers and the log's first record say.
#[derive(Clone, Copy, Debug, PartialEq, Eq)]
pub(crate) struct Found {
    pub marks: Marks,
    pub shape: Option<Shape>,
}

/// Reads the markers and, where there is no start marker, the log's first record.
pub(crate) fn find<H: Host>(alloc: Global, host: &mut H) -> Result<Found, StoreFault>
    requires usable { IsUsable (H.Device.state host.old) }
    ensures marks { H.Device.tells → IfOk result (λ found. found.marks
        ≡ marks_of (in_force (image_of (H.Device.history host.old).world))) }
    ensures fits { IfOk result (λ found. IfSome found.marks.start IsMark) }
    ensures marked { IfOk result (λ found. IfSome found.marks.start (λ mark. found.shape ≡ Some mark.shape)) }
    ensures shape { H.Device.tells → IfOk result (λ found. found.shape ≡ found_shape
        (in_force (image_of (H.Device.history host.old).world))
        (contents (H.Device.history host.old).world.log)) }
    ensures bad { H.Device.tells → (at : Place) → IsErrOf result (StoreFault.BadRecord at) → IsBadFirstFor
        (in_force (image_of (H.Device.history host.old).world))
        (contents (H.Device.history host.old).world.log) at }
    ensures same { H.Device.tells → AllMoments (H.Device.history host.old) (H.Device.history host.new)
        (IsSame (H.Device.history host.old).world) }
    ensures cause { HasStoreFault (H.Device.state host.old) (H.Device.state host.new) result }
{
    let marks = read_start(host)?;
    match marks.start {
        Some(mark) => Ok(Found {
            marks,
            shape: Some(mark.shape),
        }),
        None => match first_shape(alloc, host) {
            Ok(shape) => Ok(Found { marks, shape }),
            Err(fault) => Err(fault),
        },
    }
}

// The shape that the log's first record holds, none where the log is empty.
fn first_shape<H: Host>(alloc: Global, host: &mut H) -> Result<Option<Shape>, StoreFault>
    requires usable { IsUsable (H.Device.state host.old) }
    ensures shape { H.Device.tells → IfOk result (λ shape. shape ≡ shape_of (option_and_then record_in
        (first_frame (contents (H.Device.history host.old).world.log)))) }
    ensures bad { H.Device.tells → (at : Place) → IsErrOf result (StoreFault.BadRecord at)
        → IsBadFirst (contents (H.Device.history host.old).world.log) at }
    ensures does { H.Device.tells → Does (H.Device.history host.old) (H.Device.history host.new) result
        (H.Device.history host.old).world }
    ensures cause { HasStoreFault (H.Device.state host.old) (H.Device.state host.new) result }
{
    let mut scan = Scan::new(alloc, FIRST)?;
    match scan.next(host)? {
        Some(frame) => match shape_of(frame.kind, frame.payload) {
            Some(shape) => Ok(Some(shape)),
            None => Err(StoreFault::BadRecord(FIRST)),
        },
        None => Ok(None),
    }
}

// The shape that a frame holds, none where it is no RESTART.
fn shape_of(kind: u8, payload: &[u8]) -> Option<Shape>
    ensures { result ≡ shape_of (record_of kind payload.now) }
{
    match decode(kind, payload) {
        Ok(LogRecord::Restart { shape }) => Some(shape),
        _ => None,
    }
}
