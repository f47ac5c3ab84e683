//! The markers of a store, as a restart reads them.

ghost use Rattle.std.specs.Prelude.{◌≡◌, IfOk, IfSome, IsErrOf};
ghost use Rattle.pm_types.specs.declared.place.Place.{Place};
ghost use Rattle.pm_disk.specs.Moments.{Does};
ghost use Rattle.pm_disk.specs.States.{IsUsable};
ghost use Rattle.pm_marks.specs.InForce.{marks_of};
ghost use Rattle.pm_marks.specs.Slots.{IsMark};
ghost use Rattle.pm_core.specs.Held.{in_force};
ghost use Rattle.pm_core.specs.LogAlone.{image_of};
ghost use Rattle.pm_redo.specs.Faults.{HasStoreFault};

use pm_disk::Host;
use pm_marks::{Marks, is_mark, read_marks};
use pm_types::StoreFault;

/// Reads the checkpoint in force. What is read of a valid slot is a mark; where the host tells nothing,
/// a test alone shows it.
pub(crate) fn read_start<H: Host>(host: &mut H) -> Result<Marks, StoreFault>
    requires usable { IsUsable (H.Device.state host.old) }
    ensures in_force { H.Device.tells → IfOk result (λ marks. marks
        ≡ marks_of (in_force (image_of (H.Device.history host.old).world))) }
    ensures fits { IfOk result (λ marks. IfSome marks.start IsMark) }
    ensures known { H.Device.tells → (at : Place) → IsErrOf result (StoreFault.BadRecord at) → ⊥ }
    ensures does { H.Device.tells → Does (H.Device.history host.old) (H.Device.history host.new) result
        (H.Device.history host.old).world }
    ensures cause { HasStoreFault (H.Device.state host.old) (H.Device.state host.new) result }
{
    let marks = read_marks(host)?;
    match marks.start {
        Some(mark) => {
            if is_mark(&mark) {
                Ok(marks)
            } else {
                Err(StoreFault::BadRecord(mark.begin))
            }
        }
        None => Ok(marks),
    }
}
