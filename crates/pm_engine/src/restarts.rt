//! The RESTART, which an opening appends to the log.

ghost use Rattle.std.specs.Prelude.{◌≡◌, ◌≤◌, [], ◌∷◌, length};
ghost use Rattle.pm_types.specs.declared.shape.Shape.{Shape};
ghost use Rattle.pm_frame.specs.declared.limits.TheConstants.{PAYLOAD_MAX as longest};
ghost use Rattle.pm_disk.specs.States.{HasCause, IsUsable};
ghost use Rattle.pm_records.specs.FirstRecords.{restart_frame};
ghost use Rattle.pm_records.specs.Records.{Restart, payload_of};
ghost use Rattle.pm_segments.specs.Ends.{EndsThere};
ghost use Rattle.pm_engine.specs.AppendRuns.{AppendsAll};

use pm_disk::{Failed, Host};
use pm_frame::RESTART;
use pm_records::{SHAPE_LEN, shape_bytes};
use pm_segments::Log;
use pm_types::Shape;

/// Appends the RESTART.
pub(crate) fn append_restart<H: Host>(
    host: &mut H,
    log: &mut Log,
    shape: &Shape,
) -> Result<(), Failed>
    requires usable { IsUsable (H.Device.state host.old) }
    requires there { H.Device.tells → EndsThere log.old (H.Device.history host.old).world }
    ensures appends { AppendsAll H.Device.tells (H.Device.history host.old) (H.Device.history host.new) result
        log.old log.new (restart_frame shape.now ∷ []) }
    ensures cause { HasCause (H.Device.state host.old) (H.Device.state host.new) result }
{
    log.append(host, RESTART, &restart_payload(*shape))?;
    Ok(())
}

// The payload of the record that tells a store's shape.
fn restart_payload(shape: Shape) -> [u8; SHAPE_LEN]
    ensures payload { result ≡ payload_of (Restart shape) }
    ensures short { length result ≤ longest }
{
    shape_bytes(&shape)
}
