//! Segments that are no longer needed, removed.

ghost use Rattle.std.specs.Prelude.{◌≡◌, ◌≤◌, ◌+◌, ◌-◌, ◌∷◌, [], IfOk, OnOk};
ghost use Rattle.pm_types.specs.declared.place.Place.{Place};
ghost use Rattle.pm_disk.specs.States.{HasCause, IsUsable};
ghost use Rattle.pm_records.specs.LogSteps.{DoesSteps, DropSegment, ForceSegment};
ghost use Rattle.pm_disk.specs.Moments.{Does};
ghost use Rattle.pm_segments.specs.Drops.{is_there, drop_one, drop_steps, AreDropped};

use pm_disk::{Failed, Host, LogReader};

/// Removes each segment from `from` on and below `to` that is there, the lowest first, and forces its
/// absence before the next one is removed. After `Failed` a prefix of this was done.
pub(crate) fn drop_range<H: Host>(host: &mut H, from: u64, to: u64) -> Result<(), Failed>
    requires usable { IsUsable (H.Device.state host.old) }
    requires ordered { from ≤ to }
    ensures dropped { H.Device.tells → OnOk result
        (AreDropped from to (H.Device.history host.old).world (H.Device.history host.new).world) }
    ensures steps { H.Device.tells → (end : Place)
        → DoesSteps (H.Device.history host.old) (H.Device.history host.new) result
        (drop_steps from (to - from) (H.Device.history host.old).world) end }
    ensures cause { HasCause (H.Device.state host.old) (H.Device.state host.new) result }
{
    'each: for seg in from..to {
        drop_one(host, seg)?;
    }
    Ok(())
}

// Removes a segment and forces its absence, where it is there.
fn drop_one<H: Host>(host: &mut H, seg: u64) -> Result<(), Failed>
    requires usable { IsUsable (H.Device.state host.old) }
    ensures dropped { H.Device.tells → OnOk result
        (AreDropped seg (seg + 1) (H.Device.history host.old).world (H.Device.history host.new).world) }
    ensures steps { H.Device.tells → (end : Place)
        → DoesSteps (H.Device.history host.old) (H.Device.history host.new) result
        (drop_one seg (H.Device.history host.old).world) end }
    ensures cause { HasCause (H.Device.state host.old) (H.Device.state host.new) result }
{
    if is_there(host, seg)? {
        return drop_forced(host, seg);
    }
    Ok(())
}

// Whether a segment's file is there.
fn is_there<L: LogReader>(dev: &mut L, seg: u64) -> Result<bool, Failed>
    requires usable { IsUsable (L.state dev.old) }
    ensures found { L.tells → IfOk result (λ found. found ≡ is_there seg (L.history dev.old).world) }
    ensures unchanged { L.tells →
        Does (L.history dev.old) (L.history dev.new) result (L.history dev.old).world }
    ensures cause { HasCause (L.state dev.old) (L.state dev.new) result }
{
    let len = dev.seg_len(seg)?;
    Ok(len.is_some())
}

// Removes a segment and forces its absence.
fn drop_forced<H: Host>(host: &mut H, seg: u64) -> Result<(), Failed>
    requires usable { IsUsable (H.Device.state host.old) }
    ensures dropped { H.Device.tells → OnOk result
        (AreDropped seg (seg + 1) (H.Device.history host.old).world (H.Device.history host.new).world) }
    ensures steps { H.Device.tells → (end : Place)
        → DoesSteps (H.Device.history host.old) (H.Device.history host.new) result
        (DropSegment seg ∷ ForceSegment seg ∷ []) end }
    ensures cause { HasCause (H.Device.state host.old) (H.Device.state host.new) result }
{
    host.drop_log(seg)?;
    host.force_log(seg)
}
