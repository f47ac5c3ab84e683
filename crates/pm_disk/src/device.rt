//! What contracts observe of an object of the outside.

ghost use Rattle.pm_disk.specs.Moments.{History, IsHistory};
ghost use Rattle.pm_disk.specs.States.{DeviceState};

/// What contracts observe of an object of the outside. A host whose content contracts can observe is
/// said to tell it; `state` is observed of every object, all else only where it tells.
pub trait Device {
    /// Whether objects of this type tell their content: over real files nobody can know it.
    ghost tells: { Type 0 };

    /// The world now, the moment, and what the world was at the moments since an earlier one.
    ghost history: { Self → History };

    /// How often a call failed, and which calls may be made.
    ghost state: { Self → DeviceState };

    ghost sound: { (device : Self) → tells → IsHistory (history device) };
}
