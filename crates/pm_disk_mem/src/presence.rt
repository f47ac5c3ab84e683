//! Whether the store's folder is there.

ghost use Rattle.std.specs.Prelude.{◌≡◌};
ghost use Rattle.pm_disk_mem.specs.Presences.{once_bound};

/// Whether the store's folder is there.
#[derive(Clone, Copy, Debug, PartialEq, Eq)]
pub enum Presence {
    /// It was there before the host.
    Found,
    /// It isn't there.
    Missing,
    /// The host has made it.
    Made,
}

impl Presence {
    /// Once the folder is bound by a call that makes it where it isn't there.
    pub(crate) fn once_bound(self) -> Presence
        ensures { result ≡ once_bound self }
    {
        match self {
            Presence::Missing => Presence::Made,
            presence => presence,
        }
    }
}
