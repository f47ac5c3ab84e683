//! Which of its images a crash leaves.

ghost use Rattle.std.specs.Prelude.{◌≡◌};
ghost use Rattle.pm_disk_mem.specs.Picks.{pick_beside};

/// What a crash leaves of the changes that no force has made lasting.
#[derive(Clone, Copy, Debug, PartialEq, Eq)]
pub enum Pick {
    /// All of them.
    Kept,
    /// None of them.
    Lost,
    /// Each byte that isn't lasting is this one, and each file has the greatest length that it had
    /// since its last force.
    Fill(u8),
    /// A prefix of this length of the bytes that were written to the log and aren't lasting, by segment,
    /// and in a segment in the order of the writes. Of all other changes none.
    Cut(u64),
}

impl Pick {
    /// The pick for all files but the log's segments.
    pub(crate) fn beside(self) -> Pick
        ensures { result ≡ pick_beside self }
    {
        match self {
            Pick::Cut(_) => Pick::Lost,
            pick => pick,
        }
    }
}
