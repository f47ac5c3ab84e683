//! The configuration of a run.

ghost use Rattle.std.specs.Prelude.{◌≡◌};
ghost use Rattle.pm_types.specs.Shapes.{IsShape};
ghost use Rattle.pm_config.specs.Limits.{IsConfig};

use pm_types::Shape;

/// How a page frame is chosen whose page gives way to another.
#[derive(Clone, Copy, Debug, PartialEq, Eq)]
pub enum Kind {
    /// `random-lru`: the least recently used of a few frames taken at random.
    Random,
    /// `segmented-lru`: the least recently used, with pages that were used once before those used again.
    Segmented,
    /// `clock`: the next frame in turn that wasn't used since the last turn.
    Clock,
}

/// What a run is asked for. Where it was read, each number is within its limits.
#[derive(Clone, Copy, Debug, PartialEq, Eq)]
pub struct Config {
    /// The shape of a store that is made anew, and the one that an existing store has to have.
    pub shape: Shape,
    /// The number of workers, 1 to 8. It is checked, and not used by the program yet.
    pub workers: u32,
    /// The number of page frames, 64 for each worker to 65536.
    pub frames: u32,
    /// The number of buffer pages, 32 for each worker to 65536. It is checked, and not used by the program yet.
    pub buffer_pages: u32,
    /// The bytes of log after which a checkpoint begins, 65536 to 1099511627776.
    pub checkpoint_bytes: u64,
    /// The percent of dirty frames above which a checkpoint begins, 1 to 100.
    pub dirty_percent: u32,
    /// How page frames are replaced. It is checked, and not used by the program yet.
    pub policy: Kind,
}

impl Config {
    /// The shape that a store opened with this configuration has.
    pub fn shape(&self) -> Shape
        requires { IsConfig self.now }
        ensures asked { result ≡ self.now.shape }
        ensures within_limits { IsShape result }
    {
        self.shape
    }
}
