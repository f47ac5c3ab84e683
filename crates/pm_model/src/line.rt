//! The lines of a script.

ghost use Rattle.std.specs.Prelude.{◌≡◌, IfOk};

use pm_types::{Key, Value};
use std::alloc::{AllocError, Global};

/// What a good line asks for. A cache has a number below `CACHES`.
#[derive(Debug, Drop)]
pub enum Cmd {
    /// Set the key's value, whether it has one or not.
    Put { cache: u8, key: Key, value: Value },
    /// Answer the key's value.
    Get { cache: u8, key: Key },
    /// Take the key out, with its value.
    Remove { cache: u8, key: Key },
    /// Answer all pairs of the cache.
    Scan { cache: u8 },
    /// Make a checkpoint.
    Checkpoint,
}

impl Cmd {
    /// A copy of the command. `Line::copy` alone calls it.
    pub fn copy(&self, alloc: Global) -> Result<Cmd, AllocError>
        ensures { IfOk result (λ cmd. cmd ≡ self.now) }
    {
        match self {
            Cmd::Put { cache, key, value } => Ok(Cmd::Put {
                cache: *cache,
                key: Key::of(alloc, key.bytes())?,
                value: Value::of(alloc, value.bytes())?,
            }),
            Cmd::Get { cache, key } => Ok(Cmd::Get {
                cache: *cache,
                key: Key::of(alloc, key.bytes())?,
            }),
            Cmd::Remove { cache, key } => Ok(Cmd::Remove {
                cache: *cache,
                key: Key::of(alloc, key.bytes())?,
            }),
            Cmd::Scan { cache } => Ok(Cmd::Scan { cache: *cache }),
            Cmd::Checkpoint => Ok(Cmd::Checkpoint),
        }
    }
}

/// A line of a script.
#[derive(Debug, Drop)]
pub enum Line {
    /// A line that the grammar knows.
    Good(Cmd),
    /// A line that is not too long, and that the grammar doesn't know. It changes nothing.
    Bad,
    /// A line of more than `LINE_MAX` bytes. It changes nothing.
    Long,
}

impl Line {
    /// A copy of the line. `PlainBatcher` alone calls it, for tests.
    pub fn copy(&self, alloc: Global) -> Result<Line, AllocError>
        ensures { IfOk result (λ line. line ≡ self.now) }
    {
        match self {
            Line::Good(cmd) => Ok(Line::Good(cmd.copy(alloc)?)),
            Line::Bad => Ok(Line::Bad),
            Line::Long => Ok(Line::Long),
        }
    }
}
