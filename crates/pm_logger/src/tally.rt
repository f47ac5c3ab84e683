//! What the log writer counts: the lines noted, and the operations since the log was forced.

ghost use Rattle.std.specs.Prelude.{◌≡◌, ◌<◌, ◌≤◌, ◌+◌, ◌↔◌, [], IfOk, IsSome, IsTrue, length};
ghost use Rattle.pm_types.specs.declared.limits.TheConstants.{BATCH_LINES_MAX as most_lines};
ghost use Rattle.pm_logger.specs.declared.limits.TheConstants.{FORCE_AFTER as force_after};
ghost use Rattle.pm_logger.specs.LogCalls.{noted, next_since};

use crate::limits::FORCE_AFTER;
use pm_types::BATCH_LINES_MAX;
use std::alloc::{AllocError, Global};
use std::marker::Model;

/// The lines noted, for which there is room, and how many operations were appended since the log was forced.
#[derive(Drop)]
pub(crate) struct Tally {
    lines: Vec<u32>,
    since: u32,
}

impl Model for Tally {
    ghost use Rattle.std.specs.Prelude.{◌<◌, ◌≤◌, length, vec_capacity};
    ghost use Rattle.pm_types.specs.declared.limits.TheConstants.{BATCH_LINES_MAX};
    ghost use Rattle.pm_logger.specs.declared.limits.TheConstants.{FORCE_AFTER};
    ghost use Rattle.pm_logger.specs.Writers.{Counts};

    ghost Value = { Counts };

    ghost view = { λ tally. record { lines = tally.lines.items; since = tally.since } };

    ghost invariant = { λ tally. (BATCH_LINES_MAX ≤ vec_capacity tally.lines)
        × (length tally.lines.items ≤ BATCH_LINES_MAX) × (tally.since < FORCE_AFTER) };
}

impl Tally {
    /// No line is noted, and no operation counted.
    pub(crate) fn new(alloc: Global) -> Result<Tally, AllocError>
        ensures { IfOk result (λ tally. tally ≡ record { lines = []; since = 0 }) }
    {
        let lines = Vec::with_capacity(alloc, BATCH_LINES_MAX)?;
        Ok(Tally { lines, since: 0 })
    }

    /// The lines noted.
    pub(crate) fn lines(&self) -> &[u32]
        ensures lines { result.now ≡ self.now.lines }
        ensures most { length result.now ≤ most_lines }
    {
        &self.lines
    }

    /// Whether no more lines can be noted.
    pub(crate) fn is_full(&self) -> bool
        ensures { IsTrue result ↔ (most_lines ≤ length self.now.lines) }
    {
        BATCH_LINES_MAX <= self.lines.len()
    }

    /// Notes a line, where it is named and the write of its record was tried.
    pub(crate) fn note(&mut self, tried: bool, line: Option<u32>)
        requires room { IsSome line → length self.old.lines < most_lines }
        ensures { self.new ≡ record self.old { lines = noted self.old.lines tried line } }
    {
        if let Some(line) = line {
            if tried {
                self.lines.push_reserved(line);
            }
        }
    }

    /// Counts an operation, and answers whether the log is to be forced now.
    pub(crate) fn count(&mut self) -> bool
        ensures counted { self.new ≡ record self.old { since = next_since self.old.since } }
        ensures last { IsTrue result ↔ (self.old.since + 1 ≡ force_after) }
    {
        self.since += 1;
        if self.since < FORCE_AFTER {
            return false;
        }
        self.since = 0;
        true
    }

    /// Forgets the lines noted.
    pub(crate) fn clear(&mut self)
        ensures { self.new ≡ record self.old { lines = [] } }
    {
        self.lines.clear();
    }
}
