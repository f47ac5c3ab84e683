//! The lines of a batch, drawn from a number.

ghost use Rattle.std.specs.Prelude.{◌≡◌, ◌≤◌, ◌<◌, ◌+◌, ◌^◌, ℕ, ◌++◌, length, IfOk};
ghost use Rattle.std.specs.List.{All};
ghost use Rattle.pm_types.specs.declared.limits.TheConstants.{BATCH_LINES_MAX as most_batch};
ghost use Rattle.pm_model.specs.Batches.{HasCache};
ghost use Rattle.pm_tools.specs.DrawnLines.{drawn_lines};

use pm_model::Line;
use pm_tools::Gen;
use pm_types::BATCH_LINES_MAX;
use std::alloc::{AllocError, Global};

/// How many lines the next batch has, where so many are left.
pub fn batch_len(left: u32) -> u32
    requires { 0 < left }
    ensures some { 0 < result }
    ensures within { result ≤ left }
    ensures few { result ≤ most_batch }
{
    left.min(BATCH_LINES_MAX as u32)
}

/// Draws so many lines, of which the first has this number. Those that are drawn after them are the ones that
/// follow them in a longer script.
pub fn draw_lines(
    alloc: Global,
    drawing: &mut Gen,
    first: u32,
    count: u32,
) -> Result<Vec<Line>, AllocError>
    requires { first + count < 2 ^ 32 }
    ensures drawn { IfOk result (λ lines. (more : ℕ) → drawn_lines drawing.old first (count + more)
        ≡ lines.items ++ drawn_lines drawing.new (first + count) more) }
    ensures count { IfOk result (λ lines. length lines.items ≡ count) }
    ensures caches { IfOk result (λ lines. All HasCache lines.items) }
{
    let mut lines = Vec::new(alloc);
    'each: for i in 0..count {
        let line = drawing.line(alloc, first + i)?;
        lines.push(line)?;
    }
    Ok(lines)
}
