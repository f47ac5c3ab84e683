//! The lines of a script.

ghost use Rattle.pm_disk.specs.States.{IsUsable};
ghost use Rattle.std.specs.Prelude.{IfOk, OnOk};
ghost use Rattle.pm_disk.specs.Moments.{AllMoments};
ghost use Rattle.pm_script.specs.Reading.{rest_of, KnowsEnd, OnlyTakes};
ghost use Rattle.pm_engine.specs.Batches.{HasPlainFault};
ghost use Rattle.pm_top.specs.Scripts.{GivesNextLine, CountsNextLine, NextLineHasCache};

use pm_disk::Host;
use pm_model::Line;
use pm_script::{Item, Lines, read_line};
use pm_types::StoreFault;
use std::alloc::Global;

/// How a script goes on.
#[derive(Drop)]
pub enum NextLine {
    /// With a line.
    Line(Line),
    /// It ends.
    End,
    /// With a line that isn't ended within the limits.
    Over,
}

/// Takes the next line off the script, and reads it.
pub fn next_line<H: Host>(
    alloc: Global,
    host: &mut H,
    input: &mut Lines,
) -> Result<NextLine, StoreFault>
    requires usable { IsUsable (H.state host.old) }
    requires input_end { H.tells → KnowsEnd input.old (H.history host.old).world }
    ensures reads { H.tells → IfOk result (GivesNextLine input.old input.new
        (rest_of input.old (H.history host.old).world) (rest_of input.new
        (H.history host.new).world)) }
    ensures input_end { H.tells → OnOk result (KnowsEnd input.new (H.history host.new).world) }
    ensures counts { IfOk result (CountsNextLine input.old input.new) }
    ensures numbered { IfOk result NextLineHasCache }
    ensures takes { H.tells → AllMoments (H.history host.old) (H.history host.new) (OnlyTakes
        (H.history host.old).world) }
    ensures cause { HasPlainFault (H.state host.old) (H.state host.new) result }
{
    match input.next(host)? {
        Item::Text(bytes) => Ok(NextLine::Line(read_line(alloc, bytes)?)),
        Item::Long => Ok(NextLine::Line(Line::Long)),
        Item::End => Ok(NextLine::End),
        Item::Over => Ok(NextLine::Over),
    }
}
