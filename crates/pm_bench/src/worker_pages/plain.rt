//! A partition in a list of pages.

ghost use Rattle.std.specs.Prelude.{◌≡◌, ◌<◌, IfOk};
ghost use Rattle.pm_pages.specs.Paged.{AllReadable};
ghost use Rattle.pm_pages.specs.Plain.{plain_seen, ArePlain};
ghost use Rattle.pm_part.specs.Commands.{IsPartCmd};

use crate::bound_pages::run_over;
use crate::worker_pages::commands::{SHAPE, Step, command};
use crate::worker_pages::stop::Stop;
use pm_model::{Cmd, Replies};
use pm_pages::PlainPages;
use pm_part::Part;
use std::alloc::Global;

/// Does a command, and gives its reply.
pub fn answer_plain(
    alloc: Global,
    plain: &mut PlainPages,
    part: &Part,
    cmd: &Cmd,
) -> Result<Replies, Stop>
    requires plain { ArePlain plain.old }
    requires readable { AllReadable (plain_seen plain.old) }
    requires cmd { IsPartCmd part.now.shape part.now.part cmd.now }
    ensures plain { ArePlain plain.new }
    ensures readable { AllReadable (plain_seen plain.new) }
{
    let mut replies = Replies::with_room(alloc, 1)?;
    plain.ready(alloc)?;
    if run_over(plain, part, cmd, &mut replies) {
        Ok(replies)
    } else {
        Err(Stop::Failed)
    }
}

/// A partition with so many rows, each with a value of so many bytes.
pub fn filled(alloc: Global, part: u16, rows: u32, len: usize) -> Result<PlainPages, Stop>
    requires { part < 2 }
    ensures plain { IfOk result ArePlain }
    ensures readable { IfOk result (λ plain. AllReadable (plain_seen plain)) }
{
    let mut plain = PlainPages::new(alloc, &SHAPE, part)?;
    let of = Part::new(SHAPE, part);
    'rows: for row in 0..rows {
        let cmd = command(alloc, part, row, Step::Put(len))?;
        answer_plain(alloc, &mut plain, &of, &cmd)?;
    }
    Ok(plain)
}
