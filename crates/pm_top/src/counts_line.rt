//! The line that says what a store has.

ghost use Rattle.std.specs.Prelude.{◌≡◌, ◌⊎◌, [], OnOk};
ghost use Rattle.pm_disk.specs.States.{IsLaterState, Rose};
ghost use Rattle.pm_disk.specs.Moments.{AllMoments};
ghost use Rattle.pm_disk.specs.Worlds.{with_said};
ghost use Rattle.pm_top.specs.Promises.{SaysPart};
ghost use Rattle.pm_top.specs.StoreChecks.{counts_line};

use crate::status::Status;
use itoa::Buffer;
use pm_disk::Host;
use pm_tools::Counts;
use std::alloc::{AllocError, Global};

/// Prints the line that says what a store has. Gives `Done`, or `Failed` where that fails. Where there is no memory
/// for it nothing is printed, and it gives `Memory`.
pub fn print_counts<H: Host>(alloc: Global, host: &mut H, counts: Counts) -> Status
    ensures done { H.tells → result ≡ Status.Done →
        (H.history host.new).world ≡ with_said (counts_line counts) (H.history host.old).world }
    ensures moments { H.tells → AllMoments (H.history host.old) (H.history host.new)
        (SaysPart (counts_line counts) (H.history host.old).world) }
    ensures cases { (result ≡ Status.Done) ⊎ (result ≡ Status.Failed) ⊎ (result ≡ Status.Memory) }
    ensures failed { result ≡ Status.Failed → Rose (H.state host.old) (H.state host.new) }
    ensures state { IsLaterState (H.state host.old) (H.state host.new) }
{
    let mut text = Vec::new(alloc);
    match write_counts(counts, &mut text) {
        Ok(()) => match host.print(&text) {
            Ok(()) => Status::Done,
            Err(_) => Status::Failed,
        },
        Err(_) => Status::Memory,
    }
}

// Writes the line.
fn write_counts(counts: Counts, into: &mut Vec<u8>) -> Result<(), AllocError>
    requires { into.old.items ≡ [] }
    ensures { OnOk result (into.new.items ≡ counts_line counts) }
{
    into.extend_from_slice(b"pages ")?;
    into.extend_from_slice(Buffer::new().format(counts.pages).as_bytes())?;
    into.extend_from_slice(b" rows ")?;
    into.extend_from_slice(Buffer::new().format(counts.rows).as_bytes())?;
    into.extend_from_slice(b" records ")?;
    into.extend_from_slice(Buffer::new().format(counts.records).as_bytes())?;
    into.extend_from_slice(b"\n")
}
