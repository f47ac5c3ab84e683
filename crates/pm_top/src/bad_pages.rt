//! The line that names what is bad where a page can't be used.

ghost use Rattle.std.specs.Prelude.{◌≡◌, ◌⊎◌};
ghost use Rattle.pm_disk.specs.Moments.{AllMoments};
ghost use Rattle.pm_disk.specs.States.{IsLaterState, IsUsable, Rose};
ghost use Rattle.pm_top.specs.Promises.{NamesMet};
ghost use Rattle.pm_top.specs.StoreChecks.{MaySayOfMet, SaysLine};

use crate::fault_lines::{print_page_fault, print_record_fault};
use crate::status::Status;
use pm_disk::Host;
use pm_tools::verify;
use pm_types::{PageId, StoreFault};
use std::alloc::Global;

/// Checks all base pages and the log, where this page couldn't be used, and prints the line that names the first
/// page or record that is bad. Where none is found bad, it names this page.
///
/// Gives `Damaged`, or `Failed` where the check or the printing fails. Where there is no memory for it nothing is
/// printed, and it gives `Memory`.
pub fn print_found_page<H: Host>(alloc: Global, host: &mut H, met: PageId) -> Status
    requires usable { IsUsable (H.state host.old) }
    ensures damaged { H.tells → result ≡ Status.Damaged →
        SaysLine (NamesMet met (H.history host.old).world) (H.history host.old).world (H.history host.new).world }
    ensures moments { H.tells → AllMoments (H.history host.old) (H.history host.new)
        (MaySayOfMet met (H.history host.old).world) }
    ensures cases { (result ≡ Status.Damaged) ⊎ (result ≡ Status.Failed) ⊎ (result ≡ Status.Memory) }
    ensures failed { result ≡ Status.Failed → Rose (H.state host.old) (H.state host.new) }
    ensures state { IsLaterState (H.state host.old) (H.state host.new) }
{
    let checked = verify(alloc, host);
    match checked {
        Ok(_) => print_page_fault(alloc, host, met),
        Err(StoreFault::Failed) => Status::Failed,
        Err(StoreFault::Memory(_)) => Status::Memory,
        Err(StoreFault::BadRecord(at)) => print_record_fault(alloc, host, at),
        Err(StoreFault::BadPage(first)) => print_page_fault(alloc, host, first),
    }
}
