//! A run of the top call over a host over files that write a trace.
//!
//! Each function that names the type of that host takes long to prove, so there is one. It has the files only as the
//! process has them: beside a parameter with `Files` no search finds that the host's parts may go to other threads.

ghost use Rattle.std.specs.Prelude.{◌≡◌, false};

use crate::looks::same;
use crate::runs::call_with;
use pm_disk::Host;
use pm_tests_hosts::recorded::recorded_host;
use std::process::Abort;
use std::sync::Wait;

/// Makes a run over a folder, and looks at the status.
fn run_over<H: Host>(rt: &(impl Abort + AllocGlobal + Wait), host: &mut H, folder: &str)
    requires { (H.state host.old).access.is_lent ≡ false }
{
    let report = call_with(rt, &["run", folder], host);
    same(rt, "status", u64::from(report.status), 0, &folder);
}

/// Makes a run over a folder of real files that write the trace, beside a console with this input, and looks that it
/// is done.
pub fn run_over_files(
    rt: &(impl Abort + AllocGlobal + Wait),
    real: &HostRuntime,
    input: &'static [u8],
    folder: &str,
) {
    let mut host = recorded_host(real, input).expect(rt, "a host");
    run_over(rt, &mut *host, folder);
}
