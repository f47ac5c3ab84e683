//! What is done over a host over files that write a trace.
//!
//! All of it is called from one function, since each one that names the type of that host takes long to prove. That
//! one has the files only as the process has them: beside a parameter with `Files` no search finds that the host's
//! parts may go to other threads.

ghost use Rattle.std.specs.Prelude.{◌≡◌, false};

use crate::hosts::compare_all;
use crate::lasting::{count_calls, refuse_another};
use crate::recorded::recorded_host;
use pm_disk::Host;
use std::process::Abort;

/// Something that is done over a host that isn't bound yet.
#[derive(Clone, Copy)]
pub enum Task {
    /// All the calls by which the host in memory is compared.
    Compare,
    /// The calls of the first host over a folder, or of the next, after which syncs are counted.
    Count(bool),
    /// A folder is bound, and refused to another host.
    Refuse,
}

fn do_task<H: Host>(rt: &(impl Abort + AllocGlobal), real: &HostRuntime, host: &mut H, task: Task)
    requires { (H.state host.old).access.is_lent ≡ false }
{
    match task {
        Task::Compare => compare_all(rt, real, host),
        Task::Count(is_next) => count_calls(rt, real, host, is_next),
        Task::Refuse => refuse_another(rt, real, host),
    }
}

/// Does it over a new host over real files that write the trace, beside a console with this input.
pub fn over_files(
    rt: &(impl Abort + AllocGlobal),
    real: &HostRuntime,
    input: &'static [u8],
    task: Task,
) {
    let mut host = recorded_host(real, input).expect(rt, "a host");
    do_task(rt, real, &mut *host, task);
}
