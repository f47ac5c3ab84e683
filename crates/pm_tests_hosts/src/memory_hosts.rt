//! The configuration of a host in memory, and its calls that are planned to fail.

use crate::disks::{host_over, no_files};
use crate::looks::{same, same_bytes};
use crate::memory_calls::{DONE, FAILED, MemoryCall, make_calls};
use crate::memory_images::{MemoryHost, boxed, disk_with, host_on, look_at_file};
use pm_disk::MarkFile;
use pm_disk_mem::{MemHost, Pick};
use std::process::Abort;

/// The file of the configuration.
const CONFIG: &str = "config.json";

/// A host over a disk that has a configuration, with this one handed in.
fn host_with(rt: &(impl Abort + AllocGlobal), handed_in: &[u8]) -> MemoryHost {
    let disk = disk_with(rt, CONFIG, b"disk");
    boxed(rt, host_over(rt, b"", handed_in, disk, &[], None))
}

/// Looks at what the host reads of its configuration with this one handed in, and at what a crash leaves of it.
fn look_at_config(
    rt: &(impl Abort + AllocGlobal),
    handed_in: &[u8],
    calls: &[(MemoryCall, &str)],
    wanted: &[u8],
) {
    let mut host = host_with(rt, handed_in);
    make_calls(rt, &mut host, calls);
    look_at_file(rt, &host, Pick::Lost, CONFIG, Some(wanted));
}

/// Looks at a host that has no configuration.
fn look_at_no_config(rt: &(impl Abort + AllocGlobal)) {
    let mut host = host_on(rt, no_files(rt));
    make_calls(rt, &mut host, &OF_NONE);
    look_at_file(rt, &host, Pick::Kept, CONFIG, None);
}

/// Reads of the configuration of the disk, each with its answer.
const OF_THE_DISK: [(MemoryCall, &str); 2] = [
    (MemoryCall::ReadConfig(9), "Ok(4) disk....."),
    (MemoryCall::ReadConfig(2), "Ok(2) di......."),
];

/// Reads of the configuration that is handed in, each with its answer.
const HANDED_IN: [(MemoryCall, &str); 2] = [
    (MemoryCall::ReadConfig(9), "Ok(4) mine....."),
    (MemoryCall::ReadConfig(2), "Ok(2) mi......."),
];

/// A read where there is no configuration, with its answer.
const OF_NONE: [(MemoryCall, &str); 1] = [(MemoryCall::ReadConfig(9), "Ok(0) .........")];

#[test]
fn a_configuration_is_handed_in_or_on_the_disk(rt: HostRuntime) {
    look_at_config(&rt, b"", &OF_THE_DISK, b"disk");
    look_at_config(&rt, b"mine", &HANDED_IN, b"mine");
    look_at_no_config(&rt);
}

/// Calls of which the one at 1, that at 3 and all from 6 on are planned to fail, each with its answer.
const UP_TO_THE_STOP: [(MemoryCall, &str); 8] = [
    (MemoryCall::Print("a"), DONE),
    (MemoryCall::Print("b"), FAILED),
    (MemoryCall::Read, "Ok(2) pu"),
    (MemoryCall::WriteLog(1, "XY"), FAILED),
    (MemoryCall::SegLen(1), "Ok(None)"),
    (MemoryCall::Print("c"), DONE),
    (MemoryCall::Read, "Err(Failed) .."),
    (MemoryCall::Print("d"), FAILED),
];

/// One call of each other kind, all of them after the stop, each with its answer.
const AFTER_THE_STOP: [(MemoryCall, &str); 8] = [
    (MemoryCall::DropLog(1), FAILED),
    (MemoryCall::ReadPage(0, 0), "Err(Failed) ...."),
    (MemoryCall::WritePage(0, 0, b"page"), FAILED),
    (MemoryCall::ForcePages(0), FAILED),
    (MemoryCall::ReadConfig(2), "Err(Failed) ........."),
    (
        MemoryCall::ReadMark(MarkFile::End, 0),
        "Err(Failed) 64 of 1",
    ),
    (MemoryCall::WriteMark(MarkFile::End, 0, 1), FAILED),
    (MemoryCall::ForceMark(MarkFile::End), FAILED),
];

/// A host over an empty disk, with its calls that are planned to fail.
fn planned_host(rt: &(impl Abort + AllocGlobal)) -> MemoryHost {
    boxed(
        rt,
        host_over(rt, b"put", b"", no_files(rt), &[1, 3], Some(6)),
    )
}

/// Looks for so many calls made, and for what was said.
fn look_at_made(rt: &impl Abort, host: &MemHost, calls: u64) {
    same(rt, "calls", host.calls(), calls, &"made");
    same_bytes(rt, "said", host.said(), b"ac", &calls);
}

/// Makes the calls up to the stop.
fn call_up_to_the_stop(rt: &(impl Abort + AllocGlobal), host: &mut MemHost) {
    make_calls(rt, host, &UP_TO_THE_STOP);
    look_at_made(rt, host, 8);
}

/// Makes the calls after the stop.
fn call_after_the_stop(rt: &(impl Abort + AllocGlobal), host: &mut MemHost) {
    make_calls(rt, host, &AFTER_THE_STOP);
    look_at_made(rt, host, 16);
}

#[test]
fn planned_calls_fail_and_do_nothing(rt: HostRuntime) {
    let mut host = planned_host(&rt);
    call_up_to_the_stop(&rt, &mut host);
    call_after_the_stop(&rt, &mut host);
    look_at_file(&rt, &host, Pick::Kept, "part-000.pages", None);
    look_at_file(&rt, &host, Pick::Kept, "cp.end", None);
}
