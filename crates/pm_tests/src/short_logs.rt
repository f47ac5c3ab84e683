//! Stores over which many short runs are made: how long their log is.

use crate::looks::{holds, same, same_bytes};
use crate::runs::{Disk, add, file_bytes, look_at_reply, look_at_status, no_files, run_configured};
use pm_disk::segment_name;
use pm_disk_mem::Pick;
use std::process::Abort;
use std::str;
use std::sync::Wait;

/// Half a segment more than three segments are the most bytes of log between two checkpoints.
const CONFIG: &[u8] =
    b"{\"partitions\": 2, \"segment_bytes\": 65536, \"checkpoint_bytes\": 229376}";

/// The most bytes of log between two checkpoints, by `CONFIG`.
const CHECKPOINT_BYTES: u64 = 229_376;

/// How many segments are looked for.
const SEGMENTS: u64 = 1_000;

/// A RESTART has 37 bytes.
const RESTART_LEN: u64 = 37;

/// How many bytes the log has on a disk.
fn log_len(rt: &impl Abort, disk: &Disk) -> u64 {
    let mut len: u64 = 0;
    for seg in 1..SEGMENTS {
        let name = segment_name(seg);
        let name = str::from_utf8(&name).expect(rt, "a name");
        len = len.saturating_add(file_bytes(disk, name).len() as u64);
    }
    len
}

/// A script that puts 400 keys of three digits.
fn puts(rt: &(impl Abort + AllocGlobal)) -> Vec<u8> {
    let mut script = Vec::new(rt.alloc());
    for key in 100..500u32 {
        let line = format!(in rt.alloc(); "put 0 k{key} some_value_of_{key}\n").expect(
            rt, "a line",
        );
        add(rt, &mut script, line.as_bytes());
    }
    script
}

/// The disk that a script leaves over another one.
fn left_by(rt: &(impl Abort + AllocGlobal + Wait), script: &[u8], said: &[u8], disk: Disk) -> Disk {
    let run = run_configured(rt, CONFIG, script, disk);
    look_at_reply(rt, &run, 0, said, &script);
    run.crashed(rt, Pick::Lost)
}

#[test]
fn a_hundred_runs_that_read_leave_a_short_log(rt: HostRuntime) {
    let run = run_configured(&rt, CONFIG, &puts(&rt), no_files(&rt));
    look_at_status(&rt, &run, 0, &"puts");
    let mut disk = run.crashed(&rt, Pick::Lost);
    for run in 0..100 {
        disk = left_by(&rt, b"get 0 k123\n", b"value some_value_of_123\n", disk);
        let len = log_len(&rt, &disk);
        holds(&rt, "the log is short", len < 2 * CHECKPOINT_BYTES, &run);
    }
}

#[test]
fn a_run_without_a_line_after_a_checkpoint_adds_a_restart(rt: HostRuntime) {
    let disk = left_by(&rt, b"put 0 a 1\ncheckpoint\n", b"ok\nok\n", no_files(&rt));
    let mut len = log_len(&rt, &disk);
    let mut disk = disk;
    for run in 0..10 {
        let pages = copy(&rt, file_bytes(&disk, "part-000.pages"));
        disk = left_by(&rt, b"", b"", disk);
        same(
            &rt,
            "the log",
            log_len(&rt, &disk),
            len.saturating_add(RESTART_LEN),
            &run,
        );
        same_bytes(
            &rt,
            "the pages",
            file_bytes(&disk, "part-000.pages"),
            &pages,
            &run,
        );
        len = log_len(&rt, &disk);
    }
}

/// The same bytes.
fn copy(rt: &(impl Abort + AllocGlobal), bytes: &[u8]) -> Vec<u8> {
    let mut copied = Vec::new(rt.alloc());
    add(rt, &mut copied, bytes);
    copied
}
