//! Segments that crashes leave of checkpoints that were begun.

use crate::looks::holds;
use crate::runs::{Disk, Run, has_file, look_at_status, no_files, run_configured, run_until};
use pm_disk_mem::Pick;
use std::process::Abort;
use std::sync::Wait;

/// The keys a to k are of different partitions of 64, so that the first put of each logs three pages of 8,192
/// bytes: three puts take more than a segment, and less than two.
const CONFIG: &[u8] = b"{\"partitions\": 64, \"page_size\": 8192, \"segment_bytes\": 65536}";

/// The files of the log's first segments.
static SEGMENTS: [&str; 5] = [
    "wal-0000000000000001.seg",
    "wal-0000000000000002.seg",
    "wal-0000000000000003.seg",
    "wal-0000000000000004.seg",
    "wal-0000000000000005.seg",
];

/// More calls than a run makes after its end marker is forced.
const CALLS_MAX: u64 = 30;

/// Runs a script, up to a stop, over what a power failure after another run left.
fn run_after(
    rt: &(impl Abort + AllocGlobal + Wait),
    before: &Run,
    script: &[u8],
    stop: Option<u64>,
) -> Run {
    run_until(rt, CONFIG, script, before.crashed(rt, Pick::Lost), stop)
}

/// Which of the first segments are on a disk.
fn segments_on(disk: &Disk) -> [bool; 5] {
    SEGMENTS.map(|name| has_file(disk, name))
}

/// Which of the first segments a run left.
fn segments_there(rt: &(impl Abort + AllocGlobal), run: &Run) -> [bool; 5] {
    segments_on(&run.crashed(rt, Pick::Lost))
}

/// Whether all segments that were there are there.
fn has_all(were: [bool; 5], are: [bool; 5]) -> bool {
    were.iter().zip(are).all(|(was, is)| is || !*was)
}

/// Runs a script over what another run left, and stops it right before a segment is gone for good.
fn run_until_dropped(rt: &(impl Abort + AllocGlobal + Wait), before: &Run, script: &[u8]) -> Run {
    let whole = run_after(rt, before, script, None);
    let were = segments_there(rt, before);
    for left in 1..CALLS_MAX {
        let stop = whole.calls().saturating_sub(left);
        let run = run_after(rt, before, script, Some(stop));
        if has_all(were, segments_there(rt, &run)) {
            return run;
        }
    }
    panic!(rt; "a segment is gone")
}

/// Looks that a run left these of the first segments.
fn look_at_segments(rt: &(impl Abort + AllocGlobal), run: &Run, there: [bool; 5]) {
    let left = segments_there(rt, run);
    holds(rt, "segments", left == there, &left);
}

/// The same, where it leaves these of the first segments.
fn run_stopped(
    rt: &(impl Abort + AllocGlobal + Wait),
    before: &Run,
    script: &[u8],
    there: [bool; 5],
) -> Run {
    let run = run_until_dropped(rt, before, script);
    look_at_segments(rt, &run, there);
    run
}

/// A whole checkpoint, and two that are stopped before they remove a segment. The first begins in segment 2, the
/// second one in segment 3, and the third one in segment 4: its start marker doesn't name segment 2.
fn run_twice_stopped(rt: &(impl Abort + AllocGlobal + Wait)) -> Run {
    let first = b"put 0 a 1\nput 0 b 1\nput 0 c 1\ncheckpoint\n";
    let second = b"put 0 d 1\nput 0 e 1\nput 0 f 1\ncheckpoint\n";
    let third = b"put 0 g 1\nput 0 h 1\nput 0 i 1\ncheckpoint\n";
    let whole = run_configured(rt, CONFIG, first, no_files(rt));
    let stopped = run_stopped(rt, &whole, second, [false, true, true, false, false]);
    run_stopped(rt, &stopped, third, [false, true, true, true, false])
}

#[test]
fn a_checkpoint_removes_the_segments_that_crashes_left(rt: HostRuntime) {
    let stopped = run_twice_stopped(&rt);
    let last = b"put 0 j 1\nput 0 k 1\ncheckpoint\n";
    let ended = run_after(&rt, &stopped, last, None);
    look_at_status(&rt, &ended, 0, &"last");
    look_at_segments(&rt, &ended, [false, false, false, false, true]);
}
