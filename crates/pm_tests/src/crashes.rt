//! A run with checkpoints that is stopped at each of its calls, what each crash leaves, and the restarts over
//! that.

use crate::looks::holds;
use crate::runs::{
    Disk, Run, SEGMENT, call_over, has_file, log_len, look_at_lines, look_at_status, no_files,
    run_configured, run_until,
};
use pm_disk_mem::Pick;
use std::process::Abort;
use std::sync::Wait;

/// Two partitions, and the shortest segments: the log goes on into the second one before the second checkpoint,
/// which drops the first one. There are few page frames, since each of the many openings makes them.
pub const CONFIG: &[u8] = b"{\"partitions\": 2, \"page_size\": 8192, \"segment_bytes\": 65536, \
\"workers\": 1, \"frames\": 64}";

/// The run's script: twelve lines that are accepted, of which one is a remove, and eleven that are
/// not. Two of these ask for checkpoints and one is a scan, each a batch by itself.
const SCRIPT: &[u8] = b"put 0 a 1\nget 0 a\nput 0 b 2\nput 0 a 3\nget 0 b\ncheckpoint\n\
put 1 a 4\nremove 0 z\nput 0 c 5\nget 1 a\nput 0 b 6\nscan 3\n\
remove 0 a\nget 0 c\nput 1 a 8\nput 0 c 9\nget 0 d\ncheckpoint\n\
put 0 a 10\nget 0 a\nput 0 b 11\nput 1 a 12\nget 1 a\n";

/// The script of each restart.
const QUESTIONS: &[u8] = b"get 0 a\nget 0 b\nget 0 c\nget 1 a\n";

/// What the questions are answered after each number of the accepted lines.
static ANSWERS: [&[u8]; 13] = [
    b"none\nnone\nnone\nnone\n",
    b"value 1\nnone\nnone\nnone\n",
    b"value 1\nvalue 2\nnone\nnone\n",
    b"value 3\nvalue 2\nnone\nnone\n",
    b"value 3\nvalue 2\nnone\nvalue 4\n",
    b"value 3\nvalue 2\nvalue 5\nvalue 4\n",
    b"value 3\nvalue 6\nvalue 5\nvalue 4\n",
    b"none\nvalue 6\nvalue 5\nvalue 4\n",
    b"none\nvalue 6\nvalue 5\nvalue 8\n",
    b"none\nvalue 6\nvalue 9\nvalue 8\n",
    b"value 10\nvalue 6\nvalue 9\nvalue 8\n",
    b"value 10\nvalue 11\nvalue 9\nvalue 8\n",
    b"value 10\nvalue 11\nvalue 9\nvalue 12\n",
];

/// More calls than any restart makes.
const CALLS_MAX: u64 = 200;

/// How many prefixes of the log's pending bytes are kept at most in the crashes of a run.
const CUTS: u64 = 6;

/// What becomes of all that is pending in the crashes of each run, and of each restart that is stopped.
static PICKS: [Pick; 3] = [Pick::Kept, Pick::Lost, Pick::Fill(238)];

/// How many bytes of the log are pending after a run.
fn pending_of(rt: &(impl Abort + AllocGlobal), run: &Run) -> u64 {
    let kept = log_len(&run.disk(rt));
    kept.saturating_sub(log_len(&run.crashed(rt, Pick::Lost)))
}

/// Puts a pick after these.
fn push_pick(rt: &impl Abort, picks: &mut Vec<Pick>, pick: Pick) {
    picks.push(pick).expect(rt, "a pick");
}

/// The crashes of this run: in those beside, a prefix of the log's pending bytes is kept.
fn picks_of(rt: &(impl Abort + AllocGlobal), run: &Run) -> Vec<Pick> {
    let pending = pending_of(rt, run);
    let mut picks = Vec::from_slice(rt.alloc(), &PICKS).expect(rt, "picks");
    for part in 1..CUTS.min(pending) {
        let cut = part.saturating_mul(pending) / CUTS;
        push_pick(rt, &mut picks, Pick::Cut(cut));
    }
    picks
}

/// How many accepted lines a crash may leave at least and at most: those whose reply was printed,
/// and all that were handed to the log.
#[derive(Clone, Copy)]
struct Bounds {
    least: usize,
    most: usize,
}

/// The bounds after a run of the script.
fn bounds_of(run: &Run) -> Bounds {
    let replied = run.said().iter().filter(|byte| **byte == b'\n').count();
    Bounds {
        least: run
            .report
            .order
            .iter()
            .filter(|line| (**line as usize) <= replied)
            .count(),
        most: run.report.order.len(),
    }
}

/// Whether a restart answered as one of the numbers within the bounds has it.
fn is_within(said: &[u8], bounds: Bounds) -> bool {
    ANSWERS.iter().enumerate().any(|(count, answers)| bounds.least <= count
        && count <= bounds.most
        && said == *answers)
}

/// Restarts over what a crash left, and looks at the answers, which go on from what an earlier restart said.
fn restart(rt: &(impl Abort + AllocGlobal + Wait), disk: Disk, bounds: Bounds, earlier: &[u8]) {
    let run = run_configured(rt, CONFIG, QUESTIONS, disk);
    let said = run.said();
    look_at_status(rt, &run, 0, &said);
    holds(rt, "answers", is_within(said, bounds), &said);
    holds(rt, "answers go on", said.starts_with(earlier), &said);
}

/// Restarts again over each crash of a restart.
fn restart_again(rt: &(impl Abort + AllocGlobal + Wait), stopped: &Run, bounds: Bounds) {
    for pick in &PICKS {
        restart(rt, stopped.crashed(rt, *pick), bounds, stopped.said());
    }
}

/// Restarts over what this crash left of the script's run, stopped at this call, and again over each crash of
/// that. Answers whether it was done.
fn restart_stopped(
    rt: &(impl Abort + AllocGlobal + Wait),
    run: &Run,
    pick: Pick,
    bounds: Bounds,
    stop: u64,
) -> bool {
    let stopped = run_until(rt, CONFIG, QUESTIONS, run.crashed(rt, pick), Some(stop));
    restart_again(rt, &stopped, bounds);
    stopped.report.status == 0
}

/// Restarts over what this crash left of the script's run, stopped at each call.
fn restart_at_each_stop(
    rt: &(impl Abort + AllocGlobal + Wait),
    run: &Run,
    pick: Pick,
    bounds: Bounds,
) {
    for stop in 0..CALLS_MAX {
        if restart_stopped(rt, run, pick, bounds, stop) {
            return holds(rt, "the restart is done late", stop > 12, &stop);
        }
    }
    holds(rt, "a restart is done", false, &CALLS_MAX);
}

/// Checks the store that this crash of a run left.
fn check_store(rt: &(impl Abort + AllocGlobal + Wait), run: &Run, pick: Pick) {
    let checked = call_over(rt, "verify", b"", run.crashed(rt, pick));
    look_at_status(rt, &checked, 0, &pick);
}

/// Checks the store that each crash of one run left and restarts over it, and, where that is asked for, restarts
/// over some of them stopped at each call.
fn crash(rt: &(impl Abort + AllocGlobal + Wait), run: &Run, stops: bool) {
    let bounds = bounds_of(run);
    for pick in &picks_of(rt, run) {
        check_store(rt, run, *pick);
        restart(rt, run.crashed(rt, *pick), bounds, b"");
        if stops && PICKS.contains(pick) {
            restart_at_each_stop(rt, run, *pick, bounds);
        }
    }
}

/// Runs the script over an empty disk, up to a stop.
fn run_stopped(rt: &(impl Abort + AllocGlobal + Wait), stop: Option<u64>) -> Run {
    run_until(rt, CONFIG, SCRIPT, no_files(rt), stop)
}

/// How many calls the run of the script makes, which drops the log's first segment.
fn count_calls(rt: &(impl Abort + AllocGlobal + Wait)) -> u64 {
    let run = run_stopped(rt, None);
    look_at_status(rt, &run, 0, &"whole");
    look_at_lines(rt, &run, 23, &"whole");
    let has_first = has_file(&run.crashed(rt, Pick::Lost), SEGMENT);
    holds(rt, "the first segment is gone", !has_first, &"whole");
    run.calls()
}

/// Crashes the run that is stopped at this call, of so many.
fn crash_at(rt: &(impl Abort + AllocGlobal + Wait), stop: u64, calls: u64) {
    let run = run_stopped(rt, Some(stop));
    let status = if stop == calls { 0 } else { 3 };
    look_at_status(rt, &run, status, &stop);
    crash(rt, &run, stop % 26 == 5);
}

// Restarts are stopped too over the crashes of some runs, of which the second one and the last one are stopped
// between a checkpoint's markers.
#[test]
fn restarts_after_each_crash_have_what_was_acknowledged(rt: HostRuntime) {
    let calls = count_calls(&rt);
    for stop in 0..calls.saturating_add(1) {
        crash_at(&rt, stop, calls);
    }
}
