//! Runs over drawn lines, through the top call.

use crate::looks::{holds, same_bytes};
use crate::runs::{
    Run, host_over, look_at_lines, look_at_order, look_at_run, look_at_said, no_files, run_host,
};
use pm_disk_mem::Pick;
use std::process::Abort;
use std::sync::Wait;

/// Runs so many lines that are drawn from a number over an empty disk with a configuration, beside input that isn't
/// read. The calls of these numbers are refused.
fn run_drawn(
    rt: &(impl Abort + AllocGlobal + Wait),
    config: &[u8],
    seed: &str,
    count: &str,
    refused: &[u64],
) -> Run {
    let host = host_over(rt, b"put 0 a 1\n", config, no_files(rt), refused, None);
    run_host(rt, &["gen", "d", seed, count], host)
}

/// Runs the first three drawn lines: `put 0 k988 v1`, `get 2 k927` and `put 1 k122 v3`.
fn run_three(rt: &(impl Abort + AllocGlobal + Wait), refused: &[u64]) -> Run {
    run_drawn(rt, b"", "0", "3", refused)
}

/// What is said of those.
const COUNTED: &[u8] = b"lines 3 ok 2 value 0 none 1 true 0 false 0 full 0\n";

#[test]
fn the_replies_to_drawn_lines_are_counted(rt: HostRuntime) {
    let run = run_three(&rt, &[]);
    look_at_run(&rt, &run, 0, 3, COUNTED, &"three");
    look_at_order(&rt, &run, &[1, 3], &"three");
}

/// A run that reads the two keys which those lines have set, over the disk that a crash left.
fn read_again(rt: &(impl Abort + AllocGlobal + Wait), run: &Run) -> Run {
    let disk = run.crashed(rt, Pick::Lost);
    let host = host_over(rt, b"get 0 k988\nget 1 k122", b"", disk, &[], None);
    run_host(rt, &["run", "d"], host)
}

#[test]
fn drawn_lines_last_once_they_are_counted(rt: HostRuntime) {
    let again = read_again(&rt, &run_three(&rt, &[]));
    look_at_said(&rt, &again, b"value v1\nvalue v3\n", &"again");
}

/// Runs drawn lines, of whose calls the last one is refused: the one that says the summary.
fn refuse_the_summary(rt: &(impl Abort + AllocGlobal + Wait), calls: u64) {
    let run = run_three(rt, &[calls.saturating_sub(1)]);
    look_at_run(rt, &run, 3, 0, b"", &"refused");
    look_at_order(rt, &run, &[1, 3], &"refused");
}

#[test]
fn a_summary_that_is_not_said_counts_no_line(rt: HostRuntime) {
    refuse_the_summary(&rt, run_three(&rt, &[]).calls());
}

/// Runs 3,000 lines that are drawn from the largest number.
fn run_many(rt: &(impl Abort + AllocGlobal + Wait), config: &[u8]) -> Run {
    run_drawn(rt, config, "2147483647", "3000", &[])
}

/// Fewer page frames than the drawn lines make pages.
const FEW_FRAMES: &[u8] = b"{\"page_size\": 1024, \"workers\": 1, \"frames\": 64}";

#[test]
fn the_same_numbers_always_say_the_same(rt: HostRuntime) {
    let first = run_many(&rt, b"");
    let begins = first.said().starts_with(b"lines 3000 ok ");
    holds(&rt, "all are counted", begins, &"first");
    look_at_lines(&rt, &first, 3_000, &"first");
    let said = first.said();
    same_bytes(&rt, "said", said, run_many(&rt, b"").said(), &"second");
    same_bytes(&rt, "said", said, run_many(&rt, FEW_FRAMES).said(), &"few");
}
