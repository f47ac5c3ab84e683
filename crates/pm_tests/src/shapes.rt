//! One script over stores of several shapes and with several triggers of checkpoints, which has the same
//! replies over each.

use crate::looks::holds;
use crate::runs::{Run, add, look_at_lines, look_at_status, no_files, run_configured};
use std::process::Abort;
use std::sync::Wait;

/// How many lines the script has before its scans.
const LINES: u32 = 6_000;

/// How many keys each cache may have.
const KEYS: u32 = 1_500;

/// The configuration of the first run.
const FIRST: &[u8] = b"{\"partitions\": 4, \"page_size\": 4096}";

/// Other numbers of partitions with its size of page, and each other size with one number of partitions. The
/// last ones begin a checkpoint after 64 KiB of log, where one percent of the frames is logged, and where the
/// frames run short: there segments are short too, so that those before each checkpoint are gone.
static OTHERS: [&[u8]; 10] = [
    b"{\"partitions\": 1, \"page_size\": 4096}",
    b"{\"partitions\": 3, \"page_size\": 4096}",
    b"{\"partitions\": 64, \"page_size\": 4096}",
    b"{\"partitions\": 3, \"page_size\": 1024}",
    b"{\"partitions\": 3, \"page_size\": 2048}",
    b"{\"partitions\": 3, \"page_size\": 8192}",
    b"{\"partitions\": 3, \"page_size\": 16384}",
    b"{\"page_size\": 1024, \"segment_bytes\": 65536, \"checkpoint_bytes\": 65536}",
    b"{\"page_size\": 2048, \"segment_bytes\": 1048576, \"dirty_percent\": 1}",
    b"{\"workers\": 1, \"frames\": 64, \"buffer_pages\": 32, \"dirty_percent\": 100, \"segment_bytes\": 65536}",
];

/// The next draw of a generator.
pub fn next_draw(draw: u32) -> u32 {
    draw.wrapping_mul(1_664_525).wrapping_add(1_013_904_223)
}

/// Puts a line after these bytes: of ten six are puts, two gets and two removals. A value's length grows with the
/// draw, so that a row that is written again often has another length.
fn add_line(rt: &(impl Abort + AllocGlobal), script: &mut Vec<u8>, draw: u32, number: u32) {
    let cache = draw / 65_536 % 2;
    let key = draw / 1_024 % KEYS;
    let width = (draw % 97) as usize;
    let line = match number % 10 {
        0..=5 => format!(in rt.alloc(); "put {cache} k{key} v{number:0width$}\n"),
        6 => format!(in rt.alloc(); "get {cache} k{key}\n"),
        7 => format!(in rt.alloc(); "get {cache} k{key}x\n"),
        _ => format!(in rt.alloc(); "remove {cache} k{key}\n"),
    };
    add(rt, script, line.expect(rt, "a line").as_bytes());
}

/// The script, which ends with a scan of each cache.
fn script(rt: &(impl Abort + AllocGlobal)) -> Vec<u8> {
    let mut script = Vec::new(rt.alloc());
    let mut draw = 1;
    for number in 0..LINES {
        draw = next_draw(draw);
        add_line(rt, &mut script, draw, number);
    }
    add(rt, &mut script, b"scan 0\nscan 1\n");
    script
}

/// Runs the script over an empty store with this configuration.
fn run_to_its_end(rt: &(impl Abort + AllocGlobal + Wait), config: &[u8], script: &[u8]) -> Run {
    let run = run_configured(rt, config, script, no_files(rt));
    look_at_status(rt, &run, 0, &config);
    look_at_lines(rt, &run, u64::from(LINES) + 2, &config);
    run
}

/// Looks that a run with another configuration says the same as the first one.
fn look_at_other(
    rt: &(impl Abort + AllocGlobal + Wait),
    first: &Run,
    config: &[u8],
    script: &[u8],
) {
    let run = run_to_its_end(rt, config, script);
    holds(rt, "the same replies", run.said() == first.said(), &config);
}

#[test]
fn partitions_page_sizes_and_checkpoints_change_no_reply(rt: HostRuntime) {
    let script = script(&rt);
    let first = run_to_its_end(&rt, FIRST, &script);
    holds(&rt, "many replies", first.said().len() > 50_000, &FIRST);
    for config in &OTHERS {
        look_at_other(&rt, &first, config, &script);
    }
}
