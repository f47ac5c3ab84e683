//! Runs with a configuration.

use crate::looks::{same, same_bytes};
use crate::runs::{
    OTHER_PUT, Run, copy_of, disk_of, log_left, look_at_calls, look_at_order, look_at_reply,
    look_at_run, look_at_status, no_files, run_configured, with_frame,
};
use pm_disk_mem::Pick;
use pm_frame::LOGICAL;
use std::fmt::Debug;
use std::process::Abort;
use std::sync::Wait;

/// Configurations that are refused, each with what is printed.
static REFUSED: [(&[u8], &[u8]); 12] = [
    (b"{\"workers\":1,\"frames\":63}", b"fault config frames\n"),
    (b"{\"page_size\":1000}", b"fault config page_size\n"),
    (b"{\"pages\":1}", b"fault config unknown\n"),
    (b"[1]", b"fault config text\n"),
    (b" ", b"fault config text\n"),
    (b"{\"partitions\":0}", b"fault config partitions\n"),
    (b"{\"max_rows\":400001}", b"fault config max_rows\n"),
    (
        b"{\"segment_bytes\":65535}",
        b"fault config segment_bytes\n",
    ),
    (b"{\"workers\":9}", b"fault config workers\n"),
    (b"{\"buffer_pages\":1e3}", b"fault config buffer_pages\n"),
    (
        b"{\"checkpoint_bytes\":18446744073709551616}",
        b"fault config checkpoint_bytes\n",
    ),
    (b"{\"policy\":\"lru\"}", b"fault config policy\n"),
];

/// Runs a script over an empty disk with a configuration.
fn run_fresh(rt: &(impl Abort + AllocGlobal + Wait), config: &[u8], script: &[u8]) -> Run {
    run_configured(rt, config, script, no_files(rt))
}

/// Looks at a run whose configuration is refused: the folder was bound, the configuration read and
/// the fault printed, and no other call was made.
fn look_at_refused(rt: &(impl Abort + AllocGlobal + Wait), config: &[u8], wanted: &[u8]) {
    let run = run_fresh(rt, config, b"put 0 a 1\n");
    look_at_run(rt, &run, 2, 0, wanted, &config);
    look_at_order(rt, &run, &[], &config);
    look_at_calls(rt, &run, 3, &config);
}

#[test]
fn a_field_that_is_refused_is_named(rt: HostRuntime) {
    for (config, wanted) in &REFUSED {
        look_at_refused(&rt, config, wanted);
    }
}

/// A configuration with so many blanks after its object.
fn with_blanks(rt: &(impl Abort + AllocGlobal), count: usize) -> Vec<u8> {
    let mut config = copy_of(rt, b"{}");
    config
        .resize(count.saturating_add(2), b' ')
        .expect(rt, "blanks");
    config
}

/// Looks at the longest configuration that is taken.
fn look_at_longest(rt: &(impl Abort + AllocGlobal + Wait)) {
    let longest = with_blanks(rt, 65_534);
    same(rt, "length", longest.len() as u64, 65_536, &"longest");
    look_at_status(rt, &run_fresh(rt, &longest, b""), 0, &"longest");
}

#[test]
fn a_configuration_has_at_most_64_kib(rt: HostRuntime) {
    look_at_longest(&rt);
    look_at_refused(&rt, &with_blanks(&rt, 65_535), b"fault config text\n");
    look_at_refused(&rt, &with_blanks(&rt, 200_000), b"fault config text\n");
}

#[test]
fn a_put_past_the_most_rows_is_refused(rt: HostRuntime) {
    let script = b"put 0 a 1\nput 1 a 1\nput 0 b 1\nput 0 a 2\nremove 1 a\nput 0 b 1\n";
    let run = run_fresh(&rt, b"{\"max_rows\": 2, \"partitions\": 1}", script);
    let said = b"ok\nok\nerror full\nok\ntrue\nok\n";
    look_at_reply(&rt, &run, 0, said, &"two rows");
    look_at_order(&rt, &run, &[1, 2, 4, 5, 6], &"two rows");
}

/// Looks that a run left the log as another one did.
fn look_at_same_log(rt: &(impl Abort + AllocGlobal), run: &Run, earlier: &Run, case: &impl Debug) {
    let left = log_left(rt, run, Pick::Kept);
    let before = log_left(rt, earlier, Pick::Kept);
    same_bytes(rt, "log", &left, &before, case);
}

/// Looks at a run over the store that another run left, whose configuration asks for another shape:
/// its first field that differs is named, and the log is as it was.
fn look_at_differing(
    rt: &(impl Abort + AllocGlobal + Wait),
    earlier: &Run,
    config: &[u8],
    wanted: &[u8],
) {
    let run = run_configured(rt, config, b"put 0 b 2\n", earlier.disk(rt));
    look_at_run(rt, &run, 2, 0, wanted, &config);
    look_at_same_log(rt, &run, earlier, &config);
}

/// Configurations that ask for another shape than the store has, each with what is printed.
static DIFFERING: [(&[u8], &[u8]); 4] = [
    (
        b"{\"partitions\": 8, \"max_rows\": 7}",
        b"fault config partitions\n",
    ),
    (b"{}", b"fault config max_rows\n"),
    (
        b"{\"partitions\": 8, \"page_size\": 8192}",
        b"fault config page_size\n",
    ),
    (
        b"{\"max_rows\": 7, \"segment_bytes\": 65536}",
        b"fault config segment_bytes\n",
    ),
];

/// Looks at a run over the store whose configuration asks for the same shape.
fn look_at_same_shape(rt: &(impl Abort + AllocGlobal + Wait), earlier: &Run) {
    let config = b"{\"max_rows\": 7, \"workers\": 3}".as_slice();
    let run = run_configured(rt, config, b"get 0 a\n", earlier.disk(rt));
    look_at_reply(rt, &run, 0, b"value 1\n", &config);
}

#[test]
fn a_store_keeps_its_shape(rt: HostRuntime) {
    let first = run_fresh(&rt, b"{\"partitions\": 4, \"max_rows\": 7}", b"put 0 a 1\n");
    look_at_status(&rt, &first, 0, &"first");
    for (config, wanted) in &DIFFERING {
        look_at_differing(&rt, &first, config, wanted);
    }
    look_at_same_shape(&rt, &first);
}

/// A configuration of one partition of one row.
const ONE_ROW: &[u8] = b"{\"max_rows\": 1, \"partitions\": 1}";

/// A log that ends with a record that meets a full partition: another key's put.
fn overfull_log(rt: &(impl Abort + AllocGlobal + Wait)) -> Vec<u8> {
    let first = run_fresh(rt, ONE_ROW, b"put 0 a 1\n");
    with_frame(rt, &log_left(rt, &first, Pick::Kept), LOGICAL, OTHER_PUT)
}

/// Looks at the status of a run over a log with this configuration, and at what it says.
fn look_at_log(
    rt: &(impl Abort + AllocGlobal + Wait),
    log: &[u8],
    config: &[u8],
    status: u8,
    said: &[u8],
) {
    let run = run_configured(rt, config, b"", disk_of(rt, log));
    look_at_reply(rt, &run, status, said, &config);
}

#[test]
fn the_shape_is_compared_before_records_are_replayed(rt: HostRuntime) {
    let log = overfull_log(&rt);
    look_at_log(&rt, &log, b"", 2, b"fault config partitions\n");
    look_at_log(&rt, &log, ONE_ROW, 5, b"fault record 1:12442\n");
}
