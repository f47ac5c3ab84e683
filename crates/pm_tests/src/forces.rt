//! A run of the top call over real files that write a trace.

use crate::file_runs::run_over_files;
use crate::looks::holds;
use pm_disk::MarkFile;
use pm_tests_hosts::consoles::SAID;
use pm_tests_hosts::noted::{Forced, note_force};
use pm_tests_hosts::recorded::TRACE;
use pm_tests_hosts::traces::{count_forces, count_prints};
use std::fs;
use std::process::Abort;
use std::rt::Files;

/// The folder of the store.
const FOLDER: &str = "lasts";

/// The files of the log's first segment, of two partitions, and of the markers.
static FILES: [(Forced, &str); 5] = [
    (Forced::Segment(1), "lasts/wal-0000000000000001.seg"),
    (Forced::Pages(0), "lasts/part-000.pages"),
    (Forced::Pages(1), "lasts/part-001.pages"),
    (Forced::Marks(MarkFile::Start), "lasts/cp.start"),
    (Forced::Marks(MarkFile::End), "lasts/cp.end"),
];

/// A script of three batches, which is answered twice.
const SCRIPT: &[u8] = b"put 0 a 1\nget 0 a\nremove 0 a\nput 1 b 2\ncheckpoint\nput 0 a 3\n";

/// A folder in folders that aren't there.
const DEEP_FOLDER: &str = "deep/down/store";

/// The file of its log's first segment.
const DEEP_SEGMENT: &str = "deep/down/store/wal-0000000000000001.seg";

/// The folders that get the names of those that are made for it, by the paths that they are synced by.
static ABOVE: [&str; 3] = [".", "deep", "deep/down"];

/// The trace so far.
fn trace_of(rt: &(impl Abort + AllocGlobal + Files)) -> String {
    fs::read_to_string(rt, TRACE).expect(rt, TRACE)
}

/// Looks at the trace of so many runs: whenever something was printed the file lasted, and the names, and so
/// they did at the end of each run.
fn look_at_file(rt: &(impl Abort + AllocGlobal + Files), forced: Forced, path: &str, runs: usize) {
    note_force(rt, FOLDER, forced);
    let trace = trace_of(rt);
    let forces = count_forces(&trace, FOLDER, path);
    holds(rt, "forces", forces == Some(runs), &path);
    let prints = count_prints(&trace, FOLDER, path);
    holds(rt, "prints", prints == Some(runs.saturating_mul(3)), &path);
}

/// The same of each file.
fn look_at_forces(rt: &(impl Abort + AllocGlobal + Files), runs: usize) {
    for (forced, path) in &FILES {
        look_at_file(rt, *forced, path, runs);
    }
}

/// Removes a folder, the trace, and what was said.
fn remove_all(rt: &(impl Abort + AllocGlobal + Files), folder: &str) {
    fs::remove_dir_all(rt, folder).expect(rt, folder);
    fs::remove_file(rt, TRACE).expect(rt, TRACE);
    fs::remove_file(rt, SAID).expect(rt, SAID);
}

#[test]
fn what_a_run_prints_lasts(rt: HostRuntime) {
    run_over_files(&rt, &rt, SCRIPT, FOLDER);
    look_at_forces(&rt, 1);
    run_over_files(&rt, &rt, SCRIPT, FOLDER);
    look_at_forces(&rt, 2);
    remove_all(&rt, FOLDER);
}

/// Looks that the name in a folder lasted whenever something was printed.
fn look_at_name(rt: &(impl Abort + AllocGlobal + Files), folder: &str) {
    let count = count_prints(&trace_of(rt), folder, DEEP_SEGMENT);
    holds(rt, "prints", count == Some(3), &folder);
}

#[test]
fn each_folder_that_is_made_lasts_before_a_reply(rt: HostRuntime) {
    run_over_files(&rt, &rt, SCRIPT, DEEP_FOLDER);
    for folder in &ABOVE {
        look_at_name(&rt, folder);
    }
    remove_all(&rt, "deep");
}
