//! Runs of the top call over two real folders in turn.

use crate::file_runs::run_over_files;
use crate::looks::{same, same_bytes};
use crate::runs::FIRST_PAGES;
use pm_tests_hosts::consoles::SAID;
use pm_tests_hosts::recorded::TRACE;
use std::fs;
use std::process::Abort;
use std::rt::Files;

/// How many bytes of the log the pages of a put take.
const PAGES: u64 = FIRST_PAGES as u64;

/// Looks at how many bytes a file has.
fn look_at_length(rt: &(impl Abort + Files), path: &str, wanted: u64) {
    let file = fs::metadata(rt, path).expect(rt, path);
    same(rt, "length", file.len(), wanted, &path);
}

/// Looks at how many bytes the logs of both folders have.
fn look_at_lengths(rt: &(impl Abort + Files), left: u64, right: u64) {
    look_at_length(rt, "left/wal-0000000000000001.seg", left);
    look_at_length(rt, "right/wal-0000000000000001.seg", right);
}

/// Looks at what was printed.
fn look_at_printed(rt: &(impl Abort + AllocGlobal + Files), wanted: &[u8]) {
    let said = fs::read(rt, SAID).expect(rt, SAID);
    same_bytes(rt, "said", &said, wanted, &SAID);
}

/// Removes both folders, the trace, and what was printed.
fn remove_all(rt: &(impl Abort + AllocGlobal + Files)) {
    fs::remove_dir_all(rt, "left").expect(rt, "left");
    fs::remove_dir_all(rt, "right").expect(rt, "right");
    fs::remove_file(rt, TRACE).expect(rt, TRACE);
    fs::remove_file(rt, SAID).expect(rt, SAID);
}

// Each run appends a RESTART of 37 bytes; the first put has 30 bytes, and the second one 31, and each logs
// three pages, which a replay logs again.
#[test]
fn each_run_is_over_the_folder_that_its_words_name(rt: HostRuntime) {
    run_over_files(&rt, &rt, b"put 0 a 1\n", "left");
    run_over_files(&rt, &rt, b"put 0 b 22\nget 0 a\n", "right");
    look_at_lengths(&rt, 67 + PAGES, 68 + PAGES);
    run_over_files(&rt, &rt, b"get 0 a\nget 0 b\n", "left");
    look_at_lengths(&rt, 104 + 2 * PAGES, 68 + PAGES);
    look_at_printed(&rt, b"ok\nok\nnone\nvalue 1\nnone\n");
    remove_all(&rt);
}
