//! The commands that look into a store: what they print of a log, and that they change nothing.

use crate::looks::same_bytes;
use crate::runs::{
    CP_BEGIN_3, DELTA_OF_A_PAGE, PUT, call_over, disk_of, log_after, log_left, look_at_order,
    look_at_run, with_frame,
};
use pm_disk_mem::Pick;
use pm_frame::{CP_BEGIN, DELTA, LOGICAL, SEAL};
use std::process::Abort;
use std::sync::Wait;

/// Looks at what a command reports and prints over a store with this log, and that the log is as it was.
fn look(rt: &(impl Abort + AllocGlobal + Wait), word: &str, log: &[u8], status: u8, said: &[u8]) {
    let run = call_over(rt, word, b"", disk_of(rt, log));
    look_at_run(rt, &run, status, 0, said, &word);
    look_at_order(rt, &run, &[], &word);
    same_bytes(rt, "log", &log_left(rt, &run, Pick::Lost), log, &word);
}

/// What is listed of the log of one put.
const LISTED: &[u8] = b"1:0 restart\n1:37 put 0 a 1\n1:67 snapshot 0001000000000000\n\
1:4192 snapshot 0001000000000001\n1:8317 snapshot 0001000000000002\nend 1:12442\n";

/// Looks at what is said of a log of no frame.
fn look_at_empty(rt: &(impl Abort + AllocGlobal + Wait)) {
    look(rt, "wal", b"", 0, b"end 1:0\n");
    look(rt, "verify", b"", 0, b"pages 0 rows 0 records 0\n");
}

/// Looks at what is said of the log of one put.
fn look_at_put(rt: &(impl Abort + AllocGlobal + Wait), log: &[u8]) {
    look(rt, "wal", log, 0, LISTED);
    look(rt, "verify", log, 0, b"pages 0 rows 0 records 1\n");
}

/// Looks at what is said of that log with records after it that aren't changes of the map, and with one more
/// change.
fn look_at_more(rt: &(impl Abort + AllocGlobal + Wait), log: &[u8]) {
    let more = with_frame(rt, log, DELTA, DELTA_OF_A_PAGE);
    let more = with_frame(rt, &more, CP_BEGIN, CP_BEGIN_3);
    let more = with_frame(rt, &more, LOGICAL, PUT);
    look(rt, "verify", &more, 0, b"pages 0 rows 0 records 2\n");
    let sealed = with_frame(rt, &more, SEAL, b"");
    look(rt, "verify", &sealed, 0, b"pages 0 rows 0 records 2\n");
}

/// Looks at what is said of a log whose first record is no RESTART, which opening refuses and these don't, and of
/// one with a bad record after it.
fn look_at_no_restart(rt: &(impl Abort + AllocGlobal + Wait)) {
    let put = with_frame(rt, b"", LOGICAL, PUT);
    look(rt, "verify", &put, 0, b"pages 0 rows 0 records 1\n");
    let bad = with_frame(rt, &put, LOGICAL, b"");
    look(rt, "verify", &bad, 5, b"fault record 1:30\n");
    look(rt, "wal", &bad, 5, b"1:0 put 0 a 1\nfault record 1:30\n");
}

#[test]
fn a_log_is_listed_and_a_store_checked(rt: HostRuntime) {
    let log = log_after(&rt, b"put 0 a 1\nget 0 a\n");
    look_at_empty(&rt);
    look_at_put(&rt, &log);
    look_at_more(&rt, &log);
    look_at_no_restart(&rt);
}
