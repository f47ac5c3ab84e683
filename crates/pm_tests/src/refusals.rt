//! Stores that are refused: a record of the log can't stand where it does.

use crate::looks::{holds, same, same_bytes};
use crate::runs::{
    CP_BEGIN_3, DELTA_OF_A_PAGE, FIRST_FRAME, FIRST_PAGES, OTHER_PUT, PUT, Run, begins_with,
    disk_of, log_after, log_left, log_len, look_at_order, look_at_reply, look_at_run,
    run_configured, with_frame,
};
use pm_disk_mem::Pick;
use pm_frame::{CP_BEGIN, DELTA, LOGICAL, RESTART, SEAL, SNAPSHOT};
use std::fmt::Debug;
use std::process::Abort;
use std::sync::Wait;

/// A shape: pages of 4,096 bytes, one partition of one row, and segments of 65,536 bytes.
const ONE_ROW: &[u8] = &[0, 16, 0, 0, 1, 0, 1, 0, 1, 0, 0, 0, 0, 0, 1, 0];

/// The configuration that asks for that shape.
const ONE_ROW_ASKED: &[u8] = b"{\"partitions\":1,\"max_rows\":1,\"segment_bytes\":65536}";

/// First records of a log that are no RESTART in its grammar.
static BAD_FIRST: [(u8, &[u8]); 12] = [
    (LOGICAL, PUT),
    (LOGICAL, b""),
    (SNAPSHOT, b"12345678page"),
    (DELTA, b"12345678"),
    (CP_BEGIN, &[0; 20]),
    // These are in their grammars.
    (DELTA, DELTA_OF_A_PAGE),
    (CP_BEGIN, CP_BEGIN_3),
    (SEAL, b""),
    (RESTART, b""),
    (RESTART, &[0, 16, 0, 0, 1, 0, 1, 0, 1, 0, 0, 0, 0, 0, 1]),
    // No partition, and a segment of 65,535 bytes.
    (RESTART, &[0, 16, 0, 0, 0, 0, 1, 0, 1, 0, 0, 0, 0, 0, 1, 0]),
    (
        RESTART,
        &[0, 16, 0, 0, 1, 0, 1, 0, 1, 0, 0, 0, 255, 255, 0, 0],
    ),
];

/// Records that aren't in their grammars.
static BAD: [(u8, &[u8]); 17] = [
    (LOGICAL, b""),
    (LOGICAL, &[1]),
    // No such operation, no such cache, no key, a key that isn't whole, a value that goes on, a
    // remove with a value.
    (LOGICAL, &[3, 0, 1, 1, 0, 0, 0, b'a', b'1']),
    (LOGICAL, &[1, 16, 1, 1, 0, 0, 0, b'a', b'1']),
    (LOGICAL, &[1, 0, 0, 1, 0, 0, 0, b'1']),
    (LOGICAL, &[1, 0, 9, 0, 0, 0, 0, b'a']),
    (LOGICAL, &[1, 0, 1, 1, 0, 0, 0, b'a', b'1', b'2']),
    (LOGICAL, &[2, 0, 1, 1, 0, 0, 0, b'a', b'1']),
    (RESTART, b""),
    (RESTART, &[0; 16]),
    (SEAL, b"x"),
    (SNAPSHOT, b"12345678page"),
    (DELTA, b"12345678"),
    // A page of partition 64, a byte after the last range, checkpoint 0, and a place without its last byte.
    (DELTA, &[5, 0, 0, 0, 64, 0, 1, 0, 1, 32, 0, 1, 0, 7]),
    (DELTA, &[5, 0, 0, 0, 2, 0, 1, 0, 1, 32, 0, 1, 0, 7, 0]),
    (CP_BEGIN, &[0; 20]),
    (
        CP_BEGIN,
        &[3, 0, 0, 0, 0, 0, 0, 0, 2, 0, 0, 0, 0, 0, 0, 0, 5, 2, 0],
    ),
];

/// Looks at the log that a refused run left: so many bytes were appended to the log before, of which a crash
/// leaves the log as it was, or all.
fn look_at_log(
    rt: &(impl Abort + AllocGlobal),
    run: &Run,
    log: &[u8],
    added: u64,
    case: &impl Debug,
) {
    let all = added.saturating_add(log.len() as u64);
    same(rt, "log", log_len(&run.disk(rt)), all, case);
    let begins = begins_with(rt, run, Pick::Kept, log);
    holds(rt, "the log is there", begins, case);
    same_bytes(rt, "lasting", &log_left(rt, run, Pick::Lost), log, case);
}

/// Runs over a store with this log, and looks that it is refused at this place, and that so many bytes were
/// appended.
fn refuse(
    rt: &(impl Abort + AllocGlobal + Wait),
    config: &[u8],
    log: &[u8],
    said: &[u8],
    added: u64,
) {
    let run = run_configured(rt, config, b"put 0 a 2\nget 0 a\n", disk_of(rt, log));
    look_at_run(rt, &run, 5, 0, said, &said);
    look_at_order(rt, &run, &[], &said);
    look_at_log(rt, &run, log, added, &said);
}

/// Runs over stores whose log ends with one of these frames, and looks that each is refused.
fn refuse_after(
    rt: &(impl Abort + AllocGlobal + Wait),
    log: &[u8],
    frames: &[(u8, &[u8])],
    said: &[u8],
    added: u64,
) {
    for (kind, payload) in frames {
        refuse(rt, b"", &with_frame(rt, log, *kind, payload), said, added);
    }
}

/// How many bytes are appended before a record after a put is replayed: the RESTART, and the pages of the put.
const RESTARTED: u64 = 37 + FIRST_PAGES as u64;

// A first record that is bad is met before anything is changed. A later one is met when it is to be replayed:
// the RESTART is appended by then, and the pages of the put before it.
#[test]
fn a_record_that_cannot_stand_there_is_refused(rt: HostRuntime) {
    let put = log_after(&rt, b"put 0 a 1\n");
    refuse_after(&rt, b"", &BAD_FIRST, b"fault record 1:0\n", 0);
    refuse_after(&rt, &FIRST_FRAME, &BAD, b"fault record 1:37\n", 37);
    refuse_after(&rt, &put, &BAD, b"fault record 1:12442\n", RESTARTED);
}

/// Looks at a run over a log of a shape of one row.
fn look_at_one_row(rt: &(impl Abort + AllocGlobal + Wait), log: &[u8]) {
    let script = b"put 0 a 1\nput 0 b 2\nput 0 a 3\n";
    let run = run_configured(rt, ONE_ROW_ASKED, script, disk_of(rt, log));
    look_at_reply(rt, &run, 0, b"ok\nerror full\nok\n", &"one row");
}

#[test]
fn a_put_that_meets_a_full_partition_is_refused(rt: HostRuntime) {
    let shape = with_frame(&rt, b"", RESTART, ONE_ROW);
    look_at_one_row(&rt, &shape);
    let put = with_frame(&rt, &shape, LOGICAL, PUT);
    let log = with_frame(&rt, &put, LOGICAL, OTHER_PUT);
    refuse(&rt, ONE_ROW_ASKED, &log, b"fault record 1:67\n", RESTARTED);
}
