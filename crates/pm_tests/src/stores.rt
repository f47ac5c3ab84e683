//! Runs one after another over one store.

use crate::looks::{holds, same, same_bytes};
use crate::runs::{
    CP_BEGIN_3, DELTA_OF_A_PAGE, Disk, FIRST_FRAME, FIRST_PAGES, OTHER_PUT, PUT, Run, add,
    begins_with, copy_of, disk_of, frame, lasting_len, len_left, log_after, log_left,
    look_at_reply, look_at_run, look_at_said, look_at_status, no_files, run_anew, run_over,
    whole_within, with_frame,
};
use pm_disk_mem::Pick;
use pm_frame::{CP_BEGIN, DELTA, LOGICAL, SNAPSHOT};
use std::process::Abort;
use std::sync::Wait;

/// Scripts that are run one after another, each with what it says, and with how long the log is then, where no
/// page is logged by its ranges. A RESTART has 37 bytes, a put of one byte each of key and value 30, the begin
/// of a checkpoint 41, and the three pages of a partition `FIRST_PAGES`, at the first put and at each replay of
/// it.
static RUNS: [(&[u8], &[u8], Option<usize>); 11] = [
    (b"", b"", Some(37)),
    (b"checkpoint\n", b"ok\n", Some(2 * 37 + 41)),
    (
        b"put 0 a 1\nput 0 b 2\n",
        b"ok\nok\n",
        Some(3 * 37 + 2 * 30 + 2 * FIRST_PAGES + 41),
    ),
    (
        b"get 0 a\nget 0 b\nremove 0 c\nput 0 a\nscan 0\n",
        b"value 1\nvalue 2\nfalse\nerror line\npair a 1\npair b 2\nend 2\n",
        Some(4 * 37 + 2 * 30 + 4 * FIRST_PAGES + 41),
    ),
    (
        b"checkpoint\nget 0 a\ncheckpoint\n",
        b"ok\nvalue 1\nok\n",
        Some(5 * 37 + 2 * 30 + 6 * FIRST_PAGES + 3 * 41),
    ),
    // Nothing is replayed behind a checkpoint.
    (
        b"get 0 a\nget 0 b\n",
        b"value 1\nvalue 2\n",
        Some(6 * 37 + 2 * 30 + 6 * FIRST_PAGES + 3 * 41),
    ),
    (
        b"put 0 c 3\n",
        b"ok\n",
        Some(7 * 37 + 3 * 30 + 7 * FIRST_PAGES + 3 * 41),
    ),
    (
        b"remove 0 a\nremove 0 a\nget 0 c\n",
        b"true\nfalse\nvalue 3\n",
        None,
    ),
    (b"get 0 a\nremove 0 a\n", b"none\nfalse\n", None),
    (b"put 0 a 2\nput 1 a x:00ff\n", b"ok\nok\n", None),
    (
        b"get 0 a\nget 1 a\nget 2 a\nget 0 b\n",
        b"value 2\nvalue x:00ff\nnone\nvalue 2\n",
        None,
    ),
];

/// Runs a script over a disk, and looks at what it says and at how long the log is, of which nothing is
/// pending. Answers the disk that it leaves.
fn run_next(
    rt: &(impl Abort + AllocGlobal + Wait),
    script: &[u8],
    disk: Disk,
    said: &[u8],
    len: Option<usize>,
) -> Disk {
    let run = run_over(rt, script, disk);
    look_at_reply(rt, &run, 0, said, &script);
    let all = len_left(rt, &run, Pick::Kept);
    same(rt, "lasting", lasting_len(rt, &run), all, &script);
    if let Some(len) = len {
        same(rt, "log", all, len as u64, &script);
    }
    run.disk(rt)
}

#[test]
fn each_run_finds_what_those_before_it_put(rt: HostRuntime) {
    let mut disk = no_files(&rt);
    for (script, said, len) in &RUNS {
        disk = run_next(&rt, script, disk, said, *len);
    }
}

/// Looks that a crash of a run leaves the frame of a RESTART alone.
fn look_at_first_frame(rt: &(impl Abort + AllocGlobal), run: &Run, pick: Pick) {
    same_bytes(rt, "log", &log_left(rt, run, pick), &FIRST_FRAME, &pick);
}

#[test]
fn an_empty_script_leaves_a_restart_and_nothing_pending(rt: HostRuntime) {
    let run = run_anew(&rt, b"");
    look_at_run(&rt, &run, 0, 0, b"", &"empty");
    for pick in &[Pick::Kept, Pick::Lost, Pick::Fill(238), Pick::Cut(9)] {
        look_at_first_frame(&rt, &run, *pick);
    }
}

/// A run that reads two keys over this log.
fn read_two(rt: &(impl Abort + AllocGlobal + Wait), log: &[u8]) -> Run {
    let run = run_over(rt, b"get 0 a\nget 0 b\n", disk_of(rt, log));
    look_at_status(rt, &run, 0, &"read two");
    run
}

/// The lengths of the frames of a log of two puts: a RESTART, and of each put its own and those of three pages.
static FRAMES: [usize; 9] = [37, 30, 4_125, 4_125, 4_125, 30, 4_125, 4_125, 4_125];

/// What is answered over a log of which the first so many bytes are whole frames, and how many puts those are.
fn told_by(whole: usize) -> (&'static [u8], usize) {
    match whole {
        0..=66 => (b"none\nnone\n", 0),
        67..=12_471 => (b"value 1\nnone\n", 1),
        _ => (b"value 1\nvalue 2\n", 2),
    }
}

/// Looks at what is answered over a log of which the first so many bytes are whole frames, and at the log that
/// is left: a RESTART stands after those, and the pages of each put that is replayed.
fn look_at(rt: &(impl Abort + AllocGlobal + Wait), log: &[u8], whole: usize) {
    let run = read_two(rt, log);
    let (said, puts) = told_by(whole);
    look_at_said(rt, &run, said, &whole);
    let added = FIRST_PAGES.saturating_mul(puts).saturating_add(37);
    let left = whole.saturating_add(added) as u64;
    same(rt, "log", lasting_len(rt, &run), left, &whole);
    let begins = begins_with(rt, &run, Pick::Lost, &log[..whole.min(log.len())]);
    holds(rt, "the whole frames are there", begins, &whole);
}

/// These bytes, of which the one at this offset is another.
fn with_other_byte(rt: &(impl Abort + AllocGlobal), log: &[u8], at: usize) -> Vec<u8> {
    let mut damaged = copy_of(rt, log);
    if let Some(byte) = damaged.get_mut(at) {
        *byte ^= 0x10;
    }
    damaged
}

/// Looks at a log that is cut at this byte, and at one in which the byte is another.
fn look_at_byte(rt: &(impl Abort + AllocGlobal + Wait), log: &[u8], at: usize) {
    let whole = whole_within(&FRAMES, at);
    look_at(rt, &log[..at.min(log.len())], whole);
    look_at(rt, &with_other_byte(rt, log, at), whole);
}

/// The log of two puts.
fn log_of_two(rt: &(impl Abort + AllocGlobal + Wait)) -> Vec<u8> {
    let log = log_after(rt, b"put 0 a 1\nput 0 b 2\n");
    let whole = whole_within(&FRAMES, log.len());
    same(rt, "log", log.len() as u64, whole as u64, &"two puts");
    log
}

/// The first and the last byte of frames, and one between.
static AROUND: [usize; 20] = [
    0, 9, 36, 37, 40, 66, 67, 90, 4_191, 4_192, 8_316, 8_317, 12_441, 12_442, 12_450, 12_471,
    12_472, 16_597, 20_000, 24_846,
];

#[test]
fn a_log_ends_before_its_first_torn_or_damaged_frame(rt: HostRuntime) {
    let log = log_of_two(&rt);
    for at in &AROUND {
        look_at_byte(&rt, &log, *at);
    }
    look_at(&rt, &log, log.len());
}

/// Looks at a log of a RESTART and a frame of another place.
fn look_at_other_place(rt: &(impl Abort + AllocGlobal + Wait)) {
    let mut log = copy_of(rt, &FIRST_FRAME);
    add(rt, &mut log, &frame(rt, LOGICAL, 38, PUT));
    look_at(rt, &log, 37);
}

// Another kind than the six is no frame, and so is one of another place.
#[test]
fn what_is_no_frame_ends_the_log(rt: HostRuntime) {
    for kind in &[0, 7, 255] {
        look_at(&rt, &with_frame(&rt, &FIRST_FRAME, *kind, b""), 37);
    }
    look_at_other_place(&rt);
}

/// The payload of a snapshot of a page of 1,024 bytes.
fn snapshot(rt: &(impl Abort + AllocGlobal)) -> Vec<u8> {
    let mut snapshot = copy_of(rt, &DELTA_OF_A_PAGE[..8]);
    snapshot.resize(1032, 171).expect(rt, "a snapshot");
    snapshot
}

/// These bytes with a frame after them, which ends at this byte.
fn with_frame_to(
    rt: &(impl Abort + AllocGlobal),
    log: &[u8],
    kind: u8,
    payload: &[u8],
    end: u64,
) -> Vec<u8> {
    let log = with_frame(rt, log, kind, payload);
    same(rt, "log", log.len() as u64, end, &kind);
    log
}

/// A log with records of a page and the begin of a checkpoint between two puts.
fn log_with_pages(rt: &(impl Abort + AllocGlobal)) -> Vec<u8> {
    let log = with_frame_to(rt, &FIRST_FRAME, LOGICAL, PUT, 67);
    let log = with_frame_to(rt, &log, SNAPSHOT, &snapshot(rt), 1120);
    let log = with_frame_to(rt, &log, DELTA, DELTA_OF_A_PAGE, 1155);
    let log = with_frame_to(rt, &log, CP_BEGIN, CP_BEGIN_3, 1196);
    with_frame_to(rt, &log, LOGICAL, OTHER_PUT, 1226)
}

// Where there is no start marker they tell nothing of the map, and stay in the log.
#[test]
fn records_of_pages_and_checkpoints_are_passed_over(rt: HostRuntime) {
    let log = log_with_pages(&rt);
    let run = read_two(&rt, &log);
    look_at_said(&rt, &run, b"value 1\nvalue 2\n", &"pages");
    let left = 1226 + 37 + 2 * FIRST_PAGES;
    same(&rt, "log", lasting_len(&rt, &run), left as u64, &"pages");
    let begins = begins_with(&rt, &run, Pick::Lost, &log);
    holds(&rt, "the records are there", begins, &"pages");
}
