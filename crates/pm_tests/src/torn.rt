//! Runs that are stopped before the force of their batch, and what restarts find, image by image.

use crate::looks::same;
use crate::runs::{
    Disk, FIRST_PAGES, Run, disk_of, lasting_len, len_left, log_after, log_left, look_at_reply,
    look_at_status, run_over, run_until, whole_within,
};
use pm_disk_mem::Pick;
use std::process::Abort;
use std::sync::Wait;

/// Runs a script over this log, stopped at the force of its only batch: of a run's last calls that one is
/// followed by the print of the replies, the read of the script's end, and the log's last force.
fn stop_before_force(rt: &(impl Abort + AllocGlobal + Wait), script: &[u8], log: &[u8]) -> Run {
    let whole = run_over(rt, script, disk_of(rt, log));
    let stop = whole.calls().saturating_sub(4);
    let run = run_until(rt, b"", script, disk_of(rt, log), Some(stop));
    look_at_reply(rt, &run, 3, b"", &script);
    run
}

/// Restarts over a disk, and looks at what it says of two keys, and at how long the log is then.
fn look_at_keys(rt: &(impl Abort + AllocGlobal + Wait), disk: Disk, wanted: &[u8], len: usize) {
    let run = run_over(rt, b"get 0 a\nget 0 b\n", disk);
    look_at_reply(rt, &run, 0, wanted, &len);
    same(rt, "lasting", lasting_len(rt, &run), len as u64, &len);
}

/// How long the log of one put is: a RESTART of 37 bytes, the put of 30, and the pages.
const FIRST_LEN: usize = 37 + 30 + FIRST_PAGES;

/// What a second run appends to it up to the frame of its put: the RESTART, the pages of the put that is
/// replayed, and the put.
static SECOND: [usize; 5] = [37, 4_125, 4_125, 4_125, 30];

/// How long that is.
const SECOND_LEN: usize = 37 + FIRST_PAGES + 30;

/// Looks at the crash of the second run that keeps so many of its pending bytes: its put is there exactly where
/// its frame is whole, and a restart goes on where the last frame ends that is.
fn look_at_cut(rt: &(impl Abort + AllocGlobal + Wait), second: &Run, pick: Pick, count: usize) {
    let disk = second.crashed(rt, pick);
    let replayed = FIRST_LEN
        .saturating_add(whole_within(&SECOND, count))
        .saturating_add(37 + FIRST_PAGES);
    if count < SECOND_LEN {
        look_at_keys(rt, disk, b"value 1\nnone\n", replayed);
    } else {
        let both = replayed.saturating_add(FIRST_PAGES);
        look_at_keys(rt, disk, b"value 1\nvalue 2\n", both);
    }
}

/// The second run, over the log of one put.
fn run_second(rt: &(impl Abort + AllocGlobal + Wait)) -> Run {
    let first = log_after(rt, b"put 0 a 1\n");
    same(
        rt,
        "first log",
        first.len() as u64,
        FIRST_LEN as u64,
        &"first",
    );
    let second = stop_before_force(rt, b"put 0 b 2\n", &first);
    let kept = len_left(rt, &second, Pick::Kept);
    let wanted = FIRST_LEN + SECOND_LEN + FIRST_PAGES;
    same(rt, "second log", kept, wanted as u64, &"second");
    second
}

/// Looks at each crash of the second run that keeps none of its pending bytes.
fn look_at_no_bytes(rt: &(impl Abort + AllocGlobal + Wait), second: &Run) {
    for pick in &[Pick::Lost, Pick::Fill(0), Pick::Fill(5), Pick::Fill(238)] {
        look_at_cut(rt, second, *pick, 0);
    }
}

// Of the second run's bytes each 499th one is the first that isn't kept, and each one around the end of its
// put's frame.
#[test]
fn a_put_over_an_older_log_is_there_once_its_frame_is_whole(rt: HostRuntime) {
    let second = run_second(&rt);
    look_at_no_bytes(&rt, &second);
    for count in 0..SECOND_LEN + 6 {
        if count % 499 == 0 || count + 6 > SECOND_LEN {
            look_at_cut(&rt, &second, Pick::Cut(count as u64), count);
        }
    }
}

/// Makes these of the bytes zeros.
fn make_zeros(bytes: &mut [u8], from: usize, to: usize) {
    for at in from..to {
        if let Some(byte) = bytes.get_mut(at) {
            *byte = 0;
        }
    }
}

/// The log of three puts that weren't forced, of which the first one's frame has zeros in place of its bytes 37
/// to 73.
fn log_without_first(rt: &(impl Abort + AllocGlobal + Wait)) -> Vec<u8> {
    let script = b"put 0 a 12345678\nput 0 b 2\nput 0 c 3\n";
    let run = stop_before_force(rt, script, b"");
    let mut log = log_left(rt, &run, Pick::Kept);
    let wanted = 37 + 37 + 30 + 30 + 3 * FIRST_PAGES;
    same(rt, "log", log.len() as u64, wanted as u64, &"three");
    make_zeros(&mut log, 37, 74);
    log
}

/// Restarts over what a crash left, and looks that neither of the later puts is there.
fn look_for_none(rt: &(impl Abort + AllocGlobal + Wait), stopped: &Run, stop: u64, pick: Pick) {
    let run = run_over(rt, b"get 0 b\nget 0 c\n", stopped.crashed(rt, pick));
    let case = (stop, pick);
    look_at_reply(rt, &run, 0, b"none\nnone\n", &case);
}

/// The crashes of a restart that is stopped. Of the cuts one leaves all but the last byte of the RESTART, one
/// leaves it whole, and one falls into the frame after it.
static PICKS: [Pick; 7] = [
    Pick::Kept,
    Pick::Lost,
    Pick::Fill(0),
    Pick::Fill(238),
    Pick::Cut(36),
    Pick::Cut(37),
    Pick::Cut(60),
];

/// Restarts over the log, stopped at this call, and again over each crash of that.
fn restart_until(rt: &(impl Abort + AllocGlobal + Wait), log: &[u8], script: &[u8], stop: u64) {
    let stopped = run_until(rt, b"", script, disk_of(rt, log), Some(stop));
    for pick in &PICKS {
        look_for_none(rt, &stopped, stop, *pick);
    }
}

/// How many calls a run of the script over the log makes.
fn count_calls(rt: &(impl Abort + AllocGlobal + Wait), log: &[u8], script: &[u8]) -> u64 {
    let whole = run_over(rt, script, disk_of(rt, log));
    look_at_status(rt, &whole, 0, &"whole");
    whole.calls()
}

// The frame of the first put has 37 bytes, as a RESTART has: were the log not cut before one is written in its
// place, the frames after it would follow it, whole and at their places.
#[test]
fn frames_after_a_torn_one_never_come_back(rt: HostRuntime) {
    let log = log_without_first(&rt);
    look_at_keys(&rt, disk_of(&rt, &log), b"none\nnone\n", 74);
    let script = b"put 0 a 9\n".as_slice();
    for stop in 0..count_calls(&rt, &log, script).saturating_add(1) {
        restart_until(&rt, &log, script, stop);
    }
}
