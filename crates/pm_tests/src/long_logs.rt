//! A log whose records change more pages than there are page frames: its opening makes checkpoints.

use crate::looks::holds;
use crate::rows::{Digits, add_put, look_at_rows};
use crate::runs::{Disk, Run, add, call_over, look_at_status, no_files, run_configured, run_until};
use pm_disk_mem::Pick;
use std::process::Abort;
use std::sync::Wait;

/// A store that makes no checkpoint of its own for long.
const MANY_FRAMES: &[u8] = b"{\"partitions\": 2, \"page_size\": 1024, \"segment_bytes\": 65536, \
\"workers\": 1, \"frames\": 1024, \"dirty_percent\": 100}";

/// The same store over 64 page frames.
const FEW_FRAMES: &[u8] = b"{\"partitions\": 2, \"page_size\": 1024, \"segment_bytes\": 65536, \
\"workers\": 1, \"frames\": 64}";

/// How many digits a value has: each row has a page for itself.
const WIDTH: usize = 600;

/// What the first so many rows have once they are put with this number.
fn rows_with(rt: &(impl Abort + AllocGlobal), rows: usize, number: u32) -> Vec<Option<Digits>> {
    let value = Digits {
        number,
        width: WIDTH,
    };
    vec![in rt.alloc(); Some(value); rows].expect(rt, "rows")
}

/// Puts the lines that put so many rows with this number after these.
fn add_puts(rt: &(impl Abort + AllocGlobal), script: &mut Vec<u8>, rows: usize, number: u32) {
    let value = Digits {
        number,
        width: WIDTH,
    };
    for row in 0..rows {
        add_put(rt, script, row, value);
    }
}

/// The run of a script that puts so many rows, makes a checkpoint, and puts all rows again.
fn run_puts(rt: &(impl Abort + AllocGlobal + Wait), rows: usize) -> Run {
    let mut script = Vec::new(rt.alloc());
    add_puts(rt, &mut script, rows, 1);
    add(rt, &mut script, b"checkpoint\n");
    add_puts(rt, &mut script, rows, 2);
    let run = run_configured(rt, MANY_FRAMES, &script, no_files(rt));
    look_at_status(rt, &run, 0, &"puts");
    run
}

/// Whether a check of a store counts so many records from the replay place on.
fn counts_records(rt: &(impl Abort + AllocGlobal + Wait), disk: Disk, rows: usize) -> bool {
    let run = call_over(rt, "verify", b"", disk);
    look_at_status(rt, &run, 0, &"records");
    let counted = format!(in rt.alloc(); " records {rows}\n").expect(rt, "text");
    run.said().ends_with(counted.as_bytes())
}

/// Opens the store that a power failure left of a run with few frames, up to a stop.
fn open_until(rt: &(impl Abort + AllocGlobal + Wait), left: &Run, stop: Option<u64>) -> Run {
    run_until(rt, FEW_FRAMES, b"", left.crashed(rt, Pick::Lost), stop)
}

/// Opens the store that a run of so many rows left, and looks that checkpoints were made meanwhile: a restart after a
/// power failure applies fewer records.
fn open_whole(rt: &(impl Abort + AllocGlobal + Wait), left: &Run, rows: usize) -> Run {
    let before = counts_records(rt, left.crashed(rt, Pick::Lost), rows);
    holds(rt, "all records", before, &rows);
    let opened = open_until(rt, left, None);
    look_at_status(rt, &opened, 0, &"opened");
    let after = counts_records(rt, opened.crashed(rt, Pick::Lost), rows);
    holds(rt, "fewer records", !after, &rows);
    opened
}

/// What becomes of all that is pending.
static PICKS: [Pick; 3] = [Pick::Kept, Pick::Lost, Pick::Fill(238)];

#[test]
fn an_opening_makes_checkpoints_where_frames_run_short(rt: HostRuntime) {
    let left = run_puts(&rt, 250);
    let opened = open_whole(&rt, &left, 250);
    let rows = rows_with(&rt, 250, 2);
    for pick in &PICKS {
        look_at_rows(&rt, FEW_FRAMES, opened.crashed(&rt, *pick), &rows, pick);
    }
}

/// Crashes an opening that is stopped at this call, opens the store again, and looks at all rows.
fn crash_at(
    rt: &(impl Abort + AllocGlobal + Wait),
    left: &Run,
    rows: &[Option<Digits>],
    stop: u64,
    pick: Pick,
) {
    let stopped = open_until(rt, left, Some(stop));
    look_at_status(rt, &stopped, 3, &stop);
    look_at_rows(
        rt,
        FEW_FRAMES,
        stopped.crashed(rt, pick),
        rows,
        &(stop, pick),
    );
}

/// What becomes of all that is pending in the crash of this number.
fn pick_of(crash: u64) -> Pick {
    match crash % 3 {
        0 => Pick::Lost,
        1 => Pick::Kept,
        _ => Pick::Fill(238),
    }
}

#[test]
fn a_crash_of_an_opening_with_checkpoints_loses_nothing(rt: HostRuntime) {
    let left = run_puts(&rt, 130);
    let calls = open_whole(&rt, &left, 130).calls();
    let rows = rows_with(&rt, 130, 2);
    holds(&rt, "many calls", calls > 500, &calls);
    for crash in 0..calls / 10 {
        crash_at(&rt, &left, &rows, crash.saturating_mul(10), pick_of(crash));
    }
}
