//! A store of more pages than it has page frames: drawn lines, the rows that they leave, and crashes between them.

use crate::checkpoints::{OTHER_PAGES, PAGES};
use crate::looks::{holds, same_text};
use crate::rows::{
    Digits, KEYS, ROWS, add_found, add_get, add_pairs, add_put, add_remove, add_scan, gets,
    look_at_rows, replies_of, row_of,
};
use crate::runs::{
    Disk, Run, add, file_bytes, look_at_lines, look_at_status, no_files, run_configured, run_until,
};
use crate::shapes::next_draw;
use pm_disk_mem::Pick;
use std::process::Abort;
use std::sync::Wait;

/// Two partitions over 64 page frames. Segments are short, so that the log is.
const CONFIG: &[u8] = b"{\"partitions\": 2, \"page_size\": 1024, \"segment_bytes\": 65536, \
\"workers\": 1, \"frames\": 64}";

/// How many lines are drawn.
const LINES: u32 = 3_000;

/// Of so many lines one is a scan.
const SCANS: u32 = 150;

/// Lines that are drawn, the replies to them, and the rows that they leave.
#[derive(Drop)]
struct Drawn {
    draw: u32,
    lines: u32,
    script: Vec<u8>,
    replies: Vec<u8>,
    rows: Vec<Option<Digits>>,
}

/// No lines, and no rows.
fn nothing_drawn(rt: &(impl Abort + AllocGlobal)) -> Drawn {
    Drawn {
        draw: 1,
        lines: 0,
        script: Vec::new(rt.alloc()),
        replies: Vec::new(rt.alloc()),
        rows: vec![in rt.alloc(); None; ROWS].expect(rt, "rows"),
    }
}

/// Sets or removes a row.
fn set_row(rows: &mut [Option<Digits>], row: usize, value: Option<Digits>) {
    if let Some(place) = rows.get_mut(row) {
        *place = value;
    }
}

/// Draws a put of a row. A value's length is drawn too, so that a row that is written again often has another
/// length.
fn draw_put(rt: &(impl Abort + AllocGlobal), drawn: &mut Drawn, row: usize) {
    let value = Digits {
        number: drawn.lines,
        width: (drawn.draw % 300) as usize,
    };
    add_put(rt, &mut drawn.script, row, value);
    add(rt, &mut drawn.replies, b"ok\n");
    set_row(&mut drawn.rows, row, Some(value));
}

/// Draws a get of a row.
fn draw_get(rt: &(impl Abort + AllocGlobal), drawn: &mut Drawn, row: usize) {
    let value = row_of(&drawn.rows, row);
    add_get(rt, &mut drawn.script, row);
    add_found(rt, &mut drawn.replies, value);
}

/// What is said of a removal of a row that is there, or of one that isn't.
fn removed(was_there: bool) -> &'static [u8] {
    if was_there { b"true\n" } else { b"false\n" }
}

/// Draws a removal of a row.
fn draw_remove(rt: &(impl Abort + AllocGlobal), drawn: &mut Drawn, row: usize) {
    let was_there = row_of(&drawn.rows, row).is_some();
    add_remove(rt, &mut drawn.script, row);
    add(rt, &mut drawn.replies, removed(was_there));
    set_row(&mut drawn.rows, row, None);
}

/// Draws a scan of a cache.
fn draw_scan(rt: &(impl Abort + AllocGlobal), drawn: &mut Drawn, cache: usize) {
    add_scan(rt, &mut drawn.script, cache);
    add_pairs(rt, &mut drawn.replies, &drawn.rows, cache);
}

/// Draws a line: of ten six are puts, two gets and two removals.
fn draw_line(rt: &(impl Abort + AllocGlobal), drawn: &mut Drawn) {
    drawn.draw = next_draw(drawn.draw);
    drawn.lines = drawn.lines.wrapping_add(1);
    let row = (drawn.draw / 1_024) as usize % ROWS;
    if drawn.lines % SCANS == 0 {
        return draw_scan(rt, drawn, row / KEYS);
    }
    match drawn.lines % 10 {
        0..=5 => draw_put(rt, drawn, row),
        6..=7 => draw_get(rt, drawn, row),
        _ => draw_remove(rt, drawn, row),
    }
}

/// So many lines.
fn draw_lines(rt: &(impl Abort + AllocGlobal), lines: u32) -> Drawn {
    let mut drawn = nothing_drawn(rt);
    for _ in 0..lines {
        draw_line(rt, &mut drawn);
    }
    drawn
}

/// Runs the lines over an empty disk with a configuration, and looks at the replies.
fn run_drawn(rt: &(impl Abort + AllocGlobal + Wait), config: &[u8], drawn: &Drawn) -> Run {
    let run = run_configured(rt, config, &drawn.script, no_files(rt));
    look_at_status(rt, &run, 0, &config);
    look_at_lines(rt, &run, u64::from(LINES), &config);
    same_text(rt, "replies", run.said(), &drawn.replies, &config);
    run
}

/// How many pages of 1,024 bytes the files of both partitions have.
pub fn pages_on(disk: &Disk) -> usize {
    let first = file_bytes(disk, PAGES).len() / 1_024;
    let second = file_bytes(disk, OTHER_PAGES).len() / 1_024;
    first.saturating_add(second)
}

/// Looks that there are more than twice as many pages as there are frames.
fn look_at_size(rt: &(impl Abort + AllocGlobal), disk: &Disk) {
    let pages = pages_on(disk);
    holds(rt, "more pages than frames", pages > 128, &pages);
}

/// What becomes of all that is pending.
static PICKS: [Pick; 3] = [Pick::Kept, Pick::Lost, Pick::Fill(238)];

/// Runs the lines with a configuration, and looks for their rows in what each crash leaves then. Answers the disk that
/// the run left.
fn look_at_lasting(rt: &(impl Abort + AllocGlobal + Wait), config: &[u8], drawn: &Drawn) -> Disk {
    let run = run_drawn(rt, config, drawn);
    for pick in &PICKS {
        look_at_rows(
            rt,
            config,
            run.crashed(rt, *pick),
            &drawn.rows,
            &(config, pick),
        );
    }
    run.disk(rt)
}

/// Other stores over 64 page frames: of 64 partitions, of which each has fewer pages than there are frames, and of one
/// partition with larger pages, where checkpoints are made only where frames lack or the log is long.
static OTHERS: [&[u8]; 2] = [
    b"{\"partitions\": 64, \"page_size\": 1024, \"segment_bytes\": 65536, \"workers\": 1, \"frames\": 64}",
    b"{\"partitions\": 1, \"page_size\": 2048, \"segment_bytes\": 65536, \"workers\": 1, \"frames\": 64, \
\"buffer_pages\": 32, \"dirty_percent\": 100}",
];

#[test]
fn a_store_of_more_pages_than_frames_answers_and_lasts(rt: HostRuntime) {
    let drawn = draw_lines(&rt, LINES);
    look_at_size(&rt, &look_at_lasting(&rt, CONFIG, &drawn));
    for config in &OTHERS {
        look_at_lasting(&rt, config, &drawn);
    }
}

/// Whether these are the rows after some number of lines.
fn are_rows_after(rt: &(impl Abort + AllocGlobal), said: &[u8], least: u32, most: u32) -> bool {
    let mut drawn = draw_lines(rt, least);
    for _ in least..most {
        if replies_of(rt, &drawn.rows).as_slice() == said {
            return true;
        }
        draw_line(rt, &mut drawn);
    }
    replies_of(rt, &drawn.rows).as_slice() == said
}

/// How many lines a crash of a run may leave at least and at most: those whose reply was printed, and all up to
/// the last one that was handed to the log.
fn bounds_of(run: &Run) -> (u32, u32) {
    let least = u32::try_from(run.report.lines).unwrap_or(0);
    let last = run.report.order.last().map_or(0, |line| *line);
    (least, last.max(least))
}

/// Crashes the run of the lines that is stopped at this call, opens the store again, and looks at all rows.
fn crash_at(rt: &(impl Abort + AllocGlobal + Wait), drawn: &Drawn, stop: u64, pick: Pick) {
    let run = run_until(rt, CONFIG, &drawn.script, no_files(rt), Some(stop));
    look_at_status(rt, &run, 3, &stop);
    let begins = drawn.replies.starts_with(run.said());
    holds(rt, "the first replies", begins, &stop);
    let again = run_configured(rt, CONFIG, &gets(rt, ROWS), run.crashed(rt, pick));
    look_at_status(rt, &again, 0, &(stop, pick));
    let (least, most) = bounds_of(&run);
    let are_there = are_rows_after(rt, again.said(), least, most);
    holds(rt, "rows", are_there, &(stop, pick, least, most));
}

/// How many parts the calls of a run are cut into, at whose ends it is stopped.
const PARTS: u64 = 10;

/// What becomes of all that is pending in the crash at the end of this part.
fn pick_of(part: u64) -> Pick {
    match part % 3 {
        0 => Pick::Kept,
        1 => Pick::Lost,
        _ => Pick::Fill(238),
    }
}

#[test]
fn a_crash_of_a_store_of_more_pages_than_frames_leaves_a_prefix(rt: HostRuntime) {
    let drawn = draw_lines(&rt, LINES);
    let calls = run_drawn(&rt, CONFIG, &drawn).calls();
    for part in 1..PARTS {
        let stop = calls.saturating_mul(part) / PARTS;
        crash_at(&rt, &drawn, stop, pick_of(part));
    }
}
