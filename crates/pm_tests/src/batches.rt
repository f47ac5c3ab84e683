//! Batches of lines: what is appended, forced and printed together, and what is left where that stops halfway.

ghost use Rattle.std.specs.Prelude.{◌<◌};

use crate::looks::same;
use crate::runs::{
    add, lasting_len, look_at_calls, look_at_lines, look_at_order, look_at_run, look_at_status,
};
use crate::scripts::run_in_pieces;
use std::process::Abort;
use std::sync::Wait;

/// What has come of a script whose call of the first number is refused: how many lines were answered, which
/// were accepted, what was said, and how many bytes of the log each crash leaves.
type Row = (u64, u64, &'static [u32], &'static [u8], u64);

/// A scan is a batch by itself.
const SCAN: &[u8] = b"put 0 a 1\nscan 3\nput 0 b 2\n";

// Ten calls open the store, of which the last one writes the RESTART, and then the whole script is read. The
// first put takes four calls, its record and three pages, and then its batch is forced and answered. The scan
// is forced and answered, and the other put is as the first one. Then the script's end is read, and the log
// forced once more.
static ON_SCAN: [Row; 14] = [
    (9, 0, &[], b"", 0),
    (10, 0, &[], b"", 0),
    (11, 0, &[1], b"", 0),
    (14, 0, &[1], b"", 0),
    (15, 0, &[1], b"", 0),
    (16, 0, &[1], b"", 12_442),
    (17, 1, &[1], b"ok\n", 12_442),
    (18, 1, &[1], b"ok\n", 12_442),
    (19, 2, &[1, 3], b"ok\nend 0\n", 12_442),
    (22, 2, &[1, 3], b"ok\nend 0\n", 12_442),
    (23, 2, &[1, 3], b"ok\nend 0\n", 12_442),
    (24, 2, &[1, 3], b"ok\nend 0\n", 24_847),
    (25, 3, &[1, 3], b"ok\nend 0\nok\n", 24_847),
    (26, 3, &[1, 3], b"ok\nend 0\nok\n", 24_847),
];

/// So is a line that asks for a checkpoint.
const CHECKPOINT: &[u8] = b"put 0 a 1\ncheckpoint\nput 0 a 2\n";

// The checkpoint's begin is written and forced, its start marker read, made, written and forced, the three
// pages written and forced, and its end marker read, made, written and forced. Then the log is forced, and the
// line answered. Of the other put's pages one is changed, which is logged whole.
static ON_CHECKPOINT: [Row; 11] = [
    (17, 1, &[1], b"ok\n", 12_442),
    (18, 1, &[1], b"ok\n", 12_442),
    (19, 1, &[1], b"ok\n", 12_483),
    (30, 1, &[1], b"ok\n", 12_483),
    (31, 1, &[1], b"ok\n", 12_483),
    (32, 1, &[1], b"ok\n", 12_483),
    (33, 2, &[1, 3], b"ok\nok\n", 12_483),
    (34, 2, &[1, 3], b"ok\nok\n", 12_483),
    (35, 2, &[1, 3], b"ok\nok\n", 12_483),
    (36, 2, &[1, 3], b"ok\nok\n", 16_638),
    (38, 3, &[1, 3], b"ok\nok\nok\n", 16_638),
];

/// A script of lines that come one by one, each with its own read.
const LINES: &[u8] = b"put 0 a 1\nput 0 b 2\nget 0 a\n";

static ON_LINES: [Row; 13] = [
    (0, 0, &[], b"", 0),
    (5, 0, &[], b"", 0),
    (10, 0, &[], b"", 0),
    (11, 0, &[1], b"", 0),
    (16, 0, &[1], b"", 12_442),
    (17, 1, &[1], b"ok\n", 12_442),
    (18, 1, &[1, 2], b"ok\n", 12_442),
    (23, 1, &[1, 2], b"ok\n", 24_847),
    (24, 2, &[1, 2], b"ok\nok\n", 24_847),
    (25, 2, &[1, 2], b"ok\nok\n", 24_847),
    (26, 2, &[1, 2], b"ok\nok\n", 24_847),
    (27, 3, &[1, 2], b"ok\nok\nvalue 1\n", 24_847),
    (28, 3, &[1, 2], b"ok\nok\nvalue 1\n", 24_847),
];

/// Two puts, of ten bytes each.
const TWO: &[u8] = b"put 0 a 1\nput 0 b 2\n";

// The second piece of seven bytes has the first line's newline, and the third one the end of the second line.
static ON_PIECES: [Row; 2] = [(11, 0, &[], b"", 0), (18, 1, &[1], b"ok\n", 12_442)];

// Lines that are read at once are one batch.
static AT_ONCE: [Row; 2] = [
    (20, 0, &[1, 2], b"", 24_847),
    (21, 2, &[1, 2], b"ok\nok\n", 24_847),
];

/// Runs a script in pieces of this size, where the call of this row is refused, and looks at what the run
/// reported and said, at what lasts, and that it made no call more.
fn look_at_row(rt: &(impl Abort + AllocGlobal + Wait), script: &[u8], piece: usize, row: Row)
    requires { 0 < piece }
{
    let (refused, lines, order, said, lasting) = row;
    let run = run_in_pieces(rt, &["run", "d"], script, piece, &[refused]);
    look_at_run(rt, &run, 3, lines, said, &refused);
    look_at_order(rt, &run, order, &refused);
    look_at_calls(rt, &run, refused.saturating_add(1), &refused);
    same(rt, "lasting", lasting_len(rt, &run), lasting, &refused);
}

/// Looks at the runs of these rows.
fn look_at_rows(rt: &(impl Abort + AllocGlobal + Wait), script: &[u8], piece: usize, rows: &[Row])
    requires { 0 < piece }
{
    for row in rows {
        look_at_row(rt, script, piece, *row);
    }
}

#[test]
fn a_batch_lasts_before_it_is_answered_and_after_a_refused_call_none_is_made(rt: HostRuntime) {
    look_at_rows(&rt, SCAN, 65_536, &ON_SCAN);
    look_at_rows(&rt, CHECKPOINT, 65_536, &ON_CHECKPOINT);
    look_at_rows(&rt, LINES, 10, &ON_LINES);
    look_at_rows(&rt, TWO, 7, &ON_PIECES);
    look_at_rows(&rt, TWO, 20, &AT_ONCE);
    look_at_rows(&rt, TWO, 65_536, &AT_ONCE);
}

/// So many gets, of nine bytes each.
fn gets(rt: &(impl Abort + AllocGlobal), lines: usize) -> Vec<u8> {
    let mut script = Vec::new(rt.alloc());
    for _ in 0..lines {
        add(rt, &mut script, b"get 0 aa\n");
    }
    script
}

/// Runs so many gets, where the call of this number is refused if there is one, and looks at how many were
/// answered and how many calls that took.
fn look_at_gets(
    rt: &(impl Abort + AllocGlobal + Wait),
    lines: usize,
    refused: u64,
    answered: u64,
    calls: u64,
) {
    let case = (lines, refused);
    let run = run_in_pieces(rt, &["run", "d"], &gets(rt, lines), 1_000_000, &[refused]);
    let status = if calls > refused { 3 } else { 0 };
    look_at_status(rt, &run, status, &case);
    look_at_lines(rt, &run, answered, &case);
    same(
        rt,
        "said",
        run.said().len() as u64,
        answered.saturating_mul(5),
        &case,
    );
    look_at_calls(rt, &run, calls, &case);
}

/// How many lines there are, which call is refused, how many lines are answered, and how many calls there are:
/// eleven calls up to the script's first piece, a force and a print for each batch, the read of the script's
/// end, and the last force. 8,192 lines are two pieces, and one read more: a read that gave all that it was
/// asked for ends no batch.
static GETS: [(usize, u64, u64, u64); 9] = [
    (1_023, 100, 1_023, 15),
    (1_024, 100, 1_024, 15),
    (1_025, 100, 1_025, 17),
    (2_049, 100, 2_049, 19),
    (8_192, 100, 8_192, 30),
    // The line after 1,024 waits for a force and a print of its own.
    (1_025, 11, 0, 12),
    (1_025, 12, 0, 13),
    (1_025, 13, 1_024, 14),
    (1_025, 14, 1_024, 15),
];

#[test]
fn a_batch_has_at_most_1024_lines(rt: HostRuntime) {
    for (lines, refused, answered, calls) in &GETS {
        look_at_gets(&rt, *lines, *refused, *answered, *calls);
    }
}
