//! Scripts through the top call.

ghost use Rattle.std.specs.Prelude.{◌≡◌, ◌<◌, false};

use crate::looks::{holds, same};
use crate::pieces::PieceHost;
use crate::runs::{
    Disk, Run, add, call_with, copy_of, host_over, look_at_lines, look_at_run, look_at_status,
    no_files,
};
use std::process::Abort;
use std::sync::Wait;

/// Makes the call of these words over a host that gives its input in pieces. Answers how many calls read a page, too.
pub fn run_pieces(
    rt: &(impl Abort + AllocGlobal + Wait),
    words: &[&str],
    pieces: PieceHost,
) -> (Run, u64)
    requires { pieces.host.is_lent ≡ false }
{
    let mut pieces = pieces;
    let report = call_with(rt, words, &mut pieces);
    let PieceHost { host, reads, .. } = pieces;
    (Run::of(rt, report, host), reads)
}

/// The top call over an input in pieces of this size, where the calls of these numbers are refused.
pub fn run_in_pieces(
    rt: &(impl Abort + AllocGlobal + Wait),
    words: &[&str],
    input: &[u8],
    piece: usize,
    refused: &[u64],
) -> Run
    requires { 0 < piece }
{
    let host = host_over(rt, input, b"", no_files(rt), refused, None);
    let (run, _) = run_pieces(rt, words, PieceHost::of(host, piece));
    run
}

/// Runs a script in pieces of this size over a disk with a configuration.
pub fn run_pieces_over(
    rt: &(impl Abort + AllocGlobal + Wait),
    config: &[u8],
    script: &[u8],
    piece: usize,
    disk: Disk,
) -> Run
    requires { 0 < piece }
{
    let host = host_over(rt, script, config, disk, &[], None);
    let (run, _) = run_pieces(rt, &["run", "d"], PieceHost::of(host, piece));
    run
}

/// Runs a script in pieces of this size, and looks at how many lines were answered and at what was said.
fn answer(
    rt: &(impl Abort + AllocGlobal + Wait),
    script: &[u8],
    piece: usize,
    lines: u64,
    wanted: &[u8],
)
    requires { 0 < piece }
{
    let run = run_in_pieces(rt, &["run", "d"], script, piece, &[]);
    look_at_run(rt, &run, 0, lines, wanted, &script);
}

/// Scripts, each with its replies and with how many lines it has.
static SCRIPTS: [(&[u8], &[u8], u64); 21] = [
    (b"", b"", 0),
    (b"\n", b"error line\n", 1),
    (b"\n\n", b"error line\nerror line\n", 2),
    (b"get 0 a", b"none\n", 1),
    (b"put 0 a 1\nget 0 a\n", b"ok\nvalue 1\n", 2),
    (b"put 0 a 1\nput 0 a 2\nget 0 a", b"ok\nok\nvalue 2\n", 3),
    (b"put 0 a 1\nget 1 a\n", b"ok\nnone\n", 2),
    (b"put 15 a 1\nget 15 a\n", b"ok\nvalue 1\n", 2),
    (b"put 16 a 1\nput 00 a 1\n", b"error line\nerror line\n", 2),
    (
        b"get  0 a\n get 0 a\nget 0 a \n",
        b"error line\nerror line\nerror line\n",
        3,
    ),
    (b"get 0 a\nremove 0 a\n", b"none\nfalse\n", 2),
    (
        b"put 0 a 1\nput 0 a 1\nremove 0 a\nremove 0 a\n",
        b"ok\nok\ntrue\nfalse\n",
        4,
    ),
    (
        b"put 0 x:00ff x:\nscan 0\nscan 2\n",
        b"ok\npair x:00ff x:\nend 1\nend 0\n",
        3,
    ),
    (
        b"\nget 00 a\nget 16 a\nget  0 a\nget 0 x:4\nput 0 x: 1\n",
        b"error line\nerror line\nerror line\nerror line\nerror line\nerror line\n",
        6,
    ),
    (
        b"put 0 x:41 x:4A4b\nget 0 A\nput 0 a x:783a\nget 0 a\n",
        b"ok\nvalue JK\nok\nvalue x:783a\n",
        4,
    ),
    (
        b"put 0 b 2\nput 0 a 1\nput 1 c 3\nscan 0\n",
        b"ok\nok\nok\npair a 1\npair b 2\nend 2\n",
        4,
    ),
    (
        b"put 0 a \x00\nput 0 a 1\x7f\nput 0 \xff 1\n",
        b"error line\nerror line\nerror line\n",
        3,
    ),
    (b"put 0 a xx:31\nget 0 a\n", b"ok\nvalue xx:31\n", 2),
    (b"put 0 a 1\r\nget 0 a\n", b"error line\nnone\n", 2),
    (
        b"checkpoint\nput 0 a 1\ncheckpoint\nget 0 a\ncheckpoint",
        b"ok\nok\nok\nvalue 1\nok\n",
        5,
    ),
    (
        b"checkpoint \ncheckpoint 0\nscan 16\nremove 0\n",
        b"error line\nerror line\nerror line\nerror line\n",
        4,
    ),
];

/// Runs a script in pieces of one byte, of three, and at once.
fn answer_in_pieces(
    rt: &(impl Abort + AllocGlobal + Wait),
    script: &[u8],
    lines: u64,
    wanted: &[u8],
) {
    answer(rt, script, 1, lines, wanted);
    answer(rt, script, 3, lines, wanted);
    answer(rt, script, 65_536, lines, wanted);
}

#[test]
fn each_line_has_its_reply(rt: HostRuntime) {
    for (script, wanted, lines) in &SCRIPTS {
        answer_in_pieces(&rt, script, *lines, wanted);
    }
}

/// `put 0 k V` with so many bytes in all, the value as long as it takes, and a get of its key.
fn put_of_length(rt: &(impl Abort + AllocGlobal), length: usize) -> Vec<u8> {
    let mut script = copy_of(rt, b"put 0 k ");
    script.resize(length.max(8), b'v').expect(rt, "a value");
    add(rt, &mut script, b"\nget 0 k\n");
    script
}

/// Puts a line of so many bytes and reads its key, and looks at how the replies begin.
fn measure(rt: &(impl Abort + AllocGlobal + Wait), length: usize, piece: usize, wanted: &[u8])
    requires { 0 < piece }
{
    let script = put_of_length(rt, length);
    let run = run_in_pieces(rt, &["run", "d"], &script, piece, &[]);
    look_at_status(rt, &run, 0, &length);
    look_at_lines(rt, &run, 2, &length);
    holds(rt, "replies", run.said().starts_with(wanted), &length);
}

/// Lengths of lines, each with how the replies to it and to a get of its key begin.
static LENGTHS: [(usize, &[u8]); 5] = [
    (908, b"ok\nvalue "),
    (909, b"error line\nnone\n"),
    (4_096, b"error line\nnone\n"),
    (4_097, b"error long\nnone\n"),
    (70_000, b"error long\nnone\n"),
];

#[test]
fn lines_are_measured_to_the_byte(rt: HostRuntime) {
    for (length, wanted) in &LENGTHS {
        measure(&rt, *length, 1_000, wanted);
        measure(&rt, *length, 65_536, wanted);
    }
}

/// Runs other words, and looks at the status and at what is said, where the call of this number is refused.
fn refuse_words(
    rt: &(impl Abort + AllocGlobal + Wait),
    words: &[&str],
    refused: u64,
    status: u8,
    said: &[u8],
) {
    let run = run_in_pieces(rt, words, b"put 0 a 1\n", 100, &[refused]);
    look_at_run(rt, &run, status, 0, said, &words);
}

/// Words that are no command.
static OTHER_WORDS: [&[&str]; 33] = [
    &[],
    &["run"],
    &["run", "d", "e"],
    &["run", "-x"],
    &["run", ""],
    &["run", "--", "d"],
    &["wal"],
    &["verify", ""],
    &["verify", "-d"],
    &["Verify", "d"],
    &["go", "d"],
    &[""],
    &["", "d"],
    &["help"],
    &["help", "run"],
    &["gen"],
    &["gen", "d"],
    &["gen", "d", "0"],
    &["gen", "d", "5"],
    &["gen", "d", "01", "3"],
    &["gen", "d", "0", "3", "0"],
    &["gen", "", "0", "3"],
    &["gen", "-d", "0", "3"],
    &["run", "d", "0", "3"],
    &["gen", "d", "2147483648", "3"],
    &["gen", "d", "4294967296", "3"],
    &["gen", "d", "0", "0"],
    &["gen", "d", "0", "4000001"],
    &["gen", "d", "+0", "3"],
    &["gen", "d", "-1", "3"],
    &["gen", "d", "0", "3 "],
    &["gen", "d", "", "3"],
    &["--help"],
];

// The first call would say the fault.
#[test]
fn other_words_are_refused(rt: HostRuntime) {
    for words in &OTHER_WORDS {
        refuse_words(&rt, words, 1, 1, b"fault usage\n");
        refuse_words(&rt, words, 0, 3, b"");
    }
}

/// Runs so many empty lines, of which the first 4,000,000 are answered, and looks for this status
/// and for how the replies end.
fn run_to_the_limit(rt: &(impl Abort + AllocGlobal + Wait), lines: usize, status: u8, tail: &[u8]) {
    let script = vec![in rt.alloc(); b'\n'; lines].expect(rt, "a script");
    let run = run_in_pieces(rt, &["run", "d"], &script, 65_536, &[]);
    look_at_status(rt, &run, status, &lines);
    look_at_lines(rt, &run, 4_000_000, &lines);
    let replies = lines.saturating_mul(11) as u64;
    same(rt, "replies", run.said().len() as u64, replies, &lines);
    holds(rt, "the last reply", run.said().ends_with(tail), &lines);
}

#[test]
fn a_script_of_too_many_lines_is_answered_up_to_the_limit(rt: HostRuntime) {
    run_to_the_limit(&rt, 4_000_000, 0, b"error line\n");
    run_to_the_limit(&rt, 4_000_001, 6, b"fault long\n");
}
