//! Pages that can't be used, which lines find: the batches before are answered, and what was acknowledged stays.

ghost use Rattle.std.specs.Prelude.{◌<◌};

use crate::checkpoints::{Damage, OTHER_PAGES, PAGES, make_damage};
use crate::crashes::CONFIG;
use crate::runs::{
    Disk, Run, add, call_over, copy_of, look_at_lines, look_at_reply, look_at_status, no_files,
    run_configured,
};
use crate::scripts::run_pieces_over;
use pm_disk_mem::Pick;
use std::process::Abort;
use std::sync::Wait;

/// A store of a row in each of two partitions, of three pages each.
fn store(rt: &(impl Abort + AllocGlobal + Wait)) -> Run {
    let script = b"put 0 a 1\nput 0 b 2\ncheckpoint\n";
    let run = run_configured(rt, CONFIG, script, no_files(rt));
    look_at_status(rt, &run, 0, &"store");
    run
}

/// Runs a script in pieces of this size over a disk, and looks at how it ends, at how many lines are answered, and
/// at what is said.
fn look_at_pieces(
    rt: &(impl Abort + AllocGlobal + Wait),
    script: &[u8],
    piece: usize,
    disk: Disk,
    wanted: (u8, u64, &[u8]),
) -> Run
    requires { 0 < piece }
{
    let run = run_pieces_over(rt, CONFIG, script, piece, disk);
    let (status, lines, said) = wanted;
    look_at_reply(rt, &run, status, said, &(script, piece));
    look_at_lines(rt, &run, lines, &(script, piece));
    run
}

/// A script that is read in pieces of this size, how it ends, how many lines are answered, and what is said.
type Row = (&'static [u8], usize, u8, u64, &'static [u8]);

/// Scripts over the store whose first partition, which has the key `a`, has a bad first page.
static SCRIPTS: [Row; 13] = [
    // No line needs it.
    (b"", 8, 0, 0, b""),
    (b"checkpoint\n", 8, 0, 1, b"ok\n"),
    (b"\nget 0 b\n", 1, 0, 2, b"error line\nvalue 2\n"),
    (
        b"get 0 b\nput 0 b 3\nget 0 b\n",
        99,
        0,
        3,
        b"value 2\nok\nvalue 3\n",
    ),
    (
        b"put 0 b 3\ncheckpoint\nget 0 b\n",
        99,
        0,
        3,
        b"ok\nok\nvalue 3\n",
    ),
    // A line needs it that is read after others, which are answered.
    (b"get 0 a\n", 8, 5, 0, b"fault page 0001000000000000\n"),
    (
        b"get 0 b\nget 0 b\nget 0 a\nget 0 b\n",
        8,
        5,
        2,
        b"value 2\nvalue 2\nfault page 0001000000000000\n",
    ),
    (
        b"put 0 b 3\nput 0 a 4\nget 0 b\n",
        10,
        5,
        1,
        b"ok\nfault page 0001000000000000\n",
    ),
    (
        b"get 0 b\nremove 0 a\n",
        8,
        5,
        1,
        b"value 2\nfault page 0001000000000000\n",
    ),
    (
        b"get 0 b\nscan 0\n",
        99,
        5,
        1,
        b"value 2\nfault page 0001000000000000\n",
    ),
    (
        b"get 0 b\ncheckpoint\nget 0 a\n",
        99,
        5,
        2,
        b"value 2\nok\nfault page 0001000000000000\n",
    ),
    // The lines of one batch are answered together, or not at all.
    (
        b"get 0 b\nget 0 a\n",
        99,
        5,
        0,
        b"fault page 0001000000000000\n",
    ),
    (
        b"put 0 b 3\nget 0 a\n",
        99,
        5,
        0,
        b"fault page 0001000000000000\n",
    ),
];

/// Looks at a script over a disk.
fn look_at_script(rt: &(impl Abort + AllocGlobal + Wait), row: Row, disk: Disk) {
    let (script, piece, status, lines, said) = row;
    look_at_pieces(rt, script, piece.max(1), disk, (status, lines, said));
}

#[test]
fn a_bad_page_is_found_by_the_line_that_needs_it(rt: HostRuntime) {
    let left = store(&rt);
    for row in &SCRIPTS {
        let disk = make_damage(&rt, &left.disk(&rt), PAGES, Damage::Turned(8, 8));
        look_at_script(&rt, *row, disk);
    }
}

/// Damages of the file of a partition, each with the first page that is bad, which is named where a line reads the
/// partition's row: the first page, the page of the index, or the page that has the row.
static DAMAGES: [(Damage, u8); 8] = [
    (Damage::Turned(8, 8), 0),
    (Damage::Overwritten(0, 8_192), 0),
    (Damage::Filled(24_576), 0),
    (Damage::Turned(16_392, 8), 2),
    (Damage::Cut(16_384), 2),
    (Damage::Cut(8_192), 1),
    (Damage::Turned(8_200, 8), 1),
    (Damage::Overwritten(8_192, 16_384), 1),
];

/// The file of a partition, a line that reads the row of the other one, its reply, and that line before one that reads
/// this partition's row.
type Part = (&'static str, &'static [u8], &'static [u8], &'static [u8]);

/// The store's partitions.
static PARTS: [Part; 2] = [
    (PAGES, b"get 0 b\n", b"value 2\n", b"get 0 b\nget 0 a\n"),
    (
        OTHER_PAGES,
        b"get 0 a\n",
        b"value 1\n",
        b"get 0 a\nget 0 b\n",
    ),
];

/// What is said of a bad page of a partition, after a reply.
fn said_of(rt: &(impl Abort + AllocGlobal), reply: &[u8], part: usize, page: u8) -> Vec<u8> {
    let fault = format!(in rt.alloc(); "fault page 0001000{part}0000000{page}\n");
    let mut said = copy_of(rt, reply);
    add(rt, &mut said, fault.expect(rt, "text").as_bytes());
    said
}

/// Looks at a store of which the file of this partition is damaged: the row of the other partition is read, and the bad
/// page is found by the line that reads this one's.
fn look_at_damage(
    rt: &(impl Abort + AllocGlobal + Wait),
    left: &Run,
    number: usize,
    part: Part,
    how: Damage,
    page: u8,
) {
    let (file, other, reply, script) = part;
    let disk = make_damage(rt, &left.disk(rt), file, how);
    look_at_pieces(rt, other, 8, disk, (0, 1, reply));
    let said = said_of(rt, reply, number, page);
    let disk = make_damage(rt, &left.disk(rt), file, how);
    look_at_pieces(rt, script, 8, disk, (5, 1, &said));
}

/// Looks at a damage of the file of each partition.
fn look_at_each_part(rt: &(impl Abort + AllocGlobal + Wait), left: &Run, how: Damage, page: u8) {
    for (number, part) in PARTS.iter().enumerate() {
        look_at_damage(rt, left, number, *part, how, page);
    }
}

#[test]
fn each_bad_page_of_a_row_is_named_and_the_other_partition_is_read(rt: HostRuntime) {
    let left = store(&rt);
    for (how, page) in &DAMAGES {
        look_at_each_part(&rt, &left, *how, *page);
    }
}

/// Runs a script over the store whose first partition is damaged: its put in the other one is acknowledged, and then
/// the bad page is found.
fn run_to_bad_page(rt: &(impl Abort + AllocGlobal + Wait)) -> Run {
    let left = store(rt);
    let disk = make_damage(rt, &left.disk(rt), PAGES, Damage::Turned(8, 8));
    let script = b"put 0 b 3\nget 0 a\n";
    let wanted = (5, 1, b"ok\nfault page 0001000000000000\n".as_slice());
    look_at_pieces(rt, script, 10, disk, wanted)
}

#[test]
fn what_was_acknowledged_before_a_bad_page_stays(rt: HostRuntime) {
    let run = run_to_bad_page(&rt);
    for pick in &[Pick::Kept, Pick::Lost, Pick::Fill(238)] {
        let again = run_configured(&rt, CONFIG, b"get 0 b\n", run.crashed(&rt, *pick));
        look_at_reply(&rt, &again, 0, b"value 3\n", pick);
        let checked = call_over(&rt, "verify", b"", run.crashed(&rt, *pick));
        look_at_reply(&rt, &checked, 5, b"fault page 0001000000000000\n", pick);
    }
}
