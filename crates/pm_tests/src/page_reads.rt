//! How many pages are read: by an opening those that the records of its log need, and by a line those of its path.

use crate::few_frames::pages_on;
use crate::looks::holds;
use crate::pieces::PieceHost;
use crate::rows::{Digits, KEYS, add_put};
use crate::runs::{Disk, add, host_over, look_at_said, look_at_status, no_files, run_configured};
use crate::scripts::run_pieces;
use pm_disk_mem::Pick;
use std::process::Abort;
use std::sync::Wait;

/// Two partitions over 256 page frames.
const CONFIG: &[u8] = b"{\"partitions\": 2, \"page_size\": 1024, \"workers\": 1, \"frames\": 256}";

/// The script that puts 1,000 rows, makes a checkpoint, and goes on with these lines.
fn script_of(rt: &(impl Abort + AllocGlobal), then: &[u8]) -> Vec<u8> {
    let mut script = Vec::new(rt.alloc());
    for row in 0..KEYS {
        let value = Digits {
            number: 1,
            width: 40,
        };
        add_put(rt, &mut script, row, value);
    }
    add(rt, &mut script, b"checkpoint\n");
    add(rt, &mut script, then);
    script
}

/// What a power failure leaves after that.
fn store(rt: &(impl Abort + AllocGlobal + Wait), then: &[u8]) -> Disk {
    let run = run_configured(rt, CONFIG, &script_of(rt, then), no_files(rt));
    look_at_status(rt, &run, 0, &"store");
    let disk = run.crashed(rt, Pick::Lost);
    holds(rt, "many pages", pages_on(&disk) > 150, &"store");
    disk
}

/// Runs a script over a disk, looks at what is said, and that so many calls read a page, at least and at most.
fn look_at_reads(
    rt: &(impl Abort + AllocGlobal + Wait),
    script: &[u8],
    disk: Disk,
    said: &[u8],
    bounds: (u64, u64),
) {
    let host = host_over(rt, script, CONFIG, disk, &[], None);
    let (run, reads) = run_pieces(rt, &["run", "d"], PieceHost::of(host, 65_536));
    look_at_status(rt, &run, 0, &script);
    look_at_said(rt, &run, said, &script);
    let (least, most) = bounds;
    let is_within = least <= reads && reads <= most;
    holds(rt, "reads of pages", is_within, &(script, reads));
}

/// What a row has.
const VALUE: &[u8] = b"value v0000000000000000000000000000000000000001\n";

/// Scripts over the store after a checkpoint, what they say, and how many pages are read at least and at most. Each
/// partition has about 500 rows. A page of an index has at most 13 items, and but for the root at least 6, so that it has
/// three levels or four: a get reads the first page, these, and the page of its row.
static SCRIPTS: [(&[u8], &[u8], u64, u64); 7] = [
    (b"", b"", 0, 0),
    (b"\n", b"error line\n", 0, 0),
    (b"checkpoint\n", b"ok\n", 0, 0),
    (b"get 0 k500\n", VALUE, 5, 6),
    (b"get 0 none\n", b"none\n", 4, 5),
    // A page that is in a frame isn't read again.
    (
        b"remove 0 none\nremove 0 none\nget 0 none\n",
        b"false\nfalse\nnone\n",
        4,
        5,
    ),
    // A row that gets shorter goes to another page: both are chained with others.
    (b"put 0 k500 2\nget 0 k500\n", b"ok\nvalue 2\n", 5, 12),
];

#[test]
fn only_the_pages_that_a_line_needs_are_read(rt: HostRuntime) {
    for (script, said, least, most) in &SCRIPTS {
        look_at_reads(&rt, script, store(&rt, b""), said, (*least, *most));
    }
}

/// Lines after the checkpoint, and how many pages an opening reads at least and at most to apply their records again.
static RECORDS: [(&[u8], u64, u64); 4] = [
    (b"get 0 k500\nremove 0 none\nscan 1\n", 0, 0),
    (b"put 0 k500 2\n", 5, 12),
    (b"put 0 k500 2\nput 0 k500 3\nremove 0 k500\n", 5, 14),
    (b"put 0 a 2\nput 0 b 2\nput 0 a 3\nput 0 b 3\n", 5, 24),
];

#[test]
fn an_opening_reads_only_the_pages_that_its_records_need(rt: HostRuntime) {
    for (records, least, most) in &RECORDS {
        look_at_reads(&rt, b"", store(&rt, records), b"", (*least, *most));
    }
}
