//! Stores with checkpoints: what a restart reads of them, what the commands print, and what comes of damaged
//! files.

use crate::crashes::CONFIG;
use crate::looks::{holds, same_bytes};
use crate::runs::{
    Disk, Run, SEGMENT, add, call_over, copy_of, file_bytes, has_file, look_at_reply, look_at_said,
    look_at_status, no_files, put_file, run_anew, run_configured,
};
use pm_disk_mem::Pick;
use std::process::Abort;
use std::sync::Wait;

/// The files of a store of one segment.
static FILES: [&str; 5] = [SEGMENT, STARTS, ENDS, PAGES, OTHER_PAGES];

/// The file of start markers.
pub const STARTS: &str = "cp.start";

/// The file of end markers.
const ENDS: &str = "cp.end";

/// The file of the first partition's pages.
pub const PAGES: &str = "part-000.pages";

/// The file of the second partition's pages.
pub const OTHER_PAGES: &str = "part-001.pages";

/// Looks at what a command prints over a disk.
fn look(rt: &(impl Abort + AllocGlobal + Wait), word: &str, disk: Disk, said: &[u8]) {
    let run = call_over(rt, word, b"", disk);
    look_at_reply(rt, &run, 0, said, &word);
}

/// Scripts that are run one after another over pages of 8,192 bytes in two partitions and segments of 65,536
/// bytes, each with what it says, what of the log is listed then, and what a check of the store counts. The
/// first one puts two rows in different partitions and changes each once: the last page that is logged doesn't
/// fit into the first segment, and the second checkpoint begins behind it.
static RUNS: [(&[u8], &[u8], &[u8], &[u8]); 4] = [
    (
        b"put 0 a 1\nput 0 b 2\ncheckpoint\nput 0 a 3\nput 0 b 4\ncheckpoint\n",
        b"ok\nok\nok\nok\nok\nok\n",
        b"end 2:8262\n",
        b"pages 6 rows 2 records 0\n",
    ),
    // Nothing is replayed.
    (
        b"get 0 a\nget 0 b\n",
        b"value 3\nvalue 4\n",
        b"2:8262 restart\nend 2:8299\n",
        b"pages 6 rows 2 records 0\n",
    ),
    // A page is logged whole at its first change, and then by the row of six bytes that is written over.
    (
        b"put 0 a 5\nput 0 a 6\n",
        b"ok\nok\n",
        b"2:8262 restart\n2:8299 restart\n2:8336 put 0 a 5\n2:8366 snapshot 0001000000000001\n\
2:16587 put 0 a 6\n2:16617 delta 0001000000000001 1\nend 2:16657\n",
        b"pages 6 rows 2 records 2\n",
    ),
    // The replay logs the page again.
    (
        b"get 0 a\ncheckpoint\nget 0 b\n",
        b"value 6\nok\nvalue 4\n",
        b"end 2:24996\n",
        b"pages 6 rows 2 records 0\n",
    ),
];

/// Runs a script over a disk, and looks at what it says, at what is listed then and at what is counted. Answers
/// the disk that a power failure leaves, without the log's first segment.
fn run_next(
    rt: &(impl Abort + AllocGlobal + Wait),
    row: (&[u8], &[u8], &[u8], &[u8]),
    disk: Disk,
) -> Disk {
    let (script, said, listed, counted) = row;
    let run = run_configured(rt, CONFIG, script, disk);
    look_at_said(rt, &run, said, &script);
    look(rt, "wal", run.disk(rt), listed);
    look(rt, "verify", run.disk(rt), counted);
    let left = run.crashed(rt, Pick::Lost);
    let is_gone = !has_file(&left, SEGMENT);
    holds(rt, "the first segment is gone", is_gone, &script);
    left
}

#[test]
fn a_checkpoint_leaves_nothing_to_replay(rt: HostRuntime) {
    let mut disk = no_files(&rt);
    for row in &RUNS {
        disk = run_next(&rt, *row, disk);
    }
}

/// Keys, which are of different partitions of 64.
const KEYS: &[u8] = b"abcdefghijk";

/// Configurations, how many of the keys are put in one batch and what follows there, and whether a checkpoint
/// is made. A put of a key logs three pages, in 12,405 bytes with its own record.
static TRIGGERS: [(&[u8], usize, &[u8], bool); 6] = [
    (
        b"{\"partitions\":64,\"checkpoint_bytes\":65536}",
        5,
        b"",
        false,
    ),
    (
        b"{\"partitions\":64,\"checkpoint_bytes\":65536}",
        6,
        b"",
        true,
    ),
    // Of 64 frames 5 percent are more than 3 pages, and 4 percent are less.
    (
        b"{\"partitions\":64,\"workers\":1,\"frames\":64,\"dirty_percent\":5}",
        1,
        b"",
        false,
    ),
    (
        b"{\"partitions\":64,\"workers\":1,\"frames\":64,\"dirty_percent\":4}",
        1,
        b"",
        true,
    ),
    // The line after 33 pages makes one before, since it may need 32 frames.
    (
        b"{\"partitions\":64,\"workers\":1,\"frames\":64,\"dirty_percent\":100}",
        11,
        b"",
        false,
    ),
    (
        b"{\"partitions\":64,\"workers\":1,\"frames\":64,\"dirty_percent\":100}",
        11,
        b"get 0 a\n",
        true,
    ),
];

/// The script that puts so many of the keys.
fn puts_of(rt: &(impl Abort + AllocGlobal), puts: usize) -> Vec<u8> {
    let mut script = Vec::new(rt.alloc());
    for key in KEYS.iter().take(puts) {
        add(
            rt,
            &mut script,
            &[b'p', b'u', b't', b' ', b'0', b' ', *key, b' ', b'1', b'\n'],
        );
    }
    script
}

/// Whether a run that puts so many of the keys makes a checkpoint.
fn is_checkpointed(
    rt: &(impl Abort + AllocGlobal + Wait),
    config: &[u8],
    puts: usize,
    rest: &[u8],
) -> bool {
    let mut script = puts_of(rt, puts);
    add(rt, &mut script, rest);
    let run = run_configured(rt, config, &script, no_files(rt));
    look_at_status(rt, &run, 0, &config);
    has_file(&run.disk(rt), STARTS)
}

#[test]
fn a_checkpoint_is_made_where_one_is_due(rt: HostRuntime) {
    for (config, puts, rest, made) in &TRIGGERS {
        let is_made = is_checkpointed(&rt, config, *puts, rest);
        holds(
            &rt,
            "a checkpoint where one is due",
            is_made == *made,
            config,
        );
    }
}

/// What is wrong with a file.
#[derive(Clone, Copy)]
pub enum Damage {
    /// These bits of the byte at this offset are turned.
    Turned(usize, u8),
    /// It has so many bytes, which are all 238.
    Filled(usize),
    /// Its bytes from this offset on, up to another one, are 238.
    Overwritten(usize, usize),
    /// It has so many bytes.
    Cut(usize),
    /// It is absent.
    Gone,
}

/// Turns these bits of the byte at this offset.
fn turn(bytes: &mut [u8], at: usize, bits: u8) {
    if let Some(byte) = bytes.get_mut(at) {
        *byte ^= bits;
    }
}

/// Makes the bytes from this offset on, up to another one, 238.
fn overwrite(bytes: &mut [u8], from: usize, to: usize) {
    for at in from..to {
        if let Some(byte) = bytes.get_mut(at) {
            *byte = 238;
        }
    }
}

/// So many bytes, which are all 238.
fn filled(rt: &(impl Abort + AllocGlobal), len: usize) -> Vec<u8> {
    vec![in rt.alloc(); 238; len].expect(rt, "a file")
}

/// A file's bytes that are damaged, none where it is absent.
fn damaged(rt: &(impl Abort + AllocGlobal), bytes: &[u8], damage: Damage) -> Option<Vec<u8>> {
    let mut left = copy_of(rt, bytes);
    match damage {
        Damage::Turned(at, bits) => turn(&mut left, at, bits),
        Damage::Filled(len) => left = filled(rt, len),
        Damage::Overwritten(from, to) => overwrite(&mut left, from, to),
        Damage::Cut(len) => left.truncate(len),
        Damage::Gone => return None,
    }
    Some(left)
}

/// Copies a file to another disk, where it is there.
fn copy_file(rt: &impl Abort, from: &Disk, to: &mut Disk, name: &str) {
    if has_file(from, name) {
        put_file(rt, to, name, file_bytes(from, name));
    }
}

/// A disk without this one of the files.
fn without(rt: &(impl Abort + AllocGlobal), disk: &Disk, file: &str) -> Disk {
    let mut left = no_files(rt);
    for name in &FILES {
        if *name != file {
            copy_file(rt, disk, &mut left, name);
        }
    }
    left
}

/// A disk of which one file is damaged.
pub fn make_damage(rt: &(impl Abort + AllocGlobal), disk: &Disk, file: &str, how: Damage) -> Disk {
    let mut left = without(rt, disk, file);
    if let Some(bytes) = damaged(rt, file_bytes(disk, file), how) {
        put_file(rt, &mut left, file, &bytes);
    }
    left
}

/// A script over the default pages of 4,096 bytes. The log has a RESTART of 37 bytes, the put of 30 and three
/// pages of 4,125; the first checkpoint's begin, of 41 bytes, at 12,442; the second put and the page that it
/// changes; the second checkpoint's begin at 16,638; and the third put and its page. The markers of the first
/// checkpoint stand in the slots at 64, those of the second one in the slots at 0.
const SCRIPT: &[u8] = b"put 0 a 1\ncheckpoint\nput 0 a 2\ncheckpoint\nput 0 a 3\n";

/// The run of that script.
fn run_whole(rt: &(impl Abort + AllocGlobal + Wait)) -> Run {
    run_anew(rt, SCRIPT)
}

/// The disk that a run left, of which files are damaged.
fn disk_damaged(rt: &(impl Abort + AllocGlobal), left: &Run, damages: &[(&str, Damage)]) -> Disk {
    let mut disk = left.disk(rt);
    for (file, how) in damages {
        disk = make_damage(rt, &disk, file, *how);
    }
    disk
}

/// Looks at what a command reports and prints over the store that a run left, of which files are damaged. Answers
/// what it leaves after a power failure.
fn look_damaged(
    rt: &(impl Abort + AllocGlobal + Wait),
    left: &Run,
    damages: &[(&str, Damage)],
    word: &str,
    status: u8,
    said: &[u8],
) -> Disk {
    let run = call_over(rt, word, b"get 0 a\n", disk_damaged(rt, left, damages));
    look_at_reply(rt, &run, status, said, &word);
    run.crashed(rt, Pick::Lost)
}

/// What is listed of the log from the first checkpoint on.
const BEGUN: &[u8] = b"1:12483 put 0 a 2\n1:12513 snapshot 0001000000000001\n1:16638 begin 2\n\
1:16679 put 0 a 3\n1:16709 snapshot 0001000000000001\nend 1:20834\n";

/// Looks at a store whose second start marker has another byte: the checkpoint before counts.
fn look_at_start(rt: &(impl Abort + AllocGlobal + Wait), left: &Run, at: usize) {
    let start = [(STARTS, Damage::Turned(at, 16))];
    look_damaged(rt, left, &start, "run", 0, b"value 3\n");
    look_damaged(rt, left, &start, "wal", 0, BEGUN);
}

/// Looks that a file is as the run left it.
fn look_at_file(rt: &(impl Abort + AllocGlobal), left: &Run, ended: &Disk, file: &str, at: usize) {
    let whole = left.disk(rt);
    holds(rt, "the file is there", has_file(ended, file), &file);
    same_bytes(
        rt,
        file,
        file_bytes(ended, file),
        file_bytes(&whole, file),
        &at,
    );
}

/// Looks at a store whose second end marker has another byte: the checkpoint is ended from the log. Of its pages,
/// which is one, a half is torn besides.
fn look_at_end(rt: &(impl Abort + AllocGlobal + Wait), left: &Run, at: usize) {
    let end = [
        (ENDS, Damage::Turned(at, 16)),
        (PAGES, Damage::Overwritten(4_096, 6_144)),
    ];
    look_damaged(rt, left, &end, "verify", 0, b"pages 3 rows 1 records 1\n");
    let ended = look_damaged(rt, left, &end, "run", 0, b"value 3\n");
    look_at_file(rt, left, &ended, ENDS, at);
    look_at_file(rt, left, &ended, PAGES, at);
}

/// A byte of each field of a slot, and of its sum.
static SLOT_BYTES: [usize; 13] = [0, 8, 16, 20, 28, 32, 36, 38, 40, 44, 48, 56, 63];

// A start marker with another byte is none, so that the checkpoint before counts. One that has no end marker is
// ended from the log.
#[test]
fn a_marker_with_another_byte_is_none(rt: HostRuntime) {
    let left = run_whole(&rt);
    for at in &SLOT_BYTES {
        look_at_start(&rt, &left, *at);
        look_at_end(&rt, &left, *at);
    }
}

/// What is printed where the replay place is past the log's end.
const REPLAY: &[u8] = b"fault record 1:16679\n";

/// What is printed of the first partition's meta page, of its last page, and of the second partition's.
const META: &[u8] = b"fault page 0001000000000000\n";

const LAST: &[u8] = b"fault page 0001000000000002\n";

const OTHER: &[u8] = b"fault page 0001000100000000\n";

/// A damage of one file, each with the command that is called then, its status, and what it prints.
static DAMAGES: [(&str, Damage, &str, u8, &[u8]); 11] = [
    // The replay place is past the log's end.
    (SEGMENT, Damage::Gone, "run", 5, REPLAY),
    (SEGMENT, Damage::Cut(16_678), "run", 5, REPLAY),
    (SEGMENT, Damage::Cut(16_679), "run", 0, b"value 2\n"),
    // The kind of a page, its file's end, and how many rows the partition has.
    (PAGES, Damage::Turned(8, 8), "run", 5, META),
    (PAGES, Damage::Turned(8, 8), "verify", 5, META),
    (PAGES, Damage::Cut(8_192), "run", 5, LAST),
    (PAGES, Damage::Cut(8_192), "verify", 5, LAST),
    (PAGES, Damage::Turned(168, 3), "verify", 5, META),
    // A file of a partition without rows, which has a page or a part of one. No line reads it.
    (OTHER_PAGES, Damage::Filled(4_096), "run", 0, b"value 3\n"),
    (OTHER_PAGES, Damage::Filled(4_096), "verify", 5, OTHER),
    (OTHER_PAGES, Damage::Filled(4_095), "run", 0, b"value 3\n"),
];

#[test]
fn damaged_files_are_named(rt: HostRuntime) {
    let left = run_whole(&rt);
    for (file, how, word, status, said) in &DAMAGES {
        look_damaged(&rt, &left, &[(*file, *how)], word, *status, said);
    }
}

/// Damages of all files but the log's: none of them tells anything.
static JUNK: [(&str, Damage); 5] = [
    (STARTS, Damage::Filled(128)),
    (ENDS, Damage::Filled(128)),
    (PAGES, Damage::Filled(16_384)),
    (OTHER_PAGES, Damage::Filled(4_096)),
    (SEGMENT, Damage::Cut(20_834)),
];

/// The same, and the log is gone.
static JUNK_ALONE: [(&str, Damage); 5] = [
    (STARTS, Damage::Filled(128)),
    (ENDS, Damage::Filled(128)),
    (PAGES, Damage::Filled(16_384)),
    (OTHER_PAGES, Damage::Filled(4_096)),
    (SEGMENT, Damage::Gone),
];

// The log is read from its begin then, and the files of pages aren't.
#[test]
fn files_without_a_start_marker_tell_nothing(rt: HostRuntime) {
    let left = run_whole(&rt);
    look_damaged(&rt, &left, &JUNK, "run", 0, b"value 3\n");
    look_damaged(
        &rt,
        &left,
        &JUNK,
        "verify",
        0,
        b"pages 0 rows 0 records 3\n",
    );
    look_damaged(&rt, &left, &JUNK_ALONE, "run", 0, b"none\n");
    look_damaged(&rt, &left, &JUNK_ALONE, "wal", 0, b"end 1:0\n");
}
