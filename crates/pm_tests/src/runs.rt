//! Runs of the top call over a host in memory.

ghost use Rattle.std.specs.Prelude.{◌≡◌, false};

use crate::looks::{same, same_bytes, same_lines};
use pm_disk::Host;
use pm_disk_mem::{MemDisk, MemHost, Pick};
use pm_frame::sum;
use pm_top::{Report, top};
use std::fmt::Debug;
use std::process::Abort;
use std::sync::Wait;

/// The file of the log's first segment.
pub const SEGMENT: &str = "wal-0000000000000001.seg";

/// The files of the log's first segments.
pub static SEGMENTS: [&str; 4] = [
    SEGMENT,
    "wal-0000000000000002.seg",
    "wal-0000000000000003.seg",
    "wal-0000000000000004.seg",
];

/// The frame of the RESTART that a run appends to an empty log: the store has pages of 4,096 bytes,
/// 4 partitions of at most 400,000 rows, files of version 1 and segments of 64 MiB. Its sum is that
/// of Python's zlib.
pub static FIRST_FRAME: [u8; 37] = [
    5, 1, 0, 0, 0, 0, 0, 0, 0, 0, 0, 0, 0, 16, 0, 0, 0, 0, 16, 0, 0, 4, 0, 1, 0, 128, 26, 6, 0, 0,
    0, 0, 4, 109, 233, 95, 111,
];

/// How many bytes the records have by which a partition's first put logs its three pages whole: each has a
/// frame of 21 bytes, a page's name of 8, and the page of 4,096.
pub const FIRST_PAGES: usize = 3 * 4_125;

/// The payload of `put 0 a 1`.
pub const PUT: &[u8] = &[1, 0, 1, 1, 0, 0, 0, b'a', b'1'];

/// The payload of `put 0 b 2`.
pub const OTHER_PUT: &[u8] = &[1, 0, 1, 1, 0, 0, 0, b'b', b'2'];

/// The payload of a delta: byte 32 of page 5 of partition 2 is 7 now.
pub const DELTA_OF_A_PAGE: &[u8] = &[5, 0, 0, 0, 2, 0, 1, 0, 1, 32, 0, 1, 0, 7];

/// The payload of the begin of checkpoint 3, with replay place 2:517.
pub const CP_BEGIN_3: &[u8] = &[3, 0, 0, 0, 0, 0, 0, 0, 2, 0, 0, 0, 0, 0, 0, 0, 5, 2, 0, 0];

/// A disk in a box, whose drop is a call: that of the disk itself would stand in each function that has one.
pub type Disk = Box<MemDisk>;

/// What a run reported, and the host that it ran over, which is in a box as a disk is.
#[derive(Drop)]
pub struct Run {
    pub report: Report,
    pub host: Box<MemHost>,
}

impl Run {
    /// What a run reported, and its host.
    pub fn of(rt: &(impl Abort + AllocGlobal), report: Report, host: MemHost) -> Run {
        let host = Box::new(rt.alloc(), host).expect(rt, "a host");
        Run { report, host }
    }

    /// What the run said.
    pub fn said(&self) -> &[u8] {
        self.host.said()
    }

    /// How many calls it made that can fail.
    pub fn calls(&self) -> u64 {
        self.host.calls()
    }

    /// The disk that this crash leaves, right after the run.
    pub fn crashed(&self, rt: &(impl Abort + AllocGlobal), pick: Pick) -> Disk {
        left_of(rt, &self.host, pick)
    }

    /// The disk that the run left, with all that is pending.
    pub fn disk(&self, rt: &(impl Abort + AllocGlobal)) -> Disk {
        self.crashed(rt, Pick::Kept)
    }
}

/// A disk in a box.
fn boxed(rt: &(impl Abort + AllocGlobal), disk: MemDisk) -> Disk {
    Box::new(rt.alloc(), disk).expect(rt, "a disk")
}

/// The disk that this crash leaves of a host.
pub fn left_of(rt: &(impl Abort + AllocGlobal), host: &MemHost, pick: Pick) -> Disk {
    boxed(rt, host.image(rt.alloc(), pick).expect(rt, "an image"))
}

/// A disk without a file.
pub fn no_files(rt: &(impl Abort + AllocGlobal)) -> Disk {
    boxed(rt, MemDisk::empty(rt.alloc()))
}

/// Looks at the status of a run.
pub fn look_at_status(rt: &impl Abort, run: &Run, status: u8, case: &impl Debug) {
    same(
        rt,
        "status",
        u64::from(run.report.status),
        u64::from(status),
        case,
    );
}

/// Looks at how many lines a run has answered.
pub fn look_at_lines(rt: &impl Abort, run: &Run, lines: u64, case: &impl Debug) {
    same(rt, "lines", run.report.lines, lines, case);
}

/// Looks at what a run said.
pub fn look_at_said(rt: &impl Abort, run: &Run, said: &[u8], case: &impl Debug) {
    same_bytes(rt, "said", run.said(), said, case);
}

/// Looks at the status of a run, and at what it said.
pub fn look_at_reply(rt: &impl Abort, run: &Run, status: u8, said: &[u8], case: &impl Debug) {
    look_at_status(rt, run, status, case);
    look_at_said(rt, run, said, case);
}

/// Looks at the status of a run, at how many lines it has answered, and at what it said.
pub fn look_at_run(
    rt: &impl Abort,
    run: &Run,
    status: u8,
    lines: u64,
    said: &[u8],
    case: &impl Debug,
) {
    look_at_status(rt, run, status, case);
    look_at_lines(rt, run, lines, case);
    look_at_said(rt, run, said, case);
}

/// Looks at the numbers of the lines that a run has accepted.
pub fn look_at_order(rt: &impl Abort, run: &Run, order: &[u32], case: &impl Debug) {
    same_lines(rt, run.report.order.as_slice(), order, case);
}

/// Looks at how many calls a run has made that can fail.
pub fn look_at_calls(rt: &impl Abort, run: &Run, calls: u64, case: &impl Debug) {
    same(rt, "calls", run.calls(), calls, case);
}

/// Puts a word after these.
fn push_word(rt: &(impl Abort + AllocGlobal), words: &mut Vec<String>, word: &str) {
    let owned = String::from_str(rt.alloc(), word).expect(rt, "a word");
    words.push(owned).expect(rt, "a word");
}

/// Owned words.
fn owned(rt: &(impl Abort + AllocGlobal), words: &[&str]) -> Vec<String> {
    let mut owned = Vec::new(rt.alloc());
    for word in words {
        push_word(rt, &mut owned, word);
    }
    owned
}

/// What the top call reports that is made with these words.
pub fn call_with<H: Host>(
    rt: &(impl Abort + AllocGlobal + Wait),
    words: &[&str],
    host: &mut H,
) -> Report
    requires { (H.state host.old).access.is_lent ≡ false }
{
    let words = owned(rt, words);
    top(rt, &words, host)
}

/// A host over a disk, beside this input and this configuration. The calls of these numbers are refused, and
/// from the stop on all.
pub fn host_over(
    rt: &(impl Abort + AllocGlobal),
    input: &[u8],
    config: &[u8],
    disk: Disk,
    refused: &[u64],
    stop: Option<u64>,
) -> MemHost
    ensures { result.is_lent ≡ false }
{
    let disk = Box::into_inner(disk);
    MemHost::new(rt.alloc(), input, config, disk, refused, stop).expect(rt, "a host")
}

/// Makes the call of these words over a host.
pub fn run_host(rt: &(impl Abort + AllocGlobal + Wait), words: &[&str], host: MemHost) -> Run
    requires { host.is_lent ≡ false }
{
    let mut host = host;
    let report = call_with(rt, words, &mut host);
    Run::of(rt, report, host)
}

/// Runs a script over a disk with a configuration, up to a stop.
pub fn run_until(
    rt: &(impl Abort + AllocGlobal + Wait),
    config: &[u8],
    script: &[u8],
    disk: Disk,
    stop: Option<u64>,
) -> Run {
    run_host(
        rt,
        &["run", "d"],
        host_over(rt, script, config, disk, &[], stop),
    )
}

/// Runs a script over a disk with a configuration.
pub fn run_configured(
    rt: &(impl Abort + AllocGlobal + Wait),
    config: &[u8],
    script: &[u8],
    disk: Disk,
) -> Run {
    run_until(rt, config, script, disk, None)
}

/// Makes the call that this word names over a disk, beside this input.
pub fn call_over(
    rt: &(impl Abort + AllocGlobal + Wait),
    word: &str,
    input: &[u8],
    disk: Disk,
) -> Run {
    run_host(rt, &[word, "d"], host_over(rt, input, b"", disk, &[], None))
}

/// Runs a script over a disk.
pub fn run_over(rt: &(impl Abort + AllocGlobal + Wait), script: &[u8], disk: Disk) -> Run {
    call_over(rt, "run", script, disk)
}

/// Runs a script over an empty disk.
pub fn run_anew(rt: &(impl Abort + AllocGlobal + Wait), script: &[u8]) -> Run {
    run_over(rt, script, no_files(rt))
}

/// The log's bytes after a script over an empty disk.
pub fn log_after(rt: &(impl Abort + AllocGlobal + Wait), script: &[u8]) -> Vec<u8> {
    log_left(rt, &run_anew(rt, script), Pick::Kept)
}

/// The bytes of a file, none where it isn't there.
pub fn file_bytes<'a>(disk: &'a Disk, name: &str) -> &'a [u8] {
    disk.file(name).unwrap_or(b"")
}

/// Whether a file is there.
pub fn has_file(disk: &Disk, name: &str) -> bool {
    disk.file(name).is_some()
}

/// Puts a file on a disk.
pub fn put_file(rt: &impl Abort, disk: &mut Disk, name: &str, bytes: &[u8]) {
    disk.put_file(name, bytes).expect(rt, "a file");
}

/// How many bytes the log has on a disk.
pub fn log_len(disk: &Disk) -> u64 {
    let mut len: u64 = 0;
    for name in SEGMENTS {
        len = len.saturating_add(file_bytes(disk, name).len() as u64);
    }
    len
}

/// The log's bytes that a crash leaves of a run.
pub fn log_left(rt: &(impl Abort + AllocGlobal), run: &Run, pick: Pick) -> Vec<u8> {
    let disk = run.crashed(rt, pick);
    copy_of(rt, file_bytes(&disk, SEGMENT))
}

/// How many bytes of the log this crash leaves of a run.
pub fn len_left(rt: &(impl Abort + AllocGlobal), run: &Run, pick: Pick) -> u64 {
    let disk = run.crashed(rt, pick);
    file_bytes(&disk, SEGMENT).len() as u64
}

/// How many bytes of the log each crash leaves of a run.
pub fn lasting_len(rt: &(impl Abort + AllocGlobal), run: &Run) -> u64 {
    len_left(rt, run, Pick::Lost)
}

/// Whether the log that a crash leaves of a run begins with these bytes.
pub fn begins_with(rt: &(impl Abort + AllocGlobal), run: &Run, pick: Pick, bytes: &[u8]) -> bool {
    let disk = run.crashed(rt, pick);
    file_bytes(&disk, SEGMENT).starts_with(bytes)
}

/// A copy of these bytes.
pub fn copy_of(rt: &(impl Abort + AllocGlobal), bytes: &[u8]) -> Vec<u8> {
    Vec::from_slice(rt.alloc(), bytes).expect(rt, "a copy")
}

/// Puts bytes after these.
pub fn add(rt: &impl Abort, bytes: &mut Vec<u8>, more: &[u8]) {
    bytes.extend_from_slice(more).expect(rt, "more bytes");
}

/// The head of a frame in the first segment: its kind, the segment, its place and how long its payload is.
fn head_of(rt: &(impl Abort + AllocGlobal), kind: u8, at: u32, len: usize) -> Vec<u8> {
    let mut bytes = copy_of(rt, &[kind, 1, 0, 0, 0, 0, 0, 0, 0]);
    add(rt, &mut bytes, &at.to_le_bytes());
    add(
        rt,
        &mut bytes,
        &u32::try_from(len).unwrap_or(0).to_le_bytes(),
    );
    bytes
}

/// The bytes of a frame in the first segment.
pub fn frame(rt: &(impl Abort + AllocGlobal), kind: u8, at: u32, payload: &[u8]) -> Vec<u8> {
    let mut bytes = head_of(rt, kind, at, payload.len());
    add(rt, &mut bytes, payload);
    let sum = sum(&bytes);
    add(rt, &mut bytes, &sum.to_le_bytes());
    bytes
}

/// These bytes with a frame after them.
pub fn with_frame(
    rt: &(impl Abort + AllocGlobal),
    log: &[u8],
    kind: u8,
    payload: &[u8],
) -> Vec<u8> {
    let at = u32::try_from(log.len()).unwrap_or(0);
    let mut with = copy_of(rt, log);
    add(rt, &mut with, &frame(rt, kind, at, payload));
    with
}

/// A disk whose log is these bytes.
pub fn disk_of(rt: &(impl Abort + AllocGlobal), log: &[u8]) -> Disk {
    let mut disk = no_files(rt);
    put_file(rt, &mut disk, SEGMENT, log);
    disk
}

/// How many bytes the frames have that stand whole within the first so many bytes, where a log begins with
/// frames of these lengths.
pub fn whole_within(frames: &[usize], count: usize) -> usize {
    let mut whole: usize = 0;
    for len in frames {
        let end = whole.saturating_add(*len);
        if end > count {
            return whole;
        }
        whole = end;
    }
    whole
}
