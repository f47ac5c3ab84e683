//! Crashes of a round: the log part has come so far, and the writer so far, and each pair of the two may be
//! what a crash finds.

ghost use Rattle.std.specs.Prelude.{◌≡◌};
ghost use Rattle.pm_disk.specs.States.{IsLaterState, IsUsable, MayWrite};
ghost use Rattle.pm_disk_mem.specs.Hosts.{state_of};

use crate::calls::bind;
use crate::disks::{Disk, file_bytes, host_over, left_of, no_files, put_file};
use crate::looks::holds;
use pm_disk::{Failed, Host, LogFile, PageWriter};
use pm_disk_mem::{MemHost, Pick};
use pm_types::PageId;
use std::alloc::AllocError;
use std::process::Abort;

/// The file of the segment, which has `old!` before the round.
const SEGMENT: &str = "wal-0000000000000001.seg";

/// The file of the pages, of four bytes each, of which the second one is due.
const PAGES: &str = "part-003.pages";

/// What is done on the log part.
#[derive(Clone, Copy)]
enum OnLog {
    Append(&'static [u8]),
    Force,
}

/// What is done on the writer.
#[derive(Clone, Copy)]
enum OnPages {
    /// The page that is due gets these bytes.
    Write(&'static [u8; 4]),
    Force,
}

static LOG_CALLS: [OnLog; 4] = [
    OnLog::Append(b"ab"),
    OnLog::Force,
    OnLog::Append(b"cd"),
    OnLog::Force,
];

static PAGE_CALLS: [OnPages; 4] = [
    OnPages::Write(b"2222"),
    OnPages::Force,
    OnPages::Write(b"3333"),
    OnPages::Force,
];

/// The crashes that are looked at: all that is pending is kept, all is lost, each byte of it is a question
/// mark, and the first byte of what is pending in the log is kept.
static PICKS: [Pick; 4] = [Pick::Kept, Pick::Lost, Pick::Fill(b'?'), Pick::Cut(1)];

/// What each crash leaves of the segment, after so many calls of the log part.
static LOG_LEFT: [[&str; 4]; 5] = [
    ["old!", "old!", "old!", "old!"],
    ["old!ab", "old!", "old!??", "old!a"],
    ["old!ab", "old!ab", "old!ab", "old!ab"],
    ["old!abcd", "old!ab", "old!ab??", "old!abc"],
    ["old!abcd", "old!abcd", "old!abcd", "old!abcd"],
];

/// What each crash leaves of the pages, after so many calls of the writer.
static PAGES_LEFT: [[&str; 4]; 5] = [
    ["00001111", "00001111", "00001111", "00001111"],
    ["00002222", "00001111", "0000????", "00001111"],
    ["00002222", "00002222", "00002222", "00002222"],
    ["00003333", "00002222", "0000????", "00002222"],
    ["00003333", "00003333", "00003333", "00003333"],
];

/// How far the log part and the writer come in a round that is stopped after each number of calls of each. An
/// append is two calls: the segment's length is asked for first.
static STOPPED: [(usize, usize); 7] = [(0, 0), (0, 1), (1, 2), (2, 3), (2, 4), (3, 4), (4, 4)];

/// Makes a call on the log part.
fn call_log<L: LogFile>(log: &mut L, call: OnLog) -> Result<(), Failed>
    requires { IsUsable (L.state log.old) }
    ensures { IsLaterState (L.state log.old) (L.state log.new) }
{
    match call {
        OnLog::Append(bytes) => {
            let len = log.seg_len(1)?.unwrap_or(0);
            log.write_log(1, len, bytes)
        }
        OnLog::Force => log.force_log(1),
    }
}

/// Makes a call on the writer.
fn call_writer<W: PageWriter>(writer: &mut W, page: PageId, call: OnPages) -> Result<(), Failed>
    requires { MayWrite (W.state writer.old) page }
    ensures { IsLaterState (W.state writer.old) (W.state writer.new) }
{
    match call {
        OnPages::Write(bytes) => writer.write_page(page, bytes),
        OnPages::Force => writer.force_pages(page.part()),
    }
}

/// Makes the first calls on the log part, so many.
fn call_log_often<L: LogFile>(log: &mut L, count: usize) -> Result<(), Failed>
    requires { IsUsable (L.state log.old) }
    ensures { IsLaterState (L.state log.old) (L.state log.new) }
{
    for call in LOG_CALLS.iter().take(count) {
        call_log(log, *call)?;
    }
    Ok(())
}

/// Makes the first calls on the writer, so many.
fn call_writer_often<W: PageWriter>(
    writer: &mut W,
    page: PageId,
    count: usize,
) -> Result<(), Failed>
    requires { MayWrite (W.state writer.old) page }
    ensures { IsLaterState (W.state writer.old) (W.state writer.new) }
{
    for call in PAGE_CALLS.iter().take(count) {
        call_writer(writer, page, *call)?;
    }
    Ok(())
}

/// Splits the host, and makes so many calls of each part. Answers whether all were done.
fn round<H: Host>(host: &mut H, on_log: usize, on_pages: usize) -> Result<bool, AllocError>
    requires { IsUsable (H.state host.old) }
{
    let page = PageId::new(3, 1);
    let mut lent = host.lend(&[page], 0)?;
    let logged = call_log_often(&mut lent.log, on_log);
    let written = call_writer_often(&mut lent.writer, page, on_pages);
    host.take_back(lent);
    Ok(logged.is_ok() && written.is_ok())
}

/// The disk before the round.
fn disk_before(rt: &(impl Abort + AllocGlobal)) -> Disk {
    let mut disk = no_files(rt);
    put_file(rt, &mut disk, SEGMENT, b"old!");
    put_file(rt, &mut disk, PAGES, b"00001111");
    disk
}

/// A host over that disk, whose calls after its first one and those of its parts fail from the stop on.
fn host_before(rt: &(impl Abort + AllocGlobal), stop: Option<u64>) -> MemHost
    ensures { IsUsable (state_of result) }
{
    let mut host = host_over(rt, b"", b"", disk_before(rt), &[], stop);
    bind(&mut host, "store").expect(rt, "a folder");
    host
}

/// Whether a crash of the host, the one of this number, leaves what it does after so many calls of each part.
fn is_picked(
    rt: &(impl Abort + AllocGlobal),
    host: &MemHost,
    number: usize,
    pick: Pick,
    left: (usize, usize),
) -> bool {
    let disk = left_of(rt, host, pick);
    let log = LOG_LEFT[left.0.min(4)][number.min(3)];
    let pages = PAGES_LEFT[left.1.min(4)][number.min(3)];
    file_bytes(&disk, SEGMENT) == log.as_bytes() && file_bytes(&disk, PAGES) == pages.as_bytes()
}

/// Whether each crash of the host leaves what it does after so many calls of each part.
fn is_left(rt: &(impl Abort + AllocGlobal), host: &MemHost, left: (usize, usize)) -> bool {
    for (number, pick) in PICKS.iter().enumerate() {
        if !is_picked(rt, host, number, *pick, left) {
            return false;
        }
    }
    true
}

/// Looks that each crash leaves what it does after so many calls of each part, where a round makes these calls,
/// all of them where there is no stop.
fn look_at_pair(
    rt: &(impl Abort + AllocGlobal),
    stop: Option<u64>,
    calls: (usize, usize),
    left: (usize, usize),
) {
    let mut host = host_before(rt, stop);
    let done = round(&mut host, calls.0, calls.1).expect(rt, "parts");
    holds(rt, "all calls are done", done == (calls == left), &left);
    holds(rt, "each crash", is_left(rt, &host, left), &left);
}

/// Looks at each pair of moments of a round that isn't stopped.
fn look_at_each_pair(rt: &(impl Abort + AllocGlobal), on_log: usize) {
    for on_pages in 0..5 {
        let pair = (on_log, on_pages);
        look_at_pair(rt, None, pair, pair);
    }
}

/// Looks at a round that is stopped at each of its calls.
fn look_at_each_stop(rt: &(impl Abort + AllocGlobal)) {
    for (calls, pair) in STOPPED.iter().enumerate() {
        let stop = Some((calls as u64).saturating_add(1));
        look_at_pair(rt, stop, (4, 4), *pair);
    }
}

#[test]
fn a_crash_leaves_each_pair_of_moments_of_a_round(rt: HostRuntime) {
    for on_log in 0..5 {
        look_at_each_pair(&rt, on_log);
    }
    look_at_each_stop(&rt);
}
