//! What a crash leaves of the disk of a host in memory: of its images the one that a pick says.

ghost use Rattle.std.specs.Prelude.{◌≡◌, ◌≢◌, OnOk};
ghost use Rattle.pm_disk.specs.Files.{Write, Cut, with_change, all_forced};
ghost use Rattle.pm_disk.specs.States.{IsUsable};

use crate::calls::bind;
use crate::disks::{Disk, SEGMENT, host_over, left_of, no_files};
use crate::looks::holds;
use crate::memory_calls::{DONE, MemoryCall, make_calls};
use pm_disk::{Failed, LogFile, MarkFile};
use pm_disk_mem::{MemHost, Pick};
use std::process::Abort;

/// The file of segment 2.
const SECOND: &str = "wal-0000000000000002.seg";

/// The file of the pages of partition 1.
const PAGES: &str = "part-001.pages";

/// Makes two segments anew with these bytes, and forces one of them.
fn writes_two<L: LogFile>(
    log: &mut L,
    forced: u64,
    pending: u64,
    bytes: &[u8],
) -> Result<(), Failed>
    requires usable { IsUsable (L.state log.old) }
    requires apart { forced ≢ pending }
    ensures forced { L.tells → OnOk result ((L.history log.new).world.log forced
        ≡ all_forced (with_change (with_change ((L.history log.old).world.log forced)
        (Cut 0)) (Write 0 bytes.now))) }
    ensures pending { L.tells → OnOk result ((L.history log.new).world.log pending
        ≡ with_change (with_change ((L.history log.old).world.log pending)
        (Cut 0)) (Write 0 bytes.now)) }
{
    log.cut_log(forced, 0)?;
    log.cut_log(pending, 0)?;
    log.write_log(forced, 0, bytes)?;
    log.write_log(pending, 0, bytes)?;
    log.force_log(forced)
}

/// A host in memory, in a box, whose drop is a call.
pub type MemoryHost = Box<MemHost>;

/// Puts a file onto a disk, and looks at whether its name is that of a file of the store.
fn put(rt: &impl Abort, disk: &mut Disk, name: &str, bytes: &[u8], is_known: bool) {
    let puts = disk.put_file(name, bytes).expect(rt, name);
    holds(rt, "a file of the store", puts == is_known, &name);
}

/// A disk with one file.
pub fn disk_with(rt: &(impl Abort + AllocGlobal), name: &str, bytes: &[u8]) -> Disk {
    let mut disk = no_files(rt);
    put(rt, &mut disk, name, bytes, true);
    disk
}

/// A host in a box.
pub fn boxed(rt: &(impl Abort + AllocGlobal), host: MemHost) -> MemoryHost {
    Box::new(rt.alloc(), host).expect(rt, "a host")
}

/// A host over a disk, with no input and nothing handed in. None of its calls is planned to fail.
pub fn host_on(rt: &(impl Abort + AllocGlobal), disk: Disk) -> MemoryHost {
    boxed(rt, host_over(rt, b"", b"", disk, &[], None))
}

/// Whether a disk has a file with these bytes, or no such file where they are none.
fn has(disk: &Disk, name: &str, wanted: Option<&[u8]>) -> bool {
    disk.file(name) == wanted
}

/// Looks for these bytes as what a crash leaves of a file, and for no file where they are none.
pub fn look_at_file(
    rt: &(impl Abort + AllocGlobal),
    host: &MemHost,
    pick: Pick,
    name: &str,
    wanted: Option<&[u8]>,
) {
    let disk = left_of(rt, host, pick);
    holds(
        rt,
        "what is left of a file",
        has(&disk, name, wanted),
        &(name, pick),
    );
}

/// Looks for these bytes as what a crash leaves of the segments 1 and 2.
fn look_at_segments(
    rt: &(impl Abort + AllocGlobal),
    host: &MemHost,
    pick: Pick,
    first: Option<&[u8]>,
    second: Option<&[u8]>,
) {
    look_at_file(rt, host, pick, SEGMENT, first);
    look_at_file(rt, host, pick, SECOND, second);
}

/// Looks at what each of these crashes leaves of the segments 1 and 2.
fn look_at_crashes(
    rt: &(impl Abort + AllocGlobal),
    host: &MemHost,
    crashes: &[(Pick, Option<&[u8]>, Option<&[u8]>)],
) {
    for (pick, first, second) in crashes {
        look_at_segments(rt, host, *pick, *first, *second);
    }
}

/// A host over an empty disk that has made the segments 1 and 2 with the same bytes, and forced segment 1.
fn host_with_segments(rt: &(impl Abort + AllocGlobal)) -> MemoryHost {
    let mut host = host_over(rt, b"", b"", no_files(rt), &[], None);
    bind(&mut host, "store").expect(rt, "a folder");
    writes_two(&mut host, 1, 2, b"abcdef").expect(rt, "two segments");
    boxed(rt, host)
}

/// What crashes leave of the segments 1 and 2 after a write to segment 1.
const OF_A_WRITE: [(Pick, Option<&[u8]>, Option<&[u8]>); 8] = [
    (Pick::Kept, Some(b"XYZdef"), Some(b"abcdef")),
    (Pick::Lost, Some(b"abcdef"), None),
    (Pick::Fill(b'#'), Some(b"###def"), Some(b"######")),
    (Pick::Cut(0), Some(b"abcdef"), None),
    (Pick::Cut(2), Some(b"XYcdef"), None),
    (Pick::Cut(3), Some(b"XYZdef"), None),
    (Pick::Cut(5), Some(b"XYZdef"), Some(b"ab")),
    (Pick::Cut(99), Some(b"XYZdef"), Some(b"abcdef")),
];

/// Writes to segment 1, and looks at what crashes leave then.
fn look_at_write(rt: &(impl Abort + AllocGlobal), host: &mut MemHost) {
    make_calls(rt, host, &[(MemoryCall::WriteLog(1, "XYZ"), DONE)]);
    look_at_crashes(rt, host, &OF_A_WRITE);
}

#[test]
fn a_crash_leaves_what_the_pick_says(rt: HostRuntime) {
    let mut host = host_with_segments(&rt);
    look_at_write(&rt, &mut host);
}

/// A disk with segment 1. A file whose name is none of the store's isn't put onto it.
fn disk_with_segment(rt: &(impl Abort + AllocGlobal)) -> Disk {
    let mut disk = disk_with(rt, SEGMENT, b"abcdef");
    put(rt, &mut disk, "wal-1.seg", b"abc", false);
    disk
}

/// Makes the calls over a disk with segment 1, and looks at what crashes leave then: of segment 2 nothing. Looks at
/// what each of them leaves of segment 1 once it is forced.
fn change_segment(
    rt: &(impl Abort + AllocGlobal),
    calls: &[(MemoryCall, &str)],
    crashes: &[(Pick, Option<&[u8]>, Option<&[u8]>)],
    forced: Option<&[u8]>,
) {
    let mut host = host_on(rt, disk_with_segment(rt));
    make_calls(rt, &mut host, calls);
    look_at_crashes(rt, &host, crashes);
    make_calls(rt, &mut host, &[(MemoryCall::ForceLog(1), DONE)]);
    look_at_segments(rt, &host, Pick::Lost, forced, None);
}

/// Calls that cut segment 1 and write to it, each with its answer.
const CUT: [(MemoryCall, &str); 2] = [
    (MemoryCall::EmptyLog(1), DONE),
    (MemoryCall::WriteLog(1, "XY"), DONE),
];

/// What crashes leave of the segments 1 and 2 then.
const OF_A_CUT: [(Pick, Option<&[u8]>, Option<&[u8]>); 4] = [
    (Pick::Kept, Some(b"XY"), None),
    (Pick::Lost, Some(b"abcdef"), None),
    (Pick::Fill(b'#'), Some(b"######"), None),
    (Pick::Cut(1), Some(b"Xbcdef"), None),
];

#[test]
fn a_cut_is_lost_or_kept_as_a_write_is(rt: HostRuntime) {
    change_segment(&rt, &CUT, &OF_A_CUT, Some(b"XY"));
}

/// Calls that drop segment 1 and ask for its length, each with its answer.
const DROPPED: [(MemoryCall, &str); 2] = [
    (MemoryCall::DropLog(1), DONE),
    (MemoryCall::SegLen(1), "Ok(None)"),
];

/// What crashes leave of the segments 1 and 2 then.
const OF_A_DROP: [(Pick, Option<&[u8]>, Option<&[u8]>); 3] = [
    (Pick::Kept, None, None),
    (Pick::Lost, Some(b"abcdef"), None),
    (Pick::Fill(b'#'), Some(b"abcdef"), None),
];

#[test]
fn a_dropped_segment_may_be_back_until_it_is_forced(rt: HostRuntime) {
    change_segment(&rt, &DROPPED, &OF_A_DROP, None);
}

/// Calls that write a page after the end of its file, each with its answer.
const PAST_THE_END: [(MemoryCall, &str); 3] = [
    (MemoryCall::ReadPage(1, 1), "Ok(false) \0\0\0\0"),
    (MemoryCall::WritePage(1, 2, b"WXYZ"), DONE),
    (MemoryCall::ForcePages(0), DONE),
];

/// What crashes leave of the file then.
const OF_A_PAGE: [(Pick, &[u8]); 4] = [
    (Pick::Kept, b"abcd\0\0\0\0WXYZ"),
    (Pick::Lost, b"abcd"),
    (Pick::Fill(b'#'), b"abcd########"),
    (Pick::Cut(99), b"abcd"),
];

/// Calls that force the file and read it, each with its answer.
const FORCED_AND_READ: [(MemoryCall, &str); 3] = [
    (MemoryCall::ForcePages(1), DONE),
    (MemoryCall::ReadPage(1, 2), "Ok(true) WXYZ"),
    (MemoryCall::ReadPage(1, 3), "Ok(false) \0\0\0\0"),
];

/// Looks at what crashes leave of the pages before they are forced.
fn look_at_pages(rt: &(impl Abort + AllocGlobal), host: &MemHost) {
    for (pick, left) in &OF_A_PAGE {
        look_at_file(rt, host, *pick, PAGES, Some(*left));
    }
}

#[test]
fn a_page_past_the_end_is_written_with_its_gap(rt: HostRuntime) {
    let mut host = host_on(&rt, disk_with(&rt, PAGES, b"abcd"));
    make_calls(&rt, &mut host, &PAST_THE_END);
    look_at_pages(&rt, &host);
    make_calls(&rt, &mut host, &FORCED_AND_READ);
    look_at_file(&rt, &host, Pick::Lost, PAGES, Some(b"abcd\0\0\0\0WXYZ"));
}

/// Calls that write a slot of each marker file and force one of the files, each with its answer.
const ON_MARKERS: [(MemoryCall, &str); 7] = [
    (
        MemoryCall::ReadMark(MarkFile::Start, 0),
        "Ok(false) 64 of 0",
    ),
    (MemoryCall::WriteMark(MarkFile::Start, 1, 7), DONE),
    (MemoryCall::WriteMark(MarkFile::End, 0, 9), DONE),
    (MemoryCall::ForceMark(MarkFile::End), DONE),
    (MemoryCall::ReadMark(MarkFile::Start, 0), "Ok(true) 64 of 0"),
    (MemoryCall::ReadMark(MarkFile::Start, 1), "Ok(true) 64 of 7"),
    (MemoryCall::ReadMark(MarkFile::End, 1), "Ok(false) 64 of 0"),
];

#[test]
fn each_marker_file_is_forced_alone(rt: HostRuntime) {
    let mut host = host_on(&rt, no_files(&rt));
    make_calls(&rt, &mut host, &ON_MARKERS);
    look_at_file(&rt, &host, Pick::Lost, "cp.start", None);
    look_at_file(&rt, &host, Pick::Lost, "cp.end", Some(&[9; 64]));
    look_at_file(&rt, &host, Pick::Fill(5), "cp.start", Some(&[5; 128]));
}
