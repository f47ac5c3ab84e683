//! The log over small segments: where it goes on in the next one, and how often a scan reads.

ghost use Rattle.std.specs.Prelude.{◌≡◌, ◌≤◌, length, OnOk};
ghost use Rattle.pm_frame.specs.declared.limits.TheConstants.{PAYLOAD_MAX as longest};
ghost use Rattle.pm_disk.specs.States.{IsUsable};
ghost use Rattle.pm_disk_mem.specs.Hosts.{state_of, world_of};
ghost use Rattle.pm_segments.specs.Ends.{EndsThere};
ghost use Rattle.pm_segments.specs.Scans.{IsAhead};

use crate::disks::{empty_host, file_bytes, has_file, left_of};
use crate::looks::{holds, same, same_bytes};
use pm_disk::Failed;
use pm_disk_mem::{MemHost, Pick};
use pm_frame::{LOGICAL, SEAL};
use pm_segments::{Log, Scan};
use pm_types::Place;
use std::process::Abort;

/// The file of the log's first segment.
const SEGMENT: &str = "wal-0000000000000001.seg";

/// The file of the log's second segment.
const SECOND: &str = "wal-0000000000000002.seg";

/// The smallest size of a segment.
const SEGMENT_BYTES: u32 = 65_536;

/// The begin of the first segment.
const BEGIN: Place = Place { seg: 1, off: 0 };

/// The begin of the second segment.
const NEXT: Place = Place { seg: 2, off: 0 };

/// Where a log of 65,000 bytes ends.
const END: Place = Place {
    seg: 1,
    off: 65_000,
};

/// The frame of a SEAL at `END`.
static SEAL_FRAME: [u8; 21] = [
    6, 1, 0, 0, 0, 0, 0, 0, 0, 232, 253, 0, 0, 0, 0, 0, 0, 233, 178, 47, 149,
];

/// The frame that a scan gives next: its place, its kind and the length of its payload.
fn next_of(host: &mut MemHost, scan: &mut Scan) -> Result<Option<(Place, u8, usize)>, Failed>
    requires ahead { IsAhead scan.old (world_of host.old) }
    requires usable { IsUsable (state_of host.old) }
    ensures ahead { OnOk result (IsAhead scan.new (world_of host.new)) }
    ensures usable { IsUsable (state_of host.new) }
{
    let Some(frame) = scan.next(host)? else {
        return Ok(None);
    };
    let kind = frame.kind;
    let len = frame.payload.len();
    Ok(Some((scan.place(), kind, len)))
}

/// Appends a record with this payload so often.
fn append_all(host: &mut MemHost, log: &mut Log, payload: &[u8], count: u32) -> Result<(), Failed>
    requires short { length payload.now ≤ longest }
    requires end { EndsThere log.old (world_of host.old) }
    requires usable { IsUsable (state_of host.old) }
    ensures end { OnOk result (EndsThere log.new (world_of host.new)) }
    ensures usable { IsUsable (state_of host.new) }
{
    'records: for _ in 0..count {
        log.append(host, LOGICAL, payload)?;
    }
    Ok(())
}

/// How many frames a scan gives up to the log's end, at most so many.
fn count_frames(host: &mut MemHost, scan: &mut Scan, most: u32) -> Result<u32, Failed>
    requires ahead { IsAhead scan.old (world_of host.old) }
    requires usable { IsUsable (state_of host.old) }
{
    'frames: for count in 0..most {
        if next_of(host, scan)?.is_none() {
            return Ok(count);
        }
    }
    Ok(most)
}

/// So many sevens.
fn sevens(rt: &(impl Abort + AllocGlobal), len: usize) -> Vec<u8>
    ensures { length result.items ≡ len }
{
    vec![in rt.alloc(); 7; len].expect(rt, "sevens")
}

/// Puts bytes after these.
fn add(rt: &impl Abort, bytes: &mut Vec<u8>, more: &[u8]) {
    bytes.extend_from_slice(more).expect(rt, "more bytes");
}

/// These bytes with so many sevens between them.
fn with_sevens(rt: &(impl Abort + AllocGlobal), head: &[u8], len: usize, sum: &[u8]) -> Vec<u8> {
    let mut bytes = Vec::from_slice(rt.alloc(), head).expect(rt, "a copy");
    add(rt, &mut bytes, &sevens(rt, len));
    add(rt, &mut bytes, sum);
    bytes
}

/// An empty log with segments of this size.
fn empty_log(rt: &impl Abort, host: &mut MemHost, segment_bytes: u32) -> Log
    requires from { 65536 ≤ segment_bytes }
    requires to { segment_bytes ≤ 67108864 }
    requires usable { IsUsable (state_of host.old) }
    ensures end { EndsThere result (world_of host.new) }
    ensures usable { IsUsable (state_of host.new) }
{
    Log::cut_tail(host, 1, BEGIN, segment_bytes).expect(rt, "a log")
}

/// Appends a record with so many sevens. Answers its place.
fn append_sevens(
    rt: &(impl Abort + AllocGlobal),
    host: &mut MemHost,
    log: &mut Log,
    len: usize,
) -> Place
    requires short { len ≤ longest }
    requires end { EndsThere log.old (world_of host.old) }
    requires usable { IsUsable (state_of host.old) }
    ensures end { EndsThere log.new (world_of host.new) }
    ensures usable { IsUsable (state_of host.new) }
{
    log.append(host, LOGICAL, &sevens(rt, len))
        .expect(rt, "a record")
}

/// Looks at a place.
fn look_at_place(rt: &impl Abort, what: &str, found: Place, wanted: Place) {
    holds(rt, what, found == wanted, &(found.seg, found.off));
}

/// Appends a record with so many bytes of payload after a frame of 65,000 bytes, and looks for its
/// frame at this place. Answers where the log ends, and how many bytes were appended.
fn append_after(
    rt: &(impl Abort + AllocGlobal),
    host: &mut MemHost,
    len: usize,
    place: Place,
) -> (Place, u64)
    requires short { len ≤ 600 }
    requires usable { IsUsable (state_of host.old) }
    ensures { IsUsable (state_of host.new) }
{
    let mut log = empty_log(rt, host, SEGMENT_BYTES);
    append_sevens(rt, host, &mut log, 64_979);
    look_at_place(rt, "the first frame's end", log.end(), END);
    let at = append_sevens(rt, host, &mut log, len);
    look_at_place(rt, "the second frame", at, place);
    holds(rt, "tried", log.tried(), &len);
    (log.end(), log.appended())
}

/// Looks for this frame as the next one of a scan.
fn look_at_next(
    rt: &impl Abort,
    host: &mut MemHost,
    scan: &mut Scan,
    wanted: Option<(Place, u8, usize)>,
)
    requires ahead { IsAhead scan.old (world_of host.old) }
    requires usable { IsUsable (state_of host.old) }
    ensures ahead { IsAhead scan.new (world_of host.new) }
    ensures usable { IsUsable (state_of host.new) }
{
    let next = next_of(host, scan).expect(rt, "a scan");
    holds(rt, "frame", next == wanted, &"next");
}

/// A scan from this place on.
fn scan_from(rt: &(impl Abort + AllocGlobal), host: &MemHost, place: Place) -> Scan
    requires { place.off ≤ 65000 }
    ensures { IsAhead result (world_of host.now) }
{
    Scan::new(rt.alloc(), place).expect(rt, "a scan")
}

/// Scans from `END` on, and looks for a frame at this place with so many bytes of payload: after a
/// SEAL in the next segment, and after it none. Looks that the scan ends at the log's end.
fn scan_after(
    rt: &(impl Abort + AllocGlobal),
    host: &mut MemHost,
    len: usize,
    place: Place,
    end: Place,
)
    requires { IsUsable (state_of host.old) }
    ensures { IsUsable (state_of host.new) }
{
    let mut scan = scan_from(rt, host, END);
    if place == NEXT {
        look_at_next(rt, host, &mut scan, Some((END, SEAL, 0)));
    }
    look_at_next(rt, host, &mut scan, Some((place, LOGICAL, len)));
    look_at_next(rt, host, &mut scan, None);
    look_at_place(rt, "the scan's end", scan.place(), end);
}

/// Looks for a first segment of so many bytes that ends with this frame, and for a second one, in what a crash
/// leaves.
fn look_at_segments(
    rt: &(impl Abort + AllocGlobal),
    host: &MemHost,
    pick: Pick,
    first: (u64, &[u8]),
    second: Option<&[u8]>,
) {
    let disk = left_of(rt, host, pick);
    let bytes = file_bytes(&disk, SEGMENT);
    same(rt, "first segment", bytes.len() as u64, first.0, &pick);
    holds(rt, "the frame is there", bytes.ends_with(first.1), &pick);
    let is_there = has_file(&disk, SECOND);
    holds(rt, "a second segment", is_there == second.is_some(), &pick);
    same_bytes(
        rt,
        "second segment",
        file_bytes(&disk, SECOND),
        second.unwrap_or(b""),
        &pick,
    );
}

/// A log whose second frame has 515 bytes: with a SEAL it ends at 65,536.
fn look_at_fitting(rt: &(impl Abort + AllocGlobal), host: &mut MemHost)
    requires { IsUsable (state_of host.old) }
{
    let (end, _) = append_after(rt, host, 494, END);
    scan_after(rt, host, 494, END, end);
    let head = [1, 1, 0, 0, 0, 0, 0, 0, 0, 232, 253, 0, 0, 238, 1, 0, 0];
    let frame = with_sevens(rt, &head, 494, &[188, 155, 207, 230]);
    look_at_segments(rt, host, Pick::Kept, (65_515, &frame), None);
}

/// A log whose second frame has 516 bytes. The SEAL before it is lasting, and so is the next segment, which is
/// empty: the frame itself is pending.
fn look_at_sealed(rt: &(impl Abort + AllocGlobal), host: &mut MemHost)
    requires { IsUsable (state_of host.old) }
{
    let (end, appended) = append_after(rt, host, 495, NEXT);
    same(rt, "appended", appended, 65_000 + 21 + 516, &"sealed");
    scan_after(rt, host, 495, NEXT, end);
    let head = [1, 2, 0, 0, 0, 0, 0, 0, 0, 0, 0, 0, 0, 239, 1, 0, 0];
    let frame = with_sevens(rt, &head, 495, &[4, 176, 227, 59]);
    let first = (65_021, SEAL_FRAME.as_slice());
    look_at_segments(rt, host, Pick::Kept, first, Some(&frame));
    look_at_segments(rt, host, Pick::Lost, first, Some(b""));
}

/// Looks at a log over an empty host of either kind.
fn look_at_log(rt: &(impl Abort + AllocGlobal), is_sealed: bool) {
    let mut host = empty_host(rt);
    if is_sealed {
        look_at_sealed(rt, &mut host);
    } else {
        look_at_fitting(rt, &mut host);
    }
}

// A frame has 21 bytes beside its payload, so the first one has 515, and the second one 516.
#[test]
fn a_frame_begins_the_next_segment_where_no_seal_fits_after_it(rt: HostRuntime) {
    look_at_log(&rt, false);
    look_at_log(&rt, true);
}

/// Makes a log of so many records. Answers where it ends.
fn fill_log(
    rt: &(impl Abort + AllocGlobal),
    host: &mut MemHost,
    segment_bytes: u32,
    records: u32,
) -> Place
    requires from { 65536 ≤ segment_bytes }
    requires to { segment_bytes ≤ 67108864 }
    requires usable { IsUsable (state_of host.old) }
    ensures { IsUsable (state_of host.new) }
{
    let mut log = empty_log(rt, host, segment_bytes);
    append_all(host, &mut log, &sevens(rt, 32_000), records).expect(rt, "records");
    log.end()
}

/// Scans the whole log. Answers where it ends and how many frames it has.
fn scan_all(rt: &(impl Abort + AllocGlobal), host: &mut MemHost) -> (Place, u32)
    requires { IsUsable (state_of host.old) }
{
    let mut scan = scan_from(rt, host, BEGIN);
    let frames = count_frames(host, &mut scan, 1_000).expect(rt, "a scan");
    (scan.place(), frames)
}

/// Makes a log of so many records, and looks that it and a scan of it end there, that the scan gives so many
/// frames, and that it takes at most so many calls.
fn scan_over(
    rt: &(impl Abort + AllocGlobal),
    segment_bytes: u32,
    records: u32,
    last: Place,
    frames: u32,
    calls: u64,
)
    requires from { 65536 ≤ segment_bytes }
    requires to { segment_bytes ≤ 67108864 }
{
    let mut host = empty_host(rt);
    let end = fill_log(rt, &mut host, segment_bytes, records);
    look_at_place(rt, "the log's end", end, last);
    let before = host.calls();
    let (scanned, count) = scan_all(rt, &mut host);
    look_at_place(rt, "the scan's end", scanned, last);
    same(rt, "frames", u64::from(count), u64::from(frames), &records);
    let made = host.calls().saturating_sub(before);
    holds(rt, "few calls", made <= calls, &made);
}

// A frame has 32,021 bytes here. Each segment but the last one ends with a SEAL, which is a frame too.
#[test]
fn a_scan_reads_once_for_64_kib_and_once_more_in_each_segment(rt: HostRuntime) {
    // 100 segments of two records, of which none has more than 64 KiB.
    let last = Place {
        seg: 100,
        off: 64_042,
    };
    scan_over(&rt, 65_536, 200, last, 299, 100);

    // Two segments of 32 records, which have a little less than 16 times 64 KiB.
    let last = Place {
        seg: 2,
        off: 1_024_672,
    };
    scan_over(&rt, 1_048_576, 64, last, 65, 34);
}
