//! A whole checkpoint over a host in memory: it is stopped at each of its calls, and each crash of that leaves
//! a store that it may.

ghost use Rattle.std.specs.Prelude.{◌≡◌, ◌≤◌, None, false, length, IfOk, OnOk};
ghost use Rattle.pm_types.specs.Ids.{page_id};
ghost use Rattle.pm_types.specs.Shapes.{IsShape};
ghost use Rattle.pm_disk.specs.States.{IsUsable};
ghost use Rattle.pm_frame.specs.declared.limits.TheConstants.{SEGMENT_END_MAX as last_end};
ghost use Rattle.pm_marks.specs.Slots.{IsMark};
ghost use Rattle.pm_segments.specs.Scans.{IsAhead};
ghost use Rattle.pm_ckpt.specs.Marked.{HasRoomFor};
ghost use Rattle.pm_ckpt.specs.Writes.{held_in, IsHeld};

use crate::checkpoint_tests::one_page::{
    PAGE_BYTES, Written, all_written, begin_log, log_page, make_checkpoint, partition, shape,
};
use pm_ckpt::Ckpt;
use pm_disk::{Failed, Host, LogReader};
use pm_disk_mem::{MemDisk, MemHost, Pick};
use pm_marks::read_marks;
use pm_pages::PlainPages;
use pm_segments::Scan;
use pm_types::{Mark, PageId, Place};
use std::process::Abort;
use std::test::Fail;

/// How far a crash may leave the store at least and at most, where this many calls were done. It is the number
/// of its frames where no start marker is valid, 6 with a start marker, 7 with an end marker, and 8 where the
/// first segment is gone besides.
const BOUNDS: [(u32, u32); 26] = [
    // The folder is bound, and the log is cut and forced.
    (0, 0),
    (0, 0),
    (0, 0),
    (0, 0),
    // Its first segment gets a RESTART, a long record and a SEAL, and is forced.
    (0, 1),
    (0, 2),
    (0, 3),
    (3, 3),
    // The second one is cut and forced, and gets the page.
    (3, 3),
    (3, 3),
    (3, 4),
    // It gets the begin of the checkpoint, and is forced.
    (3, 5),
    (5, 5),
    // The first slot of the start markers is looked for and gets zeros, and then the start marker is written
    // and forced.
    (5, 5),
    (5, 5),
    (5, 6),
    (6, 6),
    // The page is written and forced.
    (6, 6),
    (6, 6),
    // The same of the end marker.
    (6, 6),
    (6, 6),
    (6, 7),
    (7, 7),
    // The first segment is there, is removed, and that is forced.
    (7, 7),
    (7, 8),
    (8, 8),
];

/// The picks of each crash. The cuts fall on a frame's first byte, on its middle, on its end and on the next
/// frame.
const PICKS: [Pick; 9] = [
    Pick::Kept,
    Pick::Lost,
    Pick::Fill(238),
    Pick::Cut(1),
    Pick::Cut(20),
    Pick::Cut(36),
    Pick::Cut(37),
    Pick::Cut(1_060),
    Pick::Cut(65_050),
];

/// The checkpoint's mark. Its begin and its replay place are in the second segment: nothing stands after its
/// CP_BEGIN. It is the first one, so its pages are rebuilt from the log's begin on.
fn mark() -> Mark
    ensures { IsMark result }
{
    Mark {
        number: 1,
        begin: Place { seg: 2, off: 1_053 },
        replay: Place { seg: 2, off: 1_094 },
        from: Place { seg: 1, off: 0 },
        shape: shape(),
    }
}

/// All of it, over a host with a bound folder.
fn run_bound<H: Host>(
    host: &mut H,
    written: &Written,
    ckpt: &mut Ckpt,
    pages: &[PlainPages],
) -> Result<(), Failed>
    requires usable { IsUsable (H.Device.state host.old) }
    requires shape { IsShape ckpt.old.shape }
    requires first { ckpt.old.mark ≡ None }
    requires room { HasRoomFor 1 ckpt.old }
    requires held { IsHeld ckpt.old.shape.page_size (held_in pages.now) (page_id 0 0) }
{
    let mut log = begin_log(host, &written.long)?;
    log_page(host, &mut log, &written.payload)?;
    make_checkpoint(host, &mut log, ckpt, pages, None)
}

/// All of it.
fn run<H: Host>(
    host: &mut H,
    written: &Written,
    ckpt: &mut Ckpt,
    pages: &[PlainPages],
) -> Result<(), Failed>
    requires whole { (H.Device.state host.old).access.is_lent ≡ false }
    requires shape { IsShape ckpt.old.shape }
    requires first { ckpt.old.mark ≡ None }
    requires room { HasRoomFor 1 ckpt.old }
    requires held { IsHeld ckpt.old.shape.page_size (held_in pages.now) (page_id 0 0) }
{
    host.bind("store")?;
    run_bound(host, written, ckpt, pages)
}

/// Whether a scan gives a frame more.
fn has_next<L: LogReader>(host: &mut L, scan: &mut Scan) -> Result<bool, Failed>
    requires usable { IsUsable (L.state host.old) }
    requires ahead { L.tells → IsAhead scan.old (L.history host.old).world }
    ensures usable { IsUsable (L.state host.new) }
    ensures ahead { L.tells → OnOk result (IsAhead scan.new (L.history host.new).world) }
{
    Ok(scan.next(host)?.is_some())
}

/// How many frames stand from this place on, at most nine.
fn count_frames<L: LogReader>(rt: &impl AllocGlobal, host: &mut L, from: Place) -> Result<u32, Fail>
    requires usable { IsUsable (L.state host.old) }
    requires from { from.off ≤ last_end }
    ensures usable { IsUsable (L.state host.new) }
{
    let mut scan = Scan::new(rt.alloc(), from)?;
    'frames: for count in 0..9 {
        if !has_next(host, &mut scan)? {
            return Ok(count);
        }
    }
    Ok(9)
}

/// Whether the page's file has the page.
fn has_page<H: Host>(host: &mut H, into: &mut [u8]) -> Result<bool, Failed>
    requires usable { IsUsable (H.state host.old) }
    requires short { length into.old ≤ 1024 }
    ensures { IsUsable (H.state host.new) }
{
    let is_whole = host.read_page(PageId::new(0, 0), into)?;
    Ok(is_whole && into.iter().all(|byte| *byte == 7))
}

/// How far a store is whose checkpoint is ended: its page is in its file.
fn progress_ended<H: Host>(rt: &(impl Abort + AllocGlobal), host: &mut H) -> Result<u32, Fail>
    requires { IsUsable (H.state host.old) }
{
    let mut into = vec![in rt.alloc(); 0; PAGE_BYTES]?;
    assert!(rt; has_page(host, &mut into)?);
    Ok(if host.seg_len(1)?.is_some() { 7 } else { 8 })
}

/// Looks at a store with a checkpoint: its log has the CP_BEGIN from the begin place on, and nothing from the
/// replay place on.
fn look_at_log<H: Host>(rt: &(impl Abort + AllocGlobal), host: &mut H) -> Result<(), Fail>
    requires { IsUsable (H.state host.old) }
    ensures { IsUsable (H.state host.new) }
{
    assert_eq!(rt; count_frames(rt, host, mark().begin)?, 1);
    assert_eq!(rt; count_frames(rt, host, mark().replay)?, 0);
    Ok(())
}

/// How far a store is, as `BOUNDS` counts.
fn progress<H: Host>(rt: &(impl Abort + AllocGlobal), host: &mut H) -> Result<u32, Fail>
    requires { IsUsable (H.state host.old) }
{
    let marks = read_marks(host)?;
    let Some(found) = marks.start else {
        return count_frames(rt, host, Place { seg: 1, off: 0 });
    };
    assert_eq!(rt; found, mark());
    look_at_log(rt, host)?;
    if marks.ended {
        progress_ended(rt, host)
    } else {
        Ok(6)
    }
}

/// How far the store on this disk is.
fn progress_on(rt: &(impl Abort + AllocGlobal), disk: MemDisk) -> Result<u32, Fail> {
    let mut host = MemHost::new(rt.alloc(), b"", b"", disk, &[], None)?;
    host.bind("store")?;
    progress(rt, &mut host)
}

/// Looks at each crash of a run after this many calls.
fn look_at_crashes(
    rt: &(impl Abort + AllocGlobal),
    host: &MemHost,
    least: u32,
    most: u32,
) -> Result<(), Fail> {
    for pick in PICKS {
        let found = progress_on(rt, host.image(rt.alloc(), pick)?)?;
        assert!(rt; least <= found && found <= most, "{pick:?} leaves {found}");
    }
    Ok(())
}

/// The host after a run that is stopped at this call, and whether the run was done before.
fn run_until(rt: &impl AllocGlobal, stop: u64) -> Result<(MemHost, bool), Fail> {
    let disk = MemDisk::empty(rt.alloc());
    let mut host = MemHost::new(rt.alloc(), b"", b"", disk, &[], Some(stop))?;
    let written = all_written(rt)?;
    let mut ckpt = Ckpt::new(rt.alloc(), shape(), None, 1)?;
    let pages = partition(rt)?;
    let is_done = run(&mut host, &written, &mut ckpt, &pages).is_ok();
    Ok((host, is_done))
}

// Twenty-five calls are made: the checkpoint is in force from its start marker's force on, and its log is
// dropped only once its page is there.
#[test]
fn each_crash_of_a_checkpoint_leaves_it_or_the_log_before_it(rt: HostRuntime) -> Result<(), Fail> {
    for (stop, (least, most)) in BOUNDS.iter().enumerate() {
        let (host, is_done) = run_until(&rt, stop as u64)?;
        assert_eq!(rt; is_done, stop == 25);
        look_at_crashes(&rt, &host, *least, *most)?;
    }
    Ok(())
}
